// The code of a select: what opens it, its cases one after the other, its default, and its end.

ghost use Rattle.std.specs.Prelude.{◌≡◌, ◌+◌, ◌*◌, ◌<◌, ◌≤◌, ◌^◌, [], ◌∷◌, ◌++◌, length, option_map, true, IfOk, OnOk, OnErr};
ghost use Rattle.xc_kernel.specs.Kernels.{default_of, input_of, select_of};
ghost use Rattle.xs_instr.specs.Extends.{Extends};
ghost use Rattle.xs_instr.specs.Lines.{IsOpen, landed};
ghost use Rattle.xl_par.specs.Opening.{indices_of};
ghost use Rattle.xl_ends.specs.Sides.{sides_of};
ghost use Rattle.xl_select.specs.Entry.{EntersCase, entry_depth, entry_nodes};
ghost use Rattle.xl_select.specs.Holes.{listed};
ghost use Rattle.xl_select.specs.OpeningCode.{cases_of, index_of};
ghost use Rattle.xl_statements.specs.Built.{AreBuilt, AreNarrow, AreShallow, CasesAreBuilt, CasesAreNarrow, CasesAreShallow, DefaultIsBuilt, DefaultIsNarrow, DefaultIsShallow, IsBuilt, IsNarrow, IsShallow, most, most_levels, most_of_all, most_of_cases, most_of_default, statements_of};
ghost use Rattle.xl_statements.specs.CaseCodes.{CaseEmits, CasesEmitIn, starts_of};
ghost use Rattle.xl_statements.specs.CaseEnds.{case_end, case_ends};
ghost use Rattle.xl_statements.specs.Emits.{AllEmit, CaseCode, DefaultEmits, Emits, Emitted, InsideEmits, StartsEmitted, is_last, jump_unless};
ghost use Rattle.xl_statements.specs.Landing.{AreLandable, Lands, all_landed};

use crate::leaving::{JumpTarget, Leaving, emit_leaving, end_here};
use crate::walk::emit_all;
use std::alloc::Global;
use xc_kernel::{KCase, KHead, KRes, KSelect, Kst};
use xl_ends::{Side, end_at};
use xl_expr::Plan;
use xl_select::{open_case, open_select};
use xs_instr::{Emitter, Hole};
use xw_words::{List, Memory};

/// The code of a select. The bodies of its cases and of its default stand in the blocks around it.
#[cycle(statement)]
pub(crate) fn emit_select(
    alloc: Global,
    e: &mut Emitter,
    plan: &Plan,
    sides: &[Option<Side>],
    select: &KSelect,
    left: &mut Vec<Leaving>,
) -> Result<(), Memory>
    requires built { IsBuilt (select_of select.now) }
    requires shallow { IsShallow (select_of select.now) }
    requires narrow { IsNarrow (select_of select.now) }
    requires stack { plan.now.first_stack ≤ 16384 }
    requires room { length e.old + most plan.now.vars (select_of select.now) < 2 ^ 32 }
    ensures code { OnOk result (Emitted
        (Emits plan.now (sides_of sides.now) (select_of select.now))
        e.old e.new left.old.items left.new.items) }
    ensures size { OnOk result
        (length e.new ≤ length e.old + most plan.now.vars (select_of select.now)) }
    ensures refused { OnErr result (Extends e.old e.new) }
{
    let outside = left.len();
    let cases = select.cases.as_slice();
    let ends = ends_of_cases(alloc, plan, sides, cases)?;
    let starts = open_select(alloc, e, plan, select, ends.as_slice())?;
    emit_cases(
        alloc,
        e,
        plan,
        sides,
        cases,
        &select.otherwise,
        starts.cases.as_slice(),
        starts.otherwise,
        left,
    )?;
    end_here(e, JumpTarget::SelectEnd, outside, left)
}

/// The cases and then the default, each from where its start lands.
#[cycle(statement)]
fn emit_cases(
    alloc: Global,
    e: &mut Emitter,
    plan: &Plan,
    sides: &[Option<Side>],
    cases: &[KCase],
    otherwise: &Option<List<Kst>>,
    starts: &[Hole],
    default_start: Option<Hole>,
    left: &mut Vec<Leaving>,
) -> Result<(), Memory>
    requires built { CasesAreBuilt (cases_of cases.now) }
    requires built_default { DefaultIsBuilt (default_of otherwise.now) }
    requires shallow { CasesAreShallow (cases_of cases.now) }
    requires shallow_default { DefaultIsShallow (default_of otherwise.now) }
    requires narrow { CasesAreNarrow (cases_of cases.now) }
    requires narrow_default { DefaultIsNarrow (default_of otherwise.now) }
    requires stack { plan.now.first_stack ≤ 16384 }
    requires as_many { length starts.now ≡ length cases.now }
    requires landable { AreLandable e.old (starts_of starts.now default_start) }
    requires room { length e.old + most_of_cases plan.now.vars (cases_of cases.now)
        + most_of_default plan.now.vars (default_of otherwise.now) < 2 ^ 32 }
    ensures code { OnOk result (StartsEmitted
        (CasesEmitIn plan.now sides.now cases.now otherwise.now)
        (starts_of starts.now default_start) e.old e.new left.old.items left.new.items) }
    ensures size { OnOk result (length e.new
        ≤ length e.old + most_of_cases plan.now.vars (cases_of cases.now)
        + most_of_default plan.now.vars (default_of otherwise.now)) }
    ensures refused { OnErr result (Lands (starts_of starts.now default_start) e.old e.new) }
{
    for (index, case) in cases.iter().enumerate() {
        let ends_select = is_last_code(&cases[index + 1..], otherwise);
        emit_case(
            alloc,
            e,
            plan,
            sides,
            &case.head,
            case.body.as_slice(),
            ends_select,
            starts[index],
            left,
        )?;
    }
    emit_default(alloc, e, plan, sides, otherwise, default_start, left)
}

/// A case from where its start lands: what it begins with, its body, and a jump to the select's end unless the case is the last code of the
/// select.
#[cycle(statement)]
fn emit_case(
    alloc: Global,
    e: &mut Emitter,
    plan: &Plan,
    sides: &[Option<Side>],
    head: &KHead,
    body: &[Kst],
    ends_select: bool,
    start: Hole,
    left: &mut Vec<Leaving>,
) -> Result<(), Memory>
    requires built { AreBuilt (statements_of body.now) }
    requires shallow_entry { entry_depth (input_of head.now) ≤ most_levels }
    requires shallow { AreShallow (statements_of body.now) }
    requires narrow { AreNarrow (statements_of body.now) }
    requires stack { plan.now.first_stack ≤ 16384 }
    requires open_start { IsOpen e.old start.index }
    requires room { length e.old + 8 * entry_nodes (input_of head.now) + 7
        + most_of_all plan.now.vars (statements_of body.now) < 2 ^ 32 }
    ensures code { OnOk result (Emitted
        (CaseEmits plan.now sides.now head.now body.now ends_select)
        (landed e.old start.index (length e.old)) e.new left.old.items left.new.items) }
    ensures size { OnOk result (length e.new
        ≤ length e.old + 8 * entry_nodes (input_of head.now) + 7
        + most_of_all plan.now.vars (statements_of body.now)) }
    ensures refused { OnErr result (Extends (landed e.old start.index (length e.old)) e.new) }
{
    e.land(start);
    let end = end_of_case(plan, sides, head.res);
    open_case(e, plan, head, end, true)?;
    emit_all(alloc, e, plan, sides, body, left)?;
    emit_jump_unless(e, ends_select, left)
}

/// The default from where its start lands, where there is one.
#[cycle(statement)]
fn emit_default(
    alloc: Global,
    e: &mut Emitter,
    plan: &Plan,
    sides: &[Option<Side>],
    otherwise: &Option<List<Kst>>,
    start: Option<Hole>,
    left: &mut Vec<Leaving>,
) -> Result<(), Memory>
    requires built { DefaultIsBuilt (default_of otherwise.now) }
    requires shallow { DefaultIsShallow (default_of otherwise.now) }
    requires narrow { DefaultIsNarrow (default_of otherwise.now) }
    requires stack { plan.now.first_stack ≤ 16384 }
    requires landable { AreLandable e.old (listed (option_map index_of start)) }
    requires room { length e.old
        + most_of_default plan.now.vars (default_of otherwise.now) < 2 ^ 32 }
    ensures code { OnOk result (StartsEmitted
        (DefaultEmits plan.now (sides_of sides.now) (default_of otherwise.now))
        (listed (option_map index_of start)) e.old e.new left.old.items left.new.items) }
    ensures size { OnOk result
        (length e.new ≤ length e.old + most_of_default plan.now.vars (default_of otherwise.now)) }
    ensures refused { OnErr result (Lands (listed (option_map index_of start)) e.old e.new) }
{
    match otherwise {
        None => Ok(()),
        Some(body) => {
            land_start(e, start);
            emit_all(alloc, e, plan, sides, body.as_slice(), left)
        }
    }
}

/// A start lands, where there is one.
fn land_start(e: &mut Emitter, start: Option<Hole>)
    requires { AreLandable e.old (listed (option_map index_of start)) }
    ensures { e.new ≡ all_landed e.old (listed (option_map index_of start)) (length e.old ∷ []) }
{
    if let Some(start) = start {
        e.land(start);
    }
}

/// The jump to the select's end behind a case, unless the case is the last code of the select.
fn emit_jump_unless(
    e: &mut Emitter,
    ends_select: bool,
    left: &mut Vec<Leaving>,
) -> Result<(), Memory>
    requires { length e.old + 1 < 2 ^ 32 }
    ensures code { OnOk result (Emitted (λ last pc cells. cells ≡ jump_unless ends_select last)
        e.old e.new left.old.items left.new.items) }
    ensures size { OnOk result (length e.new ≤ length e.old + 1) }
    ensures refused { OnErr result (Extends e.old e.new) }
{
    if ends_select {
        Ok(())
    } else {
        emit_leaving(e, JumpTarget::SelectEnd, left)
    }
}

/// Whether a case is the last code of its select, by the cases and the default behind it.
fn is_last_code(others: &[KCase], otherwise: &Option<List<Kst>>) -> bool
    ensures { result ≡ is_last (cases_of others.now) (default_of otherwise.now) }
{
    others.len() == 0 && otherwise.is_none()
}

/// The end that each case looks at.
fn ends_of_cases(
    alloc: Global,
    plan: &Plan,
    sides: &[Option<Side>],
    cases: &[KCase],
) -> Result<List<u32>, Memory>
    ensures { IfOk result
        (λ ends. ends ≡ case_ends plan.now.channels (sides_of sides.now) (cases_of cases.now)) }
{
    let mut ends = List::new(alloc);
    for case in cases {
        ends.push(end_of_case(plan, sides, case.head.res))?;
    }
    Ok(ends)
}

/// The end that a case looks at: of a channel that of the side in which the select stands, and else 0, which isn't looked at.
fn end_of_case(plan: &Plan, sides: &[Option<Side>], res: KRes) -> u32
    ensures { result ≡ case_end plan.now.channels (sides_of sides.now) res }
{
    match res {
        KRes::Port(_) => 0,
        KRes::Timer(_) => 0,
        KRes::Chan(channel) => match end_at(plan.channels.as_slice(), sides, channel) {
            None => 0,
            Some(end) => end,
        },
    }
}
