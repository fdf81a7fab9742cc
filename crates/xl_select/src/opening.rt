//! The code that opens a select: guards, times and conditions are evaluated in text order, and the enabled cases set up.
ghost use Rattle.std.specs.Prelude.{◌≡◌, ◌+◌, ◌-◌, ◌*◌, ◌<◌, ◌≤◌, ◌^◌, [], ◌∷◌, ◌++◌, length, option_map, IfOk, OnOk, OnErr};
ghost use Rattle.xc_kernel.specs.Kernels.{condition_of, expression_of, input_of, select_of};
ghost use Rattle.xc_meaning.specs.Settings.Select.{same_resource};
ghost use Rattle.xs_instr.specs.Adds.{Adds};
ghost use Rattle.xs_instr.specs.Extends.{Extends};
ghost use Rattle.xs_instr.specs.Lines.{at_pos, last_pos};
ghost use Rattle.xl_par.specs.Opening.{indices_of};
ghost use Rattle.xl_port.specs.Timings.{time_depth, time_nodes, timing_expression};
ghost use Rattle.xl_select.specs.Holes.{holes_in};
ghost use Rattle.xl_select.specs.Opening.{AreAimedWith, Opens};
ghost use Rattle.xl_select.specs.OpeningCode.{arming_lines, case_count, case_depth, case_lines, case_parts, cases_depth, cases_in, cases_lines, cases_of, cases_parts, cases_starts, cond_named, default_start, flag_for, flag_lines, guard_lines, has_default, index_of, name_instrs, opening_lines, opening_starts, place_from, resource_name, resources_from, seen_by, select_pos, setting_instrs, taking_lines, tested_lines, timed_lines, value_lines, waiting_instrs};

use std::alloc::Global;
use xc_kernel::{KCase, KHead, KRes, KSelect, Kx};
use xc_tree::words::{PINSEQ_WORD, PINSNEQ_WORD};
use xl_expr::{Plan, ResAt, emit_above, emit_identifier};
use xs_instr::{Cond, Emitter, Hole, Instr, Reg};
use xw_words::{List, Memory, Pos};

/// The temporary word from which on expressions have theirs; those below are flags.
const FIRST_VALUE: u32 = 112;

/// The number of a resource's flag, and whether an earlier case names the resource.
#[derive(Clone, Copy)]
pub struct Flag {
    pub number: u32,
    pub is_known: bool,
}

/// What is open in the code that opens a select: where each case's event leads, in text order, and where its default stands.
#[derive(Drop)]
pub struct SelectHoles {
    pub cases: List<Hole>,
    pub otherwise: Option<Hole>,
}

/// The code that opens a select, up to where an event is taken. `ends` has a number for each case, in text order: of a channel's case the
/// place of its end among the plan's ends; that of a port's or timer's isn't looked at.
///
/// Nothing is enabled for the thread at first. Then each case in text order has its guard evaluated, and its time or condition where the
/// guard isn't 0; and its port or timer is set and its event enabled, if no earlier case of the same resource is enabled. A flag for
/// each resource, by the order in which they are named, says so. With a default it stands behind a look whether an event can be taken;
/// without one the thread waits for an event.
///
/// `opens`: wherever the code stands, and whatever others do in between that leaves what the thread relies on and the resources of the
/// cases, the thread comes within 8 own steps for each part of a case and two more to where its next step lets it take events. Exactly the
/// cases are set up that a run counts as enabled, each for what it waits for, and with its own start. Or its next step traps with the error
/// that comes first in the text.
///
/// The one error is want of memory; the emitter then holds what it held, and perhaps further instructions behind it.
pub fn open_select(
    alloc: Global,
    e: &mut Emitter,
    plan: &Plan,
    s: &KSelect,
    ends: &[u32],
) -> Result<SelectHoles, Memory>
    requires room { length e.old + 8 * cases_parts (cases_in (select_of s.now)) + 8 < 2 ^ 32 }
    requires shallow { cases_depth (cases_in (select_of s.now)) ≤ 400 }
    requires few { length (resources_from [] (cases_in (select_of s.now))) ≤ 112 }
    requires ends { length ends.now ≡ case_count (cases_in (select_of s.now)) }
    ensures code { OnOk result (e.new ≡ e.old ++ opening_lines plan.now ends.now
        (cases_in (select_of s.now)) (has_default (select_of s.now)) (select_pos (select_of s.now))
        (length e.old)) }
    ensures holes { IfOk result (λ holes. indices_of holes.cases
        ≡ cases_starts plan.now ends.now [] (length e.old + 2) (select_pos (select_of s.now))
        (cases_in (select_of s.now))) }
    ensures otherwise { IfOk result (λ holes. option_map index_of holes.otherwise
        ≡ default_start (has_default (select_of s.now)) (length e.new)) }
    ensures open { OnOk result (Adds e.old e.new (λ lines. holes_in lines (length e.old)
        ≡ opening_starts plan.now ends.now (select_of s.now) (length e.old) (length e.new))) }
    ensures opens { OnOk result (Adds e.old e.new (Opens plan.now ends.now
        (cases_in (select_of s.now)) (has_default (select_of s.now))
        (select_pos (select_of s.now)) (length e.old))) }
    ensures size { OnOk result
        (length e.new ≤ length e.old + 8 * cases_parts (cases_in (select_of s.now)) + 5) }
    ensures aimed { OnOk result (Adds e.old e.new (AreAimedWith
        (case_count (cases_in (select_of s.now))) (has_default (select_of s.now)) (length e.old))) }
    ensures refused { OnErr result (Extends e.old e.new) }
{
    let mut starts = Vec::new(alloc);
    e.put_all(&[Instr::Clre, Instr::Ldc(Reg::R9, 1)], s.pos)?;
    put_cases(alloc, e, plan, s.cases.as_slice(), ends, &mut starts)?;
    let otherwise = put_taking(e, s.otherwise.is_some(), s.pos)?;
    Ok(SelectHoles {
        cases: List::from_vec(starts),
        otherwise,
    })
}

/// An event is taken: by a look, behind which the default's start is open, or by waiting for one.
fn put_taking(e: &mut Emitter, looks: bool, pos: Pos) -> Result<Option<Hole>, Memory>
    requires { length e.old + 3 < 2 ^ 32 }
    ensures code { OnOk result (e.new ≡ e.old ++ taking_lines looks pos) }
    ensures otherwise { IfOk result
        (λ hole. option_map index_of hole ≡ default_start looks (length e.new)) }
    ensures refused { OnErr result (Extends e.old e.new) }
{
    if looks {
        e.put_all(&[Instr::Setsr(1), Instr::Clrsr(1)], pos)?;
        let otherwise = e.hole(Instr::Brfu(0), pos)?;
        Ok(Some(otherwise))
    } else {
        e.put_all(&[Instr::Setsr(1), Instr::Waiteu], pos)?;
        Ok(None)
    }
}

/// The code of all cases; their open vectors go behind those in `starts`.
fn put_cases(
    alloc: Global,
    e: &mut Emitter,
    plan: &Plan,
    cases: &[KCase],
    ends: &[u32],
    starts: &mut Vec<Hole>,
) -> Result<(), Memory>
    requires room { length e.old + 8 * cases_parts (cases_of cases.now) + 4 < 2 ^ 32 }
    requires shallow { cases_depth (cases_of cases.now) ≤ 400 }
    requires few { length (resources_from [] (cases_of cases.now)) ≤ 112 }
    requires ends { length ends.now ≡ length cases.now }
    ensures code { OnOk result (e.new ≡ e.old ++ cases_lines plan.now ends.now []
        (length e.old) (last_pos e.old) (cases_of cases.now)) }
    ensures starts { OnOk result (indices_of starts.new.items ≡ indices_of starts.old.items
        ++ cases_starts plan.now ends.now [] (length e.old) (last_pos e.old) (cases_of cases.now)) }
    ensures size { OnOk result
        (length e.new ≤ length e.old + 8 * cases_parts (cases_of cases.now)) }
    ensures refused { OnErr result (Extends e.old e.new) }
{
    let mut seen = Vec::new(alloc);
    let mut index = 0;
    'each: for case in cases {
        let flag = flag_of(seen.as_slice(), case.head.res);
        let start = put_case(e, plan, ends[index], &case.guard, &case.head, flag)?;
        push_start(starts, start)?;
        note_resource(&mut seen, case.head.res, flag)?;
        index += 1;
    }
    Ok(())
}

/// One more hole.
fn push_start(starts: &mut Vec<Hole>, start: Hole) -> Result<(), Memory>
    ensures { OnOk result (indices_of starts.new.items
        ≡ indices_of starts.old.items ++ start.index ∷ []) }
{
    match starts.push(start) {
        Ok(()) => Ok(()),
        Err(_) => Err(Memory),
    }
}

/// A resource that no earlier case names goes behind the others.
fn note_resource(seen: &mut Vec<KRes>, res: KRes, flag: Flag) -> Result<(), Memory>
    ensures { OnOk result (seen.new.items ≡ seen_by seen.old.items res flag.is_known) }
{
    if flag.is_known {
        return Ok(());
    }
    match seen.push(res) {
        Ok(()) => Ok(()),
        Err(_) => Err(Memory),
    }
}

/// The flag of a resource, behind those of the resources named so far.
fn flag_of(seen: &[KRes], res: KRes) -> Flag
    requires { length seen.now ≤ 112 }
    ensures { result ≡ flag_for seen.now res }
{
    match place_of(seen, res) {
        Some(number) => Flag {
            number,
            is_known: true,
        },
        None => Flag {
            number: seen.len() as u32,
            is_known: false,
        },
    }
}

/// The place of a resource among others.
fn place_of(seen: &[KRes], res: KRes) -> Option<u32>
    requires { length seen.now ≤ 112 }
    ensures { result ≡ place_from 0 seen.now res }
{
    let mut place = 0;
    let mut rest = seen;
    'each: while let [first, behind @ ..] = rest {
        if is_same(*first, res) {
            return Some(place);
        }
        place += 1;
        rest = behind;
    }
    None
}

/// Whether two are one resource.
fn is_same(one: KRes, other: KRes) -> bool
    ensures { result ≡ same_resource one other }
{
    match (one, other) {
        (KRes::Port(a), KRes::Port(b)) => a == b,
        (KRes::Timer(a), KRes::Timer(b)) => a == b,
        (KRes::Chan(a), KRes::Chan(b)) => a == b,
        _ => false,
    }
}

/// The code of a case. Its vector, the last instruction but one, is open.
fn put_case(
    e: &mut Emitter,
    plan: &Plan,
    end: u32,
    guard: &Option<Kx>,
    head: &KHead,
    flag: Flag,
) -> Result<Hole, Memory>
    requires room { length e.old + 8 * case_parts
        (option_map expression_of guard.now) (input_of head.now) + 4 < 2 ^ 32 }
    requires shallow { case_depth (option_map expression_of guard.now) (input_of head.now) ≤ 400 }
    ensures code { OnOk result (e.new ≡ e.old ++ case_lines plan.now end flag
        (option_map expression_of guard.now) (input_of head.now) (length e.old) (last_pos e.old)) }
    ensures start { IfOk result (λ start. start.index + 2 ≡ length e.new) }
    ensures size { OnOk result (length e.new ≤ length e.old + 8 * case_parts
        (option_map expression_of guard.now) (input_of head.now)) }
    ensures refused { OnErr result (Extends e.old e.new) }
{
    put_guard(e, plan, guard, flag, head.pos)?;
    match guard {
        None => put_timed(e, plan, end, head, flag),
        Some(_) => {
            let past = e.hole(Instr::Brff(Reg::R0, 0), head.pos)?;
            let start = put_timed(e, plan, end, head, flag)?;
            e.land(past);
            Ok(start)
        }
    }
}

/// The word of a guard, where there is one, and the flag of a resource that no earlier case names: it gets that word, else 1.
fn put_guard(
    e: &mut Emitter,
    plan: &Plan,
    guard: &Option<Kx>,
    flag: Flag,
    pos: Pos,
) -> Result<(), Memory>
    requires room { length e.old
        + 8 * time_nodes (option_map expression_of guard.now) + 1 < 2 ^ 32 }
    requires shallow { time_depth (option_map expression_of guard.now) ≤ 400 }
    ensures code { OnOk result (e.new ≡ e.old ++ guard_lines plan.now.vars flag pos
        (option_map expression_of guard.now) (length e.old) (last_pos e.old)) }
    ensures size { OnOk result
        (length e.new ≤ length e.old + 7 * time_nodes (option_map expression_of guard.now) + 1) }
    ensures refused { OnErr result (Extends e.old e.new) }
{
    put_value(e, plan, guard)?;
    let from = match guard {
        None => Reg::R9,
        Some(_) => Reg::R0,
    };
    put_flag(e, flag, pos, from)
}

/// The word of an expression, where there is one, in r0.
fn put_value(e: &mut Emitter, plan: &Plan, value: &Option<Kx>) -> Result<(), Memory>
    requires room { length e.old + 8 * time_nodes (option_map expression_of value.now) < 2 ^ 32 }
    requires shallow { time_depth (option_map expression_of value.now) ≤ 400 }
    ensures code { OnOk result (e.new ≡ e.old ++ value_lines plan.now.vars
        (option_map expression_of value.now) (length e.old) (last_pos e.old)) }
    ensures size { OnOk result
        (length e.new ≤ length e.old + 7 * time_nodes (option_map expression_of value.now)) }
    ensures refused { OnErr result (Extends e.old e.new) }
{
    match value {
        None => Ok(()),
        Some(value) => emit_above(e, plan, value, FIRST_VALUE),
    }
}

/// The flag of a resource that no earlier case names.
fn put_flag(e: &mut Emitter, flag: Flag, pos: Pos, from: Reg) -> Result<(), Memory>
    requires { length e.old + 1 < 2 ^ 32 }
    ensures code { OnOk result (e.new ≡ e.old ++ flag_lines flag pos from) }
    ensures refused { OnErr result (Extends e.old e.new) }
{
    if flag.is_known {
        Ok(())
    } else {
        e.put_all(&[Instr::Stwsp(from, flag.number)], pos)
    }
}

/// The word of a case's time or condition, and then its setting up.
fn put_timed(
    e: &mut Emitter,
    plan: &Plan,
    end: u32,
    head: &KHead,
    flag: Flag,
) -> Result<Hole, Memory>
    requires room { length e.old + 8 * time_nodes (timing_expression (option_map expression_of
        head.now.time) (option_map condition_of head.now.cond)) + 9 < 2 ^ 32 }
    requires shallow { time_depth (timing_expression (option_map expression_of head.now.time)
        (option_map condition_of head.now.cond)) ≤ 400 }
    ensures code { OnOk result (e.new ≡ e.old ++ timed_lines plan.now end flag
        (input_of head.now) (length e.old) (last_pos e.old)) }
    ensures start { IfOk result (λ start. start.index + 2 ≡ length e.new) }
    ensures refused { OnErr result (Extends e.old e.new) }
{
    match &head.time {
        Some(time) => emit_above(e, plan, time, FIRST_VALUE)?,
        None => match &head.cond {
            Some((_, value)) => emit_above(e, plan, value, FIRST_VALUE)?,
            None => {}
        },
    }
    put_tested(e, plan, end, head, flag)
}

/// The setting up of a case, unless an earlier case of its resource is enabled.
fn put_tested(
    e: &mut Emitter,
    plan: &Plan,
    end: u32,
    head: &KHead,
    flag: Flag,
) -> Result<Hole, Memory>
    requires { length e.old + 9 < 2 ^ 32 }
    ensures code { OnOk result (e.new ≡ e.old ++ tested_lines flag head.now.pos
        (arming_lines plan.now end (input_of head.now)) (length e.old)) }
    ensures start { IfOk result (λ start. start.index + 2 ≡ length e.new) }
    ensures refused { OnErr result (Extends e.old e.new) }
{
    if flag.is_known {
        e.put(Instr::Ldwsp(Reg::R10, flag.number), head.pos)?;
        let past = e.hole(Instr::Brft(Reg::R10, 0), head.pos)?;
        e.put(Instr::Stwsp(Reg::R9, flag.number), head.pos)?;
        let start = put_arming(e, plan, end, head)?;
        e.land(past);
        Ok(start)
    } else {
        put_arming(e, plan, end, head)
    }
}

/// The name of a case's resource, its setting, and its event with an open vector.
fn put_arming(e: &mut Emitter, plan: &Plan, end: u32, head: &KHead) -> Result<Hole, Memory>
    requires { length e.old + 6 < 2 ^ 32 }
    ensures code { OnOk result
        (e.new ≡ e.old ++ arming_lines plan.now end (input_of head.now)) }
    ensures start { IfOk result (λ start. start.index + 2 ≡ length e.new) }
    ensures size { OnOk result (length e.new ≤ length e.old + 6) }
    ensures refused { OnErr result (Extends e.old e.new) }
{
    put_name(e, name_of(plan, end, head.res), head.pos)?;
    put_setting(e, head)?;
    let start = e.hole(Instr::Setv(Reg::R11, 0), head.pos)?;
    e.put(Instr::Eeu(Reg::R11), head.pos)?;
    Ok(start)
}

/// Where the identifier of a resource comes from: of a channel that of an end.
fn name_of(plan: &Plan, end: u32, res: KRes) -> Option<ResAt>
    ensures { result ≡ resource_name plan.now end res }
{
    match res {
        KRes::Chan(_) => plan.end(end),
        _ => plan.res(res),
    }
}

/// The identifier in r11, where there is one.
fn put_name(e: &mut Emitter, name: Option<ResAt>, pos: Pos) -> Result<(), Memory>
    requires { length e.old + 2 < 2 ^ 32 }
    ensures code { OnOk result (e.new ≡ e.old ++ at_pos pos (name_instrs name)) }
    ensures size { OnOk result (length e.new ≤ length e.old + 2) }
    ensures refused { OnErr result (Extends e.old e.new) }
{
    match name {
        None => Ok(()),
        Some(place) => emit_identifier(e, place, pos),
    }
}

/// A port or timer is set for what its case waits for; a channel end needs no setting.
fn put_setting(e: &mut Emitter, head: &KHead) -> Result<(), Memory>
    requires { length e.old + 2 < 2 ^ 32 }
    ensures code { OnOk result (e.new ≡ e.old ++ at_pos head.now.pos (setting_instrs head.now.res
        (option_map expression_of head.now.time) (option_map condition_of head.now.cond))) }
    ensures size { OnOk result (length e.new ≤ length e.old + 2) }
    ensures refused { OnErr result (Extends e.old e.new) }
{
    match head.res {
        KRes::Chan(_) => Ok(()),
        _ => put_waiting(e, head),
    }
}

/// A port or timer is cleared, and set by the word in r0.
fn put_waiting(e: &mut Emitter, head: &KHead) -> Result<(), Memory>
    requires { length e.old + 2 < 2 ^ 32 }
    ensures code { OnOk result (e.new ≡ e.old ++ at_pos head.now.pos (waiting_instrs
        (option_map expression_of head.now.time) (option_map condition_of head.now.cond))) }
    ensures size { OnOk result (length e.new ≤ length e.old + 2) }
    ensures refused { OnErr result (Extends e.old e.new) }
{
    let clearing = Instr::Setc(Reg::R11, Cond::None);
    match &head.time {
        Some(_) => {
            let timing = Instr::Setpt(Reg::R11, Reg::R0);
            e.put_all(&[clearing, timing], head.pos)
        }
        None => match &head.cond {
            Some((word, _)) => {
                let asking = Instr::Setc(Reg::R11, cond_of(*word));
                let comparing = Instr::Setd(Reg::R11, Reg::R0);
                e.put_all(&[asking, comparing], head.pos)
            }
            None => e.put_all(&[clearing], head.pos),
        },
    }
}

/// The machine's condition of a test, by its word's place in `WORDS`.
fn cond_of(word: u8) -> Cond
    ensures { result ≡ cond_named word }
{
    if word == PINSEQ_WORD {
        Cond::Eq
    } else if word == PINSNEQ_WORD {
        Cond::Neq
    } else {
        Cond::After
    }
}
