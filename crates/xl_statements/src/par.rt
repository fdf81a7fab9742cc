// The code of a `par`: its branches, what opens and closes it, and what ends each branch behind the first.

ghost use Rattle.std.specs.Prelude.{◌≡◌, ◌+◌, ◌*◌, ◌<◌, ◌≤◌, ◌^◌, [], ◌∷◌, ◌++◌, length, map, IfOk, OnOk, OnErr};
ghost use Rattle.xc_kernel.specs.Plain as kernel;
ghost use Rattle.xc_meaning.specs.Counts.KernelCounts.{branch_count};
ghost use Rattle.xs_instr.specs.Extends.{Extends};
ghost use Rattle.xs_instr.specs.Lines.{IsOpen, at_pos, landed, last_pos, open_line};
ghost use Rattle.xs_instr.specs.declared.instr.Instr.TheVariants.{Brfu};
ghost use Rattle.xl_expr.specs.Targets.{AreAimed};
ghost use Rattle.xl_par.specs.Closing.{Closes, closing_instrs};
ghost use Rattle.xl_par.specs.Opening.{indices_of};
ghost use Rattle.xl_ends.specs.Sides.{sides_of};
ghost use Rattle.xl_statements.specs.Branches.{SlavesEmitIn};
ghost use Rattle.xl_statements.specs.Built.{AreBuilt, AreNarrow, AreShallow, BranchesAreBuilt, BranchesAreNarrow, BranchesAreShallow, branches_of, most, most_branches, most_of_all, most_of_branches, statements_of};
ghost use Rattle.xl_statements.specs.Emits.{AllEmit, Emitted, ParEmits, SeveralBranches, Slave, StartsEmitted};
ghost use Rattle.xl_statements.specs.Landing.{AreLandable, Lands};

use crate::leaving::Leaving;
use crate::walk::emit_all;
use std::alloc::Global;
use xc_kernel::{KBranch, Kst};
use xl_ends::{Side, sides_of_branches};
use xl_expr::Plan;
use xl_flow::emit_jump;
use xl_par::{close_par, close_slave, open_par};
use xs_instr::{Emitter, Hole};
use xw_words::{List, Memory};

/// The code of the branches of a `par`. One branch has its own code alone, and without branches there is none.
#[cycle(statement)]
pub(crate) fn emit_par(
    alloc: Global,
    e: &mut Emitter,
    plan: &Plan,
    sides: &[Option<Side>],
    branches: &[KBranch],
    left: &mut Vec<Leaving>,
) -> Result<(), Memory>
    requires built { BranchesAreBuilt (branches_of branches.now) }
    requires shallow { BranchesAreShallow (branches_of branches.now) }
    requires narrow { BranchesAreNarrow (branches_of branches.now) }
    requires count { branch_count (branches_of branches.now) ≤ most_branches }
    requires stack { plan.now.first_stack ≤ 16384 }
    requires room { length e.old
        + most plan.now.vars (kernel.par (branches_of branches.now)) < 2 ^ 32 }
    ensures code { OnOk result (Emitted
        (ParEmits plan.now (sides_of sides.now) (branches_of branches.now))
        e.old e.new left.old.items left.new.items) }
    ensures size { OnOk result (length e.new
        ≤ length e.old + most plan.now.vars (kernel.par (branches_of branches.now))) }
    ensures refused { OnErr result (Extends e.old e.new) }
{
    let each = sides_of_branches(alloc, sides, branches)?;
    let each = each.as_slice();
    match branches {
        [] => Ok(()),
        [only] => emit_all(
            alloc,
            e,
            plan,
            each[0].as_slice(),
            only.body.as_slice(),
            left,
        ),
        [first, others @ ..] => {
            let own = each[0].as_slice();
            emit_several(
                alloc,
                e,
                plan,
                own,
                first.body.as_slice(),
                &each[1..],
                others,
                left,
            )
        }
    }
}

/// What opens a `par`, its first branch, what closes it, and past the other branches these, each in its own sides of channels.
#[cycle(statement)]
fn emit_several(
    alloc: Global,
    e: &mut Emitter,
    plan: &Plan,
    own: &[Option<Side>],
    first: &[Kst],
    each: &[List<Option<Side>>],
    others: &[KBranch],
    left: &mut Vec<Leaving>,
) -> Result<(), Memory>
    requires built { AreBuilt (statements_of first.now) }
    requires built_others { BranchesAreBuilt (branches_of others.now) }
    requires shallow { AreShallow (statements_of first.now) }
    requires shallow_others { BranchesAreShallow (branches_of others.now) }
    requires narrow { AreNarrow (statements_of first.now) }
    requires narrow_others { BranchesAreNarrow (branches_of others.now) }
    requires several { 1 ≤ length others.now }
    requires count { length others.now ≤ 7 }
    requires as_many { length each.now ≡ length others.now }
    requires stack { plan.now.first_stack ≤ 16384 }
    requires room { length e.old + most_of_all plan.now.vars (statements_of first.now)
        + most_of_branches plan.now.vars (branches_of others.now)
        + 13 * length others.now + 14 < 2 ^ 32 }
    ensures code { OnOk result (Emitted
        (SeveralBranches plan.now (branch_count (branches_of others.now))
        (AllEmit plan.now (sides_of own.now) (statements_of first.now))
        (SlavesEmitIn plan.now (map sides_of each.now) (branches_of others.now)))
        e.old e.new left.old.items left.new.items) }
    ensures size { OnOk result (length e.new
        ≤ length e.old + most_of_all plan.now.vars (statements_of first.now)
        + most_of_branches plan.now.vars (branches_of others.now) + 13 * length others.now + 14) }
    ensures refused { OnErr result (Extends e.old e.new) }
{
    let last = e.pos();
    let starts = open_par(alloc, e, plan, others.len() as u32 + 1, last)?;
    emit_all(alloc, e, plan, own, first, left)?;
    let past = emit_close(e)?;
    emit_slaves(alloc, e, plan, each, others, starts.as_slice(), left)?;
    e.land(past);
    Ok(())
}

/// What closes a `par` behind its first branch, and a jump past the others, whose target is open.
fn emit_close(e: &mut Emitter) -> Result<Hole, Memory>
    requires { length e.old + 10 < 2 ^ 32 }
    ensures code { OnOk result (e.new ≡ e.old ++ (at_pos (last_pos e.old) closing_instrs
        ++ open_line (Brfu 0) (last_pos e.old) ∷ [])) }
    ensures past { IfOk result (λ past. past.index ≡ length e.old + 9) }
    ensures closes { OnOk result (Closes (last_pos e.old) (length e.old)
        (at_pos (last_pos e.old) closing_instrs)) }
    ensures aimed { OnOk result
        (AreAimed (length e.old) (at_pos (last_pos e.old) closing_instrs)) }
    ensures refused { OnErr result (Extends e.old e.new) }
{
    let last = e.pos();
    close_par(e, last)?;
    emit_jump(e, last)
}

/// The branches behind the first, each in its own sides of channels and from where its start lands.
#[cycle(statement)]
fn emit_slaves(
    alloc: Global,
    e: &mut Emitter,
    plan: &Plan,
    each: &[List<Option<Side>>],
    branches: &[KBranch],
    starts: &[Hole],
    left: &mut Vec<Leaving>,
) -> Result<(), Memory>
    requires built { BranchesAreBuilt (branches_of branches.now) }
    requires shallow { BranchesAreShallow (branches_of branches.now) }
    requires narrow { BranchesAreNarrow (branches_of branches.now) }
    requires stack { plan.now.first_stack ≤ 16384 }
    requires as_many { length each.now ≡ length branches.now }
    requires as_many_starts { length starts.now ≡ length branches.now }
    requires landable { AreLandable e.old (indices_of starts.now) }
    requires room { length e.old
        + most_of_branches plan.now.vars (branches_of branches.now) < 2 ^ 32 }
    ensures code { OnOk result (StartsEmitted
        (SlavesEmitIn plan.now (map sides_of each.now) (branches_of branches.now))
        (indices_of starts.now) e.old e.new left.old.items left.new.items) }
    ensures size { OnOk result (length e.new
        ≤ length e.old + most_of_branches plan.now.vars (branches_of branches.now)) }
    ensures refused { OnErr result (Lands (indices_of starts.now) e.old e.new) }
{
    for (index, branch) in branches.iter().enumerate() {
        let own = each[index].as_slice();
        emit_slave(
            alloc,
            e,
            plan,
            own,
            branch.body.as_slice(),
            starts[index],
            left,
        )?;
    }
    Ok(())
}

/// A branch behind the first, from where its start lands, and its end.
#[cycle(statement)]
fn emit_slave(
    alloc: Global,
    e: &mut Emitter,
    plan: &Plan,
    sides: &[Option<Side>],
    body: &[Kst],
    start: Hole,
    left: &mut Vec<Leaving>,
) -> Result<(), Memory>
    requires built { AreBuilt (statements_of body.now) }
    requires shallow { AreShallow (statements_of body.now) }
    requires narrow { AreNarrow (statements_of body.now) }
    requires stack { plan.now.first_stack ≤ 16384 }
    requires open_start { IsOpen e.old start.index }
    requires room { length e.old + most_of_all plan.now.vars (statements_of body.now) + 1 < 2 ^ 32 }
    ensures code { OnOk result (Emitted
        (Slave (AllEmit plan.now (sides_of sides.now) (statements_of body.now)))
        (landed e.old start.index (length e.old)) e.new left.old.items left.new.items) }
    ensures size { OnOk result
        (length e.new ≤ length e.old + most_of_all plan.now.vars (statements_of body.now) + 1) }
    ensures refused { OnErr result (Extends (landed e.old start.index (length e.old)) e.new) }
{
    e.land(start);
    emit_all(alloc, e, plan, sides, body, left)?;
    let last = e.pos();
    close_slave(e, last)
}
