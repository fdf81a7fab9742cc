ghost use Rattle.std.specs.Prelude.{◌≡◌, map, IfOk, OnOk};
ghost use Rattle.xc_disjoint.specs.Behind.{ClashesBehind, ClashesBy};
ghost use Rattle.xc_disjoint.specs.Clashes.{Clashes};
ghost use Rattle.xc_disjoint.specs.Footprints as uses;
ghost use Rattle.xc_disjoint.specs.Footprints.{both, nothing, uses_in};
ghost use Rattle.xc_kernel.specs.Branches.{branches_of, pars_of};
ghost use Rattle.xc_kernel.specs.Kernels.{branch_of, case_of, input_of, output_of, root_of, statement_of};
ghost use Rattle.xc_kernel.specs.Pars as pars;
ghost use Rattle.xc_kernel.specs.Plain as plain;
ghost use Rattle.xc_tree.specs.Least.{IsLeastOf};

use crate::expressions::{condition, expression, some_expression, some_target, target};
use crate::footprint::Footprint;
use std::alloc::Global;
use xc_kernel::{KBranch, KCase, KHead, KOut, Kst, Root};
use xc_tree::earlier;
use xw_words::{Broken, Memory, Pos};

/// The first of the rules 601, 602 and 606 that the branches of a `par` break, the roots being those of one `par`: a variable
/// that one branch changes, a port or a timer is used in a later or earlier one. It stands at the later branch. Want of memory
/// leaves the roots as they were. The stack that it needs grows with the depth of the kernel.
pub fn first_clash(alloc: Global, roots: &[Root]) -> Result<Option<Broken>, Memory>
    ensures { IfOk result (λ first. IsLeastOf (Clashes (pars_of (map root_of roots.now))) first) }
{
    let mut whole = Footprint::new(alloc);
    let first = behind_each(alloc, &mut whole, roots);
    drop(whole);
    first
}

/// Goes on behind each of the roots, and gives the first rule that is broken.
fn behind_each(
    alloc: Global,
    whole: &mut Footprint,
    roots: &[Root],
) -> Result<Option<Broken>, Memory>
    ensures { IfOk result (λ first. IsLeastOf
        (ClashesBehind (uses_in whole.old) (branches_of (map root_of roots.now))) first) }
{
    let mut best = None;
    for root in roots {
        let clash = branch(alloc, whole, root.body.as_slice(), root.pos)?;
        best = earlier(best, clash);
    }
    Ok(best)
}

/// Goes on behind a branch, and gives the first rule that is broken in it or by it and those before it.
#[cycle(statements)]
#[tactic(auto, using(crate::proofs::CodeSteps::steps))]
fn branch(
    alloc: Global,
    whole: &mut Footprint,
    body: &[Kst],
    pos: Pos,
) -> Result<Option<Broken>, Memory>
    ensures uses { OnOk result (uses_in whole.new ≡ both (uses_in whole.old)
        (uses.of_statements (plain.statements (map statement_of body.now)))) }
    ensures first { IfOk result (λ first. IsLeastOf
        (ClashesBy (uses_in whole.old) (plain.statements (map statement_of body.now)) pos) first) }
{
    let mut own = Footprint::new(alloc);
    let first = behind(alloc, whole, &mut own, body, pos);
    drop(own);
    first
}

/// Goes on behind a branch, whose own footprint is begun.
#[cycle(statements)]
#[tactic(auto, using(crate::proofs::CodeSteps::steps))]
fn behind(
    alloc: Global,
    whole: &mut Footprint,
    own: &mut Footprint,
    body: &[Kst],
    pos: Pos,
) -> Result<Option<Broken>, Memory>
    requires { uses_in own.now ≡ nothing }
    ensures uses { OnOk result (uses_in whole.new ≡ both (uses_in whole.old)
        (uses.of_statements (plain.statements (map statement_of body.now)))) }
    ensures first { IfOk result (λ first. IsLeastOf
        (ClashesBy (uses_in whole.old) (plain.statements (map statement_of body.now)) pos) first) }
{
    let inside = statements(alloc, own, body)?;
    let here = whole.clash(own, pos);
    whole.join(own)?;
    Ok(earlier(here, inside))
}

#[cycle(statements)]
#[tactic(auto, using(crate::proofs::CodeSteps::steps))]
fn branches(alloc: Global, whole: &mut Footprint, all: &[KBranch]) -> Result<Option<Broken>, Memory>
    ensures uses { OnOk result (uses_in whole.new
        ≡ both (uses_in whole.old) (uses.of_branches (plain.branches (map branch_of all.now)))) }
    ensures first { IfOk result (λ first. IsLeastOf
        (ClashesBehind (uses_in whole.old) (plain.branches (map branch_of all.now))) first) }
{
    let mut best = None;
    for b in all {
        let clash = branch(alloc, whole, b.body.as_slice(), b.pos)?;
        best = earlier(best, clash);
    }
    Ok(best)
}

/// Goes on behind statements, and gives the first rule that is broken in them.
#[cycle(statements)]
#[tactic(auto, using(crate::proofs::CodeSteps::steps))]
fn statements(
    alloc: Global,
    footprint: &mut Footprint,
    all: &[Kst],
) -> Result<Option<Broken>, Memory>
    ensures uses { OnOk result (uses_in footprint.new ≡ both (uses_in footprint.old)
        (uses.of_statements (plain.statements (map statement_of all.now)))) }
    ensures first { IfOk result (λ first. IsLeastOf
        (Clashes (pars.of_statements (plain.statements (map statement_of all.now)))) first) }
{
    let mut best = None;
    for s in all {
        let clash = statement(alloc, footprint, s)?;
        best = earlier(best, clash);
    }
    Ok(best)
}

#[cycle(statements)]
#[tactic(auto, using(crate::proofs::CodeSteps::steps))]
fn statement(alloc: Global, footprint: &mut Footprint, s: &Kst) -> Result<Option<Broken>, Memory>
    ensures uses { OnOk result (uses_in footprint.new
        ≡ both (uses_in footprint.old) (uses.of_statement (statement_of s.now))) }
    ensures first { IfOk result
        (λ first. IsLeastOf (Clashes (pars.of_statement (statement_of s.now))) first) }
{
    match s {
        Kst::Zero(variable) => {
            footprint.change(*variable)?;
            Ok(None)
        }
        Kst::Set(place, e) => {
            target(footprint, place)?;
            expression(footprint, e)?;
            Ok(None)
        }
        Kst::Out(o) => {
            output(footprint, o)?;
            Ok(None)
        }
        Kst::In(head) => {
            input(footprint, head)?;
            Ok(None)
        }
        Kst::If(test, first, second) => {
            expression(footprint, test)?;
            let in_first = statements(alloc, footprint, first.as_slice())?;
            let in_second = statements(alloc, footprint, second.as_slice())?;
            Ok(earlier(in_first, in_second))
        }
        Kst::Loop(test, body, next) => {
            expression(footprint, test)?;
            let in_body = statements(alloc, footprint, body.as_slice())?;
            let in_next = statements(alloc, footprint, next.as_slice())?;
            Ok(earlier(in_body, in_next))
        }
        Kst::Block(_, body) => statements(alloc, footprint, body.as_slice()),
        Kst::Exit(_) => Ok(None),
        Kst::Select(select) => {
            let in_cases = cases(alloc, footprint, select.cases.as_slice())?;
            match &select.otherwise {
                None => Ok(in_cases),
                Some(body) => {
                    let otherwise = statements(alloc, footprint, body.as_slice())?;
                    Ok(earlier(in_cases, otherwise))
                }
            }
        }
        Kst::Par(all) => par(alloc, footprint, all.as_slice()),
        Kst::Tran { body, .. } => statements(alloc, footprint, body.as_slice()),
    }
}

/// Goes on behind a `par`, and gives the first rule that is broken in it.
#[cycle(statements)]
#[tactic(auto, using(crate::proofs::CodeSteps::steps))]
fn par(alloc: Global, footprint: &mut Footprint, all: &[KBranch]) -> Result<Option<Broken>, Memory>
    ensures uses { OnOk result (uses_in footprint.new ≡ both (uses_in footprint.old)
        (uses.of_statement (plain.par (plain.branches (map branch_of all.now))))) }
    ensures first { IfOk result (λ first. IsLeastOf
        (Clashes (pars.of_statement (plain.par (plain.branches (map branch_of all.now))))) first) }
{
    let mut whole = Footprint::new(alloc);
    let first = in_par(alloc, footprint, &mut whole, all);
    drop(whole);
    first
}

/// Goes on behind a `par`, whose footprint is begun.
#[cycle(statements)]
#[tactic(auto, using(crate::proofs::CodeSteps::steps))]
fn in_par(
    alloc: Global,
    footprint: &mut Footprint,
    whole: &mut Footprint,
    all: &[KBranch],
) -> Result<Option<Broken>, Memory>
    requires { uses_in whole.now ≡ nothing }
    ensures uses { OnOk result (uses_in footprint.new ≡ both (uses_in footprint.old)
        (uses.of_statement (plain.par (plain.branches (map branch_of all.now))))) }
    ensures first { IfOk result (λ first. IsLeastOf
        (Clashes (pars.of_statement (plain.par (plain.branches (map branch_of all.now))))) first) }
{
    let first = branches(alloc, whole, all)?;
    footprint.join(whole)?;
    Ok(first)
}

#[cycle(statements)]
#[tactic(auto, using(crate::proofs::CodeSteps::steps))]
fn cases(alloc: Global, footprint: &mut Footprint, all: &[KCase]) -> Result<Option<Broken>, Memory>
    ensures uses { OnOk result (uses_in footprint.new
        ≡ both (uses_in footprint.old) (uses.of_cases (plain.cases (map case_of all.now)))) }
    ensures first { IfOk result
        (λ first. IsLeastOf (Clashes (pars.of_cases (plain.cases (map case_of all.now)))) first) }
{
    let mut best = None;
    for c in all {
        let clash = case(alloc, footprint, c)?;
        best = earlier(best, clash);
    }
    Ok(best)
}

#[cycle(statements)]
#[tactic(auto, using(crate::proofs::CodeSteps::steps))]
fn case(alloc: Global, footprint: &mut Footprint, c: &KCase) -> Result<Option<Broken>, Memory>
    ensures uses { OnOk result
        (uses_in footprint.new ≡ both (uses_in footprint.old) (uses.of_case (case_of c.now))) }
    ensures first { IfOk result
        (λ first. IsLeastOf (Clashes (pars.of_case (case_of c.now))) first) }
{
    some_expression(footprint, &c.guard)?;
    input(footprint, &c.head)?;
    statements(alloc, footprint, c.body.as_slice())
}

#[tactic(auto, using(crate::proofs::FootprintSteps::steps))]
fn output(footprint: &mut Footprint, o: &KOut) -> Result<(), Memory>
    ensures { OnOk result
        (uses_in footprint.new ≡ both (uses_in footprint.old) (uses.of_output (output_of o.now))) }
{
    footprint.take(o.res)?;
    some_expression(footprint, &o.time)?;
    expression(footprint, &o.value)?;
    some_target(footprint, &o.stamp)
}

#[tactic(auto, using(crate::proofs::FootprintSteps::steps))]
fn input(footprint: &mut Footprint, head: &KHead) -> Result<(), Memory>
    ensures { OnOk result
        (uses_in footprint.new ≡ both (uses_in footprint.old) (uses.of_input (input_of head.now))) }
{
    footprint.take(head.res)?;
    some_expression(footprint, &head.time)?;
    condition(footprint, &head.cond)?;
    some_target(footprint, &head.dest)?;
    some_target(footprint, &head.stamp)
}
