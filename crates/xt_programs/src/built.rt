//! Whether the code of roots is built.

ghost use Rattle.std.specs.Bool.{OnTrue};
ghost use Rattle.std.specs.Prelude.{map};
ghost use Rattle.xc_kernel.specs.Kernels.{output_of, root_of, statement_of};
ghost use Rattle.xc_kernel.specs.Plain as plain;
ghost use Rattle.xl_image.specs.Roots.{RootsAreBuilt};
ghost use Rattle.xl_select.specs.OpeningCode.{cases_of};
ghost use Rattle.xl_statements.specs.Built.{AreBuilt, BranchesAreBuilt, CasesAreBuilt, IsBuilt, branches_of, statements_of};

use xc_kernel::{KBranch, KCase, KOut, KRes, Kst, Root};

/// Whether the code of each root is built.
pub fn are_roots_built(roots: &[Root]) -> bool
    ensures { OnTrue result (RootsAreBuilt (map root_of roots.now)) }
{
    let mut rest = roots;
    'each: while let [first, behind @ ..] = rest {
        if !are_built(first.body.as_slice()) {
            return false;
        }
        rest = behind;
    }
    true
}

/// Whether the code of each statement is built.
#[cycle(statement)]
#[tactic(auto, using(xl_statements::proofs::Walks::statements_at))]
fn are_built(statements: &[Kst]) -> bool
    ensures { OnTrue result (AreBuilt (statements_of statements.now)) }
{
    for statement in statements {
        if !is_built(statement) {
            return false;
        }
    }
    true
}

/// Whether the code of a statement is built.
#[cycle(statement)]
#[tactic(auto, using(xc_kernel::proofs::Forms::forms))]
fn is_built(statement: &Kst) -> bool
    ensures { OnTrue result (IsBuilt (statement_of statement.now)) }
{
    match statement {
        Kst::Zero(_) => true,
        Kst::Set(_, _) => true,
        Kst::Out(output) => is_output_built(output),
        Kst::If(_, first, second) => are_built(first.as_slice()) && are_built(second.as_slice()),
        Kst::Loop(_, body, next) => are_built(body.as_slice()) && are_built(next.as_slice()),
        Kst::Block(_, inside) => are_built(inside.as_slice()),
        Kst::Exit(_) => true,
        Kst::Par(branches) => are_branches_built(branches.as_slice()),
        Kst::In(_) => true,
        Kst::Select(select) => {
            are_cases_built(select.cases.as_slice())
                && match &select.otherwise {
                    None => true,
                    Some(body) => are_built(body.as_slice()),
                }
        }
        Kst::Tran { .. } => false,
    }
}

/// Whether the code of each case is built.
#[cycle(statement)]
#[tactic(auto, using(xl_statements::proofs::Cases::cases_at))]
fn are_cases_built(cases: &[KCase]) -> bool
    ensures { OnTrue result (CasesAreBuilt (cases_of cases.now)) }
{
    for case in cases {
        if !are_built(case.body.as_slice()) {
            return false;
        }
    }
    true
}

/// Whether the code of each branch is built.
#[cycle(statement)]
#[tactic(auto, using(xl_statements::proofs::Slaves::branches_at))]
fn are_branches_built(branches: &[KBranch]) -> bool
    ensures { OnTrue result (BranchesAreBuilt (branches_of branches.now)) }
{
    for branch in branches {
        if !are_built(branch.body.as_slice()) {
            return false;
        }
    }
    true
}

/// Whether an output goes to a port or a channel.
fn is_output_built(output: &KOut) -> bool
    ensures { OnTrue result (IsBuilt (plain.output (output_of output.now))) }
{
    match output.res {
        KRes::Port(_) => true,
        KRes::Timer(_) => false,
        KRes::Chan(_) => true,
    }
}
