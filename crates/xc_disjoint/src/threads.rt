ghost use Rattle.std.specs.Prelude.{◌≡◌, map};
ghost use Rattle.xc_disjoint.specs.Sums.{capped};
ghost use Rattle.xc_disjoint.specs.Threads.{of_branches, of_case, of_cases, of_statement, of_statements};
ghost use Rattle.xc_kernel.specs.Kernels.{branch_of, case_of, statement_of};
ghost use Rattle.xc_kernel.specs.Plain as plain;

use xc_kernel::{KBranch, KCase, Kst};

/// How many threads a sequence of statements needs.
#[cycle(threads)]
pub fn of_sequence(ss: &[Kst]) -> u64
    ensures { result ≡ capped (of_statements (plain.statements (map statement_of ss.now))) }
{
    let mut most: u64 = 0;
    for s in ss {
        most = most.max(of_one(s));
    }
    most.max(1)
}

#[cycle(threads)]
fn of_one(s: &Kst) -> u64
    ensures { result ≡ capped (of_statement (statement_of s.now)) }
{
    match s {
        Kst::Zero(_) => 1,
        Kst::Set(_, _) => 1,
        Kst::Out(_) => 1,
        Kst::In(_) => 1,
        Kst::If(_, first, second) => {
            of_sequence(first.as_slice()).max(of_sequence(second.as_slice()))
        }
        Kst::Loop(_, body, next) => of_sequence(body.as_slice()).max(of_sequence(next.as_slice())),
        Kst::Block(_, body) => of_sequence(body.as_slice()),
        Kst::Exit(_) => 1,
        Kst::Select(select) => {
            let cases = of_all_cases(select.cases.as_slice());
            match &select.otherwise {
                None => cases.max(1),
                Some(body) => cases.max(of_sequence(body.as_slice())),
            }
        }
        Kst::Par(branches) => of_all_branches(branches.as_slice()).max(1),
        Kst::Tran { body, .. } => of_sequence(body.as_slice()),
    }
}

#[cycle(threads)]
fn of_all_cases(cases: &[KCase]) -> u64
    ensures { result ≡ capped (of_cases (plain.cases (map case_of cases.now))) }
{
    let mut most: u64 = 0;
    for case in cases {
        most = most.max(of_one_case(case));
    }
    most.max(1)
}

#[cycle(threads)]
fn of_one_case(case: &KCase) -> u64
    ensures { result ≡ capped (of_case (case_of case.now)) }
{
    of_sequence(case.body.as_slice())
}

#[cycle(threads)]
fn of_all_branches(branches: &[KBranch]) -> u64
    ensures { result ≡ capped (of_branches (plain.branches (map branch_of branches.now))) }
{
    let mut sum: u64 = 0;
    for branch in branches {
        sum = sum.saturating_add(of_sequence(branch.body.as_slice()));
    }
    sum
}
