ghost use Rattle.std.specs.Prelude.{◌≡◌, map, nat_eq, IfOk};
ghost use Rattle.xc_kernel.specs.Kernels.{branch_of, case_of, statement_of};
ghost use Rattle.xc_kernel.specs.Plain as kernel;
ghost use Rattle.xc_kernel.specs.Things.{channel, by_branches, by_cases, by_resource, by_statement, by_statements};
ghost use Rattle.xl_ends.specs.Uses.{marked, uses_among};

use std::alloc::Global;
use xc_kernel::{KBranch, KCase, KRes, Kst};
use xw_words::{List, Memory};

/// Whether statements use each of so many channels. The one error is want of memory. The stack that it needs grows with the depth of
/// the statements.
pub fn used_channels(alloc: Global, channels: usize, body: &[Kst]) -> Result<List<bool>, Memory>
    ensures { IfOk result
        (λ used. used ≡ uses_among channels (kernel.statements (map statement_of body.now))) }
{
    let mut used = vec![in alloc; false; channels]?;
    mark_statements(used.as_mut_slice(), body);
    Ok(List::from_vec(used))
}

/// Marks the channels that statements use, beside those that are marked.
#[cycle(statements)]
#[tactic(auto, using(xc_kernel::proofs::Forms::forms))]
fn mark_statements(used: &mut [bool], body: &[Kst])
    ensures { used.new ≡ marked
        (λ c. by_statements (channel c) (kernel.statements (map statement_of body.now)))
        used.old }
{
    for statement in body {
        mark_statement(used, statement);
    }
}

#[cycle(statements)]
#[tactic(auto, using(xc_kernel::proofs::Forms::forms))]
fn mark_statement(used: &mut [bool], statement: &Kst)
    ensures { used.new
        ≡ marked (λ c. by_statement (channel c) (statement_of statement.now)) used.old }
{
    match statement {
        Kst::Zero(_) => {}
        Kst::Set(_, _) => {}
        Kst::Out(output) => mark_resource(used, output.res),
        Kst::In(input) => mark_resource(used, input.res),
        Kst::If(_, first, second) => {
            mark_statements(used, first.as_slice());
            mark_statements(used, second.as_slice());
        }
        Kst::Loop(_, body, next) => {
            mark_statements(used, body.as_slice());
            mark_statements(used, next.as_slice());
        }
        Kst::Block(_, body) => mark_statements(used, body.as_slice()),
        Kst::Exit(_) => {}
        Kst::Select(select) => {
            mark_cases(used, select.cases.as_slice());
            match &select.otherwise {
                None => {}
                Some(body) => mark_statements(used, body.as_slice()),
            }
        }
        Kst::Par(branches) => mark_branches(used, branches.as_slice()),
        Kst::Tran { chan, body, .. } => {
            mark(used, *chan);
            mark_statements(used, body.as_slice());
        }
    }
}

#[cycle(statements)]
#[tactic(auto, using(xc_kernel::proofs::Forms::forms))]
fn mark_cases(used: &mut [bool], cases: &[KCase])
    ensures { used.new
        ≡ marked (λ c. by_cases (channel c) (kernel.cases (map case_of cases.now))) used.old }
{
    for case in cases {
        mark_resource(used, case.head.res);
        mark_statements(used, case.body.as_slice());
    }
}

#[cycle(statements)]
#[tactic(auto, using(xc_kernel::proofs::Forms::forms))]
fn mark_branches(used: &mut [bool], branches: &[KBranch])
    ensures { used.new ≡ marked
        (λ c. by_branches (channel c) (kernel.branches (map branch_of branches.now)))
        used.old }
{
    for branch in branches {
        mark_statements(used, branch.body.as_slice());
    }
}

fn mark_resource(used: &mut [bool], resource: KRes)
    ensures { used.new ≡ marked (λ c. by_resource (channel c) resource) used.old }
{
    match resource {
        KRes::Port(_) => {}
        KRes::Timer(_) => {}
        KRes::Chan(channel) => mark(used, channel),
    }
}

fn mark(used: &mut [bool], channel: u32)
    ensures { used.new ≡ marked (λ c. nat_eq c channel) used.old }
{
    let at = channel as usize;
    if at < used.len() {
        used[at] = true;
    }
}
