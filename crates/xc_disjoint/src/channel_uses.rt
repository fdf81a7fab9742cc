ghost use Rattle.std.specs.Prelude.{◌≡◌, map, OnOk};
ghost use Rattle.xc_kernel.specs.Kernels.{branch_of, case_of, statement_of};
ghost use Rattle.xc_kernel.specs.Plain as plain;
ghost use Rattle.xc_disjoint.specs.UseTables.{shares_in, uses_in};
ghost use Rattle.xc_disjoint.specs.Uses as uses;
ghost use Rattle.xc_disjoint.specs.Uses.{all_after, all_with, no_shares, uses_of};

use crate::use_tables::{ParTable, UseTable};
use crate::uses::{Held, Use};
use std::alloc::Global;
use xc_kernel::{KBranch, KCase, KRes, Kst};
use xw_words::{Memory, Pos};

/// One use, and no `par`.
const ONE_USE: Use = Use {
    held: Held::Apart,
    second: None,
};

/// Goes on in a table behind some statements.
#[cycle(channels)]
pub fn statements(alloc: Global, table: &mut UseTable, ss: &[Kst]) -> Result<(), Memory>
    ensures { OnOk result (uses_in table.new ≡ all_after (uses_in table.old)
        (uses.of_statements (plain.statements (map statement_of ss.now)))) }
{
    for s in ss {
        statement(alloc, table, s)?;
    }
    Ok(())
}

#[cycle(channels)]
fn statement(alloc: Global, table: &mut UseTable, s: &Kst) -> Result<(), Memory>
    ensures { OnOk result (uses_in table.new
        ≡ all_after (uses_in table.old) (uses.of_statement (statement_of s.now))) }
{
    match s {
        Kst::Zero(_) => Ok(()),
        Kst::Set(_, _) => Ok(()),
        Kst::Out(output) => used(table, output.res),
        Kst::In(input) => used(table, input.res),
        Kst::If(_, first, second) => {
            statements(alloc, table, first.as_slice())?;
            statements(alloc, table, second.as_slice())
        }
        Kst::Loop(_, body, next) => {
            statements(alloc, table, body.as_slice())?;
            statements(alloc, table, next.as_slice())
        }
        Kst::Block(_, body) => statements(alloc, table, body.as_slice()),
        Kst::Exit(_) => Ok(()),
        Kst::Select(select) => {
            cases(alloc, table, select.cases.as_slice())?;
            match &select.otherwise {
                None => Ok(()),
                Some(body) => statements(alloc, table, body.as_slice()),
            }
        }
        Kst::Par(all) => par(alloc, table, all.as_slice()),
        Kst::Tran { chan, body, .. } => {
            table.follow(*chan as usize, ONE_USE)?;
            statements(alloc, table, body.as_slice())
        }
    }
}

#[cycle(channels)]
fn cases(alloc: Global, table: &mut UseTable, all: &[KCase]) -> Result<(), Memory>
    ensures { OnOk result (uses_in table.new
        ≡ all_after (uses_in table.old) (uses.of_cases (plain.cases (map case_of all.now)))) }
{
    for c in all {
        case(alloc, table, c)?;
    }
    Ok(())
}

#[cycle(channels)]
fn case(alloc: Global, table: &mut UseTable, c: &KCase) -> Result<(), Memory>
    ensures { OnOk result
        (uses_in table.new ≡ all_after (uses_in table.old) (uses.of_case (case_of c.now))) }
{
    used(table, c.head.res)?;
    statements(alloc, table, c.body.as_slice())
}

/// Goes on behind a `par`.
#[cycle(channels)]
fn par(alloc: Global, table: &mut UseTable, all: &[KBranch]) -> Result<(), Memory>
    ensures { OnOk result (uses_in table.new ≡ all_after (uses_in table.old)
        (uses_of (uses.with_branches no_shares (plain.branches (map branch_of all.now))))) }
{
    let mut par = ParTable::new(alloc);
    let followed = in_par(alloc, table, &mut par, all);
    drop(par);
    followed
}

/// Goes on behind a `par` whose table is begun.
#[cycle(channels)]
fn in_par(
    alloc: Global,
    table: &mut UseTable,
    par: &mut ParTable,
    all: &[KBranch],
) -> Result<(), Memory>
    ensures { OnOk result (uses_in table.new ≡ all_after (uses_in table.old) (uses_of
        (uses.with_branches (shares_in par.old) (plain.branches (map branch_of all.now))))) }
{
    branches(alloc, par, all)?;
    table.follow_par(par)
}

/// Goes on to more branches of a `par`.
#[cycle(channels)]
fn branches(alloc: Global, par: &mut ParTable, all: &[KBranch]) -> Result<(), Memory>
    ensures { OnOk result (shares_in par.new
        ≡ uses.with_branches (shares_in par.old) (plain.branches (map branch_of all.now))) }
{
    for b in all {
        branch(alloc, par, b.body.as_slice(), b.pos)?;
    }
    Ok(())
}

/// Goes on to one more branch, which stands at this place.
#[cycle(channels)]
fn branch(alloc: Global, par: &mut ParTable, body: &[Kst], pos: Pos) -> Result<(), Memory>
    ensures { OnOk result (shares_in par.new ≡ all_with pos (shares_in par.old)
        (uses.of_statements (plain.statements (map statement_of body.now)))) }
{
    let mut table = UseTable::new(alloc);
    let added = in_branch(alloc, par, &mut table, body, pos);
    drop(table);
    added
}

/// Goes on to a branch whose table is begun.
#[cycle(channels)]
fn in_branch(
    alloc: Global,
    par: &mut ParTable,
    table: &mut UseTable,
    body: &[Kst],
    pos: Pos,
) -> Result<(), Memory>
    ensures { OnOk result (shares_in par.new ≡ all_with pos (shares_in par.old) (all_after
        (uses_in table.old) (uses.of_statements (plain.statements (map statement_of body.now))))) }
{
    statements(alloc, table, body)?;
    par.add(alloc, table, pos)
}

/// Goes on behind a use.
fn used(table: &mut UseTable, resource: KRes) -> Result<(), Memory>
    ensures { OnOk result
        (uses_in table.new ≡ all_after (uses_in table.old) (uses.of_resource resource)) }
{
    match resource {
        KRes::Port(_) => Ok(()),
        KRes::Timer(_) => Ok(()),
        KRes::Chan(channel) => table.follow(channel as usize, ONE_USE),
    }
}
