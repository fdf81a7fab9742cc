ghost use Rattle.std.specs.Prelude.{◌≡◌, [], OnOk};
ghost use Rattle.xc_tree.specs.Types.Sites as sites;
ghost use Rattle.xc_types.specs.Checker.{saw};
ghost use Rattle.xc_types.specs.After as after;

use crate::checker::Checker;
use crate::declarations::array_length;
use crate::enclosing::Enclosing;
use crate::main_function::breaks_form;
use crate::places::place_if_any;
use crate::statements::{statement, statements};
use xc_tree::{FuncItem, Item, Named, Param, ParamKind, PortItem, St, Stmt};
use xw_words::Memory;

/// Checks a program.
#[tactic(auto, using(crate::proofs::Programs::items))]
pub fn program(found: &mut Checker, named: &Named) -> Result<(), Memory>
    ensures { OnOk result (found.new ≡ after.program named.now found.old) }
{
    for item in named.tree.items.as_slice() {
        check_item(found, named, item)?;
    }
    Ok(())
}

/// Checks an item of a program.
fn check_item(found: &mut Checker, named: &Named, item: &Item) -> Result<(), Memory>
    ensures { OnOk result (found.new ≡ after.item named.now item.now found.old) }
{
    match item {
        Item::Port(port) => check_port(found, named, port),
        Item::Func(function) => check_function(found, named, function),
    }
}

#[tactic(auto, using(crate::proofs::Programs::programs))]
fn check_port(found: &mut Checker, named: &Named, port: &PortItem) -> Result<(), Memory>
    ensures { OnOk result (found.new ≡ after.port named.now port.now found.old) }
{
    place_if_any(found, named, &port.place)?;
    found.pass()
}

#[tactic(auto, using(crate::proofs::Programs::programs))]
fn check_function(found: &mut Checker, named: &Named, function: &FuncItem) -> Result<(), Memory>
    ensures { OnOk result (found.new ≡ after.function named.now function.now found.old) }
{
    found.breaks_where(breaks_form(function), 504, function.name.pos);
    found.pass()?;
    parameters(found, function.params.as_slice())?;
    body(found, named, &function.body, &Enclosing::Block(function))
}

/// Checks the parameters of a function.
#[tactic(auto, using(crate::proofs::Loops::loops))]
fn parameters(found: &mut Checker, params: &[Param]) -> Result<(), Memory>
    ensures { OnOk result (found.new ≡ after.parameters params.now found.old) }
{
    for p in params {
        parameter(found, p)?;
    }
    Ok(())
}

#[tactic(auto, using(crate::proofs::Programs::programs))]
fn parameter(found: &mut Checker, p: &Param) -> Result<(), Memory>
    ensures { OnOk result (found.new ≡ after.parameter p.now found.old) }
{
    found.pass()?;
    parameter_length(found, &p.kind);
    Ok(())
}

/// Checks the length of an array parameter, if it has one.
#[tactic(auto, using(crate::proofs::Programs::programs))]
fn parameter_length(found: &mut Checker, kind: &ParamKind)
    ensures { found.new ≡ saw found.old [] (sites.of_parameter_kind kind.now) }
{
    match kind {
        ParamKind::Array(_, Some((length, pos))) => array_length(found, *length, *pos),
        ParamKind::Array(_, None) => {}
        ParamKind::Value(_) | ParamKind::Ref(_) | ParamKind::End(_) | ParamKind::Port(_) => {}
    }
}

/// Checks what stands in a function's block, which shares the scope of its parameters.
#[tactic(auto, using(crate::proofs::Programs::programs))]
fn body(found: &mut Checker, named: &Named, s: &Stmt, around: &Enclosing) -> Result<(), Memory>
    ensures { OnOk result (found.new ≡ after.body named.now s.now around.now found.old) }
{
    match &*s.kind {
        St::Block(ss) => statements(found, named, ss.as_slice(), around),
        St::Empty
        | St::Decl(_)
        | St::Assign(_, _, _, _)
        | St::Step(_, _)
        | St::Do(_)
        | St::Output(_)
        | St::Input(_)
        | St::If(_, _, _)
        | St::While(_, _)
        | St::DoWhile(_, _)
        | St::For(_, _, _, _)
        | St::Return(_)
        | St::Break
        | St::Continue
        | St::Par(_)
        | St::Repl { .. }
        | St::Select(_)
        | St::Tran(_, _) => statement(found, named, s, around),
    }
}
