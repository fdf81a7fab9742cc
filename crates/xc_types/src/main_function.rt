// The form of main's block where it has a placed branch: rule 504.
ghost use Rattle.std.specs.Prelude.{◌≡◌, map};
ghost use Rattle.xc_tree.specs.Plain as plain;
ghost use Rattle.xc_tree.specs.Shapes.Main as main;
ghost use Rattle.xc_tree.specs.Trees as tree;
ghost use Rattle.xc_types.specs.Mains.{breaks_form_of_main, is_return_part, part_of, places, statements_of};

use crate::enclosing::is_main;
use crate::shapes::both;
use std::slice;
use xc_tree::{Branch, DeclKind, Declared, FuncItem, St, Stmt};

/// Whether a function is `main`, has a placed branch, and its block hasn't the form for that.
pub fn breaks_form(function: &FuncItem) -> bool
    ensures { result ≡ breaks_form_of_main function.now }
{
    let ss = statements_in(&function.body);
    is_main(function) && place_branches(ss) && !is_channels_par_return(ss)
}

/// The statements of a block. A body that isn't a block is its one statement.
#[tactic(auto, using(crate::proofs::Mains::mains))]
fn statements_in(body: &Stmt) -> &[Stmt]
    ensures { statements_of result.now ≡ main.statements_in (tree.statement_of body.now) }
{
    match &*body.kind {
        St::Block(ss) => ss.as_slice(),
        _ => slice::from_ref(body),
    }
}

/// Whether a `par` among these statements has a placed branch.
#[tactic(auto, using(crate::proofs::Mains::mains))]
fn place_branches(ss: &[Stmt]) -> bool
    ensures { result ≡ main.place_branches (statements_of ss.now) }
{
    for s in ss {
        if places_branch(s) {
            return true;
        }
    }
    false
}

/// Whether a statement is a `par` with a placed branch.
fn places_branch(s: &Stmt) -> bool
    ensures { result ≡ places (part_of (tree.statement_of s.now)) }
{
    match part_of(s) {
        Part::Par(has_placed) => has_placed,
        Part::Channels | Part::Return | Part::Other => false,
    }
}

/// Whether these are declarations of channels, one `par`, and at most one `return`.
#[tactic(auto, using(crate::proofs::Mains::parts))]
fn is_channels_par_return(ss: &[Stmt]) -> bool
    ensures { result ≡ main.is_channels_par_return (statements_of ss.now) }
{
    for (i, s) in ss.iter().enumerate() {
        match part_of(s) {
            Part::Channels => {}
            Part::Par(_) => return is_return_at_most(&ss[i + 1..]),
            Part::Return | Part::Other => return false,
        }
    }
    false
}

/// Whether this is nothing, or one `return`.
#[tactic(auto, using(crate::proofs::Mains::parts))]
fn is_return_at_most(ss: &[Stmt]) -> bool
    ensures { result ≡ main.is_return_at_most (statements_of ss.now) }
{
    match ss.first() {
        None => true,
        Some(first) => both(ss.len() == 1, is_return(first)),
    }
}

/// Whether a statement is a `return`.
fn is_return(s: &Stmt) -> bool
    ensures { result ≡ is_return_part (part_of (tree.statement_of s.now)) }
{
    match part_of(s) {
        Part::Return => true,
        Part::Channels | Part::Par(_) | Part::Other => false,
    }
}

/// What a statement is in the form of a block with placed branches.
enum Part {
    /// Declarations of channels.
    Channels,
    /// A `par`, and whether it has a placed branch.
    Par(bool),
    Return,
    Other,
}

/// Which part of the form a statement is.
#[tactic(auto, using(crate::proofs::Mains::mains))]
fn part_of(s: &Stmt) -> Part
    ensures { result ≡ part_of (tree.statement_of s.now) }
{
    match &*s.kind {
        St::Decl(ds) => {
            if are_channels(ds.as_slice()) {
                Part::Channels
            } else {
                Part::Other
            }
        }
        St::Par(bs) => Part::Par(has_placed(bs.as_slice())),
        St::Repl { body, .. } => Part::Par(is_placed(body)),
        St::Return(_) => Part::Return,
        _ => Part::Other,
    }
}

/// Whether a branch is placed.
#[tactic(auto, using(crate::proofs::Mains::mains))]
fn has_placed(bs: &[Branch]) -> bool
    ensures { result ≡ main.has_placed (plain.branches (map tree.branch_of bs.now)) }
{
    for b in bs {
        if is_placed(b) {
            return true;
        }
    }
    false
}

#[tactic(auto, using(crate::proofs::Mains::mains))]
fn is_placed(b: &Branch) -> bool
    ensures { result ≡ main.is_placed (tree.branch_of b.now) }
{
    match &b.place {
        None => false,
        Some(_) => true,
    }
}

/// Whether these declare channels alone.
#[tactic(auto, using(crate::proofs::Mains::mains))]
fn are_channels(ds: &[Declared]) -> bool
    ensures { result ≡ main.are_channels (map tree.declaration_of ds.now) }
{
    for d in ds {
        if !is_channel(&d.kind) {
            return false;
        }
    }
    true
}

fn is_channel(kind: &DeclKind) -> bool
    ensures { result ≡ main.is_channel_kind (tree.kind_of kind.now) }
{
    match kind {
        DeclKind::Chan(_) => true,
        DeclKind::Word(_, _) | DeclKind::Array(_, _, _) | DeclKind::Timer => false,
    }
}
