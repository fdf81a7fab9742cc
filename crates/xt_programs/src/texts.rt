//! The checked kernel of a text.

ghost use Rattle.std.specs.Prelude.{◌≤◌, length, IfSome};
ghost use Rattle.xc_kernel.specs.Sound.{IsOfText, IsTyped};
ghost use Rattle.xc_tree.specs.Depth as depth;
ghost use Rattle.xc_tree.specs.Derives.{deepest};
ghost use Rattle.xc_tree.specs.Programs.{IsParsed};
ghost use Rattle.xc_tree.specs.Trees.{program_of};
ghost use Rattle.xc_tree.specs.Types.Named.{named_of};
ghost use Rattle.xw_io.specs.Outside.{max_file};

use std::alloc::Global;
use xc_disjoint::{Checked, disjoint};
use xc_flat::flatten;
use xc_lexer::lex;
use xc_names::resolve;
use xc_parser::{end_pos, parse};
use xc_tree::{Tree, Typed};
use xc_types::check;

/// How many tokens a text has at most.
const MOST: usize = 4_194_304;

/// The checked kernel of a text, if it breaks no rule and memory wasn't wanting.
pub fn checked(alloc: Global, text: &[u8]) -> Option<Checked>
    requires { length text.now ≤ max_file }
{
    let typed = typed(alloc, text)?;
    let Ok(kernel) = flatten(alloc, &typed) else {
        return None;
    };
    match disjoint(alloc, kernel) {
        Ok(checked) => Some(checked),
        Err(_) => None,
    }
}

/// The program that a text is with the types of its expressions, if it breaks no rule up to 508.
fn typed(alloc: Global, text: &[u8]) -> Option<Typed>
    requires { length text.now ≤ max_file }
    ensures typed { IfSome result (λ typed. IsTyped (program_of typed.named.tree)
        (named_of typed.named) typed.unsigned_at) }
    ensures shallow { IfSome result
        (λ typed. depth.of_program (program_of typed.named.tree) ≤ deepest) }
{
    let tree = tree_of(alloc, text)?;
    let Ok(named) = resolve(alloc, tree) else {
        return None;
    };
    match check(alloc, named) {
        Ok(typed) => Some(typed),
        Err(_) => None,
    }
}

/// The tree of a text, if it has one.
fn tree_of(alloc: Global, text: &[u8]) -> Option<Tree>
    requires { length text.now ≤ max_file }
    ensures parsed { IfSome result (λ tree. IsParsed (program_of tree)) }
    ensures text { IfSome result (λ tree. IsOfText (program_of tree)) }
    ensures shallow { IfSome result (λ tree. depth.of_program (program_of tree) ≤ deepest) }
{
    let Ok(toks) = lex(alloc, text) else {
        return None;
    };
    if toks.len() > MOST {
        return None;
    }
    match parse(alloc, &toks, end_pos(text)) {
        Ok(tree) => Some(tree),
        Err(_) => None,
    }
}
