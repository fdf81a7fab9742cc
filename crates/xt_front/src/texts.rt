//! What comes of a text before it is shown.

ghost use Rattle.std.specs.Prelude.{◌≤◌, length, IfSome};
ghost use Rattle.xc_kernel.specs.Sound.{IsOfText, IsTyped};
ghost use Rattle.xc_tree.specs.Depth as depth;
ghost use Rattle.xc_tree.specs.Derives.{deepest};
ghost use Rattle.xc_tree.specs.Programs.{IsParsed};
ghost use Rattle.xc_tree.specs.Trees.{program_of};
ghost use Rattle.xc_tree.specs.Types.Named.{named_of};
ghost use Rattle.xw_words.specs.Limits.{longest_text};

use crate::shown::Page;
use std::alloc::Global;
use xc_lexer::lex;
use xc_names::resolve;
use xc_parser::{end_pos, parse};
use xc_tree::{Tree, Typed};
use xc_types::check;
use xw_words::Broken;

/// How many bytes and tokens a text has at most.
pub const MOST: usize = 4_194_304;

/// The program that a text is with the types of its expressions, if it breaks no rule up to 508.
pub fn typed(alloc: Global, text: &[u8]) -> Option<Typed>
    requires { length text.now ≤ longest_text }
    ensures typed { IfSome result (λ typed. IsTyped (program_of typed.named.tree)
        (named_of typed.named) typed.unsigned_at) }
    ensures shallow { IfSome result
        (λ typed. depth.of_program (program_of typed.named.tree) ≤ deepest) }
{
    let tree = tree_of(alloc, text)?;
    let Ok(named) = resolve(alloc, tree) else {
        return None;
    };
    match check(alloc, named) {
        Ok(typed) => Some(typed),
        Err(_) => None,
    }
}

/// The tree of a text, if it has one.
pub fn tree_of(alloc: Global, text: &[u8]) -> Option<Tree>
    requires { length text.now ≤ longest_text }
    ensures parsed { IfSome result (λ tree. IsParsed (program_of tree)) }
    ensures text { IfSome result (λ tree. IsOfText (program_of tree)) }
    ensures shallow { IfSome result (λ tree. depth.of_program (program_of tree) ≤ deepest) }
{
    let Ok(toks) = lex(alloc, text) else {
        return None;
    };
    if toks.len() > MOST {
        return None;
    }
    match parse(alloc, &toks, end_pos(text)) {
        Ok(tree) => Some(tree),
        Err(_) => None,
    }
}

/// Puts a broken rule as `rule at line:column`.
pub fn put_broken(page: &mut Page, broken: Broken) {
    page.number(u32::from(broken.rule));
    page.put(" at ");
    page.place(broken.pos);
}
