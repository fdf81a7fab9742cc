//! What the parser makes of a text.

ghost use Rattle.std.specs.Prelude.{◌≤◌, length};
ghost use Rattle.xw_words.specs.Limits.{longest_text};

pub mod cuts;
pub mod refusals;

use crate::shown::{Page, put_tree};
use crate::texts::tree_of;
use std::alloc::Global;
use xc_parser::end_pos;

/// A text's tree, or `no tree`.
pub fn put_parsed(page: &mut Page, alloc: Global, text: &[u8])
    requires { length text.now ≤ longest_text }
{
    match tree_of(alloc, text) {
        Some(tree) => put_tree(page, &tree),
        None => page.put("no tree"),
    }
}

/// The place behind a text, as `line:column`.
pub fn put_end(page: &mut Page, text: &[u8])
    requires { length text.now ≤ longest_text }
{
    page.place(end_pos(text));
}
