//! What the lexer makes of a text.

ghost use Rattle.std.specs.Prelude.{◌≤◌, length};
ghost use Rattle.xw_words.specs.Limits.{longest_text};

use crate::shown::{Page, put_tokens};
use std::alloc::Global;
use xc_lexer::lex;

/// The tokens of a text, parted by `, `, or its first broken rule.
pub fn put_lexed(page: &mut Page, alloc: Global, text: &[u8])
    requires { length text.now ≤ longest_text }
{
    match lex(alloc, text) {
        Ok(toks) => put_tokens(page, toks.as_slice()),
        Err(e) => page.show(&e),
    }
}
