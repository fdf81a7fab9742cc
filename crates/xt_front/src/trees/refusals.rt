//! The rules of the grammar.

ghost use Rattle.std.specs.Prelude.{◌≤◌, length};
ghost use Rattle.xw_words.specs.Limits.{longest_text};

use crate::shown::Page;
use crate::texts::{MOST, put_broken};
use std::alloc::Global;
use xc_lexer::lex;
use xc_parser::{ParseErr, end_pos, parse};
use xw_words::Broken;

/// What the parser says of a text.
#[derive(Clone, Copy)]
pub enum Verdict {
    /// Its tokens are a program.
    Program,
    /// They break this rule.
    Broken(Broken),
    /// It has no tokens, too many, or memory is wanting.
    Unread(&'static str),
}

/// The rule that a text's tokens break, and where; or `a program`, or what else is the matter.
pub fn put_refusal(page: &mut Page, alloc: Global, text: &[u8])
    requires { length text.now ≤ longest_text }
{
    put_judged(page, judged(alloc, text));
}

/// Puts what the parser says.
pub fn put_judged(page: &mut Page, judged: Verdict) {
    match judged {
        Verdict::Program => page.put("a program"),
        Verdict::Broken(b) => put_broken(page, b),
        Verdict::Unread(why) => page.put(why),
    }
}

/// What the parser says of a text.
pub fn judged(alloc: Global, text: &[u8]) -> Verdict
    requires { length text.now ≤ longest_text }
{
    let Ok(toks) = lex(alloc, text) else {
        return Verdict::Unread("no tokens");
    };
    if toks.len() > MOST {
        return Verdict::Unread("too many tokens");
    }
    match parse(alloc, &toks, end_pos(text)) {
        Ok(_) => Verdict::Program,
        Err(ParseErr::Broken(b)) => Verdict::Broken(b),
        Err(ParseErr::Memory) => Verdict::Unread("out of memory"),
    }
}
