//! What is in front of a program's end.

ghost use Rattle.std.specs.Prelude.{◌≤◌, length};
ghost use Rattle.xw_words.specs.Limits.{longest_text};

use crate::shown::Page;
use crate::trees::refusals::{Verdict, judged, put_judged};
use std::alloc::Global;

/// After how many words of a text, each with a blank behind it, it is a program. All else that is in front of its end begins
/// one, so it breaks 201 at its end: where it doesn't, what it breaks stands behind the number.
pub fn put_programs(page: &mut Page, alloc: Global, text: &[u8])
    requires { length text.now ≤ longest_text }
{
    put_cut(page, alloc, 0, b"");
    let mut words = 0u32;
    for (place, byte) in text.iter().enumerate() {
        if *byte == b' ' {
            words = words.saturating_add(1);
            put_cut(page, alloc, words, &text[..=place]);
        }
    }
}

/// Puts the number of these first words of a text, unless they begin a program.
fn put_cut(page: &mut Page, alloc: Global, words: u32, begun: &[u8])
    requires { length begun.now ≤ longest_text }
{
    let judged = judged(alloc, begun);
    if begins_one(judged, begun.len()) {
        return;
    }
    if !page.is_empty() {
        page.put(" ");
    }
    page.number(words);
    if !matches!(judged, Verdict::Program) {
        page.put(" (");
        put_judged(page, judged);
        page.put(")");
    }
}

/// Whether so many bytes of one line break 201 behind the last.
fn begins_one(judged: Verdict, length: usize) -> bool {
    match judged {
        Verdict::Broken(b) => b.rule == 201
            && b.pos.line == 1
            && b.pos.col as usize == length.saturating_add(1),
        _ => false,
    }
}
