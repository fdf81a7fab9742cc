ghost use Rattle.std.specs.Prelude.{◌≡◌, ℕ, ◌<◌, ◌≤◌, List, length, IfSome, IfNone};
ghost use Rattle.xc_tree.specs.HashLines as spec;
ghost use Rattle.xc_tree.specs.HashLines.{Header, Include};
ghost use Rattle.xc_lexer.specs.Lines.{DefineIs, TailIs, StepIs};
ghost use Rattle.xc_lexer.specs.Places.{IsPlace};

use crate::place::Place;
use crate::scan::{
    blanks_end, comment_end, has_digit, has_letter, line_end, past, run_end, starts,
};
use crate::words::word_place;
use xc_tree::Start;
use xw_words::Pos;

/// A `#define`: its name, and where its number begins and ends.
#[derive(Clone, Copy)]
pub struct Definition<'a> {
    pub name: &'a [u8],
    pub number_at: usize,
    pub end: usize,
}

/// How the line of a form ends.
#[derive(Clone, Copy)]
pub enum Ending {
    /// The text is read on from here.
    At(usize),
    /// A comment that begins here isn't closed.
    Unclosed(Pos),
}

/// What comes next behind the form of a line.
#[derive(Clone, Copy)]
enum Step {
    /// A blank or a comment, up to here in the same line.
    On(Place),
    /// The line's end.
    Stop(Ending),
    /// Something else.
    Junk,
}

/// Where one of the three headers ends that may be included.
fn header_end(text: &[u8], at: usize) -> Option<usize>
    ensures some { IfSome result
        (λ end. Header text.now at end × (at ≤ end) × (end ≤ length text.now)) }
    ensures none { IfNone result ((end : ℕ) → Header text.now at end → ⊥) }
{
    if let Some(end) = past(text, at, b"<xs1.h>") {
        return Some(end);
    }
    if let Some(end) = past(text, at, b"<platform.h>") {
        return Some(end);
    }
    if let Some(end) = past(text, at, b"<print.h>") {
        return Some(end);
    }
    None
}

/// Where a `#include` of one of the three headers ends.
pub fn include_end(text: &[u8], at: usize) -> Option<usize>
    ensures some { IfSome result
        (λ end. Include text.now at end × (at < end) × (end ≤ length text.now)) }
    ensures none { IfNone result ((end : ℕ) → Include text.now at end → ⊥) }
{
    let opened = past(text, at, b"#include")?;
    let header_at = blanks_end(text, opened);
    if header_at == opened {
        return None;
    }
    header_end(text, header_at)
}

/// A `#define` of a name that is no word.
pub fn definition_at<'a>(text: &'a [u8], at: usize) -> Option<Definition<'a>>
    ensures some { IfSome result (λ d. DefineIs text.now at d) }
    ensures none { IfNone result
        ((name : List ℕ) (m k : ℕ) → spec.Define text.now at name m k → ⊥) }
{
    let opened = past(text, at, b"#define")?;
    let name_at = blanks_end(text, opened);
    if name_at == opened || !has_letter(text, name_at) {
        return None;
    }
    let name_end = run_end(text, name_at);
    let name = &text[name_at..name_end];
    if word_place(name).is_some() {
        return None;
    }
    let number_at = blanks_end(text, name_end);
    if number_at == name_end || !has_digit(text, number_at) {
        return None;
    }
    let end = run_end(text, number_at);
    Some(Definition {
        name,
        number_at,
        end,
    })
}

/// The next blank, comment or end behind the form of a line.
fn tail_step(text: &[u8], here: Place) -> Step
    requires { IsPlace text.now here }
    ensures { StepIs text.now here.at result }
{
    match starts(text, here.at) {
        Start::Blank => Step::On(here.further(text, here.at + 1)),
        Start::LineComment => Step::On(here.further(text, line_end(text, here.at))),
        Start::BlockComment => {
            let Some(end) = comment_end(text, here.at + 2) else {
                return Step::Stop(Ending::Unclosed(here.pos));
            };
            let behind = here.further(text, end);
            if behind.pos.line == here.pos.line {
                Step::On(behind)
            } else {
                Step::Stop(Ending::At(end))
            }
        }
        Start::LineEnd => Step::Stop(Ending::At(here.at)),
        Start::End => Step::Stop(Ending::At(here.at)),
        Start::Hash => Step::Junk,
        Start::Letter => Step::Junk,
        Start::Digit => Step::Junk,
        Start::Other => Step::Junk,
    }
}

/// How the line of a form ends that ends here, if nothing but blanks and comments follows it.
pub fn tail(text: &[u8], form_end: Place) -> Option<Ending>
    requires { IsPlace text.now form_end }
    ensures some { IfSome result (λ ending. TailIs text.now form_end.at ending) }
    ensures none { IfNone result
        ((j : ℕ) (e : spec.Ending) → spec.Tail text.now form_end.at j e → ⊥) }
{
    let mut here = form_end;
    'tail: loop {
        match tail_step(text, here) {
            Step::On(further) => here = further,
            Step::Stop(ending) => return Some(ending),
            Step::Junk => return None,
        }
    }
}
