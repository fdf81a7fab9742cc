ghost use Rattle.std.specs.Prelude.{◌≡◌, ◌+◌, ◌<◌, ◌≤◌, true, false, List, length, IfErr, IfOk, OnOk};
ghost use Rattle.xw_words.specs.declared.pos.Broken.{Broken};
ghost use Rattle.xc_tree.specs.declared.lexing.Start.TheVariants.{BlockComment, Hash, Letter, Digit, Other};
ghost use Rattle.xc_tree.specs.declared.token.Tok.{Tok};
ghost use Rattle.xc_tree.specs.Bytes.{start_at};
ghost use Rattle.xc_tree.specs.HashLines.{Include};
ghost use Rattle.xc_tree.specs.Places.{pos_at};
ghost use Rattle.xc_tree.specs.Least.{IsFirst};
ghost use Rattle.xc_tree.specs.Lexes.{Lexes, Breaks};
ghost use Rattle.xc_tree.specs.Programs.{Rise};
ghost use Rattle.xc_tree.specs.Refusals.{IfBroken};
ghost use Rattle.xc_lexer.specs.Lines.{DefineIs, TailIs};
ghost use Rattle.xc_lexer.specs.Places.{IsPlace};
ghost use Rattle.xc_lexer.specs.Steps.{Went, FirstOf};
ghost use Rattle.xw_words.specs.Limits.{longest_text};

use crate::lines::{Definition, Ending, definition_at, include_end, tail};
use crate::names::Names;
use crate::number::read;
use crate::place::Place;
use crate::scan::{comment_end, line_end, run_end, starts};
use crate::words::{kind_of_word, longest_symbol};
use std::alloc::Global;
use xc_tree::{Kind, Reading, Refusal, Start, Tok};
use xw_words::{Broken, List, Pos};

/// Why a text has no tokens.
pub type LexErr = Refusal;

/// How far a text has been read.
#[derive(Drop)]
struct State<'a> {
    place: Place,
    /// Whether only blanks stand before in the line.
    at_line_start: bool,
    names: Names<'a>,
}

/// The longest text, in bytes.
const LONGEST: usize = 262_144;

/// The tokens of a text of at most 4,194,304 bytes, with their places: a name that a `#define` defines before is its
/// number.
///
/// A text that breaks a rule has none, and of all rules that it breaks the error is the one of the least place, and there
/// of the least number: 101 a byte begins no token; 102 a number is 2^32 or more; 103 a comment isn't closed; 104 a line
/// that begins with `#` has none of the forms, or defines a name again; 105 the text has more than 262,144 bytes, and then
/// no other rule is looked at; 106 a number has none of the forms. The other error is that memory could not be had.
pub fn lex(alloc: Global, text: &[u8]) -> Result<List<Tok>, LexErr>
    requires short { length text.now ≤ longest_text }
    ensures tokens { IfOk result (λ toks. Lexes text.now toks) }
    ensures only { IfOk result (λ toks. (v : List Tok) → Lexes text.now v → v ≡ toks) }
    ensures rising { IfOk result Rise }
    ensures unbroken { IfOk result (λ toks. (b : Broken) → Breaks text.now b → ⊥) }
    ensures broken { IfErr result (λ e. IfBroken e (IsFirst (Breaks text.now))) }
    ensures none { IfErr result (λ e. IfBroken e (λ b. (v : List Tok) → Lexes text.now v → ⊥)) }
{
    let pos = Pos { line: 1, col: 1 };
    if text.len() > LONGEST {
        return Err(LexErr::Broken(Broken { rule: 105, pos }));
    }
    let mut toks = List::new(alloc);
    let mut state = State {
        place: Place { at: 0, pos },
        at_line_start: true,
        names: Names::new(alloc),
    };
    'pieces: while state.place.at < text.len() {
        match step(alloc, text, &mut state, &mut toks) {
            Ok(()) => {}
            Err(e) => return Err(e),
        }
    }
    Ok(toks)
}

/// Reads one piece.
fn step<'a>(
    alloc: Global,
    text: &'a [u8],
    state: &mut State<'a>,
    toks: &mut List<Tok>,
) -> Result<(), LexErr>
    requires place { IsPlace text.now state.old.place }
    requires more { state.old.place.at < length text.now }
    ensures went { OnOk result (Went text.now state.old toks.old state.new toks.new) }
    ensures broken { IfErr result (λ e. IfBroken e (λ b. FirstOf text.now state.old b)) }
{
    let at = state.place.at;
    let at_line_start = state.at_line_start;
    match starts(text, at) {
        Start::End => unreachable!(),
        Start::Blank => {
            go_on(text, state, at + 1, at_line_start);
            Ok(())
        }
        Start::LineEnd => {
            go_on(text, state, at + 1, true);
            Ok(())
        }
        Start::LineComment => {
            let end = line_end(text, at);
            go_on(text, state, end, false);
            Ok(())
        }
        Start::BlockComment => comment(text, state, toks),
        Start::Hash => hash(text, state, toks),
        Start::Letter => word(alloc, text, state, toks),
        Start::Digit => number(text, state, toks),
        Start::Other => symbol(text, state, toks),
    }
}

/// Goes on to a later place.
fn go_on<'a>(text: &'a [u8], state: &mut State<'a>, end: usize, at_line_start: bool)
    requires place { IsPlace text.now state.old.place }
    requires end { state.old.place.at ≤ end }
    requires within { end ≤ length text.now }
    ensures is { state.new ≡ record {
      place = record { at = end; pos = pos_at text.now end };
      at_line_start = at_line_start;
      names = state.old.names;
    } }
{
    state.place = state.place.further(text, end);
    state.at_line_start = at_line_start;
}

/// A rule that is broken at a place.
fn broken(rule: u16, pos: Pos) -> LexErr
    ensures { result ≡ Refusal.Broken (record { rule = rule; pos = pos }) }
{
    LexErr::Broken(Broken { rule, pos })
}

/// Reads a comment from `/*` to the next `*/`.
fn comment<'a>(text: &'a [u8], state: &mut State<'a>, toks: &mut List<Tok>) -> Result<(), LexErr>
    requires place { IsPlace text.now state.old.place }
    requires starts { start_at text.now state.old.place.at ≡ BlockComment }
    requires room { state.old.place.at + 2 ≤ length text.now }
    ensures went { OnOk result (Went text.now state.old toks.old state.new toks.new) }
    ensures broken { IfErr result (λ e. IfBroken e (λ b. FirstOf text.now state.old b)) }
{
    let Some(end) = comment_end(text, state.place.at + 2) else {
        return Err(broken(103, state.place.pos));
    };
    go_on(text, state, end, false);
    Ok(())
}

/// Reads a run that begins with a letter.
fn word<'a>(
    alloc: Global,
    text: &'a [u8],
    state: &mut State<'a>,
    toks: &mut List<Tok>,
) -> Result<(), LexErr>
    requires place { IsPlace text.now state.old.place }
    requires starts { start_at text.now state.old.place.at ≡ Letter }
    ensures went { OnOk result (Went text.now state.old toks.old state.new toks.new) }
    ensures broken { IfErr result (λ e. IfBroken e (λ b. FirstOf text.now state.old b)) }
{
    let at = state.place.at;
    let pos = state.place.pos;
    let end = run_end(text, at);
    let kind = kind_of_word(alloc, &state.names, &text[at..end])?;
    toks.push(Tok { kind, pos })?;
    go_on(text, state, end, false);
    Ok(())
}

/// Reads a number.
fn number<'a>(text: &'a [u8], state: &mut State<'a>, toks: &mut List<Tok>) -> Result<(), LexErr>
    requires place { IsPlace text.now state.old.place }
    requires starts { start_at text.now state.old.place.at ≡ Digit }
    ensures went { OnOk result (Went text.now state.old toks.old state.new toks.new) }
    ensures broken { IfErr result (λ e. IfBroken e (λ b. FirstOf text.now state.old b)) }
{
    let at = state.place.at;
    let pos = state.place.pos;
    let end = run_end(text, at);
    match read(&text[at..end]) {
        Reading::Formless => Err(broken(106, pos)),
        Reading::TooLarge => Err(broken(102, pos)),
        Reading::Fine(number) => {
            let kind = Kind::Num(number.value, number.is_unsigned);
            toks.push(Tok { kind, pos })?;
            go_on(text, state, end, false);
            Ok(())
        }
    }
}

/// Reads a symbol.
fn symbol<'a>(text: &'a [u8], state: &mut State<'a>, toks: &mut List<Tok>) -> Result<(), LexErr>
    requires place { IsPlace text.now state.old.place }
    requires starts { start_at text.now state.old.place.at ≡ Other }
    requires more { state.old.place.at < length text.now }
    ensures went { OnOk result (Went text.now state.old toks.old state.new toks.new) }
    ensures broken { IfErr result (λ e. IfBroken e (λ b. FirstOf text.now state.old b)) }
{
    let pos = state.place.pos;
    let Some((place, end)) = longest_symbol(text, state.place.at) else {
        return Err(broken(101, pos));
    };
    let kind = Kind::Sym(place);
    toks.push(Tok { kind, pos })?;
    go_on(text, state, end, false);
    Ok(())
}

/// Reads a line that begins with `#`. Elsewhere a `#` begins no token.
fn hash<'a>(text: &'a [u8], state: &mut State<'a>, toks: &mut List<Tok>) -> Result<(), LexErr>
    requires place { IsPlace text.now state.old.place }
    requires starts { start_at text.now state.old.place.at ≡ Hash }
    requires more { state.old.place.at < length text.now }
    ensures went { OnOk result (Went text.now state.old toks.old state.new toks.new) }
    ensures broken { IfErr result (λ e. IfBroken e (λ b. FirstOf text.now state.old b)) }
{
    let place = state.place;
    if !state.at_line_start {
        return Err(broken(101, place.pos));
    }
    if let Some(end) = include_end(text, place.at) {
        if let Some(ending) = tail(text, place.further(text, end)) {
            return include_line(text, state, toks, end, ending);
        }
    }
    if let Some(line) = definition_at(text, place.at) {
        if let Some(ending) = tail(text, place.further(text, line.end)) {
            return define_line(text, state, toks, line, ending);
        }
    }
    Err(broken(104, place.pos))
}

/// Goes on behind a `#include` that ends at `form_end`.
fn include_line<'a>(
    text: &'a [u8],
    state: &mut State<'a>,
    toks: &mut List<Tok>,
    form_end: usize,
    ending: Ending,
) -> Result<(), LexErr>
    requires place { IsPlace text.now state.old.place }
    requires starts { start_at text.now state.old.place.at ≡ Hash }
    requires at_line_start { state.old.at_line_start ≡ true }
    requires form { Include text.now state.old.place.at form_end }
    requires some { state.old.place.at < form_end }
    requires ending { TailIs text.now form_end ending }
    ensures went { OnOk result (Went text.now state.old toks.old state.new toks.new) }
    ensures broken { IfErr result (λ e. IfBroken e (λ b. FirstOf text.now state.old b)) }
{
    match ending {
        Ending::At(end) => {
            go_on(text, state, end, false);
            Ok(())
        }
        Ending::Unclosed(pos) => Err(broken(103, pos)),
    }
}

/// Defines the name of a `#define` and goes on behind it.
fn define_line<'a>(
    text: &'a [u8],
    state: &mut State<'a>,
    toks: &mut List<Tok>,
    line: Definition<'a>,
    ending: Ending,
) -> Result<(), LexErr>
    requires place { IsPlace text.now state.old.place }
    requires starts { start_at text.now state.old.place.at ≡ Hash }
    requires at_line_start { state.old.at_line_start ≡ true }
    requires form { DefineIs text.now state.old.place.at line }
    requires ending { TailIs text.now line.end ending }
    ensures went { OnOk result (Went text.now state.old toks.old state.new toks.new) }
    ensures broken { IfErr result (λ e. IfBroken e (λ b. FirstOf text.now state.old b)) }
{
    let place = state.place;
    if state.names.number(line.name).is_some() {
        return Err(broken(104, place.pos));
    }
    let number = match read(&text[line.number_at..line.end]) {
        Reading::Formless => return Err(broken(106, place.further(text, line.number_at).pos)),
        Reading::TooLarge => return Err(broken(102, place.further(text, line.number_at).pos)),
        Reading::Fine(number) => number,
    };
    match ending {
        Ending::At(end) => {
            state.names.define(line.name, number)?;
            go_on(text, state, end, false);
            Ok(())
        }
        Ending::Unclosed(pos) => Err(broken(103, pos)),
    }
}
