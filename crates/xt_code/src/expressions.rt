// Expressions as the cases write them: operands stand before their operator.

ghost use Rattle.std.specs.Prelude.{◌≤◌, IfOk};
ghost use Rattle.xc_kernel.specs.Kernels.{expression_of, place_of};
ghost use Rattle.xl_expr.specs.Measures.{depth, depth_at, nodes, nodes_at};

use crate::sizes::{is_small, is_small_place};
use crate::trouble::Trouble;
use std::alloc::Global;
use xc_kernel::{Kx, Place};
use xc_tree::SYMBOLS;
use xw_words::{List, Pos};

/// The place of what is written without one.
const AT: Pos = Pos { line: 7, col: 9 };

/// The place of tests, jumps and transfers.
pub const NAME: Pos = Pos { line: 3, col: 4 };

/// The expression that a text is.
pub fn expression(alloc: Global, text: &str) -> Result<Kx, Trouble>
    ensures nodes { IfOk result (λ x. nodes (expression_of x) ≤ 1000) }
    ensures depth { IfOk result (λ x. depth (expression_of x) ≤ 400) }
{
    let x = read(alloc, text)?;
    if !is_small(&x) {
        return Err(Trouble::Large);
    }
    Ok(x)
}

/// The place that a text is.
pub fn place(alloc: Global, text: &str) -> Result<Place, Trouble>
    ensures nodes { IfOk result (λ place. nodes_at (place_of place) ≤ 1000) }
    ensures depth { IfOk result (λ place. depth_at (place_of place) ≤ 400) }
{
    let place = read_place(alloc, text)?;
    if !is_small_place(&place) {
        return Err(Trouble::Large);
    }
    Ok(place)
}

fn read(alloc: Global, text: &str) -> Result<Kx, Trouble> {
    let mut stack = stack_of(alloc, text)?;
    let x = stack.pop().ok_or(Trouble::Line)?;
    if !stack.is_empty() {
        return Err(Trouble::Line);
    }
    Ok(x)
}

/// The last word names the place, and what stands before it is the index of an element.
fn read_place(alloc: Global, text: &str) -> Result<Place, Trouble> {
    let (index, last) = text.rsplit_once(' ').unwrap_or(("", text));
    let mut stack = Vec::new(alloc);
    if !index.is_empty() {
        stack = stack_of(alloc, index)?;
    }
    let (word, pos) = placed(last)?;
    let place = place_of_word(alloc, &mut stack, word, pos)?.ok_or(Trouble::Line)?;
    if !stack.is_empty() {
        return Err(Trouble::Line);
    }
    Ok(place)
}

/// The expressions that words make, of which each takes those before it as its operands.
fn stack_of(alloc: Global, text: &str) -> Result<Vec<Kx>, Trouble> {
    let mut stack = Vec::new(alloc);
    for word in text.split(' ') {
        let x = made(alloc, &mut stack, word)?;
        stack.push(x)?;
    }
    Ok(stack)
}

/// What a word makes of the expressions behind which it stands.
fn made(alloc: Global, stack: &mut Vec<Kx>, word: &str) -> Result<Kx, Trouble> {
    if let Ok(number) = word.parse::<u32>() {
        return Ok(Kx::Num(number));
    }
    let (word, pos) = placed(word)?;
    match place_of_word(alloc, stack, word, pos)? {
        Some(place) => Ok(Kx::Read(place)),
        None => operation(stack, word, pos),
    }
}

/// The place that a word names, if it names one: a variable, or an element of an array behind its index.
fn place_of_word(
    alloc: Global,
    stack: &mut Vec<Kx>,
    word: &str,
    pos: Pos,
) -> Result<Option<Place>, Trouble> {
    if let Some(v) = word.strip_prefix('v') {
        return Ok(Some(Place::Word(number(v)?)));
    }
    if let Some(v) = word.strip_prefix('a') {
        let v = number(v)?;
        let index = stack.pop().ok_or(Trouble::Line)?;
        return Ok(Some(Place::Elem(v, Box::new(alloc, index)?, pos)));
    }
    Ok(None)
}

/// A word without its place, and that place.
fn placed(word: &str) -> Result<(&str, Pos), Trouble> {
    let Some((word, pos)) = word.split_once('@') else {
        return Ok((word, AT));
    };
    let (line, col) = pos.split_once(':').ok_or(Trouble::Line)?;
    let line = number(line)?;
    let col = number(col)?;
    Ok((word, Pos { line, col }))
}

/// An operation with the last expressions as its operands: with one, where an `x` stands behind its symbol, with three where the symbol is
/// `?`, and with two else. A `u` stands behind the symbols of `unsigned` words.
fn operation(stack: &mut Vec<Kx>, word: &str, pos: Pos) -> Result<Kx, Trouble> {
    if let Some(symbol) = word.strip_suffix('x') {
        return with_operands(stack, symbol, false, 1, pos);
    }
    if let Some(symbol) = word.strip_suffix('u') {
        return with_operands(stack, symbol, true, 2, pos);
    }
    let count = if word == "?" { 3 } else { 2 };
    with_operands(stack, word, false, count, pos)
}

fn with_operands(
    stack: &mut Vec<Kx>,
    symbol: &str,
    is_unsigned: bool,
    count: usize,
    pos: Pos,
) -> Result<Kx, Trouble> {
    let symbol = symbol_of(symbol)?;
    if stack.len() < count {
        return Err(Trouble::Line);
    }
    let operands = stack.split_off(stack.len() - count)?;
    Ok(Kx::Op(symbol, is_unsigned, List::from_vec(operands), pos))
}

/// The place of a symbol among all symbols.
fn symbol_of(text: &str) -> Result<u8, Trouble> {
    match SYMBOLS.iter().position(|symbol| *symbol == text.as_bytes()) {
        Some(n) if n < 255 => Ok(n as u8),
        _ => Err(Trouble::Line),
    }
}

pub fn number(text: &str) -> Result<u32, Trouble> {
    match text.parse::<u32>() {
        Ok(number) => Ok(number),
        Err(_) => Err(Trouble::Line),
    }
}
