//! The nodes of expressions: what each of them stands for in the plain tree.

ghost use Rattle.std.specs.Prelude.{◌≡◌, IfOk, IfErr};
ghost use Rattle.xc_tree.specs.Trees.{expression_of};
ghost use Rattle.xc_tree.specs.Plain as plain;
ghost use Rattle.xc_nonterminals.specs.declared.stop.Stop.TheVariants as stop;

use crate::stop::Stop;
use std::alloc::Global;
use xc_tree::{Ex, Expr, Text};
use xw_words::allocation::{boxed, zip_ok};
use xw_words::{Memory, Pos};

/// A number.
pub fn number(value: u32, is_unsigned: bool, pos: Pos) -> Expr
    ensures made { expression_of result ≡ plain.expression (plain.number value is_unsigned) pos }
{
    Expr {
        kind: Ex::Num(value, is_unsigned),
        pos,
    }
}

/// A name.
pub fn name(text: Text, pos: Pos) -> Expr
    ensures made { expression_of result ≡ plain.expression (plain.name text) pos }
{
    Expr {
        kind: Ex::Name(text),
        pos,
    }
}

/// `text [ place ]`
pub fn index(alloc: Global, text: Text, place: Expr, pos: Pos) -> Result<Expr, Stop>
    ensures made { IfOk result
        (λ e. expression_of e ≡ plain.expression (plain.index text (expression_of place)) pos) }
    ensures memory { IfErr result (λ e. e ≡ stop.Memory) }
{
    match boxed(alloc, place) {
        Ok(place) => Ok(Expr {
            kind: Ex::Index(text, place),
            pos,
        }),
        Err(Memory) => Err(Stop::Memory),
    }
}

/// A sign and its operand.
pub fn unary(alloc: Global, symbol: u8, operand: Expr, pos: Pos) -> Result<Expr, Stop>
    ensures made { IfOk result
        (λ e. expression_of e ≡ plain.expression (plain.unary symbol (expression_of operand)) pos) }
    ensures memory { IfErr result (λ e. e ≡ stop.Memory) }
{
    match boxed(alloc, operand) {
        Ok(operand) => Ok(Expr {
            kind: Ex::Un(symbol, operand),
            pos,
        }),
        Err(Memory) => Err(Stop::Memory),
    }
}

/// `(unsigned)`, or else `(int)`, and its operand.
pub fn cast(alloc: Global, is_unsigned: bool, operand: Expr, pos: Pos) -> Result<Expr, Stop>
    ensures made { IfOk result (λ e. expression_of e
        ≡ plain.expression (plain.cast is_unsigned (expression_of operand)) pos) }
    ensures memory { IfErr result (λ e. e ≡ stop.Memory) }
{
    match boxed(alloc, operand) {
        Ok(operand) => Ok(Expr {
            kind: Ex::Cast(is_unsigned, operand),
            pos,
        }),
        Err(Memory) => Err(Stop::Memory),
    }
}

/// An operator between its operands.
pub fn binary(alloc: Global, symbol: u8, left: Expr, right: Expr, pos: Pos) -> Result<Expr, Stop>
    ensures made { IfOk result (λ e. expression_of e
        ≡ plain.expression (plain.binary symbol (expression_of left) (expression_of right)) pos) }
    ensures memory { IfErr result (λ e. e ≡ stop.Memory) }
{
    match zip_ok(boxed(alloc, left), boxed(alloc, right)) {
        Ok((left, right)) => Ok(Expr {
            kind: Ex::Bin(symbol, left, right),
            pos,
        }),
        Err(Memory) => Err(Stop::Memory),
    }
}

/// `test ? first : second`
pub fn choice(alloc: Global, test: Expr, first: Expr, second: Expr, pos: Pos) -> Result<Expr, Stop>
    ensures made { IfOk result (λ e. expression_of e ≡ plain.expression
        (plain.choice (expression_of test) (expression_of first) (expression_of second)) pos) }
    ensures memory { IfErr result (λ e. e ≡ stop.Memory) }
{
    let choices = zip_ok(boxed(alloc, first), boxed(alloc, second));
    match zip_ok(boxed(alloc, test), choices) {
        Ok((test, (first, second))) => Ok(Expr {
            kind: Ex::Cond(test, first, second),
            pos,
        }),
        Err(Memory) => Err(Stop::Memory),
    }
}
