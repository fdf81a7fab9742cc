//! Expressions: operands, the operators between them, and `? :`.
//!
//! Each function falls back on itself only below a node, for which there must be room. Brackets have no node, and are
//! read in a loop.

ghost use Rattle.std.specs.Prelude.{◌≡◌, ℕ, ◌+◌, ◌<◌, ◌≤◌, length, IfOk, IfErr};
ghost use Rattle.xc_tree.specs.Depth.{of_expression};
ghost use Rattle.xc_tree.specs.Symbol as symbol;
ghost use Rattle.xc_tree.specs.Trees.{expression_of};
ghost use Rattle.xc_nonterminals.specs.Reading.{Reads};
ghost use Rattle.xc_nonterminals.specs.Stops.{Stopped};
ghost use Rattle.xc_nonterminals.specs.Levels.{NoOperator};
ghost use Rattle.xc_nonterminals.specs.Operands.{IsSymbol, IsBracket, IsSized, ReadsLevel, ReadsExpression};

use crate::nodes;
use crate::parser::{Parser, Read};
use crate::stop::Stop;
use crate::tokens::{is_bracket, is_symbol, operator_at};
use xc_tree::Expr;
use xc_tree::symbols::{COLON, END_PAREN, QUESTION};
use xw_words::allocation::with_ok;

/// An expression, how many of its nodes stand one below the other, and the place of the token behind it.
#[derive(Drop)]
pub struct Operand {
    pub tree: Expr,
    pub depth: u32,
    pub end: usize,
}

/// The weakest level of operators, that of `||`.
const WEAKEST: u8 = 10;

impl<'a> Parser<'a> {
    /// An expression from a place on.
    pub fn expr(&self, at: usize, room: u32) -> Result<Read<Expr>, Stop>
        requires at { at ≤ length self.now.toks.now }
        ensures bounds { IfOk result (λ r. (at < r.end) × (r.end ≤ length self.now.toks.now)) }
        ensures read { IfOk result
            (λ r. Reads self.now.toks.now room symbol.expr at r.end (expression_of r.value)) }
        ensures stopped { IfErr result (λ e. Stopped self.now.toks.now room symbol.expr at e) }
    {
        match self.expression(at, room) {
            Ok(whole) => Ok(Read {
                value: whole.tree,
                end: whole.end,
            }),
            Err(e) => Err(e),
        }
    }

    /// An expression with its depth.
    #[cycle(expression)]
    pub fn expression(&self, at: usize, room: u32) -> Result<Operand, Stop>
        requires at { at ≤ length self.now.toks.now }
        ensures sized { IfOk result (λ o. (at < o.end) × IsSized self.now.toks.now room o) }
        ensures read { IfOk result (λ o. ReadsExpression self.now.toks.now room at o) }
        ensures stopped { IfErr result (λ e. Stopped self.now.toks.now room symbol.expr at e) }
    {
        match self.operand(at, room) {
            Ok(first) => self.rest(first, room),
            Err(e) => Err(e),
        }
    }

    /// An operand: a number, a name, an element, one with a sign or a cast before it, or an expression in brackets.
    #[cycle(expression)]
    pub fn operand(&self, at: usize, room: u32) -> Result<Operand, Stop>
        requires at { at ≤ length self.now.toks.now }
        ensures sized { IfOk result (λ o. (at < o.end) × IsSized self.now.toks.now room o) }
        ensures read { IfOk result (λ o. ReadsLevel self.now.toks.now room 0 at o) }
        ensures stopped { IfErr result (λ e. Stopped self.now.toks.now room (symbol.level 0) at e) }
    {
        let mut start = self.brackets_end(at);
        let mut operand = match self.bare(start, room) {
            Ok(inside) => inside,
            Err(e) => return Err(e),
        };
        'brackets: while start > at {
            operand = match self.rest(operand, room) {
                Ok(inside) => inside,
                Err(e) => return Err(e),
            };
            if !is_symbol(self.toks, operand.end, END_PAREN) {
                let end = operand.end;
                drop(operand);
                return Err(Stop::Wrong(end));
            }
            operand.end += 1;
            start -= 1;
        }
        Ok(operand)
    }

    /// The place behind the brackets that are opened from a place on.
    fn brackets_end(&self, at: usize) -> usize
        requires at { at ≤ length self.now.toks.now }
        ensures bounds { (at ≤ result) × (result ≤ length self.now.toks.now) }
        ensures brackets { (i : ℕ) → at ≤ i → i < result → IsBracket self.now.toks.now i }
        ensures last { IsBracket self.now.toks.now result → ⊥ }
    {
        let mut end = at;
        'brackets: while is_bracket(self.toks, end) {
            end += 1;
        }
        end
    }

    /// The rest of the expression that begins with an operand.
    #[cycle(expression)]
    fn rest(&self, first: Operand, room: u32) -> Result<Operand, Stop>
        requires first { IsSized self.now.toks.now room first }
        ensures sized { IfOk result (λ o. (first.end ≤ o.end) × IsSized self.now.toks.now room o) }
        ensures read { IfOk result (λ o. (at : ℕ) → ReadsLevel self.now.toks.now room 0 at first →
            ReadsExpression self.now.toks.now room at o) }
        ensures stopped { IfErr result (λ e. (at : ℕ) → ReadsLevel self.now.toks.now room 0 at first
            → Stopped self.now.toks.now room symbol.expr at e) }
    {
        let test = match self.climb(first, WEAKEST, room) {
            Ok(test) => test,
            Err(e) => return Err(e),
        };
        if !is_symbol(self.toks, test.end, QUESTION) {
            return Ok(test);
        }
        if test.depth >= room {
            let end = test.end;
            drop(test);
            return Err(Stop::Deep(end));
        }
        self.choice(test, room)
    }

    /// What stands behind the test of `test ? first : second`.
    #[cycle(expression)]
    fn choice(&self, test: Operand, room: u32) -> Result<Operand, Stop>
        requires test { IsSized self.now.toks.now room test }
        requires question { (test.end < length self.now.toks.now)
            × IsSymbol self.now.toks.now test.end 9 }
        requires fits { test.depth < room }
        ensures sized { IfOk result (λ o. (test.end ≤ o.end) × IsSized self.now.toks.now room o) }
        ensures read { IfOk result (λ o. (at : ℕ) → ReadsLevel self.now.toks.now room 10 at test →
            ReadsExpression self.now.toks.now room at o) }
        ensures stopped { IfErr result (λ e. (at : ℕ) → ReadsLevel self.now.toks.now room 10 at test
            → Stopped self.now.toks.now room symbol.expr at e) }
    {
        let question = test.end;
        let pos = self.toks[question].pos;
        let (test, first) = match with_ok(test, self.expression(question + 1, room - 1)) {
            Ok(both) => both,
            Err(e) => return Err(e),
        };
        let colon = first.end;
        if !is_symbol(self.toks, colon, COLON) {
            drop(first);
            drop(test);
            return Err(Stop::Wrong(colon));
        }
        let both = (test, first);
        let (both, second) = match with_ok(both, self.expression(colon + 1, room - 1)) {
            Ok(all) => all,
            Err(e) => return Err(e),
        };
        let (test, first) = both;
        let depth = test.depth.max(first.depth).max(second.depth) + 1;
        let end = second.end;
        match nodes::choice(self.alloc, test.tree, first.tree, second.tree, pos) {
            Ok(tree) => Ok(Operand { tree, depth, end }),
            Err(e) => Err(e),
        }
    }

    /// What begins with an operand and goes on with operators that bind at least as strongly as this level's.
    #[cycle(expression)]
    fn climb(&self, first: Operand, level: u8, room: u32) -> Result<Operand, Stop>
        requires first { IsSized self.now.toks.now room first }
        ensures sized { IfOk result (λ o. (first.end ≤ o.end) × IsSized self.now.toks.now room o) }
        ensures read { IfOk result (λ o. (at : ℕ) → ReadsLevel self.now.toks.now room 0 at first →
            ReadsLevel self.now.toks.now room level at o) }
        ensures last { IfOk result (λ o. NoOperator self.now.toks.now o.end level) }
        ensures stopped { IfErr result (λ e. (at : ℕ) → ReadsLevel self.now.toks.now room 0 at first
            → Stopped self.now.toks.now room (symbol.level level) at e) }
    {
        let mut left = first;
        'operators: while let Some(operator) = operator_at(self.toks, left.end, level) {
            if left.depth >= room {
                let end = left.end;
                drop(left);
                return Err(Stop::Deep(end));
            }
            let right = match self.level(left.end + 1, operator.level - 1, room - 1) {
                Ok(right) => right,
                Err(e) => {
                    drop(left);
                    return Err(e);
                }
            };
            let depth = left.depth.max(right.depth) + 1;
            let end = right.end;
            left = match nodes::binary(
                self.alloc,
                operator.symbol,
                left.tree,
                right.tree,
                operator.pos,
            ) {
                Ok(tree) => Operand { tree, depth, end },
                Err(e) => return Err(e),
            };
        }
        Ok(left)
    }

    /// An expression of a level.
    #[cycle(expression)]
    fn level(&self, at: usize, level: u8, room: u32) -> Result<Operand, Stop>
        requires at { at ≤ length self.now.toks.now }
        ensures sized { IfOk result (λ o. (at < o.end) × IsSized self.now.toks.now room o) }
        ensures read { IfOk result (λ o. ReadsLevel self.now.toks.now room level at o) }
        ensures last { IfOk result (λ o. NoOperator self.now.toks.now o.end level) }
        ensures stopped { IfErr result
            (λ e. Stopped self.now.toks.now room (symbol.level level) at e) }
    {
        match self.operand(at, room) {
            Ok(first) => self.climb(first, level, room),
            Err(e) => Err(e),
        }
    }
}
