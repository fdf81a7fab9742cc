//! Operands without brackets: numbers, names, elements, signs and casts.

ghost use Rattle.std.specs.Prelude.{◌≡◌, ◌+◌, ◌<◌, ◌≤◌, length, IfOk, IfErr};
ghost use Rattle.xc_tree.specs.declared.token.Kind.TheVariants.{Name, Sym};
ghost use Rattle.xc_tree.specs.Derives.{On};
ghost use Rattle.xc_tree.specs.Symbol as symbols;
ghost use Rattle.xc_tree.specs.Trees.{expression_of};
ghost use Rattle.xc_nonterminals.specs.Reading.{Reads};
ghost use Rattle.xc_nonterminals.specs.Stops.{Stopped};
ghost use Rattle.xc_nonterminals.specs.Operands.{IsBracket, IsCast, IsSized, ReadsLevel};

use crate::expressions::Operand;
use crate::nodes;
use crate::parser::Parser;
use crate::stop::Stop;
use crate::tokens::{is_cast, is_sign, is_symbol, is_word};
use xc_tree::symbols::{BRACKET, END_BRACKET, END_PAREN};
use xc_tree::words::{INT_WORD, UNSIGNED_WORD};
use xc_tree::{Kind, Text};
use xw_words::Pos;

impl<'a> Parser<'a> {
    /// An operand that begins with no bracket.
    #[cycle(expression)]
    pub fn bare(&self, at: usize, room: u32) -> Result<Operand, Stop>
        requires at { at ≤ length self.now.toks.now }
        requires no_bracket { IsBracket self.now.toks.now at → ⊥ }
        ensures sized { IfOk result (λ o. (at < o.end) × IsSized self.now.toks.now room o) }
        ensures read { IfOk result (λ o. ReadsLevel self.now.toks.now room 0 at o) }
        ensures stopped { IfErr result
            (λ e. Stopped self.now.toks.now room (symbols.level 0) at e) }
    {
        if is_cast(self.toks, at) {
            return self.cast(at, room);
        }
        if at >= self.toks.len() {
            return Err(Stop::Wrong(at));
        }
        let tok = &self.toks[at];
        match &tok.kind {
            Kind::Num(value, is_unsigned) => {
                if room == 0 {
                    return Err(Stop::Deep(at));
                }
                Ok(Operand {
                    tree: nodes::number(*value, *is_unsigned, tok.pos),
                    depth: 1,
                    end: at + 1,
                })
            }
            Kind::Name(text) => self.variable(text, tok.pos, at, room),
            Kind::Sym(symbol) => {
                if is_sign(*symbol) {
                    return self.signed(*symbol, tok.pos, at, room);
                }
                Err(Stop::Wrong(at))
            }
            Kind::Key(_) => Err(Stop::Wrong(at)),
        }
    }

    /// A name, or an element of an array of this name.
    #[cycle(expression)]
    pub fn variable(&self, text: &Text, pos: Pos, at: usize, room: u32) -> Result<Operand, Stop>
        requires on { (at < length self.now.toks.now) × On self.now.toks.now at
            (Name text.now) pos }
        ensures sized { IfOk result (λ o. (at < o.end) × IsSized self.now.toks.now room o) }
        ensures read { IfOk result (λ o. ReadsLevel self.now.toks.now room 0 at o) }
        ensures stopped { IfErr result
            (λ e. Stopped self.now.toks.now room (symbols.level 0) at e) }
        ensures lval { IfOk result
            (λ o. Reads self.now.toks.now room symbols.lval at o.end (expression_of o.tree)) }
        ensures no_lval { IfErr result (λ e. Stopped self.now.toks.now room symbols.lval at e) }
    {
        if room == 0 {
            return Err(Stop::Deep(at));
        }
        let text = match text.copy(self.alloc) {
            Ok(text) => text,
            Err(_) => return Err(Stop::Memory),
        };
        if !is_symbol(self.toks, at + 1, BRACKET) {
            return Ok(Operand {
                tree: nodes::name(text, pos),
                depth: 1,
                end: at + 1,
            });
        }
        let place = match self.expression(at + 2, room - 1) {
            Ok(place) => place,
            Err(e) => return Err(e),
        };
        let end = place.end;
        if !is_symbol(self.toks, end, END_BRACKET) {
            drop(place);
            drop(text);
            return Err(Stop::Wrong(end));
        }
        let depth = place.depth + 1;
        match nodes::index(self.alloc, text, place.tree, pos) {
            Ok(tree) => Ok(Operand {
                tree,
                depth,
                end: end + 1,
            }),
            Err(e) => Err(e),
        }
    }

    /// An operand behind a sign.
    #[cycle(expression)]
    fn signed(&self, symbol: u8, pos: Pos, at: usize, room: u32) -> Result<Operand, Stop>
        requires sign { (13 ≤ symbol) × (symbol ≤ 16) }
        requires on { (at < length self.now.toks.now) × On self.now.toks.now at (Sym symbol) pos }
        ensures sized { IfOk result (λ o. (at < o.end) × IsSized self.now.toks.now room o) }
        ensures read { IfOk result (λ o. ReadsLevel self.now.toks.now room 0 at o) }
        ensures stopped { IfErr result
            (λ e. Stopped self.now.toks.now room (symbols.level 0) at e) }
    {
        if room == 0 {
            return Err(Stop::Deep(at));
        }
        let operand = match self.operand(at + 1, room - 1) {
            Ok(operand) => operand,
            Err(e) => return Err(e),
        };
        let depth = operand.depth + 1;
        let end = operand.end;
        match nodes::unary(self.alloc, symbol, operand.tree, pos) {
            Ok(tree) => Ok(Operand { tree, depth, end }),
            Err(e) => Err(e),
        }
    }

    /// An operand behind a cast, from the cast's bracket on.
    #[cycle(expression)]
    fn cast(&self, at: usize, room: u32) -> Result<Operand, Stop>
        requires cast { (at + 1 < length self.now.toks.now) × IsCast self.now.toks.now at }
        ensures sized { IfOk result (λ o. (at < o.end) × IsSized self.now.toks.now room o) }
        ensures read { IfOk result (λ o. ReadsLevel self.now.toks.now room 0 at o) }
        ensures stopped { IfErr result
            (λ e. Stopped self.now.toks.now room (symbols.level 0) at e) }
    {
        let pos = self.toks[at].pos;
        if room == 0 {
            return Err(Stop::Deep(at + 1));
        }
        let is_unsigned = is_word(self.toks, at + 1, UNSIGNED_WORD);
        if !is_symbol(self.toks, at + 2, END_PAREN) {
            return Err(Stop::Wrong(at + 2));
        }
        let operand = match self.operand(at + 3, room - 1) {
            Ok(operand) => operand,
            Err(e) => return Err(e),
        };
        let depth = operand.depth + 1;
        let end = operand.end;
        match nodes::cast(self.alloc, is_unsigned, operand.tree, pos) {
            Ok(tree) => Ok(Operand { tree, depth, end }),
            Err(e) => Err(e),
        }
    }
}
