//! What statements hold of expressions: right sides, calls and their arguments, places to assign to, times and guards.

ghost use Rattle.std.specs.Prelude.{◌≡◌, ℕ, ◌+◌, ◌<◌, ◌≤◌, ◌++◌, [], ◌∷◌, map, length, IfOk, IfErr, IfNone};
ghost use Rattle.xc_tree.specs.declared.token.Kind.TheVariants.{Name};
ghost use Rattle.xc_tree.specs.declared.tree.Arg.{Arg};
ghost use Rattle.xc_tree.specs.Derives.{On};
ghost use Rattle.xc_tree.specs.Plain as plain;
ghost use Rattle.xc_tree.specs.Symbol as symbol;
ghost use Rattle.xc_tree.specs.Trees.{argument_of, expression_of, right_of, timing_of};
ghost use Rattle.xc_nonterminals.specs.Follows.{StandsAt};
ghost use Rattle.xc_nonterminals.specs.Operands.{IsSymbol};
ghost use Rattle.xc_nonterminals.specs.Reading.{Reads};
ghost use Rattle.xc_nonterminals.specs.Stops.{Stopped};
ghost use Rattle.xc_nonterminals.specs.RightSides.{call_of, IsMissing, IsValued, ReadsRhs, ReadsInitial};

use crate::parser::{Parser, Read};
use crate::stop::Stop;
use crate::tokens::{begins_operand, goes_on, is_name, is_symbol};
use xc_tree::symbols::{ARROW, AT_SIGN, COMMA, END_PAREN, EQUALS, PAREN};
use xc_tree::{Arg, Expr, Id, Kind, Rhs, Timed};
use xw_words::List;

/// A call: the name of what is called, and the arguments.
#[derive(Drop)]
pub struct Called {
    pub name: Id,
    pub arguments: List<Arg>,
}

impl<'a> Parser<'a> {
    /// The name at a place.
    pub fn name(&self, at: usize) -> Result<Id, Stop>
        ensures named { IfOk result
            (λ n. (at < length self.now.toks.now) × On self.now.toks.now at (Name n.text) n.pos) }
        ensures missing { IfErr result (IsMissing self.now.toks.now at symbol.a_name) }
    {
        if at >= self.toks.len() {
            return Err(Stop::Wrong(at));
        }
        let tok = &self.toks[at];
        match &tok.kind {
            Kind::Name(text) => match text.copy(self.alloc) {
                Ok(text) => Ok(Id { text, pos: tok.pos }),
                Err(_) => Err(Stop::Memory),
            },
            Kind::Num(..) => Err(Stop::Wrong(at)),
            Kind::Key(_) => Err(Stop::Wrong(at)),
            Kind::Sym(_) => Err(Stop::Wrong(at)),
        }
    }

    /// A variable, or an element of an array.
    pub fn lval(&self, at: usize, room: u32) -> Result<Read<Expr>, Stop>
        requires at { at ≤ length self.now.toks.now }
        ensures bounds { IfOk result (λ r. (at < r.end) × (r.end ≤ length self.now.toks.now)) }
        ensures read { IfOk result
            (λ r. Reads self.now.toks.now room symbol.lval at r.end (expression_of r.value)) }
        ensures stopped { IfErr result (λ e. Stopped self.now.toks.now room symbol.lval at e) }
    {
        if at >= self.toks.len() {
            return Err(Stop::Wrong(at));
        }
        let tok = &self.toks[at];
        match &tok.kind {
            Kind::Name(text) => match self.variable(text, tok.pos, at, room) {
                Ok(read) => Ok(Read {
                    value: read.tree,
                    end: read.end,
                }),
                Err(e) => Err(e),
            },
            Kind::Num(..) => Err(Stop::Wrong(at)),
            Kind::Key(_) => Err(Stop::Wrong(at)),
            Kind::Sym(_) => Err(Stop::Wrong(at)),
        }
    }

    /// The number of a core: an expression, and its first token.
    pub fn place_value(&self, at: usize, room: u32) -> Result<Read<Arg>, Stop>
        requires at { at ≤ length self.now.toks.now }
        ensures bounds { IfOk result (λ r. (at < r.end) × (r.end ≤ length self.now.toks.now)) }
        ensures read { IfOk result
            (λ r. Reads self.now.toks.now room symbol.place_value at r.end (argument_of r.value)) }
        ensures stopped { IfErr result
            (λ e. Stopped self.now.toks.now room symbol.place_value at e) }
    {
        self.valued(at, room)
    }

    /// An argument of a call: an expression, and its first token.
    pub fn argument(&self, at: usize, room: u32) -> Result<Read<Arg>, Stop>
        requires at { at ≤ length self.now.toks.now }
        ensures bounds { IfOk result (λ r. (at < r.end) × (r.end ≤ length self.now.toks.now)) }
        ensures read { IfOk result
            (λ r. Reads self.now.toks.now room symbol.argument at r.end (argument_of r.value)) }
        ensures stopped { IfErr result (λ e. Stopped self.now.toks.now room symbol.argument at e) }
    {
        self.valued(at, room)
    }

    /// An expression, and its first token.
    fn valued(&self, at: usize, room: u32) -> Result<Read<Arg>, Stop>
        requires at { at ≤ length self.now.toks.now }
        ensures bounds { IfOk result (λ r. (at < r.end) × (r.end ≤ length self.now.toks.now)) }
        ensures read { IfOk result
            (λ r. IsValued self.now.toks.now room at r.end (argument_of r.value)) }
        ensures stopped { IfErr result (λ e. Stopped self.now.toks.now room symbol.expr at e) }
    {
        let read = match self.expr(at, room) {
            Ok(read) => read,
            Err(e) => return Err(e),
        };
        let first = self.toks[at].pos;
        Ok(Read {
            value: Arg {
                value: read.value,
                first,
            },
            end: read.end,
        })
    }

    /// The arguments of a call, which may be none.
    pub fn arguments(&self, at: usize, room: u32) -> Result<Read<List<Arg>>, Stop>
        requires at { at ≤ length self.now.toks.now }
        ensures bounds { IfOk result (λ r. (at ≤ r.end) × (r.end ≤ length self.now.toks.now)) }
        ensures read { IfOk result (λ r. Reads self.now.toks.now room symbol.arguments at r.end
            (map argument_of r.value)) }
        ensures stopped { IfErr result (λ e. Stopped self.now.toks.now room symbol.arguments at e) }
    {
        let mut value = List::new(self.alloc);
        if !begins_operand(self.toks, at) {
            return Ok(Read { value, end: at });
        }
        let mut end = match self.next_argument(&mut value, at, room) {
            Ok(end) => end,
            Err(e) => return Err(e),
        };
        'arguments: while is_symbol(self.toks, end, COMMA) {
            end = match self.next_argument(&mut value, end + 1, room) {
                Ok(end) => end,
                Err(e) => return Err(e),
            };
        }
        Ok(Read { value, end })
    }

    /// Reads an argument to the end of a list, and gives the place behind it.
    fn next_argument(&self, arguments: &mut List<Arg>, at: usize, room: u32) -> Result<usize, Stop>
        requires at { at ≤ length self.now.toks.now }
        ensures bounds { IfOk result (λ end. (at < end) × (end ≤ length self.now.toks.now)) }
        ensures read { IfOk result (λ end. (a : Arg) × (arguments.new ≡ arguments.old ++ a ∷ [])
            × Reads self.now.toks.now room symbol.argument at end (argument_of a)) }
        ensures stopped { IfErr result (λ e. Stopped self.now.toks.now room symbol.argument at e) }
    {
        let read = match self.argument(at, room) {
            Ok(read) => read,
            Err(e) => return Err(e),
        };
        match arguments.push(read.value) {
            Ok(()) => Ok(read.end),
            Err(_) => Err(Stop::Memory),
        }
    }

    /// A call of a function.
    pub fn call(&self, at: usize, room: u32) -> Result<Read<Called>, Stop>
        requires at { at ≤ length self.now.toks.now }
        ensures bounds { IfOk result (λ r. (at < r.end) × (r.end ≤ length self.now.toks.now)) }
        ensures read { IfOk result
            (λ r. Reads self.now.toks.now room symbol.call at r.end (call_of r.value)) }
        ensures stopped { IfErr result (λ e. Stopped self.now.toks.now room symbol.call at e) }
    {
        let name = match self.name(at) {
            Ok(name) => name,
            Err(e) => return Err(e),
        };
        if !is_symbol(self.toks, at + 1, PAREN) {
            return Err(Stop::Wrong(at + 1));
        }
        let arguments = match self.arguments(at + 2, room) {
            Ok(arguments) => arguments,
            Err(e) => return Err(e),
        };
        let end = arguments.end;
        if !is_symbol(self.toks, end, END_PAREN) {
            drop(arguments);
            drop(name);
            return Err(Stop::Wrong(end));
        }
        Ok(Read {
            value: Called {
                name,
                arguments: arguments.value,
            },
            end: end + 1,
        })
    }

    /// What stands at the right of an `=`: an expression, or a call.
    ///
    /// `None` where there is no room and a name stands there that is neither called nor goes on: then an expression ends
    /// there, but one that is too deep.
    pub fn rhs(&self, at: usize, room: u32) -> Result<Read<Option<Rhs>>, Stop>
        requires at { at ≤ length self.now.toks.now }
        ensures bounds { IfOk result (λ r. (at < r.end) × (r.end ≤ length self.now.toks.now)) }
        ensures read { IfOk result (λ r. ReadsRhs self.now.toks.now room at r.end r.value) }
        ensures roomless { IfOk result (λ r. IfNone r.value (room ≡ 0)) }
        ensures stopped { IfErr result (λ e. Stopped self.now.toks.now room symbol.rhs at e) }
    {
        if !is_name(self.toks, at) {
            return self.value(at, room);
        }
        if is_symbol(self.toks, at + 1, PAREN) {
            return self.result(at, room);
        }
        if room > 0 {
            return self.value(at, room);
        }
        if goes_on(self.toks, at + 1) {
            return Err(Stop::Deep(at + 1));
        }
        Ok(Read {
            value: None,
            end: at + 1,
        })
    }

    /// An expression as a right side.
    fn value(&self, at: usize, room: u32) -> Result<Read<Option<Rhs>>, Stop>
        requires at { at ≤ length self.now.toks.now }
        requires no_call { StandsAt self.now.toks.now at symbol.a_name →
            IsSymbol self.now.toks.now (at + 1) 0 → ⊥ }
        requires room { StandsAt self.now.toks.now at symbol.a_name → 1 ≤ room }
        ensures bounds { IfOk result (λ r. (at < r.end) × (r.end ≤ length self.now.toks.now)) }
        ensures read { IfOk result (λ r. ReadsRhs self.now.toks.now room at r.end r.value) }
        ensures roomless { IfOk result (λ r. IfNone r.value (room ≡ 0)) }
        ensures stopped { IfErr result (λ e. Stopped self.now.toks.now room symbol.rhs at e) }
    {
        match self.expr(at, room) {
            Ok(read) => Ok(Read {
                value: Some(Rhs::Value(read.value)),
                end: read.end,
            }),
            Err(e) => Err(e),
        }
    }

    /// A call as a right side.
    fn result(&self, at: usize, room: u32) -> Result<Read<Option<Rhs>>, Stop>
        requires name { (at < length self.now.toks.now)
            × StandsAt self.now.toks.now at symbol.a_name }
        requires paren { IsSymbol self.now.toks.now (at + 1) 0 }
        ensures bounds { IfOk result (λ r. (at < r.end) × (r.end ≤ length self.now.toks.now)) }
        ensures read { IfOk result (λ r. ReadsRhs self.now.toks.now room at r.end r.value) }
        ensures roomless { IfOk result (λ r. IfNone r.value (room ≡ 0)) }
        ensures stopped { IfErr result (λ e. Stopped self.now.toks.now room symbol.rhs at e) }
    {
        match self.call(at, room) {
            Ok(read) => Ok(Read {
                value: Some(right_side(read.value)),
                end: read.end,
            }),
            Err(e) => Err(e),
        }
    }

    /// `=` and what stands at its right; `None` as for `rhs`.
    pub fn initial(&self, at: usize, room: u32) -> Result<Read<Option<Rhs>>, Stop>
        requires at { at ≤ length self.now.toks.now }
        ensures bounds { IfOk result (λ r. (at < r.end) × (r.end ≤ length self.now.toks.now)) }
        ensures read { IfOk result (λ r. ReadsInitial self.now.toks.now room at r.end r.value) }
        ensures stopped { IfErr result (λ e. Stopped self.now.toks.now room symbol.initial at e) }
    {
        if !is_symbol(self.toks, at, EQUALS) {
            return Err(Stop::Wrong(at));
        }
        self.rhs(at + 1, room)
    }

    /// `@` and the time of a transfer.
    pub fn time(&self, at: usize, room: u32) -> Result<Read<Timed>, Stop>
        requires at { at ≤ length self.now.toks.now }
        ensures bounds { IfOk result (λ r. (at < r.end) × (r.end ≤ length self.now.toks.now)) }
        ensures read { IfOk result
            (λ r. Reads self.now.toks.now room symbol.time at r.end (timing_of r.value)) }
        ensures stopped { IfErr result (λ e. Stopped self.now.toks.now room symbol.time at e) }
    {
        if !is_symbol(self.toks, at, AT_SIGN) {
            return Err(Stop::Wrong(at));
        }
        let sign = self.toks[at].pos;
        match self.expr(at + 1, room) {
            Ok(read) => Ok(Read {
                value: Timed {
                    at: sign,
                    value: read.value,
                },
                end: read.end,
            }),
            Err(e) => Err(e),
        }
    }

    /// `@` and where the time of a transfer is stored.
    pub fn stamp(&self, at: usize, room: u32) -> Result<Read<Timed>, Stop>
        requires at { at ≤ length self.now.toks.now }
        ensures bounds { IfOk result (λ r. (at < r.end) × (r.end ≤ length self.now.toks.now)) }
        ensures read { IfOk result
            (λ r. Reads self.now.toks.now room symbol.stamp at r.end (timing_of r.value)) }
        ensures stopped { IfErr result (λ e. Stopped self.now.toks.now room symbol.stamp at e) }
    {
        if !is_symbol(self.toks, at, AT_SIGN) {
            return Err(Stop::Wrong(at));
        }
        let sign = self.toks[at].pos;
        match self.lval(at + 1, room) {
            Ok(read) => Ok(Read {
                value: Timed {
                    at: sign,
                    value: read.value,
                },
                end: read.end,
            }),
            Err(e) => Err(e),
        }
    }

    /// The guard of a case, and the `=>` behind it.
    pub fn guard(&self, at: usize, room: u32) -> Result<Read<Expr>, Stop>
        requires at { at ≤ length self.now.toks.now }
        ensures bounds { IfOk result (λ r. (at < r.end) × (r.end ≤ length self.now.toks.now)) }
        ensures read { IfOk result
            (λ r. Reads self.now.toks.now room symbol.guard at r.end (expression_of r.value)) }
        ensures stopped { IfErr result (λ e. Stopped self.now.toks.now room symbol.guard at e) }
    {
        let test = self.expr(at, room)?;
        let closed = self.closed(test, ARROW)?;
        Ok(Read {
            value: closed.value,
            end: closed.end,
        })
    }
}

/// A call as a right side.
pub fn right_side(called: Called) -> Rhs
    ensures { right_of result ≡ plain.result (call_of called) }
{
    let Called { name, arguments } = called;
    let Id { text, pos } = name;
    Rhs::Call {
        name: text,
        pos,
        args: arguments,
    }
}
