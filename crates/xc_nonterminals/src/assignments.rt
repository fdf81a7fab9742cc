//! Assignments, and the steps `++` and `--`.

ghost use Rattle.std.specs.Prelude.{◌≡◌, ℕ, ◌+◌, ◌<◌, ◌≤◌, length, IfOk, IfErr};
ghost use Rattle.xc_tree.specs.Symbol as symbol;
ghost use Rattle.xc_tree.specs.Trees as trees;
ghost use Rattle.xc_nonterminals.specs.Reading.{Reads};
ghost use Rattle.xc_nonterminals.specs.Stops.{Stopped};
ghost use Rattle.xc_nonterminals.specs.Parts.{mark_of};

use crate::parser::{Parser, Read};
use crate::stop::Stop;
use crate::tokens::is_symbol;
use xc_tree::symbols::{EQUALS, MINUS_MINUS, PLUS_PLUS};
use xc_tree::{Kind, Rhs, St};
use xw_words::Pos;
use xw_words::allocation::with_ok;

/// An operator that assigns, by its place in `SYMBOLS`, and where it stands.
#[derive(Clone, Copy)]
pub struct Mark {
    pub symbol: u8,
    pub pos: Pos,
}

/// `+=`, the first of the symbols that assign with an operator.
const PLUS_EQUALS: u8 = 37;

/// `>>=`, the last of them.
const SHIFT_EQUALS: u8 = 46;

impl<'a> Parser<'a> {
    /// An assignment.
    pub fn assign(&self, at: usize, room: u32) -> Result<Read<St>, Stop>
        requires at { at ≤ length self.now.toks.now }
        ensures bounds { IfOk result (λ r. (at < r.end) × (r.end ≤ length self.now.toks.now)) }
        ensures read { IfOk result
            (λ r. Reads self.now.toks.now room symbol.assign at r.end (trees.action_of r.value)) }
        ensures stopped { IfErr result (λ e. Stopped self.now.toks.now room symbol.assign at e) }
    {
        let target = self.lval(at, room)?;
        let end = target.end;
        if is_symbol(self.toks, end, EQUALS) {
            let pos = self.toks[end].pos;
            let (target, right) = with_ok(target.value, self.rhs(end + 1, room))?;
            let Read { value, end } = right;
            let Some(value) = value else { unreachable!() };
            return Ok(Read {
                value: St::Assign(target, EQUALS, pos, value),
                end,
            });
        }
        if is_symbol(self.toks, end, PLUS_PLUS) {
            return Ok(Read {
                value: St::Step(target.value, PLUS_PLUS),
                end: end + 1,
            });
        }
        if is_symbol(self.toks, end, MINUS_MINUS) {
            return Ok(Read {
                value: St::Step(target.value, MINUS_MINUS),
                end: end + 1,
            });
        }
        let (target, mark) = with_ok(target.value, self.assign_op(end))?;
        let (target, value) = with_ok(target, self.expr(mark.end, room))?;
        let Mark { symbol, pos } = mark.value;
        Ok(Read {
            value: St::Assign(target, symbol, pos, Rhs::Value(value.value)),
            end: value.end,
        })
    }

    /// An operator that assigns.
    pub fn assign_op(&self, at: usize) -> Result<Read<Mark>, Stop>
        requires at { at ≤ length self.now.toks.now }
        ensures bounds { IfOk result (λ r. (r.end ≡ at + 1) × (r.end ≤ length self.now.toks.now)) }
        ensures read { IfOk result (λ r. (room : ℕ) →
            Reads self.now.toks.now room symbol.assign_op at r.end (mark_of r.value)) }
        ensures stopped { IfErr result
            (λ e. (room : ℕ) → Stopped self.now.toks.now room symbol.assign_op at e) }
    {
        if at >= self.toks.len() {
            return Err(Stop::Wrong(at));
        }
        let tok = &self.toks[at];
        match &tok.kind {
            Kind::Sym(symbol) => {
                if *symbol < PLUS_EQUALS || *symbol > SHIFT_EQUALS {
                    return Err(Stop::Wrong(at));
                }
                Ok(Read {
                    value: Mark {
                        symbol: *symbol,
                        pos: tok.pos,
                    },
                    end: at + 1,
                })
            }
            Kind::Name(_) => Err(Stop::Wrong(at)),
            Kind::Num(..) => Err(Stop::Wrong(at)),
            Kind::Key(_) => Err(Stop::Wrong(at)),
        }
    }
}
