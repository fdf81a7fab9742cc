//! Single tokens that must stand at a place.

ghost use Rattle.std.specs.Prelude.{◌≡◌, ℕ, ◌+◌, ◌≤◌, length, IfOk, IfErr};
ghost use Rattle.xw_words.specs.declared.pos.Pos as pos;
ghost use Rattle.xc_tree.specs.Symbol.{sym, key, a_name, a_number};
ghost use Rattle.xc_nonterminals.specs.Reading.{Reads};
ghost use Rattle.xc_nonterminals.specs.Stops.{Stopped};
ghost use Rattle.xc_nonterminals.specs.Values.{numeral_of};

use crate::parser::{Parser, Read};
use crate::stop::Stop;
use crate::tokens::{is_symbol, is_word};
use xc_tree::{Id, Kind};
use xw_words::Pos;

/// A number, whether it is `unsigned`, and where it stands.
#[derive(Clone, Copy)]
pub struct Numeral {
    pub value: u32,
    pub is_unsigned: bool,
    pub pos: Pos,
}

impl<'a> Parser<'a> {
    /// A symbol, by its place in `SYMBOLS`.
    pub fn symbol(&self, at: usize, wanted: u8) -> Result<Read<Pos>, Stop>
        ensures bounds { IfOk result (λ r. (r.end ≡ at + 1) × (r.end ≤ length self.now.toks.now)) }
        ensures read { IfOk result
            (λ r. (room : ℕ) → Reads self.now.toks.now room (sym wanted) at r.end r.value) }
        ensures stopped { IfErr result
            (λ e. (room : ℕ) → Stopped self.now.toks.now room (sym wanted) at e) }
    {
        if !is_symbol(self.toks, at, wanted) {
            return Err(Stop::Wrong(at));
        }
        Ok(Read {
            value: self.toks[at].pos,
            end: at + 1,
        })
    }

    /// What was read, with the symbol behind it, by its place in `SYMBOLS`.
    pub fn closed<T: Drop>(&self, read: Read<T>, wanted: u8) -> Result<Read<T>, Stop>
        ensures value { IfOk result (λ r. r.value ≡ read.value) }
        ensures bounds { IfOk result
            (λ r. (r.end ≡ read.end + 1) × (r.end ≤ length self.now.toks.now)) }
        ensures read { IfOk result (λ r. (p : pos.Pos)
            × ((room : ℕ) → Reads self.now.toks.now room (sym wanted) read.end r.end p)) }
        ensures stopped { IfErr result
            (λ e. (room : ℕ) → Stopped self.now.toks.now room (sym wanted) read.end e) }
    {
        let behind = self.symbol(read.end, wanted)?;
        Ok(Read {
            value: read.value,
            end: behind.end,
        })
    }

    /// A word, by its place in `WORDS`.
    pub fn word(&self, at: usize, wanted: u8) -> Result<Read<Pos>, Stop>
        ensures bounds { IfOk result (λ r. (r.end ≡ at + 1) × (r.end ≤ length self.now.toks.now)) }
        ensures read { IfOk result
            (λ r. (room : ℕ) → Reads self.now.toks.now room (key wanted) at r.end r.value) }
        ensures stopped { IfErr result
            (λ e. (room : ℕ) → Stopped self.now.toks.now room (key wanted) at e) }
    {
        if !is_word(self.toks, at, wanted) {
            return Err(Stop::Wrong(at));
        }
        Ok(Read {
            value: self.toks[at].pos,
            end: at + 1,
        })
    }

    /// A name.
    pub fn id(&self, at: usize) -> Result<Read<Id>, Stop>
        ensures bounds { IfOk result (λ r. (r.end ≡ at + 1) × (r.end ≤ length self.now.toks.now)) }
        ensures read { IfOk result
            (λ r. (room : ℕ) → Reads self.now.toks.now room a_name at r.end r.value) }
        ensures stopped { IfErr result
            (λ e. (room : ℕ) → Stopped self.now.toks.now room a_name at e) }
    {
        if at >= self.toks.len() {
            return Err(Stop::Wrong(at));
        }
        let tok = &self.toks[at];
        match &tok.kind {
            Kind::Name(text) => Ok(Read {
                value: Id {
                    text: text.copy(self.alloc)?,
                    pos: tok.pos,
                },
                end: at + 1,
            }),
            Kind::Num(..) => Err(Stop::Wrong(at)),
            Kind::Key(_) => Err(Stop::Wrong(at)),
            Kind::Sym(_) => Err(Stop::Wrong(at)),
        }
    }

    /// A number.
    pub fn numeral(&self, at: usize) -> Result<Read<Numeral>, Stop>
        ensures bounds { IfOk result (λ r. (r.end ≡ at + 1) × (r.end ≤ length self.now.toks.now)) }
        ensures read { IfOk result (λ r. (room : ℕ) →
            Reads self.now.toks.now room a_number at r.end (numeral_of r.value)) }
        ensures stopped { IfErr result
            (λ e. (room : ℕ) → Stopped self.now.toks.now room a_number at e) }
    {
        if at >= self.toks.len() {
            return Err(Stop::Wrong(at));
        }
        let tok = &self.toks[at];
        match &tok.kind {
            Kind::Num(value, is_unsigned) => Ok(Read {
                value: Numeral {
                    value: *value,
                    is_unsigned: *is_unsigned,
                    pos: tok.pos,
                },
                end: at + 1,
            }),
            Kind::Name(_) => Err(Stop::Wrong(at)),
            Kind::Key(_) => Err(Stop::Wrong(at)),
            Kind::Sym(_) => Err(Stop::Wrong(at)),
        }
    }
}
