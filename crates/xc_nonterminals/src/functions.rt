//! The heads of functions, with their parameters.

ghost use Rattle.std.specs.Prelude.{◌≡◌, ℕ, [], ◌∷◌, ◌+◌, ◌^◌, ◌<◌, ◌≤◌, length, IfOk, IfErr, IsTrue, false};
ghost use Rattle.xc_tree.specs.Symbol as symbol;
ghost use Rattle.xc_nonterminals.specs.Follows.{OneOf, first};
ghost use Rattle.xc_nonterminals.specs.Reading.{Reads};
ghost use Rattle.xc_nonterminals.specs.Stops.{Stopped};
ghost use Rattle.xc_nonterminals.specs.Values.{head_of};

use crate::parser::{Parser, Read};
use crate::stop::Stop;
use crate::tokens::{begins_type, is_symbol, is_word};
use xc_tree::symbols::{AMPERSAND, BRACKET, COMMA, END_BRACKET, END_PAREN, PAREN};
use xc_tree::words::{
    CHANEND_WORD, IN_WORD, INT_WORD, OUT_WORD, PORT_WORD, UNSIGNED_WORD, VOID_WORD,
};
use xc_tree::{Id, Param, ParamKind, TreeDir};
use xw_words::List;

/// What stands before the block of a function, and how many tokens that is.
#[derive(Drop)]
pub struct FunctionHead {
    pub result: Option<bool>,
    pub name: Id,
    pub params: List<Param>,
    pub own: u32,
}

impl<'a> Parser<'a> {
    /// The head of a function.
    pub fn head(&self, at: usize) -> Result<Read<FunctionHead>, Stop>
        requires short { length self.now.toks.now < 2 ^ 32 }
        requires at { at ≤ length self.now.toks.now }
        ensures bounds { IfOk result (λ r. (at < r.end) × (r.end ≤ length self.now.toks.now)) }
        ensures read { IfOk result (λ r. (room : ℕ) →
            Reads self.now.toks.now room symbol.head at r.end (head_of r.value)) }
        ensures stopped { IfErr result
            (λ e. (room : ℕ) → Stopped self.now.toks.now room symbol.head at e) }
    {
        let result = self.result_type(at)?;
        let name = self.id(result.end)?;
        let open = self.closed(name, PAREN)?;
        let params = self.params(open.end)?;
        let close = self.closed(params, END_PAREN)?;
        Ok(Read {
            value: FunctionHead {
                result: result.value,
                name: open.value,
                params: close.value,
                own: (close.end - at) as u32,
            },
            end: close.end,
        })
    }

    /// The result of a function: `None` for `void`, else whether it is `unsigned`.
    pub fn result_type(&self, at: usize) -> Result<Read<Option<bool>>, Stop>
        requires at { at ≤ length self.now.toks.now }
        ensures bounds { IfOk result (λ r. (at < r.end) × (r.end ≤ length self.now.toks.now)) }
        ensures read { IfOk result
            (λ r. (room : ℕ) → Reads self.now.toks.now room symbol.result at r.end r.value) }
        ensures stopped { IfErr result
            (λ e. (room : ℕ) → Stopped self.now.toks.now room symbol.result at e) }
    {
        if is_word(self.toks, at, VOID_WORD) {
            return Ok(Read {
                value: None,
                end: at + 1,
            });
        }
        let word = self.word_type(at)?;
        Ok(Read {
            value: Some(word.value),
            end: word.end,
        })
    }

    /// `int`, `unsigned` or `unsigned int`: whether it is `unsigned`.
    pub fn word_type(&self, at: usize) -> Result<Read<bool>, Stop>
        requires at { at ≤ length self.now.toks.now }
        ensures bounds { IfOk result (λ r. (at < r.end) × (r.end ≤ length self.now.toks.now)) }
        ensures read { IfOk result
            (λ r. (room : ℕ) → Reads self.now.toks.now room symbol.word at r.end r.value) }
        ensures stopped { IfErr result
            (λ e. (room : ℕ) → Stopped self.now.toks.now room symbol.word at e) }
    {
        if !is_word(self.toks, at, UNSIGNED_WORD) {
            let int = self.word(at, INT_WORD)?;
            return Ok(Read {
                value: false,
                end: int.end,
            });
        }
        if is_word(self.toks, at + 1, INT_WORD) {
            return Ok(Read {
                value: true,
                end: at + 2,
            });
        }
        Ok(Read {
            value: true,
            end: at + 1,
        })
    }

    /// The parameters of a function, which may be none.
    pub fn params(&self, at: usize) -> Result<Read<List<Param>>, Stop>
        requires at { at ≤ length self.now.toks.now }
        ensures bounds { IfOk result (λ r. (at ≤ r.end) × (r.end ≤ length self.now.toks.now)) }
        ensures read { IfOk result
            (λ r. (room : ℕ) → Reads self.now.toks.now room symbol.params at r.end r.value) }
        ensures stopped { IfErr result
            (λ e. (room : ℕ) → Stopped self.now.toks.now room symbol.params at e) }
    {
        let mut value = List::new(self.alloc);
        if is_word(self.toks, at, VOID_WORD) {
            return Ok(Read { value, end: at + 1 });
        }
        if !self.begins_param(at) {
            return Ok(Read { value, end: at });
        }
        let first = self.param(at)?;
        value.push(first.value)?;
        let mut end = first.end;
        'params: while is_symbol(self.toks, end, COMMA) {
            let next = self.param(end + 1)?;
            value.push(next.value)?;
            end = next.end;
        }
        Ok(Read { value, end })
    }

    /// Whether a token that a parameter can begin with stands at a place.
    fn begins_param(&self, at: usize) -> bool
        ensures yes { IsTrue result → OneOf self.now.toks.now at (first symbol.param) }
        ensures no { (result ≡ false) → OneOf self.now.toks.now at (first symbol.param) → ⊥ }
    {
        if begins_type(self.toks, at) {
            return true;
        }
        if is_word(self.toks, at, CHANEND_WORD) {
            return true;
        }
        if is_word(self.toks, at, IN_WORD) {
            return true;
        }
        if is_word(self.toks, at, OUT_WORD) {
            return true;
        }
        is_word(self.toks, at, PORT_WORD)
    }

    /// A parameter.
    pub fn param(&self, at: usize) -> Result<Read<Param>, Stop>
        requires at { at ≤ length self.now.toks.now }
        ensures bounds { IfOk result (λ r. (at < r.end) × (r.end ≤ length self.now.toks.now)) }
        ensures read { IfOk result
            (λ r. (room : ℕ) → Reads self.now.toks.now room symbol.param at r.end r.value) }
        ensures stopped { IfErr result
            (λ e. (room : ℕ) → Stopped self.now.toks.now room symbol.param at e) }
    {
        if begins_type(self.toks, at) {
            return self.word_param(at);
        }
        if is_word(self.toks, at, CHANEND_WORD) {
            let name = self.id(at + 1)?;
            return Ok(param_of(ParamKind::End(false), name));
        }
        let dir = self.dir(at)?;
        let name = self.id(dir.end)?;
        Ok(param_of(ParamKind::Port(dir.value), name))
    }

    /// A parameter that is a word, by value or by reference, or an array of words.
    fn word_param(&self, at: usize) -> Result<Read<Param>, Stop>
        requires at { at ≤ length self.now.toks.now }
        requires word { OneOf self.now.toks.now at (symbol.key 11 ∷ symbol.key 26 ∷ []) }
        ensures bounds { IfOk result (λ r. (at < r.end) × (r.end ≤ length self.now.toks.now)) }
        ensures read { IfOk result
            (λ r. (room : ℕ) → Reads self.now.toks.now room symbol.param at r.end r.value) }
        ensures stopped { IfErr result
            (λ e. (room : ℕ) → Stopped self.now.toks.now room symbol.param at e) }
    {
        let word = self.word_type(at)?;
        if is_symbol(self.toks, word.end, AMPERSAND) {
            let name = self.id(word.end + 1)?;
            return Ok(param_of(ParamKind::Ref(word.value), name));
        }
        let name = self.id(word.end)?;
        if !is_symbol(self.toks, name.end, BRACKET) {
            return Ok(param_of(ParamKind::Value(word.value), name));
        }
        let inside = name.end + 1;
        if is_symbol(self.toks, inside, END_BRACKET) {
            let kind = ParamKind::Array(word.value, None);
            return Ok(Read {
                value: Param {
                    kind,
                    name: name.value,
                },
                end: inside + 1,
            });
        }
        let length = self.numeral(inside)?;
        let close = self.symbol(length.end, END_BRACKET)?;
        let kind = ParamKind::Array(word.value, Some((length.value.value, length.value.pos)));
        Ok(Read {
            value: Param {
                kind,
                name: name.value,
            },
            end: close.end,
        })
    }

    /// The direction of a port.
    pub fn dir(&self, at: usize) -> Result<Read<TreeDir>, Stop>
        requires at { at ≤ length self.now.toks.now }
        ensures bounds { IfOk result (λ r. (at < r.end) × (r.end ≤ length self.now.toks.now)) }
        ensures read { IfOk result
            (λ r. (room : ℕ) → Reads self.now.toks.now room symbol.dir at r.end r.value) }
        ensures stopped { IfErr result
            (λ e. (room : ℕ) → Stopped self.now.toks.now room symbol.dir at e) }
    {
        if is_word(self.toks, at, IN_WORD) {
            let port = self.word(at + 1, PORT_WORD)?;
            return Ok(Read {
                value: TreeDir::In,
                end: port.end,
            });
        }
        if is_word(self.toks, at, OUT_WORD) {
            let port = self.word(at + 1, PORT_WORD)?;
            return Ok(Read {
                value: TreeDir::Out,
                end: port.end,
            });
        }
        let port = self.word(at, PORT_WORD)?;
        Ok(Read {
            value: TreeDir::Both,
            end: port.end,
        })
    }
}

/// A parameter that ends with its name.
fn param_of(kind: ParamKind, name: Read<Id>) -> Read<Param>
    ensures { result
        ≡ record { value = record { kind = kind; name = name.value }; end = name.end } }
{
    Read {
        value: Param {
            kind,
            name: name.value,
        },
        end: name.end,
    }
}
