//! Declarations in functions.

ghost use Rattle.std.specs.Prelude.{◌≡◌, ℕ, ◌+◌, ◌^◌, ◌<◌, ◌≤◌, length, option_map, false, [], ◌∷◌, IsTrue, IfOk, IfErr, IfSome, IfNone};
ghost use Rattle.xc_tree.specs.Symbol as symbol;
ghost use Rattle.xc_tree.specs.Symbol.{a_name, a_word, an_array};
ghost use Rattle.xc_tree.specs.Grammar as grammar;
ghost use Rattle.xc_tree.specs.Trees as trees;
ghost use Rattle.xc_nonterminals.specs.Follows.{OneOf};
ghost use Rattle.xc_nonterminals.specs.Follows as follows;
ghost use Rattle.xc_nonterminals.specs.Reading.{Reads, Unfit};
ghost use Rattle.xc_nonterminals.specs.Stops.{Stopped};
ghost use Rattle.xc_nonterminals.specs.Parts.{Adds, Declares, Names, NoName, resource_kind};
ghost use Rattle.xc_tree.specs.Terminals as terminal;

use crate::expected::Numeral;
use crate::parser::{Parser, Read};
use crate::stop::Stop;
use crate::tokens::{begins_type, is_symbol, is_word};
use xc_tree::symbols::{BRACKET, COMMA, END_BRACKET, EQUALS, SEMICOLON};
use xc_tree::words::{CHAN_WORD, TIMER_WORD};
use xc_tree::{DeclKind, Declared, Id, Rhs, St, Stmt};
use xw_words::List;

impl<'a> Parser<'a> {
    /// A declaration.
    pub fn declaration(&self, at: usize, room: u32) -> Result<Read<Stmt>, Stop>
        requires short { length self.now.toks.now < 2 ^ 32 }
        requires at { at ≤ length self.now.toks.now }
        ensures bounds { IfOk result (λ r. (at < r.end) × (r.end ≤ length self.now.toks.now)) }
        ensures read { IfOk result
            (λ r. Reads self.now.toks.now room symbol.decl at r.end (trees.statement_of r.value)) }
        ensures stopped { IfErr result (λ e. Stopped self.now.toks.now room symbol.decl at e) }
    {
        if !self.begins_declaration(at) {
            return Err(Stop::Wrong(at));
        }
        if room == 0 {
            return Err(Stop::Deep(at));
        }
        if begins_type(self.toks, at) {
            return self.word_declaration(at, room);
        }
        self.resource_declaration(at)
    }

    /// Whether a token that a declaration can begin with stands at a place.
    pub fn begins_declaration(&self, at: usize) -> bool
        ensures within { IsTrue result → at < length self.now.toks.now }
        ensures yes { IsTrue result → OneOf self.now.toks.now at follows.begins_declaration }
        ensures no { (result ≡ false) → OneOf self.now.toks.now at follows.begins_declaration → ⊥ }
    {
        begins_type(self.toks, at)
            || is_word(self.toks, at, CHAN_WORD)
            || is_word(self.toks, at, TIMER_WORD)
    }

    /// A declaration of channels or timers.
    fn resource_declaration(&self, at: usize) -> Result<Read<Stmt>, Stop>
        requires short { length self.now.toks.now < 2 ^ 32 }
        requires begins { OneOf self.now.toks.now at (terminal.chan_word ∷ terminal.timer_word ∷ []) }
        ensures bounds { IfOk result (λ r. (at < r.end) × (r.end ≤ length self.now.toks.now)) }
        ensures read { IfOk result (λ r. (room : ℕ) → 1 ≤ room →
            Reads self.now.toks.now room symbol.decl at r.end (trees.statement_of r.value)) }
        ensures stopped { IfErr result
            (λ e. (room : ℕ) → 1 ≤ room → Stopped self.now.toks.now room symbol.decl at e) }
    {
        let is_chan = is_word(self.toks, at, CHAN_WORD);
        let mut declared = List::new(self.alloc);
        let mut end = self.next_resource(&mut declared, at + 1, is_chan)?;
        'names: while is_symbol(self.toks, end, COMMA) {
            end = self.next_resource(&mut declared, end + 1, is_chan)?;
        }
        let semicolon = self.symbol(end, SEMICOLON)?;
        self.whole(at, semicolon.end, 0, St::Decl(declared))
    }

    /// Reads the name of a channel, or else of a timer, to the end of a list, and gives the place behind it.
    fn next_resource(
        &self,
        declared: &mut List<Declared>,
        at: usize,
        is_chan: bool,
    ) -> Result<usize, Stop>
        ensures bounds { IfOk result (λ end. (end ≡ at + 1) × (end ≤ length self.now.toks.now)) }
        ensures read { IfOk result (λ end. Adds declared.old declared.new
            (Names self.now.toks.now at end (resource_kind is_chan))) }
        ensures stopped { IfErr result
            (λ e. (room : ℕ) → Stopped self.now.toks.now room a_name at e) }
    {
        let name = self.id(at)?;
        declared.push(resource(is_chan, name.value))?;
        Ok(name.end)
    }

    /// A declaration of variables and arrays.
    fn word_declaration(&self, at: usize, room: u32) -> Result<Read<Stmt>, Stop>
        requires short { length self.now.toks.now < 2 ^ 32 }
        requires room { 1 ≤ room }
        requires begins { OneOf self.now.toks.now at (terminal.int_word ∷ terminal.unsigned_word ∷ []) }
        ensures bounds { IfOk result (λ r. (at < r.end) × (r.end ≤ length self.now.toks.now)) }
        ensures read { IfOk result
            (λ r. Reads self.now.toks.now room symbol.decl at r.end (trees.statement_of r.value)) }
        ensures stopped { IfErr result (λ e. Stopped self.now.toks.now room symbol.decl at e) }
    {
        let word = self.word_type(at)?;
        let mut declared = List::new(self.alloc);
        let mut end = self.next_declared(&mut declared, word.end, word.value, room - 1)?;
        'declared: while is_symbol(self.toks, end, COMMA) {
            end = self.next_declared(&mut declared, end + 1, word.value, room - 1)?;
        }
        let semicolon = self.symbol(end, SEMICOLON)?;
        self.whole(at, semicolon.end, 0, St::Decl(declared))
    }

    /// Reads a variable or an array to the end of a list, and gives the place behind it. An initial value that there is
    /// no room for is too deep where the declaration could go on behind it.
    fn next_declared(
        &self,
        declared: &mut List<Declared>,
        at: usize,
        is_unsigned: bool,
        room: u32,
    ) -> Result<usize, Stop>
        requires at { at ≤ length self.now.toks.now }
        ensures bounds { IfOk result (λ end. (at < end) × (end ≤ length self.now.toks.now)) }
        ensures read { IfOk result (λ end. Adds declared.old declared.new
            (Declares self.now.toks.now room at end is_unsigned)) }
        ensures stopped { IfErr result (λ e. NoName self.now.toks.now room at e) }
    {
        let Read { value, end } = self.variable_or_array(at, is_unsigned, room)?;
        let Some(next) = value else {
            if is_symbol(self.toks, end, COMMA) || is_symbol(self.toks, end, SEMICOLON) {
                return Err(Stop::Deep(end));
            }
            return Err(Stop::Wrong(end));
        };
        declared.push(next)?;
        Ok(end)
    }

    /// A name of a declaration, with its initial value or its length; `None` as for `rhs`.
    fn variable_or_array(
        &self,
        at: usize,
        is_unsigned: bool,
        room: u32,
    ) -> Result<Read<Option<Declared>>, Stop>
        requires at { at ≤ length self.now.toks.now }
        ensures bounds { IfOk result (λ r. (at < r.end) × (r.end ≤ length self.now.toks.now)) }
        ensures read { IfOk result
            (λ r. IfSome r.value (Declares self.now.toks.now room at r.end is_unsigned)) }
        ensures unfit { IfOk result
            (λ r. IfNone r.value (Unfit self.now.toks.now room symbol.dv at r.end)) }
        ensures stopped { IfErr result (λ e. Stopped self.now.toks.now room symbol.dv at e) }
    {
        let name = self.id(at)?;
        if is_symbol(self.toks, name.end, BRACKET) {
            let length = self.numeral(name.end + 1)?;
            let close = self.symbol(length.end, END_BRACKET)?;
            return Ok(Read {
                value: Some(array(is_unsigned, name.value, length.value)),
                end: close.end,
            });
        }
        if !is_symbol(self.toks, name.end, EQUALS) {
            return Ok(Read {
                value: Some(variable(is_unsigned, name.value, None)),
                end: name.end,
            });
        }
        let Read { value, end } = self.initial(name.end, room)?;
        let Some(right) = value else {
            return Ok(Read { value: None, end });
        };
        Ok(Read {
            value: Some(variable(is_unsigned, name.value, Some(right))),
            end,
        })
    }
}

/// A variable, with its initial value.
pub fn variable(is_unsigned: bool, name: Id, initial: Option<Rhs>) -> Declared
    ensures { trees.declaration_of result
        ≡ grammar.declared is_unsigned (a_word name (option_map trees.right_of initial)) }
{
    Declared {
        kind: DeclKind::Word(is_unsigned, initial),
        name,
    }
}

/// An array of so many words.
fn array(is_unsigned: bool, name: Id, length: Numeral) -> Declared
    ensures { trees.declaration_of result
        ≡ grammar.declared is_unsigned (an_array name length.value length.pos) }
{
    Declared {
        kind: DeclKind::Array(is_unsigned, length.value, length.pos),
        name,
    }
}

/// A channel, or else a timer.
fn resource(is_chan: bool, name: Id) -> Declared
    ensures named { result.name ≡ name }
    ensures made { trees.declaration_of result ≡ grammar.named (resource_kind is_chan) name }
{
    if is_chan {
        return Declared {
            kind: DeclKind::Chan(false),
            name,
        };
    }
    Declared {
        kind: DeclKind::Timer,
        name,
    }
}
