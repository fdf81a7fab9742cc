//! Selects and their cases.

ghost use Rattle.std.specs.Prelude.{◌≡◌, ℕ, ◌+◌, ◌^◌, ◌<◌, ◌≤◌, List, length, map, [], ◌∷◌, Some, None, option_map, IfOk, IfErr, IsTrue, false};
ghost use Rattle.xw_words.specs.declared.pos.Pos.{Pos};
ghost use Rattle.xc_tree.specs.Plain as plain;
ghost use Rattle.xc_tree.specs.Symbol as symbol;
ghost use Rattle.xc_tree.specs.Symbol.{a_name};
ghost use Rattle.xc_tree.specs.Trees as trees;
ghost use Rattle.xc_nonterminals.specs.Follows.{OneOf, StandsAt};
ghost use Rattle.xc_nonterminals.specs.Reading.{Reads};
ghost use Rattle.xc_nonterminals.specs.RowReading.{ReadsRow, StoppedRow};
ghost use Rattle.xc_nonterminals.specs.CaseParts.{transfers, awaited, event_row, body_row};
ghost use Rattle.xc_nonterminals.specs.Stops.{Stopped};
ghost use Rattle.xc_tree.specs.Terminals as terminal;

use crate::pars::Holder;
use crate::parser::{Parser, Read};
use crate::stop::Stop;
use crate::tokens::{goes_on, is_name, is_symbol, is_word};
use xc_tree::symbols::{ARROW, AT_SIGN, BRACE, COLON, END_BRACE, RECEIVES, SEMICOLON};
use xc_tree::words::{BREAK_WORD, CASE_WORD, DEFAULT_WORD, WHEN_WORD};
use xc_tree::{Case, Expr, Head, St, Stmt};
use xw_words::List;
use xw_words::allocation::with_ok;

/// What a case waits for.
#[derive(Drop)]
pub struct Event {
    guard: Option<Expr>,
    input: Head,
}

impl<'a> Parser<'a> {
    /// A `select`, with room for so many nodes inside it.
    #[cycle(statement)]
    pub fn select(&self, at: usize, room: u32) -> Result<Read<Stmt>, Stop>
        requires short { length self.now.toks.now < 2 ^ 32 }
        requires word { StandsAt self.now.toks.now at terminal.select_word }
        ensures bounds { IfOk result (λ r. (at < r.end) × (r.end ≤ length self.now.toks.now)) }
        ensures read { IfOk result (λ r. Reads self.now.toks.now
            (room + 1) symbol.statement at r.end (trees.statement_of r.value)) }
        ensures stopped { IfErr result
            (λ e. Stopped self.now.toks.now (room + 1) symbol.statement at e) }
    {
        let open = self.symbol(at + 1, BRACE)?;
        let first = self.case(open.end, room)?;
        let mut cases = List::new(self.alloc);
        cases.push(first.value)?;
        let mut held = first.held;
        let mut end = first.end;
        'cases: while !is_symbol(self.toks, end, END_BRACE) {
            let next = self.case(end, room)?;
            cases.push(next.value)?;
            held += next.held;
            end = next.end;
        }
        self.whole(at, end + 1, held, St::Select(cases))
    }

    /// A case.
    #[cycle(statement)]
    fn case(&self, at: usize, room: u32) -> Result<Holder<Case>, Stop>
        requires short { length self.now.toks.now < 2 ^ 32 }
        requires at { at ≤ length self.now.toks.now }
        ensures bounds { IfOk result (λ r. (at < r.end) × (r.end ≤ length self.now.toks.now)) }
        ensures holds { IfOk result
            (λ r. (r.held ≡ plain.case_tokens (trees.case_of r.value)) × (at + r.held ≤ r.end)) }
        ensures read { IfOk result
            (λ r. Reads self.now.toks.now room symbol.case at r.end (trees.case_of r.value)) }
        ensures stopped { IfErr result (λ e. Stopped self.now.toks.now room symbol.case at e) }
    {
        if is_word(self.toks, at, DEFAULT_WORD) {
            return self.default_case(at, room);
        }
        let word = self.word(at, CASE_WORD)?;
        let event = self.event(word.end, room)?;
        let (event, body) = with_ok(event.value, self.case_body(event.end, room))?;
        let Event { guard, input } = event;
        Ok(Holder {
            value: Case {
                pos: word.value,
                guard,
                head: Some(input),
                body: body.value,
            },
            held: body.held,
            end: body.end,
        })
    }

    /// A case that waits for nothing, from its `default` on.
    #[cycle(statement)]
    fn default_case(&self, at: usize, room: u32) -> Result<Holder<Case>, Stop>
        requires short { length self.now.toks.now < 2 ^ 32 }
        requires word { StandsAt self.now.toks.now at terminal.default_word }
        ensures bounds { IfOk result (λ r. (at < r.end) × (r.end ≤ length self.now.toks.now)) }
        ensures holds { IfOk result
            (λ r. (r.held ≡ plain.case_tokens (trees.case_of r.value)) × (at + r.held ≤ r.end)) }
        ensures read { IfOk result
            (λ r. Reads self.now.toks.now room symbol.case at r.end (trees.case_of r.value)) }
        ensures stopped { IfErr result (λ e. Stopped self.now.toks.now room symbol.case at e) }
    {
        let word = self.word(at, DEFAULT_WORD)?;
        let colon = self.symbol(word.end, COLON)?;
        let body = self.case_body(colon.end, room)?;
        Ok(Holder {
            value: Case {
                pos: word.value,
                guard: None,
                head: None,
                body: body.value,
            },
            held: body.held,
            end: body.end,
        })
    }

    /// The statements of a case, with the `break ;` that ends them.
    #[cycle(statement)]
    fn case_body(&self, at: usize, room: u32) -> Result<Holder<List<Stmt>>, Stop>
        requires short { length self.now.toks.now < 2 ^ 32 }
        requires at { at ≤ length self.now.toks.now }
        ensures bounds { IfOk result (λ r. (at < r.end) × (r.end ≤ length self.now.toks.now)) }
        ensures holds { IfOk result (λ r. (r.held ≡ plain.all_tokens
            (plain.statements (map trees.statement_of r.value))) × (at + r.held ≤ r.end)) }
        ensures read { IfOk result (λ r. (p : Pos) × (q : Pos) × ReadsRow self.now.toks.now room
            body_row at r.end (map trees.statement_of r.value, (p, (q, tt)))) }
        ensures stopped { IfErr result (λ e. StoppedRow self.now.toks.now room body_row at e) }
    {
        let mut value = List::new(self.alloc);
        let mut end = at;
        'items: while !is_word(self.toks, end, BREAK_WORD) {
            let item = self.block_item(end, room)?;
            value.push(item.value)?;
            end = item.end;
        }
        let semicolon = self.symbol(end + 1, SEMICOLON)?;
        Ok(Holder {
            value,
            held: end - at,
            end: semicolon.end,
        })
    }

    /// What a case waits for, with the `:` behind it.
    fn event(&self, at: usize, room: u32) -> Result<Read<Event>, Stop>
        requires at { at ≤ length self.now.toks.now }
        ensures bounds { IfOk result (λ r. (at < r.end) × (r.end ≤ length self.now.toks.now)) }
        ensures read { IfOk result
            (λ r. (p : Pos) × ReadsRow self.now.toks.now room event_row at r.end (
              option_map
                  trees.expression_of r.value.guard,
              (trees.input_of r.value.input, (p, tt)),
            )) }
        ensures stopped { IfErr result (λ e. StoppedRow self.now.toks.now room event_row at e) }
    {
        if is_name(self.toks, at) {
            if self.is_transfer(at + 1) {
                let input = self.awaited(at, room)?;
                return Ok(Read {
                    value: Event {
                        guard: None,
                        input: input.value,
                    },
                    end: input.end,
                });
            }
            if room == 0 {
                return Err(self.no_guard(at));
            }
        }
        let guard = self.guard(at, room)?;
        let (guard, input) = with_ok(guard.value, self.awaited(guard.end, room))?;
        Ok(Read {
            value: Event {
                guard: Some(guard),
                input: input.value,
            },
            end: input.end,
        })
    }

    /// An input, with the `:` behind it.
    fn awaited(&self, at: usize, room: u32) -> Result<Read<Head>, Stop>
        requires at { at ≤ length self.now.toks.now }
        ensures bounds { IfOk result (λ r. (at < r.end) × (r.end ≤ length self.now.toks.now)) }
        ensures read { IfOk result (λ r. (p : Pos)
            × ReadsRow self.now.toks.now room awaited at r.end (trees.input_of r.value, (p, tt))) }
        ensures stopped { IfErr result (λ e. StoppedRow self.now.toks.now room awaited at e) }
    {
        let input = self.input(at, room)?;
        let closed = self.closed(input, COLON)?;
        Ok(Read {
            value: closed.value,
            end: closed.end,
        })
    }

    /// Whether a token that an input can go on with behind its name stands at a place.
    fn is_transfer(&self, at: usize) -> bool
        ensures yes { IsTrue result → OneOf self.now.toks.now at transfers }
        ensures no { (result ≡ false) → OneOf self.now.toks.now at transfers → ⊥ }
    {
        if is_symbol(self.toks, at, RECEIVES) {
            return true;
        }
        if is_symbol(self.toks, at, AT_SIGN) {
            return true;
        }
        is_word(self.toks, at, WHEN_WORD)
    }

    /// Why a name that begins no input begins no guard either, with no room for a node.
    fn no_guard(&self, at: usize) -> Stop
        requires name { (at < length self.now.toks.now) × StandsAt self.now.toks.now at a_name }
        requires no_input { OneOf self.now.toks.now (at + 1) transfers → ⊥ }
        ensures { StoppedRow self.now.toks.now 0 event_row at result }
    {
        if is_symbol(self.toks, at + 1, ARROW) {
            return Stop::Deep(at + 1);
        }
        if goes_on(self.toks, at + 1) {
            return Stop::Deep(at + 1);
        }
        Stop::Wrong(at + 1)
    }
}
