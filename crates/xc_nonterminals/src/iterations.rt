//! Loops.

ghost use Rattle.std.specs.Prelude.{◌≡◌, ◌+◌, ◌^◌, ◌<◌, ◌≤◌, length, option_map, IfOk, IfErr};
ghost use Rattle.xw_words.specs.declared.pos.Pos.{Pos};
ghost use Rattle.xc_tree.specs.Symbol as symbol;
ghost use Rattle.xc_tree.specs.Symbol.{maybe};
ghost use Rattle.xc_tree.specs.Trees as trees;
ghost use Rattle.xc_nonterminals.specs.Follows.{StandsAt};
ghost use Rattle.xc_nonterminals.specs.Reading.{Reads};
ghost use Rattle.xc_nonterminals.specs.RowReading.{ReadsRow, StoppedRow};
ghost use Rattle.xc_nonterminals.specs.Rounds.{StopsMaybe, StopsStart, ReadsStart, ReadsParts, NoType};
ghost use Rattle.xc_nonterminals.specs.Stops.{Stopped};
ghost use Rattle.xc_nonterminals.specs.Tails.{do_row};
ghost use Rattle.xc_tree.specs.Terminals as terminal;

use crate::declarations::variable;
use crate::parser::{Parser, Read};
use crate::stop::Stop;
use crate::tokens::{begins_type, is_name, is_symbol};
use xc_tree::symbols::{END_PAREN, EQUALS, PAREN, SEMICOLON};
use xc_tree::words::WHILE_WORD;
use xc_tree::{Expr, St, Stmt};
use xw_words::List;
use xw_words::allocation::with_ok;

/// The three parts between the brackets of a `for`.
#[derive(Drop)]
struct Parts {
    start: Option<Stmt>,
    test: Option<Expr>,
    step: Option<Stmt>,
    /// How many tokens the start and the step have.
    held: usize,
}

impl<'a> Parser<'a> {
    /// A `while`, with room for so many nodes inside it.
    #[cycle(statement)]
    pub fn while_loop(&self, at: usize, room: u32) -> Result<Read<Stmt>, Stop>
        requires short { length self.now.toks.now < 2 ^ 32 }
        requires word { StandsAt self.now.toks.now at terminal.while_word }
        ensures bounds { IfOk result (λ r. (at < r.end) × (r.end ≤ length self.now.toks.now)) }
        ensures read { IfOk result (λ r. Reads self.now.toks.now
            (room + 1) symbol.statement at r.end (trees.statement_of r.value)) }
        ensures stopped { IfErr result
            (λ e. Stopped self.now.toks.now (room + 1) symbol.statement at e) }
    {
        let open = self.symbol(at + 1, PAREN)?;
        let test = self.expr(open.end, room)?;
        let close = self.closed(test, END_PAREN)?;
        let (test, body) = with_ok(close.value, self.statement(close.end, room))?;
        let held = body.end - close.end;
        self.whole(at, body.end, held, St::While(test, body.value))
    }

    /// A `do`, with room for so many nodes inside it.
    #[cycle(statement)]
    pub fn do_loop(&self, at: usize, room: u32) -> Result<Read<Stmt>, Stop>
        requires short { length self.now.toks.now < 2 ^ 32 }
        requires word { StandsAt self.now.toks.now at terminal.do_word }
        ensures bounds { IfOk result (λ r. (at < r.end) × (r.end ≤ length self.now.toks.now)) }
        ensures read { IfOk result (λ r. Reads self.now.toks.now
            (room + 1) symbol.statement at r.end (trees.statement_of r.value)) }
        ensures stopped { IfErr result
            (λ e. Stopped self.now.toks.now (room + 1) symbol.statement at e) }
    {
        let body = self.statement(at + 1, room)?;
        let held = body.end - at - 1;
        let test = self.do_tail(body.end, room)?;
        self.whole(at, test.end, held, St::DoWhile(body.value, test.value))
    }

    /// What ends a `do`: its `while`, the test between brackets, and the `;`.
    fn do_tail(&self, at: usize, room: u32) -> Result<Read<Expr>, Stop>
        ensures bounds { IfOk result (λ r. (at < r.end) × (r.end ≤ length self.now.toks.now)) }
        ensures read { IfOk result (λ r. (p : Pos) × (q : Pos) × (s : Pos)
            × (t : Pos) × ReadsRow self.now.toks.now room do_row at r.end
            (p, (q, (trees.expression_of r.value, (s, (t, tt)))))) }
        ensures stopped { IfErr result (λ e. StoppedRow self.now.toks.now room do_row at e) }
    {
        let word = self.word(at, WHILE_WORD)?;
        let open = self.symbol(word.end, PAREN)?;
        let test = self.expr(open.end, room)?;
        let close = self.closed(test, END_PAREN)?;
        let closed = self.closed(close, SEMICOLON)?;
        Ok(Read {
            value: closed.value,
            end: closed.end,
        })
    }

    /// A `for`, with room for so many nodes inside it.
    #[cycle(statement)]
    pub fn for_loop(&self, at: usize, room: u32) -> Result<Read<Stmt>, Stop>
        requires short { length self.now.toks.now < 2 ^ 32 }
        requires word { StandsAt self.now.toks.now at terminal.for_word }
        ensures bounds { IfOk result (λ r. (at < r.end) × (r.end ≤ length self.now.toks.now)) }
        ensures read { IfOk result (λ r. Reads self.now.toks.now
            (room + 1) symbol.statement at r.end (trees.statement_of r.value)) }
        ensures stopped { IfErr result
            (λ e. Stopped self.now.toks.now (room + 1) symbol.statement at e) }
    {
        let read = self.for_parts(at, room)?;
        let held = read.value.held;
        let (parts, body) = with_ok(read.value, self.statement(read.end, room))?;
        let all = held + (body.end - read.end);
        let kind = St::For(parts.start, parts.test, parts.step, body.value);
        self.whole(at, body.end, all, kind)
    }

    /// What stands between the word of a `for` and its body, from the word on.
    fn for_parts(&self, at: usize, room: u32) -> Result<Read<Parts>, Stop>
        requires short { length self.now.toks.now < 2 ^ 32 }
        requires word { StandsAt self.now.toks.now at terminal.for_word }
        ensures bounds { IfOk result (λ r. (at < r.end) × (r.end ≤ length self.now.toks.now)) }
        ensures held { IfOk result (λ r. at + r.value.held ≤ r.end) }
        ensures read { IfOk result (λ r. ReadsParts self.now.toks.now room at r.end r.value) }
        ensures stopped { IfErr result
            (λ e. Stopped self.now.toks.now (room + 1) symbol.statement at e) }
    {
        let open = self.symbol(at + 1, PAREN)?;
        let start = self.maybe_start(open.end, room)?;
        let first = self.closed(start, SEMICOLON)?;
        let test = self.maybe_expr(first.end, room)?;
        let second = self.closed(test, SEMICOLON)?;
        let step = self.maybe_step(second.end, room)?;
        let close = self.closed(step, END_PAREN)?;
        let held = (first.end - open.end - 1) + (close.end - second.end - 1);
        Ok(Read {
            value: Parts {
                start: first.value,
                test: second.value,
                step: close.value,
                held,
            },
            end: close.end,
        })
    }

    /// The start of a `for`, or none. One that there is no room for is too deep where a `;` stands behind it.
    fn maybe_start(&self, at: usize, room: u32) -> Result<Read<Option<Stmt>>, Stop>
        requires short { length self.now.toks.now < 2 ^ 32 }
        requires at { at ≤ length self.now.toks.now }
        ensures bounds { IfOk result (λ r. (at ≤ r.end) × (r.end ≤ length self.now.toks.now)) }
        ensures read { IfOk result (λ r. Reads self.now.toks.now room
            (maybe symbol.for_start) at r.end (option_map trees.statement_of r.value)) }
        ensures stopped { IfErr result (λ e. StopsStart self.now.toks.now room at e) }
    {
        if is_symbol(self.toks, at, SEMICOLON) {
            return Ok(Read {
                value: None,
                end: at,
            });
        }
        let Read { value, end } = self.for_start(at, room)?;
        let Some(start) = value else {
            if is_symbol(self.toks, end, SEMICOLON) {
                return Err(Stop::Deep(end));
            }
            return Err(Stop::Wrong(end));
        };
        Ok(Read {
            value: Some(start),
            end,
        })
    }

    /// The start of a `for`: an assignment, or a declaration with an initial value; `None` as for `rhs`.
    fn for_start(&self, at: usize, room: u32) -> Result<Read<Option<Stmt>>, Stop>
        requires short { length self.now.toks.now < 2 ^ 32 }
        requires at { at ≤ length self.now.toks.now }
        ensures bounds { IfOk result (λ r. (at < r.end) × (r.end ≤ length self.now.toks.now)) }
        ensures read { IfOk result (λ r. ReadsStart self.now.toks.now room at r.end r.value) }
        ensures stopped { IfErr result (λ e. Stopped self.now.toks.now room symbol.for_start at e) }
    {
        if !begins_type(self.toks, at) {
            let step = self.for_step(at, room)?;
            return Ok(Read {
                value: Some(step.value),
                end: step.end,
            });
        }
        if room == 0 {
            return Err(Stop::Deep(at));
        }
        let word = self.word_type(at)?;
        let name = self.id(word.end)?;
        let equals = self.symbol(name.end, EQUALS)?;
        let Read { value, end } = self.rhs(equals.end, room - 1)?;
        let Some(right) = value else {
            return Ok(Read { value: None, end });
        };
        let mut declared = List::new(self.alloc);
        declared.push(variable(word.value, name.value, Some(right)))?;
        let whole = self.whole(at, end, 0, St::Decl(declared))?;
        Ok(Read {
            value: Some(whole.value),
            end: whole.end,
        })
    }

    /// An assignment as a statement without its `;`, which the start of a `for` is too where no type stands.
    fn for_step(&self, at: usize, room: u32) -> Result<Read<Stmt>, Stop>
        requires short { length self.now.toks.now < 2 ^ 32 }
        requires at { at ≤ length self.now.toks.now }
        ensures bounds { IfOk result (λ r. (at < r.end) × (r.end ≤ length self.now.toks.now)) }
        ensures read { IfOk result (λ r. Reads self.now.toks.now room symbol.for_step at r.end
            (trees.statement_of r.value)) }
        ensures stopped { IfErr result (λ e. Stopped self.now.toks.now room symbol.for_step at e) }
        ensures start { IfOk result (λ r. NoType self.now.toks.now at →
            Reads self.now.toks.now room symbol.for_start at r.end (trees.statement_of r.value)) }
        ensures no_start { IfErr result (λ e. NoType self.now.toks.now at →
            Stopped self.now.toks.now room symbol.for_start at e) }
    {
        if room < 2 {
            if is_name(self.toks, at) {
                return Err(Stop::Deep(at));
            }
            return Err(Stop::Wrong(at));
        }
        let assign = self.assign(at, room - 1)?;
        self.whole(at, assign.end, 0, assign.value)
    }

    /// The step of a `for`, or none.
    fn maybe_step(&self, at: usize, room: u32) -> Result<Read<Option<Stmt>>, Stop>
        requires short { length self.now.toks.now < 2 ^ 32 }
        requires at { at ≤ length self.now.toks.now }
        ensures bounds { IfOk result (λ r. (at ≤ r.end) × (r.end ≤ length self.now.toks.now)) }
        ensures read { IfOk result (λ r. Reads self.now.toks.now room
            (maybe symbol.for_step) at r.end (option_map trees.statement_of r.value)) }
        ensures stopped { IfErr result
            (λ e. StopsMaybe self.now.toks.now room symbol.for_step 1 at e) }
    {
        if is_symbol(self.toks, at, END_PAREN) {
            return Ok(Read {
                value: None,
                end: at,
            });
        }
        let step = self.for_step(at, room)?;
        Ok(Read {
            value: Some(step.value),
            end: step.end,
        })
    }

    /// The test of a `for`, or none.
    fn maybe_expr(&self, at: usize, room: u32) -> Result<Read<Option<Expr>>, Stop>
        requires at { at ≤ length self.now.toks.now }
        ensures bounds { IfOk result (λ r. (at ≤ r.end) × (r.end ≤ length self.now.toks.now)) }
        ensures read { IfOk result (λ r. Reads self.now.toks.now room (maybe symbol.expr) at r.end
            (option_map trees.expression_of r.value)) }
        ensures stopped { IfErr result (λ e. StopsMaybe self.now.toks.now room symbol.expr 6 at e) }
    {
        if is_symbol(self.toks, at, SEMICOLON) {
            return Ok(Read {
                value: None,
                end: at,
            });
        }
        let test = self.expr(at, room)?;
        Ok(Read {
            value: Some(test.value),
            end: test.end,
        })
    }
}
