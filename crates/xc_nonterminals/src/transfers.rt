//! Transfers over ports, channels and timers: outputs and inputs.

ghost use Rattle.std.specs.Prelude.{◌≡◌, ℕ, ◌+◌, ◌^◌, ◌<◌, ◌≤◌, length, option_map, Some, [], ◌∷◌, IfOk, IfErr};
ghost use Rattle.xw_words.specs.declared.pos.Pos.{Pos};
ghost use Rattle.xc_tree.specs.Symbol as symbol;
ghost use Rattle.xc_tree.specs.Symbol.{a_name};
ghost use Rattle.xc_tree.specs.Plain as plain;
ghost use Rattle.xc_tree.specs.Trees as trees;
ghost use Rattle.xc_nonterminals.specs.Follows.{OneOf, StandsAt};
ghost use Rattle.xc_nonterminals.specs.Reading.{Reads};
ghost use Rattle.xc_nonterminals.specs.RowReading.{ReadsRow, StoppedRow};
ghost use Rattle.xc_nonterminals.specs.Stops.{Stopped};
ghost use Rattle.xc_nonterminals.specs.Parts.{waits_of, received, sent};
ghost use Rattle.xc_nonterminals.specs.Goals.{ReadsGoal, StopsGoal};
ghost use Rattle.xc_nonterminals.specs.Tails.{output_row, input_row};
ghost use Rattle.xc_tree.specs.Terminals as terminal;

use crate::parser::{Parser, Read};
use crate::stop::Stop;
use crate::tokens::{begins_type, is_symbol, is_word};
use xc_tree::symbols::{AT_SIGN, END_PAREN, PAREN, RECEIVES, SEMICOLON, SENDS};
use xc_tree::words::{PINSEQ_WORD, PINSNEQ_WORD, TIMERAFTER_WORD, VOID_WORD, WHEN_WORD};
use xc_tree::{Dest, Expr, Head, Id, Send, St, Stmt, Timed, When};
use xw_words::allocation::with_ok;

/// What stands between the name of an input and its `:>`.
#[derive(Drop)]
pub enum Waits {
    /// Nothing.
    AtOnce,
    Time(Timed),
    Condition(When),
}

/// What stands behind the `<:` of an output.
#[derive(Drop)]
struct OutputTail {
    value: Expr,
    stamp: Option<Timed>,
}

/// What stands behind the `:>` of an input: where its value goes, and where its time is stored.
#[derive(Drop)]
struct Goal {
    dest: Dest,
    stamp: Option<Timed>,
}

impl<'a> Parser<'a> {
    /// An input.
    pub fn input(&self, at: usize, room: u32) -> Result<Read<Head>, Stop>
        requires at { at ≤ length self.now.toks.now }
        ensures bounds { IfOk result (λ r. (at < r.end) × (r.end ≤ length self.now.toks.now)) }
        ensures read { IfOk result
            (λ r. Reads self.now.toks.now room symbol.input at r.end (trees.input_of r.value)) }
        ensures stopped { IfErr result (λ e. Stopped self.now.toks.now room symbol.input at e) }
    {
        let name = self.id(at)?;
        let (name, waits) = with_ok(name.value, self.waits(name.end, room))?;
        let (name, closed) = with_ok(name, self.closed(waits, RECEIVES))?;
        let before = (name, closed.value);
        let (before, goal) = with_ok(before, self.goal(closed.end, room))?;
        let Goal { dest, stamp } = goal.value;
        Ok(Read {
            value: input_of(before.0, before.1, dest, stamp),
            end: goal.end,
        })
    }

    /// A statement that is an input, with `:>` or `when` behind its name, and room for so many nodes inside it.
    pub fn input_statement(&self, at: usize, room: u32) -> Result<Read<Stmt>, Stop>
        requires short { length self.now.toks.now < 2 ^ 32 }
        requires name { StandsAt self.now.toks.now at a_name }
        requires begins { OneOf self.now.toks.now (at + 1) (terminal.receives ∷ terminal.when_word ∷ []) }
        ensures bounds { IfOk result (λ r. (at < r.end) × (r.end ≤ length self.now.toks.now)) }
        ensures read { IfOk result (λ r. Reads self.now.toks.now
            (room + 1) symbol.statement at r.end (trees.statement_of r.value)) }
        ensures stopped { IfErr result
            (λ e. Stopped self.now.toks.now (room + 1) symbol.statement at e) }
    {
        let input = self.input(at, room)?;
        let closed = self.closed(input, SEMICOLON)?;
        self.whole(at, closed.end, 0, St::Input(closed.value))
    }

    /// A statement that is an output, or an input with a time: `<:` or `@` stands behind its name. There is room for so
    /// many nodes inside it.
    pub fn transfer(&self, at: usize, room: u32) -> Result<Read<Stmt>, Stop>
        requires short { length self.now.toks.now < 2 ^ 32 }
        requires name { StandsAt self.now.toks.now at a_name }
        requires begins { OneOf self.now.toks.now (at + 1) (terminal.sends ∷ terminal.at_sign ∷ []) }
        ensures bounds { IfOk result (λ r. (at < r.end) × (r.end ≤ length self.now.toks.now)) }
        ensures read { IfOk result (λ r. Reads self.now.toks.now
            (room + 1) symbol.statement at r.end (trees.statement_of r.value)) }
        ensures stopped { IfErr result
            (λ e. Stopped self.now.toks.now (room + 1) symbol.statement at e) }
    {
        if !is_symbol(self.toks, at + 1, SENDS) {
            return self.timed_transfer(at, room);
        }
        let name = self.id(at)?;
        let tail = self.output_tail(name.end, room)?;
        let OutputTail { value, stamp } = tail.value;
        let output = output_of(name.value, None, value, stamp);
        self.whole(at, tail.end, 0, St::Output(output))
    }

    /// A statement that is an output or an input with a time, and has room for so many nodes inside it.
    fn timed_transfer(&self, at: usize, room: u32) -> Result<Read<Stmt>, Stop>
        requires short { length self.now.toks.now < 2 ^ 32 }
        requires name { StandsAt self.now.toks.now at a_name }
        requires begins { StandsAt self.now.toks.now (at + 1) terminal.at_sign }
        ensures bounds { IfOk result (λ r. (at < r.end) × (r.end ≤ length self.now.toks.now)) }
        ensures read { IfOk result (λ r. Reads self.now.toks.now
            (room + 1) symbol.statement at r.end (trees.statement_of r.value)) }
        ensures stopped { IfErr result
            (λ e. Stopped self.now.toks.now (room + 1) symbol.statement at e) }
    {
        let name = self.id(at)?;
        let (name, time) = with_ok(name.value, self.time(name.end, room))?;
        let end = time.end;
        let before = (name, time.value);
        if is_symbol(self.toks, end, SENDS) {
            let (before, sends) = with_ok(before, self.output_tail(end, room))?;
            let OutputTail { value, stamp } = sends.value;
            let output = output_of(before.0, Some(before.1), value, stamp);
            return self.whole(at, sends.end, 0, St::Output(output));
        }
        let (before, receives) = with_ok(before, self.input_tail(end, room))?;
        let Goal { dest, stamp } = receives.value;
        let input = input_of(before.0, Waits::Time(before.1), dest, stamp);
        self.whole(at, receives.end, 0, St::Input(input))
    }

    /// An output from its `<:` on, with the `;` behind it.
    fn output_tail(&self, at: usize, room: u32) -> Result<Read<OutputTail>, Stop>
        ensures bounds { IfOk result (λ r. (at < r.end) × (r.end ≤ length self.now.toks.now)) }
        ensures read { IfOk result (λ r. (p : Pos) × (q : Pos) × ReadsRow self.now.toks.now
            room output_row at r.end (
              p,
              (
                trees.expression_of r.value.value,
                (option_map trees.timing_of r.value.stamp, (q, tt)),
              ),
            )) }
        ensures stopped { IfErr result (λ e. StoppedRow self.now.toks.now room output_row at e) }
    {
        let sends = self.symbol(at, SENDS)?;
        let value = self.expr(sends.end, room)?;
        let (value, stamp) = with_ok(value.value, self.maybe_stamp(value.end, room))?;
        let (value, closed) = with_ok(value, self.closed(stamp, SEMICOLON))?;
        Ok(Read {
            value: OutputTail {
                value,
                stamp: closed.value,
            },
            end: closed.end,
        })
    }

    /// An input from its `:>` on, with the `;` behind it.
    fn input_tail(&self, at: usize, room: u32) -> Result<Read<Goal>, Stop>
        ensures bounds { IfOk result (λ r. (at < r.end) × (r.end ≤ length self.now.toks.now)) }
        ensures read { IfOk result
            (λ r. (p : Pos) × (q : Pos) × ReadsRow self.now.toks.now room input_row at r.end (
              p,
              (trees.target_of r.value.dest, (option_map trees.timing_of r.value.stamp, (q, tt))),
            )) }
        ensures stopped { IfErr result (λ e. StoppedRow self.now.toks.now room input_row at e) }
    {
        let receives = self.symbol(at, RECEIVES)?;
        let goal = self.goal(receives.end, room)?;
        let closed = self.closed(goal, SEMICOLON)?;
        Ok(Read {
            value: closed.value,
            end: closed.end,
        })
    }

    /// Where the value of an input goes, and where its time is stored.
    fn goal(&self, at: usize, room: u32) -> Result<Read<Goal>, Stop>
        requires at { at ≤ length self.now.toks.now }
        ensures bounds { IfOk result (λ r. (at < r.end) × (r.end ≤ length self.now.toks.now)) }
        ensures read { IfOk result (λ r. ReadsGoal self.now.toks.now room at r.end
            (trees.target_of r.value.dest) (option_map trees.timing_of r.value.stamp)) }
        ensures stopped { IfErr result (λ e. StopsGoal self.now.toks.now room at e) }
    {
        let dest = self.dest(at, room)?;
        let (dest, stamp) = with_ok(dest.value, self.maybe_stamp(dest.end, room))?;
        Ok(Read {
            value: Goal {
                dest,
                stamp: stamp.value,
            },
            end: stamp.end,
        })
    }

    /// Where the time of a transfer is stored, or nowhere.
    pub fn maybe_stamp(&self, at: usize, room: u32) -> Result<Read<Option<Timed>>, Stop>
        requires at { at ≤ length self.now.toks.now }
        ensures bounds { IfOk result (λ r. (at ≤ r.end) × (r.end ≤ length self.now.toks.now)) }
        ensures read { IfOk result (λ r. Reads self.now.toks.now room
            (symbol.maybe symbol.stamp) at r.end (option_map trees.timing_of r.value)) }
        ensures stopped { IfErr result
            (λ e. Stopped self.now.toks.now room (symbol.maybe symbol.stamp) at e) }
    {
        if !is_symbol(self.toks, at, AT_SIGN) {
            return Ok(Read {
                value: None,
                end: at,
            });
        }
        let stamp = self.stamp(at, room)?;
        Ok(Read {
            value: Some(stamp.value),
            end: stamp.end,
        })
    }

    /// What an input waits for, which may be nothing.
    pub fn waits(&self, at: usize, room: u32) -> Result<Read<Waits>, Stop>
        requires at { at ≤ length self.now.toks.now }
        ensures bounds { IfOk result (λ r. (at ≤ r.end) × (r.end ≤ length self.now.toks.now)) }
        ensures read { IfOk result
            (λ r. Reads self.now.toks.now room symbol.waits at r.end (waits_of r.value)) }
        ensures stopped { IfErr result (λ e. Stopped self.now.toks.now room symbol.waits at e) }
    {
        if is_symbol(self.toks, at, AT_SIGN) {
            let time = self.time(at, room)?;
            return Ok(Read {
                value: Waits::Time(time.value),
                end: time.end,
            });
        }
        if !is_word(self.toks, at, WHEN_WORD) {
            return Ok(Read {
                value: Waits::AtOnce,
                end: at,
            });
        }
        let pos = self.toks[at].pos;
        let test = self.test(at + 1)?;
        let open = self.symbol(test.end, PAREN)?;
        let value = self.expr(open.end, room)?;
        let close = self.closed(value, END_PAREN)?;
        Ok(Read {
            value: Waits::Condition(When {
                at: pos,
                test: test.value,
                value: close.value,
            }),
            end: close.end,
        })
    }

    /// The test of a condition, as the place of its word in `WORDS`.
    pub fn test(&self, at: usize) -> Result<Read<u8>, Stop>
        requires at { at ≤ length self.now.toks.now }
        ensures bounds { IfOk result (λ r. (r.end ≡ at + 1) × (r.end ≤ length self.now.toks.now)) }
        ensures read { IfOk result
            (λ r. (room : ℕ) → Reads self.now.toks.now room symbol.test at r.end r.value) }
        ensures stopped { IfErr result
            (λ e. (room : ℕ) → Stopped self.now.toks.now room symbol.test at e) }
    {
        if is_word(self.toks, at, PINSEQ_WORD) {
            return Ok(Read {
                value: PINSEQ_WORD,
                end: at + 1,
            });
        }
        if is_word(self.toks, at, PINSNEQ_WORD) {
            return Ok(Read {
                value: PINSNEQ_WORD,
                end: at + 1,
            });
        }
        let timerafter = self.word(at, TIMERAFTER_WORD)?;
        Ok(Read {
            value: TIMERAFTER_WORD,
            end: timerafter.end,
        })
    }

    /// Where the value of an input goes.
    pub fn dest(&self, at: usize, room: u32) -> Result<Read<Dest>, Stop>
        requires at { at ≤ length self.now.toks.now }
        ensures bounds { IfOk result (λ r. (at < r.end) × (r.end ≤ length self.now.toks.now)) }
        ensures read { IfOk result
            (λ r. Reads self.now.toks.now room symbol.dest at r.end (trees.target_of r.value)) }
        ensures stopped { IfErr result (λ e. Stopped self.now.toks.now room symbol.dest at e) }
    {
        if is_word(self.toks, at, VOID_WORD) {
            return Ok(Read {
                value: Dest::Drop,
                end: at + 1,
            });
        }
        if begins_type(self.toks, at) {
            let word = self.word_type(at)?;
            let name = self.id(word.end)?;
            return Ok(Read {
                value: fresh(word.value, name.value),
                end: name.end,
            });
        }
        let lval = self.lval(at, room)?;
        Ok(Read {
            value: Dest::To(lval.value),
            end: lval.end,
        })
    }
}

/// A name that an input declares.
fn fresh(is_unsigned: bool, name: Id) -> Dest
    ensures { trees.target_of result ≡ plain.fresh is_unsigned name }
{
    let Id { text, pos } = name;
    Dest::Fresh(is_unsigned, text, pos)
}

/// An input of its parts.
fn input_of(name: Id, waits: Waits, dest: Dest, stamp: Option<Timed>) -> Head
    ensures { trees.input_of result ≡ received name (waits_of waits) (trees.target_of dest)
        (option_map trees.timing_of stamp) }
{
    let Id { text, pos } = name;
    let (time, cond) = match waits {
        Waits::AtOnce => (None, None),
        Waits::Time(time) => (Some(time), None),
        Waits::Condition(cond) => (None, Some(cond)),
    };
    Head {
        name: text,
        pos,
        time,
        cond,
        dest,
        stamp,
    }
}

/// An output of its parts.
fn output_of(name: Id, time: Option<Timed>, value: Expr, stamp: Option<Timed>) -> Send
    ensures { trees.output_of result ≡ sent name (option_map trees.timing_of time)
        (trees.expression_of value) (option_map trees.timing_of stamp) }
{
    let Id { text, pos } = name;
    Send {
        name: text,
        pos,
        time,
        value,
        stamp,
    }
}
