//! Branches that run side by side.

ghost use Rattle.std.specs.Prelude.{◌≡◌, ℕ, ◌+◌, ◌^◌, ◌<◌, ◌≤◌, length, IfOk, IfErr};
ghost use Rattle.xw_words.specs.declared.pos.Pos.{Pos};
ghost use Rattle.xc_tree.specs.Plain as plain;
ghost use Rattle.xc_tree.specs.Symbol as symbol;
ghost use Rattle.xc_tree.specs.Trees as trees;
ghost use Rattle.xc_nonterminals.specs.Counting.{ReadsCounts, bound_row, step_row};
ghost use Rattle.xc_nonterminals.specs.Follows.{StandsAt};
ghost use Rattle.xc_nonterminals.specs.Reading.{Reads};
ghost use Rattle.xc_nonterminals.specs.RowReading.{ReadsRow, StoppedRow};
ghost use Rattle.xc_nonterminals.specs.Stops.{Stopped};
ghost use Rattle.xc_nonterminals.specs.Values.{numeral_of};
ghost use Rattle.xc_tree.specs.Terminals as terminal;

use crate::expected::Numeral;
use crate::parser::{Parser, Read};
use crate::stop::Stop;
use crate::tokens::is_symbol;
use xc_tree::symbols::{BELOW, BRACE, END_BRACE, END_PAREN, EQUALS, PAREN, PLUS_PLUS, SEMICOLON};
use xc_tree::words::INT_WORD;
use xc_tree::{Branch, Id, St, Stmt};
use xw_words::List;
use xw_words::allocation::{boxed, with_ok};

/// What was read, how many of its tokens are in statements that it holds, and the place of the token behind it.
#[derive(Drop)]
pub struct Holder<T> {
    pub value: T,
    pub held: usize,
    pub end: usize,
}

/// A name of a replicated `par`, and the number that it is compared with.
#[derive(Drop)]
struct Bound {
    name: Id,
    number: Numeral,
}

/// The names of a replicated `par`, and the numbers that it counts from and to.
#[derive(Drop)]
struct Counts {
    first: Bound,
    second: Bound,
    third: Id,
}

impl<'a> Parser<'a> {
    /// A `par`, with room for so many nodes inside it.
    #[cycle(statement)]
    pub fn par(&self, at: usize, room: u32) -> Result<Read<Stmt>, Stop>
        requires short { length self.now.toks.now < 2 ^ 32 }
        requires word { StandsAt self.now.toks.now at terminal.par_word }
        ensures bounds { IfOk result (λ r. (at < r.end) × (r.end ≤ length self.now.toks.now)) }
        ensures read { IfOk result (λ r. Reads self.now.toks.now
            (room + 1) symbol.statement at r.end (trees.statement_of r.value)) }
        ensures stopped { IfErr result
            (λ e. Stopped self.now.toks.now (room + 1) symbol.statement at e) }
    {
        if is_symbol(self.toks, at + 1, PAREN) {
            return self.replicated(at, room);
        }
        let open = self.symbol(at + 1, BRACE)?;
        let mut branches = List::new(self.alloc);
        let mut held = 0;
        let mut end = open.end;
        'branches: while !is_symbol(self.toks, end, END_BRACE) {
            let branch = self.branch(end, room)?;
            branches.push(branch.value)?;
            held += branch.held;
            end = branch.end;
        }
        self.whole(at, end + 1, held, St::Par(branches))
    }

    /// A branch.
    #[cycle(statement)]
    fn branch(&self, at: usize, room: u32) -> Result<Holder<Branch>, Stop>
        requires short { length self.now.toks.now < 2 ^ 32 }
        requires at { at ≤ length self.now.toks.now }
        ensures bounds { IfOk result (λ r. (at < r.end) × (r.end ≤ length self.now.toks.now)) }
        ensures holds { IfOk result (λ r. (r.held ≡ plain.branch_tokens (trees.branch_of r.value))
            × (at + r.held ≤ r.end)) }
        ensures read { IfOk result
            (λ r. Reads self.now.toks.now room symbol.branch at r.end (trees.branch_of r.value)) }
        ensures stopped { IfErr result (λ e. Stopped self.now.toks.now room symbol.branch at e) }
    {
        let place = self.maybe_place(at, room)?;
        let start = place.end;
        let (place, body) = with_ok(place.value, self.statement(start, room))?;
        Ok(Holder {
            value: Branch {
                place,
                body: body.value,
            },
            held: body.end - start,
            end: body.end,
        })
    }

    /// `par ( int first = from ; second < to ; third ++ )` and a branch, with room for so many nodes inside it.
    #[cycle(statement)]
    fn replicated(&self, at: usize, room: u32) -> Result<Read<Stmt>, Stop>
        requires short { length self.now.toks.now < 2 ^ 32 }
        requires word { StandsAt self.now.toks.now at terminal.par_word }
        requires bracket { StandsAt self.now.toks.now (at + 1) terminal.paren }
        ensures bounds { IfOk result (λ r. (at < r.end) × (r.end ≤ length self.now.toks.now)) }
        ensures read { IfOk result (λ r. Reads self.now.toks.now
            (room + 1) symbol.statement at r.end (trees.statement_of r.value)) }
        ensures stopped { IfErr result
            (λ e. Stopped self.now.toks.now (room + 1) symbol.statement at e) }
    {
        let counts = self.counts(at)?;
        let (counts, branch) = with_ok(counts.value, self.branch(counts.end, room))?;
        let (counts, body) = with_ok(counts, boxed(self.alloc, branch.value))?;
        let Counts {
            first,
            second,
            third,
        } = counts;
        let kind = St::Repl {
            first: first.name,
            second: second.name,
            third,
            from: first.number.value,
            to: second.number.value,
            body,
        };
        self.whole(at, branch.end, branch.held, kind)
    }

    /// What stands between the word of a replicated `par` and its branch, from the word on.
    fn counts(&self, at: usize) -> Result<Read<Counts>, Stop>
        requires short { length self.now.toks.now < 2 ^ 32 }
        requires word { StandsAt self.now.toks.now at terminal.par_word }
        requires bracket { StandsAt self.now.toks.now (at + 1) terminal.paren }
        ensures bounds { IfOk result (λ r. (at < r.end) × (r.end ≤ length self.now.toks.now)) }
        ensures read { IfOk result (λ r. ReadsCounts self.now.toks.now at r.end r.value) }
        ensures stopped { IfErr result (λ e. (room : ℕ) →
            Stopped self.now.toks.now (room + 1) symbol.statement at e) }
    {
        let open = self.symbol(at + 1, PAREN)?;
        let int = self.word(open.end, INT_WORD)?;
        let first = self.bound(int.end, EQUALS)?;
        let second = self.bound(first.end, BELOW)?;
        let third = self.step(second.end)?;
        Ok(Read {
            value: Counts {
                first: first.value,
                second: second.value,
                third: third.value,
            },
            end: third.end,
        })
    }

    /// A name, a symbol by its place in `SYMBOLS`, a number and a `;`.
    fn bound(&self, at: usize, wanted: u8) -> Result<Read<Bound>, Stop>
        ensures bounds { IfOk result (λ r. (at < r.end) × (r.end ≤ length self.now.toks.now)) }
        ensures read { IfOk result (λ r. (p : Pos) × (q : Pos)
            × ((room : ℕ) → ReadsRow self.now.toks.now room (bound_row wanted) at r.end
            (r.value.name, (p, (numeral_of r.value.number, (q, tt)))))) }
        ensures stopped { IfErr result
            (λ e. (room : ℕ) → StoppedRow self.now.toks.now room (bound_row wanted) at e) }
    {
        let name = self.id(at)?;
        let closed = self.closed(name, wanted)?;
        let number = self.numeral(closed.end)?;
        let semicolon = self.symbol(number.end, SEMICOLON)?;
        Ok(Read {
            value: Bound {
                name: closed.value,
                number: number.value,
            },
            end: semicolon.end,
        })
    }

    /// A name, with the `++` and the `)` behind it.
    fn step(&self, at: usize) -> Result<Read<Id>, Stop>
        ensures bounds { IfOk result (λ r. (at < r.end) × (r.end ≤ length self.now.toks.now)) }
        ensures read { IfOk result (λ r. (p : Pos) × (q : Pos) × ((room : ℕ) →
            ReadsRow self.now.toks.now room step_row at r.end (r.value, (p, (q, tt))))) }
        ensures stopped { IfErr result
            (λ e. (room : ℕ) → StoppedRow self.now.toks.now room step_row at e) }
    {
        let name = self.id(at)?;
        let stepped = self.closed(name, PLUS_PLUS)?;
        let closed = self.closed(stepped, END_PAREN)?;
        Ok(Read {
            value: closed.value,
            end: closed.end,
        })
    }
}
