//! Statements, and the blocks that hold them.

ghost use Rattle.std.specs.Prelude.{◌≡◌, ℕ, ◌+◌, ◌-◌, ◌^◌, ◌<◌, ◌≤◌, length, slice_get, map, [], ◌∷◌, IfOk, IfErr, IfSome, IfNone, IsTrue, false, if◌then◌else◌};
ghost use Rattle.xc_tree.specs.Derives.{extent};
ghost use Rattle.xc_tree.specs.Grammar.{statement_of};
ghost use Rattle.xc_tree.specs.Plain as plain;
ghost use Rattle.xc_tree.specs.Symbol as symbol;
ghost use Rattle.xc_tree.specs.Symbol.{sym, key, a_name};
ghost use Rattle.xc_tree.specs.Trees as trees;
ghost use Rattle.xc_nonterminals.specs.Begun.{token_of, assigning};
ghost use Rattle.xc_nonterminals.specs.Follows.{OneOf, StandsAt, has, begins_statement};
ghost use Rattle.xc_nonterminals.specs.Reading.{Reads};
ghost use Rattle.xc_nonterminals.specs.Stops.{Stopped};
ghost use Rattle.xc_tree.specs.Terminals as terminal;
ghost use Rattle.xc_tree.specs.Words as words;

use crate::parser::{Parser, Read};
use crate::stop::Stop;
use crate::tokens::{is_symbol, is_word};
use crate::values::right_side;
use xc_tree::symbols::{
    AT_SIGN, BRACE, BRACKET, END_BRACE, END_PAREN, EQUALS, MINUS_MINUS, PAREN, PLUS_PLUS, RECEIVES,
    SEMICOLON, SENDS,
};
use xc_tree::words::{
    BREAK_WORD, CONTINUE_WORD, DO_WORD, ELSE_WORD, FOR_WORD, IF_WORD, MASTER_WORD, PAR_WORD,
    RETURN_WORD, SELECT_WORD, SLAVE_WORD, WHEN_WORD, WHILE_WORD,
};
use xc_tree::{Kind, St, Stmt, Tok};
use xw_words::List;
use xw_words::allocation::with_ok;

/// How a statement begins.
#[derive(Clone, Copy)]
enum First {
    Semicolon,
    Brace,
    Name,
    If,
    While,
    Do,
    For,
    Return,
    Break,
    Continue,
    Par,
    Select,
    Master,
    Slave,
}

impl<'a> Parser<'a> {
    /// A statement.
    #[cycle(statement)]
    pub fn statement(&self, at: usize, room: u32) -> Result<Read<Stmt>, Stop>
        requires short { length self.now.toks.now < 2 ^ 32 }
        requires at { at ≤ length self.now.toks.now }
        ensures bounds { IfOk result (λ r. (at < r.end) × (r.end ≤ length self.now.toks.now)) }
        ensures read { IfOk result (λ r. Reads self.now.toks.now room symbol.statement at r.end
            (trees.statement_of r.value)) }
        ensures stopped { IfErr result (λ e. Stopped self.now.toks.now room symbol.statement at e) }
    {
        let Some(first) = self.first(at) else {
            return Err(Stop::Wrong(at));
        };
        if room == 0 {
            return Err(Stop::Deep(at));
        }
        self.begun(at, first, room - 1)
    }

    /// The statement that begins so at a place, with room for so many nodes inside it.
    #[cycle(statement)]
    fn begun(&self, at: usize, first: First, room: u32) -> Result<Read<Stmt>, Stop>
        requires short { length self.now.toks.now < 2 ^ 32 }
        requires at { at < length self.now.toks.now }
        requires begins { StandsAt self.now.toks.now at (token_of first) }
        ensures bounds { IfOk result (λ r. (at < r.end) × (r.end ≤ length self.now.toks.now)) }
        ensures read { IfOk result (λ r. Reads self.now.toks.now
            (room + 1) symbol.statement at r.end (trees.statement_of r.value)) }
        ensures stopped { IfErr result
            (λ e. Stopped self.now.toks.now (room + 1) symbol.statement at e) }
    {
        match first {
            First::Semicolon => self.whole(at, at + 1, 0, St::Empty),
            First::Brace => self.braced(at, room),
            First::Name => self.simple(at, room),
            First::If => self.conditional(at, room),
            First::While => self.while_loop(at, room),
            First::Do => self.do_loop(at, room),
            First::For => self.for_loop(at, room),
            First::Return => self.return_statement(at, room),
            First::Break => self.jump(at, true),
            First::Continue => self.jump(at, false),
            First::Par => self.par(at, room),
            First::Select => self.select(at, room),
            First::Master => self.transaction(at, true, room),
            First::Slave => self.transaction(at, false, room),
        }
    }

    /// How the statement at a place begins, if one begins there.
    fn first(&self, at: usize) -> Option<First>
        ensures some { IfSome result
            (λ f. (at < length self.now.toks.now) × StandsAt self.now.toks.now at (token_of f)) }
        ensures none { IfNone result (OneOf self.now.toks.now at begins_statement → ⊥) }
    {
        if at >= self.toks.len() {
            return None;
        }
        match &self.toks[at].kind {
            Kind::Name(_) => Some(First::Name),
            Kind::Sym(symbol) => first_by_symbol(*symbol),
            Kind::Key(word) => first_by_word(*word),
            Kind::Num(..) => None,
        }
    }

    /// The block of a function.
    pub fn body(&self, at: usize, room: u32) -> Result<Read<Stmt>, Stop>
        requires short { length self.now.toks.now < 2 ^ 32 }
        requires at { at ≤ length self.now.toks.now }
        ensures bounds { IfOk result (λ r. (at < r.end) × (r.end ≤ length self.now.toks.now)) }
        ensures read { IfOk result
            (λ r. Reads self.now.toks.now room symbol.body at r.end (trees.statement_of r.value)) }
        ensures stopped { IfErr result (λ e. Stopped self.now.toks.now room symbol.body at e) }
    {
        if room > 0 {
            return self.braced(at, room - 1);
        }
        if is_symbol(self.toks, at, BRACE) {
            return Err(Stop::Deep(at));
        }
        Err(Stop::Wrong(at))
    }

    /// A block as a statement, and as the block of a function, with room for so many nodes inside it.
    #[cycle(statement)]
    fn braced(&self, at: usize, room: u32) -> Result<Read<Stmt>, Stop>
        requires short { length self.now.toks.now < 2 ^ 32 }
        requires at { at ≤ length self.now.toks.now }
        ensures bounds { IfOk result (λ r. (at < r.end) × (r.end ≤ length self.now.toks.now)) }
        ensures read { IfOk result (λ r. StandsAt self.now.toks.now at terminal.brace → Reads
            self.now.toks.now (room + 1) symbol.statement at r.end (trees.statement_of r.value)) }
        ensures stopped { IfErr result (λ e. StandsAt self.now.toks.now at terminal.brace →
            Stopped self.now.toks.now (room + 1) symbol.statement at e) }
        ensures body { IfOk result (λ r. Reads self.now.toks.now (room + 1) symbol.body at r.end
            (trees.statement_of r.value)) }
        ensures no_body { IfErr result
            (λ e. Stopped self.now.toks.now (room + 1) symbol.body at e) }
    {
        let block = self.block(at, room)?;
        let held = block.end - at - 2;
        self.whole(at, block.end, held, St::Block(block.value))
    }

    /// What stands between `{` and `}`.
    #[cycle(statement)]
    pub fn block(&self, at: usize, room: u32) -> Result<Read<List<Stmt>>, Stop>
        requires short { length self.now.toks.now < 2 ^ 32 }
        requires at { at ≤ length self.now.toks.now }
        ensures bounds { IfOk result (λ r. (at + 1 < r.end) × (r.end ≤ length self.now.toks.now)) }
        ensures read { IfOk result (λ r. Reads self.now.toks.now room symbol.block at r.end
            (map trees.statement_of r.value)) }
        ensures stopped { IfErr result (λ e. Stopped self.now.toks.now room symbol.block at e) }
    {
        let open = self.symbol(at, BRACE)?;
        let mut value = List::new(self.alloc);
        let mut end = open.end;
        'items: while !is_symbol(self.toks, end, END_BRACE) {
            let item = self.block_item(end, room)?;
            value.push(item.value)?;
            end = item.end;
        }
        Ok(Read {
            value,
            end: end + 1,
        })
    }

    /// A declaration or a statement.
    #[cycle(statement)]
    pub fn block_item(&self, at: usize, room: u32) -> Result<Read<Stmt>, Stop>
        requires short { length self.now.toks.now < 2 ^ 32 }
        requires at { at ≤ length self.now.toks.now }
        ensures bounds { IfOk result (λ r. (at < r.end) × (r.end ≤ length self.now.toks.now)) }
        ensures read { IfOk result (λ r. Reads self.now.toks.now room symbol.block_item at r.end
            (trees.statement_of r.value)) }
        ensures stopped { IfErr result
            (λ e. Stopped self.now.toks.now room symbol.block_item at e) }
    {
        if self.begins_declaration(at) {
            return self.declaration(at, room);
        }
        self.statement(at, room)
    }

    /// A transaction, of the master or else of the slave, with room for so many nodes inside it.
    #[cycle(statement)]
    fn transaction(&self, at: usize, is_master: bool, room: u32) -> Result<Read<Stmt>, Stop>
        requires short { length self.now.toks.now < 2 ^ 32 }
        requires word { StandsAt self.now.toks.now at
            (key (if is_master then words.master_word else words.slave_word)) }
        ensures bounds { IfOk result (λ r. (at < r.end) × (r.end ≤ length self.now.toks.now)) }
        ensures read { IfOk result (λ r. Reads self.now.toks.now
            (room + 1) symbol.statement at r.end (trees.statement_of r.value)) }
        ensures stopped { IfErr result
            (λ e. Stopped self.now.toks.now (room + 1) symbol.statement at e) }
    {
        let block = self.block(at + 1, room)?;
        let held = block.end - at - 3;
        self.whole(at, block.end, held, St::Tran(is_master, block.value))
    }

    /// A statement that begins with a name, which the token behind it decides, with room for so many nodes inside it.
    fn simple(&self, at: usize, room: u32) -> Result<Read<Stmt>, Stop>
        requires short { length self.now.toks.now < 2 ^ 32 }
        requires name { StandsAt self.now.toks.now at a_name }
        ensures bounds { IfOk result (λ r. (at < r.end) × (r.end ≤ length self.now.toks.now)) }
        ensures read { IfOk result (λ r. Reads self.now.toks.now
            (room + 1) symbol.statement at r.end (trees.statement_of r.value)) }
        ensures stopped { IfErr result
            (λ e. Stopped self.now.toks.now (room + 1) symbol.statement at e) }
    {
        let behind = at + 1;
        if is_symbol(self.toks, behind, PAREN) {
            return self.call_statement(at, room);
        }
        if sends(self.toks, behind) {
            return self.transfer(at, room);
        }
        if receives(self.toks, behind) {
            return self.input_statement(at, room);
        }
        if !assigns(self.toks, behind) {
            return Err(Stop::Wrong(behind));
        }
        if room == 0 {
            return Err(Stop::Deep(behind));
        }
        let assign = self.assign(at, room)?;
        let closed = self.closed(assign, SEMICOLON)?;
        self.whole(at, closed.end, 0, closed.value)
    }

    /// A call as a statement, with room for so many nodes inside it.
    fn call_statement(&self, at: usize, room: u32) -> Result<Read<Stmt>, Stop>
        requires short { length self.now.toks.now < 2 ^ 32 }
        requires name { StandsAt self.now.toks.now at a_name }
        requires open { StandsAt self.now.toks.now (at + 1) terminal.paren }
        ensures bounds { IfOk result (λ r. (at < r.end) × (r.end ≤ length self.now.toks.now)) }
        ensures read { IfOk result (λ r. Reads self.now.toks.now
            (room + 1) symbol.statement at r.end (trees.statement_of r.value)) }
        ensures stopped { IfErr result
            (λ e. Stopped self.now.toks.now (room + 1) symbol.statement at e) }
    {
        let call = self.call(at, room)?;
        let closed = self.closed(call, SEMICOLON)?;
        self.whole(at, closed.end, 0, St::Do(right_side(closed.value)))
    }

    /// `break ;`, or else `continue ;`, from the word on.
    fn jump(&self, at: usize, is_break: bool) -> Result<Read<Stmt>, Stop>
        requires short { length self.now.toks.now < 2 ^ 32 }
        requires word { StandsAt self.now.toks.now at
            (key (if is_break then words.break_word else words.continue_word)) }
        ensures bounds { IfOk result (λ r. (at < r.end) × (r.end ≤ length self.now.toks.now)) }
        ensures read { IfOk result (λ r. (room : ℕ) → Reads self.now.toks.now
            (room + 1) symbol.statement at r.end (trees.statement_of r.value)) }
        ensures stopped { IfErr result
            (λ e. (room : ℕ) → Stopped self.now.toks.now (room + 1) symbol.statement at e) }
    {
        let semicolon = self.symbol(at + 1, SEMICOLON)?;
        if is_break {
            return self.whole(at, semicolon.end, 0, St::Break);
        }
        self.whole(at, semicolon.end, 0, St::Continue)
    }

    /// A `return`, with room for so many nodes inside it. A value that there is no room for is too deep where a `;` stands
    /// behind it.
    fn return_statement(&self, at: usize, room: u32) -> Result<Read<Stmt>, Stop>
        requires short { length self.now.toks.now < 2 ^ 32 }
        requires word { StandsAt self.now.toks.now at terminal.return_word }
        ensures bounds { IfOk result (λ r. (at < r.end) × (r.end ≤ length self.now.toks.now)) }
        ensures read { IfOk result (λ r. Reads self.now.toks.now
            (room + 1) symbol.statement at r.end (trees.statement_of r.value)) }
        ensures stopped { IfErr result
            (λ e. Stopped self.now.toks.now (room + 1) symbol.statement at e) }
    {
        let behind = at + 1;
        if is_symbol(self.toks, behind, SEMICOLON) {
            return self.whole(at, behind + 1, 0, St::Return(None));
        }
        let Read { value, end } = self.rhs(behind, room)?;
        let Some(right) = value else {
            if is_symbol(self.toks, end, SEMICOLON) {
                return Err(Stop::Deep(end));
            }
            return Err(Stop::Wrong(end));
        };
        let closed = self.closed(Read { value: right, end }, SEMICOLON)?;
        self.whole(at, closed.end, 0, St::Return(Some(closed.value)))
    }

    /// An `if`, with room for so many nodes inside it. An `else` belongs to the nearest `if`.
    #[cycle(statement)]
    fn conditional(&self, at: usize, room: u32) -> Result<Read<Stmt>, Stop>
        requires short { length self.now.toks.now < 2 ^ 32 }
        requires word { StandsAt self.now.toks.now at terminal.if_word }
        ensures bounds { IfOk result (λ r. (at < r.end) × (r.end ≤ length self.now.toks.now)) }
        ensures read { IfOk result (λ r. Reads self.now.toks.now
            (room + 1) symbol.statement at r.end (trees.statement_of r.value)) }
        ensures stopped { IfErr result
            (λ e. Stopped self.now.toks.now (room + 1) symbol.statement at e) }
    {
        let open = self.symbol(at + 1, PAREN)?;
        let test = self.expr(open.end, room)?;
        let close = self.closed(test, END_PAREN)?;
        let (test, first) = with_ok(close.value, self.statement(close.end, room))?;
        let held = first.end - close.end;
        if !is_word(self.toks, first.end, ELSE_WORD) {
            let kind = St::If(test, first.value, None);
            return self.whole(at, first.end, held, kind);
        }
        let kept = (test, first.value);
        let (kept, second) = with_ok(kept, self.statement(first.end + 1, room))?;
        let both = held + (second.end - first.end - 1);
        let kind = St::If(kept.0, kept.1, Some(second.value));
        self.whole(at, second.end, both, kind)
    }
}

/// How a statement with this symbol first begins.
fn first_by_symbol(symbol: u8) -> Option<First>
    ensures some { IfSome result (λ f. token_of f ≡ sym symbol) }
    ensures none { IfNone result (has begins_statement (sym symbol) ≡ false) }
{
    match symbol {
        SEMICOLON => Some(First::Semicolon),
        BRACE => Some(First::Brace),
        _ => None,
    }
}

/// How a statement with this word first begins.
fn first_by_word(word: u8) -> Option<First>
    ensures some { IfSome result (λ f. token_of f ≡ key word) }
    ensures none { IfNone result (has begins_statement (key word) ≡ false) }
{
    match word {
        IF_WORD => Some(First::If),
        WHILE_WORD => Some(First::While),
        DO_WORD => Some(First::Do),
        FOR_WORD => Some(First::For),
        RETURN_WORD => Some(First::Return),
        BREAK_WORD => Some(First::Break),
        CONTINUE_WORD => Some(First::Continue),
        PAR_WORD => Some(First::Par),
        SELECT_WORD => Some(First::Select),
        MASTER_WORD => Some(First::Master),
        SLAVE_WORD => Some(First::Slave),
        _ => None,
    }
}

/// Whether a token that an output can go on with behind a name stands at a place.
fn sends(toks: &[Tok], at: usize) -> bool
    ensures yes { IsTrue result → OneOf toks.now at (terminal.sends ∷ terminal.at_sign ∷ []) }
    ensures no { (result ≡ false) → OneOf toks.now at (terminal.sends ∷ terminal.at_sign ∷ []) → ⊥ }
{
    is_symbol(toks, at, SENDS) || is_symbol(toks, at, AT_SIGN)
}

/// Whether a token that an input can go on with behind a name stands at a place.
fn receives(toks: &[Tok], at: usize) -> bool
    ensures yes { IsTrue result → OneOf toks.now at (terminal.receives ∷ terminal.when_word ∷ []) }
    ensures no { (result ≡ false) →
        OneOf toks.now at (terminal.receives ∷ terminal.when_word ∷ []) → ⊥ }
{
    is_symbol(toks, at, RECEIVES) || is_word(toks, at, WHEN_WORD)
}

/// Whether a token that an assignment can go on with behind a name stands at a place.
fn assigns(toks: &[Tok], at: usize) -> bool
    ensures yes { IsTrue result → OneOf toks.now at assigning }
    ensures no { (result ≡ false) → OneOf toks.now at assigning → ⊥ }
{
    if at >= toks.len() {
        return false;
    }
    match &toks[at].kind {
        Kind::Sym(symbol) => assigns_by(*symbol),
        Kind::Key(_) => false,
        Kind::Name(_) => false,
        Kind::Num(..) => false,
    }
}

/// Whether an assignment can go on with this symbol behind a name: `[`, `=`, `++`, `--`, or an operator and `=`.
fn assigns_by(symbol: u8) -> bool
    ensures { result ≡ has assigning (sym symbol) }
{
    match symbol {
        BRACKET => true,
        EQUALS => true,
        PLUS_PLUS | MINUS_MINUS => true,
        37 | 38 | 39 | 40 | 41 | 42 | 43 | 44 | 45 | 46 => true,
        _ => false,
    }
}
