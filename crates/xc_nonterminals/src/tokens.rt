ghost use Rattle.std.specs.Prelude.{◌≡◌, ◌↔◌, ◌⊎◌, ◌+◌, ◌<◌, ◌≤◌, length, IfSome, IfNone, IsTrue, false};
ghost use Rattle.xc_tree.specs.declared.token.Kind.TheVariants.{Key, Sym};
ghost use Rattle.xw_words.specs.declared.pos.Pos.{Pos};
ghost use Rattle.xc_tree.specs.Derives.{On};
ghost use Rattle.std.specs.Prelude.{[], ◌∷◌};
ghost use Rattle.xc_tree.specs.Symbol as symbol;
ghost use Rattle.xc_tree.specs.Symbol.{a_name};
ghost use Rattle.xc_nonterminals.specs.Follows.{OneOf};
ghost use Rattle.xc_nonterminals.specs.Reading.{Reads};
ghost use Rattle.xc_nonterminals.specs.Stops.{Stopped};
ghost use Rattle.xc_nonterminals.specs.Follows.{StandsAt};
ghost use Rattle.xc_nonterminals.specs.Follows as follows;
ghost use Rattle.xc_nonterminals.specs.Levels.{IsOperator, NoOperator};
ghost use Rattle.xc_nonterminals.specs.Levels as levels;
ghost use Rattle.xc_nonterminals.specs.Operands.{IsType, IsCast, IsBracket};
ghost use Rattle.xc_tree.specs.Symbol.{Marked};
ghost use Rattle.xc_tree.specs.Terminals as terminal;

use xc_tree::symbols::{BRACKET, PAREN, QUESTION};
use xc_tree::words::{INT_WORD, UNSIGNED_WORD};
use xc_tree::{Kind, Tok};
use xw_words::Pos;

/// Whether this symbol stands at a place.
pub fn is_symbol(toks: &[Tok], at: usize, symbol: u8) -> bool
    ensures yes { IsTrue result →
        (at < length toks.now) × ((p : Pos) × On toks.now at (Sym symbol) p) }
    ensures no { (result ≡ false) → (p : Pos) → On toks.now at (Sym symbol) p → ⊥ }
{
    if at >= toks.len() {
        return false;
    }
    match &toks[at].kind {
        Kind::Sym(s) => *s == symbol,
        Kind::Key(_) => false,
        Kind::Name(_) => false,
        Kind::Num(..) => false,
    }
}

/// Whether this word stands at a place.
pub fn is_word(toks: &[Tok], at: usize, word: u8) -> bool
    ensures yes { IsTrue result →
        (at < length toks.now) × ((p : Pos) × On toks.now at (Key word) p) }
    ensures no { (result ≡ false) → (p : Pos) → On toks.now at (Key word) p → ⊥ }
{
    if at >= toks.len() {
        return false;
    }
    match &toks[at].kind {
        Kind::Key(w) => *w == word,
        Kind::Sym(_) => false,
        Kind::Name(_) => false,
        Kind::Num(..) => false,
    }
}

/// Whether a cast begins at a place: a bracket, and a type behind it.
pub fn is_cast(toks: &[Tok], at: usize) -> bool
    ensures yes { IsTrue result → (at + 1 < length toks.now) × IsCast toks.now at }
    ensures no { (result ≡ false) → IsCast toks.now at → ⊥ }
{
    if !is_symbol(toks, at, PAREN) {
        return false;
    }
    is_type(toks, at + 1)
}

/// Whether a bracket that is no cast's stands at a place.
pub fn is_bracket(toks: &[Tok], at: usize) -> bool
    ensures yes { IsTrue result → (at < length toks.now) × IsBracket toks.now at }
    ensures no { (result ≡ false) → IsBracket toks.now at → ⊥ }
{
    if !is_symbol(toks, at, PAREN) {
        return false;
    }
    !is_type(toks, at + 1)
}

/// Whether `int` or `unsigned` stands at a place.
pub fn begins_type(toks: &[Tok], at: usize) -> bool
    ensures within { IsTrue result → at < length toks.now }
    ensures yes { IsTrue result →
        OneOf toks.now at (terminal.int_word ∷ terminal.unsigned_word ∷ []) }
    ensures no { (result ≡ false) →
        OneOf toks.now at (terminal.int_word ∷ terminal.unsigned_word ∷ []) → ⊥ }
{
    is_word(toks, at, INT_WORD) || is_word(toks, at, UNSIGNED_WORD)
}

/// Whether `int` or `unsigned` stands at a place, and which.
fn is_type(toks: &[Tok], at: usize) -> bool
    ensures yes { IsTrue result → (at < length toks.now) × IsType toks.now at }
    ensures no { (result ≡ false) → IsType toks.now at → ⊥ }
{
    if is_word(toks, at, INT_WORD) {
        return true;
    }
    is_word(toks, at, UNSIGNED_WORD)
}

/// Whether a symbol may stand before an operand.
pub fn is_sign(symbol: u8) -> bool
    ensures { IsTrue result ↔ ((13 ≤ symbol) × (symbol ≤ 16)) }
{
    13 <= symbol && symbol <= 16
}

/// An operator between operands, by its place in `SYMBOLS`: its level, from 1 on for those that bind most strongly, and
/// where it stands.
#[derive(Clone, Copy)]
pub struct Operator {
    pub symbol: u8,
    pub level: u8,
    pub pos: Pos,
}

/// The levels of the symbols as operators, and 0 for those that are none.
const LEVELS: [u8; 47] = [
    0, 0, 0, 0, 0, 0, 0, 0, 0, 0, 6, 8, 7, 0, 0, 2, 2, 1, 1, 1, 4, 4, 0, 0, 0, 0, 0, 5, 5, 4, 4, 9,
    10, 3, 3, 0, 0, 0, 0, 0, 0, 0, 0, 0, 0, 0, 0,
];

/// The operator at a place, where it binds at least as strongly as those of a level.
pub fn operator_at(toks: &[Tok], at: usize, weakest: u8) -> Option<Operator>
    ensures some { IfSome result
        (λ o. (at < length toks.now) × (0 < o.level) × (o.level ≤ weakest)) }
    ensures is { IfSome result
        (λ o. IsOperator toks.now at o.level (record { mark = o.symbol; pos = o.pos })) }
    ensures none { IfNone result (NoOperator toks.now at weakest) }
{
    if at >= toks.len() {
        return None;
    }
    let tok = &toks[at];
    match &tok.kind {
        Kind::Sym(symbol) => {
            let level = level_of(*symbol);
            if level == 0 || level > weakest {
                return None;
            }
            Some(Operator {
                symbol: *symbol,
                level,
                pos: tok.pos,
            })
        }
        Kind::Key(_) => None,
        Kind::Name(_) => None,
        Kind::Num(..) => None,
    }
}

/// The level of an operator between operands, and 0 for any other symbol.
fn level_of(symbol: u8) -> u8
    ensures { result ≡ levels.level_of symbol }
{
    if symbol >= 47 {
        return 0;
    }
    LEVELS[symbol as usize]
}

/// Whether a name stands at a place.
pub fn is_name(toks: &[Tok], at: usize) -> bool
    ensures yes { IsTrue result → (at < length toks.now) × StandsAt toks.now at symbol.a_name }
    ensures no { (result ≡ false) → StandsAt toks.now at symbol.a_name → ⊥ }
{
    if at >= toks.len() {
        return false;
    }
    match &toks[at].kind {
        Kind::Name(_) => true,
        Kind::Sym(_) => false,
        Kind::Key(_) => false,
        Kind::Num(..) => false,
    }
}

/// Whether a token that an expression can begin with stands at a place.
pub fn begins_operand(toks: &[Tok], at: usize) -> bool
    ensures yes { IsTrue result →
        (at < length toks.now) × OneOf toks.now at follows.begins_operand }
    ensures no { (result ≡ false) → OneOf toks.now at follows.begins_operand → ⊥ }
{
    if at >= toks.len() {
        return false;
    }
    match &toks[at].kind {
        Kind::Name(_) => true,
        Kind::Num(..) => true,
        Kind::Sym(symbol) => begins_operand_as(*symbol),
        Kind::Key(_) => false,
    }
}

/// Whether an expression can begin with a symbol.
fn begins_operand_as(symbol: u8) -> bool
    ensures { IsTrue result ↔ ((symbol ≡ 0) ⊎ ((13 ≤ symbol) × (symbol ≤ 16))) }
{
    if symbol == PAREN {
        return true;
    }
    is_sign(symbol)
}

/// Whether a token that an expression can go on with stands at a place: an operator, `?` or `[`.
pub fn goes_on(toks: &[Tok], at: usize) -> bool
    ensures yes { IsTrue result →
        (at < length toks.now) × OneOf toks.now at follows.after_expression }
    ensures no { (result ≡ false) → OneOf toks.now at follows.after_expression → ⊥ }
{
    if let Some(_) = operator_at(toks, at, 10) {
        return true;
    }
    if is_symbol(toks, at, QUESTION) {
        return true;
    }
    is_symbol(toks, at, BRACKET)
}
