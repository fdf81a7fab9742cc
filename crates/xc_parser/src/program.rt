//! Programs.

ghost use Rattle.std.specs.Prelude.{◌≡◌, ℕ, ◌+◌, ◌^◌, ◌<◌, ◌≤◌, List, length, map, option_map, true, false, IfOk, IfErr, IsTrue};
ghost use Rattle.xc_tree.specs.Depth.{of_program};
ghost use Rattle.xc_tree.specs.Derives.{IsProgram, deepest};
ghost use Rattle.xc_tree.specs.Parses.{BreaksRule, FirstBroken, place_at};
ghost use Rattle.xc_tree.specs.Plain as plain;
ghost use Rattle.xc_tree.specs.Refusals.{IfBroken};
ghost use Rattle.xc_tree.specs.Symbol as symbol;
ghost use Rattle.xc_tree.specs.Trees.{item_of, program_of};
ghost use Rattle.xw_words.specs.declared.pos.Broken.{Broken};
ghost use Rattle.xc_nonterminals.specs.Follows.{OneOf, first};
ghost use Rattle.xc_nonterminals.specs.Programs.{Halted};
ghost use Rattle.xc_nonterminals.specs.Reading.{Reads};
ghost use Rattle.xc_nonterminals.specs.Stops.{Stopped};

use std::alloc::Global;
use xc_nonterminals::{FunctionHead, Parser, Read, Stop, begins_type, is_symbol, is_word};
use xc_tree::symbols::SEMICOLON;
use xc_tree::words::VOID_WORD;
use xc_tree::{FuncItem, Item, Refusal, Tok, Tree};
use xw_words::{Broken, List, Pos};

/// Why tokens have no tree.
pub type ParseErr = Refusal;

/// How many nodes of a tree may stand one below the other.
const DEEPEST: u32 = 200;

/// The tree of fewer than 2^32 tokens; `end` is the place just behind their text.
///
/// Tokens that break a rule have none, and the error is the rule that they break at the least token: 201 no program goes on
/// with this token, or none ends with the text; 202 each one that goes on with it has a node, a statement or an
/// expression, more than 200 deep. The other error is that memory could not be had.
pub fn parse(alloc: Global, toks: &List<Tok>, end: Pos) -> Result<Tree, ParseErr>
    requires short { length toks.now < 2 ^ 32 }
    ensures tree { IfOk result (λ t. IsProgram toks.now (program_of t)) }
    ensures only { IfOk result (λ t. (v : List plain.Item) → IsProgram toks.now v → v
        ≡ program_of t) }
    ensures shallow { IfOk result (λ t. of_program (program_of t) ≤ deepest) }
    ensures unbroken { IfOk result (λ t. (rule i : ℕ) → BreaksRule toks.now rule i → ⊥) }
    ensures broken { IfErr result (λ e. IfBroken e (λ b. FirstBroken toks.now end b)) }
    ensures none { IfErr result (λ e.
        IfBroken e (λ b. (v : List plain.Item) → IsProgram toks.now v → deepest < of_program v)) }
{
    let parser = Parser {
        alloc,
        toks: toks.as_slice(),
    };
    match program(&parser) {
        Ok(items) => Ok(Tree { items }),
        Err(Stop::Wrong(at)) => Err(broken(&parser, 201, at, end)),
        Err(Stop::Deep(at)) => Err(broken(&parser, 202, at, end)),
        Err(Stop::Memory) => Err(ParseErr::Memory),
    }
}

/// A rule that is broken at a token, or at the end of the text.
fn broken(parser: &Parser, rule: u16, at: usize, end: Pos) -> ParseErr
    ensures { result
        ≡ Refusal.Broken (record { rule = rule; pos = place_at parser.now.toks.now end at }) }
{
    let pos = if at < parser.toks.len() {
        parser.toks[at].pos
    } else {
        end
    };
    ParseErr::Broken(Broken { rule, pos })
}

/// All items.
fn program(parser: &Parser) -> Result<List<Item>, Stop>
    requires short { length parser.now.toks.now < 2 ^ 32 }
    ensures read { IfOk result (λ items. Reads parser.now.toks.now deepest symbol.program 0
        (length parser.now.toks.now) (map item_of items)) }
    ensures stopped { IfErr result (λ e. Halted parser.now.toks.now e) }
{
    let mut items = List::new(parser.alloc);
    let mut end = 0;
    'items: while end < parser.toks.len() {
        let Read { value, end: behind } = item(parser, end)?;
        match value {
            Some(item) => items.push(item)?,
            None => {}
        }
        end = behind;
    }
    Ok(items)
}

/// A port, a function, or a prototype, which is dropped.
fn item(parser: &Parser, at: usize) -> Result<Read<Option<Item>>, Stop>
    requires short { length parser.now.toks.now < 2 ^ 32 }
    requires at { at ≤ length parser.now.toks.now }
    ensures bounds { IfOk result (λ r. (at < r.end) × (r.end ≤ length parser.now.toks.now)) }
    ensures read { IfOk result (λ r. Reads parser.now.toks.now deepest symbol.item at r.end
        (option_map item_of r.value)) }
    ensures stopped { IfErr result (λ e. Stopped parser.now.toks.now deepest symbol.item at e) }
{
    if !begins_head(parser, at) {
        let port = parser.portdecl(at, DEEPEST)?;
        return Ok(Read {
            value: Some(Item::Port(port.value)),
            end: port.end,
        });
    }
    let head = parser.head(at)?;
    if is_symbol(parser.toks, head.end, SEMICOLON) {
        return Ok(Read {
            value: None,
            end: head.end + 1,
        });
    }
    let body = parser.body(head.end, DEEPEST)?;
    let FunctionHead {
        result,
        name,
        params,
        own,
    } = head.value;
    Ok(Read {
        value: Some(Item::Func(FuncItem {
            result,
            name,
            params,
            body: body.value,
            own,
        })),
        end: body.end,
    })
}

/// Whether a token that the head of a function can begin with stands at a place.
fn begins_head(parser: &Parser, at: usize) -> bool
    ensures yes { IsTrue result → OneOf parser.now.toks.now at (first symbol.head) }
    ensures no { (result ≡ false) → OneOf parser.now.toks.now at (first symbol.head) → ⊥ }
{
    if is_word(parser.toks, at, VOID_WORD) {
        return true;
    }
    begins_type(parser.toks, at)
}
