ghost use Rattle.std.specs.Prelude.{◌≡◌, ℕ, List, false, IfOk, OnOk};
ghost use Rattle.xc_tree.specs.Names.Ports as spec;
ghost use Rattle.xw_words.specs.Ports.{identifiers};
ghost use Rattle.xc_tree.specs.Trees as tree;
ghost use Rattle.xc_tree.specs.Trees.{item_of, program_of};
ghost use Rattle.xc_tree.specs.Least.{IsLeastOf};
ghost use Rattle.xc_names.specs.PortRules.{HasWrongPort, rule_of, rule_of_item, Takes, TakesItem};
ghost use Rattle.xc_names.specs.Taken.{is_among as among, is_taken, texts};

use crate::taken::Taken;
use std::alloc::Global;
use xc_tree::symbols::{MINUS, PLUS, STAR};
use xc_tree::{Ex, Expr, Item, PortItem, Tree, earlier};
use xw_words::{Broken, IDENTIFIERS, Memory};

/// The first port that breaks rule 303.
pub fn broken_port(alloc: Global, tree: &Tree) -> Result<Option<Broken>, Memory>
    ensures { IfOk result (λ best. IsLeastOf (HasWrongPort (program_of tree.now)) best) }
{
    let mut taken = Taken::new(alloc);
    let broken = look_at_all(&mut taken, tree);
    drop(taken);
    broken
}

/// Looks at all items, where no identifier is taken yet.
fn look_at_all<'a>(taken: &mut Taken<'a>, tree: &'a Tree) -> Result<Option<Broken>, Memory>
    requires { (t : List ℕ) (core : ℕ) → is_taken taken.old t core ≡ false }
    ensures { IfOk result (λ best. IsLeastOf (HasWrongPort (program_of tree.now)) best) }
{
    let mut best = None;
    for item in tree.items.as_slice() {
        best = earlier(best, look_at(taken, item)?);
    }
    Ok(best)
}

/// Looks at one more item.
fn look_at<'a>(taken: &mut Taken<'a>, item: &'a Item) -> Result<Option<Broken>, Memory>
    ensures rule { IfOk result (λ r. r ≡ rule_of_item (is_taken taken.old) (item_of item.now)) }
    ensures taken { OnOk result
        (TakesItem (is_taken taken.old) (item_of item.now) (is_taken taken.new)) }
{
    match item {
        Item::Func(_) => Ok(None),
        Item::Port(port) => {
            let rule = look_at_port(taken, port)?;
            Ok(rule)
        }
    }
}

fn look_at_port<'a>(taken: &mut Taken<'a>, port: &'a PortItem) -> Result<Option<Broken>, Memory>
    ensures rule { IfOk result (λ r. r ≡ rule_of (is_taken taken.old) (tree.port_of port.now)) }
    ensures taken { OnOk result
        (Takes (is_taken taken.old) (tree.port_of port.now) (is_taken taken.new)) }
{
    let identifier = port.ident.text.as_slice();
    let is_free = match core_of_port(port) {
        None => true,
        Some(core) => taken.take(identifier, core)?,
    };
    if is_identifier(identifier) && is_free {
        Ok(None)
    } else {
        Ok(Some(Broken {
            rule: 303,
            pos: port.ident.pos,
        }))
    }
}

/// Whether this is the identifier of a port.
#[tactic(auto, unfolding(xw_words::specs::Ports::identifiers))]
fn is_identifier(text: &[u8]) -> bool
    ensures { result ≡ among identifiers text.now }
{
    is_among(&IDENTIFIERS, text)
}

/// Whether a row of bytes is one of some.
fn is_among(table: &[&[u8]], text: &[u8]) -> bool
    ensures { result ≡ among (texts table.now) text.now }
{
    for row in table {
        if *row == text {
            return true;
        }
    }
    false
}

/// The core of a port, where its place is made of numbers, `+`, `-`, `*` and brackets: 0 where it isn't placed.
fn core_of_port(port: &PortItem) -> Option<u32>
    ensures { result ≡ spec.core_of_port (tree.port_of port.now) }
{
    match &port.place {
        None => Some(0),
        Some(place) => place_number(&place.value),
    }
}

/// The number of a place, as a word, where it is made of numbers, `+`, `-`, `*` and brackets.
#[tactic(auto, using(xc_tree::proofs::Forms::forms))]
fn place_number(e: &Expr) -> Option<u32>
    ensures { result ≡ spec.place_number (tree.expression_of e.now) }
{
    match &e.kind {
        Ex::Num(value, _) => Some(*value),
        Ex::Name(_) => None,
        Ex::Index(_, _) => None,
        Ex::Un(symbol, operand) => by_sign(*symbol, place_number(operand)),
        Ex::Bin(symbol, left, right) => {
            by_operator(*symbol, place_number(left), place_number(right))
        }
        Ex::Cond(_, _, _) => None,
        Ex::Cast(_, _) => None,
    }
}

fn by_sign(symbol: u8, operand: Option<u32>) -> Option<u32>
    ensures { result ≡ spec.by_sign symbol operand }
{
    if symbol == PLUS {
        return operand;
    }
    if symbol == MINUS {
        return match operand {
            None => None,
            Some(a) => Some(a.wrapping_neg()),
        };
    }
    None
}

fn by_operator(symbol: u8, left: Option<u32>, right: Option<u32>) -> Option<u32>
    ensures { result ≡ spec.by_operator symbol left right }
{
    let (Some(a), Some(b)) = (left, right) else {
        return None;
    };
    if symbol == PLUS {
        return Some(a.wrapping_add(b));
    }
    if symbol == MINUS {
        return Some(a.wrapping_sub(b));
    }
    if symbol == STAR {
        return Some(a.wrapping_mul(b));
    }
    None
}
