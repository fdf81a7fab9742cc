#![tactic(auto, using(crate::proofs::Laws::Expressions::words))]

ghost use Rattle.std.specs.Prelude.{◌≡◌, ◌||◌, true, [], ◌∷◌, IfOk};
ghost use Rattle.xc_tree.specs.Symbols as symbols;
ghost use Rattle.xc_tree.specs.Trees as tree;
ghost use Rattle.xc_kernel.specs.Expressions as spec;
ghost use Rattle.xc_kernel.specs.Kernels as kernel;
ghost use Rattle.xc_kernel.specs.Operators as operators;
ghost use Rattle.xc_kernel.specs.Plain as plain;
ghost use Rattle.xc_kernel.specs.Scopes as scopes;
ghost use Rattle.xc_kernel.specs.Types as types;
ghost use Rattle.xc_inline.specs.Numbers.{numbering_of};
ghost use Rattle.xc_inline.specs.Scopes.{entity_found, scope_of};

use crate::entities::{
    array_number, elements_are_unsigned, name_is_unsigned, place_of_name, word_of_name,
};
use crate::numbers::Numbers;
use crate::operators::{operation_is_unsigned, operator_of, result_is_unsigned, sign_is_unsigned};
use crate::scope::{Entity, Scope};
use std::alloc::Global;
use xc_kernel::{Kx, Place};
use xc_tree::symbols::{BRACKET, QUESTION};
use xc_tree::{Ex, Expr};
use xw_words::allocation::{boxed, one, three, two, with_ok, zip_ok};
use xw_words::{Memory, Pos};

/// An expression of the kernel, and whether it is an `unsigned` word.
#[derive(Drop)]
pub struct Typed {
    pub value: Kx,
    pub unsigned: bool,
}

/// The kernel's expression for one of the program. The one error is want of memory.
#[cycle(word)]
pub fn word(alloc: Global, numbers: &Numbers, scope: &Scope, e: &Expr) -> Result<Typed, Memory>
    ensures value { IfOk result (λ w. kernel.expression_of w.value ≡ spec.expression_in
        (numbering_of numbers.now) (scope_of scope.now) (tree.expression_of e.now)) }
    ensures unsigned { IfOk result
        (λ w. w.unsigned ≡ scopes.is_unsigned (scope_of scope.now) (tree.expression_of e.now)) }
{
    match &e.kind {
        Ex::Num(value, unsigned) => Ok(Typed {
            value: Kx::Num(*value),
            unsigned: *unsigned,
        }),
        Ex::Name(name) => named(alloc, numbers, scope.entity(name.as_slice()), e.pos),
        Ex::Index(name, index) => {
            let index = word(alloc, numbers, scope, index)?;
            read_element(alloc, numbers, scope.entity(name.as_slice()), index, e.pos)
        }
        Ex::Un(symbol, operand) => {
            let operand = word(alloc, numbers, scope, operand)?;
            unary(alloc, *symbol, operand, e.pos)
        }
        Ex::Bin(symbol, left, right) => {
            let left = word(alloc, numbers, scope, left);
            let right = word(alloc, numbers, scope, right);
            let (left, right) = zip_ok(left, right)?;
            binary(alloc, *symbol, left, right, e.pos)
        }
        Ex::Cond(test, first, second) => {
            let test = word(alloc, numbers, scope, test);
            let first = word(alloc, numbers, scope, first);
            let second = word(alloc, numbers, scope, second);
            let choices = zip_ok(first, second);
            let (test, (first, second)) = zip_ok(test, choices)?;
            choice(alloc, test, first, second, e.pos)
        }
        Ex::Cast(unsigned, operand) => {
            let operand = word(alloc, numbers, scope, operand)?;
            Ok(cast(*unsigned, operand))
        }
    }
}

/// A name alone. The one error is want of memory.
fn named(
    alloc: Global,
    numbers: &Numbers,
    entity: Option<&Entity>,
    pos: Pos,
) -> Result<Typed, Memory>
    ensures value { IfOk result (λ w. kernel.expression_of w.value
        ≡ spec.word_of_entity (numbering_of numbers.now) pos (entity_found entity.entry)) }
    ensures unsigned { IfOk result (λ w. w.unsigned
        ≡ types.word_is_unsigned (scopes.type_of_entity (entity_found entity.entry))) }
{
    let value = word_of_name(alloc, numbers, entity, pos)?;
    Ok(Typed {
        value,
        unsigned: name_is_unsigned(entity),
    })
}

/// An element of the array that a name stands for. The one error is want of memory.
fn read_element(
    alloc: Global,
    numbers: &Numbers,
    entity: Option<&Entity>,
    index: Typed,
    pos: Pos,
) -> Result<Typed, Memory>
    ensures value { IfOk result (λ w. kernel.expression_of w.value
        ≡ plain.read (plain.element (spec.array_number (numbering_of numbers.now)
        (entity_found entity.entry)) (kernel.expression_of index.value) pos)) }
    ensures unsigned { IfOk result (λ w. w.unsigned
        ≡ types.elements_are_unsigned (scopes.type_of_entity (entity_found entity.entry))) }
{
    let place = element(alloc, array_number(numbers, entity), index.value, pos)?;
    Ok(Typed {
        value: Kx::Read(place),
        unsigned: elements_are_unsigned(entity),
    })
}

/// A word as one that is `unsigned`, or isn't.
fn cast(unsigned: bool, operand: Typed) -> Typed
    ensures value { result.value ≡ operand.value }
    ensures unsigned { result.unsigned ≡ unsigned }
{
    Typed {
        value: operand.value,
        unsigned,
    }
}

/// An operator before an expression. The one error is want of memory.
fn unary(alloc: Global, symbol: u8, operand: Typed, pos: Pos) -> Result<Typed, Memory>
    ensures value { IfOk result
        (λ w. kernel.expression_of w.value ≡ plain.operation symbol operand.unsigned
        (spec.one_operand (kernel.expression_of operand.value)) pos) }
    ensures unsigned { IfOk result (λ w. w.unsigned
        ≡ types.sign_is_unsigned (operators.operator_at symbol) operand.unsigned) }
{
    let unsigned = operand.unsigned;
    let operands = one(alloc, operand.value)?;
    Ok(Typed {
        value: Kx::Op(symbol, unsigned, operands, pos),
        unsigned: sign_is_unsigned(symbol, unsigned),
    })
}

/// An operator between two expressions. The one error is want of memory.
pub fn binary(
    alloc: Global,
    symbol: u8,
    left: Typed,
    right: Typed,
    pos: Pos,
) -> Result<Typed, Memory>
    ensures value { IfOk result
        (λ w. kernel.expression_of w.value ≡ plain.operation symbol (types.operation_is_unsigned
        (operators.operator_at symbol) left.unsigned right.unsigned) (spec.two_operands
        (kernel.expression_of left.value) (kernel.expression_of right.value)) pos) }
    ensures unsigned { IfOk result (λ w. w.unsigned
        ≡ types.result_is_unsigned (operators.operator_at symbol) left.unsigned right.unsigned) }
{
    let operation = operation_is_unsigned(symbol, left.unsigned, right.unsigned);
    let unsigned = result_is_unsigned(symbol, left.unsigned, right.unsigned);
    let operands = two(alloc, left.value, right.value)?;
    Ok(Typed {
        value: Kx::Op(symbol, operation, operands, pos),
        unsigned,
    })
}

/// `? :`. The one error is want of memory.
fn choice(
    alloc: Global,
    test: Typed,
    first: Typed,
    second: Typed,
    pos: Pos,
) -> Result<Typed, Memory>
    ensures value { IfOk result (λ w. kernel.expression_of w.value
        ≡ plain.operation symbols.question (first.unsigned || second.unsigned)
        (plain.more_operands (kernel.expression_of test.value) (spec.two_operands
        (kernel.expression_of first.value) (kernel.expression_of second.value))) pos) }
    ensures unsigned { IfOk result (λ w. w.unsigned ≡ (first.unsigned || second.unsigned)) }
{
    let unsigned = first.unsigned || second.unsigned;
    let operands = three(alloc, test.value, first.value, second.value)?;
    Ok(Typed {
        value: Kx::Op(QUESTION, unsigned, operands, pos),
        unsigned,
    })
}

/// The place of an expression that can be assigned to. The one error is want of memory.
pub fn place(alloc: Global, numbers: &Numbers, scope: &Scope, e: &Expr) -> Result<Place, Memory>
    ensures { IfOk result (λ p. kernel.place_of p ≡ spec.kernel_place (numbering_of numbers.now)
        (scope_of scope.now) (tree.expression_of e.now)) }
{
    match &e.kind {
        Ex::Num(_, _) => Ok(Place::Word(0)),
        Ex::Name(name) => place_of_name(alloc, numbers, scope.entity(name.as_slice()), e.pos),
        Ex::Index(name, index) => {
            let array = array_number(numbers, scope.entity(name.as_slice()));
            let index = word(alloc, numbers, scope, index)?;
            element(alloc, array, index.value, e.pos)
        }
        Ex::Un(_, _) => Ok(Place::Word(0)),
        Ex::Bin(_, _, _) => Ok(Place::Word(0)),
        Ex::Cond(_, _, _) => Ok(Place::Word(0)),
        Ex::Cast(_, _) => Ok(Place::Word(0)),
    }
}

/// What an operator stores that assigns to a place. The one error is want of memory.
pub fn updated(
    alloc: Global,
    numbers: &Numbers,
    scope: &Scope,
    to: &Expr,
    symbol: u8,
    pos: Pos,
    right: Typed,
) -> Result<Kx, Memory>
    ensures { IfOk result (λ e. kernel.expression_of e ≡ spec.updated (numbering_of numbers.now)
        (scope_of scope.now) (tree.expression_of to.now) symbol pos right.unsigned
        (kernel.expression_of right.value)) }
{
    let left = word(alloc, numbers, scope, to);
    let (right, left) = with_ok(right, left)?;
    let stored = binary(alloc, operator_of(symbol), left, right, pos)?;
    Ok(stored.value)
}

/// The test of an index that stands alone: it gives the index, where that is below the array's length. The one error is want
/// of memory.
pub fn index_test(alloc: Global, index: Kx, words: u32, pos: Pos) -> Result<Kx, Memory>
    ensures { IfOk result (λ e. kernel.expression_of e ≡ plain.operation symbols.bracket true
        (spec.two_operands (kernel.expression_of index) (plain.number words)) pos) }
{
    let operands = two(alloc, index, Kx::Num(words))?;
    Ok(Kx::Op(BRACKET, true, operands, pos))
}

/// An element of an array.
pub fn element(alloc: Global, array: u32, index: Kx, pos: Pos) -> Result<Place, Memory>
    ensures { IfOk result
        (λ p. kernel.place_of p ≡ plain.element array (kernel.expression_of index) pos) }
{
    let index = boxed(alloc, index)?;
    Ok(Place::Elem(array, index, pos))
}
