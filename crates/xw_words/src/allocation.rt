//! Steps that want memory, and their results, for values of every type.
//!
//! A caller holds nothing that is to be dropped where it returns early, so its proof doesn't write out how to drop a value with
//! all the forms that it may have.

ghost use Rattle.std.specs.Prelude.{◌≡◌, [], ◌∷◌, ◌++◌, Ok, Err, IfOk, IfErr, OnOk};

use crate::{List, Memory};
use std::alloc::Global;
use std::collections::VecDeque;
use std::mem;

/// Two values, where both could be made.
pub fn zip_ok<A: Drop, B: Drop, E: Drop>(
    first: Result<A, E>,
    second: Result<B, E>,
) -> Result<(A, B), E>
    ensures first { IfOk result (λ r. first ≡ Ok r.0) }
    ensures second { IfOk result (λ r. second ≡ Ok r.1) }
{
    match first {
        Ok(first) => with_ok(first, second),
        Err(e) => Err(e),
    }
}

/// A value with another, where that could be made.
pub fn with_ok<A: Drop, B: Drop, E: Drop>(value: A, made: Result<B, E>) -> Result<(A, B), E>
    ensures value { IfOk result (λ r. r.0 ≡ value) }
    ensures made { IfOk result (λ r. made ≡ Ok r.1) }
    ensures failed { IfErr result (λ e. made ≡ Err e) }
{
    match made {
        Ok(made) => Ok((value, made)),
        Err(e) => Err(e),
    }
}

/// A value, where what had to be done could be done.
pub fn then_ok<T: Drop, E: Drop>(done: Result<(), E>, value: T) -> Result<T, E>
    ensures value { IfOk result (λ r. r ≡ value) }
    ensures done { IfOk result (λ r. done ≡ Ok tt) }
{
    match done {
        Ok(()) => Ok(value),
        Err(e) => Err(e),
    }
}

/// A value in memory of its own. The one error is want of memory.
pub fn boxed<T: Drop>(alloc: Global, value: T) -> Result<Box<T>, Memory>
    ensures { IfOk result (λ b. b.value ≡ value) }
{
    match Box::new(alloc, value) {
        Ok(value) => Ok(value),
        Err(_) => Err(Memory),
    }
}

/// One more item, behind the others. The one error is want of memory.
pub fn push_back<T: Drop>(items: &mut VecDeque<T>, item: T) -> Result<(), Memory>
    ensures { OnOk result (items.new.items ≡ items.old.items ++ item ∷ []) }
{
    match items.push_back(item) {
        Ok(()) => Ok(()),
        Err(_) => Err(Memory),
    }
}

/// One more item, before the others. The one error is want of memory.
pub fn push_front<T: Drop>(items: &mut VecDeque<T>, item: T) -> Result<(), Memory>
    ensures { OnOk result (items.new.items ≡ item ∷ items.old.items) }
{
    match items.push_front(item) {
        Ok(()) => Ok(()),
        Err(_) => Err(Memory),
    }
}

/// One more item, at the end. The one error is want of memory.
pub fn push<T: Drop>(items: &mut Vec<T>, item: T) -> Result<(), Memory>
    ensures { OnOk result (items.new.items ≡ items.old.items ++ item ∷ []) }
{
    match items.push(item) {
        Ok(()) => Ok(()),
        Err(_) => Err(Memory),
    }
}

/// The list of one item. The one error is want of memory.
pub fn one<T: Drop>(alloc: Global, item: T) -> Result<List<T>, Memory>
    ensures { IfOk result (λ list. list ≡ item ∷ []) }
{
    let mut list = List::new(alloc);
    let pushed = list.push(item);
    then_ok(pushed, list)
}

/// The list of two items. The one error is want of memory.
pub fn two<T: Drop>(alloc: Global, first: T, second: T) -> Result<List<T>, Memory>
    ensures { IfOk result (λ list. list ≡ first ∷ second ∷ []) }
{
    let mut list = one(alloc, first)?;
    let pushed = list.push(second);
    then_ok(pushed, list)
}

/// The list of three items. The one error is want of memory.
pub fn three<T: Drop>(alloc: Global, first: T, second: T, third: T) -> Result<List<T>, Memory>
    ensures { IfOk result (λ list. list ≡ first ∷ second ∷ third ∷ []) }
{
    let mut list = two(alloc, first, second)?;
    let pushed = list.push(third);
    then_ok(pushed, list)
}

/// The items of two queues, one behind the other, in the first; the second is left empty. The one error is want of memory.
pub fn append<T: Drop>(first: &mut VecDeque<T>, second: &mut VecDeque<T>) -> Result<(), Memory>
    ensures { OnOk result (first.new.items ≡ first.old.items ++ second.old.items) }
{
    if first.len() < second.len() {
        mem::swap(first, second);
        put_before(first, second)
    } else {
        put_behind(first, second)
    }
}

/// The items of a short queue before those of another.
fn put_before<T: Drop>(items: &mut VecDeque<T>, short: &mut VecDeque<T>) -> Result<(), Memory>
    ensures { OnOk result (items.new.items ≡ short.old.items ++ items.old.items) }
{
    'moved: while let Some(item) = short.pop_back() {
        push_front(items, item)?;
    }
    Ok(())
}

/// The items of a short queue behind those of another.
fn put_behind<T: Drop>(items: &mut VecDeque<T>, short: &mut VecDeque<T>) -> Result<(), Memory>
    ensures { OnOk result (items.new.items ≡ items.old.items ++ short.old.items) }
{
    'moved: while let Some(item) = short.pop_front() {
        push_back(items, item)?;
    }
    Ok(())
}
