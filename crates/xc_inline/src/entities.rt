#![tactic(auto, using(crate::proofs::Laws::Expressions::words))]

ghost use Rattle.std.specs.Prelude.{◌≡◌, IfOk};
ghost use Rattle.xc_kernel.specs.Expressions as spec;
ghost use Rattle.xc_kernel.specs.Kernels as kernel;
ghost use Rattle.xc_kernel.specs.Scopes as scopes;
ghost use Rattle.xc_kernel.specs.Types as types;
ghost use Rattle.xc_inline.specs.Numbers.{numbering_of};
ghost use Rattle.xc_inline.specs.Scopes.{entity_found, entity_meant};

use crate::numbers::Numbers;
use crate::scope::Entity;
use std::alloc::Global;
use xc_kernel::{KRes, Kx, Place};
use xw_words::allocation::boxed;
use xw_words::{Memory, Pos};

/// The word that a name alone stands for. The one error is want of memory.
pub fn word_of_name(
    alloc: Global,
    numbers: &Numbers,
    entity: Option<&Entity>,
    pos: Pos,
) -> Result<Kx, Memory>
    ensures { IfOk result (λ e. kernel.expression_of e
        ≡ spec.word_of_entity (numbering_of numbers.now) pos (entity_found entity.entry)) }
{
    match entity {
        None => Ok(Kx::Read(Place::Word(0))),
        Some(Entity::Constant(value)) => Ok(Kx::Num(*value)),
        Some(entity) => Ok(Kx::Read(place_of_entity(alloc, numbers, entity, pos)?)),
    }
}

/// The place that a name alone stands for. The one error is want of memory.
pub fn place_of_name(
    alloc: Global,
    numbers: &Numbers,
    entity: Option<&Entity>,
    pos: Pos,
) -> Result<Place, Memory>
    ensures { IfOk result (λ p. kernel.place_of p
        ≡ spec.place_of_entity (numbering_of numbers.now) pos (entity_found entity.entry)) }
{
    match entity {
        None => Ok(Place::Word(0)),
        Some(entity) => place_of_entity(alloc, numbers, entity, pos),
    }
}

fn place_of_entity(
    alloc: Global,
    numbers: &Numbers,
    entity: &Entity,
    pos: Pos,
) -> Result<Place, Memory>
    ensures { IfOk result (λ p. kernel.place_of p
        ≡ spec.place_of_entity (numbering_of numbers.now) pos (entity_meant entity.now)) }
{
    match entity {
        Entity::Word(path, _) => Ok(Place::Word(numbers.variable(path.as_slice()))),
        Entity::Element(array, index, _) => {
            let index = Kx::Read(Place::Word(numbers.variable(index.as_slice())));
            let index = boxed(alloc, index)?;
            Ok(Place::Elem(numbers.variable(array.as_slice()), index, pos))
        }
        Entity::Array(_, _, _) => Ok(Place::Word(0)),
        Entity::Channel(_) => Ok(Place::Word(0)),
        Entity::Timer(_) => Ok(Place::Word(0)),
        Entity::Port(_) => Ok(Place::Word(0)),
        Entity::Constant(_) => Ok(Place::Word(0)),
        Entity::Unknown => Ok(Place::Word(0)),
    }
}

/// The variable of an array.
pub fn array_number(numbers: &Numbers, entity: Option<&Entity>) -> u32
    ensures { result ≡ spec.array_number (numbering_of numbers.now) (entity_found entity.entry) }
{
    match entity {
        Some(Entity::Array(path, _, _)) => numbers.variable(path.as_slice()),
        Some(Entity::Word(_, _)) => 0,
        Some(Entity::Element(_, _, _)) => 0,
        Some(Entity::Channel(_)) => 0,
        Some(Entity::Timer(_)) => 0,
        Some(Entity::Port(_)) => 0,
        Some(Entity::Constant(_)) => 0,
        Some(Entity::Unknown) => 0,
        None => 0,
    }
}

/// Whether a name is a word that is `unsigned`.
pub fn name_is_unsigned(entity: Option<&Entity>) -> bool
    ensures { result ≡ types.word_is_unsigned (scopes.type_of_entity (entity_found entity.entry)) }
{
    match entity {
        Some(Entity::Word(_, unsigned)) => *unsigned,
        Some(Entity::Element(_, _, unsigned)) => *unsigned,
        Some(Entity::Array(_, _, _)) => false,
        Some(Entity::Channel(_)) => false,
        Some(Entity::Timer(_)) => false,
        Some(Entity::Port(_)) => false,
        Some(Entity::Constant(_)) => false,
        Some(Entity::Unknown) => false,
        None => false,
    }
}

/// Whether a name is an array whose elements are `unsigned`.
pub fn elements_are_unsigned(entity: Option<&Entity>) -> bool
    ensures { result
        ≡ types.elements_are_unsigned (scopes.type_of_entity (entity_found entity.entry)) }
{
    match entity {
        Some(Entity::Array(_, _, unsigned)) => *unsigned,
        Some(Entity::Word(_, _)) => false,
        Some(Entity::Element(_, _, _)) => false,
        Some(Entity::Channel(_)) => false,
        Some(Entity::Timer(_)) => false,
        Some(Entity::Port(_)) => false,
        Some(Entity::Constant(_)) => false,
        Some(Entity::Unknown) => false,
        None => false,
    }
}

/// The port, timer or channel that a name stands for.
pub fn resource(numbers: &Numbers, entity: Option<&Entity>) -> KRes
    ensures { result ≡ spec.resource_of (numbering_of numbers.now) (entity_found entity.entry) }
{
    match entity {
        Some(Entity::Channel(path)) => KRes::Chan(numbers.channel(path.as_slice())),
        Some(Entity::Timer(path)) => KRes::Timer(numbers.timer(path.as_slice())),
        Some(Entity::Port(number)) => KRes::Port(*number),
        Some(Entity::Word(_, _)) => KRes::Port(0),
        Some(Entity::Array(_, _, _)) => KRes::Port(0),
        Some(Entity::Element(_, _, _)) => KRes::Port(0),
        Some(Entity::Constant(_)) => KRes::Port(0),
        Some(Entity::Unknown) => KRes::Port(0),
        None => KRes::Port(0),
    }
}
