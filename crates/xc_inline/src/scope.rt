ghost use Rattle.std.specs.Prelude.{◌≡◌, ◌<◌, ◌≤◌, ◌-◌, [], length, drop, IfOk, OnOk};
ghost use Rattle.xc_kernel.specs.Scopes as spec;
ghost use Rattle.xc_inline.specs.Scopes.{entity_meant, entity_found, scope_of};

use std::alloc::Global;
use xw_words::allocation::{push, zip_ok};
use xw_words::{List, Memory};

/// What a name stands for; instances are meant by their paths.
#[derive(Drop)]
pub enum Entity {
    /// A variable, or a parameter that holds a word, `unsigned` or not.
    Word(List<u32>, bool),
    /// An array, its length, and whether it is `unsigned`.
    Array(List<u32>, u32, bool),
    /// An element that an `&` parameter stands for: its array, the variable that holds the tested index, and whether it is
    /// `unsigned`.
    Element(List<u32>, List<u32>, bool),
    Channel(List<u32>),
    Timer(List<u32>),
    /// A port, by its place among the declared ones.
    Port(u32),
    /// The index of a replicated `par` in one of its branches.
    Constant(u32),
    /// What isn't declared.
    Unknown,
}

impl Entity {
    /// The same in memory of its own. The one error is want of memory.
    pub fn copy(&self, alloc: Global) -> Result<Entity, Memory>
        ensures { IfOk result (λ copy. entity_meant copy ≡ entity_meant self.now) }
    {
        match self {
            Entity::Word(path, unsigned) => Ok(Entity::Word(path.copy(alloc)?, *unsigned)),
            Entity::Array(path, words, unsigned) => {
                Ok(Entity::Array(path.copy(alloc)?, *words, *unsigned))
            }
            Entity::Element(array, index, unsigned) => {
                let (array, index) = zip_ok(array.copy(alloc), index.copy(alloc))?;
                Ok(Entity::Element(array, index, *unsigned))
            }
            Entity::Channel(path) => Ok(Entity::Channel(path.copy(alloc)?)),
            Entity::Timer(path) => Ok(Entity::Timer(path.copy(alloc)?)),
            Entity::Port(number) => Ok(Entity::Port(*number)),
            Entity::Constant(value) => Ok(Entity::Constant(*value)),
            Entity::Unknown => Ok(Entity::Unknown),
        }
    }
}

/// A name, and what it stands for.
#[derive(Drop)]
struct Binding<'a> {
    name: &'a [u8],
    entity: Entity,
}

/// The names that are known at a place, the innermost last.
#[derive(Drop)]
pub struct Scope<'a> {
    names: Vec<Binding<'a>>,
}

impl<'a> Scope<'a> {
    /// With no name.
    pub fn new(alloc: Global) -> Scope<'a>
        ensures { scope_of result ≡ [] }
    {
        Scope {
            names: Vec::new(alloc),
        }
    }

    /// How many names were declared.
    #[tactic(auto, using(crate::proofs::Laws::Scopes::declared_length))]
    pub fn len(&self) -> usize
        ensures { result ≡ length (scope_of self.now) }
    {
        self.names.len()
    }

    /// Declares a name, which hides others. The one error is want of memory.
    #[tactic(auto, using(crate::proofs::Laws::Scopes::declared_last))]
    pub fn declare(&mut self, name: &'a [u8], entity: Entity) -> Result<(), Memory>
        ensures { OnOk result (scope_of self.new
            ≡ spec.with_name (scope_of self.old) name.now (entity_meant entity)) }
    {
        push(&mut self.names, Binding { name, entity })
    }

    /// Forgets all names but the first so many.
    #[tactic(auto, using(crate::proofs::Laws::Scopes::declared_left))]
    pub fn leave(&mut self, len: usize)
        requires { len ≤ length (scope_of self.old) }
        ensures { scope_of self.new ≡ drop (length (scope_of self.old) - len) (scope_of self.old) }
    {
        self.names.truncate(len);
    }

    /// What a name stands for, if it is known.
    #[tactic(auto, using(crate::proofs::Laws::Scopes::entity_at))]
    pub fn entity(&self, name: &[u8]) -> Option<&Entity>
        ensures { entity_found result ≡ spec.entity_of (scope_of self.now) name.now }
    {
        let mut left = self.names.len();
        'outward: while 0 < left {
            left -= 1;
            let binding = &self.names[left];
            if binding.name == name {
                return Some(&binding.entity);
            }
        }
        None
    }
}
