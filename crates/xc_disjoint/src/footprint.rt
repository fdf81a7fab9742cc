ghost use Rattle.std.specs.Prelude.{◌≡◌, ◌<◌, slice_get, Some, Decides, OnOk};
ghost use Rattle.indexmap.specs.IndexSet.{index_set_len};
ghost use Rattle.xc_disjoint.specs.Behind.{ClashesAt};
ghost use Rattle.xc_disjoint.specs.Footprints.{Meet, both, change_of, members, nothing, of_resource, read_of, uses_in, with_all, with_one};
ghost use Rattle.xc_tree.specs.Least.{IsLeastOf};

use indexmap::IndexSet;
use std::alloc::Global;
use std::mem;
use xc_kernel::KRes;
use xw_words::{Broken, Memory, Pos};

/// What some statements use beside channels: the variables, and which of these they change, the ports and the timers.
#[derive(Drop)]
pub struct Footprint {
    pub used: IndexSet<u32>,
    pub changed: IndexSet<u32>,
    pub ports: IndexSet<u32>,
    pub timers: IndexSet<u32>,
}

impl Footprint {
    /// Nothing is used.
    pub fn new(alloc: Global) -> Footprint
        ensures { uses_in result ≡ nothing }
    {
        Footprint {
            used: IndexSet::new(alloc),
            changed: IndexSet::new(alloc),
            ports: IndexSet::new(alloc),
            timers: IndexSet::new(alloc),
        }
    }

    /// A variable is read.
    pub fn read(&mut self, variable: u32) -> Result<(), Memory>
        ensures { OnOk result (uses_in self.new ≡ both (uses_in self.old) (read_of variable)) }
    {
        insert(&mut self.used, variable)
    }

    /// A variable is changed, which is a use too.
    pub fn change(&mut self, variable: u32) -> Result<(), Memory>
        ensures { OnOk result (uses_in self.new ≡ both (uses_in self.old) (change_of variable)) }
    {
        insert(&mut self.used, variable)?;
        insert(&mut self.changed, variable)
    }

    /// A port, a timer or a channel is used.
    pub fn take(&mut self, resource: KRes) -> Result<(), Memory>
        ensures { OnOk result (uses_in self.new ≡ both (uses_in self.old) (of_resource resource)) }
    {
        match resource {
            KRes::Port(port) => insert(&mut self.ports, port),
            KRes::Timer(timer) => insert(&mut self.timers, timer),
            KRes::Chan(_) => Ok(()),
        }
    }

    /// What other statements use is used too. It goes through the smaller of both sets of each kind; the other footprint is of no use then.
    pub fn join(&mut self, other: &mut Footprint) -> Result<(), Memory>
        ensures { OnOk result (uses_in self.new ≡ both (uses_in self.old) (uses_in other.old)) }
    {
        insert_all(&mut self.used, &mut other.used)?;
        insert_all(&mut self.changed, &mut other.changed)?;
        insert_all(&mut self.ports, &mut other.ports)?;
        insert_all(&mut self.timers, &mut other.timers)
    }

    /// The least of the rules that a branch at this place breaks by what it uses, where its earlier ones use this.
    pub fn clash(&self, later: &Footprint, pos: Pos) -> Option<Broken>
        ensures { IsLeastOf (ClashesAt (uses_in self.now) (uses_in later.now) pos) result }
    {
        if meet(&self.changed, &later.used) {
            Some(Broken { rule: 601, pos })
        } else if meet(&self.used, &later.changed) {
            Some(Broken { rule: 601, pos })
        } else if meet(&self.ports, &later.ports) {
            Some(Broken { rule: 602, pos })
        } else if meet(&self.timers, &later.timers) {
            Some(Broken { rule: 606, pos })
        } else {
            None
        }
    }
}

/// Whether two sets have a number in common. It goes through the smaller.
fn meet(numbers: &IndexSet<u32>, others: &IndexSet<u32>) -> bool
    ensures { Decides result (Meet numbers.now.keys others.now.keys) }
{
    !numbers.is_disjoint(others)
}

fn insert(numbers: &mut IndexSet<u32>, number: u32) -> Result<(), Memory>
    ensures { OnOk result (members numbers.new.keys ≡ with_one (members numbers.old.keys) number) }
{
    match numbers.insert(number) {
        Ok(_) => Ok(()),
        Err(_) => Err(Memory),
    }
}

/// Has the numbers of two sets in the first, which takes the place of the second where that is the larger.
fn insert_all(numbers: &mut IndexSet<u32>, others: &mut IndexSet<u32>) -> Result<(), Memory>
    ensures { OnOk result
        (members numbers.new.keys ≡ with_all (members numbers.old.keys) (members others.old.keys)) }
{
    if numbers.len() < others.len() {
        mem::swap(numbers, others);
    }
    insert_each(numbers, others)
}

fn insert_each(numbers: &mut IndexSet<u32>, others: &IndexSet<u32>) -> Result<(), Memory>
    ensures { OnOk result
        (members numbers.new.keys ≡ with_all (members numbers.old.keys) (members others.now.keys)) }
{
    for at in 0..others.len() {
        insert(numbers, number_at(others, at))?;
    }
    Ok(())
}

fn number_at(numbers: &IndexSet<u32>, at: usize) -> u32
    requires { at < index_set_len numbers.now }
    ensures { slice_get numbers.now.keys at ≡ Some result }
{
    match numbers.get_index(at) {
        Some(number) => *number,
        None => unreachable!(),
    }
}
