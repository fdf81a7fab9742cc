ghost use Rattle.std.specs.Prelude.{◌≡◌, ◌+◌, ◌<◌, ◌≤◌, ◌^◌, length, map, IfOk, OnOk, not};
ghost use Rattle.xc_kernel.specs.Numbering.{path_of_variable, path_of_channel, path_of_timer, path_of_block};
ghost use Rattle.xc_kernel.specs.Paths as spec_paths;
ghost use Rattle.xc_kernel.specs.Paths.{Path, place_of_path, has_path, with_new};
ghost use Rattle.xc_inline.specs.PathSets.{itself, paths_in};

use indexmap::IndexSet;
use std::alloc::Global;
use std::collections::VecDeque;
use xc_kernel::{Chan, Timer, Var};
use xw_words::allocation::{push, then_ok};
use xw_words::{List, Memory};

/// What has a path.
pub trait HasPath {
    ghost path_of: { Self → Path };

    /// The path.
    fn path(&self) -> &[u32]
        ensures { result.now ≡ path_of self.now };
}

impl HasPath for Var {
    ghost path_of = { path_of_variable };

    fn path(&self) -> &[u32] {
        self.path.as_slice()
    }
}

impl HasPath for Chan {
    ghost path_of = { path_of_channel };

    fn path(&self) -> &[u32] {
        self.path.as_slice()
    }
}

impl HasPath for Timer {
    ghost path_of = { path_of_timer };

    fn path(&self) -> &[u32] {
        self.path.as_slice()
    }
}

impl HasPath for List<u32> {
    ghost path_of = { path_of_block };

    fn path(&self) -> &[u32] {
        self.as_slice()
    }
}

/// Instances, each path once in order of first sight, and their paths.
#[derive(Drop)]
pub struct Once<T> {
    pub items: Vec<T>,
    pub paths: IndexSet<Vec<u32>>,
}

/// Each path of fewer than 2^32 instances once. The one error is want of memory.
pub fn each_once<T: HasPath + Drop>(alloc: Global, seen: VecDeque<T>) -> Result<Once<T>, Memory>
    requires few { length seen.items < 2 ^ 32 }
    ensures items { IfOk result
        (λ once. once.items.items ≡ spec_paths.each_once T.path_of seen.items) }
    ensures paths { IfOk result (λ once. paths_in once.paths ≡ map T.path_of once.items.items) }
    ensures few { IfOk result (λ once. length (paths_in once.paths) < 2 ^ 32) }
{
    let mut once = Once {
        items: Vec::new(alloc),
        paths: IndexSet::new(alloc),
    };
    let kept = keep_all(alloc, &mut once, seen);
    then_ok(kept, once)
}

/// Keeps each instance whose path is new. The one error is want of memory.
fn keep_all<T: HasPath + Drop>(
    alloc: Global,
    once: &mut Once<T>,
    mut seen: VecDeque<T>,
) -> Result<(), Memory>
    requires { paths_in once.old.paths ≡ map T.path_of once.old.items.items }
    ensures items { OnOk result
        (once.new.items.items ≡ spec_paths.with_all T.path_of once.old.items.items seen.items) }
    ensures paths { OnOk result (paths_in once.new.paths ≡ map T.path_of once.new.items.items) }
    ensures few { OnOk result (length (paths_in once.new.paths)
        ≤ length (paths_in once.old.paths) + length seen.items) }
{
    'sights: while let Some(instance) = seen.pop_front() {
        keep(alloc, once, instance)?;
    }
    Ok(())
}

/// Keeps an instance, if its path is new. The one error is want of memory.
#[tactic(auto, using(crate::proofs::Laws::PathSets::kept_new, crate::proofs::Laws::PathSets::kept_known, crate::proofs::Laws::PathSets::one_more))]
fn keep<T: HasPath + Drop>(alloc: Global, once: &mut Once<T>, instance: T) -> Result<(), Memory>
    requires { paths_in once.old.paths ≡ map T.path_of once.old.items.items }
    ensures items { OnOk result
        (once.new.items.items ≡ with_new T.path_of once.old.items.items instance) }
    ensures paths { OnOk result (paths_in once.new.paths ≡ map T.path_of once.new.items.items) }
    ensures few { OnOk result
        (length (paths_in once.new.paths) ≤ length (paths_in once.old.paths) + 1) }
{
    if !add(alloc, &mut once.paths, instance.path())? {
        return Ok(());
    }
    push(&mut once.items, instance)
}

#[tactic(auto, using(crate::proofs::Laws::PathSets::path_added, crate::proofs::Laws::PathSets::has_is))]
/// Adds a path, and says whether it is new. The one error is want of memory.
fn add(alloc: Global, paths: &mut IndexSet<Vec<u32>>, path: &[u32]) -> Result<bool, Memory>
    ensures paths { OnOk result
        (paths_in paths.new ≡ with_new itself (paths_in paths.old) path.now) }
    ensures new { IfOk result (λ new. new ≡ not (has_path itself (paths_in paths.old) path.now)) }
{
    let path = Vec::from_slice(alloc, path)?;
    let place = match paths.insert_full(path) {
        Ok(place) => place,
        Err(_) => return Err(Memory),
    };
    Ok(place.1)
}

#[tactic(auto, using(crate::proofs::Laws::PathSets::place_found, crate::proofs::Laws::PathSets::place_missing))]
/// The place of a path among some, or their number where it isn't there.
pub fn place(paths: &IndexSet<Vec<u32>>, path: &[u32]) -> u32
    requires few { length (paths_in paths.now) < 2 ^ 32 }
    ensures { result ≡ place_of_path itself (paths_in paths.now) path.now }
{
    match paths.get_index_of(path) {
        Some(place) => place as u32,
        None => paths.len() as u32,
    }
}

/// The instances of a kernel, by whose places it means them.
#[derive(Drop)]
pub struct Numbers {
    pub variables: Vec<Var>,
    pub channels: Vec<Chan>,
    pub timers: Vec<Timer>,
    pub blocks: Vec<List<u32>>,
    pub variable_paths: IndexSet<Vec<u32>>,
    pub channel_paths: IndexSet<Vec<u32>>,
    pub timer_paths: IndexSet<Vec<u32>>,
    pub block_paths: IndexSet<Vec<u32>>,
    ghost of_variables: { paths_in variable_paths ≡ map path_of_variable variables.items },
    ghost of_channels: { paths_in channel_paths ≡ map path_of_channel channels.items },
    ghost of_timers: { paths_in timer_paths ≡ map path_of_timer timers.items },
    ghost of_blocks: { paths_in block_paths ≡ map path_of_block blocks.items },
    ghost few_variables: { length (paths_in variable_paths) < 2 ^ 32 },
    ghost few_channels: { length (paths_in channel_paths) < 2 ^ 32 },
    ghost few_timers: { length (paths_in timer_paths) < 2 ^ 32 },
    ghost few_blocks: { length (paths_in block_paths) < 2 ^ 32 },
}
