ghost use Rattle.std.specs.Prelude.{◌≡◌, ◌<◌, ◌^◌, IfOk};
ghost use Rattle.xc_kernel.specs.Numbering as spec;
ghost use Rattle.xc_kernel.specs.Copy.{Copy, numbering_in};
ghost use Rattle.xc_kernel.specs.Scopes.{Scope};
ghost use Rattle.xc_inline.specs.Copied.{copy_of};
ghost use Rattle.xc_inline.specs.Instances.{instance_count};
ghost use Rattle.xc_inline.specs.Numbers.{numbering_of};

use crate::copied::Copied;
use crate::numbers::{Numbers, each_once, place};
use indexmap::IndexSet;
use std::alloc::Global;
use xc_kernel::{Chan, Timer, Var};
use xw_words::allocation::zip_ok;
use xw_words::{List, Memory};

impl Numbers {
    /// With no instance.
    pub fn none(alloc: Global) -> Numbers
        ensures { numbering_of result ≡ spec.no_numbering }
    {
        Numbers {
            variables: Vec::new(alloc),
            channels: Vec::new(alloc),
            timers: Vec::new(alloc),
            blocks: Vec::new(alloc),
            variable_paths: IndexSet::new(alloc),
            channel_paths: IndexSet::new(alloc),
            timer_paths: IndexSet::new(alloc),
            block_paths: IndexSet::new(alloc),
        }
    }

    /// Those that a copy makes, fewer than 2^32. The one error is want of memory.
    pub fn of_copy(alloc: Global, copied: Copied) -> Result<Numbers, Memory>
        requires few { (scope : Scope) → instance_count (copy_of copied scope) < 2 ^ 32 }
        ensures { IfOk result (λ numbers. (scope : Scope) → numbering_of numbers
            ≡ numbering_in (copy_of copied scope)) }
    {
        let variables = each_once(alloc, copied.variables);
        let channels = each_once(alloc, copied.channels);
        let timers = each_once(alloc, copied.timers);
        let blocks = each_once(alloc, copied.blocks);
        let seen = zip_ok(variables, channels);
        let others = zip_ok(timers, blocks);
        let ((variables, channels), (timers, blocks)) = zip_ok(seen, others)?;
        Ok(Numbers {
            variables: variables.items,
            channels: channels.items,
            timers: timers.items,
            blocks: blocks.items,
            variable_paths: variables.paths,
            channel_paths: channels.paths,
            timer_paths: timers.paths,
            block_paths: blocks.paths,
        })
    }

    /// The variables, the channels and the timers alone.
    pub fn into_lists(self) -> (List<Var>, List<Chan>, List<Timer>)
        ensures variables { result.0 ≡ self.variables.items }
        ensures channels { result.1 ≡ self.channels.items }
        ensures timers { result.2 ≡ self.timers.items }
    {
        let Numbers {
            variables,
            channels,
            timers,
            blocks,
            variable_paths,
            channel_paths,
            timer_paths,
            block_paths,
        } = self;
        drop(blocks);
        drop(variable_paths);
        drop(channel_paths);
        drop(timer_paths);
        drop(block_paths);
        (
            List::from_vec(variables),
            List::from_vec(channels),
            List::from_vec(timers),
        )
    }

    #[tactic(auto, using(crate::proofs::Laws::PathSets::place_mapped))]
    /// The number of a variable.
    pub fn variable(&self, path: &[u32]) -> u32
        ensures { result ≡ spec.variable_number (numbering_of self.now) path.now }
    {
        place(&self.variable_paths, path)
    }

    #[tactic(auto, using(crate::proofs::Laws::PathSets::place_mapped))]
    /// The number of a channel.
    pub fn channel(&self, path: &[u32]) -> u32
        ensures { result ≡ spec.channel_number (numbering_of self.now) path.now }
    {
        place(&self.channel_paths, path)
    }

    #[tactic(auto, using(crate::proofs::Laws::PathSets::place_mapped))]
    /// The number of a timer.
    pub fn timer(&self, path: &[u32]) -> u32
        ensures { result ≡ spec.timer_number (numbering_of self.now) path.now }
    {
        place(&self.timer_paths, path)
    }

    #[tactic(auto, using(crate::proofs::Laws::PathSets::place_mapped))]
    /// The number of a block.
    pub fn block(&self, path: &[u32]) -> u32
        ensures { result ≡ spec.block_number (numbering_of self.now) path.now }
    {
        place(&self.block_paths, path)
    }
}
