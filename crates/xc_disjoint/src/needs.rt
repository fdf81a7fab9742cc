ghost use Rattle.std.specs.Prelude.{◌≡◌, map, sum_by, Decides};
ghost use Rattle.xc_disjoint.specs.Needs.{ends_on, threads_of_root, threads_on, timers_of, timers_on, words_of_instance as instance_needs, words_of_variable as variable_needs, words_on};
ghost use Rattle.xc_disjoint.specs.RootUses.{seen_in, seen_of};
ghost use Rattle.xc_disjoint.specs.Rules.{IsAbove, most_ends, most_threads, most_timers, most_words};
ghost use Rattle.xc_disjoint.specs.Sums.{capped, some_above};
ghost use Rattle.xc_disjoint.specs.UseTables.{shares_in};
ghost use Rattle.xc_disjoint.specs.Uses.{no_shares, with_branches};
ghost use Rattle.xc_kernel.specs.Branches.{branches_of};
ghost use Rattle.xc_kernel.specs.Kernels.{kernel_of, root_of};

use crate::channels::Channels;
use crate::ends::ends_on as core_ends;
use crate::threads::of_sequence;
use xc_kernel::{Inst, Kernel, Root, Timer, Var};

/// What a core has.
const MOST_THREADS: u64 = 8;

const MOST_ENDS: u64 = 32;

const MOST_TIMERS: u64 = 10;

const MOST_WORDS: u64 = 16_384;

/// The words of a thread's stack.
const WORDS_OF_THREAD: u64 = 512;

/// The words of a function's instance beside those of its parameters.
const WORDS_OF_INSTANCE: u64 = 4;

/// Whether some core needs too many threads.
pub fn too_many_threads(kernel: &Kernel) -> bool
    ensures { Decides result (IsAbove most_threads (threads_on (kernel_of kernel.now))) }
{
    let roots = kernel.roots.as_slice();
    let needed = [
        thread_count(roots, 0),
        thread_count(roots, 1),
        thread_count(roots, 2),
        thread_count(roots, 3),
    ];
    is_above(MOST_THREADS, &needed)
}

/// Whether some core needs too many channel ends, by how the roots use channels.
pub fn too_many_ends(channels: &Channels, kernel: &Kernel) -> bool
    requires in_roots { map seen_in channels.now.in_roots
        ≡ map seen_of (kernel_of kernel.now).roots }
    requires among_roots { shares_in channels.now.among_roots
        ≡ with_branches no_shares (branches_of (kernel_of kernel.now).roots) }
    ensures { Decides result (IsAbove most_ends (ends_on (kernel_of kernel.now))) }
{
    let count = kernel.chans.len();
    let needed = [
        core_ends(channels, 0, count),
        core_ends(channels, 1, count),
        core_ends(channels, 2, count),
        core_ends(channels, 3, count),
    ];
    is_above(MOST_ENDS, &needed)
}

/// Whether some core needs too many timers.
pub fn too_many_timers(kernel: &Kernel) -> bool
    ensures { Decides result (IsAbove most_timers (timers_on (kernel_of kernel.now))) }
{
    let timers = kernel.timers.as_slice();
    let needed = [
        core_timers(timers, 0),
        core_timers(timers, 1),
        core_timers(timers, 2),
        core_timers(timers, 3),
    ];
    is_above(MOST_TIMERS, &needed)
}

/// Whether some core needs too many words.
pub fn too_many_words(kernel: &Kernel) -> bool
    ensures { Decides result (IsAbove most_words (words_on (kernel_of kernel.now))) }
{
    let needed = [
        core_words(kernel, 0),
        core_words(kernel, 1),
        core_words(kernel, 2),
        core_words(kernel, 3),
    ];
    is_above(MOST_WORDS, &needed)
}

/// Whether one of some numbers is above a limit.
fn is_above(limit: u64, needed: &[u64]) -> bool
    ensures { result ≡ some_above limit needed.now }
{
    for number in needed {
        if *number > limit {
            return true;
        }
    }
    false
}

/// The threads that the roots on a core need: a `par` as many as its branches together, and a sequence as many as its greatest part. It is
/// 2 ^ 64 - 1 where they are more.
#[tactic(auto, unfolding(crate::specs::Sums::capped))]
pub fn thread_count(roots: &[Root], core: u8) -> u64
    ensures { result ≡ capped (sum_by (threads_of_root core) (map root_of roots.now)) }
{
    let mut sum: u64 = 0;
    for root in roots {
        sum = sum.saturating_add(root_threads(root, core));
    }
    sum
}

#[tactic(auto, unfolding(crate::specs::Sums::capped))]
fn root_threads(root: &Root, core: u8) -> u64
    ensures { result ≡ capped (threads_of_root core (root_of root.now)) }
{
    if root.core == core {
        of_sequence(root.body.as_slice())
    } else {
        0
    }
}

/// The timers on a core.
#[tactic(auto, unfolding(crate::specs::Sums::capped))]
fn core_timers(timers: &[Timer], core: u8) -> u64
    ensures { result ≡ capped (sum_by (timers_of core) timers.now) }
{
    let mut sum: u64 = 0;
    for timer in timers {
        sum = sum.saturating_add(timers_in(timer, core));
    }
    sum
}

fn timers_in(timer: &Timer, core: u8) -> u64
    ensures { result ≡ timers_of core timer.now }
{
    if timer.core == core { 1 } else { 0 }
}

/// The words that a core needs.
#[tactic(auto, unfolding(crate::specs::Sums::capped))]
fn core_words(kernel: &Kernel, core: u8) -> u64
    ensures { result ≡ capped (words_on (kernel_of kernel.now) core) }
{
    let instances = instance_words(kernel.insts.as_slice(), core);
    let variables = variable_words(kernel.vars.as_slice(), core);
    let threads = thread_count(kernel.roots.as_slice(), core);
    instances
        .saturating_add(variables)
        .saturating_add(threads.saturating_mul(WORDS_OF_THREAD))
}

/// The words of the functions' instances on a core.
#[tactic(auto, unfolding(crate::specs::Sums::capped))]
fn instance_words(instances: &[Inst], core: u8) -> u64
    ensures { result ≡ capped (sum_by (instance_needs core) instances.now) }
{
    let mut sum: u64 = 0;
    for instance in instances {
        sum = sum.saturating_add(words_of_instance(instance, core));
    }
    sum
}

fn words_of_instance(instance: &Inst, core: u8) -> u64
    ensures { result ≡ instance_needs core instance.now }
{
    if instance.core == core {
        WORDS_OF_INSTANCE + instance.params as u64
    } else {
        0
    }
}

/// The words of the variables on a core that count by themselves.
#[tactic(auto, unfolding(crate::specs::Sums::capped))]
fn variable_words(variables: &[Var], core: u8) -> u64
    ensures { result ≡ capped (sum_by (variable_needs core) variables.now) }
{
    let mut sum: u64 = 0;
    for variable in variables {
        sum = sum.saturating_add(words_of_variable(variable, core));
    }
    sum
}

fn words_of_variable(variable: &Var, core: u8) -> u64
    ensures { result ≡ variable_needs core variable.now }
{
    if variable.core == core && variable.counted {
        variable.words as u64
    } else {
        0
    }
}
