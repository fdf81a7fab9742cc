ghost use Rattle.std.specs.Prelude.{◌≡◌, ◌<◌, ◌≤◌, ◌^◌, sum_by};
ghost use Rattle.xc_disjoint.specs.Cores.{last_core};
ghost use Rattle.xc_disjoint.specs.Needs.{threads_on, words_of_instance as instance_needs, words_of_variable as variable_needs, words_on};
ghost use Rattle.xc_disjoint.specs.Rules.{most_words};
ghost use Rattle.xc_kernel.specs.Kernels.{kernel_of};
ghost use Rattle.xl_plan.specs.Layout.{temporary_of};

use xc_disjoint::{Checked, thread_count};
use xc_kernel::{Inst, Var};

/// The temporary words of a thread.
const WORDS_OF_THREAD: u32 = 512;

/// The words of a function's instance beside those of its parameters.
const WORDS_OF_INSTANCE: u32 = 4;

/// The word where the temporary words of a core's thread begin, by the thread's number: a root's is its place among the core's roots, from 0.
/// For the number of threads that the core needs it is the number of the core's words, as `word_count` gives it.
pub fn temporary_words(checked: &Checked, core: u8, thread: u32) -> u32
    requires is_core { core ≤ last_core }
    requires is_thread { thread ≤ threads_on (kernel_of checked.now) core }
    ensures begin { result ≡ temporary_of (kernel_of checked.now) core thread }
    ensures all { thread ≡ threads_on (kernel_of checked.now) core
        → result ≡ words_on (kernel_of checked.now) core }
    ensures inside { result ≤ words_on (kernel_of checked.now) core }
    ensures few { words_on (kernel_of checked.now) core ≤ most_words }
{
    let kernel = checked.kernel();
    instance_words(kernel.insts.as_slice(), core)
        + variable_words(kernel.vars.as_slice(), core)
        + WORDS_OF_THREAD * thread
}

/// How many words a core has: those of all threads that it needs are the last.
pub fn word_count(checked: &Checked, core: u8) -> u32
    requires { core ≤ last_core }
    ensures { result ≡ words_on (kernel_of checked.now) core }
{
    let threads = thread_count(checked.kernel().roots.as_slice(), core);
    temporary_words(checked, core, threads as u32)
}

/// The words of the functions' instances on a core.
fn instance_words(instances: &[Inst], core: u8) -> u32
    requires { sum_by (instance_needs core) instances.now < 2 ^ 32 }
    ensures { result ≡ sum_by (instance_needs core) instances.now }
{
    let mut sum: u32 = 0;
    for instance in instances {
        sum += words_of_instance(instance, core);
    }
    sum
}

fn words_of_instance(instance: &Inst, core: u8) -> u32
    requires { instance_needs core instance.now < 2 ^ 32 }
    ensures { result ≡ instance_needs core instance.now }
{
    if instance.core == core {
        WORDS_OF_INSTANCE + instance.params
    } else {
        0
    }
}

/// The words of the variables on a core that count by themselves.
fn variable_words(variables: &[Var], core: u8) -> u32
    requires { sum_by (variable_needs core) variables.now < 2 ^ 32 }
    ensures { result ≡ sum_by (variable_needs core) variables.now }
{
    let mut sum: u32 = 0;
    for variable in variables {
        sum += words_of_variable(variable, core);
    }
    sum
}

fn words_of_variable(variable: &Var, core: u8) -> u32
    ensures { result ≡ variable_needs core variable.now }
{
    if variable.core == core && variable.counted {
        variable.words
    } else {
        0
    }
}
