// Sums over the cores, from which the end of a run is read.

ghost use Rattle.std.specs.Prelude.{◌≡◌, ◌+◌, List as Items, length, map};
ghost use Rattle.xs_instr.specs.declared.image.Image.{Image};
ghost use Rattle.xs_instr.specs.declared.image.Stim.{Stim};
ghost use Rattle.xs_instr.specs.declared.trace.Record.{Record};
ghost use Rattle.xs_fabric.specs.EndWord.{end_word, sights};
ghost use Rattle.xs_fabric.specs.Rounds.{Links};
ghost use Rattle.xs_fabric.specs.Seen.{home_in, homes, together};
ghost use Rattle.xs_fabric.specs.Totals.{seen_as};

use xs_core::Core;
use xs_instr::EndWord;

/// How many roots of the four cores haven't ended, and how many threads are in use, are trapped, are ready, and wait on a
/// port or timer.
#[derive(Clone, Copy)]
pub struct Totals {
    pub roots: u64,
    pub used: u64,
    pub trapped: u64,
    pub ready: u64,
    pub timed: u64,
}

/// The sums over the four cores.
pub fn sum_of_sights(cores: &[Core]) -> Totals
    requires { length cores.now ≡ 4 }
    ensures { (L : Image) (s : Stim) (links : Links) (trace : Items Record) →
        map home_in cores.now ≡ homes L s →
        seen_as result ≡ sights L s (together cores.now links trace) 4 }
{
    let a = cores[0].sight();
    let b = cores[1].sight();
    let c = cores[2].sight();
    let d = cores[3].sight();
    Totals {
        roots: sum(a.roots, b.roots, c.roots, d.roots),
        used: sum(a.used, b.used, c.used, d.used),
        trapped: sum(a.trapped, b.trapped, c.trapped, d.trapped),
        ready: sum(a.ready, b.ready, c.ready, d.ready),
        timed: sum(a.timed, b.timed, c.timed, d.timed),
    }
}

fn sum(a: u32, b: u32, c: u32, d: u32) -> u64
    ensures { result ≡ 0 + a + b + c + d }
{
    a as u64 + b as u64 + c as u64 + d as u64
}

/// How a run ends: by the sums over the four cores, and whether nothing is on its way between them.
pub fn word_of(all: Totals, no_items: bool) -> EndWord
    ensures { result ≡ end_word (seen_as all) no_items }
{
    if all.roots == 0 {
        EndWord::Finished
    } else if all.used == all.trapped {
        EndWord::Trapped
    } else if no_items && all.ready == 0 && all.timed == 0 {
        EndWord::Stuck
    } else {
        EndWord::Stopped
    }
}
