// A core's first window.

ghost use Rattle.std.specs.Prelude.{◌≡◌};
ghost use Rattle.xs_instr.specs.Valid.{IsGoodStim, Valid};

use crate::listings::ENDLESS;
use std::alloc::Global;
use std::marker::Brand;
use xr_listed::{ListingErr, read_image};
use xr_windows::{Batch, Part, RunName};
use xs_core::Core;
use xs_instr::{Image, Stim};
use xw_words::{List, Memory};

/// To which cores the batches of a window go, and how many items each has.
type Batches = [(u8, usize); 3];

fn seen<U: RunName>(out: &[Batch<U>]) -> Option<Batches> {
    match out {
        [a, b, c] => Some([
            (a.to, a.items.len()),
            (b.to, b.items.len()),
            (c.to, c.items.len()),
        ]),
        _ => None,
    }
}

/// What core 1 sends in window 0, how many windows it has run then, how many records it has, and whether something is on its way.
type Window = (Option<Batches>, u32, usize, bool);

fn first_named<U: RunName>(alloc: Global, image: &Image, stim: &Stim) -> Result<Window, Memory>
    requires image { image.now ≡ U.listing }
    requires valid { Valid image.now }
    requires stim { stim.now ≡ U.stimulus }
    requires good { IsGoodStim stim.now }
    requires ticks { 16 ≡ U.ticks }
{
    let core = Core::new(alloc, image, 1, stim)?;
    let mut part = Part::new(alloc, core, 16);
    let out = part.run_window::<U>(alloc, &List::new(alloc))?;
    let seen = seen::<U>(out.as_slice());
    Ok((seen, part.ran(), part.records().len(), part.pending()))
}

/// The same of the run that is asked for.
fn first(alloc: Global, image: &Image, stim: &Stim) -> Result<Window, Memory>
    requires image { Valid image.now }
    requires stim { IsGoodStim stim.now }
{
    first_named::<Brand>(alloc, image, stim)
}

fn first_told(alloc: Global) -> Result<Result<Window, Memory>, ListingErr> {
    let image = read_image(alloc, ENDLESS)?;
    let stim = Stim {
        lines: List::new(alloc),
    };
    Ok(first(alloc, &image, &stim))
}

/// Core 1 sends the four tokens of a word to core 3, and then waits for one.
#[test]
fn first_window(rt: HostRuntime) {
    let out = Some([(0, 0), (2, 0), (3, 4)]);
    assert_eq!(rt; first_told(rt.alloc()), Ok(Ok((out, 1, 0, true))));
}
