// What a board runs.

ghost use Rattle.std.specs.Prelude.{◌≡◌};

use std::alloc::Global;
use std::marker::PhantomData;
use xr_windows::RunName;
use xs_instr::{Image, Stim};
use xw_words::Memory;

/// Copies of the image and the stimulus of the run that U names, and for how many ticks it goes.
#[derive(Drop)]
pub struct Task<U: RunName> {
    image: Image,
    stim: Stim,
    ticks: u32,
    of: PhantomData<U>,
    ghost image_is: { image ≡ U.listing },
    ghost stim_is: { stim ≡ U.stimulus },
    ghost ticks_are: { ticks ≡ U.ticks },
}

impl<U: RunName> Task<U> {
    ghost use Rattle.std.specs.Prelude.{◌≡◌};

    /// That of a run, with copies of what is lent. The one error is want of memory.
    pub fn new(alloc: Global, image: &Image, stim: &Stim, ticks: u32) -> Result<Task<U>, Memory>
        requires image { image.now ≡ U.listing }
        requires stim { stim.now ≡ U.stimulus }
        requires ticks { ticks ≡ U.ticks }
    {
        let image = image.copy(alloc)?;
        let stim = stim.copy(alloc)?;
        Ok(Task {
            image,
            stim,
            ticks,
            of: PhantomData,
        })
    }

    /// For how many ticks the run goes.
    pub fn ticks(&self) -> u32
        ensures { result ≡ U.ticks }
    {
        self.ticks
    }

    /// The copies.
    pub fn into_copies(self) -> (Image, Stim)
        ensures image { result.0 ≡ U.listing }
        ensures stim { result.1 ≡ U.stimulus }
    {
        let Task {
            image,
            stim,
            ticks: _,
            of: _,
        } = self;
        (image, stim)
    }
}
