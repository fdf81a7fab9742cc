use std::marker::Brand;

/// The name of a run: its listing, its stimulus, and for how many ticks it goes. A call that boots a run picks it.
pub trait RunName {
    ghost use Rattle.std.specs.Prelude.{ℕ};
    ghost use Rattle.xs_instr.specs.declared.image.Image.{Image};
    ghost use Rattle.xs_instr.specs.declared.image.Stim.{Stim};

    ghost listing: { Image };

    ghost stimulus: { Stim };

    ghost ticks: { ℕ };
}

/// What names a run that is known at run time alone: a call on it picks what it is the name of.
impl RunName for Brand {
    ghost use Rattle.std.specs.Prelude.{[]};

    ghost listing = { record { cores = []; chans = [] } };

    ghost stimulus = { record { lines = [] } };

    ghost ticks = { 1 };
}
