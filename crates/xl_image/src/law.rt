//! The law, as the contract of a function that does nothing.

ghost use Rattle.xl_image.specs.TodayLaws.{KernelsAreBuilt};

/// A kernel whose program is built today is built so far: its roots have no transaction, and their outputs go to ports or channels.
pub fn kernels_are_built()
    ensures { KernelsAreBuilt }
{}
