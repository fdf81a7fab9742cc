// The names of the four cores.

/// The name of a core: its number.
pub trait CoreName {
    ghost use Rattle.std.specs.Prelude.{ℕ};

    ghost number: { ℕ };
}

/// Core 0.
pub struct Core0;

impl CoreName for Core0 {
    ghost number = { 0 };
}

/// Core 1.
pub struct Core1;

impl CoreName for Core1 {
    ghost number = { 1 };
}

/// Core 2.
pub struct Core2;

impl CoreName for Core2 {
    ghost number = { 2 };
}

/// Core 3.
pub struct Core3;

impl CoreName for Core3 {
    ghost number = { 3 };
}
