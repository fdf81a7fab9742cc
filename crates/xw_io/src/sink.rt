ghost use Rattle.std.specs.Prelude.{◌≡◌, ◌≤◌, ◌<◌, Option, List, ℕ, length};
ghost use Rattle.xw_io.specs.Outside.{IsPut};

/// What a sink did with a piece.
#[derive(Clone, Copy, Debug, PartialEq, Eq)]
pub enum Put {
    /// It took so many bytes from the front of the piece, at least 1.
    Took(usize),
    /// It took nothing.
    Failed,
}

/// Where bytes go.
pub trait Sink {
    /// The bytes so far, where they are told.
    ghost bytes: { Self → Option (List ℕ) };

    /// How often a put failed.
    ghost faults: { Self → ℕ };

    /// Offers a piece, which is not empty. The bytes taken stand behind those so far. `Failed` comes only where the
    /// faults rose, and leaves the bytes as they were.
    fn put(&mut self, piece: &[u8]) -> Put
        requires { 0 < length piece.now }
        ensures faults { faults self.old ≤ faults self.new }
        ensures put { IsPut (bytes self.old) (bytes self.new) (faults self.old) (faults self.new) piece.now result };
}
