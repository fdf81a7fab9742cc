// Bytes in a fixed array.
ghost use Rattle.std.specs.Prelude.{◌≡◌, ◌<◌, ◌≤◌, ◌-◌, ◌++◌, [], ◌↔◌, length, take, min, IsTrue};
ghost use Rattle.xw_io.specs.Gathering.{held_room};

use std::marker::Model;

const ROOM: usize = 4096;

/// Up to 4,096 bytes, in a fixed array. Contracts see the list of them.
#[derive(Drop)]
pub struct Held {
    bytes: [u8; 4096],
    len: usize,
}

impl Model for Held {
    ghost use Rattle.std.specs.Prelude.{ℕ, List, take, ◌≤◌};

    ghost Value = { List ℕ };

    ghost view = { λ a. take a.len a.bytes };

    ghost invariant = { λ a. a.len ≤ 4096 };
}

impl Held {
    /// No bytes.
    pub fn new() -> Held
        ensures { result ≡ [] }
    {
        Held {
            bytes: [0; ROOM],
            len: 0,
        }
    }

    /// Whether no more bytes fit.
    pub fn is_full(&self) -> bool
        ensures { IsTrue result ↔ (held_room ≤ length self.now) }
    {
        self.len >= ROOM
    }

    /// Takes as many bytes from the front of a piece as fit, and says how many.
    pub fn fill(&mut self, piece: &[u8]) -> usize
        ensures count { result ≡ min (length piece.now) (held_room - length self.old) }
        ensures bytes { self.new ≡ self.old ++ take result piece.now }
    {
        let count = piece.len().min(ROOM - self.len);
        self.bytes[self.len..self.len + count].copy_from_slice(&piece[..count]);
        self.len += count;
        count
    }

    /// The bytes, in order.
    pub fn as_slice(&self) -> &[u8]
        ensures { result.now ≡ self.now }
    {
        &self.bytes[..self.len]
    }

    /// Lets all bytes go.
    pub fn clear(&mut self)
        ensures { self.new ≡ [] }
    {
        self.len = 0;
    }
}
