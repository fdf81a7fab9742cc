ghost use Rattle.std.specs.Prelude.{◌≡◌, ◌≤◌, Option, List, ℕ, MatchResult};
ghost use Rattle.xw_io.specs.declared.file.File.{File};
ghost use Rattle.xw_io.specs.Outside.{IsFileOf, IsRefusal};

use std::alloc::Global;

/// The most bytes that a file may have.
pub const MAX_FILE: usize = 4_194_304;

/// Why a file was not given.
#[derive(Clone, Copy, Debug, PartialEq, Eq)]
pub enum LoadErr {
    /// No file has the name.
    Missing,
    /// The file has more than 4,194,304 bytes.
    TooLong,
    /// The file could not be read.
    Failed,
    /// Memory could not be had.
    Memory,
}

/// Where files are loaded from.
pub trait Shelf {
    /// The files, where they are told.
    ghost files: { Self → Option (List File) };

    /// How often a load failed.
    ghost faults: { Self → ℕ };

    /// How often no file had the name.
    ghost misses: { Self → ℕ };

    /// How often a file was too long.
    ghost longs: { Self → ℕ };

    /// The bytes of the named file, at most 4,194,304. Where the files are told, `Missing` comes exactly where no file
    /// has the name, and `TooLong` exactly where the file has more bytes, unless `Failed` or `Memory` comes in its
    /// place. `Missing`, `TooLong` and `Failed` each come only where their count rose. No call changes the files.
    fn load(&mut self, alloc: Global, name: &str) -> Result<Vec<u8>, LoadErr>
        ensures same_files { files self.new ≡ files self.old }
        ensures faults { faults self.old ≤ faults self.new }
        ensures misses { misses self.old ≤ misses self.new }
        ensures longs { longs self.old ≤ longs self.new }
        ensures loaded { MatchResult result (λ text. IsFileOf (files self.old) name.now text.items)
            (IsRefusal (files self.old) name.now (faults self.old) (faults self.new) (misses self.old) (misses self.new) (longs self.old) (longs self.new)) };
}
