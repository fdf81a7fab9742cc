// The files of the system: an edge that is trusted, since no contract can say what a file holds.
ghost use Rattle.std.specs.Prelude.{◌≡◌, ◌≤◌, IfOk, MatchResult, None, length};
ghost use Rattle.xw_io.specs.Outside.{IsFileOf, IsRefusal, max_file};

use crate::counts::Counts;
use crate::{LoadErr, MAX_FILE, Shelf};
use std::alloc::Global;
use std::fs;
use std::io::{ErrorKind, Read};
use std::rt::Files;

/// The files of the system, by their paths. It tells no contents.
#[derive(Drop)]
pub struct FsShelf<'a, R: Files> {
    rt: &'a R,
    counts: Counts,
}

impl<'a, R: Files> FsShelf<'a, R> {
    ghost use Rattle.xw_io.specs.Counting.{no_refusals};
    ghost use Rattle.xw_io.specs.FsShelf.{counts_of};

    /// The files that this runtime reaches.
    pub fn new(rt: &'a R) -> FsShelf<'a, R>
        ensures { counts_of result ≡ no_refusals }
    {
        FsShelf {
            rt,
            counts: Counts::new(),
        }
    }
}

impl<'a, R: Files> Shelf for FsShelf<'a, R> {
    ghost use Rattle.xw_io.specs.Counting.{counts_after};
    ghost use Rattle.xw_io.specs.FsShelf.{counts_of};

    ghost files = { λ _. None };

    ghost faults = { λ s. (counts_of s).faults };

    ghost misses = { λ s. (counts_of s).misses };

    ghost longs = { λ s. (counts_of s).longs };

    /// As each shelf's load. A name that is not found is a miss, and each other failure of an open or a read a fault. A
    /// refusal raises its count by one, and no other count.
    fn load(&mut self, alloc: Global, name: &str) -> Result<Vec<u8>, LoadErr>
        ensures faults { (counts_of self.old).faults ≤ (counts_of self.new).faults }
        ensures misses { (counts_of self.old).misses ≤ (counts_of self.new).misses }
        ensures longs { (counts_of self.old).longs ≤ (counts_of self.new).longs }
        ensures loaded { MatchResult result (λ text. IsFileOf None name.now text.items)
            (IsRefusal None name.now (counts_of self.old).faults (counts_of self.new).faults
            (counts_of self.old).misses (counts_of self.new).misses (counts_of self.old).longs (counts_of self.new).longs) }

        ensures counts { counts_of self.new ≡ counts_after (counts_of self.old) result }
    {
        let loaded = match fs::open(self.rt, name) {
            Ok(mut file) => read_to_end(alloc, &mut file),
            Err(e) if e.kind() == ErrorKind::NotFound => Err(LoadErr::Missing),
            Err(_) => Err(LoadErr::Failed),
        };
        self.counts.note(&loaded);
        loaded
    }
}

/// Reads to the end, or until there are too many bytes.
fn read_to_end<F: Read>(alloc: Global, file: &mut F) -> Result<Vec<u8>, LoadErr>
    ensures { IfOk result (λ text. length text.items ≤ max_file) }
{
    let mut text = Vec::new(alloc);
    let mut buffer = [0u8; 4096];
    for _ in 0..u64::MAX {
        match file.read(&mut buffer) {
            Ok(0) => return Ok(text),
            Ok(n) => {
                if MAX_FILE - text.len() < n {
                    return Err(LoadErr::TooLong);
                }
                if text.extend_from_slice(&buffer[..n]).is_err() {
                    return Err(LoadErr::Memory);
                }
            }
            Err(_) => return Err(LoadErr::Failed),
        }
    }
    Err(LoadErr::Failed)
}

#[cfg(test)]
mod tests {
    use super::*;
    use std::io;

    /// Gives a number of bytes, in parts as large as are asked for, and then fails or ends.
    #[derive(Drop)]
    struct Tape {
        left: usize,
        ends: bool,
    }

    impl Read for Tape {
        fn read(&mut self, buf: &mut [u8]) -> io::Result<usize> {
            if self.left == 0 && !self.ends {
                return Err(io::Error::from(ErrorKind::Other));
            }
            let n = buf.len().min(self.left);
            self.left -= n;
            Ok(n)
        }
    }

    /// How many bytes a tape gives, whether it ends, and how many are read.
    const TAPES: [(usize, bool, Result<usize, LoadErr>); 5] = [
        (0, true, Ok(0)),
        (5_000, true, Ok(5_000)),
        (5_000, false, Err(LoadErr::Failed)),
        (4_194_304, true, Ok(4_194_304)),
        (4_194_305, true, Err(LoadErr::TooLong)),
    ];

    /// The place of the first tape that is read otherwise.
    fn wrong_tape(alloc: Global) -> Option<usize> {
        for (place, (left, ends, want)) in TAPES.iter().enumerate() {
            let mut tape = Tape {
                left: *left,
                ends: *ends,
            };
            if length_of(read_to_end(alloc, &mut tape)) != *want {
                return Some(place);
            }
        }
        None
    }

    fn length_of(read: Result<Vec<u8>, LoadErr>) -> Result<usize, LoadErr> {
        Ok(read?.len())
    }

    /// Tapes are read to their ends, and a file that isn't there is told and counted.
    #[test]
    fn reads_to_the_end_and_misses_no_file(rt: HostRuntime) {
        let wrong = wrong_tape(rt.alloc());
        let mut shelf = FsShelf::new(&rt);
        let refused = length_of(shelf.load(rt.alloc(), "no/such/file.xc"));
        let told = (wrong, refused, shelf.counts.misses);
        assert_eq!(rt; told, (None, Err(LoadErr::Missing), 1));
    }
}
