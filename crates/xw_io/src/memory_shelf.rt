ghost use Rattle.std.specs.Prelude.{◌≡◌, ◌≤◌, MatchResult, Some};
ghost use Rattle.xw_io.specs.Counting.{is_among};
ghost use Rattle.xw_io.specs.MemShelf.{has_failed};
ghost use Rattle.xw_io.specs.Outside.{IsFileOf, IsReason, IsRefusal};

use crate::counts::{Counts, is_listed, raised};
use crate::file::{File, find};
use crate::{LoadErr, MAX_FILE, Shelf};
use std::alloc::Global;
use xw_words::List;

/// A shelf that tells its files, and fails at chosen loads.
#[derive(Drop)]
pub struct MemShelf {
    files: List<File>,
    fails: List<u32>,
    calls: u64,
    counts: Counts,
}

impl MemShelf {
    ghost use Rattle.xw_io.specs.Counting.{no_refusals};
    ghost use Rattle.xw_io.specs.MemShelf.{calls_of, counts_of, fails_of, files_of};

    /// A shelf of these files. The loads whose numbers, from 1, stand in `fails` fail.
    pub fn new(files: List<File>, fails: List<u32>) -> MemShelf
        ensures files { files_of result ≡ files }
        ensures fails { fails_of result ≡ fails }
        ensures calls { calls_of result ≡ 0 }
        ensures counts { counts_of result ≡ no_refusals }
    {
        MemShelf {
            files,
            fails,
            calls: 0,
            counts: Counts::new(),
        }
    }
}

impl Shelf for MemShelf {
    ghost use Rattle.xw_io.specs.Counting.{counts_after, raised};
    ghost use Rattle.xw_io.specs.MemShelf.{calls_of, counts_of, fails_of, files_of, is_next_to_fail};

    ghost files = { λ s. Some (files_of s) };

    ghost faults = { λ s. (counts_of s).faults };

    ghost misses = { λ s. (counts_of s).misses };

    ghost longs = { λ s. (counts_of s).longs };

    /// As each shelf's load, and it fails exactly where its number is listed. A refusal raises its count by one, and
    /// no other count.
    fn load(&mut self, alloc: Global, name: &str) -> Result<Vec<u8>, LoadErr>
        ensures same_files { files_of self.new ≡ files_of self.old }
        ensures faults { (counts_of self.old).faults ≤ (counts_of self.new).faults }
        ensures misses { (counts_of self.old).misses ≤ (counts_of self.new).misses }
        ensures longs { (counts_of self.old).longs ≤ (counts_of self.new).longs }
        ensures loaded { MatchResult result (λ text. IsFileOf (Some (files_of self.old)) name.now text.items)
            (IsRefusal (Some (files_of self.old)) name.now (counts_of self.old).faults (counts_of self.new).faults
            (counts_of self.old).misses (counts_of self.new).misses (counts_of self.old).longs (counts_of self.new).longs) }

        ensures failed { has_failed result ≡ is_next_to_fail self.old }
        ensures counts { counts_of self.new ≡ counts_after (counts_of self.old) result }
        ensures calls { calls_of self.new ≡ raised (calls_of self.old) }
        ensures same_list { fails_of self.new ≡ fails_of self.old }
    {
        self.calls = raised(self.calls);
        let loaded = look_up(
            alloc,
            self.files.as_slice(),
            name.as_bytes(),
            &self.fails,
            self.calls,
        );
        self.counts.note(&loaded);
        loaded
    }
}

/// A copy of the named file's bytes, unless the call is to fail.
fn look_up(
    alloc: Global,
    files: &[File],
    name: &[u8],
    fails: &List<u32>,
    call: u64,
) -> Result<Vec<u8>, LoadErr>
    ensures loaded { MatchResult result (λ text. IsFileOf (Some files.now) name.now text.items) (IsReason (Some files.now) name.now) }
    ensures failed { has_failed result ≡ is_among fails.now call }
{
    if is_listed(fails, call) {
        return Err(LoadErr::Failed);
    }
    let Some(bytes) = find(files, name) else {
        return Err(LoadErr::Missing);
    };
    if bytes.len() > MAX_FILE {
        return Err(LoadErr::TooLong);
    }
    match Vec::from_slice(alloc, bytes.as_slice()) {
        Ok(text) => Ok(text),
        Err(_) => Err(LoadErr::Memory),
    }
}

#[cfg(test)]
mod tests {
    use super::*;
    use xw_words::Memory;

    /// Files: the name, the front of the bytes, and their number. The rest are sevens.
    const FILES: [(&str, &[u8], usize); 5] = [
        ("a.xc", b"main", 4),
        ("empty.xc", b"", 0),
        ("full.xc", b"", 4_194_304),
        ("long.xc", b"", 4_194_305),
        ("a.xc", b"other", 5),
    ];

    /// What is loaded where no load is to fail: the name, the number of bytes, and their front.
    const LOADS: [(&str, Result<usize, LoadErr>, &[u8]); 8] = [
        ("a.xc", Ok(4), b"main"),
        ("empty.xc", Ok(0), b""),
        ("full.xc", Ok(4_194_304), b"\x07\x07"),
        ("long.xc", Err(LoadErr::TooLong), b""),
        ("b.xc", Err(LoadErr::Missing), b""),
        ("a.x", Err(LoadErr::Missing), b""),
        ("", Err(LoadErr::Missing), b""),
        ("a.xc", Ok(4), b"main"),
    ];

    const COUNTS: Counts = Counts {
        faults: 0,
        misses: 3,
        longs: 1,
    };

    /// What is loaded where the first load and the third are to fail.
    const LOADS_THAT_FAIL: [(&str, Result<usize, LoadErr>, &[u8]); 4] = [
        ("a.xc", Err(LoadErr::Failed), b""),
        ("a.xc", Ok(4), b"main"),
        ("b.xc", Err(LoadErr::Failed), b""),
        ("b.xc", Err(LoadErr::Missing), b""),
    ];

    const COUNTS_THAT_FAIL: Counts = Counts {
        faults: 2,
        misses: 1,
        longs: 0,
    };

    fn file(alloc: Global, name: &str, front: &[u8], length: usize) -> Result<File, Memory> {
        let name = List::from_vec(name.as_bytes().to_vec(alloc)?);
        let mut bytes = front.to_vec(alloc)?;
        bytes.resize(length, 7)?;
        Ok(File {
            name,
            bytes: List::from_vec(bytes),
        })
    }

    fn shelf(alloc: Global, fails: &[u32]) -> Result<MemShelf, Memory> {
        let fails = List::from_vec(fails.to_vec(alloc)?);
        let mut files = List::new(alloc);
        for (name, front, length) in &FILES {
            files.push(file(alloc, name, front, *length)?)?;
        }
        Ok(MemShelf::new(files, fails))
    }

    /// Whether a load gives a file of this length and front, or this refusal.
    fn loads_so(
        alloc: Global,
        shelf: &mut MemShelf,
        name: &str,
        length: Result<usize, LoadErr>,
        front: &[u8],
    ) -> bool {
        match shelf.load(alloc, name) {
            Ok(text) => length == Ok(text.len()) && text.starts_with(front),
            Err(refusal) => length == Err(refusal),
        }
    }

    /// The place of the first load that gives something else, and what is counted.
    fn wrong_load(
        alloc: Global,
        fails: &[u32],
        loads: &[(&str, Result<usize, LoadErr>, &[u8])],
    ) -> Result<(Option<usize>, Counts), Memory> {
        let mut shelf = shelf(alloc, fails)?;
        for (place, (name, length, front)) in loads.iter().enumerate() {
            if !loads_so(alloc, &mut shelf, name, *length, front) {
                return Ok((Some(place), shelf.counts));
            }
        }
        Ok((None, shelf.counts))
    }

    /// A shelf gives the first file of a name, refuses names that it has no file of and files that are too long, fails
    /// at the loads that are listed, and counts each refusal.
    #[test]
    fn gives_refuses_and_fails(rt: HostRuntime) {
        let told = (
            wrong_load(rt.alloc(), &[], &LOADS),
            wrong_load(rt.alloc(), &[1, 3], &LOADS_THAT_FAIL),
        );
        assert_eq!(rt; told, (Ok((None, COUNTS)), Ok((None, COUNTS_THAT_FAIL))));
    }
}
