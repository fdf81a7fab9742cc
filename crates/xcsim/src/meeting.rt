// Two cores at the same time: the gate of these calls sees which windows are run, and when.

use std::alloc::{AllocError, Global};
use std::sync::Wait;
use std::sync::atomic::{AtomicU64, Ordering};
use std::test::Fail;
use std::thread::{self, Threads};
use xr_driver::xcsim;
use xw_io::{File, Gate, MemShelf, MemSink};
use xw_words::List;

/// Core 0 sends a hundred words to core 3.
const TEXT: &[u8] = b"void a(chanend c) { int i; for (i = 1; i <= 100; i++) { c <: i; } }
void b(chanend c) { int i; int x; for (i = 0; i < 100; i++) { c :> x; } }
int main(void) { chan c; par { on stdcore[0] : a(c); on stdcore[3] : b(c); } return 0; }
";

/// Holds up cores 0 and 1 before their window 1 until both stand there, if it is to, and counts the calls for each core and each of the
/// first two windows: one in a byte each, and all others in the last place.
#[derive(Drop)]
struct Meeting {
    is_held: bool,
    first: AtomicU64,
    second: AtomicU64,
    met: AtomicU64,
    counts: AtomicU64,
    others: AtomicU64,
}

impl Meeting {
    fn new(is_held: bool) -> Meeting {
        Meeting {
            is_held,
            first: AtomicU64::new(0),
            second: AtomicU64::new(0),
            met: AtomicU64::new(0),
            counts: AtomicU64::new(0),
            others: AtomicU64::new(0),
        }
    }

    /// Whether each of the eight windows was run once, and no other one.
    fn are_each_once(&self) -> bool {
        self.counts.load(Ordering::SeqCst) == 0x0101_0101_0101_0101
            && self.others.load(Ordering::SeqCst) == 0
    }
}

/// Sets a flag, and looks for another one 100,000,000 times at most. Counts where that is seen.
fn meet(own: &AtomicU64, other: &AtomicU64, met: &AtomicU64) {
    own.store(1, Ordering::SeqCst);
    for _ in 0..100_000_000 {
        if other.load(Ordering::SeqCst) == 1 {
            met.fetch_add(1, Ordering::SeqCst);
            return;
        }
        thread::yield_now();
    }
}

/// What a call of a core for a window adds to the counts: one in a byte of its own.
fn one_of(core: u32, window: u32) -> Option<u64> {
    match (core, window) {
        (0, 0) => Some(1),
        (1, 0) => Some(0x100),
        (2, 0) => Some(0x1_0000),
        (3, 0) => Some(0x100_0000),
        (0, 1) => Some(0x1_0000_0000),
        (1, 1) => Some(0x100_0000_0000),
        (2, 1) => Some(0x1_0000_0000_0000),
        (3, 1) => Some(0x100_0000_0000_0000),
        _ => None,
    }
}

impl Gate for Meeting {
    fn before(&self, core: u32, window: u32) {
        match one_of(core, window) {
            Some(one) => {
                self.counts.fetch_add(one, Ordering::SeqCst);
            }
            None => {
                self.others.fetch_add(1, Ordering::SeqCst);
            }
        }
        if self.is_held && core == 0 && window == 1 {
            meet(&self.first, &self.second, &self.met);
        }
        if self.is_held && core == 1 && window == 1 {
            meet(&self.second, &self.first, &self.met);
        }
    }
}

/// A shelf with the text alone.
fn shelf(alloc: Global) -> Result<MemShelf, Fail> {
    let name = Vec::from_slice(alloc, b"a.xc")?;
    let text = Vec::from_slice(alloc, TEXT)?;
    let mut files = List::new(alloc);
    files.push(File {
        name: List::from_vec(name),
        bytes: List::from_vec(text),
    })?;
    Ok(MemShelf::new(files, List::new(alloc)))
}

fn words(alloc: Global, workers: &str) -> Result<Vec<String>, AllocError> {
    let mut words = Vec::new(alloc);
    for word in ["run", "a.xc", "--ticks", "16", "--workers", workers] {
        words.push(String::from_str(alloc, word)?)?;
    }
    Ok(words)
}

/// What the program writes of 16 ticks by so many workers. The ticks cut the run short, which gives status 4.
fn written<R: Threads + Wait + Sync>(
    rt: &R,
    alloc: Global,
    workers: &str,
    meeting: &Meeting,
) -> Result<Option<MemSink>, Fail> {
    let words = words(alloc, workers)?;
    let mut shelf = shelf(alloc)?;
    let mut out = MemSink::new(alloc, 65_536, List::new(alloc))?;
    let mut err = MemSink::new(alloc, 1_000, List::new(alloc))?;
    let status = xcsim(
        rt,
        alloc,
        words.as_slice(),
        &mut shelf,
        &mut out,
        &mut err,
        meeting,
    );
    Ok(if status == 4 { Some(out) } else { None })
}

#[test]
fn two_cores_at_the_same_time(rt: HostRuntime) -> Result<(), Fail> {
    let alloc = rt.alloc();
    let held = Meeting::new(true);
    let Some(by_two) = written(&rt, alloc, "2", &held)? else {
        assert!(rt; false);
        return Ok(());
    };
    assert_eq!(rt; held.met.load(Ordering::SeqCst), 2);
    assert!(rt; held.are_each_once());
    let alone = Meeting::new(false);
    let Some(by_one) = written(&rt, alloc, "1", &alone)? else {
        assert!(rt; false);
        return Ok(());
    };
    assert!(rt; by_one.bytes() == by_two.bytes());
    let counting = Meeting::new(false);
    let Some(by_sixteen) = written(&rt, alloc, "16", &counting)? else {
        assert!(rt; false);
        return Ok(());
    };
    assert!(rt; counting.are_each_once());
    assert!(rt; by_one.bytes() == by_sixteen.bytes());
    Ok(())
}
