//! The program that tries runs of four cores side by side: the images stand in data/. It prints how many images and runs there are, and
//! each image of which something else comes than is wanted.
#![tactic(auto)]

mod cases;
mod runs;
mod trouble;
mod windows;

use cases::difference_of_case;
use std::alloc::Global;
use std::process::ExitCode;
use std::sync::Wait;
use std::thread::Threads;
use xw_io::{FsShelf, Out, Shelf, Sink, StdSink};

/// The file of images.
const FILE: &str = "images.txt";

/// Ends with 1 where a run differs, the file can't be read or the output fails.
fn main(rt: HostRuntime) -> ExitCode {
    let alloc = rt.alloc();
    let mut shelf = FsShelf::new(&rt);
    let mut sink = StdSink::new(rt.stdout());
    let mut out = Out::new(&mut sink);
    let alike = report(&rt, alloc, &mut shelf, &mut out);
    out.settle();
    ExitCode::from(u8::from(!alike || out.outcome().is_err()))
}

/// Reports on the file's images. Whether of each comes what is wanted.
fn report<R: Threads + Wait + Sync, S: Shelf, O: Sink>(
    rt: &R,
    alloc: Global,
    shelf: &mut S,
    out: &mut Out<'_, O>,
) -> bool {
    let Ok(bytes) = shelf.load(alloc, FILE) else {
        tell(out, FILE, "not loaded");
        return false;
    };
    let Ok(text) = str::from_utf8(bytes.as_slice()) else {
        tell(out, FILE, "not in UTF-8");
        return false;
    };
    report_on(rt, alloc, out, text)
}

/// Tries the images of a text, between which an empty line stands, and counts them and their runs.
fn report_on<R: Threads + Wait + Sync, O: Sink>(
    rt: &R,
    alloc: Global,
    out: &mut Out<'_, O>,
    text: &str,
) -> bool {
    let mut images = 0u32;
    let mut runs = 0u32;
    let mut differing = 0u32;
    for case in text.split("\n\n") {
        images = images.saturating_add(1);
        if !holds(rt, alloc, out, case, &mut runs) {
            differing = differing.saturating_add(1);
        }
    }
    match format!(in alloc; "{images} images, {runs} runs, {differing} images differ\n") {
        Ok(line) => out.add(line.as_bytes()),
        Err(_) => out.add(b"out of memory\n"),
    }
    differing == 0
}

/// Whether of an image comes what is wanted. What comes else is told below the case's first line. The runs that came out as they were
/// wanted are counted.
fn holds<R: Threads + Wait + Sync, O: Sink>(
    rt: &R,
    alloc: Global,
    out: &mut Out<'_, O>,
    case: &str,
    runs: &mut u32,
) -> bool {
    match difference_of_case(rt, alloc, case, runs) {
        Ok(None) => return true,
        Ok(Some(difference)) => tell(out, case, difference.as_str()),
        Err(trouble) => tell(out, case, trouble.message()),
    }
    false
}

/// Tells what is said of a case, below its first line.
fn tell<O: Sink>(out: &mut Out<'_, O>, case: &str, difference: &str) {
    let (name, _) = case.split_once('\n').unwrap_or((case, ""));
    for piece in [name, "\n", difference, "\n"] {
        out.add(piece.as_bytes());
    }
}
