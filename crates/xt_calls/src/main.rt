//! The program that tries whole calls: the cases stand in the files of data/. It prints how many cases each file has, and each of which
//! something else comes than is wanted.
#![tactic(auto)]

mod calls;
mod outputs;
mod outside;
mod texts;
mod trouble;

use calls::is_right;
use std::alloc::Global;
use std::process::ExitCode;
use std::sync::Wait;
use std::thread::Threads;
use xw_io::{FsShelf, Out, Shelf, Sink, StdSink};

/// The files of cases.
const FILES: [&str; 8] = [
    "words.txt",
    "texts.txt",
    "runs.txt",
    "channels.txt",
    "stimuli.txt",
    "selects.txt",
    "cores.txt",
    "routes.txt",
];

/// Ends with 1 where a case differs, a file can't be read or the output fails.
fn main(rt: HostRuntime) -> ExitCode {
    let mut shelf = FsShelf::new(&rt);
    let mut sink = StdSink::new(rt.stdout());
    let mut out = Out::new(&mut sink);
    let mut all_hold = true;
    for file in FILES {
        let holds = report(&rt, rt.alloc(), &mut shelf, &mut out, file);
        all_hold = all_hold && holds;
    }
    out.settle();
    ExitCode::from(u8::from(!all_hold || out.outcome().is_err()))
}

/// Reports on the cases of a file. Whether of each comes what is wanted.
fn report<R: Threads + Wait + Sync, S: Shelf, O: Sink>(
    rt: &R,
    alloc: Global,
    shelf: &mut S,
    out: &mut Out<'_, O>,
    file: &str,
) -> bool {
    let Ok(bytes) = shelf.load(alloc, file) else {
        tell(out, file, "not loaded");
        return false;
    };
    let Ok(text) = str::from_utf8(bytes.as_slice()) else {
        tell(out, file, "not in UTF-8");
        return false;
    };
    report_on(rt, alloc, out, file, text.trim_end())
}

/// Tries the cases of a file's text, between which an empty line stands, and counts them.
fn report_on<R: Threads + Wait + Sync, O: Sink>(
    rt: &R,
    alloc: Global,
    out: &mut Out<'_, O>,
    file: &str,
    text: &str,
) -> bool {
    let mut count = 0u32;
    let mut differing = 0u32;
    for case in text.split("\n\n") {
        if case.starts_with("case ") {
            count = count.saturating_add(1);
            if !holds(rt, alloc, out, case) {
                differing = differing.saturating_add(1);
            }
        }
    }
    match format!(in alloc; "{file}: {count} cases, {differing} differ\n") {
        Ok(line) => out.add(line.as_bytes()),
        Err(_) => out.add(b"out of memory\n"),
    }
    differing == 0
}

/// Whether of each call of a case comes what is wanted. What comes else is told above the case's first line.
fn holds<R: Threads + Wait + Sync, O: Sink>(
    rt: &R,
    alloc: Global,
    out: &mut Out<'_, O>,
    case: &str,
) -> bool {
    let what = match is_right(rt, alloc, out, case) {
        Ok(true) => return true,
        Ok(false) => "differs",
        Err(trouble) => trouble.message(),
    };
    let (name, _) = case.split_once('\n').unwrap_or((case, ""));
    tell(out, name, what);
    false
}

fn tell<O: Sink>(out: &mut Out<'_, O>, name: &str, what: &str) {
    for piece in [name, ": ", what, "\n"] {
        out.add(piece.as_bytes());
    }
}
