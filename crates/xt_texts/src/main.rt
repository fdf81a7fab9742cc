//! The program that tries the cases: they stand in the files of data/, one for each phase. It prints how many cases each file
//! has, and each case of which something else comes than is wanted.
#![tactic(auto)]

use std::alloc::Global;
use std::process::ExitCode;
use xt_front::{Phase, report_of};
use xw_io::{FsShelf, Out, Shelf, Sink, StdSink};

/// Ends with 1 where a case differs, a file can't be read or the output fails.
fn main(rt: HostRuntime) -> ExitCode {
    let mut sink = StdSink::new(rt.stdout());
    let mut out = Out::new(&mut sink);
    let all_hold = report_all(rt.alloc(), &mut FsShelf::new(&rt), &mut out);
    out.settle();
    ExitCode::from(u8::from(!all_hold || out.outcome().is_err()))
}

/// Reports on the cases of all phases. Whether of each case comes what is wanted.
fn report_all<S: Shelf, O: Sink>(alloc: Global, shelf: &mut S, out: &mut Out<'_, O>) -> bool {
    let mut all_hold = true;
    for phase in Phase::ALL {
        let holds = report(alloc, shelf, out, phase);
        all_hold = all_hold && holds;
    }
    all_hold
}

/// Reports on the cases of a phase. Whether of each comes what is wanted.
fn report<S: Shelf, O: Sink>(
    alloc: Global,
    shelf: &mut S,
    out: &mut Out<'_, O>,
    phase: Phase,
) -> bool {
    let Ok(file) = shelf.load(alloc, phase.file()) else {
        add_trouble(out, phase, b": not loaded\n");
        return false;
    };
    match report_of(alloc, phase, file.as_slice()) {
        Ok(report) => {
            out.add(report.text.as_bytes());
            report.all_hold
        }
        Err(_) => {
            add_trouble(out, phase, b": out of memory\n");
            false
        }
    }
}

fn add_trouble<O: Sink>(out: &mut Out<'_, O>, phase: Phase, trouble: &[u8]) {
    out.add(phase.file().as_bytes());
    out.add(trouble);
}
