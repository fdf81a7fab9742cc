//! The program that tries a core by its public calls: the cases stand in the files of data/. It prints how many each file has, and
//! each of which something else comes than is wanted.
#![tactic(auto)]

mod cases;
mod images;
mod setup;
mod shown;
mod trouble;
mod turns;
mod values;

use cases::{difference_of_calls, setup_of};
use setup::Setup;
use std::alloc::Global;
use std::process::ExitCode;
use trouble::Trouble;
use values::{Line, line_of};
use xs_core::Core;
use xt_cases::{CaseFile, Cases, report, tell};
use xw_io::{FsShelf, Out, Sink, StdSink};

/// The files of cases.
#[derive(Clone, Copy)]
enum File {
    /// Single instructions.
    Values,
    /// Code, and what comes of calls.
    Turns,
}

impl File {
    fn file(self) -> CaseFile {
        match self {
            File::Values => CaseFile {
                name: "values.txt",
                gap: "\n",
            },
            File::Turns => CaseFile {
                name: "turns.txt",
                gap: "\n\n",
            },
        }
    }
}

impl Cases for File {
    fn holds<O: Sink>(&self, alloc: Global, out: &mut Out<'_, O>, case: &str) -> bool {
        match difference_of(alloc, *self, case) {
            Ok(None) => return true,
            Ok(Some(difference)) => tell(out, case, difference.as_str()),
            Err(trouble) => tell(out, case, trouble.message()),
        }
        false
    }
}

/// Ends with 1 where a case differs, a file can't be read or the output fails.
fn main(rt: HostRuntime) -> ExitCode {
    let alloc = rt.alloc();
    let mut shelf = FsShelf::new(&rt);
    let mut sink = StdSink::new(rt.stdout());
    let mut out = Out::new(&mut sink);
    let mut all_hold = true;
    for file in [File::Values, File::Turns] {
        let holds = report(alloc, &mut shelf, &mut out, file.file(), &file);
        all_hold = all_hold && holds;
    }
    out.settle();
    ExitCode::from(u8::from(!all_hold || out.outcome().is_err()))
}

/// What comes of a case, where it isn't what is wanted.
fn difference_of(alloc: Global, file: File, case: &str) -> Result<Option<String>, Trouble> {
    match file {
        File::Values => {
            let line = line_of(case).ok_or(Trouble::Line)?;
            tried(alloc, line.setup(alloc)?, Asked::Value(line))
        }
        File::Turns => tried(alloc, setup_of(alloc, case)?, Asked::Calls(case)),
    }
}

/// Makes the core of a case, and asks it. The core is let go here alone.
fn tried(alloc: Global, setup: Setup, asked: Asked<'_>) -> Result<Option<String>, Trouble> {
    let mut core = setup.start(alloc)?;
    asked.difference(alloc, &mut core)
}

/// What a case asks of its core.
#[derive(Clone, Copy)]
enum Asked<'a> {
    /// The calls that stand in the case.
    Calls(&'a str),
    /// What an instruction leaves.
    Value(Line<'a>),
}

impl Asked<'_> {
    fn difference(self, alloc: Global, core: &mut Core) -> Result<Option<String>, Trouble> {
        match self {
            Asked::Calls(case) => difference_of_calls(alloc, core, case),
            Asked::Value(line) => line.difference(alloc, core),
        }
    }
}
