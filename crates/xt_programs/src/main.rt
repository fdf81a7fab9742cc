//! The program that tries texts: the cases stand in data/. It prints how many cases each file has, and each text of which something else
//! comes than is wanted, with the first line that differs.
#![tactic(auto)]

mod built;
mod cases;
mod images;
mod listings;
mod runs;
mod texts;

use cases::{Case, Trouble};
use listings::write_listing;
use runs::write_run;
use std::alloc::Global;
use std::process::ExitCode;
use xt_cases::{CaseFile, Cases, report, tell};
use xw_io::{FsShelf, MemSink, Out, Sink, StdSink};
use xw_words::List;

/// The most bytes that come of a case's text.
const MOST_BYTES: usize = 65_536;

/// What must come of the texts of a file: listings, the runs of the examples, runs that read ports and timers, runs with selects, or runs
/// on several cores.
#[derive(Clone, Copy)]
enum Wanted {
    Listing,
    Run,
    Input,
    Select,
    Cores,
}

impl Wanted {
    /// The file of its cases.
    fn file(self) -> CaseFile {
        let name = match self {
            Wanted::Listing => "listings.txt",
            Wanted::Run => "runs.txt",
            Wanted::Input => "inputs.txt",
            Wanted::Select => "selects.txt",
            Wanted::Cores => "cores.txt",
        };
        CaseFile { name, gap: "\n\n" }
    }
}

impl Cases for Wanted {
    fn holds<O: Sink>(&self, alloc: Global, out: &mut Out<'_, O>, case: &str) -> bool {
        match difference_of(alloc, *self, case) {
            Ok(None) => return true,
            Ok(Some(difference)) => tell(out, case, difference.as_str()),
            Err(trouble) => tell(out, case, trouble.message()),
        }
        false
    }
}

/// Ends with 1 where a case differs, a file can't be read or the output fails.
fn main(rt: HostRuntime) -> ExitCode {
    let mut sink = StdSink::new(rt.stdout());
    let mut out = Out::new(&mut sink);
    let mut shelf = FsShelf::new(&rt);
    let mut all_hold = true;
    for wanted in [
        Wanted::Listing,
        Wanted::Run,
        Wanted::Input,
        Wanted::Select,
        Wanted::Cores,
    ] {
        let holds = report(rt.alloc(), &mut shelf, &mut out, wanted.file(), &wanted);
        all_hold = all_hold && holds;
    }
    out.settle();
    ExitCode::from(u8::from(!all_hold || out.outcome().is_err()))
}

/// Where what comes of a case differs from what is wanted.
fn difference_of(alloc: Global, wanted: Wanted, lines: &str) -> Result<Option<String>, Trouble> {
    let case = Case::read(alloc, lines)?;
    let text = case.text.as_bytes();
    let mut sink = MemSink::new(alloc, MOST_BYTES, List::new(alloc))?;
    match wanted {
        Wanted::Listing => write_listing(alloc, text, &mut sink)?,
        Wanted::Run | Wanted::Input | Wanted::Select | Wanted::Cores => {
            write_run(alloc, text, case.stimulus.as_bytes(), &mut sink)?
        }
    }
    let Ok(came) = str::from_utf8(sink.bytes()) else {
        return Err(Trouble::Long);
    };
    Ok(case.difference(alloc, came)?)
}
