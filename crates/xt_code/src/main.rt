//! The program that tries the pieces of code: the cases stand in the files of data/. What is emitted for them runs on a core. It prints how
//! many cases each file has, and each of which something else comes than is wanted.
#![tactic(auto)]

mod counted;
mod expressions;
mod machine;
mod places;
mod rounds;
mod shown;
mod sizes;
mod statements;
mod transfers;
mod trouble;

use counted::count_of;
use machine::run;
use places::plan;
use rounds::{stamped_line, trace_of};
use shown::ShownEnd;
use statements::code_of;
use std::alloc::Global;
use std::process::ExitCode;
use trouble::Trouble;
use xl_expr::Plan;
use xt_cases::{CaseFile, Cases, report, tell};
use xw_io::{FsShelf, Out, Sink, StdSink};

/// The files of cases.
#[derive(Clone, Copy)]
enum File {
    /// Operators with two operands.
    Operators,
    /// Other code.
    Code,
    /// Transfers in lockstep.
    Transfers,
}

impl File {
    fn file(self) -> CaseFile {
        let (name, gap) = match self {
            File::Operators => ("operators.txt", "\n"),
            File::Code => ("code.txt", "\n"),
            File::Transfers => ("transfers.txt", "\n\n"),
        };
        CaseFile { name, gap }
    }
}

impl Cases for File {
    /// Whether of a line comes what it wants. What comes else is told.
    fn holds<O: Sink>(&self, alloc: Global, out: &mut Out<'_, O>, case: &str) -> bool {
        let tried = match *self {
            File::Operators => are_operands_right(alloc, out, case),
            File::Code => is_right(alloc, out, case),
            File::Transfers => is_trace_right(alloc, out, case),
        };
        match tried {
            Ok(holds) => holds,
            Err(trouble) => {
                tell(out, case, trouble.message());
                false
            }
        }
    }
}

/// Ends with 1 where a case differs, a file can't be read or the output fails.
fn main(rt: HostRuntime) -> ExitCode {
    let mut shelf = FsShelf::new(&rt);
    let mut sink = StdSink::new(rt.stdout());
    let mut out = Out::new(&mut sink);
    let mut all_hold = true;
    for file in [File::Operators, File::Code, File::Transfers] {
        let holds = report(rt.alloc(), &mut shelf, &mut out, file.file(), &file);
        all_hold = all_hold && holds;
    }
    out.settle();
    ExitCode::from(u8::from(!all_hold || out.outcome().is_err()))
}

/// How two operands are written: as numbers, which one instruction brings to a register, or turned twice, which takes several.
const WRITTEN: [(&str, &str); 3] = [("", ""), ("", " ~x ~x"), (" ~x ~x", " ~x ~x")];

/// Whether of a line `FIRST SECOND OPERATOR = WANTED` comes what it wants, however the operands are written.
fn are_operands_right<O: Sink>(
    alloc: Global,
    out: &mut Out<'_, O>,
    line: &str,
) -> Result<bool, Trouble> {
    let (first, rest) = line.split_once(' ').ok_or(Trouble::Line)?;
    let (second, rest) = rest.split_once(' ').ok_or(Trouble::Line)?;
    for (of_first, of_second) in WRITTEN {
        let line = format!(in alloc; "give {first}{of_first} {second}{of_second} {rest}")?;
        let is_right = is_right(alloc, out, line.as_str());
        drop(line);
        if !is_right? {
            return Ok(false);
        }
    }
    Ok(true)
}

/// Whether of a line `CODE = WANTED` comes what it wants. What comes else is told.
fn is_right<O: Sink>(alloc: Global, out: &mut Out<'_, O>, line: &str) -> Result<bool, Trouble> {
    let (code, wanted) = line.split_once(" = ").ok_or(Trouble::Line)?;
    let came = came_of(alloc, code)?;
    let is_right = came.as_str() == wanted;
    if !is_right {
        tell(out, line, came.as_str());
    }
    Ok(is_right)
}

/// Whether a case's run has the records and the end word that it wants. What comes else is told.
fn is_trace_right<O: Sink>(
    alloc: Global,
    out: &mut Out<'_, O>,
    case: &str,
) -> Result<bool, Trouble> {
    let timed = stamped_line(alloc, case)?;
    let trace = trace_of(alloc, &timed)?;
    let is_right = trace.as_str() == timed.wanted.as_str();
    if !is_right {
        tell(out, case, trace.as_str());
    }
    Ok(is_right)
}

/// What comes of code: how its run ends, or how much it is.
fn came_of(alloc: Global, code: &str) -> Result<String, Trouble> {
    let plan = plan(alloc)?;
    let came = match code.strip_prefix("count ") {
        Some(pieces) => count_of(alloc, &plan, pieces),
        None => ended_as(alloc, &plan, code),
    };
    drop(plan);
    came
}

/// How the run of code ends.
fn ended_as(alloc: Global, plan: &Plan, code: &str) -> Result<String, Trouble> {
    let code = code_of(alloc, plan, code)?;
    let end = run(alloc, code)?;
    Ok(format!(in alloc; "{}", ShownEnd(end))?)
}
