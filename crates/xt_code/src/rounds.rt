//! Transfers in lockstep: a case has a stimulus and steps of code, and wants the records of the run and its end word.

ghost use Rattle.xs_instr.specs.Valid.{IsGoodStim};

use crate::machine::{core_of, wait};
use crate::places::plan;
use crate::shown::ShownRecord;
use crate::statements::code_of;
use crate::trouble::Trouble;
use std::alloc::Global;
use xr_stim::read_stim;
use xs_core::{Core, Did};
use xs_instr::{Code, Record, Stim};

/// How many rounds a run has.
const ROUNDS: u32 = 100_000;

/// A case, by its lines.
#[derive(Drop)]
pub struct Timed {
    stimulus: String,
    steps: String,
    /// The records, and the end word.
    pub wanted: String,
}

/// The case that a text is.
pub fn stamped_line(alloc: Global, case: &str) -> Result<Timed, Trouble> {
    let mut timed = Timed {
        stimulus: String::new(alloc),
        steps: String::new(alloc),
        wanted: String::new(alloc),
    };
    for line in case.split('\n') {
        add_line(&mut timed, line)?;
    }
    Ok(timed)
}

/// Adds what a line of a case says.
fn add_line(timed: &mut Timed, line: &str) -> Result<(), Trouble> {
    if let Some(wanted) = line.strip_prefix("> ") {
        push_line(&mut timed.wanted, wanted)?;
    } else if let Some(stimulus) = line.strip_prefix("stim ") {
        push_line(&mut timed.stimulus, stimulus)?;
    } else if !line.starts_with("case ") {
        if !timed.steps.is_empty() {
            timed.steps.push_str(" ; ")?;
        }
        timed.steps.push_str(line)?;
    }
    Ok(())
}

fn push_line(text: &mut String, line: &str) -> Result<(), Trouble> {
    text.push_str(line)?;
    text.push('\n')?;
    Ok(())
}

/// The records of a case's run, and its end word.
pub fn trace_of(alloc: Global, timed: &Timed) -> Result<String, Trouble> {
    let plan = plan(alloc)?;
    let code = code_of(alloc, &plan, timed.steps.as_str());
    drop(plan);
    let code = code?;
    let stim = read_stim(alloc, timed.stimulus.as_bytes())?;
    let trace = trace_of_code(alloc, code, &stim);
    drop(stim);
    trace
}

fn trace_of_code(alloc: Global, code: Code, stim: &Stim) -> Result<String, Trouble>
    requires stim { IsGoodStim stim.now }
{
    let mut core = core_of(alloc, code, stim)?;
    let trace = trace_of_run(alloc, &mut core);
    drop(core);
    trace
}

/// The records of a core's run. A round is a tick, and then a turn of the thread.
fn trace_of_run(alloc: Global, core: &mut Core) -> Result<String, Trouble> {
    let mut trace = String::new(alloc);
    for _round in 0..ROUNDS {
        wait(core);
        core.reserve_window()?;
        match core.slot(0) {
            Did::Made(None) | Did::Paused => {}
            Did::Made(Some(record)) => add_record(alloc, &mut trace, record)?,
            Did::Trapped(kind, pos) => {
                add_record(alloc, &mut trace, Record::Fault { core: 0, pos, kind })?;
                push_line(&mut trace, "trapped")?;
                return Ok(trace);
            }
            Did::Idle => {
                push_line(&mut trace, "finished")?;
                return Ok(trace);
            }
        }
    }
    push_line(&mut trace, "stopped")?;
    Ok(trace)
}

fn add_record(alloc: Global, trace: &mut String, record: Record) -> Result<(), Trouble> {
    let line = format!(in alloc; "{}", ShownRecord(record))?;
    let pushed = push_line(trace, line.as_str());
    drop(line);
    pushed
}
