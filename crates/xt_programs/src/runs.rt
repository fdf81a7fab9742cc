//! The run of a text.

use crate::cases::Trouble;
use crate::images::image_of;
use std::alloc::Global;
use xr_stim::read_stim;
use xr_text::{add_record, add_word};
use xs_fabric::Machine;
use xs_instr::EndWord;
use xw_io::{Out, Sink};
use xw_words::Memory;

/// How many rounds a run has: as many as `xcsim run` makes where no other number is given.
const ROUNDS: u32 = 100_000;

/// How many rounds are made before it is looked whether anything can still happen.
const ROUNDS_AT_ONCE: u32 = 1_000;

/// The most records that one round makes: one for each thread of the four cores.
const RECORDS_A_ROUND: u32 = 32;

/// Writes the records of a text's run under a stimulus, and its end line.
pub fn write_run<O: Sink>(
    alloc: Global,
    text: &[u8],
    stimulus: &[u8],
    sink: &mut O,
) -> Result<(), Trouble> {
    let machine = run(alloc, text, stimulus)?;
    let mut out = Out::new(sink);
    for record in machine.trace() {
        add_record(&mut out, record);
    }
    out.add(b"end ");
    add_word(&mut out, machine.end());
    out.add(b"\n");
    out.settle();
    Ok(out.outcome()?)
}

/// The machine of a text's image after all rounds. Where nothing more can happen, those that are left out would tick its clocks alone.
fn run(alloc: Global, text: &[u8], stimulus: &[u8]) -> Result<Machine, Trouble> {
    let stim = read_stim(alloc, stimulus)?;
    let image = image_of(alloc, text)?;
    let mut machine = Machine::boot(alloc, &image, &stim)?;
    for _time in 0..ROUNDS / ROUNDS_AT_ONCE {
        match machine.end() {
            EndWord::Stopped => make_rounds(&mut machine)?,
            _ => break,
        }
    }
    Ok(machine)
}

fn make_rounds(machine: &mut Machine) -> Result<(), Memory> {
    for _round in 0..ROUNDS_AT_ONCE {
        machine.reserve(RECORDS_A_ROUND)?;
        machine.round();
    }
    Ok(())
}
