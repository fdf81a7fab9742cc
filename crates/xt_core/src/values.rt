//! Single instructions: what each leaves in r3.

use crate::setup::Setup;
use crate::shown::ShownTurn;
use crate::trouble::Trouble;
use crate::turns::turn;
use std::alloc::{AllocError, Global};
use xr_listed::instr_of;
use xs_core::{Core, Did};
use xs_instr::{Instr, Record, Reg};

/// A line `A B INSTRUCTION = WANTED`.
#[derive(Clone, Copy)]
pub struct Line<'a> {
    first: u32,
    second: u32,
    instr: Instr,
    wanted: &'a str,
}

/// The parts of a line.
pub fn line_of(line: &str) -> Option<Line<'_>> {
    let (given, wanted) = line.split_once(" = ")?;
    let (first, given) = given.split_once(' ')?;
    let (second, instr) = given.split_once(' ')?;
    let (Ok(first), Ok(second)) = (first.parse::<u32>(), second.parse::<u32>()) else {
        return None;
    };
    let instr = instr_of(instr)?;
    Some(Line {
        first,
        second,
        instr,
        wanted,
    })
}

impl Line<'_> {
    /// Code that puts the two words into r1 and r2, executes the instruction, and puts r3 out.
    pub fn setup(&self, alloc: Global) -> Result<Setup, Trouble> {
        let code = [
            Instr::Ldc(Reg::R1, self.first),
            Instr::Ldc(Reg::R2, self.second),
            self.instr,
            Instr::Ldc(Reg::R0, 0),
            Instr::Out(Reg::R0, Reg::R3),
        ];
        let mut setup = Setup::new(alloc);
        for instr in &code {
            setup.instrs.push(*instr)?;
        }
        setup.roots.push(0)?;
        Ok(setup)
    }

    /// What came, where it isn't what is wanted.
    pub fn difference(&self, alloc: Global, core: &mut Core) -> Result<Option<String>, Trouble> {
        let came = value_of(alloc, core)?;
        if came.as_str() == self.wanted {
            return Ok(None);
        }
        Ok(Some(told(alloc, came.as_str())?))
    }
}

fn told(alloc: Global, came: &str) -> Result<String, AllocError> {
    format!(in alloc; "came: {came}")
}

/// The word that is put out at the thread's fifth turn, or what comes of the turn before at which it makes no silent step.
fn value_of(alloc: Global, core: &mut Core) -> Result<String, Trouble> {
    for _turn in 0..4 {
        let did = turn(core, 0)?;
        if did != Did::Made(None) {
            return Ok(shown(alloc, did)?);
        }
    }
    let did = turn(core, 0)?;
    Ok(last_shown(alloc, did)?)
}

fn last_shown(alloc: Global, did: Did) -> Result<String, AllocError> {
    match did {
        Did::Made(Some(Record::PortOut { value, .. })) => format!(in alloc; "{value}"),
        did => shown(alloc, did),
    }
}

fn shown(alloc: Global, did: Did) -> Result<String, AllocError> {
    format!(in alloc; "{}", ShownTurn(did))
}
