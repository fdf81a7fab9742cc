//! Cases: code, and what comes of the calls on a core that runs it.

use crate::setup::Setup;
use crate::trouble::Trouble;
use crate::turns::{advance, answer};
use std::alloc::{AllocError, Global};
use xr_listed::instr_of;
use xs_core::Core;
use xs_instr::Token;

/// What a case begins with: its lines that are no calls.
pub fn setup_of(alloc: Global, case: &str) -> Result<Setup, Trouble> {
    let mut setup = Setup::new(alloc);
    for line in case.split('\n') {
        if !line.is_empty() && !line.starts_with('>') {
            add_line(&mut setup, line)?;
        }
    }
    Ok(setup)
}

/// Adds what a line of a case says.
fn add_line(setup: &mut Setup, line: &str) -> Result<(), Trouble> {
    let (word, rest) = line.split_once(' ').ok_or(Trouble::Line)?;
    match word {
        "case" => {}
        "root" => setup.roots.push(number(rest)?)?,
        "core" => setup.core = byte(rest)?,
        "data" => setup.token = Some(token(false, byte(rest)?)),
        "control" => setup.token = Some(token(true, byte(rest)?)),
        "stim" => setup.add_stimulus(rest)?,
        _ => add_instruction(setup, word, rest)?,
    }
    Ok(())
}

/// Adds an instruction, in front of which its index stands with a `:`.
fn add_instruction(setup: &mut Setup, index: &str, text: &str) -> Result<(), Trouble> {
    let index = number(index.strip_suffix(':').ok_or(Trouble::Line)?)?;
    if index as usize != setup.instrs.len() {
        return Err(Trouble::Line);
    }
    let instr = instr_of(text).ok_or(Trouble::Line)?;
    setup.instrs.push(instr)?;
    Ok(())
}

fn token(control: bool, byte: u8) -> Token {
    Token { control, byte }
}

fn byte(text: &str) -> Result<u8, Trouble> {
    match text.parse::<u8>() {
        Ok(byte) => Ok(byte),
        Err(_) => Err(Trouble::Line),
    }
}

fn number(text: &str) -> Result<u32, Trouble> {
    match text.parse::<u32>() {
        Ok(number) => Ok(number),
        Err(_) => Err(Trouble::Line),
    }
}

/// The first call of a case of which something else comes than is wanted, with what came, if there is one.
pub fn difference_of_calls(
    alloc: Global,
    core: &mut Core,
    case: &str,
) -> Result<Option<String>, Trouble> {
    for line in case.split('\n') {
        if let Some(call) = line.strip_prefix("> ") {
            let difference = difference(alloc, core, call)?;
            if difference.is_some() {
                return Ok(difference);
            }
        }
    }
    Ok(None)
}

/// Asks one thing several times, once for each answer that is wanted. The first answer that differs, with what was wanted.
fn difference(alloc: Global, core: &mut Core, call: &str) -> Result<Option<String>, Trouble> {
    let (asked, answers) = call.split_once(' ').ok_or(Trouble::Line)?;
    if asked == "tick" {
        advance(core, number(answers)?);
        return Ok(None);
    }
    for wanted in answers.split(", ") {
        let came = answer(alloc, core, asked)?;
        if came.as_str() != wanted {
            return Ok(Some(told(alloc, call, wanted, came.as_str())?));
        }
    }
    Ok(None)
}

fn told(alloc: Global, call: &str, wanted: &str, came: &str) -> Result<String, AllocError> {
    format!(in alloc; "> {call}\nwanted: {wanted}\ncame: {came}")
}
