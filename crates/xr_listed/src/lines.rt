// The lines of a listing.

use crate::instructions::instr_of;
use crate::reader::ListingErr;
use std::alloc::Global;
use xs_instr::{Code, CoreImage, Dir, Instr, Pair, PortDecl};
use xw_words::{IDENTIFIERS, List, PORT_COUNT, Pos};

/// What stands in front of a port's name where a program's text has it.
const PREFIX: usize = 9;

/// The core of which these are the lines, behind `.core `, and the channels that stand among them.
pub fn core_of(alloc: Global, text: &str, chans: &mut List<Pair>) -> Result<CoreImage, ListingErr> {
    let (number, lines) = text.split_once('\n').ok_or(ListingErr::Line)?;
    let mut core = CoreImage {
        number: byte(number)?,
        words: 0,
        timers: 0,
        ends: 0,
        ports: List::new(alloc),
        roots: List::new(alloc),
        code: Code {
            instrs: List::new(alloc),
            at: List::new(alloc),
        },
    };
    for line in lines.split('\n') {
        if !line.is_empty() {
            add_line(&mut core, chans, line)?;
        }
    }
    Ok(core)
}

/// Adds what a line says.
fn add_line(core: &mut CoreImage, chans: &mut List<Pair>, line: &str) -> Result<(), ListingErr> {
    let (word, rest) = line.split_once(' ').ok_or(ListingErr::Line)?;
    match word {
        ".words" => core.words = number(rest)?,
        ".timers" => core.timers = number(rest)?,
        ".ends" => core.ends = number(rest)?,
        ".port" => core.ports.push(port_of(rest)?)?,
        ".root" => core.roots.push(number(rest)?)?,
        ".chan" => chans.push(pair_of(rest)?)?,
        _ => add_instruction(&mut core.code, word, rest)?,
    }
    Ok(())
}

/// Adds an instruction, in front of which its index stands with a `:`, and behind it its place. Where it has none it stands in
/// column 5 of a line of its index.
fn add_instruction(code: &mut Code, index: &str, text: &str) -> Result<(), ListingErr> {
    let index = number(index.strip_suffix(':').ok_or(ListingErr::Line)?)?;
    if index as usize != code.instrs.len() {
        return Err(ListingErr::Line);
    }
    let (instr, pos) = placed(index, text)?;
    code.instrs.push(instr)?;
    code.at.push(pos)?;
    Ok(())
}

/// An instruction with its place.
fn placed(index: u32, text: &str) -> Result<(Instr, Pos), ListingErr> {
    let Some((text, place)) = text.split_once(" @") else {
        let instr = instr_of(text).ok_or(ListingErr::Line)?;
        return Ok((
            instr,
            Pos {
                line: index,
                col: 5,
            },
        ));
    };
    let instr = instr_of(text).ok_or(ListingErr::Line)?;
    let (line, col) = place.split_once(':').ok_or(ListingErr::Line)?;
    let line = number(line)?;
    let col = number(col)?;
    Ok((instr, Pos { line, col }))
}

/// A port's name and the way it goes.
fn port_of(text: &str) -> Result<PortDecl, ListingErr> {
    let (name, dir) = text.split_once(' ').ok_or(ListingErr::Line)?;
    let dir = match dir {
        "in" => Dir::In,
        "out" => Dir::Out,
        "both" => Dir::Both,
        _ => return Err(ListingErr::Line),
    };
    let port = port_named(name).ok_or(ListingErr::Line)?;
    Ok(PortDecl { port, dir })
}

/// The place of a port by its name.
fn port_named(name: &str) -> Option<u8> {
    for port in 0..PORT_COUNT {
        if IDENTIFIERS[port as usize].get(PREFIX..) == Some(name.as_bytes()) {
            return Some(port);
        }
    }
    None
}

/// The two ends of a channel: four numbers.
fn pair_of(text: &str) -> Result<Pair, ListingErr> {
    let (core, rest) = text.split_once(' ').ok_or(ListingErr::Line)?;
    let (end, rest) = rest.split_once(' ').ok_or(ListingErr::Line)?;
    let (peer_core, peer_end) = rest.split_once(' ').ok_or(ListingErr::Line)?;
    let core = byte(core)?;
    let end = number(end)?;
    let peer_core = byte(peer_core)?;
    let peer_end = number(peer_end)?;
    Ok(Pair {
        core,
        end,
        peer_core,
        peer_end,
    })
}

fn byte(text: &str) -> Result<u8, ListingErr> {
    match text.parse::<u8>() {
        Ok(byte) => Ok(byte),
        Err(_) => Err(ListingErr::Line),
    }
}

fn number(text: &str) -> Result<u32, ListingErr> {
    match text.parse::<u32>() {
        Ok(number) => Ok(number),
        Err(_) => Err(ListingErr::Line),
    }
}
