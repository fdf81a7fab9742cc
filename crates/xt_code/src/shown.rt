// How a run ends, and its records, as the cases write them.

use crate::machine::End;
use std::fmt;
use xs_instr::{Record, Trap};
use xw_words::IDENTIFIERS;

/// What stands in front of a port's name in its identifier.
const PREFIX: usize = 9;

#[derive(Clone, Copy)]
pub struct ShownEnd(pub End);

impl fmt::Display for ShownEnd {
    fn fmt<W: fmt::Write>(&self, f: &mut fmt::Formatter<W>) -> fmt::Result {
        match self.0 {
            End::Out(stamp, value) => write!(f, "@{stamp} {value}"),
            End::Trapped(trap, pos) => { write!(f, "err {}:{} {}", pos.line, pos.col, kind(trap)) }
            End::Stopped => f.write_str("stopped"),
        }
    }
}

/// A record, as `in 0 1B @5 1`.
#[derive(Clone, Copy)]
pub struct ShownRecord(pub Record);

impl fmt::Display for ShownRecord {
    fn fmt<W: fmt::Write>(&self, f: &mut fmt::Formatter<W>) -> fmt::Result {
        match self.0 {
            Record::Com { core, value } => write!(f, "com {core} {value}"),
            Record::PortOut {
                core,
                port,
                stamp,
                value,
            } => write!(f, "out {core} {} @{stamp} {value}", port_name(port)),
            Record::PortIn {
                core,
                port,
                stamp,
                value,
            } => write!(f, "in {core} {} @{stamp} {value}", port_name(port)),
            Record::Fault {
                core,
                pos,
                kind: trap,
            } => { write!(f, "err {core} {}:{} {}", pos.line, pos.col, kind(trap)) }
        }
    }
}

/// A port's name, as `32A`.
fn port_name(port: u8) -> &'static str {
    let Some(identifier) = IDENTIFIERS.get(port as usize) else {
        return "?";
    };
    let name = identifier.get(PREFIX..).unwrap_or(b"?");
    str::from_utf8(name).unwrap_or("?")
}

fn kind(trap: Trap) -> &'static str {
    match trap {
        Trap::Arithmetic => "arithmetic",
        Trap::Index => "index",
        Trap::Mismatch => "mismatch",
        Trap::Address => "address",
        Trap::Resource => "resource",
        Trap::Code => "code",
    }
}
