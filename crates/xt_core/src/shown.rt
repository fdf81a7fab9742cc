//! What comes of calls on a core, as the cases write it.

use std::fmt;
use xs_core::Did;
use xs_instr::{Moved, Record, Sent, Sight, Trap};
use xw_words::{IDENTIFIERS, Pos};

/// What stands in front of a port's name in its identifier.
const PREFIX: usize = 9;

/// What came of a turn.
#[derive(Clone, Copy)]
pub struct ShownTurn(pub Did);

impl fmt::Display for ShownTurn {
    fn fmt<W: fmt::Write>(&self, f: &mut fmt::Formatter<W>) -> fmt::Result {
        match self.0 {
            Did::Made(None) => f.write_str("made"),
            Did::Made(Some(record)) => show_record(f, record),
            Did::Paused => f.write_str("paused"),
            Did::Trapped(kind, pos) => show_trap(f, kind, pos),
            Did::Idle => f.write_str("idle"),
        }
    }
}

fn show_record<W: fmt::Write>(f: &mut fmt::Formatter<W>, record: Record) -> fmt::Result {
    match record {
        Record::Com { core, value } => write!(f, "com {core} {value}"),
        Record::PortOut {
            core,
            port,
            stamp,
            value,
        } => write!(f, "out {core} {} @{stamp} {value}", port_name(port)),
        Record::PortIn {
            core,
            port,
            stamp,
            value,
        } => write!(f, "in {core} {} @{stamp} {value}", port_name(port)),
        Record::Fault { kind, pos, .. } => show_trap(f, kind, pos),
    }
}

fn show_trap<W: fmt::Write>(f: &mut fmt::Formatter<W>, kind: Trap, pos: Pos) -> fmt::Result {
    let kind = match kind {
        Trap::Arithmetic => "arithmetic",
        Trap::Index => "index",
        Trap::Mismatch => "mismatch",
        Trap::Address => "address",
        Trap::Resource => "resource",
        Trap::Code => "code",
    };
    write!(f, "err {}:{} {kind}", pos.line, pos.col)
}

/// A port's name, as `32A`.
fn port_name(port: u8) -> &'static str {
    let Some(identifier) = IDENTIFIERS.get(port as usize) else {
        return "?";
    };
    let name = identifier.get(PREFIX..).unwrap_or(b"?");
    str::from_utf8(name).unwrap_or("?")
}

/// What was taken from the outbox.
#[derive(Clone, Copy)]
pub struct ShownSent(pub Option<Sent>);

impl fmt::Display for ShownSent {
    fn fmt<W: fmt::Write>(&self, f: &mut fmt::Formatter<W>) -> fmt::Result {
        let Some(Sent { to, tick, moved }) = self.0 else {
            return f.write_str("none");
        };
        match moved {
            Moved::Credit { end } => write!(f, "{tick} to {to} {end} credit"),
            Moved::Tok { end, token } => {
                let kind = if token.control { "control" } else { "data" };
                write!(f, "{tick} to {to} {end} {kind} {}", token.byte)
            }
        }
    }
}

/// How threads are counted.
#[derive(Clone, Copy)]
pub struct ShownSight(pub Sight);

impl fmt::Display for ShownSight {
    fn fmt<W: fmt::Write>(&self, f: &mut fmt::Formatter<W>) -> fmt::Result {
        let Sight {
            roots,
            used,
            trapped,
            ready,
            timed,
        } = self.0;
        write!(f, "{roots} {used} {trapped} {ready} {timed}")
    }
}
