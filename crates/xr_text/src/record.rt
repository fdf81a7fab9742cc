// Records and end words.
ghost use Rattle.std.specs.Prelude.{◌≡◌, ◌++◌, ◌∷◌, [], true, codes, decimal};
ghost use Rattle.xs_instr.specs.Texts.{HasGoodPort, end_text, record_line, record_text, transfer_text, trap_text};
ghost use Rattle.xw_io.specs.Gathering.{Drew, Wrote};

use crate::numbers::{add_number, add_port, add_pos};
use xs_instr::{EndWord, Record, Trap};
use xw_io::{Out, Sink, SinkFault};

/// Writes the line of a record, and no other byte. `SinkFault` only where the sink has failed in
/// this call; what it has got is then a prefix.
pub fn write_record<O: Sink>(out: &mut Out<'_, O>, r: &Record) -> Result<(), SinkFault>
    requires usable { out.old.usable ≡ true }
    requires port { HasGoodPort r.now }
    ensures same_sink { out.new.sink.ghost_name ≡ out.old.sink.ghost_name }
    ensures wrote { Wrote O.bytes O.faults out.old out.new (record_line r.now) result }
{
    add_record(out, r);
    out.outcome()
}

/// Adds the line of a record, unless the sink has failed before.
pub fn add_record<O: Sink>(out: &mut Out<'_, O>, r: &Record)
    ensures same_sink { out.new.sink.ghost_name ≡ out.old.sink.ghost_name }
    ensures drew { Drew O.bytes O.faults out.old out.new (record_line r.now) }
{
    add_record_text(out, *r);
    out.add(b"\n");
}

fn add_record_text<O: Sink>(out: &mut Out<'_, O>, r: Record)
    ensures same_sink { out.new.sink.ghost_name ≡ out.old.sink.ghost_name }
    ensures drew { Drew O.bytes O.faults out.old out.new (record_text r) }
{
    match r {
        Record::Com { core, value } => {
            out.add(b"com ");
            add_number(out, core as u32);
            out.add(b" ");
            add_number(out, value);
        }
        Record::PortOut {
            core,
            port,
            stamp,
            value,
        } => add_transfer(out, b"out", core, port, stamp, value),
        Record::PortIn {
            core,
            port,
            stamp,
            value,
        } => add_transfer(out, b"in", core, port, stamp, value),
        Record::Fault { core, pos, kind } => {
            out.add(b"err ");
            add_number(out, core as u32);
            out.add(b" ");
            add_pos(out, pos);
            out.add(b" ");
            add_trap(out, kind);
        }
    }
}

// Adds what passed a port, and when.
fn add_transfer<O: Sink>(
    out: &mut Out<'_, O>,
    name: &[u8],
    core: u8,
    port: u8,
    stamp: u16,
    value: u32,
)
    ensures same_sink { out.new.sink.ghost_name ≡ out.old.sink.ghost_name }
    ensures drew { Drew O.bytes O.faults out.old out.new (transfer_text name.now core port stamp value) }
{
    out.add(name);
    out.add(b" ");
    add_number(out, core as u32);
    out.add(b" ");
    add_port(out, port);
    out.add(b" @");
    add_number(out, stamp as u32);
    out.add(b" ");
    add_number(out, value);
}

fn add_trap<O: Sink>(out: &mut Out<'_, O>, kind: Trap)
    ensures same_sink { out.new.sink.ghost_name ≡ out.old.sink.ghost_name }
    ensures drew { Drew O.bytes O.faults out.old out.new (trap_text kind) }
{
    match kind {
        Trap::Arithmetic => out.add(b"arithmetic"),
        Trap::Index => out.add(b"index"),
        Trap::Mismatch => out.add(b"mismatch"),
        Trap::Address => out.add(b"address"),
        Trap::Resource => out.add(b"resource"),
        Trap::Code => out.add(b"code"),
    }
}

/// Adds the word for how a run ended, unless the sink has failed before.
pub fn add_word<O: Sink>(out: &mut Out<'_, O>, word: EndWord)
    ensures same_sink { out.new.sink.ghost_name ≡ out.old.sink.ghost_name }
    ensures drew { Drew O.bytes O.faults out.old out.new (end_text word) }
{
    match word {
        EndWord::Finished => out.add(b"finished"),
        EndWord::Trapped => out.add(b"trapped"),
        EndWord::Stuck => out.add(b"stuck"),
        EndWord::Stopped => out.add(b"stopped"),
    }
}
