// Numbers, places and ports.
ghost use Rattle.std.specs.Prelude.{◌≡◌, ◌++◌, ◌∷◌, [], codes, decimal};
ghost use Rattle.xs_instr.specs.Texts.{pos_text};
ghost use Rattle.xw_words.specs.Ports.{port_text};
ghost use Rattle.xw_io.specs.Gathering.{Drew};

use itoa::Buffer;
use xw_io::{Out, Sink};
use xw_words::Pos;

/// Adds a number in decimal, unless the sink has failed before.
pub fn add_number<O: Sink>(out: &mut Out<'_, O>, n: u32)
    ensures same_sink { out.new.sink.ghost_name ≡ out.old.sink.ghost_name }
    ensures drew { Drew O.bytes O.faults out.old out.new (decimal n) }
{
    let mut buffer = Buffer::new();
    out.add(buffer.format(n).as_bytes());
}

/// Adds a place as `LINE:COL`, unless the sink has failed before.
pub fn add_pos<O: Sink>(out: &mut Out<'_, O>, pos: Pos)
    ensures same_sink { out.new.sink.ghost_name ≡ out.old.sink.ghost_name }
    ensures drew { Drew O.bytes O.faults out.old out.new (pos_text pos) }
{
    add_number(out, pos.line);
    out.add(b":");
    add_number(out, pos.col);
}

/// Adds a port's identifier: its width and a letter.
pub fn add_port<O: Sink>(out: &mut Out<'_, O>, port: u8)
    ensures same_sink { out.new.sink.ghost_name ≡ out.old.sink.ghost_name }
    ensures drew { Drew O.bytes O.faults out.old out.new (port_text port) }
{
    match port {
        0..16 => out.add(&[b'1', b'A' + port]),
        16..22 => out.add(&[b'4', b'A' + (port - 16)]),
        22..26 => out.add(&[b'8', b'A' + (port - 22)]),
        26..28 => out.add(&[b'1', b'6', b'A' + (port - 26)]),
        _ => out.add(b"32A"),
    }
}
