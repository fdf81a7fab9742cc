// Listings.
ghost use Rattle.std.specs.Prelude.{◌≡◌, ◌<◌, ◌^◌, ◌++◌, ◌∷◌, [], length, true, codes, decimal};
ghost use Rattle.xs_instr.specs.Texts.{all_texts, chan_line, code_line, code_lines, core_lines, dir_text, image_text, number_line, port_line, root_line, size_lines};
ghost use Rattle.xs_instr.specs.Valid.{AreGoodCores, IsGoodCore, Valid};
ghost use Rattle.xw_io.specs.Gathering.{Drew, Wrote};

use crate::instruction::add_instr;
use crate::numbers::{add_number, add_port, add_pos};
use xs_instr::{Code, CoreImage, Dir, Image, Instr, Pair, PortDecl};
use xw_io::{Out, Sink, SinkFault};
use xw_words::Pos;

/// Writes the listing of an image, and no other byte. `SinkFault` only where the sink has failed in
/// this call; what it has got is then a prefix.
pub fn write_code<O: Sink>(out: &mut Out<'_, O>, image: &Image) -> Result<(), SinkFault>
    requires usable { out.old.usable ≡ true }
    requires valid { Valid image.now }
    ensures same_sink { out.new.sink.ghost_name ≡ out.old.sink.ghost_name }
    ensures wrote { Wrote O.bytes O.faults out.old out.new (image_text image.now) result }
{
    add_image(out, image);
    out.outcome()
}

/// Adds the listing of an image, unless the sink has failed before.
pub fn add_image<O: Sink>(out: &mut Out<'_, O>, image: &Image)
    requires { Valid image.now }
    ensures same_sink { out.new.sink.ghost_name ≡ out.old.sink.ghost_name }
    ensures drew { Drew O.bytes O.faults out.old out.new (image_text image.now) }
{
    add_cores(out, image.cores.as_slice());
    add_chans(out, image.chans.as_slice());
}

fn add_cores<O: Sink>(out: &mut Out<'_, O>, cores: &[CoreImage])
    requires { AreGoodCores 0 cores.now }
    ensures same_sink { out.new.sink.ghost_name ≡ out.old.sink.ghost_name }
    ensures drew { Drew O.bytes O.faults out.old out.new (all_texts core_lines cores.now) }
{
    for i in 0..cores.len() {
        add_core(out, &cores[i]);
    }
}

fn add_core<O: Sink>(out: &mut Out<'_, O>, core: &CoreImage)
    requires { IsGoodCore core.now }
    ensures same_sink { out.new.sink.ghost_name ≡ out.old.sink.ghost_name }
    ensures drew { Drew O.bytes O.faults out.old out.new (core_lines core.now) }
{
    add_sizes(out, core);
    add_ports(out, core.ports.as_slice());
    add_roots(out, core.roots.as_slice());
    add_code(out, &core.code);
}

fn add_sizes<O: Sink>(out: &mut Out<'_, O>, core: &CoreImage)
    ensures same_sink { out.new.sink.ghost_name ≡ out.old.sink.ghost_name }
    ensures drew { Drew O.bytes O.faults out.old out.new (size_lines core.now) }
{
    add_number_line(out, b".core", core.number as u32);
    add_number_line(out, b".words", core.words);
    add_number_line(out, b".timers", core.timers);
    add_number_line(out, b".ends", core.ends);
}

fn add_number_line<O: Sink>(out: &mut Out<'_, O>, name: &[u8], n: u32)
    ensures same_sink { out.new.sink.ghost_name ≡ out.old.sink.ghost_name }
    ensures drew { Drew O.bytes O.faults out.old out.new (number_line name.now n) }
{
    out.add(name);
    out.add(b" ");
    add_number(out, n);
    out.add(b"\n");
}

fn add_ports<O: Sink>(out: &mut Out<'_, O>, ports: &[PortDecl])
    ensures same_sink { out.new.sink.ghost_name ≡ out.old.sink.ghost_name }
    ensures drew { Drew O.bytes O.faults out.old out.new (all_texts port_line ports.now) }
{
    for i in 0..ports.len() {
        add_port_line(out, ports[i]);
    }
}

fn add_port_line<O: Sink>(out: &mut Out<'_, O>, decl: PortDecl)
    ensures same_sink { out.new.sink.ghost_name ≡ out.old.sink.ghost_name }
    ensures drew { Drew O.bytes O.faults out.old out.new (port_line decl) }
{
    out.add(b".port ");
    add_port(out, decl.port);
    out.add(b" ");
    add_dir(out, decl.dir);
    out.add(b"\n");
}

fn add_dir<O: Sink>(out: &mut Out<'_, O>, dir: Dir)
    ensures same_sink { out.new.sink.ghost_name ≡ out.old.sink.ghost_name }
    ensures drew { Drew O.bytes O.faults out.old out.new (dir_text dir) }
{
    match dir {
        Dir::In => out.add(b"in"),
        Dir::Out => out.add(b"out"),
        Dir::Both => out.add(b"both"),
    }
}

fn add_roots<O: Sink>(out: &mut Out<'_, O>, roots: &[u32])
    ensures same_sink { out.new.sink.ghost_name ≡ out.old.sink.ghost_name }
    ensures drew { Drew O.bytes O.faults out.old out.new (all_texts root_line roots.now) }
{
    for i in 0..roots.len() {
        add_number_line(out, b".root", roots[i]);
    }
}

fn add_code<O: Sink>(out: &mut Out<'_, O>, code: &Code)
    requires few { length code.now.instrs < 2 ^ 32 }
    requires places { length code.now.«at» ≡ length code.now.instrs }
    ensures same_sink { out.new.sink.ghost_name ≡ out.old.sink.ghost_name }
    ensures drew { Drew O.bytes O.faults out.old out.new (code_lines 0 code.now.instrs code.now.«at») }
{
    add_code_lines(out, code.instrs.as_slice(), code.at.as_slice());
}

fn add_code_lines<O: Sink>(out: &mut Out<'_, O>, instrs: &[Instr], places: &[Pos])
    requires few { length instrs.now < 2 ^ 32 }
    requires places { length places.now ≡ length instrs.now }
    ensures same_sink { out.new.sink.ghost_name ≡ out.old.sink.ghost_name }
    ensures drew { Drew O.bytes O.faults out.old out.new (code_lines 0 instrs.now places.now) }
{
    for i in 0..instrs.len() {
        add_code_line(out, i as u32, instrs[i], places[i]);
    }
}

fn add_code_line<O: Sink>(out: &mut Out<'_, O>, index: u32, instr: Instr, pos: Pos)
    ensures same_sink { out.new.sink.ghost_name ≡ out.old.sink.ghost_name }
    ensures drew { Drew O.bytes O.faults out.old out.new (code_line index instr pos) }
{
    add_number(out, index);
    out.add(b": ");
    add_instr(out, instr);
    out.add(b" @");
    add_pos(out, pos);
    out.add(b"\n");
}

fn add_chans<O: Sink>(out: &mut Out<'_, O>, chans: &[Pair])
    ensures same_sink { out.new.sink.ghost_name ≡ out.old.sink.ghost_name }
    ensures drew { Drew O.bytes O.faults out.old out.new (all_texts chan_line chans.now) }
{
    for i in 0..chans.len() {
        add_chan_line(out, chans[i]);
    }
}

fn add_chan_line<O: Sink>(out: &mut Out<'_, O>, pair: Pair)
    ensures same_sink { out.new.sink.ghost_name ≡ out.old.sink.ghost_name }
    ensures drew { Drew O.bytes O.faults out.old out.new (chan_line pair) }
{
    out.add(b".chan ");
    add_number(out, pair.core as u32);
    out.add(b" ");
    add_number(out, pair.end);
    out.add(b" ");
    add_number(out, pair.peer_core as u32);
    out.add(b" ");
    add_number(out, pair.peer_end);
    out.add(b"\n");
}
