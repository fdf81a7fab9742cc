// Writing what was decided. No memory is taken here.

ghost use Rattle.std.specs.Prelude.{◌≡◌, ◌≢◌, ◌≤◌, ◌++◌, [], codes, true, false};
ghost use Rattle.xs_instr.specs.Texts.{all_texts, record_line};
ghost use Rattle.xw_io.specs.Gathering.{Drew};
ghost use Rattle.xr_driver.specs.Answers.{Delivered};
ghost use Rattle.xr_driver.specs.Lines.{bad_line, bound_line, broken_line, usage_line};
ghost use Rattle.xr_driver.specs.Decision.{outcome_of, printed_text, line_text, IsPrintable};
ghost use Rattle.xr_driver.specs.Outside.{Gave, span};

use crate::decide::{Decision, Line, Printed};
use itoa::Buffer;
use xr_text::{add_image, add_number, add_pos, add_record, add_word};
use xs_instr::Record;
use xw_io::{Out, Sink, SinkFault};
use xw_words::Broken;

const USAGE: &[u8] =
    b"usage: xcsim check FILE | asm FILE | run FILE [STIM] [--ticks N] [--workers W] | debug FILE STIM SCRIPT | make N | bench N | time FILE SPEC\n";

const WRITE_FAULT: u8 = 9;

/// Writes what is due, and answers the status: the one decided, or that of a write fault.
pub fn deliver<O: Sink, E: Sink>(decision: &Decision, out: &mut O, err: &mut E) -> u8
    requires { IsPrintable decision.now.printed }
    ensures delivered { Delivered (outcome_of decision.now) (span O.bytes O.faults out.old out.new)
        (span E.bytes E.faults err.old err.new) result }
    ensures out_counts { O.faults out.old ≤ O.faults out.new }
    ensures err_counts { E.faults err.old ≤ E.faults err.new }
{
    if put_printed(out, &decision.printed).is_err() {
        return WRITE_FAULT;
    }
    if !is_due(&decision.line) {
        return decision.status;
    }
    if put_line(err, &decision.line).is_err() {
        return WRITE_FAULT;
    }
    decision.status
}

fn put_printed<O: Sink>(sink: &mut O, printed: &Printed) -> Result<(), SinkFault>
    requires { IsPrintable printed.now }
    ensures { Gave (span O.bytes O.faults sink.old sink.new) (printed_text printed.now) result }
{
    let mut out = Out::new(sink);
    add_printed(&mut out, printed);
    out.settle();
    out.outcome()
}

/// Adds what is due on `out`, which is handed on at the end of each section.
fn add_printed<O: Sink>(out: &mut Out<'_, O>, printed: &Printed)
    requires { IsPrintable printed.now }
    ensures same_sink { out.new.sink.ghost_name ≡ out.old.sink.ghost_name }
    ensures drew { Drew O.bytes O.faults out.old out.new (printed_text printed.now) }
{
    match printed {
        Printed::Nothing => {}
        Printed::Accepted => out.add(b"accepted\n"),
        Printed::Code(image) => {
            out.add(b"code\n");
            add_image(out, image);
        }
        Printed::Bounds(image, numbers) => {
            out.add(b"code\n");
            add_image(out, image);
            out.settle();
            add_bounds(out, numbers.as_slice());
        }
        Printed::Whole(image, run) => {
            out.add(b"code\n");
            add_image(out, image);
            out.settle();
            out.add(b"trace\n");
            add_records(out, run.trace.as_slice());
            out.settle();
            out.add(b"end ");
            add_word(out, run.end);
            out.add(b"\n");
        }
    }
}

fn add_records<O: Sink>(out: &mut Out<'_, O>, records: &[Record])
    ensures same_sink { out.new.sink.ghost_name ≡ out.old.sink.ghost_name }
    ensures drew { Drew O.bytes O.faults out.old out.new (all_texts record_line records.now) }
{
    for i in 0..records.len() {
        add_record(out, &records[i]);
    }
}

fn add_bounds<O: Sink>(out: &mut Out<'_, O>, numbers: &[u64])
    ensures same_sink { out.new.sink.ghost_name ≡ out.old.sink.ghost_name }
    ensures drew { Drew O.bytes O.faults out.old out.new (all_texts bound_line numbers.now) }
{
    for i in 0..numbers.len() {
        add_bound(out, numbers[i]);
    }
}

/// Adds the bound of a route.
fn add_bound<O: Sink>(out: &mut Out<'_, O>, number: u64)
    ensures same_sink { out.new.sink.ghost_name ≡ out.old.sink.ghost_name }
    ensures drew { Drew O.bytes O.faults out.old out.new (bound_line number) }
{
    let mut buffer = Buffer::new();
    out.add(b"ticks ");
    out.add(buffer.format(number).as_bytes());
    out.add(b"\n");
}

fn put_line<O: Sink>(sink: &mut O, line: &Line) -> Result<(), SinkFault>
    ensures { Gave (span O.bytes O.faults sink.old sink.new) (line_text line.now) result }
{
    let mut out = Out::new(sink);
    add_line(&mut out, line);
    out.settle();
    out.outcome()
}

fn add_line<O: Sink>(out: &mut Out<'_, O>, line: &Line)
    ensures same_sink { out.new.sink.ghost_name ≡ out.old.sink.ghost_name }
    ensures drew { Drew O.bytes O.faults out.old out.new (line_text line.now) }
{
    match line {
        Line::Nothing => {}
        Line::Usage => add_usage(out),
        Line::NoFile(name) => add_about(out, b"no file ", name),
        Line::TooLong(name) => add_about(out, b"too long ", name),
        Line::ReadFault(name) => add_about(out, b"read fault ", name),
        Line::Broken(name, broken) => add_broken(out, name, *broken),
        Line::BadLine(name, line, rule) => add_bad_line(out, name, *line, *rule),
        Line::NoMemory => out.add(b"out of memory\n"),
    }
}

fn add_usage<O: Sink>(out: &mut Out<'_, O>)
    ensures same_sink { out.new.sink.ghost_name ≡ out.old.sink.ghost_name }
    ensures drew { Drew O.bytes O.faults out.old out.new usage_line }
{
    out.add(USAGE);
}

/// Adds what is wrong with a file.
fn add_about<O: Sink>(out: &mut Out<'_, O>, what: &[u8], file: &str)
    ensures same_sink { out.new.sink.ghost_name ≡ out.old.sink.ghost_name }
    ensures drew { Drew O.bytes O.faults out.old out.new (what.now ++ file.now ++ codes "\n") }
{
    out.add(what);
    out.add(file.as_bytes());
    out.add(b"\n");
}

/// Adds a rule that a file breaks, and its place.
fn add_broken<O: Sink>(out: &mut Out<'_, O>, file: &str, broken: Broken)
    ensures same_sink { out.new.sink.ghost_name ≡ out.old.sink.ghost_name }
    ensures drew { Drew O.bytes O.faults out.old out.new (broken_line file.now broken) }
{
    out.add(file.as_bytes());
    out.add(b":");
    add_pos(out, broken.pos);
    out.add(b": rule ");
    add_number(out, broken.rule as u32);
    out.add(b"\n");
}

/// Adds the line of a stimulus or of a text of routes that breaks a rule, and the rule.
fn add_bad_line<O: Sink>(out: &mut Out<'_, O>, file: &str, line: u32, rule: u16)
    ensures same_sink { out.new.sink.ghost_name ≡ out.old.sink.ghost_name }
    ensures drew { Drew O.bytes O.faults out.old out.new (bad_line file.now line rule) }
{
    out.add(file.as_bytes());
    out.add(b":");
    add_number(out, line);
    out.add(b": rule ");
    add_number(out, rule as u32);
    out.add(b"\n");
}

fn is_due(line: &Line) -> bool
    ensures due { result ≡ true → line_text line.now ≢ [] }
    ensures nothing { result ≡ false → line_text line.now ≡ [] }
{
    match line {
        Line::Nothing => false,
        _ => true,
    }
}
