//! Listings and records, as they are written, and stimuli, as they are read.

ghost use Rattle.xs_instr.specs.Valid.{Valid};

use crate::stimuli;
use std::alloc::Global;
use xr_listed::{ListingErr, read_image};
use xr_text::{add_instr, add_number, add_pos, add_record, add_word, write_code, write_record};
use xs_instr::{Cond, EndWord, GetKind, Image, Instr, Record, Reg, Trap};
use xw_io::{MemSink, Out, SinkFault};
use xw_words::{List, Memory, Pos};

const INSTRUCTIONS: [Instr; 9] = [
    Instr::Sub(Reg::R0, Reg::R9, Reg::Lr),
    Instr::Addi(Reg::R0, Reg::R1, 4),
    Instr::Getst(Reg::R11, Reg::R10),
    Instr::Ldc(Reg::Cp, 4294967295),
    Instr::Getr(Reg::R2, GetKind::Lock),
    Instr::Setc(Reg::R3, Cond::After),
    Instr::Setdp(Reg::Dp),
    Instr::Brfu(17),
    Instr::Ssync,
];

const RECORDS: [Record; 4] = [
    Record::Com {
        core: 1,
        value: 4000000000,
    },
    Record::PortOut {
        core: 0,
        port: 17,
        stamp: 65535,
        value: 9,
    },
    Record::PortIn {
        core: 3,
        port: 27,
        stamp: 0,
        value: 1,
    },
    Record::Fault {
        core: 2,
        pos: Pos { line: 12, col: 5 },
        kind: Trap::Index,
    },
];

/// The instructions, each in a line; small pieces behind one another; and the records.
const TEXTS: &str = "\
SUB r0, r9, lr
ADDI r0, r1, 4
GETST r11, r10
LDC cp, 4294967295
GETR r2, LOCK
SETC r3, AFTER
SETDP dp
BRFU 17
SSYNC
stuck103:40com 0 7
com 1 4000000000
out 0 4B @65535 9
in 3 16B @0 1
err 2 12:5 index
";

/// Writes the instructions and the small pieces.
fn add_pieces(sink: &mut MemSink) {
    let mut out = Out::new(sink);
    for instr in &INSTRUCTIONS {
        add_instr(&mut out, *instr);
        out.add(b"\n");
    }
    add_word(&mut out, EndWord::Stuck);
    add_number(&mut out, 10);
    add_pos(&mut out, Pos { line: 3, col: 40 });
    add_record(&mut out, &Record::Com { core: 0, value: 7 });
    out.settle();
}

/// Whether the records are written, each for itself.
fn are_records_written(sink: &mut MemSink) -> bool {
    for record in &RECORDS {
        let mut out = Out::new(sink);
        if write_record(&mut out, record).is_err() {
            return false;
        }
        out.settle();
    }
    true
}

/// Whether the instructions, the pieces and the records have their texts.
fn have_texts(alloc: Global) -> Result<bool, Memory> {
    let mut sink = sink_of(alloc, 4096)?;
    add_pieces(&mut sink);
    let are_written = are_records_written(&mut sink);
    Ok(are_written && sink.bytes() == TEXTS.as_bytes())
}

fn sink_of(alloc: Global, room: usize) -> Result<MemSink, Memory> {
    MemSink::new(alloc, room, List::new(alloc))
}

/// Two cores, with a channel between them.
const LISTING: &str = "\
.core 0
.words 16384
.timers 10
.ends 1
.port 1A out
.port 8D in
.port 32A both
.root 0
.root 2
0: LDC r0, 70 @2:24
1: BRBU 0 @3:1
2: FREET @10:5
.core 3
.words 0
.timers 0
.ends 1
.root 0
0: WAITEU @1:9
.chan 3 0 0 0
";

/// What comes of a listing behind so many bytes, and of these.
fn written(sink: &mut MemSink, before: &[u8], image: &Image) -> [Result<(), SinkFault>; 2]
    requires { Valid image.now }
{
    let mut out = Out::new(sink);
    let outcome = out.write(before);
    if outcome.is_err() {
        return [outcome, outcome];
    }
    let listed = write_code(&mut out, image);
    out.settle();
    [outcome, listed]
}

/// Whether an image has its listing.
fn has_listing(alloc: Global, image: &Image) -> Result<bool, Memory>
    requires { Valid image.now }
{
    let mut sink = sink_of(alloc, 4096)?;
    let outcomes = written(&mut sink, b"", image);
    Ok(outcomes == [Ok(()), Ok(())] && sink.bytes() == LISTING.as_bytes())
}

/// Whether a fault in between leaves a front of it: 50 bytes behind 4,000 others.
fn has_front(alloc: Global, image: &Image) -> Result<bool, Memory>
    requires { Valid image.now }
{
    let mut sink = sink_of(alloc, 4050)?;
    let outcomes = written(&mut sink, &[b'-'; 4000], image);
    let bytes = sink.bytes();
    Ok(
        outcomes == [Ok(()), Err(SinkFault)]
            && bytes.len() == 4050
            && bytes.ends_with(b"-.core 0\n.words 16384\n.timers 10\n.ends 1\n.port 1A o"),
    )
}

fn are_listings_so(alloc: Global) -> Result<[Result<bool, Memory>; 2], ListingErr> {
    let image = read_image(alloc, LISTING)?;
    Ok([has_listing(alloc, &image), has_front(alloc, &image)])
}

/// Instructions, small pieces and records have their texts, and an image its listing; a fault in between leaves a front of it.
#[test]
fn texts_are_written(rt: HostRuntime) {
    let results = (have_texts(rt.alloc()), are_listings_so(rt.alloc()));
    assert_eq!(rt; results, (Ok(true), Ok([Ok(true); 2])));
}

/// Good stimuli are read, bad ones are refused by the line and the rule, and so is a line behind 100,000.
#[test]
fn stimuli_are_read_and_refused(rt: HostRuntime) {
    let alloc = rt.alloc();
    let wrong = [
        Ok(stimuli::wrong_good_text(alloc)),
        Ok(stimuli::wrong_bad_text(alloc)),
        stimuli::wrong_last_line(alloc),
    ];
    let results = (wrong, stimuli::are_100000_lines_read(alloc));
    assert_eq!(rt; results, ([Ok(None); 3], Ok(true)));
}
