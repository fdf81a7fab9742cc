//! Runs of calls on two ends, with answers that were worked out by hand.

ghost use Rattle.std.specs.Prelude.{◌<◌, length};

use std::alloc::Global;
use xs_chanend::{Checked1, Ends, Taken};
use xs_instr::Token;
use xw_words::Memory;

#[derive(Clone, Copy)]
pub enum Call {
    Data(u8),
    Control(u8),
    Word,
    Byte,
    Check(u8),
    Any,
    Credits,
    Spend(u32),
    Credit,
}

#[derive(Clone, Copy, PartialEq)]
pub enum Answer {
    Flag(bool),
    Count(u32),
    Found(Taken),
    Checked(Checked1),
    Done,
}

fn token(control: bool, byte: u8) -> Token {
    Token { control, byte }
}

/// What a call answers. A credit that is one too many is not given.
fn called(ends: &mut Ends, end: u32, call: Call) -> Answer
    requires { end < length ends.old }
{
    match call {
        Call::Data(byte) => Answer::Flag(ends.put(end, token(false, byte))),
        Call::Control(byte) => Answer::Flag(ends.put(end, token(true, byte))),
        Call::Word => Answer::Found(ends.take_word(end)),
        Call::Byte => Answer::Found(ends.take_byte(end)),
        Call::Check(c) => Answer::Checked(ends.check(end, c)),
        Call::Any => Answer::Flag(ends.any(end)),
        Call::Credits => Answer::Count(ends.credits(end)),
        Call::Spend(n) => Answer::Flag(ends.spend(end, n)),
        Call::Credit if ends.credits(end) < 8 => {
            ends.credit(end);
            Answer::Done
        }
        Call::Credit => Answer::Flag(false),
    }
}

/// The place of the first call on two new ends that is answered otherwise.
pub fn wrong_call(alloc: Global, table: &[(u32, Call, Answer)]) -> Result<Option<usize>, Memory> {
    let mut ends = Ends::new(alloc, 2)?;
    for (place, (end, call, want)) in table.iter().enumerate() {
        if !ends.has(*end) || called(&mut ends, *end, *call) != *want {
            return Ok(Some(place));
        }
    }
    Ok(None)
}

/// Nothing is there, then a word byte by byte, behind which a control token waits. A control token is told where fewer than four are there.
pub const WORDS: [(u32, Call, Answer); 27] = [
    (0, Call::Any, Answer::Flag(false)),
    (0, Call::Word, Answer::Found(Taken::NotYet)),
    (0, Call::Byte, Answer::Found(Taken::NotYet)),
    (0, Call::Check(1), Answer::Checked(Checked1::NotYet)),
    (0, Call::Data(0x12), Answer::Flag(true)),
    (0, Call::Any, Answer::Flag(true)),
    (1, Call::Any, Answer::Flag(false)),
    (0, Call::Data(0x34), Answer::Flag(true)),
    (0, Call::Data(0x56), Answer::Flag(true)),
    (0, Call::Word, Answer::Found(Taken::NotYet)),
    (
        0,
        Call::Check(0x12),
        Answer::Checked(Checked1::Other(Token {
            control: false,
            byte: 0x12,
        })),
    ),
    (0, Call::Data(0x78), Answer::Flag(true)),
    (0, Call::Control(1), Answer::Flag(true)),
    (0, Call::Word, Answer::Found(Taken::Word(0x1234_5678))),
    (0, Call::Word, Answer::Found(Taken::Control(1))),
    (0, Call::Byte, Answer::Found(Taken::Control(1))),
    (
        0,
        Call::Check(2),
        Answer::Checked(Checked1::Other(Token {
            control: true,
            byte: 1,
        })),
    ),
    (0, Call::Check(1), Answer::Checked(Checked1::Passed)),
    (0, Call::Any, Answer::Flag(false)),
    (1, Call::Data(1), Answer::Flag(true)),
    (1, Call::Data(0xfe), Answer::Flag(true)),
    (1, Call::Control(7), Answer::Flag(true)),
    (1, Call::Word, Answer::Found(Taken::Control(7))),
    (1, Call::Byte, Answer::Found(Taken::Word(1))),
    (1, Call::Byte, Answer::Found(Taken::Word(0xfe))),
    (1, Call::Check(7), Answer::Checked(Checked1::Passed)),
    (1, Call::Byte, Answer::Found(Taken::NotYet)),
];

/// Eight tokens and no ninth; then the ring goes round.
pub const FULL: [(u32, Call, Answer); 14] = [
    (1, Call::Data(0), Answer::Flag(true)),
    (1, Call::Data(1), Answer::Flag(true)),
    (1, Call::Data(2), Answer::Flag(true)),
    (1, Call::Data(3), Answer::Flag(true)),
    (1, Call::Data(4), Answer::Flag(true)),
    (1, Call::Data(5), Answer::Flag(true)),
    (1, Call::Data(6), Answer::Flag(true)),
    (1, Call::Data(7), Answer::Flag(true)),
    (1, Call::Data(8), Answer::Flag(false)),
    (1, Call::Word, Answer::Found(Taken::Word(0x0001_0203))),
    (1, Call::Data(8), Answer::Flag(true)),
    (1, Call::Word, Answer::Found(Taken::Word(0x0405_0607))),
    (1, Call::Byte, Answer::Found(Taken::Word(8))),
    (1, Call::Byte, Answer::Found(Taken::NotYet)),
];

/// Credits are spent as far as they are there.
pub const CREDITS: [(u32, Call, Answer); 11] = [
    (0, Call::Credits, Answer::Count(8)),
    (0, Call::Spend(9), Answer::Flag(false)),
    (0, Call::Credits, Answer::Count(8)),
    (0, Call::Spend(8), Answer::Flag(true)),
    (0, Call::Credits, Answer::Count(0)),
    (0, Call::Spend(1), Answer::Flag(false)),
    (0, Call::Spend(0), Answer::Flag(true)),
    (0, Call::Credit, Answer::Done),
    (0, Call::Credits, Answer::Count(1)),
    (0, Call::Spend(1), Answer::Flag(true)),
    (1, Call::Credits, Answer::Count(8)),
];
