// What is found at the front of an end.

use xs_instr::Token;

/// What an input finds: a word or a byte, a control token, or too few tokens.
#[derive(Clone, Copy, PartialEq, Eq)]
pub enum Taken {
    Word(u32),
    Control(u8),
    NotYet,
}

/// What a check for a control token finds: that token, another one, or none.
#[derive(Clone, Copy, PartialEq, Eq)]
pub enum Checked1 {
    Passed,
    Other(Token),
    NotYet,
}
