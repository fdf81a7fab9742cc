//! The places of words in `WORDS`.

/// `break`
pub const BREAK_WORD: u8 = 0;

/// `case`
pub const CASE_WORD: u8 = 1;

/// `chan`
pub const CHAN_WORD: u8 = 2;

/// `chanend`
pub const CHANEND_WORD: u8 = 3;

/// `continue`
pub const CONTINUE_WORD: u8 = 4;

/// `default`
pub const DEFAULT_WORD: u8 = 5;

/// `do`
pub const DO_WORD: u8 = 6;

/// `else`
pub const ELSE_WORD: u8 = 7;

/// `for`
pub const FOR_WORD: u8 = 8;

/// `if`
pub const IF_WORD: u8 = 9;

/// `in`
pub const IN_WORD: u8 = 10;

/// `int`
pub const INT_WORD: u8 = 11;

/// `master`
pub const MASTER_WORD: u8 = 12;

/// `on`
pub const ON_WORD: u8 = 13;

/// `out`
pub const OUT_WORD: u8 = 14;

/// `par`
pub const PAR_WORD: u8 = 15;

/// `port`
pub const PORT_WORD: u8 = 16;

/// `pinseq`
pub const PINSEQ_WORD: u8 = 17;

/// `pinsneq`
pub const PINSNEQ_WORD: u8 = 18;

/// `return`
pub const RETURN_WORD: u8 = 19;

/// `select`
pub const SELECT_WORD: u8 = 20;

/// `slave`
pub const SLAVE_WORD: u8 = 21;

/// `stdcore`
pub const STDCORE_WORD: u8 = 22;

/// `tile`
pub const TILE_WORD: u8 = 23;

/// `timer`
pub const TIMER_WORD: u8 = 24;

/// `timerafter`
pub const TIMERAFTER_WORD: u8 = 25;

/// `unsigned`
pub const UNSIGNED_WORD: u8 = 26;

/// `void`
pub const VOID_WORD: u8 = 27;

/// `when`
pub const WHEN_WORD: u8 = 28;

/// `while`
pub const WHILE_WORD: u8 = 29;
