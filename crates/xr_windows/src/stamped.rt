use xs_instr::Record;

/// A record with the tick at which it was made.
#[derive(Clone, Copy)]
pub struct Stamped {
    pub tick: u32,
    pub made: Record,
}
