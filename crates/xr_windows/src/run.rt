use xs_instr::{EndWord, Record};
use xw_words::List;

/// What a run tells: its records in order, how it ends, and whether a thread is trapped.
#[derive(Drop)]
pub struct Run {
    pub trace: List<Record>,
    pub end: EndWord,
    pub trapped: bool,
}
