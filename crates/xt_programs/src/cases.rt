//! Cases: a text, the stimulus of its run, and the lines that must come of it.

use std::alloc::{AllocError, AllocFailed, Global};
use xr_stim::StimErr;
use xw_io::SinkFault;
use xw_words::Memory;

/// A text, the stimulus of its run, and the lines that must come of it. Each line of the three ends with a line feed.
#[derive(Drop)]
pub struct Case {
    pub text: String,
    pub stimulus: String,
    pub wanted: String,
}

impl Case {
    /// A case by its lines: `| ..` is a line of the text, `stim ..` one of the stimulus, and `= ..` one that must come of it. A mark
    /// alone is an empty line.
    pub fn read(alloc: Global, lines: &str) -> Result<Case, Trouble> {
        let text = marked(alloc, lines, "|")?;
        let stimulus = marked(alloc, lines, "stim")?;
        let wanted = marked(alloc, lines, "=")?;
        if text.is_empty() || wanted.is_empty() {
            return Err(Trouble::Lines);
        }
        Ok(Case {
            text,
            stimulus,
            wanted,
        })
    }

    /// The first line of what came that differs from the one that must come, with that one.
    pub fn difference(&self, alloc: Global, came: &str) -> Result<Option<String>, AllocError> {
        let mut lines = came.split('\n');
        for wanted in self.wanted.as_str().split('\n') {
            let line = lines.next().unwrap_or("");
            if line != wanted {
                return Ok(Some(format!(in alloc; "wanted: {wanted}\ncame: {line}")?));
            }
        }
        match lines.next() {
            None => Ok(None),
            Some(line) => Ok(Some(format!(in alloc; "wanted: no line\ncame: {line}")?)),
        }
    }
}

/// What stands behind a mark and a space, line by line.
fn marked(alloc: Global, lines: &str, mark: &str) -> Result<String, AllocError> {
    let mut all = String::new(alloc);
    for line in lines.split('\n') {
        if let Some(rest) = line.strip_prefix(mark) {
            all.push_str(rest.strip_prefix(' ').unwrap_or(rest))?;
            all.push('\n')?;
        }
    }
    Ok(all)
}

/// Why a case can't be tried.
#[derive(Clone, Copy)]
pub enum Trouble {
    /// It has no text, or no line that must come of it.
    Lines,
    /// The text is too long or breaks a rule, or memory was wanting for its kernel.
    Text,
    /// The text has a statement whose code isn't built.
    Statement,
    /// The stimulus breaks a rule.
    Stimulus,
    /// What comes of it is longer than a case's may be.
    Long,
    Memory,
}

impl Trouble {
    /// What is said of it.
    pub fn message(self) -> &'static str {
        match self {
            Trouble::Lines => "no text, or no line that must come of it",
            Trouble::Text => "a text without a checked kernel",
            Trouble::Statement => "a statement whose code isn't built",
            Trouble::Stimulus => "a stimulus that breaks a rule",
            Trouble::Long => "more comes than a case may have",
            Trouble::Memory => "out of memory",
        }
    }
}

impl From<Memory> for Trouble {
    fn from(_: Memory) -> Trouble {
        Trouble::Memory
    }
}

impl From<AllocError> for Trouble {
    fn from(_: AllocError) -> Trouble {
        Trouble::Memory
    }
}

impl<T: Drop> From<AllocFailed<T>> for Trouble {
    fn from(_: AllocFailed<T>) -> Trouble {
        Trouble::Memory
    }
}

impl From<StimErr> for Trouble {
    fn from(error: StimErr) -> Trouble {
        match error {
            StimErr::Line { .. } => Trouble::Stimulus,
            StimErr::Memory => Trouble::Memory,
        }
    }
}

impl From<SinkFault> for Trouble {
    fn from(_: SinkFault) -> Trouble {
        Trouble::Long
    }
}
