// The files and sinks of a call.

use crate::texts::{number, text_of};
use crate::trouble::Trouble;
use std::alloc::{AllocError, Global};
use std::sync::Wait;
use std::thread::Threads;
use xr_driver::{still, waits, xcsim};
use xw_io::{File, MemShelf, MemSink, OpenGate, Shelf};
use xw_words::{List, Memory};

/// The file that the lines of a case tell of at first.
const FIRST_FILE: &str = "a.xc";

/// The most bytes that a sink takes.
const MOST_BYTES: usize = 65_536;

/// Which call is made: the program's, or the one that waits for nobody.
#[derive(Clone, Copy)]
pub enum Call {
    Xcsim,
    Still,
}

impl Call {
    /// Its name, as it is told where something else comes than is wanted.
    pub fn name(self) -> &'static str {
        match self {
            Call::Xcsim => "xcsim",
            Call::Still => "still",
        }
    }
}

/// The files and sinks of a call.
#[derive(Drop)]
pub struct Outside {
    pub shelf: MemShelf,
    pub out: MemSink,
    pub err: MemSink,
}

/// What a case has at first.
pub fn outside_of(alloc: Global, case: &str) -> Result<Outside, Trouble> {
    let shelf = MemShelf::new(files_of(alloc, case)?, load_fails_of(alloc, case)?);
    let out = sink_of(alloc, case, "fails out ")?;
    let err = sink_of(alloc, case, "fails err ")?;
    Ok(Outside { shelf, out, err })
}

/// The files of a case: what its lines say of `a.xc`, and behind a line `file NAME` of the file of that name.
fn files_of(alloc: Global, case: &str) -> Result<List<File>, Trouble> {
    let mut files = List::new(alloc);
    let (first, _) = case.split_once("\nfile ").unwrap_or((case, ""));
    files.push(file_of(alloc, FIRST_FILE, first)?)?;
    for part in case.split("\nfile ").skip(1) {
        let (name, lines) = part.split_once('\n').unwrap_or((part, ""));
        files.push(file_of(alloc, name, lines)?)?;
    }
    Ok(files)
}

fn file_of(alloc: Global, name: &str, lines: &str) -> Result<File, Trouble> {
    let text = text_of(alloc, lines)?;
    let name = Vec::from_slice(alloc, name.as_bytes())?;
    Ok(File {
        name: List::from_vec(name),
        bytes: List::from_vec(text.into_bytes()),
    })
}

fn sink_of(alloc: Global, case: &str, whose: &str) -> Result<MemSink, Trouble> {
    let fails = fails_of(alloc, case, whose)?;
    Ok(MemSink::new(alloc, MOST_BYTES, fails)?)
}

/// The numbers of the calls that fail, in a case's lines that begin so.
fn fails_of(alloc: Global, case: &str, whose: &str) -> Result<List<u32>, Trouble> {
    let mut fails = List::new(alloc);
    for line in case.split('\n') {
        if let Some(text) = line.strip_prefix(whose) {
            fails.push(number(text)?)?;
        }
    }
    Ok(fails)
}

/// The numbers of the loads that fail. Where a case tells how many loads are made, the next one does.
fn load_fails_of(alloc: Global, case: &str) -> Result<List<u32>, Trouble> {
    let mut fails = fails_of(alloc, case, "fails load ")?;
    for line in case.split('\n') {
        if let Some(loads) = line.strip_prefix("loads ") {
            fails.push(number(loads)?.saturating_add(1))?;
        }
    }
    Ok(fails)
}

impl Outside {
    /// Makes a call with these words, and gives its status. Where they ask for workers it is the program's.
    pub fn call<R: Threads + Wait + Sync>(
        &mut self,
        rt: &R,
        alloc: Global,
        call: Call,
        words: &str,
    ) -> Result<u8, AllocError> {
        let words = word_list(alloc, words)?;
        let Outside { shelf, out, err } = self;
        if matches!(call, Call::Still) && !waits(words.as_slice()) {
            return Ok(still(alloc, words.as_slice(), shelf, out, err));
        }
        Ok(xcsim(rt, alloc, words.as_slice(), shelf, out, err, &OpenGate))
    }

    /// Whether as many files were loaded as a case tells, where it does: the load behind these fails, and that has to be this one.
    pub fn has_loads(&mut self, alloc: Global, case: &str) -> bool {
        !case.contains("\nloads ") || self.shelf.load(alloc, FIRST_FILE).is_err()
    }
}

fn word_list(alloc: Global, words: &str) -> Result<Vec<String>, AllocError> {
    let mut list = Vec::new(alloc);
    for word in words.split(' ') {
        if !word.is_empty() {
            list.push(String::from_str(alloc, word)?)?;
        }
    }
    Ok(list)
}
