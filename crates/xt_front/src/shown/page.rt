//! Texts that grow by pieces.

use itoa::Buffer;
use std::alloc::{AllocError, Global};
use std::fmt;
use std::fmt::Write;
use xw_words::Pos;

/// A text that grows by pieces. A piece for which memory is wanting is left out, which is told in the end: so what puts pieces
/// goes on to the next in each case, and has no error to hand on.
#[derive(Drop)]
pub struct Page {
    text: String,
    is_whole: bool,
}

impl Page {
    /// A text without pieces so far.
    pub fn new(alloc: Global) -> Page {
        Page {
            text: String::new(alloc),
            is_whole: true,
        }
    }

    /// Whether it has no pieces so far.
    pub fn is_empty(&self) -> bool {
        self.text.is_empty()
    }

    /// Adds a piece.
    pub fn put(&mut self, piece: &str) {
        if self.text.push_str(piece).is_err() {
            self.is_whole = false;
        }
    }

    /// Adds bytes, as characters.
    pub fn bytes(&mut self, bytes: &[u8]) {
        for b in bytes {
            if self.text.push(char::from(*b)).is_err() {
                self.is_whole = false;
            }
        }
    }

    /// Adds a number.
    pub fn number(&mut self, number: u32) {
        self.put(Buffer::new().format(number));
    }

    /// Adds a name, and a number behind it.
    pub fn numbered(&mut self, name: &str, number: u32) {
        self.put(name);
        self.number(number);
    }

    /// Adds a place as `line:column`.
    pub fn place(&mut self, pos: Pos) {
        self.number(pos.line);
        self.numbered(":", pos.col);
    }

    /// Adds what a value is printed as.
    pub fn show<T: fmt::Display>(&mut self, value: &T) {
        if write!(self.text, "{value}").is_err() {
            self.is_whole = false;
        }
    }

    /// The text, unless a piece was left out.
    pub fn text(self) -> Result<String, AllocError> {
        if self.is_whole {
            Ok(self.text)
        } else {
            Err(AllocError)
        }
    }
}
