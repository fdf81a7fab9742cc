//! Spellings.

use xc_tree::{SYMBOLS, WORDS};

/// The spelling of a symbol.
pub fn symbol(place: u8) -> &'static [u8] {
    SYMBOLS
        .get(usize::from(place))
        .copied()
        .unwrap_or(b"unknown")
}

/// The spelling of a word.
pub fn word(place: u8) -> &'static [u8] {
    WORDS.get(usize::from(place)).copied().unwrap_or(b"unknown")
}
