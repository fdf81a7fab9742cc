//! What errors say. Here a text is the name of an error.

use crate::shown::Page;
use xc_disjoint::DisErr;
use xc_flat::FlatErr;
use xw_words::{Broken, Pos};

/// A rule, broken at 7:5.
fn broken(rule: u16) -> Broken {
    Broken {
        rule,
        pos: Pos { line: 7, col: 5 },
    }
}

/// The message of the error that a text names.
pub fn put_message(page: &mut Page, text: &[u8]) {
    match text {
        b"flat: broken" => page.show(&FlatErr::Broken(broken(509))),
        b"flat: memory" => page.show(&FlatErr::Memory),
        b"disjoint: broken" => page.show(&DisErr::Broken(broken(704))),
        b"disjoint: memory" => page.show(&DisErr::Memory),
        _ => page.put("no error"),
    }
}
