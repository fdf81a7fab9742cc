//! Names as text.

use crate::shown::page::Page;
use xc_tree::{Decl, Named};

/// Puts the names that a text declares, and behind a `:` for each of its names the number of its declaration.
pub fn put_names(page: &mut Page, named: &Named) {
    put_decls(page, named.decls.as_slice());
    page.put(":");
    for number in named.uses.as_slice() {
        page.numbered(" ", *number);
    }
}

fn put_decls(page: &mut Page, decls: &[Decl]) {
    for decl in decls {
        page.bytes(decl.name.text.as_slice());
        page.put(" ");
    }
}
