//! Tokens as text.

use crate::shown::page::Page;
use crate::shown::spelled::{symbol, word};
use xc_tree::{Kind, Tok};

/// Puts tokens, parted by `, `.
pub fn put_tokens(page: &mut Page, toks: &[Tok]) {
    for tok in toks {
        if !page.is_empty() {
            page.put(", ");
        }
        put_token(page, tok);
    }
}

/// A token as `line:column kind spelling`.
fn put_token(page: &mut Page, tok: &Tok) {
    page.place(tok.pos);
    match &tok.kind {
        Kind::Name(name) => {
            page.put(" name ");
            page.bytes(name.as_slice());
        }
        Kind::Num(value, is_unsigned) => {
            page.put(if *is_unsigned { " unsigned " } else { " int " });
            page.number(*value);
        }
        Kind::Key(place) => {
            page.put(" word ");
            page.bytes(word(*place));
        }
        Kind::Sym(place) => {
            page.put(" ");
            page.bytes(symbol(*place));
        }
    }
}
