//! A tree as text. Each part of a tree is put with what stands before it.

mod items;
mod statements;

use crate::shown::page::Page;
use crate::shown::spelled::symbol;
pub use items::put_tree;
use xc_tree::{Arg, Ex, Expr, Rhs};
use xw_words::Pos;

/// The line that most texts of the cases have what they show in.
const OWN_LINE: u32 = 2;

/// A place: its column, and in front of that its line where it isn't `OWN_LINE`.
pub fn put_pos(page: &mut Page, before: &str, pos: Pos) {
    page.put(before);
    if pos.line != OWN_LINE {
        page.number(pos.line);
        page.put(":");
    }
    page.number(pos.col);
}

/// A name or an operator, and its place behind a `:`.
pub fn put_name(page: &mut Page, before: &str, name: &[u8], pos: Pos) {
    page.put(before);
    page.bytes(name);
    put_pos(page, ":", pos);
}

pub fn type_word(is_unsigned: bool) -> &'static str {
    if is_unsigned { "unsigned" } else { "int" }
}

/// An expression: a name or number as `x:place`, and else `(operator:place operand ..)`.
#[cycle(put_expr)]
pub fn put_expr(page: &mut Page, before: &str, e: &Expr) {
    page.put(before);
    match &e.kind {
        Ex::Num(n, is_unsigned) => {
            page.number(*n);
            return put_pos(page, if *is_unsigned { "u:" } else { ":" }, e.pos);
        }
        Ex::Name(t) => return put_name(page, "", t.as_slice(), e.pos),
        Ex::Index(t, i) => {
            put_name(page, "(", b"[", e.pos);
            page.put(" ");
            page.bytes(t.as_slice());
            put_expr(page, " ", i);
        }
        Ex::Un(o, a) => {
            put_name(page, "(", symbol(*o), e.pos);
            put_expr(page, " ", a);
        }
        Ex::Bin(o, a, b) => {
            put_name(page, "(", symbol(*o), e.pos);
            put_expr(page, " ", a);
            put_expr(page, " ", b);
        }
        Ex::Cond(c, a, b) => {
            put_name(page, "(", b"?", e.pos);
            put_expr(page, " ", c);
            put_expr(page, " ", a);
            put_expr(page, " ", b);
        }
        Ex::Cast(is_unsigned, a) => {
            put_name(page, "(", type_word(*is_unsigned).as_bytes(), e.pos);
            put_expr(page, " ", a);
        }
    }
    page.put(")");
}

/// A right side: an expression, or a call as `name:place(arguments)`.
pub fn put_rhs(page: &mut Page, before: &str, right: &Rhs) {
    match right {
        Rhs::Value(e) => put_expr(page, before, e),
        Rhs::Call { name, pos, args } => {
            put_name(page, before, name.as_slice(), *pos);
            put_args(page, args.as_slice());
        }
    }
}

/// The arguments of a call, each with the place of its first token.
fn put_args(page: &mut Page, args: &[Arg]) {
    page.put("(");
    for arg in args {
        put_expr(page, "", &arg.value);
        put_pos(page, " from ", arg.first);
        page.put(", ");
    }
    page.put(")");
}
