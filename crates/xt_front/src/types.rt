//! The types of a text's expressions.

ghost use Rattle.std.specs.Prelude.{◌≤◌, length};
ghost use Rattle.xw_words.specs.Limits.{longest_text};

use crate::shown::Page;
use crate::texts::{put_broken, tree_of, typed};
use std::alloc::Global;
use xc_names::resolve;
use xc_types::{TypeErr, check};

/// `ok` for a text that breaks no rule of types and shapes, or else the first that it breaks and where.
pub fn put_verdict(page: &mut Page, alloc: Global, text: &[u8])
    requires { length text.now ≤ longest_text }
{
    let Some(tree) = tree_of(alloc, text) else {
        return page.put("no names");
    };
    let Ok(named) = resolve(alloc, tree) else {
        return page.put("no names");
    };
    match check(alloc, named) {
        Ok(_) => page.put("ok"),
        Err(TypeErr::Broken(b)) => put_broken(page, b),
        Err(TypeErr::Memory) => page.put("out of memory"),
    }
}

/// For each node of a text's expressions `u` where it is `unsigned`, else `i`; or `none` where it has no types.
pub fn put_types(page: &mut Page, alloc: Global, text: &[u8])
    requires { length text.now ≤ longest_text }
{
    match typed(alloc, text) {
        Some(typed) => put_letters(page, typed.unsigned_at.as_slice()),
        None => page.put("none"),
    }
}

fn put_letters(page: &mut Page, unsigned_at: &[bool]) {
    for is_unsigned in unsigned_at {
        page.put(if *is_unsigned { "u" } else { "i" });
    }
}
