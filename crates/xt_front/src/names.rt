//! What the names of a text mean.

ghost use Rattle.std.specs.Prelude.{◌≤◌, length};
ghost use Rattle.xw_words.specs.Limits.{longest_text};

use crate::shown::{Page, put_names};
use crate::texts::{put_broken, tree_of};
use std::alloc::Global;
use xc_names::{NameErr, resolve};

/// The names that a text declares, and behind a `:` for each of its names the number of its declaration; or the rule that
/// it breaks and where.
pub fn put_meanings(page: &mut Page, alloc: Global, text: &[u8])
    requires { length text.now ≤ longest_text }
{
    let Some(tree) = tree_of(alloc, text) else {
        return page.put("no tree");
    };
    match resolve(alloc, tree) {
        Ok(named) => put_names(page, &named),
        Err(NameErr::Broken(b)) => put_broken(page, b),
        Err(NameErr::Memory) => page.put("out of memory"),
    }
}
