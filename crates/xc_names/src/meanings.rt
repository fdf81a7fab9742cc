ghost use Rattle.std.specs.Prelude.{◌≡◌, ◌<◌, ◌+◌, ℕ, List, length, map, option_map, slice_get, Some, IfSome, IfOk, OnOk};
ghost use Rattle.xc_tree.specs.declared.names.Mark.TheVariants.{Declares};
ghost use Rattle.xc_tree.specs.Names.Scopes.{end_of};
ghost use Rattle.xc_names.specs.Ends.{AreEnds};
ghost use Rattle.xc_names.specs.Latest.{latest_of};
ghost use Rattle.xc_names.specs.Meanings.{AreMeanings, declared_by, spelling_of};
ghost use Rattle.xc_names.specs.Reads.{adds_one, ends_with, Finds, HasGlobals, HasReadTo, IsFound};

use crate::latest::Latest;
use std::alloc::Global;
use xc_tree::Mark;
use xw_words::{List, Memory};

/// What is known of the names before a place.
#[derive(Drop)]
struct Walk<'a> {
    /// For each spelling the declaration to look at first.
    latest: Latest<'a>,
    /// For each place where a name is declared, the declaration that it meant before.
    outer: List<Option<usize>>,
    /// For each place the declaration that its name means.
    meant: List<Option<usize>>,
}

/// For each place of the marks the declaration that its name means, if one is known.
pub fn meanings(
    alloc: Global,
    marks: &[Mark],
    ends: &[usize],
) -> Result<List<Option<usize>>, Memory>
    requires { AreEnds marks.now ends.now }
    ensures { IfOk result (λ meant. AreMeanings marks.now meant) }
{
    let mut walk = Walk {
        latest: globals(alloc, marks, ends)?,
        outer: List::new(alloc),
        meant: List::new(alloc),
    };
    read_all(&mut walk, marks, ends)?;
    Ok(walk.meant)
}

/// Reads all marks.
fn read_all<'a>(walk: &mut Walk<'a>, marks: &'a [Mark], ends: &[usize]) -> Result<(), Memory>
    requires { HasReadTo marks.now ends.now walk.old 0 }
    ensures { OnOk result (HasReadTo marks.now ends.now walk.new (length marks.now)) }
{
    for at in 0..marks.len() {
        read(walk, marks, ends, at)?;
    }
    Ok(())
}

/// Of each spelling the first declaration that is known in the whole text.
fn globals<'a>(alloc: Global, marks: &'a [Mark], ends: &[usize]) -> Result<Latest<'a>, Memory>
    requires { AreEnds marks.now ends.now }
    ensures { IfOk result (λ latest. HasGlobals marks.now (latest_of latest) (length marks.now)) }
{
    let mut latest = Latest::new(alloc);
    for at in 0..marks.len() {
        keep_global(&mut latest, marks, ends, at)?;
    }
    Ok(latest)
}

fn keep_global<'a>(
    latest: &mut Latest<'a>,
    marks: &'a [Mark],
    ends: &[usize],
    at: usize,
) -> Result<(), Memory>
    requires ends { AreEnds marks.now ends.now }
    requires within { at < length marks.now }
    requires so_far { HasGlobals marks.now (latest_of latest.old) at }
    ensures { OnOk result (HasGlobals marks.now (latest_of latest.new) (at + 1)) }
{
    let Some(name) = declared(&marks[at]) else {
        return Ok(());
    };
    if ends[at] < marks.len() {
        return Ok(());
    }
    match latest.get(name) {
        Some(_) => Ok(()),
        None => {
            latest.keep(name, at)?;
            Ok(())
        }
    }
}

/// Reads one mark.
fn read<'a>(walk: &mut Walk<'a>, marks: &'a [Mark], ends: &[usize], at: usize) -> Result<(), Memory>
    requires within { at < length marks.now }
    requires before { HasReadTo marks.now ends.now walk.old at }
    ensures { OnOk result (HasReadTo marks.now ends.now walk.new (at + 1)) }
{
    let mark = &marks[at];
    let Some(name) = spelling(mark) else {
        walk.outer.push(None)?;
        walk.meant.push(None)?;
        return Ok(());
    };
    let found = find(ends, walk.outer.as_slice(), walk.latest.get(name), at);
    if is_new(mark, ends, found, at) {
        walk.latest.keep(name, at)?;
        walk.outer.push(found)?;
        walk.meant.push(Some(at))?;
        return Ok(());
    }
    walk.outer.push(None)?;
    walk.meant.push(found)?;
    Ok(())
}

/// Whether a mark declares a name in an inner scope in which it isn't declared yet.
fn is_new(mark: &Mark, ends: &[usize], found: Option<usize>, at: usize) -> bool
    requires at { at < length ends.now }
    requires found { IfSome found (λ d. d < length ends.now) }
    ensures { result ≡ adds_one mark.now ends.now at found }
{
    match declared(mark) {
        None => false,
        Some(_) => ends[at] < ends.len() && !is_in_scope(ends, found, at),
    }
}

/// Whether what was found is declared in the scope of a place.
fn is_in_scope(ends: &[usize], found: Option<usize>, at: usize) -> bool
    requires at { at < length ends.now }
    requires found { IfSome found (λ d. d < length ends.now) }
    ensures { result ≡ ends_with ends.now at found }
{
    match found {
        None => false,
        Some(d) => ends[d] == ends[at],
    }
}

/// How the name is spelled that a mark has, if it has one.
fn spelling(mark: &Mark) -> Option<&[u8]>
    ensures { option_map (λ name. name.now) result ≡ spelling_of mark.now }
{
    match mark {
        Mark::Opens => None,
        Mark::Closes => None,
        Mark::Declares(decl) => Some(decl.name.text.as_slice()),
        Mark::Uses(name) => Some(name.text.as_slice()),
        Mark::Calls(name) => Some(name.text.as_slice()),
    }
}

/// How the name is spelled that a mark declares, if it declares one.
fn declared(mark: &Mark) -> Option<&[u8]>
    ensures { option_map (λ name. name.now) result ≡ declared_by mark.now }
{
    match mark {
        Mark::Opens => None,
        Mark::Closes => None,
        Mark::Declares(decl) => Some(decl.name.text.as_slice()),
        Mark::Uses(_) => None,
        Mark::Calls(_) => None,
    }
}

/// From one declaration outwards the first whose scope hasn't ended at a place.
fn find(ends: &[usize], outer: &[Option<usize>], from: Option<usize>, at: usize) -> Option<usize>
    requires { IsFound ends.now outer.now at from }
    ensures { Finds ends.now outer.now at from result }
{
    let mut next = from;
    'out: while let Some(d) = next {
        if at < ends[d] {
            return Some(d);
        }
        next = outer[d];
    }
    None
}
