ghost use Rattle.std.specs.Prelude.{◌≡◌, ◌+◌, ◌<◌, ◌^◌, [], ◌∷◌, ◌++◌, length, IfOk, OnOk};
ghost use Rattle.xw_words.specs.declared.pos.Broken.{Broken as Wrong};
ghost use Rattle.xc_tree.specs.Names.Uses.{AreUses, Entries, declarations};
ghost use Rattle.xc_names.specs.Meanings.{AreMeanings};
ghost use Rattle.xc_names.specs.NameRules.{IsBrokenBefore};
ghost use Rattle.xc_names.specs.Numbers.{AreNumbers, count_in as count_of, entry_of};

use std::alloc::Global;
use xc_tree::{Decl, Mark};
use xw_words::{List, Memory};

/// For each name the number of its declaration, in the order of the text.
pub fn uses(alloc: Global, marks: &[Mark], meant: &[Option<usize>]) -> Result<List<u32>, Memory>
    requires few { length (declarations marks.now) < 2 ^ 32 }
    requires meant { AreMeanings marks.now meant.now }
    requires unbroken { (b : Wrong) → IsBrokenBefore marks.now (length marks.now) b → ⊥ }
    ensures { IfOk result (λ uses. AreUses marks.now uses) }
{
    let numbers = numbers(alloc, marks)?;
    let mut uses = List::new(alloc);
    for at in 0..marks.len() {
        add_entry(&mut uses, numbers.as_slice(), marks, meant, at)?;
    }
    Ok(uses)
}

/// Adds the entry of the name at a place, if there is one.
fn add_entry(
    uses: &mut List<u32>,
    numbers: &[u32],
    marks: &[Mark],
    meant: &[Option<usize>],
    at: usize,
) -> Result<(), Memory>
    requires within { at < length marks.now }
    requires meant { AreMeanings marks.now meant.now }
    requires unbroken { (b : Wrong) → IsBrokenBefore marks.now (length marks.now) b → ⊥ }
    requires numbers { AreNumbers marks.now numbers.now (length marks.now) }
    requires so_far { Entries marks.now at uses.old }
    ensures { OnOk result (Entries marks.now (at + 1) uses.new) }
{
    match entry(&marks[at], at, meant[at]) {
        None => Ok(()),
        Some(d) => {
            prove!(d < numbers.len());
            uses.push(numbers[d])?;
            Ok(())
        }
    }
}

/// The place of the declaration that a mark's name stands for: its own, or the one that it means.
fn entry(mark: &Mark, at: usize, meant: Option<usize>) -> Option<usize>
    ensures { result ≡ entry_of mark.now at meant }
{
    match mark {
        Mark::Opens => None,
        Mark::Closes => None,
        Mark::Declares(_) => Some(at),
        Mark::Uses(_) => meant,
        Mark::Calls(_) => meant,
    }
}

/// For each place how many names are declared before it.
fn numbers(alloc: Global, marks: &[Mark]) -> Result<List<u32>, Memory>
    requires { length (declarations marks.now) < 2 ^ 32 }
    ensures { IfOk result (λ numbers. AreNumbers marks.now numbers (length marks.now)) }
{
    let mut numbers = List::new(alloc);
    let mut count = 0;
    for mark in marks {
        numbers.push(count)?;
        count += count_in(mark);
    }
    Ok(numbers)
}

/// How many names a mark declares.
fn count_in(mark: &Mark) -> u32
    ensures { result ≡ count_of mark.now }
{
    match mark {
        Mark::Opens => 0,
        Mark::Closes => 0,
        Mark::Declares(_) => 1,
        Mark::Uses(_) => 0,
        Mark::Calls(_) => 0,
    }
}

/// All declarations, in the order of the text.
#[tactic(auto, using(crate::proofs::Numbers::declarations_append))]
pub fn decls(alloc: Global, marks: List<Mark>) -> Result<List<Decl>, Memory>
    ensures { IfOk result (λ decls. decls ≡ declarations marks) }
{
    let mut decls = List::new(alloc);
    for mark in marks.into_vec() {
        add_declaration(&mut decls, mark)?;
    }
    Ok(decls)
}

fn add_declaration(decls: &mut List<Decl>, mark: Mark) -> Result<(), Memory>
    ensures { OnOk result (decls.new ≡ decls.old ++ declarations (mark ∷ [])) }
{
    match mark {
        Mark::Opens => Ok(()),
        Mark::Closes => Ok(()),
        Mark::Declares(decl) => {
            decls.push(decl)?;
            Ok(())
        }
        Mark::Uses(_) => Ok(()),
        Mark::Calls(_) => Ok(()),
    }
}
