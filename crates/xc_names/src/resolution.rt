ghost use Rattle.std.specs.Prelude.{◌≡◌, ◌<◌, ◌≤◌, ◌^◌, length, IfErr, IfOk};
ghost use Rattle.xw_words.specs.declared.pos.Broken.{Broken as Wrong};
ghost use Rattle.xc_tree.specs.Names.Marks.{of_program};
ghost use Rattle.xc_tree.specs.Names.Rules.{Breaks};
ghost use Rattle.xc_tree.specs.Names.Uses.{AreUses, declarations};
ghost use Rattle.xc_tree.specs.Programs.{IsParsed};
ghost use Rattle.xc_tree.specs.Trees.{program_of};
ghost use Rattle.xc_tree.specs.Types.Named.{IsNamed, named_of};
ghost use Rattle.xc_tree.specs.Least.{IsFirst, IsLeastOf};
ghost use Rattle.xc_tree.specs.Refusals.{IfBroken};
ghost use Rattle.xc_names.specs.Meanings.{AreMeanings};
ghost use Rattle.xc_names.specs.Starts.{AreStarts};

use crate::main_function::broken_main;
use crate::marks::{Marks, marks_of};
use crate::meanings::meanings;
use crate::names::broken_name;
use crate::ports::broken_port;
use crate::recursion::broken_call;
use crate::scopes::scope_ends;
use crate::uses::{decls, uses};
use std::alloc::Global;
use xc_tree::{Decl, Mark, Named, Refusal, Tree, earlier};
use xw_words::{Broken, List, Memory};

/// Why the names of a program have no declarations.
pub type NameErr = Refusal;

/// The declarations of a program and for each of its names the number of its declaration, where the tree is one that
/// fewer than 2^32 tokens derive. The stack that it needs grows with the depth of the tree.
///
/// A program that breaks a rule is dropped, and of all rules that it breaks the error is the one of the least place, and
/// there of the least number: 301 a name is used that isn't declared there; 302 a name is declared a second time in one
/// scope; 303 a port's identifier is none or is used again on the same core; 304 a call stands on a cycle of calls; 305
/// there is no function `main` without parameters. The other error is that memory could not be had; it drops the program
/// too.
pub fn resolve(alloc: Global, tree: Tree) -> Result<Named, NameErr>
    requires { IsParsed (program_of tree) }
    ensures tree { IfOk result (λ named. named.tree ≡ tree) }
    ensures named { IfOk result (λ named. IsNamed (program_of tree) (named_of named)) }
    ensures unbroken { IfOk result (λ named. (b : Wrong) → Breaks (program_of tree) b → ⊥) }
    ensures broken { IfErr result (λ e. IfBroken e (IsFirst (Breaks (program_of tree)))) }
{
    match names_of(alloc, &tree) {
        Ok(names) => {
            let Names { decls, uses } = names;
            Ok(Named { tree, decls, uses })
        }
        Err(e) => {
            drop(tree);
            Err(e)
        }
    }
}

/// The declarations of a program, and for each of its names the number of its declaration.
#[derive(Drop)]
struct Names {
    decls: List<Decl>,
    uses: List<u32>,
}

/// The names of a program, or why they have no declarations.
fn names_of(alloc: Global, tree: &Tree) -> Result<Names, NameErr>
    requires { IsParsed (program_of tree.now) }
    ensures decls { IfOk result
        (λ names. names.decls ≡ declarations (of_program (program_of tree.now))) }
    ensures uses { IfOk result (λ names. AreUses (of_program (program_of tree.now)) names.uses) }
    ensures unbroken { IfOk result (λ names. (b : Wrong) → Breaks (program_of tree.now) b → ⊥) }
    ensures broken { IfErr result (λ e. IfBroken e (IsFirst (Breaks (program_of tree.now)))) }
{
    let Marks { all, starts } = marks_of(alloc, tree)?;
    let uses = uses_in(alloc, tree, all.as_slice(), starts.as_slice());
    drop(starts);
    let uses = uses?;
    let decls = decls(alloc, all)?;
    Ok(Names { decls, uses })
}

/// For each name the number of its declaration, by the marks of the program and where its items begin.
fn uses_in(
    alloc: Global,
    tree: &Tree,
    marks: &[Mark],
    starts: &[usize],
) -> Result<List<u32>, NameErr>
    requires few_items { length starts.now ≤ 2 ^ 32 }
    requires few_names { length (declarations marks.now) < 2 ^ 32 }
    requires marks { marks.now ≡ of_program (program_of tree.now) }
    requires starts { AreStarts (program_of tree.now) starts.now }
    ensures uses { IfOk result (λ uses. AreUses marks.now uses) }
    ensures unbroken { IfOk result (λ uses. (b : Wrong) → Breaks (program_of tree.now) b → ⊥) }
    ensures broken { IfErr result (λ e. IfBroken e (IsFirst (Breaks (program_of tree.now)))) }
{
    let meant = meanings_of(alloc, marks)?;
    let uses = uses_by(alloc, tree, marks, meant.as_slice(), starts);
    drop(meant);
    uses
}

/// For each place of the marks the declaration that its name means, if one is known.
fn meanings_of(alloc: Global, marks: &[Mark]) -> Result<List<Option<usize>>, Memory>
    ensures { IfOk result (λ meant. AreMeanings marks.now meant) }
{
    let ends = scope_ends(alloc, marks)?;
    let meant = meanings(alloc, marks, ends.as_slice());
    drop(ends);
    meant
}

/// For each name the number of its declaration, by what the names mean.
fn uses_by(
    alloc: Global,
    tree: &Tree,
    marks: &[Mark],
    meant: &[Option<usize>],
    starts: &[usize],
) -> Result<List<u32>, NameErr>
    requires few_items { length starts.now ≤ 2 ^ 32 }
    requires few_names { length (declarations marks.now) < 2 ^ 32 }
    requires marks { marks.now ≡ of_program (program_of tree.now) }
    requires meant { AreMeanings marks.now meant.now }
    requires starts { AreStarts (program_of tree.now) starts.now }
    ensures uses { IfOk result (λ uses. AreUses marks.now uses) }
    ensures unbroken { IfOk result (λ uses. (b : Wrong) → Breaks (program_of tree.now) b → ⊥) }
    ensures broken { IfErr result (λ e. IfBroken e (IsFirst (Breaks (program_of tree.now)))) }
{
    let broken = first_broken(alloc, tree, marks, meant, starts)?;
    match broken {
        Some(broken) => Err(NameErr::Broken(broken)),
        None => {
            let uses = uses(alloc, marks, meant)?;
            Ok(uses)
        }
    }
}

/// The first rule that a program breaks, by its marks, what its names mean, and where its items begin.
fn first_broken(
    alloc: Global,
    tree: &Tree,
    marks: &[Mark],
    meant: &[Option<usize>],
    starts: &[usize],
) -> Result<Option<Broken>, Memory>
    requires few { length starts.now ≤ 2 ^ 32 }
    requires marks { marks.now ≡ of_program (program_of tree.now) }
    requires meant { AreMeanings marks.now meant.now }
    requires starts { AreStarts (program_of tree.now) starts.now }
    ensures { IfOk result (λ best. IsLeastOf (Breaks (program_of tree.now)) best) }
{
    let names_and_ports = earlier(broken_name(marks, meant), broken_port(alloc, tree)?);
    let calls = broken_call(alloc, marks, meant, starts)?;
    Ok(earlier(earlier(names_and_ports, calls), broken_main(tree)))
}
