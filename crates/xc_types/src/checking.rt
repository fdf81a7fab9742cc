ghost use Rattle.std.specs.Prelude.{◌≡◌, IfErr, IfOk};
ghost use Rattle.xc_tree.specs.Checks.{Breaks};
ghost use Rattle.xc_tree.specs.Least.{IsFirst, IsLeastOf};
ghost use Rattle.xc_tree.specs.Refusals.{IfBroken};
ghost use Rattle.xc_tree.specs.Types.Named.{named_of};
ghost use Rattle.xc_tree.specs.Types.Sites.{unsigned_at};
ghost use Rattle.xw_words.specs.declared.pos.Broken.{Broken};

use crate::checker::Checker;
use crate::program::program;
use std::alloc::Global;
use xc_tree::{Named, Refusal, Typed};
use xw_words::{List, Memory};

/// Why a program has no types.
pub type TypeErr = Refusal;

/// The types of a program's expressions, where it breaks none of the rules 401 to 416 and 501 to 508. The stack that it needs
/// grows with the depth of the tree.
///
/// A program that breaks one is dropped, and of all that it breaks the error is the one of the least place, and there of the
/// least number. The other error is that memory could not be had; it drops the program too.
pub fn check(alloc: Global, named: Named) -> Result<Typed, TypeErr>
    ensures named { IfOk result (λ typed. typed.named ≡ named) }
    ensures types { IfOk result (λ typed. typed.unsigned_at ≡ unsigned_at (named_of named)) }
    ensures unbroken { IfOk result (λ typed. (b : Broken) → Breaks (named_of named) b → ⊥) }
    ensures broken { IfErr result (λ e. IfBroken e (IsFirst (Breaks (named_of named)))) }
{
    let unsigned_at = unsigned_of(alloc, &named)?;
    Ok(Typed { named, unsigned_at })
}

/// The types of the expressions, where no rule is broken, or else the first that is.
fn unsigned_of(alloc: Global, named: &Named) -> Result<List<bool>, TypeErr>
    ensures types { IfOk result (λ types. types ≡ unsigned_at (named_of named.now)) }
    ensures unbroken { IfOk result (λ types. (b : Broken) → Breaks (named_of named.now) b → ⊥) }
    ensures broken { IfErr result (λ e. IfBroken e (IsFirst (Breaks (named_of named.now)))) }
{
    let Checker { types, best, .. } = findings_of(alloc, named)?;
    match best {
        Some(broken) => Err(TypeErr::Broken(broken)),
        None => Ok(types),
    }
}

/// What is found in a whole program.
fn findings_of(alloc: Global, named: &Named) -> Result<Checker, Memory>
    ensures types { IfOk result (λ found. found.types ≡ unsigned_at (named_of named.now)) }
    ensures best { IfOk result (λ found. IsLeastOf (Breaks (named_of named.now)) found.best) }
{
    let mut found = Checker::new(alloc);
    program(&mut found, named)?;
    Ok(found)
}
