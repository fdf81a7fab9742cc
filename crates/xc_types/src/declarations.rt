ghost use Rattle.std.specs.Prelude.{◌≡◌, [], ◌∷◌, OnOk};
ghost use Rattle.xc_tree.specs.Types.Sites as sites;
ghost use Rattle.xc_types.specs.Checker.{saw};
ghost use Rattle.xc_types.specs.After as after;

use crate::calls::right_side_if_any;
use crate::checker::Checker;
use crate::enclosing::Enclosing;
use xc_tree::{DeclKind, Declared, Named};
use xw_words::{Memory, Pos};

/// The most words of an array.
const LONGEST_ARRAY: u32 = 16_384;

/// Checks what a declaration declares.
#[tactic(auto, using(crate::proofs::Loops::loops))]
pub fn declarations(
    found: &mut Checker,
    named: &Named,
    around: &Enclosing,
    declared: &[Declared],
) -> Result<(), Memory>
    ensures { OnOk result
        (found.new ≡ after.declarations named.now around.now declared.now found.old) }
{
    for d in declared {
        found.pass()?;
        kind(found, named, around, &d.kind)?;
    }
    Ok(())
}

/// Checks what stands behind a name that is declared.
#[tactic(auto, using(crate::proofs::Steps::steps))]
fn kind(
    found: &mut Checker,
    named: &Named,
    around: &Enclosing,
    kind: &DeclKind,
) -> Result<(), Memory>
    ensures { OnOk result (found.new ≡ after.kind named.now around.now kind.now found.old) }
{
    match kind {
        DeclKind::Word(_, rhs) => right_side_if_any(found, named, around, rhs),
        DeclKind::Array(_, length, pos) => {
            array_length(found, *length, *pos);
            Ok(())
        }
        DeclKind::Chan(_) => Ok(()),
        DeclKind::Timer => Ok(()),
    }
}

/// Checks the length of an array: rule 409.
#[tactic(auto, using(crate::proofs::Steps::steps))]
pub fn array_length(found: &mut Checker, length: u32, pos: Pos)
    ensures { found.new ≡ saw found.old [] (sites.array_length length pos ∷ []) }
{
    found.breaks_where(length < 1 || length > LONGEST_ARRAY, 409, pos);
}
