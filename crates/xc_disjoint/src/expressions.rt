ghost use Rattle.std.specs.Prelude.{◌≡◌, map, option_map, OnOk};
ghost use Rattle.xc_disjoint.specs.Footprints as uses;
ghost use Rattle.xc_disjoint.specs.Footprints.{both, uses_in};
ghost use Rattle.xc_kernel.specs.Kernels.{condition_of, expression_of, place_of};
ghost use Rattle.xc_kernel.specs.Plain as plain;

use crate::footprint::Footprint;
use xc_kernel::{Kx, Place};
use xw_words::Memory;

/// Goes on in a footprint behind an expression.
#[cycle(expressions)]
#[tactic(auto, using(crate::proofs::FootprintSteps::steps))]
pub fn expression(footprint: &mut Footprint, e: &Kx) -> Result<(), Memory>
    ensures { OnOk result (uses_in footprint.new
        ≡ both (uses_in footprint.old) (uses.of_expression (expression_of e.now))) }
{
    match e {
        Kx::Num(_) => Ok(()),
        Kx::Read(place) => read(footprint, place),
        Kx::Op(_, _, all, _) => operands(footprint, all.as_slice()),
    }
}

#[cycle(expressions)]
#[tactic(auto, using(crate::proofs::FootprintSteps::steps))]
fn operands(footprint: &mut Footprint, all: &[Kx]) -> Result<(), Memory>
    ensures { OnOk result (uses_in footprint.new ≡ both (uses_in footprint.old)
        (uses.of_operands (plain.operands (map expression_of all.now)))) }
{
    for e in all {
        expression(footprint, e)?;
    }
    Ok(())
}

/// Behind the reading of a place.
#[cycle(expressions)]
#[tactic(auto, using(crate::proofs::FootprintSteps::steps))]
fn read(footprint: &mut Footprint, place: &Place) -> Result<(), Memory>
    ensures { OnOk result (uses_in footprint.new
        ≡ both (uses_in footprint.old) (uses.of_place (place_of place.now))) }
{
    match place {
        Place::Word(variable) => footprint.read(*variable),
        Place::Elem(variable, index, _) => {
            footprint.read(*variable)?;
            expression(footprint, index)
        }
    }
}

/// Behind a place at which something is stored.
#[tactic(auto, using(crate::proofs::FootprintSteps::steps))]
pub fn target(footprint: &mut Footprint, place: &Place) -> Result<(), Memory>
    ensures { OnOk result (uses_in footprint.new
        ≡ both (uses_in footprint.old) (uses.of_target (place_of place.now))) }
{
    match place {
        Place::Word(variable) => footprint.change(*variable),
        Place::Elem(variable, index, _) => {
            footprint.change(*variable)?;
            expression(footprint, index)
        }
    }
}

#[tactic(auto, using(crate::proofs::FootprintSteps::steps))]
pub fn some_target(footprint: &mut Footprint, place: &Option<Place>) -> Result<(), Memory>
    ensures { OnOk result (uses_in footprint.new
        ≡ both (uses_in footprint.old) (uses.of_some_target (option_map place_of place.now))) }
{
    match place {
        None => Ok(()),
        Some(place) => target(footprint, place),
    }
}

#[tactic(auto, using(crate::proofs::FootprintSteps::steps))]
pub fn some_expression(footprint: &mut Footprint, e: &Option<Kx>) -> Result<(), Memory>
    ensures { OnOk result (uses_in footprint.new
        ≡ both (uses_in footprint.old) (uses.of_some_expression (option_map expression_of e.now))) }
{
    match e {
        None => Ok(()),
        Some(e) => expression(footprint, e),
    }
}

#[tactic(auto, using(crate::proofs::FootprintSteps::steps))]
pub fn condition(footprint: &mut Footprint, test: &Option<(u8, Kx)>) -> Result<(), Memory>
    ensures { OnOk result (uses_in footprint.new
        ≡ both (uses_in footprint.old) (uses.of_condition (option_map condition_of test.now))) }
{
    match test {
        None => Ok(()),
        Some((_, value)) => expression(footprint, value),
    }
}
