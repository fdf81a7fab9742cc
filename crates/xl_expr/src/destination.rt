//! The store of the word of a transfer.
ghost use Rattle.std.specs.Prelude.{◌+◌, ◌*◌, ◌<◌, ◌≤◌, ◌^◌, length, option_map, OnOk, OnErr};
ghost use Rattle.xc_kernel.specs.Kernels.{place_of};
ghost use Rattle.xs_instr.specs.Adds.{Adds};
ghost use Rattle.xs_instr.specs.Extends.{Extends};
ghost use Rattle.xl_expr.specs.Destinations.{WritesTo, dest_depth, dest_nodes};
ghost use Rattle.xl_expr.specs.Targets.{AreAimed};

use crate::plan::Plan;
use crate::store::emit_store;
use xc_kernel::Place;
use xs_instr::{Emitter, Reg};
use xw_words::Memory;

/// The code that writes r0 to the destination of a transfer, by `emit_store`; none where the word goes nowhere.
///
/// The one error is want of memory; the emitter then holds what it held, and perhaps further instructions behind it.
pub fn emit_destination(e: &mut Emitter, plan: &Plan, dest: &Option<Place>) -> Result<(), Memory>
    requires room { length e.old + 8 * dest_nodes (option_map place_of dest.now) < 2 ^ 32 }
    requires shallow { dest_depth (option_map place_of dest.now) ≤ 400 }
    ensures size { OnOk result
        (length e.new ≤ length e.old + 8 * dest_nodes (option_map place_of dest.now)) }
    ensures writes { OnOk result (Adds e.old e.new
        (WritesTo plan.now.vars (option_map place_of dest.now) (length e.old))) }
    ensures aimed { OnOk result (Adds e.old e.new (AreAimed (length e.old))) }
    ensures refused { OnErr result (Extends e.old e.new) }
{
    match dest {
        None => Ok(()),
        Some(place) => emit_store(e, plan, place, Reg::R0),
    }
}
