//! The store of a port's counter behind its transfer.
ghost use Rattle.std.specs.Prelude.{◌+◌, ◌*◌, ◌<◌, ◌≤◌, ◌^◌, length, option_map, OnOk, OnErr};
ghost use Rattle.xc_kernel.specs.Kernels.{place_of};
ghost use Rattle.xs_instr.specs.Adds.{Adds};
ghost use Rattle.xs_instr.specs.Extends.{Extends};
ghost use Rattle.xl_expr.specs.Destinations.{dest_depth, dest_nodes};
ghost use Rattle.xl_expr.specs.Measures.{depth_at, nodes_at};
ghost use Rattle.xl_expr.specs.Targets.{AreAimed};
ghost use Rattle.xl_port.specs.Stamps.{Stamps, StampsTo};

use crate::setting::emit_with_name;
use xc_kernel::{KRes, Place};
use xl_expr::{Plan, emit_store};
use xs_instr::{Emitter, Instr, Reg};
use xw_words::{Memory, Pos};

/// The code behind a port's transfer that stores the port's counter of the transfer, which has 16 bits, where there is a place for it.
///
/// The one error is want of memory; the emitter then holds what it held, and perhaps further instructions behind it.
pub fn emit_stamp(
    e: &mut Emitter,
    plan: &Plan,
    port: KRes,
    stamp: &Option<Place>,
    pos: Pos,
) -> Result<(), Memory>
    requires room { length e.old + 8 * dest_nodes (option_map place_of stamp.now) + 3 < 2 ^ 32 }
    requires shallow { dest_depth (option_map place_of stamp.now) ≤ 400 }
    ensures size { OnOk result
        (length e.new ≤ length e.old + 8 * dest_nodes (option_map place_of stamp.now) + 3) }
    ensures stamps { OnOk result (Adds e.old e.new
        (StampsTo plan.now port (option_map place_of stamp.now) (length e.old))) }
    ensures aimed { OnOk result (Adds e.old e.new (AreAimed (length e.old))) }
    ensures refused { OnErr result (Extends e.old e.new) }
{
    match stamp {
        None => Ok(()),
        Some(place) => emit_stamp_to(e, plan, port, place, pos),
    }
}

/// The same, where there is a place.
fn emit_stamp_to(
    e: &mut Emitter,
    plan: &Plan,
    port: KRes,
    place: &Place,
    pos: Pos,
) -> Result<(), Memory>
    requires room { length e.old + 8 * nodes_at (place_of place.now) + 3 < 2 ^ 32 }
    requires shallow { depth_at (place_of place.now) ≤ 400 }
    ensures size { OnOk result
        (length e.new ≤ length e.old + 8 * nodes_at (place_of place.now) + 3) }
    ensures stamps { OnOk result (Adds e.old e.new
        (Stamps plan.now port (place_of place.now) (length e.old))) }
    ensures aimed { OnOk result (Adds e.old e.new (AreAimed (length e.old))) }
    ensures refused { OnErr result (Extends e.old e.new) }
{
    emit_with_name(e, plan, port, &[Instr::Getts(Reg::R0, Reg::R11)], pos)?;
    emit_store(e, plan, place, Reg::R0)?;
    Ok(())
}
