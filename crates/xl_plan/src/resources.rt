ghost use Rattle.std.specs.Prelude.{◌≡◌, ◌≤◌, nat_eq, IfOk};
ghost use Rattle.xc_disjoint.specs.Cores.{last_core, on_core};
ghost use Rattle.xc_disjoint.specs.Rules.{most_ends};
ghost use Rattle.xl_plan.specs.Layout.{core_of_port, core_of_timer, end_name, ends_below, identifier_if, identifiers_from};
ghost use Rattle.xl_expr.specs.declared.plan.ResAt.TheVariants.{Fixed};
ghost use Rattle.xs_instr.specs.Resources.{name_of};
ghost use Rattle.xw_words.specs.Words.{word_sum};

use std::alloc::Global;
use xc_kernel::{PortUse, Timer};
use xl_expr::ResAt;
use xw_words::{List, Memory};

/// The kinds of resources, as identifiers have them.
const PORT: u32 = 0;

const TIMER: u32 = 1;

const CHANNEL_END: u32 = 2;

/// How far the identifiers of the resources of two following cores are apart, and those of two following numbers.
const BY_CORE: u32 = 0x100_0000;

const BY_NUMBER: u32 = 0x100;

/// The identifiers of a core's ports, by their places among these. Those of other cores have none.
pub fn port_identifiers(
    alloc: Global,
    ports: &[PortUse],
    core: u8,
) -> Result<List<Option<ResAt>>, Memory>
    requires { core ≤ last_core }
    ensures { IfOk result (λ all. all
        ≡ identifiers_from core_of_port core (name_of core 0 0) ports.now) }
{
    let mut all = List::new(alloc);
    let mut next = core as u32 * BY_CORE + PORT;
    for port in ports {
        all.push(identifier(port.core, core, next))?;
        next = next.wrapping_add(step(port.core, core));
    }
    Ok(all)
}

/// The identifiers of a core's timers, by their places among these. Those of other cores have none.
pub fn timer_identifiers(
    alloc: Global,
    timers: &[Timer],
    core: u8,
) -> Result<List<Option<ResAt>>, Memory>
    requires { core ≤ last_core }
    ensures { IfOk result (λ all. all
        ≡ identifiers_from core_of_timer core (name_of core 0 1) timers.now) }
{
    let mut all = List::new(alloc);
    let mut next = core as u32 * BY_CORE + TIMER;
    for timer in timers {
        all.push(identifier(timer.core, core, next))?;
        next = next.wrapping_add(step(timer.core, core));
    }
    Ok(all)
}

/// The identifiers of so many ends of a core, by their numbers.
pub fn end_identifiers(alloc: Global, core: u8, count: u32) -> Result<List<ResAt>, Memory>
    requires is_core { core ≤ last_core }
    requires few { count ≤ most_ends }
    ensures { IfOk result (λ all. all ≡ ends_below core count) }
{
    let mut all = List::new(alloc);
    for number in 0..count {
        all.push(end_identifier(core, number))?;
    }
    Ok(all)
}

fn end_identifier(core: u8, number: u32) -> ResAt
    requires is_core { core ≤ last_core }
    requires few { number ≤ most_ends }
    ensures { result ≡ Fixed (end_name core number) }
{
    ResAt::Fixed(core as u32 * BY_CORE + number * BY_NUMBER + CHANNEL_END)
}

/// The next identifier, where the resource is on the core.
fn identifier(its_core: u8, core: u8, next: u32) -> Option<ResAt>
    ensures { result ≡ identifier_if (nat_eq its_core core) next }
{
    if its_core == core {
        Some(ResAt::Fixed(next))
    } else {
        None
    }
}

fn step(its_core: u8, core: u8) -> u32
    ensures { result ≡ on_core core its_core 256 }
{
    if its_core == core { BY_NUMBER } else { 0 }
}
