ghost use Rattle.std.specs.Prelude.{◌≡◌, ◌≤◌, IfOk, OnOk};
ghost use Rattle.xc_disjoint.specs.Cores.{last_core};
ghost use Rattle.xc_kernel.specs.Kernels.{kernel_of};
ghost use Rattle.xl_plan.specs.Layout.{first_temporary, temporary_of};
ghost use Rattle.xl_plan.specs.Planned.{ArePortsApart, HasChannels, HasEnds, HasNoOther, HasPorts, HasTimers, HasUsedPorts, HasUsedTimers, HasUsedVariables, HasVariables, NoneIsTemporary, NoneShare, NumbersAreListed, StandBelow, ports_on};

use crate::channels::{channel_cores, end_count, end_places};
use crate::resources::{end_identifiers, port_identifiers, timer_identifiers};
use crate::temporary::temporary_words;
use crate::variables::variable_places;
use std::alloc::Global;
use xc_disjoint::Checked;
use xl_expr::Plan;
use xw_words::Memory;

/// Where the variables, ports, timers and channel ends of a core stand: the variables from word 0 on, one behind the other in the kernel's
/// order, below the temporary words of all threads, of which those of thread 0 are the first; the ports, timers and ends by the identifiers
/// of their numbers, which go by the kernel's order too. Each channel has an end there for each of its sides that is on the core, the first
/// side's before the second one's.
///
/// It takes time and memory for each of the kernel's variables, ports and timers once, and for each root and each channel; it goes over the
/// roots' statements once. The one error is want of memory.
pub fn plan(alloc: Global, checked: &Checked, core: u8) -> Result<Plan, Memory>
    requires is_core { core ≤ last_core }
    ensures variables { IfOk result
        (λ plan. HasVariables (kernel_of checked.now) core plan.vars) }
    ensures no_other { IfOk result (λ plan. HasNoOther (kernel_of checked.now) core plan.vars) }
    ensures used_variables { IfOk result
        (λ plan. HasUsedVariables (kernel_of checked.now) core plan.vars) }
    ensures below { IfOk result
        (λ plan. StandBelow (first_temporary (kernel_of checked.now) core) plan.vars) }
    ensures apart { IfOk result (λ plan. NoneShare plan.vars) }
    ensures not_temporary { IfOk result
        (λ plan. NoneIsTemporary (kernel_of checked.now) core plan.vars) }
    ensures ports { IfOk result (λ plan. HasPorts (kernel_of checked.now) core plan.ports) }
    ensures timers { IfOk result (λ plan. HasTimers (kernel_of checked.now) core plan.timers) }
    ensures used_ports { IfOk result
        (λ plan. HasUsedPorts (kernel_of checked.now) core plan.ports) }
    ensures used_timers { IfOk result
        (λ plan. HasUsedTimers (kernel_of checked.now) core plan.timers) }
    ensures listed { OnOk result (NumbersAreListed (kernel_of checked.now) core) }
    ensures differ { OnOk result (ArePortsApart
        (ports_on core (kernel_of checked.now).ports)) }
    ensures ends { IfOk result (λ plan. HasEnds (kernel_of checked.now) core plan.ends) }
    ensures channels { IfOk result
        (λ plan. HasChannels (kernel_of checked.now) core plan.channels) }
    ensures first_stack { IfOk result
        (λ plan. plan.first_stack ≡ temporary_of (kernel_of checked.now) core 0) }
{
    let kernel = checked.kernel();
    let vars = variable_places(alloc, kernel.vars.as_slice(), core)?;
    let ports = port_identifiers(alloc, kernel.ports.as_slice(), core)?;
    let timers = timer_identifiers(alloc, kernel.timers.as_slice(), core)?;
    let cores = channel_cores(alloc, checked)?;
    let ends = end_identifiers(alloc, core, end_count(cores.as_slice(), core))?;
    let channels = end_places(alloc, cores.as_slice(), core)?;
    Ok(Plan {
        vars,
        ports,
        timers,
        ends,
        channels,
        first_stack: temporary_words(checked, core, 0),
    })
}
