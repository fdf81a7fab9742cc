//! The laws, as contracts of functions that do nothing.

ghost use Rattle.xr_events.specs.Laws.{ArmedStays, BeginsAgree, LatchedPortsAgree, LatchedTimersAgree, LatchesStay, NoneIsReady};
ghost use Rattle.xr_events.specs.Laws.{PickedIsReady, PortsAgree, SelectErrs, TakenIsFixed, TakingLeavesOthers, TimersAgree, TurnsAgree};

/// An event that a thread takes is of a resource that it enabled and that is ready, and where it takes none no such resource is ready.
pub fn picked_is_ready()
    ensures some { PickedIsReady }
    ensures none { NoneIsReady }
{}

/// A port or a timer that is set for a transfer is ready for an event exactly where the program's transfer may pass at this moment.
pub fn ready_may_pass()
    ensures ports { PortsAgree }
    ensures timers { TimersAgree }
{}

/// What a port or a timer has latched, once its event is taken, is the value and the counter that the program fixes for the case's input.
pub fn taken_is_fixed()
    ensures { TakenIsFixed }
{}

/// The taking of an event leads its thread to the event's vector. All but the thread and the event's resource is as it was, and what is
/// enabled stays enabled.
pub fn taking_leaves_others()
    ensures { TakingLeavesOthers }
{}

/// Once the enabled cases are set up, a thread begins to take events as its branch begins the select. Where a guard, time or condition errs,
/// the branch errs so.
pub fn begins_agree()
    ensures begins { BeginsAgree }
    ensures errs { SelectErrs }
{}

/// A thread whose cases are set up takes an event where its branch may take a case: that of the event's resource. Where no case may be taken
/// it pauses, or goes on to the default where the select has one.
pub fn turns_agree()
    ensures { TurnsAgree }
{}

/// The input of a case that was taken gives what was latched, whatever the pins and the clock are by then: the same value, counter and record
/// as the program's.
pub fn latches_are_read()
    ensures ports { LatchedPortsAgree }
    ensures timers { LatchedTimersAgree }
{}

/// What others leave of a thread's own resources keeps its select set up, and what it has latched for a case that was taken.
pub fn armed_stays()
    ensures armed { ArmedStays }
    ensures latched { LatchesStay }
{}
