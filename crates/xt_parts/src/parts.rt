//! The parts of a core, each asked by itself.

use crate::{ends, events, memory, pool, ports, registers};

/// Ends, events, memory, numbers, ports and registers answer each call of their tables as was worked out by hand.
#[test]
fn parts_of_a_core_answer(rt: HostRuntime) {
    let alloc = rt.alloc();
    let wrong = [
        ends::wrong_call(alloc, &ends::WORDS),
        ends::wrong_call(alloc, &ends::FULL),
        ends::wrong_call(alloc, &ends::CREDITS),
        events::wrong_call(alloc),
        memory::wrong_call(alloc),
        Ok(pool::wrong_call()),
        ports::wrong_call(alloc),
        Ok(registers::wrong_register()),
    ];
    assert_eq!(rt; wrong, [Ok(None); 8]);
}
