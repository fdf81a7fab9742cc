// Threads that go on, and those that are in use.

ghost use Rattle.std.specs.Prelude.{◌≡◌, ◌+◌, ◌<◌, ◌≤◌, ◌^◌, slice_set};
ghost use Rattle.xs_core.specs.Idle.{AreUnusedFrom};
ghost use Rattle.xs_core.specs.Seen.{thread_at};
ghost use Rattle.xs_instr.specs.Registers.{reg_set};

use crate::state::THREADS;
use xs_instr::{Mode, Reg, Thread};
use xs_state::Registers;

/// On to the next instruction.
pub fn pass(threads: &mut [Thread; THREADS], t: u8)
    requires there { t < 8 }
    requires room { (thread_at threads.old t).pc + 1 < 2 ^ 32 }
    ensures { let x = thread_at threads.old t in threads.new
        ≡ slice_set threads.old t (record x { pc = x.pc + 1 }) }
{
    threads[t as usize].pc += 1;
}

/// On to the next instruction, and a register is set.
pub fn pass_with(threads: &mut [Thread; THREADS], t: u8, d: Reg, value: u32)
    requires there { t < 8 }
    requires room { (thread_at threads.old t).pc + 1 < 2 ^ 32 }
    ensures { let x = thread_at threads.old t in
        threads.new ≡ slice_set threads.old t (record x { pc = x.pc + 1; regs = reg_set x.regs d value }) }
{
    let thread = &mut threads[t as usize];
    thread.pc += 1;
    thread.regs.set(d, value);
}

/// Puts a thread back at its next instruction.
pub fn put_next(threads: &mut [Thread; THREADS], t: u8, thread: Thread)
    requires there { t < 8 }
    requires room { thread.pc + 1 < 2 ^ 32 }
    ensures { threads.new ≡ slice_set threads.old t (record thread { pc = thread.pc + 1 }) }
{
    threads[t as usize] = Thread {
        pc: thread.pc + 1,
        ..thread
    };
}

/// Puts a thread back at its next instruction, with a register set.
pub fn put_with(threads: &mut [Thread; THREADS], t: u8, thread: Thread, d: Reg, value: u32)
    requires there { t < 8 }
    requires room { thread.pc + 1 < 2 ^ 32 }
    ensures { threads.new ≡ slice_set threads.old t
        (record thread { pc = thread.pc + 1; regs = reg_set thread.regs d value }) }
{
    let mut next = thread;
    next.pc += 1;
    next.regs.set(d, value);
    threads[t as usize] = next;
}

/// One more than the number of the last thread in use, or 0 where all are unused.
pub fn in_use(threads: &[Thread; THREADS]) -> u8
    ensures few { result ≤ 8 }
    ensures unused { AreUnusedFrom result threads.now }
{
    let mut end = 0;
    for t in 0..THREADS {
        if threads[t].mode != Mode::Unused {
            end = t as u8 + 1;
        }
    }
    end
}
