// How a thread waits for another one that is at work.

use std::hint::spin_loop;
use std::thread;

/// How often a thread waits, a pause apart, for another one before it lets other threads go on: for some milliseconds. A window takes some
/// microseconds. Where another program has the other one's processor for a while, to give way as well would only keep all others waiting, at each
/// window anew; and to sleep and be woken takes longer than a window.
pub const PATIENCE: u32 = 16_384;

/// How many hints to the processor make a pause.
const HINTS: u32 = 8;

/// Waits once more, after so many times, without a look at what other threads work on, which would take the lines of the cache from them: a pause
/// of half a microsecond, or, where it has waited that often, until other threads went on. How often it has waited then.
pub fn wait(waited: u32, patience: u32) -> u32 {
    if waited < patience {
        for _ in 0..HINTS {
            spin_loop();
        }
        return waited + 1;
    }
    thread::yield_now();
    waited
}
