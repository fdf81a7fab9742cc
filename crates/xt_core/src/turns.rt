//! Calls on a core.

ghost use Rattle.std.specs.Prelude.{◌<◌};
ghost use Rattle.xs_core.specs.Deliver.{HasRoomFrom};
ghost use Rattle.xs_instr.specs.declared.state.Moved.TheVariants.{Tok};
ghost use Rattle.xs_instr.specs.Machine.{boot_core, home_of, parts_in};
ghost use Rattle.xs_instr.specs.Valid.{IsGoodStim, Valid};

use crate::shown::{ShownSent, ShownSight, ShownTurn};
use crate::trouble::Trouble;
use std::alloc::Global;
use xs_core::{Core, Did};
use xs_instr::{Image, Moved, Stim, Token};
use xw_words::Memory;

/// How many threads a core has.
const THREADS: u8 = 8;

/// How many tokens and credits a turn sends at most.
const MOST_SENT: usize = 4;

/// For how many there is room once it was asked for.
const WINDOW: usize = 256;

/// A core of an image as it starts. Where it is core 0 and a token is given, this came to its end 2 from core 1.
pub fn core_with(
    alloc: Global,
    image: &Image,
    number: u8,
    stim: &Stim,
    token: Option<Token>,
) -> Result<Core, Memory>
    requires number { number < 4 }
    requires image { Valid image.now }
    requires stim { IsGoodStim stim.now }
    requires far { (t : Token) → HasRoomFrom (home_of image.now stim.now 0)
        (boot_core (parts_in image.now.cores 0)).ends (Tok 2 t) }
{
    if number != 0 {
        return Core::new(alloc, image, number, stim);
    }
    let mut core = Core::new(alloc, image, 0, stim)?;
    if let Some(token) = token {
        core.deliver(Moved::Tok { end: 2, token });
    }
    Ok(core)
}

/// So many ticks, where the clock can go on.
pub fn advance(core: &mut Core, ticks: u32) {
    for _tick in 0..ticks {
        if core.clock() < u32::MAX {
            core.tick();
        }
    }
}

/// What a thread's turn gives. Room is made in the outbox where there is too little for a turn.
pub fn turn(core: &mut Core, thread: u8) -> Result<Did, Memory>
    requires { thread < 8 }
{
    if core.spare() < MOST_SENT {
        core.reserve_window()?;
    }
    Ok(core.slot(thread))
}

/// Asks for room in the outbox, and tells whether the core is otherwise as it was: with room for a window where it was
/// given, and with the room that it had where memory was wanting.
fn reserve(core: &mut Core) -> &'static str {
    let sight = core.sight();
    let clock = core.clock();
    let spare = core.spare();
    let is_right = match core.reserve_window() {
        Ok(()) => core.spare() >= WINDOW,
        Err(_) => core.spare() == spare,
    };
    if is_right && core.sight() == sight && core.clock() == clock {
        "as it was"
    } else {
        "changed"
    }
}

/// What comes of what is asked: a thread's turn, by its number, or one of the core's other calls.
pub fn answer(alloc: Global, core: &mut Core, asked: &str) -> Result<String, Trouble> {
    let answer = match asked {
        "sent" => {
            let sent = core.take_sent();
            format!(in alloc; "{}", ShownSent(sent))?
        }
        "sight" => format!(in alloc; "{}", ShownSight(core.sight()))?,
        "clock" => format!(in alloc; "{}", core.clock())?,
        "number" => format!(in alloc; "{}", core.number())?,
        "threads" => format!(in alloc; "{}", core.thread_count())?,
        "reserve" => String::from_str(alloc, reserve(core))?,
        _ => turn_of(alloc, core, asked)?,
    };
    Ok(answer)
}

/// A thread's turn. It is told, too, where the thread was ready for none and yet made a step, or the other way round.
fn turn_of(alloc: Global, core: &mut Core, thread: &str) -> Result<String, Trouble> {
    let Ok(thread) = thread.parse::<u8>() else {
        return Err(Trouble::Line);
    };
    if thread >= THREADS {
        return Err(Trouble::Line);
    }
    let is_ready = core.ready(thread);
    let did = turn(core, thread)?;
    let steps = did != Did::Paused && did != Did::Idle;
    if is_ready != steps {
        return Ok(format!(in alloc; "{}, and was said to be otherwise", ShownTurn(did))?);
    }
    Ok(format!(in alloc; "{}", ShownTurn(did))?)
}
