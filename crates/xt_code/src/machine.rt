//! Code on a core.

ghost use Rattle.std.specs.Prelude.{◌≡◌, ℕ, ◌+◌, ◌<◌, ◌≤◌, ◌^◌, length, IfOk, OnOk};
ghost use Rattle.xc_kernel.specs.Kernels.{expression_of};
ghost use Rattle.xl_expr.specs.Measures.{depth, nodes};
ghost use Rattle.xl_expr.specs.Targets.{AreAimed};
ghost use Rattle.xs_instr.specs.Valid.{IsGoodInstr, IsGoodStim};

use crate::trouble::Trouble;
use std::alloc::Global;
use xc_kernel::Kx;
use xl_expr::{Plan, emit_expr};
use xr_listed::is_valid;
use xs_core::{Core, Did};
use xs_instr::{Code, CoreImage, Dir, Emitter, Image, Instr, PortDecl, Record, Reg, Stim, Trap};
use xw_words::{List, Memory, Pos};

/// The places of identifiers among all ports'.
const PORT_1A: u8 = 0;

const PORT_1B: u8 = 1;

const PORT_16A: u8 = 26;

const PORT_32A: u8 = 28;

/// The ports of the core.
const PORTS: [PortDecl; 4] = [
    PortDecl {
        port: PORT_32A,
        dir: Dir::Both,
    },
    PortDecl {
        port: PORT_1A,
        dir: Dir::Out,
    },
    PortDecl {
        port: PORT_16A,
        dir: Dir::Out,
    },
    PortDecl {
        port: PORT_1B,
        dir: Dir::In,
    },
];

/// How many timers the core has.
const TIMERS: u32 = 2;

/// The words of the core.
const WORDS: u32 = 1024;

/// Where the temporary words begin.
const STACK: u32 = 4 * 400;

/// The most steps of a run.
const MOST_STEPS: u32 = 10_000;

/// The most instructions of a case.
const MOST_CODE: u32 = 30_000;

/// The place of the instructions that no piece emits.
const START: Pos = Pos { line: 1, col: 1 };

/// How a run ends.
#[derive(Clone, Copy)]
pub enum End {
    /// The first word that goes out, and the port's counter then.
    Out(u16, u32),
    Trapped(Trap, Pos),
    Stopped,
}

/// The code that sets sp, and the words at dp + 4n.
pub fn begun(alloc: Global, words: &[(u32, u32)]) -> Result<Emitter, Memory>
    requires { length words.now ≤ 100 }
    ensures aimed { IfOk result (λ e. AreAimed 0 e) }
    ensures few { IfOk result (λ e. length e ≤ 202) }
{
    let mut e = Emitter::new(alloc);
    add(&mut e, Instr::Ldc(Reg::R0, STACK))?;
    add(&mut e, Instr::Setsp(Reg::R0))?;
    for word in words {
        add(&mut e, Instr::Ldc(Reg::R0, word.1))?;
        add(&mut e, Instr::Stwdp(Reg::R0, word.0))?;
    }
    Ok(e)
}

/// An instruction without a target.
pub fn add(e: &mut Emitter, instr: Instr) -> Result<(), Memory>
    requires few { length e.old + 1 < 2 ^ 32 }
    requires aimed { AreAimed 0 e.old }
    requires plain { (size n : ℕ) → IsGoodInstr size n instr }
    ensures aimed { OnOk result (AreAimed 0 e.new) }
    ensures length { OnOk result (length e.new ≡ length e.old + 1) }
{
    e.put(instr, START)?;
    Ok(())
}

/// An expression's code.
pub fn add_expression(e: &mut Emitter, plan: &Plan, x: &Kx, to: Reg) -> Result<(), Memory>
    requires few { length e.old ≤ 2000 }
    requires aimed { AreAimed 0 e.old }
    requires nodes { nodes (expression_of x.now) ≤ 1000 }
    requires depth { depth (expression_of x.now) ≤ 400 }
    ensures aimed { OnOk result (AreAimed 0 e.new) }
    ensures length { OnOk result (length e.new ≤ length e.old + 8000) }
{
    emit_expr(e, plan, x, to)?;
    Ok(())
}

/// The code, with the end of its root.
pub fn finished(e: Emitter) -> Result<Code, Trouble>
    requires aimed { AreAimed 0 e }
{
    if e.here() > MOST_CODE {
        return Err(Trouble::Long);
    }
    let mut e = e;
    e.put(Instr::Freet, START)?;
    Ok(e.finish())
}

/// How a run of this code ends, on core 0 without a stimulus.
pub fn run(alloc: Global, code: Code) -> Result<End, Trouble> {
    let stim = Stim {
        lines: List::new(alloc),
    };
    let core = core_of(alloc, code, &stim);
    drop(stim);
    let mut core = core?;
    let end = end_of_run(&mut core);
    drop(core);
    Ok(end?)
}

/// Core 0 as it starts with this code, under a stimulus.
pub fn core_of(alloc: Global, code: Code, stim: &Stim) -> Result<Core, Trouble>
    requires stim { IsGoodStim stim.now }
{
    let image = image_of(alloc, code)?;
    let core = first_core(alloc, &image, stim);
    drop(image);
    core
}

/// Core 0 of an image as it starts.
fn first_core(alloc: Global, image: &Image, stim: &Stim) -> Result<Core, Trouble>
    requires stim { IsGoodStim stim.now }
{
    if !is_valid(image) {
        return Err(Trouble::Image);
    }
    let core = Core::new(alloc, image, 0, stim)?;
    Ok(core)
}

/// How a core's run ends. A tick passes at each pause.
fn end_of_run(core: &mut Core) -> Result<End, Memory> {
    'steps: for _step in 0..MOST_STEPS {
        core.reserve_window()?;
        match core.slot(0) {
            Did::Made(None) => {}
            Did::Made(Some(Record::PortOut { stamp, value, .. })) => {
                return Ok(End::Out(stamp, value));
            }
            Did::Paused => wait(core),
            Did::Trapped(trap, pos) => return Ok(End::Trapped(trap, pos)),
            _ => return Ok(End::Stopped),
        }
    }
    Ok(End::Stopped)
}

/// A tick, where the clock can go on.
pub fn wait(core: &mut Core) {
    if core.clock() < u32::MAX {
        core.tick();
    }
}

/// An image of core 0 with this code.
fn image_of(alloc: Global, code: Code) -> Result<Image, Memory> {
    let core = one_core(alloc, code)?;
    let mut cores = List::new(alloc);
    cores.push(core)?;
    Ok(Image {
        cores,
        chans: List::new(alloc),
    })
}

/// The ports of the core, in their order.
fn ports_of(alloc: Global) -> Result<List<PortDecl>, Memory> {
    match Vec::from_array(alloc, PORTS) {
        Ok(ports) => Ok(List::from_vec(ports)),
        Err(_) => Err(Memory),
    }
}

fn one_core(alloc: Global, code: Code) -> Result<CoreImage, Memory> {
    let ports = ports_of(alloc)?;
    let mut roots = List::new(alloc);
    roots.push(0)?;
    Ok(CoreImage {
        number: 0,
        words: WORDS,
        timers: TIMERS,
        ends: 0,
        ports,
        roots,
        code,
    })
}
