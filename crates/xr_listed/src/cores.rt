// Whether cores are what an image may have.

ghost use Rattle.std.specs.Bool.{OnTrue};
ghost use Rattle.std.specs.Prelude.{◌≡◌, ◌≤◌, ◌<◌, ◌^◌, length};
ghost use Rattle.xs_instr.specs.Machine.{parts_in};
ghost use Rattle.xs_instr.specs.Valid.{AreGoodCores, AreGoodInstrs, AreGoodPorts, AreIndices, IsGoodCore, IsNewPort};

use crate::code::{are_good, are_indices};
use xs_instr::{CoreImage, PortDecl};
use xw_words::PORT_COUNT;

/// How many cores a machine has.
pub const CORES: u8 = 4;

const MOST_WORDS: u32 = 16384;

const MOST_TIMERS: u32 = 10;

const MOST_ENDS: u32 = 32;

const MOST_ROOTS: usize = 8;

/// Whether the numbers of the cores ascend and are below 4, and each core is within the limits.
pub fn are_good_cores(cores: &[CoreImage]) -> bool
    ensures { OnTrue result (AreGoodCores 0 cores.now) }
{
    let mut rest = cores;
    let mut least = 0u32;
    'each: while let [first, behind @ ..] = rest {
        let number = first.number as u32;
        if number < least || first.number >= CORES || !is_good_core(first) {
            return false;
        }
        rest = behind;
        least = number + 1;
    }
    true
}

/// Whether a core is within the limits.
fn is_good_core(core: &CoreImage) -> bool
    ensures { OnTrue result (IsGoodCore core.now) }
{
    has_few(core) && are_good_ports(core.ports.as_slice()) && has_good_code(core)
}

/// Whether a core has no more words, timers and ends than there are.
fn has_few(core: &CoreImage) -> bool
    ensures words { OnTrue result (core.now.words ≤ 16384) }
    ensures timers { OnTrue result (core.now.timers ≤ 10) }
    ensures ends { OnTrue result (core.now.ends ≤ 32) }
{
    core.words <= MOST_WORDS && core.timers <= MOST_TIMERS && core.ends <= MOST_ENDS
}

/// Whether a core has one to eight roots, a place for each instruction, and code that an image may have.
fn has_good_code(core: &CoreImage) -> bool
    ensures some_root { OnTrue result (1 ≤ length core.now.roots) }
    ensures few_roots { OnTrue result (length core.now.roots ≤ 8) }
    ensures few { OnTrue result (length core.now.code.instrs < 2 ^ 32) }
    ensures places { OnTrue result (length core.now.code.«at» ≡ length core.now.code.instrs) }
    ensures roots { OnTrue result (AreIndices (length core.now.code.instrs) core.now.roots) }
    ensures code { OnTrue result
        (AreGoodInstrs (length core.now.code.instrs) 0 core.now.code.instrs) }
{
    let roots = core.roots.as_slice();
    let instrs = core.code.instrs.as_slice();
    !roots.is_empty()
        && roots.len() <= MOST_ROOTS
        && instrs.len() <= u32::MAX as usize
        && core.code.at.len() == instrs.len()
        && are_indices(instrs.len(), roots)
        && are_good(instrs)
}

/// Whether ports have differing identifiers, each the place of a port.
fn are_good_ports(decls: &[PortDecl]) -> bool
    ensures { OnTrue result (AreGoodPorts decls.now) }
{
    let mut rest = decls;
    'each: while let [first, behind @ ..] = rest {
        if first.port >= PORT_COUNT || !is_new(first.port, behind) {
            return false;
        }
        rest = behind;
    }
    true
}

/// Whether no port of a list has that identifier.
fn is_new(id: u8, decls: &[PortDecl]) -> bool
    ensures { OnTrue result (IsNewPort id decls.now) }
{
    let mut rest = decls;
    'each: while let [first, behind @ ..] = rest {
        if first.port == id {
            return false;
        }
        rest = behind;
    }
    true
}

/// How many channel ends core `number` has: none, where the cores don't hold it.
pub fn ends_of(cores: &[CoreImage], number: u8) -> u32
    ensures { result ≡ (parts_in cores.now number).ends }
{
    let mut rest = cores;
    'each: while let [first, behind @ ..] = rest {
        if first.number == number {
            return first.ends;
        }
        rest = behind;
    }
    0
}
