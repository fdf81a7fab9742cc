// What lines refer to: the ends that channels join, and the indices where threads begin and instructions lead.
ghost use Rattle.std.specs.Prelude.{◌≡◌, ◌<◌, ◌^◌, [], length, IfOk};
ghost use Rattle.xr_assembly.specs.References as spec;
ghost use Rattle.xr_assembly.specs.References.{has_good_target, is_forward, is_backward, is_good_pair, is_new_end, has_end};
ghost use Rattle.xs_instr.specs.Machine.{parts_in};

use crate::image::{chan_in, number_of, pair_of};
use crate::lines::Line;
use std::alloc::Global;
use xs_instr::{CoreImage, Image, Instr, Pair};
use xw_words::{List, Memory};

/// The first of the lines that breaks a rule by what it refers to, and the rule. The one error is want of memory.
pub fn first_broken_reference(
    alloc: Global,
    image: &Image,
    lines: &[Line],
) -> Result<Option<(u32, u16)>, Memory>
    requires { length lines.now < 2 ^ 32 }
    ensures { IfOk result
        (λ broken. broken ≡ spec.first_broken_reference image.now 0 [] 1 lines.now) }
{
    let mut before = List::new(alloc);
    let mut core = 0;
    let mut number = 0;
    let mut rest = lines;
    'each: while let [line, behind @ ..] = rest {
        number += 1;
        if let Some(rule) = broken_reference(image, core, before.as_slice(), *line) {
            return Ok(Some((number, rule)));
        }
        core = core_behind(core, *line);
        if let Some(chan) = chan_in(*line) {
            before.push(pair_of(chan))?;
        }
        rest = behind;
    }
    Ok(None)
}

/// The rule that a line breaks by what it refers to, where it is of this core and these channels stand before it.
fn broken_reference(image: &Image, core: u8, before: &[Pair], line: Line) -> Option<u16>
    ensures { result ≡ spec.broken_reference image.now core before.now line }
{
    let cores = image.cores.as_slice();
    match line {
        Line::Chan(chan) if !joins_new_ends(cores, before, pair_of(chan)) => Some(1103),
        Line::Root(k) if k as usize >= size_of(cores, core) => Some(1104),
        Line::Code(code) if !leads_on(size_of(cores, core), code.index, code.instr) => Some(1104),
        Line::Ends(ends) if !are_named(image.chans.as_slice(), core, ends) => Some(1105),
        _ => None,
    }
}

/// The core that the lines behind a line are of.
fn core_behind(core: u8, line: Line) -> u8
    ensures { result ≡ spec.core_behind core line }
{
    match line {
        Line::Core(n) => number_of(n),
        _ => core,
    }
}

/// Whether the instruction at an index leads to one, on its side, where it leads to another than the next.
fn leads_on(size: usize, index: u32, instr: Instr) -> bool
    ensures { result ≡ has_good_target size index instr }
{
    match instr {
        Instr::Brft(_, k) | Instr::Brff(_, k) | Instr::Brfu(k) | Instr::Blrf(k) => {
            index < k && (k as usize) < size
        }
        Instr::Brbt(_, k) | Instr::Brbf(_, k) | Instr::Brbu(k) | Instr::Blrb(k) => {
            k <= index && (k as usize) < size
        }
        Instr::Setv(_, k) | Instr::Tinitpc(_, k) => (k as usize) < size,
        _ => true,
    }
}

/// Whether a channel's two ends are there, differ, and no channel before names one.
fn joins_new_ends(cores: &[CoreImage], before: &[Pair], pair: Pair) -> bool
    ensures { result ≡ is_good_pair cores.now before.now pair }
{
    let is_twice = pair.core == pair.peer_core && pair.end == pair.peer_end;
    is_new(cores, before, pair.core, pair.end)
        && is_new(cores, before, pair.peer_core, pair.peer_end)
        && !is_twice
}

/// Whether an end is there, and no channel before names it.
fn is_new(cores: &[CoreImage], before: &[Pair], core: u8, end: u32) -> bool
    ensures { result ≡ is_new_end cores.now before.now core end }
{
    end < ends_of(cores, core) && !is_named(before, core, end)
}

/// Whether channels name each end of a core that is below a number.
fn are_named(chans: &[Pair], core: u8, ends: u32) -> bool
    ensures { result ≡ spec.are_named chans.now core ends }
{
    for end in 0..ends {
        if !is_named(chans, core, end) {
            return false;
        }
    }
    true
}

/// Whether channels name an end.
fn is_named(chans: &[Pair], core: u8, end: u32) -> bool
    ensures { result ≡ spec.is_named chans.now core end }
{
    let mut rest = chans;
    'each: while let [first, behind @ ..] = rest {
        if has(*first, core, end) {
            return true;
        }
        rest = behind;
    }
    false
}

/// Whether a channel has that end.
fn has(pair: Pair, core: u8, end: u32) -> bool
    ensures { result ≡ has_end pair core end }
{
    (pair.core == core && pair.end == end) || (pair.peer_core == core && pair.peer_end == end)
}

/// How much code a core has: none, where the cores don't hold it.
fn size_of(cores: &[CoreImage], core: u8) -> usize
    ensures { result ≡ spec.size_of cores.now core }
{
    let mut rest = cores;
    'each: while let [first, behind @ ..] = rest {
        if first.number == core {
            return first.code.instrs.len();
        }
        rest = behind;
    }
    0
}

/// How many channel ends a core has: none, where the cores don't hold it.
fn ends_of(cores: &[CoreImage], core: u8) -> u32
    ensures { result ≡ (parts_in cores.now core).ends }
{
    let mut rest = cores;
    'each: while let [first, behind @ ..] = rest {
        if first.number == core {
            return first.ends;
        }
        rest = behind;
    }
    0
}
