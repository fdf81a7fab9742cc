// The image that the lines of a listing tell.
ghost use Rattle.std.specs.Prelude.{◌≡◌, IfOk};
ghost use Rattle.xr_assembly.specs.Images as spec;
ghost use Rattle.xr_assembly.specs.Images.{core_number, told};

use crate::lines::{ChanLine, Line};
use std::alloc::Global;
use xs_instr::{Code, CoreImage, Image, Instr, Pair, PortDecl};
use xw_words::{List, Memory, Pos};

/// The image that lines tell. The one error is want of memory.
pub fn image_of(alloc: Global, lines: &[Line]) -> Result<Image, Memory>
    ensures { IfOk result (λ image. image ≡ spec.image_of lines.now) }
{
    let cores = cores_of(alloc, lines)?;
    let chans = pairs_of(alloc, lines)?;
    Ok(Image { cores, chans })
}

fn cores_of(alloc: Global, lines: &[Line]) -> Result<List<CoreImage>, Memory>
    ensures { IfOk result (λ cores. cores ≡ spec.cores_of lines.now) }
{
    let mut cores = List::new(alloc);
    let mut rest = lines;
    'each: while let [first, behind @ ..] = rest {
        if let Line::Core(n) = *first {
            cores.push(core_of(alloc, n, behind)?)?;
        }
        rest = behind;
    }
    Ok(cores)
}

/// A core, by its number and the lines behind it.
fn core_of(alloc: Global, number: u32, lines: &[Line]) -> Result<CoreImage, Memory>
    ensures { IfOk result (λ core. core ≡ spec.core_told number lines.now) }
{
    let ports = ports_of(alloc, lines)?;
    let roots = roots_of(alloc, lines)?;
    let instrs = instrs_of(alloc, lines)?;
    let at = places_of(alloc, lines)?;
    Ok(CoreImage {
        number: number_of(number),
        words: words_in(lines),
        timers: timers_in(lines),
        ends: ends_in(lines),
        ports,
        roots,
        code: Code { instrs, at },
    })
}

/// A core's number, 255 for one that is no byte.
pub fn number_of(core: u32) -> u8
    ensures { result ≡ core_number core }
{
    if core < 255 { core as u8 } else { 255 }
}

fn words_in(lines: &[Line]) -> u32
    ensures { result ≡ spec.words_in lines.now }
{
    match lines {
        [Line::Words(n), ..] => *n,
        _ => 0,
    }
}

fn timers_in(lines: &[Line]) -> u32
    ensures { result ≡ spec.timers_in lines.now }
{
    match lines {
        [_, Line::Timers(n), ..] => *n,
        _ => 0,
    }
}

fn ends_in(lines: &[Line]) -> u32
    ensures { result ≡ spec.channel_ends_in lines.now }
{
    match lines {
        [_, _, Line::Ends(n), ..] => *n,
        _ => 0,
    }
}

/// The ports of the core that the lines are of.
fn ports_of(alloc: Global, lines: &[Line]) -> Result<List<PortDecl>, Memory>
    ensures { IfOk result (λ ports. ports ≡ told spec.port_in lines.now) }
{
    let mut ports = List::new(alloc);
    let mut rest = lines;
    'each: while let [first, behind @ ..] = rest {
        if is_core(*first) {
            return Ok(ports);
        }
        if let Some(decl) = port_in(*first) {
            ports.push(decl)?;
        }
        rest = behind;
    }
    Ok(ports)
}

/// The roots of the core that the lines are of.
fn roots_of(alloc: Global, lines: &[Line]) -> Result<List<u32>, Memory>
    ensures { IfOk result (λ roots. roots ≡ told spec.root_in lines.now) }
{
    let mut roots = List::new(alloc);
    let mut rest = lines;
    'each: while let [first, behind @ ..] = rest {
        if is_core(*first) {
            return Ok(roots);
        }
        if let Some(root) = root_in(*first) {
            roots.push(root)?;
        }
        rest = behind;
    }
    Ok(roots)
}

/// The instructions of the core that the lines are of.
fn instrs_of(alloc: Global, lines: &[Line]) -> Result<List<Instr>, Memory>
    ensures { IfOk result (λ instrs. instrs ≡ told spec.instr_in lines.now) }
{
    let mut instrs = List::new(alloc);
    let mut rest = lines;
    'each: while let [first, behind @ ..] = rest {
        if is_core(*first) {
            return Ok(instrs);
        }
        if let Some(instr) = instr_in(*first) {
            instrs.push(instr)?;
        }
        rest = behind;
    }
    Ok(instrs)
}

/// The places of these instructions.
fn places_of(alloc: Global, lines: &[Line]) -> Result<List<Pos>, Memory>
    ensures { IfOk result (λ places. places ≡ told spec.pos_in lines.now) }
{
    let mut places = List::new(alloc);
    let mut rest = lines;
    'each: while let [first, behind @ ..] = rest {
        if is_core(*first) {
            return Ok(places);
        }
        if let Some(pos) = pos_in(*first) {
            places.push(pos)?;
        }
        rest = behind;
    }
    Ok(places)
}

/// The channels.
fn pairs_of(alloc: Global, lines: &[Line]) -> Result<List<Pair>, Memory>
    ensures { IfOk result (λ pairs. pairs ≡ spec.pairs_of lines.now) }
{
    let mut pairs = List::new(alloc);
    let mut rest = lines;
    'each: while let [first, behind @ ..] = rest {
        if let Some(chan) = chan_in(*first) {
            pairs.push(pair_of(chan))?;
        }
        rest = behind;
    }
    Ok(pairs)
}

/// A channel.
pub fn pair_of(chan: ChanLine) -> Pair
    ensures { result ≡ spec.pair_of chan }
{
    Pair {
        core: number_of(chan.core),
        end: chan.end,
        peer_core: number_of(chan.peer_core),
        peer_end: chan.peer_end,
    }
}

fn is_core(line: Line) -> bool
    ensures { result ≡ spec.is_core line }
{
    matches!(line, Line::Core(_))
}

fn port_in(line: Line) -> Option<PortDecl>
    ensures { result ≡ spec.port_in line }
{
    match line {
        Line::Port(decl) => Some(decl),
        _ => None,
    }
}

fn root_in(line: Line) -> Option<u32>
    ensures { result ≡ spec.root_in line }
{
    match line {
        Line::Root(k) => Some(k),
        _ => None,
    }
}

fn instr_in(line: Line) -> Option<Instr>
    ensures { result ≡ spec.instr_in line }
{
    match line {
        Line::Code(code) => Some(code.instr),
        _ => None,
    }
}

fn pos_in(line: Line) -> Option<Pos>
    ensures { result ≡ spec.pos_in line }
{
    match line {
        Line::Code(code) => Some(code.pos),
        _ => None,
    }
}

pub fn chan_in(line: Line) -> Option<ChanLine>
    ensures { result ≡ spec.chan_in line }
{
    match line {
        Line::Chan(chan) => Some(chan),
        _ => None,
    }
}
