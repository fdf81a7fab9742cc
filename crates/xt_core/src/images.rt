//! Images of two cores, of which the first one is tried.

ghost use Rattle.std.specs.Prelude.{◌≡◌, ◌≤◌, ◌∷◌, [], length, IfOk};
ghost use Rattle.xt_core.specs.Channels.{across, within};
ghost use Rattle.xs_core.specs.Deliver.{HasRoomFrom};
ghost use Rattle.xs_instr.specs.declared.image.Stim.{Stim as Lines};
ghost use Rattle.xs_instr.specs.declared.state.Moved.TheVariants.{Tok};
ghost use Rattle.xs_instr.specs.declared.state.Token.{Token as Came};
ghost use Rattle.xs_instr.specs.Machine.{boot_core, home_of, parts_in};
ghost use Rattle.xs_instr.specs.Valid.{AreGoodInstrs, AreGoodPorts, AreIndices, IsGoodCore, Valid};

use crate::trouble::Trouble;
use std::alloc::{AllocError, Global};
use xr_listed::{are_good, are_indices};
use xs_instr::{Code, CoreImage, Dir, Image, Instr, Pair, PortDecl};
use xw_words::{List, Memory, Pos};

/// The most roots that a core has.
const MOST_ROOTS: usize = 8;

/// The most instructions of a case.
const MOST_INSTRUCTIONS: usize = 1000;

/// An image of two cores. Core 0 has this code; four words; two timers; the ports 0 to 2, which are 32A, 4A for output and 1A for input;
/// and three channel ends, of which 0 and 1 are joined, and 2 leads to core 1.
pub fn image_of(alloc: Global, instrs: List<Instr>, roots: List<u32>) -> Result<Image, Trouble>
    ensures valid { IfOk result (λ image. Valid image) }
    ensures far { IfOk result (λ image. (s : Lines) (t : Came) → HasRoomFrom (home_of image s 0)
        (boot_core (parts_in image.cores 0)).ends (Tok 2 t)) }
{
    if instrs.len() > MOST_INSTRUCTIONS || !are_good(instrs.as_slice()) {
        return Err(Trouble::Code);
    }
    if roots.len() == 0
        || roots.len() > MOST_ROOTS
        || !are_indices(instrs.len(), roots.as_slice())
    {
        return Err(Trouble::Code);
    }
    let image = two_cores(alloc, instrs, roots)?;
    Ok(image)
}

/// The image of code that is good.
fn two_cores(alloc: Global, instrs: List<Instr>, roots: List<u32>) -> Result<Image, Memory>
    requires code { AreGoodInstrs (length instrs) 0 instrs }
    requires few { length instrs ≤ 1000 }
    requires some_root { 1 ≤ length roots }
    requires few_roots { length roots ≤ 8 }
    requires roots { AreIndices (length instrs) roots }
    ensures valid { IfOk result (λ image. Valid image) }
    ensures far { IfOk result (λ image. (s : Lines) (t : Came) → HasRoomFrom (home_of image s 0)
        (boot_core (parts_in image.cores 0)).ends (Tok 2 t)) }
{
    let first = first_core(alloc, instrs, roots)?;
    let second = second_core(alloc)?;
    let mut cores = List::new(alloc);
    cores.push(first)?;
    cores.push(second)?;
    let chans = channels(alloc)?;
    Ok(Image { cores, chans })
}

/// Core 0, which is tried.
fn first_core(alloc: Global, instrs: List<Instr>, roots: List<u32>) -> Result<CoreImage, Memory>
    requires code { AreGoodInstrs (length instrs) 0 instrs }
    requires few { length instrs ≤ 1000 }
    requires some_root { 1 ≤ length roots }
    requires few_roots { length roots ≤ 8 }
    requires roots { AreIndices (length instrs) roots }
    ensures number { IfOk result (λ core. core.number ≡ 0) }
    ensures ends { IfOk result (λ core. core.ends ≡ 3) }
    ensures good { IfOk result IsGoodCore }
{
    let ports = ports(alloc)?;
    let at = places(alloc, instrs.len() as u32)?;
    Ok(CoreImage {
        number: 0,
        words: 4,
        timers: 2,
        ends: 3,
        ports,
        roots,
        code: Code { instrs, at },
    })
}

/// Core 1, which has the far end of a channel.
fn second_core(alloc: Global) -> Result<CoreImage, Memory>
    ensures number { IfOk result (λ core. core.number ≡ 1) }
    ensures ends { IfOk result (λ core. core.ends ≡ 1) }
    ensures good { IfOk result IsGoodCore }
{
    let mut instrs = List::new(alloc);
    instrs.push(Instr::Freet)?;
    let mut roots = List::new(alloc);
    roots.push(0)?;
    let at = places(alloc, 1)?;
    Ok(CoreImage {
        number: 1,
        words: 0,
        timers: 0,
        ends: 1,
        ports: List::new(alloc),
        roots,
        code: Code { instrs, at },
    })
}

/// 32A, 4A for output and 1A for input, each by its identifier's place among all ports.
fn ports(alloc: Global) -> Result<List<PortDecl>, AllocError>
    ensures { IfOk result AreGoodPorts }
{
    let decls = vec![in alloc;
        PortDecl {
            port: 28,
            dir: Dir::Both
        },
        PortDecl {
            port: 16,
            dir: Dir::Out
        },
        PortDecl {
            port: 0,
            dir: Dir::In
        },
    ]?;
    Ok(List::from_vec(decls))
}

/// Ends 0 and 1 of core 0 are joined, and so are its end 2 and core 1's end 0.
fn channels(alloc: Global) -> Result<List<Pair>, Memory>
    ensures { IfOk result (λ chans. chans ≡ within ∷ across ∷ []) }
{
    let mut chans = List::new(alloc);
    chans.push(Pair {
        core: 0,
        end: 0,
        peer_core: 0,
        peer_end: 1,
    })?;
    chans.push(Pair {
        core: 0,
        end: 2,
        peer_core: 1,
        peer_end: 0,
    })?;
    Ok(chans)
}

/// A place for each of `count` instructions: column 5 of a line each.
fn places(alloc: Global, count: u32) -> Result<List<Pos>, Memory>
    ensures { IfOk result (λ list. length list ≡ count) }
{
    let mut list = List::new(alloc);
    for line in 0..count {
        list.push(Pos { line, col: 5 })?;
    }
    Ok(list)
}
