// The bounds of an image.
ghost use Rattle.std.specs.Prelude.{◌≡◌, ◌<◌, ◌^◌, ℕ, List, length, IfErr, IfOk, MatchOption};
ghost use Rattle.xf_time.specs.Bounds as spec;
ghost use Rattle.xf_time.specs.Bounds.{AreBounds, AreRouteNumbers, IsFirstBroken, IsFirstHeld, IsHeld, IsNumberOf};
ghost use Rattle.xf_time.specs.Errors.{IfLine};
ghost use Rattle.xs_instr.specs.Machine.{no_parts, parts_in};
ghost use Rattle.xs_instr.specs.Valid.{Valid};

use crate::form::Route;
use crate::reader::{RouteLine, TimeErr, read_routes};
use crate::route::longest;
use std::alloc::Global;
use xs_instr::{Code, CoreImage, Image};
use xw_words::{List, Memory, Pos};

/// For each route that a text asks for the greatest number of steps on it, in order.
///
/// A line of the text is blank, is a `#` line, or is `route CORE L:C L:C B`: a core, the places where the route begins and ends, and the
/// greatest number of backward branches on it. The text has fewer than 2^32 bytes, so the number of each line fits a `u32`.
///
/// Else the error tells a line and its rule. It is the first line that breaks one of these, with the least: 1001 another form, or a
/// number of 2^32 or more; 1002 a core above 3, or a B above 1,000; 1005 the 17th route. Where there is none, it is the first that breaks
/// 1003: the core has no instruction at one of the places. Else it is the first that breaks 1004: a thread may be held up on the way, or
/// it isn't said where the first place leads. The other error is want of memory.
pub fn bounds(alloc: Global, image: &Image, text: &[u8]) -> Result<List<u64>, TimeErr>
    requires image { Valid image.now }
    requires short { length text.now < 2 ^ 32 }
    ensures numbers { IfOk result (λ numbers. AreBounds image.now text.now numbers) }
    ensures unbroken { IfOk result
        (λ numbers. (n r : ℕ) → IsFirstBroken image.now text.now n r → ⊥) }
    ensures broken { IfErr result
        (λ e. IfLine e (λ line rule. IsFirstBroken image.now text.now line rule)) }
    ensures none { IfErr result
        (λ e. IfLine e (λ line rule. (ns : List ℕ) → AreBounds image.now text.now ns → ⊥)) }
{
    let routes = match read_routes(alloc, text) {
        Ok(routes) => routes,
        Err(e) => return Err(e),
    };
    if let Some(line) = first_misplaced(image, routes.as_slice()) {
        return Err(TimeErr::Line { line, rule: 1003 });
    }
    numbers_of(alloc, image, routes.as_slice())
}

/// The numbers of routes, or the first of them on which a thread may be held up.
fn numbers_of(alloc: Global, image: &Image, routes: &[RouteLine]) -> Result<List<u64>, TimeErr>
    requires { Valid image.now }
    ensures numbers { IfOk result (λ numbers. AreRouteNumbers image.now routes.now numbers) }
    ensures held { IfErr result
        (λ e. IfLine e (λ line rule. (rule ≡ 1004) × IsFirstHeld image.now routes.now line)) }
{
    let mut numbers = List::new(alloc);
    for line in routes {
        match number_of(alloc, image, line.route)? {
            Some(number) => numbers.push(number)?,
            None => {
                return Err(TimeErr::Line {
                    line: line.line,
                    rule: 1004,
                });
            }
        }
    }
    Ok(numbers)
}

/// The number of a route. `None` where a thread may be held up. The one error is want of memory.
fn number_of(alloc: Global, image: &Image, route: Route) -> Result<Option<u64>, Memory>
    requires { Valid image.now }
    ensures { IfOk result
        (λ r. MatchOption r (IsHeld image.now route) (λ n. IsNumberOf image.now route n)) }
{
    match code_of(image.cores.as_slice(), route.core) {
        Some(code) => longest(alloc, code, route.from, route.to, route.backward),
        None => Ok(Some(0)),
    }
}

/// The line of the first route that begins or ends where its core has no instruction.
fn first_misplaced(image: &Image, lines: &[RouteLine]) -> Option<u32>
    ensures { result ≡ spec.first_misplaced image.now lines.now }
{
    let mut rest = lines;
    'each: while let [first, behind @ ..] = rest {
        if is_misplaced(image, first.route) {
            return Some(first.line);
        }
        rest = behind;
    }
    None
}

fn is_misplaced(image: &Image, route: Route) -> bool
    ensures { result ≡ spec.is_misplaced image.now route }
{
    match code_of(image.cores.as_slice(), route.core) {
        Some(code) => !(has_instr_at(code, route.from) && has_instr_at(code, route.to)),
        None => true,
    }
}

/// Whether an instruction stands at a place of the text.
fn has_instr_at(code: &Code, place: Pos) -> bool
    ensures { result ≡ spec.has_instr_at code.now place }
{
    let mut rest = code.at.as_slice();
    'each: while let [first, behind @ ..] = rest {
        if first.line == place.line && first.col == place.col {
            return true;
        }
        rest = behind;
    }
    false
}

/// The code of a core. `None` where the cores don't hold it.
fn code_of(cores: &[CoreImage], core: u32) -> Option<&Code>
    ensures { MatchOption result
        ((parts_in cores.now core).code ≡ (no_parts core).code)
        (λ code. code.now ≡ (parts_in cores.now core).code) }
{
    let mut rest = cores;
    'each: while let [first, behind @ ..] = rest {
        if first.number as u32 == core {
            return Some(&first.code);
        }
        rest = behind;
    }
    None
}
