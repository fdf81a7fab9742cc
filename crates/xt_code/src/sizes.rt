// Whether an expression is small enough for its code.

ghost use Rattle.std.specs.Bool.{OnTrue};
ghost use Rattle.std.specs.Prelude.{◌+◌, ◌≤◌, IfSome};
ghost use Rattle.xc_kernel.specs.Kernels.{expression_of, place_of};
ghost use Rattle.xl_expr.specs.Measures.{depth, depth_at, depth_of, nodes, nodes_at, nodes_of};
ghost use Rattle.xl_expr.specs.Operands.{operands_of};

use xc_kernel::{Kx, Place};

/// The most nodes of an expression, and how deep it may be.
const MOST_NODES: u32 = 1000;

const DEEPEST: u32 = 400;

/// Whether an expression is small enough for its code.
pub fn is_small(x: &Kx) -> bool
    ensures nodes { OnTrue result (nodes (expression_of x.now) ≤ 1000) }
    ensures depth { OnTrue result (depth (expression_of x.now) ≤ 400) }
{
    left_behind(x, MOST_NODES, DEEPEST).is_some()
}

/// Whether a place is small enough for its code.
pub fn is_small_place(place: &Place) -> bool
    ensures nodes { OnTrue result (nodes_at (place_of place.now) ≤ 1000) }
    ensures depth { OnTrue result (depth_at (place_of place.now) ≤ 400) }
{
    left_behind_place(place, MOST_NODES, DEEPEST).is_some()
}

/// How many nodes are left of so many behind an expression that is no deeper than this.
#[cycle(sizes)]
#[tactic(auto, using(xc_kernel::proofs::Forms::forms))]
fn left_behind(x: &Kx, left: u32, levels: u32) -> Option<u32>
    ensures nodes { IfSome result (λ rest. nodes (expression_of x.now) + rest ≤ left) }
    ensures depth { IfSome result (λ rest. depth (expression_of x.now) ≤ levels) }
{
    if left == 0 || levels == 0 {
        return None;
    }
    match x {
        Kx::Num(_) => Some(left - 1),
        Kx::Read(place) => left_behind_place(place, left, levels),
        Kx::Op(_, _, operands, _) => left_behind_all(operands.as_slice(), left - 1, levels - 1),
    }
}

/// The same of a place.
#[cycle(sizes)]
#[tactic(auto, using(xc_kernel::proofs::Forms::forms))]
fn left_behind_place(place: &Place, left: u32, levels: u32) -> Option<u32>
    requires some { 1 ≤ left }
    requires deep { 1 ≤ levels }
    ensures nodes { IfSome result (λ rest. nodes_at (place_of place.now) + rest ≤ left) }
    ensures depth { IfSome result (λ rest. depth_at (place_of place.now) ≤ levels) }
{
    match place {
        Place::Word(_) => Some(left - 1),
        Place::Elem(_, index, _) => left_behind(index, left - 1, levels - 1),
    }
}

/// The same of operands.
#[cycle(sizes)]
fn left_behind_all(xs: &[Kx], left: u32, levels: u32) -> Option<u32>
    ensures nodes { IfSome result (λ rest. nodes_of (operands_of xs.now) + rest ≤ left) }
    ensures depth { IfSome result (λ rest. depth_of (operands_of xs.now) ≤ levels) }
{
    let mut rest = left;
    for x in xs {
        rest = left_behind(x, rest, levels)?;
    }
    Some(rest)
}
