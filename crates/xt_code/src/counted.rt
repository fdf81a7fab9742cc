// How much code pieces are that don't run by themselves.

ghost use Rattle.std.specs.Prelude.{◌≤◌, length};

use crate::expressions::{NAME, expression};
use crate::trouble::Trouble;
use std::alloc::Global;
use xl_expr::{Plan, emit_expr};
use xl_flow::{emit_back, emit_jump, emit_test};
use xl_par::end_root;
use xs_instr::{Emitter, Reg};

/// Behind how much code a piece may stand.
const MOST_BEFORE: u32 = 2000;

/// How many instructions some pieces have, and the place of the last one.
pub fn count_of(alloc: Global, plan: &Plan, pieces: &str) -> Result<String, Trouble> {
    let mut e = Emitter::new(alloc);
    for piece in pieces.split(" ; ") {
        if e.here() > MOST_BEFORE {
            return Err(Trouble::Long);
        }
        add_piece(alloc, &mut e, plan, piece)?;
    }
    let last = e.pos();
    Ok(format!(in alloc; "{} {}:{}", e.here(), last.line, last.col)?)
}

fn add_piece(alloc: Global, e: &mut Emitter, plan: &Plan, piece: &str) -> Result<(), Trouble>
    requires few { length e.old ≤ 2000 }
{
    match piece.split_once(' ') {
        Some(("give", x)) => add_give(alloc, e, plan, x),
        Some(("test", x)) => add_test(alloc, e, plan, x),
        _ => add_word(e, piece),
    }
}

fn add_give(alloc: Global, e: &mut Emitter, plan: &Plan, x: &str) -> Result<(), Trouble>
    requires few { length e.old ≤ 2000 }
{
    let x = expression(alloc, x)?;
    let given = emit_expr(e, plan, &x, Reg::R5);
    drop(x);
    Ok(given?)
}

fn add_test(alloc: Global, e: &mut Emitter, plan: &Plan, x: &str) -> Result<(), Trouble>
    requires few { length e.old ≤ 2000 }
{
    let x = expression(alloc, x)?;
    let tested = emit_test(e, plan, &x, NAME);
    drop(x);
    let _hole = tested?;
    Ok(())
}

fn add_word(e: &mut Emitter, piece: &str) -> Result<(), Trouble>
    requires few { length e.old ≤ 2000 }
{
    match piece {
        "jump" => {
            let _hole = emit_jump(e, NAME)?;
        }
        "back" => emit_back(e, 0, NAME)?,
        "end" => end_root(e, NAME)?,
        _ => return Err(Trouble::Line),
    }
    Ok(())
}
