// Bounds of a loop, by routes.
ghost use Rattle.std.specs.Prelude.{◌≡◌, ◌<◌, ◌^◌, length, IfOk};
ghost use Rattle.xs_instr.specs.Valid.{AreGoodInstrs, IsGoodInstr, Valid};

use crate::{TimeErr, bounds};
use std::alloc::Global;
use xs_instr::{Code, CoreImage, Image, Instr, Reg};
use xw_words::allocation::one;
use xw_words::{List, Memory, Pos};

/// An image of one core with this code, whose one root is the first instruction.
fn image_of(alloc: Global, code: Code) -> Result<Image, Memory>
    requires some { 0 < length code.instrs }
    requires few { length code.instrs < 2 ^ 32 }
    requires places { length code.«at» ≡ length code.instrs }
    requires good { AreGoodInstrs (length code.instrs) 0 code.instrs }
    ensures { IfOk result Valid }
{
    let roots = one(alloc, 0)?;
    let cores = one(
        alloc,
        CoreImage {
            number: 0,
            words: 0,
            timers: 0,
            ends: 0,
            ports: List::new(alloc),
            roots,
            code,
        },
    )?;
    let chans = List::new(alloc);
    Ok(Image { cores, chans })
}

/// A loop of three instructions, which is gone through three times. The instruction behind it is told.
fn code_with(alloc: Global, behind: Instr) -> Result<Code, Memory>
    requires { IsGoodInstr 6 4 behind }
    ensures size { IfOk result (λ code. length code.instrs ≡ 6) }
    ensures places { IfOk result (λ code. length code.«at» ≡ 6) }
    ensures good { IfOk result (λ code. AreGoodInstrs 6 0 code.instrs) }
{
    let instrs = [
        Instr::Ldc(Reg::R0, 3),
        Instr::Addi(Reg::R1, Reg::R1, 1),
        Instr::Addi(Reg::R0, Reg::R0, 4294967295),
        Instr::Brbt(Reg::R0, 1),
        behind,
        Instr::Freet,
    ]
    .to_vec(alloc)?;
    let at = [
        Pos { line: 1, col: 1 },
        Pos { line: 2, col: 1 },
        Pos { line: 2, col: 2 },
        Pos { line: 2, col: 3 },
        Pos { line: 3, col: 1 },
        Pos { line: 4, col: 1 },
    ]
    .to_vec(alloc)?;
    Ok(Code {
        instrs: List::from_vec(instrs),
        at: List::from_vec(at),
    })
}

/// A loop of one instruction and one of two in a loop, with two forward branches that cross, of which one arm ends the thread. The outer loop's
/// branch is the last instruction. SSYNC, which no way comes to, stands at the place of the first one.
fn nested_code(alloc: Global) -> Result<Code, Memory>
    ensures size { IfOk result (λ code. length code.instrs ≡ 11) }
    ensures places { IfOk result (λ code. length code.«at» ≡ 11) }
    ensures good { IfOk result (λ code. AreGoodInstrs 11 0 code.instrs) }
{
    let instrs = [
        Instr::Ldc(Reg::R0, 2),
        Instr::Ldc(Reg::R1, 2),
        Instr::Addi(Reg::R1, Reg::R1, 4294967295),
        Instr::Brbt(Reg::R1, 2),
        Instr::Brff(Reg::R0, 8),
        Instr::Brft(Reg::R1, 9),
        Instr::Freet,
        Instr::Ssync,
        Instr::Brbt(Reg::R2, 8),
        Instr::Addi(Reg::R0, Reg::R0, 4294967295),
        Instr::Brbt(Reg::R0, 1),
    ]
    .to_vec(alloc)?;
    let at = [
        Pos { line: 1, col: 1 },
        Pos { line: 2, col: 1 },
        Pos { line: 3, col: 1 },
        Pos { line: 4, col: 1 },
        Pos { line: 5, col: 1 },
        Pos { line: 6, col: 1 },
        Pos { line: 7, col: 1 },
        Pos { line: 1, col: 1 },
        Pos { line: 9, col: 1 },
        Pos { line: 10, col: 1 },
        Pos { line: 11, col: 1 },
    ]
    .to_vec(alloc)?;
    Ok(Code {
        instrs: List::from_vec(instrs),
        at: List::from_vec(at),
    })
}

/// The code of a row: the loop with LDC, IN, WAITEU, BRBU to the first instruction or SETSR of another bit than that of events behind it; or the
/// loops in a loop.
#[derive(Clone, Copy)]
enum Told {
    Ldc,
    In,
    Waiteu,
    Brbu,
    Setsr,
    Nested,
}

/// A text of routes, the code, and the numbers or the line and rule that are wanted.
type Row = (&'static [u8], Told, Result<&'static [u64], (u32, u16)>);

const ROWS: [Row; 37] = [
    (b"route 0 1:1 3:1 2", Told::Ldc, Ok(&[9])),
    (
        b"route 0 1:1 3:1 1\n# more\n\nroute 0 1:1 4:1 2\n",
        Told::Ldc,
        Ok(&[6, 10]),
    ),
    (b"", Told::Ldc, Ok(&[])),
    (b"route 0 1:1 9:9 0", Told::Ldc, Err((1, 1003))),
    (b"route 0 1:1 4:1 2", Told::In, Err((1, 1004))),
    (
        b"route 0 1:1 4:1 2\nroute 3 1:1 1:1 0",
        Told::In,
        Err((2, 1003)),
    ),
    (
        b"route 0 1:1 9:9 0\nroute 0 1:1 4:1",
        Told::Ldc,
        Err((2, 1001)),
    ),
    (b"route 4 1:1 4:1 0", Told::Ldc, Err((1, 1002))),
    (b"route 0 1:1 4:1 1001", Told::Ldc, Err((1, 1002))),
    // the exit is where the route ends
    (b"route 0 1:1 2:1 0", Told::Ldc, Ok(&[0])),
    // the thread ends where the route begins
    (b"route 0 4:1 1:1 0", Told::Ldc, Ok(&[0])),
    // it begins where it ends: past the loop, or once round it
    (b"route 0 2:1 2:1 0", Told::Ldc, Ok(&[4])),
    (b"route 0 2:3 2:3 1000", Told::Ldc, Ok(&[2])),
    (b"route 00 01:1 003:01 01000", Told::Ldc, Ok(&[3003])),
    (b"route 0 4294967296:1 3:1 0", Told::Ldc, Err((1, 1001))),
    // the input stands where the route ends, or where it begins
    (b"route 0 1:1 3:1 0", Told::In, Ok(&[3])),
    (b"route 0 3:1 1:1 0", Told::In, Ok(&[1])),
    (b"route 0 1:1 3:1 0", Told::Waiteu, Ok(&[3])),
    (b"route 0 3:1 1:1 0", Told::Waiteu, Err((1, 1004))),
    // with no backward branch left no way comes to BRBU, but to BRBT
    (b"route 0 1:1 4:1 0", Told::Brbu, Ok(&[3])),
    (b"route 0 1:1 4:1 1", Told::Brbu, Ok(&[8])),
    (b"route 0 3:1 4:1 0", Told::Brbu, Ok(&[4])),
    // SETSR stands where the route ends, on the way, or where it begins
    (b"route 0 1:1 3:1 0", Told::Setsr, Ok(&[3])),
    (b"route 0 1:1 4:1 0", Told::Setsr, Err((1, 1004))),
    (b"route 0 3:1 4:1 0", Told::Setsr, Err((1, 1004))),
    // no way comes to 1:1: all end behind the code, once, twice or three times through the outer loop
    (b"route 0 2:1 1:1 0", Told::Nested, Ok(&[6])),
    (b"route 0 2:1 1:1 1", Told::Nested, Ok(&[13])),
    (b"route 0 2:1 1:1 2", Told::Nested, Ok(&[20])),
    // the inner loop: from its front, and from its branch
    (b"route 0 2:1 11:1 0", Told::Nested, Ok(&[5])),
    (b"route 0 2:1 11:1 3", Told::Nested, Ok(&[11])),
    (b"route 0 4:1 11:1 0", Told::Nested, Ok(&[5])),
    // once round the outer loop, without and with the inner one
    (b"route 0 11:1 11:1 0", Told::Nested, Ok(&[6])),
    (b"route 0 11:1 11:1 2", Told::Nested, Ok(&[10])),
    // the arm that ends the thread is the longer one, until the other one stays at its first instruction
    (b"route 0 5:1 10:1 0", Told::Nested, Ok(&[2])),
    (b"route 0 5:1 10:1 2", Told::Nested, Ok(&[3])),
    // the outer branch at the code's end
    (b"route 0 6:1 9:1 1", Told::Nested, Ok(&[9])),
    // SSYNC stands where the route begins, though no way comes to it
    (b"route 0 1:1 11:1 0", Told::Nested, Err((1, 1004))),
];

fn code_of(alloc: Global, told: Told) -> Result<Code, Memory>
    ensures some { IfOk result (λ code. 0 < length code.instrs) }
    ensures few { IfOk result (λ code. length code.instrs < 2 ^ 32) }
    ensures places { IfOk result (λ code. length code.«at» ≡ length code.instrs) }
    ensures good { IfOk result (λ code. AreGoodInstrs (length code.instrs) 0 code.instrs) }
{
    match told {
        Told::Ldc => code_with(alloc, Instr::Ldc(Reg::R2, 0)),
        Told::In => code_with(alloc, Instr::In(Reg::R2, Reg::R1)),
        Told::Waiteu => code_with(alloc, Instr::Waiteu),
        Told::Brbu => code_with(alloc, Instr::Brbu(0)),
        Told::Setsr => code_with(alloc, Instr::Setsr(2)),
        Told::Nested => nested_code(alloc),
    }
}

/// Whether that is what comes of the text.
fn is_as_wanted(alloc: Global, row: &Row) -> Result<bool, Memory> {
    let (text, told, want) = *row;
    if text.len() > 100 {
        return Ok(false);
    }
    let image = image_of(alloc, code_of(alloc, told)?)?;
    match (bounds(alloc, &image, text), want) {
        (Ok(numbers), Ok(want)) => Ok(numbers.as_slice() == want),
        (Err(TimeErr::Line { line, rule }), Err(want)) => Ok((line, rule) == want),
        (Err(TimeErr::Memory), _) => Err(Memory),
        _ => Ok(false),
    }
}

/// The place of the first row of which something else comes.
fn wrong_row(alloc: Global) -> Result<Option<usize>, Memory> {
    for (place, row) in ROWS.iter().enumerate() {
        if !is_as_wanted(alloc, row)? {
            return Ok(Some(place));
        }
    }
    Ok(None)
}

/// Each row has its numbers, or its broken rule.
#[test]
fn bounds_of_routes(rt: HostRuntime) {
    assert_eq!(rt; wrong_row(rt.alloc()), Ok(None));
}
