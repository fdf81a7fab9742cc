// The deepest program: its calls and branches are nearly as deep as a program's may be. `bench/image` compares its whole listing with one that it
// works out by rules of its own.

use std::alloc::{AllocError, Global};
use std::test::Fail;
use xr_driver::xcsim;
use xw_io::{File, MemShelf, MemSink, OpenGate};
use xw_words::List;

/// How many functions there are, and in how many branches each calls the one before.
const FUNCTIONS: u32 = 19;

const BRANCHES: u32 = 25;

/// The lines of its listing: `code`, the core with its words, timers, ends and root; 4 instructions before the call of the last function and 3
/// behind it; and of each function 2 for its result, 2 for its parameter, 2 for each branch, 2 that load and store what it makes, and 3 for what it
/// returns and the jump behind that. The first one has another, for its sum.
const LINES: u32 = 6 + 4 + FUNCTIONS * (4 + 2 * BRANCHES + 2 + 3) + 1 + 3;

/// `f0` to `f18`, which add 1 to their parameter behind as many branches, and main, which calls the last of them.
fn deepest(alloc: Global) -> Result<String, AllocError> {
    let mut text = String::new(alloc);
    for number in 0..FUNCTIONS {
        let head = format!(in alloc; "int f{number}(int a) {{ ")?;
        let inside = inner(alloc, number)?;
        text.push_str(head.as_str())?;
        repeat(&mut text, "if (a) { ")?;
        text.push_str(inside.as_str())?;
        repeat(&mut text, " }")?;
        text.push_str(" return a; }\n")?;
    }
    text.push_str("void main(void) { int r; r = f18(1); }\n")?;
    Ok(text)
}

/// What a function does inside its branches.
fn inner(alloc: Global, number: u32) -> Result<String, AllocError> {
    if number == 0 {
        return format!(in alloc; "a = a + 1;");
    }
    let before = number - 1;
    format!(in alloc; "a = f{before}(a);")
}

/// Puts a piece of text once for each branch.
fn repeat(text: &mut String, piece: &str) -> Result<(), AllocError> {
    for _ in 0..BRANCHES {
        text.push_str(piece)?;
    }
    Ok(())
}

/// A shelf with this file alone.
fn shelf(alloc: Global) -> Result<MemShelf, Fail> {
    let text = deepest(alloc)?;
    let name = Vec::from_slice(alloc, b"a.xc")?;
    let mut files = List::new(alloc);
    files.push(File {
        name: List::from_vec(name),
        bytes: List::from_vec(text.into_bytes()),
    })?;
    Ok(MemShelf::new(files, List::new(alloc)))
}

fn words(alloc: Global) -> Result<Vec<String>, AllocError> {
    let mut words = Vec::new(alloc);
    for word in ["asm", "a.xc"] {
        words.push(String::from_str(alloc, word)?)?;
    }
    Ok(words)
}

#[test]
fn deepest_program(rt: HostRuntime) -> Result<(), Fail> {
    let alloc = rt.alloc();
    let words = words(alloc)?;
    let mut shelf = shelf(alloc)?;
    let mut out = MemSink::new(alloc, 65_536, List::new(alloc))?;
    let mut err = MemSink::new(alloc, 1_000, List::new(alloc))?;
    let status = xcsim(
        &rt,
        alloc,
        words.as_slice(),
        &mut shelf,
        &mut out,
        &mut err,
        &OpenGate,
    );
    assert_eq!(rt; status, 0);
    let lines = out.bytes().iter().filter(|byte| **byte == b'\n').count();
    assert_eq!(rt; lines, LINES as usize);
    assert!(rt; out.bytes().starts_with(b"code\n.core 0\n.words 612\n"));
    assert!(rt; out.bytes().ends_with(b"\n1128: FREET @20:6\n"));
    Ok(())
}
