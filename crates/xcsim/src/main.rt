//! The program: `main` hands its words, its files and its streams to the driver, and ends with the status that the driver answers.
#![tactic(auto)]

use std::alloc::Global;
use std::io::ErrorKind;
use std::process::ExitCode;
use std::rt::Env;
use std::{env, io};
use xr_driver::xcsim;
use xw_io::{FsShelf, OpenGate, StdSink};

/// The words after the program's name.
fn command_words(rt: &(impl Env + Alloc<A = Global>)) -> io::Result<Vec<String>> {
    let mut words = Vec::new(rt.alloc());
    for word in env::args(rt)?.skip(1) {
        words.push(word)?;
    }
    Ok(words)
}

/// The status where the program can't have its words. Nothing is written then.
fn status_without_words(kind: ErrorKind) -> u8 {
    if kind == ErrorKind::OutOfMemory {
        12
    } else {
        15
    }
}

fn main(rt: HostRuntime) -> ExitCode {
    let words = match command_words(&rt) {
        Ok(words) => words,
        Err(e) => return ExitCode::from(status_without_words(e.kind())),
    };
    let mut shelf = FsShelf::new(&rt);
    let mut out = StdSink::new(rt.stdout());
    let mut err = StdSink::new(rt.stderr());
    ExitCode::from(xcsim(
        &rt,
        rt.alloc(),
        words.as_slice(),
        &mut shelf,
        &mut out,
        &mut err,
        &OpenGate,
    ))
}

#[cfg(test)]
mod deepest;
#[cfg(test)]
mod meeting;
