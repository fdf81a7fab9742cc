// The texts of a case's files.

use crate::trouble::Trouble;
use std::alloc::{AllocError, Global};

/// The text that these lines of a case make.
pub fn text_of(alloc: Global, case: &str) -> Result<String, Trouble> {
    let mut text = String::new(alloc);
    for line in case.split('\n') {
        add_line(&mut text, line)?;
    }
    Ok(text)
}

/// Adds what a line says of the text.
fn add_line(text: &mut String, line: &str) -> Result<(), Trouble> {
    let (mark, piece) = line.split_once(' ').unwrap_or((line, ""));
    match mark {
        "|" => {
            text.push_str(piece)?;
            text.push('\n')?;
        }
        "/" => text.push_str(piece)?,
        "*" => {
            let (times, piece) = piece.split_once(' ').unwrap_or((piece, " "));
            add_times(text, number(times)?, piece, "")?;
        }
        "*|" => {
            let (times, line) = piece.split_once(' ').unwrap_or((piece, ""));
            add_times(text, number(times)?, line, "\n")?;
        }
        _ => {}
    }
    Ok(())
}

fn add_times(text: &mut String, times: u32, piece: &str, end: &str) -> Result<(), AllocError> {
    for _time in 0..times {
        text.push_str(piece)?;
        text.push_str(end)?;
    }
    Ok(())
}

pub fn number(text: &str) -> Result<u32, Trouble> {
    match text.parse::<u32>() {
        Ok(number) => Ok(number),
        Err(_) => Err(Trouble::Lines),
    }
}
