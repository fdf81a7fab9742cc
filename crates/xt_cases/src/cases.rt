use std::alloc::Global;
use xw_io::{Out, Shelf, Sink};

/// A file of cases, and what stands between two of them. What is empty there or begins with `#` is no case.
#[derive(Clone, Copy)]
pub struct CaseFile {
    pub name: &'static str,
    pub gap: &'static str,
}

/// How cases are tried.
pub trait Cases {
    /// Whether of a case comes what is wanted. What comes else is told.
    fn holds<O: Sink>(&self, alloc: Global, out: &mut Out<'_, O>, case: &str) -> bool;
}

/// Tries the cases of a file, and tells how many there are and how many differ. Whether of each comes what is wanted; where the file
/// can't be read that is told.
pub fn report<S: Shelf, O: Sink, C: Cases>(
    alloc: Global,
    shelf: &mut S,
    out: &mut Out<'_, O>,
    file: CaseFile,
    cases: &C,
) -> bool {
    let Ok(bytes) = shelf.load(alloc, file.name) else {
        tell(out, file.name, "not loaded");
        return false;
    };
    let Ok(text) = str::from_utf8(bytes.as_slice()) else {
        tell(out, file.name, "not in UTF-8");
        return false;
    };
    report_on(alloc, out, file, text.trim_end(), cases)
}

/// The same of the file's text.
fn report_on<O: Sink, C: Cases>(
    alloc: Global,
    out: &mut Out<'_, O>,
    file: CaseFile,
    text: &str,
    cases: &C,
) -> bool {
    let mut count = 0u32;
    let mut differing = 0u32;
    for case in text.split(file.gap) {
        if !case.is_empty() && !case.starts_with('#') {
            count = count.saturating_add(1);
            if !cases.holds(alloc, out, case) {
                differing = differing.saturating_add(1);
            }
        }
    }
    match format!(in alloc; "{}: {count} cases, {differing} differ\n", file.name) {
        Ok(line) => out.add(line.as_bytes()),
        Err(_) => out.add(b"out of memory\n"),
    }
    differing == 0
}

/// Tells what is said of a case, below its first line.
pub fn tell<O: Sink>(out: &mut Out<'_, O>, case: &str, what: &str) {
    let (name, _) = case.split_once('\n').unwrap_or((case, ""));
    for piece in [name, "\n", what, "\n"] {
        out.add(piece.as_bytes());
    }
}
