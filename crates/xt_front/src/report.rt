//! What is told of the cases.

use crate::cases::{Case, Trouble, cases_of};
use crate::phases::Phase;
use crate::shown::Page;
use std::alloc::{AllocError, Global};

/// What is told of a file.
#[derive(Drop)]
pub struct Report {
    /// Each case that differs, and then how many cases there are and how many of them differ; or what is wrong with the file.
    pub text: String,
    /// Whether of each case comes what is wanted.
    pub all_hold: bool,
}

/// Reports on the cases of a phase's file.
pub fn report_of(alloc: Global, phase: Phase, file: &[u8]) -> Result<Report, AllocError> {
    let mut page = Page::new(alloc);
    let all_hold = match cases_of(alloc, file) {
        Ok(cases) => put_report(&mut page, alloc, phase, cases.as_slice()),
        Err(trouble) => put_trouble(&mut page, phase, trouble),
    };
    let text = page.text()?;
    Ok(Report { text, all_hold })
}

/// What is told of tables of cases, each of which is written like a file, one behind the other.
pub fn told_of(alloc: Global, tables: &[(Phase, &str)]) -> Result<String, AllocError> {
    let mut told = String::new(alloc);
    for (phase, table) in tables {
        let report = report_of(alloc, *phase, table.as_bytes())?;
        told.push_str(report.text.as_str())?;
    }
    Ok(told)
}

/// Puts a report on the cases. Whether all hold.
fn put_report(page: &mut Page, alloc: Global, phase: Phase, cases: &[Case]) -> bool {
    let mut differing = 0usize;
    for case in cases {
        if !holds(page, alloc, phase, case) {
            differing = differing.saturating_add(1);
        }
    }
    page.put(phase.file());
    page.put(": ");
    page.show(&cases.len());
    page.put(" cases, ");
    page.show(&differing);
    page.put(" differ\n");
    differing == 0
}

/// Whether of a case comes what is wanted. What comes else is put.
fn holds(page: &mut Page, alloc: Global, phase: Phase, case: &Case) -> bool {
    match phase.answer(alloc, case.text.as_slice()) {
        Ok(came) => {
            let is_met = case.is_met_by(came.as_bytes());
            if !is_met {
                put_difference(page, phase, case, came.as_str());
            }
            is_met
        }
        Err(_) => {
            put_difference(page, phase, case, "out of memory");
            false
        }
    }
}

/// Puts a case of which something else came: its name, what is wanted and what came.
fn put_difference(page: &mut Page, phase: Phase, case: &Case, came: &str) {
    page.put(phase.file());
    page.put(": ");
    page.put(case.name.as_str());
    page.put("\nwanted: ");
    page.bytes(case.wanted.as_slice());
    page.put("\ncame: ");
    page.put(came);
    page.put("\n");
}

fn put_trouble(page: &mut Page, phase: Phase, trouble: Trouble) -> bool {
    page.put(phase.file());
    page.put(": ");
    page.show(&trouble);
    page.put("\n");
    false
}
