// The reader of a text of routes.
ghost use Rattle.std.specs.Prelude.{◌≡◌, ◌+◌, ◌<◌, ◌^◌, ◌++◌, None, Some, length, IfErr, IfOk, OnOk};
ghost use Rattle.std.specs.Str.Lines.{lines};
ghost use Rattle.xf_time.specs.Bounds.{broken_rule, first_broken, routes_of};
ghost use Rattle.xf_time.specs.Errors.{IfLine};

use crate::form::{Form, Route, form_of};
use std::alloc::Global;
use thiserror::Error;
use xr_stim::first_line;
use xw_words::{List, Memory};

/// Why there are no bounds.
#[derive(Debug, Drop, Error)]
pub enum TimeErr {
    /// A line breaks a rule. Lines are counted from 1.
    #[error("{line}: rule {rule} is broken")]
    Line { line: u32, rule: u16 },
    /// Memory could not be had.
    #[error("out of memory")]
    Memory,
}

impl From<Memory> for TimeErr {
    ghost use Rattle.std.specs.Prelude.{◌≡◌};
    ghost use Rattle.xf_time.specs.declared.reader.TimeErr.TheVariants as err;

    ghost from_gives = { λ _ e. e ≡ err.Memory };

    fn from(_: Memory) -> TimeErr {
        TimeErr::Memory
    }
}

/// A route, and the number of its line.
#[derive(Clone, Copy)]
pub struct RouteLine {
    pub line: u32,
    pub route: Route,
}

/// The routes that a text asks for, or the first line that breaks a rule by its form.
pub fn read_routes(alloc: Global, text: &[u8]) -> Result<List<RouteLine>, TimeErr>
    requires { length text.now < 2 ^ 32 }
    ensures routes { IfOk result (λ routes. routes ≡ routes_of text.now) }
    ensures formed { OnOk result (first_broken 0 1 (lines text.now) ≡ None) }
    ensures broken { IfErr result
        (λ e. IfLine e (λ line rule. first_broken 0 1 (lines text.now) ≡ Some (line, rule))) }
{
    let mut routes = List::new(alloc);
    let mut rest = text;
    let mut number = 0;
    'lines: while let Some((line, behind)) = first_line(rest) {
        number += 1;
        let form = form_of(line);
        if let Some(rule) = rule_of(form, routes.len()) {
            return Err(TimeErr::Line { line: number, rule });
        }
        if let Form::IsRoute(route) = form {
            routes.push(RouteLine {
                line: number,
                route,
            })?;
        }
        rest = behind;
    }
    Ok(routes)
}

/// The least rule that a line breaks by its form, with so many routes before it.
fn rule_of(form: Form, routes: usize) -> Option<u16>
    ensures { result ≡ broken_rule routes form }
{
    match form {
        Form::Skipped => None,
        Form::Other => Some(1001),
        Form::IsRoute(route) => {
            if route.core > 3 || route.backward > 1000 {
                Some(1002)
            } else if routes == 16 {
                Some(1005)
            } else {
                None
            }
        }
    }
}
