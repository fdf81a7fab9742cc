// What stands before a line: which kinds of line may follow, and in which ranges its numbers are.
ghost use Rattle.std.specs.Prelude.{◌≡◌, true, slice_set};
ghost use Rattle.xr_assembly.specs.Reading as spec;
ghost use Rattle.xr_assembly.specs.Reading.{has_byte_token, in_range};

use crate::lines::Line;
use xs_instr::Instr;

/// The kinds of lines.
#[derive(Clone, Copy)]
pub enum Kind {
    Begin,
    Core,
    Words,
    Timers,
    Ends,
    Port,
    Root,
    Code,
    Chan,
    Trace,
}

/// What the lines so far say of the next: the kind of the last one, the least number that a core may have, and of the core that is told
/// its ports, how many roots it has, and its next index.
#[derive(Clone, Copy)]
pub struct Here {
    pub kind: Option<Kind>,
    pub least: u32,
    pub ports: [bool; 29],
    pub roots: u32,
    pub index: u64,
}

/// Before the first line.
pub fn start() -> Here
    ensures { result ≡ spec.start }
{
    Here {
        kind: None,
        least: 0,
        ports: [false; 29],
        roots: 0,
        index: 0,
    }
}

/// Whether a kind of line may stand behind the last one, if there is one.
pub fn may_follow(last: Option<Kind>, next: Kind) -> bool
    ensures { result ≡ spec.may_follow last next }
{
    match last {
        None => matches!(next, Kind::Begin),
        Some(last) => may_follow_kind(last, next),
    }
}

fn may_follow_kind(last: Kind, next: Kind) -> bool
    ensures { result ≡ spec.may_follow_kind last next }
{
    match last {
        Kind::Begin => matches!(next, Kind::Core),
        Kind::Core => matches!(next, Kind::Words),
        Kind::Words => matches!(next, Kind::Timers),
        Kind::Timers => matches!(next, Kind::Ends),
        Kind::Ends | Kind::Port => matches!(next, Kind::Port | Kind::Root),
        Kind::Root => matches!(
            next,
            Kind::Root | Kind::Code | Kind::Core | Kind::Chan | Kind::Trace
        ),
        Kind::Code => matches!(next, Kind::Code | Kind::Core | Kind::Chan | Kind::Trace),
        Kind::Chan => matches!(next, Kind::Chan | Kind::Trace),
        Kind::Trace => false,
    }
}

/// Whether the text may end behind the last line, if there is one.
pub fn may_end(last: Option<Kind>) -> bool
    ensures { result ≡ spec.may_end last }
{
    matches!(
        last,
        Some(Kind::Root | Kind::Code | Kind::Chan | Kind::Trace)
    )
}

pub fn kind_of(line: Line) -> Kind
    ensures { result ≡ spec.line_kind line }
{
    match line {
        Line::Begin => Kind::Begin,
        Line::Core(_) => Kind::Core,
        Line::Words(_) => Kind::Words,
        Line::Timers(_) => Kind::Timers,
        Line::Ends(_) => Kind::Ends,
        Line::Port(_) => Kind::Port,
        Line::Root(_) => Kind::Root,
        Line::Code(_) => Kind::Code,
        Line::Chan(_) => Kind::Chan,
        Line::Trace => Kind::Trace,
    }
}

/// Whether the numbers of a line are in their ranges.
pub fn is_in_range(here: Here, line: Line) -> bool
    ensures { result ≡ in_range here line }
{
    match line {
        Line::Core(n) => n < 4 && here.least <= n,
        Line::Words(n) => n <= 16384,
        Line::Timers(n) => n <= 10,
        Line::Ends(n) => n <= 32,
        Line::Port(decl) => !has_port(here, decl.port),
        Line::Root(_) => here.roots < 8,
        Line::Code(code) => code.index as u64 == here.index && is_byte_token(code.instr),
        Line::Begin | Line::Chan(_) | Line::Trace => true,
    }
}

/// Whether the core has told this port.
fn has_port(here: Here, port: u8) -> bool
    ensures { result ≡ spec.has_port here.ports port }
{
    let at = port as usize;
    if at < here.ports.len() {
        here.ports[at]
    } else {
        false
    }
}

/// Whether the control token of an instruction, where it has one, is a byte.
fn is_byte_token(instr: Instr) -> bool
    ensures { result ≡ has_byte_token instr }
{
    match instr {
        Instr::Outct(_, n) | Instr::Chkct(_, n) => n <= 255,
        _ => true,
    }
}

/// What stands behind a line whose numbers are in their ranges.
pub fn behind_line(here: Here, line: Line) -> Here
    requires { in_range here line ≡ true }
    ensures { result ≡ spec.behind_line here line }
{
    let mut next = here;
    next.kind = Some(kind_of(line));
    match line {
        Line::Core(n) => {
            next.least = n + 1;
            next.ports = [false; 29];
            next.roots = 0;
            next.index = 0;
        }
        Line::Port(decl) => next.ports = with_port(here, decl.port),
        Line::Root(_) => next.roots = here.roots + 1,
        Line::Code(code) => next.index = code.index as u64 + 1,
        _ => {}
    }
    next
}

/// The ports that the core has told, with this one.
fn with_port(here: Here, port: u8) -> [bool; 29]
    ensures { result ≡ slice_set here.ports port true }
{
    let mut ports = here.ports;
    let at = port as usize;
    if at < ports.len() {
        ports[at] = true;
    }
    ports
}
