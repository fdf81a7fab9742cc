// The files of a command: its text, and its stimulus or its routes.

ghost use Rattle.std.specs.Prelude.{◌≡◌, ◌≤◌, Some, IfOk};
ghost use Rattle.xc_kernel.specs.Kernels.{kernel_of};
ghost use Rattle.xl_image.specs.Roots.{KernelIsBuilt};
ghost use Rattle.xs_instr.specs.Valid.{IsGoodStim};
ghost use Rattle.xw_io.specs.Outside.{IsFileOf};
ghost use Rattle.xr_driver.specs.Decision.{command_of};
ghost use Rattle.xr_driver.specs.Outside.{loads};
ghost use Rattle.xr_driver.specs.Parts.{AreGoodInputs, AreInputs, AreRead};
ghost use Rattle.xr_driver.specs.Reads.{IsKernelIn, RefusesCommand, RefusesFile, RefusesInputs, RefusesStim, RefusesText};
ghost use Rattle.xr_driver.specs.Runs.{IsStimOf, no_stim};

use crate::decide::Line;
use crate::words::Command;
use std::alloc::Global;
use xc_disjoint::Checked;
use xc_tree::Refusal;
use xr_front::read_text;
use xr_stim::{StimErr, read_stim};
use xs_instr::Stim;
use xw_io::{LoadErr, Shelf};
use xw_words::List;

/// What is refused before anything is compiled: the status, and the line that tells why.
#[derive(Drop)]
pub struct Refused<'w> {
    pub status: u8,
    pub line: Line<'w>,
}

/// What a command reads beside its text. Where it names no file for the stimulus, that has no lines, and where it names none for the
/// routes, there are none.
#[derive(Drop)]
pub struct Inputs {
    pub stim: Stim,
    pub routes: List<u8>,
}

/// The kernel of a command's text, and its inputs, which are loaded once the text is accepted.
pub fn read_files<'w, S: Shelf>(
    alloc: Global,
    command: Command<'w>,
    shelf: &mut S,
) -> Result<(Checked, Inputs), Refused<'w>>
    ensures read { IfOk result
        (λ r. AreRead (S.files shelf.old) (command_of command.entry) (kernel_of r.0) r.1) }
    ensures built { IfOk result (λ r. KernelIsBuilt (kernel_of r.0)) }
    ensures good { IfOk result (λ r. AreGoodInputs r.1) }
    ensures refused { RefusesCommand (loads S.files S.faults S.misses S.longs shelf.old shelf.new)
        (command_of command.entry) result }
    ensures files { S.files shelf.new ≡ S.files shelf.old }
    ensures faults { S.faults shelf.old ≤ S.faults shelf.new }
{
    let checked = checked_of(alloc, command.file(), shelf)?;
    match inputs_of(alloc, command, shelf) {
        Ok(inputs) => Ok((checked, inputs)),
        Err(refused) => {
            drop(checked);
            Err(refused)
        }
    }
}

/// What a command reads beside its text, once that is accepted.
fn inputs_of<'w, S: Shelf>(
    alloc: Global,
    command: Command<'w>,
    shelf: &mut S,
) -> Result<Inputs, Refused<'w>>
    ensures read { IfOk result
        (λ inputs. AreInputs (S.files shelf.old) (command_of command.entry) inputs) }
    ensures good { IfOk result AreGoodInputs }
    ensures refused { RefusesInputs (loads S.files S.faults S.misses S.longs shelf.old shelf.new)
        (command_of command.entry) result }
    ensures files { S.files shelf.new ≡ S.files shelf.old }
    ensures faults { S.faults shelf.old ≤ S.faults shelf.new }
{
    if let Some(name) = command.stim() {
        let stim = stim_of(alloc, name, shelf)?;
        let routes = List::new(alloc);
        return Ok(Inputs { stim, routes });
    }
    let Some(name) = command.routes() else {
        let stim = without_lines(alloc);
        let routes = List::new(alloc);
        return Ok(Inputs { stim, routes });
    };
    let text = load(alloc, name, shelf)?;
    let stim = without_lines(alloc);
    let routes = List::from_vec(text);
    Ok(Inputs { stim, routes })
}

/// A stimulus without lines.
fn without_lines(alloc: Global) -> Stim
    ensures { result ≡ no_stim }
{
    let lines = List::new(alloc);
    Stim { lines }
}

/// The kernel of the text that a file has. The text is dropped then.
fn checked_of<'w, S: Shelf>(
    alloc: Global,
    name: &'w str,
    shelf: &mut S,
) -> Result<Checked, Refused<'w>>
    ensures read { IfOk result
        (λ checked. IsKernelIn (S.files shelf.old) name.now (kernel_of checked)) }
    ensures built { IfOk result (λ checked. KernelIsBuilt (kernel_of checked)) }
    ensures refused { RefusesText (loads S.files S.faults S.misses S.longs shelf.old shelf.new)
        name.now result }
    ensures files { S.files shelf.new ≡ S.files shelf.old }
    ensures faults { S.faults shelf.old ≤ S.faults shelf.new }
    ensures misses { S.misses shelf.old ≤ S.misses shelf.new }
    ensures longs { S.longs shelf.old ≤ S.longs shelf.new }
{
    let text = load(alloc, name, shelf)?;
    match read_text(alloc, text.as_slice()) {
        Ok(checked) => Ok(checked),
        Err(Refusal::Broken(broken)) => Err(refusing(1, Line::Broken(name, broken))),
        Err(Refusal::Memory) => Err(refusing(12, Line::NoMemory)),
    }
}

/// The stimulus that a file's text means. The text is dropped then.
fn stim_of<'w, S: Shelf>(alloc: Global, name: &'w str, shelf: &mut S) -> Result<Stim, Refused<'w>>
    ensures read { IfOk result (λ stim. IsStimOf (S.files shelf.old) (Some name.now) stim) }
    ensures good { IfOk result IsGoodStim }
    ensures refused { RefusesStim (loads S.files S.faults S.misses S.longs shelf.old shelf.new)
        name.now result }
    ensures files { S.files shelf.new ≡ S.files shelf.old }
    ensures faults { S.faults shelf.old ≤ S.faults shelf.new }
{
    let text = load(alloc, name, shelf)?;
    match read_stim(alloc, text.as_slice()) {
        Ok(stim) => Ok(stim),
        Err(StimErr::Line { line, rule }) => Err(refusing(10, Line::BadLine(name, line, rule))),
        Err(StimErr::Memory) => Err(refusing(12, Line::NoMemory)),
    }
}

/// The bytes of a file.
fn load<'w, S: Shelf>(alloc: Global, name: &'w str, shelf: &mut S) -> Result<Vec<u8>, Refused<'w>>
    ensures loaded { IfOk result (λ text. IsFileOf (S.files shelf.old) name.now text.items) }
    ensures refused { RefusesFile (loads S.files S.faults S.misses S.longs shelf.old shelf.new)
        name.now result }
    ensures files { S.files shelf.new ≡ S.files shelf.old }
    ensures faults { S.faults shelf.old ≤ S.faults shelf.new }
    ensures misses { S.misses shelf.old ≤ S.misses shelf.new }
    ensures longs { S.longs shelf.old ≤ S.longs shelf.new }
{
    match shelf.load(alloc, name) {
        Ok(text) => Ok(text),
        Err(LoadErr::Missing) => Err(refusing(6, Line::NoFile(name))),
        Err(LoadErr::TooLong) => Err(refusing(7, Line::TooLong(name))),
        Err(LoadErr::Failed) => Err(refusing(8, Line::ReadFault(name))),
        Err(LoadErr::Memory) => Err(refusing(12, Line::NoMemory)),
    }
}

/// A status with its line.
fn refusing(status: u8, line: Line<'_>) -> Refused<'_>
    ensures { result ≡ record { status = status; line = line.entry } }
{
    Refused { status, line }
}
