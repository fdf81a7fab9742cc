// What comes before a run: reading the files and compiling the text. What a command without a run answers is decided then.

ghost use Rattle.std.specs.Prelude.{◌≡◌, ◌≤◌, ℕ, List, Option, map, string_bytes, IfOk};
ghost use Rattle.xc_kernel.specs.Kernels.{kernel_of};
ghost use Rattle.xl_image.specs.Roots.{KernelIsBuilt};
ghost use Rattle.xs_instr.specs.Valid.{Valid};
ghost use Rattle.xr_driver.specs.declared.files.Inputs.{Inputs as ReadInputs};
ghost use Rattle.xr_driver.specs.Command.{Asm as MeansAsm, Run as MeansRun, Time as MeansTime};
ghost use Rattle.xr_driver.specs.Decision.{command_of, outcome_of, IsPrintable};
ghost use Rattle.xr_driver.specs.Next.{IsNext, IsNextOf, IsNextOn};
ghost use Rattle.xr_driver.specs.Outside.{loads};
ghost use Rattle.xr_driver.specs.Parts.{AreGoodInputs, IsAnswerOn, IsAnswerWith};
ghost use Rattle.xr_front.specs.Rules.{IsKernelOf};
ghost use Rattle.xr_driver.specs.Runs.{IsCompiled};

use crate::decide::{Decision, Line, Printed, printing, saying};
use crate::files::{Inputs, read_files};
use crate::words::{Command, meaning};
use std::alloc::Global;
use xc_disjoint::Checked;
use xf_time::{TimeErr, bounds};
use xr_simulation::compile;
use xs_instr::{Image, Stim};
use xw_io::Shelf;
use xw_words::Memory;

/// A run that is left: of an image under a stimulus, for so many ticks and by so many workers.
#[derive(Drop)]
pub struct Task {
    pub image: Image,
    pub stim: Stim,
    pub ticks: u32,
    pub workers: u32,
}

/// What comes next: what is decided, or a run that is left.
#[derive(Drop)]
pub enum Next<'w> {
    Done(Decision<'w>),
    Left(Task),
}

/// Loads and compiles, in this order.
pub fn prepare<'w, S: Shelf>(alloc: Global, words: &'w [String], shelf: &mut S) -> Next<'w>
    ensures next { IsNext (map string_bytes words.now)
        (loads S.files S.faults S.misses S.longs shelf.old shelf.new) result }
    ensures files { S.files shelf.new ≡ S.files shelf.old }
    ensures faults { S.faults shelf.old ≤ S.faults shelf.new }
{
    match meaning(words) {
        Some(command) => answer(alloc, command, shelf),
        None => Next::Done(saying(2, Line::Usage)),
    }
}

/// What comes of a command before a run: first its files are read.
fn answer<'w, S: Shelf>(alloc: Global, command: Command<'w>, shelf: &mut S) -> Next<'w>
    ensures next { IsNextOf (loads S.files S.faults S.misses S.longs shelf.old shelf.new)
        (command_of command.entry) result }
    ensures files { S.files shelf.new ≡ S.files shelf.old }
    ensures faults { S.faults shelf.old ≤ S.faults shelf.new }
{
    match read_files(alloc, command, shelf) {
        Ok((checked, inputs)) => carry_out(alloc, command, checked, inputs),
        Err(refused) => Next::Done(saying(refused.status, refused.line)),
    }
}

/// What comes of a command before a run, where its text is accepted and has this kernel, with its inputs.
fn carry_out<'w>(alloc: Global, command: Command<'w>, checked: Checked, inputs: Inputs) -> Next<'w>
    requires built { KernelIsBuilt (kernel_of checked) }
    requires good { AreGoodInputs inputs }
    ensures { IsNextOn (command_of command.entry) (kernel_of checked) inputs result }
{
    match command {
        Command::Check(_) => {
            drop(checked);
            Next::Done(printing(0, Printed::Accepted))
        }
        Command::Asm(_) => Next::Done(assemble(alloc, checked)),
        Command::Run { ticks, workers, .. } => compile_task(alloc, checked, inputs, ticks, workers),
        Command::Time { routes, .. } => {
            Next::Done(compile_and_time(alloc, checked, &inputs, routes))
        }
    }
}

/// The listing of a kernel's image.
fn assemble<'w>(alloc: Global, checked: Checked) -> Decision<'w>
    requires built { KernelIsBuilt (kernel_of checked) }
    ensures decided { (file : List ℕ) (inputs : ReadInputs) →
        IsAnswerOn (MeansAsm file) (kernel_of checked) inputs (outcome_of result) }
    ensures printable { IsPrintable result.printed }
{
    match compile_whole(alloc, checked) {
        Ok(image) => printing(0, Printed::Code(image)),
        Err(Memory) => saying(12, Line::NoMemory),
    }
}

/// The run that is left of a kernel's image, under the stimulus that was read, for so many ticks and by so many workers. The kernel is
/// dropped before the run.
fn compile_task<'w>(
    alloc: Global,
    checked: Checked,
    inputs: Inputs,
    ticks: u32,
    workers: u32,
) -> Next<'w>
    requires built { KernelIsBuilt (kernel_of checked) }
    requires good { AreGoodInputs inputs }
    ensures { (file : List ℕ) (name : Option (List ℕ)) →
        IsNextOn (MeansRun file ticks workers name) (kernel_of checked) inputs result }
{
    match compile_whole(alloc, checked) {
        Ok(image) => Next::Left(Task {
            image,
            stim: inputs.stim,
            ticks,
            workers,
        }),
        Err(Memory) => Next::Done(saying(12, Line::NoMemory)),
    }
}

/// The image of a kernel and the bounds of the routes, which the file of this name asks for.
fn compile_and_time<'w>(
    alloc: Global,
    checked: Checked,
    inputs: &Inputs,
    name: &'w str,
) -> Decision<'w>
    requires built { KernelIsBuilt (kernel_of checked) }
    requires good { AreGoodInputs inputs.now }
    ensures decided { (file : List ℕ) →
        IsAnswerOn (MeansTime file name.now) (kernel_of checked) inputs.now (outcome_of result) }
    ensures printable { IsPrintable result.printed }
{
    match compile_whole(alloc, checked) {
        Ok(image) => time_image(alloc, image, inputs, name),
        Err(Memory) => saying(12, Line::NoMemory),
    }
}

/// The image of a kernel, which is dropped then.
fn compile_whole(alloc: Global, checked: Checked) -> Result<Image, Memory>
    requires built { KernelIsBuilt (kernel_of checked) }
    ensures compiled { IfOk result (λ image. (text : List ℕ) →
        IsKernelOf text (kernel_of checked) → IsCompiled text image) }
    ensures valid { IfOk result (λ image. Valid image) }
{
    let image = compile(alloc, &checked);
    drop(checked);
    image
}

/// An image and the bounds of the routes, which the file of this name asks for.
fn time_image<'w>(alloc: Global, image: Image, inputs: &Inputs, name: &'w str) -> Decision<'w>
    requires valid { Valid image }
    requires good { AreGoodInputs inputs.now }
    ensures decided { (file : List ℕ) →
        IsAnswerWith (MeansTime file name.now) image inputs.now (outcome_of result) }
    ensures printable { IsPrintable result.printed }
{
    match bounds(alloc, &image, inputs.routes.as_slice()) {
        Ok(numbers) => printing(0, Printed::Bounds(image, numbers)),
        Err(TimeErr::Line { line, rule }) => Decision {
            status: 13,
            printed: Printed::Code(image),
            line: Line::BadLine(name, line, rule),
        },
        Err(TimeErr::Memory) => saying(12, Line::NoMemory),
    }
}
