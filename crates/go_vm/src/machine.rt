//! The machine: what one instruction does, and how a start step begins.
ghost use Rattle.std.specs.Prelude.{IfOk, Some};
ghost use Rattle.go_code.specs.declared.image.Start.TheVariants.{Function as Run};
ghost use Rattle.go_code.specs.declared.instr.CallInstr.TheVariants.{Call, Return};
ghost use Rattle.go_code.specs.declared.instr.OutputInstr.TheVariants.{Print, Panic};
ghost use Rattle.go_code.specs.Machine.{act, call_step, output_step, step};
ghost use Rattle.go_vm.specs.Flows.{Does, Opens};

use crate::frames::Frames;
use crate::inside::{obey_frame, obey_global, obey_jump, obey_local, obey_operator, obey_part};
use crate::line::push_line;
use crate::on_rows::obey_row;
use crate::program::Program;
use go_cells::slot::Slot;
use go_code::ending::{Ending, PanicKind};
use go_code::instr::{CallInstr, Instr, OutputInstr};
use std::alloc::{AllocError, Global};

/// What outlives frames: the cells of the package variables, the rows that slices are parts of, the ticks left, and the output
/// so far.
#[derive(Drop)]
pub(crate) struct World {
    pub(crate) globals: Vec<Slot>,
    pub(crate) rows: Vec<Vec<Slot>>,
    pub(crate) ticks: u64,
    pub(crate) output: Vec<u8>,
}

/// Why a start step doesn't go on.
#[derive(Drop)]
pub(crate) enum Exit {
    /// It has returned.
    Returned,
    /// The program ends.
    Ends(Ending),
    /// The code makes no sense.
    BadCode,
}

/// What comes behind an instruction.
#[derive(Drop)]
pub(crate) enum Flow {
    /// The next instruction of the newest frame.
    GoesOn,
    /// No instruction of this start step.
    Leaves(Exit),
}

/// What the beginning of a start step comes to.
#[derive(Drop)]
pub(crate) enum Begun<'a> {
    /// Its first frame is open.
    Open(Frames<'a>),
    /// It doesn't begin.
    Leaves(Exit),
}

fn print_top(frames: &mut Frames<'_>, world: &mut World, count: usize) -> Result<Flow, AllocError>
    ensures { IfOk result (λ flow. Does (output_step (Print count)) frames.old world.old flow frames.new world.new) }
{
    let Some(row) = frames.top(count) else {
        return Ok(Flow::Leaves(Exit::BadCode));
    };
    push_line(&mut world.output, row)?;
    frames.drop_top(count);
    Ok(Flow::GoesOn)
}

#[inline(always)]
fn call_function<'a>(
    frames: &mut Frames<'a>,
    world: &mut World,
    image: &'a Program<'a>,
    number: usize,
) -> Result<Flow, AllocError>
    ensures { IfOk result (λ flow. Does (call_step image.now (Call number)) frames.old world.old flow frames.new world.new) }
{
    let Some(function) = image.function(number) else {
        return Ok(Flow::Leaves(Exit::BadCode));
    };
    if function.parameters() > function.cells() || function.parameters() > frames.height() {
        return Ok(Flow::Leaves(Exit::BadCode));
    }
    if world.ticks == 0 {
        return Ok(Flow::Leaves(Exit::Ends(Ending::Cut)));
    }
    if frames.depth() >= image.most_open() {
        return Ok(Flow::Leaves(Exit::Ends(Ending::Panicked(PanicKind::Depth))));
    }
    frames.call(function, frames.place())?;
    world.ticks -= 1;
    Ok(Flow::GoesOn)
}

#[inline(always)]
fn return_top(frames: &mut Frames<'_>, world: &World, image: &Program<'_>, count: usize) -> Flow
    ensures { Does (call_step image.now (Return count)) frames.old world.now result frames.new world.now }
{
    if count > frames.height() {
        return Flow::Leaves(Exit::BadCode);
    }
    if frames.give_back(count) {
        Flow::GoesOn
    } else {
        Flow::Leaves(Exit::Returned)
    }
}

fn panic_with(frames: &Frames<'_>, world: &World) -> Result<Flow, AllocError>
    ensures { IfOk result (λ flow. Does (output_step Panic) frames.now world.now flow frames.now world.now) }
{
    let Some([cell]) = frames.top(1) else {
        return Ok(Flow::Leaves(Exit::BadCode));
    };
    match cell.as_text() {
        Some(text) => Ok(Flow::Leaves(Exit::Ends(Ending::Panicked(PanicKind::User(text.copy()?))))),
        None => Ok(Flow::Leaves(Exit::BadCode)),
    }
}

/// What an instruction about the output does.
#[inline(always)]
fn obey_output(
    frames: &mut Frames<'_>,
    world: &mut World,
    instr: &OutputInstr,
) -> Result<Flow, AllocError>
    ensures { IfOk result (λ flow. Does (output_step instr.now) frames.old world.old flow frames.new world.new) }
{
    match instr {
        OutputInstr::Print(count) => print_top(frames, world, *count),
        OutputInstr::Panic => panic_with(frames, world),
    }
}

/// What a call does, or the way back from it.
#[inline(always)]
fn obey_call<'a>(
    frames: &mut Frames<'a>,
    world: &mut World,
    image: &'a Program<'a>,
    instr: &CallInstr<usize>,
) -> Result<Flow, AllocError>
    ensures { IfOk result (λ flow. Does (call_step image.now instr.now) frames.old world.old flow frames.new world.new) }
{
    match instr {
        CallInstr::Call(number) => call_function(frames, world, image, *number),
        CallInstr::Return(count) => Ok(return_top(frames, world, image, *count)),
    }
}

/// What an instruction of the newest frame does, which is past it already.
#[inline(always)]
fn perform<'a>(
    alloc: Global,
    frames: &mut Frames<'a>,
    world: &mut World,
    image: &'a Program<'a>,
    instr: &Instr<usize>,
) -> Result<Flow, AllocError>
    ensures { IfOk result (λ flow. Does (λ s f callers. act image.now s f callers (Some instr.now)) frames.old world.old flow frames.new world.new) }
{
    match instr {
        Instr::Frame(instr) => obey_frame(frames, world, instr),
        Instr::Local(instr) => obey_local(frames, world, instr),
        Instr::Global(instr) => obey_global(frames, world, instr),
        Instr::Part(instr) => obey_part(frames, world, *instr),
        Instr::Row(instr) => obey_row(alloc, frames, world, *instr),
        Instr::Operate(operator) => obey_operator(alloc, frames, world, *operator),
        Instr::Jump(instr) => Ok(obey_jump(frames, world, *instr)),
        Instr::Output(instr) => obey_output(frames, world, instr),
        Instr::Calls(instr) => obey_call(frames, world, image, instr),
    }
}

/// One step of a start step. An `Err` only where memory ran out.
#[inline(always)]
pub(crate) fn one_step<'a>(
    alloc: Global,
    frames: &mut Frames<'a>,
    world: &mut World,
    image: &'a Program<'a>,
) -> Result<Flow, AllocError>
    ensures { IfOk result (λ flow. Does (λ s newest callers. step image.now s) frames.old world.old flow frames.new world.new) }
{
    let Some(instr) = frames.fetch() else {
        return Ok(Flow::Leaves(Exit::BadCode));
    };
    perform(alloc, frames, world, image, instr)
}

/// A function is called by no frame.
pub(crate) fn begin_function<'a>(
    alloc: Global,
    world: &mut World,
    image: &'a Program<'a>,
    number: usize,
) -> Result<Begun<'a>, AllocError>
    ensures { IfOk result (λ begun. Opens image.now (Run number) world.old begun world.new) }
{
    let Some(function) = image.function(number) else {
        return Ok(Begun::Leaves(Exit::BadCode));
    };
    if function.parameters() > 0 {
        return Ok(Begun::Leaves(Exit::BadCode));
    }
    if world.ticks == 0 {
        return Ok(Begun::Leaves(Exit::Ends(Ending::Cut)));
    }
    let frames = Frames::open(alloc, 1, function.code(), function.cells())?;
    world.ticks -= 1;
    Ok(Begun::Open(frames))
}
