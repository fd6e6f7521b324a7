//! Whole runs.
ghost use Rattle.std.specs.Prelude.{◌≡◌, ◌∷◌, true, false, IfOk, MatchOption};
ghost use Rattle.std.specs.List.{list_all};
ghost use Rattle.go_code.specs.Lines.{cell_fits};
ghost use Rattle.go_code.specs.Rows.{first_rows};
ghost use Rattle.go_code.specs.declared.image.Start.TheVariants.{Setup as Set_up, Function as Run};
ghost use Rattle.go_vm.specs.Ahead.{Advances};
ghost use Rattle.go_vm.specs.Answers.{ImageAnswers, AnswersFrom};
ghost use Rattle.go_vm.specs.Flows.{state_of, between, machine_rows, IsLeft};
ghost use Rattle.go_vm.specs.declared.run.RunError.TheVariants.{Memory};

use crate::ahead::obey_ahead;
use crate::decode::Coded;
use crate::flat::{Pace, run_flat};
use crate::frames::Frames;
use crate::machine::{Begun, Exit, Flow, World, begin_function, one_step};
use crate::program::Program;
use crate::row::read_ahead;
use go_cells::slot::Slot;
use go_code::cell::Cell;
use go_code::ending::Ending;
use go_code::image::{Image, Start};
use go_code::setup::Setup;
use go_decode::decode::signatures_of;
use std::alloc::{AllocError, Global};
use std::marker::Model;
use thiserror::Error;

/// How a program ended, with its output.
#[derive(Drop)]
pub struct Outcome {
    ending: Ending,
    output: Vec<u8>,
}

impl Model for Outcome {
    ghost use Rattle.go_vm.specs.Outcomes as outcomes;

    ghost Value = { outcomes.ProgramOutcome };

    ghost view = { λ a. record { ending = a.ending; output = a.output.items } };
}

impl Outcome {
    /// How the program ended.
    pub fn ending(&self) -> &Ending
        ensures { result.now ≡ self.now.ending }
    {
        &self.ending
    }

    /// What the program printed until it ended.
    pub fn output(&self) -> &[u8]
        ensures { result.now ≡ self.now.output }
    {
        self.output.as_slice()
    }
}

/// Why a run has no outcome.
#[derive(Debug, Drop, Error)]
pub enum RunError {
    /// Memory ran out.
    #[error("out of memory")]
    Memory,
    /// The image's code makes no sense: the program came to an instruction that the machine
    /// can't obey.
    #[error("the code makes no sense")]
    BadCode,
}

impl From<AllocError> for RunError {
    ghost from_gives = { λ _ e. e ≡ Memory };

    fn from(_e: AllocError) -> RunError {
        RunError::Memory
    }
}

/// Goes on by several instructions together, or by one.
#[inline(always)]
fn advance<'a>(
    alloc: Global,
    frames: &mut Frames<'a>,
    world: &mut World,
    image: &'a Program<'a>,
) -> Result<Flow, AllocError>
    ensures { IfOk result (λ flow. Advances image.now frames.old world.old flow frames.new world.new) }
{
    if obey_ahead(frames, &mut world.ticks, image)? {
        return Ok(Flow::GoesOn);
    }
    if read_ahead(frames, world)? {
        return Ok(Flow::GoesOn);
    }
    one_step(alloc, frames, world, image)
}

/// Goes on until the start step is left whose frames are open.
fn finish<'a>(
    alloc: Global,
    mut frames: Frames<'a>,
    world: &mut World,
    image: &'a Program<'a>,
) -> Result<Exit, AllocError>
    ensures { IfOk result (λ exit. IsLeft image.now (λ starts. state_of frames.entry starts world.old) exit world.new) }
{
    let mut pace = Pace::new(alloc);
    loop {
        run_flat(alloc, &mut frames, world, &mut pace, image)?;
        match advance(alloc, &mut frames, world, image)? {
            Flow::GoesOn => {}
            Flow::Leaves(exit) => return Ok(exit),
        }
    }
}

/// Runs a setup until it is left.
fn run_setup(
    alloc: Global,
    world: &mut World,
    image: &Program<'_>,
    setup: &Setup<usize>,
) -> Result<Exit, AllocError>
    ensures { IfOk result (λ exit. IsLeft image.now (λ starts. between (Set_up setup.now ∷ starts) world.old) exit world.new) }
{
    let code = Coded::new(alloc, &[], setup.code(), setup.cells())?;
    let frames = Frames::open(alloc, 0, &code, setup.cells())?;
    finish(alloc, frames, world, image)
}

/// Runs a function that no frame calls until it is left.
fn run_function(
    alloc: Global,
    world: &mut World,
    image: &Program<'_>,
    number: usize,
) -> Result<Exit, AllocError>
    ensures { IfOk result (λ exit. IsLeft image.now (λ starts. between (Run number ∷ starts) world.old) exit world.new) }
{
    match begin_function(alloc, world, image, number)? {
        Begun::Open(frames) => finish(alloc, frames, world, image),
        Begun::Leaves(exit) => Ok(exit),
    }
}

/// Runs a start step until it is left.
fn run_start(
    alloc: Global,
    world: &mut World,
    image: &Program<'_>,
    start: &Start,
) -> Result<Exit, AllocError>
    ensures { IfOk result (λ exit. IsLeft image.now (λ starts. between (start.now ∷ starts) world.old) exit world.new) }
{
    match start {
        Start::Setup(setup) => run_setup(alloc, world, image, setup),
        Start::Function(number) => run_function(alloc, world, image, *number),
    }
}

/// Slots of cells, if the machine knows each of the cells. An `Err` only where memory ran out.
fn slots_of(alloc: Global, cells: &[Cell]) -> Result<Option<Vec<Slot>>, AllocError>
    ensures { let fit = list_all cell_fits cells.now in
        IfOk result (λ made. MatchOption made (fit ≡ false) (λ slots. (fit ≡ true) × (slots.items ≡ cells.now))) }
{
    let mut slots = Vec::with_capacity(alloc, cells.len())?;
    for cell in cells {
        let Some(slot) = Slot::of_cell(cell)? else {
            return Ok(None);
        };
        slots.push(slot)?;
    }
    Ok(Some(slots))
}

/// The rows that there are from the start: that of the slice without a row, which has nothing. An
/// `Err` only where memory ran out.
fn opening_rows(alloc: Global) -> Result<Vec<Vec<Slot>>, AllocError>
    ensures { IfOk result (λ rows. machine_rows rows.items ≡ first_rows) }
{
    let mut rows = Vec::new(alloc);
    rows.push(Vec::new(alloc))?;
    Ok(rows)
}

/// Runs the start steps, one behind the other.
fn run_starts(
    alloc: Global,
    image: &Program<'_>,
    starts: &[Start],
    mut world: World,
) -> Result<Outcome, RunError>
    ensures { AnswersFrom image.now (between starts.now world) result }
{
    for start in starts {
        match run_start(alloc, &mut world, image, start)? {
            Exit::Returned => {}
            Exit::Ends(ending) => return Ok(outcome_of(ending, world)),
            Exit::BadCode => return Err(RunError::BadCode),
        }
    }
    Ok(outcome_of(Ending::Ended, world))
}

/// What an image does that is given so many ticks. It returns for every image. `BadCode` is
/// answered where the image comes to an instruction that makes no sense, `Memory` only where
/// memory ran out.
pub fn run(alloc: Global, image: &Image, ticks: u64) -> Result<Outcome, RunError>
    ensures { ImageAnswers image.now ticks result }
{
    let Some(globals) = slots_of(alloc, image.globals())? else {
        return Err(RunError::BadCode);
    };
    let world = World {
        globals,
        rows: opening_rows(alloc)?,
        ticks,
        output: Vec::new(alloc),
    };
    let signatures = signatures_of(alloc, image.functions())?;
    let program = Program::new(alloc, image, signatures.as_slice())?;
    run_starts(alloc, &program, image.starts(), world)
}

fn outcome_of(ending: Ending, world: World) -> Outcome
    ensures { result ≡ record { ending = ending; output = world.output.items } }
{
    let World {
        globals: _,
        rows: _,
        ticks: _,
        output,
    } = world;
    Outcome { ending, output }
}
