//! Directories that are read at once.
ghost use Rattle.std.specs.Prelude.{◌≡◌, ◌↔◌, ℕ, List, IfOk, IsTrue, false, map};
ghost use Rattle.go_text.specs.Faults.{Fault as AFault};
ghost use Rattle.ws_register.specs.Sources.{pair_of};
ghost use Rattle.ws_graph.specs.Packages.{package_files};
ghost use Rattle.ws_graph.specs.Plan.{Faulty};
ghost use Rattle.ws_graph.specs.BuildPlan.{Sources};
ghost use Rattle.ws_graph.specs.Node.{planned_of};
ghost use Rattle.ws_graph.specs.Discovery.{IsFirstMain, IsFound, IsWaiting, AreWaiting, IsReadAs, AreRead};

use crate::planned::Node;
use crate::previous::{PreviousFiles, files_at};
use crate::waiting::Waiting;
use crate::{FILES_A_THREAD, FileError, is_named, judged, parsed_files};
use go_ast::parsed::Parsed;
use go_text::edition::Edition;
use go_text::source::Source;
use rayon::prelude::*;
use std::alloc::{AllocError, Global};
use std::thread::Threads;

/// What becomes of a directory's own files, and whether it is a program: whether its files all
/// parse, and the first one's package is named main.
#[derive(Drop)]
pub struct Found {
    pub node: Node,
    pub program: bool,
}

/// The directories of a wave, each with what becomes of its files, in their order.
pub fn read_all(
    rt: &(impl Threads + Sync),
    alloc: Global,
    edition: Edition,
    wave: Vec<Waiting>,
    known: &[PreviousFiles<'_>],
) -> Result<Vec<Result<(String, Found), AllocError>>, AllocError>
    ensures { (sources : Sources) → AreWaiting sources wave.items → IfOk result (λ read. AreRead edition sources wave.items read.items) }
{
    if is_any_known(wave.as_slice(), known) {
        return read_in_turn(rt, alloc, edition, wave, known);
    }
    read_at_once(rt, alloc, edition, wave)
}

// Whether an earlier plan has one of them.
fn is_any_known(wave: &[Waiting], known: &[PreviousFiles<'_>]) -> bool {
    for waiting in wave {
        if files_at(known, waiting.path.as_str()).is_some() {
            return true;
        }
    }
    false
}

// They are read one after another, where an earlier plan has some of them.
fn read_in_turn(
    rt: &(impl Threads + Sync),
    alloc: Global,
    edition: Edition,
    wave: Vec<Waiting>,
    known: &[PreviousFiles<'_>],
) -> Result<Vec<Result<(String, Found), AllocError>>, AllocError>
    ensures { (sources : Sources) → AreWaiting sources wave.items → IfOk result (λ read. AreRead edition sources wave.items read.items) }
{
    let mut all = Vec::new(alloc);
    for waiting in wave {
        let files = files_at(known, waiting.path.as_str());
        let found = read(rt, alloc, edition, waiting, files);
        all.push(found)?;
    }
    Ok(all)
}

// They are read by as many threads as there are processors, where they have files enough.
fn read_at_once(
    rt: &(impl Threads + Sync),
    alloc: Global,
    edition: Edition,
    wave: Vec<Waiting>,
) -> Result<Vec<Result<(String, Found), AllocError>>, AllocError>
    ensures { (sources : Sources) → AreWaiting sources wave.items → IfOk result (λ read. AreRead edition sources wave.items read.items) }
{
    let least = least_piece(wave.as_slice());
    wave.into_par_iter()
        .with_min_len(least)
        .map(
            |waiting: Waiting| -> Result<(String, Found), AllocError>
                ensures { (sources : Sources) → IsWaiting sources waiting → IfOk result (IsReadAs edition sources waiting) }
            { read(rt, alloc, edition, waiting, None) },
        )
        .collect(rt, alloc)
}

// How many directories are worth a thread, by the files that one has on average.
fn least_piece(wave: &[Waiting]) -> usize {
    let mut files: usize = 0;
    for waiting in wave {
        files = files.saturating_add(waiting.files.len());
    }
    wave.len().saturating_mul(FILES_A_THREAD) / files.max(1)
}

fn read(
    rt: &(impl Threads + Sync),
    alloc: Global,
    edition: Edition,
    waiting: Waiting,
    known: Option<&[Parsed]>,
) -> Result<(String, Found), AllocError>
    ensures { (sources : Sources) → IsWaiting sources waiting → IfOk result (IsReadAs edition sources waiting) }
{
    let Waiting { path, files } = waiting;
    let found = found_in(rt, alloc, edition, files, known)?;
    Ok((path, found))
}

fn found_in(
    rt: &(impl Threads + Sync),
    alloc: Global,
    edition: Edition,
    files: Vec<Source>,
    known: Option<&[Parsed]>,
) -> Result<Found, AllocError>
    ensures { (sources : Sources) (path : List ℕ) → map pair_of files.items ≡ package_files path sources → IfOk result (IsFound edition sources path) }
{
    match parsed_files(rt, alloc, edition, files, known) {
        Ok(parsed) => {
            let program = is_first_main(parsed.as_slice());
            // A directory that waits has a package.
            let Ok(node) = judged(alloc, parsed) else {
                return Err(AllocError);
            };
            Ok(Found { node, program })
        }
        Err(error) => {
            let found = stopped(error)?;
            Ok(found)
        }
    }
}

fn stopped(error: FileError) -> Result<Found, AllocError>
    ensures { IfOk result (λ found. (fault : AFault) × (error ≡ FileError.Stopped fault) × (planned_of found.node ≡ Faulty fault) × (found.program ≡ false)) }
{
    match error {
        FileError::Stopped(fault) => Ok(Found {
            node: Node::Faulty(fault),
            program: false,
        }),
        FileError::Memory => Err(AllocError),
    }
}

fn is_first_main(parsed: &[Parsed]) -> bool
    ensures { IsTrue result ↔ IsFirstMain parsed.now }
{
    let Some((first, _rest)) = parsed.split_first() else {
        return false;
    };
    is_named("main", first)
}
