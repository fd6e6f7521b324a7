//! What comes of files: a replica writes them, builds the program in a directory, and runs it.
//! [Program execution](https://go.dev/ref/spec#Program_execution)
ghost use Rattle.std.specs.Prelude.{◌≡◌, ◌<◌, ℕ, true, false, List, [], length, Ok, IfOk, IfSome, IfNone};
ghost use Rattle.go_text.specs.declared.edition.Edition.{Edition as AnEdition};
ghost use Rattle.go_vm.specs.Outcomes.{ProgramOutcome as AnOutcome};
ghost use Rattle.ws_replica.specs.Holdings.{ReplicaStandsFor, AllStandFor};
ghost use Rattle.ws_run.specs.declared.answer.RunReport.TheVariants as answers;
ghost use Rattle.ws_run.specs.Files.{Files, writes_of, IsClearOf, RunsAs, HasFaults, HasNoPackageFiles, IsNoProgram};
ghost use Rattle.ws_run.specs.Steps.{all_good, IsLast, took_of, IsBuilt, HoldsProgram, IsProgramImage, HasImage, ImageEndsAs, IsReportOfRun};

use crate::answer::RunReport;
use go_code::image::Image;
use go_text::edition::Edition;
use go_text::text::Text;
use go_vm::run::{Outcome, RunError, run};
use std::alloc::{AllocError, Global};
use std::sync::Wait;
use std::thread::Threads;
use ws_path::FilePath;
use ws_replica::law::law_held_program_means_its_sources;
use ws_replica::{BuildError, Plain, Replica, Target, build, image, law_one_build};
use ws_report::{Report, Verdict};
use ws_version::{Held, Version, Write};

/// The version of each write: that of the first edit of a replica 1.
const FIRST: Version = Version {
    counter: 1,
    number: 1,
};

/// A replica that wrote files.
fn written(alloc: Global, files: Vec<(FilePath, Text)>) -> Result<Replica, AllocError>
    ensures { IfOk result (λ replica. ReplicaStandsFor replica (writes_of files.items) []) }
{
    let mut replica = Replica::new(alloc);
    for (path, text) in files {
        replica.apply(Write::new(path, Held::new(FIRST, Some(text))))?;
    }
    Ok(replica)
}

/// Whether all directories of a report are good.
fn is_good(report: &Report) -> bool
    ensures { result ≡ all_good report.now }
{
    for (_, verdict) in &report.directories {
        match verdict {
            Verdict::Good => {}
            Verdict::Blocked | Verdict::Faulty(_) => return false,
        }
    }
    true
}

/// The last of reports, where not all its directories are good.
fn faulty(mut reports: Vec<Report>) -> Option<Report>
    ensures some { IfSome result (λ report. IsLast reports.items report × (all_good report ≡ false)) }
    ensures none { IfNone result ((report : Report) → IsLast reports.items report → all_good report ≡ true) }
{
    let report = reports.pop()?;
    if is_good(&report) {
        return None;
    }
    Some(report)
}

/// What is said of a directory that the first replica builds. None: no file of the directory
/// belongs to a package.
fn built<R: Threads + Wait + Sync>(
    rt: &R,
    alloc: Global,
    edition: Edition,
    replicas: &mut [Replica],
    directory: &str,
    workers: u64,
) -> Result<Option<Vec<Report>>, AllocError>
    requires some { 0 < workers }
    requires one { 0 < length replicas.old }
    ensures built { (files : Files) → AllStandFor replicas.old (took_of files) → IfOk result (λ reports. IsBuilt edition files directory.now reports replicas.new) }
    ensures stay { length replicas.new ≡ length replicas.old }
{
    let target = Target {
        replica: 0,
        directory,
    };
    match build(rt, alloc, replicas, &[target], edition, workers, &Plain) {
        Ok(reports) => Ok(Some(reports)),
        Err(BuildError::NoPackage) => Ok(None),
        Err(BuildError::Memory) => Err(AllocError),
    }
}

/// The image of the program that a replica built in a directory.
fn image_of<R: Threads + Sync>(
    rt: &R,
    alloc: Global,
    edition: Edition,
    replica: &Replica,
    directory: &str,
) -> Result<Option<Image>, AllocError>
    ensures { (files : Files) → HoldsProgram edition files directory.now replica.now → IfOk result (λ image. HasImage edition files directory.now image) }
{
    replica.see_files();
    law_one_build();
    match image(rt, alloc, replica, directory, edition) {
        Ok(image) => Ok(image),
        // Nothing is built of a directory without files.
        Err(BuildError::NoPackage) => Ok(None),
        Err(BuildError::Memory) => Err(AllocError),
    }
}

/// What the image of a program does.
fn ran(alloc: Global, image: &Image, ticks: u64) -> Result<Option<Outcome>, AllocError>
    ensures { (edition : AnEdition) (files : Files) (directory : List ℕ) → IsProgramImage edition files directory image.now → IfOk result (λ outcome. ImageEndsAs edition files directory ticks outcome) }
{
    law_held_program_means_its_sources();
    match run(alloc, image, ticks) {
        Ok(outcome) => Ok(Some(outcome)),
        // A program's code makes sense, but where texts clash it is no program's.
        Err(RunError::BadCode) => Ok(None),
        Err(RunError::Memory) => Err(AllocError),
    }
}

/// What the program does that a replica built in a directory.
fn ran_in<R: Threads + Sync>(
    rt: &R,
    alloc: Global,
    edition: Edition,
    replica: &Replica,
    directory: &str,
    ticks: u64,
) -> Result<Option<Outcome>, AllocError>
    ensures { (files : Files) → HoldsProgram edition files directory.now replica.now → IfOk result (λ outcome. ImageEndsAs edition files directory.now ticks outcome) }
{
    match image_of(rt, alloc, edition, replica, directory)? {
        Some(image) => ran(alloc, &image, ticks),
        None => Ok(None),
    }
}

/// What comes of files.
fn answer_of<R: Threads + Wait + Sync>(
    rt: &R,
    alloc: Global,
    edition: Edition,
    files: Vec<(FilePath, Text)>,
    directory: &str,
    ticks: u64,
    workers: u64,
) -> Result<RunReport, AllocError>
    requires { 0 < workers }
    ensures { IfOk result (λ answer. IsReportOfRun edition files.items directory.now ticks answer) }
{
    let replica = written(alloc, files)?;
    let mut replicas = Vec::from_array(alloc, [replica])?;
    let Some(reports) = built(
        rt,
        alloc,
        edition,
        replicas.as_mut_slice(),
        directory,
        workers,
    )?
    else {
        return Ok(RunReport::NoPackage);
    };
    if let Some(report) = faulty(reports) {
        return Ok(RunReport::Faulty(report));
    }
    match ran_in(rt, alloc, edition, &replicas[0], directory, ticks)? {
        Some(outcome) => Ok(RunReport::Ran(outcome)),
        None => Ok(RunReport::NoMain),
    }
}

/// What comes of files of an edition, by their paths in a workspace, of which the program in a directory is built
/// by so many workers and given so many ticks. The premise of all answers but `NoPackage`: no two
/// texts that are hashed of the files clash. Of two files with one path the greater text counts.
///
/// - `Ran`: it ended and printed as the sources mean.
/// - `Faulty`: not all directories that it reaches are good: the report of a build says of each.
/// - `NoPackage`: no file of the directory belongs to a package.
/// - `NoMain`: all are good, but the directory's package isn't named main.
///
/// An `Err` only where memory ran out.
pub fn run_files<R: Threads + Wait + Sync>(
    rt: &R,
    alloc: Global,
    edition: Edition,
    files: Vec<(FilePath, Text)>,
    directory: &str,
    ticks: u64,
    workers: u64,
) -> Result<RunReport, AllocError>
    requires { 0 < workers }
    ensures means { (o : AnOutcome) → result ≡ Ok (answers.Ran o) → IsClearOf edition files.items directory.now → RunsAs edition files.items directory.now ticks o }
    ensures faulty { (report : Report) → result ≡ Ok (answers.Faulty report) → IsClearOf edition files.items directory.now → HasFaults edition files.items directory.now report }
    ensures no_package { result ≡ Ok answers.NoPackage → HasNoPackageFiles edition files.items directory.now }
    ensures no_main { result ≡ Ok answers.NoMain → IsClearOf edition files.items directory.now → IsNoProgram edition files.items directory.now }
{
    answer_of(rt, alloc, edition, files, directory, ticks, workers)
}
