//! Builds of several targets.
ghost use Rattle.std.specs.Prelude.{◌≡◌, ◌<◌, ◌+◌, ◌++◌, List, length, map, IfOk, OnOk, OnErr, Err, All};
ghost use Rattle.ws_replica.specs.Holdings.{Took, AllStandFor};
ghost use Rattle.ws_replica.specs.Jobs.{place_seen, reached_of, all_reached_of, all_places_of, job_after, jobs_after};
ghost use Rattle.ws_replica.specs.Parts.{target_part, AllPartsWithin, IsRunOf};
ghost use Rattle.ws_replica.specs.Builds.{target_of, AreBuilt, AreBuiltOver, LacksPackage, AllTookSized};

use crate::actions::{actions_of_plans, remember_all};
use crate::parts::{Part, all_parts};
use crate::reached::{Place, Reached};
use crate::reporting::{number_after, part_reports, reports};
use crate::starts::{all_planned, give_results, numbers_of, opening_of};
use crate::{BuildError, Replica};
use go_text::edition::Edition;
use std::alloc::{AllocError, Global};
use std::sync::{Arc, Wait};
use std::thread::Threads;
use ws_action::Action;
use ws_board::Job;
use ws_cache::Cache;
use ws_pool::{Gate, build_jobs};
use ws_report::Report;

/// What is to be built: a directory, by the sources of the replica of a number.
#[derive(Clone, Copy, Debug)]
pub struct Target<'a> {
    /// The replica's number in the list of replicas.
    pub replica: usize,
    /// The directory's path.
    pub directory: &'a str,
}

/// The numbers of imports after that many jobs of other plans.
fn numbers_after(alloc: Global, before: usize, imports: &[usize]) -> Result<Vec<usize>, AllocError>
    ensures { IfOk result (λ numbers. numbers.items ≡ map (λ k. before + k) imports.now) }
{
    let mut numbers = Vec::new(alloc);
    for import in imports {
        let number = number_after(before, *import)?;
        numbers.push(number)?;
    }
    Ok(numbers)
}

/// Adds the jobs of a plan to those of the plans before it: the places of its directories.
pub(crate) fn add_jobs(
    alloc: Global,
    reached: Vec<Reached>,
    jobs: &mut Vec<Job>,
) -> Result<Vec<Place>, AllocError>
    ensures places { IfOk result (λ places. map place_seen places.items ≡ map (λ r. r.place) (map reached_of reached.items)) }
    ensures jobs { OnOk result (jobs.new.items ≡ jobs.old.items ++ map (job_after (length jobs.old.items)) (map reached_of reached.items)) }
{
    let before = jobs.len();
    let mut places = Vec::new(alloc);
    for one in reached {
        let Reached {
            place,
            work,
            imports,
        } = one;
        places.push(place)?;
        let imports = numbers_after(alloc, before, &imports)?;
        let job = Job::new(work, imports);
        jobs.push(job)?;
    }
    Ok(places)
}

/// The places of each plan's directories, and the jobs of all plans in one list.
fn parted(alloc: Global, all: Vec<Vec<Reached>>) -> Result<(Vec<Vec<Place>>, Vec<Job>), AllocError>
    ensures places { IfOk result (λ parts. all_places_of parts.0.items ≡ map (λ reached. map (λ r. r.place) reached) (all_reached_of all.items)) }
    ensures jobs { IfOk result (λ parts. parts.1.items ≡ jobs_after 0 (all_reached_of all.items)) }
{
    let mut places = Vec::new(alloc);
    let mut jobs = Vec::new(alloc);
    for reached in all {
        let its = add_jobs(alloc, reached, &mut jobs)?;
        places.push(its)?;
    }
    Ok((places, jobs))
}

/// Compiles what the opening lacks of all that was reached: the reports of the parts, and the new
/// entries; and the actions of each plan.
pub(crate) fn run<R: Threads + Wait + Sync, G: Gate>(
    rt: &R,
    alloc: Global,
    all: Vec<Vec<Reached>>,
    parts: &[Part],
    opening: Cache,
    workers: u64,
    gate: &G,
    acted: &mut Vec<Arc<Vec<Arc<Action>>>>,
) -> Result<(Vec<Report>, Cache), AllocError>
    requires some { 0 < workers }
    requires within { AllPartsWithin (length all.items) parts.now }
    ensures { IfOk result (λ run. IsRunOf opening (all_reached_of all.items) (map target_part parts.now) run.0.items run.1) }
{
    let (places, jobs) = parted(alloc, all)?;
    let built = build_jobs(rt, alloc, jobs, opening, workers, gate)?;
    *acted = actions_of_plans(alloc, &built, places.as_slice())?;
    let told = reports(alloc, &built, places)?;
    let reports = part_reports(alloc, told.as_slice(), parts)?;
    Ok((reports, built.into_added()))
}

/// Builds targets, all of them on one board that is opened over the join of the caches of the
/// replicas that they name, where what several reach from one replica has one job: a report for
/// each, of all directories that it reaches, with how many were compiled for all of them. The
/// reports depend on the replicas' sources alone. Each replica that is named then holds what all of
/// these held and what was compiled; the others stay.
///
/// `NoPackage` comes where a target's directory has no files that belong to a build, and `Memory`
/// where an allocation was refused, a worker's too. An `Err` changes nothing.
pub fn build<R: Threads + Wait + Sync, G: Gate>(
    rt: &R,
    alloc: Global,
    replicas: &mut [Replica],
    targets: &[Target<'_>],
    edition: Edition,
    workers: u64,
    gate: &G,
) -> Result<Vec<Report>, BuildError>
    requires within { All (λ t. t.replica < length replicas.old) targets.now }
    requires some { 0 < workers }
    ensures ok { IfOk result (λ reports. (took : List Took) → AllStandFor replicas.old took → AllTookSized took
        → AreBuilt edition took (map target_of targets.now) reports.items replicas.new) }
    ensures registers { map (λ r. r.registers) replicas.new ≡ map (λ r. r.registers) replicas.old }
    ensures none { result ≡ Err BuildError.NoPackage → (took : List Took) → AllStandFor replicas.old took
        → LacksPackage edition took (map target_of targets.now) }
    ensures err { OnErr result (replicas.new ≡ replicas.old) }
{
    let holders = numbers_of(alloc, targets)?;
    build_over(
        rt, alloc, replicas, targets, &holders, edition, workers, gate,
    )
}

/// Builds targets as `build` does, on a board that is opened over the join of the caches of some
/// replicas alone, by their numbers, where these hold together all that those of the targets hold.
pub fn build_over<R: Threads + Wait + Sync, G: Gate>(
    rt: &R,
    alloc: Global,
    replicas: &mut [Replica],
    targets: &[Target<'_>],
    holders: &[usize],
    edition: Edition,
    workers: u64,
    gate: &G,
) -> Result<Vec<Report>, BuildError>
    requires within { All (λ t. t.replica < length replicas.old) targets.now }
    requires holding { All (λ k. k < length replicas.old) holders.now }
    requires some { 0 < workers }
    ensures ok { IfOk result (λ reports.
        AreBuiltOver edition holders.now (map target_of targets.now) replicas.old reports.items replicas.new) }
    ensures registers { map (λ r. r.registers) replicas.new ≡ map (λ r. r.registers) replicas.old }
    ensures none { result ≡ Err BuildError.NoPackage → (took : List Took) → AllStandFor replicas.old took
        → LacksPackage edition took (map target_of targets.now) }
    ensures err { OnErr result (replicas.new ≡ replicas.old) }
{
    let all = all_planned(rt, alloc, replicas, targets, edition)?;
    let parts = all_parts(alloc, all.as_slice(), targets)?;
    let opening = opening_of(alloc, replicas, holders)?;
    let mut acted = Vec::new(alloc);
    let (reports, added) = run(
        rt,
        alloc,
        all,
        parts.as_slice(),
        opening,
        workers,
        gate,
        &mut acted,
    )?;
    remember_all(replicas, acted.as_slice())?;
    give_results(alloc, replicas, targets, holders, &added)?;
    Ok(reports)
}
