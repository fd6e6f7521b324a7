//! Plans that replicas keep while their writes stay.
ghost use Rattle.std.specs.Prelude.{◌≡◌, ◌∷◌, [], List, IfOk, IfSome, Err, Some, map};
ghost use Rattle.std.specs.Bool.{OnTrue};
ghost use Rattle.ws_version.specs.Writes.{Write as AWrite, held_cmp};
ghost use Rattle.ws_map.specs.Kept.{StandsFor};
ghost use Rattle.ws_graph.specs.BuildPlan.{SomeHasNoFiles};
ghost use Rattle.ws_graph.specs.Discovery.{string_texts};
ghost use Rattle.ws_replica.specs.Jobs.{reached_of};
ghost use Rattle.ws_replica.specs.Plans.{IsKeptPlan, KeepsPlan};
ghost use Rattle.ws_replica.specs.Targets.{IsReachedBy};

use crate::previous::{PreviousBuild, build_of_plan, known_of};
use crate::reached::{Reached, Shared, all_reached, all_shared};
use crate::{BuildError, Replica};
use go_text::edition::Edition;
use std::alloc::{AllocError, Global};
use std::thread::Threads;
use ws_graph::planning::plan_all;
use ws_register::Registers;

/// What some directories reach in an edition, by the writes of one replica.
#[derive(Drop)]
pub(crate) struct Plan {
    pub(crate) edition: Edition,
    pub(crate) targets: Vec<String>,
    pub(crate) directories: Vec<Shared>,
}

impl Plan {
    fn is_in(&self, edition: Edition) -> bool
        ensures { OnTrue result (self.now.edition ≡ edition) }
    {
        self.edition == edition
    }

    fn has(&self, targets: &[String]) -> bool
        ensures { OnTrue result (string_texts self.now.targets.items ≡ string_texts targets.now) }
    {
        self.targets.as_slice() == targets
    }

    /// Whether it is of that edition and of these targets, in their order.
    pub(crate) fn is_of(&self, edition: Edition, targets: &[String]) -> bool
        ensures edition { OnTrue result (self.now.edition ≡ edition) }
        ensures targets { OnTrue result (string_texts self.now.targets.items ≡ string_texts targets.now) }
    {
        self.is_in(edition) && self.has(targets)
    }
}

/// The plan of some directories, by the sources of the registers. It takes what it can of the past.
pub(crate) fn planned(
    rt: &(impl Threads + Sync),
    alloc: Global,
    registers: &Registers,
    past: Option<&PreviousBuild>,
    targets: Vec<String>,
    edition: Edition,
) -> Result<Plan, BuildError>
    ensures ok { IfOk result (λ plan. IsKeptPlan edition registers.now (string_texts targets.items) plan) }
    ensures none { result ≡ Err BuildError.NoPackage → (W : List AWrite) → StandsFor held_cmp registers.now W → SomeHasNoFiles edition W (string_texts targets.items) }
{
    registers.see_files();
    let known = known_of(alloc, past)?;
    let plan = plan_all(
        rt,
        alloc,
        edition,
        registers,
        targets.as_slice(),
        known.as_slice(),
    )?;
    let directories = all_shared(alloc, past, plan.directories)?;
    Ok(Plan {
        edition,
        targets,
        directories,
    })
}

fn only(alloc: Global, text: &str) -> Result<Vec<String>, AllocError>
    ensures { IfOk result (λ only. string_texts only.items ≡ text.now ∷ []) }
{
    let mut only = Vec::new(alloc);
    only.push(String::from_str(alloc, text)?)?;
    Ok(only)
}

/// What is reached of a directory: by the plan that the replica keeps, if it is of that directory
/// alone and of that edition; else by a new one.
pub(crate) fn reach_one(
    rt: &(impl Threads + Sync),
    alloc: Global,
    replica: &Replica,
    directory: &str,
    edition: Edition,
) -> Result<Vec<Reached>, BuildError>
    ensures ok { IfOk result (λ reached. IsReachedBy edition replica.now.registers (directory.now ∷ []) (map reached_of reached.items)) }
    ensures none { result ≡ Err BuildError.NoPackage → (W : List AWrite) → StandsFor held_cmp replica.now.registers W → SomeHasNoFiles edition W (directory.now ∷ []) }
{
    let only = only(alloc, directory)?;
    if let Some(plan) = replica.plan_of(edition, only.as_slice()) {
        let reached = all_reached(alloc, edition, replica.past(), plan.directories.as_slice())?;
        return Ok(reached);
    }
    let plan = planned(
        rt,
        alloc,
        replica.registers(),
        replica.past(),
        only,
        edition,
    )?;
    let reached = all_reached(alloc, edition, replica.past(), plan.directories.as_slice())?;
    Ok(reached)
}

/// A plan, if it is of that edition and of these targets. Another is dropped, before its successor
/// is made.
fn fitting(kept: Option<Plan>, edition: Edition, targets: &[String]) -> Option<Plan>
    ensures kept { IfSome result (λ plan. kept ≡ Some plan) }
    ensures edition { IfSome result (λ plan. plan.edition ≡ edition) }
    ensures fits { IfSome result (λ plan. string_texts plan.targets.items ≡ string_texts targets.now) }
{
    let plan = kept?;
    if plan.is_of(edition, targets) {
        Some(plan)
    } else {
        None
    }
}

/// A new plan, whose files are the past from here on.
fn planned_anew(
    rt: &(impl Threads + Sync),
    alloc: Global,
    registers: &Registers,
    past: &mut Option<PreviousBuild>,
    targets: Vec<String>,
    edition: Edition,
) -> Result<Plan, BuildError>
    ensures ok { IfOk result (λ plan. IsKeptPlan edition registers.now (string_texts targets.items) plan) }
    ensures none { result ≡ Err BuildError.NoPackage → (W : List AWrite) → StandsFor held_cmp registers.now W → SomeHasNoFiles edition W (string_texts targets.items) }
{
    let plan = planned(rt, alloc, registers, past.as_ref(), targets, edition)?;
    let files = build_of_plan(alloc, plan.directories.as_slice(), past.as_ref())?;
    *past = Some(files);
    Ok(plan)
}

/// The plan that was kept, if it is of that edition and of these targets; else a new one.
pub(crate) fn kept_or_planned(
    rt: &(impl Threads + Sync),
    alloc: Global,
    registers: &Registers,
    past: &mut Option<PreviousBuild>,
    kept: Option<Plan>,
    targets: Vec<String>,
    edition: Edition,
) -> Result<Plan, BuildError>
    requires { KeepsPlan registers.now kept }
    ensures ok { IfOk result (λ plan. IsKeptPlan edition registers.now (string_texts targets.items) plan) }
    ensures none { result ≡ Err BuildError.NoPackage → (W : List AWrite) → StandsFor held_cmp registers.now W → SomeHasNoFiles edition W (string_texts targets.items) }
{
    match fitting(kept, edition, targets.as_slice()) {
        Some(plan) => Ok(plan),
        None => planned_anew(rt, alloc, registers, past, targets, edition),
    }
}
