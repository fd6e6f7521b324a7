//! Plans of builds: every directory that targets reach by imports.
ghost use Rattle.std.specs.Prelude.{◌≡◌, ◌<◌, ◌↔◌, ℕ, List, [], ◌∷◌, length, map, string_bytes, IfOk, Err, Some};
ghost use Rattle.std.specs.BTreeMap.{keys, values};
ghost use Rattle.std.specs.List.{slice_get, Contains};
ghost use Rattle.std.specs.List.Sorted.{IsStrictlySortedBy};
ghost use Rattle.ws_version.specs.Writes.{Write, held_cmp, path_cmp};
ghost use Rattle.go_text.specs.declared.edition.Edition.TheVariants.{One};
ghost use Rattle.ws_map.specs.Kept.{StandsFor};
ghost use Rattle.ws_graph.specs.Plan.{NoFiles, IsPlanOf};
ghost use Rattle.ws_graph.specs.BuildPlan.{IsBuildPlanOf, IsJointPlanFor, SomeHasNoFiles};
ghost use Rattle.ws_graph.specs.Node.{planned_of, directory_of};
ghost use Rattle.ws_graph.specs.Discovery.{held_sources, string_texts, planned_with, IsWaveIfFilled, IsLinkedAt, ArePlanned};

use crate::discovery::discover;
use crate::link::{Links, import_fault, links_of};
use crate::planned::{Node, PlanError};
use crate::previous::PreviousFiles;
use crate::target::Target;
use crate::waiting::{Waiting, waiting_at};
use crate::wave::Found;
use go_text::edition::Edition;
use go_text::fault::Fault;
use std::alloc::{AllocError, Global};
use std::collections::BTreeMap;
use std::thread::Threads;
use ws_register::Registers;

/// A directory, what becomes of its files and of its imports, and which directories it imports.
#[derive(Drop)]
pub struct Directory {
    /// Its path.
    pub path: String,
    /// Its files, or the fault that stands in the way: its own, or that of an import.
    pub node: Node,
    /// The numbers of the directories that it imports, ascending, in the list of the plan.
    pub imports: Vec<usize>,
}

/// The directories that targets reach by imports, the targets too, each once, in the order of their
/// paths.
#[derive(Drop)]
pub struct BuildPlan {
    pub directories: Vec<Directory>,
}

/// The plan of a build of a target in the first edition. `NoPackage` comes where the target has no file
/// that belongs to a package, and `Memory` for a refused allocation.
pub fn plan(
    rt: &(impl Threads + Sync),
    alloc: Global,
    registers: &Registers,
    target: &str,
) -> Result<BuildPlan, PlanError>
    ensures ok { (W : List Write) → StandsFor held_cmp registers.now W → IfOk result (λ plan. IsBuildPlanOf One W target.now (map directory_of plan.directories.items)) }
    ensures none { (W : List Write) → StandsFor held_cmp registers.now W → result ≡ Err PlanError.NoPackage → IsPlanOf One W target.now NoFiles }
{
    plan_in(rt, alloc, Edition::One, registers, target)
}

/// The plan of a build of a target in an edition. `NoPackage` comes where the target has no file that
/// belongs to a package, and `Memory` for a refused allocation.
pub fn plan_in(
    rt: &(impl Threads + Sync),
    alloc: Global,
    edition: Edition,
    registers: &Registers,
    target: &str,
) -> Result<BuildPlan, PlanError>
    ensures ok { (W : List Write) → StandsFor held_cmp registers.now W → IfOk result (λ plan. IsBuildPlanOf edition W target.now (map directory_of plan.directories.items)) }
    ensures none { (W : List Write) → StandsFor held_cmp registers.now W → result ≡ Err PlanError.NoPackage → IsPlanOf edition W target.now NoFiles }
{
    let only = only(alloc, target)?;
    let known = Vec::new(alloc);
    plan_all(
        rt,
        alloc,
        edition,
        registers,
        only.as_slice(),
        known.as_slice(),
    )
}

/// The joint plan of a build of several targets in an edition: what several of them reach is read once.
/// So is nothing that an earlier plan has in the same texts. `NoPackage` comes where one of them has
/// no file that belongs to a package, and `Memory` for a refused allocation.
pub fn plan_all(
    rt: &(impl Threads + Sync),
    alloc: Global,
    edition: Edition,
    registers: &Registers,
    targets: &[String],
    known: &[PreviousFiles<'_>],
) -> Result<BuildPlan, PlanError>
    ensures ok { IfOk result (λ plan. IsJointPlanFor edition registers.now (string_texts targets.now) (map directory_of plan.directories.items)) }
    ensures none { (W : List Write) → StandsFor held_cmp registers.now W → result ≡ Err PlanError.NoPackage → SomeHasNoFiles edition W (string_texts targets.now) }
{
    let Some(first) = first_wave(alloc, registers, targets)? else {
        return Err(PlanError::NoPackage);
    };
    let met = discover(rt, alloc, edition, registers, first, known)?;
    let (paths, founds) = parted(alloc, met)?;
    let directories = linked(alloc, paths.as_slice(), founds)?;
    Ok(BuildPlan { directories })
}

// The directories of some targets, each once, in the order of their paths, if all have files.
fn first_wave(
    alloc: Global,
    registers: &Registers,
    targets: &[String],
) -> Result<Option<Vec<Waiting>>, AllocError>
    ensures { IfOk result (IsWaveIfFilled (held_sources registers.now) (string_texts targets.now)) }
{
    let paths = each_once(alloc, targets)?;
    let mut wave = Vec::new(alloc);
    for path in paths {
        let Some(waiting) = waiting_at(alloc, registers, path.as_str())? else {
            return Ok(None);
        };
        wave.push(waiting)?;
    }
    Ok(Some(wave))
}

fn only(alloc: Global, text: &str) -> Result<Vec<String>, AllocError>
    ensures { IfOk result (λ only. string_texts only.items ≡ text.now ∷ []) }
{
    let mut only = Vec::new(alloc);
    only.push(String::from_str(alloc, text)?)?;
    Ok(only)
}

// Some texts, each once, ascending.
fn each_once(alloc: Global, some: &[String]) -> Result<Vec<String>, AllocError>
    ensures { IfOk result (λ once. (text : List ℕ) → Contains (string_texts once.items) text ↔ Contains (string_texts some.now) text) }
{
    let mut once = copies(alloc, some)?;
    once.sort()?;
    once.dedup();
    Ok(once)
}

fn copies(alloc: Global, some: &[String]) -> Result<Vec<String>, AllocError>
    ensures { IfOk result (λ copies. string_texts copies.items ≡ string_texts some.now) }
{
    let mut copies = Vec::new(alloc);
    for text in some {
        copies.push(copy_of(text)?)?;
    }
    Ok(copies)
}

// The paths of the directories that were met, ascending, and what was found there.
fn parted(
    alloc: Global,
    met: BTreeMap<String, Found>,
) -> Result<(Vec<String>, Vec<Found>), AllocError>
    ensures paths { IfOk result (λ both. both.0.items ≡ keys met) }
    ensures founds { IfOk result (λ both. both.1.items ≡ values met) }
{
    let mut paths = Vec::new(alloc);
    let mut founds = Vec::new(alloc);
    for (path, found) in met {
        paths.push(path)?;
        founds.push(found)?;
    }
    Ok((paths, founds))
}

// The directories with the faults of their imports.
fn linked(alloc: Global, paths: &[String], founds: Vec<Found>) -> Result<Vec<Directory>, AllocError>
    requires ascending { IsStrictlySortedBy path_cmp (string_texts paths.now) }
    requires length { length paths.now ≡ length founds.items }
    ensures { IfOk result (λ directories. ArePlanned (string_texts paths.now) founds.items (map directory_of directories.items)) }
{
    let links = links_of(alloc, paths, founds.as_slice())?;
    let mut directories = Vec::new(alloc);
    for found in founds {
        let here = directories.len();
        directories.push(linked_at(&links, paths, here, found.node)?)?;
    }
    Ok(directories)
}

fn linked_at(
    links: &Links,
    paths: &[String],
    here: usize,
    node: Node,
) -> Result<Directory, AllocError>
    requires path { here < length paths.now }
    requires targets { here < length links.now.targets.items }
    requires rows { here < length links.now.rows.items }
    ensures { IfOk result (λ directory. IsLinkedAt (string_texts paths.now) links.now here (planned_of node) (directory_of directory)) }
{
    let targets = targets_at(links.targets.as_slice(), here);
    let fault = import_fault(links, here, targets.as_slice())?;
    let path = copy_of(path_at(paths, here))?;
    let imports = numbers_of(numbers_at(links.rows.as_slice(), here))?;
    Ok(Directory {
        path,
        node: with_fault(node, fault),
        imports,
    })
}

fn targets_at(all: &[Vec<Target>], here: usize) -> &Vec<Target>
    requires { here < length all.now }
    ensures { slice_get all.now here ≡ Some result.now }
{
    &all[here]
}

fn numbers_at(all: &[Vec<usize>], here: usize) -> &Vec<usize>
    requires { here < length all.now }
    ensures { slice_get all.now here ≡ Some result.now }
{
    &all[here]
}

fn path_at(all: &[String], here: usize) -> &String
    requires { here < length all.now }
    ensures { slice_get all.now here ≡ Some result.now }
{
    &all[here]
}

fn copy_of(path: &String) -> Result<String, AllocError>
    ensures { IfOk result (λ copy. string_bytes copy ≡ string_bytes path.now) }
{
    let copy = path.clone()?;
    Ok(copy)
}

fn numbers_of(row: &Vec<usize>) -> Result<Vec<usize>, AllocError>
    ensures { IfOk result (λ copy. copy.items ≡ row.now.items) }
{
    let copy = row.clone()?;
    Ok(copy)
}

fn with_fault(node: Node, fault: Option<Fault>) -> Node
    ensures { planned_of result ≡ planned_with (planned_of node) fault }
{
    match fault {
        Some(fault) => Node::Faulty(fault),
        None => node,
    }
}
