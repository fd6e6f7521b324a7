//! The faults of imports, once all directories are known.
ghost use Rattle.std.specs.Prelude.{◌≡◌, ◌<◌, ◌↔◌, length, map, true, IfOk, IfSome, IfNone, IsTrue, Some};
ghost use Rattle.std.specs.List.{AllZip, slice_get};
ghost use Rattle.std.specs.List.Sorted.{IsStrictlySortedBy};
ghost use Rattle.ws_version.specs.Writes.{path_cmp};
ghost use Rattle.ws_reach.specs.Reach.{rows_of};
ghost use Rattle.ws_graph.specs.Node.{planned_of};
ghost use Rattle.ws_graph.specs.Discovery.{string_texts, AreTargetsOf, AreNumbersOf, AreLinks, HasFault, NoneHas, IsFirst, target_fault, TargetFault};

use crate::target::{Target, numbers_of, targets_of};
use crate::wave::Found;
use go_text::fault::{Fault, FaultKind};
use std::alloc::{AllocError, Global};
use ws_reach::{closing_edges, has_edge};

/// Where the imports of some directories lead, by their numbers.
#[derive(Drop)]
pub struct Links {
    /// What the imports of each lead to.
    pub targets: Vec<Vec<Target>>,
    /// The directories that each imports, ascending.
    pub rows: Vec<Vec<usize>>,
    /// The imports that close a cycle: at the one that is imported, those that import it.
    pub closing: Vec<Vec<usize>>,
    /// Which are programs.
    pub programs: Vec<bool>,
}

/// Where the imports of some directories lead.
pub fn links_of(alloc: Global, paths: &[String], founds: &[Found]) -> Result<Links, AllocError>
    requires ascending { IsStrictlySortedBy path_cmp (string_texts paths.now) }
    requires length { length paths.now ≡ length founds.now }
    ensures { IfOk result (λ links. AreLinks (string_texts paths.now) founds.now links) }
{
    let targets = all_targets(alloc, paths, founds)?;
    let rows = all_numbers(alloc, targets.as_slice())?;
    let closing = closing_edges(alloc, rows.as_slice())?;
    let programs = all_programs(alloc, founds)?;
    Ok(Links {
        targets,
        rows,
        closing,
        programs,
    })
}

fn all_targets(
    alloc: Global,
    paths: &[String],
    founds: &[Found],
) -> Result<Vec<Vec<Target>>, AllocError>
    requires { IsStrictlySortedBy path_cmp (string_texts paths.now) }
    ensures { IfOk result (λ all. AllZip (λ found targets. AreTargetsOf (string_texts paths.now) (planned_of found.node) targets.items) founds.now all.items) }
{
    let mut all = Vec::new(alloc);
    for found in founds {
        all.push(targets_of(alloc, paths, &found.node)?)?;
    }
    Ok(all)
}

fn all_numbers(alloc: Global, targets: &[Vec<Target>]) -> Result<Vec<Vec<usize>>, AllocError>
    ensures { IfOk result (λ rows. AllZip AreNumbersOf targets.now rows.items) }
{
    let mut rows = Vec::new(alloc);
    for some in targets {
        rows.push(numbers_of(alloc, some.as_slice())?)?;
    }
    Ok(rows)
}

fn all_programs(alloc: Global, founds: &[Found]) -> Result<Vec<bool>, AllocError>
    ensures { IfOk result (λ all. all.items ≡ map (λ found. found.program) founds.now) }
{
    let mut all = Vec::new(alloc);
    for found in founds {
        all.push(found.program)?;
    }
    Ok(all)
}

/// The fault of the imports of a directory, if they have one: that of the first that has no files;
/// else of the first that closes a cycle; else of the first program.
pub fn import_fault(
    links: &Links,
    here: usize,
    targets: &[Target],
) -> Result<Option<Fault>, AllocError>
    ensures { IfOk result (TargetFault (rows_of links.now.closing.items) links.now.programs.items here targets.now) }
{
    if let Some(target) = first_with(links, here, targets, FaultKind::NoImport) {
        let fault = fault_at(target, FaultKind::NoImport)?;
        return Ok(Some(fault));
    }
    if let Some(target) = first_with(links, here, targets, FaultKind::Cycle) {
        let fault = fault_at(target, FaultKind::Cycle)?;
        return Ok(Some(fault));
    }
    if let Some(target) = first_with(links, here, targets, FaultKind::Program) {
        let fault = fault_at(target, FaultKind::Program)?;
        return Ok(Some(fault));
    }
    Ok(None)
}

fn fault_at(target: &Target, kind: FaultKind) -> Result<Fault, AllocError>
    ensures { IfOk result (λ fault. fault ≡ target_fault target.now kind) }
{
    let file = target.file.clone()?;
    Ok(Fault::new(file, target.place, kind))
}

// The first target with a fault of a kind.
fn first_with<'a>(
    links: &Links,
    here: usize,
    targets: &'a [Target],
    kind: FaultKind,
) -> Option<&'a Target>
    ensures some { IfSome result (λ target. IsFirst (HasFault (rows_of links.now.closing.items) links.now.programs.items here kind) targets.now target.now) }
    ensures none { IfNone result (NoneHas (HasFault (rows_of links.now.closing.items) links.now.programs.items here kind) targets.now) }
{
    for target in targets {
        if has_fault(links, here, target.number, kind) {
            return Some(target);
        }
    }
    None
}

fn has_fault(links: &Links, here: usize, number: Option<usize>, kind: FaultKind) -> bool
    ensures { IsTrue result ↔ HasFault (rows_of links.now.closing.items) links.now.programs.items here kind number }
{
    match (kind, number) {
        (FaultKind::NoImport, None) => true,
        (FaultKind::Cycle, Some(q)) => has_edge(links.closing.as_slice(), q, here),
        (FaultKind::Program, Some(q)) => is_program(links.programs.as_slice(), q),
        _ => false,
    }
}

fn is_program(programs: &[bool], number: usize) -> bool
    ensures { IsTrue result ↔ (slice_get programs.now number ≡ Some true) }
{
    match programs.get(number) {
        Some(program) => *program,
        None => false,
    }
}
