//! The directories that targets reach, found wave by wave.
ghost use Rattle.std.specs.Prelude.{IfOk, OnOk, string_cmp};
ghost use Rattle.std.specs.BTreeMap.{IsOrdered, values};
ghost use Rattle.ws_graph.specs.Node.{planned_of};
ghost use Rattle.ws_graph.specs.Discovery.{held_sources, string_texts, met_paths, waiting_paths, AreAll, AreWaiting, TakesAll, AddsPath, AddsPaths, AddsImported, AddsUnmet, IsNextWave};

use crate::planned::Node;
use crate::previous::PreviousFiles;
use crate::target::{Target, targets_of};
use crate::waiting::{Waiting, text_of, waiting_at};
use crate::wave::{Found, read_all};
use go_text::edition::Edition;
use std::alloc::{AllocError, Global};
use std::collections::BTreeMap;
use std::thread::Threads;
use ws_register::Registers;

/// What becomes of each directory that those of a first wave reach, by its path. The directories
/// of a wave are those that the wave before imports, and that weren't met yet: they are read at
/// once.
pub fn discover(
    rt: &(impl Threads + Sync),
    alloc: Global,
    edition: Edition,
    registers: &Registers,
    first: Vec<Waiting>,
    known: &[PreviousFiles<'_>],
) -> Result<BTreeMap<String, Found>, AllocError>
    requires { AreWaiting (held_sources registers.now) first.items }
    ensures { IfOk result (λ met. AreAll edition (held_sources registers.now) (waiting_paths first.items) (met_paths met.entries) (values met)) }
{
    let mut met = BTreeMap::new(alloc);
    let mut wave = first;
    while !wave.is_empty() {
        let read = read_all(rt, alloc, edition, wave, known)?;
        let imported = take_all(alloc, registers, read, &mut met)?;
        wave = next_wave(alloc, registers, &met, imported)?;
    }
    Ok(met)
}

// Takes in the directories of a wave. Answers the paths that they import.
fn take_all(
    alloc: Global,
    registers: &Registers,
    read: Vec<Result<(String, Found), AllocError>>,
    met: &mut BTreeMap<String, Found>,
) -> Result<Vec<String>, AllocError>
    requires { IsOrdered string_cmp met.old }
    ensures ordered { OnOk result (IsOrdered string_cmp met.new) }
    ensures takes { IfOk result (λ imported. TakesAll (held_sources registers.now) read.items met.old.entries met.new.entries (string_texts imported.items)) }
{
    let mut imported = Vec::new(alloc);
    for directory in read {
        let (path, found) = directory?;
        add_imported(alloc, registers, &found.node, &mut imported)?;
        met.insert(path, found)?;
    }
    Ok(imported)
}

// Adds the paths that the files of a directory import.
fn add_imported(
    alloc: Global,
    registers: &Registers,
    node: &Node,
    imported: &mut Vec<String>,
) -> Result<(), AllocError>
    ensures { IfOk result (λ _. AddsImported (held_sources registers.now) (planned_of node.now) (string_texts imported.old.items) (string_texts imported.new.items)) }
{
    // The paths alone are wanted, so that no directory has a number.
    let numbered = Vec::new(alloc);
    let targets = targets_of(alloc, numbered.as_slice(), node)?;
    add_paths(alloc, registers, targets.as_slice(), imported)?;
    Ok(())
}

fn add_paths(
    alloc: Global,
    registers: &Registers,
    targets: &[Target],
    imported: &mut Vec<String>,
) -> Result<(), AllocError>
    ensures { IfOk result (λ _. AddsPaths (held_sources registers.now) targets.now (string_texts imported.old.items) (string_texts imported.new.items)) }
{
    for target in targets {
        add_path(alloc, registers, target.path.as_slice(), imported)?;
    }
    Ok(())
}

fn add_path(
    alloc: Global,
    registers: &Registers,
    path: &[u8],
    imported: &mut Vec<String>,
) -> Result<(), AllocError>
    ensures { IfOk result (λ _. AddsPath (held_sources registers.now) path.now (string_texts imported.old.items) (string_texts imported.new.items)) }
{
    let Some(text) = text_of(alloc, registers, path)? else {
        return Ok(());
    };
    imported.push(text)?;
    Ok(())
}

// The directories of some paths that have files and weren't met yet, in the order of their paths.
fn next_wave(
    alloc: Global,
    registers: &Registers,
    met: &BTreeMap<String, Found>,
    imported: Vec<String>,
) -> Result<Vec<Waiting>, AllocError>
    ensures { IfOk result (λ wave. IsNextWave (held_sources registers.now) (met_paths met.now.entries) (string_texts imported.items) wave.items) }
{
    let mut paths = imported;
    paths.sort()?;
    paths.dedup();
    let mut wave = Vec::new(alloc);
    for path in paths {
        add_unmet(alloc, registers, met, path.as_str(), &mut wave)?;
    }
    Ok(wave)
}

fn add_unmet(
    alloc: Global,
    registers: &Registers,
    met: &BTreeMap<String, Found>,
    path: &str,
    wave: &mut Vec<Waiting>,
) -> Result<(), AllocError>
    ensures { IfOk result (λ _. AddsUnmet (held_sources registers.now) (met_paths met.now.entries) path.now wave.old.items wave.new.items) }
{
    if met.contains_key(path) {
        return Ok(());
    }
    let Some(waiting) = waiting_at(alloc, registers, path)? else {
        return Ok(());
    };
    wave.push(waiting)?;
    Ok(())
}
