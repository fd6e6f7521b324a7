//! What the imports of a directory lead to.
ghost use Rattle.std.specs.Prelude.{◌≡◌, ◌↔◌, ℕ, [], ◌∷◌, IfOk, string_bytes};
ghost use Rattle.std.specs.List.{Contains};
ghost use Rattle.std.specs.List.Sorted.{IsStrictlySortedBy, IsStrictlyIncreasing};
ghost use Rattle.go_ast.specs.Views.{import_of};
ghost use Rattle.ws_version.specs.Writes.{path_cmp};
ghost use Rattle.ws_graph.specs.BuildPlan.{directory_imports};
ghost use Rattle.ws_graph.specs.Node.{planned_of};
ghost use Rattle.ws_graph.specs.Discovery.{string_texts, IsNumber, HaveTargets, AreTargetsOf, AddsTargets, AddsFile, HasNumber};

use crate::planned::Node;
use go_ast::file::ImportSpec;
use go_ast::parsed::Parsed;
use go_text::place::Place;
use std::alloc::{AllocError, Global};
use std::cmp::Ordering;

/// An import of a directory: the name of the file and the place where it is written, the path of
/// the directory, and its number, if it is among those that have one.
#[derive(Drop)]
pub struct Target {
    pub file: String,
    pub place: Place,
    pub path: Vec<u8>,
    pub number: Option<usize>,
}

/// What the imports of a directory lead to, by the numbers of some paths.
pub fn targets_of(alloc: Global, all: &[String], node: &Node) -> Result<Vec<Target>, AllocError>
    requires { IsStrictlySortedBy path_cmp (string_texts all.now) }
    ensures { IfOk result (λ targets. AreTargetsOf (string_texts all.now) (planned_of node.now) targets.items) }
{
    match node {
        Node::Faulty(_) => Ok(Vec::new(alloc)),
        Node::Sound(parsed) => {
            let targets = targets_in(alloc, all, parsed.as_slice())?;
            Ok(targets)
        }
    }
}

fn targets_in(alloc: Global, all: &[String], parsed: &[Parsed]) -> Result<Vec<Target>, AllocError>
    requires { IsStrictlySortedBy path_cmp (string_texts all.now) }
    ensures { IfOk result (λ targets. HaveTargets (string_texts all.now) parsed.now targets.items) }
{
    let mut targets = Vec::new(alloc);
    for file in parsed {
        add_file(alloc, all, file, &mut targets)?;
    }
    Ok(targets)
}

fn add_file(
    alloc: Global,
    all: &[String],
    file: &Parsed,
    targets: &mut Vec<Target>,
) -> Result<(), AllocError>
    requires { IsStrictlySortedBy path_cmp (string_texts all.now) }
    ensures { IfOk result (λ _. AddsFile (string_texts all.now) file.now targets.old.items targets.new.items) }
{
    let name = file.name();
    for spec in &file.file().imports {
        add_target(alloc, all, name, spec, targets)?;
    }
    Ok(())
}

fn add_target(
    alloc: Global,
    all: &[String],
    file: &str,
    spec: &ImportSpec,
    targets: &mut Vec<Target>,
) -> Result<(), AllocError>
    requires { IsStrictlySortedBy path_cmp (string_texts all.now) }
    ensures { IfOk result (λ _. AddsTargets (string_texts all.now) (directory_imports file.now (import_of spec.now ∷ [])) targets.old.items targets.new.items) }
{
    if spec.path.as_slice() == b"fmt".as_slice() {
        return Ok(());
    }
    targets.push(Target {
        file: String::from_str(alloc, file)?,
        place: spec.place,
        path: spec.path.clone()?,
        number: number_of(all, spec.path.as_slice()),
    })?;
    Ok(())
}

// The number of a path among some that ascend.
fn number_of(all: &[String], path: &[u8]) -> Option<usize>
    requires { IsStrictlySortedBy path_cmp (string_texts all.now) }
    ensures { IsNumber (string_texts all.now) path.now result }
{
    let found = all.binary_search_by(
        |other: &String| -> Ordering
            ensures { result ≡ path_cmp (string_bytes other.now) path.entry.now }
        { compared(other, path) },
    );
    match found {
        Ok(number) => Some(number),
        Err(_) => None,
    }
}

fn compared(other: &String, path: &[u8]) -> Ordering
    ensures { result ≡ path_cmp (string_bytes other.now) path.now }
{
    other.as_bytes().cmp(path)
}

/// The numbers of some targets, ascending.
pub fn numbers_of(alloc: Global, targets: &[Target]) -> Result<Vec<usize>, AllocError>
    ensures ascending { IfOk result (λ numbers. IsStrictlyIncreasing numbers.items) }
    ensures all { IfOk result (λ numbers. (k : ℕ) → Contains numbers.items k ↔ HasNumber targets.now k) }
{
    let mut numbers = Vec::new(alloc);
    for target in targets {
        match target.number {
            Some(number) => numbers.push(number)?,
            None => {}
        }
    }
    numbers.sort_unstable();
    numbers.dedup();
    Ok(numbers)
}
