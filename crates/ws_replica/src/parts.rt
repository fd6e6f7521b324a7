//! What a target reaches of all that is reached from its replica.
ghost use Rattle.std.specs.Prelude.{◌≡◌, ◌<◌, ◌↔◌, ℕ, length, map, IfOk, string_bytes, Some};
ghost use Rattle.std.specs.List.{All, AllZip, Contains, slice_get};
ghost use Rattle.std.specs.List.Sorted.{IsStrictlySortedBy, IsStrictlyIncreasing};
ghost use Rattle.ws_version.specs.Writes.{path_cmp};
ghost use Rattle.ws_graph.specs.Discovery.{IsNumber};
ghost use Rattle.ws_reach.specs.Reach.{rows_of};
ghost use Rattle.ws_replica.specs.Builds.{target_of};
ghost use Rattle.ws_replica.specs.Jobs.{reached_of, all_reached_of};
ghost use Rattle.ws_replica.specs.Parts.{target_part, reached_paths, reached_rows, all_rows_of, ArePart, IsPartOf, AllPartsWithin};
ghost use Rattle.ws_replica.specs.Targets.{AreInOrder, AllInOrder};

use crate::building::Target;
use crate::reached::{Reached, import_rows};
use std::alloc::{AllocError, Global};
use std::cmp::Ordering;
use ws_reach::walk;

/// A replica's number, and the numbers, ascending, of what a target reaches of all that is reached
/// from it.
#[derive(Drop)]
pub(crate) struct Part {
    pub(crate) replica: usize,
    pub(crate) numbers: Vec<usize>,
}

fn compared(one: &Reached, path: &str) -> Ordering
    ensures { result ≡ path_cmp (string_bytes one.now.place.path) path.now }
{
    one.place.path.as_bytes().cmp(path.as_bytes())
}

/// The number of a directory.
fn number_of(reached: &[Reached], path: &str) -> Option<usize>
    requires { IsStrictlySortedBy path_cmp (reached_paths (map reached_of reached.now)) }
    ensures { IsNumber (reached_paths (map reached_of reached.now)) path.now result }
{
    let found = reached.binary_search_by(
        |one: &Reached| -> Ordering
            ensures { result ≡ path_cmp (string_bytes one.now.place.path) path.entry.now }
        { compared(one, path) },
    );
    match found {
        Ok(number) => Some(number),
        Err(_) => None,
    }
}

fn ascending(numbers: Vec<usize>) -> Vec<usize>
    ensures ascending { IsStrictlyIncreasing result.items }
    ensures same { (k : ℕ) → Contains result.items k ↔ Contains numbers.items k }
{
    let mut numbers = numbers;
    numbers.sort_unstable();
    numbers.dedup();
    numbers
}

/// The numbers, ascending, of what a directory reaches; none where it isn't reached itself.
fn numbers_from(
    alloc: Global,
    reached: &[Reached],
    rows: &[Vec<usize>],
    path: &str,
) -> Result<Vec<usize>, AllocError>
    requires order { AreInOrder (map reached_of reached.now) }
    requires rows { rows_of rows.now ≡ reached_rows (map reached_of reached.now) }
    ensures { IfOk result (λ numbers. ArePart (reached_paths (map reached_of reached.now)) (reached_rows (map reached_of reached.now)) path.now numbers.items) }
{
    let Some(start) = number_of(reached, path) else {
        return Ok(Vec::new(alloc));
    };
    let numbers = walk(alloc, rows, start)?;
    Ok(ascending(numbers))
}

/// The numbers that are imported by each of what is reached from each replica.
fn all_rows(alloc: Global, all: &[Vec<Reached>]) -> Result<Vec<Vec<Vec<usize>>>, AllocError>
    ensures { IfOk result (λ rows. all_rows_of rows.items ≡ map reached_rows (all_reached_of all.now)) }
{
    let mut rows = Vec::new(alloc);
    for reached in all {
        rows.push(import_rows(alloc, reached)?)?;
    }
    Ok(rows)
}

fn reached_at(all: &[Vec<Reached>], number: usize) -> &[Reached]
    requires { number < length all.now }
    ensures { slice_get (all_reached_of all.now) number ≡ Some (map reached_of result.now) }
{
    all[number].as_slice()
}

fn rows_at(all: &[Vec<Vec<usize>>], number: usize) -> &[Vec<usize>]
    requires { number < length all.now }
    ensures { slice_get (all_rows_of all.now) number ≡ Some (rows_of result.now) }
{
    all[number].as_slice()
}

/// Each target's part of what is reached from its replica.
pub(crate) fn all_parts(
    alloc: Global,
    all: &[Vec<Reached>],
    targets: &[Target<'_>],
) -> Result<Vec<Part>, AllocError>
    requires named { All (λ t. t.replica < length all.now) targets.now }
    requires order { AllInOrder (all_reached_of all.now) }
    ensures are { IfOk result (λ parts. AllZip (IsPartOf (all_reached_of all.now)) (map target_of targets.now) (map target_part parts.items)) }
    ensures within { IfOk result (λ parts. AllPartsWithin (length all.now) parts.items) }
{
    let rows = all_rows(alloc, all)?;
    let mut parts = Vec::new(alloc);
    for target in targets {
        let replica = target.replica;
        let reached = reached_at(all, replica);
        let rows = rows_at(rows.as_slice(), replica);
        let numbers = numbers_from(alloc, reached, rows, target.directory)?;
        parts.push(Part { replica, numbers })?;
    }
    Ok(parts)
}
