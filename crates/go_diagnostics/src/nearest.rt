//! The nearest of some names to one that nothing declares.
ghost use Rattle.std.specs.Prelude.{◌≡◌, ◌≤◌, IfOk, length, map, option_map};
ghost use Rattle.go_diagnostics.specs.Nearest.{IsNearest, is_candidate, longest, most_edits};

use std::alloc::{AllocError, Global};
use strsim::generic_levenshtein;

/// A longer name isn't compared with others.
const LONGEST: usize = 64;

/// How many edits may lie between a name and one that is meant: a third of its length.
fn most_edits(name: &[u8]) -> usize
    requires { length name.now ≤ longest }
    ensures { result ≡ most_edits name.now }
{
    (name.len() + 1) / 3
}

/// Whether another name may be meant, by its length.
fn is_candidate(unknown: &[u8], name: &[u8]) -> bool
    requires { length unknown.now ≤ longest }
    ensures { result ≡ is_candidate unknown.now name.now }
{
    let most = most_edits(unknown);
    name != unknown
        && (name.len() <= unknown.len() + most
            && unknown.len() - most.min(unknown.len()) <= name.len())
}

/// The candidate that the fewest edits lead to; none, where none is near. An `Err` is want of memory.
pub fn nearest<'a>(
    alloc: Global,
    names: &[&'a [u8]],
    unknown: &[u8],
) -> Result<Option<&'a [u8]>, AllocError>
    ensures { IfOk result (λ found.
        IsNearest unknown.now (map (λ name. name.now) names.now) (option_map (λ name. name.now) found)) }
{
    if unknown.len() > LONGEST {
        return Ok(None);
    }
    let mut found = None;
    let mut least = most_edits(unknown) + 1;
    for name in names {
        if is_candidate(unknown, name) {
            let edits = generic_levenshtein(alloc, unknown, name)?;
            if edits < least {
                least = edits;
                found = Some(*name);
            }
        }
    }
    Ok(found)
}
