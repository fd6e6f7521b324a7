//! The counts of one replica.

ghost use Rattle.std.specs.Prelude.{◌≡◌, ◌<◌, ◌≤◌, ℕ, length, true, [], OnOk, IfOk};
ghost use Rattle.ws_version_vector.specs.Counts.{count_at, IsBelow, IsMost, IsRaised, IsNews};

use std::alloc::{AllocError, Global};
use std::marker::Model;

/// What one replica has that another lacks.
#[derive(Debug, Clone, Copy)]
pub enum News {
    /// It has nothing that the other lacks.
    Nothing,
    /// It has all that the other has.
    Everything,
    /// It may have something that the other lacks, and lack something that the other has.
    Something,
}

/// How many batches of those first taken at each replica another took: a count that is missing is
/// 0.
#[derive(Drop)]
pub struct VersionVector {
    counts: Vec<u64>,
}

impl Model for VersionVector {
    ghost use Rattle.std.specs.Prelude.{ℕ as Number, List};
    ghost use Rattle.std.specs.Coded.{coded_ℕ, coded_list};

    ghost Value = { List Number };

    ghost coded = { coded_list coded_ℕ };

    ghost view = { λ a. a.counts.items };
}

impl VersionVector {
    /// Nothing was taken.
    pub fn new(alloc: Global) -> VersionVector
        ensures { result ≡ [] }
    {
        VersionVector {
            counts: Vec::new(alloc),
        }
    }

    /// Another of equal counts. An `Err` only where memory ran out.
    pub fn copy(&self, alloc: Global) -> Result<VersionVector, AllocError>
        ensures { IfOk result (λ copy. copy ≡ self.now) }
    {
        let counts = Vec::from_slice(alloc, &self.counts)?;
        Ok(VersionVector { counts })
    }

    /// The counts, of the first replica on.
    pub fn counts(&self) -> &[u64]
        ensures { result.now ≡ self.now }
    {
        &self.counts
    }

    /// One more batch was first taken at a replica, by itself. An `Err` is for want of memory, or
    /// where there were 2^64 - 1 batches.
    pub fn raise(&mut self, at: usize) -> Result<(), AllocError>
        ensures { OnOk result (IsRaised at self.old self.new) }
    {
        extend(&mut self.counts, at)?;
        let Some(count) = self.counts[at].checked_add(1) else {
            return Err(AllocError);
        };
        self.counts[at] = count;
        Ok(())
    }

    /// Takes the greater count for each replica. An `Err` is for want of memory.
    pub fn merge(&mut self, others: &[u64]) -> Result<(), AllocError>
        ensures { OnOk result (IsMost self.old others.now self.new) }
    {
        let Some(last) = others.len().checked_sub(1) else {
            return Ok(());
        };
        extend(&mut self.counts, last)?;
        take_greater(&mut self.counts, others);
        Ok(())
    }
}

/// What those with the second counts have that those with the first lack.
pub fn news_of(mine: &[u64], theirs: &[u64]) -> News
    ensures { IsNews mine.now theirs.now result }
{
    if is_below(theirs, mine) {
        News::Nothing
    } else if is_below(mine, theirs) {
        News::Everything
    } else {
        News::Something
    }
}

/// A count, and 0 where there is none.
pub fn count(counts: &[u64], at: usize) -> u64
    ensures { result ≡ count_at at counts.now }
{
    match counts.get(at) {
        Some(count) => *count,
        None => 0,
    }
}

/// Whether no count is above the other's.
#[tactic(auto, using(crate::proofs::Reading::past_reads))]
pub fn is_below(counts: &[u64], others: &[u64]) -> bool
    ensures { result ≡ true → IsBelow counts.now others.now }
{
    for i in 0..counts.len() {
        if counts[i] > count(others, i) {
            return false;
        }
    }
    true
}

// Adds zeros until there is a count at that place.
#[tactic(auto, using(crate::proofs::Reading::push_reads))]
fn extend(counts: &mut Vec<u64>, at: usize) -> Result<(), AllocError>
    ensures same { OnOk result ((j : ℕ) → count_at j counts.new.items ≡ count_at j counts.old.items) }
    ensures long { OnOk result (at < length counts.new.items) }
{
    let Some(missing) = at.checked_sub(counts.len()) else {
        return Ok(());
    };
    counts.push(0)?;
    for _ in 0..missing {
        counts.push(0)?;
    }
    Ok(())
}

// Takes the greater count for each replica that the others count.
#[tactic(auto, using(crate::proofs::Reading::past_reads))]
fn take_greater(counts: &mut [u64], others: &[u64])
    requires { length others.now ≤ length counts.old }
    ensures { IsMost counts.old others.now counts.new }
{
    for i in 0..others.len() {
        counts[i] = counts[i].max(others[i]);
    }
}
