//! The counts of several replicas.

ghost use Rattle.std.specs.Prelude.{◌≡◌, ◌<◌, ◌⊎◌, ◌∷◌, ℕ, length, true, false, [], List, OnOk, IfOk};
ghost use Rattle.std.specs.List.{Contains};
ghost use Rattle.ws_version_vector.specs.Counts.{count_at, counts_at, IsBelow, IsMost, IsRaised, IsNews, ChangedAt, AreShared, AreRaisedAndShared, AreFirstNumbers, AreBelow, AreMaximal, greatest_count, is_among};

use crate::vector::{News, VersionVector, count, is_below, news_of};
use std::alloc::{AllocError, Global};
use std::marker::Model;

/// The counts of replicas, by their numbers from 0 on. One without counts took nothing.
#[derive(Drop)]
pub struct Vectors {
    alloc: Global,
    all: Vec<VersionVector>,
}

impl Model for Vectors {
    ghost use Rattle.std.specs.Prelude.{ℕ as Number, List};
    ghost use Rattle.std.specs.Coded.{coded_ℕ, coded_list};

    ghost Value = { List (List Number) };

    ghost coded = { coded_list (coded_list coded_ℕ) };

    ghost view = { λ a. a.all.items };
}

impl Vectors {
    /// No replica took anything.
    pub fn new(alloc: Global) -> Vectors
        ensures { result ≡ [] }
    {
        Vectors {
            alloc,
            all: Vec::new(alloc),
        }
    }

    /// The counts of a replica.
    pub fn at(&self, at: usize) -> &[u64]
        ensures { result.now ≡ counts_at at self.now }
    {
        match self.all.get(at) {
            None => &[],
            Some(vector) => vector.counts(),
        }
    }

    /// How many batches were first taken at a replica.
    pub fn own(&self, at: usize) -> u64
        ensures { result ≡ count_at at (counts_at at self.now) }
    {
        count(self.at(at), at)
    }

    /// What one replica has that another lacks.
    pub fn news_of(&self, mine: usize, theirs: usize) -> News
        ensures { IsNews (counts_at mine self.now) (counts_at theirs self.now) result }
    {
        news_of(self.at(mine), self.at(theirs))
    }

    /// A batch was first taken at a replica. An `Err` is for want of memory, or where there were
    /// 2^64 - 1 batches.
    pub fn raise(&mut self, at: usize) -> Result<(), AllocError>
        ensures { OnOk result ((counts : List ℕ) × IsRaised at (counts_at at self.old) counts × ChangedAt at self.old self.new counts) }
    {
        let mut vector = self.copy_at(at)?;
        vector.raise(at)?;
        self.put(at, vector)
    }

    /// One replica took what another has. An `Err` is for want of memory.
    pub fn merge(&mut self, mine: usize, theirs: usize) -> Result<(), AllocError>
        ensures { OnOk result ((counts : List ℕ) × IsMost (counts_at mine self.old) (counts_at theirs self.old) counts × ChangedAt mine self.old self.new counts) }
    {
        let mut vector = self.copy_at(mine)?;
        vector.merge(self.at(theirs))?;
        self.put(mine, vector)
    }

    /// Some replicas took what they have together. An `Err` is for want of memory.
    pub fn share(&mut self, at: &[usize]) -> Result<(), AllocError>
        ensures { OnOk result (AreShared at.now self.old self.new) }
    {
        let greatest = self.greatest_of(at)?;
        self.put_at_all(at, &greatest)
    }

    /// The first of some replicas took a batch of its own, and then they all took what they have
    /// together. An `Err` is for want of memory, or where there were 2^64 - 1 batches.
    pub fn raise_and_share(&mut self, at: &[usize]) -> Result<(), AllocError>
        ensures { OnOk result (AreRaisedAndShared at.now self.old self.new) }
    {
        if let Some(first) = at.first() {
            self.raise(*first)?;
        }
        self.share(at)
    }

    /// The first replicas, of which there are so many, took what they have together. An `Err` is
    /// for want of memory.
    pub fn settle(&mut self, count: usize) -> Result<(), AllocError>
        ensures { OnOk result ((ks : List ℕ) × AreFirstNumbers count ks × AreShared ks self.old self.new) }
    {
        let mut numbers = Vec::with_capacity(self.alloc, count)?;
        for number in 0..count {
            numbers.push(number)?;
        }
        self.share(&numbers)
    }

    /// Those of the first replicas that have together what the first have. An `Err` is for want of
    /// memory.
    pub fn maximal(&self, count: usize) -> Result<Vec<usize>, AllocError>
        ensures tops { IfOk result (λ tops. AreMaximal self.now count tops.items) }
        ensures within { IfOk result (λ tops. (t : ℕ) → Contains tops.items t → t < count) }
    {
        let mut tops = Vec::new(self.alloc);
        for at in 0..count {
            tops = self.with_top(tops, at)?;
        }
        Ok(tops)
    }

    /// Those of some replicas that have together what all of these have. An `Err` is for want of
    /// memory.
    pub fn tops_among(&self, among: &[usize]) -> Result<Vec<usize>, AllocError>
        ensures tops { IfOk result (λ tops. AreBelow self.now among.now tops.items) }
        ensures within { IfOk result (λ tops. (t : ℕ) → Contains tops.items t → Contains among.now t) }
    {
        let mut tops = Vec::new(self.alloc);
        for at in among {
            tops = self.with_top(tops, *at)?;
        }
        Ok(tops)
    }

    // The numbers of replicas with one more, if none of them has all that it has, and without
    // those of which it has all.
    fn with_top(&self, tops: Vec<usize>, at: usize) -> Result<Vec<usize>, AllocError>
        ensures below { IfOk result (λ next. AreBelow self.now (at ∷ tops.items) next.items) }
        ensures within { IfOk result (λ next. (t : ℕ) → Contains next.items t → (t ≡ at) ⊎ Contains tops.items t) }
    {
        if self.is_below_any(at, &tops) {
            return Ok(tops);
        }
        let mut next = Vec::new(self.alloc);
        next.push(at)?;
        for top in &tops {
            if !is_below(self.at(*top), self.at(at)) {
                next.push(*top)?;
            }
        }
        Ok(next)
    }

    // Whether one of some replicas has all that this one has.
    fn is_below_any(&self, at: usize, tops: &[usize]) -> bool
        ensures { result ≡ true → (t : ℕ) × Contains tops.now t × IsBelow (counts_at at self.now) (counts_at t self.now) }
    {
        for top in tops {
            if is_below(self.at(at), self.at(*top)) {
                return true;
            }
        }
        false
    }

    // Counts equal to those of a replica.
    fn copy_at(&self, at: usize) -> Result<VersionVector, AllocError>
        ensures { IfOk result (λ vector. vector ≡ counts_at at self.now) }
    {
        match self.all.get(at) {
            None => Ok(VersionVector::new(self.alloc)),
            Some(vector) => vector.copy(self.alloc),
        }
    }

    // The greatest counts that any of some replicas has.
    fn greatest_of(&self, at: &[usize]) -> Result<VersionVector, AllocError>
        ensures { IfOk result (λ greatest. (j : ℕ) → count_at j greatest ≡ greatest_count self.now at.now j) }
    {
        let Some((first, rest)) = at.split_first() else {
            return Ok(VersionVector::new(self.alloc));
        };
        let mut greatest = self.greatest_of(rest)?;
        greatest.merge(self.at(*first))?;
        Ok(greatest)
    }

    // Gives some replicas those counts.
    fn put_at_all(&mut self, at: &[usize], vector: &VersionVector) -> Result<(), AllocError>
        ensures put { OnOk result ((k : ℕ) → is_among k at.now ≡ true → counts_at k self.new ≡ vector.now) }
        ensures others { OnOk result ((k : ℕ) → is_among k at.now ≡ false → counts_at k self.new ≡ counts_at k self.old) }
    {
        let Some((first, rest)) = at.split_first() else {
            return Ok(());
        };
        let copy = vector.copy(self.alloc)?;
        self.put(*first, copy)?;
        self.put_at_all(rest, vector)
    }

    // Gives a replica those counts.
    fn put(&mut self, at: usize, vector: VersionVector) -> Result<(), AllocError>
        ensures { OnOk result (ChangedAt at self.old self.new vector) }
    {
        self.extend(at)?;
        self.all[at] = vector;
        Ok(())
    }

    // Adds replicas that took nothing, until there is one of that number.
    #[tactic(auto, using(crate::proofs::Reading::push_reads))]
    fn extend(&mut self, at: usize) -> Result<(), AllocError>
        ensures same { OnOk result ((j : ℕ) → counts_at j self.new ≡ counts_at j self.old) }
        ensures long { OnOk result (at < length self.new) }
    {
        let Some(missing) = at.checked_sub(self.all.len()) else {
            return Ok(());
        };
        self.all.push(VersionVector::new(self.alloc))?;
        for _ in 0..missing {
            self.all.push(VersionVector::new(self.alloc))?;
        }
        Ok(())
    }
}
