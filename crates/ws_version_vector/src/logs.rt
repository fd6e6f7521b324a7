//! The keys of what was last taken.

ghost use Rattle.std.specs.Prelude.{◌≡◌, ◌<◌, ℕ, List, length, map, true, [], IfOk, IfSome, OnOk};
ghost use Rattle.std.specs.List.{Contains};
ghost use Rattle.ws_version_vector.specs.Counts.{count_at};
ghost use Rattle.ws_version_vector.specs.Keyed.{log_at, IsKeyOf, HasKeys, AreKeysBetween, IsLonger, IsPushed};

use crate::vector::count;
use std::alloc::{AllocError, Global};
use std::marker::Model;

/// How many keys of one replica are kept.
const MOST: usize = 1_024;

/// How many times the batches that are held are more where a look-up of each key beats a walk over
/// all that is held.
const FEW: u64 = 64;

/// The key of a batch, which says where its writes are.
#[derive(Drop)]
pub struct Key {
    bytes: Vec<u8>,
}

impl Model for Key {
    ghost use Rattle.std.specs.Prelude.{ℕ as Number, List};
    ghost use Rattle.std.specs.Coded.{coded_ℕ, coded_list};

    ghost Value = { List Number };

    ghost coded = { coded_list coded_ℕ };

    ghost view = { λ a. a.bytes.items };
}

impl Key {
    fn new(alloc: Global, bytes: &[u8]) -> Result<Key, AllocError>
        ensures { IfOk result (λ key. key ≡ bytes.now) }
    {
        let bytes = Vec::from_slice(alloc, bytes)?;
        Ok(Key { bytes })
    }

    /// Its bytes.
    pub fn bytes(&self) -> &[u8]
        ensures { result.now ≡ self.now }
    {
        &self.bytes
    }
}

/// The keys of the last batches that were first taken at one replica, and how many came before.
#[derive(Drop)]
struct Log {
    first: u64,
    keys: Vec<Key>,
}

impl Model for Log {
    ghost use Rattle.std.specs.Prelude.{ℕ as Number, List};
    ghost use Rattle.std.specs.Coded.{coded_ℕ, coded_list, coded×};

    ghost Value = { Number × List (List Number) };

    ghost coded = { coded× coded_ℕ (coded_list (coded_list coded_ℕ)) };

    ghost view = { λ a. (a.first, a.keys.items) };
}

impl Log {
    fn new(alloc: Global) -> Log
        ensures { result ≡ (0, []) }
    {
        Log {
            first: 0,
            keys: Vec::new(alloc),
        }
    }

    // A batch with that key came behind so many. A full log begins anew.
    fn push(&mut self, alloc: Global, count: u64, key: Key) -> Result<(), AllocError>
        ensures { OnOk result (IsLonger count key self.old self.new) }
    {
        if self.keys.len() < MOST {
            self.keys.push(key)?;
            return Ok(());
        }
        let mut keys = Vec::new(alloc);
        keys.push(key)?;
        self.first = count;
        self.keys = keys;
        Ok(())
    }

    // The key of the batch of that number, if it is kept.
    fn key_of(&self, number: u64) -> Option<&Key>
        ensures { IfSome result (λ key. IsKeyOf self.now number key.now) }
    {
        let at = number.checked_sub(self.first)?;
        self.keys.get(at as usize)
    }

    // Adds the keys of the batches from one number up to another, if all are kept.
    fn add_keys<'a>(
        &'a self,
        from: u64,
        to: u64,
        keys: &mut Vec<&'a Key>,
    ) -> Result<bool, AllocError>
        ensures kept { OnOk result ((key : List ℕ) → Contains (map (λ k. k.now) keys.old.items) key → Contains (map (λ k. k.now) keys.new.items) key) }
        ensures all { IfOk result (λ all. all ≡ true → HasKeys self.now from to (map (λ k. k.now) keys.new.items)) }
    {
        for number in from..to {
            let Some(key) = self.key_of(number) else {
                return Ok(false);
            };
            keys.push(key)?;
        }
        Ok(true)
    }
}

/// The keys of the last batches that were first taken at each replica, by their numbers from 0 on.
#[derive(Drop)]
pub struct Logs {
    alloc: Global,
    all: Vec<Log>,
}

impl Model for Logs {
    ghost use Rattle.std.specs.Prelude.{ℕ as Number, List};
    ghost use Rattle.std.specs.Coded.{coded_ℕ, coded_list, coded×};

    ghost Value = { List (Number × List (List Number)) };

    ghost coded = { coded_list (coded× coded_ℕ (coded_list (coded_list coded_ℕ))) };

    ghost view = { λ a. a.all.items };
}

impl Logs {
    /// No replica took anything.
    pub fn new(alloc: Global) -> Logs
        ensures { result ≡ [] }
    {
        Logs {
            alloc,
            all: Vec::new(alloc),
        }
    }

    /// A batch with that key was first taken at a replica, behind so many. An `Err` is for want of
    /// memory.
    pub fn push(&mut self, at: usize, count: u64, key: &[u8]) -> Result<(), AllocError>
        ensures { OnOk result (IsPushed at count key.now self.old self.new) }
    {
        let key = Key::new(self.alloc, key)?;
        self.extend(at)?;
        self.all[at].push(self.alloc, count, key)
    }

    /// The keys of what those with the second counts have and those with the first lack, if all of
    /// them are kept, and are few beside what those have. An `Err` is for want of memory.
    pub fn keys_between(
        &self,
        mine: &[u64],
        theirs: &[u64],
    ) -> Result<Option<Vec<&Key>>, AllocError>
        ensures { IfOk result (λ keys. IfSome keys (λ keys. AreKeysBetween self.now mine.now theirs.now (map (λ k. k.now) keys.items))) }
    {
        if !are_few(mine, theirs) {
            return Ok(None);
        }
        let mut keys = Vec::new(self.alloc);
        for at in 0..theirs.len() {
            let own = count(mine, at);
            let all = self.add_keys(at, own, theirs[at], &mut keys)?;
            if !all {
                return Ok(None);
            }
        }
        Ok(Some(keys))
    }

    // Adds the keys of the batches of a replica from one number up to another, if all are kept.
    fn add_keys<'a>(
        &'a self,
        at: usize,
        from: u64,
        to: u64,
        keys: &mut Vec<&'a Key>,
    ) -> Result<bool, AllocError>
        ensures kept { OnOk result ((key : List ℕ) → Contains (map (λ k. k.now) keys.old.items) key → Contains (map (λ k. k.now) keys.new.items) key) }
        ensures all { IfOk result (λ all. all ≡ true → HasKeys (log_at at self.now) from to (map (λ k. k.now) keys.new.items)) }
    {
        match self.all.get(at) {
            None => Ok(to <= from),
            Some(log) => log.add_keys(from, to, keys),
        }
    }

    // Adds empty logs, until there is one of that number.
    #[tactic(auto, using(crate::proofs::Reading::push_reads))]
    fn extend(&mut self, at: usize) -> Result<(), AllocError>
        ensures same { OnOk result ((j : ℕ) → log_at j self.new ≡ log_at j self.old) }
        ensures long { OnOk result (at < length self.new) }
    {
        let Some(missing) = at.checked_sub(self.all.len()) else {
            return Ok(());
        };
        self.all.push(Log::new(self.alloc))?;
        for _ in 0..missing {
            self.all.push(Log::new(self.alloc))?;
        }
        Ok(())
    }
}

// Whether what those with the first counts lack is few beside what they have.
fn are_few(mine: &[u64], theirs: &[u64]) -> bool {
    let mut held: u64 = 0;
    let mut lacking: u64 = 0;
    for at in 0..theirs.len() {
        let own = count(mine, at);
        held = held.saturating_add(own);
        lacking = lacking.saturating_add(theirs[at].saturating_sub(own));
    }
    lacking <= held / FEW
}
