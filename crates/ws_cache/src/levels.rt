//! Maps of which each may hold four times as much as the one before.

ghost use Rattle.std.specs.Prelude.{◌≡◌, ◌<◌, ◌≤◌, length, OnOk, OnErr, IfOk, option_copied};
ghost use Rattle.std.specs.FinMap as map;
ghost use Rattle.ws_map.specs.Greater.{greater};
ghost use Rattle.ws_map.specs.Kept.{joined};
ghost use Rattle.ws_cache.specs.Levels.{joined_all};

use crate::layers::{count_of, greater_of};
use std::alloc::{AllocError, Global};
use std::marker::Model;
use std::mem;
use ws_map::{Key, Ranked, SharedMap};

/// How much the first level may hold.
const FIRST: usize = 64;

/// How many times as much each level may hold as the one before.
const GROWTH: usize = 4;

/// The greatest value of each key that any of the levels holds. Copies share each level. What is
/// added goes into the first level; one that is full goes into the next one before. So of n values
/// each is cloned some log n times, where copies are made all the while (Bentley and Saxe,
/// Decomposable searching problems, 1980).
#[derive(Drop)]
pub(crate) struct Levels<K: Key, V: Ranked> {
    alloc: Global,
    all: Vec<SharedMap<K, V>>,
}

impl<K: Key, V: Ranked> Model for Levels<K, V> {
    ghost use Rattle.std.specs.FinMap as finite;
    ghost use Rattle.std.specs.Coded.{coded_ℕ, coded_list};
    ghost use Rattle.ws_map.specs.Greater.{greater};
    ghost use Rattle.ws_map.specs.Keyed.{bytes_cmp};
    ghost use Rattle.ws_cache.specs.Levels.{joined_all};

    ghost Value = { finite.FinMap bytes_cmp V };

    ghost coded = { finite.code (coded_list coded_ℕ) V.code };

    ghost view = { λ a. joined_all (greater V.rank) a.all.items };
}

impl<K: Key, V: Ranked> Levels<K, V> {
    /// Nothing at any key.
    pub(crate) fn new(alloc: Global) -> Levels<K, V>
        ensures { result ≡ map.empty }
    {
        Levels {
            alloc,
            all: Vec::new(alloc),
        }
    }

    /// What is held at a key.
    pub(crate) fn get(&self, key: &K) -> Option<&V>
        ensures { option_copied result ≡ map.get self.now (K.bytes key.now) }
    {
        let mut found = None;
        for level in &self.all {
            found = greater_of(found, level.get(key));
        }
        found
    }

    /// Another owner of all levels. An `Err` only where memory ran out.
    pub(crate) fn copy(&self) -> Result<Levels<K, V>, AllocError>
        ensures { IfOk result (λ copy. copy ≡ self.now) }
    {
        let mut all = Vec::with_capacity(self.alloc, self.all.len())?;
        for level in &self.all {
            all.push(level.copy()?)?;
        }
        Ok(Levels {
            alloc: self.alloc,
            all,
        })
    }

    /// Takes what a map holds. An `Err`, for want of memory, changes nothing.
    pub(crate) fn add(&mut self, news: &SharedMap<K, V>) -> Result<(), AllocError>
        ensures ok { OnOk result (self.new ≡ joined (greater V.rank) self.old news.now) }
        ensures err { OnErr result (self.new ≡ self.old) }
    {
        make_room(self.alloc, &mut self.all)?;
        merge_at(self.alloc, &mut self.all, 0, news)
    }

    /// Takes what others hold, level by level. An `Err`, for want of memory, changes nothing.
    pub(crate) fn merge(&mut self, others: &Levels<K, V>) -> Result<(), AllocError>
        ensures ok { OnOk result (self.new ≡ joined (greater V.rank) self.old others.now) }
        ensures err { OnErr result (self.new ≡ self.old) }
    {
        let mut both = self.copy()?;
        merge_all(self.alloc, &mut both.all, others.all.as_slice())?;
        *self = both;
        Ok(())
    }
}

// Adds empty levels, until there is one of that number.
fn extend<K: Key, V: Ranked>(
    alloc: Global,
    levels: &mut Vec<SharedMap<K, V>>,
    at: usize,
) -> Result<(), AllocError>
    ensures same { joined_all (greater V.rank) levels.new.items ≡ joined_all (greater V.rank) levels.old.items }
    ensures kept { length levels.old.items ≤ length levels.new.items }
    ensures long { OnOk result (at < length levels.new.items) }
{
    let Some(missing) = at.checked_sub(levels.len()) else {
        return Ok(());
    };
    levels.push(SharedMap::new(alloc))?;
    for _ in 0..missing {
        levels.push(SharedMap::new(alloc))?;
    }
    Ok(())
}

// A level takes what a map holds. An `Err`, for want of memory, changes nothing of what they hold.
fn merge_at<K: Key, V: Ranked>(
    alloc: Global,
    levels: &mut Vec<SharedMap<K, V>>,
    at: usize,
    map: &SharedMap<K, V>,
) -> Result<(), AllocError>
    ensures ok { OnOk result (joined_all (greater V.rank) levels.new.items ≡ joined (greater V.rank) (joined_all (greater V.rank) levels.old.items) map.now) }
    ensures err { OnErr result (joined_all (greater V.rank) levels.new.items ≡ joined_all (greater V.rank) levels.old.items) }
{
    extend(alloc, levels, at)?;
    levels[at].merge(map)?;
    Ok(())
}

// Each takes what the other of its number holds. An `Err` may leave some taken.
fn merge_all<K: Key, V: Ranked>(
    alloc: Global,
    levels: &mut Vec<SharedMap<K, V>>,
    others: &[SharedMap<K, V>],
) -> Result<(), AllocError>
    ensures { OnOk result (joined_all (greater V.rank) levels.new.items
        ≡ joined (greater V.rank) (joined_all (greater V.rank) levels.old.items) (joined_all (greater V.rank) others.now)) }
{
    for at in 0..others.len() {
        merge_at(alloc, levels, at, &others[at])?;
    }
    Ok(())
}

// The number of the first level that isn't full, or of the one behind the last.
fn first_with_room<K: Key, V: Ranked>(levels: &[SharedMap<K, V>]) -> usize
    ensures { result ≤ length levels.now }
{
    let mut room = FIRST;
    for at in 0..levels.len() {
        if count_of(&levels[at]) < room {
            return at;
        }
        room = room.saturating_mul(GROWTH);
    }
    levels.len()
}

// Makes room in the first level: each full one before the first with room goes into the next one,
// the last of them first.
fn make_room<K: Key, V: Ranked>(
    alloc: Global,
    levels: &mut Vec<SharedMap<K, V>>,
) -> Result<(), AllocError>
    ensures { joined_all (greater V.rank) levels.new.items ≡ joined_all (greater V.rank) levels.old.items }
{
    let full = first_with_room(levels.as_slice());
    for done in 0..full {
        sink(alloc, levels, full - 1 - done)?;
    }
    Ok(())
}

// A level goes into the next one. An `Err`, for want of memory, leaves it.
fn sink<K: Key, V: Ranked>(
    alloc: Global,
    levels: &mut Vec<SharedMap<K, V>>,
    at: usize,
) -> Result<(), AllocError>
    requires { at < length levels.old.items }
    ensures same { joined_all (greater V.rank) levels.new.items ≡ joined_all (greater V.rank) levels.old.items }
    ensures kept { length levels.old.items ≤ length levels.new.items }
{
    extend(alloc, levels, at + 1)?;
    let full = mem::replace(&mut levels[at], SharedMap::new(alloc));
    match levels[at + 1].merge(&full) {
        Ok(()) => Ok(()),
        Err(refused) => {
            levels[at] = full;
            Err(refused)
        }
    }
}
