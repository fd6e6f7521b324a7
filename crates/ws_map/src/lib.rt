//! Maps that keep the greatest value of each key, and that copies share.
#![tactic(auto)]

ghost use Rattle.std.specs.Prelude.{◌≡◌, ℕ, List, map as mapped, OnOk, OnErr, IfOk, IfErr, IfSome, MatchOption, option_copied, true};
ghost use Rattle.std.specs.declared.cmp.Ordering.{Ordering as AnOrdering};
ghost use Rattle.std.specs.Arc.{arc_value};
ghost use Rattle.std.specs.FinMap as map;
ghost use Rattle.std.specs.FinMap.{IsAntisymmetric};
ghost use Rattle.std.specs.Cmp.{IsTotalOrder};
ghost use Rattle.std.specs.List.{Contains};
ghost use Rattle.std.specs.Ordering.{is_lt};
ghost use Rattle.std.specs.BTreeMap.{IsOrdered};
ghost use Rattle.ws_map.specs.Greater.{greater};
ghost use Rattle.ws_map.specs.Kept.{joined, taken, is_news, gathered};
ghost use Rattle.ws_map.specs.Keyed.{bytes_cmp, keyed, by_key, StandsAtBytes};
ghost use Rattle.ws_map.specs.Undone.{put_back, undone};

use std::alloc::{AllocError, Global};
use std::cmp::Ordering;
use std::collections::BTreeMap;
use std::collections::btree_map::Iter;
use std::marker::Model;
use std::sync::Arc;

/// A key, which stands for its bytes and is ordered by them.
pub trait Key: Ord + Clone + Drop {
    ghost bytes: { Self → List ℕ };

    ghost ordered: { (a b : Self) → Self.cmp a b ≡ bytes_cmp (bytes a) (bytes b) };

    ghost cloned: { (a b : Self) → Self.is_clone a b → bytes b ≡ bytes a };
}

impl Key for String {
    ghost use Rattle.std.specs.Prelude.{string_bytes, refl};

    ghost bytes = { string_bytes };

    ghost ordered = { λ a b. refl };

    ghost cloned = { λ a b same. same };
}

impl<const N: usize> Key for [u8; N] {
    ghost use Rattle.std.specs.Prelude.{refl};
    ghost use Rattle.ws_map.specs.Laws.{same_bytes};

    ghost bytes = { λ a. a };

    ghost ordered = { λ a b. refl };

    ghost cloned = { same_bytes };
}

/// A value, of which the greatest is kept for each key.
pub trait Ranked: Clone + Drop {
    ghost rank: { Self → Self → AnOrdering };

    /// Whether the other is the greater.
    fn is_below(&self, other: &Self) -> bool
        ensures { result ≡ is_lt (rank self.now other.now) };

    ghost total: { IsTotalOrder rank };

    ghost one: { IsAntisymmetric rank };

    ghost cloned: { (a b : Self) → Self.is_clone a b → b ≡ a };
}

/// The greatest value of each key, in the order of the keys. Copies share one map until they
/// change; where nothing was ever held there is none.
#[derive(Drop)]
pub struct SharedMap<K: Key, V: Ranked> {
    alloc: Global,
    shared: Option<Arc<BTreeMap<K, V>>>,
}

impl<K: Key, V: Ranked> Model for SharedMap<K, V> {
    ghost use Rattle.std.specs.FinMap as finite;
    ghost use Rattle.std.specs.Coded.{coded_ℕ, coded_list};
    ghost use Rattle.std.specs.Prelude.{option_map};
    ghost use Rattle.std.specs.Arc.{arc_value};
    ghost use Rattle.ws_map.specs.Keyed.{bytes_cmp, contents_of};

    ghost Value = { finite.FinMap bytes_cmp V };

    ghost coded = { finite.code (coded_list coded_ℕ) V.code };

    ghost view = { λ a. contents_of K.bytes (option_map arc_value a.shared) };
}

impl<K: Key, V: Ranked> SharedMap<K, V> {
    /// Nothing at any key.
    pub fn new(alloc: Global) -> SharedMap<K, V>
        ensures { result ≡ map.empty }
    {
        SharedMap {
            alloc,
            shared: None,
        }
    }

    /// The map, and none where nothing was ever held.
    pub fn map(&self) -> Option<&BTreeMap<K, V>>
        ensures { MatchOption result (self.now ≡ map.empty) (λ entries. by_key K.bytes entries.now.entries ≡ self.now) }
    {
        match &self.shared {
            None => None,
            Some(shared) => Some(shared),
        }
    }

    /// What is held at a key.
    pub fn get(&self, key: &K) -> Option<&V>
        ensures { option_copied result ≡ map.get self.now (K.bytes key.now) }
    {
        self.map()?.get(key)
    }

    /// Takes a value: it is kept if it is above what is held at its key. An `Err`, for want of
    /// memory, gives the value back and changes nothing.
    pub fn take(&mut self, key: K, value: V) -> Result<(), V>
        ensures ok { OnOk result (self.new ≡ taken (greater V.rank) self.old (K.bytes key) value) }
        ensures back { IfErr result (λ back. back ≡ value) }
        ensures err { OnErr result (self.new ≡ self.old) }
    {
        if !self.is_news(&key, &value) {
            return Ok(());
        }
        self.insert(key, value)?;
        Ok(())
    }

    /// Another owner of the map. An `Err` only where memory ran out.
    pub fn copy(&self) -> Result<SharedMap<K, V>, AllocError>
        ensures { IfOk result (λ copy. copy ≡ self.now) }
    {
        let shared = match &self.shared {
            None => None,
            Some(shared) => Some(Arc::try_clone(shared)?),
        };
        Ok(SharedMap {
            alloc: self.alloc,
            shared,
        })
    }

    /// Takes all that the other holds. An `Err`, for want of memory, changes nothing.
    pub fn merge(&mut self, other: &SharedMap<K, V>) -> Result<(), AllocError>
        ensures ok { OnOk result (self.new ≡ joined (greater V.rank) self.old other.now) }
        ensures err { OnErr result (self.new ≡ self.old) }
    {
        let Some(others) = &other.shared else {
            return Ok(());
        };
        match &mut self.shared {
            Some(shared) => merge_shared(self.alloc, shared, others),
            None => {
                self.shared = Some(Arc::try_clone(others)?);
                Ok(())
            }
        }
    }

    fn is_news(&self, key: &K, value: &V) -> bool
        ensures { result ≡ is_news V.rank (map.get self.now (K.bytes key.now)) value.now }
    {
        is_above(self.get(key), value)
    }

    // In the place of what was held at the key.
    fn insert(&mut self, key: K, value: V) -> Result<(), V>
        ensures ok { OnOk result (self.new ≡ map.insert self.old (K.bytes key) value) }
        ensures back { IfErr result (λ back. back ≡ value) }
        ensures err { OnErr result (self.new ≡ self.old) }
    {
        match &mut self.shared {
            Some(shared) => insert_shared(shared, key, value),
            None => {
                self.shared = Some(first_shared(self.alloc, key, value)?);
                Ok(())
            }
        }
    }
}

// Whether a value is above what is held.
fn is_above<V: Ranked>(held: Option<&V>, value: &V) -> bool
    ensures { result ≡ is_news V.rank (option_copied held.entry) value.now }
{
    match held {
        None => true,
        Some(old) => old.is_below(value),
    }
}

// A map that holds a value at one key. An `Err`, for want of memory, gives the value back.
fn first_shared<K: Key, V: Ranked>(
    alloc: Global,
    key: K,
    value: V,
) -> Result<Arc<BTreeMap<K, V>>, V>
    ensures ok { IfOk result (λ shared. by_key K.bytes (arc_value shared).entries ≡ map.insert map.empty (K.bytes key) value) }
    ensures back { IfErr result (λ back. back ≡ value) }
{
    let Ok(mut shared) = Arc::new(alloc, BTreeMap::new(alloc)) else {
        return Err(value);
    };
    insert_shared(&mut shared, key, value)?;
    Ok(shared)
}

// Holds a value at a key, in a map of one's own: where others share it, in a clone of it. An
// `Err`, for want of memory, gives the value back.
fn insert_shared<K: Key, V: Ranked>(
    shared: &mut Arc<BTreeMap<K, V>>,
    key: K,
    value: V,
) -> Result<(), V>
    ensures ok { OnOk result (by_key K.bytes (arc_value shared.new).entries ≡ map.insert (by_key K.bytes (arc_value shared.old).entries) (K.bytes key) value) }
    ensures back { IfErr result (λ back. back ≡ value) }
    ensures err { OnErr result (by_key K.bytes (arc_value shared.new).entries ≡ by_key K.bytes (arc_value shared.old).entries) }
{
    let Ok(entries) = Arc::make_mut(shared) else {
        return Err(value);
    };
    match entries.insert(key, value) {
        Ok(_) => Ok(()),
        Err(failed) => {
            let (_, back) = failed.value;
            Err(back)
        }
    }
}

// Takes all that the others hold. An `Err`, for want of memory, changes nothing.
fn merge_shared<K: Key, V: Ranked>(
    alloc: Global,
    shared: &mut Arc<BTreeMap<K, V>>,
    others: &Arc<BTreeMap<K, V>>,
) -> Result<(), AllocError>
    ensures ok { OnOk result (by_key K.bytes (arc_value shared.new).entries ≡ joined (greater V.rank) (by_key K.bytes (arc_value shared.old).entries) (by_key K.bytes (arc_value others.now).entries)) }
    ensures err { OnErr result (by_key K.bytes (arc_value shared.new).entries ≡ by_key K.bytes (arc_value shared.old).entries) }
{
    // What brings no news changes nothing, and what is all news is shared: neither costs a clone.
    if are_known(shared, others) {
        return Ok(());
    }
    if are_known(others, shared) {
        *shared = Arc::try_clone(others)?;
        return Ok(());
    }
    merge_entries(alloc, Arc::make_mut(shared)?, others)
}

// Takes copies of what is news among the entries. An `Err`, for want of memory, changes nothing.
fn merge_entries<K: Key, V: Ranked>(
    alloc: Global,
    mine: &mut BTreeMap<K, V>,
    entries: &BTreeMap<K, V>,
) -> Result<(), AllocError>
    ensures ok { OnOk result (by_key K.bytes mine.new.entries ≡ joined (greater V.rank) (by_key K.bytes mine.old.entries) (by_key K.bytes entries.now.entries)) }
    ensures err { OnErr result (mine.new.entries ≡ mine.old.entries) }
{
    let mut done = Vec::new(alloc);
    match take_entries(mine, entries, &mut done) {
        Ok(()) => Ok(()),
        Err(refused) => {
            undo(mine, done);
            Err(refused)
        }
    }
}

// A key at which a value was put, and what was held there before.
#[derive(Drop)]
struct Put<'a, K, V> {
    key: &'a K,
    before: Option<V>,
}

// Takes copies of what is news among the entries, and adds what was done to the list. After an
// `Err` some may be taken, and some not.
fn take_entries<'a, K: Key, V: Ranked>(
    mine: &mut BTreeMap<K, V>,
    entries: &'a BTreeMap<K, V>,
    done: &mut Vec<Put<'a, K, V>>,
) -> Result<(), AllocError>
    ensures ok { OnOk result (by_key K.bytes mine.new.entries ≡ gathered (greater V.rank) (by_key K.bytes mine.old.entries) (keyed K.bytes entries.now.entries)) }
    ensures ordered { IsOrdered K.cmp entries.now }
    ensures undone { undone K.cmp (mapped (λ put. (put.key.now, put.before)) done.new.items) mine.new.entries ≡ undone K.cmp (mapped (λ put. (put.key.now, put.before)) done.old.items) mine.old.entries }
{
    for (key, value) in entries {
        if is_above(mine.get(key), value) {
            put_copy(mine, key, value, done)?;
        }
    }
    Ok(())
}

// Puts a copy of a value at a key, and adds what was done to the list.
fn put_copy<'a, K: Key, V: Ranked>(
    mine: &mut BTreeMap<K, V>,
    key: &'a K,
    value: &V,
    done: &mut Vec<Put<'a, K, V>>,
) -> Result<(), AllocError>
    ensures ok { OnOk result (by_key K.bytes mine.new.entries ≡ map.insert (by_key K.bytes mine.old.entries) (K.bytes key.now) value.now) }
    ensures undone { undone K.cmp (mapped (λ put. (put.key.now, put.before)) done.new.items) mine.new.entries ≡ undone K.cmp (mapped (λ put. (put.key.now, put.before)) done.old.items) mine.old.entries }
{
    // The list has room first, so that nothing is done that it doesn't tell.
    done.reserve(1)?;
    let before = mine.insert(key.clone()?, value.clone()?)?;
    done.push(Put { key, before })?;
    Ok(())
}

// Takes back what was done, the last first.
fn undo<K: Key, V: Ranked>(mine: &mut BTreeMap<K, V>, done: Vec<Put<'_, K, V>>)
    ensures { mine.new.entries ≡ undone K.cmp (mapped (λ put. (put.key.now, put.before)) done.entry.items) mine.old.entries }
{
    let mut rest = done;
    while let Some(put) = rest.pop() {
        put_back(mine, put);
    }
}

// Puts back what was held at the key.
fn put_back<K: Key, V: Ranked>(mine: &mut BTreeMap<K, V>, put: Put<'_, K, V>)
    ensures { mine.new.entries ≡ put_back K.cmp put.entry.key.now put.entry.before mine.old.entries }
{
    let Put { key, before } = put;
    let Some(value) = before else {
        mine.remove(key);
        return;
    };
    if let Some(place) = mine.get_mut(key) {
        *place = value;
    }
}

// What the next of the entries holds that stands at a key; those before it are passed over.
fn next_at<'a, K: Key, V: Ranked>(rest: &mut Iter<'a, K, V>, key: &K) -> Option<&'a V>
    ensures found { IfSome result (λ value. StandsAtBytes K.bytes rest.old (K.bytes key.now) value.now) }
    ensures left { (e : _) → Contains rest.new e → Contains rest.old e }
{
    'rest: while let Some((at, value)) = rest.next() {
        match at.cmp(key) {
            Ordering::Equal => return Some(value),
            _ => {}
        }
    }
    None
}

// How many times the others are more where a look-up of each entry beats a walk.
const FEW: usize = 16;

// Whether none of the entries is news to others. It may answer no where one is not there.
fn are_known<K: Key, V: Ranked>(others: &BTreeMap<K, V>, entries: &BTreeMap<K, V>) -> bool
    ensures { result ≡ true → joined (greater V.rank) (by_key K.bytes others.now.entries) (by_key K.bytes entries.now.entries) ≡ by_key K.bytes others.now.entries }
{
    // Fewer can't hold all the keys.
    if others.len() < entries.len() {
        return false;
    }
    if entries.len() < others.len() / FEW {
        return are_found(others, entries);
    }
    are_passed(others, entries)
}

// Whether none of the entries is news to others, by a look-up of each.
fn are_found<K: Key, V: Ranked>(others: &BTreeMap<K, V>, entries: &BTreeMap<K, V>) -> bool
    ensures known { result ≡ true → gathered (greater V.rank) (by_key K.bytes others.now.entries) (keyed K.bytes entries.now.entries) ≡ by_key K.bytes others.now.entries }
    ensures ordered { IsOrdered K.cmp entries.now }
{
    for (key, value) in entries {
        if is_above(others.get(key), value) {
            return false;
        }
    }
    true
}

// Whether none of the entries is news to others. Both are in order, so that one walk does.
fn are_passed<K: Key, V: Ranked>(others: &BTreeMap<K, V>, entries: &BTreeMap<K, V>) -> bool
    ensures known { result ≡ true → gathered (greater V.rank) (by_key K.bytes others.now.entries) (keyed K.bytes entries.now.entries) ≡ by_key K.bytes others.now.entries }
    ensures ordered { IsOrdered K.cmp entries.now }
{
    let mut rest = others.iter();
    for (key, value) in entries {
        let Some(old) = next_at(&mut rest, key) else {
            return false;
        };
        if old.is_below(value) {
            return false;
        }
    }
    true
}
