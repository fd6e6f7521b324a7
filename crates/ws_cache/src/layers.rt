//! Maps that keep the greatest value of each key, in layers that copies share.

ghost use Rattle.std.specs.Prelude.{◌≡◌, OnOk, OnErr, IfOk, IfErr, option_copied};
ghost use Rattle.std.specs.FinMap as map;
ghost use Rattle.ws_map.specs.Greater.{greater, joined_option};
ghost use Rattle.ws_map.specs.Kept.{joined, taken, is_news};

use crate::levels::Levels;
use std::alloc::{AllocError, Global};
use std::marker::Model;
use ws_map::{Key, Ranked, SharedMap};

/// The greatest value of each key. Copies share all layers. A value that is put goes into the news,
/// so that these alone are cloned where copies share them; where they have become many they go into
/// the levels below.
#[derive(Drop)]
pub struct Layers<K: Key, V: Ranked> {
    alloc: Global,
    base: Levels<K, V>,
    news: SharedMap<K, V>,
}

impl<K: Key, V: Ranked> Model for Layers<K, V> {
    ghost use Rattle.std.specs.FinMap as finite;
    ghost use Rattle.std.specs.Coded.{coded_ℕ, coded_list};
    ghost use Rattle.ws_map.specs.Greater.{greater};
    ghost use Rattle.ws_map.specs.Kept.{joined};
    ghost use Rattle.ws_map.specs.Keyed.{bytes_cmp};

    ghost Value = { finite.FinMap bytes_cmp V };

    ghost coded = { finite.code (coded_list coded_ℕ) V.code };

    ghost view = { λ a. joined (greater V.rank) a.base a.news };
}

impl<K: Key, V: Ranked> Layers<K, V> {
    /// Nothing at any key.
    pub fn new(alloc: Global) -> Layers<K, V>
        ensures { result ≡ map.empty }
    {
        Layers {
            alloc,
            base: Levels::new(alloc),
            news: SharedMap::new(alloc),
        }
    }

    /// What is held at a key.
    pub fn get(&self, key: &K) -> Option<&V>
        ensures { option_copied result ≡ map.get self.now (K.bytes key.now) }
    {
        greater_of(self.base.get(key), self.news.get(key))
    }

    /// Takes a value: it is kept if it is above what is held at its key. An `Err`, for want of
    /// memory, gives the value back and changes nothing.
    pub fn take(&mut self, key: K, value: V) -> Result<(), V>
        ensures ok { OnOk result (self.new ≡ taken (greater V.rank) self.old (K.bytes key) value) }
        ensures back { IfErr result (λ back. back ≡ value) }
        ensures err { OnErr result (self.new ≡ self.old) }
    {
        // What the levels have is no news, and needs no clone of them.
        if !self.is_news(&key, &value) {
            return Ok(());
        }
        self.news.take(key, value)?;
        self.fold_news();
        Ok(())
    }

    /// Another owner of all layers. An `Err` only where memory ran out.
    pub fn copy(&self) -> Result<Layers<K, V>, AllocError>
        ensures { IfOk result (λ copy. copy ≡ self.now) }
    {
        let base = self.base.copy()?;
        let news = self.news.copy()?;
        Ok(Layers {
            alloc: self.alloc,
            base,
            news,
        })
    }

    /// Takes all that the other holds. An `Err`, for want of memory, changes nothing.
    pub fn merge(&mut self, other: &Layers<K, V>) -> Result<(), AllocError>
        ensures ok { OnOk result (self.new ≡ joined (greater V.rank) self.old other.now) }
        ensures err { OnErr result (self.new ≡ self.old) }
    {
        // The few news go into a copy, so that an `Err` of the levels changes nothing.
        let mut news = self.news.copy()?;
        news.merge(&other.news)?;
        self.base.merge(&other.base)?;
        self.news = news;
        self.fold_news();
        Ok(())
    }

    fn is_news(&self, key: &K, value: &V) -> bool
        ensures { result ≡ is_news V.rank (map.get self.now (K.bytes key.now)) value.now }
    {
        match self.get(key) {
            None => true,
            Some(old) => old.is_below(value),
        }
    }

    // Where the news are many they go into the levels; where memory is wanting for it they stay.
    fn fold_news(&mut self)
        ensures { self.new ≡ self.old }
    {
        if count_of(&self.news) < MANY {
            return;
        }
        let Ok(()) = self.base.add(&self.news) else {
            return;
        };
        self.news = SharedMap::new(self.alloc);
    }
}

// The greater of two that may be missing.
pub(crate) fn greater_of<'a, V: Ranked>(held: Option<&'a V>, other: Option<&'a V>) -> Option<&'a V>
    ensures { option_copied result ≡ joined_option (greater V.rank) (option_copied held.entry) (option_copied other.entry) }
{
    let Some(first) = held else {
        return other;
    };
    let Some(second) = other else {
        return Some(first);
    };
    if first.is_below(second) {
        Some(second)
    } else {
        Some(first)
    }
}

pub(crate) fn count_of<K: Key, V: Ranked>(layer: &SharedMap<K, V>) -> usize {
    match layer.map() {
        None => 0,
        Some(entries) => entries.len(),
    }
}

// How many news are many: each put clones them where copies are made all the while.
const MANY: usize = 16;
