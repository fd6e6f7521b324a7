//! Names by their numbers, for lists in which each name is compared with the others.
ghost use Rattle.std.specs.Prelude.{◌≡◌, ◌++◌, ◌∷◌, [], position, IfOk, OnOk, OnErr};
ghost use Rattle.std.specs.Str.{bytes_eq};

use indexmap::IndexMap;
use std::alloc::{AllocError, Global};
use std::marker::Model;

/// A list of names, in which the first of a text is found without a walk.
#[derive(Drop)]
pub struct NameIndex<'a> {
    names: Vec<&'a str>,
    firsts: IndexMap<&'a str, usize>,
}

impl<'a> Model for NameIndex<'a> {
    ghost use Rattle.std.specs.Prelude.{ℕ, List, map};
    ghost use Rattle.go_scope.specs.Index.{AreFirsts};

    ghost Value = { List (List ℕ) };

    ghost view = { λ a. map (λ n. n.now) a.names.items };

    ghost invariant = { λ a. AreFirsts a.firsts.entries (map (λ n. n.now) a.names.items) };
}

impl<'a> NameIndex<'a> {
    /// A list of no names.
    pub fn new(alloc: Global) -> NameIndex<'a>
        ensures { result ≡ [] }
    {
        NameIndex {
            names: Vec::new(alloc),
            firsts: IndexMap::new(alloc),
        }
    }

    /// The number of the first name of a text, counted from 0, if one is there.
    pub fn get(&self, name: &str) -> Option<usize>
        ensures { result ≡ position (bytes_eq name.now) self.now }
    {
        self.firsts.get(name).copied()
    }

    /// Adds a name as the last. Answers the number of the first name of its text that was there
    /// before, if one was. An `Err` only where memory ran out.
    pub fn insert(&mut self, name: &'a str) -> Result<Option<usize>, AllocError>
        ensures first { IfOk result (λ n. n ≡ position (bytes_eq name.now) self.old) }
        ensures ok { OnOk result (self.new ≡ self.old ++ name.now ∷ []) }
        ensures err { OnErr result (self.new ≡ self.old) }
    {
        let first = self.get(name);
        let number = self.names.len();
        self.names.push(name)?;
        if first.is_some() {
            return Ok(first);
        }
        match self.firsts.insert(name, number) {
            Ok(_) => Ok(None),
            Err(_) => {
                self.names.pop();
                Err(AllocError)
            }
        }
    }
}
