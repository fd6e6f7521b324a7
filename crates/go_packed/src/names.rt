//! Names by their numbers.
ghost use Rattle.std.specs.Prelude.{◌≡◌, ℕ, List, [], ◌++◌, map, Some, true, IfOk, slice_get};

use std::alloc::{AllocError, Global};
use std::collections::BTreeMap;
use std::marker::Model;

/// Names, each of which stands once. What the map says is looked up before it is believed.
#[derive(Drop)]
pub(crate) struct Names<'a> {
    all: Vec<&'a str>,
    numbers: BTreeMap<&'a str, usize>,
}

impl<'a> Model for Names<'a> {
    ghost use Rattle.std.specs.Prelude.{ℕ, List, map};

    ghost Value = { List (List ℕ) };

    ghost view = { λ a. map (λ n. n.now) a.all.items };
}

impl<'a> Names<'a> {
    /// No names.
    pub(crate) fn new(alloc: Global) -> Names<'a>
        ensures { result ≡ [] }
    {
        Names {
            all: Vec::new(alloc),
            numbers: BTreeMap::new(alloc),
        }
    }

    /// The names, by number.
    pub(crate) fn all(&self) -> &[&'a str]
        ensures { map (λ n. n.now) result.now ≡ self.now }
    {
        self.all.as_slice()
    }

    /// Whether this is the name of a number.
    fn is_at(&self, number: usize, name: &str) -> bool
        ensures { result ≡ true → slice_get self.now number ≡ Some name.now }
    {
        match self.all.get(number) {
            Some(held) => *held == name,
            None => false,
        }
    }

    /// The number of a name. One that isn't there yet comes behind the others.
    pub(crate) fn number(&mut self, name: &'a str) -> Result<usize, AllocError>
        ensures there { IfOk result (λ number. slice_get self.new number ≡ Some name.now) }
        ensures more { (more : List (List ℕ)) × (self.new ≡ self.old ++ more) }
    {
        if let Some(number) = self.numbers.get(&name).copied() {
            if self.is_at(number, name) {
                return Ok(number);
            }
        }
        let number = self.all.len();
        self.all.push(name)?;
        self.numbers.insert(name, number)?;
        Ok(number)
    }
}
