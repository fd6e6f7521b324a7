//! The names of one block.
ghost use Rattle.std.specs.Prelude.{◌≡◌, ◌++◌, ◌∷◌, List, [], None, OnOk, OnErr, option_copied};
ghost use Rattle.std.specs.Map.{lookup};
ghost use Rattle.std.specs.Str.{bytes_eq};

use indexmap::IndexMap;
use std::alloc::{AllocError, Global};
use std::marker::Model;

/// The names that a block declares, with what they stand for, in order of declaration.
#[derive(Drop)]
pub(crate) struct Block<T: Drop> {
    names: IndexMap<String, T>,
}

impl<T: Drop> Model for Block<T> {
    ghost use Rattle.std.specs.Prelude.{map};
    ghost use Rattle.go_scope.specs.Blocks.{named_entry};
    ghost use Rattle.go_scope.specs.Scopes as scopes;

    ghost Value = { scopes.BlockNames T };

    ghost view = { λ a. map named_entry a.names.entries };
}

impl<T: Drop> Block<T> {
    /// A block that declares nothing.
    pub(crate) fn new(alloc: Global) -> Block<T>
        ensures { result ≡ [] }
    {
        Block {
            names: IndexMap::new(alloc),
        }
    }

    /// What a name stands for.
    pub(crate) fn get(&self, name: &str) -> Option<&T>
        ensures { option_copied result ≡ lookup (bytes_eq name.now) self.now }
    {
        self.names.get(name)
    }

    /// Adds a name that the block hasn't.
    pub(crate) fn add(&mut self, alloc: Global, name: &str, value: T) -> Result<(), AllocError>
        requires { lookup (bytes_eq name.now) self.old ≡ None }
        ensures ok { OnOk result (self.new ≡ self.old ++ (name.now, value) ∷ []) }
        ensures err { OnErr result (self.new ≡ self.old) }
    {
        let name = String::from_str(alloc, name)?;
        self.names.insert(name, value)?;
        Ok(())
    }
}
