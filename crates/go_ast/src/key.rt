//! Keys of elements.
ghost use Rattle.std.specs.Prelude.{◌≡◌, None, Some, IfOk, option_copied};

use crate::name::Name;
use std::alloc::{AllocError, Global};
use std::marker::Model;

/// The name in front of an element's value, or none. It has a block of its own: of many elements
/// few have one.
#[derive(Drop)]
pub struct Key {
    name: Option<Box<Name>>,
}

impl Model for Key {
    ghost use Rattle.std.specs.Prelude.{Option};
    ghost use Rattle.go_ast.specs.Keyed.{kept_name};
    ghost use Rattle.go_ast.specs.Trees as trees;

    ghost Value = { Option trees.Name };

    ghost view = { λ a. kept_name a.name };
}

fn unboxed(name: &Box<Name>) -> &Name
    ensures { result.now ≡ name.now.value }
{
    name
}

impl Key {
    /// No key.
    pub fn none() -> Key
        ensures { result ≡ None }
    {
        Key { name: None }
    }

    /// A name as a key. An `Err` only where memory ran out.
    pub fn new(alloc: Global, name: Name) -> Result<Key, AllocError>
        ensures { IfOk result (λ key. key ≡ Some name) }
    {
        let name = Box::new(alloc, name)?;
        Ok(Key { name: Some(name) })
    }

    /// The name, if there is one.
    pub fn name(&self) -> Option<&Name>
        ensures { option_copied result ≡ self.now }
    {
        match &self.name {
            Some(name) => Some(unboxed(name)),
            None => None,
        }
    }
}
