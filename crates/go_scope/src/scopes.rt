//! What names stand for in the blocks of a package, a file and a function.
ghost use Rattle.std.specs.Prelude.{◌≡◌, ◌∷◌, List, [], map, reverse, true, false, IfErr, OnOk, OnErr, option_copied};
ghost use Rattle.std.specs.List.{flat_map};
ghost use Rattle.std.specs.Map.{lookup};
ghost use Rattle.std.specs.Str.{bytes_eq};
ghost use Rattle.go_scope.specs.Scopes.{look_up, is_own, declare, enter_block, leave_block};
ghost use Rattle.go_scope.specs.declared.scopes.DeclareError.TheVariants.{Memory, Redeclared};

use crate::block::Block;
use std::alloc::{AllocError, Global};
use std::marker::Model;
use thiserror::Error;

/// Why a name isn't declared.
#[derive(Debug, Drop, Error)]
pub enum DeclareError {
    /// The block has the name already.
    #[error("the block has the name already")]
    Redeclared,
    /// Memory ran out.
    #[error("out of memory")]
    Memory,
}

impl From<AllocError> for DeclareError {
    ghost from_gives = { λ _ e. e ≡ Memory };

    fn from(_e: AllocError) -> DeclareError {
        DeclareError::Memory
    }
}

/// The blocks round a place in the source, each with its names and what they stand for.
/// [Declarations and scope](https://go.dev/ref/spec#Declarations_and_scope)
#[derive(Drop)]
pub struct Scopes<T: Drop> {
    alloc: Global,
    inner: Block<T>,
    outer: Vec<Block<T>>,
}

impl<T: Drop> Model for Scopes<T> {
    ghost use Rattle.std.specs.Prelude.{reverse};
    ghost use Rattle.go_scope.specs.Scopes as scopes;

    ghost Value = { scopes.Env T };

    ghost view = { λ a. record { inner = a.inner; outer = reverse a.outer.items } };
}

impl<T: Drop> Scopes<T> {
    /// A block in which nothing is declared, with none round it.
    pub fn new(alloc: Global) -> Scopes<T>
        ensures { result ≡ record { inner = []; outer = [] } }
    {
        Scopes {
            alloc,
            inner: Block::new(alloc),
            outer: Vec::new(alloc),
        }
    }

    /// Goes into a new block. An `Err` only where memory ran out, and changes nothing.
    pub fn enter(&mut self) -> Result<(), AllocError>
        ensures ok { OnOk result (self.new ≡ enter_block self.old) }
        ensures err { OnErr result (self.new ≡ self.old) }
    {
        let inner = std::mem::replace(&mut self.inner, Block::new(self.alloc));
        match self.outer.push(inner) {
            Ok(()) => Ok(()),
            Err(failed) => {
                self.inner = failed.value;
                Err(AllocError)
            }
        }
    }

    /// Goes out of the innermost block, if there is one round it.
    pub fn leave(&mut self)
        ensures { self.new ≡ leave_block self.old }
    {
        if let Some(block) = self.outer.pop() {
            self.inner = block;
        }
    }

    /// Declares a name in the innermost block; `_` declares nothing.
    /// [Blank identifier](https://go.dev/ref/spec#Blank_identifier)
    ///
    /// `Redeclared` where the block has the name, `Memory` where memory ran out. An `Err` changes
    /// nothing.
    pub fn declare(&mut self, name: &str, value: T) -> Result<(), DeclareError>
        ensures ok { OnOk result (self.new ≡ declare self.old name.now value) }
        ensures allowed { OnOk result (is_own self.old name.now ≡ false) }
        ensures refused { IfErr result (λ e. e ≡ Redeclared → is_own self.old name.now ≡ true) }
        ensures err { OnErr result (self.new ≡ self.old) }
    {
        if self.is_own(name) {
            return Err(DeclareError::Redeclared);
        }
        if name == "_" {
            return Ok(());
        }
        self.inner.add(self.alloc, name, value)?;
        Ok(())
    }

    /// Whether the innermost block has a name.
    pub fn is_own(&self, name: &str) -> bool
        ensures { result ≡ is_own self.now name.now }
    {
        self.inner.get(name).is_some()
    }

    /// What a name stands for: the innermost block that has it tells.
    pub fn look_up(&self, name: &str) -> Option<&T>
        ensures { option_copied result ≡ look_up self.now name.now }
    {
        match self.inner.get(name) {
            Some(value) => Some(value),
            None => find(self.outer.as_slice(), name),
        }
    }
}

// What a name stands for in some blocks, of which the last is the innermost.
fn find<'a, T: Drop>(blocks: &'a [Block<T>], name: &str) -> Option<&'a T>
    ensures { option_copied result ≡ lookup (bytes_eq name.now) (flat_map (λ block. block) (reverse blocks.now)) }
{
    for i in (0..blocks.len()).rev() {
        let found = blocks[i].get(name);
        if found.is_some() {
            return found;
        }
    }
    None
}
