//! The values of constants.
ghost use Rattle.std.specs.Prelude.{◌≡◌, IfOk};

use std::alloc::{AllocError, Global};
use std::marker::Model;
use std::sync::ArcSlice;

/// A text of any bytes, as a string has it. Copies share them.
#[derive(Drop)]
pub struct Text {
    held: ArcSlice<u8>,
}

impl Model for Text {
    ghost use Rattle.std.specs.Prelude.{List, ℕ};
    ghost use Rattle.std.specs.Arc.{arc_slice_items};

    ghost Value = { List ℕ };

    ghost view = { λ a. arc_slice_items a.held };
}

impl Text {
    /// The text of some bytes. An `Err` only where memory ran out.
    pub fn new(alloc: Global, bytes: &[u8]) -> Result<Text, AllocError>
        ensures { IfOk result (λ text. text ≡ bytes.now) }
    {
        let held = ArcSlice::from_slice(alloc, bytes)?;
        Ok(Text { held })
    }

    /// The text of a buffer's bytes. An `Err` only where memory ran out.
    pub fn from_vec(bytes: Vec<u8>) -> Result<Text, AllocError>
        ensures { IfOk result (λ text. text ≡ bytes.items) }
    {
        let held = ArcSlice::from_vec(bytes)?;
        Ok(Text { held })
    }

    /// The bytes of the text.
    pub fn bytes(&self) -> &[u8]
        ensures { result.now ≡ self.now }
    {
        self.held.as_slice()
    }

    /// Another owner of the same bytes. An `Err` only where memory ran out.
    pub fn copy(&self) -> Result<Text, AllocError>
        ensures { IfOk result (λ copy. copy ≡ self.now) }
    {
        let held = self.held.clone()?;
        Ok(Text { held })
    }
}

/// A constant's value. Its type, or that it has none, is handed to the operators beside it.
/// [Constants](https://go.dev/ref/spec#Constants)
#[derive(Drop)]
pub enum Const {
    /// Of an integer or a rune.
    Integer(i128),
    /// Of a string.
    Text(Text),
    /// A truth value.
    Bool(bool),
}

impl Const {
    /// An equal constant, which shares a text. An `Err` only where memory ran out.
    pub fn copy(&self) -> Result<Const, AllocError>
        ensures { IfOk result (λ copy. copy ≡ self.now) }
    {
        match self {
            Const::Integer(number) => Ok(Const::Integer(*number)),
            Const::Text(text) => Ok(Const::Text(text.copy()?)),
            Const::Bool(truth) => Ok(Const::Bool(*truth)),
        }
    }
}
