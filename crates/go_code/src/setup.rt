//! Setups of objects and of images.
ghost use Rattle.std.specs.Prelude.{◌≡◌};

use crate::instr::Instr;
use std::marker::Model;

/// What gives some package variables their values: how many cells its frame has, and its code.
/// `R` is what the code refers to functions and package variables by, as in [`Instr`].
#[derive(Drop)]
pub struct Setup<R> {
    cells: usize,
    code: Vec<Instr<R>>,
}

impl<R> Model for Setup<R> {
    ghost use Rattle.go_code.specs.Functions as functions;

    ghost Value = { functions.Setup R };

    ghost view = { λ a. record { cells = a.cells; code = a.code.items } };
}

impl<R: Drop> Setup<R> {
    /// The setup of so many frame cells and a code.
    pub fn new(cells: usize, code: Vec<Instr<R>>) -> Setup<R>
        ensures { result ≡ record { cells = cells; code = code.items } }
    {
        Setup { cells, code }
    }

    /// How many cells the frame has.
    pub fn cells(&self) -> usize
        ensures { result ≡ self.now.cells }
    {
        self.cells
    }

    /// The code.
    pub fn code(&self) -> &[Instr<R>]
        ensures { result.now ≡ self.now.code }
    {
        self.code.as_slice()
    }
}
