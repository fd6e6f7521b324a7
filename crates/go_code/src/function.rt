//! Functions of objects and of images.
ghost use Rattle.std.specs.Prelude.{◌≡◌};

use crate::instr::Instr;
use std::marker::Model;

/// A function: how many cells its parameters take, how many its frame has, the parameters
/// among them, and its code. `R` is what the code refers to functions and package variables by, as in
/// [`Instr`].
#[derive(Drop)]
pub struct Function<R> {
    parameters: usize,
    cells: usize,
    code: Vec<Instr<R>>,
}

impl<R> Model for Function<R> {
    ghost use Rattle.go_code.specs.Functions as functions;

    ghost Value = { functions.FunctionCode R };

    ghost view = { λ a. record { parameters = a.parameters; cells = a.cells; code = a.code.items } };
}

impl<R: Drop> Function<R> {
    /// The function of so many parameter cells, so many frame cells and a code.
    pub fn new(parameters: usize, cells: usize, code: Vec<Instr<R>>) -> Function<R>
        ensures { result ≡ record { parameters = parameters; cells = cells; code = code.items } }
    {
        Function {
            parameters,
            cells,
            code,
        }
    }

    /// How many cells the parameters take.
    pub fn parameters(&self) -> usize
        ensures { result ≡ self.now.parameters }
    {
        self.parameters
    }

    /// How many cells the frame has, those of the parameters among them.
    pub fn cells(&self) -> usize
        ensures { result ≡ self.now.cells }
    {
        self.cells
    }

    /// The code.
    pub fn code(&self) -> &[Instr<R>]
        ensures { result.now ≡ self.now.code }
    {
        self.code.as_slice()
    }
}
