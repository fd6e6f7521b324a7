//! Images: programs whose functions are known by number.
ghost use Rattle.std.specs.Prelude.{◌≡◌};

use crate::cell::Cell;
use crate::function::Function;
use crate::setup::Setup;
use go_text::edition::Edition;
use std::marker::Model;

/// A step of a program's start.
#[derive(Drop)]
pub enum Start {
    /// A setup, which takes no tick and is no open call.
    Setup(Setup<usize>),
    /// The function of this number is called.
    Function(usize),
}

/// A program: the edition of the language that its last package is of, the zero cells of its package variables, one variable's behind another's, its
/// functions, by number, and its start steps in order.
#[derive(Drop)]
pub struct Image {
    edition: Edition,
    globals: Vec<Cell>,
    functions: Vec<Function<usize>>,
    starts: Vec<Start>,
}

impl Model for Image {
    ghost use Rattle.go_code.specs.Images as images;

    ghost Value = { images.Image };

    ghost view = { λ a. record { edition = a.edition; globals = a.globals.items; functions = a.functions.items; starts = a.starts.items } };
}

impl Image {
    /// The image of an edition, zero cells, functions and start steps. It need not make sense.
    pub fn new(
        edition: Edition,
        globals: Vec<Cell>,
        functions: Vec<Function<usize>>,
        starts: Vec<Start>,
    ) -> Image
        ensures { result ≡ record { edition = edition; globals = globals.items; functions = functions.items; starts = starts.items } }
    {
        Image {
            edition,
            globals,
            functions,
            starts,
        }
    }

    /// The edition of the language.
    pub fn edition(&self) -> Edition
        ensures { result ≡ self.now.edition }
    {
        self.edition
    }

    /// The zero cells of the package variables.
    pub fn globals(&self) -> &[Cell]
        ensures { result.now ≡ self.now.globals }
    {
        self.globals.as_slice()
    }

    /// The functions, by number.
    pub fn functions(&self) -> &[Function<usize>]
        ensures { result.now ≡ self.now.functions }
    {
        self.functions.as_slice()
    }

    /// The start steps, in order.
    pub fn starts(&self) -> &[Start]
        ensures { result.now ≡ self.now.starts }
    {
        self.starts.as_slice()
    }
}
