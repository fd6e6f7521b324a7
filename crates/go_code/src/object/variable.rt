//! Variables of packages.
ghost use Rattle.std.specs.Prelude.{◌≡◌, string_bytes};

use crate::cell::Cell;
use std::marker::Model;

/// A variable of a package: its name and its zero value's cells.
#[derive(Drop)]
pub struct PackageVariable {
    name: String,
    zero: Vec<Cell>,
}

impl Model for PackageVariable {
    ghost use Rattle.std.specs.Prelude.{string_bytes};
    ghost use Rattle.go_code.specs.Packages as packages;

    ghost Value = { packages.PackageVariable };

    ghost view = { λ a. record { name = string_bytes a.name; zero = a.zero.items } };
}

impl PackageVariable {
    /// The variable of a name and its zero value's cells.
    pub fn new(name: String, zero: Vec<Cell>) -> PackageVariable
        ensures { result ≡ record { name = string_bytes name; zero = zero.items } }
    {
        PackageVariable { name, zero }
    }

    /// The name.
    pub fn name(&self) -> &str
        ensures { result.now ≡ self.now.name }
    {
        self.name.as_str()
    }

    /// The zero value's cells.
    pub fn zero(&self) -> &[Cell]
        ensures { result.now ≡ self.now.zero }
    {
        self.zero.as_slice()
    }
}
