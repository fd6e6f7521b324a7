//! Functions of packages.
ghost use Rattle.std.specs.Prelude.{◌≡◌, string_bytes};

use crate::function::Function;
use go_symbol::Symbol;
use std::marker::Model;

/// A function of a package, with its name.
#[derive(Drop)]
pub struct PackageFunction {
    name: String,
    function: Function<Symbol>,
}

impl Model for PackageFunction {
    ghost use Rattle.std.specs.Prelude.{string_bytes};
    ghost use Rattle.go_code.specs.Packages as packages;

    ghost Value = { packages.PackageFunction };

    ghost view = { λ a. record { name = string_bytes a.name; function = a.function } };
}

impl PackageFunction {
    /// The function of a name.
    pub fn new(name: String, function: Function<Symbol>) -> PackageFunction
        ensures { result ≡ record { name = string_bytes name; function = function } }
    {
        PackageFunction { name, function }
    }

    /// The name.
    pub fn name(&self) -> &str
        ensures { result.now ≡ self.now.name }
    {
        self.name.as_str()
    }

    /// The function, whose code refers to functions and package variables by their symbols.
    pub fn function(&self) -> &Function<Symbol>
        ensures { result.now ≡ self.now.function }
    {
        &self.function
    }
}
