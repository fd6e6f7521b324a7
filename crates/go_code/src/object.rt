//! Objects: what a package is compiled to.
ghost use Rattle.go_code.specs.Packages.{object_with};
ghost use Rattle.std.specs.Prelude.{◌≡◌, string_bytes};

pub mod function;
pub mod variable;

use crate::object::function::PackageFunction;
use crate::object::variable::PackageVariable;
use crate::setup::Setup;
use go_symbol::Symbol;
use go_text::edition::Edition;
use std::marker::Model;

/// What a package is compiled to: its path, its name, the edition of the language that it is of, its
/// variables and its functions in declaration order, and its setups in the order in which they run.
#[derive(Drop)]
pub struct Object {
    path: String,
    name: String,
    edition: Edition,
    variables: Vec<PackageVariable>,
    functions: Vec<PackageFunction>,
    setups: Vec<Setup<Symbol>>,
}

impl Model for Object {
    ghost use Rattle.std.specs.Prelude.{string_bytes};
    ghost use Rattle.go_code.specs.Packages as packages;

    ghost Value = { packages.Object };

    ghost view = { λ a. record {
      path = string_bytes a.path;
      name = string_bytes a.name;
      edition = a.edition;
      variables = a.variables.items;
      functions = a.functions.items;
      setups = a.setups.items;
    } };
}

impl Object {
    /// The object of a package's path, name and edition, its variables, its functions and its setups.
    pub fn new(
        path: String,
        name: String,
        edition: Edition,
        variables: Vec<PackageVariable>,
        functions: Vec<PackageFunction>,
        setups: Vec<Setup<Symbol>>,
    ) -> Object
        ensures { result ≡ object_with (string_bytes path) (string_bytes name) edition variables.items functions.items setups.items }
    {
        Object {
            path,
            name,
            edition,
            variables,
            functions,
            setups,
        }
    }

    /// The package's path.
    pub fn path(&self) -> &str
        ensures { result.now ≡ self.now.path }
    {
        self.path.as_str()
    }

    /// The package's name.
    pub fn name(&self) -> &str
        ensures { result.now ≡ self.now.name }
    {
        self.name.as_str()
    }

    /// The edition of the language that the package is of.
    pub fn edition(&self) -> Edition
        ensures { result ≡ self.now.edition }
    {
        self.edition
    }

    /// The variables, in declaration order.
    pub fn variables(&self) -> &[PackageVariable]
        ensures { result.now ≡ self.now.variables }
    {
        self.variables.as_slice()
    }

    /// The functions, in declaration order.
    pub fn functions(&self) -> &[PackageFunction]
        ensures { result.now ≡ self.now.functions }
    {
        self.functions.as_slice()
    }

    /// The setups, in the order in which they run.
    pub fn setups(&self) -> &[Setup<Symbol>]
        ensures { result.now ≡ self.now.setups }
    {
        self.setups.as_slice()
    }
}
