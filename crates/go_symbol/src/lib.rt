//! The names by which packages, and their code, know one another's functions and variables.
#![tactic(auto)]

ghost use Rattle.std.specs.Prelude.{◌≡◌, IfOk, string_bytes};

use std::alloc::AllocError;
use std::marker::Model;

/// What a package declares, by the package's path and the name.
/// [Qualified identifiers](https://go.dev/ref/spec#Qualified_identifiers)
#[derive(Drop)]
pub struct Symbol {
    path: String,
    name: String,
}

impl Model for Symbol {
    ghost use Rattle.std.specs.Prelude.{string_bytes};
    ghost use Rattle.go_symbol.specs.Symbols as symbols;

    ghost Value = { symbols.Symbol };

    ghost view = { λ a. record { path = string_bytes a.path; name = string_bytes a.name } };
}

impl Symbol {
    /// The symbol of a package's path and a name in it.
    pub fn new(path: String, name: String) -> Symbol
        ensures { result ≡ record { path = string_bytes path; name = string_bytes name } }
    {
        Symbol { path, name }
    }

    /// The package's path.
    pub fn path(&self) -> &str
        ensures { result.now ≡ self.now.path }
    {
        self.path.as_str()
    }

    /// The name.
    pub fn name(&self) -> &str
        ensures { result.now ≡ self.now.name }
    {
        self.name.as_str()
    }

    /// Another of equal contents. An `Err` only where memory ran out.
    pub fn copy(&self) -> Result<Symbol, AllocError>
        ensures { IfOk result (λ copy. copy ≡ self.now) }
    {
        let path = self.path.clone()?;
        let name = self.name.clone()?;
        Ok(Symbol { path, name })
    }
}
