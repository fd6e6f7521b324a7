//! Which names of a package stand in the initial values of its variables.
//! [Package initialization](https://go.dev/ref/spec#Package_initialization)
ghost use Rattle.std.specs.Prelude.{◌≡◌, map, IfOk, string_bytes};
ghost use Rattle.go_scope.specs.Names.{used};
ghost use Rattle.go_objects.specs.Table.{is_hidden};
ghost use Rattle.go_objects.specs.Packages.{declared_imports};
ghost use Rattle.go_package.specs.Views.{facts_of};
ghost use Rattle.go_package.specs.Typed.{is_reference, references};

use crate::facts::Facts;
use crate::names::declared_at;
use go_expr::known::Declared;
use go_expr::scope::Import;
use go_objects::package::imports_at;
use go_scope::names::UsedName;
use std::alloc::{AllocError, Global};

// Whether one of some imports has a name.
fn is_hidden(imports: &[Import<'_>], name: &str) -> bool
    ensures { result ≡ is_hidden (declared_imports imports.now) name.now }
{
    for import in imports {
        if name == import.name {
            return true;
        }
    }
    false
}

// Whether a name that is used in a file is that of a variable or a function of the package.
fn is_reference(facts: &Facts<'_>, file: usize, name: &str) -> bool
    ensures { result ≡ is_reference (facts_of facts.now) file name.now }
{
    if is_hidden(imports_at(facts.package(), file), name) {
        return false;
    }
    match declared_at(facts.known(), name) {
        Some(Declared::Global(_, _)) => true,
        Some(Declared::Function(_)) => true,
        _ => false,
    }
}

/// The package's variables and functions among names that are used in a file. An `Err` only where
/// memory ran out.
pub fn references(
    alloc: Global,
    facts: &Facts<'_>,
    file: usize,
    names: &[UsedName<'_>],
) -> Result<Vec<String>, AllocError>
    ensures { IfOk result (λ found. map string_bytes found.items ≡ references (facts_of facts.now) file (map used names.now)) }
{
    let mut found = Vec::new(alloc);
    for name in names {
        if is_reference(facts, file, name.text) {
            found.push(String::from_str(alloc, name.text)?)?;
        }
    }
    Ok(found)
}
