//! What is known of each object of a package, in whatever order they are declared.
ghost use Rattle.std.specs.Prelude.{◌≡◌, Some, None, slice_get, IfOk, OnOk};
ghost use Rattle.std.specs.Option.{option_map};
ghost use Rattle.indexmap.specs.IndexMap.{set_value_at};
ghost use Rattle.go_expr.specs.Views.{declared_of, names_of};
ghost use Rattle.go_expr.specs.Rules.{fine};
ghost use Rattle.go_objects.specs.Objects.{DeclaredObject};
ghost use Rattle.go_objects.specs.Table.{IsTable, object_verdict, declared_in};
ghost use Rattle.go_objects.specs.Packages.{package_of};

use crate::evaluation::declared_by;
use crate::package::{Package, rows};
use go_expr::known::{Declared, Names};
use go_scope::order::order_of;
use std::alloc::{AllocError, Global};

/// The table of a package: of each object what it declares, where that is known. Each is looked at
/// once, behind all that it stands on. An `Err` only where memory ran out.
/// [Declarations and scope](https://go.dev/ref/spec#Declarations_and_scope)
pub fn table(alloc: Global, package: &Package<'_>) -> Result<Names, AllocError>
    ensures { IfOk result (λ known. IsTable (package_of «package».now) (names_of known)) }
{
    let rows = rows(alloc, package)?;
    let order = order_of(alloc, &rows)?;
    let mut known = package.objects.unknown(alloc)?;
    for number in &order {
        fill(alloc, package, *number, &mut known)?;
    }
    Ok(known)
}

// Puts in what is known of an object by what is known of the others.
fn fill(
    alloc: Global,
    package: &Package<'_>,
    number: usize,
    known: &mut Names,
) -> Result<(), AllocError>
    ensures there { OnOk result ((o : DeclaredObject) → slice_get (package_of «package».now).objects number ≡ Some o
        → names_of known.new
        ≡ set_value_at (names_of known.old) number (declared_in (fine (object_verdict (package_of «package».now) (names_of known.old) o)))) }
    ensures past { OnOk result (slice_get (package_of «package».now).objects number ≡ None → names_of known.new ≡ names_of known.old) }
{
    let Some(object) = package.objects.list().get(number) else {
        return Ok(());
    };
    let declared = declared_by(alloc, package, known, object)?;
    put(known, number, declared);
    Ok(())
}

fn put(known: &mut Names, number: usize, declared: Option<Declared>)
    ensures { names_of known.new ≡ set_value_at (names_of known.old) number (option_map declared_of declared) }
{
    if number < known.len() {
        known[number] = declared;
    }
}
