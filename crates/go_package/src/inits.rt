//! Names of the functions init, of which a package may have several.
//! [Package initialization](https://go.dev/ref/spec#Package_initialization)
ghost use Rattle.std.specs.Prelude.{◌≡◌, ◌++◌, codes, map, IfOk};
ghost use Rattle.std.specs.Fmt.{decimal};
ghost use Rattle.go_typed.specs.Views.{as_function as typed_function};
ghost use Rattle.go_package.specs.Typed.{with_numbers};

use go_typed::package::TypedFunction;
use std::alloc::{AllocError, Global};

// A function init by its number.
fn numbered(
    alloc: Global,
    mut function: TypedFunction,
    number: usize,
) -> Result<TypedFunction, AllocError>
    ensures { IfOk result (λ f. typed_function f ≡ record (typed_function function) { name = codes "init." ++ decimal number }) }
{
    function.name = format!(in alloc; "init.{number}")?;
    Ok(function)
}

/// Functions, of which those that are named init are told apart by numbers from 1 on, in their
/// order. An `Err` only where memory ran out.
pub(crate) fn with_numbers(
    alloc: Global,
    functions: Vec<TypedFunction>,
) -> Result<Vec<TypedFunction>, AllocError>
    ensures { IfOk result (λ found. map typed_function found.items ≡ with_numbers 1 (map typed_function functions.items)) }
{
    let mut found = Vec::with_capacity(alloc, functions.len())?;
    let mut count = 0;
    for function in functions {
        if function.name.as_str() == "init" {
            count += 1;
            found.push(numbered(alloc, function, count)?)?;
        } else {
            found.push(function)?;
        }
    }
    Ok(found)
}
