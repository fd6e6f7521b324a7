//! The faults of functions, and the functions of a typed package.
//! [Function declarations](https://go.dev/ref/spec#Function_declarations)
ghost use Rattle.std.specs.Prelude.{◌≡◌, ◌++◌, map, OnOk};
ghost use Rattle.std.specs.Option.{option_map};
ghost use Rattle.go_ast.specs.Trees as trees;
ghost use Rattle.go_ast.specs.Views.{function_of};
ghost use Rattle.go_typed.specs.Views.{as_function as typed_function};
ghost use Rattle.go_stmt.specs.Views.{Answered};
ghost use Rattle.go_stmt.specs.Functions.{function_at};
ghost use Rattle.go_package.specs.Faults.{own_faults, context_at, function_faults};
ghost use Rattle.go_package.specs.Views.{facts_of, Finds};
ghost use Rattle.go_package.specs.Typed.{top_functions};
ghost use Rattle.go_package.specs.Results.{kept};

use crate::declared::check_name;
use crate::facts::Facts;
use go_ast::file::Function;
use go_ast::name::Name;
use go_expr::error::ExprError;
use go_objects::package::imports_at;
use go_stmt::function::check_body;
use go_typed::package::TypedFunction;
use std::alloc::{AllocError, Global};

/// The first fault of a function in a file: of its name, of its parameters, of its results, or in
/// its body. One without a fault stands behind those that were found before.
pub(crate) fn check_function(
    alloc: Global,
    facts: &Facts<'_>,
    file: usize,
    function: &Function,
    found: &mut Vec<TypedFunction>,
) -> Result<(), ExprError>
    ensures faults { Finds result (function_faults (facts_of facts.now) file (function_of function.now)) }
    ensures functions { OnOk result (map typed_function found.new.items
        ≡ map typed_function found.old.items ++ top_functions (facts_of facts.now) file (trees.function (function_of function.now))) }
{
    check_own_name(facts, file, &function.name)?;
    let known = check_inside(alloc, facts, file, function)?;
    keep(&function.name, known, found)?;
    Ok(())
}

// The fault of a function's name; init declares none.
fn check_own_name(facts: &Facts<'_>, file: usize, name: &Name) -> Result<(), ExprError>
    ensures { Finds result (own_faults (facts_of facts.now) file name.now) }
{
    if name.text() == "init" {
        return Ok(());
    }
    check_name(facts, file, name)
}

// A function by its parameters, its results and its body, or the first fault in them.
fn check_inside(
    alloc: Global,
    facts: &Facts<'_>,
    file: usize,
    function: &Function,
) -> Result<Option<TypedFunction>, ExprError>
    ensures { Answered typed_function result (function_at (context_at (facts_of facts.now) file) (function_of function.now)) }
{
    let package = facts.package();
    let imports = imports_at(package, file);
    check_body(
        alloc,
        package.path,
        package.edition,
        imports,
        facts.known(),
        function,
    )
}

// Adds a function that is known to those that were found, unless its name is blank.
fn keep(
    name: &Name,
    known: Option<TypedFunction>,
    found: &mut Vec<TypedFunction>,
) -> Result<(), AllocError>
    ensures { OnOk result (map typed_function found.new.items ≡ map typed_function found.old.items ++ kept name.now (option_map typed_function known)) }
{
    if let Some(known) = known {
        if name.text() != "_" {
            found.push(known)?;
        }
    }
    Ok(())
}
