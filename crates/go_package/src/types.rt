//! The faults of declarations of types.
ghost use Rattle.std.specs.Prelude.{◌≡◌, map};
ghost use Rattle.std.specs.List.{flat_map};
ghost use Rattle.go_ast.specs.Views.{type_spec_of};
ghost use Rattle.go_types.specs.Views.{go_type};
ghost use Rattle.go_expr.specs.Verdicts.{broken};
ghost use Rattle.go_objects.specs.Table.{named_type};
ghost use Rattle.go_package.specs.Faults.{type_spec_faults};
ghost use Rattle.go_package.specs.Views.{facts_of, Finds};

use crate::declared::check_name;
use crate::facts::Facts;
use go_ast::declaration::TypeSpec;
use go_expr::error::ExprError;
use go_expr::expression::check_type;
use go_objects::evaluation::{named_type, scope_in};
use go_text::fault::FaultKind;
use go_text::place::Place;
use go_types::types::GoType;
use std::alloc::Global;

/// The first fault of the declaration of a type in a file: of its name, of the type that it is made
/// of, or `Size` at its name where the declared type has too many parts.
/// [Type definitions](https://go.dev/ref/spec#Type_definitions)
fn check_type_spec(
    alloc: Global,
    facts: &Facts<'_>,
    file: usize,
    spec: &TypeSpec,
) -> Result<(), ExprError>
    ensures { Finds result (type_spec_faults (facts_of facts.now) file (type_spec_of spec.now)) }
{
    check_name(facts, file, &spec.name)?;
    let package = facts.package();
    let scope = scope_in(package, facts.known(), file, None);
    let Some(of) = check_type(alloc, &scope, &spec.type_expr)? else {
        return Ok(());
    };
    check_size(
        alloc,
        spec.name.place(),
        package.path,
        spec.name.text(),
        &of,
    )
}

// Whether the type that a package declares under a name has no more parts than it may.
fn check_size(
    alloc: Global,
    place: Place,
    path: &str,
    name: &str,
    of: &GoType,
) -> Result<(), ExprError>
    ensures { Finds result (broken place (named_type path.now name.now (go_type of.now))) }
{
    match named_type(alloc, path, name, of)? {
        Some(_) => Ok(()),
        None => Err(ExprError::Faulty(place, FaultKind::Size)),
    }
}

/// The first fault of declarations of types in a file.
pub(crate) fn check_types(
    alloc: Global,
    facts: &Facts<'_>,
    file: usize,
    specs: &[TypeSpec],
) -> Result<(), ExprError>
    ensures { Finds result (flat_map (type_spec_faults (facts_of facts.now) file) (map type_spec_of specs.now)) }
{
    for spec in specs {
        check_type_spec(alloc, facts, file, spec)?;
    }
    Ok(())
}
