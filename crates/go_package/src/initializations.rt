//! What gives a package's variables their values.
//! [Package initialization](https://go.dev/ref/spec#Package_initialization)
ghost use Rattle.std.specs.Prelude.{◌≡◌, ◌++◌, map, IfOk, OnOk, string_bytes};
ghost use Rattle.std.specs.Option.{option_map};
ghost use Rattle.go_ast.specs.Views.{expr_of as expr_tree, var_of};
ghost use Rattle.go_scope.specs.Names.{used};
ghost use Rattle.go_typed.specs.Views.{as_expr, as_exprs, as_source, initialization_of};
ghost use Rattle.go_package.specs.Views.{facts_of, texts_in};
ghost use Rattle.go_package.specs.Typed.{own_name, spec_place, references, alone, each_alone, together, initializations_by};

use crate::facts::Facts;
use crate::names::file_name;
use crate::references::references;
use go_ast::declaration::VarSpec;
use go_ast::expression::Expr;
use go_ast::name::Name;
use go_objects::declarations::Spec;
use go_objects::package::spec_names;
use go_scope::names::add_names;
use go_text::place::Place;
use go_typed::expression::TypedExpr;
use go_typed::package::TypedInitialization;
use go_typed::statement::TypedSource;
use std::alloc::{AllocError, Global};

fn own_name(alloc: Global, name: &Name) -> Result<Option<String>, AllocError>
    ensures { IfOk result (λ n. option_map string_bytes n ≡ own_name name.now) }
{
    if name.text() == "_" {
        return Ok(None);
    }
    Ok(Some(String::from_str(alloc, name.text())?))
}

fn own_names(alloc: Global, names: &[Name]) -> Result<Vec<Option<String>>, AllocError>
    ensures { IfOk result (λ found. map (option_map string_bytes) found.items ≡ map own_name names.now) }
{
    let mut found = Vec::new(alloc);
    for name in names {
        found.push(own_name(alloc, name)?)?;
    }
    Ok(found)
}

// Where a specification begins, which has a name.
fn spec_place(names: &[Name]) -> Place
    ensures { result ≡ spec_place names.now }
{
    match names {
        [first, ..] => first.place(),
        [] => Place { line: 1, column: 1 },
    }
}

// A variable that has its own value.
fn alone(
    alloc: Global,
    facts: &Facts<'_>,
    names: &[&str],
    file: usize,
    name: &Name,
    value: &Expr,
    typed: TypedExpr,
) -> Result<TypedInitialization, AllocError>
    ensures { IfOk result (λ i. initialization_of i ≡ alone (facts_of facts.now) (texts_in names.now) file name.now (expr_tree value.now) (as_expr typed)) }
{
    let mut used = Vec::new(alloc);
    add_names(value, &mut used)?;
    Ok(TypedInitialization {
        variables: vec![in alloc; own_name(alloc, name)?]?,
        file: String::from_str(alloc, file_name(names, file))?,
        place: name.place(),
        source: TypedSource::Each(vec![in alloc; typed]?),
        references: references(alloc, facts, file, &used)?,
    })
}

// Variables that get their values together.
fn together(
    alloc: Global,
    facts: &Facts<'_>,
    names: &[&str],
    file: usize,
    spec: &VarSpec,
    source: TypedSource,
) -> Result<TypedInitialization, AllocError>
    ensures { IfOk result (λ i. initialization_of i ≡ together (facts_of facts.now) (texts_in names.now) file (var_of spec.now) (as_source source)) }
{
    let used = spec_names(
        alloc,
        Spec {
            names: &spec.names,
            type_expr: None,
            values: &spec.values,
        },
    )?;
    Ok(TypedInitialization {
        variables: own_names(alloc, &spec.names)?,
        file: String::from_str(alloc, file_name(names, file))?,
        place: spec_place(&spec.names),
        source,
        references: references(alloc, facts, file, &used)?,
    })
}

// Variables that have values of their own.
fn add_alone(
    alloc: Global,
    facts: &Facts<'_>,
    names: &[&str],
    file: usize,
    spec: &VarSpec,
    typed: Vec<TypedExpr>,
    found: &mut Vec<TypedInitialization>,
) -> Result<(), AllocError>
    ensures { OnOk result (map initialization_of found.new.items ≡ map initialization_of found.old.items
        ++ each_alone (facts_of facts.now) (texts_in names.now) file (var_of spec.now).names (var_of spec.now).values (as_exprs typed.items)) }
{
    let variables = spec.names.as_slice();
    let values = spec.values.as_slice();
    let mut number = 0;
    for e in typed {
        let (Some(name), Some(value)) = (variables.get(number), values.get(number)) else {
            return Ok(());
        };
        found.push(alone(alloc, facts, names, file, name, value, e)?)?;
        number += 1;
    }
    Ok(())
}

/// Adds what gives the variables of a specification their values, where that is known, to what was
/// found, by the names of files. An `Err` only where memory ran out.
pub(crate) fn add_by(
    alloc: Global,
    facts: &Facts<'_>,
    names: &[&str],
    file: usize,
    spec: &VarSpec,
    source: Option<TypedSource>,
    found: &mut Vec<TypedInitialization>,
) -> Result<(), AllocError>
    ensures { OnOk result (map initialization_of found.new.items ≡ map initialization_of found.old.items
        ++ initializations_by (facts_of facts.now) (texts_in names.now) file (var_of spec.now) (option_map as_source source)) }
{
    match source {
        Some(TypedSource::Each(typed)) => add_alone(alloc, facts, names, file, spec, typed, found),
        Some(TypedSource::Results(types, symbol, arguments)) => {
            let source = TypedSource::Results(types, symbol, arguments);
            found.push(together(alloc, facts, names, file, spec, source)?)?;
            Ok(())
        }
        Some(TypedSource::Zeros(_)) => Ok(()),
        None => Ok(()),
    }
}
