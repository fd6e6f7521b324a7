//! What is known of a function, by its signature.
ghost use Rattle.std.specs.Prelude.{◌≡◌, ◌++◌, [], ◌∷◌, IsTrue, codes, not, bytes_eq, map, IfOk, OnOk};
ghost use Rattle.std.specs.List.{filter, flat_map};
ghost use Rattle.std.specs.Option.{option_map};
ghost use Rattle.go_ast.specs.Trees as trees;
ghost use Rattle.go_ast.specs.Views.{type_of as type_tree, parameter_of};
ghost use Rattle.go_types.specs.Views.{go_type};
ghost use Rattle.go_expr.specs.Rules.{fine, are_distinct};
ghost use Rattle.go_expr.specs.Verdicts.{chained};
ghost use Rattle.go_expr.specs.Views.{all_of, declared_of, scope_of};
ghost use Rattle.go_objects.specs.Table.{types_known, parameters_known, parameter_names, own_names, function_verdict, declared_in};

use crate::evaluation::{symbol, type_in};
use go_ast::expression::TypeExpr;
use go_ast::file::Parameter;
use go_ast::name::Name;
use go_expr::known::{Declared, Function};
use go_expr::scope::Scope;
use go_types::types::GoType;
use indexmap::IndexSet;
use std::alloc::{AllocError, Global};
use std::sync::Arc;

/// The function that a package declares under a name, where all types of its signature are known and
/// no two of its parameters have one name. An `Err` only where memory ran out.
/// [Function declarations](https://go.dev/ref/spec#Function_declarations)
pub(crate) fn function_in(
    alloc: Global,
    scope: &Scope<'_>,
    path: &str,
    name: &str,
    parameters: &[Parameter],
    results: &[TypeExpr],
) -> Result<Option<Declared>, AllocError>
    ensures { IfOk result (λ d. option_map declared_of d
        ≡ declared_in (fine (function_verdict (scope_of scope.now) (record { path = path.now; name = name.now }) (map parameter_of parameters.now) (map type_tree results.now)))) }
{
    if !differ(alloc, &names_in(alloc, parameters)?)? {
        return Ok(None);
    }
    let Some(parameters) = parameters_in(alloc, scope, parameters)? else {
        return Ok(None);
    };
    let Some(results) = types_in(alloc, scope, results)? else {
        return Ok(None);
    };
    let function = Function {
        symbol: symbol(alloc, path, name)?,
        parameters,
        results,
    };
    Ok(Some(Declared::Function(Arc::new(alloc, function)?)))
}

// The types that are written, where all are known.
#[tactic(auto, using(crate::proofs::Signatures::more_known))]
fn types_in(
    alloc: Global,
    scope: &Scope<'_>,
    types: &[TypeExpr],
) -> Result<Option<Vec<GoType>>, AllocError>
    ensures { IfOk result (λ ts. option_map (all_of go_type) ts ≡ types_known (scope_of scope.now) (map type_tree types.now)) }
{
    let mut all = Vec::new(alloc);
    for of in types {
        let Some(of) = type_in(alloc, scope, of)? else {
            return Ok(None);
        };
        all.push(of)?;
    }
    Ok(Some(all))
}

// The types of parameters, each once for every name, where all are known.
#[tactic(auto, using(crate::proofs::Signatures::more_known))]
fn parameters_in(
    alloc: Global,
    scope: &Scope<'_>,
    parameters: &[Parameter],
) -> Result<Option<Vec<GoType>>, AllocError>
    ensures { IfOk result (λ ts. option_map (all_of go_type) ts ≡ parameters_known (scope_of scope.now) (map parameter_of parameters.now)) }
{
    let mut all = Vec::new(alloc);
    for parameter in parameters {
        let Some(of) = type_in(alloc, scope, &parameter.type_expr)? else {
            return Ok(None);
        };
        add_copies(&of, &parameter.names, &mut all)?;
    }
    Ok(Some(all))
}

// Adds a type once for every name.
fn add_copies(of: &GoType, names: &[Name], all: &mut Vec<GoType>) -> Result<(), AllocError>
    ensures { OnOk result (map go_type all.new.items ≡ map go_type all.old.items ++ map (λ n. go_type of.now) names.now) }
{
    for _ in names {
        all.push(of.copy()?)?;
    }
    Ok(())
}

// The names of parameters but the blank ones.
fn names_in<'a>(alloc: Global, parameters: &'a [Parameter]) -> Result<Vec<&'a str>, AllocError>
    ensures { IfOk result (λ names. map (λ n. n.now) names.items ≡ parameter_names (map parameter_of parameters.now)) }
{
    let mut all = Vec::new(alloc);
    for parameter in parameters {
        add_names(&parameter.names, &mut all)?;
    }
    Ok(all)
}

fn add_names<'a>(names: &'a [Name], all: &mut Vec<&'a str>) -> Result<(), AllocError>
    ensures { OnOk result (map (λ n. n.now) all.new.items ≡ map (λ n. n.now) all.old.items ++ own_names names.now) }
{
    for name in names {
        let name = name.text();
        if name != "_" {
            all.push(name)?;
        }
    }
    Ok(())
}

// Whether no name stands twice among some.
fn differ(alloc: Global, names: &[&str]) -> Result<bool, AllocError>
    ensures { IfOk result (λ b. b ≡ are_distinct (map (λ n. n.now) names.now)) }
{
    let mut seen = IndexSet::new(alloc);
    for name in names {
        if !seen.insert(*name)? {
            return Ok(false);
        }
    }
    Ok(true)
}
