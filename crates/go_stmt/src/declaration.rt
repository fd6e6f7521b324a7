//! Declarations of constants and variables.
//! [Declarations and scope](https://go.dev/ref/spec#Declarations_and_scope)
ghost use Rattle.std.specs.Prelude.{◌≡◌, Some, IfOk, map};
ghost use Rattle.std.specs.List.{list_all};
ghost use Rattle.std.specs.Option.{option_map};
ghost use Rattle.go_types.specs.Views.{go_type};
ghost use Rattle.go_typed.specs.Views.{as_expr, as_source, as_stmt};
ghost use Rattle.go_expr.specs.Views.{Gives};
ghost use Rattle.go_stmt.specs.Rules.{is_constant, constants_source, constants_verdict, has_no_values, variables_source, separate};
ghost use Rattle.go_stmt.specs.Views.{values_seen};

use crate::values::{Values, suited};
use go_ast::name::Name;
use go_expr::error::RuleError;
use go_expr::node::constant_in;
use go_text::fault::FaultKind;
use go_typed::expression::TypedExpr;
use go_typed::statement::{TypedSource, TypedStmt};
use go_types::types::GoType;
use std::alloc::{AllocError, Global};

/// The type of each of some variables.
pub(crate) fn zeros_of(
    alloc: Global,
    of: &GoType,
    names: &[Name],
) -> Result<Vec<GoType>, AllocError>
    ensures { IfOk result (λ ts. map go_type ts.items ≡ map (λ n. go_type of.now) names.now) }
{
    let mut all = Vec::with_capacity(alloc, names.len())?;
    for name in names {
        let _name = name;
        all.push(of.copy()?)?;
    }
    Ok(all)
}

/// The type that is due for each of some names, if one is.
pub(crate) fn due_each(
    alloc: Global,
    of: Option<&GoType>,
    names: &[Name],
) -> Result<Vec<Option<GoType>>, AllocError>
    ensures { IfOk result (λ ts. map (option_map go_type) ts.items ≡ map (λ n. option_map (λ t. go_type t.now) of.entry) names.now) }
{
    let mut all = Vec::with_capacity(alloc, names.len())?;
    for name in names {
        let _name = name;
        let due = match of {
            Some(of) => Some(of.copy()?),
            None => None,
        };
        all.push(due)?;
    }
    Ok(all)
}

fn are_none(values: &Values) -> bool
    ensures { result ≡ has_no_values (values_seen values.now) }
{
    match values {
        Values::Separate(values) => values.len() == 0,
        _ => false,
    }
}

/// The values of some variables, of a type that is written or not. `Count` where they aren't as
/// many; else `Range` or `Assign` where one isn't assignable.
/// [Variable declarations](https://go.dev/ref/spec#Variable_declarations)
pub fn variables_source(
    alloc: Global,
    names: &[Name],
    of: Option<GoType>,
    values: Values,
) -> Result<TypedSource, RuleError>
    ensures { Gives as_source result (variables_source names.now (option_map go_type of) (values_seen values)) }
{
    match of {
        Some(of) => {
            if are_none(&values) {
                return Ok(TypedSource::Zeros(zeros_of(alloc, &of, names)?));
            }
            let due = due_each(alloc, Some(&of), names)?;
            suited(alloc, &due, values)
        }
        None => {
            let due = due_each(alloc, None, names)?;
            suited(alloc, &due, values)
        }
    }
}

fn are_constant(values: &[TypedExpr]) -> bool
    ensures { result ≡ list_all is_constant (map as_expr values.now) }
{
    for value in values {
        if constant_in(value).is_none() {
            return false;
        }
    }
    true
}

fn constants_source(
    alloc: Global,
    names: &[Name],
    of: Option<GoType>,
    values: Vec<TypedExpr>,
) -> Result<TypedSource, RuleError>
    ensures { Gives as_source result (constants_source names.now (option_map go_type of) (map as_expr values.items)) }
{
    match of {
        Some(of) => {
            let due = due_each(alloc, Some(&of), names)?;
            suited(alloc, &due, Values::Separate(values))
        }
        None => Ok(TypedSource::Each(Vec::new(alloc))),
    }
}

/// A declaration of constants with these values, of a type that is written or not. `Mismatch` where
/// one isn't constant; `Count` where they aren't as many as the names; else `Range` or `Assign` where
/// one isn't assignable. [Constant declarations](https://go.dev/ref/spec#Constant_declarations)
#[tactic(auto, unfolding(go_typed::specs::Views::as_stmt))]
pub fn constants_of(
    alloc: Global,
    names: &[Name],
    of: Option<GoType>,
    values: Vec<TypedExpr>,
) -> Result<TypedStmt, RuleError>
    ensures { Gives as_stmt result (constants_verdict names.now (option_map go_type of) (map as_expr values.items)) }
{
    if !are_constant(&values) {
        return Err(RuleError::Broken(FaultKind::Mismatch));
    }
    if names.len() != values.len() {
        return Err(RuleError::Broken(FaultKind::Count));
    }
    constants_source(alloc, names, of, values)?;
    Ok(TypedStmt::Define(Vec::new(alloc), TypedSource::Each(Vec::new(alloc))))
}
