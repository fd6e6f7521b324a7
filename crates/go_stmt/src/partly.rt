//! Values where it isn't known of all what is due for them.
//! [Short variable declarations](https://go.dev/ref/spec#Short_variable_declarations)
ghost use Rattle.std.specs.Prelude.{◌≡◌, [], Some, IfOk, map, unwrap_or};
ghost use Rattle.std.specs.List.{zip};
ghost use Rattle.std.specs.Option.{option_map};
ghost use Rattle.go_types.specs.Views.{go_type};
ghost use Rattle.go_typed.specs.Views.{as_expr, as_source};
ghost use Rattle.go_expr.specs.Rules.{fine_list};
ghost use Rattle.go_expr.specs.Views.{all_of, Gives};
ghost use Rattle.go_stmt.specs.Rules.{all_some, suited_if, suited_partly};
ghost use Rattle.go_stmt.specs.Views.{values_seen, due_seen};

use crate::values::{Values, suit_one, suited};
use go_expr::error::RuleError;
use go_expr::gather::Gathered;
use go_text::fault::FaultKind;
use go_typed::expression::TypedExpr;
use go_typed::statement::TypedSource;
use go_types::types::GoType;
use std::alloc::{AllocError, Global};

/// What is due for a name, where that is known: a type, or none.
pub(crate) type Due = Option<Option<GoType>>;

/// The type that is due, if one is.
fn due_type(due: &Due) -> Result<Option<GoType>, AllocError>
    ensures { IfOk result (λ t. option_map go_type t ≡ unwrap_or (due_seen due.now) None) }
{
    match due {
        Some(Some(of)) => Ok(Some(of.copy()?)),
        Some(None) | None => Ok(None),
    }
}

/// The types that are due, as far as they are known.
fn due_types(alloc: Global, due: &[Due]) -> Result<Vec<Option<GoType>>, AllocError>
    ensures { IfOk result (λ ts. map (option_map go_type) ts.items ≡ map (λ t. unwrap_or t None) (map due_seen due.now)) }
{
    let mut all = Vec::with_capacity(alloc, due.len())?;
    for one in due {
        all.push(due_type(one)?)?;
    }
    Ok(all)
}

/// The types that are due, where all are known.
pub(crate) fn known_due(
    alloc: Global,
    due: &[Due],
) -> Result<Option<Vec<Option<GoType>>>, AllocError>
    ensures { IfOk result (λ ts. option_map (all_of (option_map go_type)) ts ≡ all_some (map due_seen due.now)) }
{
    let mut all = Vec::with_capacity(alloc, due.len())?;
    for one in due {
        if one.is_none() {
            return Ok(None);
        }
        all.push(due_type(one)?)?;
    }
    Ok(Some(all))
}

/// What is due for results, each where its type is known.
pub(crate) fn dues(alloc: Global, types: &[Option<GoType>]) -> Result<Vec<Due>, AllocError>
    ensures { IfOk result (λ due. map due_seen due.items ≡ map (option_map Some) (map (option_map go_type) types.now)) }
{
    let mut all = Vec::with_capacity(alloc, types.len())?;
    for of in types {
        let due = match of {
            Some(of) => Some(Some(of.copy()?)),
            None => None,
        };
        all.push(due)?;
    }
    Ok(all)
}

/// A value as what is due for it, where that is known.
fn suit_if(alloc: Global, due: &Due, value: TypedExpr) -> Result<TypedExpr, RuleError>
    ensures { Gives as_expr result (suited_if (due_seen due.now, as_expr value)) }
{
    match due {
        Some(of) => suit_one(alloc, of, value),
        None => Ok(value),
    }
}

/// Values as what is due for them, each where that is known.
fn suit_known(
    alloc: Global,
    due: &[Due],
    values: Vec<TypedExpr>,
) -> Result<Vec<TypedExpr>, RuleError>
    ensures { Gives (all_of as_expr) result (fine_list [] (map suited_if (zip (map due_seen due.now) (map as_expr values.items)))) }
{
    let mut all = Gathered::new(alloc, None);
    let mut i = 0;
    for value in values {
        let Some(one) = due.get(i) else {
            return all.finish();
        };
        all.add(suit_if(alloc, one, value))?;
        i += 1;
    }
    all.finish()
}

/// Values where it isn't known of all what is due. `Count` where they aren't as many; else `Range` or
/// `Assign` where one isn't assignable of which it is known.
pub(crate) fn suited_partly(
    alloc: Global,
    due: &[Due],
    values: Values,
) -> Result<TypedSource, RuleError>
    ensures { Gives as_source result (suited_partly (map due_seen due.now) (values_seen values)) }
{
    match values {
        Values::Separate(values) => {
            if due.len() != values.len() {
                return Err(RuleError::Broken(FaultKind::Count));
            }
            Ok(TypedSource::Each(suit_known(alloc, due, values)?))
        }
        values => {
            let types = due_types(alloc, due)?;
            suited(alloc, &types, values)
        }
    }
}
