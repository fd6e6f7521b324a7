//! Values that stand together, and the types that are due for them.
//! [Assignment statements](https://go.dev/ref/spec#Assignment_statements)
ghost use Rattle.std.specs.Prelude.{◌≡◌, [], IfOk, map, option_and_then};
ghost use Rattle.std.specs.List.{zip, list_all};
ghost use Rattle.std.specs.Option.{option_map};
ghost use Rattle.go_ast.specs.Trees.{some_exprs, no_exprs};
ghost use Rattle.go_ast.specs.Views.{expr_of as expr_tree, exprs_in as exprs_trees};
ghost use Rattle.go_types.specs.Views.{go_type};
ghost use Rattle.go_typed.specs.Views.{as_expr, as_source};
ghost use Rattle.go_expr.specs.Rules.{settled_type, fine_list};
ghost use Rattle.go_expr.specs.Verdicts.{operand, verdict, asked, bare_place};
ghost use Rattle.go_expr.specs.Views.{known_of, scope_of, all_of, Gives, AnswersAt};
ghost use Rattle.go_stmt.specs.Rules.{separate, values_of, all_some, suited_one, suited, takes};
ghost use Rattle.go_stmt.specs.Statements.{each_of, operands_faults, alone_types, values_known, values_faults, value_types};
ghost use Rattle.go_stmt.specs.Views.{values_seen, Finds};

use crate::repeated::known_value;
use go_ast::expression::Expr;
use go_expr::due::bare_place;
use go_expr::error::{ExprError, RuleError};
use go_expr::expression::{check_expr, check_operand};
use go_expr::gather::Gathered;
use go_expr::known::Known;
use go_expr::scope::Scope;
use go_expr::value::{assigned, defaulted, settled_type};
use go_symbol::Symbol;
use go_text::fault::FaultKind;
use go_typed::expression::TypedExpr;
use go_typed::statement::TypedSource;
use go_types::relations::assignable;
use go_types::types::GoType;
use std::alloc::{AllocError, Global};

/// Values that stand together.
#[derive(Drop)]
pub enum Values {
    /// Each by an expression.
    Separate(Vec<TypedExpr>),
    /// All results of one call, of these types.
    Together(Vec<GoType>, Symbol, Vec<TypedExpr>),
    /// A call that has no result.
    Nothing,
}

/// Values, where all are known, and the types that variables take by them, each where its value is
/// known.
#[derive(Drop)]
pub struct Valued {
    /// The types.
    pub types: Vec<Option<GoType>>,
    /// The values.
    pub known: Option<Values>,
}

/// What one expression gives that stands alone. `Count` comes where it is a call of panic or has
/// no result, once that is asked; `Mismatch` where it is no value.
fn alone<'a>(alloc: Global, e: &Expr, known: Option<Known<'a>>) -> Result<Option<Values>, ExprError>
    ensures { AnswersAt values_seen result (bare_place (expr_tree e.now)) (asked values_of (option_map known_of known.entry)) }
{
    match known {
        None => Ok(None),
        Some(Known::Value(value)) => Ok(Some(Values::Separate(vec![in alloc; value]?))),
        Some(Known::Results(types, symbol, arguments)) => {
            Ok(Some(Values::Together(types, symbol, arguments)))
        }
        Some(Known::Panicked(_)) => Ok(Some(Values::Nothing)),
        Some(_) => Err(ExprError::Faulty(bare_place(e), FaultKind::Mismatch)),
    }
}

/// Each of some values, where it is known.
pub(crate) fn check_each(
    alloc: Global,
    scope: &Scope<'_>,
    es: &[Expr],
) -> Result<Vec<Option<TypedExpr>>, ExprError>
    ensures faults { Finds result (operands_faults (scope_of scope.now) (exprs_trees es.now)) }
    ensures values { IfOk result (λ vs. map (option_map as_expr) vs.items ≡ each_of (λ e. operand (verdict (scope_of scope.now) e)) (exprs_trees es.now)) }
{
    let mut all = Vec::with_capacity(alloc, es.len())?;
    for e in es {
        all.push(check_operand(alloc, scope, e)?)?;
    }
    Ok(all)
}

/// Each of some values, where it is known, whatever their faults are. An `Err` only where memory ran out.
pub(crate) fn known_values(
    alloc: Global,
    scope: &Scope<'_>,
    es: &[Expr],
) -> Result<Vec<Option<TypedExpr>>, AllocError>
    ensures { IfOk result (λ vs. map (option_map as_expr) vs.items ≡ each_of (λ e. operand (verdict (scope_of scope.now) e)) (exprs_trees es.now)) }
{
    let mut all = Vec::with_capacity(alloc, es.len())?;
    for e in es {
        all.push(known_value(alloc, scope, e)?)?;
    }
    Ok(all)
}

/// Some values, where all are known.
pub(crate) fn all_known(
    alloc: Global,
    values: Vec<Option<TypedExpr>>,
) -> Result<Option<Vec<TypedExpr>>, AllocError>
    ensures { IfOk result (λ all. option_map (all_of as_expr) all ≡ all_some (map (option_map as_expr) values.items)) }
{
    let mut all = Vec::with_capacity(alloc, values.len())?;
    for value in values {
        let Some(value) = value else {
            return Ok(None);
        };
        all.push(value)?;
    }
    Ok(Some(all))
}

/// The type that a variable takes of a value, where that is known.
fn type_by(value: &Option<TypedExpr>) -> Result<Option<GoType>, AllocError>
    ensures { IfOk result (λ t. option_map go_type t ≡ option_and_then settled_type (option_map as_expr value.now)) }
{
    match value {
        Some(value) => settled_type(value),
        None => Ok(None),
    }
}

fn types_by(alloc: Global, values: &[Option<TypedExpr>]) -> Result<Vec<Option<GoType>>, AllocError>
    ensures { IfOk result (λ ts. map (option_map go_type) ts.items ≡ map (option_and_then settled_type) (map (option_map as_expr) values.now)) }
{
    let mut all = Vec::with_capacity(alloc, values.len())?;
    for value in values {
        all.push(type_by(value)?)?;
    }
    Ok(all)
}

/// The types that variables take of values.
fn types_in(alloc: Global, values: &[TypedExpr]) -> Result<Vec<Option<GoType>>, AllocError>
    ensures { IfOk result (λ ts. map (option_map go_type) ts.items ≡ map settled_type (map as_expr values.now)) }
{
    let mut all = Vec::with_capacity(alloc, values.len())?;
    for value in values {
        all.push(settled_type(value)?)?;
    }
    Ok(all)
}

/// Types that are due.
fn all_due(alloc: Global, types: &[GoType]) -> Result<Vec<Option<GoType>>, AllocError>
    ensures { IfOk result (λ due. map (option_map go_type) due.items ≡ map Some (map go_type types.now)) }
{
    let mut all = Vec::with_capacity(alloc, types.len())?;
    for of in types {
        all.push(Some(of.copy()?))?;
    }
    Ok(all)
}

/// The types of variables by what stands alone.
fn alone_types(alloc: Global, values: &Option<Values>) -> Result<Vec<Option<GoType>>, AllocError>
    ensures { IfOk result (λ ts. map (option_map go_type) ts.items ≡ alone_types (option_map values_seen values.now)) }
{
    match values {
        None => Ok(vec![in alloc; None]?),
        Some(Values::Separate(values)) => types_in(alloc, values),
        Some(Values::Together(types, _, _)) => all_due(alloc, types),
        Some(Values::Nothing) => Ok(Vec::new(alloc)),
    }
}

/// What one expression is that stands alone.
fn check_alone(alloc: Global, scope: &Scope<'_>, e: &Expr) -> Result<Valued, ExprError>
    ensures faults { Finds result (values_faults (scope_of scope.now) (some_exprs (expr_tree e.now) no_exprs)) }
    ensures types { IfOk result (λ v. map (option_map go_type) v.types.items ≡ value_types (scope_of scope.now) (some_exprs (expr_tree e.now) no_exprs)) }
    ensures known { IfOk result (λ v. option_map values_seen v.known ≡ values_known (scope_of scope.now) (some_exprs (expr_tree e.now) no_exprs)) }
{
    let known = check_expr(alloc, scope, e)?;
    let known = alone(alloc, e, known)?;
    let types = alone_types(alloc, &known)?;
    Ok(Valued { types, known })
}

/// What several expressions are, or none.
#[tactic(auto, using(crate::proofs::Several::each_mapped))]
fn check_separate(alloc: Global, scope: &Scope<'_>, es: &[Expr]) -> Result<Valued, ExprError>
    ensures faults { Finds result (operands_faults (scope_of scope.now) (exprs_trees es.now)) }
    ensures types { IfOk result (λ v. map (option_map go_type) v.types.items ≡
        each_of (λ e. option_and_then settled_type (operand (verdict (scope_of scope.now) e))) (exprs_trees es.now)) }
    ensures known { IfOk result (λ v. option_map values_seen v.known ≡
        option_map separate (all_some (each_of (λ e. operand (verdict (scope_of scope.now) e)) (exprs_trees es.now)))) }
{
    let values = check_each(alloc, scope, es)?;
    let types = types_by(alloc, &values)?;
    let known = match all_known(alloc, values)? {
        Some(values) => Some(Values::Separate(values)),
        None => None,
    };
    Ok(Valued { types, known })
}

/// Values that stand together: each is one value, unless one call stands alone.
pub fn check_values(alloc: Global, scope: &Scope<'_>, es: &[Expr]) -> Result<Valued, ExprError>
    ensures faults { Finds result (values_faults (scope_of scope.now) (exprs_trees es.now)) }
    ensures types { IfOk result (λ v. map (option_map go_type) v.types.items ≡ value_types (scope_of scope.now) (exprs_trees es.now)) }
    ensures known { IfOk result (λ v. option_map values_seen v.known ≡ values_known (scope_of scope.now) (exprs_trees es.now)) }
{
    match es {
        [] => check_separate(alloc, scope, es),
        [e] => check_alone(alloc, scope, e),
        [_, _, ..] => check_separate(alloc, scope, es),
    }
}

/// A value as one of the type that is due, or of the type that it takes where none is.
pub(crate) fn suit_one(
    alloc: Global,
    of: &Option<GoType>,
    value: TypedExpr,
) -> Result<TypedExpr, RuleError>
    ensures { Gives as_expr result (suited_one (option_map go_type of.now, as_expr value)) }
{
    match of {
        Some(of) => assigned(alloc, of.copy()?, value),
        None => defaulted(alloc, value),
    }
}

fn suit_each(
    alloc: Global,
    due: &[Option<GoType>],
    values: Vec<TypedExpr>,
) -> Result<Vec<TypedExpr>, RuleError>
    ensures { Gives (all_of as_expr) result (fine_list [] (map suited_one (zip (map (option_map go_type) due.now) (map as_expr values.items)))) }
{
    let mut all = Gathered::new(alloc, None);
    let mut i = 0;
    for value in values {
        let Some(of) = due.get(i) else {
            return all.finish();
        };
        all.add(suit_one(alloc, of, value))?;
        i += 1;
    }
    all.finish()
}

fn takes(due: &Option<GoType>, of: &GoType) -> bool
    ensures { result ≡ takes (option_map go_type due.now, go_type of.now) }
{
    match due {
        Some(due) => assignable(of, due),
        None => true,
    }
}

fn all_take(due: &[Option<GoType>], results: &[GoType]) -> bool
    ensures { result ≡ list_all takes (zip (map (option_map go_type) due.now) (map go_type results.now)) }
{
    let mut rest = due;
    for of in results {
        let [first, others @ ..] = rest else {
            return true;
        };
        if !takes(first, of) {
            return false;
        }
        rest = others;
    }
    true
}

/// Values where types are due, or none are. `Count` where they aren't as many; else `Range` or
/// `Assign` where one isn't assignable.
/// [Assignability](https://go.dev/ref/spec#Assignability)
pub fn suited(
    alloc: Global,
    due: &[Option<GoType>],
    values: Values,
) -> Result<TypedSource, RuleError>
    ensures { Gives as_source result (suited (map (option_map go_type) due.now) (values_seen values)) }
{
    match values {
        Values::Separate(values) => {
            if due.len() != values.len() {
                return Err(RuleError::Broken(FaultKind::Count));
            }
            Ok(TypedSource::Each(suit_each(alloc, due, values)?))
        }
        Values::Together(types, symbol, arguments) => {
            if types.len() == 0 || due.len() != types.len() {
                return Err(RuleError::Broken(FaultKind::Count));
            }
            if !all_take(due, &types) {
                return Err(RuleError::Broken(FaultKind::Assign));
            }
            Ok(TypedSource::Results(types, symbol, arguments))
        }
        Values::Nothing => Err(RuleError::Broken(FaultKind::Count)),
    }
}
