//! What a specification of constants breaks that repeats the type and the values of another.
//! [Constant declarations](https://go.dev/ref/spec#Constant_declarations)
ghost use Rattle.std.specs.Prelude.{◌≡◌, ◌++◌, IfOk, map, option_map};
ghost use Rattle.go_ast.specs.Views.{expr_of as expr_tree, exprs_in as exprs_trees, type_of as type_tree};
ghost use Rattle.go_types.specs.Views.{go_type};
ghost use Rattle.go_typed.specs.Views.{as_expr};
ghost use Rattle.go_expr.specs.Rules.{fine, least};
ghost use Rattle.go_expr.specs.Views.{scope_of};
ghost use Rattle.go_expr.specs.Verdicts.{verdict, operand, faults, operand_broken, type_verdict, type_faults};
ghost use Rattle.go_stmt.specs.Statements.{first_fault, first_faults, written_faults};

use go_ast::expression::{Expr, TypeExpr};
use go_expr::error::ExprError;
use go_expr::expression::{check_operand, check_type};
use go_expr::gather::lesser;
use go_expr::scope::Scope;
use go_text::fault::FaultKind;
use go_typed::expression::TypedExpr;
use go_types::types::GoType;
use std::alloc::{AllocError, Global};

/// The kind of the first fault of a type. An `Err` only where memory ran out.
fn type_fault(
    alloc: Global,
    scope: &Scope<'_>,
    of: &TypeExpr,
) -> Result<Option<FaultKind>, AllocError>
    ensures { IfOk result (λ kind. kind ≡ least (map (λ f. f.1) (first_fault (type_faults (scope_of scope.now) (type_tree of.now))))) }
{
    match check_type(alloc, scope, of) {
        Ok(_known) => Ok(None),
        Err(ExprError::Faulty(_, kind)) => Ok(Some(kind)),
        Err(ExprError::Memory) => Err(AllocError),
    }
}

/// The kind of the first fault of the type that is written, if one is. An `Err` only where memory ran
/// out.
pub fn written_fault(
    alloc: Global,
    scope: &Scope<'_>,
    of: Option<&TypeExpr>,
) -> Result<Option<FaultKind>, AllocError>
    ensures { let s = scope_of scope.now in let t = option_map (λ t. type_tree t.now) of.entry in
        IfOk result (λ kind. kind ≡ least (map (λ f. f.1) (first_fault (written_faults s t)))) }
{
    match of {
        Some(of) => type_fault(alloc, scope, of),
        None => Ok(None),
    }
}

/// The kind of the first fault of a value. An `Err` only where memory ran out.
pub fn value_fault(
    alloc: Global,
    scope: &Scope<'_>,
    value: &Expr,
) -> Result<Option<FaultKind>, AllocError>
    ensures { let s = scope_of scope.now in let e = expr_tree value.now in
        IfOk result (λ kind. kind ≡ least (map (λ f. f.1) (first_fault (faults s e ++ operand_broken e (verdict s e))))) }
{
    match check_operand(alloc, scope, value) {
        Ok(_known) => Ok(None),
        Err(ExprError::Faulty(_, kind)) => Ok(Some(kind)),
        Err(ExprError::Memory) => Err(AllocError),
    }
}

/// The type that is written, where it is known. An `Err` only where memory ran out.
pub(crate) fn known_type(
    alloc: Global,
    scope: &Scope<'_>,
    of: &TypeExpr,
) -> Result<Option<GoType>, AllocError>
    ensures { IfOk result (λ t. option_map go_type t ≡ fine (type_verdict (scope_of scope.now) (type_tree of.now))) }
{
    match check_type(alloc, scope, of) {
        Ok(of) => Ok(of),
        Err(ExprError::Faulty(_, _)) => Ok(None),
        Err(ExprError::Memory) => Err(AllocError),
    }
}

/// A value, where it is known. An `Err` only where memory ran out.
pub(crate) fn known_value(
    alloc: Global,
    scope: &Scope<'_>,
    value: &Expr,
) -> Result<Option<TypedExpr>, AllocError>
    ensures { IfOk result (λ v. option_map as_expr v ≡ operand (verdict (scope_of scope.now) (expr_tree value.now))) }
{
    match check_operand(alloc, scope, value) {
        Ok(value) => Ok(value),
        Err(ExprError::Faulty(_, _)) => Ok(None),
        Err(ExprError::Memory) => Err(AllocError),
    }
}

fn values_fault(
    alloc: Global,
    scope: &Scope<'_>,
    values: &[Expr],
) -> Result<Option<FaultKind>, AllocError>
    ensures { IfOk result (λ kind. kind ≡ least (map (λ f. f.1) (first_faults (scope_of scope.now) (exprs_trees values.now)))) }
{
    let mut least = None;
    for value in values {
        least = lesser(least, value_fault(alloc, scope, value)?);
    }
    Ok(least)
}

/// Of the first faults of a type, if one is written, and of values the kind of the least number. An
/// `Err` only where memory ran out.
pub fn repeated_fault(
    alloc: Global,
    scope: &Scope<'_>,
    of: Option<&TypeExpr>,
    values: &[Expr],
) -> Result<Option<FaultKind>, AllocError>
    ensures { let s = scope_of scope.now in let t = option_map (λ t. type_tree t.now) of.entry in
        IfOk result (λ kind. kind ≡ least (map (λ f. f.1) (first_fault (written_faults s t) ++ first_faults s (exprs_trees values.now)))) }
{
    let written = written_fault(alloc, scope, of)?;
    let least = values_fault(alloc, scope, values)?;
    Ok(lesser(written, least))
}
