//! Names in expressions and types.
ghost use Rattle.std.specs.Prelude.{◌≡◌, map, false, IfOk};
ghost use Rattle.std.specs.Option.{option_map};
ghost use Rattle.go_ast.specs.Views.{type_of, expr_of, exprs_in, if_boxed, if_some};
ghost use Rattle.go_scope.specs.Names.{in_type, in_expr, in_exprs, used};
ghost use Rattle.go_uses.specs.Uses.{if_any};

use go_ast::expression::{Expr, TypeExpr};
use go_scope::names::{UsedName, add_names, add_type_names};
use std::alloc::{AllocError, Global};

/// The names that a type uses. An `Err` only where memory ran out.
pub(crate) fn in_type<'a>(alloc: Global, of: &'a TypeExpr) -> Result<Vec<UsedName<'a>>, AllocError>
    ensures { IfOk result (λ names. map used names.items ≡ in_type (type_of of.now)) }
{
    let mut names = Vec::new(alloc);
    add_type_names(of, &mut names)?;
    Ok(names)
}

/// Those of an expression.
pub(crate) fn in_expr<'a>(alloc: Global, e: &'a Expr) -> Result<Vec<UsedName<'a>>, AllocError>
    ensures { IfOk result (λ names. map used names.items ≡ in_expr false (expr_of e.now)) }
{
    let mut names = Vec::new(alloc);
    add_names(e, &mut names)?;
    Ok(names)
}

/// Those of some expressions.
pub(crate) fn in_exprs<'a>(alloc: Global, es: &'a [Expr]) -> Result<Vec<UsedName<'a>>, AllocError>
    ensures { IfOk result (λ names. map used names.items ≡ in_exprs (exprs_in es.now)) }
{
    let mut names = Vec::new(alloc);
    for e in es {
        add_names(e, &mut names)?;
    }
    Ok(names)
}

/// Those of the type that is written, if one is.
pub(crate) fn in_written<'a>(
    alloc: Global,
    of: Option<&'a TypeExpr>,
) -> Result<Vec<UsedName<'a>>, AllocError>
    ensures { IfOk result (λ names. map used names.items ≡ if_any in_type (option_map (λ t. type_of t.now) of.entry)) }
{
    match of {
        Some(of) => in_type(alloc, of),
        None => Ok(Vec::new(alloc)),
    }
}

/// Those of a condition, if there is one.
pub(crate) fn in_condition<'a>(
    alloc: Global,
    condition: &'a Option<Box<Expr>>,
) -> Result<Vec<UsedName<'a>>, AllocError>
    ensures { IfOk result (λ names. map used names.items ≡ if_any (in_expr false) (if_boxed expr_of condition.now)) }
{
    match condition {
        Some(condition) => in_expr(alloc, condition),
        None => Ok(Vec::new(alloc)),
    }
}

/// Those of the values of a case, if it is no default.
pub(crate) fn in_case<'a>(
    alloc: Global,
    values: &'a Option<Vec<Expr>>,
) -> Result<Vec<UsedName<'a>>, AllocError>
    ensures { IfOk result (λ names. map used names.items ≡ if_any in_exprs (if_some (λ es. exprs_in es.items) values.now)) }
{
    match values {
        Some(values) => in_exprs(alloc, values),
        None => Ok(Vec::new(alloc)),
    }
}
