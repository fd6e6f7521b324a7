//! What is known of one object, by what is known of the others.
ghost use Rattle.std.specs.Prelude.{◌≡◌, nat_eq, if◌then◌else◌, length, slice_get, option_and_then, Some, None, IfOk};
ghost use Rattle.std.specs.Option.{option_map};
ghost use Rattle.go_ast.specs.Views.{expr_of as expr_tree, type_of as type_tree};
ghost use Rattle.go_types.specs.Views.{go_type};
ghost use Rattle.go_typed.specs.Views.{as_expr};
ghost use Rattle.go_expr.specs.Rules.{fine, valued, constant_due, is_small, settled_type};
ghost use Rattle.go_expr.specs.Verdicts.{operand, verdict, type_verdict};
ghost use Rattle.go_expr.specs.Views.{declared_of, names_of, scope_of};
ghost use Rattle.go_objects.specs.Table.{scope_at, declared_value, constant_verdict, named_type, call_result_type, variable, iota_in, form_verdict, object_verdict, declared_in};
ghost use Rattle.go_objects.specs.Views.{form_of, object_view};
ghost use Rattle.go_objects.specs.Packages.{package_of};

use crate::object::{Form, Object};
use crate::package::{Package, imports_at};
use crate::signature::function_in;
use go_ast::expression::{Expr, TypeExpr};
use go_expr::error::{ExprError, RuleError};
use go_expr::expression::{check_expr, check_operand, check_type};
use go_expr::known::{Declared, Known, Names};
use go_expr::node::{constant_in as constant_of_value, type_in as type_of_value};
use go_expr::scope::Scope;
use go_expr::value::{assigned, settled_type};
use go_symbol::Symbol;
use go_typed::expression::TypedExpr;
use go_types::relations::underlying;
use go_types::sizes::{cells, nodes};
use go_types::types::{GoType, Named};
use std::alloc::{AllocError, Global};
use std::sync::Arc;

/// What an object declares, where that is known: nothing of one that has a fault. An `Err` only
/// where memory ran out.
pub(crate) fn declared_by(
    alloc: Global,
    package: &Package<'_>,
    known: &Names,
    object: &Object<'_>,
) -> Result<Option<Declared>, AllocError>
    ensures { IfOk result (λ d. option_map declared_of d
        ≡ declared_in (fine (object_verdict (package_of «package».now) (names_of known.now) (object_view object.now)))) }
{
    let scope = scope_in(package, known, object.file, iota_in(object.form));
    declared_as(alloc, &scope, package.path, object.name.text(), object.form)
}

// The value that iota has in a form.
fn iota_in(form: Form<'_>) -> Option<u64>
    ensures { result ≡ iota_in (form_of form.entry) }
{
    match form {
        Form::Constant { iota, .. } => Some(iota),
        _ => None,
    }
}

// What a name of a package declares by a form.
fn declared_as(
    alloc: Global,
    scope: &Scope<'_>,
    path: &str,
    name: &str,
    form: Form<'_>,
) -> Result<Option<Declared>, AllocError>
    ensures { IfOk result (λ d. option_map declared_of d
        ≡ declared_in (fine (form_verdict (scope_of scope.now) (record { path = path.now; name = name.now }) (form_of form.entry)))) }
{
    match form {
        Form::Constant {
            type_expr,
            value,
            ..
        } => constant_in(alloc, scope, type_expr, value),
        Form::Type(of) => match type_in(alloc, scope, of)? {
            Some(of) => named_type(alloc, path, name, &of),
            None => Ok(None),
        },
        Form::TypedVariable(of) => variable(alloc, path, name, type_in(alloc, scope, of)?),
        Form::ValuedVariable(value) => {
            variable(alloc, path, name, value_type(alloc, scope, value)?)
        }
        Form::ResultVariable(number, count, value) => {
            let of = result_type(alloc, scope, number, count, value)?;
            variable(alloc, path, name, of)
        }
        Form::Function(parameters, results) => {
            function_in(alloc, scope, path, name, parameters, results)
        }
        Form::Other(_, _) => Ok(None),
    }
}

/// Where an object of a file stands, by what is known of the package's names; of a constant iota has
/// a value. [Declarations and scope](https://go.dev/ref/spec#Declarations_and_scope)
pub fn scope_in<'a>(
    package: &'a Package<'a>,
    known: &'a Names,
    file: usize,
    iota: Option<u64>,
) -> Scope<'a>
    ensures { scope_of result ≡ scope_at (package_of «package».now) (names_of known.now) file iota }
{
    Scope::new(
        package.path,
        package.edition,
        imports_at(package, file),
        known,
        iota,
    )
}

// A constant, by the type that is written, if one is, and its value.
fn constant_in(
    alloc: Global,
    scope: &Scope<'_>,
    type_expr: Option<&TypeExpr>,
    value: &Expr,
) -> Result<Option<Declared>, AllocError>
    ensures { IfOk result (λ d. option_map declared_of d
        ≡ declared_in (fine (constant_verdict (scope_of scope.now) (option_map (λ t. type_tree t.now) type_expr.entry) (expr_tree value.now)))) }
{
    let value = match type_expr {
        None => operand_in(alloc, scope, value)?,
        Some(of) => assigned_in(alloc, scope, of, value)?,
    };
    match value {
        Some(value) => declared_constant(&value),
        None => Ok(None),
    }
}

fn declared_constant(value: &TypedExpr) -> Result<Option<Declared>, AllocError>
    ensures { IfOk result (λ d. option_map declared_of d ≡ declared_in (fine (valued (constant_due (as_expr value.now))))) }
{
    let Some(constant) = constant_of_value(value) else {
        return Ok(None);
    };
    let of = type_of_value(value).copy()?;
    Ok(Some(Declared::Constant(of, constant.copy()?)))
}

// The value that an operand is, as one of a type, if both are known and it is assignable.
fn assigned_in(
    alloc: Global,
    scope: &Scope<'_>,
    of: &TypeExpr,
    value: &Expr,
) -> Result<Option<TypedExpr>, AllocError>
    ensures { IfOk result (λ v. option_map as_expr v ≡ declared_value (scope_of scope.now) (Some (type_tree of.now)) (expr_tree value.now)) }
{
    let Some(of) = type_in(alloc, scope, of)? else {
        return Ok(None);
    };
    let Some(value) = operand_in(alloc, scope, value)? else {
        return Ok(None);
    };
    match assigned(alloc, of, value) {
        Ok(value) => Ok(Some(value)),
        Err(RuleError::Broken(_)) => Ok(None),
        Err(RuleError::Memory) => Err(AllocError),
    }
}

// A variable of a type, where that is known.
fn variable(
    alloc: Global,
    path: &str,
    name: &str,
    of: Option<GoType>,
) -> Result<Option<Declared>, AllocError>
    ensures { IfOk result (λ d. option_map declared_of d
        ≡ declared_in (fine (variable (record { path = path.now; name = name.now }) (option_map go_type of)))) }
{
    let Some(of) = of else {
        return Ok(None);
    };
    Ok(Some(Declared::Global(of, symbol(alloc, path, name)?)))
}

/// What something that a package declares is known by. An `Err` only where memory ran out.
pub(crate) fn symbol(alloc: Global, path: &str, name: &str) -> Result<Symbol, AllocError>
    ensures { IfOk result (λ s. s ≡ record { path = path.now; name = name.now }) }
{
    let path = String::from_str(alloc, path)?;
    let name = String::from_str(alloc, name)?;
    Ok(Symbol::new(path, name))
}

// The type that a variable takes of its value, if that is known and lies in it.
fn value_type(alloc: Global, scope: &Scope<'_>, value: &Expr) -> Result<Option<GoType>, AllocError>
    ensures { IfOk result (λ t. option_map go_type t
        ≡ option_and_then settled_type (operand (verdict (scope_of scope.now) (expr_tree value.now)))) }
{
    match operand_in(alloc, scope, value)? {
        Some(value) => settled_type(&value),
        None => Ok(None),
    }
}

// The type of one of as many results of a call, if it has so many.
fn result_type(
    alloc: Global,
    scope: &Scope<'_>,
    number: usize,
    count: usize,
    value: &Expr,
) -> Result<Option<GoType>, AllocError>
    ensures { IfOk result (λ t. option_map go_type t ≡ call_result_type number count (fine (verdict (scope_of scope.now) (expr_tree value.now)))) }
{
    match check_expr(alloc, scope, value) {
        Ok(Some(Known::Results(types, _, _))) => numbered_type(&types, number, count),
        Ok(_) => Ok(None),
        Err(ExprError::Faulty(_, _)) => Ok(None),
        Err(ExprError::Memory) => Err(AllocError),
    }
}

// The type of a number among as many.
fn numbered_type(
    types: &[GoType],
    number: usize,
    count: usize,
) -> Result<Option<GoType>, AllocError>
    ensures { IfOk result (λ t. option_map go_type t ≡ (if nat_eq (length types.now) count then option_map go_type (slice_get types.now number) else None)) }
{
    if types.len() != count {
        return Ok(None);
    }
    match types.get(number) {
        Some(of) => Ok(Some(of.copy()?)),
        None => Ok(None),
    }
}

/// The value that an operand is, if it is known. An `Err` only where memory ran out.
pub fn operand_in(
    alloc: Global,
    scope: &Scope<'_>,
    value: &Expr,
) -> Result<Option<TypedExpr>, AllocError>
    ensures { IfOk result (λ v. option_map as_expr v ≡ operand (verdict (scope_of scope.now) (expr_tree value.now))) }
{
    match check_operand(alloc, scope, value) {
        Ok(value) => Ok(value),
        Err(ExprError::Faulty(_, _)) => Ok(None),
        Err(ExprError::Memory) => Err(AllocError),
    }
}

/// The type that is written, if it is known. An `Err` only where memory ran out.
pub fn type_in(
    alloc: Global,
    scope: &Scope<'_>,
    of: &TypeExpr,
) -> Result<Option<GoType>, AllocError>
    ensures { IfOk result (λ t. option_map go_type t ≡ fine (type_verdict (scope_of scope.now) (type_tree of.now))) }
{
    match check_type(alloc, scope, of) {
        Ok(found) => Ok(found),
        Err(ExprError::Faulty(_, _)) => Ok(None),
        Err(ExprError::Memory) => Err(AllocError),
    }
}

/// The type that a package declares under a name, if it has no more parts than it may. An `Err` only
/// where memory ran out. [Type definitions](https://go.dev/ref/spec#Type_definitions)
pub fn named_type(
    alloc: Global,
    path: &str,
    name: &str,
    of: &GoType,
) -> Result<Option<Declared>, AllocError>
    ensures { IfOk result (λ d. option_map declared_of d ≡ declared_in (fine (named_type path.now name.now (go_type of.now)))) }
{
    let path = String::from_str(alloc, path)?;
    let name = String::from_str(alloc, name)?;
    let named = Named::new(path, name, underlying(of).copy()?);
    let of = GoType::Named(Arc::new(alloc, named)?);
    if is_small(&of) {
        Ok(Some(Declared::Type(of)))
    } else {
        Ok(None)
    }
}

// Whether a type and its values have no more parts than they may.
fn is_small(of: &GoType) -> bool
    ensures { result ≡ is_small (go_type of.now) }
{
    nodes(of).is_ok() && cells(of).is_ok()
}
