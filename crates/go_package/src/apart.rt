//! Constants and variables that are asked by themselves.
ghost use Rattle.std.specs.Prelude.{◌≡◌, ◌≢◌, ◌++◌, [], map, false, IfOk};
ghost use Rattle.std.specs.List.{flat_map, list_any, slice_get};
ghost use Rattle.std.specs.Option.{option_map};
ghost use Rattle.go_ast.specs.Views.{expr_of as expr_tree, type_of as type_tree};
ghost use Rattle.go_types.specs.Views.{go_type};
ghost use Rattle.go_typed.specs.Views.{as_expr};
ghost use Rattle.go_scope.specs.Names.{used, in_exprs};
ghost use Rattle.go_expr.specs.Rules.{least, defaulted};
ghost use Rattle.go_expr.specs.Views.{scope_of, names_of, Gives};
ghost use Rattle.go_expr.specs.Verdicts.{asked_both, operand, verdict, broken, operand_broken, faults};
ghost use Rattle.go_objects.specs.Packages.{package_of};
ghost use Rattle.go_objects.specs.Views.{object_view, spec_of};
ghost use Rattle.go_objects.specs.Table.{in_written};
ghost use Rattle.go_package.specs.Faults.{is_known, written_type, own_constant, constant_faults, variable_faults, object_faults, is_of_spec, hides, hides_repeated, apart};
ghost use Rattle.go_stmt.specs.Statements.{written_faults, least_at};
ghost use Rattle.go_package.specs.Views.{facts_of, Finds};

use crate::facts::Facts;
use crate::variables::check_written;
use go_ast::expression::{Expr, TypeExpr};
use go_expr::error::{ExprError, RuleError};
use go_expr::expression::check_operand;
use go_expr::gather::lesser;
use go_expr::known::Names;
use go_expr::node::constant_in;
use go_expr::scope::Scope;
use go_expr::value::{assigned, defaulted};
use go_objects::declarations::Spec;
use go_objects::evaluation::{operand_in, scope_in, type_in};
use go_objects::object::{Form, Object};
use go_objects::package::{Package, spec_names};
use go_scope::names::UsedName;
use go_stmt::hidden::is_unknown;
use go_stmt::repeated::{value_fault, written_fault};
use go_text::fault::FaultKind;
use go_text::place::Place;
use go_typed::expression::TypedExpr;
use go_types::types::GoType;
use std::alloc::{AllocError, Global};

/// The least fault of the objects of a specification, each by itself, told where it begins, unless a
/// name in it hides that: a faulty one of another specification.
pub(crate) fn check_apart(
    alloc: Global,
    facts: &Facts<'_>,
    file: usize,
    place: Place,
    spec: Spec<'_>,
    objects: &[Object<'_>],
) -> Result<(), ExprError>
    ensures { Finds result (apart (facts_of facts.now) file place false (in_written (spec_of spec.entry).type ++ in_exprs (spec_of spec.entry).values) (map object_view objects.now)) }
{
    let names = spec_names(alloc, spec)?;
    if is_hidden(facts, file, place, &names) {
        return Ok(());
    }
    check_least(alloc, facts, place, objects)
}

// Whether a name hides the faults of a specification that begins at a place and repeats its type and
// its values: it stands there for a faulty declaration, and no other of the specification declares it.
// An `Err` only where memory ran out.
pub(crate) fn hides_repeated(
    alloc: Global,
    facts: &Facts<'_>,
    file: usize,
    scope: &Scope<'_>,
    place: Place,
    spec: Spec<'_>,
) -> Result<bool, AllocError>
    ensures { let names = in_written (spec_of spec.entry).type ++ in_exprs (spec_of spec.entry).values in
        IfOk result (λ b. b ≡ list_any (hides_repeated (facts_of facts.now) file place (scope_of scope.now)) names) }
{
    let names = spec_names(alloc, spec)?;
    any_hides_repeated(facts, file, scope, place, &names)
}

fn any_hides_repeated(
    facts: &Facts<'_>,
    file: usize,
    scope: &Scope<'_>,
    place: Place,
    names: &[UsedName<'_>],
) -> Result<bool, AllocError>
    ensures { IfOk result (λ b. b ≡ list_any (hides_repeated (facts_of facts.now) file place (scope_of scope.now)) (map used names.now)) }
{
    for name in names {
        if is_unknown(scope, place, *name)? && hides(facts, file, place, *name) {
            return Ok(true);
        }
    }
    Ok(false)
}

// Whether one of some names hides the faults of the specification that begins at a place.
fn is_hidden(facts: &Facts<'_>, file: usize, place: Place, names: &[UsedName<'_>]) -> bool
    ensures { result ≡ list_any (hides (facts_of facts.now) file place) (map used names.now) }
{
    for name in names {
        if hides(facts, file, place, *name) {
            return true;
        }
    }
    false
}

// Whether a name is a faulty one of another specification than that which begins at a place.
fn hides(facts: &Facts<'_>, file: usize, place: Place, name: UsedName<'_>) -> bool
    ensures { result ≡ hides (facts_of facts.now) file place (used name.entry) }
{
    let package = facts.package();
    let Some(number) = package.objects.number_of(name.text) else {
        return false;
    };
    !is_known(facts.known(), number) && !is_of_spec(package, number, file, place)
}

// Whether something is known of the object of a number.
fn is_known(known: &Names, number: usize) -> bool
    ensures { result ≡ is_known (names_of known.now) number }
{
    match known.get_index(number) {
        Some((_, declared)) => declared.is_some(),
        None => false,
    }
}

// Whether an object of a package is of the specification that begins at a place of a file.
fn is_of_spec(package: &Package<'_>, number: usize, file: usize, place: Place) -> bool
    ensures { result ≡ is_of_spec file place (slice_get (package_of «package».now).objects number) }
{
    let Some(object) = package.objects.list().get(number) else {
        return false;
    };
    let other = object.begins;
    file == object.file && place.line == other.line && place.column == other.column
}

// Of the faults of some objects, each by itself, the one of the least number, at a place.
fn check_least(
    alloc: Global,
    facts: &Facts<'_>,
    place: Place,
    objects: &[Object<'_>],
) -> Result<(), ExprError>
    ensures { Finds result (least_at place (flat_map (object_faults (facts_of facts.now)) (map object_view objects.now))) }
{
    match least_of(alloc, facts, objects)? {
        Some(kind) => Err(ExprError::Faulty(place, kind)),
        None => Ok(()),
    }
}

fn least_of(
    alloc: Global,
    facts: &Facts<'_>,
    objects: &[Object<'_>],
) -> Result<Option<FaultKind>, AllocError>
    ensures { IfOk result (λ kind. kind ≡ least (map (λ f. f.1) (flat_map (object_faults (facts_of facts.now)) (map object_view objects.now)))) }
{
    let mut least = None;
    for object in objects {
        least = lesser(least, own_fault(alloc, facts, object)?);
    }
    Ok(least)
}

// The kind of an object's fault by itself.
fn own_fault(
    alloc: Global,
    facts: &Facts<'_>,
    object: &Object<'_>,
) -> Result<Option<FaultKind>, AllocError>
    ensures { IfOk result (λ kind. kind ≡ least (map (λ f. f.1) (object_faults (facts_of facts.now) (object_view object.now)))) }
{
    match check_object(alloc, facts, object) {
        Ok(()) => Ok(None),
        Err(ExprError::Faulty(_, kind)) => Ok(Some(kind)),
        Err(ExprError::Memory) => Err(AllocError),
    }
}

/// The fault of a constant, or of a variable without a type, by its own value, where its
/// specification begins.
pub(crate) fn check_object(
    alloc: Global,
    facts: &Facts<'_>,
    object: &Object<'_>,
) -> Result<(), ExprError>
    ensures { Finds result (object_faults (facts_of facts.now) (object_view object.now)) }
{
    match object.form {
        Form::Constant {
            type_expr,
            value,
            iota,
        } => {
            let scope = scope_in(facts.package(), facts.known(), object.file, Some(iota));
            check_constant(alloc, &scope, object.begins, type_expr, value)
        }
        Form::ValuedVariable(value) => {
            let scope = scope_in(facts.package(), facts.known(), object.file, None);
            check_variable(alloc, &scope, object.begins, value)
        }
        _ => Ok(()),
    }
}

// The fault of a constant by its type and its value.
fn check_constant(
    alloc: Global,
    scope: &Scope<'_>,
    place: Place,
    type_expr: Option<&TypeExpr>,
    value: &Expr,
) -> Result<(), ExprError>
    ensures { Finds result (constant_faults (scope_of scope.now) place (option_map (λ t. type_tree t.now) type_expr.entry) (expr_tree value.now)) }
{
    match check_own(alloc, scope, type_expr, value) {
        Ok(own) => check_parts(alloc, place, own.of, own.value),
        Err(ExprError::Faulty(_, _)) => check_faulty(alloc, scope, place, type_expr, value),
        Err(ExprError::Memory) => Err(ExprError::Memory),
    }
}

// The type that is written and the value of a constant, where they are known.
#[derive(Drop)]
struct Own {
    of: Option<Option<GoType>>,
    value: Option<TypedExpr>,
}

// What is known of the type and the value of a constant, or the first fault in them.
fn check_own(
    alloc: Global,
    scope: &Scope<'_>,
    type_expr: Option<&TypeExpr>,
    value: &Expr,
) -> Result<Own, ExprError>
    ensures faults { let s = scope_of scope.now in let e = expr_tree value.now in
        Finds result (written_faults s (option_map (λ t. type_tree t.now) type_expr.entry) ++ (faults s e ++ operand_broken e (verdict s e))) }
    ensures of { IfOk result (λ own. option_map (option_map go_type) own.of ≡ written_type (scope_of scope.now) (option_map (λ t. type_tree t.now) type_expr.entry)) }
    ensures value { IfOk result (λ own. option_map as_expr own.value ≡ operand (verdict (scope_of scope.now) (expr_tree value.now))) }
{
    let of = check_written(alloc, scope, type_expr)?;
    let value = check_operand(alloc, scope, value)?;
    Ok(Own { of, value })
}

// The least fault of the type and the value of a constant, at a place, where they have one.
fn check_faulty(
    alloc: Global,
    scope: &Scope<'_>,
    place: Place,
    type_expr: Option<&TypeExpr>,
    value: &Expr,
) -> Result<(), ExprError>
    ensures { let s = scope_of scope.now in let t = option_map (λ t. type_tree t.now) type_expr.entry in let e = expr_tree value.now in
        written_faults s t ++ (faults s e ++ operand_broken e (verdict s e)) ≢ [] → Finds result (constant_faults s place t e) }
{
    let written = written_fault(alloc, scope, type_expr)?;
    match lesser(written, value_fault(alloc, scope, value)?) {
        Some(kind) => Err(ExprError::Faulty(place, kind)),
        None => Ok(()),
    }
}

#[tactic(auto, using(crate::proofs::Parts::located, crate::proofs::Parts::unbroken))]
fn check_parts(
    alloc: Global,
    place: Place,
    of: Option<Option<GoType>>,
    value: Option<TypedExpr>,
) -> Result<(), ExprError>
    ensures { Finds result (broken place (asked_both own_constant (option_map (option_map go_type) of) (option_map as_expr value))) }
{
    let (Some(of), Some(value)) = (of, value) else {
        return Ok(());
    };
    match own_constant(alloc, of, value) {
        Ok(_) => Ok(()),
        Err(error) => Err(error.at(place)),
    }
}

// A constant as one of the type that is written. `Mismatch` where it isn't constant, then `Assign`
// where it isn't assignable, and `Range`.
fn own_constant(alloc: Global, of: Option<GoType>, value: TypedExpr) -> Result<TypedExpr, RuleError>
    ensures { Gives as_expr result (own_constant (option_map go_type of) (as_expr value)) }
{
    if constant_in(&value).is_none() {
        return Err(RuleError::Broken(FaultKind::Mismatch));
    }
    match of {
        None => Ok(value),
        Some(of) => assigned(alloc, of, value),
    }
}

// The fault of a variable by its value, where that is known: `Range` where it lies outside of the type
// that it takes where none is due.
#[tactic(auto, using(crate::proofs::Parts::located, crate::proofs::Parts::unbroken))]
fn check_variable(
    alloc: Global,
    scope: &Scope<'_>,
    place: Place,
    value: &Expr,
) -> Result<(), ExprError>
    ensures { Finds result (variable_faults (scope_of scope.now) place (expr_tree value.now)) }
{
    let Some(value) = operand_in(alloc, scope, value)? else {
        return Ok(());
    };
    match defaulted(alloc, value) {
        Ok(_) => Ok(()),
        Err(error) => Err(error.at(place)),
    }
}
