//! What is due of a part of an expression.
ghost use Rattle.std.specs.Prelude.{◌≡◌, [], IfErr, OnOk};
ghost use Rattle.std.specs.Option.{option_map};
ghost use Rattle.go_ast.specs.Views.{expr_of as expr_tree};
ghost use Rattle.go_typed.specs.Views.{as_expr};
ghost use Rattle.go_expr.specs.Known.{look_up_known};
ghost use Rattle.go_expr.specs.Rules.{fine, selectable, callable, packaged, unpackaged, unprinted, value_due};
ghost use Rattle.go_expr.specs.Verdicts.{asked, bare_place, broken, package_broken, qualifier_broken};
ghost use Rattle.go_expr.specs.Views.{known_of, scope_of, AnswersAt, Fails, Gives};

use crate::error::{ExprError, RuleError};
use crate::known::Known;
use crate::scope::Scope;
use crate::selector::value_due;
use go_ast::expression::{Expr, ExprKind};
use go_text::fault::FaultKind;
use go_text::place::Place;
use go_typed::expression::TypedExpr;

/// The place of what stands in the parentheses round an expression.
#[tactic(auto, unfolding(go_ast::specs::Views::expr_of))]
pub fn bare_place(e: &Expr) -> Place
    ensures { result ≡ bare_place (expr_tree e.now) }
{
    match &e.kind {
        ExprKind::Parenthesized(inside) => bare_place(inside),
        _ => e.place,
    }
}

/// The value that is known at a place where one is due.
/// [Operands](https://go.dev/ref/spec#Operands)
pub(crate) fn operand_at(
    place: Place,
    known: Option<Known<'_>>,
) -> Result<Option<TypedExpr>, ExprError>
    ensures { AnswersAt as_expr result place (asked value_due (option_map known_of known.entry)) }
{
    let Some(known) = known else {
        return Ok(None);
    };
    match value_due(known) {
        Ok(value) => Ok(Some(value)),
        Err(error) => Err(error.at(place)),
    }
}

/// What is known at a place in parentheses, where anything but a package is due.
pub(crate) fn inside_at<'a>(
    place: Place,
    known: Option<Known<'a>>,
) -> Result<Option<Known<'a>>, ExprError>
    ensures { AnswersAt known_of result place (asked unpackaged (option_map known_of known.entry)) }
{
    match known {
        Some(Known::Package(_)) => Err(ExprError::Faulty(place, FaultKind::Mismatch)),
        known => Ok(known),
    }
}

/// What is known at a place where `make` wants a type and finds none: a call of Println is a statement.
pub(crate) fn unprinted_at<'a>(
    place: Place,
    known: Option<Known<'a>>,
) -> Result<Option<Known<'a>>, ExprError>
    ensures { AnswersAt known_of result place (asked unprinted (option_map known_of known.entry)) }
{
    match known {
        Some(Known::Printed(_)) => Err(ExprError::Faulty(place, FaultKind::Mismatch)),
        known => Ok(known),
    }
}

/// The fault at a place where a package is due and anything else is known.
fn package_at(place: Place, known: &Option<Known<'_>>) -> Result<(), ExprError>
    ensures fault { IfErr result (λ error. Fails error (broken place (asked packaged (option_map known_of known.now)))) }
    ensures none { OnOk result (broken place (asked packaged (option_map known_of known.now)) ≡ []) }
{
    match known {
        None | Some(Known::Package(_)) => Ok(()),
        Some(_) => Err(ExprError::Faulty(place, FaultKind::Mismatch)),
    }
}

/// The fault of what stands before the dot in the name of a type, where it is known to be no package.
#[tactic(auto, unfolding(go_ast::specs::Views::expr_of))]
pub(crate) fn check_qualifier(scope: &Scope<'_>, e: &Expr) -> Result<(), ExprError>
    ensures fault { IfErr result (λ error. Fails error (qualifier_broken (scope_of scope.now) (expr_tree e.now))) }
    ensures none { OnOk result (qualifier_broken (scope_of scope.now) (expr_tree e.now) ≡ []) }
{
    match &e.kind {
        ExprKind::Selector(package, _) => check_package(scope, package),
        _ => Ok(()),
    }
}

#[tactic(auto, unfolding(go_ast::specs::Views::expr_of))]
fn check_package(scope: &Scope<'_>, e: &Expr) -> Result<(), ExprError>
    ensures fault { IfErr result (λ error. Fails error (package_broken (scope_of scope.now) (expr_tree e.now))) }
    ensures none { OnOk result (package_broken (scope_of scope.now) (expr_tree e.now) ≡ []) }
{
    match &e.kind {
        ExprKind::Name(name) => check_package_name(scope, e.place, name.as_str()),
        _ => Ok(()),
    }
}

fn check_package_name(scope: &Scope<'_>, place: Place, name: &str) -> Result<(), ExprError>
    ensures fault { let known = fine (look_up_known name.now (scope_of scope.now).names) in
        IfErr result (λ error. Fails error (broken place (asked packaged known))) }
    ensures none { let known = fine (look_up_known name.now (scope_of scope.now).names) in OnOk result (broken place (asked packaged known) ≡ []) }
{
    match scope.look_up(place, name) {
        Ok(known) => package_at(place, &known),
        Err(ExprError::Faulty(_, _)) => Ok(()),
        Err(ExprError::Memory) => Err(ExprError::Memory),
    }
}

/// What is known before a dot: a value is due where it is no package.
fn selectable(known: Known<'_>) -> Result<Known<'_>, RuleError>
    ensures { Gives known_of result (selectable (known_of known.entry)) }
{
    match known {
        Known::Package(names) => Ok(Known::Package(names)),
        known => Ok(Known::Value(value_due(known)?)),
    }
}

/// What is known before arguments: a value is due where it is no type and no function.
fn callable(known: Known<'_>) -> Result<Known<'_>, RuleError>
    ensures { Gives known_of result (callable (known_of known.entry)) }
{
    match known {
        Known::Results(_, _, _) | Known::Panicked(_) => Err(RuleError::Broken(FaultKind::Count)),
        Known::Package(_) | Known::Printed(_) => Err(RuleError::Broken(FaultKind::Mismatch)),
        known => Ok(known),
    }
}

/// What is known at a place before a dot.
pub(crate) fn subject_at<'a>(
    place: Place,
    known: Option<Known<'a>>,
) -> Result<Option<Known<'a>>, ExprError>
    ensures { AnswersAt known_of result place (asked selectable (option_map known_of known.entry)) }
{
    let Some(known) = known else {
        return Ok(None);
    };
    match selectable(known) {
        Ok(known) => Ok(Some(known)),
        Err(error) => Err(error.at(place)),
    }
}

/// What is known at a place before arguments.
pub(crate) fn callee_at<'a>(
    place: Place,
    known: Option<Known<'a>>,
) -> Result<Option<Known<'a>>, ExprError>
    ensures { AnswersAt known_of result place (asked callable (option_map known_of known.entry)) }
{
    let Some(known) = known else {
        return Ok(None);
    };
    match callable(known) {
        Ok(known) => Ok(Some(known)),
        Err(error) => Err(error.at(place)),
    }
}
