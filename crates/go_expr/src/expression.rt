//! The checker of expressions and types.
ghost use Rattle.std.specs.Prelude.{◌≡◌, ◌++◌, [], ◌∷◌, drop, map, IfOk};
ghost use Rattle.std.specs.Option.{option_map};
ghost use Rattle.go_ast.specs.Trees.{struct, pack_fields};
ghost use Rattle.go_ast.specs.Views.{bound_of, expr_of as expr_tree, exprs_in, value_of as element_tree, type_of as type_tree, field_of as field_tree};
ghost use Rattle.go_types.specs.Views.{go_type};
ghost use Rattle.go_typed.specs.Views.{as_expr};
ghost use Rattle.go_expr.specs.Rules.{fine, called, make_verdict, unmade, unprinted, type_due, element_due, valued};
ghost use Rattle.go_expr.specs.Verdicts.{asked, asked_both, chained, broken, operand, inside, subject, callee, key_text, is_make, is_name, verdict, bound_known, call_verdict, made_verdict, operand_list, elements as elements_known, element_verdict, type_verdict, fields_known, part_broken, operand_broken, faults, bound_faults, call_faults, made_faults, operands_faults, elements_faults, element_faults, type_faults, fields_faults};
ghost use Rattle.go_expr.specs.Views.{known_of, keyed_part, elements_in, literal_verdict, typed_field, scope_of, all_of, Answers, AnswersBehindParts};

use crate::call::{call_at, conversion_at};
use crate::composite::{Element, element_due, key_text, literal_at, untyped_literal_at};
use crate::due::{
    bare_place, callee_at, check_qualifier, inside_at, operand_at, subject_at, unprinted_at,
};
use crate::error::ExprError;
use crate::known::Known;
use crate::literal::{literal, rune, text_constant};
use crate::operator::{binary_at, unary_at};
use crate::scope::Scope;
use crate::selector::{exported_at, index_at, selected, value_at};
use crate::slice::{cut_at, made_at, no_type_at, slice_type};
use crate::type_expr::{array_type, struct_place, struct_type, type_at, with_fields};
use go_ast::expression::{
    Bound, Element as ElementExpr, ElementValue, Expr, ExprKind, Field as FieldExpr, TypeExpr,
    TypeKind,
};
use go_ast::key::Key;
use go_text::fault::FaultKind;
use go_text::place::Place;
use go_typed::expression::TypedExpr;
use go_types::types::{Field, GoType};
use std::alloc::{AllocError, Global};

/// What is known of an expression, where no part of it was passed over, or the first fault in it.
#[cycle(check)]
#[tactic(auto, unfolding(go_ast::specs::Views::expr_of, go_ast::specs::Views::type_of))]
pub fn check_expr<'a>(
    alloc: Global,
    scope: &Scope<'a>,
    e: &Expr,
) -> Result<Option<Known<'a>>, ExprError>
    ensures { Answers known_of result (faults (scope_of scope.now) (expr_tree e.now)) (fine (verdict (scope_of scope.now) (expr_tree e.now))) }
{
    match &e.kind {
        ExprKind::Name(name) => scope.look_up(e.place, name.as_str()),
        ExprKind::Integer(digits) => value_at(e.place, literal(digits.as_str())),
        ExprKind::Rune(value) => Ok(Some(Known::Value(rune(*value)))),
        ExprKind::String(bytes) => Ok(Some(Known::Value(text_constant(alloc, bytes)?))),
        ExprKind::Parenthesized(inside) => check_inside(alloc, scope, inside),
        ExprKind::CompositeLit(of, _, elements) => {
            let of = check_type(alloc, scope, of)?;
            check_literal(alloc, scope, elements, e.place, of)
        }
        ExprKind::Selector(operand, field) => {
            let operand = check_subject(alloc, scope, operand)?;
            selected(alloc, e.place, scope.path(), field.text(), operand)
        }
        ExprKind::Index(operand, index) => {
            let operand = check_operand(alloc, scope, operand)?;
            let index = check_operand(alloc, scope, index)?;
            index_at(alloc, e.place, operand, index)
        }
        ExprKind::Conversion(of, operand) => {
            let of = check_type(alloc, scope, of)?;
            let operand = check_operand(alloc, scope, operand)?;
            conversion_at(alloc, e.place, of, operand)
        }
        ExprKind::Cut(operand, low, high) => {
            let operand = check_operand(alloc, scope, operand)?;
            let low = check_bound(alloc, scope, low)?;
            let high = check_bound(alloc, scope, high)?;
            cut_at(alloc, e.place, operand, low, high)
        }
        ExprKind::Type(of) => match check_type(alloc, scope, of)? {
            Some(of) => Ok(Some(Known::Type(of))),
            None => Ok(None),
        },
        ExprKind::Call(callee, arguments) => {
            let callee = check_callee(alloc, scope, callee)?;
            check_call(alloc, scope, e.place, callee, arguments)
        }
        ExprKind::Unary(operator, operand) => {
            let operand = check_operand(alloc, scope, operand)?;
            unary_at(alloc, e.place, *operator, operand)
        }
        ExprKind::Binary(operator, left, right) => {
            let left = check_operand(alloc, scope, left)?;
            let right = check_operand(alloc, scope, right)?;
            binary_at(alloc, e.place, *operator, left, right)
        }
    }
}

/// What is known of a literal at a place of a type, where that is known, or the first fault in its
/// elements or of the literal.
#[cycle(check)]
fn check_literal<'a>(
    alloc: Global,
    scope: &Scope<'a>,
    elements: &[ElementExpr],
    place: Place,
    of: Option<GoType>,
) -> Result<Option<Known<'a>>, ExprError>
    ensures { let s = scope_of scope.now in let t = option_map go_type of in let es = elements_in elements.now in
        AnswersBehindParts known_of result (elements_faults s t 0 es) place (literal_verdict s t es) }
{
    let elements = check_elements(alloc, scope, elements, of.as_ref())?;
    literal_at(alloc, place, scope.path(), of, elements)
}

/// The elements of a literal of a type in their order, where all are known, or the first fault in
/// them.
#[cycle(check)]
fn check_elements<'e>(
    alloc: Global,
    scope: &Scope<'_>,
    elements: &'e [ElementExpr],
    of: Option<&GoType>,
) -> Result<Option<Vec<Element<'e>>>, ExprError>
    ensures { let s = scope_of scope.now in let t = option_map (λ t. go_type t.now) of.entry in let es = elements_in elements.now in
        Answers (all_of keyed_part) result (elements_faults s t 0 es) (elements_known s t 0 es) }
{
    let mut all = Some(Vec::new(alloc));
    for (number, element) in elements.iter().enumerate() {
        let value = check_element(alloc, scope, element, number, of)?;
        all = with_element(all, &element.key, value)?;
    }
    Ok(all)
}

/// The value of the element of a number in a literal of a type, or the first fault in it; one that
/// leaves out its type takes that which is due.
#[cycle(check)]
#[tactic(auto, unfolding(go_ast::specs::Views::expr_of, go_ast::specs::Views::value_of))]
fn check_element(
    alloc: Global,
    scope: &Scope<'_>,
    element: &ElementExpr,
    number: usize,
    of: Option<&GoType>,
) -> Result<Option<TypedExpr>, ExprError>
    ensures { let s = scope_of scope.now in let due = element_due (option_map (λ t. go_type t.now) of.entry) number (key_text element.now.key) in
        let e = element_tree element.now.value in Answers as_expr result (element_faults s due e) (fine (element_verdict s due e)) }
{
    match &element.value {
        ElementValue::Expression(e) => check_operand(alloc, scope, e),
        ElementValue::Value(place, elements) => {
            let due = element_due(of, number, key_text(&element.key));
            let elements = check_elements(alloc, scope, elements, due.of())?;
            untyped_literal_at(alloc, *place, scope.path(), due, elements)
        }
    }
}

/// Adds an element with its key behind others, where all are known.
fn with_element<'e>(
    all: Option<Vec<Element<'e>>>,
    key: &'e Key,
    value: Option<TypedExpr>,
) -> Result<Option<Vec<Element<'e>>>, AllocError>
    ensures { let own = option_map (λ e. (key_text key.now, e) ∷ []) (option_map as_expr value) in
        IfOk result (λ more. option_map (all_of keyed_part) more ≡ chained (option_map (all_of keyed_part) all.entry) own) }
{
    let Some(mut all) = all else {
        return Ok(None);
    };
    let Some(value) = value else {
        return Ok(None);
    };
    let key = key_text(key);
    all.push(Element { key, value })?;
    Ok(Some(all))
}

/// Whether a callee takes a type in front of its operands.
fn is_make(callee: &Option<Known<'_>>) -> bool
    ensures { result ≡ is_make (option_map known_of callee.now) }
{
    let Some(known) = callee else {
        return false;
    };
    matches!(known, Known::Make)
}

/// What is known of a call at a place of a callee with some arguments, or the first fault in the
/// arguments or of the call.
#[cycle(check)]
fn check_call<'a>(
    alloc: Global,
    scope: &Scope<'a>,
    place: Place,
    callee: Option<Known<'a>>,
    arguments: &[Expr],
) -> Result<Option<Known<'a>>, ExprError>
    ensures { let s = scope_of scope.now in let es = exprs_in arguments.now in
        AnswersBehindParts known_of result (call_faults s (option_map known_of callee.entry) es) place (call_verdict s (option_map known_of callee.entry) es) }
{
    if is_make(&callee) {
        return check_make(alloc, scope, place, arguments);
    }
    check_called(alloc, scope, place, callee, arguments)
}

/// The same of a callee that takes values alone.
#[cycle(check)]
fn check_called<'a>(
    alloc: Global,
    scope: &Scope<'a>,
    place: Place,
    callee: Option<Known<'a>>,
    arguments: &[Expr],
) -> Result<Option<Known<'a>>, ExprError>
    ensures { let s = scope_of scope.now in let es = exprs_in arguments.now in
        AnswersBehindParts known_of result (operands_faults s es) place (asked_both called (option_map known_of callee.entry) (operand_list s es)) }
{
    let arguments = check_operands(alloc, scope, arguments)?;
    call_at(alloc, place, callee, arguments)
}

/// What is known of a call of make at a place with some arguments, or the first fault in these or of
/// the call.
#[cycle(check)]
fn check_make<'a>(
    alloc: Global,
    scope: &Scope<'a>,
    place: Place,
    arguments: &[Expr],
) -> Result<Option<Known<'a>>, ExprError>
    ensures { let s = scope_of scope.now in let es = exprs_in arguments.now in
        AnswersBehindParts known_of result (made_faults s es) place (valued (made_verdict s es)) }
{
    let [first, ..] = arguments else {
        return Err(ExprError::Faulty(place, FaultKind::Count));
    };
    if is_name(first) {
        check_qualifier(scope, first)?;
        let of = check_type_operand(alloc, scope, first)?;
        return check_sizes(alloc, scope, place, of, arguments);
    }
    let known = check_unprinted(alloc, scope, first)?;
    check_no_type(alloc, scope, place, known, arguments)
}

/// What is known of a call of make at a place with a type, where that is known, and the arguments behind
/// the first, or the first fault in these or of the call.
#[cycle(check)]
fn check_sizes<'a>(
    alloc: Global,
    scope: &Scope<'a>,
    place: Place,
    of: Option<GoType>,
    arguments: &[Expr],
) -> Result<Option<Known<'a>>, ExprError>
    ensures { let s = scope_of scope.now in let es = exprs_in (drop 1 arguments.now) in
        AnswersBehindParts known_of result (operands_faults s es) place (valued (asked_both make_verdict (option_map go_type of) (operand_list s es))) }
{
    let sizes = check_behind(alloc, scope, arguments)?;
    made_at(alloc, place, of, sizes)
}

/// The same where the first argument can't be a type.
#[cycle(check)]
fn check_no_type<'a>(
    alloc: Global,
    scope: &Scope<'a>,
    place: Place,
    first: Option<Known<'a>>,
    arguments: &[Expr],
) -> Result<Option<Known<'a>>, ExprError>
    ensures { let s = scope_of scope.now in let es = exprs_in (drop 1 arguments.now) in
        AnswersBehindParts known_of result (operands_faults s es) place (valued (asked_both unmade (option_map known_of first.entry) (operand_list s es))) }
{
    let sizes = check_behind(alloc, scope, arguments)?;
    no_type_at(place, first, sizes)
}

/// The values of the operands behind the first, in their order, where all are known, or the first fault
/// in them.
#[cycle(check)]
fn check_behind(
    alloc: Global,
    scope: &Scope<'_>,
    expressions: &[Expr],
) -> Result<Option<Vec<TypedExpr>>, ExprError>
    ensures { let s = scope_of scope.now in let es = exprs_in (drop 1 expressions.now) in
        Answers (all_of as_expr) result (operands_faults s es) (operand_list s es) }
{
    let mut all = Some(Vec::new(alloc));
    for i in 1..expressions.len() {
        let value = check_operand(alloc, scope, &expressions[i])?;
        all = with_value(all, value)?;
    }
    Ok(all)
}

/// Whether an expression is a type, or a name of one, or one of a package, without parentheses.
#[tactic(auto, unfolding(go_ast::specs::Views::expr_of, go_ast::specs::Views::type_of))]
fn is_name(e: &Expr) -> bool
    ensures { result ≡ is_name (expr_tree e.now) }
{
    match &e.kind {
        ExprKind::Name(_) | ExprKind::Type(_) => true,
        ExprKind::Selector(operand, _) => matches!(operand.kind, ExprKind::Name(_)),
        _ => false,
    }
}

/// What is known of an argument that can't be a type, or the first fault in it.
#[cycle(check)]
fn check_unprinted<'a>(
    alloc: Global,
    scope: &Scope<'a>,
    e: &Expr,
) -> Result<Option<Known<'a>>, ExprError>
    ensures { let k = asked unprinted (fine (verdict (scope_of scope.now) (expr_tree e.now))) in
        Answers known_of result (faults (scope_of scope.now) (expr_tree e.now) ++ part_broken (expr_tree e.now) k) (fine k) }
{
    let known = check_expr(alloc, scope, e)?;
    unprinted_at(bare_place(e), known)
}

/// The type that an argument is, or the first fault in it.
#[cycle(check)]
fn check_type_operand(
    alloc: Global,
    scope: &Scope<'_>,
    e: &Expr,
) -> Result<Option<GoType>, ExprError>
    ensures { let s = scope_of scope.now in let t = asked type_due (fine (verdict s (expr_tree e.now))) in
        Answers go_type result (faults s (expr_tree e.now) ++ part_broken (expr_tree e.now) t) (fine t) }
{
    let known = check_expr(alloc, scope, e)?;
    type_at(bare_place(e), known)
}

/// The value of a bound, or the first fault in it; one that is left out is known.
#[cycle(check)]
#[tactic(auto, unfolding(go_ast::specs::Views::expr_of))]
fn check_bound(
    alloc: Global,
    scope: &Scope<'_>,
    bound: &Bound,
) -> Result<Option<Option<TypedExpr>>, ExprError>
    ensures { let s = scope_of scope.now in Answers (option_map as_expr) result (bound_faults s (bound_of bound.now)) (bound_known s (bound_of bound.now)) }
{
    match bound {
        Bound::Open => Ok(Some(None)),
        Bound::At(e) => match check_operand(alloc, scope, e)? {
            Some(value) => Ok(Some(Some(value))),
            None => Ok(None),
        },
    }
}

/// What is known of an expression in parentheses, or the first fault in it.
#[cycle(check)]
fn check_inside<'a>(
    alloc: Global,
    scope: &Scope<'a>,
    e: &Expr,
) -> Result<Option<Known<'a>>, ExprError>
    ensures { let v = verdict (scope_of scope.now) (expr_tree e.now) in
        Answers known_of result (faults (scope_of scope.now) (expr_tree e.now) ++ part_broken (expr_tree e.now) (inside v)) (fine (inside v)) }
{
    let known = check_expr(alloc, scope, e)?;
    inside_at(bare_place(e), known)
}

/// What is known of an expression before a dot, or the first fault in it.
#[cycle(check)]
fn check_subject<'a>(
    alloc: Global,
    scope: &Scope<'a>,
    e: &Expr,
) -> Result<Option<Known<'a>>, ExprError>
    ensures { let v = verdict (scope_of scope.now) (expr_tree e.now) in
        Answers known_of result (faults (scope_of scope.now) (expr_tree e.now) ++ part_broken (expr_tree e.now) (subject v)) (fine (subject v)) }
{
    let known = check_expr(alloc, scope, e)?;
    subject_at(bare_place(e), known)
}

/// What is known of an expression before arguments, or the first fault in it.
#[cycle(check)]
fn check_callee<'a>(
    alloc: Global,
    scope: &Scope<'a>,
    e: &Expr,
) -> Result<Option<Known<'a>>, ExprError>
    ensures { let v = verdict (scope_of scope.now) (expr_tree e.now) in
        Answers known_of result (faults (scope_of scope.now) (expr_tree e.now) ++ part_broken (expr_tree e.now) (callee v)) (fine (callee v)) }
{
    let known = check_expr(alloc, scope, e)?;
    callee_at(bare_place(e), known)
}

/// The value of an operand, or the first fault in it.
#[cycle(check)]
pub fn check_operand(
    alloc: Global,
    scope: &Scope<'_>,
    e: &Expr,
) -> Result<Option<TypedExpr>, ExprError>
    ensures { Answers as_expr result (faults (scope_of scope.now) (expr_tree e.now) ++ operand_broken (expr_tree e.now) (verdict (scope_of scope.now) (expr_tree e.now)))
        (operand (verdict (scope_of scope.now) (expr_tree e.now))) }
{
    let known = check_expr(alloc, scope, e)?;
    operand_at(bare_place(e), known)
}

/// The values of operands, in their order, where all are known, or the first fault in
/// them.
#[cycle(check)]
pub fn check_operands(
    alloc: Global,
    scope: &Scope<'_>,
    expressions: &[Expr],
) -> Result<Option<Vec<TypedExpr>>, ExprError>
    ensures { Answers (all_of as_expr) result (operands_faults (scope_of scope.now) (exprs_in expressions.now)) (operand_list (scope_of scope.now) (exprs_in expressions.now)) }
{
    let mut all = Some(Vec::with_capacity(alloc, expressions.len())?);
    for e in expressions {
        let value = check_operand(alloc, scope, e)?;
        all = with_value(all, value)?;
    }
    Ok(all)
}

/// Adds a value behind others, where all are known.
fn with_value(
    all: Option<Vec<TypedExpr>>,
    value: Option<TypedExpr>,
) -> Result<Option<Vec<TypedExpr>>, AllocError>
    ensures { IfOk result (λ more. option_map (all_of as_expr) more ≡ chained (option_map (all_of as_expr) all) (option_map (λ v. v ∷ []) (option_map as_expr value))) }
{
    let Some(mut all) = all else {
        return Ok(None);
    };
    let Some(value) = value else {
        return Ok(None);
    };
    all.push(value)?;
    Ok(Some(all))
}

/// The type that is written, with all that it stands on, where that is known, or the first fault in it.
#[cycle(check)]
#[tactic(auto, unfolding(go_ast::specs::Views::expr_of, go_ast::specs::Views::type_of))]
pub fn check_type(
    alloc: Global,
    scope: &Scope<'_>,
    of: &TypeExpr,
) -> Result<Option<GoType>, ExprError>
    ensures { Answers go_type result (type_faults (scope_of scope.now) (type_tree of.now)) (fine (type_verdict (scope_of scope.now) (type_tree of.now))) }
{
    match &of.kind {
        TypeKind::Named(name) => {
            let known = scope.look_up(of.place, name.text())?;
            type_at(of.place, known)
        }
        TypeKind::Qualified(package, name) => {
            let package = scope.look_up(of.place, package.text())?;
            let known = exported_at(of.place, name.text(), package)?;
            type_at(of.place, known)
        }
        TypeKind::Array(length, element) => {
            let length = check_operand(alloc, scope, length)?;
            let element = check_type(alloc, scope, element)?;
            array_type(alloc, of.place, length, element)
        }
        TypeKind::Slice(element) => {
            let element = check_type(alloc, scope, element)?;
            slice_type(alloc, of.place, element)
        }
        TypeKind::Struct(fields) => check_struct(alloc, scope, of.place, fields),
    }
}

/// The struct of some fields at a place, where their types are known, or the first fault in it.
#[cycle(check)]
fn check_struct(
    alloc: Global,
    scope: &Scope<'_>,
    place: Place,
    fields: &[FieldExpr],
) -> Result<Option<GoType>, ExprError>
    ensures { Answers go_type result (type_faults (scope_of scope.now) (struct place (pack_fields (map field_tree fields.now)))) (fine (type_verdict (scope_of scope.now) (struct place (pack_fields (map field_tree fields.now))))) }
{
    let place = struct_place(place, fields);
    let fields = check_fields(alloc, scope, fields)?;
    struct_type(alloc, place, fields)
}

/// The fields of a struct, where their types are known, or the first fault in those.
#[cycle(check)]
fn check_fields(
    alloc: Global,
    scope: &Scope<'_>,
    fields: &[FieldExpr],
) -> Result<Option<Vec<Field>>, ExprError>
    ensures { Answers (all_of typed_field) result (fields_faults (scope_of scope.now) (pack_fields (map field_tree fields.now))) (fields_known (scope_of scope.now) (pack_fields (map field_tree fields.now))) }
{
    let mut all = Some(Vec::new(alloc));
    for field in fields {
        let of = check_type(alloc, scope, &field.type_expr)?;
        all = with_fields(alloc, scope.path(), all, &field.names, of)?;
    }
    Ok(all)
}
