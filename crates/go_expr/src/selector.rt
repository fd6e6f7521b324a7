//! What names and indices select. [Selectors](https://go.dev/ref/spec#Selectors)
ghost use Rattle.std.specs.Prelude.{◌≡◌, IfOk, if◌then◌else◌, map, option_copied, string_bytes};
ghost use Rattle.std.specs.Option.{option_map};
ghost use Rattle.go_text.specs.declared.fault.FaultKind.TheVariants.{Index};
ghost use Rattle.go_types.specs.Views.{go_type};
ghost use Rattle.go_typed.specs.Views.{as_expr};
ghost use Rattle.go_typed.specs.Trees as typed;
ghost use Rattle.go_typed.specs.Trees.{Expr};
ghost use Rattle.go_expr.specs.Known.{Verdict, Fine, Breaks};
ghost use Rattle.go_expr.specs.Rules.{checked, valued, is_visible, field_named, fields_of, field_verdict, value_due, exported, selection_verdict, exported_by, constant_in, indexed_type, known_length, is_within, index_verdict, settled};
ghost use Rattle.go_expr.specs.Verdicts.{asked, asked_both};
ghost use Rattle.go_expr.specs.Views.{known_of, names_of, typed_field as field_seen, AnswersAt, Gives};

use crate::error::{ExprError, RuleError};
use crate::known::{Known, Names, named};
use crate::node::{constant_in, field as field_node, index as index_node, type_in};
use crate::value::{defaulted, is_integer, is_string, settled};
use go_const::constant::Const;
use go_text::fault::FaultKind;
use go_text::place::Place;
use go_typed::expression::TypedExpr;
use go_types::names::is_exported;
use go_types::relations::underlying;
use go_types::types::{Basic, Field, GoType, IntKind};
use std::alloc::{AllocError, Global};

/// Whether the package of a path sees a field.
pub(crate) fn is_visible(path: &str, field: &Field) -> bool
    ensures { result ≡ is_visible path.now (option_map string_bytes field.now.package) }
{
    match &field.package {
        Some(owner) => path == owner.as_str(),
        None => true,
    }
}

/// The field of a name, with its number.
pub(crate) fn field_named<'a>(fields: &'a [Field], name: &str) -> Option<(usize, &'a Field)>
    ensures { option_map (λ f. (f.0, field_seen f.1.now)) result ≡ field_named name.now (map field_seen fields.now) }
{
    for (number, field) in fields.iter().enumerate() {
        if name == field.name.as_str() {
            return Some((number, field));
        }
    }
    None
}

/// The fields of a type, which a struct alone has.
fn fields_of(of: &GoType) -> &[Field]
    ensures { map field_seen result.now ≡ fields_of (go_type of.now) }
{
    match underlying(of) {
        GoType::Struct(fields) => &fields.list,
        _ => &[],
    }
}

/// The field of a name that the package of a path selects from a value. `Undeclared` where there is
/// none, `Unexported` where it is another package's.
fn field_of(alloc: Global, path: &str, name: &str, value: TypedExpr) -> Result<TypedExpr, RuleError>
    ensures { Gives as_expr result (field_verdict path.now name.now (as_expr value)) }
{
    let Some((number, field)) = field_named(fields_of(type_in(&value)), name) else {
        return Err(RuleError::Broken(FaultKind::Undeclared));
    };
    if !is_visible(path, field) {
        return Err(RuleError::Broken(FaultKind::Unexported));
    }
    let of = field.of.copy()?;
    Ok(field_node(alloc, of, value, number)?)
}

/// The value that is known where one is due. `Count` of a call that has none or several, and of one
/// of panic; else `Mismatch`. [Operands](https://go.dev/ref/spec#Operands)
pub fn value_due(known: Known<'_>) -> Result<TypedExpr, RuleError>
    ensures { Gives as_expr result (value_due (known_of known.entry)) }
{
    match known {
        Known::Value(value) => Ok(value),
        Known::Results(_, _, _) | Known::Panicked(_) => Err(RuleError::Broken(FaultKind::Count)),
        _ => Err(RuleError::Broken(FaultKind::Mismatch)),
    }
}

/// What a name at a place finds in a package that exports some names.
/// [Qualified identifiers](https://go.dev/ref/spec#Qualified_identifiers)
fn exported<'a>(place: Place, names: &Names, name: &str) -> Result<Option<Known<'a>>, ExprError>
    ensures { AnswersAt known_of result place (exported name.now (names_of names.now)) }
{
    if !is_exported(name) {
        return Err(ExprError::Faulty(place, FaultKind::Unexported));
    }
    match names.get(name) {
        Some(declared) => named(place, declared),
        None => Err(ExprError::Faulty(place, FaultKind::Undeclared)),
    }
}

/// What a name selects from a value.
fn field_in(alloc: Global, path: &str, name: &str, known: Known<'_>) -> Result<TypedExpr, RuleError>
    ensures { Gives as_expr result (checked (field_verdict path.now name.now) (value_due (known_of known.entry))) }
{
    let value = value_due(known)?;
    field_of(alloc, path, name, value)
}

/// What a name at a place selects from what is known.
fn selected_from<'a>(
    alloc: Global,
    place: Place,
    path: &str,
    name: &str,
    known: Known<'a>,
) -> Result<Option<Known<'a>>, ExprError>
    ensures { AnswersAt known_of result place (selection_verdict path.now name.now (known_of known.entry)) }
{
    match known {
        Known::Package(names) => exported(place, names, name),
        known => value_at(place, field_in(alloc, path, name, known)),
    }
}

/// What a name at a place selects from an operand, where that is known.
pub(crate) fn selected<'a>(
    alloc: Global,
    place: Place,
    path: &str,
    name: &str,
    operand: Option<Known<'a>>,
) -> Result<Option<Known<'a>>, ExprError>
    ensures { AnswersAt known_of result place (asked (selection_verdict path.now name.now) (option_map known_of operand.entry)) }
{
    match operand {
        None => Ok(None),
        Some(known) => selected_from(alloc, place, path, name, known),
    }
}

/// What a name at a place finds in what stands before its dot in a type: a package is due.
fn exported_by<'a>(
    place: Place,
    name: &str,
    operand: &Known<'_>,
) -> Result<Option<Known<'a>>, ExprError>
    ensures { AnswersAt known_of result place (exported_by name.now (known_of operand.now)) }
{
    match operand {
        Known::Package(names) => exported(place, names, name),
        _ => Err(ExprError::Faulty(place, FaultKind::Mismatch)),
    }
}

/// The same, where what stands before the dot is known.
pub(crate) fn exported_at<'a>(
    place: Place,
    name: &str,
    operand: Option<Known<'_>>,
) -> Result<Option<Known<'a>>, ExprError>
    ensures { AnswersAt known_of result place (asked (exported_by name.now) (option_map known_of operand.entry)) }
{
    let Some(operand) = operand else {
        return Ok(None);
    };
    exported_by(place, name, &operand)
}

/// What a rule gives of a node at a place, as a value.
pub(crate) fn value_at<'a>(
    place: Place,
    given: Result<TypedExpr, RuleError>,
) -> Result<Option<Known<'a>>, ExprError>
    ensures { (v : Verdict Expr) → Gives as_expr given v → AnswersAt known_of result place (valued v) }
{
    match given {
        Ok(value) => Ok(Some(Known::Value(value))),
        Err(error) => Err(error.at(place)),
    }
}

/// The type of what an index selects from values of a type: of arrays, slices and strings. An `Err` only where memory ran out.
fn indexed_type(of: &GoType) -> Result<Option<GoType>, AllocError>
    ensures { IfOk result (λ t. option_map go_type t ≡ indexed_type (go_type of.now)) }
{
    if let GoType::Array(_, element) = underlying(of) {
        return Ok(Some(element.of.copy()?));
    }
    if let GoType::Slice(element) = underlying(of) {
        return Ok(Some(element.of.copy()?));
    }
    if is_string(of) {
        return Ok(Some(GoType::Basic(Basic::Integer(IntKind::Uint8))));
    }
    Ok(None)
}

/// How many bytes or elements a value has, where that is known.
pub(crate) fn known_length(value: &TypedExpr) -> Option<usize>
    ensures { result ≡ known_length (as_expr value.now) }
{
    if let Some(Const::Text(text)) = constant_in(value) {
        return Some(text.bytes().len());
    }
    match underlying(type_in(value)) {
        GoType::Array(length, _) => Some(*length as usize),
        _ => None,
    }
}

/// Whether a constant index is within a length, where both are known.
fn is_within(length: Option<usize>, index: Option<&Const>) -> bool
    ensures { result ≡ is_within length (option_copied index.entry) }
{
    match (length, index) {
        (_, Some(Const::Integer(index))) if *index < 0 => false,
        (Some(length), Some(Const::Integer(index))) => *index < length as i128,
        _ => true,
    }
}

/// What an index selects from a value. `Mismatch` where the value is no array, slice or string or the
/// index no integer; `Range` where a constant that has no type is no int; `Index` where a constant
/// is negative or past the end.
/// [Index expressions](https://go.dev/ref/spec#Index_expressions)
pub(crate) fn index_of(
    alloc: Global,
    value: TypedExpr,
    index: TypedExpr,
) -> Result<TypedExpr, RuleError>
    ensures { Gives as_expr result (index_verdict (as_expr value) (as_expr index)) }
{
    let Some(of) = indexed_type(type_in(&value))? else {
        return Err(RuleError::Broken(FaultKind::Mismatch));
    };
    if !is_integer(type_in(&index)) {
        return Err(RuleError::Broken(FaultKind::Mismatch));
    }
    element_at(alloc, of, value, defaulted(alloc, index)?)
}

/// The element of a value at an index of an integer type. `Index` where a constant index is
/// negative or past the end.
fn element_at(
    alloc: Global,
    of: GoType,
    value: TypedExpr,
    index: TypedExpr,
) -> Result<TypedExpr, RuleError>
    ensures { let e = as_expr value in let i = as_expr index in
        Gives as_expr result (if is_within (known_length e) (constant_in i) then Fine (typed.index (go_type of) (settled e) i) else Breaks Index) }
{
    if !is_within(known_length(&value), constant_in(&index)) {
        return Err(RuleError::Broken(FaultKind::Index));
    }
    let value = settled(alloc, value)?;
    Ok(index_node(alloc, of, value, index)?)
}

/// What an index selects from a value at a place, where both are known.
pub(crate) fn index_at<'a>(
    alloc: Global,
    place: Place,
    value: Option<TypedExpr>,
    index: Option<TypedExpr>,
) -> Result<Option<Known<'a>>, ExprError>
    ensures { AnswersAt known_of result place (valued (asked_both index_verdict (option_map as_expr value) (option_map as_expr index))) }
{
    let Some(value) = value else {
        return Ok(None);
    };
    let Some(index) = index else {
        return Ok(None);
    };
    value_at(place, index_of(alloc, value, index))
}
