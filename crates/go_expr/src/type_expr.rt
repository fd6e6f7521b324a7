//! Types. [Types](https://go.dev/ref/spec#Types)
ghost use Rattle.std.specs.Prelude.{◌≡◌, IfOk, map, bytes_eq};
ghost use Rattle.std.specs.List.{list_any};
ghost use Rattle.std.specs.Option.{option_map};
ghost use Rattle.go_ast.specs.Trees.{pack_fields};
ghost use Rattle.go_ast.specs.Views.{field_of as field_tree};
ghost use Rattle.go_types.specs.Types.{struct};
ghost use Rattle.go_types.specs.Views.{go_type};
ghost use Rattle.go_typed.specs.Views.{as_expr};
ghost use Rattle.go_expr.specs.Rules.{type_due, is_small, array_verdict, declared_field, field_names, pack_field_list, struct_of};
ghost use Rattle.go_expr.specs.Verdicts.{asked, asked_both, chained, first_blank, struct_place};
ghost use Rattle.go_expr.specs.Views.{known_of, typed_field, all_of, AnswersAt, Gives};

use crate::error::{ExprError, RuleError};
use crate::fields::differ;
use crate::known::Known;
use crate::node::constant_in;
use go_ast::expression::Field as FieldExpr;
use go_ast::name::Name;
use go_const::constant::Const;
use go_text::fault::FaultKind;
use go_text::place::Place;
use go_typed::expression::TypedExpr;
use go_types::names::is_exported;
use go_types::sizes::{cells, nodes};
use go_types::types::{Element, Field, Fields, GoType};
use std::alloc::{AllocError, Global};
use std::sync::Arc;

/// The type that is known where one is due; `Mismatch` where none is.
fn type_due(known: Known<'_>) -> Result<GoType, RuleError>
    ensures { Gives go_type result (type_due (known_of known.entry)) }
{
    match known {
        Known::Type(of) => Ok(of),
        _ => Err(RuleError::Broken(FaultKind::Mismatch)),
    }
}

/// The type that is known at a place where a type is due.
pub(crate) fn type_at(place: Place, known: Option<Known<'_>>) -> Result<Option<GoType>, ExprError>
    ensures { AnswersAt go_type result place (asked type_due (option_map known_of known.entry)) }
{
    let Some(known) = known else {
        return Ok(None);
    };
    match type_due(known) {
        Ok(of) => Ok(Some(of)),
        Err(error) => Err(error.at(place)),
    }
}

/// Whether a type and its values have no more parts than they may.
pub(crate) fn is_small(of: &GoType) -> bool
    ensures { result ≡ is_small (go_type of.now) }
{
    nodes(of).is_ok() && cells(of).is_ok()
}

/// Arrays at a place of a constant length, of elements of a type.
fn array_of(
    alloc: Global,
    place: Place,
    length: &TypedExpr,
    of: GoType,
) -> Result<Option<GoType>, ExprError>
    ensures { AnswersAt go_type result place (array_verdict (as_expr length.now) (go_type of)) }
{
    let Some(Const::Integer(length)) = constant_in(length) else {
        return Err(ExprError::Faulty(place, FaultKind::Mismatch));
    };
    if *length < 0 {
        return Err(ExprError::Faulty(place, FaultKind::Range));
    }
    if *length > 65_536 {
        return Err(ExprError::Faulty(place, FaultKind::Size));
    }
    let array = GoType::Array(*length as u32, Arc::new(alloc, Element::new(of))?);
    if !is_small(&array) {
        return Err(ExprError::Faulty(place, FaultKind::Size));
    }
    Ok(Some(array))
}

/// An array type at a place, where its length and its elements' type are known.
/// [Array types](https://go.dev/ref/spec#Array_types)
pub(crate) fn array_type(
    alloc: Global,
    place: Place,
    length: Option<TypedExpr>,
    of: Option<GoType>,
) -> Result<Option<GoType>, ExprError>
    ensures { AnswersAt go_type result place (asked_both array_verdict (option_map as_expr length) (option_map go_type of)) }
{
    let Some(length) = length else {
        return Ok(None);
    };
    let Some(of) = of else {
        return Ok(None);
    };
    array_of(alloc, place, &length, of)
}

/// A field of a struct of the package at a path.
fn field_of(alloc: Global, path: &str, name: &Name, of: &GoType) -> Result<Field, AllocError>
    ensures { IfOk result (λ f. typed_field f ≡ declared_field path.now (go_type of.now) name.now) }
{
    let text = name.text();
    let package = if is_exported(text) {
        None
    } else {
        Some(String::from_str(alloc, path)?)
    };
    Ok(Field {
        package,
        name: String::from_str(alloc, text)?,
        of: of.copy()?,
    })
}

/// Adds fields of some names and one type behind others, where all are known.
pub(crate) fn with_fields(
    alloc: Global,
    path: &str,
    all: Option<Vec<Field>>,
    names: &[Name],
    of: Option<GoType>,
) -> Result<Option<Vec<Field>>, AllocError>
    ensures { IfOk result (λ more. option_map (all_of typed_field) more ≡ chained (option_map (all_of typed_field) all) (option_map (λ t. map (declared_field path.now t) names.now) (option_map go_type of))) }
{
    let Some(mut all) = all else {
        return Ok(None);
    };
    let Some(of) = of else {
        return Ok(None);
    };
    for name in names {
        all.push(field_of(alloc, path, name, &of)?)?;
    }
    Ok(Some(all))
}

/// The place of the first of some names that is blank.
fn first_blank(names: &[Name]) -> Option<Place>
    ensures { result ≡ first_blank names.now }
{
    for name in names {
        if name.text() == "_" {
            return Some(name.place());
        }
    }
    None
}

/// Where the fault of a struct at a place stands: at the first of its fields that is blank, if
/// one is.
pub(crate) fn struct_place(place: Place, fields: &[FieldExpr]) -> Place
    ensures { result ≡ struct_place place (pack_fields (map field_tree fields.now)) }
{
    for field in fields {
        if let Some(blank) = first_blank(&field.names) {
            return blank;
        }
    }
    place
}

/// Whether one of some fields has a name.
fn has_name(fields: &[Field], name: &str) -> bool
    ensures { result ≡ list_any (bytes_eq name.now) (field_names (map typed_field fields.now)) }
{
    for field in fields {
        if name == field.name.as_str() {
            return true;
        }
    }
    false
}

/// The struct of some fields.
fn struct_of(alloc: Global, fields: Vec<Field>) -> Result<GoType, AllocError>
    ensures { IfOk result (λ of. go_type of ≡ struct (pack_field_list (map typed_field fields.items))) }
{
    Ok(GoType::Struct(Arc::new(alloc, Fields::new(fields))?))
}

/// A struct type at a place, where its fields are known.
/// [Struct types](https://go.dev/ref/spec#Struct_types)
pub(crate) fn struct_type(
    alloc: Global,
    place: Place,
    fields: Option<Vec<Field>>,
) -> Result<Option<GoType>, ExprError>
    ensures { AnswersAt go_type result place (asked struct_of (option_map (all_of typed_field) fields)) }
{
    let Some(fields) = fields else {
        return Ok(None);
    };
    if has_name(&fields, "_") {
        return Err(ExprError::Faulty(place, FaultKind::LeftOut));
    }
    let differs = differ(alloc, &fields)?;
    let of = struct_of(alloc, fields)?;
    if !is_small(&of) {
        return Err(ExprError::Faulty(place, FaultKind::Size));
    }
    if !differs {
        return Err(ExprError::Faulty(place, FaultKind::Redeclared));
    }
    Ok(Some(of))
}
