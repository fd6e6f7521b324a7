//! The names that are declared everywhere.
//! [Predeclared identifiers](https://go.dev/ref/spec#Predeclared_identifiers)
ghost use Rattle.std.specs.Prelude.{◌≡◌, ◌++◌, map, bytes_eq};
ghost use Rattle.std.specs.List.{list_any};
ghost use Rattle.std.specs.Map.{lookup};
ghost use Rattle.std.specs.Option.{option_map};
ghost use Rattle.go_text.specs.declared.fault.FaultKind.TheVariants.{LeftOut};
ghost use Rattle.go_expr.specs.Known.{Fine, Breaks, look_up_known, basic_types, left_out, slice_functions, truth, others, universe};
ghost use Rattle.go_expr.specs.Views.{known_of, AnswersAt};

use crate::error::ExprError;
use crate::known::Known;
use crate::node::constant;
use go_const::constant::Const;
use go_text::edition::Edition;
use go_text::fault::FaultKind;
use go_text::place::Place;
use go_types::types::{Basic, GoType, IntKind, Untyped};

/// The basic type of a name.
fn basic_named(name: &str) -> Option<Basic>
    ensures { result ≡ lookup (bytes_eq name.now) basic_types }
{
    Some(match name {
        "bool" => Basic::Bool,
        "string" => Basic::String,
        "int" => Basic::Integer(IntKind::Int),
        "int8" => Basic::Integer(IntKind::Int8),
        "int16" => Basic::Integer(IntKind::Int16),
        "int32" => Basic::Integer(IntKind::Int32),
        "int64" => Basic::Integer(IntKind::Int64),
        "uint" => Basic::Integer(IntKind::Uint),
        "uint8" => Basic::Integer(IntKind::Uint8),
        "uint16" => Basic::Integer(IntKind::Uint16),
        "uint32" => Basic::Integer(IntKind::Uint32),
        "uint64" => Basic::Integer(IntKind::Uint64),
        "byte" => Basic::Integer(IntKind::Uint8),
        "rune" => Basic::Integer(IntKind::Int32),
        _ => return None,
    })
}

/// Whether a name is one of those that the subset leaves out.
fn is_left_out(name: &str) -> bool
    ensures { result ≡ list_any (bytes_eq name.now) left_out }
{
    matches!(
        name,
        "any"
            | "clear"
            | "close"
            | "comparable"
            | "complex"
            | "complex64"
            | "complex128"
            | "copy"
            | "delete"
            | "error"
            | "float32"
            | "float64"
            | "imag"
            | "max"
            | "min"
            | "new"
            | "nil"
            | "print"
            | "println"
            | "real"
            | "recover"
            | "uintptr"
    )
}

/// A truth value as a constant that has no type.
fn truth<'a>(value: bool) -> Known<'a>
    ensures { Fine (known_of result) ≡ truth value }
{
    let of = GoType::Basic(Basic::Untyped(Untyped::Bool));
    Known::Value(constant(of, Const::Bool(value)))
}

/// What one of the names of values and functions finds.
fn other_named<'a>(name: &str) -> Option<Known<'a>>
    ensures { option_map (λ k. Fine (known_of k)) result ≡ lookup (bytes_eq name.now) others }
{
    match name {
        "true" => Some(truth(true)),
        "false" => Some(truth(false)),
        "len" => Some(Known::Length),
        "panic" => Some(Known::Panic),
        _ => None,
    }
}

/// The function on slices of a name.
fn slice_function<'a>(name: &str) -> Option<Known<'a>>
    ensures { option_map (λ k. Fine (known_of k)) result ≡ lookup (bytes_eq name.now) (slice_functions Edition.Two) }
{
    match name {
        "append" => Some(Known::Append),
        "cap" => Some(Known::Capacity),
        "make" => Some(Known::Make),
        _ => None,
    }
}

/// What a name at a place finds that is a function on slices or of values, or its fault.
fn slice_function_or_other<'a>(
    place: Place,
    edition: Edition,
    name: &str,
) -> Result<Option<Known<'a>>, ExprError>
    ensures { AnswersAt known_of result place (look_up_known name.now (slice_functions edition ++ others)) }
{
    if let Some(known) = slice_function(name) {
        if !edition.has_slices() {
            return Err(ExprError::Faulty(place, FaultKind::LeftOut));
        }
        return Ok(Some(known));
    }
    match other_named(name) {
        Some(known) => Ok(Some(known)),
        None => Err(ExprError::Faulty(place, FaultKind::Undeclared)),
    }
}

/// What a name at a place finds that is no type, or its fault.
fn left_out_or_other<'a>(
    place: Place,
    edition: Edition,
    name: &str,
) -> Result<Option<Known<'a>>, ExprError>
    ensures { AnswersAt known_of result place (look_up_known name.now (map (λ x. (x, Breaks LeftOut)) left_out ++ (slice_functions edition ++ others))) }
{
    if is_left_out(name) {
        return Err(ExprError::Faulty(place, FaultKind::LeftOut));
    }
    slice_function_or_other(place, edition, name)
}

/// What a name at a place finds in an edition that nothing else declares, or its fault.
pub(crate) fn predeclared<'a>(
    place: Place,
    edition: Edition,
    name: &str,
) -> Result<Option<Known<'a>>, ExprError>
    ensures { AnswersAt known_of result place (look_up_known name.now (universe edition)) }
{
    match basic_named(name) {
        Some(basic) => Ok(Some(Known::Type(GoType::Basic(basic)))),
        None => left_out_or_other(place, edition, name),
    }
}
