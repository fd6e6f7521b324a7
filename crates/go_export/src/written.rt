//! Which summaries their texts tell.
ghost use Rattle.std.specs.Prelude.{◌≡◌, map};
ghost use Rattle.std.specs.Bool.{Decides, OnTrue};
ghost use Rattle.std.specs.List.{All};
ghost use Rattle.std.specs.Map.{values_of};
ghost use Rattle.go_types.specs.Texts.{IsWritable};
ghost use Rattle.go_types.specs.Views.{go_type};
ghost use Rattle.go_export.specs.Views.{all_exports, export_of};
ghost use Rattle.go_export.specs.Writable.{kind_of, value_kind, IsSmall, HasSmall, IsValue, IsShown};

use crate::export::Export;
use go_const::constant::Const;
use go_types::relations::underlying;
use go_types::types::{Basic, GoType, Untyped};
use go_types::writable::is_writable;
use std::collections::BTreeMap;

/// The kind of a value, without a type.
fn kind_of(value: &Const) -> Untyped
    ensures { result ≡ kind_of value.now }
{
    match value {
        Const::Integer(_) => Untyped::Int,
        Const::Text(_) => Untyped::String,
        Const::Bool(_) => Untyped::Bool,
    }
}

/// The kind of the values of a basic type.
fn value_kind(of: Basic) -> Untyped
    ensures { result ≡ value_kind of }
{
    match of {
        Basic::Bool => Untyped::Bool,
        Basic::String => Untyped::String,
        Basic::Integer(_) | Basic::Untyped(Untyped::Rune) => Untyped::Int,
        Basic::Untyped(kind) => kind,
    }
}

/// That an integer has 128 bits.
fn is_small(value: &Const)
    ensures { IsSmall value.now }
{
    if let Const::Integer(number) = value {
        let _number = *number;
    }
}

/// Whether a value is one of a type.
fn is_value(of: &GoType, value: &Const) -> bool
    ensures { Decides result (IsValue (go_type of.now) value.now) }
{
    match underlying(of) {
        GoType::Basic(basic) => value_kind(*basic) == kind_of(value),
        GoType::Array(_, _) | GoType::Slice(_) | GoType::Struct(_) | GoType::Named(_) => false,
    }
}

fn are_writable(types: &[GoType]) -> bool
    ensures { Decides result (All IsWritable (map go_type types.now)) }
{
    for of in types {
        if !is_writable(of) {
            return false;
        }
    }
    true
}

/// Whether what a name exports can be shown.
fn is_shown(export: &Export) -> bool
    ensures shown { Decides result (IsShown (export_of export.now)) }
    ensures small { HasSmall (export_of export.now) }
{
    match export {
        Export::Constant(of, value) => {
            is_small(value);
            is_writable(of) && is_value(of, value)
        }
        Export::Variable(of) => is_writable(of),
        Export::Function(parameters, results) => are_writable(parameters) && are_writable(results),
        Export::Type(of) => is_writable(of),
    }
}

/// Whether all that a package exports can be shown.
pub(crate) fn are_shown(exports: &BTreeMap<String, Export>) -> bool
    ensures shown { Decides result (All IsShown (values_of (all_exports exports.now.entries))) }
    ensures small { OnTrue result (All HasSmall (values_of (all_exports exports.now.entries))) }
{
    for (_, export) in exports {
        if !is_shown(export) {
            return false;
        }
    }
    true
}
