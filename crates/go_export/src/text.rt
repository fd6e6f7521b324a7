//! The texts of summaries, which are hashed.
ghost use Rattle.std.specs.Prelude.{◌≡◌, ◌++◌, OnOk, IfOk, map};
ghost use Rattle.std.specs.List.{flat_map};
ghost use Rattle.go_export.specs.Fields.{field};
ghost use Rattle.go_types.specs.Texts.{type_text};
ghost use Rattle.go_types.specs.Views.{go_type};
ghost use Rattle.go_export.specs.Summaries.{value_text, types_text, export_text, named_text, summary_text};
ghost use Rattle.go_text.specs.declared.edition.Edition.{Edition};
ghost use Rattle.go_export.specs.Views.{export_of, all_exports, summary_from};

use crate::export::Export;
use crate::field::{push_field, push_number};
use go_const::constant::Const;
use go_types::texts::type_text;
use go_types::types::GoType;
use std::alloc::{AllocError, Global};
use std::collections::BTreeMap;

/// A type comes behind a text, as a field.
fn push_type(alloc: Global, text: &mut Vec<u8>, of: &GoType) -> Result<(), AllocError>
    ensures { OnOk result (text.new.items ≡ text.old.items ++ field (type_text (go_type of.now))) }
{
    push_field(text, &type_text(alloc, of)?)
}

/// Types come behind a text: how many there are, and each.
fn push_types(alloc: Global, text: &mut Vec<u8>, types: &[GoType]) -> Result<(), AllocError>
    ensures { OnOk result (text.new.items ≡ text.old.items ++ types_text (map go_type types.now)) }
{
    push_number(text, types.len() as u64)?;
    for of in types {
        push_type(alloc, text, of)?;
    }
    Ok(())
}

/// A constant's value comes behind a text, as a field.
fn push_value(alloc: Global, text: &mut Vec<u8>, value: &Const) -> Result<(), AllocError>
    ensures { OnOk result (text.new.items ≡ text.old.items ++ field (value_text value.now)) }
{
    match value {
        Const::Integer(number) => push_field(text, number.to_string(alloc)?.as_bytes()),
        Const::Text(bytes) => push_field(text, bytes.bytes()),
        Const::Bool(true) => push_field(text, b"true"),
        Const::Bool(false) => push_field(text, b"false"),
    }
}

/// What a name exports comes behind a text.
fn push_export(alloc: Global, text: &mut Vec<u8>, export: &Export) -> Result<(), AllocError>
    ensures { OnOk result (text.new.items ≡ text.old.items ++ export_text (export_of export.now)) }
{
    match export {
        Export::Constant(of, value) => {
            push_field(text, b"C")?;
            push_type(alloc, text, of)?;
            push_value(alloc, text, value)
        }
        Export::Variable(of) => {
            push_field(text, b"V")?;
            push_type(alloc, text, of)
        }
        Export::Function(parameters, results) => {
            push_field(text, b"F")?;
            push_types(alloc, text, parameters)?;
            push_types(alloc, text, results)
        }
        Export::Type(of) => {
            push_field(text, b"T")?;
            push_type(alloc, text, of)
        }
    }
}

/// All exports come behind a text.
fn push_exports(
    alloc: Global,
    text: &mut Vec<u8>,
    exports: &BTreeMap<String, Export>,
) -> Result<(), AllocError>
    ensures { OnOk result (text.new.items ≡ text.old.items ++ flat_map named_text (all_exports exports.now.entries)) }
{
    for (name, export) in exports {
        push_field(text, name.as_bytes())?;
        push_export(alloc, text, export)?;
    }
    Ok(())
}

/// The text of the summary of a package by its path, its name and its exports, whatever its edition.
/// An `Err` only where memory ran out.
pub(crate) fn text_of(
    alloc: Global,
    path: &str,
    name: &str,
    exports: &BTreeMap<String, Export>,
) -> Result<Vec<u8>, AllocError>
    ensures { (edition : Edition) → IfOk result (λ text. text.items ≡ summary_text (summary_from edition path.now name.now exports.now.entries)) }
{
    let mut text = Vec::new(alloc);
    push_field(&mut text, b"goset summary")?;
    push_field(&mut text, path.as_bytes())?;
    push_field(&mut text, name.as_bytes())?;
    push_number(&mut text, exports.len() as u64)?;
    push_exports(alloc, &mut text, exports)?;
    Ok(text)
}
