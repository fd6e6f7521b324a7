//! The texts of types, which are hashed.
ghost use Rattle.std.specs.Prelude.{◌≡◌, ◌++◌, OnOk, IfOk, codes, option_map, string_bytes};
ghost use Rattle.std.specs.Fmt.{decimal};
ghost use Rattle.go_types.specs.Views.{go_type, fields_in};
ghost use Rattle.go_types.specs.Texts.{basic_text, type_text, name_text, fields_text};

use crate::types::{Basic, Field, GoType, IntKind, Untyped};
use std::alloc::{AllocError, Global};

/// The name of an integer type.
fn integer_name(of: IntKind) -> &'static str
    ensures { result.now ≡ basic_text (Basic.Integer of) }
{
    match of {
        IntKind::Int => "int",
        IntKind::Int8 => "int8",
        IntKind::Int16 => "int16",
        IntKind::Int32 => "int32",
        IntKind::Int64 => "int64",
        IntKind::Uint => "uint",
        IntKind::Uint8 => "uint8",
        IntKind::Uint16 => "uint16",
        IntKind::Uint32 => "uint32",
        IntKind::Uint64 => "uint64",
    }
}

/// The name of a basic type.
fn basic_name(of: Basic) -> &'static str
    ensures { result.now ≡ basic_text of }
{
    match of {
        Basic::Bool => "bool",
        Basic::String => "string",
        Basic::Integer(integer) => integer_name(integer),
        Basic::Untyped(Untyped::Bool) => "untyped bool",
        Basic::Untyped(Untyped::Int) => "untyped int",
        Basic::Untyped(Untyped::Rune) => "untyped rune",
        Basic::Untyped(Untyped::String) => "untyped string",
    }
}

/// Bytes come behind a text. What is about one node alone stands in calls of its own, so that each
/// level of a type takes little of the stack.
#[inline(never)]
fn push_part(text: &mut Vec<u8>, part: &[u8]) -> Result<(), AllocError>
    ensures { OnOk result (text.new.items ≡ text.old.items ++ part.now) }
{
    text.extend_from_slice(part)?;
    Ok(())
}

/// A length in brackets comes behind a text.
#[inline(never)]
fn push_length(alloc: Global, text: &mut Vec<u8>, length: u32) -> Result<(), AllocError>
    ensures { OnOk result (text.new.items ≡ text.old.items ++ (codes "[" ++ decimal length ++ codes "]")) }
{
    push_part(text, b"[")?;
    push_part(text, length.to_string(alloc)?.as_bytes())?;
    push_part(text, b"]")
}

/// A field's name comes behind a text, with the path of its package where there is one, and a
/// space.
#[inline(never)]
fn push_name(text: &mut Vec<u8>, owner: &Option<String>, name: &str) -> Result<(), AllocError>
    ensures { OnOk result (text.new.items ≡ text.old.items ++ (name_text (option_map string_bytes owner.now) name.now ++ codes " ")) }
{
    if let Some(path) = owner {
        push_part(text, path.as_bytes())?;
        push_part(text, b".")?;
    }
    push_part(text, name.as_bytes())?;
    push_part(text, b" ")
}

/// What stands before a declared type's underlying one comes behind a text.
#[inline(never)]
fn push_head(text: &mut Vec<u8>, path: &str, name: &str) -> Result<(), AllocError>
    ensures { OnOk result (text.new.items ≡ text.old.items ++ (codes "(" ++ name_text (Some path.now) name.now ++ codes " ")) }
{
    push_part(text, b"(")?;
    push_part(text, path.as_bytes())?;
    push_part(text, b".")?;
    push_part(text, name.as_bytes())?;
    push_part(text, b" ")
}

/// The text of a type comes behind a text.
#[cycle(texts)]
fn push_type(alloc: Global, text: &mut Vec<u8>, of: &GoType) -> Result<(), AllocError>
    ensures { OnOk result (text.new.items ≡ text.old.items ++ type_text (go_type of.now)) }
{
    match of {
        GoType::Basic(basic) => push_part(text, basic_name(*basic).as_bytes()),
        GoType::Array(length, element) => {
            push_length(alloc, text, *length)?;
            push_type(alloc, text, &element.of)
        }
        GoType::Slice(element) => {
            push_part(text, b"[]")?;
            push_type(alloc, text, &element.of)
        }
        GoType::Struct(fields) => {
            push_part(text, b"struct{")?;
            push_fields(alloc, text, &fields.list)?;
            push_part(text, b"}")
        }
        GoType::Named(named) => {
            push_head(text, &named.path, &named.name)?;
            push_type(alloc, text, &named.underlying)?;
            push_part(text, b")")
        }
    }
}

/// The texts of fields come behind a text.
#[cycle(texts)]
fn push_fields(alloc: Global, text: &mut Vec<u8>, fields: &[Field]) -> Result<(), AllocError>
    ensures { OnOk result (text.new.items ≡ text.old.items ++ fields_text (fields_in fields.now)) }
{
    for field in fields {
        push_name(text, &field.package, &field.name)?;
        push_type(alloc, text, &field.of)?;
        push_part(text, b";")?;
    }
    Ok(())
}

/// The text of a type: the name of a basic one; `[N]` or `[]` and the element's; `struct{`, for each field
/// its name, a space, its type's text and `;`, and `}`; of a declared type `(`, its name with the
/// package's path, a space, the text of what it is declared as, and `)`. An `Err` only where memory
/// ran out.
pub fn type_text(alloc: Global, of: &GoType) -> Result<Vec<u8>, AllocError>
    ensures { IfOk result (λ text. text.items ≡ type_text (go_type of.now)) }
{
    let mut text = Vec::new(alloc);
    push_type(alloc, &mut text, of)?;
    Ok(text)
}
