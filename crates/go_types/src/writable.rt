//! Which types' texts tell them: names in them are spelled without what parts the text.
ghost use Rattle.std.specs.Prelude.{◌≡◌, Some, option_map, string_bytes};
ghost use Rattle.std.specs.Bool.{Decides};
ghost use Rattle.go_types.specs.Views.{go_type, fields_in};
ghost use Rattle.go_types.specs.Texts.{Lacks, IsSpelled, IsWritable, AreWritable};

use crate::types::{Field, GoType};

/// Whether no byte of a text is this one.
fn lacks(text: &[u8], byte: u8) -> bool
    ensures { Decides result (Lacks byte text.now) }
{
    for b in text {
        if *b == byte {
            return false;
        }
    }
    true
}

/// Whether no space and no closing brace stand in a text.
fn is_plain(text: &[u8]) -> bool
    ensures { Decides result (Lacks 32 text.now × Lacks 125 text.now) }
{
    lacks(text, b' ') && lacks(text, b'}')
}

/// Whether a name of a package is spelled so that its text tells it.
fn is_named(path: &str, name: &str) -> bool
    ensures { Decides result (IsSpelled (Some path.now) name.now) }
{
    if !is_plain(path.as_bytes()) || !is_plain(name.as_bytes()) {
        return false;
    }
    lacks(name.as_bytes(), b'.')
}

/// Whether a field's name is.
fn is_spelled(owner: &Option<String>, name: &str) -> bool
    ensures { Decides result (IsSpelled (option_map string_bytes owner.now) name.now) }
{
    match owner {
        Some(path) => is_named(path, name),
        None => is_plain(name.as_bytes()) && lacks(name.as_bytes(), b'.'),
    }
}

/// Whether all names in a type are.
#[cycle(writable)]
fn is_written(of: &GoType) -> bool
    ensures { Decides result (IsWritable (go_type of.now)) }
{
    match of {
        GoType::Basic(_) => true,
        GoType::Array(length, element) => {
            let _length = *length;
            is_written(&element.of)
        }
        GoType::Slice(element) => is_written(&element.of),
        GoType::Struct(fields) => are_written(&fields.list),
        GoType::Named(named) => {
            is_named(&named.path, &named.name) && is_written(&named.underlying)
        }
    }
}

/// Whether all names in fields are.
#[cycle(writable)]
fn are_written(fields: &[Field]) -> bool
    ensures { Decides result (AreWritable (fields_in fields.now)) }
{
    for field in fields {
        if !is_spelled(&field.package, &field.name) || !is_written(&field.of) {
            return false;
        }
    }
    true
}

/// Whether a type's text tells it.
pub fn is_writable(of: &GoType) -> bool
    ensures { Decides result (IsWritable (go_type of.now)) }
{
    is_written(of)
}
