//! Fields of a struct by their names. [Struct types](https://go.dev/ref/spec#Struct_types)
ghost use Rattle.std.specs.Prelude.{◌≡◌, IfOk, map, unwrap_or};
ghost use Rattle.std.specs.Option.{option_map};
ghost use Rattle.go_expr.specs.Fields.{typed_field};
ghost use Rattle.go_expr.specs.Rules.{are_distinct, field_named, field_names};

use crate::selector::field_named;
use go_scope::name_index::NameIndex;
use go_types::types::Field;
use std::alloc::{AllocError, Global};

/// Whether the names of fields differ. An `Err` only where memory ran out.
pub(crate) fn differ(alloc: Global, fields: &[Field]) -> Result<bool, AllocError>
    ensures { IfOk result (λ differs. differs ≡ are_distinct (field_names (map typed_field fields.now))) }
{
    let mut names = NameIndex::new(alloc);
    for field in fields {
        if names.insert(field.name.as_str())?.is_some() {
            return Ok(false);
        }
    }
    Ok(true)
}

/// The names of fields, in their order. An `Err` only where memory ran out.
fn names_of<'a>(alloc: Global, fields: &'a [Field]) -> Result<NameIndex<'a>, AllocError>
    ensures { IfOk result (λ names. names ≡ field_names (map typed_field fields.now)) }
{
    let mut names = NameIndex::new(alloc);
    for field in fields {
        names.insert(field.name.as_str())?;
    }
    Ok(names)
}

/// The field of a name, by the names of all.
fn field_by<'a>(
    fields: &'a [Field],
    names: &NameIndex<'_>,
    name: &str,
) -> Option<(usize, &'a Field)>
    requires { names.now ≡ field_names (map typed_field fields.now) }
    ensures { option_map (λ f. (f.0, typed_field f.1.now)) result ≡ field_named name.now (map typed_field fields.now) }
{
    let Some(number) = names.get(name) else {
        return None;
    };
    match fields.get(number) {
        Some(field) => Some((number, field)),
        None => None,
    }
}

/// Fields that are looked up by their names.
#[derive(Drop)]
pub(crate) struct NamedFields<'a> {
    /// The fields, in their order.
    pub(crate) fields: &'a [Field],
    names: Option<NameIndex<'a>>,
    ghost named: { unwrap_or names (field_names (map typed_field fields.now)) ≡ field_names (map typed_field fields.now) },
}

impl<'a> NamedFields<'a> {
    /// Fields that few names are looked for in: they are compared one after the other.
    pub(crate) fn few(fields: &'a [Field]) -> NamedFields<'a>
        ensures { result.fields.now ≡ fields.now }
    {
        NamedFields {
            fields,
            names: None,
        }
    }

    /// Fields that many names are looked for in. An `Err` only where memory ran out.
    pub(crate) fn many(alloc: Global, fields: &'a [Field]) -> Result<NamedFields<'a>, AllocError>
        ensures { IfOk result (λ all. all.fields.now ≡ fields.now) }
    {
        let names = Some(names_of(alloc, fields)?);
        Ok(NamedFields { fields, names })
    }

    /// The field of a name, with its number.
    pub(crate) fn named(&self, name: &str) -> Option<(usize, &'a Field)>
        ensures { option_map (λ f. (f.0, typed_field f.1.now)) result ≡ field_named name.now (map typed_field self.now.fields.now) }
    {
        match &self.names {
            Some(names) => field_by(self.fields, names, name),
            None => field_named(self.fields, name),
        }
    }
}
