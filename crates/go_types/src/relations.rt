//! Which types are identical, and which values may be assigned and converted to a type.
ghost use Rattle.std.specs.Prelude.{◌≡◌, bytes_eq};
ghost use Rattle.go_types.specs.Views.{go_type, fields_in};
ghost use Rattle.go_types.specs.Texts.{basic_text};
ghost use Rattle.go_types.specs.Relations.{underlying, identical, all_identical, is_literal, kind_fits, assignable, are_integers, convertible, is_comparable, are_comparable};

use crate::types::{Basic, Field, GoType, Untyped};

/// The underlying type of a type: of a declared one, that of the type that it is declared as.
/// [Underlying types](https://go.dev/ref/spec#Underlying_types)
pub fn underlying(of: &GoType) -> &GoType
    ensures { go_type result.now ≡ underlying (go_type of.now) }
{
    match of {
        GoType::Named(named) => underlying(&named.underlying),
        _ => of,
    }
}

/// Whether two basic types are the same.
fn is_same(a: Basic, b: Basic) -> bool
    ensures { result ≡ bytes_eq (basic_text a) (basic_text b) }
{
    a == b
}

/// Whether two types are identical. [Type identity](https://go.dev/ref/spec#Type_identity)
#[cycle(identity)]
pub fn identical(a: &GoType, b: &GoType) -> bool
    ensures { result ≡ identical (go_type a.now) (go_type b.now) }
{
    match (a, b) {
        (GoType::Basic(a), GoType::Basic(b)) => is_same(*a, *b),
        (GoType::Array(m, a), GoType::Array(n, b)) => m == n && identical(&a.of, &b.of),
        (GoType::Slice(a), GoType::Slice(b)) => identical(&a.of, &b.of),
        (GoType::Struct(a), GoType::Struct(b)) => all_identical(&a.list, &b.list),
        (GoType::Named(a), GoType::Named(b)) => a.path == b.path && a.name == b.name,
        _ => false,
    }
}

/// Whether some fields have the names that others have, in their order, and identical types. A
/// name that isn't exported is another in each package.
#[cycle(identity)]
fn all_identical(a: &[Field], b: &[Field]) -> bool
    ensures { result ≡ all_identical (fields_in a.now) (fields_in b.now) }
{
    let mut others = b;
    for field in a {
        let [other, rest @ ..] = others else {
            return false;
        };
        if field.package != other.package || field.name != other.name {
            return false;
        }
        if !identical(&field.of, &other.of) {
            return false;
        }
        others = rest;
    }
    others.is_empty()
}

/// Whether a type is neither basic nor declared.
fn is_literal(of: &GoType) -> bool
    ensures { result ≡ is_literal (go_type of.now) }
{
    matches!(
        of,
        GoType::Array(_, _) | GoType::Slice(_) | GoType::Struct(_)
    )
}

/// Whether a value of a type is untyped, and of a kind that fits a basic type.
fn fits(value: &GoType, target: &GoType) -> bool
    ensures { result ≡ kind_fits (go_type value.now) (go_type target.now) }
{
    match (value, target) {
        (GoType::Basic(Basic::Untyped(kind)), GoType::Basic(basic)) => matches!(
            (kind, basic),
            (Untyped::Bool, Basic::Bool)
                | (Untyped::Int | Untyped::Rune, Basic::Integer(_))
                | (Untyped::String, Basic::String)
        ),
        _ => false,
    }
}

/// Whether a value of a type may be assigned to a variable of another. Of a constant it is asked
/// apart whether its value lies in the type.
/// [Assignability](https://go.dev/ref/spec#Assignability)
pub fn assignable(value: &GoType, target: &GoType) -> bool
    ensures { result ≡ assignable (go_type value.now) (go_type target.now) }
{
    identical(value, target)
        || (is_literal(value) || is_literal(target))
            && identical(underlying(value), underlying(target))
        || fits(value, underlying(target))
}

/// Whether two types are integer types.
fn are_integers(a: &GoType, b: &GoType) -> bool
    ensures { result ≡ are_integers (go_type a.now) (go_type b.now) }
{
    matches!(
        (a, b),
        (
            GoType::Basic(Basic::Integer(_)),
            GoType::Basic(Basic::Integer(_))
        )
    )
}

/// Whether a value of a type that isn't constant may be converted to another.
/// [Conversions](https://go.dev/ref/spec#Conversions)
pub fn convertible(value: &GoType, target: &GoType) -> bool
    ensures { result ≡ convertible (go_type value.now) (go_type target.now) }
{
    let (from, to) = (underlying(value), underlying(target));
    identical(from, to) || are_integers(from, to) || fits(value, to)
}

/// Whether values of a type may be compared: no slice is a part of it.
/// [Comparison operators](https://go.dev/ref/spec#Comparison_operators)
#[cycle(comparable)]
pub fn is_comparable(of: &GoType) -> bool
    ensures { result ≡ is_comparable (go_type of.now) }
{
    match of {
        GoType::Basic(_) => true,
        GoType::Array(_, element) => is_comparable(&element.of),
        GoType::Slice(_) => false,
        GoType::Struct(fields) => are_comparable(&fields.list),
        GoType::Named(named) => is_comparable(&named.underlying),
    }
}

/// Whether values of the types of some fields may be.
#[cycle(comparable)]
fn are_comparable(fields: &[Field]) -> bool
    ensures { result ≡ are_comparable (fields_in fields.now) }
{
    for field in fields {
        if !is_comparable(&field.of) {
            return false;
        }
    }
    true
}
