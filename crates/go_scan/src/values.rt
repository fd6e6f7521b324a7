//! What rune and string literals mean.
ghost use Rattle.std.specs.Prelude.{◌≡◌, ◌++◌, IfOk, OnOk};
ghost use Rattle.std.specs.List.{filter};
ghost use Rattle.go_scan.specs.Escapes.{escape_bytes};
ghost use Rattle.go_scan.specs.Strings.{is_kept, StringValue};
ghost use Rattle.go_scan.specs.Runes.{RuneValue};
ghost use Rattle.go_scan.specs.Fronts.{is_whole, is_rune, is_string_front, values, rune_meaning, rune_value_of, string_meaning, string_value_of};

use crate::escapes::Meaning;
use crate::literals::{part_at, raw_at, raw_len, rune_at, rune_part_at, string_at};
use crate::shape::Shape;
use std::alloc::{AllocError, Global};

/// Whether a literal was found that takes so many bytes.
fn is_whole(len: usize, found: Option<(Shape, usize)>) -> bool
    ensures { result ≡ is_whole len found }
{
    match found {
        Some((_, size)) => size == len,
        None => false,
    }
}

fn is_rune(bytes: &[u8]) -> bool
    ensures { result ≡ is_rune bytes.now }
{
    match bytes {
        [b'\'', rest @ ..] => is_whole(bytes.len(), rune_at(rest)),
        _ => false,
    }
}

fn is_string(bytes: &[u8]) -> bool
    ensures { result ≡ is_string_front bytes.now }
{
    match bytes {
        [b'"', rest @ ..] => is_whole(bytes.len(), string_at(rest)),
        [b'`', rest @ ..] => is_whole(bytes.len(), raw_at(rest)),
        _ => false,
    }
}

/// What stands behind the first quote of a rune literal, as a code point.
fn rune_meaning(bytes: &[u8]) -> u32
    ensures { result ≡ rune_meaning bytes.now }
{
    let [_, rest @ ..] = bytes else {
        return 0;
    };
    match rune_part_at(rest) {
        Some((_, code)) => code,
        None => 0,
    }
}

/// The code point that bytes mean if they are a rune literal, and else 0.
///
///     rune_lit = "'" ( unicode_value | byte_value ) "'" .
pub fn rune_code(bytes: &[u8]) -> u32
    ensures value { result ≡ rune_value_of bytes.now }
    ensures means { RuneValue bytes.now result }
{
    if is_rune(bytes) {
        rune_meaning(bytes)
    } else {
        0
    }
}

/// Adds the bytes that an escape means.
fn push_meaning(value: &mut Vec<u8>, meaning: Meaning) -> Result<(), AllocError>
    ensures { OnOk result (value.new.items ≡ value.old.items ++ escape_bytes meaning) }
{
    match meaning {
        Meaning::Byte(byte) => {
            value.push(byte)?;
            Ok(())
        }
        Meaning::Character(c) => {
            let mut buffer = [0; 4];
            let text = c.encode_utf8(&mut buffer);
            value.extend_from_slice(text.as_bytes())?;
            Ok(())
        }
    }
}

/// What the parts of an interpreted string mean.
fn parts_value(alloc: Global, bytes: &[u8]) -> Result<Vec<u8>, AllocError>
    ensures { IfOk result (λ v. v.items ≡ values 0 bytes.now) }
{
    let mut value = Vec::new(alloc);
    let mut at = 0;
    while at < bytes.len() {
        let Some((size, meaning)) = part_at(&bytes[at..]) else {
            return Ok(value);
        };
        push_meaning(&mut value, meaning)?;
        at += size;
    }
    Ok(value)
}

/// The bytes of a raw string without carriage returns.
fn raw_value(alloc: Global, bytes: &[u8]) -> Result<Vec<u8>, AllocError>
    ensures { IfOk result (λ v. v.items ≡ filter is_kept bytes.now) }
{
    let mut value = Vec::new(alloc);
    for byte in bytes {
        if *byte != b'\r' {
            value.push(*byte)?;
        }
    }
    Ok(value)
}

/// What stands behind the first quote of a string literal, as bytes.
fn string_meaning(alloc: Global, bytes: &[u8]) -> Result<Vec<u8>, AllocError>
    ensures { IfOk result (λ v. v.items ≡ string_meaning bytes.now) }
{
    match bytes {
        [b'"', rest @ ..] => parts_value(alloc, rest),
        [_, rest @ ..] => raw_value(alloc, &rest[..raw_len(rest)]),
        [] => Ok(Vec::new(alloc)),
    }
}

/// The bytes that bytes mean if they are a string literal, and else none. An `Err` only where memory
/// ran out.
///
///     string_lit             = raw_string_lit | interpreted_string_lit .
///     raw_string_lit         = "`" { unicode_char | newline } "`" .
///     interpreted_string_lit = `"` { unicode_value | byte_value } `"` .
pub fn string_bytes(alloc: Global, bytes: &[u8]) -> Result<Vec<u8>, AllocError>
    ensures value { IfOk result (λ v. v.items ≡ string_value_of bytes.now) }
    ensures means { IfOk result (λ v. StringValue bytes.now v.items) }
{
    if is_string(bytes) {
        string_meaning(alloc, bytes)
    } else {
        Ok(Vec::new(alloc))
    }
}
