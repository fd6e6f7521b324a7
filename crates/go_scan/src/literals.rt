//! Rune and string literals, and what they mean.
ghost use Rattle.std.specs.Prelude.{◌≡◌, ◌+◌, ◌≤◌, ◌<◌, ◌^◌, length};
ghost use Rattle.std.specs.List.{prefix_len};
ghost use Rattle.go_scan.specs.Runes.{is_plain_rune};
ghost use Rattle.go_scan.specs.Strings.{is_plain_byte, is_in_raw};
ghost use Rattle.go_scan.specs.Escapes.{escape_code};
ghost use Rattle.go_scan.specs.Fronts.{strides, rune_part_at, closed_at, rune_at, escaped_part, part_at, part_size, string_at, raw_at};

use crate::escapes::{Meaning, escape_at};
use crate::shape::Shape;
use crate::token::TokenKind;
use bstr::decode_utf8;

fn code_of(meaning: Meaning) -> u32
    ensures { result ≡ escape_code meaning }
{
    match meaning {
        Meaning::Byte(byte) => byte as u32,
        Meaning::Character(c) => c as u32,
    }
}

fn is_plain_rune(c: char) -> bool
    ensures { result ≡ is_plain_rune c }
{
    c != '\n' && c != '\'' && c != '\\'
}

/// What may stand between single quotes: its size and code point.
///
///     unicode_value = unicode_char | little_u_value | big_u_value | escaped_char .
///     byte_value    = octal_byte_value | hex_byte_value .
pub fn rune_part_at(bytes: &[u8]) -> Option<(usize, u32)>
    ensures { result ≡ rune_part_at bytes.now }
{
    let [first, rest @ ..] = bytes else {
        return None;
    };
    if *first == b'\\' {
        let (size, meaning) = escape_at(b'\'', rest)?;
        return Some((size, code_of(meaning)));
    }
    let (decoded, size) = decode_utf8(bytes);
    let c = decoded?;
    if is_plain_rune(c) {
        Some((size, c as u32))
    } else {
        None
    }
}

/// The literal, if its last quote stands behind `size` bytes of these, which its first quote precedes.
fn closed_at(kind: TokenKind, quote: u8, bytes: &[u8], size: usize) -> Option<(Shape, usize)>
    requires quote { 1 ≤ quote }
    requires room { length bytes.now + 2 < 2 ^ 64 }
    ensures { result ≡ closed_at kind quote bytes.now size }
{
    if size < bytes.len() && bytes[size] == quote {
        Some((Shape::Word(kind), size + 2))
    } else {
        None
    }
}

/// The rune literal of a single quote and these bytes.
///
///     rune_lit = "'" ( unicode_value | byte_value ) "'" .
pub fn rune_at(bytes: &[u8]) -> Option<(Shape, usize)>
    requires { length bytes.now + 2 < 2 ^ 64 }
    ensures { result ≡ rune_at bytes.now }
{
    let (size, _) = rune_part_at(bytes)?;
    closed_at(TokenKind::Rune, b'\'', bytes, size)
}

fn is_plain(byte: u8) -> bool
    ensures { result ≡ is_plain_byte byte }
{
    byte != b'\n' && byte != b'"' && byte != b'\\'
}

/// The plain byte or the escape that the bytes begin with: its size and what it means.
pub fn part_at(bytes: &[u8]) -> Option<(usize, Meaning)>
    ensures { escaped_part result ≡ part_at bytes.now }
{
    let [first, rest @ ..] = bytes else {
        return None;
    };
    if *first == b'\\' {
        return escape_at(b'"', rest);
    }
    if is_plain(*first) {
        Some((1, Meaning::Byte(*first)))
    } else {
        None
    }
}

/// How many bytes that takes.
fn part_size(bytes: &[u8]) -> usize
    ensures { result ≡ part_size bytes.now }
{
    match part_at(bytes) {
        Some((size, _)) => size,
        None => 0,
    }
}

/// How many bytes at the front may stand between double quotes.
fn parts_len(bytes: &[u8]) -> usize
    ensures value { result ≡ strides part_size 0 bytes.now }
    ensures within { result ≤ length bytes.now }
{
    let mut len = 0;
    while len < bytes.len() {
        let size = part_size(&bytes[len..]);
        if size == 0 {
            break;
        }
        len += size;
    }
    len
}

/// The interpreted string literal of a double quote and these bytes.
///
///     interpreted_string_lit = `"` { unicode_value | byte_value } `"` .
pub fn string_at(bytes: &[u8]) -> Option<(Shape, usize)>
    requires { length bytes.now + 2 < 2 ^ 64 }
    ensures { result ≡ string_at bytes.now }
{
    closed_at(TokenKind::String, b'"', bytes, parts_len(bytes))
}

fn is_in_raw(byte: u8) -> bool
    ensures { result ≡ is_in_raw byte }
{
    byte != b'`'
}

/// How many bytes at the front may stand between back quotes.
pub fn raw_len(bytes: &[u8]) -> usize
    ensures value { result ≡ prefix_len is_in_raw bytes.now }
    ensures within { result ≤ length bytes.now }
{
    bytes.iter().take_while(|byte| is_in_raw(**byte)).count()
}

/// The raw string literal of a back quote and these bytes.
///
///     raw_string_lit = "`" { unicode_char | newline } "`" .
pub fn raw_at(bytes: &[u8]) -> Option<(Shape, usize)>
    requires { length bytes.now + 2 < 2 ^ 64 }
    ensures { result ≡ raw_at bytes.now }
{
    closed_at(TokenKind::String, b'`', bytes, raw_len(bytes))
}
