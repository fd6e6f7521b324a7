//! Numbers, and what begins as they do.
ghost use Rattle.std.specs.Prelude.{◌≡◌, ◌≤◌, nat_eq, length};
ghost use Rattle.std.specs.List.{list_any, prefix_len};
ghost use Rattle.go_scan.specs.Numbers.{begins_number, is_in_run, is_digit_of, is_either, are_spaced_digits, are_prefixed_digits, is_behind_zero, is_integer_literal, is_hexadecimal, ends_in_i, is_exponent, is_left_out, run_fault};
ghost use Rattle.go_scan.specs.Fronts.{run_shape, run_at};

use crate::fault::ScanFault;
use crate::shape::Shape;
use crate::token::TokenKind;

/// Whether the bytes begin as a number does.
pub fn begins_number(bytes: &[u8]) -> bool
    ensures { result ≡ begins_number bytes.now }
{
    match bytes {
        [first] => first.is_ascii_digit(),
        [first, second, ..] => {
            first.is_ascii_digit() || *first == b'.' && second.is_ascii_digit()
        }
        [] => false,
    }
}

fn is_in_run(byte: u8) -> bool
    ensures { result ≡ is_in_run byte }
{
    byte.is_ascii_alphabetic() || byte == b'_' || byte.is_ascii_digit() || byte == b'.'
}

/// How many bytes at the front may stand in what begins as a number.
fn run_len(bytes: &[u8]) -> usize
    ensures value { result ≡ prefix_len is_in_run bytes.now }
    ensures within { result ≤ length bytes.now }
{
    bytes.iter().take_while(|byte| is_in_run(**byte)).count()
}

fn is_digit_of(base: u32, byte: u8) -> bool
    requires low { 2 ≤ base }
    requires high { base ≤ 16 }
    ensures { result ≡ is_digit_of base byte }
{
    (byte as char).is_digit(base)
}

fn is_either(lower: u8, upper: u8, byte: u8) -> bool
    ensures { result ≡ is_either lower upper byte }
{
    byte == lower || byte == upper
}

/// Whether the bytes are digits with single underscores among them; `before` says that one may
/// come first.
///
///     digits = digit { [ "_" ] digit } .
fn are_spaced_digits(base: u32, before: bool, bytes: &[u8]) -> bool
    requires low { 2 ≤ base }
    requires high { base ≤ 16 }
    ensures { result ≡ are_spaced_digits base before bytes.now }
{
    let mut before = before;
    for byte in bytes {
        if is_digit_of(base, *byte) {
            before = true;
        } else if *byte == b'_' && before {
            before = false;
        } else {
            return false;
        }
    }
    before
}

/// What stands behind a prefix.
///
///     [ "_" ] digits
fn are_prefixed_digits(base: u32, bytes: &[u8]) -> bool
    requires low { 2 ≤ base }
    requires high { base ≤ 16 }
    ensures { result ≡ are_prefixed_digits base bytes.now }
{
    match bytes {
        [] => false,
        [_, ..] => are_spaced_digits(base, true, bytes),
    }
}

/// Whether the bytes may stand behind a leading 0.
///
///     binary_lit = "0" ( "b" | "B" ) [ "_" ] binary_digits .
///     octal_lit  = "0" [ "o" | "O" ] [ "_" ] octal_digits .
///     hex_lit    = "0" ( "x" | "X" ) [ "_" ] hex_digits .
fn is_behind_zero(bytes: &[u8]) -> bool
    ensures { result ≡ is_behind_zero bytes.now }
{
    match bytes {
        [] => true,
        [first, rest @ ..] => {
            if is_either(b'b', b'B', *first) {
                are_prefixed_digits(2, rest)
            } else if is_either(b'o', b'O', *first) {
                are_prefixed_digits(8, rest)
            } else if is_either(b'x', b'X', *first) {
                are_prefixed_digits(16, rest)
            } else {
                are_spaced_digits(8, true, bytes)
            }
        }
    }
}

/// Whether the bytes are an integer literal.
///
///     int_lit     = decimal_lit | binary_lit | octal_lit | hex_lit .
///     decimal_lit = "0" | ( "1" … "9" ) [ [ "_" ] decimal_digits ] .
fn is_integer(bytes: &[u8]) -> bool
    ensures { result ≡ is_integer_literal bytes.now }
{
    match bytes {
        [] => false,
        [first, rest @ ..] => {
            if *first == b'0' {
                is_behind_zero(rest)
            } else {
                first.is_ascii_digit() && are_spaced_digits(10, true, rest)
            }
        }
    }
}

fn is_hexadecimal(bytes: &[u8]) -> bool
    ensures { result ≡ is_hexadecimal bytes.now }
{
    match bytes {
        [first, second, ..] => *first == b'0' && is_either(b'x', b'X', *second),
        _ => false,
    }
}

fn ends_in_i(bytes: &[u8]) -> bool
    ensures { result ≡ ends_in_i bytes.now }
{
    !bytes.is_empty() && bytes[bytes.len() - 1] == b'i'
}

fn is_exponent(hexadecimal: bool, byte: u8) -> bool
    ensures { result ≡ is_exponent hexadecimal byte }
{
    if hexadecimal {
        is_either(b'p', b'P', byte)
    } else {
        is_either(b'e', b'E', byte)
    }
}

fn holds_dot(run: &[u8]) -> bool
    ensures { result ≡ list_any (λ b. nat_eq b 46) run.now }
{
    run.contains(&b'.')
}

fn holds_exponent(hexadecimal: bool, run: &[u8]) -> bool
    ensures { result ≡ list_any (is_exponent hexadecimal) run.now }
{
    run.iter().any(|byte| is_exponent(hexadecimal, *byte))
}

/// Whether a run that is no integer literal is one of a kind that is left out.
fn is_left_out(run: &[u8]) -> bool
    ensures { result ≡ is_left_out run.now }
{
    holds_dot(run) || holds_exponent(is_hexadecimal(run), run) || ends_in_i(run)
}

/// What is wrong with a run that is no integer literal.
pub fn run_fault(run: &[u8]) -> ScanFault
    ensures { result ≡ run_fault run.now }
{
    if is_left_out(run) {
        ScanFault::LeftOut
    } else {
        ScanFault::Malformed
    }
}

fn run_shape(run: &[u8]) -> Shape
    ensures { result ≡ run_shape run.now }
{
    if is_integer(run) {
        Shape::Word(TokenKind::Integer)
    } else {
        Shape::BadNumber
    }
}

/// The number that the bytes begin with, or what begins as one.
pub fn run_at(bytes: &[u8]) -> Option<(Shape, usize)>
    ensures { result ≡ run_at bytes.now }
{
    let len = run_len(bytes);
    Some((run_shape(&bytes[..len]), len))
}
