//! What a text begins with.
ghost use Rattle.std.specs.Prelude.{◌≡◌, ◌≤◌, ◌+◌, ◌<◌, ◌^◌, length, take, IfSome};
ghost use Rattle.std.specs.List.{prefix_len};
ghost use Rattle.go_scan.specs.Lex.{is_white_space};
ghost use Rattle.go_scan.specs.Fronts.{mark_of, mark_at, slash_at, front};

use crate::comments::{block_at, line_at};
use crate::literals::{raw_at, rune_at, string_at};
use crate::numbers::{begins_number, run_at};
use crate::punctuation::punctuation_of;
use crate::shape::Shape;
use crate::token::TokenKind;
use crate::words::{may_begin_word, word_at};

fn is_blank(byte: u8) -> bool
    ensures { result ≡ is_white_space byte }
{
    byte == b' ' || byte == b'\t' || byte == b'\r' || byte == b'\n'
}

fn blank_len(bytes: &[u8]) -> usize
    ensures value { result ≡ prefix_len is_white_space bytes.now }
    ensures within { result ≤ length bytes.now }
{
    bytes.iter().take_while(|byte| is_blank(**byte)).count()
}

fn head(bytes: &[u8], most: usize) -> &[u8]
    ensures { result.now ≡ take most bytes.now }
{
    if most < bytes.len() {
        &bytes[..most]
    } else {
        bytes
    }
}

/// The operator or punctuation that is spelled by at most so many bytes at the front.
fn mark_of(bytes: &[u8], most: usize) -> Option<(Shape, usize)>
    ensures { result ≡ mark_of (take most bytes.now) }
{
    let word = head(bytes, most);
    match punctuation_of(word) {
        Some(punctuation) => Some((Shape::Word(TokenKind::Punctuation(punctuation)), word.len())),
        None => None,
    }
}

/// The longest operator or punctuation at the front.
fn mark_at(bytes: &[u8]) -> Option<(Shape, usize)>
    ensures { result ≡ mark_at bytes.now }
{
    if let Some(found) = mark_of(bytes, 3) {
        return Some(found);
    }
    if let Some(found) = mark_of(bytes, 2) {
        return Some(found);
    }
    mark_of(bytes, 1)
}

/// The comment or punctuation of a slash and the bytes behind it.
fn slash_at(bytes: &[u8], rest: &[u8]) -> Option<(Shape, usize)>
    requires { length rest.now + 3 < 2 ^ 64 }
    ensures { result ≡ slash_at bytes.now rest.now }
{
    match rest {
        [b'/', tail @ ..] => Some(line_at(tail)),
        [b'*', tail @ ..] => Some(block_at(tail)),
        _ => mark_at(bytes),
    }
}

/// The shape of the piece that the bytes begin with, and how many of them it takes.
///
///     piece = blanks | comment | identifier | keyword | operator | int_lit | rune_lit | string_lit .
fn piece_at(bytes: &[u8]) -> Option<(Shape, usize)>
    requires { length bytes.now + 3 < 2 ^ 64 }
    ensures { result ≡ front bytes.now }
{
    let [first, rest @ ..] = bytes else {
        return None;
    };
    if is_blank(*first) {
        return Some((Shape::Blanks, blank_len(bytes)));
    }
    if may_begin_word(*first) {
        return word_at(bytes);
    }
    if begins_number(bytes) {
        return run_at(bytes);
    }
    match *first {
        b'"' => string_at(rest),
        b'`' => raw_at(rest),
        b'\'' => rune_at(rest),
        b'/' => slash_at(bytes, rest),
        _ => mark_at(bytes),
    }
}

/// The same: what is found stands in the bytes.
pub fn front(bytes: &[u8]) -> Option<(Shape, usize)>
    requires { length bytes.now + 3 < 2 ^ 64 }
    ensures value { result ≡ front bytes.now }
    ensures within { IfSome result (λ f. (1 ≤ f.1) × (f.1 ≤ length bytes.now)) }
{
    piece_at(bytes)
}
