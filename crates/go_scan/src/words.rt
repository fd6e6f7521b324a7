//! Words: what names and keywords are made of.
ghost use Rattle.std.specs.Prelude.{◌≡◌, ◌≤◌, ◌<◌, length};
ghost use Rattle.go_scan.specs.Words.{is_letter, is_inside};
ghost use Rattle.go_scan.specs.Fronts.{char_size, strides, may_begin_word, word_at, word_kind, keyword_in};

use crate::keyword::keyword_of;
use crate::shape::Shape;
use crate::token::TokenKind;
use bstr::decode_utf8;
use ucd_category::{GeneralCategory, GeneralCategoryGroup};

///     letter = unicode_letter | "_" .
fn is_letter(c: char) -> bool
    ensures { result ≡ is_letter c }
{
    c == '_' || GeneralCategoryGroup::Letter.contains(GeneralCategory::for_char(c))
}

/// What may stand behind the first letter of a name.
///
///     letter | unicode_digit
fn is_inside(c: char) -> bool
    ensures { result ≡ is_inside c }
{
    is_letter(c) || GeneralCategory::for_char(c) == GeneralCategory::DecimalNumber
}

fn is_ascii_letter(byte: u8) -> bool
    requires { byte < 128 }
    ensures { result ≡ is_letter byte }
{
    byte == b'_' || byte.is_ascii_alphabetic()
}

fn is_ascii_inside(byte: u8) -> bool
    requires { byte < 128 }
    ensures { result ≡ is_inside byte }
{
    is_ascii_letter(byte) || byte.is_ascii_digit()
}

/// How many bytes the first character takes, if it is a letter.
fn letter_size(bytes: &[u8]) -> usize
    ensures { result ≡ char_size is_letter bytes.now }
{
    if let [first, ..] = bytes
        && *first < 128
    {
        return if is_ascii_letter(*first) { 1 } else { 0 };
    }
    let (decoded, size) = decode_utf8(bytes);
    match decoded {
        Some(c) => { if is_letter(c) { size } else { 0 } }
        None => 0,
    }
}

/// How many bytes the first character takes, if it may stand in a name.
fn inside_size(bytes: &[u8]) -> usize
    ensures { result ≡ char_size is_inside bytes.now }
{
    if let [first, ..] = bytes
        && *first < 128
    {
        return if is_ascii_inside(*first) { 1 } else { 0 };
    }
    let (decoded, size) = decode_utf8(bytes);
    match decoded {
        Some(c) => { if is_inside(c) { size } else { 0 } }
        None => 0,
    }
}

/// How many bytes the letters and digits at the front take.
fn word_len(bytes: &[u8]) -> usize
    ensures value { result ≡ strides (char_size is_inside) 0 bytes.now }
    ensures within { result ≤ length bytes.now }
{
    let mut len = 0;
    while len < bytes.len() {
        let size = inside_size(&bytes[len..]);
        if size == 0 {
            break;
        }
        len += size;
    }
    len
}

/// Whether a byte may begin a word.
pub fn may_begin_word(byte: u8) -> bool
    ensures { result ≡ may_begin_word byte }
{
    byte.is_ascii_alphabetic() || byte == b'_' || byte >= 128
}

fn word_kind(word: &[u8]) -> TokenKind
    ensures { result ≡ word_kind (keyword_in word.now) }
{
    match keyword_of(word) {
        Some(keyword) => TokenKind::Keyword(keyword),
        None => TokenKind::Name,
    }
}

/// The name or keyword that the bytes begin with, if any.
///
///     identifier = letter { letter | unicode_digit } .
pub fn word_at(bytes: &[u8]) -> Option<(Shape, usize)>
    ensures { result ≡ word_at bytes.now }
{
    if letter_size(bytes) == 0 {
        return None;
    }
    let len = word_len(bytes);
    Some((Shape::Word(word_kind(&bytes[..len])), len))
}
