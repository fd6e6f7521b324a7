//! Tokens, read one behind another.
ghost use Rattle.std.specs.Prelude.{◌≡◌, [], map, get_or, IfOk, string_bytes};
ghost use Rattle.go_packed.specs.Tokens.{piece_token, first_or, rest_of};
ghost use Rattle.go_packed.specs.Reading.{next, token_number, integer_of, token_text, token_name};

use crate::piece::Piece;
use go_const::constant::Text;
use std::alloc::{AllocError, Global};
use std::marker::Model;

/// The first of some numbers, or another where none is, and those behind it.
fn parted<T: Copy>(items: &[T], other: T) -> (T, &[T])
    ensures first { result.0 ≡ first_or other items.now }
    ensures rest { result.1.now ≡ rest_of items.now }
{
    match items.split_first() {
        Some((first, rest)) => (*first, rest),
        None => (other, items),
    }
}

/// The name of a number; an empty one where there is none.
fn name_at<'a>(names: &[&'a str], number: usize) -> &'a str
    ensures { result.now ≡ get_or (map (λ n. n.now) names.now) number [] }
{
    match names.get(number) {
        Some(name) => *name,
        None => "",
    }
}

/// The tokens that are left to read.
#[derive(Drop)]
pub(crate) struct Source<'a> {
    pub(crate) bytes: &'a [u8],
    pub(crate) shorts: &'a [u16],
    pub(crate) sizes: &'a [usize],
    pub(crate) integers: &'a [i128],
    pub(crate) texts: &'a [Text],
    pub(crate) names: &'a [&'a str],
}

impl<'a> Model for Source<'a> {
    ghost use Rattle.std.specs.Prelude.{List, map};
    ghost use Rattle.go_packed.specs.Tokens.{PackedToken, tokens};

    ghost Value = { List PackedToken };

    ghost view = { λ a. tokens (map (λ n. n.now) a.names.now) (record { shorts = a.shorts.now; sizes = a.sizes.now; integers = a.integers.now; texts = a.texts.now }) a.bytes.now };
}

impl<'a> Source<'a> {
    /// Passes the first token; 0 where none is left.
    fn next(&mut self) -> Piece<'a>
        ensures token { piece_token result ≡ next self.old }
        ensures left { self.new ≡ rest_of self.old }
    {
        let Some((byte, bytes)) = self.bytes.split_first() else {
            return Piece::Number(0);
        };
        let byte = *byte;
        self.bytes = bytes;
        if byte < 128 {
            Piece::Number(byte as usize)
        } else if byte < 192 {
            Piece::Name(name_at(self.names, (byte - 128) as usize))
        } else if byte < 248 {
            Piece::Integer((byte - 192) as i128)
        } else if byte == 248 {
            let (number, shorts) = parted(self.shorts, 0);
            self.shorts = shorts;
            Piece::Number(number as usize)
        } else if byte == 249 {
            let (number, sizes) = parted(self.sizes, 0);
            self.sizes = sizes;
            Piece::Number(number)
        } else if byte == 250 {
            let (number, shorts) = parted(self.shorts, 0);
            self.shorts = shorts;
            Piece::Name(name_at(self.names, number as usize))
        } else if byte == 251 {
            let (number, sizes) = parted(self.sizes, 0);
            self.sizes = sizes;
            Piece::Name(name_at(self.names, number))
        } else if byte == 252 {
            let (number, shorts) = parted(self.shorts, 0);
            self.shorts = shorts;
            Piece::Integer(number as i128)
        } else if byte == 253 {
            let (number, integers) = parted(self.integers, 0);
            self.integers = integers;
            Piece::Integer(number)
        } else if let Some((text, texts)) = self.texts.split_first() {
            self.texts = texts;
            Piece::Text(text)
        } else {
            Piece::Number(0)
        }
    }

    /// Passes the first number.
    pub(crate) fn number(&mut self) -> usize
        ensures number { result ≡ token_number (next self.old) }
        ensures left { self.new ≡ rest_of self.old }
    {
        match self.next() {
            Piece::Number(number) => number,
            _ => 0,
        }
    }

    /// Passes the first number of a cell.
    pub(crate) fn integer(&mut self) -> i128
        ensures integer { result ≡ integer_of (next self.old) }
        ensures left { self.new ≡ rest_of self.old }
    {
        match self.next() {
            Piece::Integer(number) => number,
            _ => 0,
        }
    }

    /// Passes the first text. An `Err` only where memory ran out.
    pub(crate) fn text(&mut self, alloc: Global) -> Result<Text, AllocError>
        ensures text { IfOk result (λ text. text ≡ token_text (next self.old)) }
        ensures left { self.new ≡ rest_of self.old }
    {
        match self.next() {
            Piece::Text(text) => text.copy(),
            _ => Text::new(alloc, &[]),
        }
    }

    /// Passes the first name. An `Err` only where memory ran out.
    pub(crate) fn name(&mut self, alloc: Global) -> Result<String, AllocError>
        ensures name { IfOk result (λ name. string_bytes name ≡ token_name (next self.old)) }
        ensures left { self.new ≡ rest_of self.old }
    {
        match self.next() {
            Piece::Name(name) => String::from_str(alloc, name),
            _ => String::from_str(alloc, ""),
        }
    }
}
