//! Tokens, written one behind another.
ghost use Rattle.std.specs.Prelude.{◌≡◌, ◌++◌, ◌∷◌, [], map, OnOk, IfOk};
ghost use Rattle.go_packed.specs.Tokens.{piece_token, Number, Integer, Text as A_text, Name};

use crate::names::Names;
use crate::piece::Piece;
use go_const::constant::Text;
use std::alloc::{AllocError, Global};
use std::marker::Model;

/// The tokens that were written.
#[derive(Drop)]
pub(crate) struct Sink<'a> {
    pub(crate) bytes: Vec<u8>,
    pub(crate) shorts: Vec<u16>,
    pub(crate) sizes: Vec<usize>,
    pub(crate) integers: Vec<i128>,
    pub(crate) texts: Vec<Text>,
    pub(crate) names: Names<'a>,
}

impl<'a> Model for Sink<'a> {
    ghost use Rattle.std.specs.Prelude.{List};
    ghost use Rattle.go_packed.specs.Tokens.{PackedToken, tokens};
    ghost use Rattle.go_packed.specs.Whole.{IsPackedForm};

    ghost Value = { List PackedToken };

    ghost view = { λ a. tokens a.names (record { shorts = a.shorts.items; sizes = a.sizes.items; integers = a.integers.items; texts = a.texts.items }) a.bytes.items };

    ghost invariant = { λ a. IsPackedForm a.names (record { shorts = a.shorts.items; sizes = a.sizes.items; integers = a.integers.items; texts = a.texts.items }) a.bytes.items };
}

impl<'a> Sink<'a> {
    /// No tokens.
    pub(crate) fn new(alloc: Global) -> Sink<'a>
        ensures { result ≡ [] }
    {
        Sink {
            bytes: Vec::new(alloc),
            shorts: Vec::new(alloc),
            sizes: Vec::new(alloc),
            integers: Vec::new(alloc),
            texts: Vec::new(alloc),
            names: Names::new(alloc),
        }
    }

    /// Writes a number.
    fn put_number(&mut self, number: usize) -> Result<(), AllocError>
        ensures { OnOk result (self.new ≡ self.old ++ Number number ∷ []) }
    {
        self.bytes.reserve(1)?;
        if number < 128 {
            self.bytes.push_reserved(number as u8);
            return Ok(());
        }
        if number < 65536 {
            self.shorts.push(number as u16)?;
            self.bytes.push_reserved(248);
            return Ok(());
        }
        self.sizes.push(number)?;
        self.bytes.push_reserved(249);
        Ok(())
    }

    /// Writes a number of a cell.
    fn put_integer(&mut self, number: i128) -> Result<(), AllocError>
        ensures { OnOk result (self.new ≡ self.old ++ Integer number ∷ []) }
    {
        self.bytes.reserve(1)?;
        let Ok(short) = u16::try_from(number) else {
            self.integers.push(number)?;
            self.bytes.push_reserved(253);
            return Ok(());
        };
        if short < 56 {
            self.bytes.push_reserved(short as u8 + 192);
            return Ok(());
        }
        self.shorts.push(short)?;
        self.bytes.push_reserved(252);
        Ok(())
    }

    /// Writes a text, which is shared.
    fn put_text(&mut self, text: &Text) -> Result<(), AllocError>
        ensures { OnOk result (self.new ≡ self.old ++ A_text text.now ∷ []) }
    {
        self.bytes.reserve(1)?;
        let copy = text.copy()?;
        self.texts.push(copy)?;
        self.bytes.push_reserved(254);
        Ok(())
    }

    /// Writes a name by its number.
    fn put_name(&mut self, name: &'a str) -> Result<(), AllocError>
        ensures { OnOk result (self.new ≡ self.old ++ Name name.now ∷ []) }
    {
        self.bytes.reserve(1)?;
        let number = self.names.number(name)?;
        if number < 64 {
            self.bytes.push_reserved(number as u8 + 128);
            return Ok(());
        }
        if number < 65536 {
            self.shorts.push(number as u16)?;
            self.bytes.push_reserved(250);
            return Ok(());
        }
        self.sizes.push(number)?;
        self.bytes.push_reserved(251);
        Ok(())
    }

    /// Writes a token.
    fn put(&mut self, piece: Piece<'a>) -> Result<(), AllocError>
        ensures { OnOk result (self.new ≡ self.old ++ piece_token piece.entry ∷ []) }
    {
        match piece {
            Piece::Number(number) => self.put_number(number),
            Piece::Integer(number) => self.put_integer(number),
            Piece::Text(text) => self.put_text(text),
            Piece::Name(name) => self.put_name(name),
        }
    }

    /// Writes tokens in order. An `Err` only where memory ran out.
    pub(crate) fn put_all(&mut self, pieces: &[Piece<'a>]) -> Result<(), AllocError>
        ensures { OnOk result (self.new ≡ self.old ++ map piece_token pieces.now) }
    {
        for piece in pieces {
            self.put(*piece)?;
        }
        Ok(())
    }
}
