//! Texts that may be source files.
ghost use Rattle.std.specs.Prelude.{◌≡◌, ◌<◌, length, IfOk, IfErr, OnOk, None, string_bytes, drop};
ghost use Rattle.go_text.specs.Texts.{starts_with_mark, holds_mark, text_error, IsTextError};
ghost use Rattle.go_text.specs.declared.edition.Edition.TheVariants.{One, Two};
ghost use Rattle.go_text.specs.declared.text.TextError.TheVariants.{Memory};

use crate::edition::Edition;
use std::alloc::{AllocError, AllocFailed, Global};
use std::marker::Model;
use std::sync::Arc;
use thiserror::Error;

/// Why a text is no source text.
#[derive(Debug, Drop, Error)]
pub enum TextError {
    /// It has more bytes than its edition allows.
    #[error("the text is too long")]
    TooLong,
    /// It holds a byte 0.
    #[error("the text holds a NUL")]
    Nul,
    /// It holds a byte order mark behind its start.
    #[error("the text holds a byte order mark behind its start")]
    Mark,
    /// Memory ran out.
    #[error("out of memory")]
    Memory,
}

impl<T: Drop> From<AllocFailed<T>> for TextError {
    ghost from_gives = { λ _ e. e ≡ Memory };

    fn from(_e: AllocFailed<T>) -> TextError {
        TextError::Memory
    }
}

/// Whether a byte order mark is first.
pub fn starts_with_mark(bytes: &[u8]) -> bool
    ensures { result ≡ starts_with_mark bytes.now }
{
    bytes.starts_with(&[0xEF, 0xBB, 0xBF])
}

/// Whether a byte order mark stands anywhere.
fn holds_mark(bytes: &[u8]) -> bool
    ensures { result ≡ holds_mark bytes.now }
{
    let mut rest = bytes;
    while let [_, others @ ..] = rest {
        if starts_with_mark(rest) {
            return true;
        }
        rest = others;
    }
    false
}

/// What is wrong with the bytes of a text of an edition: the first of too long, a NUL, a misplaced
/// mark.
fn check(edition: Edition, bytes: &[u8]) -> Result<(), TextError>
    ensures ok { OnOk result (text_error edition bytes.now ≡ None) }
    ensures err { IfErr result (λ e. text_error edition bytes.now ≡ Some e) }
{
    if bytes.len() > edition.text_limit() {
        return Err(TextError::TooLong);
    }
    if bytes.contains(&0) {
        return Err(TextError::Nul);
    }
    if let [_, rest @ ..] = bytes
        && holds_mark(rest)
    {
        return Err(TextError::Mark);
    }
    Ok(())
}

/// A valid source text, of either edition. Copies share its bytes.
#[derive(Drop)]
pub struct Text {
    held: Arc<String>,
}

impl Model for Text {
    ghost use Rattle.std.specs.Prelude.{List, ℕ, ◌≡◌, None, string_bytes};
    ghost use Rattle.std.specs.Arc.{arc_value};
    ghost use Rattle.go_text.specs.Texts.{text_error};
    ghost use Rattle.go_text.specs.declared.edition.Edition.TheVariants.{Two};

    ghost Value = { List ℕ };

    ghost view = { λ a. string_bytes (arc_value a.held) };

    ghost invariant = { λ a. text_error Two (string_bytes (arc_value a.held)) ≡ None };
}

impl Text {
    /// The text, if it may be a source text of the first edition. An `Err` says what the text has
    /// that no such text may have, the first of `TooLong`, `Nul` and `Mark`, or that memory ran
    /// out.
    pub fn new(alloc: Global, text: String) -> Result<Text, TextError>
        ensures ok { IfOk result (λ t. t ≡ string_bytes text) }
        ensures allowed { OnOk result (text_error One (string_bytes text) ≡ None) }
        ensures refused { IfErr result (λ e. IsTextError e (text_error One (string_bytes text))) }
    {
        Text::new_in(alloc, Edition::One, text)
    }

    /// The text, if it may be a source text of the edition; else as `new`.
    pub fn new_in(alloc: Global, edition: Edition, text: String) -> Result<Text, TextError>
        ensures ok { IfOk result (λ t. t ≡ string_bytes text) }
        ensures allowed { OnOk result (text_error edition (string_bytes text) ≡ None) }
        ensures refused { IfErr result (λ e. IsTextError e (text_error edition (string_bytes text))) }
    {
        check(edition, text.as_bytes())?;
        let held = Arc::new(alloc, text)?;
        Ok(Text { held })
    }

    /// The text.
    pub fn as_str(&self) -> &str
        ensures value { result.now ≡ self.now }
        ensures valid { text_error Two self.now ≡ None }
    {
        self.held.as_str()
    }

    /// Another owner of the same text. An `Err` only where memory ran out.
    pub fn copy(&self) -> Result<Text, AllocError>
        ensures { IfOk result (λ copy. copy ≡ self.now) }
    {
        let held = Arc::try_clone(&self.held)?;
        Ok(Text { held })
    }
}
