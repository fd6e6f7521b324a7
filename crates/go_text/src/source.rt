//! Source files: a text with its file's name.
ghost use Rattle.std.specs.Prelude.{◌≡◌, IfOk, IfErr, OnOk, None, string_bytes};
ghost use Rattle.go_text.specs.Texts.{text_error, IsTextError};
ghost use Rattle.go_text.specs.declared.edition.Edition.TheVariants.{One};

use crate::edition::Edition;
use crate::text::{Text, TextError};
use std::alloc::{AllocError, Global};
use std::marker::Model;

/// A source file: the file's name, which is the last element of its path, and its text.
#[derive(Drop)]
pub struct Source {
    name: String,
    text: Text,
}

impl Model for Source {
    ghost use Rattle.std.specs.Prelude.{string_bytes};
    ghost use Rattle.go_text.specs.Named as named;

    ghost Value = { named.Source };

    ghost view = { λ a. record { name = string_bytes a.name; text = a.text } };
}

impl Source {
    /// The source of a name and a text, if the text may be a source text of the first edition. An
    /// `Err` says what the text has that no such text may have, or that memory ran out.
    pub fn new(alloc: Global, name: String, text: String) -> Result<Source, TextError>
        ensures ok { IfOk result (λ s. s ≡ record { name = string_bytes name; text = string_bytes text }) }
        ensures allowed { OnOk result (text_error One (string_bytes text) ≡ None) }
        ensures refused { IfErr result (λ e. IsTextError e (text_error One (string_bytes text))) }
    {
        Source::new_in(alloc, Edition::One, name, text)
    }

    /// The source of a name and a text, if the text may be a source text of the edition; else as
    /// `new`.
    pub fn new_in(
        alloc: Global,
        edition: Edition,
        name: String,
        text: String,
    ) -> Result<Source, TextError>
        ensures ok { IfOk result (λ s. s ≡ record { name = string_bytes name; text = string_bytes text }) }
        ensures allowed { OnOk result (text_error edition (string_bytes text) ≡ None) }
        ensures refused { IfErr result (λ e. IsTextError e (text_error edition (string_bytes text))) }
    {
        let text = Text::new_in(alloc, edition, text)?;
        Ok(Source { name, text })
    }

    /// The source of a name and a valid text.
    pub fn of(name: String, text: Text) -> Source
        ensures { result ≡ record { name = string_bytes name; text = text } }
    {
        Source { name, text }
    }

    /// The file's name.
    pub fn name(&self) -> &str
        ensures { result.now ≡ self.now.name }
    {
        self.name.as_str()
    }

    /// The file's text.
    pub fn text(&self) -> &Text
        ensures { result.now ≡ self.now.text }
    {
        &self.text
    }

    /// Another of equal name and text, which shares the text. An `Err` only where memory ran out.
    pub fn copy(&self) -> Result<Source, AllocError>
        ensures { IfOk result (λ copy. copy ≡ self.now) }
    {
        let name = self.name.clone()?;
        let text = self.text.copy()?;
        Ok(Source { name, text })
    }

    /// The name and the text.
    pub fn into_parts(self) -> (String, Text)
        ensures name { string_bytes result.0 ≡ self.name }
        ensures text { result.1 ≡ self.text }
    {
        (self.name, self.text)
    }
}
