//! The sentence that is said of a fault.
ghost use Rattle.std.specs.Prelude.{◌≡◌, ◌++◌, OnOk};
ghost use Rattle.go_diagnostics.specs.Sentences.{sentence_text, unfit_text, unknown_text};

use crate::excerpt::push;
use crate::literals::Literal;
use crate::message::{UNFIT_NUMBER, UNFIT_STRING, UNKNOWN};
use crate::unknown::SimilarName;
use std::alloc::AllocError;

/// What is said of a fault: a sentence of the table, or one with names of the text in it.
#[derive(Clone, Copy)]
pub enum Sentence<'a> {
    /// The sentence of a kind of fault or of a message.
    Fixed(&'static str),
    /// A name that nothing declares, and the nearest one that something does.
    Unknown(SimilarName<'a>),
    /// A literal, and the type whose value it is to be.
    Unfit(Literal, &'a [u8]),
}

/// Adds a sentence about a name that nothing declares.
fn push_unknown(out: &mut Vec<u8>, suggestion: SimilarName<'_>) -> Result<(), AllocError>
    ensures { OnOk result (out.new.items ≡ out.old.items ++ unknown_text suggestion.entry.unknown.now suggestion.entry.nearest.now) }
{
    let (before, between, behind) = UNKNOWN;
    push(out, before.as_bytes())?;
    push(out, suggestion.unknown)?;
    push(out, between.as_bytes())?;
    push(out, suggestion.nearest)?;
    push(out, behind.as_bytes())
}

/// Adds a sentence about a literal that is no value of a type.
fn push_unfit(out: &mut Vec<u8>, literal: Literal, of: &[u8]) -> Result<(), AllocError>
    ensures { OnOk result (out.new.items ≡ out.old.items ++ unfit_text literal of.now) }
{
    let (before, behind) = match literal {
        Literal::Number => UNFIT_NUMBER,
        Literal::String => UNFIT_STRING,
    };
    push(out, before.as_bytes())?;
    push(out, of)?;
    push(out, behind.as_bytes())
}

/// Adds a sentence.
pub fn push_sentence(out: &mut Vec<u8>, sentence: Sentence<'_>) -> Result<(), AllocError>
    ensures { OnOk result (out.new.items ≡ out.old.items ++ sentence_text sentence.entry) }
{
    match sentence {
        Sentence::Fixed(text) => push(out, text.as_bytes()),
        Sentence::Unknown(suggestion) => push_unknown(out, suggestion),
        Sentence::Unfit(literal, of) => push_unfit(out, literal, of),
    }
}
