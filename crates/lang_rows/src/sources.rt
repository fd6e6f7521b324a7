//! Texts of files: whether each is one, and else where and by which fault it is none.
use go_parse::{ParseError, parse};
use go_text::edition::Edition;
use go_text::source::Source;
use go_text::text::TextError;
use std::alloc::{AllocError, Global};
use test_rows::answers::RowError;

/// A text as the source of a file of an edition, or what is wrong with it.
fn source_or_error(
    alloc: Global,
    edition: Edition,
    text: &str,
) -> Result<Result<Source, TextError>, AllocError> {
    let name = String::from_str(alloc, "a.go")?;
    let text = String::from_str(alloc, text)?;
    match edition {
        Edition::One => Ok(Source::new(alloc, name, text)),
        Edition::Two => Ok(Source::new_in(alloc, edition, name, text)),
    }
}

/// A text as the source of a file of an edition, from the parts of a copy; one that is none makes no row.
pub(crate) fn source(alloc: Global, edition: Edition, text: &str) -> Result<Source, RowError> {
    match source_or_error(alloc, edition, text)? {
        Ok(source) => {
            let (name, text) = source.copy()?.into_parts();
            Ok(Source::of(name, text))
        }
        Err(TextError::Memory) => Err(RowError::Memory),
        Err(_) => Err(RowError::NoRow),
    }
}

/// What an error says of a text that is no source of a file, or no file.
pub(crate) fn said(alloc: Global, edition: Edition, text: &str) -> Result<String, RowError> {
    let source = match source_or_error(alloc, edition, text)? {
        Ok(source) => source,
        Err(TextError::Memory) => return Err(RowError::Memory),
        Err(error) => return Ok(format!(in alloc; "{error}")?),
    };
    match parse(alloc, edition, &source) {
        Ok(_) => Err(RowError::NoRow),
        Err(error) => Ok(format!(in alloc; "{error}")?),
    }
}

/// The place of a fault and its number.
fn fault(alloc: Global, error: &ParseError) -> Result<String, RowError> {
    match error {
        ParseError::Fault(kind, place) => {
            let (line, column) = (place.line, place.column);
            Ok(format!(in alloc; "{line}:{column} {}", kind.number())?)
        }
        ParseError::Memory => Err(RowError::Memory),
    }
}

/// Whether a text is a file in an edition.
pub(crate) fn verdict(alloc: Global, edition: Edition, text: &str) -> Result<String, RowError> {
    let source = source(alloc, edition, text)?;
    match parse(alloc, edition, &source) {
        Ok(_) => Ok(String::from_str(alloc, "ok")?),
        Err(error) => fault(alloc, &error),
    }
}
