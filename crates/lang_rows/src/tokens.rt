//! Tokens of texts.
use crate::sources::source;
use go_scan::scanner::scan;
use go_scan::token::{Token, TokenKind};
use go_text::edition::Edition;
use std::alloc::{AllocError, Global};
use test_rows::answers::RowError;

/// The letter of a token's kind.
fn letter(kind: TokenKind) -> char {
    match kind {
        TokenKind::Name => 'n',
        TokenKind::Keyword(_) => 'k',
        TokenKind::Integer => 'i',
        TokenKind::Rune => 'r',
        TokenKind::String => 's',
        TokenKind::Punctuation(_) => 'p',
    }
}

/// A token's letter and its text, behind a space.
fn push_token(
    alloc: Global,
    told: &mut String,
    text: &str,
    token: &Token,
) -> Result<(), AllocError> {
    let (start, end) = (token.start as usize, token.end as usize);
    let spelled = text.get(start..end).unwrap_or("?");
    told.push_str(&format!(in alloc; " {}:{spelled}", letter(token.kind))?)
}

/// The tokens of a text, each by the letter of its kind and its own text.
pub(crate) fn tokens(alloc: Global, text: &str) -> Result<String, RowError> {
    let source = source(alloc, Edition::One, text)?;
    let tokens = scan(alloc, &source).map_err(|_| RowError::NoRow)?;
    let mut told = String::from_str(alloc, "tokens")?;
    for token in &tokens {
        push_token(alloc, &mut told, text, token)?;
    }
    Ok(told)
}
