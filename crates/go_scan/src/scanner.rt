//! Cuts a source text into tokens.
ghost use Rattle.std.specs.Prelude.{◌≡◌, ◌++◌, ◌∷◌, [], IfOk, OnOk, Err};
ghost use Rattle.go_scan.specs.Lex.{shape_fault, ends_statement, due_behind, due_before, Lexes, Refuses};
ghost use Rattle.go_scan.specs.declared.fault.ScanError.{ScanError};
ghost use Rattle.go_scan.specs.declared.fault.ScanFault.{ScanFault};
ghost use Rattle.go_text.specs.declared.place.Place.{Place};

use crate::comments::is_constraint;
use crate::fault::{ScanError, ScanFault};
use crate::front::front;
use crate::numbers::run_fault;
use crate::punctuation::Punctuation;
use crate::shape::Shape;
use crate::token::{Token, TokenKind};
use go_text::place::{Place, mark_size, place_at};
use go_text::source::Source;
use std::alloc::Global;

/// What is wrong with a piece, if anything; `begun` says that a token came before it.
fn shape_fault(begun: bool, shape: Shape, bytes: &[u8]) -> Option<ScanFault>
    ensures { result ≡ shape_fault begun shape bytes.now }
{
    match shape {
        Shape::OpenComment => Some(ScanFault::Malformed),
        Shape::BadNumber => Some(run_fault(bytes)),
        Shape::LineComment => {
            if !begun && is_constraint(bytes) {
                Some(ScanFault::LeftOut)
            } else {
                None
            }
        }
        Shape::Blanks | Shape::BlockComment | Shape::Word(_) => None,
    }
}

/// Whether a line that ends behind a token of this kind ends a statement.
fn ends_statement(kind: TokenKind) -> bool
    ensures { result ≡ ends_statement kind }
{
    match kind {
        TokenKind::Keyword(keyword) => keyword.ends_statement(),
        TokenKind::Punctuation(punctuation) => punctuation.ends_statement(),
        TokenKind::Name | TokenKind::Integer | TokenKind::Rune | TokenKind::String => true,
    }
}

/// The semicolon that is due behind a token, if the line ends there.
fn due_behind(token: Token, behind: Place) -> Option<Token>
    ensures { result ≡ due_behind token behind }
{
    if !ends_statement(token.kind) {
        return None;
    }
    Some(Token {
        kind: TokenKind::Punctuation(Punctuation::Semicolon),
        start: token.end,
        end: token.end,
        place: behind,
    })
}

/// Adds a token, and before it the semicolon that is due, if the token is on a later line.
fn push(tokens: &mut Vec<Token>, due: Option<Token>, token: Token) -> Result<(), ScanError>
    ensures ok { OnOk result (tokens.new.items ≡ tokens.old.items ++ due_before due (token ∷ []) ++ token ∷ []) }
    ensures err { (fault : ScanFault) (place : Place) → result ≡ Err (ScanError.Fault fault place) → ⊥ }
{
    if let Some(semicolon) = due
        && semicolon.place.line < token.place.line
    {
        tokens.push(semicolon)?;
    }
    tokens.push(token)?;
    Ok(())
}

/// The tokens of a source's text, with the semicolons that are inserted where lines end (the Go
/// specification, Tokens and Semicolons). An `Err`
/// says where the text is refused and why, or that memory ran out.
pub fn scan(alloc: Global, source: &Source) -> Result<Vec<Token>, ScanError>
    ensures ok { IfOk result (λ v. Lexes source.now.text v.items) }
    ensures err { (fault : ScanFault) (place : Place) → result ≡ Err (ScanError.Fault fault place) → Refuses source.now.text fault place }
{
    let text = source.text().as_str().as_bytes();
    let mut tokens = Vec::new(alloc);
    let mut due = None;
    let mut begun = false;
    let mut at = mark_size(text);
    let mut place = place_at(text, at);
    'pieces: while at < text.len() {
        let rest = &text[at..];
        let Some((shape, len)) = front(rest) else {
            return Err(ScanError::Fault(ScanFault::Malformed, place));
        };
        if let Some(fault) = shape_fault(begun, shape, &rest[..len]) {
            return Err(ScanError::Fault(fault, place));
        }
        let behind = place.after(&rest[..len]);
        if let Shape::Word(kind) = shape {
            let start = at as u32;
            let end = (at + len) as u32;
            let token = Token {
                kind,
                start,
                end,
                place,
            };
            push(&mut tokens, due, token)?;
            due = due_behind(token, behind);
            begun = true;
        }
        place = behind;
        at += len;
    }
    if let Some(semicolon) = due {
        tokens.push(semicolon)?;
    }
    Ok(tokens)
}
