//! Reads a file.
ghost use Rattle.std.specs.Prelude.{◌≡◌, ◌<◌, ◌^◌, ℕ, List, length, IfOk, Err};
ghost use Rattle.go_text.specs.declared.edition.Edition.TheVariants.{One};
ghost use Rattle.go_text.specs.declared.fault.FaultKind.{FaultKind as AKind};
ghost use Rattle.go_text.specs.declared.place.Place.{Place as APlace};
ghost use Rattle.go_text.specs.Faults.{fault_number};
ghost use Rattle.go_ast.specs.Tokens.{lexemes};
ghost use Rattle.go_ast.specs.Views.{file_of};
ghost use Rattle.go_pexpr.specs.Reads.{number};
ghost use Rattle.go_ast.specs.Parse.{Derived, Stopped, IsParse, scan_kind, place_before};
ghost use Rattle.go_parse.specs.declared.parser.ParseError.TheVariants.{Memory};

use crate::file::file;
use go_ast::file::File;
use go_ast::parsed::Parsed;
use go_pexpr::parser::{Fault, Parser, Refusal};
use go_scan::fault::{ScanError, ScanFault};
use go_scan::scanner::scan;
use go_scan::token::Token;
use go_text::edition::Edition;
use go_text::fault::FaultKind;
use go_text::place::{Place, place_at};
use go_text::source::Source;
use std::alloc::{AllocFailed, Global};
use std::sync::Arc;
use thiserror::Error;

/// Why a source is no file.
#[derive(Debug, Drop, Error)]
pub enum ParseError {
    /// Memory ran out.
    #[error("out of memory")]
    Memory,
    /// The text is no file, for a fault of a kind at a place.
    #[error("no file: fault {} at line {}, column {}", .0.number(), .1.line, .1.column)]
    Fault(FaultKind, Place),
}

impl<T: Drop> From<AllocFailed<T>> for ParseError {
    ghost from_gives = { λ _ e. e ≡ Memory };

    fn from(_e: AllocFailed<T>) -> ParseError {
        ParseError::Memory
    }
}

/// The kind of a fault of a text that has no tokens.
fn scan_kind(fault: ScanFault) -> FaultKind
    ensures { result ≡ scan_kind fault }
{
    match fault {
        ScanFault::Malformed => FaultKind::Scan,
        ScanFault::LeftOut => FaultKind::LeftOut,
    }
}

/// The kind of a fault of tokens that are no file.
fn token_kind(fault: Fault) -> FaultKind
    ensures { fault_number result ≡ number fault }
{
    match fault {
        Fault::LeftOut => FaultKind::LeftOut,
        Fault::Parse => FaultKind::Parse,
        Fault::Deep => FaultKind::Deep,
    }
}

/// The place of the first of a text's tokens, or where there is none the place behind its last byte.
fn place_before(text: &[u8], tokens: &[Token]) -> Place
    requires { length text.now < 2 ^ 31 }
    ensures { (other : List ℕ) → result ≡ place_before text.now (lexemes other tokens.now) }
{
    match tokens {
        [token, ..] => token.place,
        [] => place_at(text, text.len()),
    }
}

/// The file that a source's text is in an edition. An `Err` has the fault by which it is none, and its place, or
/// says that memory ran out.
pub fn parse(alloc: Global, edition: Edition, source: &Source) -> Result<File, ParseError>
    ensures ok { IfOk result (λ file. IsParse edition source.now.text (Derived (file_of file))) }
    ensures err { (kind : AKind) (place : APlace) → result ≡ Err (ParseError.Fault kind place) → IsParse edition source.now.text (Stopped kind place) }
{
    let tokens = match scan(alloc, source) {
        Ok(tokens) => tokens,
        Err(ScanError::Memory) => return Err(ParseError::Memory),
        Err(ScanError::Fault(fault, place)) => {
            return Err(ParseError::Fault(scan_kind(fault), place));
        }
    };
    let text = source.text().as_str().as_bytes();
    let mut parser = Parser {
        alloc,
        edition,
        text,
        tokens: &tokens,
    };
    match file(&mut parser) {
        Ok(file) => Ok(file),
        Err(Refusal::Memory) => Err(ParseError::Memory),
        Err(Refusal::Wrong(fault)) => {
            let place = place_before(text, parser.tokens);
            Err(ParseError::Fault(token_kind(fault), place))
        }
    }
}

/// A source with the file that its text is in an edition. An `Err` has the fault by which the text is no file, and its place, or says
/// that memory ran out.
pub fn parse_in(alloc: Global, edition: Edition, source: Source) -> Result<Parsed, ParseError>
    ensures name { IfOk result (λ parsed. parsed.name ≡ source.name) }
    ensures text { IfOk result (λ parsed. parsed.text ≡ source.text) }
    ensures edition { IfOk result (λ parsed. parsed.edition ≡ edition) }
    ensures err { (kind : AKind) (place : APlace) → result ≡ Err (ParseError.Fault kind place) → IsParse edition source.text (Stopped kind place) }
{
    let file = parse(alloc, edition, &source)?;
    let file = Arc::new(alloc, file)?;
    let source = Arc::new(alloc, source)?;
    Ok(Parsed::of(source, edition, file))
}

/// A source with the file that its text is in the first edition. An `Err` has the fault by which the text is no file, and its place, or says
/// that memory ran out.
pub fn parse_source(alloc: Global, source: Source) -> Result<Parsed, ParseError>
    ensures name { IfOk result (λ parsed. parsed.name ≡ source.name) }
    ensures text { IfOk result (λ parsed. parsed.text ≡ source.text) }
    ensures edition { IfOk result (λ parsed. parsed.edition ≡ One) }
    ensures err { (kind : AKind) (place : APlace) → result ≡ Err (ParseError.Fault kind place) → IsParse One source.text (Stopped kind place) }
{
    parse_in(alloc, Edition::One, source)
}
