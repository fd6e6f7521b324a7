//! What people are told of a fault.
ghost use Rattle.std.specs.Prelude.{◌≡◌, ◌++◌, ◌≤◌, IfOk, OnOk, length, reverse};
ghost use Rattle.std.specs.Fmt.{decimal};
ghost use Rattle.go_diagnostics.specs.Diagnoses.{Diagnosed, IsDiagnosisIn, IsSentence, IsSentenceOfNames, IsSentenceOfTokens};
ghost use Rattle.go_diagnostics.specs.Diagnoses.{fault_line, index_at, refused_message, refused_text};
ghost use Rattle.go_diagnostics.specs.Sentences.{sentence_text};

use crate::excerpt::{line_at, push, push_excerpt};
use crate::literals::declared;
use crate::message::{Message, kind_text};
use crate::names::{message_at, token_bytes};
use crate::package::{PackageFile, file_named};
use crate::sentence::{Sentence, push_sentence};
use crate::unknown::suggestion;
use go_scan::fault::{ScanError, ScanFault};
use go_scan::scanner::scan;
use go_scan::token::Token;
use go_text::edition::Edition;
use go_text::fault::{Fault, FaultKind};
use go_text::place::Place;
use std::alloc::{AllocError, Global};

/// How many tokens stand before the one at a place, or how many there are.
fn index_at(tokens: &[Token], place: Place) -> usize
    ensures value { result ≡ index_at place tokens.now }
    ensures within { result ≤ length tokens.now }
{
    let mut at = 0;
    for token in tokens {
        if token.place.line == place.line && token.place.column == place.column {
            return at;
        }
        at += 1;
    }
    at
}

/// The items, the last first.
fn reversed<T: Copy + Drop>(alloc: Global, items: &[T]) -> Result<Vec<T>, AllocError>
    ensures { IfOk result (λ v. v.items ≡ reverse items.now) }
{
    items.iter().rev().copied().collect(alloc)
}

/// What the names and literals at a fault's place tell of it, where no message does.
fn sentence_of_names<'a>(
    alloc: Global,
    files: &'a [PackageFile],
    file: &'a PackageFile,
    kind: FaultKind,
    tokens: &[Token],
    from: &[Token],
) -> Result<Sentence<'a>, AllocError>
    ensures { IfOk result (λ sentence.
        IsSentenceOfNames kind file.now files.now tokens.now from.now (sentence_text sentence)) }
{
    match kind {
        FaultKind::Undeclared => match suggestion(alloc, files, file, tokens, from)? {
            Some(suggestion) => Ok(Sentence::Unknown(suggestion)),
            None => Ok(Sentence::Fixed(kind_text(kind))),
        },
        FaultKind::Assign => match declared(from) {
            Some((of, literal)) => Ok(Sentence::Unfit(literal, token_bytes(file.bytes(), of))),
            None => Ok(Sentence::Fixed(kind_text(kind))),
        },
        _ => Ok(Sentence::Fixed(kind_text(kind))),
    }
}

/// What is said of a fault by the tokens around its place.
fn sentence_of_tokens<'a>(
    alloc: Global,
    edition: Edition,
    files: &'a [PackageFile],
    file: &'a PackageFile,
    fault: &Fault,
    tokens: &[Token],
) -> Result<Sentence<'a>, AllocError>
    ensures { IfOk result (λ sentence.
        IsSentenceOfTokens edition fault.now file.now files.now tokens.now (sentence_text sentence)) }
{
    let at = index_at(tokens, fault.place());
    let before = reversed(alloc, &tokens[..at])?;
    let from = &tokens[at..];
    match message_at(edition, fault.kind(), file.bytes(), &before, from) {
        Some(message) => Ok(Sentence::Fixed(message.text())),
        None => sentence_of_names(alloc, files, file, fault.kind(), tokens, from),
    }
}

/// What is left out at a place of a text that isn't a row of tokens: a build constraint, which begins
/// with a slash, or a number.
fn refused_message(why: ScanFault, text: &[u8], place: Place) -> Option<Message>
    ensures { result ≡ refused_message why text.now place }
{
    match why {
        ScanFault::Malformed => None,
        ScanFault::LeftOut => {
            let line = line_at(text, place.line);
            let at = place.column.saturating_sub(1) as usize;
            if at < line.len() && line[at] == b'/' {
                Some(Message::BuildConstraints)
            } else {
                Some(Message::Floats)
            }
        }
    }
}

/// The sentence of a text that isn't a row of tokens.
fn refused_text(kind: FaultKind, message: Option<Message>) -> &'static str
    ensures { result.now ≡ refused_text kind message }
{
    match message {
        Some(message) => message.text(),
        None => kind_text(kind),
    }
}

/// What is said of a fault in a file.
fn sentence_of<'a>(
    alloc: Global,
    edition: Edition,
    files: &'a [PackageFile],
    file: &'a PackageFile,
    fault: &Fault,
) -> Result<Sentence<'a>, AllocError>
    ensures { IfOk result (λ sentence. IsSentence edition fault.now file.now files.now (sentence_text sentence)) }
{
    match scan(alloc, &file.source) {
        Ok(tokens) => sentence_of_tokens(alloc, edition, files, file, fault, &tokens),
        Err(ScanError::Memory) => Err(AllocError),
        Err(ScanError::Fault(why, place)) => {
            let message = refused_message(why, file.bytes(), place);
            Ok(Sentence::Fixed(refused_text(fault.kind(), message)))
        }
    }
}

fn push_number(alloc: Global, text: &mut Vec<u8>, number: u32) -> Result<(), AllocError>
    ensures { OnOk result (text.new.items ≡ text.old.items ++ decimal number) }
{
    let digits = number.to_string(alloc)?;
    push(text, digits.as_bytes())
}

/// The line of a fault: its place and a sentence.
fn fault_line(
    alloc: Global,
    path: &str,
    place: Place,
    sentence: Sentence<'_>,
) -> Result<Vec<u8>, AllocError>
    ensures { IfOk result (λ line. line.items ≡ fault_line path.now place (sentence_text sentence.entry)) }
{
    let mut text = Vec::from_slice(alloc, path.as_bytes())?;
    push(&mut text, b":")?;
    push_number(alloc, &mut text, place.line)?;
    push(&mut text, b":")?;
    push_number(alloc, &mut text, place.column)?;
    push(&mut text, b": ")?;
    push_sentence(&mut text, sentence)?;
    push(&mut text, b"\n")?;
    Ok(text)
}

/// The text about a fault of a file that is at hand.
fn diagnosis_in(
    alloc: Global,
    edition: Edition,
    path: &str,
    fault: &Fault,
    files: &[PackageFile],
    file: &PackageFile,
) -> Result<Vec<u8>, AllocError>
    ensures { IfOk result (λ text. IsDiagnosisIn edition path.now fault.now files.now file.now text.items) }
{
    let sentence = sentence_of(alloc, edition, files, file, fault)?;
    let mut text = fault_line(alloc, path, fault.place(), sentence)?;
    push_excerpt(alloc, &mut text, file.bytes(), fault.place())?;
    Ok(text)
}

/// The text about a fault in a directory: its place, by a path for the file, and a sentence; below
/// them the line of the place, and a caret below the place. Where the fault's file isn't among the
/// files, there is the sentence of the fault's kind alone. Each line ends with a newline.
///
/// The files are those of the directory, and of the packages that it imports, in any order. An
/// `Err` only where memory ran out.
pub fn diagnose(
    alloc: Global,
    edition: Edition,
    path: &str,
    directory: &str,
    fault: &Fault,
    files: &[PackageFile],
) -> Result<Vec<u8>, AllocError>
    ensures { IfOk result (λ text. Diagnosed edition path.now directory.now fault.now files.now text.items) }
{
    match file_named(files, directory, fault.file()) {
        Some(file) => diagnosis_in(alloc, edition, path, fault, files, file),
        None => {
            let sentence = Sentence::Fixed(kind_text(fault.kind()));
            fault_line(alloc, path, fault.place(), sentence)
        }
    }
}
