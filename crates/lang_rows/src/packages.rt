//! Packages as texts, and what they come to.
use go_ast::parsed::Parsed;
use go_check::check::check;
use go_check::error::CheckError;
use go_export::error::SummaryError;
use go_export::summary::Summary;
use go_parse::{ParseError, parse_in, parse_source};
use go_text::edition::Edition;
use go_text::fault::Fault;
use go_text::source::Source;
use go_typed::package::Typed;
use std::alloc::{AllocError, Global};
use std::sync::Arc;
use test_rows::answers::RowError;

/// What the last of some packages is, or the first fault of one before it.
#[derive(Drop)]
pub(crate) enum Checked {
    Good(Typed),
    Faulty(String),
}

/// A file of declarations has the last part of the path as its package's name.
fn text_of(alloc: Global, path: &str, declarations: &str) -> Result<String, AllocError> {
    if declarations.starts_with("package ") {
        return format!(in alloc; "{declarations}\n");
    }
    let name = match path.rsplit_once('/') {
        Some((_, name)) => name,
        None => path,
    };
    format!(in alloc; "package {name}\n{declarations}\n")
}

/// The file of an edition with some text; a text that is none makes no row.
fn parsed(alloc: Global, edition: Edition, source: Source) -> Result<Parsed, RowError> {
    let parsed = match edition {
        Edition::One => parse_source(alloc, source),
        Edition::Two => parse_in(alloc, edition, source),
    };
    match parsed {
        Ok(parsed) => Ok(parsed),
        Err(ParseError::Memory) => Err(RowError::Memory),
        Err(_) => Err(RowError::NoRow),
    }
}

/// The file of a name, a package's path and an edition with some text.
fn file_of(
    alloc: Global,
    edition: Edition,
    name: &str,
    path: &str,
    text: &str,
) -> Result<Parsed, RowError> {
    let name = String::from_str(alloc, name)?;
    let text = text_of(alloc, path, text)?;
    let source = Source::new_in(alloc, edition, name, text).map_err(|_| RowError::NoRow)?;
    parsed(alloc, edition, source)
}

/// The files of a package, a.go and b.go, with `∥` between them.
fn files_of(
    alloc: Global,
    edition: Edition,
    path: &str,
    texts: &str,
) -> Result<Vec<Parsed>, RowError> {
    let mut files = Vec::new(alloc);
    for text in texts.split(" ∥ ") {
        let name = if files.is_empty() { "a.go" } else { "b.go" };
        files.push(file_of(alloc, edition, name, path, text)?)?;
    }
    Ok(files)
}

/// A fault as reports have it.
fn told_fault(alloc: Global, fault: &Fault) -> Result<String, AllocError> {
    let fault = fault.copy()?;
    let (file, place) = (fault.file(), fault.place());
    let (line, column) = (place.line, place.column);
    format!(in alloc; "{file}:{line}:{column} {}", fault.kind().number())
}

/// What a package comes to, which is written as its path, a colon and its files, by what it may import.
fn package_of(
    alloc: Global,
    edition: Edition,
    text: &str,
    imports: &[Arc<Summary>],
) -> Result<Checked, RowError> {
    let (path, texts) = text.split_once(": ").ok_or(RowError::NoRow)?;
    let files = files_of(alloc, edition, path, texts)?;
    match check(alloc, path, &files, imports) {
        Ok(typed) => Ok(Checked::Good(typed)),
        Err(CheckError::Faulty(fault)) => Ok(Checked::Faulty(told_fault(alloc, &fault)?)),
        Err(CheckError::Memory) => Err(RowError::Memory),
    }
}

/// What importers know of a package.
fn summary_of(alloc: Global, typed: &Typed) -> Result<Arc<Summary>, RowError> {
    match Summary::of(alloc, typed) {
        Ok(summary) => Ok(Arc::new(alloc, summary)?),
        Err(SummaryError::Unshown) => Err(RowError::NoRow),
        Err(SummaryError::Memory) => Err(RowError::Memory),
    }
}

/// What the last of some packages with `¦` between them comes to, or the first that has a fault: each may import those
/// before it.
pub(crate) fn check_packages(
    alloc: Global,
    edition: Edition,
    texts: &str,
) -> Result<Checked, RowError> {
    let mut imports: Vec<Arc<Summary>> = Vec::new(alloc);
    let (before, last) = match texts.rsplit_once(" ¦ ") {
        Some((before, last)) => (Some(before), last),
        None => (None, texts),
    };
    if let Some(before) = before {
        for text in before.split(" ¦ ") {
            match package_of(alloc, edition, text, &imports)? {
                Checked::Good(typed) => imports.push(summary_of(alloc, &typed)?)?,
                faulty => return Ok(faulty),
            }
        }
    }
    package_of(alloc, edition, last, &imports)
}
