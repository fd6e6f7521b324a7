//! Summaries of packages.
use go_export::error::SummaryError;
use go_export::export::Export;
use go_export::summary::Summary;
use go_typed::package::Typed;
use std::alloc::{AllocError, Global};
use test_rows::answers::RowError;

/// The letter of what a name exports.
fn letter(export: &Export) -> char {
    match export {
        Export::Constant(_, _) => 'C',
        Export::Variable(_) => 'V',
        Export::Function(_, _) => 'F',
        Export::Type(_) => 'T',
    }
}

/// The path and the name of a summary's package, and the names that it exports, each behind its letter.
fn names(alloc: Global, summary: &Summary) -> Result<String, AllocError> {
    let mut names = format!(in alloc; "{} {}", summary.path(), summary.package())?;
    for (name, _) in summary.exports() {
        let letter = summary.find(name).map(letter).unwrap_or('-');
        names.push_str(&format!(in alloc; " {letter}:{name}")?)?;
    }
    Ok(names)
}

/// The summary of a package: the size and the digest of its text, and what it exports; or that it has none.
pub(crate) fn summarized(alloc: Global, typed: &Typed) -> Result<String, RowError> {
    let summary = match Summary::of(alloc, typed) {
        Ok(summary) => summary,
        Err(SummaryError::Unshown) => return Ok(String::from_str(alloc, "none")?),
        Err(SummaryError::Memory) => return Err(RowError::Memory),
    };
    let (size, digest) = (summary.text().len(), hex::encode(alloc, &summary.digest())?);
    let names = names(alloc, &summary)?;
    Ok(format!(in alloc; "{size} {digest} {names}")?)
}
