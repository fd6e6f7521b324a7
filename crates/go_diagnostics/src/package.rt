//! Files of packages, and the names that they declare.
ghost use Rattle.std.specs.Prelude.{◌≡◌, [], IfOk, map, option_map};
ghost use Rattle.go_diagnostics.specs.Packages.{declared_names, file_named, is_declared, Declares, PackageDeclares};

use crate::names::token_bytes;
use crate::table::{DECLARATIONS, is_any};
use go_scan::fault::ScanError;
use go_scan::scanner::scan;
use go_scan::token::{Token, TokenKind};
use go_text::source::Source;
use std::alloc::{AllocError, Global};

/// A file of a package, and the directory that it is in.
#[derive(Drop)]
pub struct PackageFile {
    /// The directory, as imports name it.
    pub directory: String,
    /// The file's name without its directory, and its text.
    pub source: Source,
}

impl PackageFile {
    /// The bytes of its text.
    pub fn bytes(&self) -> &[u8]
        ensures { result.now ≡ self.now.source.text }
    {
        self.source.text().as_str().as_bytes()
    }
}

/// A file of this name in this directory: the first.
pub fn file_named<'a>(
    files: &'a [PackageFile],
    directory: &str,
    name: &str,
) -> Option<&'a PackageFile>
    ensures { option_map (λ file. file.now) result ≡ file_named directory.now name.now files.now }
{
    for file in files {
        if file.directory.as_str() == directory && file.source.name() == name {
            return Some(file);
        }
    }
    None
}

/// Whether a token is a name, and declared where it stands.
fn is_declared(before: &[Token], from: &[Token]) -> bool
    ensures { result ≡ is_declared before.now from.now }
{
    match from {
        [token, ..] => token.kind == TokenKind::Name && is_any(DECLARATIONS, before, from),
        [] => false,
    }
}

/// The names that tokens of a text declare, in their order.
fn declared_names<'a>(
    alloc: Global,
    text: &'a [u8],
    tokens: &[Token],
) -> Result<Vec<&'a [u8]>, AllocError>
    ensures { IfOk result (λ names. map (λ name. name.now) names.items ≡ declared_names text.now [] tokens.now) }
{
    let mut names = Vec::new(alloc);
    let mut before: &[Token] = &[];
    let mut rest = tokens;
    while let [token, others @ ..] = rest {
        if is_declared(before, rest) {
            names.push(token_bytes(text, *token))?;
        }
        before = &rest[..1];
        rest = others;
    }
    Ok(names)
}

/// The names that a file declares; none, where its text isn't a row of tokens.
fn names_of(alloc: Global, file: &PackageFile) -> Result<Vec<&[u8]>, AllocError>
    ensures { IfOk result (λ names. Declares file.now.source.text (map (λ name. name.now) names.items)) }
{
    match scan(alloc, &file.source) {
        Ok(tokens) => declared_names(alloc, file.bytes(), &tokens),
        Err(ScanError::Memory) => Err(AllocError),
        Err(ScanError::Fault(_, _)) => Ok(Vec::new(alloc)),
    }
}

/// The names that the package in a directory declares. An `Err` is want of memory.
pub fn package_names<'a>(
    alloc: Global,
    files: &'a [PackageFile],
    directory: &[u8],
) -> Result<Vec<&'a [u8]>, AllocError>
    ensures { IfOk result (λ names. PackageDeclares directory.now files.now (map (λ name. name.now) names.items)) }
{
    let mut names = Vec::new(alloc);
    for file in files {
        if file.directory.as_str().as_bytes() == directory {
            let more = names_of(alloc, file)?;
            names.extend_from_slice(&more)?;
        }
    }
    Ok(names)
}
