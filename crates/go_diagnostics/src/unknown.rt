//! Names that nothing declares, and what may be meant by them.
ghost use Rattle.std.specs.Prelude.{◌≡◌, ◌++◌, [], IfOk, map, option_map, string_bytes};
ghost use Rattle.std.specs.List.{filter};
ghost use Rattle.go_diagnostics.specs.Unknown.{Suggests, SuggestsAmong, SuggestsAt, import_path, is_exported_name, is_known, is_period, last_element};
ghost use Rattle.go_diagnostics.specs.Unknown.{similar_pair, predeclared, selected_name, unknown_name, unquoted};

use crate::names::{name_here, token_bytes};
use crate::nearest::nearest;
use crate::package::{PackageFile, package_names};
use crate::table::{IMPORTS, is_any};
use go_scan::punctuation::Punctuation;
use go_scan::token::{Token, TokenKind};
use std::alloc::{AllocError, Global};

/// The names that Go declares and an edition has.
const PREDECLARED: &[&str] = &[
    "append", "bool", "byte", "cap", "false", "int", "int16", "int32", "int64", "int8", "iota",
    "len", "make", "panic", "rune", "string", "true", "uint", "uint16", "uint32", "uint64",
    "uint8",
];

/// A name that nothing declares, and the nearest one that something does.
#[derive(Clone, Copy)]
pub struct SimilarName<'a> {
    pub unknown: &'a [u8],
    pub nearest: &'a [u8],
}

fn is_known(names: &[&[u8]], name: &[u8]) -> bool
    ensures { result ≡ is_known (map (λ name. name.now) names.now) name.now }
{
    for known in names {
        if *known == name {
            return true;
        }
    }
    false
}

fn is_period(token: Token) -> bool
    ensures { result ≡ is_period token }
{
    token.kind == TokenKind::Punctuation(Punctuation::Period)
}

/// The name that nothing declares in a chain of names `a.b.c`: the first that isn't among these, or
/// the last.
fn unknown_name<'a>(names: &[&[u8]], text: &'a [u8], from: &[Token]) -> Option<&'a [u8]>
    ensures { option_map (λ name. name.now) result ≡ unknown_name (map (λ name. name.now) names.now) text.now from.now }
{
    let mut rest = from;
    while let [name, period, others @ ..] = rest {
        if !is_period(*period) || !is_known(names, token_bytes(text, *name)) {
            return name_here(text, rest);
        }
        rest = others;
    }
    name_here(text, rest)
}

/// The bytes of a path behind its last slash.
fn last_element(path: &[u8]) -> &[u8]
    ensures { result.now ≡ last_element path.now }
{
    let mut rest = path;
    let mut last = path;
    while let [byte, others @ ..] = rest {
        if *byte == b'/' {
            last = others;
        }
        rest = others;
    }
    last
}

/// A literal without the quotation marks around it.
fn unquoted(literal: &[u8]) -> &[u8]
    ensures { result.now ≡ unquoted literal.now }
{
    match literal {
        [_, inner @ .., _] => inner,
        _ => literal,
    }
}

/// The path that a file imports under this name.
fn import_path<'a>(text: &'a [u8], tokens: &[Token], name: &[u8]) -> Option<&'a [u8]>
    ensures { option_map (λ path. path.now) result ≡ import_path text.now tokens.now name.now }
{
    let mut before: &[Token] = &[];
    let mut rest = tokens;
    while let [token, others @ ..] = rest {
        if token.kind == TokenKind::String && is_any(IMPORTS, before, rest) {
            let path = unquoted(token_bytes(text, *token));
            if last_element(path) == name {
                return Some(path);
            }
        }
        before = &rest[..1];
        rest = others;
    }
    None
}

/// The path of the package of which a name is taken, and the tokens from that name on.
fn selected<'a, 'b>(
    names: &[&[u8]],
    text: &'a [u8],
    tokens: &[Token],
    from: &'b [Token],
) -> Option<(&'a [u8], &'b [Token])>
    ensures { option_map (λ found. (found.0.now, found.1.now)) result
        ≡ selected_name (map (λ name. name.now) names.now) text.now tokens.now from.now }
{
    match from {
        [package, period, rest @ ..] => {
            let name = token_bytes(text, *package);
            if !is_period(*period) || is_known(names, name) {
                return None;
            }
            match import_path(text, tokens, name) {
                Some(path) => Some((path, rest)),
                None => None,
            }
        }
        _ => None,
    }
}

/// Whether a name is exported: it begins with a capital letter of ASCII.
fn is_exported(name: &[u8]) -> bool
    ensures { result ≡ is_exported_name name.now }
{
    match name {
        [letter, ..] => b'A' <= *letter && *letter <= b'Z',
        [] => false,
    }
}

/// Those of the names that are exported.
fn exported<'a>(alloc: Global, names: &[&'a [u8]]) -> Result<Vec<&'a [u8]>, AllocError>
    ensures { IfOk result (λ exported. map (λ name. name.now) exported.items
        ≡ filter is_exported_name (map (λ name. name.now) names.now)) }
{
    let mut exported = Vec::new(alloc);
    for name in names {
        if is_exported(name) {
            exported.push(*name)?;
        }
    }
    Ok(exported)
}

/// Names as bytes.
fn bytes_of<'a>(alloc: Global, names: &'a [&'a str]) -> Result<Vec<&'a [u8]>, AllocError>
    ensures { IfOk result (λ found. map (λ name. name.now) found.items ≡ map (λ name. name.now) names.now) }
{
    let mut found = Vec::new(alloc);
    for name in names {
        found.push(name.as_bytes())?;
    }
    Ok(found)
}

/// The names that Go declares, and behind them others.
fn with_predeclared<'a>(alloc: Global, declared: &[&'a [u8]]) -> Result<Vec<&'a [u8]>, AllocError>
    ensures { IfOk result (λ names. map (λ name. name.now) names.items
        ≡ predeclared ++ map (λ name. name.now) declared.now) }
{
    let mut names = bytes_of(alloc, PREDECLARED)?;
    names.extend_from_slice(declared)?;
    Ok(names)
}

/// The unknown name of a chain, with the nearest of the known ones.
fn suggestion_among<'a>(
    alloc: Global,
    names: &[&'a [u8]],
    text: &'a [u8],
    from: &[Token],
) -> Result<Option<SimilarName<'a>>, AllocError>
    ensures { IfOk result (λ found. SuggestsAmong (map (λ name. name.now) names.now) text.now from.now
        (option_map similar_pair found)) }
{
    let Some(unknown) = unknown_name(names, text, from) else {
        return Ok(None);
    };
    match nearest(alloc, names, unknown)? {
        Some(nearest) => Ok(Some(SimilarName { unknown, nearest })),
        None => Ok(None),
    }
}

/// What may be meant at a place of a file in which these names are known: one of them, or one that an
/// imported package exports.
fn suggestion_in<'a>(
    alloc: Global,
    files: &'a [PackageFile],
    known: &[&'a [u8]],
    text: &'a [u8],
    tokens: &[Token],
    from: &[Token],
) -> Result<Option<SimilarName<'a>>, AllocError>
    ensures { IfOk result (λ found. SuggestsAt files.now (map (λ name. name.now) known.now)
        text.now tokens.now from.now (option_map similar_pair found)) }
{
    match selected(known, text, tokens, from) {
        Some((path, rest)) => {
            let declared = package_names(alloc, files, path)?;
            let exported = exported(alloc, &declared)?;
            suggestion_among(alloc, &exported, text, rest)
        }
        None => suggestion_among(alloc, known, text, from),
    }
}

/// What may be meant by the name that nothing declares at a place of a file: a name of its package,
/// or of one that it imports. An `Err` is want of memory.
pub fn suggestion<'a>(
    alloc: Global,
    files: &'a [PackageFile],
    file: &'a PackageFile,
    tokens: &[Token],
    from: &[Token],
) -> Result<Option<SimilarName<'a>>, AllocError>
    ensures { IfOk result (λ found.
        Suggests (string_bytes file.now.directory) files.now file.now.source.text tokens.now from.now
        (option_map similar_pair found)) }
{
    let declared = package_names(alloc, files, file.directory.as_str().as_bytes())?;
    let known = with_predeclared(alloc, &declared)?;
    suggestion_in(alloc, files, &known, file.bytes(), tokens, from)
}
