//! The files of a package, as actions take them.
ghost use Rattle.std.specs.Prelude.{◌≡◌, ◌<◌, ◌++◌, true, Some, length, OnOk, IfOk, IfSome, map};
ghost use Rattle.std.specs.Arc.{arc_value};
ghost use Rattle.std.specs.Bool.{OnTrue, OnFalse};
ghost use Rattle.std.specs.List.{slice_get};
ghost use Rattle.sha2.specs.Sha256.{sha256};
ghost use Rattle.ws_action.specs.Actions.{source_with_name, named_summary, ascends, list_text, AreSummariesOfImports};

use crate::import::{are_paths, import_paths};
use go_ast::parsed::Parsed;
use go_export::field::{digest, push_field, push_number};
use go_export::summary::Summary;
use std::alloc::{AllocError, Global};
use std::marker::Model;
use std::sync::Arc;

/// The parsed files of a package, in their order, with the digests of their texts, what stands for
/// them in the texts of actions, and the paths that they import, ascending and each once. All are
/// made once: forming an action hashes no file, and goes over its imports and its summaries side by
/// side.
#[derive(Drop)]
pub struct Files {
    parsed: Vec<Parsed>,
    digests: Vec<[u8; 32]>,
    text: Vec<u8>,
    paths: Vec<Vec<u8>>,
}

impl Model for Files {
    ghost use Rattle.std.specs.Prelude.{◌≡◌, List, map};
    ghost use Rattle.go_ast.specs.Parse as parses;
    ghost use Rattle.ws_action.specs.Actions.{source_with_name, list_text};
    ghost use Rattle.ws_action.specs.Imported.{AreImportPaths};
    ghost use Rattle.sha2.specs.Sha256.{sha256};

    ghost Value = { List parses.Parsed };

    ghost view = { λ a. a.parsed.items };

    ghost invariant = { λ a. (a.text.items ≡ list_text (map source_with_name a.parsed.items)) × AreImportPaths a.parsed.items (map (λ p. p.items) a.paths.items) × (a.digests.items ≡ map (λ p. sha256 p.text) a.parsed.items) };
}

impl Files {
    /// The files of a list. An `Err` only where memory ran out.
    pub fn new(alloc: Global, parsed: Vec<Parsed>) -> Result<Files, AllocError>
        ensures { IfOk result (λ files. files ≡ parsed.items) }
    {
        Files::after(alloc, parsed, None)
    }

    /// The files of a list, of which others may have some: no text is hashed that these have under
    /// the same name. An `Err` only where memory ran out.
    pub fn after(
        alloc: Global,
        parsed: Vec<Parsed>,
        before: Option<&Files>,
    ) -> Result<Files, AllocError>
        ensures { IfOk result (λ files. files ≡ parsed.items) }
    {
        let mut text = Vec::new(alloc);
        let digests = hash_all(alloc, &mut text, &parsed, before)?;
        let paths = import_paths(alloc, &parsed)?;
        Ok(Files {
            parsed,
            digests,
            text,
            paths,
        })
    }

    /// The digest of a file's text, if one of these has its name and text.
    fn digest_of(&self, file: &Parsed) -> Option<[u8; 32]>
        ensures { IfSome result (λ digest. digest ≡ sha256 file.now.text) }
    {
        let parsed = self.parsed.as_slice();
        let digests = self.digests.as_slice();
        let found = parsed.binary_search_by(|one| one.name().cmp(file.name()));
        let Ok(number) = found else {
            return None;
        };
        if number >= parsed.len() {
            return None;
        }
        if number >= digests.len() {
            return None;
        }
        if !have_one_text(&parsed[number], file) {
            return None;
        }
        Some(*hash_at(digests, number))
    }

    /// The files, in their order.
    pub fn parsed(&self) -> &[Parsed]
        ensures { result.now ≡ self.now }
    {
        self.parsed.as_slice()
    }

    /// Whether summaries, in ascending order of their paths, are exactly those of the packages that
    /// the files import, `fmt` aside.
    pub(crate) fn are_imports(&self, summaries: &[Arc<Summary>]) -> bool
        ensures are { OnTrue result (AreSummariesOfImports self.now (map arc_value summaries.now)) }
        ensures other { OnFalse result (ascends (map named_summary (map arc_value summaries.now)) ≡ true → AreSummariesOfImports self.now (map arc_value summaries.now) → ⊥) }
    {
        are_paths(&self.paths, summaries)
    }

    /// Appends what stands for the files in the text of an action.
    pub(crate) fn push(&self, text: &mut Vec<u8>) -> Result<(), AllocError>
        ensures { OnOk result (text.new.items ≡ text.old.items ++ list_text (map source_with_name self.now)) }
    {
        text.extend_from_slice(&self.text)?;
        Ok(())
    }
}

fn hash_at(digests: &[[u8; 32]], number: usize) -> &[u8; 32]
    requires { number < length digests.now }
    ensures { slice_get digests.now number ≡ Some result.now }
{
    &digests[number]
}

fn have_one_text(one: &Parsed, other: &Parsed) -> bool
    ensures { OnTrue result (one.now.text ≡ other.now.text) }
{
    one.text().as_str() == other.text().as_str()
}

fn known_digest(file: &Parsed, before: Option<&Files>) -> Option<[u8; 32]>
    ensures { IfSome result (λ digest. digest ≡ sha256 file.now.text) }
{
    let files = before?;
    files.digest_of(file)
}

/// The digest of a file's text: as others have it, if they do.
fn digest_of(file: &Parsed, before: Option<&Files>) -> [u8; 32]
    ensures { result ≡ sha256 file.now.text }
{
    match known_digest(file, before) {
        Some(known) => known,
        None => digest(file.text().as_str().as_bytes()),
    }
}

/// The digests of the texts of files. Appends what stands for the files in the text of an action.
fn hash_all(
    alloc: Global,
    text: &mut Vec<u8>,
    parsed: &[Parsed],
    before: Option<&Files>,
) -> Result<Vec<[u8; 32]>, AllocError>
    ensures text { OnOk result (text.new.items ≡ text.old.items ++ list_text (map source_with_name parsed.now)) }
    ensures digests { IfOk result (λ digests. digests.items ≡ map (λ p. sha256 p.text) parsed.now) }
{
    push_number(text, parsed.len() as u64)?;
    let mut digests = Vec::new(alloc);
    for file in parsed {
        let hashed = digest_of(file, before);
        push_field(text, file.name().as_bytes())?;
        push_field(text, &hashed)?;
        digests.push(hashed)?;
    }
    Ok(digests)
}
