//! Actions: what a package is compiled from, and the text and the id by which caches know it.
#![tactic(auto)]

ghost use Rattle.std.specs.Prelude.{◌≡◌, ℕ, List, map, OnOk, IfOk, IfSome, IfErr, string_bytes};
ghost use Rattle.std.specs.Arc.{arc_value};
ghost use Rattle.std.specs.Bool.{OnTrue, OnFalse};
ghost use Rattle.std.specs.List.{All, Contains};
ghost use Rattle.go_ast.specs.Parse.{IsNamed, IsOther};
ghost use Rattle.sha2.specs.Sha256.{sha256};
ghost use Rattle.go_export.specs.Writable.{IsWritten};
ghost use Rattle.ws_action.specs.Clash.{NoClash, Includes, hashed_actions, AllSized};
ghost use Rattle.ws_action.specs.Actions.{Action as AnAction, source_with_name, named_summary, action_of, are_names_ordered, HaveOneName, HaveOtherName, MakeAction, AreRefused, action_text, action_id, IsSized, action_cmp};

mod files;
mod import;
mod origin;
mod part;
mod same_edition;

use crate::part::{ascend, cmp_lists, measure, push_parts};
use crate::same_edition::have_edition;
pub use files::Files;
use go_ast::parsed::Parsed;
use go_export::field::{digest, push_field};
use go_export::summary::Summary;
use go_text::edition::Edition;
pub use origin::Origin;
use std::alloc::{AllocError, Global};
use std::cmp::Ordering;
use std::marker::Model;
use std::sync::Arc;
use thiserror::Error;

/// Why files and summaries make no action.
#[derive(Debug, Drop, Error)]
pub enum ActionError {
    /// There is no file.
    #[error("no file")]
    NoFile,
    /// The files' names, or the summaries' paths, are not strictly ascending by bytes.
    #[error("file names or import paths are not strictly ascending")]
    Unordered,
    /// The files have different package names.
    #[error("package names differ")]
    MixedNames,
    /// The summaries aren't exactly those of the packages that the files import, `fmt` aside.
    #[error("summaries and imports differ")]
    NotImports,
    /// A file or a summary is of another edition.
    #[error("a file or a summary of another edition")]
    OtherEdition,
}

/// What a package is compiled from: the edition, the package's directory, its parsed files, of
/// which there is one at least, in strictly ascending order of names and with one package name, and
/// the summaries of exactly the packages that they import, in strictly ascending order of paths. An
/// action that was identified has its id, and so have its copies.
#[derive(Drop)]
pub struct Action {
    alloc: Global,
    edition: Edition,
    path: String,
    files: Arc<Files>,
    imports: Vec<Arc<Summary>>,
    id: Option<[u8; 32]>,
}

impl Model for Action {
    ghost use Rattle.std.specs.Prelude.{◌≡◌, IfSome, string_bytes, map};
    ghost use Rattle.std.specs.Arc.{arc_value};
    ghost use Rattle.ws_action.specs.Actions as actions;

    ghost Value = { actions.Action };

    ghost coded = { actions.action_code };

    ghost view = { λ a. actions.action_of a.edition (string_bytes a.path) (arc_value a.files) (map arc_value a.imports.items) };

    ghost use Rattle.std.specs.List.{All};
    ghost use Rattle.go_export.specs.Writable.{IsWritten};

    ghost invariant = { λ a. actions.MakeAction a.edition (arc_value a.files) (map arc_value a.imports.items)
        × All IsWritten (map arc_value a.imports.items)
        × IfSome a.id (λ id. id ≡ actions.action_id (actions.action_of a.edition (string_bytes a.path) (arc_value a.files) (map arc_value a.imports.items))) };
}

impl Action {
    /// The action of an edition, a package's directory, its parsed files and the summaries of its
    /// imports. An `Err` says why they make none: the first that holds of `NoFile`, `Unordered`,
    /// `MixedNames`, `NotImports` and `OtherEdition`.
    pub fn new(
        alloc: Global,
        edition: Edition,
        path: String,
        files: Arc<Files>,
        imports: Vec<Arc<Summary>>,
    ) -> Result<Action, ActionError>
        ensures ok { let summaries = map arc_value imports.items in IfOk result (λ a. a ≡ action_of edition (string_bytes path) (arc_value files) summaries) }
        ensures allowed { OnOk result (MakeAction edition (arc_value files) (map arc_value imports.items)) }
        ensures refused { IfErr result (λ e. AreRefused edition (arc_value files) (map arc_value imports.items) e) }
        ensures sized { IfOk result (λ a. IsSized a) }
    {
        check_parts(edition, &files, &imports)?;
        let _ = path.len();
        measure(files.parsed());
        measure(&imports);
        see_written(&imports);
        Ok(Action {
            alloc,
            edition,
            path,
            files,
            imports,
            id: None,
        })
    }

    /// The edition that the package is compiled by.
    pub fn edition(&self) -> Edition
        ensures { result ≡ self.now.edition }
    {
        self.edition
    }

    /// The package's directory.
    pub fn path(&self) -> &str
        ensures { result.now ≡ self.now.path }
    {
        self.path.as_str()
    }

    /// The package's files.
    pub fn files(&self) -> &[Parsed]
        ensures value { map source_with_name result.now ≡ self.now.files }
        ensures named { HaveOneName result.now }
        ensures edition { All (λ file. file.edition ≡ self.now.edition) result.now }
    {
        self.files.parsed()
    }

    /// The summaries of the packages that the files import.
    pub fn imports(&self) -> &[Arc<Summary>]
        ensures value { map named_summary (map arc_value result.now) ≡ self.now.imports }
        ensures written { All IsWritten (map arc_value result.now) }
        ensures edition { All (λ summary. summary.edition ≡ self.now.edition) (map arc_value result.now) }
    {
        self.imports.as_slice()
    }

    /// What the action's copies and texts are allocated by.
    pub fn allocator(&self) -> Global {
        self.alloc
    }

    /// Another of equal contents, which shares the files and the summaries. An `Err` only where memory ran out.
    pub fn copy(&self) -> Result<Action, AllocError>
        ensures { IfOk result (λ copy. copy ≡ self.now) }
    {
        Ok(Action {
            alloc: self.alloc,
            edition: self.edition,
            path: self.path.clone()?,
            files: Arc::try_clone(&self.files)?,
            imports: copy_imports(self.alloc, &self.imports)?,
            id: self.id,
        })
    }

    /// The text that stands for the action in its id. An `Err` only where memory ran out.
    pub fn text(&self) -> Result<Vec<u8>, AllocError>
        ensures { IfOk result (λ text. text.items ≡ action_text self.now) }
    {
        let edition = format!(in self.alloc; "{}", self.edition.number())?;
        let mut text = Vec::new(self.alloc);
        push_field(&mut text, b"goset action")?;
        push_field(&mut text, edition.as_bytes())?;
        push_field(&mut text, self.path.as_bytes())?;
        self.files.push(&mut text)?;
        push_parts(&mut text, &self.imports)?;
        Ok(text)
    }

    /// The SHA-256 digest of the action's text, which one that was identified has. An `Err` only
    /// where memory ran out.
    pub fn id(&self) -> Result<[u8; 32], AllocError>
        ensures { IfOk result (λ id. id ≡ action_id self.now) }
    {
        if let Some(id) = self.id {
            return Ok(id);
        }
        let text = self.text()?;
        Ok(digest(&text))
    }

    /// The same action, which has its id from here on: nothing is hashed where another that has its
    /// id has the same text. An `Err` only where memory ran out.
    pub fn identified(self, last: Option<&Action>) -> Result<Action, AllocError>
        ensures { IfOk result (λ action. action ≡ self) }
    {
        let id = self.id_after(last)?;
        let Action {
            alloc,
            edition,
            path,
            files,
            imports,
            id: _,
        } = self;
        Ok(Action {
            alloc,
            edition,
            path,
            files,
            imports,
            id: Some(id),
        })
    }

    fn id_after(&self, last: Option<&Action>) -> Result<[u8; 32], AllocError>
        ensures { IfOk result (λ id. id ≡ action_id self.now) }
    {
        let text = self.text()?;
        match known_id(last, &text)? {
            Some(id) => Ok(id),
            None => Ok(digest(&text)),
        }
    }

    /// The action's id, if it has that text, and its id.
    fn id_of(&self, text: &[u8]) -> Result<Option<[u8; 32]>, AllocError>
        ensures { IfOk result (λ found. IfSome found (λ id. id ≡ sha256 text.now)) }
    {
        let own = self.text()?;
        if own.as_slice() == text {
            Ok(self.id)
        } else {
            Ok(None)
        }
    }

    /// By edition, then directory, then the files by name and text, then the imports by the texts of
    /// their summaries.
    pub fn cmp_action(&self, other: &Action) -> Ordering
        ensures { result ≡ action_cmp self.now other.now }
    {
        match self.edition.number().cmp(&other.edition.number()) {
            Ordering::Equal => match self.path.cmp(&other.path) {
                Ordering::Equal => cmp_lists(
                    self.files.parsed(),
                    other.files.parsed(),
                    &self.imports,
                    &other.imports,
                ),
                unequal => unequal,
            },
            unequal => unequal,
        }
    }
}

fn known_id(last: Option<&Action>, text: &[u8]) -> Result<Option<[u8; 32]>, AllocError>
    ensures { IfOk result (λ found. IfSome found (λ id. id ≡ sha256 text.now)) }
{
    let Some(last) = last else {
        return Ok(None);
    };
    let id = last.id_of(text)?;
    Ok(id)
}

/// What keeps files and summaries from making an action: the first that holds.
fn check_parts(edition: Edition, files: &Files, imports: &[Arc<Summary>]) -> Result<(), ActionError>
    ensures ok { OnOk result (MakeAction edition files.now (map arc_value imports.now)) }
    ensures err { IfErr result (λ e. AreRefused edition files.now (map arc_value imports.now) e) }
{
    let parsed = files.parsed();
    if parsed.is_empty() {
        return Err(ActionError::NoFile);
    }
    if !are_ordered(parsed, imports) {
        return Err(ActionError::Unordered);
    }
    if !has_one_name(parsed) {
        return Err(ActionError::MixedNames);
    }
    if !files.are_imports(imports) {
        return Err(ActionError::NotImports);
    }
    if !have_edition(edition, parsed, imports) {
        return Err(ActionError::OtherEdition);
    }
    Ok(())
}

/// Whether the names of the files and the paths of the summaries are strictly ascending.
fn are_ordered(files: &[Parsed], imports: &[Arc<Summary>]) -> bool
    ensures { result ≡ are_names_ordered files.now (map arc_value imports.now) }
{
    ascend(files) && ascend(imports)
}

/// Whether a file's package has that name.
fn is_named(name: &str, file: &Parsed) -> bool
    ensures named { OnTrue result (IsNamed file.now.edition name.now file.now.text) }
    ensures other { OnFalse result (IsOther file.now.edition name.now file.now.text) }
{
    file.package().text() == name
}

/// Whether all files have one package name.
fn has_one_name(files: &[Parsed]) -> bool
    ensures named { OnTrue result (HaveOneName files.now) }
    ensures other { OnFalse result (HaveOtherName files.now) }
{
    let Some((first, rest)) = files.split_first() else {
        return true;
    };
    let name = first.package().text();
    for file in rest {
        if !is_named(name, file) {
            return false;
        }
    }
    true
}

/// That the text of each summary tells it.
fn see_written(imports: &[Arc<Summary>])
    ensures { All IsWritten (map arc_value imports.now) }
{
    for summary in imports {
        summary.written();
    }
}

fn copy_imports(alloc: Global, imports: &[Arc<Summary>]) -> Result<Vec<Arc<Summary>>, AllocError>
    ensures { IfOk result (λ copies. map arc_value copies.items ≡ map arc_value imports.now) }
{
    let mut copies = Vec::new(alloc);
    for summary in imports {
        copies.push(Arc::try_clone(summary)?)?;
    }
    Ok(copies)
}

/// Of actions whose hashed texts are in a list without clashes, no two have one id.
pub fn law_one_action()
    ensures { (texts : List (List ℕ)) (actions : List AnAction) → NoClash texts → Includes texts (hashed_actions actions) → AllSized actions → (a b : AnAction) → Contains actions a → Contains actions b → action_id a ≡ action_id b → a ≡ b }
{}
