//! What a package was compiled from, when its trees are given up.
ghost use Rattle.std.specs.Prelude.{◌≡◌, IfOk, map};
ghost use Rattle.std.specs.Arc.{arc_value};
ghost use Rattle.ws_action.specs.Actions.{named_source, source_with_name, named_summary, action_cmp};

use crate::part::cmp_lists;
use crate::{Action, copy_imports};
use go_ast::parsed::Parsed;
use go_export::summary::Summary;
use go_text::edition::Edition;
use go_text::source::Source;
use std::alloc::{AllocError, Global};
use std::cmp::Ordering;
use std::marker::Model;
use std::sync::Arc;

/// An action without its trees: the edition, the package's directory, its sources, and the
/// summaries of its imports. It shares the sources and the summaries.
#[derive(Drop)]
pub struct Origin {
    edition: Edition,
    path: String,
    files: Vec<Arc<Source>>,
    imports: Vec<Arc<Summary>>,
}

impl Model for Origin {
    ghost use Rattle.std.specs.Prelude.{string_bytes, map};
    ghost use Rattle.std.specs.Arc.{arc_value};
    ghost use Rattle.ws_action.specs.Actions as actions;

    ghost Value = { actions.Action };

    ghost coded = { actions.action_code };

    ghost view = { λ a. record { edition = a.edition; path = string_bytes a.path; files = map (λ s. actions.named_source (arc_value s)) a.files.items; imports = map actions.named_summary (map arc_value a.imports.items) } };
}

impl Origin {
    /// The names and texts of an action. An `Err` only where memory ran out.
    pub fn of(action: &Action) -> Result<Origin, AllocError>
        ensures { IfOk result (λ origin. origin ≡ action.now) }
    {
        let alloc = action.allocator();
        let path = String::from_str(alloc, action.path())?;
        let files = sources(alloc, action.files())?;
        let imports = copy_imports(alloc, action.imports())?;
        Ok(Origin {
            edition: action.edition(),
            path,
            files,
            imports,
        })
    }

    /// The edition that the package is compiled by.
    pub fn edition(&self) -> Edition
        ensures { result ≡ self.now.edition }
    {
        self.edition
    }

    /// The package's directory.
    pub fn path(&self) -> &str
        ensures { result.now ≡ self.now.path }
    {
        self.path.as_str()
    }

    /// The names and texts of the package's files.
    pub fn files(&self) -> &[Arc<Source>]
        ensures { map (λ s. named_source (arc_value s)) result.now ≡ self.now.files }
    {
        self.files.as_slice()
    }

    /// The summaries of the packages that the files import.
    pub fn imports(&self) -> &[Arc<Summary>]
        ensures { map named_summary (map arc_value result.now) ≡ self.now.imports }
    {
        self.imports.as_slice()
    }

    /// By edition, then directory, then the files by name and text, then the imports by the texts of
    /// their summaries.
    pub fn cmp_origin(&self, other: &Origin) -> Ordering
        ensures { result ≡ action_cmp self.now other.now }
    {
        match self.edition.number().cmp(&other.edition.number()) {
            Ordering::Equal => match self.path.cmp(&other.path) {
                Ordering::Equal => {
                    cmp_lists(&self.files, &other.files, &self.imports, &other.imports)
                }
                unequal => unequal,
            },
            unequal => unequal,
        }
    }
}

fn source_of(file: &Parsed) -> Result<Arc<Source>, AllocError>
    ensures { IfOk result (λ source. named_source (arc_value source) ≡ source_with_name file.now) }
{
    let source = Arc::try_clone(file.source())?;
    Ok(source)
}

/// The names and texts of files, which are shared.
fn sources(alloc: Global, files: &[Parsed]) -> Result<Vec<Arc<Source>>, AllocError>
    ensures { IfOk result (λ sources. map (λ s. named_source (arc_value s)) sources.items ≡ map source_with_name files.now) }
{
    let mut sources = Vec::with_capacity(alloc, files.len())?;
    for file in files {
        let source = source_of(file)?;
        sources.push(source)?;
    }
    Ok(sources)
}
