//! Which packages files import, and whether summaries are of exactly these.
ghost use Rattle.std.specs.Prelude.{◌≡◌, ◌≢◌, map, IfOk};
ghost use Rattle.std.specs.Arc.{arc_value};
ghost use Rattle.std.specs.Bool.{OnTrue, OnFalse};
ghost use Rattle.ws_action.specs.Imported.{AddsImports, AreImported, AreImportPaths};

use go_ast::parsed::Parsed;
use go_export::summary::Summary;
use std::alloc::{AllocError, Global};
use std::sync::Arc;

/// The import path of the library.
const LIBRARY: &[u8] = b"fmt";

/// The paths of the packages that files import, `fmt` aside, in ascending order and each once.
pub(crate) fn import_paths(alloc: Global, files: &[Parsed]) -> Result<Vec<Vec<u8>>, AllocError>
    ensures { IfOk result (λ paths. AreImportPaths files.now (map (λ p. p.items) paths.items)) }
{
    let mut paths = all_imports(alloc, files)?;
    paths.sort_unstable();
    paths.dedup();
    let copies = copies(alloc, &paths)?;
    Ok(copies)
}

/// The paths that files import, `fmt` aside, in the order of the files.
fn all_imports(alloc: Global, files: &[Parsed]) -> Result<Vec<&[u8]>, AllocError>
    ensures { IfOk result (λ paths. AreImported files.now (map (λ p. p.now) paths.items)) }
{
    let mut paths = Vec::new(alloc);
    for file in files {
        add_imports(file, &mut paths)?;
    }
    Ok(paths)
}

/// Adds the paths that a file imports, `fmt` aside.
fn add_imports<'a>(file: &'a Parsed, paths: &mut Vec<&'a [u8]>) -> Result<(), AllocError>
    ensures { IfOk result (λ _. AddsImports file.now.edition file.now.text (map (λ p. p.now) paths.old.items) (map (λ p. p.now) paths.new.items)) }
{
    let specs = file.file().imports.as_slice();
    for spec in specs {
        let path = spec.path.as_slice();
        if path != LIBRARY {
            paths.push(path)?;
        }
    }
    Ok(())
}

fn copies(alloc: Global, paths: &[&[u8]]) -> Result<Vec<Vec<u8>>, AllocError>
    ensures { IfOk result (λ copies. map (λ p. p.items) copies.items ≡ map (λ p. p.now) paths.now) }
{
    let mut copies = Vec::with_capacity(alloc, paths.len())?;
    for path in paths {
        copies.push(Vec::from_slice(alloc, path)?)?;
    }
    Ok(copies)
}

/// Whether these are the paths of the summaries, in this order.
pub(crate) fn are_paths(paths: &[Vec<u8>], summaries: &[Arc<Summary>]) -> bool
    ensures same { OnTrue result (map (λ s. s.path) (map arc_value summaries.now) ≡ map (λ p. p.items) paths.now) }
    ensures other { OnFalse result (map (λ s. s.path) (map arc_value summaries.now) ≢ map (λ p. p.items) paths.now) }
{
    if paths.len() != summaries.len() {
        return false;
    }
    for (i, summary) in summaries.iter().enumerate() {
        if summary.path().as_bytes() != paths[i].as_slice() {
            return false;
        }
    }
    true
}
