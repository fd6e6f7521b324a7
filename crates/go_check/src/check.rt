//! The typed package that files are, which may import fmt and packages of known summaries.
//! [Packages](https://go.dev/ref/spec#Packages)
ghost use Rattle.std.specs.Prelude.{◌≡◌, ◌∷◌, map, Err, IfOk};
ghost use Rattle.std.specs.Arc.{arc_value};
ghost use Rattle.go_text.specs.Faults.{Fault as AFault};
ghost use Rattle.go_typed.specs.Views.{typed_of};
ghost use Rattle.go_expr.specs.Known.{library};
ghost use Rattle.go_expr.specs.Views.{names_of};
ghost use Rattle.go_check.specs.Names.{importable_by, summary_names};
ghost use Rattle.go_package.specs.Views.{importables_of};
ghost use Rattle.go_check.specs.Checked.{AreTyped, HaveFault, fmt};
ghost use Rattle.go_check.specs.Results.{ChecksTo};
ghost use Rattle.go_check.specs.declared.error.CheckError.TheVariants as errors;

use crate::error::CheckError;
use crate::files::{edition_of, fault_in, names_of, trees_of};
use crate::names::exported_names;
use go_ast::parsed::Parsed;
use go_export::summary::Summary;
use go_expr::known::{Names, library};
use go_package::error::DeclError;
use go_package::import::Importable;
use go_package::typed::typed;
use go_typed::package::Typed;
use std::alloc::{AllocError, Global};
use std::sync::Arc;

/// What each of the imported packages declares for others, in their order.
fn exports_of(alloc: Global, imports: &[Arc<Summary>]) -> Result<Vec<Names>, AllocError>
    ensures { IfOk result (λ all. map names_of all.items ≡ map summary_names (map arc_value imports.now)) }
{
    let mut all = Vec::with_capacity(alloc, imports.len())?;
    for summary in imports {
        all.push(exported_names(alloc, summary)?)?;
    }
    Ok(all)
}

/// The packages that may be imported: the library fmt, and those of the summaries.
fn importables<'a>(
    alloc: Global,
    library_names: &'a Names,
    imports: &'a [Arc<Summary>],
    exports: &'a [Names],
) -> Result<Vec<Importable<'a>>, AllocError>
    requires library { names_of library_names.now ≡ library }
    requires exports { map names_of exports.now ≡ map summary_names (map arc_value imports.now) }
    ensures { IfOk result (λ all. importables_of all.items ≡ fmt ∷ map importable_by (map arc_value imports.now)) }
{
    let mut all = Vec::with_capacity(alloc, imports.len())?;
    all.push(Importable {
        path: "fmt",
        name: "fmt",
        exports: library_names,
    })?;
    for (summary, exports) in imports.iter().zip(exports) {
        all.push(Importable {
            path: summary.path(),
            name: summary.package(),
            exports,
        })?;
    }
    Ok(all)
}

/// The typed package at a path that some files are, in ascending order of their names, or its first
/// fault. They may import the library fmt and the packages of these summaries.
///
/// `Memory` only where memory ran out.
pub fn check(
    alloc: Global,
    path: &str,
    files: &[Parsed],
    imports: &[Arc<Summary>],
) -> Result<Typed, CheckError>
    ensures typed { IfOk result (λ t. AreTyped path.now files.now (map importable_by (map arc_value imports.now)) (typed_of t)) }
    ensures faulty { (fault : AFault) → result ≡ Err (errors.Faulty fault)
        → HaveFault path.now files.now (map importable_by (map arc_value imports.now)) fault }
{
    check_told(alloc, path, files, imports)
}

/// The typed package, or its first fault.
fn check_told(
    alloc: Global,
    path: &str,
    files: &[Parsed],
    imports: &[Arc<Summary>],
) -> Result<Typed, CheckError>
    ensures { ChecksTo path.now files.now (map importable_by (map arc_value imports.now)) result }
{
    let library_names = library(alloc)?;
    let exports = exports_of(alloc, imports)?;
    let packages = importables(alloc, &library_names, imports, &exports)?;
    let names = names_of(alloc, files)?;
    let trees = trees_of(alloc, files)?;
    match typed(alloc, path, edition_of(files), &names, &trees, &packages) {
        Ok(typed) => Ok(typed),
        Err(DeclError::Faulty(number, place, kind)) => {
            let fault = fault_in(alloc, files, number, place, kind)?;
            Err(CheckError::Faulty(fault))
        }
        Err(DeclError::Memory) => Err(CheckError::Memory),
    }
}
