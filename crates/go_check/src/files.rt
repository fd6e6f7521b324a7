//! Files that were parsed: their names, their trees, and faults in them.
ghost use Rattle.std.specs.Prelude.{◌≡◌, ◌<◌, map, length, IfOk};
ghost use Rattle.go_package.specs.Views.{files_of};
ghost use Rattle.go_check.specs.Checked.{AreTrees, package_edition};
ghost use Rattle.go_check.specs.Results.{IsFaultIn};

use go_ast::file::File;
use go_ast::parsed::Parsed;
use go_text::edition::Edition;
use go_text::fault::{Fault, FaultKind};
use go_text::place::Place;
use std::alloc::{AllocError, Global};

/// The edition that the files of a package are written in: that of the first.
pub(crate) fn edition_of(files: &[Parsed]) -> Edition
    ensures { result ≡ package_edition files.now }
{
    match files {
        [] => Edition::One,
        [first, ..] => first.edition(),
    }
}

/// The names of files, in their order.
pub(crate) fn names_of(alloc: Global, files: &[Parsed]) -> Result<Vec<&str>, AllocError>
    ensures { IfOk result (λ names. map (λ n. n.now) names.items ≡ map (λ f. f.name) files.now) }
{
    let mut names = Vec::with_capacity(alloc, files.len())?;
    for file in files {
        names.push(file.name())?;
    }
    Ok(names)
}

/// The trees of files, in their order. An `Err` only where memory ran out.
pub fn trees_of(alloc: Global, files: &[Parsed]) -> Result<Vec<&File>, AllocError>
    ensures { IfOk result (λ trees. AreTrees files.now (files_of trees.items)) }
{
    let mut trees = Vec::with_capacity(alloc, files.len())?;
    for file in files {
        let tree = file.file();
        trees.push(tree)?;
    }
    Ok(trees)
}

/// A fault of the file of a number. An `Err` only where memory ran out.
pub fn fault_in(
    alloc: Global,
    files: &[Parsed],
    number: usize,
    place: Place,
    kind: FaultKind,
) -> Result<Fault, AllocError>
    requires { number < length files.now }
    ensures { IfOk result (λ fault. IsFaultIn files.now (number, (place, kind)) fault) }
{
    let name = String::from_str(alloc, files[number].name())?;
    Ok(Fault::new(name, place, kind))
}
