//! What the imports of files declare.
ghost use Rattle.std.specs.Prelude.{◌≡◌, map, unwrap_or, IfOk};
ghost use Rattle.std.specs.Option.{option_map};
ghost use Rattle.go_ast.specs.Views.{import_of};
ghost use Rattle.go_objects.specs.Packages.{declared_imports as imports_seen};
ghost use Rattle.go_package.specs.Imports.{importable_paths, package_at, import_declares, imports_in, imports_of};
ghost use Rattle.go_package.specs.Views.{importable_view, importables_of, imported_of, files_of};

use go_ast::file::{File, ImportSpec};
use go_expr::known::Names;
use go_expr::scope::Import;
use go_scope::name_index::NameIndex;
use go_text::place::Place;
use std::alloc::{AllocError, Global};
use std::str;

/// A package that can be imported, as the library fmt.
#[derive(Clone, Copy)]
pub struct Importable<'a> {
    /// Its path.
    pub path: &'a str,
    /// The name in its clauses.
    pub name: &'a str,
    /// What it exports.
    pub exports: &'a Names,
}

/// What an import declares, with the place of its first token.
#[derive(Clone, Copy)]
pub(crate) struct Imported<'a> {
    pub(crate) place: Place,
    pub(crate) import: Import<'a>,
}

// Where so many packages can be imported, a walk is quicker than an index of their paths.
const FEW: usize = 16;

// The paths of packages, in their order. An `Err` only where memory ran out.
fn paths_of<'a>(alloc: Global, packages: &[Importable<'a>]) -> Result<NameIndex<'a>, AllocError>
    ensures { IfOk result (λ paths. paths ≡ importable_paths (importables_of packages.now)) }
{
    let mut paths = NameIndex::new(alloc);
    for package in packages {
        paths.insert(package.path)?;
    }
    Ok(paths)
}

// The first package of a path, by the paths of all.
fn package_by<'a>(
    packages: &[Importable<'a>],
    paths: &NameIndex<'_>,
    path: &str,
) -> Option<Importable<'a>>
    requires { paths.now ≡ importable_paths (importables_of packages.now) }
    ensures { option_map importable_view result ≡ package_at (importables_of packages.now) path.now }
{
    let Some(number) = paths.get(path) else {
        return None;
    };
    match packages.get(number) {
        Some(package) => Some(*package),
        None => None,
    }
}

// The first package of a path, by a walk.
fn walked<'a>(packages: &[Importable<'a>], path: &[u8]) -> Option<Importable<'a>>
    ensures { option_map importable_view result ≡ package_at (importables_of packages.now) path.now }
{
    for package in packages {
        if path == package.path.as_bytes() {
            return Some(*package);
        }
    }
    None
}

/// Packages that can be imported, which are looked up by their paths.
#[derive(Drop)]
pub(crate) struct Packages<'p, 'a> {
    /// The packages, in their order.
    pub(crate) all: &'p [Importable<'a>],
    paths: Option<NameIndex<'a>>,
    ghost named: { unwrap_or paths (importable_paths (importables_of all.now)) ≡ importable_paths (importables_of all.now) },
}

impl<'p, 'a> Packages<'p, 'a> {
    /// Packages to be looked up. An `Err` only where memory ran out.
    pub(crate) fn new(
        alloc: Global,
        all: &'p [Importable<'a>],
    ) -> Result<Packages<'p, 'a>, AllocError>
        ensures { IfOk result (λ packages. packages.all.now ≡ all.now) }
    {
        if all.len() > FEW {
            return Packages::many(alloc, all);
        }
        Ok(Packages { all, paths: None })
    }

    fn many(alloc: Global, all: &'p [Importable<'a>]) -> Result<Packages<'p, 'a>, AllocError>
        ensures { IfOk result (λ packages. packages.all.now ≡ all.now) }
    {
        let paths = Some(paths_of(alloc, all)?);
        Ok(Packages { all, paths })
    }

    // The first package of a path. One that isn't UTF-8 is that of none.
    fn at(&self, path: &[u8]) -> Option<Importable<'a>>
        ensures { option_map importable_view result ≡ package_at (importables_of self.now.all.now) path.now }
    {
        let Some(paths) = &self.paths else {
            return walked(self.all, path);
        };
        match str::from_utf8(path) {
            Ok(path) => package_by(self.all, paths, path),
            Err(_) => walked(self.all, path),
        }
    }
}

/// What an import declares, if its package is there and its name isn't blank.
/// [Import declarations](https://go.dev/ref/spec#Import_declarations)
pub(crate) fn declared_by<'a>(
    packages: &Packages<'_, 'a>,
    spec: &'a ImportSpec,
) -> Option<Imported<'a>>
    ensures { option_map imported_of result ≡ import_declares (importables_of packages.now.all.now) (import_of spec.now) }
{
    let Some(package) = packages.at(&spec.path) else {
        return None;
    };
    let name = match &spec.name {
        Some(given) => given.text(),
        None => package.name,
    };
    if name == "_" {
        return None;
    }
    let exports = package.exports;
    Some(Imported {
        place: spec.place,
        import: Import { name, exports },
    })
}

// What the imports of a file declare, in their order. An `Err` only where memory ran out.
fn imports_in<'a>(
    alloc: Global,
    packages: &Packages<'_, 'a>,
    specs: &'a [ImportSpec],
) -> Result<Vec<Import<'a>>, AllocError>
    ensures { IfOk result (λ found. imports_seen found.items ≡ map (λ i. i.1) (imports_in (importables_of packages.now.all.now) (map import_of specs.now))) }
{
    let mut found = Vec::new(alloc);
    for spec in specs {
        if let Some(imported) = declared_by(packages, spec) {
            found.push(imported.import)?;
        }
    }
    Ok(found)
}

/// What the imports of each of some files declare. An `Err` only where memory ran out.
pub(crate) fn imports_of<'a>(
    alloc: Global,
    packages: &Packages<'_, 'a>,
    files: &[&'a File],
) -> Result<Vec<Vec<Import<'a>>>, AllocError>
    ensures { IfOk result (λ found. map (λ is. imports_seen is.items) found.items ≡ imports_of (importables_of packages.now.all.now) (files_of files.now)) }
{
    let mut found = Vec::new(alloc);
    for file in files {
        let file = *file;
        found.push(imports_in(alloc, packages, &file.imports)?)?;
    }
    Ok(found)
}
