//! The faults of files.
ghost use Rattle.std.specs.Prelude.{◌≡◌, ◌++◌, ℕ, List, [], bytes_eq, map, OnOk};
ghost use Rattle.std.specs.List.{filter, flat_map, list_any};
ghost use Rattle.go_ast.specs.Trees as trees;
ghost use Rattle.go_ast.specs.Views.{file_of};
ghost use Rattle.go_uses.specs.Uses.{in_top, file_refers};
ghost use Rattle.go_package.specs.Views.{facts_of, texts_in, initial_in, uses_in, functions_in, Finds, importables_of};
ghost use Rattle.go_package.specs.Typed.{top_initializations, top_uses, top_functions};
ghost use Rattle.go_package.specs.Results.{in_file};
ghost use Rattle.go_package.specs.Imports.{imports_in};
ghost use Rattle.go_package.specs.Packages.{import_faults, imports_faults, file_faults};

use crate::bodies::Bodies;
use crate::declarations::check_tops;
use crate::facts::Facts;
use crate::import::{Packages, declared_by};
use crate::uses::dotted_in;
use go_ast::file::File;
use go_expr::error::ExprError;
use go_scope::name_index::NameIndex;
use go_text::fault::FaultKind;
use go_text::place::Place;
use std::alloc::Global;

/// The first fault in a file: of its imports, then of its declarations. What those without a fault
/// come to is kept.
pub(crate) fn check_file<'a>(
    alloc: Global,
    packages: &Packages<'_, 'a>,
    facts: &Facts<'_>,
    names: &[&str],
    number: usize,
    file: &'a File,
    bodies: &mut Bodies,
) -> Result<(), ExprError>
    ensures faults { Finds result (file_faults (importables_of packages.now.all.now) (facts_of facts.now) number (file_of file.now)) }
    ensures initializations { OnOk result (initial_in bodies.new ≡ initial_in bodies.old
        ++ in_file (top_initializations (facts_of facts.now) (texts_in names.now)) number (file_of file.now)) }
    ensures uses { OnOk result (uses_in bodies.new ≡ uses_in bodies.old ++ in_file (top_uses (facts_of facts.now)) number (file_of file.now)) }
    ensures functions { OnOk result (functions_in bodies.new ≡ functions_in bodies.old ++ in_file (top_functions (facts_of facts.now)) number (file_of file.now)) }
{
    let tops = file.declarations.as_slice();
    let used = dotted_in(alloc, facts, number, tops, &mut bodies.uses)?;
    check_imports(alloc, packages, facts, file, &used)?;
    check_tops(alloc, facts, names, number, tops, bodies)
}

// The first fault of a file's imports, by the names before a dot: `Redeclared` where a name is that
// of one before or of a declaration of the package, `UnusedImport` where the file doesn't refer to it.
// [Import declarations](https://go.dev/ref/spec#Import_declarations)
fn check_imports<'a>(
    alloc: Global,
    packages: &Packages<'_, 'a>,
    facts: &Facts<'_>,
    file: &'a File,
    used: &NameIndex<'_>,
) -> Result<(), ExprError>
    requires { used.now ≡ map (λ u. u.0) (filter (λ u. u.1) (flat_map in_top (file_of file.now).declarations)) }
    ensures { Finds result (imports_faults (facts_of facts.now) (file_of file.now) [] (imports_in (importables_of packages.now.all.now) (file_of file.now).imports)) }
{
    let mut before = NameIndex::new(alloc);
    for spec in &file.imports {
        let Some(imported) = declared_by(packages, spec) else {
            continue;
        };
        let name = imported.import.name;
        let doubled = before.insert(name)?.is_some();
        let refers = used.get(name).is_some();
        check_import(facts, imported.place, name, doubled, refers)?;
    }
    Ok(())
}

fn check_import(
    facts: &Facts<'_>,
    place: Place,
    name: &str,
    doubled: bool,
    refers: bool,
) -> Result<(), ExprError>
    ensures { (file : trees.File) (before : List (List ℕ)) → doubled ≡ list_any (bytes_eq name.now) before → refers ≡ file_refers name.now file
        → Finds result (import_faults (facts_of facts.now) file before place name.now) }
{
    if doubled || facts.package().objects.number_of(name).is_some() {
        return Err(ExprError::Faulty(place, FaultKind::Redeclared));
    }
    if !refers {
        return Err(ExprError::Faulty(place, FaultKind::UnusedImport));
    }
    Ok(())
}
