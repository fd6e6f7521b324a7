//! The first fault of a package, or what its declarations come to.
ghost use Rattle.std.specs.Prelude.{◌≡◌, ◌++◌, map, IfOk, OnOk};
ghost use Rattle.std.specs.List.{flat_map};
ghost use Rattle.go_ast.specs.Views.{file_of};
ghost use Rattle.go_package.specs.Views.{facts_of, Finds, FailsIn, FindsIn, importables_of, files_of, texts_in, initial_in, uses_in, functions_in};
ghost use Rattle.go_package.specs.Typed.{top_initializations, top_uses, top_functions, of_files};
ghost use Rattle.go_package.specs.Results.{in_file};
ghost use Rattle.go_package.specs.Faults.{Faults};
ghost use Rattle.go_objects.specs.Packages.{package_of};
ghost use Rattle.go_package.specs.Packages.{package_in, file_faults, reserved_names_faults, each_file, absent_main_faults, main_faults, package_faults};
ghost use Rattle.go_expr.specs.Views.{Fails};

use crate::bodies::Bodies;
use crate::error::DeclError;
use crate::facts::Facts;
use crate::files::check_file;
use crate::import::{Packages, imports_of};
use crate::main_rule::check_reserved;
use crate::mutual::check_constants;
use go_ast::file::File;
use go_ast::name::Name;
use go_expr::error::ExprError;
use go_objects::listing::objects_of;
use go_objects::package::Package;
use go_text::edition::Edition;
use go_text::fault::FaultKind;
use std::alloc::{AllocError, Global};

// What the files of a package of an edition import and declare. An `Err` only where memory ran out.
pub(crate) fn package_of<'a>(
    alloc: Global,
    edition: Edition,
    path: &'a str,
    files: &[&'a File],
    packages: &Packages<'_, 'a>,
) -> Result<Package<'a>, AllocError>
    ensures { IfOk result (λ p. package_of p ≡ package_in edition path.now (files_of files.now) (importables_of packages.now.all.now)) }
{
    Ok(Package {
        path,
        edition,
        imports: imports_of(alloc, packages, files)?,
        objects: objects_of(alloc, files)?,
    })
}

// What the declarations of a package come to, by what is known of it, or its first fault.
pub(crate) fn check_facts<'a>(
    alloc: Global,
    packages: &Packages<'_, 'a>,
    facts: &Facts<'_>,
    names: &[&str],
    files: &[&'a File],
) -> Result<Bodies, DeclError>
    ensures faults { FindsIn result (package_faults (importables_of packages.now.all.now) (facts_of facts.now) (files_of files.now)) }
    ensures initializations { IfOk result (λ bodies. initial_in bodies
        ≡ of_files (top_initializations (facts_of facts.now) (texts_in names.now)) 0 (files_of files.now)) }
    ensures uses { IfOk result (λ bodies. uses_in bodies ≡ of_files (top_uses (facts_of facts.now)) 0 (files_of files.now)) }
    ensures functions { IfOk result (λ bodies. functions_in bodies ≡ of_files (top_functions (facts_of facts.now)) 0 (files_of files.now)) }
{
    let bodies = check_files(alloc, packages, facts, names, files)?;
    check_constants(alloc, facts, files)?;
    check_main(facts, files)?;
    Ok(bodies)
}

fn check_files<'a>(
    alloc: Global,
    packages: &Packages<'_, 'a>,
    facts: &Facts<'_>,
    names: &[&str],
    files: &[&'a File],
) -> Result<Bodies, DeclError>
    ensures faults { FindsIn result (each_file (file_faults (importables_of packages.now.all.now) (facts_of facts.now)) 0 (files_of files.now)) }
    ensures initializations { IfOk result (λ bodies. initial_in bodies
        ≡ of_files (top_initializations (facts_of facts.now) (texts_in names.now)) 0 (files_of files.now)) }
    ensures uses { IfOk result (λ bodies. uses_in bodies ≡ of_files (top_uses (facts_of facts.now)) 0 (files_of files.now)) }
    ensures functions { IfOk result (λ bodies. functions_in bodies ≡ of_files (top_functions (facts_of facts.now)) 0 (files_of files.now)) }
{
    let mut bodies = Bodies {
        initializations: Vec::new(alloc),
        uses: Vec::new(alloc),
        functions: Vec::new(alloc),
    };
    for (number, file) in files.iter().enumerate() {
        check_numbered(alloc, packages, facts, names, number, *file, &mut bodies)?;
    }
    Ok(bodies)
}

// The first fault of one file, as one of several. What declarations without a fault come to is kept.
fn check_numbered<'a>(
    alloc: Global,
    packages: &Packages<'_, 'a>,
    facts: &Facts<'_>,
    names: &[&str],
    number: usize,
    file: &'a File,
    bodies: &mut Bodies,
) -> Result<(), DeclError>
    ensures faults { FindsIn result (map (λ x. (number, x)) (file_faults (importables_of packages.now.all.now) (facts_of facts.now) number (file_of file.now))) }
    ensures initializations { OnOk result (initial_in bodies.new ≡ initial_in bodies.old
        ++ in_file (top_initializations (facts_of facts.now) (texts_in names.now)) number (file_of file.now)) }
    ensures uses { OnOk result (uses_in bodies.new ≡ uses_in bodies.old ++ in_file (top_uses (facts_of facts.now)) number (file_of file.now)) }
    ensures functions { OnOk result (functions_in bodies.new ≡ functions_in bodies.old ++ in_file (top_functions (facts_of facts.now)) number (file_of file.now)) }
{
    match check_file(alloc, packages, facts, names, number, file, bodies) {
        Ok(()) => Ok(()),
        Err(error) => Err(in_file(number, error)),
    }
}

fn check_reserved_in(clause: &str, number: usize, file: &File) -> Result<(), DeclError>
    ensures { FindsIn result (map (λ x. (number, x)) (flat_map (reserved_names_faults clause.now) (file_of file.now).declarations)) }
{
    numbered(number, check_reserved(clause, file))
}

// The first fault of one file, as one of several.
pub(crate) fn numbered(number: usize, found: Result<(), ExprError>) -> Result<(), DeclError>
    ensures { (faults : Faults) → Finds found faults → FindsIn result (map (λ x. (number, x)) faults) }
{
    match found {
        Ok(()) => Ok(()),
        Err(error) => Err(in_file(number, error)),
    }
}

fn in_file(number: usize, error: ExprError) -> DeclError
    ensures { (faults : Faults) → Fails error faults → FailsIn result (map (λ x. (number, x)) faults) }
{
    match error {
        ExprError::Faulty(place, kind) => DeclError::Faulty(number, place, kind),
        ExprError::Memory => DeclError::Memory,
    }
}

// The first name main or init that may not be one; then, where the package is named main, that it
// has no function main.
fn check_main(facts: &Facts<'_>, files: &[&File]) -> Result<(), DeclError>
    ensures { FindsIn result (main_faults (facts_of facts.now) (files_of files.now)) }
{
    let Some(first) = files.first() else {
        return Ok(());
    };
    let clause = &first.package;
    check_all_reserved(clause.text(), files)?;
    check_has_main(facts, clause)
}

// That a package with a name has a function main, where it is named main.
fn check_has_main(facts: &Facts<'_>, clause: &Name) -> Result<(), DeclError>
    ensures { FindsIn result (absent_main_faults (facts_of facts.now) clause.now) }
{
    if clause.text() == "main" && facts.package().objects.number_of("main").is_none() {
        return Err(DeclError::Faulty(0, clause.place(), FaultKind::Main));
    }
    Ok(())
}

fn check_all_reserved(clause: &str, files: &[&File]) -> Result<(), DeclError>
    ensures { FindsIn result (each_file (λ number file. flat_map (reserved_names_faults clause.now) file.declarations) 0 (files_of files.now)) }
{
    for (number, file) in files.iter().enumerate() {
        check_reserved_in(clause, number, *file)?;
    }
    Ok(())
}
