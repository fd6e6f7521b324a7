//! The typed package that files are, or its first fault.
//! [Packages](https://go.dev/ref/spec#Packages)
ghost use Rattle.std.specs.Prelude.{◌≡◌, ℕ, Some, Err, IfOk};
ghost use Rattle.go_typed.specs.Views.{typed_of};
ghost use Rattle.go_objects.specs.Packages.{package_of};
ghost use Rattle.go_package.specs.Views.{facts_of, files_of, importables_of, texts_in, initial_in, uses_in, functions_in};
ghost use Rattle.go_package.specs.declared.error.DeclError.TheVariants as errors;
ghost use Rattle.go_package.specs.Packages.{package_in, IsFaultOf};
ghost use Rattle.go_package.specs.Typed.{package_name, typed_package, top_initializations, top_uses, top_functions, of_files, IsTypedIn};
ghost use Rattle.go_package.specs.Results.{TypesIn};

use crate::bodies::Bodies;
use crate::check::{check_facts, package_of};
use crate::error::DeclError;
use crate::facts::Facts;
use crate::import::{Importable, Packages};
use crate::inits::with_numbers;
use crate::names::{constants_in, types_in, variables_in};
use go_ast::file::File;
use go_objects::package::Package;
use go_objects::table::table;
use go_text::edition::Edition;
use go_text::fault::FaultKind;
use go_text::place::Place;
use go_typed::package::Typed;
use std::alloc::{AllocError, Global};

// A package is named by its first file's clause.
fn package_name<'a>(files: &[&'a File]) -> &'a str
    ensures { result.now ≡ package_name (files_of files.now) }
{
    match files {
        [] => "",
        [first, ..] => first.package.text(),
    }
}

// The typed package, by what is known of it, what its declarations come to, the edition and the
// names of its files.
fn typed_package(
    alloc: Global,
    edition: Edition,
    facts: &Facts<'_>,
    names: &[&str],
    files: &[&File],
    bodies: Bodies,
) -> Result<Typed, AllocError>
    requires initializations { initial_in bodies ≡ of_files (top_initializations (facts_of facts.now) (texts_in names.now)) 0 (files_of files.now) }
    requires uses { uses_in bodies ≡ of_files (top_uses (facts_of facts.now)) 0 (files_of files.now) }
    requires functions { functions_in bodies ≡ of_files (top_functions (facts_of facts.now)) 0 (files_of files.now) }
    ensures { IfOk result (λ t. typed_of t ≡ typed_package edition (facts_of facts.now) (texts_in names.now) (files_of files.now)) }
{
    let package = facts.package();
    let known = facts.known();
    Ok(Typed {
        path: String::from_str(alloc, package.path)?,
        name: String::from_str(alloc, package_name(files))?,
        edition,
        constants: constants_in(alloc, known)?,
        types: types_in(alloc, known)?,
        variables: variables_in(alloc, names, known, package.objects.list())?,
        initializations: bodies.initializations,
        uses: bodies.uses,
        functions: with_numbers(alloc, bodies.functions)?,
    })
}

/// The typed package at a path that some files of an edition are, or its first fault. The files come
/// in ascending order of their names and have one package name, and may import some packages, the
/// library fmt among them.
///
/// `Faulty` has the number of its file and its place: the first node in declaration order, parts
/// before the whole and left to right, that breaks a rule, while all that it stands on is known; then
/// the first constant that isn't fine though its specification was passed over; then the first name
/// main or init that isn't such a function; then, at the first file's package name, that a package
/// named main has no function main. [Packages](https://go.dev/ref/spec#Packages)
pub fn typed<'a>(
    alloc: Global,
    path: &'a str,
    edition: Edition,
    names: &[&str],
    files: &[&'a File],
    packages: &[Importable<'a>],
) -> Result<Typed, DeclError>
    ensures good { IfOk result (λ t. IsTypedIn edition (package_in edition path.now (files_of files.now) (importables_of packages.now)) (files_of files.now)
        (importables_of packages.now) (texts_in names.now) (typed_of t)) }
    ensures faulty { (file : ℕ) (place : Place) (kind : FaultKind) → result ≡ Err (errors.Faulty file place kind)
        → IsFaultOf edition path.now (files_of files.now) (importables_of packages.now) (Some (file, (place, kind))) }
{
    let packages = Packages::new(alloc, packages)?;
    let package = package_of(alloc, edition, path, files, &packages)?;
    typed_in(alloc, &packages, &package, edition, names, files)
}

fn typed_in<'a>(
    alloc: Global,
    packages: &Packages<'_, 'a>,
    package: &Package<'_>,
    edition: Edition,
    names: &[&str],
    files: &[&'a File],
) -> Result<Typed, DeclError>
    ensures { TypesIn edition (package_of «package».now) (files_of files.now) (importables_of packages.now.all.now) (texts_in names.now) result }
{
    let known = table(alloc, package)?;
    let facts = Facts::new(alloc, package, &known)?;
    let bodies = check_facts(alloc, packages, &facts, names, files)?;
    Ok(typed_package(alloc, edition, &facts, names, files, bodies)?)
}
