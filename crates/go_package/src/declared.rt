//! The faults of declared names.
ghost use Rattle.std.specs.Prelude.{◌≡◌, slice_get};
ghost use Rattle.std.specs.List.{flat_map};
ghost use Rattle.go_objects.specs.Packages.{package_of};
ghost use Rattle.go_package.specs.Faults.{is_declared_by, name_faults};
ghost use Rattle.go_package.specs.Views.{facts_of, Finds};

use crate::facts::Facts;
use go_ast::name::Name;
use go_expr::error::ExprError;
use go_objects::package::Package;
use go_text::fault::FaultKind;

// Whether an object of a package is what a name of a file declares.
fn is_declared_by(package: &Package<'_>, number: usize, file: usize, name: &Name) -> bool
    ensures { result ≡ is_declared_by file name.now (slice_get (package_of «package».now).objects number) }
{
    let Some(object) = package.objects.list().get(number) else {
        return false;
    };
    let place = name.place();
    let other = object.name.place();
    file == object.file && place.line == other.line && place.column == other.column
}

/// The fault of a name of a file: `Redeclared` where another declaration before has the name,
/// `Recursive` where what it declares depends on itself.
/// [Declarations and scope](https://go.dev/ref/spec#Declarations_and_scope)
pub(crate) fn check_name(facts: &Facts<'_>, file: usize, name: &Name) -> Result<(), ExprError>
    ensures { Finds result (name_faults (facts_of facts.now) file name.now) }
{
    let package = facts.package();
    let Some(number) = package.objects.number_of(name.text()) else {
        return Ok(());
    };
    if !is_declared_by(package, number, file, name) {
        return Err(ExprError::Faulty(name.place(), FaultKind::Redeclared));
    }
    if facts.is_recursive(number) {
        return Err(ExprError::Faulty(name.place(), FaultKind::Recursive));
    }
    Ok(())
}

/// The first fault of some names of a file.
pub(crate) fn check_names(facts: &Facts<'_>, file: usize, names: &[Name]) -> Result<(), ExprError>
    ensures { Finds result (flat_map (name_faults (facts_of facts.now) file) names.now) }
{
    for name in names {
        check_name(facts, file, name)?;
    }
    Ok(())
}
