//! Specifications that hide one another: the constants and variables in them, each by itself.
ghost use Rattle.std.specs.Prelude.{map};
ghost use Rattle.std.specs.List.{flat_map};
ghost use Rattle.go_objects.specs.Views.{object_view};
ghost use Rattle.go_package.specs.Views.{files_of, facts_of, FindsIn};
ghost use Rattle.go_package.specs.Packages.{objects_faults, numbered_faults};

use crate::apart::check_object;
use crate::check::numbered;
use crate::error::DeclError;
use crate::facts::Facts;
use go_ast::file::File;
use go_objects::declarations::all_objects;
use go_objects::object::Object;
use std::alloc::Global;

/// The first fault of a constant, or of a variable without a type, by itself, with its file, whether its
/// name is blank or not.
pub(crate) fn check_constants(
    alloc: Global,
    facts: &Facts<'_>,
    files: &[&File],
) -> Result<(), DeclError>
    ensures { FindsIn result (objects_faults (facts_of facts.now) (files_of files.now)) }
{
    let objects = all_objects(alloc, files)?;
    check_each(alloc, facts, &objects)
}

fn check_each(alloc: Global, facts: &Facts<'_>, objects: &[Object<'_>]) -> Result<(), DeclError>
    ensures { FindsIn result (flat_map (numbered_faults (facts_of facts.now)) (map object_view objects.now)) }
{
    for object in objects {
        check_numbered(alloc, facts, object)?;
    }
    Ok(())
}

fn check_numbered(alloc: Global, facts: &Facts<'_>, object: &Object<'_>) -> Result<(), DeclError>
    ensures { FindsIn result (numbered_faults (facts_of facts.now) (object_view object.now)) }
{
    numbered(object.file, check_object(alloc, facts, object))
}
