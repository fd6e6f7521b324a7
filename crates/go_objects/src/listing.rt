//! The list of what a package declares.
ghost use Rattle.std.specs.Prelude.{◌≡◌, None, map, IfOk};
ghost use Rattle.go_ast.specs.Views.{file_of};
ghost use Rattle.go_expr.specs.Views.{names_of};
ghost use Rattle.go_objects.specs.Objects.{objects_of};
ghost use Rattle.go_objects.specs.Table.{number_of};
ghost use Rattle.go_objects.specs.Views.{object_view};
ghost use Rattle.go_objects.specs.Packages.{declared_objects};

use crate::declarations::all_objects;
use crate::object::Object;
use crate::objects::Objects;
use go_ast::file::File;
use go_expr::known::Names;
use indexmap::{IndexMap, IndexSet};
use std::alloc::{AllocError, Global};

impl<'a> Objects<'a> {
    /// The objects in their order.
    pub fn list(&self) -> &[Object<'a>]
        ensures { map object_view result.now ≡ declared_objects self.now }
    {
        &self.list
    }

    /// The number of the object of a name.
    pub fn number_of(&self, name: &str) -> Option<usize>
        ensures { result ≡ number_of (declared_objects self.now) name.now }
    {
        self.names.get_index_of(name)
    }

    /// A table of the objects in which nothing is known. An `Err` only where memory ran out.
    pub(crate) fn unknown(&self, alloc: Global) -> Result<Names, AllocError>
        ensures { IfOk result (λ known. names_of known ≡ map (λ o. (o.name.text, None)) (declared_objects self.now)) }
    {
        let mut known = IndexMap::new(alloc);
        for object in &self.list {
            known.insert(String::from_str(alloc, object.name.text())?, None)?;
        }
        Ok(known)
    }
}

/// What the files of a package declare. Of several declarations of one name the first counts. An
/// `Err` only where memory ran out.
/// [Declarations and scope](https://go.dev/ref/spec#Declarations_and_scope)
pub fn objects_of<'a>(alloc: Global, files: &[&'a File]) -> Result<Objects<'a>, AllocError>
    ensures { IfOk result (λ objects. declared_objects objects ≡ objects_of (map (λ f. file_of f.now) files.now)) }
{
    let mut list = Vec::new(alloc);
    let mut names = IndexSet::new(alloc);
    for object in all_objects(alloc, files)? {
        let name = object.name.text();
        if name == "_" {
            continue;
        }
        if names.insert(name)? {
            list.push(object)?;
        }
    }
    Ok(Objects { list, names })
}
