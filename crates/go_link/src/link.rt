//! Linking: objects become an image.
ghost use Rattle.std.specs.Prelude.{◌≡◌, ◌<◌, length, map, IfOk, IfErr, OnOk, slice_get, Some, None};
ghost use Rattle.std.specs.Arc.{arc_value};
ghost use Rattle.std.specs.List.{All};
ghost use Rattle.go_link.specs.Links.{IsLinkRefusal, Links, objects_in_order, link_refusal, linked, function_symbols as names_of, variables};
ghost use Rattle.go_link.specs.declared.link.LinkError.TheVariants.{Memory};

use crate::code::{link_functions, link_globals};
use crate::editions::{edition_of, editions_differ};
use crate::missing::name_missing;
use crate::names::{Names, collect_names};
use crate::places::{Places, collect_places};
use crate::starts::{has_main, link_starts};
use go_code::image::Image;
use go_code::object::Object;
use std::alloc::{AllocError, Global};
use std::sync::Arc;
use thiserror::Error;

/// Why objects are not linked.
#[derive(Debug, Drop, Error)]
pub enum LinkError {
    /// There is no object, or the last one isn't of a package named main with a function main.
    #[error("no main")]
    NoMain,
    /// An instruction refers to a function or a variable that no object has.
    #[error("a name is missing")]
    NameMissing,
    /// An object is of another edition than the last.
    #[error("the editions differ")]
    EditionsDiffer,
    /// Memory ran out.
    #[error("out of memory")]
    Memory,
}

impl From<AllocError> for LinkError {
    ghost from_gives = { λ _ e. e ≡ Memory };

    fn from(_e: AllocError) -> LinkError {
        LinkError::Memory
    }
}

/// Another owner of the object at an index.
fn object_at(objects: &[Arc<Object>], index: usize) -> Result<Arc<Object>, AllocError>
    requires { index < length objects.now }
    ensures { IfOk result (λ object. slice_get (map arc_value objects.now) index ≡ Some (arc_value object)) }
{
    objects[index].clone()
}

/// The objects at these indexes, which share the contents. An `Err` only where memory ran out.
fn packages_in_order(
    alloc: Global,
    objects: &[Arc<Object>],
    order: &[usize],
) -> Result<Vec<Arc<Object>>, AllocError>
    requires { All (λ index. index < length objects.now) order.now }
    ensures { IfOk result (λ packages. map arc_value packages.items ≡ objects_in_order (map arc_value objects.now) order.now) }
{
    let mut packages = Vec::new(alloc);
    for index in order {
        packages.push(object_at(objects, *index)?)?;
    }
    Ok(packages)
}

/// The image of packages, once it is known that they have a main, that no name is missing
/// and that they are of one edition.
fn image_of<'a>(
    alloc: Global,
    names: &Names<'a>,
    places: &Places<'a>,
    packages: &'a [Arc<Object>],
) -> Result<Image, AllocError>
    requires functions { names.now ≡ names_of (map arc_value packages.now) }
    requires variables { places.now ≡ variables (map arc_value packages.now) }
    ensures { IfOk result (λ image. image ≡ linked (map arc_value packages.now)) }
{
    let edition = edition_of(packages);
    let globals = link_globals(alloc, packages)?;
    let functions = link_functions(alloc, names, places, packages)?;
    let starts = link_starts(alloc, names, places, packages)?;
    Ok(Image::new(edition, globals, functions, starts))
}

/// The image of packages in their order.
fn link_packages(alloc: Global, packages: &[Arc<Object>]) -> Result<Image, LinkError>
    ensures linked { IfOk result (λ image. image ≡ linked (map arc_value packages.now)) }
    ensures allowed { OnOk result (link_refusal (map arc_value packages.now) ≡ None) }
    ensures refused { IfErr result (λ e. IsLinkRefusal e (link_refusal (map arc_value packages.now))) }
{
    if !has_main(packages) {
        return Err(LinkError::NoMain);
    }
    let names = collect_names(alloc, packages)?;
    let places = collect_places(alloc, packages)?;
    if name_missing(&names, &places, packages) {
        return Err(LinkError::NameMissing);
    }
    if editions_differ(packages) {
        return Err(LinkError::EditionsDiffer);
    }
    Ok(image_of(alloc, &names, &places, packages)?)
}

/// The image of a program's objects, in the order in which their packages are initialized, by
/// their indexes. The image has the variables and the functions package by package, and the start
/// steps: each package's setups and inits, package by package, and then the last one's main.
///
/// An `Err` is the first that holds of `NoMain`, `NameMissing` and `EditionsDiffer`, or says that
/// memory ran out.
/// A symbol means the first function or variable of its path and name; where the paths of packages
/// and the names in a package differ there is one at most.
pub fn link(alloc: Global, objects: &[Arc<Object>], order: &[usize]) -> Result<Image, LinkError>
    requires indexes { All (λ index. index < length objects.now) order.now }
    ensures linked { IfOk result (λ image. Links (map arc_value objects.now) order.now image) }
    ensures refused { IfErr result (λ e. IsLinkRefusal e (link_refusal (objects_in_order (map arc_value objects.now) order.now))) }
{
    let packages = packages_in_order(alloc, objects, order)?;
    link_packages(alloc, &packages)
}
