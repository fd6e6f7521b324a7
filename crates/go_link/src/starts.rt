//! Start steps.
ghost use Rattle.std.specs.Prelude.{◌≡◌, ◌++◌, OnOk, IfOk, map, codes};
ghost use Rattle.std.specs.Arc.{arc_value};
ghost use Rattle.std.specs.List.{flat_map, filter, list_any};
ghost use Rattle.std.specs.Str.{bytes_eq};
ghost use Rattle.go_link.specs.Links.{has_main, is_init_symbol, last_object, linked_setup, main_start, package_starts, start_of};

use crate::code::link_code;
use crate::names::Names;
use crate::places::Places;
use go_code::image::Start;
use go_code::object::Object;
use go_code::object::function::PackageFunction;
use go_code::setup::Setup;
use go_symbol::Symbol;
use std::alloc::{AllocError, Global};
use std::sync::Arc;

/// The name of the function that a program runs at last, and of its package.
const MAIN: &str = "main";

/// Whether a function is called as its package is initialized.
fn is_init(function: &PackageFunction) -> bool
    ensures { result ≡ is_init_symbol function.now }
{
    function.name().starts_with("init.")
}

/// A package's setups come behind other start steps.
fn push_setups<'a>(
    alloc: Global,
    starts: &mut Vec<Start>,
    names: &Names<'a>,
    places: &Places<'a>,
    setups: &'a [Setup<Symbol>],
) -> Result<(), AllocError>
    ensures { OnOk result (starts.new.items ≡ starts.old.items ++ map (linked_setup names.now places.now) setups.now) }
{
    for setup in setups {
        let code = link_code(alloc, names, places, setup.code())?;
        starts.push(Start::Setup(Setup::new(setup.cells(), code)))?;
    }
    Ok(())
}

/// A package's inits come behind other start steps.
fn push_inits<'a>(
    starts: &mut Vec<Start>,
    names: &Names<'a>,
    object: &'a Object,
) -> Result<(), AllocError>
    ensures { OnOk result (starts.new.items ≡ starts.old.items ++ map (λ f. start_of names.now object.now f.name) (filter is_init_symbol object.now.functions)) }
{
    let functions = object.functions();
    for function in functions {
        if is_init(function) {
            let number = names.number_of(object.path(), function.name());
            starts.push(Start::Function(number))?;
        }
    }
    Ok(())
}

/// The setups and the inits of a package come behind other start steps.
fn push_package<'a>(
    alloc: Global,
    starts: &mut Vec<Start>,
    names: &Names<'a>,
    places: &Places<'a>,
    object: &'a Object,
) -> Result<(), AllocError>
    ensures { OnOk result (starts.new.items ≡ starts.old.items ++ package_starts names.now places.now object.now) }
{
    push_setups(alloc, starts, names, places, object.setups())?;
    push_inits(starts, names, object)
}

/// The main function of the last package comes behind other start steps.
fn push_main<'a>(
    starts: &mut Vec<Start>,
    names: &Names<'a>,
    packages: &'a [Arc<Object>],
) -> Result<(), AllocError>
    ensures { OnOk result (starts.new.items ≡ starts.old.items ++ main_start names.now (last_object (map arc_value packages.now))) }
{
    if let Some(object) = packages.last() {
        let number = names.number_of(object.path(), MAIN);
        starts.push(Start::Function(number))?;
    }
    Ok(())
}

/// The start steps of packages, in their order. An `Err` only where memory ran out.
pub(crate) fn link_starts<'a>(
    alloc: Global,
    names: &Names<'a>,
    places: &Places<'a>,
    packages: &'a [Arc<Object>],
) -> Result<Vec<Start>, AllocError>
    ensures { IfOk result (λ starts. starts.items
        ≡ flat_map (package_starts names.now places.now) (map arc_value packages.now) ++ main_start names.now (last_object (map arc_value packages.now))) }
{
    let mut starts = Vec::new(alloc);
    for object in packages {
        push_package(alloc, &mut starts, names, places, object)?;
    }
    push_main(&mut starts, names, packages)?;
    Ok(starts)
}

/// Whether a function is named main.
fn has_main_function(functions: &[PackageFunction]) -> bool
    ensures { result ≡ list_any (λ f. bytes_eq f.name (codes "main")) functions.now }
{
    functions.iter().any(|function| function.name() == MAIN)
}

/// Whether the last package is named main and has a function main.
pub(crate) fn has_main(packages: &[Arc<Object>]) -> bool
    ensures { result ≡ has_main (map arc_value packages.now) }
{
    match packages.last() {
        None => false,
        Some(object) => object.name() == MAIN && has_main_function(object.functions()),
    }
}
