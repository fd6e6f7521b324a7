//! What a package declares and exports, in byte order of names.
ghost use Rattle.std.specs.Prelude.{◌≡◌, ◌++◌, OnOk, IfOk, map};
ghost use Rattle.go_typed.specs.Views.{constant_of, as_name, variable_of, as_function, typed_of};
ghost use Rattle.go_export.specs.Exports.{only_exported, named_constant, exported_type, named_variable, named_function, sorted_by_name, exports_of};
ghost use Rattle.go_export.specs.Views.{all_exports};

use crate::export::Export;
use go_typed::package::{Typed, TypedConstant, TypedFunction, TypedName, TypedVariable};
use go_types::names::is_exported;
use std::alloc::{AllocError, Global};
use std::collections::BTreeMap;

/// A name and what it exports.
type Named = (String, Export);

/// The constants whose names are exported come behind the others.
fn push_constants(exports: &mut Vec<Named>, constants: &[TypedConstant]) -> Result<(), AllocError>
    ensures { OnOk result (all_exports exports.new.items ≡ all_exports exports.old.items ++ only_exported (map named_constant (map constant_of constants.now))) }
{
    for constant in constants {
        if is_exported(&constant.name) {
            exports.push((constant.name.clone()?, Export::of_constant(constant)?))?;
        }
    }
    Ok(())
}

/// The types whose names are exported come behind the others.
fn push_types(exports: &mut Vec<Named>, types: &[TypedName]) -> Result<(), AllocError>
    ensures { OnOk result (all_exports exports.new.items ≡ all_exports exports.old.items ++ only_exported (map exported_type (map as_name types.now))) }
{
    for named in types {
        if is_exported(&named.name) {
            exports.push((named.name.clone()?, Export::of_type(named)?))?;
        }
    }
    Ok(())
}

/// The variables whose names are exported come behind the others.
fn push_variables(exports: &mut Vec<Named>, variables: &[TypedVariable]) -> Result<(), AllocError>
    ensures { OnOk result (all_exports exports.new.items ≡ all_exports exports.old.items ++ only_exported (map named_variable (map variable_of variables.now))) }
{
    for variable in variables {
        if is_exported(&variable.name) {
            exports.push((variable.name.clone()?, Export::of_variable(variable)?))?;
        }
    }
    Ok(())
}

/// The functions whose names are exported come behind the others.
fn push_functions(
    alloc: Global,
    exports: &mut Vec<Named>,
    functions: &[TypedFunction],
) -> Result<(), AllocError>
    ensures { OnOk result (all_exports exports.new.items ≡ all_exports exports.old.items ++ only_exported (map named_function (map as_function functions.now))) }
{
    for function in functions {
        if is_exported(&function.name) {
            exports.push((
                function.name.clone()?,
                Export::of_function(alloc, function)?,
            ))?;
        }
    }
    Ok(())
}

/// Names with what they export, in byte order; of several with one name the first stays.
fn ordered(alloc: Global, exports: Vec<Named>) -> Result<BTreeMap<String, Export>, AllocError>
    ensures { IfOk result (λ all. all_exports all.entries ≡ sorted_by_name (all_exports exports.items)) }
{
    let mut rest = exports;
    let mut all = BTreeMap::new(alloc);
    while let Some((name, export)) = rest.pop() {
        drop(all.insert(name, export)?);
    }
    Ok(all)
}

/// What a package exports. An `Err` only where memory ran out.
pub(crate) fn exports_of(
    alloc: Global,
    typed: &Typed,
) -> Result<BTreeMap<String, Export>, AllocError>
    ensures { IfOk result (λ all. all_exports all.entries ≡ exports_of (typed_of typed.now)) }
{
    let mut exports = Vec::new(alloc);
    push_constants(&mut exports, &typed.constants)?;
    push_types(&mut exports, &typed.types)?;
    push_variables(&mut exports, &typed.variables)?;
    push_functions(alloc, &mut exports, &typed.functions)?;
    ordered(alloc, exports)
}
