//! The names of a typed package.
ghost use Rattle.std.specs.Prelude.{◌≡◌, map, IfOk, string_bytes};
ghost use Rattle.std.specs.Option.{option_map};
ghost use Rattle.go_typed.specs.Views.{constant_of, as_name, variable_of};
ghost use Rattle.go_expr.specs.Views.{declared_of, names_of};
ghost use Rattle.go_package.specs.Typed.{file_name_at, exported_constant, type_in, constants_in, types_in, declared_at, variable_in, variables_in};
ghost use Rattle.go_objects.specs.Views.{object_view};

use go_expr::known::{Declared, Names};
use go_objects::object::Object;
use go_typed::package::{TypedConstant, TypedName, TypedVariable};
use std::alloc::{AllocError, Global};

// The constant that a name of a package declares.
fn constant_in(
    name: &String,
    declared: &Option<Declared>,
) -> Result<Option<TypedConstant>, AllocError>
    ensures { IfOk result (λ c. option_map constant_of c ≡ exported_constant (string_bytes name.now, option_map declared_of declared.now)) }
{
    let Some(Declared::Constant(of, value)) = declared else {
        return Ok(None);
    };
    Ok(Some(TypedConstant {
        name: name.clone()?,
        of: of.copy()?,
        value: value.copy()?,
    }))
}

// The type that a name of a package declares.
fn type_in(name: &String, declared: &Option<Declared>) -> Result<Option<TypedName>, AllocError>
    ensures { IfOk result (λ t. option_map as_name t ≡ type_in (string_bytes name.now, option_map declared_of declared.now)) }
{
    let Some(Declared::Type(of)) = declared else {
        return Ok(None);
    };
    Ok(Some(TypedName {
        name: name.clone()?,
        of: of.copy()?,
    }))
}

/// The constants among the names of a package. An `Err` only where memory ran out.
/// [Constant declarations](https://go.dev/ref/spec#Constant_declarations)
pub(crate) fn constants_in(alloc: Global, known: &Names) -> Result<Vec<TypedConstant>, AllocError>
    ensures { IfOk result (λ found. map constant_of found.items ≡ constants_in (names_of known.now)) }
{
    let mut found = Vec::new(alloc);
    for (name, declared) in known.iter() {
        if let Some(constant) = constant_in(name, declared)? {
            found.push(constant)?;
        }
    }
    Ok(found)
}

/// The types among the names of a package. An `Err` only where memory ran out.
/// [Type declarations](https://go.dev/ref/spec#Type_declarations)
pub(crate) fn types_in(alloc: Global, known: &Names) -> Result<Vec<TypedName>, AllocError>
    ensures { IfOk result (λ found. map as_name found.items ≡ types_in (names_of known.now)) }
{
    let mut found = Vec::new(alloc);
    for (name, declared) in known.iter() {
        if let Some(of) = type_in(name, declared)? {
            found.push(of)?;
        }
    }
    Ok(found)
}

/// What a package declares under a name, where that is known.
pub(crate) fn declared_at<'a>(known: &'a Names, name: &str) -> Option<&'a Declared>
    ensures { option_map (λ d. declared_of d.now) result ≡ declared_at (names_of known.now) name.now }
{
    match known.get(name) {
        Some(declared) => declared.as_ref(),
        None => None,
    }
}

// The variable that an object is, by the names of the files.
fn variable_in(
    alloc: Global,
    files: &[&str],
    object: &Object<'_>,
    declared: Option<&Declared>,
) -> Result<Option<TypedVariable>, AllocError>
    ensures { IfOk result (λ v. option_map variable_of v
        ≡ variable_in (map (λ f. f.now) files.now) (object_view object.now) (option_map (λ d. declared_of d.now) declared.entry)) }
{
    let Some(Declared::Global(of, _)) = declared else {
        return Ok(None);
    };
    Ok(Some(TypedVariable {
        name: String::from_str(alloc, object.name.text())?,
        of: of.copy()?,
        file: String::from_str(alloc, file_name(files, object.file))?,
        place: object.name.place(),
    }))
}

/// The name of the file of a number.
pub(crate) fn file_name<'a>(files: &[&'a str], number: usize) -> &'a str
    ensures { result.now ≡ file_name_at (map (λ f. f.now) files.now) number }
{
    match files.get(number) {
        Some(name) => *name,
        None => "",
    }
}

/// The variables among the objects of a package, by the names of its files. An `Err` only where
/// memory ran out. [Variable declarations](https://go.dev/ref/spec#Variable_declarations)
pub(crate) fn variables_in(
    alloc: Global,
    files: &[&str],
    known: &Names,
    objects: &[Object<'_>],
) -> Result<Vec<TypedVariable>, AllocError>
    ensures { IfOk result (λ found. map variable_of found.items
        ≡ variables_in (map (λ f. f.now) files.now) (names_of known.now) (map object_view objects.now)) }
{
    let mut found = Vec::new(alloc);
    for object in objects {
        let declared = declared_at(known, object.name.text());
        if let Some(variable) = variable_in(alloc, files, object, declared)? {
            found.push(variable)?;
        }
    }
    Ok(found)
}
