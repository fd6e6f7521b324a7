//! What the declarations of files declare, in their order, under names that may be blank or doubled.
ghost use Rattle.std.specs.Prelude.{◌≡◌, ◌++◌, [], None, map, length, OnOk, IfOk};
ghost use Rattle.std.specs.List.{flat_map};
ghost use Rattle.go_ast.specs.Trees.{no_exprs};
ghost use Rattle.go_ast.specs.Trees as trees;
ghost use Rattle.go_ast.specs.Views.{type_of, expr_of, exprs_in, const_of, var_of, type_spec_of, function_of, top_of, file_of};
ghost use Rattle.go_scope.specs.Specifications as specifications;
ghost use Rattle.go_objects.specs.Objects.{begin_of, unpaired, constants_of, in_group, typed_object, result_objects, uncounted, variables_of, type_object, objects_in, objects_from};
ghost use Rattle.go_objects.specs.Views.{object_view, spec_of};

use crate::object::{Form, Object};
use go_ast::declaration::{ConstSpec, Decl, TypeSpec, VarSpec};
use go_ast::expression::{Expr, TypeExpr};
use go_ast::file::{File, Function, TopLevel};
use go_ast::name::Name;
use go_text::place::Place;
use std::alloc::{AllocError, Global};

/// What some files declare, under names that may be blank or doubled. An `Err` only where memory ran
/// out.
pub fn all_objects<'a>(alloc: Global, files: &[&'a File]) -> Result<Vec<Object<'a>>, AllocError>
    ensures { IfOk result (λ found. map object_view found.items ≡ objects_from 0 (map (λ f. file_of f.now) files.now)) }
{
    let mut found = Vec::new(alloc);
    for (number, file) in files.iter().enumerate() {
        add_file(number, *file, &mut found)?;
    }
    Ok(found)
}

fn add_file<'a>(
    number: usize,
    file: &'a File,
    found: &mut Vec<Object<'a>>,
) -> Result<(), AllocError>
    ensures { OnOk result (map object_view found.new.items ≡ map object_view found.old.items ++ flat_map (objects_in number) (file_of file.now).declarations) }
{
    for top in &file.declarations {
        add_objects(number, top, found)?;
    }
    Ok(())
}

fn add_objects<'a>(
    file: usize,
    top: &'a TopLevel,
    found: &mut Vec<Object<'a>>,
) -> Result<(), AllocError>
    ensures { OnOk result (map object_view found.new.items ≡ map object_view found.old.items ++ objects_in file (top_of top.now)) }
{
    match top {
        TopLevel::Declared(Decl::Constants(_, specs)) => add_group(file, specs, found),
        TopLevel::Declared(Decl::Variables(_, specs)) => add_all_variables(file, specs, found),
        TopLevel::Declared(Decl::Types(_, specs)) => add_types(file, specs, found),
        TopLevel::Function(function) => add_function(file, function, found),
    }
}

/// A specification of constants or variables, with the type and the values that it means.
#[derive(Clone, Copy)]
pub struct Spec<'a> {
    /// Its names.
    pub names: &'a [Name],
    /// The type, if one is written.
    pub type_expr: Option<&'a TypeExpr>,
    /// The values.
    pub values: &'a [Expr],
}

/// What a specification of constants means behind another: without values the type and the values
/// of that one. [Constant declarations](https://go.dev/ref/spec#Constant_declarations)
pub fn meant<'a>(before: Spec<'a>, spec: &'a ConstSpec) -> Spec<'a>
    ensures { spec_of result ≡ specifications.meant (spec_of before.entry) (const_of spec.now) }
{
    let names = spec.names.as_slice();
    let values = spec.values.as_slice();
    if values.is_empty() {
        return Spec { names, ..before };
    }
    Spec {
        names,
        type_expr: spec.type_expr.as_ref(),
        values,
    }
}

fn add_group<'a>(
    file: usize,
    specs: &'a [ConstSpec],
    found: &mut Vec<Object<'a>>,
) -> Result<(), AllocError>
    ensures { OnOk result (map object_view found.new.items
        ≡ map object_view found.old.items ++ in_group file 0 (record { names = []; type = None; values = no_exprs }) (map const_of specs.now)) }
{
    let mut before = Spec {
        names: &[],
        type_expr: None,
        values: &[],
    };
    for (iota, spec) in specs.iter().enumerate() {
        before = meant(before, spec);
        add_constants(file, iota as u64, before, found)?;
    }
    Ok(())
}

/// What a specification of constants declares, by what it means. An `Err` only where memory ran out.
pub fn constants_of<'a>(
    alloc: Global,
    file: usize,
    iota: u64,
    spec: Spec<'a>,
) -> Result<Vec<Object<'a>>, AllocError>
    ensures { IfOk result (λ found. map object_view found.items ≡ constants_of file iota (spec_of spec.entry)) }
{
    let mut found = Vec::new(alloc);
    add_constants(file, iota, spec, &mut found)?;
    Ok(found)
}

fn add_constants<'a>(
    file: usize,
    iota: u64,
    spec: Spec<'a>,
    found: &mut Vec<Object<'a>>,
) -> Result<(), AllocError>
    ensures { OnOk result (map object_view found.new.items ≡ map object_view found.old.items ++ constants_of file iota (spec_of spec.entry)) }
{
    if spec.names.len() == spec.values.len() {
        add_paired_constants(file, iota, spec, found)
    } else {
        add_unpaired(file, spec, found)
    }
}

fn add_paired_constants<'a>(
    file: usize,
    iota: u64,
    spec: Spec<'a>,
    found: &mut Vec<Object<'a>>,
) -> Result<(), AllocError>
    requires { length spec.names.now ≡ length spec.values.now }
    ensures { OnOk result (map object_view found.new.items ≡ map object_view found.old.items ++ constants_of file iota (spec_of spec.entry)) }
{
    for (name, value) in spec.names.iter().zip(spec.values) {
        found.push(Object {
            file,
            begins: begin_of(spec.names, name),
            name,
            form: Form::Constant {
                type_expr: spec.type_expr,
                value,
                iota,
            },
        })?;
    }
    Ok(())
}

// The specification of some names, and of this one, begins at the first of them.
fn begin_of(names: &[Name], name: &Name) -> Place
    ensures { result ≡ begin_of names.now name.now }
{
    match names.first() {
        Some(first) => first.place(),
        None => name.place(),
    }
}

// Each name with all that stands in its specification.
fn add_unpaired<'a>(
    file: usize,
    spec: Spec<'a>,
    found: &mut Vec<Object<'a>>,
) -> Result<(), AllocError>
    ensures { OnOk result (map object_view found.new.items
        ≡ map object_view found.old.items ++ unpaired file (spec_of spec.entry).type (spec_of spec.entry).values (spec_of spec.entry).names) }
{
    for name in spec.names {
        found.push(Object {
            file,
            begins: begin_of(spec.names, name),
            name,
            form: Form::Other(spec.type_expr, spec.values),
        })?;
    }
    Ok(())
}

/// What a specification of variables declares. An `Err` only where memory ran out.
pub fn variables_of<'a>(
    alloc: Global,
    file: usize,
    spec: &'a VarSpec,
) -> Result<Vec<Object<'a>>, AllocError>
    ensures { IfOk result (λ found. map object_view found.items ≡ variables_of file (var_of spec.now)) }
{
    let mut found = Vec::new(alloc);
    add_variables(file, spec, &mut found)?;
    Ok(found)
}

// Variables of a type that is written, or else each with its own value, or with its place among the
// results of a call.
fn add_variables<'a>(
    file: usize,
    spec: &'a VarSpec,
    found: &mut Vec<Object<'a>>,
) -> Result<(), AllocError>
    ensures { OnOk result (map object_view found.new.items ≡ map object_view found.old.items ++ variables_of file (var_of spec.now)) }
{
    let names = spec.names.as_slice();
    let values = spec.values.as_slice();
    match &spec.type_expr {
        Some(type_expr) => add_typed_variables(file, names, type_expr, found),
        None => add_valued_variables(file, names, values, found),
    }
}

fn add_typed_variables<'a>(
    file: usize,
    names: &'a [Name],
    type_expr: &'a TypeExpr,
    found: &mut Vec<Object<'a>>,
) -> Result<(), AllocError>
    ensures { OnOk result (map object_view found.new.items ≡ map object_view found.old.items ++ map (typed_object file names.now (type_of type_expr.now)) names.now) }
{
    for name in names {
        found.push(Object {
            file,
            begins: begin_of(names, name),
            name,
            form: Form::TypedVariable(type_expr),
        })?;
    }
    Ok(())
}

fn add_valued_variables<'a>(
    file: usize,
    names: &'a [Name],
    values: &'a [Expr],
    found: &mut Vec<Object<'a>>,
) -> Result<(), AllocError>
    ensures { OnOk result (map object_view found.new.items
        ≡ map object_view found.old.items ++ variables_of file (record { names = names.now; type = None; values = exprs_in values.now })) }
{
    if names.len() == values.len() {
        add_paired_variables(file, names, values, found)
    } else {
        add_uncounted(file, names, values, found)
    }
}

// Where there aren't as many values as names, one may be a call.
fn add_uncounted<'a>(
    file: usize,
    names: &'a [Name],
    values: &'a [Expr],
    found: &mut Vec<Object<'a>>,
) -> Result<(), AllocError>
    ensures { OnOk result (map object_view found.new.items ≡ map object_view found.old.items ++ uncounted file names.now (exprs_in values.now)) }
{
    if values.len() == 1 {
        return add_result_variables(file, names, &values[0], found);
    }
    let untyped = Spec {
        names,
        type_expr: None,
        values,
    };
    add_unpaired(file, untyped, found)
}

fn add_result_variables<'a>(
    file: usize,
    names: &'a [Name],
    value: &'a Expr,
    found: &mut Vec<Object<'a>>,
) -> Result<(), AllocError>
    ensures { OnOk result (map object_view found.new.items
        ≡ map object_view found.old.items ++ result_objects file names.now 0 (expr_of value.now) names.now) }
{
    for (number, name) in names.iter().enumerate() {
        found.push(Object {
            file,
            begins: begin_of(names, name),
            name,
            form: Form::ResultVariable(number, names.len(), value),
        })?;
    }
    Ok(())
}

fn add_paired_variables<'a>(
    file: usize,
    names: &'a [Name],
    values: &'a [Expr],
    found: &mut Vec<Object<'a>>,
) -> Result<(), AllocError>
    requires { length names.now ≡ length values.now }
    ensures { OnOk result (map object_view found.new.items
        ≡ map object_view found.old.items ++ variables_of file (record { names = names.now; type = None; values = exprs_in values.now })) }
{
    for (name, value) in names.iter().zip(values) {
        found.push(Object {
            file,
            begins: begin_of(names, name),
            name,
            form: Form::ValuedVariable(value),
        })?;
    }
    Ok(())
}

fn add_all_variables<'a>(
    file: usize,
    specs: &'a [VarSpec],
    found: &mut Vec<Object<'a>>,
) -> Result<(), AllocError>
    ensures { OnOk result (map object_view found.new.items ≡ map object_view found.old.items ++ flat_map (variables_of file) (map var_of specs.now)) }
{
    for spec in specs {
        add_variables(file, spec, found)?;
    }
    Ok(())
}

fn add_types<'a>(
    file: usize,
    specs: &'a [TypeSpec],
    found: &mut Vec<Object<'a>>,
) -> Result<(), AllocError>
    ensures { OnOk result (map object_view found.new.items ≡ map object_view found.old.items ++ map (type_object file) (map type_spec_of specs.now)) }
{
    for spec in specs {
        found.push(Object {
            file,
            begins: spec.name.place(),
            name: &spec.name,
            form: Form::Type(&spec.type_expr),
        })?;
    }
    Ok(())
}

// A function stands on its signature; init declares no name.
fn add_function<'a>(
    file: usize,
    function: &'a Function,
    found: &mut Vec<Object<'a>>,
) -> Result<(), AllocError>
    ensures { OnOk result (map object_view found.new.items ≡ map object_view found.old.items ++ objects_in file (trees.function (function_of function.now))) }
{
    if function.name.text() == "init" {
        return Ok(());
    }
    found.push(Object {
        file,
        begins: function.name.place(),
        name: &function.name,
        form: Form::Function(&function.parameters, &function.results),
    })?;
    Ok(())
}
