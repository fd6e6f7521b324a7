//! A package, and which of its objects stand on which.
ghost use Rattle.std.specs.Prelude.{◌≡◌, ◌++◌, map, false, option_map, IfOk, OnOk};
ghost use Rattle.std.specs.List.{flat_map};
ghost use Rattle.go_ast.specs.Trees as trees;
ghost use Rattle.go_ast.specs.Views.{type_of, exprs_in, parameter_of};
ghost use Rattle.go_scope.specs.Names.{in_type, in_exprs, used};
ghost use Rattle.ws_reach.specs.Reach.{EdgesStayWithin, rows_of};
ghost use Rattle.go_objects.specs.Table.{in_written, used_by, is_hidden, imports_at, needs, rows};
ghost use Rattle.go_objects.specs.Views.{form_of, object_view, spec_of};
ghost use Rattle.go_objects.specs.Packages.{declared_imports, package_of};

use crate::declarations::Spec;
use crate::object::{Form, Object};
use crate::objects::Objects;
use go_ast::expression::{Expr, TypeExpr};
use go_ast::file::Parameter;
use go_expr::scope::Import;
use go_scope::names::{UsedName, add_names, add_type_names};
use go_text::edition::Edition;
use std::alloc::{AllocError, Global};

/// A package: its path, the imports of each of its files, and what its files declare.
#[derive(Drop)]
pub struct Package<'a> {
    /// Its path.
    pub path: &'a str,
    /// The edition of its files.
    pub edition: Edition,
    /// Of each file what its imports declare.
    pub imports: Vec<Vec<Import<'a>>>,
    /// What its files declare.
    pub objects: Objects<'a>,
}

/// Of each object the numbers of those that it names: the graph for `order_of` and
/// `depends_on_itself`. An `Err` only where memory ran out.
pub fn rows(alloc: Global, package: &Package<'_>) -> Result<Vec<Vec<usize>>, AllocError>
    ensures rows { IfOk result (λ found. rows_of found.items ≡ rows (package_of «package».now)) }
    ensures within { IfOk result (λ found. EdgesStayWithin (rows_of found.items)) }
{
    let mut found = Vec::new(alloc);
    for object in package.objects.list() {
        found.push(needs(alloc, package, object)?)?;
    }
    Ok(found)
}

// The numbers of the objects that an object names.
fn needs(
    alloc: Global,
    package: &Package<'_>,
    object: &Object<'_>,
) -> Result<Vec<usize>, AllocError>
    ensures { IfOk result (λ row. row.items ≡ needs (package_of «package».now) (object_view object.now)) }
{
    let mut names = Vec::new(alloc);
    add_used(object.form, &mut names)?;
    let imports = imports_at(package, object.file);
    let mut row = Vec::new(alloc);
    for name in &names {
        if is_hidden(imports, name.text) {
            continue;
        }
        if let Some(number) = package.objects.number_of(name.text) {
            row.push(number)?;
        }
    }
    Ok(row)
}

/// What the imports of a file declare.
pub fn imports_at<'a>(package: &'a Package<'a>, file: usize) -> &'a [Import<'a>]
    ensures { declared_imports result.now ≡ imports_at (package_of «package».now) file }
{
    match package.imports.get(file) {
        Some(imports) => imports.as_slice(),
        None => &[],
    }
}

// Whether one of some imports has a name.
fn is_hidden(imports: &[Import<'_>], name: &str) -> bool
    ensures { result ≡ is_hidden (declared_imports imports.now) name.now }
{
    for import in imports {
        if name == import.name {
            return true;
        }
    }
    false
}

/// The names in the type and the values of a specification. An `Err` only where memory ran out.
pub fn spec_names<'a>(alloc: Global, spec: Spec<'a>) -> Result<Vec<UsedName<'a>>, AllocError>
    ensures { IfOk result (λ names. map used names.items ≡ in_written (spec_of spec.entry).type ++ in_exprs (spec_of spec.entry).values) }
{
    let mut names = Vec::new(alloc);
    add_used(Form::Other(spec.type_expr, spec.values), &mut names)?;
    Ok(names)
}

// Adds the names that a form uses.
fn add_used<'a>(form: Form<'a>, names: &mut Vec<UsedName<'a>>) -> Result<(), AllocError>
    ensures { OnOk result (map used names.new.items ≡ map used names.old.items ++ used_by (form_of form.entry)) }
{
    match form {
        Form::Constant {
            type_expr,
            value,
            ..
        } => {
            add_written_names(type_expr, names)?;
            add_names(value, names)
        }
        Form::Type(of) => add_type_names(of, names),
        Form::TypedVariable(of) => add_type_names(of, names),
        Form::ValuedVariable(value) => add_names(value, names),
        Form::ResultVariable(_, _, value) => add_names(value, names),
        Form::Function(parameters, results) => {
            add_parameter_names(parameters, names)?;
            add_all_type_names(results, names)
        }
        Form::Other(type_expr, values) => {
            add_written_names(type_expr, names)?;
            add_all_names(values, names)
        }
    }
}

fn add_written_names<'a>(
    type_expr: Option<&'a TypeExpr>,
    names: &mut Vec<UsedName<'a>>,
) -> Result<(), AllocError>
    ensures { OnOk result (map used names.new.items ≡ map used names.old.items ++ in_written (option_map (λ t. type_of t.now) type_expr.entry)) }
{
    match type_expr {
        Some(type_expr) => add_type_names(type_expr, names),
        None => Ok(()),
    }
}

fn add_parameter_names<'a>(
    parameters: &'a [Parameter],
    names: &mut Vec<UsedName<'a>>,
) -> Result<(), AllocError>
    ensures { OnOk result (map used names.new.items
        ≡ map used names.old.items ++ flat_map (λ (p : trees.Parameter). in_type p.type) (map parameter_of parameters.now)) }
{
    for parameter in parameters {
        add_type_names(&parameter.type_expr, names)?;
    }
    Ok(())
}

fn add_all_type_names<'a>(
    types: &'a [TypeExpr],
    names: &mut Vec<UsedName<'a>>,
) -> Result<(), AllocError>
    ensures { OnOk result (map used names.new.items ≡ map used names.old.items ++ flat_map in_type (map type_of types.now)) }
{
    for of in types {
        add_type_names(of, names)?;
    }
    Ok(())
}

fn add_all_names<'a>(values: &'a [Expr], names: &mut Vec<UsedName<'a>>) -> Result<(), AllocError>
    ensures { OnOk result (map used names.new.items ≡ map used names.old.items ++ in_exprs (exprs_in values.now)) }
{
    for value in values {
        add_names(value, names)?;
    }
    Ok(())
}
