//! The names main and init.
//! [Program execution](https://go.dev/ref/spec#Program_execution)
ghost use Rattle.std.specs.Prelude.{◌≡◌, map};
ghost use Rattle.std.specs.List.{flat_map};
ghost use Rattle.go_ast.specs.Trees as trees;
ghost use Rattle.go_ast.specs.Views.{const_of, var_of, type_spec_of, function_of, top_of, file_of};
ghost use Rattle.go_package.specs.Views.{Finds};
ghost use Rattle.go_package.specs.Packages.{is_reserved_name, reserved_faults, function_name_faults, reserved_names_faults};

use go_ast::declaration::{ConstSpec, Decl, TypeSpec, VarSpec};
use go_ast::file::{File, Function, TopLevel};
use go_ast::name::Name;
use go_expr::error::ExprError;
use go_text::fault::FaultKind;

// Whether nothing may have a name but a function without parameters and results.
fn is_reserved(clause: &str, name: &Name) -> bool
    ensures { result ≡ is_reserved_name clause.now name.now }
{
    name.text() == "init" || (clause == "main" && name.text() == "main")
}

fn check_name(clause: &str, name: &Name) -> Result<(), ExprError>
    ensures { Finds result (reserved_faults clause.now name.now) }
{
    if is_reserved(clause, name) {
        return Err(ExprError::Faulty(name.place(), FaultKind::Main));
    }
    Ok(())
}

fn check_names(clause: &str, names: &[Name]) -> Result<(), ExprError>
    ensures { Finds result (flat_map (reserved_faults clause.now) names.now) }
{
    for name in names {
        check_name(clause, name)?;
    }
    Ok(())
}

fn check_constants(clause: &str, specs: &[ConstSpec]) -> Result<(), ExprError>
    ensures { Finds result (flat_map (λ (s : trees.ConstSpec). flat_map (reserved_faults clause.now) s.names) (map const_of specs.now)) }
{
    for spec in specs {
        check_names(clause, &spec.names)?;
    }
    Ok(())
}

fn check_variables(clause: &str, specs: &[VarSpec]) -> Result<(), ExprError>
    ensures { Finds result (flat_map (λ (s : trees.VarSpec). flat_map (reserved_faults clause.now) s.names) (map var_of specs.now)) }
{
    for spec in specs {
        check_names(clause, &spec.names)?;
    }
    Ok(())
}

fn check_types(clause: &str, specs: &[TypeSpec]) -> Result<(), ExprError>
    ensures { Finds result (flat_map (λ (s : trees.TypeSpec). reserved_faults clause.now s.name) (map type_spec_of specs.now)) }
{
    for spec in specs {
        check_name(clause, &spec.name)?;
    }
    Ok(())
}

fn check_function(clause: &str, function: &Function) -> Result<(), ExprError>
    ensures { Finds result (function_name_faults clause.now (function_of function.now)) }
{
    if function.parameters.is_empty() && function.results.is_empty() {
        return Ok(());
    }
    check_name(clause, &function.name)
}

fn check_top(clause: &str, top: &TopLevel) -> Result<(), ExprError>
    ensures { Finds result (reserved_names_faults clause.now (top_of top.now)) }
{
    match top {
        TopLevel::Declared(Decl::Constants(_, specs)) => check_constants(clause, specs),
        TopLevel::Declared(Decl::Variables(_, specs)) => check_variables(clause, specs),
        TopLevel::Declared(Decl::Types(_, specs)) => check_types(clause, specs),
        TopLevel::Function(function) => check_function(clause, function),
    }
}

/// The first name in a file that only a function without parameters and results may have, and that
/// is no such function, of a package of a name.
pub(crate) fn check_reserved(clause: &str, file: &File) -> Result<(), ExprError>
    ensures { Finds result (flat_map (reserved_names_faults clause.now) (file_of file.now).declarations) }
{
    for top in &file.declarations {
        check_top(clause, top)?;
    }
    Ok(())
}
