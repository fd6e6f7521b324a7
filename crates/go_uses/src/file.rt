//! Names that a file refers to.
ghost use Rattle.std.specs.Prelude.{◌≡◌, ◌++◌, map, IfOk, OnOk};
ghost use Rattle.std.specs.List.{flat_map};
ghost use Rattle.go_ast.specs.Trees as trees;
ghost use Rattle.go_ast.specs.Views.{type_of, const_of, var_of, type_spec_of, block_of, parameter_of, function_of, top_of};
ghost use Rattle.go_scope.specs.Names.{in_type, used};
ghost use Rattle.go_uses.specs.Uses.{texts, outside, uses_in_block, in_const, in_var, in_function, in_top};

use crate::declarations::{in_const, in_var};
use crate::expressions::in_type;
use crate::hidden::{hide, joined, outside};
use crate::statements::in_block;
use go_ast::declaration::{ConstSpec, Decl, TypeSpec, VarSpec};
use go_ast::expression::TypeExpr;
use go_ast::file::{Function, Parameter, TopLevel};
use go_ast::statement::Block;
use go_scope::name_index::NameIndex;
use go_scope::names::UsedName;
use std::alloc::{AllocError, Global};

fn in_all_consts<'a>(alloc: Global, specs: &'a [ConstSpec]) -> Result<Vec<UsedName<'a>>, AllocError>
    ensures { IfOk result (λ names. map used names.items ≡ flat_map in_const (map const_of specs.now)) }
{
    let mut found = Vec::new(alloc);
    for spec in specs {
        found = joined(found, in_const(alloc, spec)?)?;
    }
    Ok(found)
}

fn in_all_vars<'a>(alloc: Global, specs: &'a [VarSpec]) -> Result<Vec<UsedName<'a>>, AllocError>
    ensures { IfOk result (λ names. map used names.items ≡ flat_map in_var (map var_of specs.now)) }
{
    let mut found = Vec::new(alloc);
    for spec in specs {
        found = joined(found, in_var(alloc, spec)?)?;
    }
    Ok(found)
}

fn in_all_types<'a>(alloc: Global, specs: &'a [TypeSpec]) -> Result<Vec<UsedName<'a>>, AllocError>
    ensures { IfOk result (λ names. map used names.items ≡ flat_map (λ (s : trees.TypeSpec). in_type s.type) (map type_spec_of specs.now)) }
{
    let mut found = Vec::new(alloc);
    for spec in specs {
        found = joined(found, in_type(alloc, &spec.type_expr)?)?;
    }
    Ok(found)
}

fn in_parameters<'a>(
    alloc: Global,
    parameters: &'a [Parameter],
) -> Result<Vec<UsedName<'a>>, AllocError>
    ensures { IfOk result (λ names. map used names.items ≡ flat_map (λ (p : trees.Parameter). in_type p.type) (map parameter_of parameters.now)) }
{
    let mut found = Vec::new(alloc);
    for parameter in parameters {
        found = joined(found, in_type(alloc, &parameter.type_expr)?)?;
    }
    Ok(found)
}

fn in_results<'a>(alloc: Global, results: &'a [TypeExpr]) -> Result<Vec<UsedName<'a>>, AllocError>
    ensures { IfOk result (λ names. map used names.items ≡ flat_map in_type (map type_of results.now)) }
{
    let mut found = Vec::new(alloc);
    for of in results {
        found = joined(found, in_type(alloc, of)?)?;
    }
    Ok(found)
}

/// Hides the names of parameters. An `Err` only where memory ran out.
fn hide_parameters<'a>(
    hidden: &mut NameIndex<'a>,
    parameters: &'a [Parameter],
) -> Result<(), AllocError>
    ensures { OnOk result (hidden.new ≡ hidden.old ++ flat_map (λ (p : trees.Parameter). texts p.names) (map parameter_of parameters.now)) }
{
    for parameter in parameters {
        hide(hidden, &parameter.names)?;
    }
    Ok(())
}

/// Those of a body, where no parameter hides them.
fn in_body<'a>(
    alloc: Global,
    parameters: &'a [Parameter],
    body: &'a Block,
) -> Result<Vec<UsedName<'a>>, AllocError>
    ensures { let hidden = flat_map (λ (p : trees.Parameter). texts p.names) (map parameter_of parameters.now) in
        IfOk result (λ names. map used names.items ≡ outside hidden (uses_in_block (block_of body.now))) }
{
    let mut hidden = NameIndex::new(alloc);
    hide_parameters(&mut hidden, parameters)?;
    let names = in_block(alloc, body)?;
    outside(alloc, &hidden, &names)
}

/// Those of a function where nothing in it declares them, its parameters' and results' types among
/// them.
fn names_in_function<'a>(
    alloc: Global,
    function: &'a Function,
) -> Result<Vec<UsedName<'a>>, AllocError>
    ensures { IfOk result (λ names. map used names.items ≡ in_function (function_of function.now)) }
{
    let parameters = in_parameters(alloc, &function.parameters)?;
    let results = in_results(alloc, &function.results)?;
    let body = in_body(alloc, &function.parameters, &function.body)?;
    joined(parameters, joined(results, body)?)
}

/// The names that a declaration of a file uses where nothing in a function declares them. An `Err`
/// only where memory ran out.
pub fn names_in_top<'a>(alloc: Global, top: &'a TopLevel) -> Result<Vec<UsedName<'a>>, AllocError>
    ensures { IfOk result (λ names. map used names.items ≡ in_top (top_of top.now)) }
{
    match top {
        TopLevel::Declared(Decl::Constants(_, specs)) => in_all_consts(alloc, specs),
        TopLevel::Declared(Decl::Variables(_, specs)) => in_all_vars(alloc, specs),
        TopLevel::Declared(Decl::Types(_, specs)) => in_all_types(alloc, specs),
        TopLevel::Function(function) => names_in_function(alloc, function),
    }
}
