//! Functions. [Function declarations](https://go.dev/ref/spec#Function_declarations)
ghost use Rattle.std.specs.Prelude.{◌≡◌, [], false, None, IfOk, OnOk, drop, length, map, option_map};
ghost use Rattle.std.specs.List.{flat_map};
ghost use Rattle.go_ast.specs.Views.{type_of as type_tree, block_of, parameter_of, function_of as function_tree};
ghost use Rattle.go_types.specs.Views.{go_type};
ghost use Rattle.go_typed.specs.Views.{as_function as typed_function};
ghost use Rattle.go_expr.specs.Verdicts.{asked, both, chained, type_faults};
ghost use Rattle.go_expr.specs.Views.{all_of, names_in, AnswersAt};
ghost use Rattle.go_stmt.specs.Rules.{all_some};
ghost use Rattle.go_stmt.specs.Scopes.{nothing, scope_in};
ghost use Rattle.go_stmt.specs.Functions.{declare_parameters, parameter_at, parameters_at, result_types, body_at, whole_function, function_from, function_at};
ghost use Rattle.go_stmt.specs.Views.{context_of, env_of, typed_in, inside_of, parts_view, Answered, Finds};

use crate::context::Context;
use crate::declaration::zeros_of;
use crate::env::Env;
use crate::names::check_names;
use crate::statement::check_list;
use crate::terminating::list_terminates;
use go_ast::expression::TypeExpr;
use go_ast::file::{Function, Parameter};
use go_ast::name::Name;
use go_ast::statement::Block;
use go_expr::error::ExprError;
use go_expr::expression::check_type;
use go_expr::known::Names;
use go_expr::scope::Import;
use go_text::edition::Edition;
use go_text::fault::FaultKind;
use go_text::place::Place;
use go_typed::package::TypedFunction;
use go_typed::statement::TypedStmt;
use go_types::types::GoType;
use std::alloc::{AllocError, Global};

/// The results and the statements of a function.
#[derive(Drop)]
pub(crate) struct Inside {
    /// The types of the results.
    results: Vec<GoType>,
    /// The statements of the body.
    statements: Vec<TypedStmt>,
}

/// The parameters of a function, and what is inside.
#[derive(Drop)]
pub(crate) struct Parts {
    /// The types of the parameters.
    parameters: Vec<GoType>,
    /// The results and the statements.
    inside: Inside,
}

/// Declares parameters of one type.
fn declare_parameters(env: &mut Env, names: &[Name], of: &Option<GoType>) -> Result<(), AllocError>
    ensures { OnOk result (env_of env.new ≡ declare_parameters names.now (option_map go_type of.now) (env_of env.old)) }
{
    for name in names {
        let copy = match of {
            Some(of) => Some(of.copy()?),
            None => None,
        };
        env.declare_variable(name, copy)?;
    }
    Ok(())
}

/// The type of each of some parameters, where it is known.
fn types_of(
    alloc: Global,
    of: Option<GoType>,
    names: &[Name],
) -> Result<Option<Vec<GoType>>, AllocError>
    ensures { IfOk result (λ ts. option_map (all_of go_type) ts ≡ option_map (λ t. map (λ n. t) names.now) (option_map go_type of)) }
{
    match of {
        Some(of) => Ok(Some(zeros_of(alloc, &of, names)?)),
        None => Ok(None),
    }
}

/// What parameters of one type are. Their type stands outside of the function.
fn check_parameter(
    alloc: Global,
    context: Context<'_>,
    env: &mut Env,
    parameter: &Parameter,
) -> Result<Option<Vec<GoType>>, ExprError>
    ensures answer { Answered (all_of go_type) result (parameter_at (context_of context.entry) (parameter_of parameter.now) (env_of env.old)) }
    ensures after { OnOk result (env_of env.new ≡ (parameter_at (context_of context.entry) (parameter_of parameter.now) (env_of env.old)).after) }
{
    check_names(alloc, env, &parameter.names)?;
    let of = check_type(alloc, &context.outside(), &parameter.type_expr)?;
    declare_parameters(env, &parameter.names, &of)?;
    Ok(types_of(alloc, of, &parameter.names)?)
}

/// Types and others behind them, where all are known.
fn with_types(
    known: Option<Vec<GoType>>,
    more: Option<Vec<GoType>>,
) -> Result<Option<Vec<GoType>>, AllocError>
    ensures { IfOk result (λ all. option_map (all_of go_type) all ≡ chained (option_map (all_of go_type) known) (option_map (all_of go_type) more)) }
{
    match (known, more) {
        (Some(mut all), Some(mut more)) => {
            all.append(&mut more)?;
            Ok(Some(all))
        }
        _ => Ok(None),
    }
}

/// What parameters are, one behind the other.
fn check_parameters(
    alloc: Global,
    context: Context<'_>,
    env: &mut Env,
    parameters: &[Parameter],
) -> Result<Option<Vec<GoType>>, ExprError>
    ensures answer { Answered (all_of go_type) result (parameters_at (context_of context.entry) (map parameter_of parameters.now) (env_of env.old)) }
    ensures after { OnOk result (env_of env.new ≡ (parameters_at (context_of context.entry) (map parameter_of parameters.now) (env_of env.old)).after) }
{
    let mut known = Some(Vec::new(alloc));
    for parameter in parameters {
        let more = check_parameter(alloc, context, env, parameter)?;
        known = with_types(known, more)?;
    }
    Ok(known)
}

/// The type of each result, where it is known. They stand outside of the function.
fn check_results(
    alloc: Global,
    context: Context<'_>,
    results: &[TypeExpr],
) -> Result<Vec<Option<GoType>>, ExprError>
    ensures faults { Finds result (flat_map (type_faults (scope_in (context_of context.entry) None nothing)) (map type_tree results.now)) }
    ensures types { IfOk result (λ ts. map (option_map go_type) ts.items ≡ result_types (context_of context.entry) (map type_tree results.now)) }
{
    let scope = context.outside();
    let mut all = Vec::with_capacity(alloc, results.len())?;
    for of in results {
        all.push(check_type(alloc, &scope, of)?)?;
    }
    Ok(all)
}

/// Some types, where all are known.
fn all_types(alloc: Global, types: Vec<Option<GoType>>) -> Result<Option<Vec<GoType>>, AllocError>
    ensures { IfOk result (λ all. option_map (all_of go_type) all ≡ all_some (map (option_map go_type) types.items)) }
{
    let mut all = Vec::with_capacity(alloc, types.len())?;
    for of in types {
        let Some(of) = of else {
            return Ok(None);
        };
        all.push(of)?;
    }
    Ok(Some(all))
}

/// What is inside of a function, where it is known.
fn known_inside(
    alloc: Global,
    types: Vec<Option<GoType>>,
    statements: Option<Vec<TypedStmt>>,
) -> Result<Option<Inside>, AllocError>
    ensures { IfOk result (λ i. option_map inside_of i ≡ both (all_some (map (option_map go_type) types.items)) (option_map typed_in statements)) }
{
    match (all_types(alloc, types)?, statements) {
        (Some(results), Some(statements)) => Ok(Some(Inside {
            results,
            statements,
        })),
        _ => Ok(None),
    }
}

/// What the results and the body of a function are.
fn check_inside(
    alloc: Global,
    context: Context<'_>,
    env: &mut Env,
    results: &[TypeExpr],
    body: &Block,
) -> Result<Option<Inside>, ExprError>
    ensures answer { Answered inside_of result (body_at (context_of context.entry) (map type_tree results.now) (block_of body.now) (env_of env.old)) }
    ensures after { let inside = body_at (context_of context.entry) (map type_tree results.now) (block_of body.now) (env_of env.old) in
        OnOk result (env_of env.new ≡ inside.after) }
{
    let types = check_results(alloc, context, results)?;
    let statements = check_list(alloc, context.returning(&types), env, &body.statements)?;
    Ok(known_inside(alloc, types, statements)?)
}

/// The parameters, the results and the statements of a function that ends at a place, where all are
/// known. `NoReturn` where its body may run off its end and there are results.
/// [Terminating statements](https://go.dev/ref/spec#Terminating_statements)
fn ended(
    end: Place,
    parameters: Option<Vec<GoType>>,
    inside: Option<Inside>,
) -> Result<Option<Parts>, ExprError>
    ensures { AnswersAt parts_view result end (asked whole_function (both (option_map (all_of go_type) parameters) (option_map inside_of inside))) }
{
    match (parameters, inside) {
        (Some(parameters), Some(inside)) => {
            if inside.results.len() != 0 && !list_terminates(&inside.statements) {
                return Err(ExprError::Faulty(end, FaultKind::NoReturn));
            }
            Ok(Some(Parts { parameters, inside }))
        }
        _ => Ok(None),
    }
}

/// The types behind the first ones.
fn behind(types: Vec<GoType>, count: usize) -> Result<Vec<GoType>, AllocError>
    ensures { IfOk result (λ rest. rest.items ≡ drop count types.items) }
{
    let mut types = types;
    let at = count.min(types.len());
    types.split_off(at)
}

/// The types of the local variables that are no parameters.
fn locals_of(types: Vec<GoType>, parameters: &[GoType]) -> Result<Vec<GoType>, AllocError>
    ensures { IfOk result (λ locals. map go_type locals.items ≡ drop (length (map go_type parameters.now)) (map go_type types.items)) }
{
    behind(types, parameters.len())
}

/// A function by its parts, where they are known, and the types of all its local variables.
fn function_of(
    alloc: Global,
    function: &Function,
    parts: Option<Parts>,
    types: Vec<GoType>,
) -> Result<Option<TypedFunction>, AllocError>
    ensures { IfOk result (λ f. option_map typed_function f ≡
        option_map (function_from (function_tree function.now) (map go_type types.items)) (option_map parts_view parts)) }
{
    let Some(Parts { parameters, inside }) = parts else {
        return Ok(None);
    };
    let locals = locals_of(types, &parameters)?;
    Ok(Some(TypedFunction {
        name: String::from_str(alloc, function.name.text())?,
        parameters,
        results: inside.results,
        locals,
        body: inside.statements,
    }))
}

/// A function by its parameters, its results and its body, or the first fault in them. The imports of
/// its file and what the package of an edition declares stand round it.
#[tactic(auto, unfolding(crate::specs::Functions::function_at))]
pub fn check_body<'a>(
    alloc: Global,
    path: &'a str,
    edition: Edition,
    imports: &'a [Import<'a>],
    declared: &'a Names,
    function: &Function,
) -> Result<Option<TypedFunction>, ExprError>
    ensures { Answered typed_function result (function_at (record {
      path = path.now;
      outside = λ iota. names_in edition imports.now declared.now iota;
      results = [];
      constants = [];
      breaks = false;
      continues = false;
      falls = false;
    }) (function_tree function.now)) }
{
    let context = Context {
        path,
        edition,
        imports,
        declared,
        results: &[],
        before: &[],
        breaks: false,
        continues: false,
        falls: false,
    };
    let mut env = Env::new(alloc);
    let parameters = check_parameters(alloc, context, &mut env, &function.parameters)?;
    let inside = check_inside(alloc, context, &mut env, &function.results, &function.body)?;
    let parts = ended(function.body.closing, parameters, inside)?;
    Ok(function_of(alloc, function, parts, env.into_types())?)
}
