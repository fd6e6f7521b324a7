//! Variables in functions. [Variable declarations](https://go.dev/ref/spec#Variable_declarations)
ghost use Rattle.std.specs.Prelude.{◌≡◌, ◌∷◌, [], IfOk, OnOk, map};
ghost use Rattle.std.specs.Option.{option_map};
ghost use Rattle.go_ast.specs.Views.{var_of};
ghost use Rattle.go_types.specs.Views.{go_type};
ghost use Rattle.go_typed.specs.Views.{as_source, as_stmt};
ghost use Rattle.go_expr.specs.Verdicts.{asked, both};
ghost use Rattle.go_expr.specs.Views.{AnswersAt};
ghost use Rattle.go_stmt.specs.Scopes.{scope_in, follow};
ghost use Rattle.go_stmt.specs.Rules.{variables_source};
ghost use Rattle.go_stmt.specs.Statements.{written_at, values_at, variable_types, variables_at, specs_at};
ghost use Rattle.go_stmt.specs.Views.{context_of, env_of, typed_in, values_seen, Answered, Finds};

use crate::context::Context;
use crate::control::joined;
use crate::declaration::{due_each, variables_source};
use crate::define::{declare_all, defined, sourced};
use crate::env::Env;
use crate::names::{check_names, place_at};
use crate::values::{Valued, Values, check_values};
use go_ast::declaration::VarSpec;
use go_ast::name::Name;
use go_expr::error::ExprError;
use go_expr::expression::check_type;
use go_text::place::Place;
use go_typed::statement::{TypedSource, TypedStmt};
use go_types::types::GoType;
use std::alloc::{AllocError, Global};

/// What is known of variables that are declared.
#[derive(Drop)]
struct Parts {
    /// The type that is written, where that is known; none where none is written.
    written: Option<Option<GoType>>,
    /// The variables' types, each where it is known.
    types: Vec<Option<GoType>>,
    /// The values, where all are known.
    values: Option<Values>,
}

/// The type and the values of variables.
fn check_parts(
    alloc: Global,
    context: Context<'_>,
    env: &Env,
    spec: &VarSpec,
) -> Result<Parts, ExprError>
    ensures faults { let s = scope_in (context_of context.entry) None (env_of env.now) in
        Finds result (follow (written_at s (var_of spec.now).type) (values_at (context_of context.entry) (var_of spec.now).values) (env_of env.now)).faults }
    ensures types { let s = scope_in (context_of context.entry) None (env_of env.now) in
        IfOk result (λ p. map (option_map go_type) p.types.items ≡ variable_types s (var_of spec.now)) }
    ensures written { let s = scope_in (context_of context.entry) None (env_of env.now) in
        IfOk result (λ p. option_map (option_map go_type) p.written ≡ (written_at s (var_of spec.now).type (env_of env.now)).known) }
    ensures values { let values = values_at (context_of context.entry) (var_of spec.now).values (env_of env.now) in
        IfOk result (λ p. option_map values_seen p.values ≡ values.known) }
{
    let scope = env.scope(context, None);
    let Some(of) = &spec.type_expr else {
        let Valued { types, known } = check_values(alloc, &scope, &spec.values)?;
        return Ok(Parts {
            written: Some(None),
            types,
            values: known,
        });
    };
    let of = check_type(alloc, &scope, of)?;
    let values = check_values(alloc, &scope, &spec.values)?.known;
    let types = due_each(alloc, of.as_ref(), &spec.names)?;
    let written = of.map(|of| Some(of));
    Ok(Parts {
        written,
        types,
        values,
    })
}

/// The values of variables at a place, where they and the type are known.
fn source_at(
    alloc: Global,
    place: Place,
    names: &[Name],
    written: Option<Option<GoType>>,
    values: Option<Values>,
) -> Result<Option<TypedSource>, ExprError>
    ensures { AnswersAt as_source result place
        (asked (λ k. variables_source names.now k.0 k.1) (both (option_map (option_map go_type) written) (option_map values_seen values))) }
{
    let Some(of) = written else {
        return Ok(None);
    };
    match values {
        Some(values) => sourced(place, variables_source(alloc, names, of, values)),
        None => Ok(None),
    }
}

/// A statement as a list.
pub(crate) fn single(
    alloc: Global,
    statement: Option<TypedStmt>,
) -> Result<Option<Vec<TypedStmt>>, AllocError>
    ensures { IfOk result (λ list. option_map typed_in list ≡ option_map (λ s. s ∷ []) (option_map as_stmt statement)) }
{
    match statement {
        Some(statement) => Ok(Some(vec![in alloc; statement]?)),
        None => Ok(None),
    }
}

/// What variables are that one specification declares.
fn check_variables(
    alloc: Global,
    context: Context<'_>,
    env: &mut Env,
    place: Place,
    spec: &VarSpec,
) -> Result<Option<Vec<TypedStmt>>, ExprError>
    ensures answer { Answered typed_in result (variables_at (context_of context.entry) place (var_of spec.now) (env_of env.old)) }
    ensures after { OnOk result (env_of env.new ≡ (variables_at (context_of context.entry) place (var_of spec.now) (env_of env.old)).after) }
{
    let names = spec.names.as_slice();
    check_names(alloc, env, names)?;
    let parts = check_parts(alloc, context, env, spec)?;
    let first = place_at(place, names);
    let source = source_at(alloc, first, names, parts.written, parts.values)?;
    let numbers = declare_all(alloc, env, names, parts.types)?;
    Ok(single(alloc, defined(numbers, source))?)
}

/// What the variables of a declaration are.
pub(crate) fn check_specs(
    alloc: Global,
    context: Context<'_>,
    env: &mut Env,
    place: Place,
    specs: &[VarSpec],
) -> Result<Option<Vec<TypedStmt>>, ExprError>
    ensures answer { Answered typed_in result (specs_at (context_of context.entry) place (map var_of specs.now) (env_of env.old)) }
    ensures after { OnOk result (env_of env.new ≡ (specs_at (context_of context.entry) place (map var_of specs.now) (env_of env.old)).after) }
{
    let mut known = Some(Vec::new(alloc));
    for spec in specs {
        let more = check_variables(alloc, context, env, place, spec)?;
        known = joined(known, more)?;
    }
    Ok(known)
}
