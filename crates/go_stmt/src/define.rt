//! Variables that get values. [Short variable declarations](https://go.dev/ref/spec#Short_variable_declarations)
ghost use Rattle.std.specs.Prelude.{◌≡◌, IfOk, OnOk, map, option_copied};
ghost use Rattle.std.specs.List.{list_any};
ghost use Rattle.std.specs.Option.{option_map};
ghost use Rattle.go_ast.specs.Views.{exprs_in as exprs_trees};
ghost use Rattle.go_types.specs.Views.{go_type};
ghost use Rattle.go_typed.specs.Trees as typed;
ghost use Rattle.go_typed.specs.Views.{as_source, as_stmt};
ghost use Rattle.go_expr.specs.Known.{Verdict, Passed};
ghost use Rattle.go_expr.specs.Rules.{checked};
ghost use Rattle.go_expr.specs.Verdicts.{asked};
ghost use Rattle.go_expr.specs.Views.{all_of, declared_of, Gives, AnswersAt};
ghost use Rattle.go_stmt.specs.Scopes.{own, variable_number, paired_names, declare_new};
ghost use Rattle.go_stmt.specs.Rules.{is_new, due_for, dues_for, redefined};
ghost use Rattle.go_stmt.specs.Statements.{short_at};
ghost use Rattle.go_stmt.specs.Views.{constant_names_in, context_of, env_of, values_seen, due_seen, Answered};

use crate::context::{Context, is_constant};
use crate::env::Env;
use crate::names::differ;
use crate::partly::{Due, known_due, suited_partly};
use crate::values::{Valued, Values, check_values, suited};
use go_ast::expression::Expr;
use go_ast::name::Name;
use go_ast::statement::Stmt;
use go_expr::error::{ExprError, RuleError};
use go_expr::known::Declared;
use go_text::fault::FaultKind;
use go_text::place::Place;
use go_typed::statement::{TypedSource, TypedStmt};
use go_types::types::GoType;
use std::alloc::{AllocError, Global};

/// Whether a name is new, by what its block has under it.
fn is_new(name: &Name, own: Option<&Option<Declared>>) -> bool
    ensures { result ≡ is_new name.now (option_map (option_map declared_of) (option_copied own.entry)) }
{
    name.text() != "_" && own.is_none()
}

/// Whether one of some names is new.
fn any_new(env: &Env, names: &[Name]) -> bool
    ensures { result ≡ list_any (λ n. is_new n (own (env_of env.now) n)) names.now }
{
    for name in names {
        if is_new(name, env.own(name)) {
            return true;
        }
    }
    false
}

/// What is due for a name, which is a constant's or not, by what its block has under it. `None` of what
/// is no variable.
fn due_for(of_constant: bool, own: Option<&Option<Declared>>) -> Result<Option<Due>, AllocError>
    ensures { IfOk result (λ due. option_map due_seen due ≡ due_for of_constant (option_map (option_map declared_of) (option_copied own.entry))) }
{
    match own {
        None => Ok(Some(Some(None))),
        Some(None) if of_constant => Ok(None),
        Some(None) => Ok(Some(None)),
        Some(Some(Declared::Local(of, _))) => Ok(Some(Some(Some(of.copy()?)))),
        Some(Some(_)) => Ok(None),
    }
}

/// What is due for some names behind the statements before them in their block, where each may get a
/// value.
fn all_due_for(
    alloc: Global,
    before: &[Stmt],
    env: &Env,
    names: &[Name],
) -> Result<Option<Vec<Due>>, AllocError>
    ensures { IfOk result (λ due. option_map (all_of due_seen) due ≡ dues_for (constant_names_in before.now) (own (env_of env.now)) names.now) }
{
    let mut all = Vec::with_capacity(alloc, names.len())?;
    for name in names {
        let Some(due) = due_for(is_constant(before, name), env.own(name))? else {
            return Ok(None);
        };
        all.push(due)?;
    }
    Ok(Some(all))
}

/// The values of some names, of which their block has some, at a place. `Redeclared` where one stands
/// twice or none is new; `Mismatch` where one is no variable; `Count` where the values aren't as many;
/// else `Range` or `Assign` where one isn't assignable. Nothing is known of them where nothing is of
/// one of the names.
fn redefined(
    alloc: Global,
    place: Place,
    before: &[Stmt],
    env: &Env,
    names: &[Name],
    values: Values,
) -> Result<Option<TypedSource>, ExprError>
    ensures { AnswersAt as_source result place (redefined (constant_names_in before.now) (own (env_of env.now)) names.now (values_seen values)) }
{
    if !differ(alloc, names)? || !any_new(env, names) {
        return Err(ExprError::Faulty(place, FaultKind::Redeclared));
    }
    let Some(due) = all_due_for(alloc, before, env, names)? else {
        return Err(ExprError::Faulty(place, FaultKind::Mismatch));
    };
    match known_due(alloc, &due)? {
        Some(due) => sourced(place, suited(alloc, &due, values)),
        None => passed(place, suited_partly(alloc, &due, values)),
    }
}

/// What values break at a place of which nothing is known.
fn passed(
    place: Place,
    given: Result<TypedSource, RuleError>,
) -> Result<Option<TypedSource>, ExprError>
    ensures { (v : Verdict typed.ValueSource) → Gives as_source given v → AnswersAt as_source result place (checked (λ source. Passed) v) }
{
    match given {
        Ok(_) => Ok(None),
        Err(error) => Err(error.at(place)),
    }
}

/// The values that a rule gives of a node at a place, or its fault.
pub(crate) fn sourced(
    place: Place,
    given: Result<TypedSource, RuleError>,
) -> Result<Option<TypedSource>, ExprError>
    ensures { (v : Verdict typed.ValueSource) → Gives as_source given v → AnswersAt as_source result place v }
{
    match given {
        Ok(source) => Ok(Some(source)),
        Err(error) => Err(error.at(place)),
    }
}

/// The values of some names at a place, where all of them are known.
fn redefined_at(
    alloc: Global,
    place: Place,
    before: &[Stmt],
    env: &Env,
    names: &[Name],
    values: Option<Values>,
) -> Result<Option<TypedSource>, ExprError>
    ensures { AnswersAt as_source result place (asked (redefined (constant_names_in before.now) (own (env_of env.now)) names.now) (option_map values_seen values)) }
{
    match values {
        Some(values) => redefined(alloc, place, before, env, names, values),
        None => Ok(None),
    }
}

/// Declares variables for those of some names that the block hasn't. An `Err` only where memory ran
/// out.
fn declare_new(env: &mut Env, names: &[Name], types: Vec<Option<GoType>>) -> Result<(), AllocError>
    ensures { OnOk result (env_of env.new ≡ declare_new (paired_names names.now (map (option_map go_type) types.items)) (env_of env.old)) }
{
    let mut rest = types.into_iter();
    for name in names {
        let of = match rest.next() {
            Some(of) => of,
            None => None,
        };
        env.declare_new(name, of)?;
    }
    Ok(())
}

/// The numbers of the variables that names stand for; others have none.
fn numbers_of(alloc: Global, env: &Env, names: &[Name]) -> Result<Vec<Option<usize>>, AllocError>
    ensures { IfOk result (λ numbers. numbers.items ≡ map (variable_number (env_of env.now)) names.now) }
{
    let mut all = Vec::with_capacity(alloc, names.len())?;
    for name in names {
        all.push(env.number_of(name))?;
    }
    Ok(all)
}

/// Declares variables for those of some names that the block hasn't, and gives the numbers of all. An
/// `Err` only where memory ran out.
pub(crate) fn declare_all(
    alloc: Global,
    env: &mut Env,
    names: &[Name],
    types: Vec<Option<GoType>>,
) -> Result<Vec<Option<usize>>, AllocError>
    ensures numbers { IfOk result (λ numbers. numbers.items ≡ map (variable_number (env_of env.new)) names.now) }
    ensures after { OnOk result (env_of env.new ≡ declare_new (paired_names names.now (map (option_map go_type) types.items)) (env_of env.old)) }
{
    declare_new(env, names, types)?;
    numbers_of(alloc, env, names)
}

/// Variables by their numbers get values, where these are known.
#[tactic(auto, unfolding(go_typed::specs::Views::as_stmt))]
pub(crate) fn defined(numbers: Vec<Option<usize>>, source: Option<TypedSource>) -> Option<TypedStmt>
    ensures { option_map as_stmt result ≡ option_map (typed.define numbers.items) (option_map as_source source) }
{
    match source {
        Some(source) => Some(TypedStmt::Define(numbers, source)),
        None => None,
    }
}

/// What a short variable declaration is.
pub(crate) fn check_short(
    alloc: Global,
    context: Context<'_>,
    env: &mut Env,
    place: Place,
    names: &[Name],
    es: &[Expr],
) -> Result<Option<TypedStmt>, ExprError>
    ensures answer { Answered as_stmt result (short_at (context_of context.entry) place names.now (exprs_trees es.now) (env_of env.old)) }
    ensures after { OnOk result (env_of env.new ≡ (short_at (context_of context.entry) place names.now (exprs_trees es.now) (env_of env.old)).after) }
{
    let Valued { types, known } = check_values(alloc, &env.scope(context, None), es)?;
    let source = redefined_at(alloc, place, context.before, env, names, known)?;
    let numbers = declare_all(alloc, env, names, types)?;
    Ok(defined(numbers, source))
}
