//! Simple statements and declarations in functions, whichever they are.
//! [Statements](https://go.dev/ref/spec#Statements)
ghost use Rattle.std.specs.Prelude.{◌≡◌, OnOk};
ghost use Rattle.go_ast.specs.Trees.{first_place};
ghost use Rattle.go_ast.specs.Views.{exprs_in as exprs_trees, simple_of, if_boxed, decl_of};
ghost use Rattle.go_typed.specs.Views.{as_stmt};
ghost use Rattle.go_stmt.specs.Scopes.{single};
ghost use Rattle.go_stmt.specs.Statements.{begins_at, simple_at, optional_at, declaration_at};
ghost use Rattle.go_stmt.specs.Views.{context_of, env_of, typed_in, Answered};

use crate::assignment::{check_assignment, check_update};
use crate::constants::check_group;
use crate::context::Context;
use crate::define::check_short;
use crate::env::Env;
use crate::names::place_at;
use crate::simple::{check_call, check_step};
use crate::variables::{check_specs, single};
use go_ast::declaration::Decl;
use go_ast::expression::Expr;
use go_ast::statement::Simple;
use go_const::operator::ArithmeticOperator;
use go_expr::error::ExprError;
use go_text::place::Place;
use go_typed::statement::TypedStmt;
use std::alloc::Global;

/// What a simple statement is.
fn check_simple(
    alloc: Global,
    context: Context<'_>,
    env: &mut Env,
    place: Place,
    simple: &Simple,
) -> Result<Option<TypedStmt>, ExprError>
    ensures answer { Answered as_stmt result (simple_at (context_of context.entry) place (simple_of simple.now) (env_of env.old)) }
    ensures after { OnOk result (env_of env.new ≡ (simple_at (context_of context.entry) place (simple_of simple.now) (env_of env.old)).after) }
{
    match simple {
        Simple::Call(e) => check_call(alloc, context, env, place, e),
        Simple::Increment(e) => check_step(alloc, context, env, place, ArithmeticOperator::Add, e),
        Simple::Decrement(e) => {
            check_step(alloc, context, env, place, ArithmeticOperator::Subtract, e)
        }
        Simple::Assignment(left, right) => {
            check_assignment(alloc, context, env, place, left, right)
        }
        Simple::OperatorAssignment(operator, left, right) => {
            check_update(alloc, context, env, place, *operator, left, right)
        }
        Simple::ShortVarDecl(names, values) => {
            check_short(alloc, context, env, place, names, values)
        }
    }
}

/// A simple statement that stands alone.
pub(crate) fn check_single(
    alloc: Global,
    context: Context<'_>,
    env: &mut Env,
    place: Place,
    simple: &Simple,
) -> Result<Option<Vec<TypedStmt>>, ExprError>
    ensures answer { Answered typed_in result (single (simple_at (context_of context.entry) place (simple_of simple.now)) (env_of env.old)) }
    ensures after { OnOk result (env_of env.new ≡ (single (simple_at (context_of context.entry) place (simple_of simple.now)) (env_of env.old)).after) }
{
    let statement = check_simple(alloc, context, env, place, simple)?;
    Ok(single(alloc, statement)?)
}

/// The place of some expressions: that of the first.
fn first_place(place: Place, es: &[Expr]) -> Place
    ensures { result ≡ first_place place (exprs_trees es.now) }
{
    match es {
        [] => place,
        [first, ..] => first.place,
    }
}

/// Where a simple statement begins.
#[tactic(auto, using(go_ast::proofs::Rows::placed))]
fn begins_at(place: Place, simple: &Simple) -> Place
    ensures { result ≡ begins_at place (simple_of simple.now) }
{
    match simple {
        Simple::Call(e) | Simple::Increment(e) | Simple::Decrement(e) => e.place,
        Simple::Assignment(left, _) => first_place(place, left),
        Simple::OperatorAssignment(_, left, _) => left.place,
        Simple::ShortVarDecl(names, _) => place_at(place, names),
    }
}

/// A simple statement that may be missing.
pub(crate) fn check_optional(
    alloc: Global,
    context: Context<'_>,
    env: &mut Env,
    place: Place,
    simple: &Option<Box<Simple>>,
) -> Result<Option<Vec<TypedStmt>>, ExprError>
    ensures answer { Answered typed_in result (optional_at (context_of context.entry) place (if_boxed simple_of simple.now) (env_of env.old)) }
    ensures after { OnOk result (env_of env.new ≡ (optional_at (context_of context.entry) place (if_boxed simple_of simple.now) (env_of env.old)).after) }
{
    match simple {
        None => Ok(Some(Vec::new(alloc))),
        Some(simple) => check_single(alloc, context, env, begins_at(place, simple), simple),
    }
}

/// A declaration in a function. Nothing is known of types there.
pub(crate) fn check_declaration(
    alloc: Global,
    context: Context<'_>,
    env: &mut Env,
    declaration: &Decl,
) -> Result<Option<Vec<TypedStmt>>, ExprError>
    ensures answer { Answered typed_in result (declaration_at (context_of context.entry) (decl_of declaration.now) (env_of env.old)) }
    ensures after { OnOk result (env_of env.new ≡ (declaration_at (context_of context.entry) (decl_of declaration.now) (env_of env.old)).after) }
{
    match declaration {
        Decl::Constants(place, specs) => check_group(alloc, context, env, *place, specs),
        Decl::Variables(place, specs) => check_specs(alloc, context, env, *place, specs),
        Decl::Types(_, _) => Ok(None),
    }
}
