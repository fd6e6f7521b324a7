//! The checker of statements.
ghost use Rattle.std.specs.Prelude.{◌≡◌, false, OnOk, option_map};
ghost use Rattle.go_ast.specs.Trees.{block_statement};
ghost use Rattle.go_ast.specs.Views.{stmt_of as stmt_tree, else_of, block_of, if_of};
ghost use Rattle.go_types.specs.Views.{go_type};
ghost use Rattle.go_typed.specs.Views.{as_clause as typed_clause};
ghost use Rattle.go_stmt.specs.Statements.{block_context, statement_at, if_at, else_at, block_at, list_at, clauses_at};
ghost use Rattle.go_stmt.specs.Views.{context_of, env_of, typed_in, trees_in, for_of as for_tree, range_of as range_tree, switch_of};
ghost use Rattle.go_stmt.specs.Views.{clauses_trees, clauses_of, clause_in, Answered};

use crate::context::Context;
use crate::control::{
    branch, check_condition, check_return, check_value, conditional, declare_range, joined, looped,
    one_block, range_type, ranged,
};
use crate::env::Env;
use crate::hidden::is_hidden;
use crate::local::{check_declaration, check_optional, check_single};
use crate::switch::{
    check_cases, check_tag, clause, falls_through, has_default, is_last, switched, tag_type,
    with_clause,
};
use go_ast::expression::Expr;
use go_ast::statement::{Block, Clause, Else, For, If, Range, Simple, Stmt};
use go_expr::error::ExprError;
use go_text::place::Place;
use go_typed::statement::{TypedClause, TypedStmt};
use go_types::types::GoType;
use std::alloc::Global;

/// What a statement is.
#[cycle(check)]
#[tactic(auto, unfolding(go_ast::specs::Views::stmt_of, go_typed::specs::Views::as_stmt))]
fn check_statement(
    alloc: Global,
    context: Context<'_>,
    env: &mut Env,
    s: &Stmt,
) -> Result<Option<Vec<TypedStmt>>, ExprError>
    ensures answer { Answered typed_in result (statement_at (context_of context.entry) (stmt_tree s.now) (env_of env.old)) }
    ensures after { OnOk result (env_of env.new ≡ (statement_at (context_of context.entry) (stmt_tree s.now) (env_of env.old)).after) }
{
    match s {
        Stmt::Empty(_) => Ok(Some(Vec::new(alloc))),
        Stmt::Declaration(_, declaration) => {
            let declared = check_declaration(alloc, context, env, declaration)?;
            Ok(one_block(alloc, declared)?)
        }
        Stmt::Simple(place, simple) => check_single(alloc, context, env, *place, simple),
        Stmt::Return(place, es) => check_return(alloc, context, env, *place, es),
        Stmt::Break(place) => { branch(*place, context.breaks, vec![in alloc; TypedStmt::Break]?) }
        Stmt::Continue(place) => {
            branch(
                *place,
                context.continues,
                vec![in alloc; TypedStmt::Continue]?,
            )
        }
        Stmt::Fallthrough(place) => branch(*place, context.falls, Vec::new(alloc)),
        Stmt::Block(block) => check_inner(alloc, context, env, block),
        Stmt::If(conditional) => check_if(alloc, context, env, conditional),
        Stmt::For(s) => check_for(alloc, context, env, s),
        Stmt::Range(s) => check_range(alloc, context, env, s),
        Stmt::Switch(place, before, tag, clauses) => {
            check_switch(alloc, context, env, *place, before, tag, clauses)
        }
    }
}

/// What an `if` is. [If statements](https://go.dev/ref/spec#If_statements)
#[cycle(check)]
fn check_if(
    alloc: Global,
    context: Context<'_>,
    env: &mut Env,
    s: &If,
) -> Result<Option<Vec<TypedStmt>>, ExprError>
    ensures answer { Answered typed_in result (if_at (context_of context.entry) (if_of s.now) (env_of env.old)) }
    ensures after { OnOk result (env_of env.new ≡ (if_at (context_of context.entry) (if_of s.now) (env_of env.old)).after) }
{
    env.enter()?;
    let before = check_optional(alloc, context, env, s.place, &s.init)?;
    let condition = check_value(alloc, context, env, &s.condition)?;
    let first = check_block(alloc, context, env, &s.body)?;
    let second = check_else(alloc, context, env, &s.otherwise)?;
    env.leave();
    conditional(alloc, s.place, before, condition, first, second)
}

/// What a loop is. [For statements](https://go.dev/ref/spec#For_statements)
#[cycle(check)]
fn check_for(
    alloc: Global,
    context: Context<'_>,
    env: &mut Env,
    s: &For,
) -> Result<Option<Vec<TypedStmt>>, ExprError>
    ensures answer { Answered typed_in result (statement_at (context_of context.entry) (for_tree s.now) (env_of env.old)) }
    ensures after { OnOk result (env_of env.new ≡ (statement_at (context_of context.entry) (for_tree s.now) (env_of env.old)).after) }
{
    env.enter()?;
    let before = check_optional(alloc, context, env, s.place, &s.init)?;
    let condition = check_condition(alloc, context, env, &s.condition)?;
    let post = check_optional(alloc, context, env, s.place, &s.post)?;
    let body = check_block(alloc, context.in_loop(), env, &s.body)?;
    env.leave();
    looped(alloc, s.place, before, condition, post, body)
}

/// What a loop over a range is. [For range](https://go.dev/ref/spec#For_range)
#[cycle(check)]
fn check_range(
    alloc: Global,
    context: Context<'_>,
    env: &mut Env,
    s: &Range,
) -> Result<Option<Vec<TypedStmt>>, ExprError>
    ensures answer { Answered typed_in result (statement_at (context_of context.entry) (range_tree s.now) (env_of env.old)) }
    ensures after { OnOk result (env_of env.new ≡ (statement_at (context_of context.entry) (range_tree s.now) (env_of env.old)).after) }
{
    env.enter()?;
    let operand = check_value(alloc, context, env, &s.operand)?;
    let of = range_type(&operand)?;
    let hidden = is_hidden(alloc, context, env, &s.name, &of, &s.body)?;
    let number = declare_range(env, &s.name, of)?;
    let body = check_block(alloc, context.in_loop(), env, &s.body)?;
    env.leave();
    ranged(alloc, s.place, number, operand, hidden, body)
}

/// What a switch is. [Expression switches](https://go.dev/ref/spec#Expression_switches)
#[cycle(check)]
fn check_switch(
    alloc: Global,
    context: Context<'_>,
    env: &mut Env,
    place: Place,
    before: &Option<Box<Simple>>,
    tag: &Option<Box<Expr>>,
    clauses: &[Clause],
) -> Result<Option<Vec<TypedStmt>>, ExprError>
    ensures answer { Answered typed_in result (statement_at (context_of context.entry) (switch_of place before.now tag.now clauses.now) (env_of env.old)) }
    ensures after { let tree = switch_of place before.now tag.now clauses.now in
        OnOk result (env_of env.new ≡ (statement_at (context_of context.entry) tree (env_of env.old)).after) }
{
    env.enter()?;
    let before = check_optional(alloc, context, env, place, before)?;
    let tag = check_tag(alloc, context, env, tag)?;
    let of = tag_type(&tag)?;
    let clauses = check_clauses(alloc, context, env, &of, clauses)?;
    env.leave();
    switched(alloc, place, before, tag, clauses)
}

/// What clauses are, one behind the other.
#[cycle(check)]
fn check_clauses(
    alloc: Global,
    context: Context<'_>,
    env: &mut Env,
    tag: &Option<GoType>,
    clauses: &[Clause],
) -> Result<Option<Vec<TypedClause>>, ExprError>
    ensures answer { let known = option_map go_type tag.now in
        Answered clauses_of result (clauses_at (context_of context.entry) known false (clauses_trees clauses.now) (env_of env.old)) }
    ensures after { let known = option_map go_type tag.now in
        OnOk result (env_of env.new ≡ (clauses_at (context_of context.entry) known false (clauses_trees clauses.now) (env_of env.old)).after) }
{
    let mut known = Some(Vec::new(alloc));
    let mut again = false;
    for (i, clause) in clauses.iter().enumerate() {
        let last = is_last(&clauses[i + 1..]);
        let more = check_clause(alloc, context, env, tag, again, last, clause)?;
        known = with_clause(known, more)?;
        again = has_default(again, clause);
    }
    Ok(known)
}

/// What a clause is, behind a default or not, and the last one or not.
#[cycle(check)]
fn check_clause(
    alloc: Global,
    context: Context<'_>,
    env: &mut Env,
    tag: &Option<GoType>,
    again: bool,
    last: bool,
    s: &Clause,
) -> Result<Option<TypedClause>, ExprError>
    ensures answer { Answered typed_clause result (clause_in (context_of context.entry) (option_map go_type tag.now) again last s.now (env_of env.old)) }
    ensures after { let known = option_map go_type tag.now in
        OnOk result (env_of env.new ≡ (clause_in (context_of context.entry) known again last s.now (env_of env.old)).after) }
{
    env.enter()?;
    let values = check_cases(alloc, context, env, &s.values)?;
    let body = check_list(alloc, context.in_clause(!last), env, &s.statements)?;
    env.leave();
    let falls = falls_through(&s.statements, last);
    clause(alloc, s.place, tag, again, falls, values, body)
}

/// What is done where a condition doesn't hold.
#[cycle(check)]
#[tactic(auto, unfolding(go_ast::specs::Views::else_of))]
fn check_else(
    alloc: Global,
    context: Context<'_>,
    env: &mut Env,
    s: &Else,
) -> Result<Option<Vec<TypedStmt>>, ExprError>
    ensures answer { Answered typed_in result (else_at (context_of context.entry) (else_of s.now) (env_of env.old)) }
    ensures after { OnOk result (env_of env.new ≡ (else_at (context_of context.entry) (else_of s.now) (env_of env.old)).after) }
{
    match s {
        Else::Nothing => Ok(Some(Vec::new(alloc))),
        Else::Block(block) => check_block(alloc, context, env, block),
        Else::If(conditional) => check_if(alloc, context, env, conditional),
    }
}

/// What a block is that stands as a statement.
#[cycle(check)]
fn check_inner(
    alloc: Global,
    context: Context<'_>,
    env: &mut Env,
    block: &Block,
) -> Result<Option<Vec<TypedStmt>>, ExprError>
    ensures answer { Answered typed_in result (statement_at (context_of context.entry) (block_statement (block_of block.now)) (env_of env.old)) }
    ensures after { OnOk result (env_of env.new ≡ (statement_at (context_of context.entry) (block_statement (block_of block.now)) (env_of env.old)).after) }
{
    let statements = check_block(alloc, context, env, block)?;
    Ok(one_block(alloc, statements)?)
}

/// What the statements of a block are. [Blocks](https://go.dev/ref/spec#Blocks)
#[cycle(check)]
fn check_block(
    alloc: Global,
    context: Context<'_>,
    env: &mut Env,
    block: &Block,
) -> Result<Option<Vec<TypedStmt>>, ExprError>
    ensures answer { Answered typed_in result (block_at (context_of context.entry) (block_of block.now) (env_of env.old)) }
    ensures after { OnOk result (env_of env.new ≡ (block_at (context_of context.entry) (block_of block.now) (env_of env.old)).after) }
{
    env.enter()?;
    let known = check_list(alloc, context.in_block(), env, &block.statements)?;
    env.leave();
    Ok(known)
}

/// What the statements of a block are, one behind the other.
#[cycle(check)]
pub(crate) fn check_list(
    alloc: Global,
    context: Context<'_>,
    env: &mut Env,
    statements: &[Stmt],
) -> Result<Option<Vec<TypedStmt>>, ExprError>
    ensures answer { Answered typed_in result (list_at (block_context (context_of context.entry)) (trees_in statements.now) (env_of env.old)) }
    ensures after { OnOk result (env_of env.new ≡ (list_at (block_context (context_of context.entry)) (trees_in statements.now) (env_of env.old)).after) }
{
    let mut known = Some(Vec::new(alloc));
    for (i, s) in statements.iter().enumerate() {
        let others = &statements[i + 1..];
        let here = context.behind(&statements[..i]).before_others(others);
        let more = check_statement(alloc, here, env, s)?;
        known = joined(known, more)?;
    }
    Ok(known)
}
