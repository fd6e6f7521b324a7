//! Names that stand for faulty declarations, which hide what their statement breaks.
ghost use Rattle.std.specs.Prelude.{◌≡◌, ◌++◌, IfOk, OnOk, map, option_map};
ghost use Rattle.std.specs.List.{list_any};
ghost use Rattle.go_ast.specs.Views.{block_of, exprs_in as exprs_trees, type_of as type_tree};
ghost use Rattle.go_types.specs.Views.{go_type};
ghost use Rattle.go_scope.specs.Names.{in_exprs, in_type, used};
ghost use Rattle.go_uses.specs.Uses.{if_any};
ghost use Rattle.go_expr.specs.Views.{scope_of};
ghost use Rattle.go_stmt.specs.Scopes.{scope_in};
ghost use Rattle.go_stmt.specs.Statements.{is_unknown, is_unsure};
ghost use Rattle.go_stmt.specs.Views.{context_of, env_of};

use crate::context::Context;
use crate::env::Env;
use go_ast::expression::{Expr, TypeExpr};
use go_ast::name::Name;
use go_ast::statement::Block;
use go_expr::error::ExprError;
use go_expr::scope::Scope;
use go_scope::names::{UsedName, add_names, add_type_names};
use go_text::place::Place;
use go_types::types::GoType;
use go_uses::statements::names_outside;
use std::alloc::{AllocError, Global};

/// Whether a name that is used stands for a declaration of which nothing is known. An `Err` only where
/// memory ran out.
pub fn is_unknown(scope: &Scope<'_>, place: Place, name: UsedName<'_>) -> Result<bool, AllocError>
    ensures { IfOk result (λ b. b ≡ is_unknown (scope_of scope.now) (used name.entry)) }
{
    match scope.look_up(place, name.text) {
        Ok(known) => Ok(known.is_none()),
        Err(ExprError::Faulty(_, _)) => Ok(false),
        Err(ExprError::Memory) => Err(AllocError),
    }
}

/// Whether one of some names does.
pub(crate) fn any_unknown(
    scope: &Scope<'_>,
    place: Place,
    names: &[UsedName<'_>],
) -> Result<bool, AllocError>
    ensures { IfOk result (λ b. b ≡ list_any (is_unknown (scope_of scope.now)) (map used names.now)) }
{
    for name in names {
        if is_unknown(scope, place, *name)? {
            return Ok(true);
        }
    }
    Ok(false)
}

/// The names that a type, if one is written, and values use. An `Err` only where memory ran out.
pub(crate) fn names_used<'a>(
    alloc: Global,
    of: Option<&'a TypeExpr>,
    values: &'a [Expr],
) -> Result<Vec<UsedName<'a>>, AllocError>
    ensures { IfOk result (λ names. map used names.items ≡ if_any in_type (option_map (λ t. type_tree t.now) of.entry) ++ in_exprs (exprs_trees values.now)) }
{
    let mut names = Vec::new(alloc);
    if let Some(of) = of {
        add_type_names(of, &mut names)?;
    }
    add_all_names(values, &mut names)?;
    Ok(names)
}

fn add_all_names<'a>(values: &'a [Expr], names: &mut Vec<UsedName<'a>>) -> Result<(), AllocError>
    ensures { OnOk result (map used names.new.items ≡ map used names.old.items ++ in_exprs (exprs_trees values.now)) }
{
    for value in values {
        add_names(value, names)?;
    }
    Ok(())
}

/// Whether it isn't told what a loop over a range breaks: a name in its body stands for a faulty
/// declaration, and is not its own variable. A range that breaks no rule gives that a type.
pub(crate) fn is_hidden(
    alloc: Global,
    context: Context<'_>,
    env: &Env,
    name: &Option<Name>,
    of: &Option<GoType>,
    body: &Block,
) -> Result<bool, AllocError>
    ensures { let s = scope_in (context_of context.entry) None (env_of env.now) in
        IfOk result (λ b. b ≡ is_unsure s name.now (option_map go_type of.now) (block_of body.now)) }
{
    if of.is_some() {
        return Ok(false);
    }
    let names = names_outside(alloc, name, body)?;
    any_unknown(&env.scope(context, None), body.closing, &names)
}
