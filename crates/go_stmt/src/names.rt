//! Names that are declared. [Declarations and scope](https://go.dev/ref/spec#Declarations_and_scope)
ghost use Rattle.std.specs.Prelude.{◌≡◌, ◌++◌, ◌∷◌, ◌||◌, is_some, position, [], IfOk, OnOk};
ghost use Rattle.std.specs.List.{list_any};
ghost use Rattle.std.specs.Str.{bytes_eq};
ghost use Rattle.go_stmt.specs.Rules.{differ};
ghost use Rattle.go_stmt.specs.Scopes.{own};
ghost use Rattle.go_stmt.specs.Statements.{names_faults, place_of_first};
ghost use Rattle.go_stmt.specs.Views.{env_of, own_texts, Finds};

use crate::env::Env;
use go_ast::name::Name;
use go_expr::error::ExprError;
use go_scope::name_index::NameIndex;
use go_text::fault::FaultKind;
use go_text::place::Place;
use std::alloc::{AllocError, Global};

/// Adds a name to others, unless it is blank, and tells whether it is one of them. An `Err` only where
/// memory ran out.
fn add_name<'a>(names: &mut NameIndex<'a>, name: &'a Name) -> Result<bool, AllocError>
    ensures known { IfOk result (λ b. b ≡ list_any (λ x. is_some (position (bytes_eq x) names.old)) (own_texts (name.now ∷ []))) }
    ensures added { OnOk result (names.new ≡ names.old ++ own_texts (name.now ∷ [])) }
{
    if name.text() == "_" {
        return Ok(false);
    }
    Ok(names.insert(name.text())?.is_some())
}

/// Whether no name stands twice but the blank one.
pub(crate) fn differ(alloc: Global, names: &[Name]) -> Result<bool, AllocError>
    ensures { IfOk result (λ b. b ≡ differ names.now) }
{
    let mut before = NameIndex::new(alloc);
    for name in names {
        if add_name(&mut before, name)? {
            return Ok(false);
        }
    }
    Ok(true)
}

/// Whether a name can't be declared behind others: its block has it, or one of them is the same.
fn is_taken(env: &Env, name: &Name, doubled: bool) -> bool
    ensures { result ≡ (is_some (own (env_of env.now) name.now) || doubled) }
{
    env.own(name).is_some() || doubled
}

/// Names that are declared. `Redeclared` where their block has one, or one stands twice.
pub(crate) fn check_names(alloc: Global, env: &Env, names: &[Name]) -> Result<(), ExprError>
    ensures { Finds result (names_faults (env_of env.now) [] names.now) }
{
    let mut before = NameIndex::new(alloc);
    for name in names {
        let doubled = add_name(&mut before, name)?;
        if is_taken(env, name, doubled) {
            return Err(ExprError::Faulty(name.place(), FaultKind::Redeclared));
        }
    }
    Ok(())
}

/// The place of a declaration at a place: that of its first name.
pub(crate) fn place_at(place: Place, names: &[Name]) -> Place
    ensures { result ≡ place_of_first place names.now }
{
    match names {
        [] => place,
        [first, ..] => first.place(),
    }
}
