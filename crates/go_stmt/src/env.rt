//! What is in scope in a function.
//! [Declarations and scope](https://go.dev/ref/spec#Declarations_and_scope)
ghost use Rattle.std.specs.Prelude.{◌≡◌, ◌∷◌, [], Ok, OnOk, map, option_map, option_copied};
ghost use Rattle.go_types.specs.Views.{go_type};
ghost use Rattle.go_expr.specs.Views.{declared_of, scope_of};
ghost use Rattle.go_stmt.specs.Scopes.{nothing, scope_in, enter_scope, leave, own, variable_number, declare_variable, declare_new, declare_name};
ghost use Rattle.go_stmt.specs.Views.{context_of, env_of};

use crate::context::Context;
use go_ast::name::Name;
use go_expr::known::Declared;
use go_expr::scope::Scope;
use go_scope::scopes::{DeclareError, Scopes};
use go_types::types::GoType;
use std::alloc::{AllocError, Global};

/// What the names in the blocks round a place declare, where that is known, and the types of the
/// function's local variables so far, by their numbers.
#[derive(Drop)]
pub(crate) struct Env {
    pub(crate) names: Scopes<Option<Declared>>,
    pub(crate) types: Vec<GoType>,
}

impl Env {
    /// Nothing is declared.
    pub(crate) fn new(alloc: Global) -> Env
        ensures { env_of result ≡ nothing }
    {
        Env {
            names: Scopes::new(alloc),
            types: Vec::new(alloc),
        }
    }

    /// Goes into a block. An `Err` only where memory ran out.
    pub(crate) fn enter(&mut self) -> Result<(), AllocError>
        ensures { OnOk result (env_of self.new ≡ enter_scope (env_of self.old)) }
    {
        self.names.enter()
    }

    /// Goes out of a block. Variables keep their numbers.
    pub(crate) fn leave(&mut self)
        ensures { env_of self.new ≡ leave (env_of self.old) }
    {
        self.names.leave();
    }

    /// What names find there; in a group of constants iota has a value.
    pub(crate) fn scope<'a>(&'a self, context: Context<'a>, iota: Option<u64>) -> Scope<'a>
        ensures { scope_of result ≡ scope_in (context_of context.entry) iota (env_of self.now) }
    {
        Scope::in_blocks(
            context.path,
            context.edition,
            context.imports,
            context.declared,
            iota,
            &self.names,
        )
    }

    /// What the innermost block has under a name.
    pub(crate) fn own(&self, name: &Name) -> Option<&Option<Declared>>
        ensures { option_map (option_map declared_of) (option_copied result) ≡ own (env_of self.now) name.now }
    {
        if self.names.is_own(name.text()) {
            self.names.look_up(name.text())
        } else {
            None
        }
    }

    /// The number of a variable of the innermost block.
    pub(crate) fn number_of(&self, name: &Name) -> Option<usize>
        ensures { result ≡ variable_number (env_of self.now) name.now }
    {
        match self.own(name) {
            Some(Some(Declared::Local(_, number))) => Some(*number),
            _ => None,
        }
    }

    /// The types of the function's local variables, by their numbers.
    pub(crate) fn into_types(self) -> Vec<GoType>
        ensures { map go_type result.items ≡ (env_of self).types }
    {
        self.types
    }

    /// A variable more, which has the next number, where its type is known; the blank name has none.
    /// An `Err` only where memory ran out or the innermost block has the name.
    #[tactic(auto, using(crate::proofs::Lookups::shown_more))]
    pub(crate) fn declare_variable(
        &mut self,
        name: &Name,
        of: Option<GoType>,
    ) -> Result<(), AllocError>
        ensures { OnOk result (env_of self.new ≡ declare_variable name.now.text (option_map go_type of) (env_of self.old)) }
    {
        match of {
            None => declared(self.names.declare(name.text(), None)),
            Some(of) => {
                let local = Declared::Local(of.copy()?, self.types.len());
                self.types.push(of)?;
                declared(self.names.declare(name.text(), Some(local)))
            }
        }
    }

    /// A variable for a name that the innermost block hasn't; the blank name has none. An `Err` only
    /// where memory ran out.
    pub(crate) fn declare_new(&mut self, name: &Name, of: Option<GoType>) -> Result<(), AllocError>
        ensures { OnOk result (env_of self.new ≡ declare_new ((name.now, option_map go_type of) ∷ []) (env_of self.old)) }
    {
        if name.text() == "_" {
            return Ok(());
        }
        if self.names.is_own(name.text()) {
            return Ok(());
        }
        self.declare_variable(name, of)
    }

    /// A name more in the innermost block; the blank one declares nothing. An `Err` where the block has
    /// it, or memory ran out.
    pub(crate) fn declare(&mut self, name: &Name, value: Option<Declared>) -> Result<(), AllocError>
        ensures { OnOk result (env_of self.new ≡ declare_name name.now.text (option_map declared_of value) (env_of self.old)) }
    {
        declared(self.names.declare(name.text(), value))
    }
}

/// A name is declared, or memory ran out.
fn declared(given: Result<(), DeclareError>) -> Result<(), AllocError>
    ensures { OnOk result (given ≡ Ok (tt {0})) }
{
    match given {
        Ok(()) => Ok(()),
        Err(_) => Err(AllocError),
    }
}
