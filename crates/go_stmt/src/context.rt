//! Where a statement stands.
ghost use Rattle.std.specs.Prelude.{◌≡◌, None, map, option_map};
ghost use Rattle.std.specs.List.{flat_map, list_any};
ghost use Rattle.std.specs.Str.{bytes_eq};
ghost use Rattle.go_ast.specs.Trees.{pack_statements};
ghost use Rattle.go_ast.specs.Views.{const_of, stmt_of};
ghost use Rattle.go_ast.specs.Trees as trees;
ghost use Rattle.go_uses.specs.Uses.{texts};
ghost use Rattle.go_stmt.specs.Statements.{in_block, in_loop, in_clause, constant_names, all_empty, before_others};
ghost use Rattle.go_types.specs.Views.{go_type};
ghost use Rattle.go_expr.specs.Views.{scope_of};
ghost use Rattle.go_stmt.specs.Scopes.{nothing, scope_in};
ghost use Rattle.go_stmt.specs.Views.{constant_names_in, context_of, trees_in};

use go_ast::declaration::{ConstSpec, Decl};
use go_ast::name::Name;
use go_ast::statement::Stmt;
use go_expr::known::Names;
use go_expr::scope::{Import, Scope};
use go_text::edition::Edition;
use go_types::types::GoType;

/// Where a statement stands: in a package and a file, in a function, and in statements in which a
/// break, a continue or a fallthrough may stand.
#[derive(Clone, Copy)]
pub(crate) struct Context<'a> {
    /// The path of the package.
    pub(crate) path: &'a str,
    /// Its edition.
    pub(crate) edition: Edition,
    /// What the imports of the file declare.
    pub(crate) imports: &'a [Import<'a>],
    /// What the package declares.
    pub(crate) declared: &'a Names,
    /// The types of the function's results, each where it is known.
    pub(crate) results: &'a [Option<GoType>],
    /// The statements before this one in its block.
    pub(crate) before: &'a [Stmt],
    /// Whether a break may stand here.
    pub(crate) breaks: bool,
    /// Whether a continue may stand here.
    pub(crate) continues: bool,
    /// Whether a fallthrough may stand here.
    pub(crate) falls: bool,
}

impl<'a> Context<'a> {
    /// What names find outside of the function.
    pub(crate) fn outside(self) -> Scope<'a>
        ensures { scope_of result ≡ scope_in (context_of self.entry) None nothing }
    {
        Scope::new(self.path, self.edition, self.imports, self.declared, None)
    }

    /// In a function with results of these types, each where it is known.
    pub(crate) fn returning(self, results: &'a [Option<GoType>]) -> Context<'a>
        ensures { context_of result ≡ record (context_of self.entry) { results = map (option_map go_type) results.now } }
    {
        Context { results, ..self }
    }

    /// Behind some statements of a block.
    pub(crate) fn behind(self, before: &'a [Stmt]) -> Context<'a>
        ensures { context_of result ≡ record (context_of self.entry) { constants = constant_names_in before.now } }
    {
        Context { before, ..self }
    }

    /// In a block.
    pub(crate) fn in_block(self) -> Context<'a>
        ensures { context_of result ≡ in_block (context_of self.entry) }
    {
        Context {
            falls: false,
            before: &[],
            ..self
        }
    }

    /// In the body of a loop.
    pub(crate) fn in_loop(self) -> Context<'a>
        ensures { context_of result ≡ in_loop (context_of self.entry) }
    {
        Context {
            breaks: true,
            continues: true,
            ..self
        }
    }

    /// In a clause, which another follows or not.
    pub(crate) fn in_clause(self, falls: bool) -> Context<'a>
        ensures { context_of result ≡ in_clause (context_of self.entry) falls }
    {
        Context {
            breaks: true,
            falls,
            before: &[],
            ..self
        }
    }

    /// In front of some statements: a fallthrough is the last one that isn't empty.
    pub(crate) fn before_others(self, others: &[Stmt]) -> Context<'a>
        ensures { context_of result ≡ before_others (context_of self.entry) (trees_in others.now) }
    {
        Context {
            falls: self.falls && all_empty(others),
            ..self
        }
    }
}

/// Whether some statements are all empty.
#[tactic(auto, unfolding(go_ast::specs::Views::stmt_of))]
pub(crate) fn all_empty(statements: &[Stmt]) -> bool
    ensures { result ≡ all_empty (trees_in statements.now) }
{
    for s in statements {
        let Stmt::Empty(_) = s else {
            return false;
        };
    }
    true
}

/// Whether some statements declare a constant of a name.
pub(crate) fn is_constant(statements: &[Stmt], name: &Name) -> bool
    ensures { result ≡ list_any (bytes_eq name.now.text) (constant_names_in statements.now) }
{
    for s in statements {
        if declares_constant(s, name) {
            return true;
        }
    }
    false
}

#[tactic(auto, unfolding(go_ast::specs::Views::stmt_of))]
fn declares_constant(s: &Stmt, name: &Name) -> bool
    ensures { result ≡ list_any (bytes_eq name.now.text) (constant_names (stmt_of s.now)) }
{
    match s {
        Stmt::Declaration(_, Decl::Constants(_, specs)) => any_has(specs, name),
        _ => false,
    }
}

fn any_has(specs: &[ConstSpec], name: &Name) -> bool
    ensures { result ≡ list_any (bytes_eq name.now.text) (flat_map (λ (s : trees.ConstSpec). texts s.names) (map const_of specs.now)) }
{
    for spec in specs {
        if are_named(&spec.names, name) {
            return true;
        }
    }
    false
}

fn are_named(names: &[Name], name: &Name) -> bool
    ensures { result ≡ list_any (bytes_eq name.now.text) (texts names.now) }
{
    for other in names {
        if name.text() == other.text() {
            return true;
        }
    }
    false
}
