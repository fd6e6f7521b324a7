//! What holds of the typed trees of functions.
ghost use Rattle.std.specs.Prelude.{◌≡◌, Some};
ghost use Rattle.go_ast.specs.Trees.{FunctionDecl};
ghost use Rattle.go_package_laws.specs.TypedStatements.{IsTypedBody};
ghost use Rattle.go_stmt.specs.Functions.{function_at};
ghost use Rattle.go_stmt.specs.Scopes.{Context};
ghost use Rattle.go_typed.specs.Trees.{Function as TypedFunction};

/// The typed body of a function follows its statements form by form: none is left out, and none is
/// added.
pub fn law_typed_body_follows_its_statements()
    ensures { (c : Context) (f : FunctionDecl) (t : TypedFunction) → (function_at c f).known ≡ Some t → IsTypedBody f.body t.body }
{}
