//! What holds of all packages.
ghost use Rattle.std.specs.Prelude.{◌≡◌, ℕ, List, map, false};
ghost use Rattle.std.specs.List.{Contains};
ghost use Rattle.go_ast.specs.Trees.{Expression, TypeExpr};
ghost use Rattle.go_scope.specs.Names.{in_expr, in_type};
ghost use Rattle.go_expr.specs.Known.{Names, Scope, look_up_known};
ghost use Rattle.go_expr.specs.Verdicts.{verdict, type_verdict};
ghost use Rattle.go_objects.specs.Table.{PackageTable, IsTable};

/// Scopes of one path that find the same for each name that an expression uses give it one verdict, and likewise a type.
pub fn law_agreeing_scopes()
    ensures expressions { (s r : Scope) (e : Expression) → s.path ≡ r.path
        → ((x : List ℕ) → Contains (map (λ u. u.0) (in_expr false e)) x → look_up_known x s.names ≡ look_up_known x r.names)
        → verdict s e ≡ verdict r e }
    ensures types { (s r : Scope) (t : TypeExpr) → s.path ≡ r.path
        → ((x : List ℕ) → Contains (map (λ u. u.0) (in_type t)) x → look_up_known x s.names ≡ look_up_known x r.names)
        → type_verdict s t ≡ type_verdict r t }
{}

/// A package has one table: what is known of its objects is the same in whatever order they are looked at.
pub fn law_one_table()
    ensures { (p : PackageTable) (known other : Names) → IsTable p known → IsTable p other → known ≡ other }
{}
