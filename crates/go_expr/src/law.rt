//! What holds of all expressions and types.
ghost use Rattle.std.specs.Prelude.{◌≡◌, ◌≢◌, [], None};
ghost use Rattle.go_ast.specs.Trees.{Expression, TypeExpr};
ghost use Rattle.go_expr.specs.Known.{Scope};
ghost use Rattle.go_expr.specs.Rules.{fine};
ghost use Rattle.go_expr.specs.Verdicts.{verdict, faults, type_verdict, type_faults};

/// Nothing is known of what has a fault, so that what stands on it is passed over.
pub fn law_faulty_is_unknown()
    ensures expressions { (s : Scope) (e : Expression) → faults s e ≢ [] → fine (verdict s e) ≡ None }
    ensures types { (s : Scope) (t : TypeExpr) → type_faults s t ≢ [] → fine (type_verdict s t) ≡ None }
{}
