//! What holds of all expressions, types, functions and packages without fault.
ghost use Rattle.std.specs.Prelude.{◌≡◌, ◌++◌, ℕ, List, [], map, false};
ghost use Rattle.go_text.specs.declared.edition.Edition.{Edition};
ghost use Rattle.go_ast.specs.Trees.{Expression, File, FunctionDecl, TypeExpr};
ghost use Rattle.go_scope.specs.Names.{in_expr, in_type};
ghost use Rattle.go_typed.specs.Trees.{Package};
ghost use Rattle.go_expr.specs.Known.{Fine, Names, Scope, package'};
ghost use Rattle.go_expr.specs.Rules.{fine};
ghost use Rattle.go_expr.specs.Verdicts.{operand, operand_broken, verdict, faults, type_verdict, type_faults};
ghost use Rattle.go_stmt.specs.Scopes.{Context};
ghost use Rattle.go_stmt.specs.Functions.{function_at};
ghost use Rattle.go_objects.specs.Table.{imports_at};
ghost use Rattle.go_package.specs.Faults.{Facts};
ghost use Rattle.go_package.specs.Claims.{OfAllFiles};
ghost use Rattle.go_package.specs.Imports.{Importable};
ghost use Rattle.go_package.specs.Typed.{IsTypedFrom};
ghost use Rattle.go_package_laws.specs.Finds.{AreKnown, AllImportsAreKnown, Finds, FindsOutside, HasTreeIfFaultless, HaveWholeExports, IsKnown, IsDetermined, WhereFaultless};
ghost use Rattle.go_package_laws.specs.Locals.{IsLocalBlock};
ghost use Rattle.go_package_laws.specs.Whole.{AreParsed, DropNothing, HasAllDeclarations};

/// An expression or a type without fault is known where each name in it finds what is known or breaks a rule: nothing of it was passed over.
pub fn law_faultless_is_known()
    ensures expressions { (s : Scope) (e : Expression) → Finds s (map (λ u. u.0) (in_expr false e)) → faults s e ≡ [] → IsKnown (fine (verdict s e)) }
    ensures values { (s : Scope) (e : Expression) → Finds s (map (λ u. u.0) (in_expr false e))
        → faults s e ++ operand_broken e (verdict s e) ≡ [] → IsKnown (operand (verdict s e)) }
    ensures types { (s : Scope) (t : TypeExpr) → Finds s (map (λ u. u.0) (in_type t)) → type_faults s t ≡ [] → IsKnown (fine (type_verdict s t)) }
{}

/// A function without fault has a typed tree where each name outside of it finds what is known or breaks a rule, if its body declares no types,
/// for which the grammar has no statement.
pub fn law_faultless_function_is_known()
    ensures { (c : Context) (f : FunctionDecl) → FindsOutside c → IsLocalBlock f.body
        → (function_at c f).faults ≡ [] → IsKnown (function_at c f).known }
{}

/// Where each object of a package is known, and all that a file imports, its functions without fault have typed trees.
pub fn law_known_objects_give_trees()
    ensures { (t : Facts) (file : ℕ) (f : FunctionDecl) → AllImportsAreKnown (imports_at t.package file) → AreKnown t.known
        → HasTreeIfFaultless t file f }
{}

/// Where each name that a package exports is known, no selector of an import of it finds what was passed over.
pub fn law_known_exports_are_whole()
    ensures { (names : Names) → AreKnown names → IsDetermined (Fine (package' names)) }
{}

/// Of a package without fault each object is known that its files declare, where each name is known that the packages export which it may import.
pub fn law_faultless_package_is_known()
    ensures { (e : Edition) (path : List ℕ) (files : List File) (ps : List Importable) (t : Facts) → HaveWholeExports ps
        → WhereFaultless e path files ps t (AreKnown t.known) }
{}

/// The objects of a package without fault are all that its files declare, but the blank names, where the files are those of texts.
pub fn law_faultless_drops_nothing()
    ensures { (e : Edition) (path : List ℕ) (files : List File) (ps : List Importable) (t : Facts) → AreParsed e files
        → WhereFaultless e path files ps t (DropNothing files) }
{}

/// The tree of a package without fault leaves nothing out, where the files are those of texts: it has each constant, type, variable and function that they
/// declare under a name that isn't blank, and the initialization of each variable that has a value, also of a blank one, in the order of the text.
pub fn law_typed_package_is_whole()
    ensures { OfAllFiles (λ path files ps e names. (t : Package)
        → HaveWholeExports ps → AreParsed e files → IsTypedFrom e path files ps names t → HasAllDeclarations files t) }
{}
