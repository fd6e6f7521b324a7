//! What holds of the orders of packages and of variables.
ghost use Rattle.std.specs.Prelude.{◌≡◌, ◌↔◌, ◌<◌, ◌++◌, ◌∷◌, [], ◌+◌, ℕ, Bool, List, true, length};
ghost use Rattle.std.specs.List.{All, Contains, count_by};
ghost use Rattle.ws_reach.specs.Reach.{Edge, Reaches};
ghost use Rattle.go_typed.specs.Trees.{Initialization, Package};
ghost use Rattle.go_init.specs.Packages.{package_order};
ghost use Rattle.go_init.specs.Variables.{depends, referred, sets, variable_order};

/// In package order stand packages alone, each once, and each behind what it imports. All do exactly
/// where no imports lead in a circle, so where ranks fall along imports. A package that reaches all
/// others stands last.
pub fn law_package_order()
    ensures below { (rows : List (List ℕ)) → All (λ k. k < length rows) (package_order rows) }
    ensures once { (rows : List (List ℕ)) (before after : List ℕ) (k : ℕ) → package_order rows ≡ before ++ k ∷ after → ¬ (Contains before k) }
    ensures behind { (rows : List (List ℕ)) (before after : List ℕ) (k j : ℕ) → package_order rows ≡ before ++ k ∷ after
        → Edge rows k j → j < length rows → Contains before j }
    ensures circles { (rows : List (List ℕ)) → ((k : ℕ) → k < length rows → Contains (package_order rows) k)
        ↔ ((p q : ℕ) → Edge rows p q → ¬ (Reaches (Edge rows) q p)) }
    ensures ranked { (rows : List (List ℕ)) (rank : ℕ → ℕ) → ((p q : ℕ) → Edge rows p q → rank q < rank p)
        → (k : ℕ) → k < length rows → Contains (package_order rows) k }
    ensures last { (rows : List (List ℕ)) (target : ℕ) → Contains (package_order rows) target
        → ((k : ℕ) → k < length rows → Reaches (Edge rows) target k) → (before : List ℕ) × (package_order rows ≡ before ++ target ∷ []) }
{}

/// An initialization depends on another where a name in its values leads to a variable of the other:
/// by any way along what names refer to.
pub fn law_depends()
    ensures { (p : Package) (i j : Initialization) → depends p i j ≡ true ↔ ((x y : List ℕ) × Contains i.references x
        × Reaches (λ u v. Contains (referred p u) v) x y × (sets j y ≡ true)) }
{}

/// The order and what is left over have what is initialized, each as often as it is there. In the
/// order each stands behind what it depends on. None is left over exactly where none depends on
/// itself.
pub fn law_variable_order()
    ensures each { (p : Package) (kind : Initialization → Bool)
        → count_by kind (variable_order p).0 + count_by kind (variable_order p).1 ≡ count_by kind p.initializations }
    ensures behind { (p : Package) (before after : List Initialization) (i j : Initialization) → (variable_order p).0 ≡ before ++ i ∷ after
        → Contains p.initializations j → depends p i j ≡ true → Contains before j }
    ensures circles { (p : Package) → (variable_order p).1 ≡ []
        ↔ ((i : Initialization) → Contains p.initializations i → ¬ (depends p i i ≡ true)) }
{}
