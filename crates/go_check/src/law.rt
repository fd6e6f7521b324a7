//! What holds of all files of packages, and of what importers find.
ghost use Rattle.std.specs.Prelude.{◌≡◌, ℕ, List};
ghost use Rattle.go_text.specs.Faults.{Fault};
ghost use Rattle.go_ast.specs.Trees.{File};
ghost use Rattle.go_ast.specs.Parse.{Parsed};
ghost use Rattle.go_typed.specs.Trees.{Package};
ghost use Rattle.go_export.specs.Summaries.{summary_of};
ghost use Rattle.go_package.specs.Imports.{Importable};
ghost use Rattle.go_package.specs.Claims.{AtMostOne, NeverBoth};
ghost use Rattle.go_check.specs.Names.{importable_by, importable_of};
ghost use Rattle.go_check.specs.Checked.{AreTrees, AreTyped, AreTypedOrFaulty, HaveFault, HoldsBySummaries};

/// Files are one typed package, or have one fault, and never both.
pub fn law_one_check()
    ensures typed { (path : List ℕ) (files : List Parsed) (imports : List Importable)
        → AtMostOne (AreTyped path files imports) }
    ensures fault { (path : List ℕ) (files : List Parsed) (imports : List Importable)
        → AtMostOne (HaveFault path files imports) }
    ensures both { (path : List ℕ) (files : List Parsed) (imports : List Importable)
        → NeverBoth (AreTyped path files imports) (HaveFault path files imports) }
{}

/// Files that parse are a typed package or have a fault.
pub fn law_some_check()
    ensures { (path : List ℕ) (files : List Parsed) (imports : List Importable) (trees : List File)
        → AreTrees files trees → AreTypedOrFaulty path files imports }
{}

/// To check against summaries of packages is to check against the packages themselves.
pub fn law_by_summaries()
    ensures typed { (path : List ℕ) (files : List Parsed) (packages : List Package) (typed : Package)
        → HoldsBySummaries packages (λ imports. AreTyped path files imports typed) }
    ensures fault { (path : List ℕ) (files : List Parsed) (packages : List Package) (fault : Fault)
        → HoldsBySummaries packages (λ imports. HaveFault path files imports fault) }
{}

/// By a package's summary importers find what they find by its typed tree.
pub fn law_importable()
    ensures { (p : Package) → importable_by (summary_of p) ≡ importable_of p }
{}
