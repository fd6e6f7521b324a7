//! What holds of the typed trees that the checker makes.
ghost use Rattle.std.specs.Prelude.{◌≡◌, ◌≢◌, ℕ, List, [], ◌∷◌, map, Some, None};
ghost use Rattle.std.specs.List.{All, Contains};
ghost use Rattle.std.specs.Map.{values_of};
ghost use Rattle.go_ast.specs.Trees.{File};
ghost use Rattle.go_code.specs.Images.{Image};
ghost use Rattle.go_link.specs.declared.link.LinkError.TheVariants.{NoMain};
ghost use Rattle.go_link.specs.Links.{link_refusal};
ghost use Rattle.go_typed.specs.Trees.{Initialization, Package};
ghost use Rattle.go_meaning.specs.Meaning.{Stuck};
ghost use Rattle.go_init.specs.Variables.{variable_order};
ghost use Rattle.go_meaning.specs.Programs.{IsProgram, calls, package_steps, run_program, package_symbol};
ghost use Rattle.go_export.specs.Exports.{exports_of};
ghost use Rattle.go_export.specs.Writable.{IsShown};
ghost use Rattle.go_package.specs.Imports.{Importable};
ghost use Rattle.go_meaning_laws.specs.WellTyped.{IsWellTyped};
ghost use Rattle.go_gen.specs.Translation.{object_of};
ghost use Rattle.go_translation_laws.specs.Programs.{HaveOneEdition, IsLinked, MeansTheSame, MakesSense};
ghost use Rattle.go_package_laws.specs.Packages.{AreLibraries, AreProgram, AreChecked, IsNamedMain, HavePlainPaths, HasMeaning, IsSole, SomeMain, CallsInto, SomeImport};

/// Packages whose files have no fault, each checked with packages that stand before it, are well
/// typed, and so is what comes before main; and they are a program where the last is named main.
/// Their paths differ, and the variables of each get their values in some order.
pub fn law_checked_packages_are_well_typed()
    ensures { (packages : List Package) → AreChecked packages → IsNamedMain packages → IsWellTyped packages × IsProgram packages }
{}

/// Such a program breaks no rule of the language, whatever its number of ticks: it has a meaning.
pub fn law_checked_program_is_never_stuck()
    ensures never { (packages : List Package) (ticks : ℕ) → AreChecked packages → IsNamedMain packages → run_program packages ticks ≢ Stuck }
    ensures means { (packages : List Package) (ticks : ℕ) → AreChecked packages → IsNamedMain packages → HasMeaning packages ticks }
{}

/// Such a program is linked where its packages are of one edition, and checked packages of which the
/// last isn't named main are refused for that. Whatever its number of ticks, its image prints and
/// ends as its sources mean and in no other way, and its code makes sense.
pub fn law_checked_program_means_its_sources()
    ensures linked { (packages : List Package) → AreChecked packages → IsNamedMain packages → HaveOneEdition packages
        → link_refusal (map object_of packages) ≡ None }
    ensures refused { (packages : List Package) → AreChecked packages → (IsNamedMain packages → ⊥) → link_refusal (map object_of packages) ≡ Some NoMain }
    ensures same { (packages : List Package) (image : Image)
        → AreChecked packages → IsNamedMain packages → IsLinked packages image → MeansTheSame packages image }
    ensures sense { (packages : List Package) (image : Image) (ticks : ℕ)
        → AreChecked packages → IsNamedMain packages → IsLinked packages image → MakesSense image ticks }
{}

/// What such a package exports can be shown, so that the text of its summary tells it, where no path
/// has a space or a closing brace: names hold no space, closing brace or dot, and each constant is
/// one of its type.
pub fn law_checked_packages_are_shown()
    ensures { (packages : List Package) (p : Package) → AreChecked packages → HavePlainPaths packages → Contains packages p
        → All IsShown (values_of (exports_of p)) }
{}

/// A package of files that may import libraries alone is such a program by itself, where it is named
/// main.
pub fn law_one_checked_package()
    ensures { (path : List ℕ) (files : List File) (ps : List Importable) (names : List (List ℕ)) (p : Package)
        → AreLibraries ps → AreProgram path files ps names p → IsSole p }
{}

/// Files named main without fault can have an initial value, or a function init, which come before
/// main. A value can depend on itself, too: of such a package the laws above say nothing.
pub fn law_packages_may_be_initialized()
    ensures valued { (path : List ℕ) → SomeMain Initialization (λ p i. variable_order p ≡ (i ∷ [], [])) path }
    ensures init { (path : List ℕ) → SomeMain (List ℕ) (λ p x. package_steps p ≡ calls (package_symbol p x) ∷ []) path }
    ensures circular { (path : List ℕ) → SomeMain Initialization (λ p i. variable_order p ≡ ([], i ∷ [])) path }
{}

/// A package named main without fault can call a function of another without fault that it imports.
/// No list of checked packages has one twice.
pub fn law_packages_may_import()
    ensures calls { (path : List ℕ) → SomeImport path }
    ensures once { (p : Package) → AreChecked (p ∷ p ∷ []) → ⊥ }
{}

/// There are such programs: two texts are parsed to the files of a package without fault and of a
/// package main without fault, which imports it and calls its function.
pub fn law_texts_may_be_checked()
    ensures { (q p : Package) × AreChecked (q ∷ p ∷ []) × IsNamedMain (q ∷ p ∷ []) × CallsInto q p }
{}
