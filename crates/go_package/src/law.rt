//! What holds of all packages.
ghost use Rattle.std.specs.Prelude.{◌≡◌, ◌⊎◌, ◌<◌, ℕ, List, [], length, Some, None};
ghost use Rattle.go_text.specs.declared.edition.Edition.{Edition};
ghost use Rattle.go_text.specs.declared.place.Place.{Place};
ghost use Rattle.go_text.specs.declared.fault.FaultKind.{FaultKind};
ghost use Rattle.go_ast.specs.Trees.{File};
ghost use Rattle.go_typed.specs.Trees as typed;
ghost use Rattle.go_scope.specs.Order.{Grounded};
ghost use Rattle.go_objects.specs.Objects.{objects_of};
ghost use Rattle.go_objects.specs.Table.{PackageTable, rows};
ghost use Rattle.go_package.specs.Faults.{Facts, AreRecursive, files_faults};
ghost use Rattle.go_package.specs.Imports.{Importable};
ghost use Rattle.go_package.specs.Claims.{AtMostOne, OfAllFiles, SomeOne};
ghost use Rattle.go_package.specs.Packages.{AreFacts, IsFaultOf};
ghost use Rattle.go_package.specs.Typed.{IsTypedFrom};

/// A package has one fault, or has none.
pub fn law_one_fault()
    ensures { (edition : Edition) (path : List ℕ) (files : List File) (ps : List Importable)
        → AtMostOne (IsFaultOf edition path files ps) }
{}

/// The fault of a package stands in one of its files.
pub fn law_fault_within()
    ensures { (edition : Edition) (path : List ℕ) (files : List File) (ps : List Importable) (fault : ℕ × (Place × FaultKind))
        → IsFaultOf edition path files ps (Some fault) → fault.0 < length files }
{}

/// Of each package it holds what is known of its names, and which of them depend on themselves.
pub fn law_some_facts()
    ensures { (p : PackageTable) → (facts : Facts) × AreFacts p facts }
{}

/// Each package has a first fault, or has none and is a typed package.
pub fn law_some_fault()
    ensures { OfAllFiles (λ path files ps edition names. (fault : _) × IsFaultOf edition path files ps fault
        × (fault ≡ None → SomeOne (IsTypedFrom edition path files ps names))) }
{}

/// A package with a fault isn't a typed package, and one without is.
pub fn law_fault_or_typed()
    ensures either { OfAllFiles (λ path files ps edition names. SomeOne (λ fault. IsFaultOf edition path files ps (Some fault))
        ⊎ SomeOne (IsTypedFrom edition path files ps names)) }
    ensures faultless { OfAllFiles (λ path files ps edition names. (t : typed.Package)
        → IsTypedFrom edition path files ps names t → IsFaultOf edition path files ps None) }
{}

/// A package is one typed package.
pub fn law_one_typed()
    ensures { OfAllFiles (λ path files ps edition names. AtMostOne (IsTypedFrom edition path files ps names)) }
{}

/// Where no declaration has a fault, none leads to one that depends on itself: what is known of each is what its form declares.
pub fn law_faultless_is_grounded()
    ensures { (t : Facts) (files : List File) → t.package.objects ≡ objects_of files → AreRecursive (rows t.package) t.recursive → files_faults t 0 files ≡ []
        → (k : ℕ) → Grounded (rows t.package) k }
{}
