//! Laws of summaries.
ghost use Rattle.std.specs.Prelude.{◌≡◌, List, ℕ, None, if◌then◌else◌};
ghost use Rattle.std.specs.Cmp.Lexicographic.{slice_cmp};
ghost use Rattle.std.specs.List.{All};
ghost use Rattle.std.specs.List.Sorted.{IsStrictlySortedBy};
ghost use Rattle.std.specs.Map.{keys_of, values_of};
ghost use Rattle.std.specs.Ordering.{nat_cmp};
ghost use Rattle.go_typed.specs.Trees.{Package};
ghost use Rattle.go_types.specs.Names.{is_exported};
ghost use Rattle.go_export.specs.Exports.{declared_by, exports_of, look_up_export};
ghost use Rattle.go_export.specs.Summaries.{Summary as ASummary, summary_text};
ghost use Rattle.go_export.specs.Writable.{IsShown, IsWritten};

/// Written summaries of one edition and one text are equal.
pub fn law_one_summary()
    ensures { (s t : ASummary) → IsWritten s → IsWritten t → s.edition ≡ t.edition → summary_text s ≡ summary_text t → s ≡ t }
{}

/// What a package exports is in byte order of names, each once, and an exported name has there what
/// the package declares it as, any other name nothing. Where all that the package declares can be
/// shown, so can what it exports.
pub fn law_exports()
    ensures ordered { (p : Package) → IsStrictlySortedBy (slice_cmp nat_cmp) (keys_of (exports_of p)) }
    ensures found { (p : Package) (x : List ℕ) → look_up_export x (exports_of p) ≡ (if is_exported x then look_up_export x (declared_by p) else None) }
    ensures shown { (p : Package) → All IsShown (values_of (declared_by p)) → All IsShown (values_of (exports_of p)) }
{}
