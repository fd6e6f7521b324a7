//! What holds of a linked program: it means its sources.
ghost use Rattle.std.specs.Prelude.{◌≡◌, ◌↔◌, ℕ, List, map, Some, None};
ghost use Rattle.go_code.specs.Images.{Image};
ghost use Rattle.go_link.specs.declared.link.LinkError.{LinkError};
ghost use Rattle.go_link.specs.declared.link.LinkError.TheVariants.{NoMain, EditionsDiffer};
ghost use Rattle.go_link.specs.Links.{link_refusal};
ghost use Rattle.go_typed.specs.Trees.{Package};
ghost use Rattle.go_meaning.specs.Programs.{IsProgram};
ghost use Rattle.go_gen.specs.Translation.{object_of};
ghost use Rattle.go_meaning_laws.specs.WellTyped.{IsWellTyped};
ghost use Rattle.go_translation_laws.specs.Programs.{HaveOneEdition, IsLinked, Simulates, IsSafe, IsMeant, MakesSense, MeansTheSame, ImageHasMeaning};

/// A linked program, given any number of ticks, prints and ends as its sources do. Where no rule of
/// the language is broken it does nothing else, and its code makes sense.
pub fn law_program_means_sources()
    ensures means { (packages : List Package) (image : Image) → IsLinked packages image → Simulates packages image }
    ensures meant { (packages : List Package) (image : Image) (ticks : ℕ) → IsLinked packages image → IsSafe packages ticks → IsMeant packages image ticks }
    ensures sense { (packages : List Package) (image : Image) (ticks : ℕ) → IsLinked packages image → IsSafe packages ticks → MakesSense image ticks }
{}

/// The objects of packages are linked only where the packages are a program of one edition; where
/// they are no program the linker finds no main.
pub fn law_programs_are_linked()
    ensures linked { (packages : List Package) → link_refusal (map object_of packages) ≡ None → IsProgram packages × HaveOneEdition packages }
    ensures no_main { (packages : List Package) → (IsProgram packages → ⊥) → link_refusal (map object_of packages) ≡ Some NoMain }
{}

/// Well typed packages that are linked mean the same as their sources, whatever the number of ticks:
/// their code always makes sense, and ends in a way. They are linked exactly where they are a program
/// of one edition, and refused for want of a main or for several editions alone: the linker finds all
/// that they refer to.
pub fn law_well_typed_programs_are_meant()
    ensures same { (packages : List Package) (image : Image) → IsWellTyped packages → IsLinked packages image → MeansTheSame packages image }
    ensures sense { (packages : List Package) (image : Image) (ticks : ℕ) → IsWellTyped packages → IsLinked packages image → MakesSense image ticks }
    ensures ends { (packages : List Package) (image : Image) (ticks : ℕ) → IsWellTyped packages → IsLinked packages image → ImageHasMeaning image ticks }
    ensures linked { (packages : List Package) → IsWellTyped packages → (link_refusal (map object_of packages) ≡ None) ↔ (IsProgram packages × HaveOneEdition packages) }
    ensures several { (packages : List Package) → IsWellTyped packages → IsProgram packages → ¬ (HaveOneEdition packages)
        → link_refusal (map object_of packages) ≡ Some EditionsDiffer }
    ensures refused { (packages : List Package) (e : LinkError) → IsWellTyped packages → HaveOneEdition packages
        → link_refusal (map object_of packages) ≡ Some e → e ≡ NoMain }
{}
