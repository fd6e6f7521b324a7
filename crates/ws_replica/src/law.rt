//! What holds of the programs that a replica holds compiled, and of their images.
ghost use Rattle.std.specs.Prelude.{◌≡◌, ℕ, List, map, Some, None};
ghost use Rattle.go_code.specs.Images.{Image};
ghost use Rattle.go_gen.specs.Translation.{object_of};
ghost use Rattle.go_link.specs.Links.{link_refusal};
ghost use Rattle.go_link.specs.declared.link.LinkError.{LinkError};
ghost use Rattle.go_link.specs.declared.link.LinkError.TheVariants.{NoMain};
ghost use Rattle.go_meaning.specs.Programs.{IsProgram};
ghost use Rattle.go_package.specs.Claims.{AtMostOne};
ghost use Rattle.go_package_laws.specs.Packages.{AreChecked, HasMeaning};
ghost use Rattle.go_text.specs.declared.edition.Edition.{Edition};
ghost use Rattle.go_translation_laws.specs.Programs.{HaveOneEdition, IsLinked, MakesSense, MeansTheSame};
ghost use Rattle.go_typed.specs.Trees.{Package};
ghost use Rattle.ws_replica.specs.GoodPackages.{AreGoodPackages};
ghost use Rattle.ws_replica.specs.Programs.{IsImageOfSources};

/// A program that is held compiled has good packages alone. These are checked, and all of one
/// edition. If they are a program, they are linked and have a meaning for any number of ticks; the
/// linker refuses them only if they lack a main. What they are linked to prints and ends as the
/// sources mean and in no other way, and its code makes sense: `run` never answers `BadCode` of it.
pub fn law_held_program_means_its_sources()
    ensures checked { (packages : List Package) → AreGoodPackages packages → AreChecked packages × HaveOneEdition packages }
    ensures linked { (packages : List Package) → AreGoodPackages packages → IsProgram packages → link_refusal (map object_of packages) ≡ None }
    ensures refused { (packages : List Package) (e : LinkError) → AreGoodPackages packages → link_refusal (map object_of packages) ≡ Some e → e ≡ NoMain }
    ensures means { (packages : List Package) (image : Image) → AreGoodPackages packages → IsLinked packages image → MeansTheSame packages image }
    ensures sense { (packages : List Package) (image : Image) (ticks : ℕ) → AreGoodPackages packages → IsLinked packages image → MakesSense image ticks }
    ensures ends { (packages : List Package) (ticks : ℕ) → AreGoodPackages packages → IsProgram packages → HasMeaning packages ticks }
{}

/// Replicas with equal sources have one image of a directory in an edition, whatever else they wrote
/// or compiled, where no two hashed texts clash.
pub fn law_image_follows_from_sources()
    ensures { (edition : Edition) (sources : List (List ℕ × List ℕ)) (target : List ℕ) → AtMostOne (IsImageOfSources edition sources target) }
{}
