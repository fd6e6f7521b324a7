//! Laws of what packages mean.
ghost use Rattle.std.specs.Prelude.{◌≡◌, ℕ, List};
ghost use Rattle.go_code.specs.declared.ending.Ending.{Ending};
ghost use Rattle.go_typed.specs.Trees.{Package};
ghost use Rattle.go_meaning.specs.Programs.{SourceMeaning};

/// A program that is given a number of ticks ends in one way.
pub fn law_meaning_once()
    ensures ending { (packages : List Package) (ticks : ℕ) (a b : Ending) (s t : List ℕ)
        → SourceMeaning packages ticks a s → SourceMeaning packages ticks b t → a ≡ b }
    ensures output { (packages : List Package) (ticks : ℕ) (a b : Ending) (s t : List ℕ)
        → SourceMeaning packages ticks a s → SourceMeaning packages ticks b t → s ≡ t }
{}
