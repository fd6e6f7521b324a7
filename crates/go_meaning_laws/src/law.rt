//! What holds of a well typed program.
ghost use Rattle.std.specs.Prelude.{◌≢◌, ℕ, List};
ghost use Rattle.go_code.specs.declared.ending.Ending.{Ending};
ghost use Rattle.go_typed.specs.Trees.{Package};
ghost use Rattle.go_meaning.specs.Meaning.{Stuck};
ghost use Rattle.go_meaning.specs.Programs.{IsProgram, SourceMeaning, run_program};
ghost use Rattle.go_meaning_laws.specs.WellTyped.{IsWellTyped};

/// A well typed program breaks no rule of the language, whatever its number of ticks: it has a meaning.
pub fn law_typed_program_is_never_stuck()
    ensures never { (packages : List Package) (ticks : ℕ) → IsWellTyped packages → run_program packages ticks ≢ Stuck }
    ensures means { (packages : List Package) (ticks : ℕ) → IsWellTyped packages → IsProgram packages
        → (ending : Ending) × (output : List ℕ) × SourceMeaning packages ticks ending output }
{}
