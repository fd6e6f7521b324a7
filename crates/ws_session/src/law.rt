//! What holds of every session.
ghost use Rattle.std.specs.Prelude.{◌≡◌, ℕ, true, List};
ghost use Rattle.std.specs.List.{list_all};
ghost use Rattle.go_text.specs.declared.edition.Edition.{Edition};
ghost use Rattle.ws_command.specs.Commands.{Command};
ghost use Rattle.ws_session.specs.Commands.{commands_of, hashes_nothing};
ghost use Rattle.ws_session.specs.SameAnswers.{ReadsTheSame};
ghost use Rattle.ws_session.specs.Text.{SessionText, IsClear};
ghost use Rattle.ws_session.specs.World.{World, Outputs};

use ws_replica::law::law_held_program_means_its_sources;

/// A script has one session text, whoever writes it.
pub fn law_one_session()
    ensures { (edition : Edition) (script a b : List ℕ) → SessionText edition script a → SessionText edition script b → a ≡ b }
{}

/// Each script has a session text.
pub fn law_some_session()
    ensures { (edition : Edition) (script : List ℕ) → (text : List ℕ) × SessionText edition script text }
{
    law_held_program_means_its_sources();
}

/// A replica answers `show`, `build`, `ids` and `run` by what it took, and by nothing else: where a
/// command reads the same in two worlds of one edition, it prints the same in both.
pub fn law_same_answers()
    ensures { (command : Command) (v w : World) (a b : List ℕ) → v.edition ≡ w.edition → ReadsTheSame command v w → Outputs command v a → Outputs command w b → a ≡ b }
{}

/// A script that builds nothing is clear: no text is hashed for it. So what is written for it is its
/// session's text without a premise.
pub fn law_script_without_builds_is_clear()
    ensures { (edition : Edition) (script : List ℕ) → list_all hashes_nothing (commands_of script) ≡ true → IsClear edition script }
{}
