//! What holds of every kept script.
ghost use Rattle.std.specs.Prelude.{◌++◌, ℕ, List};
ghost use Rattle.go_text.specs.declared.edition.Edition.TheVariants.{One};
ghost use Rattle.ws_session.specs.World.{World};
ghost use Rattle.ws_session.specs.Text.{SessionText, IsClear};
ghost use Rattle.ws_keep.specs.Runs.{AreRuns, HaveTexts, Run, WriteAsOne};
ghost use Rattle.ws_keep.specs.Keeping.{IsClearBehind, IsClearFrom, IsComplete, IsLike, LeavesFrom, LeavesLike, WritesBoth, WritesFrom};

/// What is written behind worlds that are alike is the same, for every script, and the worlds that
/// it leaves are alike.
pub fn law_like_worlds_print_alike()
    ensures leaner { (lean world : World) (script text : List ℕ) → IsLike lean world
        → WritesFrom world script text → WritesFrom lean script text }
    ensures other { (lean world : World) (script text : List ℕ) → IsLike lean world
        → WritesFrom lean script text → WritesFrom world script text }
    ensures last { (lean world : World) (script : List ℕ) (last : World) → IsLike lean world
        → LeavesFrom world script last → LeavesLike lean script last }
    ensures clear { (lean world : World) (script : List ℕ) → IsLike lean world
        → IsClearFrom world script → IsClearFrom lean script }
{}

/// What is written for a complete script with another behind it is what is written for each, one
/// behind the other; and no more is asked of digests.
pub fn law_scripts_part()
    ensures text { (kept script told : List ℕ) → IsComplete kept → SessionText One (kept ++ script) told
        → WritesBoth kept script told }
    ensures clear { (kept script : List ℕ) → IsComplete kept → IsClear One (kept ++ script)
        → IsClearBehind kept script }
{}

/// Many runs, each behind what the one before kept, write what one session writes for all their
/// scripts, if each but the last is complete: whatever they kept, if no texts of that session clash.
pub fn law_runs_are_one_session()
    ensures { (kept told : List ℕ) (runs : List Run) → IsComplete kept → AreRuns kept runs → HaveTexts runs
        → WriteAsOne kept told runs }
{}
