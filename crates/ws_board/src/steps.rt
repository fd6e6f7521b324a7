//! What a take and a finish read and write of rows and index.
ghost use Rattle.std.specs.Prelude.{◌≡◌, ◌≤◌, ◌<◌, ◌+◌, ◌^◌, ◌++◌, if◌then◌else◌, ℕ, List, [], length, false, Some, IfOk, OnOk, OnErr};
ghost use Rattle.ws_action.specs.Actions.{Action as AnAction};
ghost use Rattle.ws_board.specs.Propagation.{held_by};
ghost use Rattle.ws_board.specs.Rows.{times, is_active_of, those_of, owed, ArePropagated, Waits, IsUndone, FinishesRows};
ghost use Rattle.ws_board.specs.Table.{row_at};
ghost use Rattle.ws_board.specs.Indexes.{jobs_in, IsSameBut};

use crate::index::Index;
use crate::propagation::{Holds, mark, propagate};
use crate::rows::{Moves, Rows};
use crate::work::Task;
use std::alloc::{AllocError, Global};

/// The task of a job whose action is formed. An `Err` only where memory ran out.
pub(super) fn given(rows: &Rows, looks: &mut u128, job: usize) -> Result<Task, AllocError>
    requires counted { looks.old + 1 < 2 ^ 128 }
    requires jobs { length rows.now.rows ≡ length rows.now.jobs.items }
    requires inside { job < length rows.now.rows }
    requires formed { (action : AnAction) × ((row_at rows.now.rows job).action ≡ Some action) }
    ensures task { IfOk result (λ task. task ≡ record { job = job; action = task.action; was_back = (row_at rows.now.rows job).was_back }) }
    ensures action { IfOk result (λ task. (row_at rows.now.rows job).action ≡ Some task.action) }
    ensures one { looks.new ≡ looks.old + 1 }
{
    let Some(found) = rows.job(looks, job) else {
        unreachable!();
    };
    let Some(action) = &found.row.action else {
        unreachable!();
    };
    Ok(Task::new(job, action.share()?, found.row.was_back))
}

// The jobs with the id are done, and waiting jobs are carried on. An `Err` only where memory ran out.
fn carried(
    alloc: Global,
    holds: Holds<'_>,
    rows: &mut Rows,
    looks: &mut u128,
    moves: &mut Moves,
    id: &[u8; 32],
    jobs: &[usize],
    good: bool,
) -> Result<(), AllocError>
    requires good { ArePropagated rows.old }
    requires waits { Waits rows.old.jobs.items rows.old.rows [] (λ j. false) }
    requires jobs { (k : ℕ) → times k jobs.now ≡ (if is_active_of rows.old.rows id.now k then 1 else 0) }
    requires none { (moves.old.settled.items ≡ []) × (moves.old.ready.items ≡ []) }
    requires room { looks.old + owed rows.old.rows < 2 ^ 128 }
    ensures undone { IsUndone rows.old rows.new moves.old moves.new }
    ensures ok { OnOk result (FinishesRows (held_by holds.entry) id.now good rows.old rows.new moves.new.ready.items) }
    ensures paid { OnOk result (looks.new + owed rows.new.rows ≤ looks.old + owed rows.old.rows) }
    ensures more { OnOk result (looks.old ≤ looks.new) }
{
    mark(rows, looks, moves, id, jobs, good)?;
    propagate(alloc, holds, rows, looks, moves)?;
    Ok(())
}

/// The jobs with the id are done, waiting jobs are carried on, and those that became ready join the
/// index. An `Err`, for want of memory, leaves the index as it was.
pub(super) fn finish_rows(
    alloc: Global,
    holds: Holds<'_>,
    rows: &mut Rows,
    looks: &mut u128,
    index: &mut Index,
    moves: &mut Moves,
    id: &[u8; 32],
    good: bool,
) -> Result<(), AllocError>
    requires good { ArePropagated rows.old }
    requires waits { Waits rows.old.jobs.items rows.old.rows [] (λ j. false) }
    requires jobs { (k : ℕ) → times k (jobs_in index.old id.now) ≡ (if is_active_of rows.old.rows id.now k then 1 else 0) }
    requires none { (moves.old.settled.items ≡ []) × (moves.old.ready.items ≡ []) }
    requires room { looks.old + owed rows.old.rows < 2 ^ 128 }
    ensures undone { IsUndone rows.old rows.new moves.old moves.new }
    ensures ok { OnOk result (FinishesRows (held_by holds.entry) id.now good rows.old rows.new moves.new.ready.items) }
    ensures paid { OnOk result (looks.new + owed rows.new.rows ≤ looks.old + owed rows.old.rows) }
    ensures more { OnOk result (looks.old ≤ looks.new) }
    ensures joined { OnOk result ((i : List ℕ) → jobs_in index.new i ≡ jobs_in index.old i ++ those_of i moves.new.ready.items) }
    ensures still { OnErr result ((i : List ℕ) → jobs_in index.new i ≡ jobs_in index.old i) }
    ensures same { IsSameBut index.old index.new }
{
    carried(alloc, holds, rows, looks, moves, id, index.jobs(id), good)?;
    index.admit(alloc, moves.ready())?;
    Ok(())
}
