//! Jobs are carried on: what their imports make of them, one after another, as these come to an end.
//!
//! A job that waits knows how many of its imports, the first ones, may be open. The last of these is
//! open, or its importers are about to be told. What is done or blocked has each of its importers
//! advanced: where that import isn't the last that may be open, the importer waits on; else it goes
//! back to the last that is open, or, where none is, its action is formed. So it is enough to know
//! who imports whom, and no count of open imports has to be kept equal to a count.
//!
//! Each read is paid for: a row owes what it may still cost (`due`), and a job that is done or
//! blocked what it costs to tell its importers (`importer_reads`).
ghost use Rattle.std.specs.Prelude.{◌≡◌, ◌<◌, ◌≤◌, ◌+◌, ◌*◌, ◌-◌, ◌^◌, ◌++◌, ◌==◌, if◌then◌else◌, ℕ, List, [], length, map, true, false, None, Some, IfOk, OnOk, IfSome, IfNone, option_copied};
ghost use Rattle.std.specs.Arc.{arc_value};
ghost use Rattle.std.specs.List.{All};
ghost use Rattle.go_export.specs.Summaries.{Summary as ASummary};
ghost use Rattle.go_export.specs.Writable.{IsWritten};
ghost use Rattle.ws_action.specs.Actions.{Action as AnAction};
ghost use Rattle.ws_board.specs.declared.work.JobStatus.TheVariants as status;
ghost use Rattle.ws_board.specs.Machine.{is_open, is_waiting, JobHasSummary, IsPlaced, IsGoodness};
ghost use Rattle.ws_board.specs.Propagation.{held_by};
ghost use Rattle.ws_board.specs.Ends.{job_imports_at};
ghost use Rattle.ws_board.specs.Rows.{times, is_active_of, due, charged_for, charged, importer_reads_at, imports_it, import_at, ready_of, settled_with, AreKnown, Waits, AreWaiting, NoMoreWaits, AllPast, AreWithin, ArePropagated, IsOpenPast, HaveSummaries, MayFormAt, IsFormedAt, RowBecomes, Propagates, Marks, IsUndone};
ghost use Rattle.ws_board.specs.Table.{row_at, job_states_of};

use crate::index::Ready;
use crate::rows::{Moves, Rows};
use crate::table::Row;
use crate::work::{Identified, JobStatus, Work};
use go_export::summary::Summary;
use std::alloc::{AllocError, Global};
use std::sync::Arc;
use ws_cache::{Cache, Entry, Outcome};

/// What is held while jobs are carried on: the cache of the opening, what was added, and the entry
/// that is about to be.
#[derive(Clone, Copy)]
pub(super) struct Holds<'a> {
    pub(super) opened: &'a Cache,
    pub(super) added: &'a Cache,
    pub(super) newest: Option<&'a Entry>,
}

/// The entry that is held for the id; the opening's is asked first, and the newest last.
pub(super) fn held<'a>(holds: Holds<'a>, id: &[u8; 32]) -> Option<&'a Entry>
    ensures { option_copied result ≡ held_by holds.entry id.now }
{
    if let Some(entry) = holds.opened.get(id) {
        return Some(entry);
    }
    if let Some(entry) = holds.added.get(id) {
        return Some(entry);
    }
    let entry = holds.newest?;
    if entry.id() == *id { Some(entry) } else { None }
}

/// Whether the entry's package is good.
pub(super) fn is_good(entry: &Entry) -> bool
    ensures { IsGoodness entry.now result }
{
    match entry.outcome() {
        Outcome::Good(_, _) => true,
        Outcome::Faulty(_) => false,
    }
}

// How a job whose action has the id stands.
fn placed(holds: Holds<'_>, id: &[u8; 32]) -> JobStatus
    ensures { IsPlaced (held_by holds.entry id.now) result }
{
    match held(holds, id) {
        Some(entry) => JobStatus::Done(is_good(entry)),
        None => JobStatus::Ready,
    }
}

// Where the job with that number stands; where there is none, as one that is blocked.
fn status_of(rows: &Rows, looks: &mut u128, k: usize) -> JobStatus
    requires counted { looks.old + 1 < 2 ^ 128 }
    requires jobs { length rows.now.rows ≡ length rows.now.jobs.items }
    ensures is { result ≡ (row_at rows.now.rows k).status }
    ensures one { looks.new ≡ looks.old + 1 }
{
    match rows.job(looks, k) {
        Some(found) => found.row.status,
        None => JobStatus::Blocked,
    }
}

// How many of the first so many imports of a job may be open, once those behind them that aren't
// are left out: the last of them is open.
fn left_of(rows: &Rows, looks: &mut u128, job: usize, left: usize) -> usize
    requires counted { looks.old + 2 * left + 2 < 2 ^ 128 }
    requires within { left ≤ length (job_imports_at rows.now.jobs.items job) }
    requires jobs { length rows.now.rows ≡ length rows.now.jobs.items }
    ensures fewer { result ≤ left }
    ensures past { IsOpenPast rows.now.jobs.items rows.now.rows job left → IsOpenPast rows.now.jobs.items rows.now.rows job result }
    ensures on { 0 < result → is_open (row_at rows.now.rows (import_at rows.now job (result - 1))).status ≡ true }
    ensures paid { looks.new + 2 * result ≤ looks.old + 2 * left + 2 }
    ensures all { result ≡ 0 → looks.new ≤ looks.old + 2 * left }
    ensures more { looks.old ≤ looks.new }
{
    let mut left = left;
    while left > 0 {
        let Some(k) = rows.import(looks, job, left - 1) else {
            return left;
        };
        if status_of(rows, looks, k).is_open() {
            return left;
        }
        left -= 1;
    }
    0
}

// The summary that is held for the action of a job, if the job is done and good.
fn summary_held<'a>(
    holds: Holds<'a>,
    rows: &Rows,
    looks: &mut u128,
    k: usize,
) -> Option<&'a Arc<Summary>>
    requires counted { looks.old + 1 < 2 ^ 128 }
    requires jobs { length rows.now.rows ≡ length rows.now.jobs.items }
    ensures some { IfSome result (λ summary. JobHasSummary (held_by holds.entry) (job_states_of rows.now.rows) k (arc_value summary.now)) }
    ensures written { IfSome result (λ summary. IsWritten (arc_value summary.now)) }
    ensures none { IfNone result ((summary : ASummary) → ¬ (JobHasSummary (held_by holds.entry) (job_states_of rows.now.rows) k summary)) }
    ensures one { looks.new ≡ looks.old + 1 }
{
    let Some(found) = rows.job(looks, k) else {
        return None;
    };
    if found.row.status != JobStatus::Done(true) {
        return None;
    }
    let action = found.row.action.as_ref()?;
    let entry = held(holds, &action.id())?;
    match entry.outcome() {
        Outcome::Good(summary, _) => {
            summary.written();
            Some(summary)
        }
        Outcome::Faulty(_) => None,
    }
}

// The summaries that are held for the actions of a job's imports, if all are done and good.
fn summaries_held(
    alloc: Global,
    holds: Holds<'_>,
    rows: &Rows,
    looks: &mut u128,
    job: usize,
    imports: usize,
) -> Result<Option<Vec<Arc<Summary>>>, AllocError>
    requires counted { looks.old + 2 * imports < 2 ^ 128 }
    requires all { imports ≡ length (job_imports_at rows.now.jobs.items job) }
    requires jobs { length rows.now.rows ≡ length rows.now.jobs.items }
    ensures some { IfOk result (λ found. IfSome found (λ ss. HaveSummaries (held_by holds.entry) rows.now job (map arc_value ss.items))) }
    ensures written { IfOk result (λ found. IfSome found (λ ss. All IsWritten (map arc_value ss.items))) }
    ensures none { IfOk result (λ found. IfNone found ((ss : List ASummary) → ¬ (HaveSummaries (held_by holds.entry) rows.now job ss))) }
    ensures paid { looks.new ≤ looks.old + 2 * imports }
    ensures more { looks.old ≤ looks.new }
{
    let mut found = Vec::with_capacity(alloc, imports)?;
    for number in 0..imports {
        let Some(k) = rows.import(looks, job, number) else {
            return Ok(None);
        };
        let Some(summary) = summary_held(holds, rows, looks, k) else {
            return Ok(None);
        };
        found.push(Arc::try_clone(summary)?)?;
    }
    Ok(Some(found))
}

// The job's action, if its imports are done and good and their summaries make one with its work.
fn formed(
    alloc: Global,
    holds: Holds<'_>,
    rows: &Rows,
    looks: &mut u128,
    job: usize,
    work: &Work,
    imports: usize,
) -> Result<Option<Identified>, AllocError>
    requires counted { looks.old + 2 * imports < 2 ^ 128 }
    requires all { imports ≡ length (job_imports_at rows.now.jobs.items job) }
    requires jobs { length rows.now.rows ≡ length rows.now.jobs.items }
    ensures some { IfOk result (λ made. IfSome made (λ action. IsFormedAt (held_by holds.entry) rows.now job work.now action)) }
    ensures none { IfOk result (λ made. IfNone made ((action : AnAction) → ¬ (MayFormAt (held_by holds.entry) rows.now job work.now action))) }
    ensures paid { looks.new ≤ looks.old + 2 * imports }
    ensures more { looks.old ≤ looks.new }
{
    let Some(summaries) = summaries_held(alloc, holds, rows, looks, job, imports)? else {
        return Ok(None);
    };
    match work.acted(alloc, summaries)? {
        Some(action) => Ok(Some(Identified::new(alloc, action, work.last())?)),
        None => Ok(None),
    }
}

// The row of a job that waited, once it stands so.
fn row_of(row: &Row, status: JobStatus, action: Option<Identified>, left: usize) -> Row
    ensures { result ≡ record row.now { status = status; action = action; left = left } }
{
    Row {
        status,
        action,
        left,
        was_back: row.was_back,
        imports: row.imports,
        importers: row.importers,
    }
}

// What a job's imports make of it, as they stand, if it waits. An `Err` only where memory ran out.
fn stands(
    alloc: Global,
    holds: Holds<'_>,
    rows: &Rows,
    looks: &mut u128,
    job: usize,
) -> Result<Option<Row>, AllocError>
    requires known { AreKnown rows.now }
    requires counted { looks.old + due (row_at rows.now.rows job) + 3 < 2 ^ 128 }
    requires past { AllPast rows.now.jobs.items rows.now.rows }
    requires within { AreWithin rows.now.jobs.items rows.now.rows }
    ensures becomes { IfOk result (λ row. IfSome row (RowBecomes (held_by holds.entry) rows.now.jobs.items rows.now.rows job)) }
    ensures paid { IfOk result (λ row. IfSome row (λ row. charged_for looks.new row ≤ looks.old + due (row_at rows.now.rows job) + 3)) }
    ensures still { IfOk result (λ row. IfNone row (looks.new ≡ looks.old + 1)) }
    ensures none { IfOk result (λ row. IfNone row (is_waiting (row_at rows.now.rows job).status ≡ false)) }
    ensures more { looks.old < looks.new }
{
    let Some(found) = rows.job(looks, job) else {
        return Ok(None);
    };
    if !found.row.status.is_waiting() {
        return Ok(None);
    }
    let Some(work) = found.work else {
        let left = found.row.left;
        return Ok(Some(row_of(found.row, JobStatus::Blocked, None, left)));
    };
    let left = left_of(rows, looks, job, found.row.left);
    if left > 0 {
        return Ok(Some(row_of(found.row, JobStatus::Waiting, None, left)));
    }
    match formed(alloc, holds, rows, looks, job, work, found.row.imports)? {
        Some(action) => {
            let status = placed(holds, &action.id());
            Ok(Some(row_of(found.row, status, Some(action), 0)))
        }
        None => Ok(Some(row_of(found.row, JobStatus::Blocked, None, 0))),
    }
}

// The job is noted, where it is ready, and where it is done or blocked. An `Err` only where memory
// ran out.
fn note(moves: &mut Moves, job: usize, row: &Row) -> Result<(), AllocError>
    ensures settled { OnOk result (moves.new.settled.items ≡ settled_with moves.old.settled.items job row.now.status) }
    ensures ready { OnOk result (moves.new.ready.items ≡ (moves.old.ready.items ++ ready_of job row.now.status row.now.action)) }
    ensures log { moves.new.log.items ≡ moves.old.log.items }
{
    match row.status {
        JobStatus::Ready => {
            if let Some(action) = &row.action {
                moves.ready.push(Ready {
                    job,
                    id: action.id(),
                })?;
            }
        }
        JobStatus::Blocked | JobStatus::Done(_) => moves.settled.push(job)?,
        JobStatus::Waiting | JobStatus::Running(_) => {}
    }
    Ok(())
}

// Carries a job on, if it waits and its imports say what becomes of it.
fn advance(
    alloc: Global,
    holds: Holds<'_>,
    rows: &mut Rows,
    looks: &mut u128,
    moves: &mut Moves,
    job: usize,
) -> Result<(), AllocError>
    requires good { ArePropagated rows.old }
    requires room { charged looks.old rows.old moves.old + 3 < 2 ^ 128 }
    ensures undone { IsUndone rows.old rows.new moves.old moves.new }
    ensures on { OnOk result (Propagates (held_by holds.entry) 3 rows.old rows.new moves.old moves.new looks.old looks.new) }
    ensures waits { OnOk result (NoMoreWaits job rows.old moves.old rows.new moves.new) }
    ensures read { OnOk result (looks.old < looks.new) }
{
    let Some(row) = stands(alloc, holds, rows, looks, job)? else {
        return Ok(());
    };
    note(moves, job, &row)?;
    moves.write(rows, job, row)?;
    Ok(())
}

// Carries those on that import a job which is done or blocked.
fn tell(
    alloc: Global,
    holds: Holds<'_>,
    rows: &mut Rows,
    looks: &mut u128,
    moves: &mut Moves,
    job: usize,
) -> Result<(), AllocError>
    requires good { ArePropagated rows.old }
    requires room { charged looks.old rows.old moves.old + importer_reads_at rows.old job < 2 ^ 128 }
    ensures undone { IsUndone rows.old rows.new moves.old moves.new }
    ensures on { OnOk result (Propagates (held_by holds.entry) (importer_reads_at rows.old job) rows.old rows.new moves.old moves.new looks.old looks.new) }
    ensures waits { OnOk result (AreWaiting rows.old moves.old (imports_it rows.old job) → AreWaiting rows.new moves.new (λ j. false)) }
{
    let mut number = 0;
    'importers: while let Some(importer) = rows.importer(looks, job, number) {
        advance(alloc, holds, rows, looks, moves, importer)?;
        number += 1;
    }
    Ok(())
}

/// Carries jobs on until nothing changes: each that waited stands as its imports say. An `Err` only
/// where memory ran out.
pub(super) fn propagate(
    alloc: Global,
    holds: Holds<'_>,
    rows: &mut Rows,
    looks: &mut u128,
    moves: &mut Moves,
) -> Result<(), AllocError>
    requires good { ArePropagated rows.old }
    requires room { charged looks.old rows.old moves.old + 0 < 2 ^ 128 }
    requires waits { AreWaiting rows.old moves.old (λ j. false) }
    ensures undone { IsUndone rows.old rows.new moves.old moves.new }
    ensures on { OnOk result (Propagates (held_by holds.entry) 0 rows.old rows.new moves.old moves.new looks.old looks.new) }
    ensures waits { OnOk result (Waits rows.new.jobs.items rows.new.rows [] (λ j. false)) }
    ensures settled { OnOk result (moves.new.settled.items ≡ []) }
{
    'settled: while let Some(job) = moves.settled.pop() {
        tell(alloc, holds, rows, looks, moves, job)?;
    }
    Ok(())
}

// The first so many jobs are carried on, one after another. An `Err` only where memory ran out.
fn advance_all(
    alloc: Global,
    holds: Holds<'_>,
    rows: &mut Rows,
    looks: &mut u128,
    moves: &mut Moves,
) -> Result<(), AllocError>
    requires good { ArePropagated rows.old }
    requires room { charged looks.old rows.old moves.old + (3 * length rows.old.rows) < 2 ^ 128 }
    ensures on { OnOk result (Propagates (held_by holds.entry) (3 * length rows.old.rows) rows.old rows.new moves.old moves.new looks.old looks.new) }
    ensures waits { OnOk result (AreWaiting rows.new moves.new (λ j. false)) }
    ensures read { OnOk result (looks.old + length rows.old.rows ≤ looks.new) }
{
    for job in 0..rows.len() {
        advance(alloc, holds, rows, looks, moves, job)?;
    }
    Ok(())
}

/// Carries all jobs on, which wait. An `Err` only where memory ran out.
pub(super) fn carry_all(
    alloc: Global,
    holds: Holds<'_>,
    rows: &mut Rows,
    looks: &mut u128,
    moves: &mut Moves,
) -> Result<(), AllocError>
    requires good { ArePropagated rows.old }
    requires room { charged looks.old rows.old moves.old + (3 * length rows.old.rows) < 2 ^ 128 }
    ensures on { OnOk result (Propagates (held_by holds.entry) (3 * length rows.old.rows) rows.old rows.new moves.old moves.new looks.old looks.new) }
    ensures waits { OnOk result (Waits rows.new.jobs.items rows.new.rows [] (λ j. false)) }
    ensures settled { OnOk result (moves.new.settled.items ≡ []) }
    ensures read { OnOk result (looks.old + length rows.old.rows ≤ looks.new) }
{
    advance_all(alloc, holds, rows, looks, moves)?;
    propagate(alloc, holds, rows, looks, moves)?;
    Ok(())
}

// The row of a job that is ready or runs, once it is done.
fn done_row(
    rows: &Rows,
    looks: &mut u128,
    job: usize,
    good: bool,
) -> Result<Option<Row>, AllocError>
    requires counted { looks.old + 1 < 2 ^ 128 }
    requires jobs { length rows.now.rows ≡ length rows.now.jobs.items }
    ensures row { IfOk result (λ row. IfSome row (λ row. row ≡ record (row_at rows.now.rows job) { status = status.Done good })) }
    ensures none { IfOk result (λ row. IfNone row (length rows.now.rows ≤ job)) }
    ensures one { looks.new ≡ looks.old + 1 }
{
    let Some(found) = rows.job(looks, job) else {
        return Ok(None);
    };
    let action = match &found.row.action {
        Some(action) => Some(action.share()?),
        None => None,
    };
    Ok(Some(row_of(found.row, JobStatus::Done(good), action, found.row.left)))
}

/// These jobs, which are ready or run and each of which stands there once, are done. An `Err` only
/// where memory ran out.
pub(super) fn mark(
    rows: &mut Rows,
    looks: &mut u128,
    moves: &mut Moves,
    id: &[u8; 32],
    jobs: &[usize],
    good: bool,
) -> Result<(), AllocError>
    requires known { AreKnown rows.old }
    requires jobs { (k : ℕ) → times k jobs.now ≡ (if is_active_of rows.old.rows id.now k then 1 else 0) }
    requires room { charged looks.old rows.old moves.old < 2 ^ 128 }
    ensures undone { IsUndone rows.old rows.new moves.old moves.new }
    ensures marks { OnOk result (Marks id.now good rows.old.rows rows.new.rows moves.new.settled.items) }
    ensures parts { OnOk result ((rows.new.jobs.items ≡ rows.old.jobs.items) × (rows.new.importers.items ≡ rows.old.importers.items)) }
    ensures ready { OnOk result (moves.new.ready.items ≡ moves.old.ready.items) }
    ensures paid { OnOk result (charged looks.new rows.new moves.new ≤ charged looks.old rows.old moves.old) }
    ensures more { OnOk result (looks.old ≤ looks.new) }
{
    for job in jobs {
        let Some(row) = done_row(rows, looks, *job, good)? else {
            continue;
        };
        moves.settled.push(*job)?;
        moves.write(rows, *job, row)?;
    }
    Ok(())
}
