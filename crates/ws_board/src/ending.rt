//! What a board came to.
ghost use Rattle.std.specs.Prelude.{◌≡◌, IfOk, IfSome, IfNone, None, Some, true, option_copied};
ghost use Rattle.std.specs.Arc.{arc_value};
ghost use Rattle.std.specs.List.{count_by, list_any};
ghost use Rattle.std.specs.Option.{option_map};
ghost use Rattle.ws_map.specs.Kept.{joined};
ghost use Rattle.ws_action.specs.Actions.{Action as AnAction, action_id};
ghost use Rattle.ws_cache.specs.Compiles.{Compiles, compiled_of};
ghost use Rattle.ws_cache.specs.Joined.{lesser};
ghost use Rattle.ws_board.specs.Machine.{is_finish, is_idle, status_at, action_at, IsHistory};
ghost use Rattle.ws_board.specs.Calls.{result_at};
ghost use Rattle.ws_board.specs.Histories.{AreSettled, IsTakenOnce};
ghost use Rattle.ws_board.specs.Rows.{seen_of};
ghost use Rattle.ws_board.specs.Table.{job_states_of};

use crate::propagation::{Holds, held};
use crate::table::Row;
use crate::work::{Event, Identified, Job, JobStatus};
use std::alloc::AllocError;
use std::marker::Model;
use std::sync::Arc;
use ws_action::Action;
use ws_cache::{Cache, Outcome};
use ws_version::Join;

/// The jobs, where they stand, the cache that they were opened over, the entries that came since,
/// what happened, and how often rows were read.
#[derive(Drop)]
pub(super) struct Parts {
    pub(super) jobs: Vec<Job>,
    pub(super) opened: Cache,
    pub(super) rows: Vec<Row>,
    pub(super) added: Cache,
    pub(super) history: Vec<Event>,
    pub(super) looks: u128,
}

fn status_in(rows: &[Row], job: usize) -> JobStatus
    ensures { result ≡ status_at (job_states_of rows.now).statuses job }
{
    match rows.get(job) {
        Some(row) => row.status,
        None => JobStatus::Blocked,
    }
}

fn action_in(rows: &[Row], job: usize) -> Option<&Identified>
    ensures { option_copied result ≡ action_at (job_states_of rows.now).actions job }
{
    match rows.get(job) {
        Some(row) => row.action.as_ref(),
        None => None,
    }
}

// What compiling the job's action gives, if the job is done.
fn result_in(parts: &Parts, job: usize) -> Option<&Outcome>
    ensures some { IfSome result (λ outcome. (entry : AnAction) × (result_at (seen_of parts.now) job ≡ Some entry) × Compiles entry (compiled_of outcome.now)) }
    ensures none { IfNone result (result_at (seen_of parts.now) job ≡ None) }
{
    let holds = Holds {
        opened: &parts.opened,
        added: &parts.added,
        newest: None,
    };
    match status_in(&parts.rows, job) {
        JobStatus::Done(_) => {
            let action = action_in(&parts.rows, job)?;
            let entry = held(holds, &action.id())?;
            Some(entry.outcome())
        }
        JobStatus::Waiting | JobStatus::Ready | JobStatus::Running(_) | JobStatus::Blocked => None,
    }
}

/// A board that is run no more.
#[derive(Drop)]
pub struct Stopped {
    parts: Parts,
}

impl Model for Stopped {
    ghost use Rattle.ws_board.specs.Work as work;
    ghost use Rattle.ws_board.specs.Rows.{seen_of};

    ghost Value = { work.Seen };

    ghost coded = { work.seen_code };

    ghost view = { λ a. seen_of a.parts };
}

impl Stopped {
    pub(super) fn new(parts: Parts) -> Stopped
        ensures { result ≡ seen_of parts }
    {
        Stopped { parts }
    }

    /// How the job with that number stands; where there is none, as one that is blocked.
    pub fn status(&self, job: usize) -> JobStatus
        ensures { result ≡ status_at self.now.state.standings.statuses job }
    {
        status_in(&self.parts.rows, job)
    }

    /// The id of the action of the job with that number, if it is formed.
    pub fn id(&self, job: usize) -> Option<[u8; 32]>
        ensures { result ≡ option_map action_id (action_at self.now.state.standings.actions job) }
    {
        let action = action_in(&self.parts.rows, job)?;
        Some(action.id())
    }

    /// What compiling the job's action gives, if the job is done: none if it is not, or there is no
    /// such job.
    pub fn result(&self, job: usize) -> Option<&Outcome>
        ensures some { IfSome result (λ outcome. (entry : AnAction) × (result_at self.now job ≡ Some entry) × Compiles entry (compiled_of outcome.now)) }
        ensures none { IfNone result (result_at self.now job ≡ None) }
    {
        result_in(&self.parts, job)
    }
}

/// A board in which a worker was told that nothing is left to do, and whose history is legal from the
/// opening.
#[derive(Drop)]
pub struct Built {
    parts: Parts,
}

impl Model for Built {
    ghost use Rattle.std.specs.Prelude.{◌≡◌, true};
    ghost use Rattle.std.specs.List.{list_any};
    ghost use Rattle.ws_board.specs.Work as work;
    ghost use Rattle.ws_board.specs.Machine as machine;
    ghost use Rattle.ws_board.specs.Rows.{seen_of, IsLegal};

    ghost Value = { work.Seen };

    ghost coded = { work.seen_code };

    ghost view = { λ a. seen_of a.parts };

    ghost invariant = { λ a. IsLegal (seen_of a.parts) × (list_any machine.is_idle (seen_of a.parts).history ≡ true) };
}

impl Built {
    pub(super) fn new(parts: Parts) -> Built
        requires legal { IsHistory (seen_of parts).opening (seen_of parts).history (seen_of parts).state }
        requires idled { list_any is_idle parts.history.items ≡ true }
        ensures { result ≡ seen_of parts }
    {
        Built { parts }
    }

    /// What compiling the job's action gives, if the job is done: none if it is blocked, or there
    /// is no such job.
    pub fn result(&self, job: usize) -> Option<&Outcome>
        ensures some { IfSome result (λ outcome. (entry : AnAction) × (result_at self.now job ≡ Some entry) × Compiles entry (compiled_of outcome.now)) }
        ensures none { IfNone result (result_at self.now job ≡ None) }
    {
        result_in(&self.parts, job)
    }

    /// The action of the job with that number, if it is formed, which has its id. An `Err` only
    /// where memory ran out.
    pub fn action(&self, job: usize) -> Result<Option<Arc<Action>>, AllocError>
        ensures { IfOk result (λ action. option_map arc_value action ≡ action_at self.now.state.standings.actions job) }
    {
        let Some(action) = action_in(&self.parts.rows, job) else {
            return Ok(None);
        };
        let action = action.action()?;
        Ok(Some(action))
    }

    /// How many jobs were finished.
    pub fn compiled(&self) -> usize
        ensures { result ≡ count_by is_finish self.now.history }
    {
        self.parts
            .history
            .iter()
            .filter(|event| match event {
                Event::Finish(_, _) => true,
                _ => false,
            })
            .count()
    }

    /// What happened, the first event first. Where imports lead down, each job is done or blocked; and
    /// what was taken was taken again only where it was given back between.
    pub fn history(&self) -> &[Event]
        ensures is { result.now ≡ self.now.history }
        ensures legal { IsHistory self.now.opening result.now self.now.state }
        ensures idled { list_any is_idle result.now ≡ true }
        ensures settled { AreSettled self.now }
        ensures once { IsTakenOnce self.now }
    {
        self.parts.history.as_slice()
    }

    /// Gives up all but the entries that were added to those of the opening.
    pub fn into_added(self) -> Cache
        ensures { result ≡ self.state.added }
    {
        let parts = self.parts;
        parts.added
    }

    /// All entries: those of the opening, and those that were added. An `Err` only where memory ran
    /// out.
    pub fn into_cache(self) -> Result<Cache, AllocError>
        ensures { IfOk result (λ cache. cache ≡ joined lesser self.opening.cache self.state.added) }
    {
        let parts = self.parts;
        let Parts {
            jobs: _,
            opened,
            rows: _,
            added,
            history: _,
            looks: _,
        } = parts;
        let mut cache = opened;
        cache.merge(&added)?;
        Ok(cache)
    }
}
