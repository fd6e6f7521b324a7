//! What a board works with: jobs, workers, tasks and events.
ghost use Rattle.std.specs.Prelude.{◌≡◌, ℕ, IfOk, IfSome, IfNone, IsTrue, ◌↔◌, map, option_copied, string_bytes};
ghost use Rattle.std.specs.Arc.{arc_value};
ghost use Rattle.ws_action.specs.Actions.{action_id, MakeAction, IsSized};
ghost use Rattle.ws_board.specs.Work.{acted};
ghost use Rattle.ws_board.specs.Machine.{is_waiting, is_ready, is_running, is_active, is_open};

use go_export::summary::Summary;
use go_text::edition::Edition;
use std::alloc::{AllocError, Global};
use std::marker::Model;
use std::sync::Arc;
use ws_action::{Action, Files};
use ws_cache::Entry;

/// The status of a job.
#[derive(Clone, Copy, PartialEq, Eq, Debug)]
pub enum JobStatus {
    /// Some import is neither done nor blocked.
    Waiting,
    Ready,
    /// The worker with that number runs it.
    Running(u64),
    /// Its imports are done or blocked, and it has no action: an import isn't good, or there is
    /// nothing to compile, or what is held for its imports doesn't fit its files.
    Blocked,
    /// Whether its result is good.
    Done(bool),
}

impl JobStatus {
    /// Whether the job waits.
    pub fn is_waiting(self) -> bool
        ensures { result ≡ is_waiting self }
    {
        match self {
            JobStatus::Waiting => true,
            JobStatus::Ready | JobStatus::Running(_) | JobStatus::Blocked | JobStatus::Done(_) =>
                false,
        }
    }

    /// Whether the job is ready.
    pub fn is_ready(self) -> bool
        ensures { result ≡ is_ready self }
    {
        match self {
            JobStatus::Ready => true,
            JobStatus::Waiting | JobStatus::Running(_) | JobStatus::Blocked | JobStatus::Done(_) =>
                false,
        }
    }

    /// Whether a worker runs the job.
    pub fn is_running(self) -> bool
        ensures { result ≡ is_running self }
    {
        match self {
            JobStatus::Running(_) => true,
            JobStatus::Waiting | JobStatus::Ready | JobStatus::Blocked | JobStatus::Done(_) =>
                false,
        }
    }

    /// Whether the job is ready or run.
    pub fn is_active(self) -> bool
        ensures { result ≡ is_active self }
    {
        match self {
            JobStatus::Ready | JobStatus::Running(_) => true,
            JobStatus::Waiting | JobStatus::Blocked | JobStatus::Done(_) => false,
        }
    }

    /// Whether the job is neither done nor blocked.
    pub fn is_open(self) -> bool
        ensures { result ≡ is_open self }
    {
        match self {
            JobStatus::Waiting | JobStatus::Ready | JobStatus::Running(_) => true,
            JobStatus::Blocked | JobStatus::Done(_) => false,
        }
    }
}

/// What happened on a board: by the worker with that number, and to the job with that number.
#[derive(Clone, Copy, PartialEq, Eq, Debug)]
pub enum Event {
    Take(u64, usize),
    Finish(u64, usize),
    Back(u64, usize),
    Idle(u64),
}

/// A worker, which runs jobs, by its number.
#[derive(Drop)]
pub struct WorkerId {
    number: u64,
}

impl Model for WorkerId {
    ghost use Rattle.std.specs.Prelude.{ℕ};
    ghost use Rattle.std.specs.Coded.{coded_ℕ};

    ghost Value = { ℕ };

    ghost coded = { coded_ℕ };

    ghost view = { λ a. a.number };
}

impl WorkerId {
    /// The worker with that number.
    pub fn new(number: u64) -> WorkerId
        ensures { result ≡ number }
    {
        WorkerId { number }
    }

    /// The worker's number.
    pub fn number(&self) -> u64
        ensures { result ≡ self.now }
    {
        self.number
    }
}

/// An action with its id, which copies share.
#[derive(Drop)]
pub(super) struct Identified {
    action: Arc<Action>,
    id: [u8; 32],
}

impl Model for Identified {
    ghost use Rattle.std.specs.Prelude.{◌≡◌};
    ghost use Rattle.std.specs.Arc.{arc_value};
    ghost use Rattle.ws_action.specs.Actions as actions;

    ghost Value = { actions.Action };

    ghost coded = { actions.action_code };

    ghost view = { λ a. arc_value a.action };

    ghost invariant = { λ a. a.id ≡ actions.action_id (arc_value a.action) };
}

impl Identified {
    /// Nothing is hashed where the last one has the same text.
    pub(super) fn new(
        alloc: Global,
        action: Action,
        last: Option<&Action>,
    ) -> Result<Identified, AllocError>
        ensures { IfOk result (λ identified. identified ≡ action) }
    {
        let action = action.identified(last)?;
        let id = action.id()?;
        let action = Arc::new(alloc, action)?;
        Ok(Identified { action, id })
    }

    pub(super) fn share(&self) -> Result<Identified, AllocError>
        ensures { IfOk result (λ same. same ≡ self.now) }
    {
        let action = Arc::try_clone(&self.action)?;
        Ok(Identified {
            action,
            id: self.id,
        })
    }

    pub(super) fn id(&self) -> [u8; 32]
        ensures { result ≡ action_id self.now }
    {
        self.id
    }

    /// The action, which has its id.
    pub(super) fn action(&self) -> Result<Arc<Action>, AllocError>
        ensures { IfOk result (λ action. arc_value action ≡ self.now) }
    {
        let action = Arc::try_clone(&self.action)?;
        Ok(action)
    }
}

/// What is to be compiled once its imports are good: a package's directory and its files, by some
/// edition; and the action that the directory had last, by which the new one has its id, if it has
/// the same text.
#[derive(Drop)]
pub struct Work {
    edition: Edition,
    path: String,
    files: Arc<Files>,
    last: Option<Arc<Action>>,
}

impl Model for Work {
    ghost use Rattle.std.specs.Prelude.{string_bytes};
    ghost use Rattle.std.specs.Arc.{arc_value};
    ghost use Rattle.ws_board.specs.Work as work;

    ghost Value = { work.Work };

    ghost coded = { work.work_code };

    ghost view = { λ a. record { edition = a.edition; path = string_bytes a.path; files = arc_value a.files } };
}

impl Work {
    /// The files of a package's directory, to be compiled by that edition.
    pub fn new(edition: Edition, path: String, files: Arc<Files>) -> Work
        ensures { result ≡ record { edition = edition; path = string_bytes path; files = arc_value files } }
    {
        Work {
            edition,
            path,
            files,
            last: None,
        }
    }

    /// As `new`, of a directory that had an action, of whatever files and imports: where the work
    /// comes to the same one, it isn't hashed again.
    pub fn after(
        edition: Edition,
        path: String,
        files: Arc<Files>,
        last: Option<Arc<Action>>,
    ) -> Work
        ensures { result ≡ record { edition = edition; path = string_bytes path; files = arc_value files } }
    {
        Work {
            edition,
            path,
            files,
            last,
        }
    }

    /// The action that the directory had last.
    pub(super) fn last(&self) -> Option<&Action> {
        let last: &Action = self.last.as_ref()?;
        Some(last)
    }

    /// The action of the work, where its imports have these summaries. None: they make none. An
    /// `Err` only where memory ran out.
    pub(super) fn acted(
        &self,
        alloc: Global,
        imports: Vec<Arc<Summary>>,
    ) -> Result<Option<Action>, AllocError>
        ensures is { let summaries = map arc_value imports.items in IfOk result (λ made. IfSome made (λ action. action ≡ acted self.now summaries)) }
        ensures make { IfOk result (λ made. IfSome made (λ action. MakeAction self.now.edition self.now.files (map arc_value imports.items))) }
        ensures sized { IfOk result (λ made. IfSome made (λ action. IsSized action)) }
        ensures none { IfOk result (λ made. IfNone made (¬ (MakeAction self.now.edition self.now.files (map arc_value imports.items)))) }
    {
        let path = self.path.clone()?;
        let files = Arc::try_clone(&self.files)?;
        match Action::new(alloc, self.edition, path, files, imports) {
            Ok(action) => Ok(Some(action)),
            Err(_) => Ok(None),
        }
    }
}

/// What is to be compiled, if anything is, and the numbers of the jobs that it imports, in the
/// order of their paths.
#[derive(Drop)]
pub struct Job {
    work: Option<Work>,
    imports: Vec<usize>,
}

impl Model for Job {
    ghost use Rattle.ws_board.specs.Work as works;

    ghost Value = { works.Job };

    ghost coded = { works.job_code };

    ghost view = { λ a. record { work = a.work; imports = a.imports.items } };
}

impl Job {
    /// The job of some work, and of the numbers of the jobs that it imports. One without work is
    /// blocked from the start, and so is what imports it.
    pub fn new(work: Option<Work>, imports: Vec<usize>) -> Job
        ensures { result ≡ record { work = work; imports = imports.items } }
    {
        Job { work, imports }
    }

    pub(super) fn work(&self) -> Option<&Work>
        ensures { option_copied result ≡ self.now.work }
    {
        self.work.as_ref()
    }

    pub(super) fn imports(&self) -> &[usize]
        ensures { result.now ≡ self.now.imports }
    {
        self.imports.as_slice()
    }
}

/// A job that was given. It can't be dropped: it must be finished or given back.
pub struct Task {
    job: usize,
    action: Identified,
    was_back: bool,
}

impl Model for Task {
    ghost use Rattle.ws_board.specs.Work as work;

    ghost Value = { work.Task };

    ghost coded = { work.task_code };

    ghost view = { λ a. record { job = a.job; action = a.action; was_back = a.was_back } };
}

impl Task {
    pub(super) fn new(job: usize, action: Identified, was_back: bool) -> Task
        ensures { result ≡ record { job = job; action = action; was_back = was_back } }
    {
        Task {
            job,
            action,
            was_back,
        }
    }

    /// The number of the job.
    pub fn job(&self) -> usize
        ensures { result ≡ self.now.job }
    {
        self.job
    }

    /// Whether the job was given back before it was given as this task.
    pub fn was_back(&self) -> bool
        ensures { result ≡ self.now.was_back }
    {
        self.was_back
    }

    /// A copy of what is to be compiled. An `Err` only where memory ran out.
    pub fn action(&self) -> Result<Action, AllocError>
        ensures { IfOk result (λ action. action ≡ self.now.action) }
    {
        let action = self.action.action.copy()?;
        Ok(action)
    }

    /// Whether the entry is one for this task: whether it has the id of the task's action.
    pub fn fits(&self, entry: &Entry) -> bool
        ensures { IsTrue result ↔ (action_id entry.now ≡ action_id self.now.action) }
    {
        entry.id() == self.action.id
    }

    pub(super) fn id(&self) -> [u8; 32]
        ensures { result ≡ action_id self.now.action }
    {
        self.action.id()
    }

    pub(super) fn spend(self) -> usize
        ensures { result ≡ self.job }
    {
        let Task {
            job,
            action: _,
            was_back: _,
        } = self;
        job
    }
}

/// The answer to a worker that asks for a job.
pub enum Taken {
    /// To run that job.
    Job(Task),
    /// That nothing is left to do.
    Idle,
    /// That no job can be given until one that runs is done or given back.
    Later,
}
