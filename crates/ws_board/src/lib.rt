//! The board: which jobs of a build wait, which are to be compiled, by whom they are run, and what happened.
#![tactic(auto)]

ghost use Rattle.std.specs.Prelude.{◌≡◌, ◌<◌, ◌+◌, ◌≤◌, ℕ, List, [], true, Some, None, IfOk, IfErr, IsTrue, OnOk, OnErr, ◌↔◌};
ghost use Rattle.std.specs.Bool.{OnTrue, OnFalse};
ghost use Rattle.std.specs.List.{list_any, count_by};
ghost use Rattle.ws_map.specs.Kept.{taken};
ghost use Rattle.ws_action.specs.Actions.{Action as AnAction, action_id};
ghost use Rattle.ws_cache.specs.Held.{CacheStandsFor};
ghost use Rattle.ws_cache.specs.Joined.{lesser};
ghost use Rattle.ws_board.specs.Work.{Job as AJob};
ghost use Rattle.ws_board.specs.declared.work.Event.TheVariants as event;
ghost use Rattle.ws_board.specs.Machine.{is_open, is_idle, IsRunWith, IsHistory};
ghost use Rattle.ws_board.specs.Calls.{IsFresh, Happens, TakeStep, IsLeastFree};
ghost use Rattle.ws_board.specs.Ends.{AreFinished, AddsOwn, MayBeResult, GivesOwn, HasResults, ShowsEnds, IsRanked, AreEnds, End};
ghost use Rattle.ws_board.specs.Histories.{RunsAlone};
ghost use Rattle.ws_board.specs.Rows.{seen_of, IsWithinReads};

use ending::Parts;
pub use ending::{Built, Stopped};
use index::Index;
use propagation::{Holds, carry_all, is_good};
use rows::{Moves, Rows};
use std::alloc::{AllocError, Global};
use std::marker::Model;
use steps::{finish_rows, given};
pub use work::{Event, Job, JobStatus, Taken, Task, Work, WorkerId};
pub use ws_cache::{Cache, Entry};

mod ending;
mod flags;
mod index;
mod propagation;
mod rows;
mod steps;
mod table;
mod work;

/// The jobs of a build, where they stand, the cache that they were opened over, the entries that
/// came since, and the history of events, which is legal from the opening and has room for the end
/// of each task that runs.
#[derive(Drop)]
pub struct Board {
    alloc: Global,
    rows: Rows,
    looks: u128,
    index: Index,
    opened: Cache,
    added: Cache,
    history: Vec<Event>,
}

impl Model for Board {
    ghost use Rattle.std.specs.Prelude.{◌≡◌, ◌+◌, ◌≤◌, [], false, vec_len, vec_capacity};
    ghost use Rattle.std.specs.List.{count_by};
    ghost use Rattle.ws_board.specs.Work as work;
    ghost use Rattle.ws_board.specs.Machine as machine;
    ghost use Rattle.ws_board.specs.Rows.{seen_by, import_count, is_back, ArePropagated, Waits, KnowsBacks, IsPaid, IsLegal};
    ghost use Rattle.ws_board.specs.Table.{job_states_of};
    ghost use Rattle.ws_board.specs.Indexes.{Agrees};

    ghost Value = { work.Seen };

    ghost coded = { work.seen_code };

    ghost view = { λ a. seen_by a.rows.jobs.items a.rows.rows a.opened a.added a.history.items a.looks };

    ghost invariant = { λ a. IsLegal (seen_by a.rows.jobs.items a.rows.rows a.opened a.added a.history.items a.looks)
        × ArePropagated a.rows × Waits a.rows.jobs.items a.rows.rows [] (λ _. false)
        × Agrees a.rows.rows a.index × KnowsBacks a.rows.rows a.history.items
        × IsPaid a.looks a.rows.rows (import_count a.rows.jobs.items) (count_by is_back a.history.items)
        × (vec_len a.history + count_by machine.is_running (job_states_of a.rows.rows).statuses ≤ vec_capacity a.history) };
}

impl Board {
    /// A board of these jobs: each without work, and each that imports one that can't be good, is
    /// blocked; each whose id the cache has is done. An `Err` only where memory ran out.
    pub fn open(alloc: Global, jobs: Vec<Job>, cache: Cache) -> Result<Board, AllocError>
        ensures opening { IfOk result (λ board. board.opening ≡ record { jobs = jobs.items; cache = cache }) }
        ensures fresh { IfOk result (λ board. IsFresh board) }
        ensures shows { IfOk result (λ board. ShowsEnds board) }
        ensures looks { IfOk result (λ board. IsWithinReads board) }
    {
        let added = Cache::new(alloc);
        let mut index = Index::new(alloc, jobs.len())?;
        let mut rows = Rows::new(alloc, jobs)?;
        let mut looks = 0;
        let mut moves = Moves::new(alloc);
        let holds = Holds {
            opened: &cache,
            added: &added,
            newest: None,
        };
        carry_all(alloc, holds, &mut rows, &mut looks, &mut moves)?;
        index.admit(alloc, moves.ready())?;
        index.release(moves.ready());
        Ok(Board {
            alloc,
            rows,
            looks,
            index,
            opened: cache,
            added,
            history: Vec::new(alloc),
        })
    }

    /// How often the rows of jobs and of imports were read, by the opening and by all calls of
    /// `take`, `finish` and `back` that weren't refused: at any moment no more than so many for each
    /// job, import and back.
    pub fn row_reads(&self) -> u128
        ensures is { result ≡ self.now.looks }
        ensures within { IsWithinReads self.now }
    {
        self.looks
    }

    /// Gives the worker the first job that is ready and whose id no worker runs, and says whether that
    /// job was given back before. Where there is none, it answers `Later` if any job runs, which is
    /// no event, and else `Idle`. An `Err`, for want of memory, changes nothing.
    pub fn take(&mut self, hand: &WorkerId) -> Result<Taken, AllocError>
        ensures step { IfOk result (λ taken. TakeStep hand.now taken self.old self.new) }
        ensures least { IfOk result (λ taken. IsLeastFree self.old.state.standings taken) }
        ensures own { IfOk result (λ taken. GivesOwn self.old taken) }
        ensures looks { IsWithinReads self.new }
        ensures err { OnErr result (self.new ≡ self.old) }
    {
        let Some(k) = self.index.first_free() else {
            if self.index.any_running() {
                return Ok(Taken::Later);
            }
            self.history.push(Event::Idle(hand.number()))?;
            return Ok(Taken::Idle);
        };
        // For this event, its task's end, and those of the tasks that run.
        self.history.reserve(self.rows.len() + 2)?;
        let before = self.looks;
        match given(&self.rows, &mut self.looks, k) {
            Ok(task) => {
                self.index.run(hand.number(), k, &task.id());
                self.rows.run(k, hand.number());
                self.history.push_reserved(Event::Take(hand.number(), k));
                Ok(Taken::Job(task))
            }
            Err(refused) => {
                self.looks = before;
                Err(refused)
            }
        }
    }

    /// Whether the worker runs the task's job, by an action with the id of the task's. No text is looked
    /// at.
    pub fn runs(&self, hand: &WorkerId, task: &Task) -> bool
        ensures is { IsTrue result ↔ IsRunWith self.now.state.standings hand.now task.now.job (action_id task.now.action) }
        ensures alone { RunsAlone self.now.state.standings }
    {
        self.index.runs(hand, task)
    }

    /// The task is done: its entry is added, all jobs with its id that are ready or run are done,
    /// and waiting jobs are carried on. An `Err`, for want of memory, gives both back and changes
    /// nothing.
    pub fn finish(&mut self, hand: &WorkerId, task: Task, entry: Entry) -> Result<(), (Task, Entry)>
        requires runs { IsRunWith self.old.state.standings hand.now task.job (action_id task.action) }
        requires fits { action_id entry ≡ action_id task.action }
        ensures step { OnOk result (Happens self.old (event.Finish hand.now task.job) self.new) }
        ensures added { OnOk result (self.new.state.added ≡ taken lesser self.old.state.added (action_id entry) entry) }
        ensures own { OnOk result (MayBeResult self.old.opening entry → AddsOwn self.old → AddsOwn self.new) }
        ensures looks { IsWithinReads self.new }
        ensures back { IfErr result (λ back. (back.0 ≡ task) × (back.1 ≡ entry)) }
        ensures err { OnErr result (self.new ≡ self.old) }
    {
        let id = task.id();
        let looks = self.looks;
        let mut moves = Moves::new(self.alloc);
        let holds = Holds {
            opened: &self.opened,
            added: &self.added,
            newest: Some(&entry),
        };
        let Ok(()) = finish_rows(
            self.alloc,
            holds,
            &mut self.rows,
            &mut self.looks,
            &mut self.index,
            &mut moves,
            &id,
            is_good(&entry),
        ) else {
            moves.undo(&mut self.rows);
            self.looks = looks;
            return Err((task, entry));
        };
        if let Err(entry) = self.added.put(entry) {
            self.index.expel(moves.ready());
            moves.undo(&mut self.rows);
            self.looks = looks;
            return Err((task, entry));
        }
        self.index.end(&id);
        self.index.release(moves.ready());
        self.history
            .push_reserved(Event::Finish(hand.number(), task.spend()));
        Ok(())
    }

    /// The task is given back: its job is ready again.
    pub fn back(&mut self, hand: &WorkerId, task: Task)
        requires { IsRunWith self.old.state.standings hand.now task.job (action_id task.action) }
        ensures step { Happens self.old (event.Back hand.now task.job) self.new }
        ensures looks { IsWithinReads self.new }
    {
        self.index.stop(&task.id());
        let job = task.spend();
        self.rows.give_back(job);
        self.history.push_reserved(Event::Back(hand.number(), job));
    }

    /// The task is given back, if the worker runs it, and the answer is whether it does. Where it
    /// doesn't, the task is spent and nothing changes.
    pub fn try_back(&mut self, hand: &WorkerId, task: Task) -> bool
        ensures is { IsTrue result ↔ IsRunWith self.old.state.standings hand.now task.job (action_id task.action) }
        ensures back { OnTrue result (Happens self.old (event.Back hand.now task.job) self.new) }
        ensures still { OnFalse result (self.new ≡ self.old) }
    {
        if !self.runs(hand, &task) {
            task.spend();
            return false;
        }
        self.back(hand, task);
        true
    }

    /// How many jobs are neither done nor blocked.
    pub fn left(&self) -> usize
        ensures { result ≡ count_by is_open self.now.state.standings.statuses }
    {
        self.rows.open()
    }

    /// Whether a worker was told that nothing is left to do.
    pub fn has_idled(&self) -> bool
        ensures { result ≡ list_any is_idle self.now.history }
    {
        self.history.iter().any(|event| match event {
            Event::Idle(_) => true,
            _ => false,
        })
    }

    /// How many times a worker was told that nothing is left to do.
    pub fn idles(&self) -> usize
        ensures { result ≡ count_by is_idle self.now.history }
    {
        self.history
            .iter()
            .filter(|event| match event {
                Event::Idle(_) => true,
                _ => false,
            })
            .count()
    }

    fn into_parts(self) -> Parts
        ensures seen { seen_of result ≡ self }
        ensures legal { IsHistory self.opening self.history self.state }
    {
        let (jobs, rows) = self.rows.into_parts();
        Parts {
            jobs,
            opened: self.opened,
            rows,
            added: self.added,
            history: self.history,
            looks: self.looks,
        }
    }

    /// The board, run no more: where its jobs stand.
    pub fn stopped(self) -> Stopped
        ensures { result ≡ self }
    {
        Stopped::new(self.into_parts())
    }

    /// What the board came to, when nothing was left to do: each job that came to something has an
    /// entry, and each finish added one that no cache had before.
    pub fn built(self) -> Built
        requires idled { list_any is_idle self.history ≡ true }
        ensures same { result ≡ self }
        ensures finished { (entries : List AnAction) × AreFinished self entries }
        ensures ends { (N : List AnAction) → CacheStandsFor self.state.added N → HasResults self N }
        ensures own { AddsOwn self → HasResults self [] }
    {
        Built::new(self.into_parts())
    }
}

/// The jobs say one thing of how each ends, if imports lead down.
pub fn law_one_end()
    ensures { (jobs : List AJob) (rank : ℕ → ℕ) → IsRanked rank jobs → (ends others : List End) → AreEnds jobs ends → AreEnds jobs others → ends ≡ others }
{}
