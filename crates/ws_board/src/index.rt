//! Which jobs may be given, and which have an id: no row is read for it.
//!
//! That a job stands once with its id is said by how often its number stands there (`times`), so
//! that nothing has to be said of lists without repetition.
ghost use Rattle.std.specs.Prelude.{◌≡◌, ◌≢◌, ◌<◌, ◌↔◌, ◌+◌, ◌^◌, ◌==◌, if◌then◌else◌, ℕ, ◌++◌, ◌∷◌, OnErr, List, [], length, true, false, Some, None, OnOk, IfOk, IfSome, IfNone, IsTrue, option_copied, replicate};
ghost use Rattle.std.specs.List.{All, list_any, slice_index_or};
ghost use Rattle.std.specs.Str.{bytes_eq};
ghost use Rattle.ws_action.specs.Actions.{action_id};
ghost use Rattle.ws_board.specs.Rows.{those_of};
ghost use Rattle.ws_board.specs.Indexes.{id_in, run_with, jobs_by, run_by, jobs_in, run_in, is_free_in, is_released, ChangesIndex, SetsRun, JoinsIn, BeginsIn, MarksFree, IsSameBut};

use crate::flags::Flags;
use crate::work::{Task, WorkerId};
use std::alloc::{AllocError, Global};
use std::collections::BTreeMap;

/// The job of an id that a worker runs.
#[derive(Drop)]
pub(super) struct Run {
    hand: u64,
    job: usize,
}

/// The jobs of an id that are ready or run, and which of them runs.
#[derive(Drop)]
pub(super) struct Id {
    jobs: Vec<usize>,
    run: Option<Run>,
}

/// A job that became ready, and its id.
#[derive(Clone, Copy)]
pub(super) struct Ready {
    pub(super) job: usize,
    pub(super) id: [u8; 32],
}

/// Jobs by their ids, which jobs may be given: those that are ready, and whose id no worker runs; and
/// how many jobs run.
#[derive(Drop)]
pub(super) struct Index {
    ids: BTreeMap<[u8; 32], Id>,
    free: Flags,
    running: usize,
}

// Whether these may be given.
fn mark_free(free: &mut Flags, jobs: &[usize], may: bool)
    requires { All (λ job. job < length free.old) jobs.now }
    ensures len { length free.new ≡ length free.old }
    ensures each { (k : ℕ) → slice_index_or free.new k false ≡ (if list_any (λ j. j == k) jobs.now then may else slice_index_or free.old k false) }
{
    for job in jobs {
        free.set(*job, may);
    }
}

fn of_id<'a>(ids: &'a BTreeMap<[u8; 32], Id>, id: &[u8; 32]) -> Option<&'a Id>
    ensures { option_copied result ≡ id_in ids.now.entries id.now }
{
    ids.get(id)
}

fn jobs_of<'a>(ids: &'a BTreeMap<[u8; 32], Id>, id: &[u8; 32]) -> &'a [usize]
    ensures { result.now ≡ jobs_by ids.now.entries id.now }
{
    match of_id(ids, id) {
        Some(its) => its.jobs.as_slice(),
        None => &[],
    }
}

fn set_run(ids: &mut BTreeMap<[u8; 32], Id>, id: &[u8; 32], run: Option<Run>)
    requires { id_in ids.old.entries id.now ≢ None }
    ensures jobs { (other : List ℕ) → jobs_by ids.new.entries other ≡ jobs_by ids.old.entries other }
    ensures runs { (other : List ℕ) → run_by ids.new.entries other ≡ (if bytes_eq id.now other then run else run_by ids.old.entries other) }
{
    if let Some(its) = ids.get_mut(id) {
        its.run = run;
    }
}

// The job joins those of the id, which is kept. An `Err`, for want of memory, changes nothing.
fn join(ids: &mut BTreeMap<[u8; 32], Id>, id: &[u8; 32], job: usize) -> Result<(), AllocError>
    requires { id_in ids.old.entries id.now ≢ None }
    ensures ok { OnOk result (JoinsIn (jobs_by ids.old.entries) (jobs_by ids.new.entries) id.now job) }
    ensures err { OnErr result ((other : List ℕ) → jobs_by ids.new.entries other ≡ jobs_by ids.old.entries other) }
    ensures runs { (other : List ℕ) → run_by ids.new.entries other ≡ run_by ids.old.entries other }
{
    if let Some(its) = ids.get_mut(id) {
        its.jobs.push(job)?;
    }
    Ok(())
}

// The last job that joined those of the id is none of them any more.
fn leave(ids: &mut BTreeMap<[u8; 32], Id>, id: &[u8; 32], job: usize)
    requires { (before : List ℕ) × (jobs_by ids.old.entries id.now ≡ before ++ job ∷ []) }
    ensures jobs { JoinsIn (jobs_by ids.new.entries) (jobs_by ids.old.entries) id.now job }
    ensures runs { (other : List ℕ) → run_by ids.new.entries other ≡ run_by ids.old.entries other }
{
    if let Some(its) = ids.get_mut(id) {
        its.jobs.pop();
    }
}

// An id that isn't kept is kept with its first job. An `Err`, for want of memory, changes nothing.
fn begin(
    alloc: Global,
    ids: &mut BTreeMap<[u8; 32], Id>,
    id: [u8; 32],
    job: usize,
) -> Result<(), AllocError>
    requires { id_in ids.old.entries id ≡ None }
    ensures ok { OnOk result (BeginsIn (jobs_by ids.old.entries) (jobs_by ids.new.entries) id job) }
    ensures err { OnErr result ((other : List ℕ) → jobs_by ids.new.entries other ≡ jobs_by ids.old.entries other) }
    ensures runs { (other : List ℕ) → run_by ids.new.entries other ≡ run_by ids.old.entries other }
{
    let mut jobs = Vec::new(alloc);
    jobs.push(job)?;
    ids.insert(id, Id { jobs, run: None })?;
    Ok(())
}

fn forget(ids: &mut BTreeMap<[u8; 32], Id>, id: &[u8; 32])
    ensures { (other : List ℕ) → id_in ids.new.entries other ≡ (if bytes_eq id.now other then None else id_in ids.old.entries other) }
{
    ids.remove(id);
}

impl Index {
    /// Of so many jobs none is ready or runs.
    pub(super) fn new(alloc: Global, jobs: usize) -> Result<Index, AllocError>
        ensures ids { IfOk result (λ index. (id : List ℕ) → (jobs_in index id ≡ []) × (run_in index id ≡ None)) }
        ensures free { IfOk result (λ index. index.free ≡ replicate jobs false) }
        ensures running { IfOk result (λ index. index.running ≡ 0) }
    {
        Ok(Index {
            ids: BTreeMap::new(alloc),
            free: Flags::new(alloc, jobs)?,
            running: 0,
        })
    }

    /// The first job that may be given.
    pub(super) fn first_free(&self) -> Option<usize>
        ensures some { IfSome result (λ job. is_free_in self.now job ≡ true) }
        ensures least { IfSome result (λ job. (k : ℕ) → k < job → is_free_in self.now k ≡ false) }
        ensures none { IfNone result ((k : ℕ) → is_free_in self.now k ≡ false) }
    {
        self.free.first()
    }

    /// Whether any job runs.
    pub(super) fn any_running(&self) -> bool
        ensures { IsTrue result ↔ (0 < self.now.running) }
    {
        self.running > 0
    }

    /// The jobs of an id that are ready or run.
    pub(super) fn jobs(&self, id: &[u8; 32]) -> &[usize]
        ensures { result.now ≡ jobs_in self.now id.now }
    {
        jobs_of(&self.ids, id)
    }

    /// Whether the worker runs the task's job, by an action with the id of the task's.
    pub(super) fn runs(&self, hand: &WorkerId, task: &Task) -> bool
        ensures { IsTrue result ↔ (run_in self.now (action_id task.now.action) ≡ Some (run_with hand.now task.now.job)) }
    {
        let Some(its) = of_id(&self.ids, &task.id()) else {
            return false;
        };
        match &its.run {
            Some(run) => run.hand == hand.number() && run.job == task.job(),
            None => false,
        }
    }

    /// The worker runs the job, which is among those of the id.
    pub(super) fn run(&mut self, hand: u64, job: usize, id: &[u8; 32])
        requires kept { id_in self.old.ids.entries id.now ≢ None }
        requires inside { All (λ j. j < length self.old.free) (jobs_in self.old id.now) }
        requires room { self.old.running + 1 < 2 ^ 64 }
        ensures changes { SetsRun self.old self.new id.now (Some (run_with hand job)) }
        ensures free { MarksFree self.old self.new id.now false }
        ensures len { length self.new.free ≡ length self.old.free }
        ensures running { self.new.running ≡ self.old.running + 1 }
    {
        mark_free(&mut self.free, jobs_of(&self.ids, id), false);
        set_run(&mut self.ids, id, Some(Run { hand, job }));
        self.running += 1;
    }

    /// No worker runs the id any more.
    pub(super) fn stop(&mut self, id: &[u8; 32])
        requires kept { id_in self.old.ids.entries id.now ≢ None }
        requires inside { All (λ j. j < length self.old.free) (jobs_in self.old id.now) }
        requires some { 0 < self.old.running }
        ensures changes { SetsRun self.old self.new id.now None }
        ensures free { MarksFree self.old self.new id.now true }
        ensures len { length self.new.free ≡ length self.old.free }
        ensures running { self.new.running + 1 ≡ self.old.running }
    {
        mark_free(&mut self.free, jobs_of(&self.ids, id), true);
        set_run(&mut self.ids, id, None);
        self.running -= 1;
    }

    /// The id, which a worker ran, is done: no job has it that is ready or runs.
    pub(super) fn end(&mut self, id: &[u8; 32])
        requires some { 0 < self.old.running }
        ensures changes { ChangesIndex self.old self.new id.now [] None }
        ensures free { self.new.free ≡ self.old.free }
        ensures running { self.new.running + 1 ≡ self.old.running }
    {
        forget(&mut self.ids, id);
        self.running -= 1;
    }

    // A job that became ready joins those of its id. An `Err`, for want of memory, changes nothing.
    fn admit_one(&mut self, alloc: Global, one: Ready) -> Result<(), AllocError>
        ensures ok { OnOk result (JoinsIn (jobs_in self.old) (jobs_in self.new) one.id one.job) }
        ensures err { OnErr result ((id : List ℕ) → jobs_in self.new id ≡ jobs_in self.old id) }
        ensures same { IsSameBut self.old self.new }
    {
        if of_id(&self.ids, &one.id).is_some() {
            join(&mut self.ids, &one.id, one.job)
        } else {
            begin(alloc, &mut self.ids, one.id, one.job)
        }
    }

    /// Takes these out again, which were the last to join.
    pub(super) fn expel(&mut self, ready: &[Ready])
        requires { (before : List ℕ → List ℕ) × ((id : List ℕ) → jobs_in self.old id ≡ before id ++ those_of id ready.now) }
        ensures jobs { (id : List ℕ) → jobs_in self.old id ≡ jobs_in self.new id ++ those_of id ready.now }
        ensures same { IsSameBut self.old self.new }
    {
        let mut count = ready.len();
        while count > 0 {
            count -= 1;
            leave(&mut self.ids, &ready[count].id, ready[count].job);
        }
    }

    /// These jobs, which became ready, join those of their ids. An `Err`, for want of memory, changes
    /// nothing.
    pub(super) fn admit(&mut self, alloc: Global, ready: &[Ready]) -> Result<(), AllocError>
        ensures ok { OnOk result ((id : List ℕ) → jobs_in self.new id ≡ jobs_in self.old id ++ those_of id ready.now) }
        ensures err { OnErr result ((id : List ℕ) → jobs_in self.new id ≡ jobs_in self.old id) }
        ensures same { IsSameBut self.old self.new }
    {
        for count in 0..ready.len() {
            if let Err(refused) = self.admit_one(alloc, ready[count]) {
                self.expel(&ready[..count]);
                return Err(refused);
            }
        }
        Ok(())
    }

    fn release_one(&mut self, one: Ready)
        requires { one.job < length self.old.free }
        ensures ids { self.new.ids ≡ self.old.ids }
        ensures free { (k : ℕ) → is_free_in self.new k ≡ (if is_released self.old (one ∷ []) k then true else is_free_in self.old k) }
        ensures len { length self.new.free ≡ length self.old.free }
        ensures running { self.new.running ≡ self.old.running }
    {
        let runs = match of_id(&self.ids, &one.id) {
            Some(its) => its.run.is_some(),
            None => false,
        };
        if !runs {
            self.free.set(one.job, true);
        }
    }

    /// These, which joined, may be given where no worker runs their ids.
    pub(super) fn release(&mut self, ready: &[Ready])
        requires { All (λ one. one.job < length self.old.free) ready.now }
        ensures ids { self.new.ids ≡ self.old.ids }
        ensures free { (k : ℕ) → is_free_in self.new k ≡ (if is_released self.old ready.now k then true else is_free_in self.old k) }
        ensures len { length self.new.free ≡ length self.old.free }
        ensures running { self.new.running ≡ self.old.running }
    {
        for one in ready {
            self.release_one(*one);
        }
    }
}
