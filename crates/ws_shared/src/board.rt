//! The board behind its lock.
ghost use Rattle.std.specs.Prelude.{◌≡◌, ◌<◌, All, None, IfOk, IfErr, OnOk, OnErr, vec_len};
ghost use Rattle.std.specs.Bool.{OnTrue, OnFalse};
ghost use Rattle.ws_board.specs.declared.work.Event.TheVariants as event;
ghost use Rattle.ws_shared.specs.Counts.{counts_of};
ghost use Rattle.ws_board.specs.Ends.{AddsOwn, MayBeResult};
ghost use Rattle.ws_shared.specs.Workers.{after_event, new_workers, made_by, TaskGiven};

use crate::locked::Locked;
use crate::tally::{Blanks, Desk};
use crate::worker::{Worker, merged, workers_of};
use std::alloc::{AllocError, Global};
use std::sync::{Condvar, Mutex, Wait};
use ws_board::{Board, Cache, Entry, Job, Taken, Task};

/// A board that workers in any threads share.
#[derive(Drop)]
pub struct SharedBoard<L: Desk> {
    locked: Mutex<Locked<L>>,
    moved: Condvar,
}

impl<L: Desk> SharedBoard<L> {
    /// The board of these jobs over that cache, and that many workers, numbered from 1. An `Err` only
    /// where memory ran out.
    #[tactic(auto, using(crate::proofs::HandFacts::new_hands_length, crate::proofs::HandFacts::new_hands_rest))]
    pub fn open(
        alloc: Global,
        jobs: Vec<Job>,
        cache: Cache,
        hands: u64,
        blanks: Blanks,
    ) -> Result<(SharedBoard<L>, Vec<Worker<L>>), AllocError>
        requires some { 0 < hands }
        requires blanks { (blanks ≡ L.names) × (hands ≡ L.names.hands) }
        requires opening { record { jobs = jobs.items; cache = cache } ≡ L.opening }
        ensures hands { IfOk result (λ opened. opened.1.items ≡ new_workers hands) }
        ensures count { IfOk result (λ opened. vec_len opened.1 ≡ hands) }
        ensures rest { IfOk result (λ opened. All (λ hand. hand.runs ≡ None) opened.1.items) }
    {
        let board = Board::open(alloc, jobs, cache)?;
        let (books, all) = blanks.open::<L>();
        let hands = workers_of(alloc, hands, all)?;
        let board = SharedBoard {
            locked: Mutex::new(Locked::new(board, books)),
            moved: Condvar::new(),
        };
        Ok((board, hands))
    }

    /// How many jobs are neither done nor blocked at this moment.
    pub fn left<R: Wait>(&self, rt: &R) -> usize {
        self.locked.lock(rt).left()
    }

    /// Gives the worker a job, and waits while none may be given but some job runs. None: nothing is
    /// ready and nothing runs. An `Err`, for want of memory, leaves the worker as it was.
    pub fn take<R: Wait>(&self, rt: &R, hand: &mut Worker<L>) -> Result<Option<Task>, AllocError>
        requires { hand.old.runs ≡ None }
        ensures task_given { IfOk result (λ told. TaskGiven L.opening told hand.old hand.new) }
        ensures err { OnErr result (hand.new ≡ hand.old) }
    {
        let mut locked = self.locked.lock(rt);
        for _ in rt.forever() {
            match hand.take(&mut locked)? {
                Taken::Job(task) => return Ok(Some(task)),
                Taken::Idle => return Ok(None),
                Taken::Later => locked = self.moved.wait(rt, locked),
            }
        }
        unreachable!()
    }

    /// The task is done, if the worker runs it and there is memory: the entry is in the cache. An
    /// `Err` gives both back, and the worker is unchanged. That the action comes is known to who took
    /// the task, so that under the lock ids alone are compared.
    pub fn finish<R: Wait>(
        &self,
        rt: &R,
        hand: &mut Worker<L>,
        task: Task,
        entry: Entry,
    ) -> Result<(), (Task, Entry)>
        requires fits { entry ≡ task.action }
        requires own { MayBeResult L.opening task.action }
        ensures ok { OnOk result (hand.new ≡ after_event hand.old None (event.Finish hand.old.number task.job)) }
        ensures back { IfErr result (λ back. (back.0 ≡ task) × (back.1 ≡ entry)) }
        ensures err { OnErr result (hand.new ≡ hand.old) }
    {
        let done = hand.finish(&mut self.locked.lock(rt), task, entry);
        if done.is_ok() {
            self.moved.notify_all();
        }
        done
    }

    /// The task is given back, if the worker runs it, and the answer is whether it does. Where it
    /// doesn't, the task is spent and the worker is unchanged.
    pub fn back<R: Wait>(&self, rt: &R, hand: &mut Worker<L>, task: Task) -> bool
        ensures back { OnTrue result (hand.new ≡ after_event hand.old None (event.Back hand.old.number task.job)) }
        ensures still { OnFalse result (hand.new ≡ hand.old) }
    {
        let done = hand.back(&mut self.locked.lock(rt), task);
        if done {
            self.moved.notify_all();
        }
        done
    }

    /// The board, once all workers are back: its history has as many events of each kind as they made.
    pub fn close(self, hands: Vec<Worker<L>>) -> Board
        requires all { (vec_len hands ≡ L.names.hands) × (0 < vec_len hands) }
        ensures opening { result.opening ≡ L.opening }
        ensures counts { counts_of result.history ≡ made_by hands.items }
        ensures own { AddsOwn result }
    {
        let SharedBoard { locked, moved: _ } = self;
        let mut hands = hands;
        let Some(first) = hands.pop() else {
            unreachable!();
        };
        let mut all = merged(first, hands);
        locked.into_inner().close(&mut all)
    }
}
