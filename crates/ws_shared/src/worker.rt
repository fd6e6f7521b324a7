//! The workers of a shared board.
ghost use Rattle.std.specs.Prelude.{◌≡◌, ◌+◌, ◌<◌, None, IfOk, IfErr, OnOk, OnErr, vec_len};
ghost use Rattle.std.specs.Bool.{OnTrue, OnFalse};
ghost use Rattle.ws_board.specs.declared.work.Event.TheVariants as event;
ghost use Rattle.ws_board.specs.Ends.{MayBeResult};
ghost use Rattle.ws_shared.specs.Counts.{none_made};
ghost use Rattle.ws_shared.specs.Workers.{after_event, new_workers, made_by, job_of, TaskGivenOrLater};

use crate::locked::Locked;
use crate::tally::{Desk, Tally};
use std::alloc::{AllocError, Global};
use std::marker::Model;
use ws_board::{Entry, Taken, Task, WorkerId};

/// A worker with its shares, and the number of the job that it runs.
#[derive(Drop)]
pub struct Worker<L: Desk> {
    hand: WorkerId,
    runs: Option<usize>,
    tally: Tally<L>,
}

impl<L: Desk> Model for Worker<L> {
    ghost use Rattle.std.specs.Prelude.{◌≡◌};
    ghost use Rattle.ws_shared.specs.Workers as hands;

    ghost Value = { hands.WorkerState };

    ghost coded = { hands.worker_code };

    ghost view = { λ a. record { number = a.hand; runs = a.runs; made = a.tally.made } };

    ghost invariant = { λ a. a.tally.parts ≡ 1 };
}

// The number of the job that was given.
fn job_of(taken: &Taken) -> Option<usize>
    ensures { result ≡ job_of taken.now }
{
    match taken {
        Taken::Job(task) => Some(task.job()),
        Taken::Idle | Taken::Later => None,
    }
}

impl<L: Desk> Worker<L> {
    fn new(number: u64, tally: Tally<L>) -> Worker<L>
        requires { tally ≡ record { parts = 1; made = none_made } }
        ensures { result ≡ record { number = number; runs = None; made = none_made } }
    {
        Worker {
            hand: WorkerId::new(number),
            runs: None,
            tally,
        }
    }

    fn into_tally(self) -> Tally<L>
        ensures { result ≡ record { parts = 1; made = self.made } }
    {
        self.tally
    }

    /// The number of the job that the worker runs, if it runs one.
    pub fn runs(&self) -> Option<usize>
        ensures { result ≡ self.now.runs }
    {
        self.runs
    }

    /// Asks the board for a job. An `Err`, for want of memory, changes nothing.
    #[tactic(auto, using(crate::proofs::Keeping::told_by))]
    pub(super) fn take(&mut self, locked: &mut Locked<L>) -> Result<Taken, AllocError>
        requires { self.old.runs ≡ None }
        ensures task_given { IfOk result (λ taken. TaskGivenOrLater L.opening taken self.old self.new) }
        ensures err { OnErr result (self.new ≡ self.old) }
    {
        let taken = locked.take(&self.hand, &mut self.tally)?;
        self.runs = job_of(&taken);
        Ok(taken)
    }

    /// The task is done, if the worker runs it and there is memory. An `Err` gives both back, and the
    /// worker is unchanged.
    pub(super) fn finish(
        &mut self,
        locked: &mut Locked<L>,
        task: Task,
        entry: Entry,
    ) -> Result<(), (Task, Entry)>
        requires fits { entry ≡ task.action }
        requires own { MayBeResult L.opening task.action }
        ensures ok { OnOk result (self.new ≡ after_event self.old None (event.Finish self.old.number task.job)) }
        ensures back { IfErr result (λ back. (back.0 ≡ task) × (back.1 ≡ entry)) }
        ensures err { OnErr result (self.new ≡ self.old) }
    {
        locked.finish(&self.hand, &mut self.tally, task, entry)?;
        self.runs = None;
        Ok(())
    }

    /// The task is given back, if the worker runs it, and the answer is whether it does. Where it
    /// doesn't, the task is spent and the worker is unchanged.
    pub(super) fn back(&mut self, locked: &mut Locked<L>, task: Task) -> bool
        ensures back { OnTrue result (self.new ≡ after_event self.old None (event.Back self.old.number task.job)) }
        ensures still { OnFalse result (self.new ≡ self.old) }
    {
        if !locked.back(&self.hand, &mut self.tally, task) {
            return false;
        }
        self.runs = None;
        true
    }
}

/// A worker for each part, numbered from 1.
#[tactic(auto, using(crate::proofs::HandFacts::new_hands_more))]
pub(super) fn workers_of<L: Desk>(
    alloc: Global,
    count: u64,
    all: Tally<L>,
) -> Result<Vec<Worker<L>>, AllocError>
    requires some { 0 < count }
    requires all { all ≡ record { parts = count; made = none_made } }
    ensures { IfOk result (λ hands. hands.items ≡ new_workers count) }
{
    let mut all = all;
    let mut hands = Vec::new(alloc);
    for number in 1..count {
        let one = all.split_one();
        hands.push(Worker::new(number, one))?;
    }
    hands.push(Worker::new(count, all))?;
    Ok(hands)
}

/// All shares in one: that of the first worker, and those of the others.
pub(super) fn merged<L: Desk>(first: Worker<L>, hands: Vec<Worker<L>>) -> Tally<L>
    ensures parts { result.parts ≡ 1 + vec_len hands }
    ensures takes { result.made.takes ≡ first.made.takes + (made_by hands.items).takes }
    ensures finishes { result.made.finishes ≡ first.made.finishes + (made_by hands.items).finishes }
    ensures backs { result.made.backs ≡ first.made.backs + (made_by hands.items).backs }
    ensures idles { result.made.idles ≡ first.made.idles + (made_by hands.items).idles }
{
    let mut all = first.into_tally();
    let mut hands = hands;
    while let Some(hand) = hands.pop() {
        all.merge(hand.into_tally());
    }
    all
}
