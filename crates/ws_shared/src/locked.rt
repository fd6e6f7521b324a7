//! What lies under the lock.
ghost use Rattle.std.specs.Prelude.{◌≡◌, ◌<◌, IfOk, IfErr, OnOk, OnErr};
ghost use Rattle.std.specs.Bool.{OnTrue, OnFalse};
ghost use Rattle.std.specs.List.{count_by};
ghost use Rattle.ws_board.specs.declared.work.Event.TheVariants as event;
ghost use Rattle.ws_board.specs.Machine.{is_open};
ghost use Rattle.ws_board.specs.Calls.{IsFresh, TakeStep};
ghost use Rattle.ws_shared.specs.Counts.{none_made, noted, counts_of};
ghost use Rattle.ws_board.specs.Ends.{AddsOwn, MayBeResult};
ghost use Rattle.ws_shared.specs.Workers.{with_taken, AreActionsOf, IsOwn};

use crate::tally::{Books, Desk, Tally};
use std::alloc::AllocError;
use std::marker::Model;
use ws_board::{Board, Entry, Event, Taken, Task, WorkerId};

/// A board, and the books of its events: the board was opened as its type says, its history has as
/// many events of each kind as the books, each action is of its job's work, and what was added to its
/// cache are entries of its jobs.
#[derive(Drop)]
pub(super) struct Locked<L: Desk> {
    board: Board,
    books: Books<L>,
}

impl<L: Desk> Model for Locked<L> {
    ghost use Rattle.ws_board.specs.Work as work;
    ghost use Rattle.ws_shared.specs.Workers as hands;

    ghost Value = { work.Seen };

    ghost coded = { work.seen_code };

    ghost view = { λ a. a.board };

    ghost invariant = { λ a. hands.BoardInvariant L.opening a.books a.board };
}

// Counts the event of what a take answered, if it was one.
fn count_taken<L: Desk>(books: &mut Books<L>, mine: &mut Tally<L>, hand: u64, taken: &Taken)
    requires { 0 < mine.old.parts }
    ensures total { books.new ≡ with_taken hand taken.now books.old }
    ensures mine { mine.new ≡ record { parts = mine.old.parts; made = with_taken hand taken.now mine.old.made } }
{
    match taken {
        Taken::Job(task) => books.add(mine, Event::Take(hand, task.job())),
        Taken::Idle => books.add(mine, Event::Idle(hand)),
        Taken::Later => {}
    }
}

impl<L: Desk> Locked<L> {
    /// The board with its books, before anything happened.
    pub(super) fn new(board: Board, books: Books<L>) -> Locked<L>
        requires opening { board.opening ≡ L.opening }
        requires fresh { IsFresh board }
        requires books { books ≡ none_made }
        ensures { result ≡ board }
    {
        Locked { board, books }
    }

    /// The board's take, counted.
    pub(super) fn take(&mut self, hand: &WorkerId, mine: &mut Tally<L>) -> Result<Taken, AllocError>
        requires { 0 < mine.old.parts }
        ensures step { IfOk result (λ taken. TakeStep hand.now taken self.old self.new) }
        ensures formed { AreActionsOf L.opening.jobs self.new.state.standings.actions }
        ensures own { IfOk result (λ taken. IsOwn L.opening taken) }
        ensures mine { IfOk result (λ taken. mine.new ≡ record { parts = mine.old.parts; made = with_taken hand.now taken mine.old.made }) }
        ensures err { OnErr result (mine.new ≡ mine.old) }
    {
        let taken = self.board.take(hand)?;
        count_taken(&mut self.books, mine, hand.number(), &taken);
        Ok(taken)
    }

    /// The board's finish, counted, if the worker runs the task. Where it doesn't, or for want of
    /// memory, the `Err` gives both back and nothing happened.
    pub(super) fn finish(
        &mut self,
        hand: &WorkerId,
        mine: &mut Tally<L>,
        task: Task,
        entry: Entry,
    ) -> Result<(), (Task, Entry)>
        requires part { 0 < mine.old.parts }
        requires fits { entry ≡ task.action }
        requires own { MayBeResult L.opening task.action }
        ensures ok { OnOk result (mine.new ≡ noted mine.old (event.Finish hand.now task.job)) }
        ensures back { IfErr result (λ back. (back.0 ≡ task) × (back.1 ≡ entry)) }
        ensures err { OnErr result (mine.new ≡ mine.old) }
    {
        if !self.board.runs(hand, &task) {
            return Err((task, entry));
        }
        let event = Event::Finish(hand.number(), task.job());
        self.board.finish(hand, task, entry)?;
        self.books.add(mine, event);
        Ok(())
    }

    /// The board's back, counted, if the worker runs the task. Where it doesn't, the task is spent.
    pub(super) fn back(&mut self, hand: &WorkerId, mine: &mut Tally<L>, task: Task) -> bool
        requires { 0 < mine.old.parts }
        ensures back { OnTrue result (mine.new ≡ noted mine.old (event.Back hand.now task.job)) }
        ensures still { OnFalse result (mine.new ≡ mine.old) }
    {
        let event = Event::Back(hand.number(), task.job());
        if !self.board.try_back(hand, task) {
            return false;
        }
        self.books.add(mine, event);
        true
    }

    /// How many jobs are neither done nor blocked.
    pub(super) fn left(&self) -> usize
        ensures { result ≡ count_by is_open self.now.state.standings.statuses }
    {
        self.board.left()
    }

    /// The board, of whose history whoever has all parts knows the counts.
    pub(super) fn close(self, all: &mut Tally<L>) -> Board
        requires { all.old.parts ≡ L.names.hands }
        ensures opening { result.opening ≡ L.opening }
        ensures counts { counts_of result.history ≡ all.old.made }
        ensures own { AddsOwn result }
    {
        let Locked { board, mut books } = self;
        books.audit(all);
        board
    }
}
