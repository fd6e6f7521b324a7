//! Packages that aren't in the order yet.
ghost use Rattle.std.specs.Prelude.{◌≡◌, ◌<◌, ◌∷◌, ◌⊎◌, ◌↔◌, ℕ, [], true, false, length, replicate, slice_set, IfOk, IfSome, IfNone, IsTrue, OnOk, Some};
ghost use Rattle.std.specs.List.{Contains, slice_get};
ghost use Rattle.ws_reach.specs.Reach.{rows_of};
ghost use Rattle.go_init.specs.declared.queue.Waiter.{Waiter as AWaiter};
ghost use Rattle.go_init.specs.Queues.{AreQueued, IsAt, IsLeft, IsMissing, IsPut, IsReady};

use std::alloc::{AllocError, Global};
use std::collections::BTreeSet;
use std::mem;

/// A package that waits for one of its imports, and the place of that import in its row.
#[derive(Clone, Copy)]
pub(crate) struct Waiter {
    importer: usize,
    place: usize,
}

/// Which packages are in the order, which of the others are ready to come next, and which wait, by
/// what they wait for.
#[derive(Drop)]
pub(crate) struct Queue {
    listed: Vec<bool>,
    ready: BTreeSet<usize>,
    waiting: Vec<Vec<Waiter>>,
}

impl Queue {
    /// All packages, of which none is in the order.
    pub(crate) fn new(alloc: Global, rows: &[Vec<usize>]) -> Result<Queue, AllocError>
        ensures listed { IfOk result (λ queue. queue.listed.items ≡ replicate (length rows.now) false) }
        ensures queued { IfOk result (λ queue. AreQueued (rows_of rows.now) queue (λ k. ⊥)) }
    {
        let mut queue = Queue {
            listed: vec![in alloc; false; rows.len()]?,
            ready: BTreeSet::new(alloc),
            waiting: no_waiters(alloc, rows.len())?,
        };
        for number in 0..rows.len() {
            queue.put(row_at(rows, number), number, 0)?;
        }
        Ok(queue)
    }

    /// Takes out the first package that is ready.
    pub(crate) fn first_ready(&mut self) -> Option<usize>
        ensures listed { self.new.listed ≡ self.old.listed }
        ensures waiting { self.new.waiting ≡ self.old.waiting }
        ensures some { IfSome result (λ number. self.old.ready.keys ≡ number ∷ self.new.ready.keys) }
        ensures least { IfSome result (λ number. (k : ℕ) → Contains self.new.ready.keys k → number < k) }
        ensures none { IfNone result (self.old.ready.keys ≡ []) }
    {
        self.ready.pop_first()
    }

    /// Puts a package into the order: those that waited for it are ready now, or wait for another.
    pub(crate) fn list(
        &mut self,
        alloc: Global,
        rows: &[Vec<usize>],
        number: usize,
    ) -> Result<(), AllocError>
        requires queued { AreQueued (rows_of rows.now) self.old (λ k. k ≡ number) }
        requires left { IsLeft self.old.listed.items number }
        requires ready { IsReady (rows_of rows.now) self.old.listed.items number }
        requires taken { ¬ (Contains self.old.ready.keys number) }
        ensures listed { OnOk result (self.new.listed.items ≡ slice_set self.old.listed.items number true) }
        ensures queued { OnOk result (AreQueued (rows_of rows.now) self.new (λ k. ⊥)) }
    {
        self.listed[number] = true;
        let waiters = mem::replace(&mut self.waiting[number], Vec::new(alloc));
        for i in 0..waiters.len() {
            let Waiter { importer, place } = waiter_at(&waiters, i);
            self.put(row_at(rows, importer), importer, place)?;
        }
        Ok(())
    }

    /// A package joins those that are ready, or those that wait for the first of its imports that is
    /// left, from a place of its row on.
    fn put(&mut self, row: &[usize], number: usize, from: usize) -> Result<(), AllocError>
        requires { length self.old.waiting.items ≡ length self.old.listed.items }
        ensures { OnOk result (IsPut self.old row.now number from self.new) }
    {
        match missing_from(row, &self.listed, from) {
            Some(place) => add_waiter(
                &mut self.waiting,
                row[place],
                Waiter {
                    importer: number,
                    place,
                },
            )?,
            None => {
                self.ready.insert(number)?;
            }
        }
        Ok(())
    }
}

/// The first place of a row, from one on, whose package is left.
fn missing_from(row: &[usize], listed: &[bool], from: usize) -> Option<usize>
    ensures { IsMissing listed.now row.now from result }
{
    for place in from..row.len() {
        if is_left(listed, row[place]) {
            return Some(place);
        }
    }
    None
}

fn is_left(listed: &[bool], number: usize) -> bool
    ensures { IsTrue result ↔ IsLeft listed.now number }
{
    match listed.get(number) {
        Some(is_listed) => !*is_listed,
        None => false,
    }
}

/// The row at a number.
pub(crate) fn row_at(rows: &[Vec<usize>], number: usize) -> &[usize]
    requires { number < length rows.now }
    ensures { slice_get (rows_of rows.now) number ≡ Some result.now }
{
    rows[number].as_slice()
}

fn waiter_at(waiters: &[Waiter], place: usize) -> Waiter
    requires { place < length waiters.now }
    ensures { slice_get waiters.now place ≡ Some result }
{
    waiters[place]
}

fn no_waiters(alloc: Global, count: usize) -> Result<Vec<Vec<Waiter>>, AllocError>
    ensures count { IfOk result (λ lists. length lists.items ≡ count) }
    ensures none { IfOk result (λ lists. (j : ℕ) (waiter : AWaiter) → ¬ (IsAt lists.items j waiter)) }
{
    let mut lists = Vec::new(alloc);
    for _ in 0..count {
        lists.push(Vec::new(alloc))?;
    }
    Ok(lists)
}

/// A package joins those that wait for another.
fn add_waiter(
    waiting: &mut Vec<Vec<Waiter>>,
    import: usize,
    waiter: Waiter,
) -> Result<(), AllocError>
    requires { import < length waiting.old.items }
    ensures count { OnOk result (length waiting.new.items ≡ length waiting.old.items) }
    ensures added { OnOk result ((j : ℕ) (w : AWaiter)
        → IsAt waiting.new.items j w ↔ (IsAt waiting.old.items j w ⊎ ((j ≡ import) × (w ≡ waiter)))) }
{
    waiting[import].push(waiter)?;
    Ok(())
}
