//! Workers in threads, who take a board's jobs from behind its lock.
ghost use Rattle.std.specs.Prelude.{◌≡◌, ◌<◌, ◌≤◌, All, List, [], None, IfOk, IfSome, max, min, vec_len};
ghost use Rattle.std.specs.Bool.{OnTrue};
ghost use Rattle.ws_action.specs.Actions.{Action as AnAction};
ghost use Rattle.ws_shared.specs.Ends.{AreFinished, MayBeResult, HasResults};

use crate::{Gate, Point, Step};
use std::alloc::{AllocError, Global};
use std::marker::Brand;
use std::sync::Wait;
use std::thread;
use std::thread::{Builder, Threads};
use ws_shared::{Blanks, Built, Cache, Desk, Entry, Job, SharedBoard, Task, Worker};

/// How many bytes of stack a worker's thread has, whatever the system's limits are.
const STACK: usize = 16 << 20;

// What the gate compiles the task to. None: memory ran out.
fn compiled<G: Gate>(gate: &G, task: &Task) -> Option<Entry>
    ensures { IfSome result (λ entry. entry ≡ task.now.action) }
{
    let action = task.action().ok()?;
    gate.compile(action).ok()
}

// Takes one task to its end, or gives it back where the gate says so. False: memory ran out, and
// the worker ends.
fn run<L: Desk, G: Gate, R: Wait>(
    rt: &R,
    board: &SharedBoard<L>,
    hand: &mut Worker<L>,
    gate: &G,
    task: Task,
) -> bool
    requires { MayBeResult L.opening task.action }
    ensures { OnTrue result (hand.new.runs ≡ None) }
{
    let job = task.job();
    let may_stop = !task.was_back();
    if gate.at(Point::Taken, job) == Step::Back && may_stop {
        return board.back(rt, hand, task);
    }
    // No lock is held.
    let Some(entry) = compiled(gate, &task) else {
        board.back(rt, hand, task);
        return false;
    };
    if gate.at(Point::Compiled, job) == Step::Back && may_stop {
        return board.back(rt, hand, task);
    }
    if let Err((task, _)) = board.finish(rt, hand, task, entry) {
        board.back(rt, hand, task);
        return false;
    }
    gate.at(Point::Finished, job);
    true
}

// Runs jobs until none is left, or memory runs out.
fn work<L: Desk, G: Gate, R: Wait>(rt: &R, board: &SharedBoard<L>, hand: &mut Worker<L>, gate: &G)
    requires { hand.old.runs ≡ None }
{
    for _ in rt.forever() {
        let Ok(Some(task)) = board.take(rt, hand) else {
            return;
        };
        if !run(rt, board, hand, gate, task) {
            return;
        }
    }
    unreachable!()
}

// All workers at once: the first on the calling thread, each other one in a thread of its own where
// one can be had. A worker whose thread can't be made takes no job; the others take them all. Answers
// how many workers took jobs.
fn work_all<L: Desk + Send + Sync, G: Gate, R: Threads + Wait + Sync>(
    rt: &R,
    board: &SharedBoard<L>,
    hands: &mut [Worker<L>],
    gate: &G,
) -> usize
    requires rest { All (λ hand. hand.runs ≡ None) hands.old }
{
    thread::scope(
        thread::scope_env(),
        rt,
        |scope|
            requires { All (λ hand. hand.runs ≡ None) hands.now }
        {
            let Some((first, others)) = hands.split_first_mut() else {
                return 0;
            };
            let mut working = 1usize;
            for hand in others.iter_mut() {
                let thread = Builder::new().stack_size(STACK).spawn_scoped(
                    scope,
                    move ||
                        requires { hand.now.runs ≡ None }
                    { work(rt, board, hand, gate) },
                );
                if thread.is_ok() {
                    working = working.saturating_add(1);
                }
            }
            work(rt, board, first, gate);
            working
        },
    )
}

// So many of the workers at once. The others make nothing. Answers how many took jobs.
fn work_by<L: Desk + Send + Sync, G: Gate, R: Threads + Wait + Sync>(
    rt: &R,
    board: &SharedBoard<L>,
    hands: &mut Vec<Worker<L>>,
    count: usize,
    gate: &G,
) -> usize
    requires rest { All (λ hand. hand.runs ≡ None) hands.old.items }
    requires some { 0 < count }
    requires within { count ≤ vec_len hands.old }
    ensures { vec_len hands.new ≡ vec_len hands.old }
{
    let (first, _) = hands.as_mut_slice().split_at_mut(count);
    work_all(rt, board, first, gate)
}

// No more workers than there are jobs, and one at least.
fn needed(workers: u64, jobs: usize) -> u64
    ensures { result ≡ min workers (max jobs 1) }
{
    workers.min(jobs.max(1) as u64)
}

fn run_jobs<L: Desk + Send + Sync, G: Gate, R: Threads + Wait + Sync>(
    rt: &R,
    alloc: Global,
    jobs: Vec<Job>,
    cache: Cache,
    workers: u64,
    blanks: Blanks,
    gate: &G,
) -> Result<Built, AllocError>
    requires some { 0 < workers }
    requires blanks { (blanks ≡ L.names) × (workers ≡ L.names.hands) }
    requires opening { record { jobs = jobs.items; cache = cache } ≡ L.opening }
    ensures opening { IfOk result (λ built. built.opening ≡ record { jobs = jobs.items; cache = cache }) }
    ensures finished { IfOk result (λ built. (entries : List AnAction) × AreFinished built entries) }
    ensures ends { IfOk result (λ built. HasResults built []) }
{
    let (board, mut hands) = SharedBoard::<L>::open(alloc, jobs, cache, workers, blanks)?;
    // A worker more than there are jobs left would find nothing to do.
    let count = needed(workers, board.left(rt));
    let working = work_by(rt, &board, &mut hands, count as usize, gate);
    let board = board.close(hands);
    // Who ended for want of memory was never told that nothing is left.
    if !board.has_idled() || board.idles() < working {
        return Err(AllocError);
    }
    Ok(board.built())
}

/// Runs all jobs over the cache by that many workers, or by one a job where there are fewer jobs:
/// the first on the calling thread, the others in threads of their own, no more than there are jobs
/// that the cache leaves open, where they can be had. Each job comes to its end, whatever the
/// workers, the gate and the order of events. Nothing is compiled under the lock. An `Err` where a
/// worker was refused memory.
pub fn build_jobs<G: Gate, R: Threads + Wait + Sync>(
    rt: &R,
    alloc: Global,
    jobs: Vec<Job>,
    cache: Cache,
    workers: u64,
    gate: &G,
) -> Result<Built, AllocError>
    requires { 0 < workers }
    ensures opening { IfOk result (λ built. built.opening ≡ record { jobs = jobs.items; cache = cache }) }
    ensures finished { IfOk result (λ built. (entries : List AnAction) × AreFinished built entries) }
    ensures ends { IfOk result (λ built. HasResults built []) }
{
    let workers = needed(workers, jobs.len());
    let blanks = Blanks::new(workers);
    run_jobs::<Brand, G, R>(rt, alloc, jobs, cache, workers, blanks, gate)
}
