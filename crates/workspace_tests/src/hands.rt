//! Two workers of a shared board in one thread, and how many workers find something to do.
ghost use Rattle.std.specs.Prelude.{◌≡◌, IfOk, IfSome};
ghost use Rattle.std.specs.FinMap.{empty};
ghost use Rattle.ws_board.specs.Ends.{MayBeResult};

use go_parse::parse_source;
use go_text::edition::Edition;
use go_text::source::Source;
use std::alloc::{AllocError, Global};
use std::marker::Brand;
use std::sync::{Arc, Wait};
use std::test::Fail;
use std::thread::Threads;
use ws_action::Files;
use ws_board::{Board, Event, Job, Task, Work};
use ws_cache::{Cache, Entry};
use ws_pool::{Gate, Plain, build_jobs};
use ws_shared::{Blanks, Desk, SharedBoard, Worker};

/// The job of a directory with one file, which imports nothing.
fn job(alloc: Global, path: &str, text: &str) -> Result<Job, Fail> {
    let name = String::from_str(alloc, "x.go")?;
    let source = Source::new(alloc, name, String::from_str(alloc, text)?)?;
    let mut parsed = Vec::new(alloc);
    parsed.push(parse_source(alloc, source)?)?;
    let files = Arc::new(alloc, Files::new(alloc, parsed)?)?;
    let work = Work::new(Edition::One, String::from_str(alloc, path)?, files);
    Ok(Job::new(Some(work), Vec::new(alloc)))
}

/// The jobs of two directories.
fn jobs(alloc: Global) -> Result<Vec<Job>, Fail> {
    let mut jobs = Vec::new(alloc);
    for (path, text) in [("p", "package p\n"), ("q", "package q\n")] {
        jobs.push(job(alloc, path, text)?)?;
    }
    Ok(jobs)
}

/// The worker's next task, at its second asking where the first was refused memory. None: nothing is
/// left. An `Err` comes where it runs one, too.
fn takes<L: Desk, R: Wait>(
    rt: &R,
    board: &SharedBoard<L>,
    hand: &mut Worker<L>,
) -> Result<Option<Task>, AllocError>
    ensures { IfOk result (λ told. IfSome told (λ task. MayBeResult L.opening task.action)) }
{
    if hand.runs().is_some() {
        return Err(AllocError);
    }
    if let Ok(told) = board.take(rt, hand) {
        return Ok(told);
    }
    if hand.runs().is_some() {
        return Err(AllocError);
    }
    board.take(rt, hand)
}

/// Whether the worker is told that nothing is left.
fn idles<L: Desk, R: Wait>(
    rt: &R,
    board: &SharedBoard<L>,
    hand: &mut Worker<L>,
) -> Result<bool, AllocError> {
    match takes(rt, board, hand)? {
        None => Ok(true),
        Some(task) => {
            board.back(rt, hand, task);
            Ok(false)
        }
    }
}

/// What compiling the task gives. None: memory ran out.
fn compiled(task: &Task) -> Option<Entry>
    ensures { IfSome result (λ entry. entry ≡ task.now.action) }
{
    let action = task.action().ok()?;
    Plain.compile(action).ok()
}

/// Whether the worker's finish is done, at the second time where the first was refused memory.
fn finishes<L: Desk, R: Wait>(
    rt: &R,
    board: &SharedBoard<L>,
    hand: &mut Worker<L>,
    task: Task,
    entry: Entry,
) -> bool
    requires fits { entry ≡ task.action }
    requires own { MayBeResult L.opening task.action }
{
    let Err((task, entry)) = board.finish(rt, hand, task, entry) else {
        return true;
    };
    let Err((task, _)) = board.finish(rt, hand, task, entry) else {
        return true;
    };
    board.back(rt, hand, task);
    false
}

/// Whether another worker's finish of the task gives it back, and that of its own is done.
fn finishes_behind<L: Desk, R: Wait>(
    rt: &R,
    board: &SharedBoard<L>,
    hand: &mut Worker<L>,
    other: &mut Worker<L>,
    task: Task,
) -> bool
    requires own { MayBeResult L.opening task.action }
{
    let Some(entry) = compiled(&task) else {
        board.back(rt, hand, task);
        return false;
    };
    match board.finish(rt, other, task, entry) {
        Ok(()) => false,
        Err((task, entry)) => finishes(rt, board, hand, task, entry),
    }
}

/// Whether two workers take a job each, and each finishes its own alone.
fn share<L: Desk, R: Wait>(
    rt: &R,
    board: &SharedBoard<L>,
    first: &mut Worker<L>,
    second: &mut Worker<L>,
) -> Result<bool, AllocError> {
    let Some(task) = takes(rt, board, first)? else {
        return Ok(false);
    };
    let Ok(Some(other)) = takes(rt, board, second) else {
        board.back(rt, first, task);
        return Ok(false);
    };
    let is_first = finishes_behind(rt, board, first, second, task);
    let is_second = finishes_behind(rt, board, second, first, other);
    Ok(is_first && is_second)
}

/// The board of those jobs, once two workers have done them and were told that nothing is left. None:
/// they weren't told so.
fn closed<L: Desk, R: Wait>(
    rt: &R,
    alloc: Global,
    jobs: Vec<Job>,
    blanks: Blanks,
) -> Result<Option<Board>, AllocError>
    requires blanks { (blanks ≡ L.names) × (L.names.hands ≡ 2) }
    requires opening { record { jobs = jobs.items; cache = empty } ≡ L.opening }
{
    let (board, mut hands) = SharedBoard::<L>::open(alloc, jobs, Cache::new(alloc), 2, blanks)?;
    let (Some(mut second), Some(mut first)) = (hands.pop(), hands.pop()) else {
        return Ok(None);
    };
    let is_shared = share(rt, &board, &mut first, &mut second)?;
    let is_idle = idles(rt, &board, &mut first)? && idles(rt, &board, &mut second)?;
    hands.push(first)?;
    hands.push(second)?;
    if !is_shared || !is_idle {
        return Ok(None);
    }
    Ok(Some(board.close(hands)))
}

/// What two workers did, in order.
pub(crate) fn hands_alone<R: Wait>(rt: &R, alloc: Global) -> Result<String, Fail> {
    let jobs = jobs(alloc)?;
    let blanks = Blanks::new(2);
    let Some(board) = closed::<Brand, R>(rt, alloc, jobs, blanks)? else {
        return Err(Fail::new("a hand isn't told what it should be"));
    };
    if !board.has_idled() {
        return Err(Fail::new("something is left to do"));
    }
    Ok(format!(in alloc; "{:?}", board.built().history())?)
}

/// How many workers were told that nothing is left.
fn idle_hands(history: &[Event]) -> usize {
    history
        .iter()
        .filter(|event| matches!(event, Event::Idle(_)))
        .count()
}

/// How many of four workers two jobs take, and how many jobs are compiled: over nothing, and over what
/// that added.
pub(crate) fn spare_hands<R: Threads + Wait + Sync>(rt: &R, alloc: Global) -> Result<String, Fail> {
    let first = build_jobs(rt, alloc, jobs(alloc)?, Cache::new(alloc), 4, &Plain)?;
    let (hands, compiled) = (idle_hands(first.history()), first.compiled());
    let again = build_jobs(rt, alloc, jobs(alloc)?, first.into_added(), 4, &Plain)?;
    let (spare, none) = (idle_hands(again.history()), again.compiled());
    Ok(format!(in alloc; "{hands} hands, {compiled} compiled; {spare}, {none}")?)
}
