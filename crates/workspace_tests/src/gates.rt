//! Gates that count what passes them, hold a worker up, refuse it memory, or send it back.

use std::alloc::{AllocError, Global};
use std::sync::atomic::{AtomicBool, AtomicU64, Ordering};
use std::thread;
use ws_action::Action;
use ws_cache::Entry;
use ws_pool::{Gate, Plain, Point, Step};

/// How long a worker is held up at most, in turns.
const MOST_TURNS: u64 = 1_000_000;

/// How often points were passed, what each job passed last, and whether a worker was held up for too long.
#[derive(Drop)]
pub(crate) struct Watch {
    lasts: Vec<AtomicU64>,
    taken: AtomicU64,
    compiled: AtomicU64,
    finished: AtomicU64,
    is_unordered: AtomicBool,
    is_late: AtomicBool,
}

/// The point as a number, an even one where the worker was sent back there. Nothing was passed: 0.
fn mark(point: Point, step: Step) -> u64 {
    match (point, step) {
        (Point::Taken, Step::Go) => 1,
        (Point::Taken, Step::Back) => 2,
        (Point::Compiled, Step::Go) => 3,
        (Point::Compiled, Step::Back) => 4,
        (Point::Finished, _) => 5,
    }
}

/// Whether a job may come to the point after that mark: a worker whose job was given back before
/// goes on though it is sent back.
fn may_follow(last: u64, point: Point) -> bool {
    match point {
        Point::Taken => last == 0 || last == 2 || last == 4,
        Point::Compiled => last == 1 || last == 2,
        Point::Finished => last == 3 || last == 4,
    }
}

impl Watch {
    /// Of that many jobs, which passed nothing yet.
    pub(crate) fn new(alloc: Global, jobs: usize) -> Result<Watch, AllocError> {
        let mut lasts = Vec::new(alloc);
        for _ in 0..jobs {
            lasts.push(AtomicU64::new(0))?;
        }
        Ok(Watch {
            lasts,
            taken: AtomicU64::new(0),
            compiled: AtomicU64::new(0),
            finished: AtomicU64::new(0),
            is_unordered: AtomicBool::new(false),
            is_late: AtomicBool::new(false),
        })
    }

    /// Notes that a job passes a point, and what its worker is told there.
    pub(crate) fn pass(&self, point: Point, job: usize, step: Step) -> Step {
        let is_next = self.lasts.get(job).is_some_and(|last| {
            may_follow(last.swap(mark(point, step), Ordering::SeqCst), point)
        });
        if !is_next {
            self.is_unordered.store(true, Ordering::SeqCst);
        }
        match point {
            Point::Taken => self.taken.fetch_add(1, Ordering::SeqCst),
            Point::Compiled => self.compiled.fetch_add(1, Ordering::SeqCst),
            Point::Finished => self.finished.fetch_add(1, Ordering::SeqCst),
        };
        step
    }

    /// Notes that a job was given back behind a point that nobody is sent back from.
    pub(crate) fn begin_again(&self, job: usize) {
        if let Some(last) = self.lasts.get(job) {
            last.store(0, Ordering::SeqCst);
        }
    }

    /// Waits until a number is so great, but not forever.
    pub(crate) fn wait(&self, number: &AtomicU64, least: u64) {
        for _ in 0..MOST_TURNS {
            if number.load(Ordering::SeqCst) >= least {
                return;
            }
            thread::yield_now();
        }
        self.is_late.store(true, Ordering::SeqCst);
    }

    /// Whether each job passed its points in order, and nobody was held up for too long.
    pub(crate) fn is_right(&self) -> bool {
        !self.is_unordered.load(Ordering::SeqCst) && !self.is_late.load(Ordering::SeqCst)
    }

    /// How often each point was passed, in words.
    pub(crate) fn told(&self, alloc: Global) -> Result<String, AllocError> {
        let taken = self.taken.load(Ordering::SeqCst);
        let compiled = self.compiled.load(Ordering::SeqCst);
        let finished = self.finished.load(Ordering::SeqCst);
        let word = if self.is_right() {
            "in order"
        } else {
            "late, or out of order"
        };
        format!(in alloc; "taken {taken} compiled {compiled} finished {finished} {word}")
    }
}

/// What a gate does with a compile: nothing, or it holds the first up until a job is finished, or it
/// refuses memory to the first of the package p, which is job 0.
#[derive(Clone, Copy, PartialEq)]
pub(crate) enum First {
    Passes,
    IsHeld,
    IsRefused,
}

/// Counts what passes, and does so with a compile. Where that was refused, each worker is sent back who
/// passes a point of its job afterwards: whoever sees that the job was given back goes on.
#[derive(Drop)]
pub(crate) struct Counting {
    pub(crate) watch: Watch,
    pub(crate) first: First,
    pub(crate) is_begun: AtomicBool,
}

impl Counting {
    /// Whether a compile is the first of its kind, of which there is one.
    fn begins(&self) -> bool {
        !self.is_begun.swap(true, Ordering::SeqCst)
    }
}

impl Gate for Counting {
    fn at(&self, point: Point, job: usize) -> Step {
        let is_refused = self.first == First::IsRefused && self.is_begun.load(Ordering::SeqCst);
        let step = if is_refused && job == 0 {
            Step::Back
        } else {
            Step::Go
        };
        self.watch.pass(point, job, step)
    }

    fn compile(&self, action: Action) -> Result<Entry, Action> {
        match self.first {
            First::IsHeld => {
                if self.begins() {
                    self.watch.wait(&self.watch.finished, 1);
                }
            }
            First::IsRefused => {
                if action.path() == "p" && self.begins() {
                    self.watch.begin_again(0);
                    return Err(action);
                }
            }
            First::Passes => {}
        }
        Plain.compile(action)
    }
}

/// Sends workers back at a third of the points that they pass: which ones hangs on its seed.
#[derive(Drop)]
pub(crate) struct Drawing {
    pub(crate) watch: Watch,
    pub(crate) seed: AtomicU64,
}

impl Gate for Drawing {
    fn at(&self, point: Point, job: usize) -> Step {
        let drawn = self.seed.fetch_add(0x9E37_79B9_7F4A_7C15, Ordering::SeqCst);
        let mixed = (drawn ^ (drawn >> 30)).wrapping_mul(0xBF58_476D_1CE4_E5B9);
        let step = if (mixed >> 40) % 3 == 0 {
            Step::Back
        } else {
            Step::Go
        };
        self.watch.pass(point, job, step)
    }
}
