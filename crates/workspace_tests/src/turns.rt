//! A gate whose points pass in a written order.
use crate::gates::Watch;
use std::alloc::Global;
use std::sync::atomic::{AtomicU64, Ordering};
use std::test::Fail;
use ws_pool::{Gate, Point, Step};

/// A point of a job, or of any where none is named, and what its worker is told there.
#[derive(Clone, Copy)]
struct Turn {
    point: Point,
    job: Option<usize>,
    step: Step,
}

/// Lets the points of its list pass in the list's order alone, and all others at once.
#[derive(Drop)]
pub(crate) struct Turns {
    pub(crate) watch: Watch,
    list: Vec<Turn>,
    next: AtomicU64,
}

/// A job's number, or a star for any job, the first letter of a point, and a mark where the worker
/// is sent back.
fn turn_of(word: &str) -> Option<Turn> {
    let mut letters = word.chars();
    let job = match letters.next()? {
        '*' => None,
        digit => Some(digit.to_digit(10)? as usize),
    };
    let point = match letters.next()? {
        'T' => Point::Taken,
        'C' => Point::Compiled,
        'F' => Point::Finished,
        _ => return None,
    };
    let step = match letters.next() {
        None => Step::Go,
        Some(_) => Step::Back,
    };
    Some(Turn { point, job, step })
}

impl Turns {
    /// The list that the words are, of two jobs.
    pub(crate) fn new(alloc: Global, words: &str) -> Result<Turns, Fail> {
        let mut list = Vec::new(alloc);
        for word in words.split_ascii_whitespace() {
            list.push(turn_of(word).ok_or("no turn")?)?;
        }
        Ok(Turns {
            watch: Watch::new(alloc, 2)?,
            list,
            next: AtomicU64::new(0),
        })
    }

    /// The place of the point in what is left of the list, and what is told there.
    fn place(&self, point: Point, job: usize) -> Option<(u64, Step)> {
        let next = self.next.load(Ordering::SeqCst);
        for (place, turn) in self.list.iter().enumerate() {
            let place = place as u64;
            let is_its = turn.job.is_none_or(|its| its == job);
            if place >= next && turn.point == point && is_its {
                return Some((place, turn.step));
            }
        }
        None
    }
}

impl Gate for Turns {
    fn at(&self, point: Point, job: usize) -> Step {
        let Some((place, step)) = self.place(point, job) else {
            return self.watch.pass(point, job, Step::Go);
        };
        self.watch.wait(&self.next, place);
        self.next.fetch_add(1, Ordering::SeqCst);
        self.watch.pass(point, job, step)
    }
}
