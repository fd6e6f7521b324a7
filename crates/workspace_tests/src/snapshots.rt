//! Builds by snapshots of a replica that is edited.
use go_text::edition::Edition;
use go_text::source::Source;
use std::alloc::Global;
use std::sync::Wait;
use std::sync::atomic::{AtomicBool, Ordering};
use std::test::Fail;
use std::thread;
use std::thread::{Threads, join};
use ws_cache::Cache;
use ws_replica::{
    BuildError, Gate, Plain, Point, Replica, Snapshot, Step, Target, build, build_from,
};
use ws_report::Report;

/// How long one thread waits for the other at most, in turns.
const MOST_TURNS: u64 = 1_000_000;

/// The directory that is built.
const TARGETS: [Target<'static>; 1] = [Target {
    replica: 0,
    directory: "p",
}];

/// Holds a job that was compiled until the replica is edited.
#[derive(Drop)]
struct Held {
    compiled: AtomicBool,
    edited: AtomicBool,
    late: AtomicBool,
}

impl Held {
    /// Waits until the other thread has set the flag, but not forever.
    fn wait(&self, flag: &AtomicBool) {
        for _ in 0..MOST_TURNS {
            if flag.load(Ordering::SeqCst) {
                return;
            }
            thread::yield_now();
        }
        self.late.store(true, Ordering::SeqCst);
    }
}

impl Gate for Held {
    fn at(&self, point: Point, _job: usize) -> Step {
        if point == Point::Compiled {
            self.compiled.store(true, Ordering::SeqCst);
            self.wait(&self.edited);
        }
        Step::Go
    }
}

/// How many directories of a build are good, and how many actions it compiled.
fn counts(reports: &[Report]) -> Option<(usize, u64)> {
    let report = reports.first()?;
    let good = report
        .directories
        .iter()
        .filter(|row| row.1.is_good())
        .count();
    Some((good, report.compiled))
}

/// The counts of a build by the snapshot.
fn built<R: Threads + Wait + Sync>(
    rt: &R,
    alloc: Global,
    snapshots: &[Snapshot; 1],
    gate: &Held,
) -> Option<(usize, u64)> {
    match build_from(rt, alloc, snapshots, &TARGETS, Edition::One, 2, gate) {
        Ok((reports, _)) => counts(reports.as_slice()),
        Err(BuildError::NoPackage | BuildError::Memory) => None,
    }
}

/// The replica, as number 1, writes a text to p/x.go. None: memory was refused.
fn write(alloc: Global, replica: &mut Replica, text: &str) -> Option<()> {
    let name = String::from_str(alloc, "x.go").ok()?;
    let source = Source::new(alloc, name, String::from_str(alloc, text).ok()?).ok()?;
    let path = String::from_str(alloc, "p/x.go").ok()?;
    replica.edit(path, source, 1).ok()
}

/// The same, at the second time where the first was refused memory.
fn write_again(alloc: Global, replica: &mut Replica, text: &str) -> Result<(), Fail> {
    if write(alloc, replica, text).is_none() {
        write(alloc, replica, text).ok_or("no edit")?;
    }
    Ok(())
}

/// Edits the replica while a job is held, and then lets it go on. Whether that was done.
fn edit(alloc: Global, replica: &mut Replica, gate: &Held) -> bool {
    gate.wait(&gate.compiled);
    let is_edited = write(alloc, replica, "package").is_some();
    gate.edited.store(true, Ordering::SeqCst);
    is_edited
}

/// The counts of a build by the snapshot, and whether the replica was edited beside it.
fn builds_beside_edit<R: Threads + Wait + Sync>(
    rt: &R,
    alloc: Global,
    snapshots: &[Snapshot; 1],
    replica: &mut Replica,
    gate: &Held,
) -> (Option<(usize, u64)>, bool) {
    join(
        rt,
        || built(rt, alloc, snapshots, gate),
        || edit(alloc, replica, gate),
    )
}

/// A build by a snapshot, whose replica is edited while it runs, and what the replica then holds.
pub(crate) fn built_beside_edit<R: Threads + Wait + Sync>(
    rt: &R,
    alloc: Global,
) -> Result<String, Fail> {
    let mut replica = Replica::new(alloc);
    write_again(alloc, &mut replica, "package p\n")?;
    let snapshots = [replica.snapshot()?];
    let gate = Held {
        compiled: AtomicBool::new(false),
        edited: AtomicBool::new(false),
        late: AtomicBool::new(false),
    };
    let (built, edited) = builds_beside_edit(rt, alloc, &snapshots, &mut replica, &gate);
    let late = gate.late.load(Ordering::SeqCst);
    let counter = replica.greatest_counter();
    Ok(format!(in alloc; "built {built:?}, edited {edited}, late {late}, counter {counter}")?)
}

/// The reports and the results of a build by the snapshot, at the second time where the first was
/// refused memory.
fn built_from_again<R: Threads + Wait + Sync>(
    rt: &R,
    alloc: Global,
    snapshots: &[Snapshot; 1],
) -> Result<(Vec<Report>, Cache), BuildError> {
    match build_from(rt, alloc, snapshots, &TARGETS, Edition::One, 2, &Plain) {
        Err(BuildError::Memory) => {
            build_from(rt, alloc, snapshots, &TARGETS, Edition::One, 2, &Plain)
        }
        built => built,
    }
}

/// The counts of a build by the replica, at the second time where the first was refused memory.
fn built_again<R: Threads + Wait + Sync>(
    rt: &R,
    alloc: Global,
    replicas: &mut [Replica; 1],
) -> Result<Option<(usize, u64)>, BuildError> {
    let reports = match build(rt, alloc, replicas, &TARGETS, Edition::One, 2, &Plain) {
        Err(BuildError::Memory) => build(rt, alloc, replicas, &TARGETS, Edition::One, 2, &Plain)?,
        built => built?,
    };
    Ok(counts(reports.as_slice()))
}

/// Builds a text by a snapshot, then another by its replica, which took the results, and the first
/// by the replica. Each call that is refused memory is made again.
pub(crate) fn results_taken<R: Threads + Wait + Sync>(
    rt: &R,
    alloc: Global,
    text: &str,
) -> Result<String, Fail> {
    let mut replicas = [Replica::new(alloc)];
    write_again(alloc, &mut replicas[0], text)?;
    let snapshots = [replicas[0].snapshot()?];
    write_again(alloc, &mut replicas[0], "package p\n")?;
    let (reports, results) = built_from_again(rt, alloc, &snapshots)?;
    let first = counts(reports.as_slice());
    if replicas[0].take_results(&results).is_err() {
        replicas[0].take_results(&results)?;
    }
    let edited = built_again(rt, alloc, &mut replicas)?;
    write_again(alloc, &mut replicas[0], text)?;
    let back = built_again(rt, alloc, &mut replicas)?;
    let sources = replicas[0].sources()?.len();
    Ok(format!(in alloc;
        "by the snapshot {first:?}, edited {edited:?}, back {back:?}, {sources} source"
    )?)
}
