//! Sessions whose builds are made by workers at gates.
ghost use Rattle.std.specs.Prelude.{◌≤◌, IfOk};

use crate::gates::{Counting, Drawing, First, Watch};
use crate::scripts::printed;
use crate::turns::Turns;
use goset_cli::running::SessionError;
use std::alloc::Global;
use std::str::from_utf8;
use std::sync::Wait;
use std::sync::atomic::{AtomicBool, AtomicU64};
use std::test::Fail;
use std::thread::Threads;
use ws_pool::Plain;

/// How many jobs a script has at most: two replicas reach eleven directories each.
const MOST_JOBS: usize = 22;

/// What a session printed, or why it ended, in words.
fn told(alloc: Global, ended: Result<Vec<u8>, SessionError>) -> Result<String, Fail> {
    match ended {
        Ok(printed) => Ok(String::from_str(alloc, from_utf8(printed.as_slice())?)?),
        Err(error) => Ok(format!(in alloc; "{error}\n")?),
    }
}

/// What a script prints whose builds two workers make who pass points in the order of the words.
pub(crate) fn in_turn<R: Threads + Wait + Sync>(
    rt: &R,
    alloc: Global,
    script: &str,
    words: &str,
) -> Result<String, Fail> {
    let gate = Turns::new(alloc, words)?;
    let mut told = told(alloc, printed(rt, alloc, script, 2, &gate))?;
    told.push_str(gate.watch.told(alloc)?.as_str())?;
    Ok(told)
}

/// How many workers a row asks for.
fn workers_of(word: &str) -> Result<usize, Fail>
    ensures some { IfOk result (λ n. 1 ≤ n) }
    ensures few { IfOk result (λ n. n ≤ 64) }
{
    let workers = word.parse::<usize>()?;
    if workers < 1 || workers > 64 {
        return Err(Fail::new("no number of workers"));
    }
    Ok(workers)
}

/// What a script prints whose builds so many workers make at a gate that counts, with the first
/// compile as the kind says.
pub(crate) fn by_gate<R: Threads + Wait + Sync>(
    rt: &R,
    alloc: Global,
    script: &str,
    kind: &str,
    count: &str,
) -> Result<String, Fail> {
    let first = match kind {
        "holding" => First::IsHeld,
        "refusing" => First::IsRefused,
        _ => First::Passes,
    };
    let gate = Counting {
        watch: Watch::new(alloc, MOST_JOBS)?,
        first,
        is_begun: AtomicBool::new(false),
    };
    let workers = workers_of(count)?;
    let mut told = told(alloc, printed(rt, alloc, script, workers, &gate))?;
    told.push_str(gate.watch.told(alloc)?.as_str())?;
    Ok(told)
}

/// Whether so many workers, whom the gate sends back at points that hang on the seed, print the same as one whom
/// nobody sends back.
fn is_same<R: Threads + Wait + Sync>(
    rt: &R,
    alloc: Global,
    script: &str,
    wanted: &[u8],
    workers: usize,
    seed: u64,
) -> Result<bool, Fail>
    requires some { 1 ≤ workers }
    requires few { workers ≤ 64 }
{
    let gate = Drawing {
        watch: Watch::new(alloc, MOST_JOBS)?,
        seed: AtomicU64::new(seed),
    };
    let got = printed(rt, alloc, script, workers, &gate)?;
    Ok(got.as_slice() == wanted && gate.watch.is_right())
}

/// How many of so many seeds give what one worker prints, by 1, 2, 3 and 64 workers.
pub(crate) fn drawn<R: Threads + Wait + Sync>(
    rt: &R,
    alloc: Global,
    script: &str,
    seeds: u64,
) -> Result<String, Fail> {
    let wanted = printed(rt, alloc, script, 1, &Plain)?;
    let wanted = wanted.as_slice();
    let mut same: u64 = 0;
    for seed in 0..seeds {
        let is_same = is_same(rt, alloc, script, wanted, 1, seed)?
            && is_same(rt, alloc, script, wanted, 2, seed)?
            && is_same(rt, alloc, script, wanted, 3, seed)?
            && is_same(rt, alloc, script, wanted, 64, seed)?;
        same = same.saturating_add(u64::from(is_same));
    }
    Ok(format!(in alloc; "{same} the same")?)
}
