//! What replicas held at some time, and builds by it.
ghost use Rattle.std.specs.Prelude.{◌≡◌, ◌<◌, List, length, map, IfOk, Err, All};
ghost use Rattle.ws_replica.specs.Holdings.{Took, AllStandFor};
ghost use Rattle.ws_replica.specs.Builds.{target_of, AreBuiltFrom, LacksPackage, AllTookSized};

use crate::building::{Target, run};
use crate::parts::all_parts;
use crate::starts::{all_planned, numbers_of, opening_of};
use crate::{BuildError, Replica};
use go_text::edition::Edition;
use std::alloc::{AllocError, Global};
use std::marker::Model;
use std::sync::Wait;
use std::thread::Threads;
use ws_cache::Cache;
use ws_pool::Gate;
use ws_report::Report;
use ws_version::Join;

/// What a replica held at some time. It stays as it is while the replica goes on.
#[derive(Drop)]
pub struct Snapshot {
    held: Replica,
}

impl Model for Snapshot {
    ghost use Rattle.ws_replica.specs.Holdings as holdings;

    ghost Value = { holdings.Replica };

    ghost coded = { holdings.replica_code };

    ghost view = { λ a. a.held };
}

impl Snapshot {
    pub(crate) fn new(held: Replica) -> Snapshot
        ensures { result ≡ held }
    {
        Snapshot { held }
    }

    fn replica(&self) -> Result<Replica, AllocError>
        ensures { IfOk result (λ replica. replica ≡ self.now) }
    {
        let replica = self.held.copy()?;
        Ok(replica)
    }
}

/// A replica for each snapshot, which shares what it held.
fn replicas_of(alloc: Global, snapshots: &[Snapshot]) -> Result<Vec<Replica>, AllocError>
    ensures { IfOk result (λ replicas. replicas.items ≡ snapshots.now) }
{
    let mut replicas = Vec::new(alloc);
    for snapshot in snapshots {
        let replica = snapshot.replica()?;
        replicas.push(replica)?;
    }
    Ok(replicas)
}

/// Builds targets by what replicas held, as `build` does: a target's number is that of its
/// snapshot. The reports depend on the snapshots' sources alone. The cache that comes with them
/// has what the snapshots that are named held, and what was compiled; a replica takes it by
/// `take_results`.
///
/// `NoPackage` comes where a target's directory has no files that belong to a build, and `Memory`
/// where an allocation was refused, a worker's too.
pub fn build_from<R: Threads + Wait + Sync, G: Gate>(
    rt: &R,
    alloc: Global,
    snapshots: &[Snapshot],
    targets: &[Target<'_>],
    edition: Edition,
    workers: u64,
    gate: &G,
) -> Result<(Vec<Report>, Cache), BuildError>
    requires within { All (λ t. t.replica < length snapshots.now) targets.now }
    requires some { 0 < workers }
    ensures ok { IfOk result (λ built. (took : List Took) → AllStandFor snapshots.now took → AllTookSized took
        → AreBuiltFrom edition took (map target_of targets.now) built.0.items built.1) }
    ensures none { result ≡ Err BuildError.NoPackage → (took : List Took) → AllStandFor snapshots.now took
        → LacksPackage edition took (map target_of targets.now) }
{
    let mut replicas = replicas_of(alloc, snapshots)?;
    let numbers = numbers_of(alloc, targets)?;
    let opening = opening_of(alloc, &replicas, &numbers)?;
    let mut cache = opening.copy()?;
    let all = all_planned(rt, alloc, replicas.as_mut_slice(), targets, edition)?;
    let parts = all_parts(alloc, all.as_slice(), targets)?;
    let mut acted = Vec::new(alloc);
    let (reports, added) = run(
        rt,
        alloc,
        all,
        parts.as_slice(),
        opening,
        workers,
        gate,
        &mut acted,
    )?;
    cache.merge(&added)?;
    Ok((reports, cache))
}
