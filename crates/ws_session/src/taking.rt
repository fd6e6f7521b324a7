//! What the replicas of a session take of one another: merges, and settles of all.
ghost use Rattle.std.specs.Prelude.{◌≡◌, ◌≢◌, ◌<◌, vec_len, replicate, Some, IfOk, IfSome, OnOk, None};
ghost use Rattle.std.specs.List.{All, flat_map};
ghost use Rattle.ws_replica.specs.Holdings.{ReplicaStandsFor};
ghost use Rattle.ws_command.specs.Commands.{Merge, Settle};
ghost use Rattle.ws_session.specs.Representation.{AllRepresent, AreCounted, SettlesCounted, ChangedAt, MergedFrom, TakesNews, HoldsAllOf, HoldsWritesOf, HoldsKnownWrites, replicas_of, labels_of};
ghost use Rattle.ws_session.specs.World.{World};

use crate::clock::WriteClock;
use crate::replicas::{SessionReplica, index_of};
use std::alloc::{AllocError, Global};
use std::mem;
use std::thread::Threads;
use ws_command::refusal::Refusal;
use ws_path::FilePath;
use ws_replica::Replica;
use ws_replica::join::settle;
use ws_version::Join;
use ws_version_vector::{News, Vectors, VersionVector};

/// A replica takes what is news of what another holds, of its writes those at some paths where
/// these are known.
fn take_news(
    one: &mut Replica,
    other: &Replica,
    writes: News,
    paths: Option<Vec<FilePath>>,
    results: News,
) -> Result<(), AllocError>
    ensures { OnOk result (TakesNews writes paths results one.old other.now one.new) }
{
    match paths {
        None => one.merge_news(other, writes, results),
        Some(paths) => one.merge_at(other, paths.as_slice(), results),
    }
}

/// The replica at an index takes what is news of what the replica at another holds.
fn merge_at(
    alloc: Global,
    named: &mut Vec<SessionReplica>,
    mine: usize,
    theirs: usize,
    writes: News,
    paths: Option<Vec<FilePath>>,
    results: News,
) -> Result<(), AllocError>
    requires mine { mine < vec_len named.old }
    requires theirs { theirs < vec_len named.old }
    requires others { mine ≢ theirs }
    ensures { OnOk result (ChangedAt (MergedFrom writes paths results named.old.items theirs) named.old.items mine named.new.items) }
{
    let mut one = mem::replace(&mut named[mine].replica, Replica::new(alloc));
    let merged = take_news(&mut one, &named[theirs].replica, writes, paths, results);
    named[mine].replica = one;
    merged
}

/// The replica of one name takes what that of the other holds.
pub(crate) fn merge(
    alloc: Global,
    named: &mut Vec<SessionReplica>,
    wrote: &WriteClock,
    compiled: &Vectors,
    name: &[u8],
    other: &[u8],
) -> Result<Option<Refusal>, AllocError>
    ensures { IfOk result (λ refusal. SettlesCounted (Merge name.now other.now) wrote.now compiled.now named.old refusal named.new) }
{
    let Some(mine) = index_of(named.as_slice(), name) else {
        return Ok(Some(Refusal::Unknown));
    };
    let Some(theirs) = index_of(named.as_slice(), other) else {
        return Ok(Some(Refusal::Unknown));
    };
    if mine == theirs {
        return Ok(None);
    }
    let writes = wrote.counts.news_of(mine, theirs);
    let results = compiled.news_of(mine, theirs);
    let paths = wrote.paths_of(alloc, mine, theirs, writes)?;
    merge_at(alloc, named, mine, theirs, writes, paths, results)?;
    Ok(None)
}

/// The names and numbers of replicas, and the replicas, each in its order.
pub(crate) fn parted(
    alloc: Global,
    named: Vec<SessionReplica>,
) -> Result<(Vec<(Vec<u8>, u32)>, Vec<Replica>), AllocError>
    ensures labels { IfOk result (λ parts. parts.0.items ≡ labels_of named.items) }
    ensures replicas { IfOk result (λ parts. parts.1.items ≡ replicas_of named.items) }
{
    let mut labels = Vec::new(alloc);
    let mut replicas = Vec::new(alloc);
    for one in named {
        let SessionReplica {
            name,
            number,
            replica,
        } = one;
        labels.push((name, number))?;
        replicas.push(replica)?;
    }
    Ok((labels, replicas))
}

/// Replicas with their names and numbers again.
pub(crate) fn rejoined(
    alloc: Global,
    labels: Vec<(Vec<u8>, u32)>,
    replicas: Vec<Replica>,
) -> Result<Vec<SessionReplica>, AllocError>
    requires { vec_len labels ≡ vec_len replicas }
    ensures labels { IfOk result (λ named. labels_of named.items ≡ labels.items) }
    ensures replicas { IfOk result (λ named. replicas_of named.items ≡ replicas.items) }
{
    let mut named = Vec::new(alloc);
    let mut labels = labels.into_iter();
    for replica in replicas {
        let Some((name, number)) = labels.next() else {
            unreachable!();
        };
        named.push(SessionReplica {
            name,
            number,
            replica,
        })?;
    }
    Ok(named)
}

/// What the replicas at some indices hold together.
fn joined_of<R: Threads + Sync>(
    rt: &R,
    alloc: Global,
    named: &Vec<SessionReplica>,
    tops: &[usize],
) -> Result<Replica, AllocError>
    requires { All (λ t. t < vec_len named.now) tops.now }
    ensures { IfOk result (HoldsAllOf named.now tops.now) }
{
    let mut members = Vec::new(alloc);
    for top in tops {
        let member = named[*top].replica.copy()?;
        members.push(member)?;
    }
    settle(rt, alloc, members.as_mut_slice())?;
    match members.pop() {
        Some(joined) => Ok(joined),
        None => Ok(Replica::new(alloc)),
    }
}

/// As many copies of a replica as asked for, which share what it holds.
fn copies_of(alloc: Global, replica: &Replica, count: usize) -> Result<Vec<Replica>, AllocError>
    ensures { IfOk result (λ copies. copies.items ≡ replicate count replica.now) }
{
    let mut copies = Vec::with_capacity(alloc, count)?;
    for _ in 0..count {
        let copy = replica.copy()?;
        copies.push(copy)?;
    }
    Ok(copies)
}

/// What one replica holds, with what some others wrote, where the paths of it are known, and few. It
/// has all that the replica at `first` wrote, and every result of the others.
fn with_writes(
    alloc: Global,
    named: &Vec<SessionReplica>,
    wrote: &WriteClock,
    results: &Replica,
    first: usize,
    writers: &[usize],
) -> Result<Option<Replica>, AllocError>
    requires { All (λ t. t < vec_len named.now) writers.now }
    ensures { IfOk result (λ joined. IfSome joined (HoldsWritesOf named.now wrote.now results.now first writers.now)) }
{
    let mut joined = results.copy()?;
    let mut taken = VersionVector::new(alloc);
    taken.merge(wrote.counts.at(first))?;
    for writer in writers {
        let theirs = wrote.counts.at(*writer);
        let Some(paths) = wrote.paths_between(alloc, taken.counts(), theirs)? else {
            return Ok(None);
        };
        joined.merge_at(&named[*writer].replica, paths.as_slice(), News::Nothing)?;
        taken.merge(theirs)?;
    }
    Ok(Some(joined))
}

/// The same, where some replica has results.
fn with_known_writes(
    alloc: Global,
    named: &Vec<SessionReplica>,
    wrote: &WriteClock,
    results: &Replica,
    builders: &[usize],
    writers: &[usize],
) -> Result<Option<Replica>, AllocError>
    requires { All (λ t. t < vec_len named.now) writers.now }
    ensures { IfOk result (λ joined. IfSome joined (HoldsKnownWrites named.now wrote.now results.now builders.now writers.now)) }
{
    match builders.first() {
        None => Ok(None),
        Some(first) => with_writes(alloc, named, wrote, results, *first, writers),
    }
}

/// What all replicas hold together. Only those are joined of which none has all that another has,
/// and of their writes only the news are looked up, where these are known, and few.
fn together<R: Threads + Sync>(
    rt: &R,
    alloc: Global,
    named: &Vec<SessionReplica>,
    wrote: &WriteClock,
    compiled: &Vectors,
) -> Result<Replica, AllocError>
    ensures { IfOk result (λ joined. (world : World) → AllRepresent named.now.items world.replicas → AreCounted wrote.now compiled.now world
        → ReplicaStandsFor joined (flat_map (λ r. r.writes) world.replicas) (flat_map (λ r. r.actions) world.replicas)) }
{
    let count = named.len();
    let writers = wrote.counts.maximal(count)?;
    let builders = compiled.maximal(count)?;
    let results = joined_of(rt, alloc, named, &builders)?;
    if let Some(joined) = with_known_writes(alloc, named, wrote, &results, &builders, &writers)? {
        return Ok(joined);
    }
    let mut both = joined_of(rt, alloc, named, &writers)?;
    both.merge_news(&results, News::Nothing, News::Everything)?;
    Ok(both)
}

/// Every replica takes what all hold: each shares what they have together.
pub(crate) fn settle_all<R: Threads + Sync>(
    rt: &R,
    alloc: Global,
    named: &mut Vec<SessionReplica>,
    wrote: &WriteClock,
    compiled: &Vectors,
) -> Result<(), AllocError>
    ensures { OnOk result (SettlesCounted Settle wrote.now compiled.now named.old None named.new) }
{
    let joined = together(rt, alloc, named, wrote, compiled)?;
    let (labels, replicas) = parted(alloc, mem::replace(named, Vec::new(alloc)))?;
    let copies = copies_of(alloc, &joined, replicas.len())?;
    *named = rejoined(alloc, labels, copies)?;
    Ok(())
}
