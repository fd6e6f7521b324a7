//! What the replicas that targets name bring to a build, and what they take from it.
ghost use Rattle.std.specs.Prelude.{◌≡◌, ◌==◌, ◌<◌, ◌++◌, ◌∷◌, [], List, length, map, IfOk, OnOk, OnErr, Err, Some, All};
ghost use Rattle.std.specs.FinMap.{FinMap};
ghost use Rattle.std.specs.List.{slice_get, list_all};
ghost use Rattle.ws_action.specs.Actions.{Action as AnAction};
ghost use Rattle.ws_cache.specs.Held.{id_cmp};
ghost use Rattle.ws_graph.specs.Discovery.{string_texts};
ghost use Rattle.ws_replica.specs.Holdings.{Took, AllStandFor};
ghost use Rattle.ws_replica.specs.Jobs.{reached_of, all_reached_of};
ghost use Rattle.ws_replica.specs.Builds.{target_of, LacksPackage};
ghost use Rattle.ws_replica.specs.Targets.{directories_at, IsReachedAt, LacksFilesAt, AreReached, AllInOrder, IsOpening, HaveCache, TakesInto, TakeResults};

use crate::building::Target;
use crate::join::copies;
use crate::reached::Reached;
use crate::{BuildError, Replica};
use go_text::edition::Edition;
use std::alloc::{AllocError, Global};
use std::thread::Threads;
use ws_cache::Cache;
use ws_version::Join;

fn replica_at(replicas: &[Replica], number: usize) -> &Replica
    requires { number < length replicas.now }
    ensures { slice_get replicas.now number ≡ Some result.now }
{
    &replicas[number]
}

/// Adds a target's directory, if it is the replica's of that number.
fn add_directory(
    alloc: Global,
    target: &Target<'_>,
    number: usize,
    directories: &mut Vec<String>,
) -> Result<(), AllocError>
    ensures { OnOk result (string_texts directories.new.items ≡ string_texts directories.old.items ++ directories_at (target_of target.now ∷ []) number) }
{
    if target.replica != number {
        return Ok(());
    }
    directories.push(String::from_str(alloc, target.directory)?)?;
    Ok(())
}

/// The directories of those targets that are the replica's of that number.
fn directories_at(
    alloc: Global,
    targets: &[Target<'_>],
    number: usize,
) -> Result<Vec<String>, AllocError>
    ensures { IfOk result (λ directories. string_texts directories.items ≡ directories_at (map target_of targets.now) number) }
{
    let mut directories = Vec::new(alloc);
    for target in targets {
        add_directory(alloc, target, number, &mut directories)?;
    }
    Ok(directories)
}

/// What is reached of some directories, by the replica of that number, which keeps their plan.
fn reach_at(
    rt: &(impl Threads + Sync),
    alloc: Global,
    replicas: &mut [Replica],
    number: usize,
    directories: Vec<String>,
    edition: Edition,
) -> Result<Vec<Reached>, BuildError>
    requires { number < length replicas.old }
    ensures same { replicas.new ≡ replicas.old }
    ensures ok { IfOk result (λ reached. IsReachedAt edition replicas.old number (string_texts directories.items) (map reached_of reached.items)) }
    ensures none { result ≡ Err BuildError.NoPackage → LacksFilesAt edition replicas.old number (string_texts directories.items) }
{
    replicas[number].reach(rt, alloc, directories, edition)
}

/// What is reached of the targets of each replica, all of its targets in one plan, which it keeps
/// in the place of another. `NoPackage` comes where a target's directory has no files that belong
/// to a build.
pub(crate) fn all_planned(
    rt: &(impl Threads + Sync),
    alloc: Global,
    replicas: &mut [Replica],
    targets: &[Target<'_>],
    edition: Edition,
) -> Result<Vec<Vec<Reached>>, BuildError>
    ensures same { replicas.new ≡ replicas.old }
    ensures ok { IfOk result (λ all. AreReached edition replicas.old (map target_of targets.now) (all_reached_of all.items)) }
    ensures order { IfOk result (λ all. AllInOrder (all_reached_of all.items)) }
    ensures none { result ≡ Err BuildError.NoPackage → (took : List Took) → AllStandFor replicas.old took
        → LacksPackage edition took (map target_of targets.now) }
{
    let mut all = Vec::new(alloc);
    for number in 0..replicas.len() {
        let directories = directories_at(alloc, targets, number)?;
        let reached = reach_at(rt, alloc, replicas, number, directories, edition)?;
        if let Err(e) = all.push(reached) {
            return Err(AllocError::from(e).into());
        }
    }
    Ok(all)
}

/// The numbers of the replicas that the targets name. An `Err` is want of memory.
pub fn numbers_of(alloc: Global, targets: &[Target<'_>]) -> Result<Vec<usize>, AllocError>
    ensures { IfOk result (λ numbers. numbers.items ≡ map (λ t. t.replica) targets.now) }
{
    let mut numbers = Vec::with_capacity(alloc, targets.len())?;
    for target in targets {
        numbers.push(target.replica)?;
    }
    Ok(numbers)
}

/// The join of the caches of the replicas of some numbers. Where it is one replica its cache is
/// shared, and nothing that grows with it is copied.
pub(crate) fn opening_of(
    alloc: Global,
    replicas: &[Replica],
    numbers: &[usize],
) -> Result<Cache, AllocError>
    requires { All (λ k. k < length replicas.now) numbers.now }
    ensures { IfOk result (λ cache. IsOpening replicas.now numbers.now cache) }
{
    let Some(first) = numbers.first() else {
        return Ok(Cache::new(alloc));
    };
    let mut opening = replica_at(replicas, *first).cache().copy()?;
    for number in numbers {
        if *number != *first {
            opening.merge(replica_at(replicas, *number).cache())?;
        }
    }
    Ok(opening)
}

fn all_name(targets: &[Target<'_>], number: usize) -> bool
    ensures { result ≡ list_all (λ t. t.replica == number) targets.now }
{
    targets.iter().all(|target| target.replica == number)
}

/// The replica of that number takes the new entries in place. An `Err` changes nothing.
fn take_into(replicas: &mut [Replica], number: usize, added: &Cache) -> Result<(), AllocError>
    requires { number < length replicas.old }
    ensures ok { OnOk result (TakesInto number added.now replicas.old replicas.new) }
    ensures err { OnErr result (replicas.new ≡ replicas.old) }
{
    replicas[number].take_results(added)?;
    Ok(())
}

/// Puts a cache into each replica that a target names.
fn put_all(replicas: &mut [Replica], targets: &[Target<'_>], caches: Vec<Cache>)
    requires within { All (λ t. t.replica < length replicas.old) targets.now }
    requires enough { length caches.items ≡ length targets.now }
    ensures { (cache : FinMap id_cmp AnAction) → All (λ c. c ≡ cache) caches.items → HaveCache (map target_of targets.now) cache replicas.old replicas.new }
{
    let mut left = caches;
    for target in targets {
        let Some(cache) = left.pop() else {
            unreachable!();
        };
        replicas[target.replica].put_cache(cache);
    }
}

/// Each replica that a target names then has the join of the caches of some replicas, which hold
/// all that those of the targets hold, and of the new entries: in place where the targets name one
/// replica; and where they name several, all that can fail comes before the first of them changes.
/// An `Err` changes nothing.
pub(crate) fn give_results(
    alloc: Global,
    replicas: &mut [Replica],
    targets: &[Target<'_>],
    holders: &[usize],
    added: &Cache,
) -> Result<(), AllocError>
    requires named { All (λ t. t.replica < length replicas.old) targets.now }
    requires holding { All (λ k. k < length replicas.old) holders.now }
    ensures ok { OnOk result (TakeResults holders.now (map target_of targets.now) added.now replicas.old replicas.new) }
    ensures err { OnErr result (replicas.new ≡ replicas.old) }
{
    let Some(first) = targets.first() else {
        return Ok(());
    };
    if all_name(targets, first.replica) {
        take_into(replicas, first.replica, added)?;
        return Ok(());
    }
    let mut cache = opening_of(alloc, replicas, holders)?;
    cache.merge(added)?;
    let caches = copies(alloc, targets.len(), &cache)?;
    put_all(replicas, targets, caches);
    Ok(())
}
