//! How much the replicas of a session took of one another: what each command counts.

ghost use Rattle.std.specs.List.{Contains};
ghost use Rattle.std.specs.Prelude.{◌≡◌, ℕ, List, map, vec_len, Option, None, IfOk, OnOk};
ghost use Rattle.ws_version_vector.specs.Counts.{AreBelow, AreRaisedAndShared};
ghost use Rattle.ws_command.specs.Commands.{Write, Remove, Merge, Settle};
ghost use Rattle.ws_session.specs.Representation.{replica_index, command_text, applied_by, SettlesFrom, SettlesIn, SettlesCounted, IsWriteCounted, IsMergeCounted, MergesCounted, SharesCounted};

use crate::clock::WriteClock;
use crate::replicas::{SessionReplica, apply, index_of, remove, write};
use crate::taking::{merge, settle_all};
use go_text::edition::Edition;
use std::alloc::{AllocError, Global};
use std::thread::Threads;
use ws_command::refusal::Refusal;
use ws_replica::{Target, numbers_of};
use ws_version::Version;
use ws_version_vector::Vectors;

/// A write of a text to a path by the replica of that name, which is counted.
pub(crate) fn write_counted(
    alloc: Global,
    edition: Edition,
    named: &mut Vec<SessionReplica>,
    wrote: &mut WriteClock,
    name: &[u8],
    word: &[u8],
    text: Option<Vec<u8>>,
) -> Result<Option<Refusal>, AllocError>
    ensures settles { IfOk result (λ refusal. (lines : ℕ) → SettlesIn edition (Write name.now word.now lines) (command_text text) named.old refusal named.new) }
    ensures counted { IfOk result (λ refusal. IsWriteCounted refusal (replica_index name.now named.old.items) word.now wrote.old wrote.new) }
{
    let at = index_of(named.as_slice(), name);
    let refusal = write(alloc, edition, named, name, word, text)?;
    count_write(wrote, at, word, &refusal)?;
    Ok(refusal)
}

/// A removal of the file at a path by the replica of that name, which is counted.
pub(crate) fn remove_counted(
    alloc: Global,
    named: &mut Vec<SessionReplica>,
    wrote: &mut WriteClock,
    name: &[u8],
    word: &[u8],
) -> Result<Option<Refusal>, AllocError>
    ensures settles { IfOk result (λ refusal. (text : Option (List ℕ)) → SettlesFrom (Remove name.now word.now) text named.old refusal named.new) }
    ensures counted { IfOk result (λ refusal. IsWriteCounted refusal (replica_index name.now named.old.items) word.now wrote.old wrote.new) }
{
    let at = index_of(named.as_slice(), name);
    let refusal = remove(alloc, named, name, word)?;
    count_write(wrote, at, word, &refusal)?;
    Ok(refusal)
}

/// The replica of that name takes a write that another may have made, and it is counted there.
pub(crate) fn apply_counted(
    alloc: Global,
    edition: Edition,
    named: &mut Vec<SessionReplica>,
    wrote: &mut WriteClock,
    name: &[u8],
    word: &[u8],
    version: Version,
    lines: Option<u64>,
    text: Option<Vec<u8>>,
) -> Result<Option<Refusal>, AllocError>
    ensures settles { IfOk result (λ refusal. SettlesIn edition (applied_by name.now word.now version lines) (command_text text) named.old refusal named.new) }
    ensures counted { IfOk result (λ refusal. IsWriteCounted refusal (replica_index name.now named.old.items) word.now wrote.old wrote.new) }
{
    let at = index_of(named.as_slice(), name);
    let refusal = apply(alloc, edition, named, name, word, version, lines, text)?;
    count_write(wrote, at, word, &refusal)?;
    Ok(refusal)
}

/// The replica of one name takes what that of the other holds, which is counted.
pub(crate) fn merge_counted(
    alloc: Global,
    named: &mut Vec<SessionReplica>,
    wrote: &mut WriteClock,
    compiled: &mut Vectors,
    name: &[u8],
    other: &[u8],
) -> Result<Option<Refusal>, AllocError>
    ensures settles { IfOk result (λ refusal. SettlesCounted (Merge name.now other.now) wrote.old compiled.old named.old refusal named.new) }
    ensures wrote { IfOk result (λ refusal. MergesCounted named.old name.now other.now refusal wrote.old.counts wrote.new.counts) }
    ensures logs { OnOk result (wrote.new.logs ≡ wrote.old.logs) }
    ensures compiled { IfOk result (λ refusal. MergesCounted named.old name.now other.now refusal compiled.old compiled.new) }
{
    let mine = index_of(named.as_slice(), name);
    let theirs = index_of(named.as_slice(), other);
    let refusal = merge(alloc, named, wrote, compiled, name, other)?;
    count_merge(&mut wrote.counts, mine, theirs, &refusal)?;
    count_merge(compiled, mine, theirs, &refusal)?;
    Ok(refusal)
}

/// Every replica takes what all hold, which is counted.
pub(crate) fn settle_counted<R: Threads + Sync>(
    rt: &R,
    alloc: Global,
    named: &mut Vec<SessionReplica>,
    wrote: &mut WriteClock,
    compiled: &mut Vectors,
) -> Result<(), AllocError>
    ensures settles { OnOk result (SettlesCounted Settle wrote.old compiled.old named.old None named.new) }
    ensures wrote { OnOk result (SharesCounted (vec_len named.old) wrote.old.counts wrote.new.counts) }
    ensures logs { OnOk result (wrote.new.logs ≡ wrote.old.logs) }
    ensures compiled { OnOk result (SharesCounted (vec_len named.old) compiled.old compiled.new) }
{
    let count = named.len();
    settle_all(rt, alloc, named, wrote, compiled)?;
    wrote.counts.settle(count)?;
    compiled.settle(count)?;
    Ok(())
}

/// Counts a write to a path of the replica at an index, if it took one.
fn count_write(
    wrote: &mut WriteClock,
    at: Option<usize>,
    path: &[u8],
    refusal: &Option<Refusal>,
) -> Result<(), AllocError>
    ensures { OnOk result (IsWriteCounted refusal.now at path.now wrote.old wrote.new) }
{
    if refusal.is_some() {
        return Ok(());
    }
    match at {
        None => Ok(()),
        Some(at) => wrote.raise(at, path),
    }
}

/// Counts what the replica at one index took of that at the other, if it took anything.
fn count_merge(
    vectors: &mut Vectors,
    mine: Option<usize>,
    theirs: Option<usize>,
    refusal: &Option<Refusal>,
) -> Result<(), AllocError>
    ensures { OnOk result (IsMergeCounted refusal.now mine theirs vectors.old vectors.new) }
{
    if refusal.is_some() {
        return Ok(());
    }
    let Some(mine) = mine else {
        return Ok(());
    };
    let Some(theirs) = theirs else {
        return Ok(());
    };
    vectors.merge(mine, theirs)
}

/// The numbers of replicas that hold together all results of those that targets name.
pub(crate) fn holders_of(
    alloc: Global,
    compiled: &Vectors,
    targets: &[Target<'_>],
) -> Result<Vec<usize>, AllocError>
    ensures below { IfOk result (λ holders. AreBelow compiled.now (map (λ t. t.replica) targets.now) holders.items) }
    ensures within { IfOk result (λ holders. (k : ℕ) → Contains holders.items k → Contains (map (λ t. t.replica) targets.now) k) }
{
    let numbers = numbers_of(alloc, targets)?;
    compiled.tops_among(&numbers)
}

/// Counts what a build of targets compiled at the first replica, and what all of them took of one
/// another.
pub(crate) fn count_build(
    alloc: Global,
    compiled: &mut Vectors,
    targets: &[Target<'_>],
) -> Result<(), AllocError>
    ensures { OnOk result (AreRaisedAndShared (map (λ t. t.replica) targets.now) compiled.old compiled.new) }
{
    let numbers = numbers_of(alloc, targets)?;
    compiled.raise_and_share(&numbers)
}
