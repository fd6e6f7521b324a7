//! What several hold together.

ghost use Rattle.std.specs.Prelude.{◌≡◌, ◌<◌, List, length, IfOk, OnOk, OnErr, map, replicate};
ghost use Rattle.std.specs.Bool.{nat_le};
ghost use Rattle.std.specs.List.{list_any};
ghost use Rattle.std.specs.Thread.{IsSync, IsSend};
ghost use Rattle.ws_register.specs.Edits.{greatest_counter};
ghost use Rattle.ws_replica.specs.Holdings.{replica_join, Took, AllStandFor, all_taken};
ghost use Rattle.ws_replica.specs.Joins.{joined_from, IsJoinOf, all_joined};

use crate::Replica;
use std::alloc::{AllocError, Global};
use std::thread::{Threads, join};
use ws_version::Join;

// Fewer than these are joined one after another: a thread would cost more than it saves.
const FEW: usize = 9;

// The same of replicas whose counters are all below this, so that they hold little.
const LITTLE: u64 = 1_024;

/// The join of a list, from its first member on.
fn fold_all<J: Join + Drop>(first: &J, others: &[J]) -> Result<J, AllocError>
    ensures { IfOk result (λ all. all ≡ joined_from J.joined first.now others.now) }
{
    let mut all = first.copy()?;
    for other in others {
        all.merge(other)?;
    }
    Ok(all)
}

/// The join of a list with a member, from the left.
fn join_in_turn<J: Join + Drop>(all: &[J]) -> Result<J, AllocError>
    requires some { 0 < length all.now }
    ensures { IfOk result (λ joined. IsJoinOf J.joined all.now joined) }
{
    let Some((first, others)) = all.split_first() else {
        unreachable!();
    };
    fold_all(first, others)
}

/// The join of a list with a member, in any grouping: of a long one, two halves are joined side by
/// side, each in a thread of its own where one can be made; a short one, of fewer than 9, is
/// joined in turn. An `Err` is for want of memory.
pub fn join_all<R: Threads + Sync, J: Join + Drop>(rt: &R, all: &[J]) -> Result<J, AllocError>
    requires some { 0 < length all.now }
    ensures { IfOk result (λ joined. IsJoinOf J.joined all.now joined) }
{
    if all.len() < FEW {
        return join_in_turn(all);
    }
    let (front, back) = all.split_at(all.len() / 2);
    let (left, right) = join(
        rt,
        || -> Result<J, AllocError>
            requires { IsSync R.row × IsSync J.row × IsSend J.row × (0 < length front.now) }
            ensures { IfOk result (λ joined. IsJoinOf J.joined front.entry.now joined) }
        { join_all(rt, front) },
        || -> Result<J, AllocError>
            requires { IsSync R.row × IsSync J.row × IsSend J.row × (0 < length back.now) }
            ensures { IfOk result (λ joined. IsJoinOf J.joined back.entry.now joined) }
        { join_all(rt, back) },
    );
    let mut joined = left?;
    let others = right?;
    joined.merge(&others)?;
    Ok(joined)
}

/// As many copies as asked for, or an `Err` for want of memory.
pub(crate) fn copies<J: Join + Drop>(
    alloc: Global,
    count: usize,
    joined: &J,
) -> Result<Vec<J>, AllocError>
    ensures { IfOk result (λ copies. copies.items ≡ replicate count joined.now) }
{
    let mut copies = Vec::with_capacity(alloc, count)?;
    for _ in 0..count {
        let copy = joined.copy()?;
        copies.push(copy)?;
    }
    Ok(copies)
}

/// The join of a list with a member: side by side, or in turn.
fn join_by<R: Threads + Sync, J: Join + Drop>(
    rt: &R,
    all: &[J],
    side_by_side: bool,
) -> Result<J, AllocError>
    requires some { 0 < length all.now }
    ensures { IfOk result (λ joined. IsJoinOf J.joined all.now joined) }
{
    if side_by_side {
        return join_all(rt, all);
    }
    join_in_turn(all)
}

/// Each becomes what all hold together. An `Err`, for want of memory, changes nothing.
fn settle_all<R: Threads + Sync, J: Join + Drop>(
    rt: &R,
    alloc: Global,
    all: &mut [J],
    side_by_side: bool,
) -> Result<(), AllocError>
    ensures ok { OnOk result (all.new ≡ all_joined J.joined all.old) }
    ensures err { OnErr result (all.new ≡ all.old) }
{
    if all.is_empty() {
        return Ok(());
    }
    let joined = join_by(rt, all, side_by_side)?;
    let mut copies = copies(alloc, all.len(), &joined)?;
    all.swap_with_slice(copies.as_mut_slice());
    Ok(())
}

// Whether one of them may hold much: a replica's own writes have different counters.
fn is_one_large(replicas: &[Replica]) -> bool
    ensures { result ≡ list_any (λ r. nat_le LITTLE (greatest_counter r.registers)) replicas.now }
{
    replicas
        .iter()
        .any(|replica| replica.registers().greatest_counter() >= LITTLE)
}

/// Every replica takes what all hold: joined by `join_all` where one of them holds much, and else
/// in turn, with no thread. An `Err`, for want of memory, changes nothing.
pub fn settle<R: Threads + Sync>(
    rt: &R,
    alloc: Global,
    replicas: &mut [Replica],
) -> Result<(), AllocError>
    ensures ok { OnOk result (replicas.new ≡ all_joined replica_join replicas.old) }
    ensures err { OnErr result (replicas.new ≡ replicas.old) }
    ensures stands { OnOk result ((took : List Took) → AllStandFor replicas.old took → AllStandFor replicas.new (map (λ _. all_taken took) took)) }
{
    let side_by_side = is_one_large(replicas);
    settle_all(rt, alloc, replicas, side_by_side)
}
