//! Flags by number, of which the first that stands is found by a tree over them.
ghost use Rattle.std.specs.Prelude.{◌≡◌, ◌+◌, ◌*◌, ◌^◌, ◌||◌, ◌≤◌, ◌<◌, ℕ, true, false, length, drop, replicate, IfOk, IfSome, IfNone, slice_set};
ghost use Rattle.std.specs.List.{slice_index_or};
ghost use Rattle.ws_board.specs.Flags.{IsTree};

use std::alloc::{AllocError, Global};
use std::marker::Model;

/// Flags, behind the nodes of a tree: the node with the number i says whether a flag stands below
/// those with the numbers 2 i and 2 i + 1. The root's number is 1.
#[derive(Drop)]
pub(super) struct Flags {
    /// How many numbers are of nodes: a power of two.
    inner: usize,
    tree: Vec<bool>,
}

impl Model for Flags {
    ghost use Rattle.std.specs.Prelude.{Bool, List, drop};
    ghost use Rattle.std.specs.Coded.{coded_bool, coded_list};
    ghost use Rattle.ws_board.specs.Flags.{IsTree};

    ghost Value = { List Bool };

    ghost coded = { coded_list coded_bool };

    ghost view = { λ a. drop a.inner a.tree.items };

    ghost invariant = { λ a. IsTree a.inner a.tree.items };
}

fn stands(tree: &[bool], number: usize) -> bool
    ensures { result ≡ slice_index_or tree.now number false }
{
    match tree.get(number) {
        Some(flag) => *flag,
        None => false,
    }
}

// Whether a flag below the node stands.
fn stands_below(tree: &[bool], node: usize) -> bool
    requires { 2 * node + 1 < 2 ^ 64 }
    ensures { result ≡ (slice_index_or tree.now (2 * node) false || slice_index_or tree.now (2 * node + 1) false) }
{
    stands(tree, 2 * node) || stands(tree, 2 * node + 1)
}

// Writes a flag, and the nodes above it.
fn write(tree: &mut Vec<bool>, inner: usize, leaf: usize, flag: bool)
    requires tree { IsTree inner tree.old.items }
    requires leaf { inner ≤ leaf }
    requires inside { leaf < length tree.old.items }
    ensures tree { IsTree inner tree.new.items }
    ensures flags { drop inner tree.new.items ≡ drop inner (slice_set tree.old.items leaf flag) }
{
    tree[leaf] = flag;
    let mut node = leaf;
    while node > 1 {
        node /= 2;
        tree[node] = stands_below(tree, node);
    }
}

// The first flag that stands, where one does.
fn first_below(tree: &[bool], inner: usize) -> usize
    requires tree { IsTree inner tree.now }
    requires some { slice_index_or tree.now 1 false ≡ true }
    ensures leaf { inner ≤ result }
    ensures stands { slice_index_or tree.now result false ≡ true }
    ensures least { (k : ℕ) → inner ≤ k → k < result → slice_index_or tree.now k false ≡ false }
{
    let mut node = 1;
    while node < inner {
        node *= 2;
        if !stands(tree, node) {
            node += 1;
        }
    }
    node
}

impl Flags {
    /// So many, of which none stands.
    pub(super) fn new(alloc: Global, count: usize) -> Result<Flags, AllocError>
        ensures { IfOk result (λ flags. flags ≡ replicate count false) }
    {
        let Some(inner) = count.checked_next_power_of_two() else {
            return Err(AllocError);
        };
        let Some(all) = inner.checked_add(count) else {
            return Err(AllocError);
        };
        let tree = vec![in alloc; false; all]?;
        Ok(Flags { inner, tree })
    }

    /// That flag stands, or does not.
    pub(super) fn set(&mut self, k: usize, flag: bool)
        requires { k < length self.old }
        ensures { self.new ≡ slice_set self.old k flag }
    {
        write(&mut self.tree, self.inner, self.inner + k, flag);
    }

    /// The first that stands.
    pub(super) fn first(&self) -> Option<usize>
        ensures some { IfSome result (λ k. slice_index_or self.now k false ≡ true) }
        ensures least { IfSome result (λ k. (j : ℕ) → j < k → slice_index_or self.now j false ≡ false) }
        ensures none { IfNone result ((j : ℕ) → slice_index_or self.now j false ≡ false) }
    {
        if stands(&self.tree, 1) {
            Some(first_below(&self.tree, self.inner) - self.inner)
        } else {
            None
        }
    }
}
