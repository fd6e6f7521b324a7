//! What variables and functions wait for, where one of those functions that refer to one another in a circle stands for all.
ghost use Rattle.std.specs.Prelude.{◌≡◌, ◌+◌, ◌<◌, ◌≤◌, ◌⊎◌, ◌↔◌, ◌^◌, ℕ, length, slice_index, IfOk, IsTrue, OnOk};
ghost use Rattle.ws_reach.specs.Reach.{Edge, EdgesStayWithin, rows_of};
ghost use Rattle.ws_reach.specs.Worklist.{AllBelow};
ghost use Rattle.go_init.specs.Condensation.{HasOther, IsRenumbered, WaitsForReferred, WaitsForRoot, root_of};

use crate::queue::row_at;
use std::alloc::{AllocError, Global};
use ws_reach::node_at;

/// The condensation of rows in which variables, as many as the count, stand before functions, whose
/// roots are given. An `Err` only where memory ran out.
pub(crate) fn condensed(
    alloc: Global,
    rows: &[Vec<usize>],
    count: usize,
    roots: &[usize],
) -> Result<Vec<Vec<usize>>, AllocError>
    requires size { count + length roots.now ≡ length rows.now }
    requires within { EdgesStayWithin (rows_of rows.now) }
    requires inside { (x : ℕ) → x < length roots.now → slice_index roots.now x < length roots.now }
    ensures size { IfOk result (λ waits. length waits.items ≡ length rows.now) }
    ensures edges { IfOk result (λ waits. (p q : ℕ)
        → Edge (rows_of waits.items) p q ↔ (WaitsForRoot roots.now p q ⊎ WaitsForReferred (rows_of rows.now) count roots.now p q)) }
{
    let mut waits = edges_to_roots(alloc, rows.len(), roots)?;
    for node in 0..rows.len() {
        let source = source_at(roots, renumbered(node, count, roots.len()));
        wait_for_row(&mut waits, row_at(rows, node), count, roots, source)?;
    }
    Ok(waits)
}

// The edges from functions to their roots, where these are others.
fn edges_to_roots(
    alloc: Global,
    size: usize,
    roots: &[usize],
) -> Result<Vec<Vec<usize>>, AllocError>
    requires { length roots.now ≤ size }
    ensures size { IfOk result (λ waits. length waits.items ≡ size) }
    ensures edges { IfOk result (λ waits. (p q : ℕ) → Edge (rows_of waits.items) p q ↔ WaitsForRoot roots.now p q) }
{
    let mut waits = empty_rows(alloc, size)?;
    for function in 0..roots.len() {
        let root = node_at(roots, function);
        if root != function {
            add_edge(&mut waits, function, root)?;
        }
    }
    Ok(waits)
}

fn empty_rows(alloc: Global, count: usize) -> Result<Vec<Vec<usize>>, AllocError>
    ensures size { IfOk result (λ rows. length rows.items ≡ count) }
    ensures none { IfOk result (λ rows. (p q : ℕ) → ¬ (Edge (rows_of rows.items) p q)) }
{
    let mut rows = Vec::new(alloc);
    for _ in 0..count {
        rows.push(Vec::new(alloc))?;
    }
    Ok(rows)
}

fn add_edge(rows: &mut Vec<Vec<usize>>, from: usize, to: usize) -> Result<(), AllocError>
    requires { from < length rows.old.items }
    ensures size { OnOk result (length rows.new.items ≡ length rows.old.items) }
    ensures edges { OnOk result ((p q : ℕ) → Edge (rows_of rows.new.items) p q ↔ (Edge (rows_of rows.old.items) p q ⊎ ((p ≡ from) × (q ≡ to)))) }
{
    rows[from].push(to)?;
    Ok(())
}

// The number in the condensation of a node of the rows.
fn renumbered(node: usize, count: usize, functions: usize) -> usize
    requires node { node < count + functions }
    requires fits { count + functions < 2 ^ 64 }
    ensures { IsRenumbered count functions node result }
{
    if node < count {
        functions + node
    } else {
        node - count
    }
}

// The root that stands for a function; any other number stands for itself.
fn source_at(roots: &[usize], number: usize) -> usize
    ensures { result ≡ root_of roots.now number }
{
    match roots.get(number) {
        Some(root) => *root,
        None => number,
    }
}

// What waits by this row: its source waits for each node of it, but for functions whose root it is.
fn wait_for_row(
    waits: &mut Vec<Vec<usize>>,
    row: &[usize],
    count: usize,
    roots: &[usize],
    source: usize,
) -> Result<(), AllocError>
    requires size { count + length roots.now ≡ length waits.old.items }
    requires source { source < length waits.old.items }
    requires below { AllBelow (length waits.old.items) row.now }
    ensures size { OnOk result (length waits.new.items ≡ length waits.old.items) }
    ensures edges { OnOk result ((p q : ℕ)
        → Edge (rows_of waits.new.items) p q ↔ (Edge (rows_of waits.old.items) p q ⊎ ((p ≡ source) × HasOther count roots.now row.now source q))) }
{
    for i in 0..row.len() {
        let number = renumbered(node_at(row, i), count, roots.len());
        if !has_root(roots, number, source) {
            add_edge(waits, source, number)?;
        }
    }
    Ok(())
}

// Whether the number is that of a function with this root.
fn has_root(roots: &[usize], number: usize, root: usize) -> bool
    ensures { IsTrue result ↔ ((number < length roots.now) × (slice_index roots.now number ≡ root)) }
{
    match roots.get(number) {
        Some(own) => *own == root,
        None => false,
    }
}
