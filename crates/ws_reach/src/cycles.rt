//! Edges that close a cycle.
ghost use Rattle.std.specs.Prelude.{◌≡◌, ◌<◌, ◌↔◌, ◌⊎◌, ℕ, List, [], length, vec_len, slice_index, IfOk, IfSome, OnOk, IsTrue};
ghost use Rattle.std.specs.List.{Contains};
ghost use Rattle.ws_reach.specs.Reach.{Edge, Reaches, EdgesStayWithin, rows_of};
ghost use Rattle.ws_reach.specs.Components.{AreAlike, LeadsDown};
ghost use Rattle.ws_reach.specs.Worklist.{AllBelow};

use crate::search::{components_of, value_at};
use crate::walks::{has_edge, node_at, row_at, walk};
use crate::worklists::Worklist;
use std::alloc::{AllocError, Global};

/// The edges that close a cycle, by their ends: the row at `q` has the nodes with an edge to `q`
/// that `q` reaches. An `Err` only where memory ran out.
pub fn closing_edges(alloc: Global, rows: &[Vec<usize>]) -> Result<Vec<Vec<usize>>, AllocError>
    requires { EdgesStayWithin (rows_of rows.now) }
    ensures { IfOk result (λ closing. (q p : ℕ) → Edge (rows_of closing.items) q p ↔ (Edge (rows_of rows.now) p q × Reaches (Edge (rows_of rows.now)) q p)) }
{
    let found = components_of(alloc, rows)?;
    match closing_within(alloc, rows, found.roots.as_slice(), found.ranks.as_slice())? {
        Some(closing) => Ok(closing),
        None => closing_by_walks(alloc, rows),
    }
}

// The same by components: the edges between nodes of the same root. `None` where roots and ranks
// aren't those of components.
fn closing_within(
    alloc: Global,
    rows: &[Vec<usize>],
    roots: &[usize],
    ranks: &[usize],
) -> Result<Option<Vec<Vec<usize>>>, AllocError>
    requires { EdgesStayWithin (rows_of rows.now) }
    ensures { IfOk result (λ o. IfSome o (λ closing. (q p : ℕ) → Edge (rows_of closing.items) q p ↔ (Edge (rows_of rows.now) p q × Reaches (Edge (rows_of rows.now)) q p))) }
{
    if !lead_down(rows, ranks, roots) || !are_reached(alloc, rows, roots)? {
        return Ok(None);
    }
    let closing = edges_within(alloc, rows, roots)?;
    if !are_reached(alloc, closing.as_slice(), roots)? {
        return Ok(None);
    }
    Ok(Some(closing))
}

// The same by a walk from each node.
fn closing_by_walks(alloc: Global, rows: &[Vec<usize>]) -> Result<Vec<Vec<usize>>, AllocError>
    requires { EdgesStayWithin (rows_of rows.now) }
    ensures { IfOk result (λ closing. (q p : ℕ) → Edge (rows_of closing.items) q p ↔ (Edge (rows_of rows.now) p q × Reaches (Edge (rows_of rows.now)) q p)) }
{
    let mut closing = Vec::new(alloc);
    for q in 0..rows.len() {
        closing.push(closing_at(alloc, rows, q)?)?;
    }
    Ok(closing)
}

// The nodes with an edge to this one that it reaches.
fn closing_at(alloc: Global, rows: &[Vec<usize>], q: usize) -> Result<Vec<usize>, AllocError>
    requires inside { q < length rows.now }
    requires within { EdgesStayWithin (rows_of rows.now) }
    ensures { IfOk result (λ row. (p : ℕ) → Contains row.items p ↔ (Edge (rows_of rows.now) p q × Reaches (Edge (rows_of rows.now)) q p)) }
{
    let found = walk(alloc, rows, q)?;
    let mut row = Vec::new(alloc);
    for i in 0..found.len() {
        let p = node_at(found.as_slice(), i);
        if has_edge(rows, p, q) {
            row.push(p)?;
        }
    }
    Ok(row)
}

// Whether each edge leads to a node of a lower rank, or of the same root.
fn lead_down(rows: &[Vec<usize>], ranks: &[usize], roots: &[usize]) -> bool
    ensures { IsTrue result → (p q : ℕ) → Edge (rows_of rows.now) p q → LeadsDown ranks.now roots.now p q }
{
    for p in 0..rows.len() {
        if !leads_down(rows[p].as_slice(), ranks, roots, p) {
            return false;
        }
    }
    true
}

fn leads_down(row: &[usize], ranks: &[usize], roots: &[usize], p: usize) -> bool
    ensures { IsTrue result → (q : ℕ) → Contains row.now q → LeadsDown ranks.now roots.now p q }
{
    for q in row {
        if !is_down(ranks, roots, p, *q) {
            return false;
        }
    }
    true
}

fn is_down(ranks: &[usize], roots: &[usize], p: usize, q: usize) -> bool
    ensures { IsTrue result → LeadsDown ranks.now roots.now p q }
{
    if value_at(ranks, q) == value_at(ranks, p) {
        return value_at(roots, p) == value_at(roots, q);
    }
    value_at(ranks, q) < value_at(ranks, p)
}

// The edges between nodes of the same root, turned round.
fn edges_within(
    alloc: Global,
    rows: &[Vec<usize>],
    roots: &[usize],
) -> Result<Vec<Vec<usize>>, AllocError>
    requires { EdgesStayWithin (rows_of rows.now) }
    ensures size { IfOk result (λ turned. length turned.items ≡ length rows.now) }
    ensures edges { IfOk result (λ turned. (q p : ℕ) → Edge (rows_of turned.items) q p ↔ (Edge (rows_of rows.now) p q × AreAlike roots.now p q)) }
{
    let mut turned = empty_rows(alloc, rows.len())?;
    for p in 0..rows.len() {
        turn_row(&mut turned, row_at(rows, p), roots, p)?;
    }
    Ok(turned)
}

fn empty_rows(alloc: Global, count: usize) -> Result<Vec<Vec<usize>>, AllocError>
    ensures size { IfOk result (λ rows. length rows.items ≡ count) }
    ensures none { IfOk result (λ rows. (p q : ℕ) → ¬ (Edge (rows_of rows.items) p q)) }
{
    let mut rows = Vec::new(alloc);
    for _ in 0..count {
        rows.push(Vec::new(alloc))?;
    }
    Ok(rows)
}

// The edges from a node to nodes of its root, turned round, join the others.
fn turn_row(
    turned: &mut Vec<Vec<usize>>,
    row: &[usize],
    roots: &[usize],
    p: usize,
) -> Result<(), AllocError>
    requires { AllBelow (length turned.old.items) row.now }
    ensures size { OnOk result (length turned.new.items ≡ length turned.old.items) }
    ensures stay { OnOk result ((q x : ℕ) → Edge (rows_of turned.old.items) q x → Edge (rows_of turned.new.items) q x) }
    ensures taken { OnOk result ((q : ℕ) → Contains row.now q → AreAlike roots.now p q → Edge (rows_of turned.new.items) q p) }
    ensures from { OnOk result ((q x : ℕ) → Edge (rows_of turned.new.items) q x → Edge (rows_of turned.old.items) q x ⊎ ((x ≡ p) × Contains row.now q × AreAlike roots.now p q)) }
{
    for i in 0..row.len() {
        let q = node_at(row, i);
        if value_at(roots, p) == value_at(roots, q) {
            add_edge(turned, q, p)?;
        }
    }
    Ok(())
}

fn add_edge(rows: &mut Vec<Vec<usize>>, from: usize, to: usize) -> Result<(), AllocError>
    requires { from < length rows.old.items }
    ensures size { OnOk result (length rows.new.items ≡ length rows.old.items) }
    ensures edges { OnOk result ((p q : ℕ) → Edge (rows_of rows.new.items) p q ↔ (Edge (rows_of rows.old.items) p q ⊎ ((p ≡ from) × (q ≡ to)))) }
{
    rows[from].push(to)?;
    Ok(())
}

// Whether each node was reached from its root, along edges between nodes of that root.
fn are_reached(alloc: Global, rows: &[Vec<usize>], roots: &[usize]) -> Result<bool, AllocError>
    requires { EdgesStayWithin (rows_of rows.now) }
    ensures { IfOk result (λ b. IsTrue b → (x : ℕ) → x < length rows.now → Reaches (Edge (rows_of rows.now)) (slice_index roots.now x) x) }
{
    let mut met = own_roots(alloc, rows.len(), roots)?;
    let mut next = 0;
    while next < met.found().len() {
        let here = node_at(met.found(), next);
        add_alike(&mut met, row_at(rows, here), roots, here)?;
        next += 1;
    }
    Ok(met.is_full())
}

// The nodes that are their own roots.
fn own_roots(alloc: Global, size: usize, roots: &[usize]) -> Result<Worklist, AllocError>
    ensures size { IfOk result (λ met. met.size ≡ size) }
    ensures own { IfOk result (λ met. (x : ℕ) → Contains met.found x → slice_index roots.now x ≡ x) }
{
    let mut met = Worklist::new(alloc, size)?;
    for x in 0..size {
        if value_at(roots, x) == x {
            met.add_all(&[x])?;
        }
    }
    Ok(met)
}

// Those of a row that have the root of a node are added.
fn add_alike(
    met: &mut Worklist,
    row: &[usize],
    roots: &[usize],
    here: usize,
) -> Result<(), AllocError>
    requires { AllBelow met.old.size row.now }
    ensures size { OnOk result (met.new.size ≡ met.old.size) }
    ensures from { OnOk result ((x : ℕ) → Contains met.new.found x → Contains met.old.found x ⊎ (Contains row.now x × AreAlike roots.now here x)) }
{
    for i in 0..row.len() {
        let x = node_at(row, i);
        if value_at(roots, here) == value_at(roots, x) {
            met.add_all(&[x])?;
        }
    }
    Ok(())
}
