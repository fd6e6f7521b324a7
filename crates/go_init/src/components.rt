//! Which functions refer to one another in a circle.
ghost use Rattle.std.specs.Prelude.{◌≡◌, ◌+◌, ◌<◌, ◌≤◌, ◌↔◌, ℕ, [], length, slice_index, IfOk, OnOk};
ghost use Rattle.std.specs.List.{Contains};
ghost use Rattle.ws_reach.specs.Components.{AreAlike};
ghost use Rattle.ws_reach.specs.Reach.{Edge, Reaches, rows_of};
ghost use Rattle.go_init.specs.Condensation.{AreRooted};

use std::alloc::{AllocError, Global};
use ws_reach::{Worklist, node_at};

/// The edges among the nodes behind the first ones, as many as the count: each node's number is less
/// by the count. An `Err` only where memory ran out.
pub(crate) fn edges_behind(
    alloc: Global,
    rows: &[Vec<usize>],
    count: usize,
) -> Result<Vec<Vec<usize>>, AllocError>
    requires { count ≤ length rows.now }
    ensures size { IfOk result (λ behind. count + length behind.items ≡ length rows.now) }
    ensures edges { IfOk result (λ behind. (x y : ℕ) → Edge (rows_of behind.items) x y ↔ Edge (rows_of rows.now) (count + x) (count + y)) }
{
    let mut behind = Vec::new(alloc);
    for node in 0..rows.len() - count {
        behind.push(nodes_behind(alloc, row_of(rows, count + node), count)?)?;
    }
    Ok(behind)
}

// Those of a row that aren't below a count, less the count.
fn nodes_behind(alloc: Global, row: &[usize], count: usize) -> Result<Vec<usize>, AllocError>
    ensures { IfOk result (λ behind. (y : ℕ) → Contains behind.items y ↔ Contains row.now (count + y)) }
{
    let mut behind = Vec::new(alloc);
    for i in 0..row.len() {
        let node = node_at(row, i);
        if node >= count {
            behind.push(node - count)?;
        }
    }
    Ok(behind)
}

/// The row at a node; none where there is no such node.
pub(crate) fn row_of(rows: &[Vec<usize>], node: usize) -> &[usize]
    ensures { (q : ℕ) → Contains result.now q ↔ Edge (rows_of rows.now) node q }
{
    match rows.get(node) {
        Some(row) => row.as_slice(),
        None => &[],
    }
}

/// For each node below a size a root that it shares with all nodes to which edges lead from it.
///
/// From each node to which an edge leads, edges lead back. An `Err` only where memory ran out.
pub(crate) fn roots_of(
    alloc: Global,
    rows: &[Vec<usize>],
    size: usize,
) -> Result<Vec<usize>, AllocError>
    requires within { (p q : ℕ) → Edge (rows_of rows.now) p q → q < size }
    requires back { (p q : ℕ) → Edge (rows_of rows.now) p q → Reaches (Edge (rows_of rows.now)) q p }
    ensures size { IfOk result (λ roots. length roots.items ≡ size) }
    ensures inside { IfOk result (λ roots. (x : ℕ) → x < size → slice_index roots.items x < size) }
    ensures reached { IfOk result (λ roots. (x : ℕ) → x < size → Reaches (Edge (rows_of rows.now)) (slice_index roots.items x) x) }
    ensures alike { IfOk result (λ roots. (x y : ℕ) → x < size → Edge (rows_of rows.now) x y → AreAlike roots.items x y) }
{
    let mut met = Worklist::new(alloc, size)?;
    let mut roots = vec![in alloc; size; size]?;
    for root in 0..size {
        take_root(rows, root, &mut met, &mut roots)?;
    }
    Ok(roots)
}

// A node becomes the root of those to which edges lead from it, unless they have one.
fn take_root(
    rows: &[Vec<usize>],
    root: usize,
    met: &mut Worklist,
    roots: &mut Vec<usize>,
) -> Result<(), AllocError>
    requires within { (p q : ℕ) → Edge (rows_of rows.now) p q → q < met.old.size }
    requires back { (p q : ℕ) → Edge (rows_of rows.now) p q → Reaches (Edge (rows_of rows.now)) q p }
    requires root { root < met.old.size }
    requires rooted { AreRooted (rows_of rows.now) met.old.size met.old.found roots.old.items }
    ensures size { OnOk result (met.new.size ≡ met.old.size) }
    ensures root { OnOk result (Contains met.new.found root) }
    ensures stay { OnOk result ((x : ℕ) → Contains met.old.found x → Contains met.new.found x) }
    ensures rooted { OnOk result (AreRooted (rows_of rows.now) met.new.size met.new.found roots.new.items) }
{
    let mut next = met.found().len();
    met.add_all(&[root])?;
    while next < met.found().len() {
        let here = node_at(met.found(), next);
        set_root(roots, here, root);
        met.add_all(row_of(rows, here))?;
        next += 1;
    }
    Ok(())
}

// A node that has no root, for which the number of nodes stands, gets one.
fn set_root(roots: &mut Vec<usize>, node: usize, root: usize)
    requires { node < length roots.old.items }
    ensures count { length roots.new.items ≡ length roots.old.items }
    ensures others { (x : ℕ) → (x ≡ node → ⊥) → slice_index roots.new.items x ≡ slice_index roots.old.items x }
    ensures kept { slice_index roots.old.items node < length roots.old.items → slice_index roots.new.items node ≡ slice_index roots.old.items node }
    ensures set { (slice_index roots.old.items node < length roots.old.items → ⊥) → slice_index roots.new.items node ≡ root }
{
    if roots[node] >= roots.len() {
        roots[node] = root;
    }
}
