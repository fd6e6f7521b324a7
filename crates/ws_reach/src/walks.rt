//! Walks along edges.
ghost use Rattle.std.specs.Prelude.{◌≡◌, ◌<◌, ◌↔◌, ℕ, length, IfOk, IsTrue, Some};
ghost use Rattle.std.specs.List.{slice_get, Contains};
ghost use Rattle.ws_reach.specs.Reach.{Edge, Reaches, EdgesStayWithin, rows_of};

use crate::worklists::Worklist;
use std::alloc::{AllocError, Global};

/// The nodes that one reaches, itself the first. An `Err` only where memory ran out.
pub fn walk(alloc: Global, rows: &[Vec<usize>], start: usize) -> Result<Vec<usize>, AllocError>
    requires start { start < length rows.now }
    requires within { EdgesStayWithin (rows_of rows.now) }
    ensures { IfOk result (λ found. (q : ℕ) → Contains found.items q ↔ Reaches (Edge (rows_of rows.now)) start q) }
{
    let mut met = begun(alloc, rows.len(), start)?;
    let mut next = 0;
    while next < met.found().len() {
        let here = node_at(met.found(), next);
        met.add_all(row_at(rows, here))?;
        next += 1;
    }
    Ok(met.into_found())
}

/// The worklist of a walk that has met its start alone.
pub fn begun(alloc: Global, size: usize, start: usize) -> Result<Worklist, AllocError>
    requires { start < size }
    ensures size { IfOk result (λ met. met.size ≡ size) }
    ensures only { IfOk result (λ met. (q : ℕ) → Contains met.found q ↔ (q ≡ start)) }
{
    let mut met = Worklist::new(alloc, size)?;
    met.add_all(&[start])?;
    Ok(met)
}

/// The node at a place of a list.
pub fn node_at(nodes: &[usize], place: usize) -> usize
    requires { place < length nodes.now }
    ensures { slice_get nodes.now place ≡ Some result }
{
    nodes[place]
}

/// The row at a node.
pub(crate) fn row_at(rows: &[Vec<usize>], node: usize) -> &[usize]
    requires { node < length rows.now }
    ensures { slice_get (rows_of rows.now) node ≡ Some result.now }
{
    rows[node].as_slice()
}

/// Whether there is an edge from one node to another.
pub fn has_edge(rows: &[Vec<usize>], from: usize, to: usize) -> bool
    ensures { IsTrue result ↔ Edge (rows_of rows.now) from to }
{
    match rows.get(from) {
        Some(row) => row.contains(&to),
        None => false,
    }
}
