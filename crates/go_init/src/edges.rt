//! Which nodes refer to which.
ghost use Rattle.std.specs.Prelude.{◌≡◌, ◌<◌, ◌↔◌, ◌⊎◌, ℕ, List, Some, map, length, string_bytes, IfOk, OnOk};
ghost use Rattle.std.specs.List.{slice_get, Contains};
ghost use Rattle.std.specs.Borrow.{Bor};
ghost use Rattle.ws_reach.specs.Reach.{Edge, rows_of};
ghost use Rattle.go_init.specs.Nodes.{Node as ANode, Refers};
ghost use Rattle.go_init.specs.Views.{node_of, bearers};

use crate::nodes::Node;
use std::alloc::{AllocError, Global};
use std::collections::BTreeMap;

// The numbers under a name, which are taken out.
fn taken<'a>(alloc: Global, named: &mut BTreeMap<&'a str, Vec<usize>>, name: &'a str) -> Vec<usize>
    ensures numbers { result.items ≡ bearers named.old name.entry }
    ensures others { (x : Bor (List ℕ)) → (x.now ≡ name.now → ⊥) → bearers named.new x ≡ bearers named.old x }
{
    match named.remove(name) {
        Some(numbers) => numbers,
        None => Vec::new(alloc),
    }
}

// A node is added to those of a name.
fn add<'a>(
    alloc: Global,
    named: &mut BTreeMap<&'a str, Vec<usize>>,
    name: &'a str,
    number: usize,
) -> Result<(), AllocError>
    ensures { OnOk result ((x : Bor (List ℕ)) (k : ℕ)
        → Contains (bearers named.new x) k ↔ (Contains (bearers named.old x) k ⊎ ((x.now ≡ name.now) × (k ≡ number)))) }
{
    let mut numbers = taken(alloc, named, name);
    numbers.push(number)?;
    named.insert(name, numbers)?;
    Ok(())
}

// The numbers under a name.
fn bearers_of<'b>(named: &'b BTreeMap<&str, Vec<usize>>, name: &str) -> &'b [usize]
    ensures { result.now ≡ bearers named.now name.entry }
{
    match named.get(name) {
        Some(numbers) => numbers.as_slice(),
        None => &[],
    }
}

fn name_at<'a>(names: &[&'a str], place: usize) -> &'a str
    requires { place < length names.now }
    ensures { slice_get names.now place ≡ Some result }
{
    names[place]
}

fn reference_at(references: &[String], place: usize) -> &str
    requires { place < length references.now }
    ensures { slice_get (map string_bytes references.now) place ≡ Some result.now }
{
    references[place].as_str()
}

fn node_at<'b, 'a>(nodes: &'b [Node<'a>], number: usize) -> &'b Node<'a>
    requires { number < length nodes.now }
    ensures { slice_get nodes.now number ≡ Some result.now }
{
    &nodes[number]
}

// A node is added to those of its names.
fn add_names<'a>(
    alloc: Global,
    named: &mut BTreeMap<&'a str, Vec<usize>>,
    names: &[&'a str],
    number: usize,
) -> Result<(), AllocError>
    ensures { OnOk result ((x : Bor (List ℕ)) (k : ℕ)
        → Contains (bearers named.new x) k ↔ (Contains (bearers named.old x) k ⊎ (Contains (map (λ n. n.now) names.now) x.now × (k ≡ number)))) }
{
    for i in 0..names.len() {
        add(alloc, named, name_at(names, i), number)?;
    }
    Ok(())
}

// The numbers of the nodes that have each name. An `Err` only where memory ran out.
fn by_name<'a>(
    alloc: Global,
    nodes: &[Node<'a>],
) -> Result<BTreeMap<&'a str, Vec<usize>>, AllocError>
    ensures { IfOk result (λ named. (x : Bor (List ℕ)) (k : ℕ)
        → Contains (bearers named x) k ↔ ((to : ANode) × (slice_get (map node_of nodes.now) k ≡ Some to) × Contains to.names x.now)) }
{
    let mut named = BTreeMap::new(alloc);
    for number in 0..nodes.len() {
        let node = node_at(nodes, number);
        add_names(alloc, &mut named, node.names.as_slice(), number)?;
    }
    Ok(named)
}

// The nodes to a name of which some names refer. An `Err` only where memory ran out.
fn row_of(
    alloc: Global,
    named: &BTreeMap<&str, Vec<usize>>,
    references: &[String],
) -> Result<Vec<usize>, AllocError>
    ensures { IfOk result (λ row. (k : ℕ) → Contains row.items k ↔ ((x : Bor (List ℕ)) × Contains (map string_bytes references.now) x.now
        × Contains (bearers named.now x) k)) }
{
    let mut row = Vec::new(alloc);
    for i in 0..references.len() {
        let name = reference_at(references, i);
        row.extend_from_slice(bearers_of(named, name))?;
    }
    Ok(row)
}

/// Which nodes refer to which: the row at a node has those to a name of which it refers. An `Err`
/// only where memory ran out.
pub(crate) fn edges(alloc: Global, nodes: &[Node<'_>]) -> Result<Vec<Vec<usize>>, AllocError>
    ensures size { IfOk result (λ rows. length rows.items ≡ length nodes.now) }
    ensures edges { IfOk result (λ rows. (k q : ℕ) → Edge (rows_of rows.items) k q ↔ Refers (map node_of nodes.now) k q) }
{
    let named = by_name(alloc, nodes)?;
    let mut rows = Vec::new(alloc);
    for number in 0..nodes.len() {
        let node = node_at(nodes, number);
        rows.push(row_of(alloc, &named, node.references)?)?;
    }
    Ok(rows)
}
