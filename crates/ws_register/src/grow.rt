//! One more write on a list of nodes.

ghost use Rattle.std.specs.Prelude.{◌≡◌, ◌+◌, take, drop, IfOk, OnOk, OnErr};
ghost use Rattle.std.specs.Arc.{arc_value};
ghost use Rattle.std.specs.FinMap.{put};
ghost use Rattle.ws_version.specs.Writes.{path_cmp};
ghost use Rattle.ws_register.specs.Pages.{Ascends, AllPathsBelow, AllAbove};
ghost use Rattle.ws_register.specs.Nodes.{writes_below, all_nodes};

use crate::node::{FULL, Node};
use crate::search::{node_at, pages_at};
use std::alloc::{AllocError, Global};
use std::sync::Arc;
use ws_version::Write;

/// Puts a write at its path, in the place of any that is there: where others share them, the lists
/// of nodes and of one node's pages alone are copied. An `Err`, for want of memory, changes nothing.
pub fn put(alloc: Global, nodes: &mut Vec<Arc<Node>>, write: Write) -> Result<(), AllocError>
    requires { Ascends (all_nodes nodes.old.items) }
    ensures ok { OnOk result (all_nodes nodes.new.items ≡ put path_cmp write.0 write.1 (all_nodes nodes.old.items)) }
    ensures err { OnErr result (all_nodes nodes.new.items ≡ all_nodes nodes.old.items) }
{
    let at = with_room(alloc, nodes, write.path())?;
    put_at(alloc, nodes, at, write)
}

// The number of the node that a path belongs to, which was split if it was full.
fn with_room(alloc: Global, nodes: &mut Vec<Arc<Node>>, path: &str) -> Result<usize, AllocError>
    requires { Ascends (all_nodes nodes.old.items) }
    ensures same { all_nodes nodes.new.items ≡ all_nodes nodes.old.items }
    ensures below { IfOk result (λ at. AllPathsBelow (all_nodes (take at nodes.new.items)) path.now) }
    ensures above { IfOk result (λ at. AllAbove (all_nodes (drop (at + 1) nodes.new.items)) path.now) }
{
    let at = node_at(nodes, path);
    if pages_at(nodes, at).len() < FULL {
        return Ok(at);
    }
    split(alloc, nodes, at)?;
    Ok(node_at(nodes, path))
}

// Splits a node in halves if it is full.
fn split(alloc: Global, nodes: &mut Vec<Arc<Node>>, at: usize) -> Result<(), AllocError>
    ensures { all_nodes nodes.new.items ≡ all_nodes nodes.old.items }
{
    let pages = pages_at(nodes, at);
    if pages.len() < FULL {
        return Ok(());
    }
    let (low, high) = pages.split_at(pages.len() / 2);
    let low = Node::of(alloc, low)?;
    let high = Node::of(alloc, high)?;
    // The first half goes in front of the node, whose place the second takes.
    nodes.insert(at, low)?;
    nodes[at + 1] = high;
    Ok(())
}

// Puts a write in the node at a place, to which its path belongs, or behind the last node where
// there is none. An `Err` changes nothing.
fn put_at(
    alloc: Global,
    nodes: &mut Vec<Arc<Node>>,
    at: usize,
    write: Write,
) -> Result<(), AllocError>
    requires ascends { Ascends (all_nodes nodes.old.items) }
    requires below { AllPathsBelow (all_nodes (take at nodes.old.items)) write.0 }
    requires above { AllAbove (all_nodes (drop (at + 1) nodes.old.items)) write.0 }
    ensures ok { OnOk result (all_nodes nodes.new.items ≡ put path_cmp write.0 write.1 (all_nodes nodes.old.items)) }
    ensures err { OnErr result (all_nodes nodes.new.items ≡ all_nodes nodes.old.items) }
{
    if nodes.len() <= at {
        nodes.push(Node::of_write(alloc, write)?)?;
        return Ok(());
    }
    put_in(alloc, &mut nodes[at], write)
}

// Puts a write in a node: where others share it, in a copy of it, which shares the pages. An `Err`
// changes nothing.
fn put_in(alloc: Global, node: &mut Arc<Node>, write: Write) -> Result<(), AllocError>
    requires { Ascends (writes_below (arc_value node.old)) }
    ensures ok { OnOk result (writes_below (arc_value node.new) ≡ put path_cmp write.0 write.1 (writes_below (arc_value node.old))) }
    ensures err { OnErr result (writes_below (arc_value node.new) ≡ writes_below (arc_value node.old)) }
{
    Arc::make_mut(node)?.put(alloc, write)
}
