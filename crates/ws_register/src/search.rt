//! Where a path stands.

ghost use Rattle.std.specs.Prelude.{◌≡◌, ◌<◌, ◌≤◌, ◌+◌, ◌∷◌, ◌++◌, length, take, drop, slice_get, Some, IfOk, IfErr, option_copied};
ghost use Rattle.std.specs.Arc.{arc_value};
ghost use Rattle.std.specs.FinMap.{find, put};
ghost use Rattle.std.specs.List.Sorted.{IsSearchInRange};
ghost use Rattle.ws_version.specs.Writes.{Held as AHeld, path_cmp};
ghost use Rattle.ws_register.specs.Pages.{values, Ascends, AllPathsBelow, AllAbove};
ghost use Rattle.ws_register.specs.Listed.{writes_of, all_writes, all_with};
ghost use Rattle.ws_register.specs.Nodes.{writes_below, all_nodes};
ghost use Rattle.ws_register.specs.Search.{first_path};

use crate::node::Node;
use crate::page::Page;
use std::cmp::Ordering;
use std::sync::Arc;
use ws_version::{Held, Write};

/// Which of some writes is to a path, or before which one it would stand.
pub fn place(writes: &[Arc<Write>], path: &str) -> Result<usize, usize>
    requires { Ascends (values writes.now) }
    ensures within { IsSearchInRange result (length writes.now) }
    ensures found { IfOk result (λ at. (held : AHeld) × (slice_get (values writes.now) at ≡ Some (path.now, held))) }
    ensures below { IfErr result (λ at. AllPathsBelow (take at (values writes.now)) path.now) }
    ensures above { IfErr result (λ at. AllAbove (drop at (values writes.now)) path.now) }
{
    writes.binary_search_by(
        |write: &Arc<Write>| -> Ordering
            ensures { result ≡ path_cmp (arc_value write.now).0 path.entry.now }
        { write.path().cmp(path) },
    )
}

/// What some writes hold at a path.
pub fn held_at<'a>(writes: &'a [Arc<Write>], path: &str) -> Option<&'a Held>
    requires { Ascends (values writes.now) }
    ensures { option_copied result ≡ find path_cmp path.now (values writes.now) }
{
    match place(writes, path) {
        Ok(at) => Some(writes[at].held()),
        Err(_) => None,
    }
}

/// The writes on both sides of where a write to a path stands, or would stand.
pub fn around<'a>(writes: &'a [Arc<Write>], path: &str) -> (&'a [Arc<Write>], &'a [Arc<Write>])
    requires { Ascends (values writes.now) }
    ensures put { (held : AHeld) → put path_cmp path.now held (values writes.now) ≡ values result.0.now ++ (path.now, held) ∷ values result.1.now }
    ensures few { length result.0.now + length result.1.now ≤ length writes.now }
{
    match place(writes, path) {
        Ok(at) => (&writes[..at], &writes[at + 1..]),
        Err(at) => writes.split_at(at),
    }
}

/// The number of the page that a path belongs to: its first path is the last that isn't above it,
/// or it is the first page.
pub fn page_at(pages: &[Arc<Page>], path: &str) -> usize
    requires { Ascends (all_writes pages.now) }
    ensures within { result ≤ length pages.now }
    ensures below { AllPathsBelow (all_writes (take result pages.now)) path.now }
    ensures above { AllAbove (all_writes (drop (result + 1) pages.now)) path.now }
{
    let found = pages.binary_search_by(
        |page: &Arc<Page>| -> Ordering
            ensures { result ≡ path_cmp (first_path (writes_of (arc_value page.now))) path.entry.now }
        { page.first().path().cmp(path) },
    );
    match found {
        Ok(at) => at,
        Err(at) => at.saturating_sub(1),
    }
}

/// The writes of a page, and none where there is no page.
pub fn writes_at(pages: &[Arc<Page>], at: usize) -> &[Arc<Write>]
    ensures page { all_writes pages.now ≡ all_with writes_of pages.now at (values result.now) }
    ensures few { length result.now ≤ 64 }
    ensures none { length pages.now ≤ at → length result.now ≡ 0 }
{
    if at < pages.len() {
        pages[at].writes()
    } else {
        &[]
    }
}

/// What some pages hold at a path.
pub fn held_on<'a>(pages: &'a [Arc<Page>], path: &str) -> Option<&'a Held>
    requires { Ascends (all_writes pages.now) }
    ensures { option_copied result ≡ find path_cmp path.now (all_writes pages.now) }
{
    let at = page_at(pages, path);
    held_at(writes_at(pages, at), path)
}

/// The number of the node that a path belongs to: its first path is the last that isn't above it,
/// or it is the first node.
pub fn node_at(nodes: &[Arc<Node>], path: &str) -> usize
    requires { Ascends (all_nodes nodes.now) }
    ensures within { result ≤ length nodes.now }
    ensures below { AllPathsBelow (all_nodes (take result nodes.now)) path.now }
    ensures above { AllAbove (all_nodes (drop (result + 1) nodes.now)) path.now }
{
    let found = nodes.binary_search_by(
        |node: &Arc<Node>| -> Ordering
            ensures { result ≡ path_cmp (first_path (writes_below (arc_value node.now))) path.entry.now }
        { node.first().path().cmp(path) },
    );
    match found {
        Ok(at) => at,
        Err(next) => next.saturating_sub(1),
    }
}

/// The pages of a node, and none where there is no node.
pub fn pages_at(nodes: &[Arc<Node>], at: usize) -> &[Arc<Page>]
    ensures node { all_nodes nodes.now ≡ all_with writes_below nodes.now at (all_writes result.now) }
    ensures some { 0 < length result.now → at < length nodes.now }
{
    if at < nodes.len() {
        nodes[at].pages()
    } else {
        &[]
    }
}

/// What some nodes hold at a path.
pub fn held_in<'a>(nodes: &'a [Arc<Node>], path: &str) -> Option<&'a Held>
    requires { Ascends (all_nodes nodes.now) }
    ensures { option_copied result ≡ find path_cmp path.now (all_nodes nodes.now) }
{
    let at = node_at(nodes, path);
    held_on(pages_at(nodes, at), path)
}
