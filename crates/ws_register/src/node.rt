//! Nodes of pages.

ghost use Rattle.std.specs.Prelude.{◌≡◌, ◌<◌, List, [], ◌∷◌, length, IfOk, OnOk, OnErr};
ghost use Rattle.std.specs.Arc.{arc_value};
ghost use Rattle.std.specs.FinMap.{put};
ghost use Rattle.ws_version.specs.Writes.{Write as AWrite, path_cmp};
ghost use Rattle.ws_register.specs.Pages.{values, Ascends};
ghost use Rattle.ws_register.specs.Listed.{all_writes};

use crate::edit;
use crate::page::{Page, share};
use std::alloc::{AllocError, Global};
use std::sync::Arc;
use ws_version::Write;

/// How many pages a node has before it is split in halves.
pub const FULL: usize = 128;

/// An inner node, as of a B+ tree: some pages, one at least.
#[derive(Drop)]
pub struct Node {
    pages: Vec<Arc<Page>>,
    ghost some: { 0 < length pages.items },
}

impl Clone for Node {
    ghost is_clone = { λ node copy. values copy.pages.items ≡ values node.pages.items };

    // The pages are shared.
    fn clone(&self) -> Result<Node, AllocError> {
        let pages = self.pages.clone()?;
        Ok(Node { pages })
    }
}

impl Node {
    /// A node that shares these pages. An `Err` only where memory ran out.
    pub fn of(alloc: Global, pages: &[Arc<Page>]) -> Result<Arc<Node>, AllocError>
        requires { 0 < length pages.now }
        ensures { IfOk result (λ node. all_writes (arc_value node).pages.items ≡ all_writes pages.now) }
    {
        let mut shared = Vec::with_capacity(alloc, pages.len())?;
        share(&mut shared, pages)?;
        let node = Arc::new(alloc, Node { pages: shared })?;
        Ok(node)
    }

    /// A node of one page, which holds a write. An `Err` only where memory ran out.
    pub fn of_write(alloc: Global, write: Write) -> Result<Arc<Node>, AllocError>
        ensures { IfOk result (λ node. all_writes (arc_value node).pages.items ≡ write ∷ []) }
    {
        let mut pages = Vec::new(alloc);
        edit::put(alloc, &mut pages, write)?;
        let node = Arc::new(alloc, Node { pages })?;
        Ok(node)
    }

    /// Its pages, which others may share.
    pub fn pages(&self) -> &[Arc<Page>]
        ensures same { result.now ≡ self.now.pages.items }
        ensures some { 0 < length result.now }
    {
        self.pages.as_slice()
    }

    /// Its first write.
    pub fn first(&self) -> &Write
        ensures { (rest : List AWrite) × (all_writes self.now.pages.items ≡ result.now ∷ rest) }
    {
        self.pages[0].first()
    }

    /// Puts a write at its path, in the place of any that is there. An `Err`, for want of memory,
    /// changes nothing.
    pub fn put(&mut self, alloc: Global, write: Write) -> Result<(), AllocError>
        requires { Ascends (all_writes self.old.pages.items) }
        ensures ok { OnOk result (all_writes self.new.pages.items ≡ put path_cmp write.0 write.1 (all_writes self.old.pages.items)) }
        ensures err { OnErr result (all_writes self.new.pages.items ≡ all_writes self.old.pages.items) }
    {
        edit::put(alloc, &mut self.pages, write)
    }
}
