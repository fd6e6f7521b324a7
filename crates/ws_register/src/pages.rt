//! Writes in the order of their paths, on pages that copies share.

ghost use Rattle.std.specs.Prelude.{◌≡◌, List, [], ◌++◌, OnOk, OnErr, IfOk, option_copied};
ghost use Rattle.std.specs.Arc.{arc_value};
ghost use Rattle.std.specs.FinMap as map;
ghost use Rattle.std.specs.FinMap.{put};
ghost use Rattle.ws_map.specs.Kept.{joined, taken, is_news};
ghost use Rattle.ws_version.specs.Writes.{Write as AWrite, path_cmp, held_cmp, greater_held};
ghost use Rattle.ws_register.specs.Nodes.{all_nodes};
ghost use Rattle.ws_register.specs.Pages.{contents, AllPathsBelow, Ascends};

use crate::news::are_known;
use crate::node::Node;
use crate::rest::Rest;
use crate::{grow, merge, search};
use std::alloc::{AllocError, Global};
use std::marker::Model;
use std::sync::Arc;
use ws_map::Ranked;
use ws_version::{Held, Write};

/// The greatest write for each path, in the order of paths, on pages that copies share.
#[derive(Drop)]
pub struct Pages {
    alloc: Global,
    shared: Option<Arc<Vec<Arc<Node>>>>,
}

impl Model for Pages {
    ghost use Rattle.std.specs.FinMap as finite;
    ghost use Rattle.std.specs.Coded.{coded_ℕ, coded_list};
    ghost use Rattle.ws_version.specs.Writes.{Held as AHeld, held_code, path_cmp};
    ghost use Rattle.ws_register.specs.Pages.{contents, Ascends};
    ghost use Rattle.ws_register.specs.Nodes.{listed_writes};

    ghost Value = { finite.FinMap path_cmp AHeld };

    ghost coded = { finite.code (coded_list coded_ℕ) held_code };

    ghost view = { λ a. contents (listed_writes a.shared) };

    ghost invariant = { λ a. Ascends (listed_writes a.shared) };
}

impl Pages {
    /// Nothing at any path.
    pub fn new(alloc: Global) -> Pages
        ensures { result ≡ map.empty }
    {
        Pages {
            alloc,
            shared: None,
        }
    }

    // What is on these nodes. An `Err` only where memory ran out.
    fn of(alloc: Global, nodes: Vec<Arc<Node>>) -> Result<Pages, AllocError>
        requires { Ascends (all_nodes nodes.items) }
        ensures { IfOk result (λ pages. pages ≡ contents (all_nodes nodes.items)) }
    {
        let shared = Arc::new(alloc, nodes)?;
        Ok(Pages {
            alloc,
            shared: Some(shared),
        })
    }

    // The nodes, in order.
    fn list(&self) -> &[Arc<Node>]
        ensures held { contents (all_nodes result.now) ≡ self.now }
        ensures ascends { Ascends (all_nodes result.now) }
    {
        match &self.shared {
            None => &[],
            Some(nodes) => nodes,
        }
    }

    /// What is held at a path.
    pub fn get(&self, path: &str) -> Option<&Held>
        ensures { option_copied result ≡ map.get self.now path.now }
    {
        search::held_in(self.list(), path)
    }

    /// Takes a write: it is kept if it is above what is held at its path. An `Err`, for want of
    /// memory, changes nothing.
    pub fn take(&mut self, write: Write) -> Result<(), AllocError>
        ensures ok { OnOk result (self.new ≡ taken greater_held self.old write.0 write.1) }
        ensures err { OnErr result (self.new ≡ self.old) }
    {
        if !self.is_news(&write) {
            return Ok(());
        }
        self.put(write)
    }

    fn is_news(&self, write: &Write) -> bool
        ensures { result ≡ is_news held_cmp (map.get self.now write.now.0) write.now.1 }
    {
        match self.get(write.path()) {
            None => true,
            Some(held) => held.is_below(write.held()),
        }
    }

    // In the place of what was held at the path.
    fn put(&mut self, write: Write) -> Result<(), AllocError>
        ensures ok { OnOk result (self.new ≡ map.insert self.old write.0 write.1) }
        ensures err { OnErr result (self.new ≡ self.old) }
    {
        match &mut self.shared {
            Some(nodes) => put_shared(self.alloc, nodes, write),
            None => {
                self.shared = Some(first_shared(self.alloc, write)?);
                Ok(())
            }
        }
    }

    /// Another owner of the same pages, at no cost in their number. An `Err` only where memory ran
    /// out.
    pub fn copy(&self) -> Result<Pages, AllocError>
        ensures { IfOk result (λ copy. copy ≡ self.now) }
    {
        let shared = match &self.shared {
            None => None,
            Some(nodes) => Some(Arc::try_clone(nodes)?),
        };
        Ok(Pages {
            alloc: self.alloc,
            shared,
        })
    }

    /// Takes all that the other holds. An `Err`, for want of memory, changes nothing.
    pub fn merge(&mut self, other: &Pages) -> Result<(), AllocError>
        ensures ok { OnOk result (self.new ≡ joined greater_held self.old other.now) }
        ensures err { OnErr result (self.new ≡ self.old) }
    {
        if are_known(other.list(), self.list()) {
            return Ok(());
        }
        // What has all of ours is taken over as it is.
        if are_known(self.list(), other.list()) {
            *self = other.copy()?;
            return Ok(());
        }
        let nodes = merge::joined(self.alloc, self.list(), other.list())?;
        *self = Pages::of(self.alloc, nodes)?;
        Ok(())
    }

    /// The writes in the order of paths.
    pub fn iter(&self) -> Rest<'_>
        ensures { result ≡ map.entries self.now }
    {
        Rest::of(self.list())
    }

    /// The writes in the order of paths, without some whose paths are below that one.
    pub fn iter_from(&self, path: &str) -> Rest<'_>
        ensures { (front : List AWrite) × (map.entries self.now ≡ front ++ result) × AllPathsBelow front path.now }
    {
        let list = self.list();
        let at = search::node_at(list, path);
        let (_, nodes) = list.split_at(at);
        Rest::from(nodes, path)
    }
}

// A list of one node, which holds a write.
fn first_shared(alloc: Global, write: Write) -> Result<Arc<Vec<Arc<Node>>>, AllocError>
    ensures { IfOk result (λ nodes. all_nodes (arc_value nodes).items ≡ put path_cmp write.0 write.1 []) }
{
    let mut nodes = Arc::new(alloc, Vec::new(alloc))?;
    put_shared(alloc, &mut nodes, write)?;
    Ok(nodes)
}

// Puts a write on a list of one's own: where others share it, on a copy of the list, which shares
// the nodes. An `Err` changes nothing.
fn put_shared(
    alloc: Global,
    nodes: &mut Arc<Vec<Arc<Node>>>,
    write: Write,
) -> Result<(), AllocError>
    requires { Ascends (all_nodes (arc_value nodes.old).items) }
    ensures ok { OnOk result (all_nodes (arc_value nodes.new).items ≡ put path_cmp write.0 write.1 (all_nodes (arc_value nodes.old).items)) }
    ensures err { OnErr result (all_nodes (arc_value nodes.new).items ≡ all_nodes (arc_value nodes.old).items) }
{
    grow::put(alloc, Arc::make_mut(nodes)?, write)
}
