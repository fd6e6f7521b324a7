//! Walks over the pages of nodes.

ghost use Rattle.std.specs.Prelude.{◌≡◌, List, [], ◌++◌, MatchOption};
ghost use Rattle.std.specs.Arc.{arc_value};
ghost use Rattle.ws_version.specs.Writes.{Write as AWrite};
ghost use Rattle.ws_register.specs.Listed.{writes_of, all_writes};
ghost use Rattle.ws_register.specs.Nodes.{all_nodes};

use crate::node::Node;
use crate::page::Page;
use std::marker::Model;
use std::sync::Arc;

/// The pages that are left of a walk over nodes, in their order: their writes.
#[derive(Drop)]
pub struct Leaves<'a> {
    // of a node that the walk has begun: some, unless the walk is at its end
    pages: &'a [Arc<Page>],
    nodes: &'a [Arc<Node>],
}

impl<'a> Model for Leaves<'a> {
    ghost use Rattle.std.specs.Prelude.{◌≡◌, [], List, ◌++◌};
    ghost use Rattle.ws_version.specs.Writes as version;
    ghost use Rattle.ws_register.specs.Listed.{all_writes};
    ghost use Rattle.ws_register.specs.Nodes.{all_nodes};

    ghost Value = { List version.Write };

    ghost view = { λ a. all_writes a.pages.now ++ all_nodes a.nodes.now };

    ghost invariant = { λ a. a.pages.now ≡ [] → a.nodes.now ≡ [] };
}

impl<'a> Leaves<'a> {
    /// Some pages, and behind them those of some nodes.
    pub fn of(pages: &'a [Arc<Page>], nodes: &'a [Arc<Node>]) -> Leaves<'a>
        ensures { result ≡ all_writes pages.now ++ all_nodes nodes.now }
    {
        if !pages.is_empty() {
            return Leaves { pages, nodes };
        }
        match nodes.split_first() {
            None => Leaves { pages, nodes },
            Some((node, rest)) => Leaves {
                pages: node.pages(),
                nodes: rest,
            },
        }
    }

    /// The page that comes first.
    pub fn first(&self) -> Option<&'a Arc<Page>>
        ensures { MatchOption result (self.now ≡ []) (λ page. (rest : List AWrite) × (self.now ≡ writes_of (arc_value page.now) ++ rest)) }
    {
        self.pages.first()
    }

    /// The page that comes first, and the others.
    pub fn split_first(&self) -> Option<(&'a Arc<Page>, Leaves<'a>)>
        ensures { MatchOption result (self.now ≡ []) (λ cut. self.now ≡ writes_of (arc_value cut.0.now) ++ cut.1) }
    {
        match self.pages.split_first() {
            None => None,
            Some((page, pages)) => Some((page, Leaves::of(pages, self.nodes))),
        }
    }
}
