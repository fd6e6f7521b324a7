//! Walks over the writes of pages.

ghost use Rattle.std.specs.Prelude.{◌≡◌, ◌<◌, List, [], ◌∷◌, ◌++◌, length, true, false, MatchOption};
ghost use Rattle.std.specs.Arc.{arc_value};
ghost use Rattle.std.specs.Ordering.{is_lt};
ghost use Rattle.ws_version.specs.Writes.{Write as AWrite, path_cmp};
ghost use Rattle.ws_register.specs.Pages.{values, Ascends, AllPathsBelow, joined_writes};
ghost use Rattle.ws_register.specs.Listed.{writes_of};
ghost use Rattle.ws_register.specs.Nodes.{all_nodes};

use crate::leaves::Leaves;
use crate::news::is_known;
use crate::node::Node;
use crate::page::Page;
use crate::search::page_at;
use std::marker::Model;
use std::sync::Arc;
use ws_version::Write;

/// The writes that are left of a walk over pages, in their order.
#[derive(Drop)]
pub struct Rest<'a> {
    // of a page that the walk has begun
    writes: &'a [Arc<Write>],
    pages: Leaves<'a>,
}

impl<'a> Model for Rest<'a> {
    ghost use Rattle.std.specs.Prelude.{List, ◌++◌};
    ghost use Rattle.ws_version.specs.Writes as version;
    ghost use Rattle.ws_register.specs.Pages.{values};

    ghost Value = { List version.Write };

    ghost view = { λ a. values a.writes.now ++ a.pages };
}

impl<'a> Rest<'a> {
    /// All writes of some nodes.
    pub fn of(nodes: &'a [Arc<Node>]) -> Rest<'a>
        ensures { result ≡ all_nodes nodes.now }
    {
        Rest {
            writes: &[],
            pages: Leaves::of(&[], nodes),
        }
    }

    /// All writes of some nodes, without some whose paths are below that one.
    pub fn from(nodes: &'a [Arc<Node>], path: &str) -> Rest<'a>
        requires { Ascends (all_nodes nodes.now) }
        ensures { (front : List AWrite) × (all_nodes nodes.now ≡ front ++ result) × AllPathsBelow front path.now }
    {
        let Some((node, others)) = nodes.split_first() else {
            return Rest::of(nodes);
        };
        let pages = node.pages();
        let (_, pages) = pages.split_at(page_at(pages, path));
        Rest {
            writes: &[],
            pages: Leaves::of(pages, others),
        }
    }

    /// All writes of one page.
    pub fn of_page(page: &'a Page) -> Rest<'a>
        ensures { result ≡ writes_of page.now }
    {
        Rest {
            writes: page.writes(),
            pages: Leaves::of(&[], &[]),
        }
    }

    /// The first write that is left.
    pub fn first(&self) -> Option<&'a Write>
        ensures { MatchOption result (self.now ≡ []) (λ write. (rest : List AWrite) × (self.now ≡ write.now ∷ rest)) }
    {
        if let Some(write) = self.writes.first() {
            return Some(write);
        }
        let page = self.pages.first()?;
        Some(page.first())
    }

    /// Passes the first write.
    pub fn next(&mut self) -> Option<&'a Write>
        ensures { MatchOption result ((self.old ≡ []) × (self.new ≡ [])) (λ write. self.old ≡ write.now ∷ self.new) }
    {
        let write = self.next_shared()?;
        Some(write)
    }

    /// Passes the first write, which may be shared.
    pub fn next_shared(&mut self) -> Option<&'a Arc<Write>>
        ensures { MatchOption result ((self.old ≡ []) × (self.new ≡ [])) (λ write. self.old ≡ arc_value write.now ∷ self.new) }
    {
        if let Some((first, rest)) = self.writes.split_first() {
            self.writes = rest;
            return Some(first);
        }
        let (page, pages) = self.pages.split_first()?;
        let (first, rest) = page.writes().split_first()?;
        self.pages = pages;
        self.writes = rest;
        Some(first)
    }

    /// Passes the page that comes next, where none is begun.
    pub fn next_page(&mut self) -> Option<&'a Arc<Page>>
        ensures { MatchOption result (self.new ≡ self.old) (λ page. self.old ≡ writes_of (arc_value page.now) ++ self.new) }
    {
        if !self.writes.is_empty() {
            return None;
        }
        let (page, pages) = self.pages.split_first()?;
        self.pages = pages;
        Some(page)
    }

    /// Passes the page that comes next, where none is begun and all its paths are below one.
    pub fn next_page_below(&mut self, path: &str) -> Option<&'a Arc<Page>>
        requires { Ascends self.old }
        ensures { MatchOption result (self.new ≡ self.old) (λ page. (self.old ≡ writes_of page.now.value ++ self.new) × AllPathsBelow (writes_of page.now.value) path.now) }
    {
        if !self.writes.is_empty() {
            return None;
        }
        let (page, pages) = self.pages.split_first()?;
        if !ends_below(page, path) {
            return None;
        }
        self.pages = pages;
        Some(page)
    }

    /// Passes all that is below a path and comes first.
    pub fn pass_below(&mut self, path: &str)
        requires { Ascends self.old }
        ensures { (front : List AWrite) × (self.old ≡ front ++ self.new) × AllPathsBelow front path.now }
    {
        'passed: while self.skip_below(path) {}
    }

    // Passes the first page if all of it is below a path, or the first write if that is.
    fn skip_below(&mut self, path: &str) -> bool
        requires { Ascends self.old }
        ensures passed { (front : List AWrite) × (self.old ≡ front ++ self.new) × AllPathsBelow front path.now }
        ensures more { result ≡ true → length self.new < length self.old }
    {
        match self.next_page_below(path) {
            Some(_page) => true,
            None => self.skip_write_below(path),
        }
    }

    // Passes the first write if it is below a path.
    fn skip_write_below(&mut self, path: &str) -> bool
        ensures passed { (front : List AWrite) × (self.old ≡ front ++ self.new) × AllPathsBelow front path.now }
        ensures more { result ≡ true → length self.new < length self.old }
    {
        let Some(first) = self.first() else {
            return false;
        };
        if !is_below(first, path) {
            return false;
        }
        let Some(_write) = self.next() else {
            return false;
        };
        true
    }

    /// Passes the page that comes next, where no page is begun and it brings no news to the page
    /// of the others that comes next.
    pub fn skip_known(&mut self, others: &Rest<'_>) -> bool
        requires ascends { Ascends self.old }
        requires others { Ascends others.now }
        ensures joined { joined_writes others.now self.new ≡ joined_writes others.now self.old }
        ensures ascends { Ascends self.new }
        ensures skipped { result ≡ true → length self.new < length self.old }
        ensures same { result ≡ false → self.new ≡ self.old }
    {
        if !self.writes.is_empty() || !others.writes.is_empty() {
            return false;
        }
        let Some((page, pages)) = self.pages.split_first() else {
            return false;
        };
        let Some(other) = others.pages.first() else {
            return false;
        };
        if !is_known(page, other) {
            return false;
        }
        self.pages = pages;
        true
    }
}

fn ends_below(page: &Page, path: &str) -> bool
    ensures { result ≡ true → Ascends (writes_of page.now) → AllPathsBelow (writes_of page.now) path.now }
{
    is_below(page.last(), path)
}

fn is_below(write: &Write, path: &str) -> bool
    ensures { result ≡ is_lt (path_cmp write.now.0 path.now) }
{
    write.path() < path
}
