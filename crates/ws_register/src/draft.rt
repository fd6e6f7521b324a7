//! Pages that are written from the first path on.

ghost use Rattle.std.specs.Prelude.{◌≡◌, ◌<◌, ◌≤◌, [], ◌∷◌, ◌++◌, length, IfOk, OnOk};
ghost use Rattle.std.specs.Arc.{arc_value};
ghost use Rattle.ws_register.specs.Pages.{values};
ghost use Rattle.ws_register.specs.Listed.{writes_of, all_writes};

use crate::page::{FULL, Page};
use std::alloc::{AllocError, Global};
use std::marker::Model;
use std::sync::Arc;
use ws_version::Write;

// Pages with fewer writes are not worth a page of their own: they are joined with what follows.
const FEW: usize = 16;

/// Pages that are written from the first path on.
#[derive(Drop)]
pub struct Draft {
    alloc: Global,
    pages: Vec<Arc<Page>>,
    // what stands behind the pages, and is on none yet
    open: Vec<Arc<Write>>,
}

impl Model for Draft {
    ghost use Rattle.std.specs.Prelude.{List, ◌++◌, ◌≤◌, length};
    ghost use Rattle.ws_version.specs.Writes as version;
    ghost use Rattle.ws_register.specs.Pages.{values};
    ghost use Rattle.ws_register.specs.Listed.{all_writes};

    ghost Value = { List version.Write };

    ghost view = { λ a. all_writes a.pages.items ++ values a.open.items };

    ghost invariant = { λ a. length a.open.items ≤ 128 };
}

impl Draft {
    /// No writes.
    pub fn new(alloc: Global) -> Draft
        ensures { result ≡ [] }
    {
        Draft {
            alloc,
            pages: Vec::new(alloc),
            open: Vec::new(alloc),
        }
    }

    /// One more write, which is shared. An `Err` only where memory ran out.
    pub fn push(&mut self, write: &Arc<Write>) -> Result<(), AllocError>
        ensures { OnOk result (self.new ≡ self.old ++ arc_value write.now ∷ []) }
    {
        if self.open.len() >= 2 * FULL {
            close(self.alloc, &mut self.pages, &mut self.open)?;
        }
        self.open.push(Arc::try_clone(write)?)?;
        Ok(())
    }

    /// The writes of one more page: the page is shared, if it and what is open have writes enough
    /// to be pages. An `Err` only where memory ran out.
    pub fn push_page(&mut self, page: &Arc<Page>) -> Result<(), AllocError>
        ensures { OnOk result (self.new ≡ self.old ++ writes_of (arc_value page.now)) }
    {
        if self.is_full_enough() && page.writes().len() >= FEW {
            self.share(page)
        } else {
            push_all(self, page.writes())
        }
    }

    // Whether what is open is no page at all, or one with enough writes.
    fn is_full_enough(&self) -> bool {
        self.open.is_empty() || self.open.len() >= FEW
    }

    // The writes of one more page, which is shared.
    fn share(&mut self, page: &Arc<Page>) -> Result<(), AllocError>
        ensures { OnOk result (self.new ≡ self.old ++ writes_of (arc_value page.now)) }
    {
        close(self.alloc, &mut self.pages, &mut self.open)?;
        self.pages.push(Arc::try_clone(page)?)?;
        Ok(())
    }

    /// The pages, with what is open. An `Err` only where memory ran out.
    pub fn into_pages(self) -> Result<Vec<Arc<Page>>, AllocError>
        ensures { IfOk result (λ pages. all_writes pages.items ≡ self) }
    {
        let Draft { alloc, pages, open } = self;
        let mut pages = pages;
        let mut open = open;
        close(alloc, &mut pages, &mut open)?;
        Ok(pages)
    }
}

fn push_all(draft: &mut Draft, writes: &[Arc<Write>]) -> Result<(), AllocError>
    ensures { OnOk result (draft.new ≡ draft.old ++ values writes.now) }
{
    for write in writes {
        draft.push(write)?;
    }
    Ok(())
}

// Writes what is open on pages.
fn close(
    alloc: Global,
    pages: &mut Vec<Arc<Page>>,
    open: &mut Vec<Arc<Write>>,
) -> Result<(), AllocError>
    requires { length open.old.items ≤ 128 }
    ensures ok { OnOk result (all_writes pages.new.items ≡ all_writes pages.old.items ++ values open.old.items) }
    ensures closed { OnOk result (open.new.items ≡ []) }
    ensures few { length open.new.items ≤ 128 }
{
    if open.is_empty() {
        return Ok(());
    }
    add_pages(alloc, pages, open)?;
    open.clear();
    Ok(())
}

// Adds one page, or two halves where they are too many for one.
fn add_pages(
    alloc: Global,
    pages: &mut Vec<Arc<Page>>,
    writes: &[Arc<Write>],
) -> Result<(), AllocError>
    requires some { 0 < length writes.now }
    requires few { length writes.now ≤ 128 }
    ensures { OnOk result (all_writes pages.new.items ≡ all_writes pages.old.items ++ values writes.now) }
{
    if writes.len() <= FULL {
        pages.push(Page::of(alloc, writes)?)?;
        return Ok(());
    }
    let (low, high) = writes.split_at(writes.len() / 2);
    pages.push(Page::of(alloc, low)?)?;
    pages.push(Page::of(alloc, high)?)?;
    Ok(())
}
