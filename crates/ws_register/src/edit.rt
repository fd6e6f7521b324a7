//! One more write on a list of pages.

ghost use Rattle.std.specs.Prelude.{◌≡◌, ◌<◌, ◌≤◌, ◌+◌, length, IfOk, OnOk, OnErr};
ghost use Rattle.std.specs.FinMap.{put};
ghost use Rattle.ws_version.specs.Writes.{path_cmp};
ghost use Rattle.ws_register.specs.Pages.{values, Ascends};
ghost use Rattle.ws_register.specs.Listed.{writes_of, all_writes, all_with};

use crate::page::{FULL, Page, share};
use crate::search::{around, page_at, writes_at};
use std::alloc::{AllocError, Global};
use std::sync::Arc;
use ws_version::Write;

/// Puts a write at its path, in the place of any that is there: the writes of one page alone are
/// copied, by sharing, and a page that is full is split in halves. An `Err`, for want of memory,
/// changes nothing.
pub fn put(alloc: Global, pages: &mut Vec<Arc<Page>>, write: Write) -> Result<(), AllocError>
    requires { Ascends (all_writes pages.old.items) }
    ensures ok { OnOk result (all_writes pages.new.items ≡ put path_cmp write.0 write.1 (all_writes pages.old.items)) }
    ensures err { OnErr result (pages.new.items ≡ pages.old.items) }
{
    let at = page_at(pages, write.path());
    let writes = with_write(alloc, writes_at(pages, at), write)?;
    replace(alloc, pages, at, &writes)
}

// The writes with one more, or another in the place of the one at its path.
fn with_write(
    alloc: Global,
    writes: &[Arc<Write>],
    write: Write,
) -> Result<Vec<Arc<Write>>, AllocError>
    requires ascends { Ascends (values writes.now) }
    requires few { length writes.now ≤ 64 }
    ensures all { IfOk result (λ all. values all.items ≡ put path_cmp write.0 write.1 (values writes.now)) }
    ensures some { IfOk result (λ all. 0 < length all.items) }
    ensures few { IfOk result (λ all. length all.items ≤ length writes.now + 1) }
{
    let (front, back) = around(writes, write.path());
    let mut all = Vec::with_capacity(alloc, writes.len() + 1)?;
    share(&mut all, front)?;
    all.push(Arc::new(alloc, write)?)?;
    share(&mut all, back)?;
    Ok(all)
}

// Puts writes in the place of a page, or behind the last page where there is none. An `Err`
// changes nothing.
fn replace(
    alloc: Global,
    pages: &mut Vec<Arc<Page>>,
    at: usize,
    writes: &[Arc<Write>],
) -> Result<(), AllocError>
    requires some { 0 < length writes.now }
    requires few { length writes.now ≤ 128 }
    requires alone { length pages.old.items ≤ at → length writes.now ≤ 64 }
    ensures ok { OnOk result (all_writes pages.new.items ≡ all_with writes_of pages.old.items at (values writes.now)) }
    ensures err { OnErr result (pages.new.items ≡ pages.old.items) }
{
    if pages.len() <= at {
        pages.push(Page::of(alloc, writes)?)?;
        return Ok(());
    }
    if FULL < writes.len() {
        return split(alloc, pages, at, writes);
    }
    pages[at] = Page::of(alloc, writes)?;
    Ok(())
}

// Puts writes in the place of a page, in two halves. An `Err` changes nothing.
fn split(
    alloc: Global,
    pages: &mut Vec<Arc<Page>>,
    at: usize,
    writes: &[Arc<Write>],
) -> Result<(), AllocError>
    requires within { at < length pages.old.items }
    requires many { 64 < length writes.now }
    requires few { length writes.now ≤ 128 }
    ensures ok { OnOk result (all_writes pages.new.items ≡ all_with writes_of pages.old.items at (values writes.now)) }
    ensures err { OnErr result (pages.new.items ≡ pages.old.items) }
{
    let (low, high) = writes.split_at(writes.len() / 2);
    let low = Page::of(alloc, low)?;
    let high = Page::of(alloc, high)?;
    // The first half goes in front of the page, whose place the second takes.
    pages.insert(at, low)?;
    pages[at + 1] = high;
    Ok(())
}
