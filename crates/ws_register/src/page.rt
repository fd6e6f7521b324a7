//! Pages of writes.

ghost use Rattle.std.specs.Prelude.{◌≡◌, ◌<◌, ◌≤◌, List, [], ◌∷◌, ◌++◌, length, IfOk, OnOk};
ghost use Rattle.std.specs.Arc.{arc_value};
ghost use Rattle.ws_version.specs.Writes.{Write as AWrite};
ghost use Rattle.ws_register.specs.Tops.{top};
ghost use Rattle.ws_register.specs.Pages.{values, IsPage};

use std::alloc::{AllocError, Global};
use std::sync::Arc;
use ws_version::Write;

/// How many writes a page holds at most.
pub const FULL: usize = 64;

/// 1 to 64 writes, and the greatest counter among them.
#[derive(Drop)]
pub struct Page {
    writes: Vec<Arc<Write>>,
    greatest: u64,
    ghost page: { IsPage (values writes.items) greatest },
}

impl Page {
    /// A page that shares these writes. An `Err` only where memory ran out.
    pub fn of(alloc: Global, writes: &[Arc<Write>]) -> Result<Arc<Page>, AllocError>
        requires some { 0 < length writes.now }
        requires few { length writes.now ≤ 64 }
        ensures { IfOk result (λ page. values (arc_value page).writes.items ≡ values writes.now) }
    {
        let greatest = greatest_of(writes);
        let mut shared = Vec::with_capacity(alloc, writes.len())?;
        share(&mut shared, writes)?;
        let page = Page {
            writes: shared,
            greatest,
        };
        let page = Arc::new(alloc, page)?;
        Ok(page)
    }

    /// Its writes, which others may share.
    pub fn writes(&self) -> &[Arc<Write>]
        ensures same { result.now ≡ self.now.writes.items }
        ensures some { 0 < length result.now }
        ensures few { length result.now ≤ 64 }
    {
        self.writes.as_slice()
    }

    /// The greatest counter among its writes.
    pub fn greatest(&self) -> u64
        ensures { result ≡ top (values self.now.writes.items) }
    {
        self.greatest
    }

    /// Its first write.
    pub fn first(&self) -> &Write
        ensures { (rest : List AWrite) × (values self.now.writes.items ≡ result.now ∷ rest) }
    {
        &self.writes[0]
    }

    /// Its last write.
    pub fn last(&self) -> &Write
        ensures { (front : List AWrite) × (values self.now.writes.items ≡ front ++ result.now ∷ []) }
    {
        &self.writes[self.writes.len() - 1]
    }
}

fn greatest_of(writes: &[Arc<Write>]) -> u64
    ensures { result ≡ top (values writes.now) }
{
    let mut greatest = 0;
    for write in writes {
        greatest = write.held().counter().max(greatest);
    }
    greatest
}

/// Adds owners of the same values. After an `Err`, for want of memory, some may be added.
pub fn share<T: Drop>(shared: &mut Vec<Arc<T>>, owners: &[Arc<T>]) -> Result<(), AllocError>
    ensures { OnOk result (values shared.new.items ≡ values shared.old.items ++ values owners.now) }
{
    for owner in owners {
        shared.push(Arc::try_clone(owner)?)?;
    }
    Ok(())
}
