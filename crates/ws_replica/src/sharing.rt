//! What one replica takes of another, where it is known what is news.

ghost use Rattle.std.specs.Prelude.{IfOk, OnOk, OnErr, ◌≡◌};
ghost use Rattle.ws_replica.specs.Holdings.{HoldBoth, CacheHoldsBoth};

use std::alloc::AllocError;
use ws_cache::Cache;
use ws_register::Registers;
use ws_version::Join;
use ws_version_vector::News;

/// What two hold together. They are walked only where each may have news; else the pages of one
/// are shared. An `Err` is for want of memory.
pub(crate) fn registers_of(
    mine: &Registers,
    theirs: &Registers,
    news: News,
) -> Result<Registers, AllocError>
    ensures { IfOk result (HoldBoth news mine.now theirs.now) }
{
    match news {
        News::Nothing => mine.copy(),
        News::Everything => theirs.copy(),
        News::Something => {
            let mut both = mine.copy()?;
            both.merge(theirs)?;
            Ok(both)
        }
    }
}

/// Takes what another cache holds. They are walked only where each may have news; else one of them
/// is kept or shared. An `Err`, for want of memory, changes nothing.
pub(crate) fn merge_cache(mine: &mut Cache, theirs: &Cache, news: News) -> Result<(), AllocError>
    ensures stands { OnOk result (CacheHoldsBoth news mine.old theirs.now mine.new) }
    ensures err { OnErr result (mine.new ≡ mine.old) }
{
    match news {
        News::Nothing => Ok(()),
        News::Everything => {
            *mine = theirs.copy()?;
            Ok(())
        }
        // A copy of it would have it cloned.
        News::Something => mine.merge(theirs),
    }
}
