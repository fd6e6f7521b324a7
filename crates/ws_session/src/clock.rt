//! What was written at each replica of a session, as it is counted.

ghost use Rattle.std.specs.Prelude.{◌≡◌, map, IfOk, IfSome, OnOk};
ghost use Rattle.ws_version_vector.specs.Counts.{counts_at};
ghost use Rattle.ws_version_vector.specs.Keyed.{AreKeysBetween};
ghost use Rattle.ws_session.specs.Representation.{IsWrittenAt, none_written};

use crate::replicas::file_path_of;
use std::alloc::{AllocError, Global};
use ws_path::FilePath;
use ws_version_vector::{Key, Logs, News, Vectors};

/// How much each replica took of what was first written at each, and the paths of the last writes.
#[derive(Drop)]
pub struct WriteClock {
    pub(crate) counts: Vectors,
    pub(crate) logs: Logs,
}

impl WriteClock {
    /// Nothing was written.
    pub(crate) fn new(alloc: Global) -> WriteClock
        ensures { result ≡ none_written }
    {
        WriteClock {
            counts: Vectors::new(alloc),
            logs: Logs::new(alloc),
        }
    }

    /// A write to a path was first taken at a replica.
    pub(crate) fn raise(&mut self, at: usize, path: &[u8]) -> Result<(), AllocError>
        ensures { OnOk result (IsWrittenAt at path.now self.old self.new) }
    {
        let count = self.counts.own(at);
        self.logs.push(at, count, path)?;
        self.counts.raise(at)
    }

    /// The paths of what one replica took and another lacks, where each may have news, if these
    /// paths are known, and few. An `Err` is for want of memory.
    pub(crate) fn paths_of(
        &self,
        alloc: Global,
        mine: usize,
        theirs: usize,
        news: News,
    ) -> Result<Option<Vec<FilePath>>, AllocError>
        ensures { IfOk result (λ paths. IfSome paths (λ paths. AreKeysBetween self.now.logs (counts_at mine self.now.counts) (counts_at theirs self.now.counts) paths.items)) }
    {
        match news {
            News::Something => {
                self.paths_between(alloc, self.counts.at(mine), self.counts.at(theirs))
            }
            _ => Ok(None),
        }
    }

    /// The paths of what those with the second counts took and those with the first lack, if these
    /// paths are known, and few. An `Err` is for want of memory.
    pub(crate) fn paths_between(
        &self,
        alloc: Global,
        mine: &[u64],
        theirs: &[u64],
    ) -> Result<Option<Vec<FilePath>>, AllocError>
        ensures { IfOk result (λ paths. IfSome paths (λ paths. AreKeysBetween self.now.logs mine.now theirs.now paths.items)) }
    {
        let Some(keys) = self.logs.keys_between(mine, theirs)? else {
            return Ok(None);
        };
        paths_at(alloc, keys.as_slice())
    }
}

/// The paths that some keys are, if all of them are.
fn paths_at(alloc: Global, keys: &[&Key]) -> Result<Option<Vec<FilePath>>, AllocError>
    ensures { IfOk result (λ paths. IfSome paths (λ paths. paths.items ≡ map (λ key. key.now) keys.now)) }
{
    let mut paths = Vec::new(alloc);
    for key in keys {
        let Some(path) = file_path_of(alloc, key.bytes())? else {
            return Ok(None);
        };
        paths.push(path)?;
    }
    Ok(Some(paths))
}
