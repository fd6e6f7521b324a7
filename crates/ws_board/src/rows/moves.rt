//! What carrying jobs on wrote, so that it can be put back.
ghost use Rattle.std.specs.Prelude.{◌≡◌, ◌<◌, [], length, OnOk, slice_set};
ghost use Rattle.ws_board.specs.Rows.{undone, AreWritten, IsUndone};

use crate::index::Ready;
use crate::rows::Rows;
use crate::table::Row;
use std::alloc::{AllocError, Global};

/// A job's row as it was.
#[derive(Drop)]
pub(super) struct Change {
    job: usize,
    was: Row,
}

/// What carrying jobs on came to so far: the rows that were written, as they were; the jobs that are
/// done or blocked and of which no importer was told; and those that became ready.
#[derive(Drop)]
pub(crate) struct Moves {
    log: Vec<Change>,
    pub(crate) settled: Vec<usize>,
    pub(crate) ready: Vec<Ready>,
}

impl Moves {
    pub(crate) fn new(alloc: Global) -> Moves
        ensures { (result.log.items ≡ []) × (result.settled.items ≡ []) × (result.ready.items ≡ []) }
    {
        Moves {
            log: Vec::new(alloc),
            settled: Vec::new(alloc),
            ready: Vec::new(alloc),
        }
    }

    /// The jobs that became ready.
    pub(crate) fn ready(&self) -> &[Ready]
        ensures { result.now ≡ self.now.ready.items }
    {
        self.ready.as_slice()
    }

    /// Puts all rows back that were written.
    pub(crate) fn undo(self, rows: &mut Rows)
        requires { AreWritten (length rows.old.rows) self.log.items }
        ensures rows { rows.new.rows ≡ undone self.log.items rows.old.rows }
        ensures jobs { rows.new.jobs.items ≡ rows.old.jobs.items }
        ensures importers { rows.new.importers.items ≡ rows.old.importers.items }
    {
        let mut log = self.log;
        'log: while let Some(change) = log.pop() {
            let Change { job, was } = change;
            rows.put(job, was);
        }
    }

    /// Writes a job's row, and keeps what stood there. An `Err`, for want of memory, changes nothing.
    pub(crate) fn write(&mut self, rows: &mut Rows, job: usize, row: Row) -> Result<(), AllocError>
        requires { job < length rows.old.rows }
        ensures rows { OnOk result (rows.new.rows ≡ slice_set rows.old.rows job row) }
        ensures undone { IsUndone rows.old rows.new self.old self.new }
        ensures settled { self.new.settled.items ≡ self.old.settled.items }
        ensures ready { self.new.ready.items ≡ self.old.ready.items }
    {
        self.log.reserve(1)?;
        let was = rows.put(job, row);
        self.log.push_reserved(Change { job, was });
        Ok(())
    }
}
