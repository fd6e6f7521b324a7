//! The rows of jobs, and how many of these are open.
ghost use Rattle.std.specs.Prelude.{◌≡◌, ◌<◌, ◌+◌, ◌^◌, if◌then◌else◌, true, length, option_copied, slice_set};
ghost use Rattle.std.specs.List.{count_by, slice_get};
ghost use Rattle.ws_board.specs.Machine.{is_open};
ghost use Rattle.ws_board.specs.Table.{row_at, job_states_of, given_to, given_back};

use crate::work::{Identified, JobStatus};
use std::marker::Model;
use std::mem;

/// Where a job stands.
#[derive(Drop)]
pub(super) struct Row {
    pub(super) status: JobStatus,
    /// Its action, once it is formed.
    pub(super) action: Option<Identified>,
    /// How many of its imports, the first ones, may be open: those behind them are done or blocked.
    pub(super) left: usize,
    /// Whether it was ever given back.
    pub(super) was_back: bool,
    /// How many imports it has, and how many imports name it.
    pub(super) imports: usize,
    pub(super) importers: usize,
}

/// Rows, and of how many the jobs are neither done nor blocked.
#[derive(Drop)]
pub(super) struct Table {
    rows: Vec<Row>,
    opens: usize,
}

impl Model for Table {
    ghost use Rattle.std.specs.Prelude.{◌≡◌, List};
    ghost use Rattle.std.specs.Coded.{coded_list};
    ghost use Rattle.std.specs.List.{count_by};
    ghost use Rattle.ws_board.specs.declared.table.Row.{Row as ARow};
    ghost use Rattle.ws_board.specs.Machine.{is_open};
    ghost use Rattle.ws_board.specs.Table.{table_row_code, job_states_of};

    ghost Value = { List ARow };

    ghost coded = { coded_list table_row_code };

    ghost view = { λ a. a.rows.items };

    ghost invariant = { λ a. a.opens ≡ count_by is_open (job_states_of a.rows.items).statuses };
}

// What becomes of a count of open jobs, where one that was open or wasn't now is or isn't.
fn recounted(count: usize, was: bool, now: bool) -> usize
    requires some { was ≡ true → 0 < count }
    requires room { count + 1 < 2 ^ 64 }
    ensures { result + (if was then 1 else 0) ≡ count + (if now then 1 else 0) }
{
    let others = if was { count - 1 } else { count };
    if now { others + 1 } else { others }
}

impl Table {
    pub(super) fn new(rows: Vec<Row>) -> Table
        ensures { result ≡ rows.items }
    {
        let opens = rows.iter().filter(|row| row.status.is_open()).count();
        Table { rows, opens }
    }

    /// How many rows there are.
    pub(super) fn len(&self) -> usize
        ensures { result ≡ length self.now }
    {
        self.rows.len()
    }

    /// How many jobs are neither done nor blocked.
    pub(super) fn open(&self) -> usize
        ensures { result ≡ count_by is_open (job_states_of self.now).statuses }
    {
        self.opens
    }

    /// The row of a job, if there is one with that number.
    pub(super) fn get(&self, k: usize) -> Option<&Row>
        ensures { option_copied result ≡ slice_get self.now k }
    {
        self.rows.get(k)
    }

    // How many jobs are open, once this one stands so.
    fn open_with(&self, k: usize, status: JobStatus) -> usize
        requires { k < length self.now }
        ensures { result ≡ count_by is_open (slice_set (job_states_of self.now).statuses k status) }
    {
        recounted(self.opens, self.rows[k].status.is_open(), status.is_open())
    }

    /// Writes the row of a job, and returns what stood there.
    pub(super) fn put(&mut self, k: usize, row: Row) -> Row
        requires { k < length self.old }
        ensures rows { self.new ≡ slice_set self.old k row }
        ensures was { result ≡ row_at self.old k }
    {
        self.opens = self.open_with(k, row.status);
        mem::replace(&mut self.rows[k], row)
    }

    /// The job is run by the worker with that number.
    pub(super) fn run(&mut self, k: usize, hand: u64)
        requires { k < length self.old }
        ensures { self.new ≡ slice_set self.old k (given_to hand (row_at self.old k)) }
    {
        let status = JobStatus::Running(hand);
        self.opens = self.open_with(k, status);
        self.rows[k].status = status;
    }

    /// The job is ready again.
    pub(super) fn give_back(&mut self, k: usize)
        requires { k < length self.old }
        ensures { self.new ≡ slice_set self.old k (given_back (row_at self.old k)) }
    {
        self.opens = self.open_with(k, JobStatus::Ready);
        let row = &mut self.rows[k];
        row.status = JobStatus::Ready;
        row.was_back = true;
    }

    pub(super) fn into_rows(self) -> Vec<Row>
        ensures { result.items ≡ self }
    {
        self.rows
    }
}
