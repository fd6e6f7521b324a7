//! Rows of a board's jobs and of their imports, whose reads are counted until the board is built.
ghost use Rattle.std.specs.Prelude.{◌≡◌, false, option_copied, ◌+◌, ◌≤◌, ◌<◌, ◌^◌, ℕ, None, [], length, replicate, IfOk, IfSome, IfNone, OnOk, slice_set, ◌++◌, ◌∷◌};
ghost use Rattle.std.specs.List.{sum_by, count_by, slice_get, slice_index_or};
ghost use Rattle.ws_board.specs.Machine.{is_open};
ghost use Rattle.ws_board.specs.Ends.{job_imports_at, work_at};
ghost use Rattle.ws_board.specs.Rows.{waiting_row, AreKnown, AreFirstRows, Adds, AreImporters, import_count};
ghost use Rattle.ws_board.specs.Table.{row_at, job_states_of, given_to, given_back};

use crate::table::{Row, Table};
use crate::work::{Job, JobStatus, Work};
pub(super) use moves::Moves;
use std::alloc::{AllocError, Global};
use std::marker::Model;

mod moves;

/// Numbers of jobs.
#[derive(Drop)]
pub(super) struct Numbers {
    numbers: Vec<usize>,
}

impl Model for Numbers {
    ghost use Rattle.std.specs.Prelude.{ℕ, List};
    ghost use Rattle.std.specs.Coded.{coded_ℕ, coded_list};

    ghost Value = { List ℕ };

    ghost coded = { coded_list coded_ℕ };

    ghost view = { λ a. a.numbers.items };
}

impl Numbers {
    fn new(alloc: Global) -> Numbers
        ensures { result ≡ [] }
    {
        Numbers {
            numbers: Vec::new(alloc),
        }
    }

    fn push(&mut self, job: usize) -> Result<(), AllocError>
        ensures { OnOk result (self.new ≡ self.old ++ job ∷ []) }
    {
        self.numbers.push(job)?;
        Ok(())
    }

    fn as_slice(&self) -> &[usize]
        ensures { result.now ≡ self.now }
    {
        self.numbers.as_slice()
    }
}

/// The rows of jobs, in their order, of their imports, and of what imports them. To read one adds 1
/// to a count; to write one adds nothing.
#[derive(Drop)]
pub(super) struct Rows {
    jobs: Vec<Job>,
    importers: Vec<Numbers>,
    rows: Table,
}

/// What stands in the row of a job.
#[derive(Clone, Copy)]
pub(super) struct Found<'a> {
    pub(super) row: &'a Row,
    pub(super) work: Option<&'a Work>,
}

fn imports_of(jobs: &[Job], k: usize) -> &[usize]
    ensures { result.now ≡ job_imports_at jobs.now k }
{
    match jobs.get(k) {
        Some(job) => job.imports(),
        None => &[],
    }
}

fn list_at(lists: &[Numbers], k: usize) -> &[usize]
    ensures { result.now ≡ slice_index_or lists.now k [] }
{
    match lists.get(k) {
        Some(list) => list.as_slice(),
        None => &[],
    }
}

fn empty_lists(alloc: Global, count: usize) -> Result<Vec<Numbers>, AllocError>
    ensures { IfOk result (λ lists. lists.items ≡ replicate count []) }
{
    let mut lists = Vec::with_capacity(alloc, count)?;
    for _ in 0..count {
        lists.push(Numbers::new(alloc))?;
    }
    Ok(lists)
}

// The job joins the list of the one that it imports, if there is one with that number.
fn add_to(importers: &mut Vec<Numbers>, import: usize, job: usize) -> Result<(), AllocError>
    ensures { OnOk result (importers.new.items ≡ slice_set importers.old.items import (slice_index_or importers.old.items import [] ++ job ∷ [])) }
{
    if import < importers.len() {
        importers[import].push(job)?;
    }
    Ok(())
}

fn add_importer(
    importers: &mut Vec<Numbers>,
    imports: &[usize],
    job: usize,
) -> Result<(), AllocError>
    ensures { OnOk result (Adds importers.old.items importers.new.items imports.now job) }
{
    for import in imports {
        add_to(importers, *import, job)?;
    }
    Ok(())
}

/// For each job those that import it, as often as they do.
fn importers_of(alloc: Global, jobs: &[Job]) -> Result<Vec<Numbers>, AllocError>
    ensures { IfOk result (λ lists. AreImporters jobs.now (length jobs.now) lists.items) }
{
    let mut importers = empty_lists(alloc, jobs.len())?;
    for job in 0..jobs.len() {
        add_importer(&mut importers, imports_of(jobs, job), job)?;
    }
    Ok(importers)
}

/// How many imports all jobs have. An `Err` where so many can't be in memory.
fn count_imports(jobs: &[Job]) -> Result<usize, AllocError>
    ensures is { IfOk result (λ count. count ≡ import_count jobs.now) }
    ensures fits { OnOk result (import_count jobs.now < 2 ^ 64) }
{
    let mut count: usize = 0;
    for job in jobs {
        let Some(more) = count.checked_add(job.imports().len()) else {
            return Err(AllocError);
        };
        count = more;
    }
    Ok(count)
}

fn waiting_row(imports: usize, importers: usize) -> Row
    ensures { result ≡ waiting_row imports importers }
{
    Row {
        status: JobStatus::Waiting,
        action: None,
        left: imports,
        was_back: false,
        imports,
        importers,
    }
}

fn waiting_rows(alloc: Global, jobs: &[Job], importers: &[Numbers]) -> Result<Vec<Row>, AllocError>
    ensures { IfOk result (λ rows. AreFirstRows jobs.now importers.now (length jobs.now) rows.items) }
{
    let mut rows = Vec::with_capacity(alloc, jobs.len())?;
    for k in 0..jobs.len() {
        let imports = imports_of(jobs, k).len();
        let row = waiting_row(imports, list_at(importers, k).len());
        rows.push(row)?;
    }
    Ok(rows)
}

// One read more.
fn count_read(looks: &mut u128)
    requires { looks.old + 1 < 2 ^ 128 }
    ensures { looks.new ≡ looks.old + 1 }
{
    *looks += 1;
}

impl Rows {
    /// All jobs wait, and nothing is known of their imports. An `Err` only where memory ran out.
    pub(super) fn new(alloc: Global, jobs: Vec<Job>) -> Result<Rows, AllocError>
        ensures jobs { IfOk result (λ rows. rows.jobs.items ≡ jobs.items) }
        ensures known { IfOk result (λ rows. AreKnown rows) }
        ensures first { IfOk result (λ rows. AreFirstRows rows.jobs.items rows.importers.items (length rows.jobs.items) rows.rows) }
        ensures count { IfOk result (λ rows. sum_by (λ list. length list) rows.importers.items ≤ import_count jobs.items) }
    {
        count_imports(&jobs)?;
        let importers = importers_of(alloc, &jobs)?;
        let rows = waiting_rows(alloc, &jobs, &importers)?;
        Ok(Rows {
            jobs,
            importers,
            rows: Table::new(rows),
        })
    }

    /// How many jobs there are.
    pub(super) fn len(&self) -> usize
        ensures { result ≡ length self.now.rows }
    {
        self.rows.len()
    }

    /// Reads the row of a job, if there is one with that number.
    pub(super) fn job(&self, looks: &mut u128, k: usize) -> Option<Found<'_>>
        requires counted { looks.old + 1 < 2 ^ 128 }
        requires jobs { length self.now.rows ≡ length self.now.jobs.items }
        ensures row { IfSome result (λ found. (found.row.now ≡ row_at self.now.rows k) × (k < length self.now.rows)) }
        ensures work { IfSome result (λ found. option_copied found.work ≡ work_at self.now.jobs.items k) }
        ensures none { IfNone result (length self.now.rows ≤ k) }
        ensures one { looks.new ≡ looks.old + 1 }
    {
        count_read(looks);
        let row = self.rows.get(k)?;
        let job = self.jobs.get(k)?;
        Some(Found {
            row,
            work: job.work(),
        })
    }

    /// Reads the row of a job's import, if it has one with that number: the number of the job.
    pub(super) fn import(&self, looks: &mut u128, k: usize, number: usize) -> Option<usize>
        requires counted { looks.old + 1 < 2 ^ 128 }
        ensures is { result ≡ slice_get (job_imports_at self.now.jobs.items k) number }
        ensures one { looks.new ≡ looks.old + 1 }
    {
        count_read(looks);
        let import = imports_of(&self.jobs, k).get(number)?;
        Some(*import)
    }

    /// Reads the row of an import of a job, if there is one with that number: what imports it.
    pub(super) fn importer(&self, looks: &mut u128, k: usize, number: usize) -> Option<usize>
        requires counted { looks.old + 1 < 2 ^ 128 }
        ensures is { result ≡ slice_get (slice_index_or self.now.importers.items k []) number }
        ensures more { IfSome result (λ importer. number + 1 < 2 ^ 64) }
        ensures one { looks.new ≡ looks.old + 1 }
    {
        count_read(looks);
        let importer = list_at(&self.importers, k).get(number)?;
        Some(*importer)
    }

    /// How many jobs are neither done nor blocked, which is no read of a row.
    pub(super) fn open(&self) -> usize
        ensures { result ≡ count_by is_open (job_states_of self.now.rows).statuses }
    {
        self.rows.open()
    }

    // Writes the row of a job. Only `Moves` can call it, and keeps what stood there until that is put
    // back: nobody reads a row without a count.
    fn put(&mut self, k: usize, row: Row) -> Row
        requires { k < length self.old.rows }
        ensures rows { self.new.rows ≡ slice_set self.old.rows k row }
        ensures was { result ≡ row_at self.old.rows k }
        ensures jobs { self.new.jobs.items ≡ self.old.jobs.items }
        ensures importers { self.new.importers.items ≡ self.old.importers.items }
    {
        self.rows.put(k, row)
    }

    /// The job is run by the worker with that number.
    pub(super) fn run(&mut self, k: usize, hand: u64)
        requires { k < length self.old.rows }
        ensures rows { self.new.rows ≡ slice_set self.old.rows k (given_to hand (row_at self.old.rows k)) }
        ensures jobs { self.new.jobs.items ≡ self.old.jobs.items }
        ensures importers { self.new.importers.items ≡ self.old.importers.items }
    {
        self.rows.run(k, hand);
    }

    /// The job is ready again.
    pub(super) fn give_back(&mut self, k: usize)
        requires { k < length self.old.rows }
        ensures rows { self.new.rows ≡ slice_set self.old.rows k (given_back (row_at self.old.rows k)) }
        ensures jobs { self.new.jobs.items ≡ self.old.jobs.items }
        ensures importers { self.new.importers.items ≡ self.old.importers.items }
    {
        self.rows.give_back(k);
    }

    /// The jobs, and where they stand: no read is counted any more.
    pub(super) fn into_parts(self) -> (Vec<Job>, Vec<Row>)
        ensures { (result.0.items ≡ self.jobs.items) × (result.1.items ≡ self.rows) }
    {
        (self.jobs, self.rows.into_rows())
    }
}
