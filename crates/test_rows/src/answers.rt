//! What a program answers.
use crate::report::Report;
use crate::table::{Entry, entries};
use std::alloc::{AllocError, AllocFailed, Global};

/// Why a row has no answer.
#[derive(Debug, Drop)]
pub enum RowError {
    /// What it asks makes no sense.
    NoRow,
    /// Memory ran out.
    Memory,
}

impl From<AllocError> for RowError {
    fn from(_e: AllocError) -> RowError {
        RowError::Memory
    }
}

impl<T: Drop> From<AllocFailed<T>> for RowError {
    fn from(_e: AllocFailed<T>) -> RowError {
        RowError::Memory
    }
}

/// What answers the rows of a table and starts no thread.
pub trait Answers {
    /// Forgets what the rows so far did: a heading follows.
    fn begin(&mut self, alloc: Global);

    /// The answer to what a row below a heading of a kind asks.
    fn answer(&mut self, alloc: Global, kind: &str, asked: &str) -> Result<String, RowError>;
}

/// What comes of the rows of a table.
pub fn tell_table(
    alloc: Global,
    answers: &mut impl Answers,
    table: &str,
) -> Result<String, AllocError> {
    let mut report = Report::new(alloc);
    for entry in &entries(alloc, table)? {
        match entry {
            Entry::Heading(words) => {
                answers.begin(alloc);
                report.head(words)?;
            }
            Entry::Row(row) => {
                report.answered(row, answers.answer(alloc, row.kind, &row.asked))?;
            }
            Entry::Other(text) => report.other(text)?,
        }
    }
    report.end()
}
