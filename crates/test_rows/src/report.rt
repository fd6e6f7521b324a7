//! What comes of rows.
use crate::answers::RowError;
use crate::table::Row;
use std::alloc::{AllocError, Global};

/// What came of a table so far.
#[derive(Drop)]
pub struct Report<'a> {
    alloc: Global,
    /// The words of the newest heading.
    heading: Option<&'a str>,
    /// How many rows below it agree.
    agreeing: usize,
    told: String,
}

impl<'a> Report<'a> {
    /// Nothing came of nothing.
    pub fn new(alloc: Global) -> Report<'a> {
        Report {
            alloc,
            heading: None,
            agreeing: 0,
            told: String::new(alloc),
        }
    }

    /// Rows of another heading follow.
    pub fn head(&mut self, words: &'a str) -> Result<(), AllocError> {
        self.end_heading()?;
        self.heading = Some(words);
        Ok(())
    }

    /// What a row asks was answered.
    pub fn answered(
        &mut self,
        row: &Row<'_>,
        answer: Result<String, RowError>,
    ) -> Result<(), AllocError> {
        match answer {
            Ok(got) if got == row.wanted => {
                self.agreeing = self.agreeing.saturating_add(1);
                Ok(())
            }
            Ok(got) => self.differing(row, &got),
            Err(RowError::NoRow) => self.other(&row.asked),
            Err(RowError::Memory) => Err(AllocError),
        }
    }

    /// Tells what the answer to a row is, and is not to be.
    fn differing(&mut self, row: &Row<'_>, got: &str) -> Result<(), AllocError> {
        let (asked, wanted) = (row.asked.as_str(), row.wanted.as_str());
        let told = format!(in self.alloc; "{asked}\nis {got}\nnot {wanted}\n")?;
        self.told.push_str(&told)
    }

    /// Tells what is no row.
    pub fn other(&mut self, text: &str) -> Result<(), AllocError> {
        let told = format!(in self.alloc; "no row: {text}\n")?;
        self.told.push_str(&told)
    }

    /// Ends the rows of the newest heading, if there is one.
    fn end_heading(&mut self) -> Result<(), AllocError> {
        let Some(words) = self.heading.take() else {
            return Ok(());
        };
        let told = format!(in self.alloc; "{} agree: {words}\n", self.agreeing)?;
        self.agreeing = 0;
        self.told.push_str(&told)
    }

    /// All that is told of the table.
    pub fn end(mut self) -> Result<String, AllocError> {
        self.end_heading()?;
        Ok(self.told)
    }
}
