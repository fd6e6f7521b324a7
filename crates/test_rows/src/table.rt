//! What stands in a table.
use crate::line::{Line, line_of};
use std::alloc::{AllocError, Global};

/// What is asked below a heading of a kind, and what is wanted.
#[derive(Drop)]
pub struct Row<'a> {
    pub kind: &'a str,
    pub asked: String,
    pub wanted: String,
}

/// What stands in a table.
#[derive(Drop)]
pub enum Entry<'a> {
    /// The words of a heading.
    Heading(&'a str),
    /// A row.
    Row(Row<'a>),
    /// What is no row.
    Other(String),
}

/// A table that is read line by line.
#[derive(Drop)]
struct Reading<'a> {
    alloc: Global,
    /// The kind of the newest heading.
    kind: Option<&'a str>,
    /// The row that is being read.
    asked: Option<String>,
    wanted: Option<String>,
    entries: Vec<Entry<'a>>,
}

impl<'a> Reading<'a> {
    fn new(alloc: Global) -> Reading<'a> {
        Reading {
            alloc,
            kind: None,
            asked: None,
            wanted: None,
            entries: Vec::new(alloc),
        }
    }

    /// A line that is no part of the row before it ends that row.
    fn line(&mut self, line: &'a str) -> Result<(), AllocError> {
        match line_of(line) {
            Line::Asked(text) => self.ask(text),
            Line::Wanted(text) => push_line(self.alloc, &mut self.wanted, text),
            Line::Passed => self.end_row(),
            Line::Heading(kind, words) => self.head(kind, words),
            Line::Row(asked, wanted) => self.row(asked, wanted),
            Line::Other => self.other(line),
        }
    }

    /// The row that is being read asks one line more. Behind what is wanted another row begins.
    fn ask(&mut self, text: &str) -> Result<(), AllocError> {
        if self.wanted.is_some() {
            self.end_row()?;
        }
        push_line(self.alloc, &mut self.asked, text)
    }

    /// Ends the row that is being read, if one is.
    fn end_row(&mut self) -> Result<(), AllocError> {
        match (self.asked.take(), self.wanted.take()) {
            (None, None) => Ok(()),
            (Some(asked), Some(wanted)) => self.push_row(asked, wanted),
            (Some(text), None) | (None, Some(text)) => Ok(self.entries.push(Entry::Other(text))?),
        }
    }

    /// A row stands below a heading.
    fn push_row(&mut self, asked: String, wanted: String) -> Result<(), AllocError> {
        let entry = match self.kind {
            Some(kind) => Entry::Row(Row {
                kind,
                asked,
                wanted,
            }),
            None => Entry::Other(asked),
        };
        Ok(self.entries.push(entry)?)
    }

    fn head(&mut self, kind: &'a str, words: &'a str) -> Result<(), AllocError> {
        self.end_row()?;
        self.kind = Some(kind);
        Ok(self.entries.push(Entry::Heading(words))?)
    }

    fn row(&mut self, asked: &str, wanted: &str) -> Result<(), AllocError> {
        self.end_row()?;
        let asked = String::from_str(self.alloc, asked)?;
        let wanted = String::from_str(self.alloc, wanted)?;
        self.push_row(asked, wanted)
    }

    fn other(&mut self, line: &str) -> Result<(), AllocError> {
        self.end_row()?;
        let text = String::from_str(self.alloc, line)?;
        Ok(self.entries.push(Entry::Other(text))?)
    }
}

/// One line more comes to a text.
fn push_line(alloc: Global, text: &mut Option<String>, line: &str) -> Result<(), AllocError> {
    match text {
        None => {
            *text = Some(String::from_str(alloc, line)?);
            Ok(())
        }
        Some(text) => {
            text.push('\n')?;
            text.push_str(line)
        }
    }
}

/// What stands in a table, in its order.
pub fn entries(alloc: Global, table: &str) -> Result<Vec<Entry<'_>>, AllocError> {
    let mut reading = Reading::new(alloc);
    for line in table.lines() {
        reading.line(line)?;
    }
    reading.end_row()?;
    Ok(reading.entries)
}
