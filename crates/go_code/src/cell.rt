//! Cells: what a variable, a frame and a stack hold.
ghost use Rattle.std.specs.Prelude.{◌≡◌, ◌++◌, IfOk, OnOk};

use go_const::constant::Text;
use std::alloc::AllocError;

/// A value of a basic type, a slice, or a part of a value that has several.
#[derive(Drop)]
pub enum Cell {
    /// A whole number. The machine knows those from -2^63 to 2^64-1.
    Int(i128),
    /// A truth value.
    Bool(bool),
    /// A text.
    Text(Text),
    /// A slice.
    Slice {
        /// The row that it is a part of, by its number.
        row: usize,
        /// The element of the row that it starts with.
        start: usize,
        /// How many elements it has.
        length: usize,
        /// How many it has room for.
        capacity: usize,
    },
}

impl Cell {
    /// A cell of equal contents, which shares a text. An `Err` only where memory ran out.
    pub fn copy(&self) -> Result<Cell, AllocError>
        ensures { IfOk result (λ copy. copy ≡ self.now) }
    {
        match self {
            Cell::Int(number) => Ok(Cell::Int(*number)),
            Cell::Bool(truth) => Ok(Cell::Bool(*truth)),
            Cell::Text(text) => Ok(Cell::Text(text.copy()?)),
            Cell::Slice {
                row,
                start,
                length,
                capacity,
            } => Ok(Cell::Slice {
                row: *row,
                start: *start,
                length: *length,
                capacity: *capacity,
            }),
        }
    }
}

/// Copies of cells come behind others. An `Err` only where memory ran out.
pub fn push_copies(cells: &mut Vec<Cell>, others: &[Cell]) -> Result<(), AllocError>
    ensures { OnOk result (cells.new.items ≡ cells.old.items ++ others.now) }
{
    for cell in others {
        cells.push(cell.copy()?)?;
    }
    Ok(())
}
