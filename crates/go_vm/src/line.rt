//! What cells are printed as.
ghost use Rattle.std.specs.Prelude.{◌≡◌, ◌++◌, OnOk, codes};
ghost use Rattle.std.specs.List.{flat_map, join_by};
ghost use Rattle.go_code.specs.Lines.{cell_text, line_text};

use go_cells::slot::Slot;
use itoa::Buffer;
use std::alloc::AllocError;

/// A number in decimal, `true` or `false`, or a text as it is, comes behind the output.
#[inline]
fn push_cell(output: &mut Vec<u8>, cell: &Slot) -> Result<(), AllocError>
    ensures { OnOk result (output.new.items ≡ output.old.items ++ cell_text cell.now) }
{
    if let Some(number) = cell.as_number() {
        return output.extend_from_slice(Buffer::new().format(number).as_bytes());
    }
    if let Some(text) = cell.as_text() {
        return output.extend_from_slice(text.bytes());
    }
    match cell.as_truth() {
        Some(true) => output.extend_from_slice(b"true"),
        Some(false) => output.extend_from_slice(b"false"),
        None => Ok(()),
    }
}

/// Cells, with a space before each, come behind the output.
fn push_others(output: &mut Vec<u8>, others: &[Slot]) -> Result<(), AllocError>
    ensures { OnOk result (output.new.items ≡ output.old.items ++ flat_map (λ cell. codes " " ++ cell_text cell) others.now) }
{
    for cell in others {
        output.push(b' ')?;
        push_cell(output, cell)?;
    }
    Ok(())
}

/// Cells, with a space between each two, come behind the output.
fn push_operands(output: &mut Vec<u8>, cells: &[Slot]) -> Result<(), AllocError>
    ensures { OnOk result (output.new.items ≡ output.old.items ++ join_by cell_text (codes " ") cells.now) }
{
    let Some((first, others)) = cells.split_first() else {
        return Ok(());
    };
    push_cell(output, first)?;
    push_others(output, others)
}

/// A line comes behind the output: cells with a space between each two, and a newline. An `Err`
/// only where memory ran out.
pub(crate) fn push_line(output: &mut Vec<u8>, cells: &[Slot]) -> Result<(), AllocError>
    ensures { OnOk result (output.new.items ≡ output.old.items ++ line_text cells.now) }
{
    push_operands(output, cells)?;
    output.push(b'\n')?;
    Ok(())
}
