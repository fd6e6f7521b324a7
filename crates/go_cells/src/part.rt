//! Parts of arrays and structs.
ghost use Rattle.std.specs.Prelude.{◌≡◌, ◌∷◌, [], ◌*◌, ◌+ℤ◌, pos, true, ◌+◌, ◌<◌, ◌≤◌, MatchOption};
ghost use Rattle.go_code.specs.Lines.{number_fits};
ghost use Rattle.go_code.specs.Parts.{part, index_below, offset_of, with_row};
ghost use Rattle.go_code.specs.declared.instr.PartInstr.TheVariants.{Move, Index, Reach};
ghost use Rattle.go_cells.specs.Results.{operated_index, operated_offset};

use crate::operate::Operated;
use crate::slot::Slot;
use go_code::ending::PanicKind;

/// What an index leads to.
#[derive(Drop)]
pub enum Indexed {
    /// The element of this number.
    At(usize),
    /// None of them.
    Outside,
    /// It is no number.
    Senseless,
}

/// The element that an index leads to, of so many.
pub fn index_below(count: usize, index: &Slot) -> Indexed
    ensures { operated_index result ≡ index_below count index.now }
{
    let Some(index) = index.as_number() else {
        return Indexed::Senseless;
    };
    match usize::try_from(index) {
        Ok(index) if index < count => Indexed::At(index),
        _ => Indexed::Outside,
    }
}

/// An offset that is moved.
pub fn moved(offset: &Slot, by: usize) -> Operated
    ensures { operated_offset result ≡ part (Move by) (offset.now ∷ []) }
{
    let Some(offset) = offset.as_number() else {
        return Operated::Senseless;
    };
    match Slot::number(offset + by as i128) {
        Some(slot) => Operated::Gives(slot),
        None => Operated::Senseless,
    }
}

/// The offset of an element of a size, behind the first one's.
fn offset_of(first: i128, index: usize, size: usize) -> Operated
    requires { number_fits first ≡ true }
    ensures { operated_offset result ≡ offset_of (first +ℤ pos (index * size)) }
{
    let Some(behind) = i128::from(index as u64).checked_mul(i128::from(size as u64)) else {
        return Operated::Senseless;
    };
    let Some(offset) = first.checked_add(behind) else {
        return Operated::Senseless;
    };
    match Slot::number(offset) {
        Some(slot) => Operated::Gives(slot),
        None => Operated::Senseless,
    }
}

/// An offset and an index above it, as the offset of the element.
pub fn element_offset(count: usize, size: usize, offset: &Slot, index: &Slot) -> Operated
    ensures { operated_offset result ≡ part (Index count size) (offset.now ∷ index.now ∷ []) }
{
    let Some(first) = offset.as_number() else {
        return Operated::Senseless;
    };
    match index_below(count, index) {
        Indexed::At(index) => offset_of(first, index, size),
        Indexed::Outside => Operated::Panics(PanicKind::Index),
        Indexed::Senseless => Operated::Senseless,
    }
}

/// A slice and an index above it, as the offset of the element in the slice's row.
pub fn row_offset(size: usize, slice: &Slot, index: &Slot) -> Operated
    ensures { with_row (operated_offset result) slice.now ≡ part (Reach size) (slice.now ∷ index.now ∷ []) }
{
    let Some(part) = slice.as_slice() else {
        return Operated::Senseless;
    };
    match index_below(part.length as usize, index) {
        Indexed::At(index) => offset_of(0, part.start as usize + index, size),
        Indexed::Outside => Operated::Panics(PanicKind::Index),
        Indexed::Senseless => Operated::Senseless,
    }
}

/// How many cells so many elements of a size have with an index, if they are no more than so many.
pub fn picked_cells(count: usize, size: usize, most: usize) -> Option<usize>
    ensures { MatchOption result (most < count * size + 1) (λ whole. (whole ≡ count * size + 1) × (whole ≤ most)) }
{
    let cells = count.checked_mul(size)?;
    if cells < most { Some(cells + 1) } else { None }
}
