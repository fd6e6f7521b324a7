//! How long rows may be.
ghost use Rattle.std.specs.Prelude.{◌≡◌, ◌≤◌, IfSome, MatchOption};
ghost use Rattle.go_code.specs.Operators.{Gives, Panics};
ghost use Rattle.go_code.specs.Rows.{has_room, grown, make_sizes};
ghost use Rattle.go_cells.specs.Results.{operated_sizes};

use crate::slot::Slot;
use go_code::ending::PanicKind;

/// Whether a row may have so many elements of so many cells each.
#[tactic(auto, unfolding(go_code::specs::Rows::most_room))]
pub fn has_room(size: usize, count: usize) -> bool
    ensures { result ≡ has_room size count }
{
    if count > 16_777_216 {
        return false;
    }
    match count.checked_mul(size) {
        Some(cells) => cells <= 16_777_216,
        None => false,
    }
}

/// The capacity of a new row for so many elements, in place of one with an old capacity, if it may
/// be so long. [Appending](https://go.dev/ref/spec#Appending_and_copying_slices)
pub fn grown(size: usize, count: usize, old: u32) -> Option<usize>
    ensures room { MatchOption result (grown size count old ≡ Panics PanicKind.Long) (λ room. grown size count old ≡ Gives room) }
    ensures enough { IfSome result (λ room. count ≤ room) }
{
    let double = old as usize + old as usize;
    let room = if has_room(size, double) && count <= double {
        double
    } else {
        count
    };
    if has_room(size, room) {
        Some(room)
    } else {
        None
    }
}

/// What a length and a capacity that are asked for come to.
#[derive(Drop)]
pub enum Sizes {
    /// They may be had.
    Given(usize, usize),
    /// They may not.
    Panics(PanicKind),
    /// They are no numbers.
    Senseless,
}

/// A length and a capacity that are asked for, of a row whose elements have so many cells.
/// [Making slices](https://go.dev/ref/spec#Making_slices_maps_and_channels)
pub fn asked(size: usize, length: &Slot, capacity: &Slot) -> Sizes
    ensures { operated_sizes result ≡ make_sizes size length.now capacity.now }
{
    let Some(length) = length.as_number() else {
        return Sizes::Senseless;
    };
    let Some(capacity) = capacity.as_number() else {
        return Sizes::Senseless;
    };
    let Ok(length) = usize::try_from(length) else {
        return Sizes::Panics(PanicKind::Make);
    };
    let Ok(capacity) = usize::try_from(capacity) else {
        return Sizes::Panics(PanicKind::Make);
    };
    if length > capacity {
        return Sizes::Panics(PanicKind::Make);
    }
    if has_room(size, capacity) {
        Sizes::Given(length, capacity)
    } else {
        Sizes::Panics(PanicKind::Long)
    }
}
