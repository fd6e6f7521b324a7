//! What operators give of slots.
ghost use Rattle.std.specs.Prelude.{◌≡◌, ◌∷◌, [], ◌+◌, ◌-◌, length, take, drop, true, Some, None, ◌<◌, ◌≤◌, IfOk, MatchOption};
ghost use Rattle.std.specs.Option.{option_copied};
ghost use Rattle.std.specs.Cmp.Lexicographic.{pointwise};
ghost use Rattle.go_code.specs.Lines.{number_fits};
ghost use Rattle.go_code.specs.Operators.{Gives as Given, bounded, byte_of, operands, operate, same_cell, most_bytes};
ghost use Rattle.go_code.specs.declared.operator.Operator.TheVariants.{Arithmetic, Shift, Negate, Complement, Convert, Not, Compare, Text as On_text, Slice as On_slice};
ghost use Rattle.go_code.specs.declared.operator.TextOperator.TheVariants.{At, Length, Join, Cut};
ghost use Rattle.go_code.specs.declared.operator.SliceOperator.TheVariants as slices;
ghost use Rattle.go_cells.specs.Slots.{number_in, is_valid_slice};
ghost use Rattle.go_cells.specs.Results.{operated_of};

use crate::number::{calculate, shift, wrap};
use crate::slot::{Slice, Slot};
use go_code::cell::Cell;
use go_code::ending::PanicKind;
use go_code::operator::{Operator, SliceOperator, TextOperator};
use go_const::constant::Text;
use go_const::kind::IntKind;
use go_const::operator::{ArithmeticOperator, ComparisonOperator, ShiftOperator};
use std::alloc::{AllocError, Global};

/// What comes of an operator.
#[derive(Drop)]
pub enum Operated {
    /// It gives this.
    Gives(Slot),
    /// It panics.
    Panics(PanicKind),
    /// It makes no sense of its operands.
    Senseless,
}

/// What an operator gives that gives a number.
fn number(number: i128) -> Operated
    requires { number_fits number ≡ true }
    ensures { operated_of result ≡ Given (Cell.Int number) }
{
    match Slot::number(number) {
        Some(slot) => Operated::Gives(slot),
        None => Operated::Senseless,
    }
}

/// An operator between two integers.
fn calculated(operator: ArithmeticOperator, kind: IntKind, x: &Slot, y: &Slot) -> Operated
    ensures { operated_of result ≡ operate (Arithmetic operator kind) (x.now ∷ y.now ∷ []) }
{
    let Some(x) = x.as_number() else {
        return Operated::Senseless;
    };
    let Some(y) = y.as_number() else {
        return Operated::Senseless;
    };
    if operator.divides() && y == 0 {
        return Operated::Panics(PanicKind::Divide);
    }
    number(calculate(operator, kind, x, y))
}

/// A shift of an integer.
fn shifted(operator: ShiftOperator, kind: IntKind, x: &Slot, count: &Slot) -> Operated
    ensures { operated_of result ≡ operate (Shift operator kind) (x.now ∷ count.now ∷ []) }
{
    let Some(x) = x.as_number() else {
        return Operated::Senseless;
    };
    let Some(count) = count.as_number() else {
        return Operated::Senseless;
    };
    match u64::try_from(count) {
        Ok(count) => number(shift(operator, kind, x, count)),
        Err(_) => Operated::Panics(PanicKind::Shift),
    }
}

/// Minus before an integer.
fn negated(kind: IntKind, x: &Slot) -> Operated
    ensures { operated_of result ≡ operate (Negate kind) (x.now ∷ []) }
{
    match x.as_number() {
        Some(x) => number(wrap(kind, -x)),
        None => Operated::Senseless,
    }
}

/// All bits of an integer flipped.
fn complemented(kind: IntKind, x: &Slot) -> Operated
    ensures { operated_of result ≡ operate (Complement kind) (x.now ∷ []) }
{
    match x.as_number() {
        Some(x) => number(wrap(kind, -1 - x)),
        None => Operated::Senseless,
    }
}

/// An integer as one of another type.
fn converted(kind: IntKind, x: &Slot) -> Operated
    ensures { operated_of result ≡ operate (Convert kind) (x.now ∷ []) }
{
    match x.as_number() {
        Some(x) => number(wrap(kind, x)),
        None => Operated::Senseless,
    }
}

/// The other truth value.
fn opposite(x: &Slot) -> Operated
    ensures { operated_of result ≡ operate Not (x.now ∷ []) }
{
    match x.as_truth() {
        Some(truth) => Operated::Gives(Slot::truth(!truth)),
        None => Operated::Senseless,
    }
}

/// A comparison of two texts.
fn compared_texts(operator: ComparisonOperator, s: &Slot, t: &Slot) -> Operated
    requires { number_in s.now ≡ None }
    ensures { operated_of result ≡ operate (Compare operator) (s.now ∷ t.now ∷ []) }
{
    let Some(s) = s.as_text() else {
        return Operated::Senseless;
    };
    let Some(t) = t.as_text() else {
        return Operated::Senseless;
    };
    Operated::Gives(Slot::truth(operator.holds(s.bytes().cmp(t.bytes()))))
}

/// A comparison of two integers or two texts.
fn compared(operator: ComparisonOperator, x: &Slot, y: &Slot) -> Operated
    ensures { operated_of result ≡ operate (Compare operator) (x.now ∷ y.now ∷ []) }
{
    let Some(first) = x.as_number() else {
        return compared_texts(operator, x, y);
    };
    let Some(second) = y.as_number() else {
        return Operated::Senseless;
    };
    Operated::Gives(Slot::truth(operator.holds(first.cmp(&second))))
}

/// A byte, if there is one, as what an index gives.
fn byte(byte: Option<&u8>) -> Operated
    ensures { operated_of result ≡ byte_of (option_copied byte.entry) }
{
    match byte {
        Some(byte) => number(i128::from(*byte)),
        None => Operated::Panics(PanicKind::Index),
    }
}

/// The byte of a text at an index.
fn byte_at(text: &Slot, index: &Slot) -> Operated
    ensures { operated_of result ≡ operate (On_text At) (text.now ∷ index.now ∷ []) }
{
    let Some(text) = text.as_text() else {
        return Operated::Senseless;
    };
    let Some(index) = index.as_number() else {
        return Operated::Senseless;
    };
    match u64::try_from(index) {
        Ok(index) => byte(text.bytes().get(index as usize)),
        Err(_) => Operated::Panics(PanicKind::Index),
    }
}

/// How many bytes a text has.
fn length(text: &Slot) -> Operated
    ensures { operated_of result ≡ operate (On_text Length) (text.now ∷ []) }
{
    match text.as_text() {
        Some(text) => number(text.bytes().len() as i128),
        None => Operated::Senseless,
    }
}

/// Two texts as one. An `Err` only where memory ran out.
#[tactic(auto, unfolding(go_code::specs::Operators::most_bytes))]
fn joined(alloc: Global, s: &Slot, t: &Slot) -> Result<Operated, AllocError>
    ensures { IfOk result (λ came. operated_of came ≡ operate (On_text Join) (s.now ∷ t.now ∷ [])) }
{
    let Some(s) = s.as_text() else {
        return Ok(Operated::Senseless);
    };
    let Some(t) = t.as_text() else {
        return Ok(Operated::Senseless);
    };
    let (s, t) = (s.bytes(), t.bytes());
    if s.len().saturating_add(t.len()) > 16_777_216 {
        return Ok(Operated::Panics(PanicKind::Long));
    }
    let mut bytes = Vec::with_capacity(alloc, s.len() + t.len())?;
    bytes.extend_from_slice(s)?;
    bytes.extend_from_slice(t)?;
    Ok(Operated::Gives(Slot::text(Text::from_vec(bytes)?)))
}

/// The bytes of a text from one bound to another. An `Err` only where memory ran out.
fn text_between(alloc: Global, text: &Text, low: i128, high: i128) -> Result<Operated, AllocError>
    ensures { IfOk result (λ came. operated_of came ≡ bounded (length text.now) low high (λ low high. Cell.Text (take (high - low) (drop low text.now)))) }
{
    let bytes = text.bytes();
    let Ok(low) = usize::try_from(low) else {
        return Ok(Operated::Panics(PanicKind::Slice));
    };
    let Ok(high) = usize::try_from(high) else {
        return Ok(Operated::Panics(PanicKind::Slice));
    };
    if low > high || high > bytes.len() {
        return Ok(Operated::Panics(PanicKind::Slice));
    }
    Ok(Operated::Gives(Slot::text(Text::new(alloc, &bytes[low..high])?)))
}

/// A part of a text, between two bounds. An `Err` only where memory ran out.
fn cut_text(alloc: Global, text: &Slot, low: &Slot, high: &Slot) -> Result<Operated, AllocError>
    ensures { IfOk result (λ came. operated_of came ≡ operate (On_text Cut) (text.now ∷ low.now ∷ high.now ∷ [])) }
{
    let Some(text) = text.as_text() else {
        return Ok(Operated::Senseless);
    };
    let Some(low) = low.as_number() else {
        return Ok(Operated::Senseless);
    };
    let Some(high) = high.as_number() else {
        return Ok(Operated::Senseless);
    };
    text_between(alloc, text, low, high)
}

/// The elements of a slice from one bound to another.
fn slice_between(slice: Slice, low: i128, high: i128) -> Operated
    requires { is_valid_slice slice ≡ true }
    ensures { operated_of result ≡ bounded slice.capacity low high (λ low high. Cell.Slice slice.row (slice.start + low) (high - low) (slice.capacity - low)) }
{
    let Ok(low) = u32::try_from(low) else {
        return Operated::Panics(PanicKind::Slice);
    };
    let Ok(high) = u32::try_from(high) else {
        return Operated::Panics(PanicKind::Slice);
    };
    if low > high || high > slice.capacity {
        return Operated::Panics(PanicKind::Slice);
    }
    let part = Slice {
        row: slice.row,
        start: slice.start + low,
        length: high - low,
        capacity: slice.capacity - low,
    };
    match Slot::slice(part) {
        Some(slot) => Operated::Gives(slot),
        None => Operated::Senseless,
    }
}

/// A part of a slice, between two bounds.
fn cut_slice(slice: &Slot, low: &Slot, high: &Slot) -> Operated
    ensures { operated_of result ≡ operate (On_slice slices.Cut) (slice.now ∷ low.now ∷ high.now ∷ []) }
{
    let Some(slice) = slice.as_slice() else {
        return Operated::Senseless;
    };
    let Some(low) = low.as_number() else {
        return Operated::Senseless;
    };
    let Some(high) = high.as_number() else {
        return Operated::Senseless;
    };
    slice_between(slice, low, high)
}

/// How many elements a slice has.
fn slice_length(slice: &Slot) -> Operated
    ensures { operated_of result ≡ operate (On_slice slices.Length) (slice.now ∷ []) }
{
    match slice.as_slice() {
        Some(slice) => number(i128::from(slice.length)),
        None => Operated::Senseless,
    }
}

/// How many elements a slice has room for.
fn capacity(slice: &Slot) -> Operated
    ensures { operated_of result ≡ operate (On_slice slices.Capacity) (slice.now ∷ []) }
{
    match slice.as_slice() {
        Some(slice) => number(i128::from(slice.capacity)),
        None => Operated::Senseless,
    }
}

/// What comes of an operator on a slice.
fn operate_slice(operator: SliceOperator, cells: &[Slot]) -> Operated
    requires { length cells.now ≡ operands (On_slice operator) }
    ensures { operated_of result ≡ operate (On_slice operator) cells.now }
{
    match operator {
        SliceOperator::Length => slice_length(&cells[0]),
        SliceOperator::Capacity => capacity(&cells[0]),
        SliceOperator::Cut => cut_slice(&cells[0], &cells[1], &cells[2]),
    }
}

/// Whether the cells of two rows of one length are equal.
fn are_same(xs: &[Slot], ys: &[Slot]) -> bool
    requires { length xs.now ≡ length ys.now }
    ensures { result ≡ pointwise same_cell xs.now ys.now }
{
    for i in 0..xs.len() {
        if !xs[i].is_same(&ys[i]) {
            return false;
        }
    }
    true
}

/// What comes of an operator on a text or texts.
fn operate_text(
    alloc: Global,
    operator: TextOperator,
    cells: &[Slot],
) -> Result<Operated, AllocError>
    requires { length cells.now ≡ operands (On_text operator) }
    ensures { IfOk result (λ came. operated_of came ≡ operate (On_text operator) cells.now) }
{
    match operator {
        TextOperator::At => Ok(byte_at(&cells[0], &cells[1])),
        TextOperator::Length => Ok(length(&cells[0])),
        TextOperator::Join => joined(alloc, &cells[0], &cells[1]),
        TextOperator::Cut => cut_text(alloc, &cells[0], &cells[1], &cells[2]),
    }
}

/// What comes of an operator and its cells. An `Err` only where memory ran out.
pub fn operate(alloc: Global, operator: Operator, cells: &[Slot]) -> Result<Operated, AllocError>
    requires { length cells.now ≡ operands operator }
    ensures { IfOk result (λ came. operated_of came ≡ operate operator cells.now) }
{
    match operator {
        Operator::Arithmetic(operator, kind) => {
            Ok(calculated(operator, kind, &cells[0], &cells[1]))
        }
        Operator::Shift(operator, kind) => Ok(shifted(operator, kind, &cells[0], &cells[1])),
        Operator::Negate(kind) => Ok(negated(kind, &cells[0])),
        Operator::Complement(kind) => Ok(complemented(kind, &cells[0])),
        Operator::Convert(kind) => Ok(converted(kind, &cells[0])),
        Operator::Not => Ok(opposite(&cells[0])),
        Operator::Compare(operator) => Ok(compared(operator, &cells[0], &cells[1])),
        Operator::Equal(count) => Ok(Operated::Gives(Slot::truth(are_same(
            &cells[..count],
            &cells[count..],
        )))),
        Operator::Text(operator) => operate_text(alloc, operator, cells),
        Operator::Slice(operator) => Ok(operate_slice(operator, cells)),
    }
}

/// How many cells an operator takes, if they are no more than so many.
#[inline(always)]
pub fn operand_count(operator: Operator, most: usize) -> Option<usize>
    ensures { MatchOption result (most < operands operator) (λ count. (count ≡ operands operator) × (count ≤ most)) }
{
    let count = match operator {
        Operator::Arithmetic(_, _) | Operator::Shift(_, _) | Operator::Compare(_) => 2,
        Operator::Equal(count) => count.checked_add(count)?,
        Operator::Text(TextOperator::At | TextOperator::Join) => 2,
        Operator::Text(TextOperator::Cut) | Operator::Slice(SliceOperator::Cut) => 3,
        _ => 1,
    };
    if count > most { None } else { Some(count) }
}
