//! How many cells values have. Numbers that are none, since they are too great, are answered as
//! want of memory: no memory has so many cells.
ghost use Rattle.std.specs.Prelude.{◌≡◌, ◌+◌, ◌*◌, ◌++◌, IfOk, map, OnOk};
ghost use Rattle.go_types.specs.Views.{go_type, fields_in};
ghost use Rattle.go_types.specs.Sizes as sizes;
ghost use Rattle.go_types.specs.Relations.{underlying};
ghost use Rattle.go_types.specs.Types.{struct};
ghost use Rattle.go_gen.specs.Translation.{AreOffsets, total, field_offset, element_cells, offset, slots};

use go_types::relations::underlying;
use go_types::types::{Field, GoType};
use std::alloc::{AllocError, Global};

/// The sum of two numbers.
pub(crate) fn sum(a: usize, b: usize) -> Result<usize, AllocError>
    ensures { IfOk result (λ n. n ≡ a + b) }
{
    a.checked_add(b).ok_or(AllocError)
}

/// What is left of a number.
pub(crate) fn difference(a: usize, b: usize) -> Result<usize, AllocError>
    ensures { IfOk result (λ n. n + b ≡ a) }
{
    a.checked_sub(b).ok_or(AllocError)
}

/// The product of two numbers.
pub(crate) fn product(a: usize, b: usize) -> Result<usize, AllocError>
    ensures { IfOk result (λ n. n ≡ a * b) }
{
    a.checked_mul(b).ok_or(AllocError)
}

/// How many cells a value of a type has.
pub(crate) fn cells(of: &GoType) -> Result<usize, AllocError>
    ensures { IfOk result (λ n. n ≡ sizes.cells (go_type of.now)) }
{
    match go_types::sizes::cells(of) {
        Ok(count) => Ok(count as usize),
        Err(_) => Err(AllocError),
    }
}

/// How many cells values of some types have.
pub(crate) fn total(types: &[GoType]) -> Result<usize, AllocError>
    ensures { IfOk result (λ n. n ≡ total (map go_type types.now)) }
{
    let mut count = 0;
    for of in types {
        count = sum(count, cells(of)?)?;
    }
    Ok(count)
}

/// The first cell of each variable, where variables of some types lie side by side, behind others.
pub(crate) fn push_slots(
    found: &mut Vec<usize>,
    first: usize,
    types: &[GoType],
) -> Result<usize, AllocError>
    ensures slots { OnOk result (found.new.items ≡ found.old.items ++ slots first (map go_type types.now)) }
    ensures total { IfOk result (λ n. n ≡ first + total (map go_type types.now)) }
{
    let mut at = first;
    for of in types {
        found.push(at)?;
        at = sum(at, cells(of)?)?;
    }
    Ok(at)
}

/// How many cells an element of an array or a slice has. Of another value none.
pub(crate) fn element_cells(of: &GoType) -> Result<usize, AllocError>
    ensures { IfOk result (λ n. n ≡ element_cells (underlying (go_type of.now))) }
{
    match underlying(of) {
        GoType::Array(_, element) => cells(&element.of),
        GoType::Slice(element) => cells(&element.of),
        _ => Ok(0),
    }
}

/// How many cells of a struct lie before a field.
fn field_offset(fields: &[Field], number: usize) -> Result<usize, AllocError>
    ensures { IfOk result (λ n. n ≡ field_offset (fields_in fields.now) number) }
{
    let mut before = 0;
    let mut left = number;
    for field in fields {
        if left == 0 {
            return Ok(before);
        }
        left -= 1;
        before = sum(before, cells(&field.of)?)?;
    }
    Ok(before)
}

/// How many cells of an array or a struct lie before the part of a number. Of another value none.
pub(crate) fn offset(of: &GoType, number: usize) -> Result<usize, AllocError>
    ensures { IfOk result (λ n. n ≡ offset (go_type of.now) number) }
{
    match of {
        GoType::Struct(fields) => field_offset(&fields.list, number),
        GoType::Array(_, element) => product(number, cells(&element.of)?),
        _ => Ok(0),
    }
}

/// How many cells of a struct lie before each field. Of another value no part is told.
pub(crate) fn offsets_of(alloc: Global, of: &GoType) -> Result<Vec<usize>, AllocError>
    ensures { IfOk result (λ offsets. AreOffsets (go_type of.now) offsets.items) }
{
    match of {
        GoType::Struct(fields) => field_offsets(alloc, &fields.list),
        _ => Ok(Vec::new(alloc)),
    }
}

/// How many cells of a struct lie before each of its fields.
fn field_offsets(alloc: Global, fields: &[Field]) -> Result<Vec<usize>, AllocError>
    ensures { IfOk result (λ offsets. AreOffsets (struct (fields_in fields.now)) offsets.items) }
{
    let mut offsets = Vec::new(alloc);
    let mut before = 0;
    for field in fields {
        offsets.push(before)?;
        before = sum(before, cells(&field.of)?)?;
    }
    Ok(offsets)
}

/// How many cells of an array or a struct lie before the part of a number, where those before some
/// are known. Of another value none.
pub(crate) fn offset_by(offsets: &[usize], of: &GoType, number: usize) -> Result<usize, AllocError>
    requires { AreOffsets (go_type of.now) offsets.now }
    ensures { IfOk result (λ n. n ≡ offset (go_type of.now) number) }
{
    match offsets.get(number) {
        Some(before) => Ok(*before),
        None => offset(of, number),
    }
}
