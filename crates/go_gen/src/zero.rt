//! The cells of zero values. [The zero value](https://go.dev/ref/spec#The_zero_value)
ghost use Rattle.std.specs.Prelude.{◌≡◌, ◌++◌, ◌∷◌, [], OnOk, replicate};
ghost use Rattle.go_code.specs.declared.cell.Cell.TheVariants.{Slice};
ghost use Rattle.go_types.specs.Views.{go_type, fields_in};
ghost use Rattle.go_meaning.specs.Values.{Value, flat, flat_all, pack_values, zero_cell as zero_of_basic, zero_of, zeros_of};

use crate::instr::{no_slice, zero_cell};
use crate::size::cells;
use go_code::cell::{Cell, push_copies};
use go_types::types::{Basic, Element, Field, GoType};
use std::alloc::{AllocError, Global};

/// The cells of a value so many times, behind others.
fn push_repeated(found: &mut Vec<Cell>, one: &[Cell], times: u32) -> Result<(), AllocError>
    ensures { OnOk result ((value : Value) → one.now ≡ flat value → found.new.items ≡ found.old.items ++ flat_all (pack_values (replicate times value))) }
{
    for _ in 0..times {
        push_copies(found, one)?;
    }
    Ok(())
}

/// The cell of a basic type's zero value, behind others. What is about one node alone stands in
/// calls of its own, so that each level of a type takes little of the stack.
#[inline(never)]
fn push_basic(alloc: Global, found: &mut Vec<Cell>, of: Basic) -> Result<(), AllocError>
    ensures { OnOk result (found.new.items ≡ found.old.items ++ zero_of_basic of ∷ []) }
{
    found.push(zero_cell(alloc, of)?)?;
    Ok(())
}

/// The cell of the slice without elements, behind others.
#[inline(never)]
fn push_no_slice(found: &mut Vec<Cell>) -> Result<(), AllocError>
    ensures { OnOk result (found.new.items ≡ found.old.items ++ Slice 0 0 0 0 ∷ []) }
{
    found.push(no_slice())?;
    Ok(())
}

/// The cells of a type's zero value, behind others. Those of an array's element are made once, so
/// that the walk takes as long as the type has nodes and cells.
#[cycle(cells)]
pub(crate) fn push_zero(alloc: Global, found: &mut Vec<Cell>, of: &GoType) -> Result<(), AllocError>
    ensures { OnOk result (found.new.items ≡ found.old.items ++ flat (zero_of (go_type of.now))) }
{
    match of {
        GoType::Basic(basic) => push_basic(alloc, found, *basic),
        GoType::Array(length, element) => {
            if *length == 0 {
                return Ok(());
            }
            if *length == 1 {
                return push_zero(alloc, found, &element.of);
            }
            push_elements(alloc, found, *length, element)
        }
        GoType::Slice(_) => push_no_slice(found),
        GoType::Struct(fields) => push_zeros(alloc, found, &fields.list),
        GoType::Named(named) => push_zero(alloc, found, &named.underlying),
    }
}

/// The cells of the zero values of some elements, behind others. It calls itself at most 16 deep,
/// since what has no cells isn't walked, and others are at least doubled.
#[cycle(cells)]
#[inline(never)]
fn push_elements(
    alloc: Global,
    found: &mut Vec<Cell>,
    length: u32,
    element: &Element,
) -> Result<(), AllocError>
    ensures { OnOk result (found.new.items ≡ found.old.items ++ flat_all (pack_values (replicate length (zero_of element.now)))) }
{
    if cells(&element.of)? == 0 {
        return Ok(());
    }
    let mut one = Vec::new(alloc);
    push_zero(alloc, &mut one, &element.of)?;
    push_repeated(found, &one, length)
}

/// The cells of the zero values of fields, behind others.
#[cycle(cells)]
fn push_zeros(alloc: Global, found: &mut Vec<Cell>, fields: &[Field]) -> Result<(), AllocError>
    ensures { OnOk result (found.new.items ≡ found.old.items ++ flat_all (zeros_of (fields_in fields.now))) }
{
    for field in fields {
        push_zero(alloc, found, &field.of)?;
    }
    Ok(())
}
