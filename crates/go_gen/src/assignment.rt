//! Variables that get values.
ghost use Rattle.std.specs.Prelude.{◌≡◌, ◌+◌, [], ◌++◌, IfOk, OnOk, map, length};
ghost use Rattle.go_types.specs.Relations.{underlying};
ghost use Rattle.go_types.specs.Views.{go_type, fields_in};
ghost use Rattle.go_typed.specs.Trees as trees;
ghost use Rattle.go_typed.specs.Views.{as_expr, steps_in, left_of, as_source};
ghost use Rattle.go_meaning.specs.Choices as choices;
ghost use Rattle.go_gen.specs.Translation.{steps_temps, operands_code, or_type, elements_count, steps_code, address_code, array_access_code, left_temps, left_operands, take_code, give_code, lefts_temps, lefts_operands, value_temps, values_temps, keep_code, keeps_code, gives_code, define_code, defines_code, stmt_code};
ghost use Rattle.go_gen.specs.Views.{places_of};

use crate::code::Code;
use crate::expression::emit_expr;
use crate::instr::{load, store};
use crate::layout::Layout;
use crate::operator::put_binary;
use crate::size::{cells, difference, element_cells, offset, sum};
use crate::source::{emit_source, source_counts, source_temps};
use crate::temps::expr_temps;
use go_code::cell::Cell;
use go_code::instr::{AccessInstr, FrameInstr, Instr, PartInstr, RowInstr};
use go_symbol::Symbol;
use go_typed::expression::{Operator, TypedExpr};
use go_typed::statement::{TypedLeft, TypedSource, TypedStep};
use go_types::relations::underlying;
use go_types::types::{Field, GoType};
use std::alloc::{AllocError, Global};

/// How many cells the temporaries of the index operands of some steps take.
fn steps_temps(steps: &[TypedStep]) -> Result<usize, AllocError>
    ensures { IfOk result (λ n. n ≡ steps_temps (steps_in steps.now)) }
{
    let mut count = 0;
    for step in steps {
        match step {
            TypedStep::Field(_) => {}
            TypedStep::Element(e) => count = sum(sum(count, expr_temps(e)?)?, 1)?,
        }
    }
    Ok(count)
}

/// The index operands of some steps into their temporaries.
fn emit_operands(
    alloc: Global,
    code: &mut Code,
    layout: &Layout<'_>,
    k: usize,
    steps: &[TypedStep],
) -> Result<(), AllocError>
    ensures { OnOk result (code.new ≡ operands_code (places_of layout.now) k (steps_in steps.now) ++ code.old) }
{
    match steps {
        [] => Ok(()),
        [TypedStep::Field(_), rest @ ..] => emit_operands(alloc, code, layout, k, rest),
        [TypedStep::Element(e), rest @ ..] => {
            let temp = sum(k, expr_temps(e)?)?;
            emit_operands(alloc, code, layout, sum(temp, 1)?, rest)?;
            code.put(store(temp, 1))?;
            emit_expr(alloc, code, layout, k, e)
        }
    }
}

/// The type of the field of a number; the other type where there is none.
fn field_at<'a>(fields: &'a [Field], number: usize, other: &'a GoType) -> &'a GoType
    ensures { go_type result.now ≡ or_type (go_type other.now) (choices.field_at (fields_in fields.now) number) }
{
    if number < fields.len() {
        &fields[number].of
    } else {
        other
    }
}

/// The type of the field of a number; the type itself where there is none.
fn field_type(of: &GoType, number: usize) -> &GoType
    ensures { go_type result.now ≡ or_type (go_type of.now) (choices.field_type (underlying (go_type of.now)) number) }
{
    match underlying(of) {
        GoType::Struct(fields) => field_at(&fields.list, number, of),
        _ => of,
    }
}

/// How many elements values of a type have, and the type of these; 0 where it is no array, and the
/// type itself where it has no elements.
pub(crate) fn element_type(of: &GoType) -> (usize, &GoType)
    ensures count { result.0 ≡ elements_count (underlying (go_type of.now)) }
    ensures of { go_type result.1.now ≡ or_type (go_type of.now) (choices.element_type (underlying (go_type of.now))) }
{
    match underlying(of) {
        GoType::Array(length, element) => (*length as usize, &element.of),
        GoType::Slice(element) => (0, &element.of),
        _ => (0, of),
    }
}

/// From an offset to that of the part, outermost first.
fn emit_steps(code: &mut Code, steps: &[TypedStep], of: &GoType, k: usize) -> Result<(), AllocError>
    ensures { OnOk result (code.new ≡ steps_code (go_type of.now) k (steps_in steps.now) ++ code.old) }
{
    match steps {
        [] => Ok(()),
        [TypedStep::Field(number), rest @ ..] => {
            emit_steps(code, rest, field_type(of, *number), k)?;
            code.put(Instr::Part(PartInstr::Move(offset(underlying(of), *number)?)))
        }
        [TypedStep::Element(e), rest @ ..] => {
            let temp = sum(k, expr_temps(e)?)?;
            let (count, element) = element_type(of);
            let size = cells(element)?;
            emit_steps(code, rest, element, sum(temp, 1)?)?;
            code.put(Instr::Part(PartInstr::Index { count, size }))?;
            code.put(load(temp, 1))
        }
    }
}

/// The offset of the part that steps lead to.
fn emit_address(
    code: &mut Code,
    of: &GoType,
    k: usize,
    steps: &[TypedStep],
) -> Result<(), AllocError>
    ensures { OnOk result (code.new ≡ address_code (go_type of.now) k (steps_in steps.now) ++ code.old) }
{
    emit_steps(code, steps, of, k)?;
    code.put(Instr::Frame(FrameInstr::Push(Cell::Int(0))))
}

/// From a slice, which lies in a temporary, to the offset of a part in its row.
fn emit_row(
    code: &mut Code,
    of: &GoType,
    temp: usize,
    k: usize,
    steps: &[TypedStep],
) -> Result<(), AllocError>
    ensures { OnOk result (code.new ≡ array_access_code (go_type of.now) temp k (steps_in steps.now) ++ code.old) }
{
    match steps {
        [TypedStep::Element(e), rest @ ..] => {
            let index = sum(k, expr_temps(e)?)?;
            let (_, element) = element_type(of);
            let size = element_cells(of)?;
            emit_steps(code, rest, element, sum(index, 1)?)?;
            code.put(Instr::Part(PartInstr::Reach(size)))?;
            code.put(load(index, 1))?;
            code.put(load(temp, 1))
        }
        _ => Ok(()),
    }
}

/// A slice into its temporary, and then the index operands of steps in it.
fn emit_slice_operands(
    alloc: Global,
    code: &mut Code,
    layout: &Layout<'_>,
    k: usize,
    e: &TypedExpr,
    steps: &[TypedStep],
    of: &GoType,
) -> Result<(), AllocError>
    ensures { OnOk result (code.new ≡ left_operands (places_of layout.now) k (trees.of_slice (go_type of.now) (as_expr e.now) (steps_in steps.now)) ++ code.old) }
{
    let _of = of;
    let temp = sum(k, expr_temps(e)?)?;
    emit_operands(alloc, code, layout, sum(temp, 1)?, steps)?;
    code.put(store(temp, 1))?;
    emit_expr(alloc, code, layout, k, e)
}

/// How many cells the temporaries of a left side's index operands take.
pub(crate) fn left_temps(left: &TypedLeft) -> Result<usize, AllocError>
    ensures { IfOk result (λ n. n ≡ left_temps (left_of left.now)) }
{
    match left {
        TypedLeft::Blank => Ok(0),
        TypedLeft::Local(_, _, steps) => steps_temps(steps),
        TypedLeft::Global(_, _, steps) => steps_temps(steps),
        TypedLeft::Slice(_, e, steps) => sum(sum(expr_temps(e)?, 1)?, steps_temps(steps)?),
    }
}

/// The index operands of a left side into their temporaries.
fn emit_left_operands(
    alloc: Global,
    code: &mut Code,
    layout: &Layout<'_>,
    k: usize,
    left: &TypedLeft,
) -> Result<(), AllocError>
    ensures { OnOk result (code.new ≡ left_operands (places_of layout.now) k (left_of left.now) ++ code.old) }
{
    match left {
        TypedLeft::Blank => Ok(()),
        TypedLeft::Local(_, _, steps) => emit_operands(alloc, code, layout, k, steps),
        TypedLeft::Global(_, _, steps) => emit_operands(alloc, code, layout, k, steps),
        TypedLeft::Slice(of, e, steps) => {
            emit_slice_operands(alloc, code, layout, k, e, steps, of)
        }
    }
}

/// So many cells of the part that a left side names.
fn emit_take(
    code: &mut Code,
    layout: &Layout<'_>,
    k: usize,
    left: &TypedLeft,
    count: usize,
) -> Result<(), AllocError>
    ensures { OnOk result (code.new ≡ take_code (places_of layout.now) k (left_of left.now) count ++ code.old) }
{
    match left {
        TypedLeft::Blank => Ok(()),
        TypedLeft::Local(of, number, steps) => {
            let first = layout.local(*number);
            code.put(Instr::Local(AccessInstr::LoadAt { first, count }))?;
            emit_address(code, of, k, steps)
        }
        TypedLeft::Global(of, symbol, steps) => {
            let first = symbol.copy()?;
            code.put(Instr::Global(AccessInstr::LoadAt { first, count }))?;
            emit_address(code, of, k, steps)
        }
        TypedLeft::Slice(of, e, steps) => {
            let slice = sum(k, expr_temps(e)?)?;
            code.put(Instr::Row(RowInstr::GetAt(count)))?;
            emit_row(code, of, slice, sum(slice, 1)?, steps)
        }
    }
}

/// So many cells, which lie in a temporary, into the part that a left side names.
fn emit_give(
    code: &mut Code,
    layout: &Layout<'_>,
    k: usize,
    left: &TypedLeft,
    temp: usize,
    count: usize,
) -> Result<(), AllocError>
    ensures { OnOk result (code.new ≡ give_code (places_of layout.now) k (left_of left.now) temp count ++ code.old) }
{
    match left {
        TypedLeft::Blank => Ok(()),
        TypedLeft::Local(of, number, steps) => {
            let first = layout.local(*number);
            code.put(Instr::Local(AccessInstr::StoreAt { first, count }))?;
            emit_address(code, of, k, steps)?;
            code.put(load(temp, count))
        }
        TypedLeft::Global(of, symbol, steps) => {
            let first = symbol.copy()?;
            code.put(Instr::Global(AccessInstr::StoreAt { first, count }))?;
            emit_address(code, of, k, steps)?;
            code.put(load(temp, count))
        }
        TypedLeft::Slice(of, e, steps) => {
            let slice = sum(k, expr_temps(e)?)?;
            code.put(Instr::Row(RowInstr::SetAt(count)))?;
            emit_row(code, of, slice, sum(slice, 1)?, steps)?;
            code.put(load(temp, count))
        }
    }
}

/// How many cells the temporaries of the index operands of left sides take.
pub(crate) fn lefts_temps(lefts: &[TypedLeft]) -> Result<usize, AllocError>
    ensures { IfOk result (λ n. n ≡ lefts_temps (map left_of lefts.now)) }
{
    let mut count = 0;
    for left in lefts {
        count = sum(count, left_temps(left)?)?;
    }
    Ok(count)
}

/// The index operands of left sides into their temporaries.
fn emit_lefts_operands(
    alloc: Global,
    code: &mut Code,
    layout: &Layout<'_>,
    k: usize,
    lefts: &[TypedLeft],
) -> Result<(), AllocError>
    ensures { OnOk result (code.new ≡ lefts_operands (places_of layout.now) k (map left_of lefts.now) ++ code.old) }
{
    let mut behind = sum(k, lefts_temps(lefts)?)?;
    for i in (0..lefts.len()).rev() {
        let left = &lefts[i];
        behind = difference(behind, left_temps(left)?)?;
        emit_left_operands(alloc, code, layout, behind, left)?;
    }
    Ok(())
}

/// How many cells the temporary of a value takes.
fn value_temps(left: &TypedLeft, count: usize) -> usize
    ensures { result ≡ value_temps (left_of left.now) count }
{
    match left {
        TypedLeft::Blank => 0,
        _ => count,
    }
}

/// How many cells the temporaries of values take.
pub(crate) fn values_temps(lefts: &[TypedLeft], counts: &[usize]) -> Result<usize, AllocError>
    ensures { IfOk result (λ n. n ≡ values_temps (map left_of lefts.now) counts.now) }
{
    let mut rest = counts;
    let mut total = 0;
    for left in lefts {
        let [count, others @ ..] = rest else {
            return Ok(total);
        };
        total = sum(total, value_temps(left, *count))?;
        rest = others;
    }
    Ok(total)
}

/// Keeps a value in its temporary, or drops it.
fn keep(left: &TypedLeft, count: usize, temp: usize) -> Instr<Symbol>
    ensures { result ≡ keep_code (left_of left.now) count temp }
{
    match left {
        TypedLeft::Blank => Instr::Frame(FrameInstr::Pop(count)),
        _ => store(temp, count),
    }
}

/// Values from the last to the first into their temporaries.
fn emit_keeps(
    code: &mut Code,
    lefts: &[TypedLeft],
    counts: &[usize],
    k: usize,
) -> Result<(), AllocError>
    ensures { OnOk result (code.new ≡ keeps_code (map left_of lefts.now) counts.now k ++ code.old) }
{
    let mut rest = counts;
    let mut temp = sum(k, values_temps(lefts, counts)?)?;
    for left in lefts {
        let [count, others @ ..] = rest else {
            return Ok(());
        };
        temp = difference(temp, value_temps(left, *count))?;
        code.put(keep(left, *count, temp))?;
        rest = others;
    }
    Ok(())
}

/// The values in the temporaries into the left sides, from the first to the last.
fn emit_gives(
    code: &mut Code,
    layout: &Layout<'_>,
    k: usize,
    lefts: &[TypedLeft],
    counts: &[usize],
    temps: usize,
) -> Result<(), AllocError>
    requires { length counts.now ≡ length lefts.now }
    ensures { OnOk result (code.new ≡ gives_code (places_of layout.now) k (map left_of lefts.now) counts.now temps ++ code.old) }
{
    let mut behind = sum(k, lefts_temps(lefts)?)?;
    let mut temp = temps;
    for i in (0..lefts.len()).rev() {
        let left = &lefts[i];
        let count = counts[i];
        behind = difference(behind, left_temps(left)?)?;
        emit_give(code, layout, behind, left, temp, count)?;
        temp = sum(temp, value_temps(left, count))?;
    }
    Ok(())
}

/// An assignment. [Assignment statements](https://go.dev/ref/spec#Assignment_statements) An `Err`
/// where memory ran out, or where there aren't as many values as left sides.
pub(crate) fn emit_assign(
    alloc: Global,
    code: &mut Code,
    layout: &Layout<'_>,
    k: usize,
    lefts: &[TypedLeft],
    source: &TypedSource,
) -> Result<(), AllocError>
    ensures { OnOk result (code.new ≡ stmt_code (places_of layout.now) k (trees.assign (map left_of lefts.now) (as_source source.now)) 0 0 ++ code.old) }
{
    let counts = source_counts(alloc, source)?;
    if counts.len() != lefts.len() {
        return Err(AllocError);
    }
    let values = sum(k, lefts_temps(lefts)?)?;
    let temps = sum(values, source_temps(source)?)?;
    emit_gives(code, layout, k, lefts, &counts, temps)?;
    emit_keeps(code, lefts, &counts, temps)?;
    emit_source(alloc, code, layout, values, source)?;
    emit_lefts_operands(alloc, code, layout, k, lefts)
}

/// An operator and an assignment.
pub(crate) fn emit_update(
    alloc: Global,
    code: &mut Code,
    layout: &Layout<'_>,
    k: usize,
    of: &GoType,
    left: &TypedLeft,
    operator: Operator,
    e: &TypedExpr,
) -> Result<(), AllocError>
    ensures { OnOk result (code.new
        ≡ stmt_code (places_of layout.now) k (trees.update (go_type of.now) (left_of left.now) operator (as_expr e.now)) 0 0 ++ code.old) }
{
    let count = cells(of)?;
    let value = sum(k, left_temps(left)?)?;
    let temp = sum(value, expr_temps(e)?)?;
    emit_give(code, layout, k, left, temp, count)?;
    code.put(keep(left, count, temp))?;
    put_binary(code, of, operator)?;
    emit_expr(alloc, code, layout, value, e)?;
    emit_take(code, layout, k, left, count)?;
    emit_left_operands(alloc, code, layout, k, left)
}

/// A new variable's value into its cells, or away.
fn define(layout: &Layout<'_>, name: Option<usize>, count: usize) -> Instr<Symbol>
    ensures { result ≡ define_code (places_of layout.now) name count }
{
    match name {
        None => Instr::Frame(FrameInstr::Pop(count)),
        Some(number) => store(layout.local(number), count),
    }
}

/// New variables from the last to the first.
fn emit_defines(
    code: &mut Code,
    layout: &Layout<'_>,
    names: &[Option<usize>],
    counts: &[usize],
) -> Result<(), AllocError>
    ensures { OnOk result (code.new ≡ defines_code (places_of layout.now) names.now counts.now ++ code.old) }
{
    let mut rest = counts;
    for name in names {
        let [count, others @ ..] = rest else {
            return Ok(());
        };
        code.put(define(layout, *name, *count))?;
        rest = others;
    }
    Ok(())
}

/// New variables. [Variable declarations](https://go.dev/ref/spec#Variable_declarations)
pub(crate) fn emit_define(
    alloc: Global,
    code: &mut Code,
    layout: &Layout<'_>,
    k: usize,
    names: &[Option<usize>],
    source: &TypedSource,
) -> Result<(), AllocError>
    ensures { OnOk result (code.new ≡ stmt_code (places_of layout.now) k (trees.define names.now (as_source source.now)) 0 0 ++ code.old) }
{
    let counts = source_counts(alloc, source)?;
    emit_defines(code, layout, names, &counts)?;
    emit_source(alloc, code, layout, k, source)
}
