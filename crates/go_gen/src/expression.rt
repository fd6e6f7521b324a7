//! The code of expressions, which is put before a code.
ghost use Rattle.std.specs.Prelude.{◌≡◌, ◌+◌, ◌++◌, ◌∷◌, OnOk, length};
ghost use Rattle.go_meaning.specs.Choices as choices;
ghost use Rattle.go_meaning.specs.Choices.{length_operators, cut_operators};
ghost use Rattle.go_code.specs.declared.cell.Cell.TheVariants.{Bool as Truth, Slice};
ghost use Rattle.go_code.specs.declared.instr.Instr.TheVariants.{Frame as In_frame, Part as On_part, Row as On_rows, Jump as Go_to};
ghost use Rattle.go_code.specs.declared.instr.FrameInstr.TheVariants.{Push, Repeat};
ghost use Rattle.go_types.specs.Sizes.{cells};
ghost use Rattle.go_types.specs.Types.{basic as simple};
ghost use Rattle.go_code.specs.declared.instr.PartInstr.TheVariants.{Part};
ghost use Rattle.go_code.specs.declared.instr.RowInstr.TheVariants.{Make, Append};
ghost use Rattle.go_code.specs.declared.instr.JumpInstr.TheVariants.{Jump};
ghost use Rattle.go_types.specs.Views.{go_type, fields_in};
ghost use Rattle.go_types.specs.Relations.{underlying};
ghost use Rattle.go_typed.specs.Trees as trees;
ghost use Rattle.go_typed.specs.Views.{as_expr, as_exprs, parts_in};
ghost use Rattle.go_gen.specs.Translation.{zero_code, zeros_code, index_code, operators_code, load, store, or_type, element_cells, offset, expr_code, exprs_code, parts_code};
ghost use Rattle.go_gen.specs.Views.{places_of};

use crate::assignment::element_type;
use crate::code::Code;
use crate::instr::{call, constant_cell, load, no_slice, store, zero_cell};
use crate::layout::Layout;
use crate::operator::{put_binary, put_conversion, put_operator, put_unary};
use crate::size::{cells, difference, element_cells, offset, offset_by, offsets_of, sum};
use crate::temps::{cell_behind, cell_kept, expr_temps, exprs_temps, parts_temps};
use go_code::cell::Cell;
use go_code::instr::{AccessInstr, FrameInstr, Instr, JumpInstr, PartInstr, RowInstr};
use go_code::operator::{Operator as CellOperator, SliceOperator, TextOperator};
use go_symbol::Symbol;
use go_typed::expression::{TypedExpr, TypedExprKind, TypedPart};
use go_types::relations::underlying;
use go_types::types::{Basic, Field, GoType};
use std::alloc::{AllocError, Global};

/// What pushes the zero value of a basic type. What is about one node alone stands in calls of its
/// own, so that each level of a type takes little of the stack.
#[inline(never)]
fn put_zero(alloc: Global, code: &mut Code, of: Basic) -> Result<(), AllocError>
    ensures { OnOk result (code.new ≡ zero_code (simple of) ++ code.old) }
{
    code.put(Instr::Frame(FrameInstr::Push(zero_cell(alloc, of)?)))
}

/// What pushes the slice without elements.
#[inline(never)]
fn put_no_slice(code: &mut Code) -> Result<(), AllocError>
    ensures { OnOk result (code.new ≡ In_frame (Push (Slice 0 0 0 0)) ∷ code.old) }
{
    code.put(Instr::Frame(FrameInstr::Push(no_slice())))
}

/// What repeats an element of a type.
#[inline(never)]
fn put_repeat(code: &mut Code, of: &GoType, length: u32) -> Result<(), AllocError>
    ensures { OnOk result (code.new ≡ In_frame (Repeat (cells (go_type of.now)) length) ∷ code.old) }
{
    let (count, times) = (cells(of)?, length as usize);
    code.put(Instr::Frame(FrameInstr::Repeat { count, times }))
}

/// What pushes the zero value of a type.
/// [The zero value](https://go.dev/ref/spec#The_zero_value)
#[cycle(zeros)]
pub(crate) fn emit_zero(alloc: Global, code: &mut Code, of: &GoType) -> Result<(), AllocError>
    ensures { OnOk result (code.new ≡ zero_code (go_type of.now) ++ code.old) }
{
    match of {
        GoType::Basic(basic) => put_zero(alloc, code, *basic),
        GoType::Array(length, element) => {
            put_repeat(code, &element.of, *length)?;
            emit_zero(alloc, code, &element.of)
        }
        GoType::Slice(_) => put_no_slice(code),
        GoType::Struct(fields) => emit_zeros(alloc, code, &fields.list),
        GoType::Named(named) => emit_zero(alloc, code, &named.underlying),
    }
}

/// What pushes the zero values of fields.
#[cycle(zeros)]
fn emit_zeros(alloc: Global, code: &mut Code, fields: &[Field]) -> Result<(), AllocError>
    ensures { OnOk result (code.new ≡ zeros_code (fields_in fields.now) ++ code.old) }
{
    for i in (0..fields.len()).rev() {
        emit_zero(alloc, code, &fields[i].of)?;
    }
    Ok(())
}

/// What leaves an element of an array or a slice, or a byte of a string, of a type in the end.
fn put_index(code: &mut Code, of: &GoType) -> Result<(), AllocError>
    ensures { OnOk result (code.new ≡ index_code (go_type of.now) ++ code.old) }
{
    match of {
        GoType::Array(length, element) => {
            let (count, size) = (*length as usize, cells(&element.of)?);
            code.put(Instr::Part(PartInstr::Pick { count, size }))
        }
        GoType::Slice(element) => code.put(Instr::Row(RowInstr::Get(cells(&element.of)?))),
        _ => put_operator(code, CellOperator::Text(TextOperator::At)),
    }
}

/// What leaves the length of a slice or a string of a type.
fn put_length(code: &mut Code, of: &GoType) -> Result<(), AllocError>
    ensures { OnOk result (code.new ≡ operators_code (length_operators (go_type of.now)) ++ code.old) }
{
    match of {
        GoType::Slice(_) => put_operator(code, CellOperator::Slice(SliceOperator::Length)),
        _ => put_operator(code, CellOperator::Text(TextOperator::Length)),
    }
}

/// What leaves a part of a slice or a string of a type.
fn put_cut(code: &mut Code, of: &GoType) -> Result<(), AllocError>
    ensures { OnOk result (code.new ≡ operators_code (cut_operators (go_type of.now)) ++ code.old) }
{
    match of {
        GoType::Slice(_) => put_operator(code, CellOperator::Slice(SliceOperator::Cut)),
        _ => put_operator(code, CellOperator::Text(TextOperator::Cut)),
    }
}

/// What leaves the part from a bound, which is pushed, to the end of what a temporary holds.
/// [Slice expressions](https://go.dev/ref/spec#Slice_expressions)
fn put_tail(code: &mut Code, of: &GoType, temp: usize) -> Result<(), AllocError>
    ensures { OnOk result (code.new
        ≡ load temp 1 ∷ (operators_code (length_operators (go_type of.now)) ++ (operators_code (cut_operators (go_type of.now)) ++ code.old))) }
{
    put_cut(code, of)?;
    put_length(code, of)?;
    code.put(load(temp, 1))
}

/// What keeps a cell in a temporary.
fn put_kept(code: &mut Code, temp: usize) -> Result<(), AllocError>
    ensures { OnOk result (code.new ≡ store temp 1 ∷ load temp 1 ∷ code.old) }
{
    code.put(load(temp, 1))?;
    code.put(store(temp, 1))
}

/// What makes a slice of a type.
fn put_make(code: &mut Code, of: &GoType) -> Result<(), AllocError>
    ensures { OnOk result (code.new ≡ On_rows (Make (element_cells (underlying (go_type of.now)))) ∷ code.old) }
{
    code.put(Instr::Row(RowInstr::Make(element_cells(of)?)))
}

/// The zero value of the elements of a type.
fn emit_element_zero(alloc: Global, code: &mut Code, of: &GoType) -> Result<(), AllocError>
    ensures { OnOk result (code.new ≡ zero_code (or_type (go_type of.now) (choices.element_type (underlying (go_type of.now)))) ++ code.old) }
{
    let (_, element) = element_type(of);
    emit_zero(alloc, code, element)
}

/// What appends as many elements as there are expressions to a slice of a type.
/// [Appending](https://go.dev/ref/spec#Appending_and_copying_slices)
fn put_append(code: &mut Code, of: &GoType, es: &[TypedExpr]) -> Result<(), AllocError>
    ensures { OnOk result (code.new ≡ On_rows (Append (element_cells (underlying (go_type of.now))) (length es.now)) ∷ code.old) }
{
    let (size, count) = (element_cells(of)?, es.len());
    code.put(Instr::Row(RowInstr::Append { size, count }))
}

/// A package's variable.
fn emit_global(
    code: &mut Code,
    layout: &Layout<'_>,
    k: usize,
    of: &GoType,
    symbol: &Symbol,
) -> Result<(), AllocError>
    ensures { OnOk result (code.new ≡ expr_code (places_of layout.now) k (trees.global (go_type of.now) symbol.now) ++ code.old) }
{
    let (first, count) = (symbol.copy()?, cells(of)?);
    code.put(Instr::Global(AccessInstr::Load { first, count }))
}

/// What leaves a field of a struct of a type.
fn put_field(code: &mut Code, whole: &GoType, number: usize, of: &GoType) -> Result<(), AllocError>
    ensures { OnOk result (code.new
        ≡ On_part (Part (cells (go_type whole.now)) (offset (underlying (go_type whole.now)) number) (cells (go_type of.now))) ∷ code.old) }
{
    let first = offset(underlying(whole), number)?;
    let (whole, count) = (cells(whole)?, cells(of)?);
    code.put(Instr::Part(PartInstr::Part {
        whole,
        first,
        count,
    }))
}

/// What a jump past a right operand passes, up to where the left one decides: the answer is pushed.
fn put_answer(code: &mut Code, answer: bool) -> Result<(), AllocError>
    ensures { OnOk result (code.new ≡ Go_to (Jump 1) ∷ In_frame (Push (Truth answer)) ∷ code.old) }
{
    code.put(Instr::Frame(FrameInstr::Push(Cell::Bool(answer))))?;
    code.put(Instr::Jump(JumpInstr::Jump(1)))
}

/// Parts into their cells, of those from `at` on.
#[cycle(expressions)]
fn emit_parts(
    alloc: Global,
    code: &mut Code,
    layout: &Layout<'_>,
    k: usize,
    parts: &[TypedPart],
    of: &GoType,
    at: usize,
) -> Result<(), AllocError>
    ensures { OnOk result (code.new ≡ parts_code (places_of layout.now) (go_type of.now) at k (parts_in parts.now) ++ code.old) }
{
    let offsets = offsets_of(alloc, of)?;
    let mut behind = sum(k, parts_temps(parts)?)?;
    for i in (0..parts.len()).rev() {
        let part = &parts[i];
        behind = difference(behind, expr_temps(&part.value)?)?;
        let first = sum(at, offset_by(offsets.as_slice(), of, part.number)?)?;
        code.put(store(first, cells(&part.value.of)?))?;
        emit_expr(alloc, code, layout, behind, &part.value)?;
    }
    Ok(())
}

/// Expressions from left to right.
/// [Order of evaluation](https://go.dev/ref/spec#Order_of_evaluation)
#[cycle(expressions)]
pub(crate) fn emit_exprs(
    alloc: Global,
    code: &mut Code,
    layout: &Layout<'_>,
    k: usize,
    es: &[TypedExpr],
) -> Result<(), AllocError>
    ensures { OnOk result (code.new ≡ exprs_code (places_of layout.now) k (as_exprs es.now) ++ code.old) }
{
    let mut behind = sum(k, exprs_temps(es)?)?;
    for i in (0..es.len()).rev() {
        let e = &es[i];
        behind = difference(behind, expr_temps(e)?)?;
        emit_expr(alloc, code, layout, behind, e)?;
    }
    Ok(())
}

/// The length of a slice or a string.
#[cycle(expressions)]
fn emit_length(
    alloc: Global,
    code: &mut Code,
    layout: &Layout<'_>,
    k: usize,
    operand: &TypedExpr,
    of: &GoType,
) -> Result<(), AllocError>
    ensures { OnOk result (code.new ≡ expr_code (places_of layout.now) k (trees.length (go_type of.now) (as_expr operand.now)) ++ code.old) }
{
    put_length(code, underlying(&operand.of))?;
    emit_expr(alloc, code, layout, k, operand)
}

/// A slice that is made with a length.
/// [Making slices](https://go.dev/ref/spec#Making_slices_maps_and_channels)
#[cycle(expressions)]
fn emit_make(
    alloc: Global,
    code: &mut Code,
    layout: &Layout<'_>,
    k: usize,
    length: &TypedExpr,
    of: &GoType,
) -> Result<(), AllocError>
    ensures { OnOk result (code.new ≡ expr_code (places_of layout.now) k (trees.make (go_type of.now) (as_expr length.now) trees.absent) ++ code.old) }
{
    let temp = cell_behind(k, length)?;
    let (_, element) = element_type(of);
    put_make(code, of)?;
    code.put(load(temp, 1))?;
    put_kept(code, temp)?;
    emit_expr(alloc, code, layout, k, length)?;
    emit_zero(alloc, code, element)
}

/// A slice of some elements.
/// [Composite literals](https://go.dev/ref/spec#Composite_literals)
#[cycle(expressions)]
fn emit_elements(
    alloc: Global,
    code: &mut Code,
    layout: &Layout<'_>,
    k: usize,
    es: &[TypedExpr],
    of: &GoType,
) -> Result<(), AllocError>
    ensures { OnOk result (code.new ≡ expr_code (places_of layout.now) k (trees.append (go_type of.now) trees.absent (as_exprs es.now)) ++ code.old) }
{
    put_append(code, of, es)?;
    emit_exprs(alloc, code, layout, k, es)?;
    emit_zero(alloc, code, of)
}

/// An expression; `k` is the number of the first cell for its temporaries.
#[cycle(expressions)]
#[tactic(auto, unfolding(go_typed::specs::Views::as_expr))]
pub(crate) fn emit_expr(
    alloc: Global,
    code: &mut Code,
    layout: &Layout<'_>,
    k: usize,
    e: &TypedExpr,
) -> Result<(), AllocError>
    ensures { OnOk result (code.new ≡ expr_code (places_of layout.now) k (as_expr e.now) ++ code.old) }
{
    match &e.kind {
        TypedExprKind::Constant(constant) => {
            code.put(Instr::Frame(FrameInstr::Push(constant_cell(alloc, constant)?)))
        }
        TypedExprKind::Local(number) => code.put(load(layout.local(*number), cells(&e.of)?)),
        TypedExprKind::Global(symbol) => emit_global(code, layout, k, &e.of, symbol),
        TypedExprKind::Field(operand, number) => {
            put_field(code, &operand.of, *number, &e.of)?;
            emit_expr(alloc, code, layout, k, operand)
        }
        TypedExprKind::Index(operand, index) => {
            let behind = cell_behind(k, operand)?;
            put_index(code, underlying(&operand.of))?;
            emit_expr(alloc, code, layout, behind, index)?;
            emit_expr(alloc, code, layout, k, operand)
        }
        TypedExprKind::Length(operand) => emit_length(alloc, code, layout, k, operand, &e.of),
        TypedExprKind::Capacity(operand) => {
            put_operator(code, CellOperator::Slice(SliceOperator::Capacity))?;
            emit_expr(alloc, code, layout, k, operand)
        }
        TypedExprKind::Make(length) => emit_make(alloc, code, layout, k, length, &e.of),
        TypedExprKind::Elements(es) => emit_elements(alloc, code, layout, k, es, &e.of),
        TypedExprKind::Unary(operator, operand) => {
            put_unary(code, &e.of, *operator)?;
            emit_expr(alloc, code, layout, k, operand)
        }
        TypedExprKind::Binary(operator, a, b) => {
            let behind = cell_behind(k, a)?;
            put_binary(code, &a.of, *operator)?;
            emit_expr(alloc, code, layout, behind, b)?;
            emit_expr(alloc, code, layout, k, a)
        }
        TypedExprKind::Both(a, b) => {
            let behind = cell_behind(k, a)?;
            put_answer(code, false)?;
            let end = code.len();
            emit_expr(alloc, code, layout, behind, b)?;
            code.put(Instr::Jump(JumpInstr::JumpIfNot(code.len() - end + 1)))?;
            emit_expr(alloc, code, layout, k, a)
        }
        TypedExprKind::Either(a, b) => {
            let behind = cell_behind(k, a)?;
            put_answer(code, true)?;
            let end = code.len();
            emit_expr(alloc, code, layout, behind, b)?;
            code.put(Instr::Jump(JumpInstr::JumpIf(code.len() - end + 1)))?;
            emit_expr(alloc, code, layout, k, a)
        }
        TypedExprKind::Conversion(operand) => {
            put_conversion(code, &e.of)?;
            emit_expr(alloc, code, layout, k, operand)
        }
        TypedExprKind::Literal(parts) => {
            let count = cells(&e.of)?;
            code.put(load(k, count))?;
            emit_parts(
                alloc,
                code,
                layout,
                sum(k, count)?,
                parts,
                underlying(&e.of),
                k,
            )?;
            code.put(store(k, count))?;
            emit_zero(alloc, code, &e.of)
        }
        TypedExprKind::Call(function, arguments) => {
            code.put(call(function)?)?;
            emit_exprs(alloc, code, layout, k, arguments)
        }
        TypedExprKind::Tail(operand, low) => {
            let (temp, behind) = cell_kept(k, operand)?;
            put_tail(code, underlying(&operand.of), temp)?;
            emit_expr(alloc, code, layout, behind, low)?;
            put_kept(code, temp)?;
            emit_expr(alloc, code, layout, k, operand)
        }
        TypedExprKind::Cut(operand, low, high) => {
            let (temp, behind) = cell_kept(k, operand)?;
            let last = cell_behind(behind, low)?;
            put_cut(code, underlying(&operand.of))?;
            emit_expr(alloc, code, layout, last, high)?;
            emit_expr(alloc, code, layout, behind, low)?;
            put_kept(code, temp)?;
            emit_expr(alloc, code, layout, k, operand)
        }
        TypedExprKind::MakeWithin(length, room) => {
            let (temp, behind) = cell_kept(k, length)?;
            put_make(code, &e.of)?;
            emit_expr(alloc, code, layout, behind, room)?;
            put_kept(code, temp)?;
            emit_expr(alloc, code, layout, k, length)?;
            emit_element_zero(alloc, code, &e.of)
        }
        TypedExprKind::Append(slice, es) => {
            let behind = cell_behind(k, slice)?;
            put_append(code, &e.of, es)?;
            emit_exprs(alloc, code, layout, behind, es)?;
            emit_expr(alloc, code, layout, k, slice)
        }
    }
}
