//! The code of statements, which is put before a code. `k` is the number of the first cell for a
//! statement's temporaries. The end of the loop or the switch round it is `b` instructions behind
//! it, and the next turn of the loop `c`.
ghost use Rattle.std.specs.Prelude.{◌≡◌, ◌<◌, ◌≤◌, ◌++◌, IfOk, OnOk, map, length};
ghost use Rattle.std.specs.Option.{option_map};
ghost use Rattle.go_types.specs.Views.{go_type};
ghost use Rattle.go_typed.specs.Trees as trees;
ghost use Rattle.go_typed.specs.Views.{as_expr, as_exprs, cases_of, as_source, as_stmt, stmts_in, clauses_in};
ghost use Rattle.go_gen.specs.Loops.{Closes};
ghost use Rattle.go_gen.specs.Translation.{condition_code, begin_code, counted_code, count_code, within_code, cases_code, case_code, tests_code, leave_code, default_place, concat_code, stmt_code, stmts_code, bodies_code};
ghost use Rattle.go_gen.specs.Views.{places_of};

use crate::assignment::{emit_assign, emit_define, emit_update};
use crate::code::Code;
use crate::expression::{emit_expr, emit_exprs};
use crate::instr::{call, load, store};
use crate::layout::Layout;
use crate::operator::{put_binary, put_operator};
use crate::size::{cells, difference, sum};
use crate::source::{emit_source, expr_counts, source_counts, total, type_counts};
use crate::statement_temps::{bodies_temps, case_temps, cases_temps, stmt_temps, stmts_temps};
use crate::temps::{expr_temps, exprs_temps};
use go_code::cell::Cell;
use go_code::instr::{CallInstr, FrameInstr, Instr, JumpInstr, OutputInstr};
use go_code::operator::Operator as CellOperator;
use go_const::operator::{ArithmeticOperator, ComparisonOperator};
use go_symbol::Symbol;
use go_typed::expression::{Operator, TypedExpr};
use go_typed::statement::{TypedClause, TypedSource, TypedStmt};
use go_types::types::GoType;
use std::alloc::{AllocError, Global};

/// A condition; where there is none it holds.
fn emit_condition(
    alloc: Global,
    code: &mut Code,
    layout: &Layout<'_>,
    k: usize,
    condition: &Option<TypedExpr>,
) -> Result<(), AllocError>
    ensures { OnOk result (code.new ≡ condition_code (places_of layout.now) k (option_map as_expr condition.now) ++ code.old) }
{
    match condition {
        None => code.put(Instr::Frame(FrameInstr::Push(Cell::Bool(true)))),
        Some(e) => emit_expr(alloc, code, layout, k, e),
    }
}

/// A call whose results are dropped.
/// [Expression statements](https://go.dev/ref/spec#Expression_statements)
fn emit_run(
    alloc: Global,
    code: &mut Code,
    layout: &Layout<'_>,
    k: usize,
    types: &[GoType],
    function: &Symbol,
    arguments: &[TypedExpr],
) -> Result<(), AllocError>
    ensures { OnOk result (code.new
        ≡ stmt_code (places_of layout.now) k (trees.run (map go_type types.now) function.now (as_exprs arguments.now)) 0 0 ++ code.old) }
{
    let counts = type_counts(alloc, types)?;
    code.put(Instr::Frame(FrameInstr::Pop(total(&counts)?)))?;
    code.put(call(function)?)?;
    emit_exprs(alloc, code, layout, k, arguments)
}

/// A call of `fmt.Println`.
fn emit_print(
    alloc: Global,
    code: &mut Code,
    layout: &Layout<'_>,
    k: usize,
    operands: &[TypedExpr],
) -> Result<(), AllocError>
    ensures { OnOk result (code.new ≡ stmt_code (places_of layout.now) k (trees.print (as_exprs operands.now)) 0 0 ++ code.old) }
{
    let counts = expr_counts(alloc, operands)?;
    code.put(Instr::Output(OutputInstr::Print(total(&counts)?)))?;
    emit_exprs(alloc, code, layout, k, operands)
}

/// A return. [Return statements](https://go.dev/ref/spec#Return_statements)
fn emit_return(
    alloc: Global,
    code: &mut Code,
    layout: &Layout<'_>,
    k: usize,
    source: &TypedSource,
) -> Result<(), AllocError>
    ensures { OnOk result (code.new ≡ stmt_code (places_of layout.now) k (trees.return (as_source source.now)) 0 0 ++ code.old) }
{
    let counts = source_counts(alloc, source)?;
    code.put(Instr::Calls(CallInstr::Return(total(&counts)?)))?;
    emit_source(alloc, code, layout, k, source)
}

/// A loop's first jump, which passes the body to the test, and the number of instructions that
/// its jump back goes over. `end` instructions stand behind the jump back, and `test` from the
/// test on.
fn close_loop(code: &mut Code, end: usize, test: usize) -> Result<(), AllocError>
    requires end { end < length code.old }
    requires test { test ≤ length code.old }
    ensures { OnOk result (Closes code.old end test code.new) }
{
    let begin = code.len();
    code.replace(end, Instr::Jump(JumpInstr::LoopIf(begin - end)));
    code.put(Instr::Jump(JumpInstr::Jump(begin - test)))
}

/// The range into the cell `at`, and 0 into the next one.
fn put_begin(code: &mut Code, at: usize) -> Result<(), AllocError>
    ensures { OnOk result (code.new ≡ begin_code at ++ code.old) }
{
    code.put(store(sum(at, 1)?, 1))?;
    code.put(Instr::Frame(FrameInstr::Push(Cell::Int(0))))?;
    code.put(store(at, 1))
}

/// How far a range is gone into the variable that counts, if there is one.
fn put_counted(
    code: &mut Code,
    layout: &Layout<'_>,
    at: usize,
    name: Option<usize>,
) -> Result<(), AllocError>
    ensures { OnOk result (code.new ≡ counted_code (places_of layout.now) at name ++ code.old) }
{
    match name {
        None => Ok(()),
        Some(number) => {
            code.put(store(layout.local(number), 1))?;
            code.put(load(sum(at, 1)?, 1))
        }
    }
}

/// One further in a range of a type.
fn put_count(code: &mut Code, at: usize, of: &GoType) -> Result<(), AllocError>
    ensures { OnOk result (code.new ≡ count_code at (go_type of.now) ++ code.old) }
{
    let next = sum(at, 1)?;
    code.put(store(next, 1))?;
    put_binary(code, of, Operator::Arithmetic(ArithmeticOperator::Add))?;
    code.put(Instr::Frame(FrameInstr::Push(Cell::Int(1))))?;
    code.put(load(next, 1))
}

/// Whether a range isn't at its end.
fn put_within(code: &mut Code, at: usize) -> Result<(), AllocError>
    ensures { OnOk result (code.new ≡ within_code at ++ code.old) }
{
    put_operator(code, CellOperator::Compare(ComparisonOperator::Less))?;
    code.put(load(at, 1))?;
    code.put(load(sum(at, 1)?, 1))
}

/// Cases of a clause, which stands `far` instructions behind them. The tag, of a type, lies in the
/// cells from `at` on.
fn emit_cases(
    alloc: Global,
    code: &mut Code,
    layout: &Layout<'_>,
    at: usize,
    of: &GoType,
    k: usize,
    cases: &[TypedExpr],
    far: usize,
) -> Result<(), AllocError>
    ensures { OnOk result (code.new ≡ cases_code (places_of layout.now) at (go_type of.now) k (as_exprs cases.now) far ++ code.old) }
{
    let end = code.len();
    let count = cells(of)?;
    let mut behind = sum(k, exprs_temps(cases)?)?;
    for i in (0..cases.len()).rev() {
        let e = &cases[i];
        behind = difference(behind, expr_temps(e)?)?;
        let passed = sum(difference(code.len(), end)?, far)?;
        code.put(Instr::Jump(JumpInstr::JumpIf(passed)))?;
        put_binary(code, of, Operator::Comparison(ComparisonOperator::Equal))?;
        emit_expr(alloc, code, layout, behind, e)?;
        code.put(load(at, count))?;
    }
    Ok(())
}

/// The cases of a clause.
fn emit_case(
    alloc: Global,
    code: &mut Code,
    layout: &Layout<'_>,
    at: usize,
    of: &GoType,
    k: usize,
    clause: &TypedClause,
    far: usize,
) -> Result<(), AllocError>
    ensures { OnOk result (code.new ≡ case_code (places_of layout.now) at (go_type of.now) k (cases_of clause.now.cases) far ++ code.old) }
{
    match &clause.cases {
        None => Ok(()),
        Some(cases) => emit_cases(alloc, code, layout, at, of, k, cases, far),
    }
}

/// The cases of clauses, whose codes have these sizes and stand behind them.
fn emit_tests(
    alloc: Global,
    code: &mut Code,
    layout: &Layout<'_>,
    at: usize,
    of: &GoType,
    k: usize,
    clauses: &[TypedClause],
    sizes: &[usize],
) -> Result<(), AllocError>
    requires { length sizes.now ≡ length clauses.now }
    ensures { OnOk result (code.new ≡ tests_code (places_of layout.now) at (go_type of.now) k (clauses_in clauses.now) sizes.now 0 ++ code.old) }
{
    let end = code.len();
    let mut behind = sum(k, cases_temps(clauses)?)?;
    let mut before = total(sizes)?;
    for i in (0..clauses.len()).rev() {
        let clause = &clauses[i];
        before = difference(before, sizes[i])?;
        behind = difference(behind, case_temps(clause)?)?;
        let far = sum(sum(difference(code.len(), end)?, 1)?, before)?;
        emit_case(alloc, code, layout, at, of, behind, clause, far)?;
    }
    Ok(())
}

/// Where the last default stands among clauses of these sizes, or else the other place.
fn default_place(
    clauses: &[TypedClause],
    sizes: &[usize],
    other: usize,
) -> Result<usize, AllocError>
    ensures { IfOk result (λ n. n ≡ default_place (clauses_in clauses.now) sizes.now 0 other) }
{
    let mut rest = sizes;
    let mut before = 0;
    let mut place = other;
    for clause in clauses {
        let [size, others @ ..] = rest else {
            return Ok(place);
        };
        if clause.cases.is_none() {
            place = before;
        }
        before = sum(before, *size)?;
        rest = others;
    }
    Ok(place)
}

/// A jump over so many instructions, unless a clause falls through.
fn put_leave(code: &mut Code, falls: bool, passed: usize) -> Result<(), AllocError>
    ensures { OnOk result (code.new ≡ leave_code falls passed ++ code.old) }
{
    if falls {
        return Ok(());
    }
    code.put(Instr::Jump(JumpInstr::Jump(passed)))
}

/// A statement that holds no others. An `Err` where it holds others, too.
#[tactic(auto, unfolding(go_typed::specs::Views::as_stmt))]
fn emit_leaf(
    alloc: Global,
    code: &mut Code,
    layout: &Layout<'_>,
    k: usize,
    s: &TypedStmt,
    b: usize,
    c: usize,
) -> Result<(), AllocError>
    ensures { OnOk result (code.new ≡ stmt_code (places_of layout.now) k (as_stmt s.now) b c ++ code.old) }
{
    match s {
        TypedStmt::Define(names, source) => emit_define(alloc, code, layout, k, names, source),
        TypedStmt::Assign(lefts, source) => emit_assign(alloc, code, layout, k, lefts, source),
        TypedStmt::Update(of, left, operator, e) => {
            emit_update(alloc, code, layout, k, of, left, *operator, e)
        }
        TypedStmt::Run(types, function, arguments) => {
            emit_run(alloc, code, layout, k, types, function, arguments)
        }
        TypedStmt::Print(operands) => emit_print(alloc, code, layout, k, operands),
        TypedStmt::Panic(e) => {
            code.put(Instr::Output(OutputInstr::Panic))?;
            emit_expr(alloc, code, layout, k, e)
        }
        TypedStmt::Break => code.put(Instr::Jump(JumpInstr::Jump(b))),
        TypedStmt::Continue => code.put(Instr::Jump(JumpInstr::Jump(c))),
        TypedStmt::Return(source) => emit_return(alloc, code, layout, k, source),
        _ => Err(AllocError),
    }
}

/// An `if`. An `Err` of another statement, too.
/// [If statements](https://go.dev/ref/spec#If_statements)
#[cycle(statements)]
fn emit_if(
    alloc: Global,
    code: &mut Code,
    layout: &Layout<'_>,
    k: usize,
    s: &TypedStmt,
    b: usize,
    c: usize,
) -> Result<(), AllocError>
    ensures { OnOk result (code.new ≡ stmt_code (places_of layout.now) k (as_stmt s.now) b c ++ code.old) }
{
    let TypedStmt::If(e, one, two) = s else {
        return Err(AllocError);
    };
    let first = sum(k, expr_temps(e)?)?;
    let end = code.len();
    let second = sum(first, stmts_temps(alloc, one)?)?;
    emit_stmts(alloc, code, layout, second, two, b, c)?;
    let passed = difference(code.len(), end)?;
    code.put(Instr::Jump(JumpInstr::Jump(passed)))?;
    let middle = code.len();
    let over = sum(passed, 1)?;
    let (end_b, end_c) = (sum(over, b)?, sum(over, c)?);
    emit_stmts(alloc, code, layout, first, one, end_b, end_c)?;
    let far = sum(difference(code.len(), middle)?, 1)?;
    code.put(Instr::Jump(JumpInstr::JumpIfNot(far)))?;
    emit_expr(alloc, code, layout, k, e)
}

/// A `for` with a condition. An `Err` of another statement, too.
/// [For statements](https://go.dev/ref/spec#For_statements)
#[cycle(statements)]
fn emit_for(
    alloc: Global,
    code: &mut Code,
    layout: &Layout<'_>,
    k: usize,
    s: &TypedStmt,
    b: usize,
    c: usize,
) -> Result<(), AllocError>
    ensures { OnOk result (code.new ≡ stmt_code (places_of layout.now) k (as_stmt s.now) b c ++ code.old) }
{
    let TypedStmt::For(condition, post, body) = s else {
        return Err(AllocError);
    };
    let behind = sum(k, stmts_temps(alloc, body)?)?;
    let last = sum(behind, stmts_temps(alloc, post)?)?;
    let end = code.len();
    code.put(Instr::Jump(JumpInstr::LoopIf(0)))?;
    emit_condition(alloc, code, layout, last, condition)?;
    let test = code.len();
    let over = difference(test, end)?;
    let (end_b, end_c) = (sum(over, b)?, sum(over, c)?);
    emit_stmts(alloc, code, layout, behind, post, end_b, end_c)?;
    let turn = difference(code.len(), end)?;
    emit_stmts(alloc, code, layout, k, body, turn, 0)?;
    close_loop(code, end, test)
}

/// A `for` with a range. An `Err` of another statement, too.
/// [For range](https://go.dev/ref/spec#For_range)
#[cycle(statements)]
fn emit_range(
    alloc: Global,
    code: &mut Code,
    layout: &Layout<'_>,
    k: usize,
    s: &TypedStmt,
) -> Result<(), AllocError>
    ensures { OnOk result (code.new ≡ stmt_code (places_of layout.now) k (as_stmt s.now) 0 0 ++ code.old) }
{
    let TypedStmt::Range(name, of, e, body) = s else {
        return Err(AllocError);
    };
    let at = sum(k, expr_temps(e)?)?;
    let end = code.len();
    code.put(Instr::Jump(JumpInstr::LoopIf(0)))?;
    put_within(code, at)?;
    let test = code.len();
    put_count(code, at, of)?;
    let turn = difference(code.len(), end)?;
    emit_stmts(alloc, code, layout, sum(at, 2)?, body, turn, 0)?;
    put_counted(code, layout, at, *name)?;
    close_loop(code, end, test)?;
    put_begin(code, at)?;
    emit_expr(alloc, code, layout, k, e)
}

/// A `switch`. An `Err` of another statement, too.
/// [Switch statements](https://go.dev/ref/spec#Switch_statements)
#[cycle(statements)]
fn emit_switch(
    alloc: Global,
    code: &mut Code,
    layout: &Layout<'_>,
    k: usize,
    s: &TypedStmt,
    c: usize,
) -> Result<(), AllocError>
    ensures { OnOk result (code.new ≡ stmt_code (places_of layout.now) k (as_stmt s.now) 0 c ++ code.old) }
{
    let TypedStmt::Switch(e, clauses) = s else {
        return Err(AllocError);
    };
    let at = sum(k, expr_temps(e)?)?;
    let count = cells(&e.of)?;
    let first = sum(at, count)?;
    let bodies = sum(first, cases_temps(clauses)?)?;
    let end = code.len();
    let sizes = emit_bodies(alloc, code, layout, bodies, clauses, c)?;
    let other = difference(code.len(), end)?;
    let place = default_place(clauses, &sizes, other)?;
    code.put(Instr::Jump(JumpInstr::Jump(place)))?;
    emit_tests(alloc, code, layout, at, &e.of, first, clauses, &sizes)?;
    code.put(store(at, count))?;
    emit_expr(alloc, code, layout, k, e)
}

/// A statement.
#[cycle(statements)]
fn emit_stmt(
    alloc: Global,
    code: &mut Code,
    layout: &Layout<'_>,
    k: usize,
    s: &TypedStmt,
    b: usize,
    c: usize,
) -> Result<(), AllocError>
    ensures { OnOk result (code.new ≡ stmt_code (places_of layout.now) k (as_stmt s.now) b c ++ code.old) }
{
    match s {
        TypedStmt::If(_, _, _) => emit_if(alloc, code, layout, k, s, b, c),
        TypedStmt::For(_, _, _) => emit_for(alloc, code, layout, k, s, b, c),
        TypedStmt::Range(_, _, _, _) => emit_range(alloc, code, layout, k, s),
        TypedStmt::Switch(_, _) => emit_switch(alloc, code, layout, k, s, c),
        TypedStmt::Block(body) => emit_stmts(alloc, code, layout, k, body, b, c),
        _ => emit_leaf(alloc, code, layout, k, s, b, c),
    }
}

/// Statements, one after the other.
#[cycle(statements)]
pub(crate) fn emit_stmts(
    alloc: Global,
    code: &mut Code,
    layout: &Layout<'_>,
    k: usize,
    statements: &[TypedStmt],
    b: usize,
    c: usize,
) -> Result<(), AllocError>
    ensures { OnOk result (code.new ≡ stmts_code (places_of layout.now) k (stmts_in statements.now) b c ++ code.old) }
{
    let end = code.len();
    let mut behind = sum(k, stmts_temps(alloc, statements)?)?;
    for i in (0..statements.len()).rev() {
        let s = &statements[i];
        behind = difference(behind, stmt_temps(alloc, s)?)?;
        let rest = difference(code.len(), end)?;
        emit_stmt(alloc, code, layout, behind, s, sum(rest, b)?, sum(rest, c)?)?;
    }
    Ok(())
}

/// The statements of clauses, and how many instructions each takes.
#[cycle(statements)]
fn emit_bodies(
    alloc: Global,
    code: &mut Code,
    layout: &Layout<'_>,
    k: usize,
    clauses: &[TypedClause],
    c: usize,
) -> Result<Vec<usize>, AllocError>
    ensures code { OnOk result (code.new ≡ concat_code (bodies_code (places_of layout.now) k (clauses_in clauses.now) c) ++ code.old) }
    ensures sizes { IfOk result (λ sizes. sizes.items ≡ map length (bodies_code (places_of layout.now) k (clauses_in clauses.now) c)) }
    ensures count { IfOk result (λ sizes. length sizes.items ≡ length clauses.now) }
{
    let end = code.len();
    let mut behind = sum(k, bodies_temps(alloc, clauses)?)?;
    let mut sizes = Vec::with_capacity(alloc, clauses.len())?;
    for i in (0..clauses.len()).rev() {
        let clause = &clauses[i];
        behind = difference(behind, stmts_temps(alloc, &clause.body)?)?;
        let rest = difference(code.len(), end)?;
        put_leave(code, clause.falls, rest)?;
        let after = difference(code.len(), end)?;
        emit_stmts(
            alloc,
            code,
            layout,
            behind,
            &clause.body,
            after,
            sum(after, c)?,
        )?;
        sizes.push(difference(difference(code.len(), end)?, rest)?)?;
    }
    sizes.reverse();
    Ok(sizes)
}
