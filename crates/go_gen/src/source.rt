//! Values that are due.
ghost use Rattle.std.specs.Prelude.{◌≡◌, ◌++◌, IfOk, OnOk, map, sum};
ghost use Rattle.std.specs.List.{flat_map};
ghost use Rattle.go_types.specs.Sizes as sizes;
ghost use Rattle.go_types.specs.Views.{go_type};
ghost use Rattle.go_typed.specs.Trees.{expr_type};
ghost use Rattle.go_typed.specs.Views.{as_expr, as_exprs, as_source};
ghost use Rattle.go_gen.specs.Translation.{expr_counts, source_counts, source_temps, source_code, zero_code};
ghost use Rattle.go_gen.specs.Views.{places_of};

use crate::code::Code;
use crate::expression::{emit_exprs, emit_zero};
use crate::instr::call;
use crate::layout::Layout;
use crate::size;
use crate::size::cells;
use crate::temps::exprs_temps;
use go_typed::expression::TypedExpr;
use go_typed::statement::TypedSource;
use go_types::types::GoType;
use std::alloc::{AllocError, Global};

/// The sum of some numbers.
pub(crate) fn total(counts: &[usize]) -> Result<usize, AllocError>
    ensures { IfOk result (λ n. n ≡ sum counts.now) }
{
    let mut count = 0;
    for more in counts {
        count = size::sum(count, *more)?;
    }
    Ok(count)
}

/// How many cells values of some types have, each for itself.
pub(crate) fn type_counts(alloc: Global, types: &[GoType]) -> Result<Vec<usize>, AllocError>
    ensures { IfOk result (λ counts. counts.items ≡ map sizes.cells (map go_type types.now)) }
{
    let mut counts = Vec::with_capacity(alloc, types.len())?;
    for of in types {
        counts.push(cells(of)?)?;
    }
    Ok(counts)
}

/// How many cells the value of an expression has.
#[tactic(auto, using(go_typed::proofs::Rows::type_seen))]
pub(crate) fn expr_cells(e: &TypedExpr) -> Result<usize, AllocError>
    ensures { IfOk result (λ n. n ≡ sizes.cells (expr_type (as_expr e.now))) }
{
    cells(&e.of)
}

/// How many cells the values of some expressions have, each for itself.
pub(crate) fn expr_counts(alloc: Global, es: &[TypedExpr]) -> Result<Vec<usize>, AllocError>
    ensures { IfOk result (λ counts. counts.items ≡ expr_counts (as_exprs es.now)) }
{
    let mut counts = Vec::with_capacity(alloc, es.len())?;
    for e in es {
        counts.push(expr_cells(e)?)?;
    }
    Ok(counts)
}

/// How many cells the values have, each for itself.
pub(crate) fn source_counts(alloc: Global, source: &TypedSource) -> Result<Vec<usize>, AllocError>
    ensures { IfOk result (λ counts. counts.items ≡ source_counts (as_source source.now)) }
{
    match source {
        TypedSource::Each(es) => expr_counts(alloc, es),
        TypedSource::Results(types, _, _) => type_counts(alloc, types),
        TypedSource::Zeros(types) => type_counts(alloc, types),
    }
}

/// How many cells the temporaries take.
pub(crate) fn source_temps(source: &TypedSource) -> Result<usize, AllocError>
    ensures { IfOk result (λ n. n ≡ source_temps (as_source source.now)) }
{
    match source {
        TypedSource::Each(es) => exprs_temps(es),
        TypedSource::Results(_, _, arguments) => exprs_temps(arguments),
        TypedSource::Zeros(_) => Ok(0),
    }
}

/// The zero values of some types.
fn emit_zeros(alloc: Global, code: &mut Code, types: &[GoType]) -> Result<(), AllocError>
    ensures { OnOk result (code.new ≡ flat_map zero_code (map go_type types.now) ++ code.old) }
{
    for i in (0..types.len()).rev() {
        emit_zero(alloc, code, &types[i])?;
    }
    Ok(())
}

/// The values.
pub(crate) fn emit_source(
    alloc: Global,
    code: &mut Code,
    layout: &Layout<'_>,
    k: usize,
    source: &TypedSource,
) -> Result<(), AllocError>
    ensures { OnOk result (code.new ≡ source_code (places_of layout.now) k (as_source source.now) ++ code.old) }
{
    match source {
        TypedSource::Each(es) => emit_exprs(alloc, code, layout, k, es),
        TypedSource::Results(_, function, arguments) => {
            code.put(call(function)?)?;
            emit_exprs(alloc, code, layout, k, arguments)
        }
        TypedSource::Zeros(types) => emit_zeros(alloc, code, types),
    }
}
