//! Setups: package variables get their values.
ghost use Rattle.std.specs.Prelude.{◌≡◌, ◌++◌, IfOk, OnOk, map, option_map, slice_get, string_bytes};
ghost use Rattle.std.specs.List.{filter_map};
ghost use Rattle.go_typed.specs.Views.{initialization_of, as_source};
ghost use Rattle.go_gen.specs.Translation.{set_code, sets_code, setup_code, symbol_code, translated_setup};
ghost use Rattle.go_gen.specs.Views.{places_outside, variable_names};

use crate::code::Code;
use crate::layout::Layout;
use crate::source::{emit_source, source_counts, source_temps};
use go_code::instr::{AccessInstr, CallInstr, FrameInstr, Instr};
use go_code::setup::Setup;
use go_symbol::Symbol;
use go_typed::package::TypedInitialization;
use go_typed::statement::TypedSource;
use std::alloc::{AllocError, Global};

/// A value into the cells of a variable of the package at a path, or away.
fn set(
    alloc: Global,
    path: &str,
    variable: &Option<String>,
    count: usize,
) -> Result<Instr<Symbol>, AllocError>
    ensures { IfOk result (λ i. i ≡ set_code places_outside path.now (option_map string_bytes variable.now) count) }
{
    match variable {
        None => Ok(Instr::Frame(FrameInstr::Pop(count))),
        Some(name) => {
            let first = Symbol::new(String::from_str(alloc, path)?, name.clone()?);
            Ok(Instr::Global(AccessInstr::Store { first, count }))
        }
    }
}

/// Variables of the package at a path get values of so many cells, from the last to the first.
fn emit_sets(
    alloc: Global,
    code: &mut Code,
    path: &str,
    variables: &[Option<String>],
    counts: &[usize],
) -> Result<(), AllocError>
    ensures { OnOk result (code.new ≡ sets_code places_outside path.now (variable_names variables.now) counts.now ++ code.old) }
{
    let mut rest = counts;
    for variable in variables {
        let [count, others @ ..] = rest else {
            return Ok(());
        };
        code.put(set(alloc, path, variable, *count)?)?;
        rest = others;
    }
    Ok(())
}

/// The code by which variables of the package at a path get the values of a source. There are no
/// local variables.
fn generate_code(
    alloc: Global,
    path: &str,
    source: &TypedSource,
    variables: &[Option<String>],
) -> Result<Vec<Instr<Symbol>>, AllocError>
    ensures { IfOk result (λ code. code.items ≡ setup_code places_outside path.now (as_source source.now) (variable_names variables.now)) }
{
    let layout = Layout { slots: &[] };
    let counts = source_counts(alloc, source)?;
    let mut code = Code::new(alloc);
    code.put(Instr::Calls(CallInstr::Return(0)))?;
    emit_sets(alloc, &mut code, path, variables, &counts)?;
    emit_source(alloc, &mut code, &layout, 0, source)?;
    Ok(code.into_vec())
}

/// The setup of an initialization of the package at a path.
fn generate_setup(
    alloc: Global,
    path: &str,
    initialization: &TypedInitialization,
) -> Result<Setup<Symbol>, AllocError>
    ensures { IfOk result (λ setup. setup ≡ translated_setup symbol_code symbol_code path.now (initialization_of initialization.now)) }
{
    let source = &initialization.source;
    let code = generate_code(alloc, path, source, &initialization.variables)?;
    Ok(Setup::new(source_temps(source)?, code))
}

/// The setups of those initializations of the package at a path that stand at these indexes, in
/// this order. An index of none is passed.
pub(crate) fn generate_setups(
    alloc: Global,
    path: &str,
    initializations: &[TypedInitialization],
    order: &[usize],
) -> Result<Vec<Setup<Symbol>>, AllocError>
    ensures { let listed = filter_map (slice_get (map initialization_of initializations.now)) order.now in
        IfOk result (λ made. made.items ≡ map (translated_setup symbol_code symbol_code path.now) listed) }
{
    let mut made = Vec::with_capacity(alloc, order.len())?;
    for index in order {
        if let Some(initialization) = initializations.get(*index) {
            made.push(generate_setup(alloc, path, initialization)?)?;
        }
    }
    Ok(made)
}
