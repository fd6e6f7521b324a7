//! The object of a checked package.
ghost use Rattle.std.specs.Prelude.{◌≡◌, IfOk, map, slice_get};
ghost use Rattle.std.specs.List.{filter_map};
ghost use Rattle.go_typed.specs.Views.{stmts_in, variable_of, as_function, typed_of};
ghost use Rattle.go_gen.specs.Translation.{body_code, translated_variable, translated_function, object_in};
ghost use Rattle.go_gen.specs.Views.{places_of};

use crate::code::Code;
use crate::layout::Layout;
use crate::setup::generate_setups;
use crate::size::{push_slots, sum};
use crate::statement::emit_stmts;
use crate::statement_temps::stmts_temps;
use crate::zero::push_zero;
use go_code::function::Function;
use go_code::instr::{CallInstr, Instr};
use go_code::object::Object;
use go_code::object::function::PackageFunction;
use go_code::object::variable::PackageVariable;
use go_symbol::Symbol;
use go_typed::package::{Typed, TypedFunction, TypedVariable};
use go_typed::statement::TypedStmt;
use std::alloc::{AllocError, Global};

/// The code of a function's body, whose end returns nothing.
fn generate_body(
    alloc: Global,
    layout: &Layout<'_>,
    k: usize,
    body: &[TypedStmt],
) -> Result<Vec<Instr<Symbol>>, AllocError>
    ensures { IfOk result (λ code. code.items ≡ body_code (places_of layout.now) k (stmts_in body.now)) }
{
    let mut code = Code::new(alloc);
    code.put(Instr::Calls(CallInstr::Return(0)))?;
    emit_stmts(alloc, &mut code, layout, k, body, 0, 0)?;
    Ok(code.into_vec())
}

/// The code of a function, which doesn't know its name. The parameters come first, then the other
/// local variables by their numbers, then the temporaries.
fn translate(alloc: Global, function: &TypedFunction) -> Result<Function<Symbol>, AllocError>
    ensures { IfOk result (λ made. made ≡ (translated_function (as_function function.now)).function) }
{
    let mut slots = Vec::new(alloc);
    let parameters = push_slots(&mut slots, 0, &function.parameters)?;
    let size = push_slots(&mut slots, parameters, &function.locals)?;
    let layout = Layout { slots: &slots };
    let code = generate_body(alloc, &layout, size, &function.body)?;
    let cells = sum(size, stmts_temps(alloc, &function.body)?)?;
    Ok(Function::new(parameters, cells, code))
}

/// A function of a package's object.
fn generate_function(alloc: Global, function: &TypedFunction) -> Result<PackageFunction, AllocError>
    ensures { IfOk result (λ made. made ≡ translated_function (as_function function.now)) }
{
    let translated = translate(alloc, function)?;
    let name = function.name.clone()?;
    Ok(PackageFunction::new(name, translated))
}

/// The functions of a package's object, in their order.
fn generate_functions(
    alloc: Global,
    functions: &[TypedFunction],
) -> Result<Vec<PackageFunction>, AllocError>
    ensures { IfOk result (λ made. made.items ≡ map translated_function (map as_function functions.now)) }
{
    let mut made = Vec::with_capacity(alloc, functions.len())?;
    for function in functions {
        made.push(generate_function(alloc, function)?)?;
    }
    Ok(made)
}

/// A variable of an object, with its zero value's cells.
fn generate_variable(alloc: Global, variable: &TypedVariable) -> Result<PackageVariable, AllocError>
    ensures { IfOk result (λ made. made ≡ translated_variable (variable_of variable.now)) }
{
    let mut zero = Vec::new(alloc);
    push_zero(alloc, &mut zero, &variable.of)?;
    let name = variable.name.clone()?;
    Ok(PackageVariable::new(name, zero))
}

/// The variables of an object, in their order.
fn generate_variables(
    alloc: Global,
    variables: &[TypedVariable],
) -> Result<Vec<PackageVariable>, AllocError>
    ensures { IfOk result (λ made. made.items ≡ map translated_variable (map variable_of variables.now)) }
{
    let mut made = Vec::with_capacity(alloc, variables.len())?;
    for variable in variables {
        made.push(generate_variable(alloc, variable)?)?;
    }
    Ok(made)
}

/// The object of a checked package, whose setups are those of its initializations by these indexes,
/// in this order; an index of none is passed. An `Err` only where memory ran out, or where there is
/// none with so many cells or instructions.
pub fn generate(alloc: Global, typed: &Typed, order: &[usize]) -> Result<Object, AllocError>
    ensures { let p = typed_of typed.now in IfOk result (λ object. object ≡ object_in (filter_map (slice_get p.initializations) order.now) p) }
{
    let path = typed.path.clone()?;
    let name = typed.name.clone()?;
    let variables = generate_variables(alloc, &typed.variables)?;
    let functions = generate_functions(alloc, &typed.functions)?;
    let setups = generate_setups(alloc, path.as_str(), &typed.initializations, order)?;
    Ok(Object::new(path, name, typed.edition, variables, functions, setups))
}
