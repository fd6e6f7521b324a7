//! Linked code.
ghost use Rattle.std.specs.Prelude.{◌≡◌, ◌++◌, OnOk, IfOk, map};
ghost use Rattle.std.specs.Arc.{arc_value};
ghost use Rattle.std.specs.List.{flat_map};
ghost use Rattle.go_code.specs.Referred.{refer, refer_access, refer_call, refer_function};
ghost use Rattle.go_link.specs.Links.{function_number, symbol_numbers, first_cell_of, linked_function, zero_cells};

use crate::names::Names;
use crate::places::{Places, place_of};
use go_code::cell::{Cell, push_copies};
use go_code::function::Function;
use go_code::instr::{AccessInstr, CallInstr, FrameInstr, Instr};
use go_code::object::Object;
use go_code::object::function::PackageFunction;
use go_code::object::variable::PackageVariable;
use go_symbol::Symbol;
use std::alloc::{AllocError, Global};
use std::sync::Arc;

/// Another instruction of equal contents.
fn copy_frame(instr: &FrameInstr) -> Result<FrameInstr, AllocError>
    ensures { IfOk result (λ copy. copy ≡ instr.now) }
{
    match instr {
        FrameInstr::Push(cell) => Ok(FrameInstr::Push(cell.copy()?)),
        FrameInstr::Pop(count) => Ok(FrameInstr::Pop(*count)),
        FrameInstr::Repeat { count, times } => Ok(FrameInstr::Repeat {
            count: *count,
            times: *times,
        }),
    }
}

/// The call with the number of the function in place of its symbol.
fn link_call<'a>(names: &Names<'a>, instr: &'a CallInstr<Symbol>) -> CallInstr<usize>
    ensures { result ≡ refer_call (function_number names.now) instr.now }
{
    match instr {
        CallInstr::Call(symbol) => CallInstr::Call(names.number_of(symbol.path(), symbol.name())),
        CallInstr::Return(count) => CallInstr::Return(*count),
    }
}

/// The access of as many cells, whose place is said by something else.
fn access_at<P, Q>(instr: &AccessInstr<P>, first: Q) -> AccessInstr<Q>
    ensures { result ≡ refer_access (λ place. first) instr.now }
{
    match instr {
        AccessInstr::Load { count, .. } => AccessInstr::Load {
            first,
            count: *count,
        },
        AccessInstr::Store { count, .. } => AccessInstr::Store {
            first,
            count: *count,
        },
        AccessInstr::LoadAt { count, .. } => AccessInstr::LoadAt {
            first,
            count: *count,
        },
        AccessInstr::StoreAt { count, .. } => AccessInstr::StoreAt {
            first,
            count: *count,
        },
    }
}

/// The access with the place of the variable in place of its symbol.
fn link_access<'a>(places: &Places<'a>, instr: &'a AccessInstr<Symbol>) -> AccessInstr<usize>
    ensures { result ≡ refer_access (first_cell_of places.now) instr.now }
{
    let symbol = place_of(instr);
    access_at(instr, places.place_in(symbol.path(), symbol.name()))
}

/// The instruction with a number in place of its symbol.
fn link_instr<'a>(
    names: &Names<'a>,
    places: &Places<'a>,
    instr: &'a Instr<Symbol>,
) -> Result<Instr<usize>, AllocError>
    ensures { IfOk result (λ linked. linked ≡ refer (symbol_numbers names.now places.now) instr.now) }
{
    match instr {
        Instr::Frame(instr) => Ok(Instr::Frame(copy_frame(instr)?)),
        Instr::Local(instr) => Ok(Instr::Local(access_at(instr, *place_of(instr)))),
        Instr::Global(instr) => Ok(Instr::Global(link_access(places, instr))),
        Instr::Part(instr) => Ok(Instr::Part(*instr)),
        Instr::Row(instr) => Ok(Instr::Row(*instr)),
        Instr::Operate(operator) => Ok(Instr::Operate(*operator)),
        Instr::Jump(instr) => Ok(Instr::Jump(*instr)),
        Instr::Output(instr) => Ok(Instr::Output(*instr)),
        Instr::Calls(instr) => Ok(Instr::Calls(link_call(names, instr))),
    }
}

/// The code with numbers in place of symbols. An `Err` only where memory ran out.
pub(crate) fn link_code<'a>(
    alloc: Global,
    names: &Names<'a>,
    places: &Places<'a>,
    code: &'a [Instr<Symbol>],
) -> Result<Vec<Instr<usize>>, AllocError>
    ensures { IfOk result (λ linked. linked.items ≡ map (refer (symbol_numbers names.now places.now)) code.now) }
{
    let mut linked = Vec::new(alloc);
    for instr in code {
        linked.push(link_instr(names, places, instr)?)?;
    }
    Ok(linked)
}

/// The function with numbers in place of symbols.
fn link_function<'a>(
    alloc: Global,
    names: &Names<'a>,
    places: &Places<'a>,
    function: &'a Function<Symbol>,
) -> Result<Function<usize>, AllocError>
    ensures { IfOk result (λ linked. linked ≡ refer_function (symbol_numbers names.now places.now) function.now) }
{
    let code = link_code(alloc, names, places, function.code())?;
    Ok(Function::new(function.parameters(), function.cells(), code))
}

/// A package's functions come behind the linked ones.
fn push_functions<'a>(
    alloc: Global,
    linked: &mut Vec<Function<usize>>,
    names: &Names<'a>,
    places: &Places<'a>,
    functions: &'a [PackageFunction],
) -> Result<(), AllocError>
    ensures { OnOk result (linked.new.items ≡ linked.old.items ++ map (linked_function names.now places.now) functions.now) }
{
    for function in functions {
        linked.push(link_function(alloc, names, places, function.function())?)?;
    }
    Ok(())
}

/// The functions of the packages. An `Err` only where memory ran out.
pub(crate) fn link_functions<'a>(
    alloc: Global,
    names: &Names<'a>,
    places: &Places<'a>,
    packages: &'a [Arc<Object>],
) -> Result<Vec<Function<usize>>, AllocError>
    ensures { IfOk result (λ linked. linked.items ≡ flat_map (λ o. map (linked_function names.now places.now) o.functions) (map arc_value packages.now)) }
{
    let mut linked = Vec::new(alloc);
    for object in packages {
        push_functions(alloc, &mut linked, names, places, object.functions())?;
    }
    Ok(linked)
}

/// The zero cells of a package's variables come behind others.
fn push_zeros(cells: &mut Vec<Cell>, variables: &[PackageVariable]) -> Result<(), AllocError>
    ensures { OnOk result (cells.new.items ≡ cells.old.items ++ flat_map (λ v. v.zero) variables.now) }
{
    for variable in variables {
        push_copies(cells, variable.zero())?;
    }
    Ok(())
}

/// The zero cells of the packages' variables. An `Err` only where memory ran out.
pub(crate) fn link_globals(alloc: Global, packages: &[Arc<Object>]) -> Result<Vec<Cell>, AllocError>
    ensures { IfOk result (λ globals. globals.items ≡ flat_map zero_cells (map arc_value packages.now)) }
{
    let mut globals = Vec::new(alloc);
    for object in packages {
        push_zeros(&mut globals, object.variables())?;
    }
    Ok(globals)
}
