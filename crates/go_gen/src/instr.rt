//! Single instructions.
ghost use Rattle.std.specs.Prelude.{◌≡◌, IfOk};
ghost use Rattle.go_code.specs.declared.cell.Cell.TheVariants.{Slice};
ghost use Rattle.go_code.specs.declared.instr.Instr.TheVariants.{Calls as By_call};
ghost use Rattle.go_code.specs.declared.instr.CallInstr.TheVariants.{Call};
ghost use Rattle.go_meaning.specs.Values as values;
ghost use Rattle.go_meaning.specs.Choices.{cell_of};
ghost use Rattle.go_gen.specs.Translation.{load, store};

use go_code::cell::Cell;
use go_code::instr::{AccessInstr, CallInstr, Instr};
use go_const::constant::{Const, Text};
use go_symbol::Symbol;
use go_types::types::{Basic, Untyped};
use std::alloc::{AllocError, Global};

/// Cells of the frame are loaded.
pub(crate) fn load(first: usize, count: usize) -> Instr<Symbol>
    ensures { result ≡ load first count }
{
    Instr::Local(AccessInstr::Load { first, count })
}

/// Cells of the frame are stored.
pub(crate) fn store(first: usize, count: usize) -> Instr<Symbol>
    ensures { result ≡ store first count }
{
    Instr::Local(AccessInstr::Store { first, count })
}

/// The cell of a constant.
pub(crate) fn constant_cell(alloc: Global, constant: &Const) -> Result<Cell, AllocError>
    ensures { IfOk result (λ cell. cell ≡ cell_of constant.now) }
{
    match constant {
        Const::Integer(number) => Ok(Cell::Int(*number)),
        Const::Text(text) => Ok(Cell::Text(text.copy()?)),
        Const::Bool(truth) => Ok(Cell::Bool(*truth)),
    }
}

/// The cell of a basic type's zero value.
/// [The zero value](https://go.dev/ref/spec#The_zero_value)
pub(crate) fn zero_cell(alloc: Global, of: Basic) -> Result<Cell, AllocError>
    ensures { IfOk result (λ cell. cell ≡ values.zero_cell of) }
{
    match of {
        Basic::Bool => Ok(Cell::Bool(false)),
        Basic::String => Ok(Cell::Text(Text::new(alloc, &[])?)),
        Basic::Integer(_) => Ok(Cell::Int(0)),
        Basic::Untyped(Untyped::Bool) => Ok(Cell::Bool(false)),
        Basic::Untyped(Untyped::String) => Ok(Cell::Text(Text::new(alloc, &[])?)),
        Basic::Untyped(_) => Ok(Cell::Int(0)),
    }
}

/// The cell of the slice without elements.
pub(crate) fn no_slice() -> Cell
    ensures { result ≡ Slice 0 0 0 0 }
{
    Cell::Slice {
        row: 0,
        start: 0,
        length: 0,
        capacity: 0,
    }
}

/// A call of a function.
pub(crate) fn call(function: &Symbol) -> Result<Instr<Symbol>, AllocError>
    ensures { IfOk result (λ i. i ≡ By_call (Call function.now)) }
{
    Ok(Instr::Calls(CallInstr::Call(function.copy()?)))
}
