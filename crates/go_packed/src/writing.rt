//! Objects as tokens.
ghost use Rattle.std.specs.Prelude.{◌≡◌, ◌++◌, OnOk};
ghost use Rattle.go_packed.specs.Spelling as spelling;

use crate::piece::Piece::{Integer, Name, Number, Text};
use crate::sink::Sink;
use go_code::cell::Cell;
use go_code::instr::{
    AccessInstr, CallInstr, FrameInstr, Instr, JumpInstr, OutputInstr, PartInstr, RowInstr,
};
use go_code::object::Object;
use go_code::object::function::PackageFunction;
use go_code::object::variable::PackageVariable;
use go_code::operator::{Operator, SliceOperator, TextOperator};
use go_code::setup::Setup;
use go_const::kind::IntKind;
use go_const::operator::{ArithmeticOperator, ComparisonOperator, ShiftOperator};
use go_symbol::Symbol;
use std::alloc::AllocError;

/// The number of an integer type.
fn kind_number(kind: IntKind) -> usize
    ensures { result ≡ spelling.kind_number kind }
{
    match kind {
        IntKind::Int => 0,
        IntKind::Int8 => 1,
        IntKind::Int16 => 2,
        IntKind::Int32 => 3,
        IntKind::Int64 => 4,
        IntKind::Uint => 5,
        IntKind::Uint8 => 6,
        IntKind::Uint16 => 7,
        IntKind::Uint32 => 8,
        IntKind::Uint64 => 9,
    }
}

/// The number of an operator on integers.
fn arithmetic_number(operator: ArithmeticOperator) -> usize
    ensures { result ≡ spelling.arithmetic_number operator }
{
    match operator {
        ArithmeticOperator::Add => 0,
        ArithmeticOperator::Subtract => 1,
        ArithmeticOperator::Multiply => 2,
        ArithmeticOperator::Divide => 3,
        ArithmeticOperator::Remainder => 4,
        ArithmeticOperator::BitAnd => 5,
        ArithmeticOperator::BitOr => 6,
        ArithmeticOperator::BitXor => 7,
        ArithmeticOperator::AndNot => 8,
    }
}

/// The number of a comparison.
fn comparison_number(operator: ComparisonOperator) -> usize
    ensures { result ≡ spelling.comparison_number operator }
{
    match operator {
        ComparisonOperator::Equal => 0,
        ComparisonOperator::NotEqual => 1,
        ComparisonOperator::Less => 2,
        ComparisonOperator::LessOrEqual => 3,
        ComparisonOperator::Greater => 4,
        ComparisonOperator::GreaterOrEqual => 5,
    }
}

impl<'a> Sink<'a> {
    /// Writes an operator.
    fn put_operator(&mut self, operator: Operator) -> Result<(), AllocError>
        ensures { OnOk result (self.new ≡ self.old ++ spelling.operator_tokens operator) }
    {
        match operator {
            Operator::Arithmetic(operator, kind) => {
                let operator = arithmetic_number(operator);
                self.put_all(&[Number(26), Number(operator), Number(kind_number(kind))])
            }
            Operator::Shift(ShiftOperator::Left, kind) => {
                self.put_all(&[Number(27), Number(kind_number(kind))])
            }
            Operator::Shift(ShiftOperator::Right, kind) => {
                self.put_all(&[Number(28), Number(kind_number(kind))])
            }
            Operator::Negate(kind) => self.put_all(&[Number(29), Number(kind_number(kind))]),
            Operator::Complement(kind) => self.put_all(&[Number(30), Number(kind_number(kind))]),
            Operator::Convert(kind) => self.put_all(&[Number(31), Number(kind_number(kind))]),
            Operator::Not => self.put_all(&[Number(32)]),
            Operator::Compare(operator) => {
                self.put_all(&[Number(33), Number(comparison_number(operator))])
            }
            Operator::Equal(count) => self.put_all(&[Number(34), Number(count)]),
            Operator::Text(TextOperator::At) => self.put_all(&[Number(35)]),
            Operator::Text(TextOperator::Length) => self.put_all(&[Number(36)]),
            Operator::Text(TextOperator::Join) => self.put_all(&[Number(37)]),
            Operator::Text(TextOperator::Cut) => self.put_all(&[Number(45)]),
            Operator::Slice(SliceOperator::Length) => self.put_all(&[Number(46)]),
            Operator::Slice(SliceOperator::Capacity) => self.put_all(&[Number(47)]),
            Operator::Slice(SliceOperator::Cut) => self.put_all(&[Number(48)]),
        }
    }

    /// Writes a cell.
    fn put_cell(&mut self, cell: &'a Cell) -> Result<(), AllocError>
        ensures { OnOk result (self.new ≡ self.old ++ spelling.cell_tokens cell.now) }
    {
        match cell {
            Cell::Int(number) => self.put_all(&[Number(0), Integer(*number)]),
            Cell::Bool(false) => self.put_all(&[Number(1)]),
            Cell::Bool(true) => self.put_all(&[Number(2)]),
            Cell::Text(text) => self.put_all(&[Number(3), Text(text)]),
            Cell::Slice {
                row,
                start,
                length,
                capacity,
            } => self.put_all(&[
                Number(44),
                Number(*row),
                Number(*start),
                Number(*length),
                Number(*capacity),
            ]),
        }
    }

    /// Writes an instruction about the newest frame's stack alone.
    fn put_frame(&mut self, instr: &'a FrameInstr) -> Result<(), AllocError>
        ensures { OnOk result (self.new ≡ self.old ++ spelling.frame_tokens instr.now) }
    {
        match instr {
            FrameInstr::Push(cell) => self.put_cell(cell),
            FrameInstr::Pop(count) => self.put_all(&[Number(4), Number(*count)]),
            FrameInstr::Repeat { count, times } => {
                self.put_all(&[Number(5), Number(*count), Number(*times)])
            }
        }
    }

    /// Writes an access to a frame's cells.
    fn put_local(&mut self, instr: &AccessInstr<usize>) -> Result<(), AllocError>
        ensures { OnOk result (self.new ≡ self.old ++ spelling.local_tokens instr.now) }
    {
        match instr {
            AccessInstr::Load { first, count } => {
                self.put_all(&[Number(6), Number(*first), Number(*count)])
            }
            AccessInstr::Store { first, count } => {
                self.put_all(&[Number(7), Number(*first), Number(*count)])
            }
            AccessInstr::LoadAt { first, count } => {
                self.put_all(&[Number(8), Number(*first), Number(*count)])
            }
            AccessInstr::StoreAt { first, count } => {
                self.put_all(&[Number(9), Number(*first), Number(*count)])
            }
        }
    }

    /// Writes an access of a tag to the cells of package variables.
    fn put_access(&mut self, tag: usize, first: &'a Symbol, count: usize) -> Result<(), AllocError>
        ensures { OnOk result (self.new ≡ self.old ++ spelling.access_tokens tag first.now count) }
    {
        self.put_all(&[
            Number(tag),
            Name(first.path()),
            Name(first.name()),
            Number(count),
        ])
    }

    /// Writes an access to the cells of package variables.
    fn put_global(&mut self, instr: &'a AccessInstr<Symbol>) -> Result<(), AllocError>
        ensures { OnOk result (self.new ≡ self.old ++ spelling.global_tokens instr.now) }
    {
        match instr {
            AccessInstr::Load { first, count } => self.put_access(10, first, *count),
            AccessInstr::Store { first, count } => self.put_access(11, first, *count),
            AccessInstr::LoadAt { first, count } => self.put_access(12, first, *count),
            AccessInstr::StoreAt { first, count } => self.put_access(13, first, *count),
        }
    }

    /// Writes an instruction about parts.
    fn put_part(&mut self, instr: PartInstr) -> Result<(), AllocError>
        ensures { OnOk result (self.new ≡ self.old ++ spelling.part_tokens instr) }
    {
        match instr {
            PartInstr::Move(by) => self.put_all(&[Number(14), Number(by)]),
            PartInstr::Index { count, size } => {
                self.put_all(&[Number(15), Number(count), Number(size)])
            }
            PartInstr::Pick { count, size } => {
                self.put_all(&[Number(16), Number(count), Number(size)])
            }
            PartInstr::Reach(size) => self.put_all(&[Number(43), Number(size)]),
            PartInstr::Part {
                whole,
                first,
                count,
            } => self.put_all(&[Number(17), Number(whole), Number(first), Number(count)]),
        }
    }

    /// Writes an instruction about rows.
    fn put_row(&mut self, instr: RowInstr) -> Result<(), AllocError>
        ensures { OnOk result (self.new ≡ self.old ++ spelling.row_tokens instr) }
    {
        match instr {
            RowInstr::Make(size) => self.put_all(&[Number(38), Number(size)]),
            RowInstr::Get(size) => self.put_all(&[Number(39), Number(size)]),
            RowInstr::GetAt(count) => self.put_all(&[Number(40), Number(count)]),
            RowInstr::SetAt(count) => self.put_all(&[Number(41), Number(count)]),
            RowInstr::Append { size, count } => {
                self.put_all(&[Number(42), Number(size), Number(count)])
            }
        }
    }

    /// Writes a jump.
    fn put_jump(&mut self, instr: JumpInstr) -> Result<(), AllocError>
        ensures { OnOk result (self.new ≡ self.old ++ spelling.jump_tokens instr) }
    {
        match instr {
            JumpInstr::Jump(by) => self.put_all(&[Number(18), Number(by)]),
            JumpInstr::JumpIf(by) => self.put_all(&[Number(19), Number(by)]),
            JumpInstr::JumpIfNot(by) => self.put_all(&[Number(20), Number(by)]),
            JumpInstr::LoopIf(by) => self.put_all(&[Number(21), Number(by)]),
        }
    }

    /// Writes an instruction about the output.
    fn put_output(&mut self, instr: OutputInstr) -> Result<(), AllocError>
        ensures { OnOk result (self.new ≡ self.old ++ spelling.output_tokens instr) }
    {
        match instr {
            OutputInstr::Print(count) => self.put_all(&[Number(22), Number(count)]),
            OutputInstr::Panic => self.put_all(&[Number(23)]),
        }
    }

    /// Writes a call or the way back.
    fn put_call(&mut self, instr: &'a CallInstr<Symbol>) -> Result<(), AllocError>
        ensures { OnOk result (self.new ≡ self.old ++ spelling.call_tokens instr.now) }
    {
        match instr {
            CallInstr::Call(symbol) => {
                self.put_all(&[Number(24), Name(symbol.path()), Name(symbol.name())])
            }
            CallInstr::Return(count) => self.put_all(&[Number(25), Number(*count)]),
        }
    }

    /// Writes an instruction.
    fn put_instr(&mut self, instr: &'a Instr<Symbol>) -> Result<(), AllocError>
        ensures { OnOk result (self.new ≡ self.old ++ spelling.instr_tokens instr.now) }
    {
        match instr {
            Instr::Frame(instr) => self.put_frame(instr),
            Instr::Local(instr) => self.put_local(instr),
            Instr::Global(instr) => self.put_global(instr),
            Instr::Part(instr) => self.put_part(*instr),
            Instr::Row(instr) => self.put_row(*instr),
            Instr::Operate(operator) => self.put_operator(*operator),
            Instr::Jump(instr) => self.put_jump(*instr),
            Instr::Output(instr) => self.put_output(*instr),
            Instr::Calls(instr) => self.put_call(instr),
        }
    }

    /// Writes a code behind its length.
    fn put_code(&mut self, code: &'a [Instr<Symbol>]) -> Result<(), AllocError>
        ensures { OnOk result (self.new ≡ self.old ++ spelling.list_tokens spelling.instr_tokens code.now) }
    {
        self.put_all(&[Number(code.len())])?;
        for instr in code {
            self.put_instr(instr)?;
        }
        Ok(())
    }

    /// Writes a variable.
    fn put_variable(&mut self, variable: &'a PackageVariable) -> Result<(), AllocError>
        ensures { OnOk result (self.new ≡ self.old ++ spelling.variable_tokens variable.now) }
    {
        let zero = variable.zero();
        self.put_all(&[Name(variable.name()), Number(zero.len())])?;
        for cell in zero {
            self.put_cell(cell)?;
        }
        Ok(())
    }

    /// Writes variables behind their number.
    fn put_variables(&mut self, variables: &'a [PackageVariable]) -> Result<(), AllocError>
        ensures { OnOk result (self.new ≡ self.old ++ spelling.list_tokens spelling.variable_tokens variables.now) }
    {
        self.put_all(&[Number(variables.len())])?;
        for variable in variables {
            self.put_variable(variable)?;
        }
        Ok(())
    }

    /// Writes a function.
    fn put_function(&mut self, function: &'a PackageFunction) -> Result<(), AllocError>
        ensures { OnOk result (self.new ≡ self.old ++ spelling.function_tokens function.now) }
    {
        let body = function.function();
        self.put_all(&[
            Name(function.name()),
            Number(body.parameters()),
            Number(body.cells()),
        ])?;
        self.put_code(body.code())
    }

    /// Writes functions behind their number.
    fn put_functions(&mut self, functions: &'a [PackageFunction]) -> Result<(), AllocError>
        ensures { OnOk result (self.new ≡ self.old ++ spelling.list_tokens spelling.function_tokens functions.now) }
    {
        self.put_all(&[Number(functions.len())])?;
        for function in functions {
            self.put_function(function)?;
        }
        Ok(())
    }

    /// Writes setups behind their number.
    fn put_setups(&mut self, setups: &'a [Setup<Symbol>]) -> Result<(), AllocError>
        ensures { OnOk result (self.new ≡ self.old ++ spelling.list_tokens spelling.setup_tokens setups.now) }
    {
        self.put_all(&[Number(setups.len())])?;
        for setup in setups {
            self.put_all(&[Number(setup.cells())])?;
            self.put_code(setup.code())?;
        }
        Ok(())
    }

    /// Writes an object. An `Err` only where memory ran out.
    pub(crate) fn put_object(&mut self, object: &'a Object) -> Result<(), AllocError>
        ensures { OnOk result (self.new ≡ self.old ++ spelling.object_tokens object.now) }
    {
        self.put_all(&[
            Name(object.path()),
            Name(object.name()),
            Number(object.edition().number() as usize),
        ])?;
        self.put_variables(object.variables())?;
        self.put_functions(object.functions())?;
        self.put_setups(object.setups())
    }
}
