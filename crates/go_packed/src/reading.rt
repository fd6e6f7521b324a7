//! Objects from their tokens.
ghost use Rattle.std.specs.Prelude.{◌≡◌, IfOk};
ghost use Rattle.go_packed.specs.Reading as reading;
ghost use Rattle.go_packed.specs.Reading.{read_list};

use crate::source::Source;
use go_code::cell::Cell;
use go_code::function::Function;
use go_code::instr::{
    AccessInstr, CallInstr, FrameInstr, Instr, JumpInstr, OutputInstr, PartInstr, RowInstr,
};
use go_code::object::Object;
use go_code::object::function::PackageFunction;
use go_code::object::variable::PackageVariable;
use go_code::operator::{Operator, SliceOperator, TextOperator};
use go_code::setup::Setup;
use go_const::kind::IntKind;
use go_const::operator::{ArithmeticOperator, ComparisonOperator, ShiftOperator};
use go_symbol::Symbol;
use go_text::edition::Edition;
use std::alloc::{AllocError, Global};

/// The integer type of a number.
fn kind_at(number: usize) -> IntKind
    ensures { result ≡ reading.kind_at number }
{
    match number {
        0 => IntKind::Int,
        1 => IntKind::Int8,
        2 => IntKind::Int16,
        3 => IntKind::Int32,
        4 => IntKind::Int64,
        5 => IntKind::Uint,
        6 => IntKind::Uint8,
        7 => IntKind::Uint16,
        8 => IntKind::Uint32,
        _ => IntKind::Uint64,
    }
}

/// The operator on integers of a number.
fn arithmetic_at(number: usize) -> ArithmeticOperator
    ensures { result ≡ reading.arithmetic_at number }
{
    match number {
        0 => ArithmeticOperator::Add,
        1 => ArithmeticOperator::Subtract,
        2 => ArithmeticOperator::Multiply,
        3 => ArithmeticOperator::Divide,
        4 => ArithmeticOperator::Remainder,
        5 => ArithmeticOperator::BitAnd,
        6 => ArithmeticOperator::BitOr,
        7 => ArithmeticOperator::BitXor,
        _ => ArithmeticOperator::AndNot,
    }
}

/// The comparison of a number.
fn comparison_at(number: usize) -> ComparisonOperator
    ensures { result ≡ reading.comparison_at number }
{
    match number {
        0 => ComparisonOperator::Equal,
        1 => ComparisonOperator::NotEqual,
        2 => ComparisonOperator::Less,
        3 => ComparisonOperator::LessOrEqual,
        4 => ComparisonOperator::Greater,
        _ => ComparisonOperator::GreaterOrEqual,
    }
}

/// The access of a form.
fn access_by<P>(form: usize, first: P, count: usize) -> AccessInstr<P>
    ensures { result ≡ reading.access_by form first count }
{
    match form {
        0 => AccessInstr::Load { first, count },
        1 => AccessInstr::Store { first, count },
        2 => AccessInstr::LoadAt { first, count },
        _ => AccessInstr::StoreAt { first, count },
    }
}

/// The jump of a tag.
fn jump_by(tag: usize, by: usize) -> JumpInstr
    ensures { result ≡ reading.jump_by tag by }
{
    match tag {
        18 => JumpInstr::Jump(by),
        19 => JumpInstr::JumpIf(by),
        20 => JumpInstr::JumpIfNot(by),
        _ => JumpInstr::LoopIf(by),
    }
}

/// The edition of a number; the first for a number of none.
fn edition_at(number: usize) -> Edition
    ensures { result ≡ reading.edition_at number }
{
    match number {
        2 => Edition::Two,
        _ => Edition::One,
    }
}

impl<'a> Source<'a> {
    /// Passes the operator of a tag.
    fn operator(&mut self, tag: usize) -> Operator
        ensures { reading.operator_by tag self.old ≡ (result, self.new) }
    {
        match tag {
            26 => {
                let operator = arithmetic_at(self.number());
                Operator::Arithmetic(operator, kind_at(self.number()))
            }
            27 => Operator::Shift(ShiftOperator::Left, kind_at(self.number())),
            28 => Operator::Shift(ShiftOperator::Right, kind_at(self.number())),
            29 => Operator::Negate(kind_at(self.number())),
            30 => Operator::Complement(kind_at(self.number())),
            31 => Operator::Convert(kind_at(self.number())),
            32 => Operator::Not,
            33 => Operator::Compare(comparison_at(self.number())),
            34 => Operator::Equal(self.number()),
            35 => Operator::Text(TextOperator::At),
            36 => Operator::Text(TextOperator::Length),
            37 => Operator::Text(TextOperator::Join),
            45 => Operator::Text(TextOperator::Cut),
            46 => Operator::Slice(SliceOperator::Length),
            47 => Operator::Slice(SliceOperator::Capacity),
            _ => Operator::Slice(SliceOperator::Cut),
        }
    }

    /// Passes the symbol that comes first.
    fn symbol(&mut self, alloc: Global) -> Result<Symbol, AllocError>
        ensures { IfOk result (λ symbol. reading.read_symbol self.old ≡ (symbol, self.new)) }
    {
        let path = self.name(alloc)?;
        let name = self.name(alloc)?;
        Ok(Symbol::new(path, name))
    }

    /// Passes a slice.
    fn slice(&mut self) -> Cell
        ensures { reading.slice_then self.old ≡ (result, self.new) }
    {
        let row = self.number();
        let start = self.number();
        let length = self.number();
        let capacity = self.number();
        Cell::Slice {
            row,
            start,
            length,
            capacity,
        }
    }

    /// Passes the cell of a tag.
    fn cell_by(&mut self, alloc: Global, tag: usize) -> Result<Cell, AllocError>
        ensures { IfOk result (λ cell. reading.cell_by tag self.old ≡ (cell, self.new)) }
    {
        match tag {
            0 => Ok(Cell::Int(self.integer())),
            1 => Ok(Cell::Bool(false)),
            2 => Ok(Cell::Bool(true)),
            3 => Ok(Cell::Text(self.text(alloc)?)),
            _ => Ok(self.slice()),
        }
    }

    /// Passes the instruction of a tag that is about the newest frame's stack alone.
    fn frame(&mut self, alloc: Global, tag: usize) -> Result<FrameInstr, AllocError>
        ensures { IfOk result (λ instr. reading.frame_by tag self.old ≡ (instr, self.new)) }
    {
        match tag {
            4 => Ok(FrameInstr::Pop(self.number())),
            5 => {
                let count = self.number();
                let times = self.number();
                Ok(FrameInstr::Repeat { count, times })
            }
            _ => Ok(FrameInstr::Push(self.cell_by(alloc, tag)?)),
        }
    }

    /// Passes the access of a form to a frame's cells.
    fn local(&mut self, form: usize) -> AccessInstr<usize>
        ensures { reading.local_by form self.old ≡ (result, self.new) }
    {
        let first = self.number();
        let count = self.number();
        access_by(form, first, count)
    }

    /// Passes the access of a form to the cells of package variables.
    fn global(&mut self, alloc: Global, form: usize) -> Result<AccessInstr<Symbol>, AllocError>
        ensures { IfOk result (λ instr. reading.global_by form self.old ≡ (instr, self.new)) }
    {
        let first = self.symbol(alloc)?;
        let count = self.number();
        Ok(access_by(form, first, count))
    }

    /// Passes the instruction of a tag that is about parts.
    fn part(&mut self, tag: usize) -> PartInstr
        ensures { reading.part_by tag self.old ≡ (result, self.new) }
    {
        let first = self.number();
        if tag == 14 {
            return PartInstr::Move(first);
        }
        if tag == 43 {
            return PartInstr::Reach(first);
        }
        let second = self.number();
        match tag {
            15 => PartInstr::Index {
                count: first,
                size: second,
            },
            16 => PartInstr::Pick {
                count: first,
                size: second,
            },
            _ => PartInstr::Part {
                whole: first,
                first: second,
                count: self.number(),
            },
        }
    }

    /// Passes the instruction of a tag that is about rows.
    fn row(&mut self, tag: usize) -> RowInstr
        ensures { reading.row_by tag self.old ≡ (result, self.new) }
    {
        let first = self.number();
        match tag {
            38 => RowInstr::Make(first),
            39 => RowInstr::Get(first),
            40 => RowInstr::GetAt(first),
            41 => RowInstr::SetAt(first),
            _ => RowInstr::Append {
                size: first,
                count: self.number(),
            },
        }
    }

    /// Passes the instruction of a tag that is about the output.
    fn output(&mut self, tag: usize) -> OutputInstr
        ensures { reading.output_by tag self.old ≡ (result, self.new) }
    {
        match tag {
            22 => OutputInstr::Print(self.number()),
            _ => OutputInstr::Panic,
        }
    }

    /// Passes the call of a tag, or the way back.
    fn call(&mut self, alloc: Global, tag: usize) -> Result<CallInstr<Symbol>, AllocError>
        ensures { IfOk result (λ instr. reading.call_by tag self.old ≡ (instr, self.new)) }
    {
        match tag {
            24 => Ok(CallInstr::Call(self.symbol(alloc)?)),
            _ => Ok(CallInstr::Return(self.number())),
        }
    }

    /// Passes the instruction that comes first.
    fn instr(&mut self, alloc: Global) -> Result<Instr<Symbol>, AllocError>
        ensures { IfOk result (λ instr. reading.read_instr self.old ≡ (instr, self.new)) }
    {
        let tag = self.number();
        if tag < 6 {
            Ok(Instr::Frame(self.frame(alloc, tag)?))
        } else if tag < 10 {
            Ok(Instr::Local(self.local(tag - 6)))
        } else if tag < 14 {
            Ok(Instr::Global(self.global(alloc, tag - 10)?))
        } else if tag < 18 {
            Ok(Instr::Part(self.part(tag)))
        } else if tag < 22 {
            Ok(Instr::Jump(jump_by(tag, self.number())))
        } else if tag < 24 {
            Ok(Instr::Output(self.output(tag)))
        } else if tag < 26 {
            Ok(Instr::Calls(self.call(alloc, tag)?))
        } else if tag < 38 {
            Ok(Instr::Operate(self.operator(tag)))
        } else if tag < 43 {
            Ok(Instr::Row(self.row(tag)))
        } else if tag == 43 {
            Ok(Instr::Part(self.part(tag)))
        } else if tag == 44 {
            Ok(Instr::Frame(self.frame(alloc, tag)?))
        } else {
            Ok(Instr::Operate(self.operator(tag)))
        }
    }

    /// Passes a code behind its length.
    fn code(&mut self, alloc: Global) -> Result<Vec<Instr<Symbol>>, AllocError>
        ensures { IfOk result (λ code. read_list reading.read_instr self.old ≡ (code.items, self.new)) }
    {
        let count = self.number();
        let mut code = Vec::with_capacity(alloc, count)?;
        for done in 0..count {
            code.push(self.instr(alloc)?)?;
        }
        Ok(code)
    }

    /// Passes the cell that comes first.
    fn cell(&mut self, alloc: Global) -> Result<Cell, AllocError>
        ensures { IfOk result (λ cell. reading.read_cell self.old ≡ (cell, self.new)) }
    {
        let tag = self.number();
        self.cell_by(alloc, tag)
    }

    /// Passes cells behind their number.
    fn cells(&mut self, alloc: Global) -> Result<Vec<Cell>, AllocError>
        ensures { IfOk result (λ cells. read_list reading.read_cell self.old ≡ (cells.items, self.new)) }
    {
        let count = self.number();
        let mut cells = Vec::with_capacity(alloc, count)?;
        for done in 0..count {
            cells.push(self.cell(alloc)?)?;
        }
        Ok(cells)
    }

    /// Passes the variable that comes first.
    fn variable(&mut self, alloc: Global) -> Result<PackageVariable, AllocError>
        ensures { IfOk result (λ variable. reading.read_variable self.old ≡ (variable, self.new)) }
    {
        let name = self.name(alloc)?;
        let zero = self.cells(alloc)?;
        Ok(PackageVariable::new(name, zero))
    }

    /// Passes variables behind their number.
    fn variables(&mut self, alloc: Global) -> Result<Vec<PackageVariable>, AllocError>
        ensures { IfOk result (λ variables. read_list reading.read_variable self.old ≡ (variables.items, self.new)) }
    {
        let count = self.number();
        let mut variables = Vec::with_capacity(alloc, count)?;
        for done in 0..count {
            variables.push(self.variable(alloc)?)?;
        }
        Ok(variables)
    }

    /// Passes the function that comes first.
    fn function(&mut self, alloc: Global) -> Result<PackageFunction, AllocError>
        ensures { IfOk result (λ function. reading.read_function self.old ≡ (function, self.new)) }
    {
        let name = self.name(alloc)?;
        let parameters = self.number();
        let cells = self.number();
        let code = self.code(alloc)?;
        Ok(PackageFunction::new(name, Function::new(parameters, cells, code)))
    }

    /// Passes functions behind their number.
    fn functions(&mut self, alloc: Global) -> Result<Vec<PackageFunction>, AllocError>
        ensures { IfOk result (λ functions. read_list reading.read_function self.old ≡ (functions.items, self.new)) }
    {
        let count = self.number();
        let mut functions = Vec::with_capacity(alloc, count)?;
        for done in 0..count {
            functions.push(self.function(alloc)?)?;
        }
        Ok(functions)
    }

    /// Passes the setup that comes first.
    fn setup(&mut self, alloc: Global) -> Result<Setup<Symbol>, AllocError>
        ensures { IfOk result (λ setup. reading.read_setup self.old ≡ (setup, self.new)) }
    {
        let cells = self.number();
        let code = self.code(alloc)?;
        Ok(Setup::new(cells, code))
    }

    /// Passes setups behind their number.
    fn setups(&mut self, alloc: Global) -> Result<Vec<Setup<Symbol>>, AllocError>
        ensures { IfOk result (λ setups. read_list reading.read_setup self.old ≡ (setups.items, self.new)) }
    {
        let count = self.number();
        let mut setups = Vec::with_capacity(alloc, count)?;
        for done in 0..count {
            setups.push(self.setup(alloc)?)?;
        }
        Ok(setups)
    }

    /// Passes an object. An `Err` only where memory ran out.
    pub(crate) fn object(&mut self, alloc: Global) -> Result<Object, AllocError>
        ensures { IfOk result (λ object. object ≡ reading.unpacked_object self.old) }
    {
        let path = self.name(alloc)?;
        let name = self.name(alloc)?;
        let edition = edition_at(self.number());
        let variables = self.variables(alloc)?;
        let functions = self.functions(alloc)?;
        let setups = self.setups(alloc)?;
        Ok(Object::new(path, name, edition, variables, functions, setups))
    }
}
