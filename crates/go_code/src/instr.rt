//! Instructions.
use crate::cell::Cell;
use crate::operator::Operator;

/// What is about the newest frame's stack alone.
#[derive(Drop)]
pub enum FrameInstr {
    /// The cell goes on top of the stack.
    Push(Cell),
    /// So many cells leave the stack.
    Pop(usize),
    /// A row leaves the stack, and comes back so many times.
    Repeat {
        /// How many cells the row has.
        count: usize,
        /// How often it comes back.
        times: usize,
    },
}

/// How cells are loaded on the newest frame's stack and stored from it. `P` is what it says their
/// place by.
#[derive(Drop)]
pub enum AccessInstr<P> {
    /// Cells side by side are loaded.
    Load {
        /// Where the first is.
        first: P,
        /// How many.
        count: usize,
    },
    /// Cells leave the stack and are stored side by side.
    Store {
        /// Where the first is.
        first: P,
        /// How many.
        count: usize,
    },
    /// An offset leaves the stack, and the cells are loaded that lie by it behind the first.
    LoadAt {
        /// Where the first is at the offset 0.
        first: P,
        /// How many.
        count: usize,
    },
    /// An offset leaves the stack, then cells, which are stored by it behind the first.
    StoreAt {
        /// Where the first is at the offset 0.
        first: P,
        /// How many.
        count: usize,
    },
}

/// What leads to parts of arrays, structs and slices: by offsets, or on the stack.
#[derive(Clone, Copy)]
pub enum PartInstr {
    /// An offset becomes so much greater.
    Move(usize),
    /// An index leaves the stack, and the offset below it becomes that of the element.
    Index {
        /// How many elements there are.
        count: usize,
        /// How many cells an element has.
        size: usize,
    },
    /// An index leaves the stack, and of the slice below it, which stays, comes the offset of the
    /// element in its row, whose elements have so many cells.
    Reach(usize),
    /// An index leaves the stack, and of the array below it the element stays.
    Pick {
        /// How many elements there are.
        count: usize,
        /// How many cells an element has.
        size: usize,
    },
    /// Of so many cells on top of the stack a part stays.
    Part {
        /// How many cells there are.
        whole: usize,
        /// How many of them are below the part.
        first: usize,
        /// How many cells the part has.
        count: usize,
    },
}

/// What is about the rows that slices are parts of. A row has the cells of its elements side by side;
/// an offset is counted in cells, from the start of the row.
#[derive(Clone, Copy)]
pub enum RowInstr {
    /// A capacity, a length, and the zero cells of an element, so many, leave the stack, and a slice
    /// of a new row comes.
    Make(usize),
    /// An index and a slice leave the stack, and the cells of the element come, so many.
    Get(usize),
    /// An offset and a slice leave the stack, and so many cells come that lie there in the row.
    GetAt(usize),
    /// So many cells, an offset and a slice leave the stack, and the cells are stored there in the row.
    SetAt(usize),
    /// Elements and the slice below them leave the stack, and a slice comes that has them too: of the
    /// same row where there is room, else of a new one.
    Append {
        /// How many cells an element has.
        size: usize,
        /// How many elements.
        count: usize,
    },
}

/// Where the newest frame goes on. A jump forward passes so many instructions; a jump back is
/// counted from the instruction behind it.
#[derive(Clone, Copy)]
pub enum JumpInstr {
    /// Forward.
    Jump(usize),
    /// A truth value leaves the stack; forward if it is true.
    JumpIf(usize),
    /// A truth value leaves the stack; forward if it is false.
    JumpIfNot(usize),
    /// A truth value leaves the stack; if it is true a tick is taken, and it goes back.
    LoopIf(usize),
}

/// What takes cells from the stack for the program as a whole.
#[derive(Clone, Copy)]
pub enum OutputInstr {
    /// So many cells leave the stack, and are printed as a line.
    Print(usize),
    /// A text leaves the stack, and the program panics with it.
    Panic,
}

/// What opens a frame or leaves it. `R` is what it refers to functions by.
#[derive(Drop)]
pub enum CallInstr<R> {
    /// A function is called; its parameters leave the stack.
    Call(R),
    /// The function or the setup is over; so many cells go to the caller's stack.
    Return(usize),
}

/// One instruction, by what it is about. `R` is what it refers to functions and package variables
/// by: a `Symbol` in an object, and in an image the function's number and that of the variable's
/// first cell. Each group has one definition, and one function in the machine.
#[derive(Drop)]
pub enum Instr<R> {
    /// About the newest frame's stack alone.
    Frame(FrameInstr),
    /// About the cells of the newest frame.
    Local(AccessInstr<usize>),
    /// About the cells of the package variables.
    Global(AccessInstr<R>),
    /// About parts of arrays, structs and slices.
    Part(PartInstr),
    /// About the rows of slices.
    Row(RowInstr),
    /// An operator; its operands leave the stack, and what it gives comes on top.
    Operate(Operator),
    /// A jump.
    Jump(JumpInstr),
    /// About the output.
    Output(OutputInstr),
    /// A call, or the way back from it.
    Calls(CallInstr<R>),
}
