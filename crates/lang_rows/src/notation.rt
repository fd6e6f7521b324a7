//! Code, written as words with a space between each two.
use go_code::cell::Cell;
use go_code::instr::{
    AccessInstr, CallInstr, FrameInstr, Instr, JumpInstr, OutputInstr, PartInstr,
};
use go_code::operator::{Operator, TextOperator};
use go_const::constant::Text;
use go_const::kind::IntKind;
use go_const::operator::{ArithmeticOperator, ComparisonOperator, ShiftOperator};
use std::alloc::Global;
use test_rows::answers::RowError;

/// A number; none makes no row.
pub(crate) fn number(text: &str) -> Result<usize, RowError> {
    match text.parse::<usize>() {
        Ok(number) => Ok(number),
        Err(_) => Err(RowError::NoRow),
    }
}

/// A word in two parts, with a colon between them; without one it makes no row.
pub(crate) fn parts(word: &str) -> Result<(&str, &str), RowError> {
    match word.split_once(':') {
        Some(parts) => Ok(parts),
        None => Err(RowError::NoRow),
    }
}

/// A cell: `i` and a number, `b` and 1 or 0, `t` and a text, or `h` and the bytes of a text by
/// hexadecimal digits.
pub(crate) fn cell(alloc: Global, kind: &str, text: &str) -> Result<Cell, RowError> {
    if kind == "b" {
        return Ok(Cell::Bool(text == "1"));
    }
    if kind == "t" {
        return Ok(Cell::Text(Text::new(alloc, text.as_bytes())?));
    }
    if kind == "h" {
        return hexadecimal(alloc, text);
    }
    match text.parse::<i128>() {
        Ok(number) if kind == "i" => Ok(Cell::Int(number)),
        _ => Err(RowError::NoRow),
    }
}

/// The text of bytes that are written by hexadecimal digits.
fn hexadecimal(alloc: Global, digits: &str) -> Result<Cell, RowError> {
    match hex::decode(alloc, digits) {
        Ok(bytes) => Ok(Cell::Text(Text::new(alloc, &bytes)?)),
        Err(_) => Err(RowError::NoRow),
    }
}

/// Up to three numbers with points between them; the missing ones are 0.
pub(crate) fn numbers(text: &str) -> Result<(usize, usize, usize), RowError> {
    if text.is_empty() {
        return Ok((0, 0, 0));
    }
    let (first, others) = text.split_once('.').unwrap_or((text, "0"));
    let (second, third) = others.split_once('.').unwrap_or((others, "0"));
    Ok((number(first)?, number(second)?, number(third)?))
}

/// The integer types by their names.
static KINDS: [(&str, IntKind); 10] = [
    ("int", IntKind::Int),
    ("int8", IntKind::Int8),
    ("int16", IntKind::Int16),
    ("int32", IntKind::Int32),
    ("int64", IntKind::Int64),
    ("uint", IntKind::Uint),
    ("uint8", IntKind::Uint8),
    ("uint16", IntKind::Uint16),
    ("uint32", IntKind::Uint32),
    ("uint64", IntKind::Uint64),
];

/// The operators on two integers of a type, but for shifts.
static ARITHMETIC: [(&str, ArithmeticOperator); 9] = [
    ("+", ArithmeticOperator::Add),
    ("-", ArithmeticOperator::Subtract),
    ("*", ArithmeticOperator::Multiply),
    ("/", ArithmeticOperator::Divide),
    ("%", ArithmeticOperator::Remainder),
    ("&", ArithmeticOperator::BitAnd),
    ("|", ArithmeticOperator::BitOr),
    ("^", ArithmeticOperator::BitXor),
    ("&^", ArithmeticOperator::AndNot),
];

/// The operators that aren't on integers of a type.
static OTHERS: [(&str, Operator); 8] = [
    ("not", Operator::Not),
    ("<", Operator::Compare(ComparisonOperator::Less)),
    ("<=", Operator::Compare(ComparisonOperator::LessOrEqual)),
    (">", Operator::Compare(ComparisonOperator::Greater)),
    (">=", Operator::Compare(ComparisonOperator::GreaterOrEqual)),
    ("at", Operator::Text(TextOperator::At)),
    ("long", Operator::Text(TextOperator::Length)),
    ("join", Operator::Text(TextOperator::Join)),
];

/// What a word stands for in a table.
fn found<T: Copy>(table: &[(&str, T)], word: &str) -> Option<T> {
    for (name, value) in table {
        if *name == word {
            return Some(*value);
        }
    }
    None
}

/// The operator of a name, on integers of a type.
fn integer_operator(name: &str, kind: IntKind) -> Option<Operator> {
    if let Some(operator) = found(&ARITHMETIC, name) {
        return Some(Operator::Arithmetic(operator, kind));
    }
    match first_byte(name) {
        b'<' => Some(Operator::Shift(ShiftOperator::Left, kind)),
        b'>' => Some(Operator::Shift(ShiftOperator::Right, kind)),
        b'm' => Some(Operator::Negate(kind)),
        b'f' => Some(Operator::Complement(kind)),
        b't' => Some(Operator::Convert(kind)),
        _ => None,
    }
}

/// The first byte of a name.
fn first_byte(name: &str) -> u8 {
    match name.as_bytes().first() {
        Some(byte) => *byte,
        None => 0,
    }
}

/// What loads and stores: `l`, `s` and at an offset `L`, `S` the cells of the frame, `g`, `k`, `G`,
/// `K` those of the package variables. Where these lie is said by numbers in an image, and in an
/// object by symbols, as in `g:lib/v.2`.
fn access<P: Drop>(letter: u8, first: P, count: usize) -> Option<AccessInstr<P>> {
    match letter {
        b'l' | b'g' => Some(AccessInstr::Load { first, count }),
        b's' | b'k' => Some(AccessInstr::Store { first, count }),
        b'L' | b'G' => Some(AccessInstr::LoadAt { first, count }),
        b'S' | b'K' => Some(AccessInstr::StoreAt { first, count }),
        _ => None,
    }
}

/// What loads and stores cells of the package variables: a place, a point and how many.
pub(crate) fn global<P: Drop>(name: &str, first: P, count: usize) -> Result<Instr<P>, RowError> {
    match access(first_byte(name), first, count) {
        Some(access) => Ok(Instr::Global(access)),
        None => Err(RowError::NoRow),
    }
}

/// What is about the stack and about parts: `o` pops, `x` repeats, `m` moves, `n` is an index, `P`
/// picks, `q` keeps a part.
fn shaping<R>(name: &str, first: usize, count: usize, third: usize) -> Option<Instr<R>> {
    match first_byte(name) {
        b'o' => Some(Instr::Frame(FrameInstr::Pop(first))),
        b'x' => Some(Instr::Frame(FrameInstr::Repeat {
            count: first,
            times: count,
        })),
        b'm' => Some(Instr::Part(PartInstr::Move(first))),
        b'n' => Some(Instr::Part(PartInstr::Index {
            count: first,
            size: count,
        })),
        b'P' => Some(Instr::Part(PartInstr::Pick {
            count: first,
            size: count,
        })),
        b'q' => Some(Instr::Part(PartInstr::Part {
            whole: first,
            first: count,
            count: third,
        })),
        _ => None,
    }
}

/// What leads elsewhere: `j` jumps, `y` if true and `z` if false, `w` loops, `p` prints, `!`
/// panics, `r` returns.
fn leading<R>(name: &str, first: usize) -> Option<Instr<R>> {
    match first_byte(name) {
        b'j' => Some(Instr::Jump(JumpInstr::Jump(first))),
        b'y' => Some(Instr::Jump(JumpInstr::JumpIf(first))),
        b'z' => Some(Instr::Jump(JumpInstr::JumpIfNot(first))),
        b'w' => Some(Instr::Jump(JumpInstr::LoopIf(first))),
        b'p' => Some(Instr::Output(OutputInstr::Print(first))),
        b'!' => Some(Instr::Output(OutputInstr::Panic)),
        b'r' => Some(Instr::Calls(CallInstr::Return(first))),
        _ => None,
    }
}

/// An instruction whose numbers are known: by one letter, or else an operator by its name.
fn numbered<R>(name: &str, first: usize, second: usize, third: usize) -> Option<Instr<R>> {
    if name.len() > 1 || name == "<" || name == ">" {
        let operator = found(&OTHERS, name).unwrap_or(Operator::Equal(first));
        return Some(Instr::Operate(operator));
    }
    if matches!(first_byte(name), b'l' | b's' | b'L' | b'S') {
        return Some(Instr::Local(access(first_byte(name), first, second)?));
    }
    if let Some(instr) = shaping(name, first, second, third) {
        return Some(instr);
    }
    leading(name, first)
}

/// An instruction that refers to no function or package variable: a cell is pushed by `i`, `b`, `t` or `h`; an operator
/// stands before its type; the others have up to three numbers.
pub(crate) fn plain<R>(alloc: Global, name: &str, text: &str) -> Result<Instr<R>, RowError> {
    if matches!(name, "i" | "b" | "t" | "h") {
        return Ok(Instr::Frame(FrameInstr::Push(cell(alloc, name, text)?)));
    }
    if let Some(kind) = found(&KINDS, text) {
        return match integer_operator(name, kind) {
            Some(operator) => Ok(Instr::Operate(operator)),
            None => Err(RowError::NoRow),
        };
    }
    let (first, second, third) = numbers(text)?;
    match numbered(name, first, second, third) {
        Some(instr) => Ok(instr),
        None => Err(RowError::NoRow),
    }
}
