//! Statements.

use crate::expression::{Operator, TypedExpr};
use go_symbol::Symbol;
use go_types::types::GoType;

/// A step from a variable, or from the elements of a slice, to a part.
#[derive(Drop)]
pub enum TypedStep {
    /// To the field of that number. [Selectors](https://go.dev/ref/spec#Selectors)
    Field(usize),
    /// To the element of that index. [Index expressions](https://go.dev/ref/spec#Index_expressions)
    Element(TypedExpr),
}

/// A left side of an assignment.
/// [Assignment statements](https://go.dev/ref/spec#Assignment_statements)
#[derive(Drop)]
pub enum TypedLeft {
    /// The blank one, which drops its value.
    Blank,
    /// A part of a local variable: the variable's type, its number, and the steps to the part,
    /// outermost first.
    Local(GoType, usize, Vec<TypedStep>),
    /// A part of a package's variable: the variable's type, the variable and the steps to the part.
    Global(GoType, Symbol, Vec<TypedStep>),
    /// A part of a slice that is a value: the slice's type, the slice, and the steps to the part, of
    /// which the first is to an element.
    Slice(GoType, TypedExpr, Vec<TypedStep>),
}

/// Values that are due.
#[derive(Drop)]
pub enum TypedSource {
    /// Each by an expression.
    Each(Vec<TypedExpr>),
    /// All by one call, whose results have these types.
    Results(Vec<GoType>, Symbol, Vec<TypedExpr>),
    /// The zero values of these types. [The zero value](https://go.dev/ref/spec#The_zero_value)
    Zeros(Vec<GoType>),
}

/// A statement. [Statements](https://go.dev/ref/spec#Statements)
#[cycle(statements)]
#[derive(Drop)]
pub enum TypedStmt {
    /// Local variables get values; a blank one has no number. Without any it is a declaration of
    /// constants. [Variable declarations](https://go.dev/ref/spec#Variable_declarations)
    Define(Vec<Option<usize>>, TypedSource),
    /// Left sides get values.
    /// [Assignment statements](https://go.dev/ref/spec#Assignment_statements)
    Assign(Vec<TypedLeft>, TypedSource),
    /// A left side gets what an operator makes of it and a value: the type of the part that is
    /// assigned, the left side, the operator and the value.
    /// [IncDec statements](https://go.dev/ref/spec#IncDec_statements)
    Update(GoType, TypedLeft, Operator, TypedExpr),
    /// A call whose results, of these types, are dropped.
    /// [Expression statements](https://go.dev/ref/spec#Expression_statements)
    Run(Vec<GoType>, Symbol, Vec<TypedExpr>),
    /// A call of `fmt.Println` with these operands.
    Print(Vec<TypedExpr>),
    /// A call of `panic`. [Handling panics](https://go.dev/ref/spec#Handling_panics)
    Panic(TypedExpr),
    /// A condition, what is done where it holds, and what is done where it does not.
    /// [If statements](https://go.dev/ref/spec#If_statements)
    If(TypedExpr, Vec<TypedStmt>, Vec<TypedStmt>),
    /// The condition, if there is one, what is done behind each turn, and the body.
    /// [For statements](https://go.dev/ref/spec#For_statements)
    For(Option<TypedExpr>, Vec<TypedStmt>, Vec<TypedStmt>),
    /// The variable that counts, if there is one, the type of the range, the range and the body.
    /// [For range](https://go.dev/ref/spec#For_range)
    Range(Option<usize>, GoType, TypedExpr, Vec<TypedStmt>),
    /// The value that cases are compared with, and the clauses.
    /// [Switch statements](https://go.dev/ref/spec#Switch_statements)
    Switch(TypedExpr, Vec<TypedClause>),
    /// A block. [Blocks](https://go.dev/ref/spec#Blocks)
    Block(Vec<TypedStmt>),
    /// `break`. [Break statements](https://go.dev/ref/spec#Break_statements)
    Break,
    /// `continue`. [Continue statements](https://go.dev/ref/spec#Continue_statements)
    Continue,
    /// A return with its values. [Return statements](https://go.dev/ref/spec#Return_statements)
    Return(TypedSource),
}

/// A clause of a `switch`.
#[cycle(statements)]
#[derive(Drop)]
pub struct TypedClause {
    /// The values of a case; none for the default.
    pub cases: Option<Vec<TypedExpr>>,
    /// What is done, in order.
    pub body: Vec<TypedStmt>,
    /// Whether the next clause is done then.
    /// [Fallthrough statements](https://go.dev/ref/spec#Fallthrough_statements)
    pub falls: bool,
}
