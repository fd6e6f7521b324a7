//! Expressions.

use go_const::constant::Const;
use go_const::operator::{ArithmeticOperator, ComparisonOperator, ShiftOperator, UnaryOperator};
use go_symbol::Symbol;
use go_types::types::GoType;

/// An operator both of whose operands are evaluated. [Operators](https://go.dev/ref/spec#Operators)
#[derive(Clone, Copy)]
pub enum Operator {
    /// On integers; `+` joins strings too.
    Arithmetic(ArithmeticOperator),
    /// A shift of an integer by another.
    Shift(ShiftOperator),
    /// A comparison.
    Comparison(ComparisonOperator),
}

/// An expression and its type. [Expressions](https://go.dev/ref/spec#Expressions)
#[cycle(expressions)]
#[derive(Drop)]
pub struct TypedExpr {
    /// Its type.
    pub of: GoType,
    /// Which expression it is.
    pub kind: TypedExprKind,
}

/// What an expression is.
#[cycle(expressions)]
#[derive(Drop)]
pub enum TypedExprKind {
    /// A constant, folded to its value.
    /// [Constant expressions](https://go.dev/ref/spec#Constant_expressions)
    Constant(Const),
    /// A local variable by its number, which counts through the function from the parameters on.
    /// [Variables](https://go.dev/ref/spec#Variables)
    Local(usize),
    /// A package's variable.
    Global(Symbol),
    /// The field of that number. [Selectors](https://go.dev/ref/spec#Selectors)
    Field(Box<TypedExpr>, usize),
    /// An element of an array or a slice, or a byte of a string.
    /// [Index expressions](https://go.dev/ref/spec#Index_expressions)
    Index(Box<TypedExpr>, Box<TypedExpr>),
    /// The length of a slice or a string. [Length and capacity](https://go.dev/ref/spec#Length_and_capacity)
    Length(Box<TypedExpr>),
    /// The capacity of a slice.
    Capacity(Box<TypedExpr>),
    /// A part of a slice or a string, from one bound to its end.
    /// [Slice expressions](https://go.dev/ref/spec#Slice_expressions)
    Tail(Box<TypedExpr>, Box<TypedExpr>),
    /// A part of a slice or a string, from one bound to another.
    Cut(Box<TypedExpr>, Box<TypedExpr>, Box<TypedExpr>),
    /// A slice that is made with a length.
    /// [Making slices](https://go.dev/ref/spec#Making_slices_maps_and_channels)
    Make(Box<TypedExpr>),
    /// A slice that is made with a length and a capacity.
    MakeWithin(Box<TypedExpr>, Box<TypedExpr>),
    /// An operator before its operand. [Operators](https://go.dev/ref/spec#Operators)
    Unary(UnaryOperator, Box<TypedExpr>),
    /// An operator between two operands.
    Binary(Operator, Box<TypedExpr>, Box<TypedExpr>),
    /// `&&`. [Logical operators](https://go.dev/ref/spec#Logical_operators)
    Both(Box<TypedExpr>, Box<TypedExpr>),
    /// `||`.
    Either(Box<TypedExpr>, Box<TypedExpr>),
    /// A conversion to the type of this expression.
    /// [Conversions](https://go.dev/ref/spec#Conversions)
    Conversion(Box<TypedExpr>),
    /// An array or a struct: some of its parts, the others are zero.
    /// [Composite literals](https://go.dev/ref/spec#Composite_literals)
    Literal(Vec<TypedPart>),
    /// A slice literal: its elements.
    /// [Composite literals](https://go.dev/ref/spec#Composite_literals)
    Elements(Vec<TypedExpr>),
    /// A slice with elements appended.
    /// [Appending](https://go.dev/ref/spec#Appending_and_copying_slices)
    Append(Box<TypedExpr>, Vec<TypedExpr>),
    /// A call of a function that has one result. [Calls](https://go.dev/ref/spec#Calls)
    Call(Symbol, Vec<TypedExpr>),
}

/// A part of a literal.
#[cycle(expressions)]
#[derive(Drop)]
pub struct TypedPart {
    /// The number of the field or of the element.
    pub number: usize,
    /// Its value.
    pub value: TypedExpr,
}
