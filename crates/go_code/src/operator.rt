//! Operators on cells.

use go_const::kind::IntKind;
use go_const::operator::{ArithmeticOperator, ComparisonOperator, ShiftOperator};

/// An operator on texts.
#[derive(Clone, Copy)]
pub enum TextOperator {
    /// The byte of a text at an index. [Index expressions](https://go.dev/ref/spec#Index_expressions)
    At,
    /// How many bytes a text has. [Length](https://go.dev/ref/spec#Length_and_capacity)
    Length,
    /// Two texts as one. [String concatenation](https://go.dev/ref/spec#String_concatenation)
    Join,
    /// The bytes of a text from one bound to another.
    /// [Simple slice expressions](https://go.dev/ref/spec#Simple_slice_expressions)
    Cut,
}

/// An operator on slices.
#[derive(Clone, Copy)]
pub enum SliceOperator {
    /// How many elements a slice has. [Length and capacity](https://go.dev/ref/spec#Length_and_capacity)
    Length,
    /// How many it has room for.
    Capacity,
    /// The elements of a slice from one bound to another.
    /// [Simple slice expressions](https://go.dev/ref/spec#Simple_slice_expressions)
    Cut,
}

/// An operator, which takes cells and gives one.
#[derive(Clone, Copy)]
pub enum Operator {
    /// Between two integers of a type.
    /// [Arithmetic operators](https://go.dev/ref/spec#Arithmetic_operators)
    Arithmetic(ArithmeticOperator, IntKind),
    /// A shift of an integer of a type by a count, which is above it.
    Shift(ShiftOperator, IntKind),
    /// Minus before an integer of a type.
    Negate(IntKind),
    /// All bits of an integer of a type flipped.
    Complement(IntKind),
    /// The conversion of an integer to a type.
    /// [Conversions](https://go.dev/ref/spec#Conversions_between_numeric_types)
    Convert(IntKind),
    /// Not, of a truth value. [Logical operators](https://go.dev/ref/spec#Logical_operators)
    Not,
    /// A comparison of two integers or of two texts.
    /// [Comparison operators](https://go.dev/ref/spec#Comparison_operators)
    Compare(ComparisonOperator),
    /// Whether a row of so many cells is equal to the row of as many above it.
    Equal(usize),
    /// On texts.
    Text(TextOperator),
    /// On slices.
    Slice(SliceOperator),
}
