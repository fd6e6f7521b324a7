//! Operators, by what they are defined on.
ghost use Rattle.std.specs.Prelude.{◌≡◌};
ghost use Rattle.go_const.specs.Constants.{divides, holds};

use std::cmp::Ordering;

/// An operator before its operand. [Operators](https://go.dev/ref/spec#Operators)
#[derive(Clone, Copy)]
pub enum UnaryOperator {
    /// `+`.
    Positive,
    /// `-`.
    Negative,
    /// `^`.
    Complement,
    /// `!`.
    Negation,
}

/// An operator on integers; `+` joins strings too.
/// [Arithmetic operators](https://go.dev/ref/spec#Arithmetic_operators)
#[derive(Clone, Copy)]
pub enum ArithmeticOperator {
    /// `+`.
    Add,
    /// `-`.
    Subtract,
    /// `*`.
    Multiply,
    /// `/`.
    Divide,
    /// `%`.
    Remainder,
    /// `&`.
    BitAnd,
    /// `|`.
    BitOr,
    /// `^`.
    BitXor,
    /// `&^`.
    AndNot,
}

impl ArithmeticOperator {
    /// Whether it divides, and so wants another divisor than zero.
    pub fn divides(self) -> bool
        ensures { result ≡ divides self }
    {
        matches!(
            self,
            ArithmeticOperator::Divide | ArithmeticOperator::Remainder
        )
    }
}

/// A comparison. [Comparison operators](https://go.dev/ref/spec#Comparison_operators)
#[derive(Clone, Copy)]
pub enum ComparisonOperator {
    /// `==`.
    Equal,
    /// `!=`.
    NotEqual,
    /// `<`.
    Less,
    /// `<=`.
    LessOrEqual,
    /// `>`.
    Greater,
    /// `>=`.
    GreaterOrEqual,
}

impl ComparisonOperator {
    /// Whether the comparison holds of two values, by how they compare.
    pub fn holds(self, order: Ordering) -> bool
        ensures { result ≡ holds self order }
    {
        match self {
            ComparisonOperator::Equal => order.is_eq(),
            ComparisonOperator::NotEqual => order.is_ne(),
            ComparisonOperator::Less => order.is_lt(),
            ComparisonOperator::LessOrEqual => order.is_le(),
            ComparisonOperator::Greater => order.is_gt(),
            ComparisonOperator::GreaterOrEqual => order.is_ge(),
        }
    }
}

/// An operator between two operands of one type. [Operators](https://go.dev/ref/spec#Operators)
#[derive(Clone, Copy)]
pub enum BinaryOperator {
    /// On integers; `+` joins strings too.
    Arithmetic(ArithmeticOperator),
    /// A comparison.
    Comparison(ComparisonOperator),
    /// `&&`.
    LogicalAnd,
    /// `||`.
    LogicalOr,
}

/// A shift. [Arithmetic operators](https://go.dev/ref/spec#Arithmetic_operators)
#[derive(Clone, Copy)]
pub enum ShiftOperator {
    /// `<<`.
    Left,
    /// `>>`.
    Right,
}
