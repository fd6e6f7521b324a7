//! Types and expressions.

use crate::key::Key;
use crate::name::Name;
use crate::spelling::Spelling;
use go_text::place::Place;

/// An operator in front of an operand.
#[derive(Clone, Copy)]
pub enum UnaryOperator {
    Positive,
    Negative,
    Negation,
    Complement,
}

/// An operator between two operands.
#[derive(Clone, Copy)]
pub enum BinaryOperator {
    Multiply,
    Divide,
    Remainder,
    ShiftLeft,
    ShiftRight,
    BitAnd,
    AndNot,
    Add,
    Subtract,
    BitOr,
    BitXor,
    Equal,
    NotEqual,
    Less,
    LessOrEqual,
    Greater,
    GreaterOrEqual,
    LogicalAnd,
    LogicalOr,
}

/// A type, and the place of its first token.
#[cycle(ast)]
#[derive(Drop)]
pub struct TypeExpr {
    /// The place of its first token.
    pub place: Place,
    /// Which type it is.
    pub kind: TypeKind,
}

/// What a type is.
#[cycle(ast)]
#[derive(Drop)]
pub enum TypeKind {
    /// A type by its name.
    Named(Name),
    /// A type of a package, by both names.
    Qualified(Name, Name),
    /// Arrays of a length, of elements of a type.
    Array(Box<Expr>, Box<TypeExpr>),
    /// Slices of elements of a type.
    Slice(Box<TypeExpr>),
    /// Structs of some fields.
    Struct(Vec<Field>),
}

/// Fields of one type.
#[cycle(ast)]
#[derive(Drop)]
pub struct Field {
    /// Their names.
    pub names: Vec<Name>,
    /// Their type.
    pub type_expr: TypeExpr,
}

/// An expression, and the place of its first token.
#[cycle(ast)]
#[derive(Drop)]
pub struct Expr {
    /// The place of its first token.
    pub place: Place,
    /// Which expression it is.
    pub kind: ExprKind,
}

/// What an expression is.
#[cycle(ast)]
#[derive(Drop)]
pub enum ExprKind {
    /// A name, by its text.
    Name(Spelling),
    /// An integer literal, by its text.
    Integer(Spelling),
    /// A rune literal, by the code point that it means.
    Rune(u32),
    /// A string literal, by the bytes that it means.
    String(Vec<u8>),
    /// An expression in parentheses.
    Parenthesized(Box<Expr>),
    /// An array, a slice or a struct of a type: the type, the place of the opening brace, and the elements.
    CompositeLit(Box<TypeExpr>, Place, Vec<Element>),
    /// A conversion of a value to a type.
    Conversion(Box<TypeExpr>, Box<Expr>),
    /// What a name selects from an operand.
    Selector(Box<Expr>, Name),
    /// What an index selects from an operand.
    Index(Box<Expr>, Box<Expr>),
    /// A part of an operand, between two bounds.
    Cut(Box<Expr>, Bound, Bound),
    /// A type as a call's first argument.
    Type(Box<TypeExpr>),
    /// A call of an operand with arguments.
    Call(Box<Expr>, Vec<Expr>),
    /// An operator in front of an operand.
    Unary(UnaryOperator, Box<Expr>),
    /// An operator between two operands.
    Binary(BinaryOperator, Box<Expr>, Box<Expr>),
}

/// A bound of a part of an operand.
#[cycle(ast)]
#[derive(Drop)]
pub enum Bound {
    /// One that is left out.
    Open,
    /// One that is given.
    At(Box<Expr>),
}

/// An element of a literal, with a key or none.
#[cycle(ast)]
#[derive(Drop)]
pub struct Element {
    /// The field or the index that it is for, if it says so.
    pub key: Key,
    /// Its value.
    pub value: ElementValue,
}

/// The value of an element.
#[cycle(ast)]
#[derive(Drop)]
pub enum ElementValue {
    /// An expression.
    Expression(Expr),
    /// The elements of a literal that leaves out its type, and the place of the opening brace.
    Value(Place, Vec<Element>),
}
