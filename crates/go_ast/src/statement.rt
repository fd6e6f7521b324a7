//! Statements.

use crate::declaration::Decl;
use crate::expression::{BinaryOperator, Expr};
use crate::name::Name;
use go_text::place::Place;

/// A simple statement.
#[derive(Drop)]
pub enum Simple {
    /// A call that stands as a statement.
    Call(Expr),
    /// What an expression names gets one more.
    Increment(Expr),
    /// What an expression names gets one less.
    Decrement(Expr),
    /// What the left sides name gets the values of the right sides.
    Assignment(Vec<Expr>, Vec<Expr>),
    /// What the left side names is joined with the right side by an operator.
    OperatorAssignment(BinaryOperator, Expr, Expr),
    /// Variables are declared by their values.
    ShortVarDecl(Vec<Name>, Vec<Expr>),
}

/// A statement. Those that no keyword begins have the place of their first token.
#[cycle(statements)]
#[derive(Drop)]
pub enum Stmt {
    /// Nothing, in front of the semicolon at this place.
    Empty(Place),
    /// A declaration.
    Declaration(Place, Decl),
    /// A simple statement.
    Simple(Place, Simple),
    /// A return, with the values that are returned.
    Return(Place, Vec<Expr>),
    /// A break.
    Break(Place),
    /// A continue.
    Continue(Place),
    /// A fallthrough.
    Fallthrough(Place),
    /// A block.
    Block(Block),
    /// An `if`.
    If(If),
    /// A `for` without a range.
    For(For),
    /// A `for` over a range.
    Range(Range),
    /// A `switch`: the place of its keyword, the statement before the value and the value that is
    /// compared, if there are such, and the clauses.
    Switch(Place, Option<Box<Simple>>, Option<Box<Expr>>, Vec<Clause>),
}

/// The statements between two braces.
#[cycle(statements)]
#[derive(Drop)]
pub struct Block {
    /// The place of the opening brace.
    pub place: Place,
    /// The statements, in their order.
    pub statements: Vec<Stmt>,
    /// The place of the closing brace.
    pub closing: Place,
}

/// An `if` statement.
#[cycle(statements)]
#[derive(Drop)]
pub struct If {
    /// The place of its keyword.
    pub place: Place,
    /// The statement before the condition, if there is one.
    pub init: Option<Box<Simple>>,
    /// The condition.
    pub condition: Box<Expr>,
    /// What is done where it holds.
    pub body: Block,
    /// What is done where it does not hold.
    pub otherwise: Else,
}

/// What is done where a condition does not hold.
#[cycle(statements)]
#[derive(Drop)]
pub enum Else {
    /// Nothing.
    Nothing,
    /// A block.
    Block(Block),
    /// Another `if`.
    If(Box<If>),
}

/// A `for` statement without a range.
#[cycle(statements)]
#[derive(Drop)]
pub struct For {
    /// The place of its keyword.
    pub place: Place,
    /// The statement before the first turn, if there is one.
    pub init: Option<Box<Simple>>,
    /// The condition of each turn, if there is one.
    pub condition: Option<Box<Expr>>,
    /// The statement behind each turn, if there is one.
    pub post: Option<Box<Simple>>,
    /// What is done in each turn.
    pub body: Block,
}

/// A `for` statement over a range.
#[cycle(statements)]
#[derive(Drop)]
pub struct Range {
    /// The place of its keyword.
    pub place: Place,
    /// The variable that is declared, if there is one.
    pub name: Option<Name>,
    /// What is gone over.
    pub operand: Box<Expr>,
    /// What is done in each turn.
    pub body: Block,
}

/// A clause of a `switch`.
#[cycle(statements)]
#[derive(Drop)]
pub struct Clause {
    /// The place of its keyword.
    pub place: Place,
    /// The values of a case; none for the default.
    pub values: Option<Vec<Expr>>,
    /// What is done, in order.
    pub statements: Vec<Stmt>,
}
