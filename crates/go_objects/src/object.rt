//! What the files of a package declare.
use go_ast::expression::{Expr, TypeExpr};
use go_ast::file::Parameter;
use go_ast::name::Name;
use go_text::place::Place;

/// How something is declared.
#[derive(Clone, Copy)]
pub enum Form<'a> {
    /// A constant: its type, if one is written, its own value, and the value of iota.
    Constant {
        /// The type, if one is written.
        type_expr: Option<&'a TypeExpr>,
        /// The value.
        value: &'a Expr,
        /// How many specifications of its group stand before its own.
        iota: u64,
    },
    /// A type, by the type that it is made of.
    Type(&'a TypeExpr),
    /// A variable of a type that is written.
    TypedVariable(&'a TypeExpr),
    /// A variable that has the type of its own value.
    ValuedVariable(&'a Expr),
    /// A variable that takes its place among as many results of a call: its number, their count,
    /// and the call.
    ResultVariable(usize, usize, &'a Expr),
    /// A function, by its parameters and the types of its results.
    Function(&'a [Parameter], &'a [TypeExpr]),
    /// A constant or a variable that has no value of its own: the type that is written, if one is,
    /// and the values that it stands on.
    Other(Option<&'a TypeExpr>, &'a [Expr]),
}

/// Something that a package declares.
#[derive(Drop)]
pub struct Object<'a> {
    /// The number of its file.
    pub file: usize,
    /// Where its specification begins.
    pub begins: Place,
    /// Its name.
    pub name: &'a Name,
    /// How it is declared.
    pub form: Form<'a>,
}
