//! Files and what they declare.

use crate::declaration::Decl;
use crate::expression::TypeExpr;
use crate::name::Name;
use crate::statement::Block;
use go_text::place::Place;

/// Parameters of one type.
#[derive(Drop)]
pub struct Parameter {
    /// Their names.
    pub names: Vec<Name>,
    /// Their type.
    pub type_expr: TypeExpr,
}

/// A function.
#[derive(Drop)]
pub struct Function {
    /// The place of its keyword.
    pub place: Place,
    /// Its name.
    pub name: Name,
    /// Its parameters, in order.
    pub parameters: Vec<Parameter>,
    /// The types of its results, in order.
    pub results: Vec<TypeExpr>,
    /// Its body.
    pub body: Block,
}

/// What a file declares.
#[derive(Drop)]
pub enum TopLevel {
    /// Constants, variables or types.
    Declared(Decl),
    /// A function.
    Function(Function),
}

/// An import of a package.
#[derive(Drop)]
pub struct ImportSpec {
    /// The place of its first token.
    pub place: Place,
    /// The name that the file gives the package, if it gives one.
    pub name: Option<Name>,
    /// The import path.
    pub path: Vec<u8>,
    /// The place of the path's literal.
    pub path_place: Place,
}

/// A source file.
#[derive(Drop)]
pub struct File {
    /// The name in its package clause.
    pub package: Name,
    /// What it imports, in order.
    pub imports: Vec<ImportSpec>,
    /// What it declares, in order.
    pub declarations: Vec<TopLevel>,
}
