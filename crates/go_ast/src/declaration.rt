//! Declarations of constants, variables and types.

use crate::expression::{Expr, TypeExpr};
use crate::name::Name;
use go_text::place::Place;

/// Constants of one declaration.
#[derive(Drop)]
pub struct ConstSpec {
    /// Their names.
    pub names: Vec<Name>,
    /// Their type, if it is written.
    pub type_expr: Option<TypeExpr>,
    /// Their values; none where those of the constants before are meant.
    pub values: Vec<Expr>,
}

/// Variables of one declaration.
#[derive(Drop)]
pub struct VarSpec {
    /// Their names.
    pub names: Vec<Name>,
    /// Their type, if it is written.
    pub type_expr: Option<TypeExpr>,
    /// Their values, if any are written.
    pub values: Vec<Expr>,
}

/// A type of its own.
#[derive(Drop)]
pub struct TypeSpec {
    /// Its name.
    pub name: Name,
    /// The type that it is made of.
    pub type_expr: TypeExpr,
}

/// A declaration, alone or as a group, and the place of its keyword.
#[derive(Drop)]
pub enum Decl {
    /// Constants.
    Constants(Place, Vec<ConstSpec>),
    /// Variables.
    Variables(Place, Vec<VarSpec>),
    /// Types.
    Types(Place, Vec<TypeSpec>),
}
