//! Packages.

use crate::statement::{TypedSource, TypedStmt};
use go_const::constant::Const;
use go_text::edition::Edition;
use go_text::place::Place;
use go_types::types::GoType;

/// A constant of a package.
/// [Constant declarations](https://go.dev/ref/spec#Constant_declarations)
#[derive(Drop)]
pub struct TypedConstant {
    /// Its name.
    pub name: String,
    /// Its type, which may be untyped.
    pub of: GoType,
    /// Its value.
    pub value: Const,
}

/// A type that a package declares. [Type declarations](https://go.dev/ref/spec#Type_declarations)
#[derive(Drop)]
pub struct TypedName {
    /// Its name.
    pub name: String,
    /// The type.
    pub of: GoType,
}

/// A variable of a package. [Variable declarations](https://go.dev/ref/spec#Variable_declarations)
#[derive(Drop)]
pub struct TypedVariable {
    /// Its name.
    pub name: String,
    /// Its type.
    pub of: GoType,
    /// The name of the file that declares it.
    pub file: String,
    /// The place of its name there.
    pub place: Place,
}

/// Variables of a package that get values together.
/// [Package initialization](https://go.dev/ref/spec#Package_initialization)
#[derive(Drop)]
pub struct TypedInitialization {
    /// Their names; a blank one has none.
    pub variables: Vec<Option<String>>,
    /// The name of the file that declares them.
    pub file: String,
    /// The place of the first of their names there.
    pub place: Place,
    /// Their values.
    pub source: TypedSource,
    /// The names of the package's variables and functions that stand in the values.
    pub references: Vec<String>,
}

/// What stands in the text of a function.
/// [Package initialization](https://go.dev/ref/spec#Package_initialization)
#[derive(Drop)]
pub struct TypedUses {
    /// The function's name.
    pub function: String,
    /// The names of the package's variables and functions that stand in its text.
    pub references: Vec<String>,
}

/// A function. [Function declarations](https://go.dev/ref/spec#Function_declarations)
#[derive(Drop)]
pub struct TypedFunction {
    /// Its name.
    pub name: String,
    /// The types of its parameters, which are its first local variables.
    pub parameters: Vec<GoType>,
    /// The types of its results.
    pub results: Vec<GoType>,
    /// The types of its other local variables, by their numbers.
    pub locals: Vec<GoType>,
    /// The statements of its body, in their order.
    pub body: Vec<TypedStmt>,
}

/// A checked package. [Packages](https://go.dev/ref/spec#Packages)
#[derive(Drop)]
pub struct Typed {
    /// The directory that the package stands in, which is its path.
    pub path: String,
    /// The name in its package clauses.
    pub name: String,
    /// The edition of the language that its files are written in.
    pub edition: Edition,
    /// Its constants, in declaration order.
    pub constants: Vec<TypedConstant>,
    /// Its types, in declaration order.
    pub types: Vec<TypedName>,
    /// Its variables, in declaration order.
    pub variables: Vec<TypedVariable>,
    /// What gives its variables their values, in declaration order.
    pub initializations: Vec<TypedInitialization>,
    /// What its named functions use, in declaration order.
    pub uses: Vec<TypedUses>,
    /// Its functions, in declaration order.
    pub functions: Vec<TypedFunction>,
}
