//! What is known of expressions, and of names where they stand.
ghost use Rattle.std.specs.Prelude.{◌≡◌, IfOk};
ghost use Rattle.std.specs.Option.{option_map};
ghost use Rattle.go_expr.specs.Views.{declared_of, names_of, known_of, AnswersAt};
ghost use Rattle.go_expr.specs.Known as known;
ghost use Rattle.go_expr.specs.Known.{library, named};

use crate::error::ExprError;
use crate::node::{constant, global, local};
use go_const::constant::Const;
use go_symbol::Symbol;
use go_text::fault::FaultKind;
use go_text::place::Place;
use go_typed::expression::TypedExpr;
use go_types::types::GoType;
use indexmap::IndexMap;
use std::alloc::{AllocError, Global};
use std::sync::Arc;

/// A function of a package. [Function types](https://go.dev/ref/spec#Function_types)
#[derive(Drop)]
pub struct Function {
    /// What it is known by.
    pub symbol: Symbol,
    /// The types of its parameters, in their order.
    pub parameters: Vec<GoType>,
    /// The types of its results, in their order.
    pub results: Vec<GoType>,
}

/// What a name declares.
/// [Declarations and scope](https://go.dev/ref/spec#Declarations_and_scope)
#[derive(Drop)]
pub enum Declared {
    /// A constant of a type, which is an untyped one where the constant has none yet.
    Constant(GoType, Const),
    /// A local variable of a type, by its number.
    Local(GoType, usize),
    /// A package's variable of a type.
    Global(GoType, Symbol),
    /// A type.
    Type(GoType),
    /// A function.
    Function(Arc<Function>),
    /// The library's function Println.
    Println,
    /// The function len.
    Length,
    /// The function cap.
    Capacity,
    /// The function make.
    Make,
    /// The function append.
    Append,
    /// The function panic.
    Panic,
}

impl Declared {
    /// Another of equal contents. An `Err` only where memory ran out.
    pub fn copy(&self) -> Result<Declared, AllocError>
        ensures { IfOk result (λ copy. declared_of copy ≡ declared_of self.now) }
    {
        Ok(match self {
            Declared::Constant(of, constant) => Declared::Constant(of.copy()?, constant.copy()?),
            Declared::Local(of, number) => Declared::Local(of.copy()?, *number),
            Declared::Global(of, symbol) => Declared::Global(of.copy()?, symbol.copy()?),
            Declared::Type(of) => Declared::Type(of.copy()?),
            Declared::Function(function) => Declared::Function(Arc::try_clone(function)?),
            Declared::Println => Declared::Println,
            Declared::Length => Declared::Length,
            Declared::Capacity => Declared::Capacity,
            Declared::Make => Declared::Make,
            Declared::Append => Declared::Append,
            Declared::Panic => Declared::Panic,
        })
    }

    /// What is known of a name that declares it. An `Err` only where memory ran out.
    pub(crate) fn known<'a>(&self) -> Result<Known<'a>, AllocError>
        ensures { IfOk result (λ k. known_of k ≡ known.declared (declared_of self.now)) }
    {
        Ok(match self {
            Declared::Constant(of, value) => Known::Value(constant(of.copy()?, value.copy()?)),
            Declared::Local(of, number) => Known::Value(local(of.copy()?, *number)),
            Declared::Global(of, symbol) => Known::Value(global(of.copy()?, symbol.copy()?)),
            Declared::Type(of) => Known::Type(of.copy()?),
            Declared::Function(function) => Known::Function(Arc::try_clone(function)?),
            Declared::Println => Known::Println,
            Declared::Length => Known::Length,
            Declared::Capacity => Known::Capacity,
            Declared::Make => Known::Make,
            Declared::Append => Known::Append,
            Declared::Panic => Known::Panic,
        })
    }
}

/// Names of a package, each with what it declares, where that is known.
pub type Names = IndexMap<String, Option<Declared>>;

/// What the library's package fmt exports. An `Err` only where memory ran out.
pub fn library(alloc: Global) -> Result<Names, AllocError>
    ensures { IfOk result (λ names. names_of names ≡ library) }
{
    let mut names = IndexMap::new(alloc);
    let name = String::from_str(alloc, "Println")?;
    names.insert(name, Some(Declared::Println))?;
    Ok(names)
}

/// What is known of an expression that breaks no rule.
#[derive(Drop)]
pub enum Known<'a> {
    /// A value.
    Value(TypedExpr),
    /// A type.
    Type(GoType),
    /// A function.
    Function(Arc<Function>),
    /// The library's function Println.
    Println,
    /// The function len.
    Length,
    /// The function cap.
    Capacity,
    /// The function make.
    Make,
    /// The function append.
    Append,
    /// The function panic.
    Panic,
    /// An imported package, by the names that it exports.
    Package(&'a Names),
    /// A call that has no result or several, of these types.
    Results(Vec<GoType>, Symbol, Vec<TypedExpr>),
    /// A call of Println with operands, or what is wrong with them, which only a statement asks.
    Printed(Result<Vec<TypedExpr>, FaultKind>),
    /// A call of panic.
    Panicked(TypedExpr),
}

/// What a name of a package finds at a place, by what it declares there, where that is known.
pub(crate) fn named<'a>(
    place: Place,
    declared: &Option<Declared>,
) -> Result<Option<Known<'a>>, ExprError>
    ensures { AnswersAt known_of result place (named (option_map declared_of declared.now)) }
{
    match declared {
        Some(declared) => Ok(Some(declared.known()?)),
        None => Ok(None),
    }
}
