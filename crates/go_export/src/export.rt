//! What a name of a package exports.
ghost use Rattle.std.specs.Prelude.{◌≡◌, IfOk, map};
ghost use Rattle.go_types.specs.Views.{go_type};
ghost use Rattle.go_typed.specs.Views.{constant_of, as_name, variable_of, as_function};
ghost use Rattle.go_export.specs.Exports.{named_constant, exported_type, named_variable, named_function};
ghost use Rattle.go_export.specs.Views.{export_of};

use go_const::constant::Const;
use go_typed::package::{TypedConstant, TypedFunction, TypedName, TypedVariable};
use go_types::types::GoType;
use std::alloc::{AllocError, Global};

/// What a name exports.
#[derive(Drop)]
pub enum Export {
    /// A constant of a type, which is an untyped one where the constant has none, and its value.
    /// [Constant declarations](https://go.dev/ref/spec#Constant_declarations)
    Constant(GoType, Const),
    /// A variable of a type.
    /// [Variable declarations](https://go.dev/ref/spec#Variable_declarations)
    Variable(GoType),
    /// A function, by the types of its parameters and those of its results.
    /// [Function types](https://go.dev/ref/spec#Function_types)
    Function(Vec<GoType>, Vec<GoType>),
    /// A type. [Type declarations](https://go.dev/ref/spec#Type_declarations)
    Type(GoType),
}

/// Copies of types, in their order. An `Err` only where memory ran out.
pub fn copy_types(alloc: Global, types: &[GoType]) -> Result<Vec<GoType>, AllocError>
    ensures { IfOk result (λ copies. map go_type copies.items ≡ map go_type types.now) }
{
    let mut copies = Vec::new(alloc);
    for of in types {
        copies.push(of.copy()?)?;
    }
    Ok(copies)
}

impl Export {
    /// What the name of a constant exports. An `Err` only where memory ran out.
    pub(crate) fn of_constant(constant: &TypedConstant) -> Result<Export, AllocError>
        ensures { IfOk result (λ e. export_of e ≡ (named_constant (constant_of constant.now)).1) }
    {
        let of = constant.of.copy()?;
        let value = constant.value.copy()?;
        Ok(Export::Constant(of, value))
    }

    /// What the name of a type exports. An `Err` only where memory ran out.
    pub(crate) fn of_type(named: &TypedName) -> Result<Export, AllocError>
        ensures { IfOk result (λ e. export_of e ≡ (exported_type (as_name named.now)).1) }
    {
        Ok(Export::Type(named.of.copy()?))
    }

    /// What the name of a variable exports. An `Err` only where memory ran out.
    pub(crate) fn of_variable(variable: &TypedVariable) -> Result<Export, AllocError>
        ensures { IfOk result (λ e. export_of e ≡ (named_variable (variable_of variable.now)).1) }
    {
        Ok(Export::Variable(variable.of.copy()?))
    }

    /// What the name of a function exports. An `Err` only where memory ran out.
    pub(crate) fn of_function(alloc: Global, function: &TypedFunction) -> Result<Export, AllocError>
        ensures { IfOk result (λ e. export_of e ≡ (named_function (as_function function.now)).1) }
    {
        let parameters = copy_types(alloc, &function.parameters)?;
        let results = copy_types(alloc, &function.results)?;
        Ok(Export::Function(parameters, results))
    }
}
