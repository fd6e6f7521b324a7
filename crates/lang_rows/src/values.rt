//! What the last declaration of a package is.
use go_const::constant::Const;
use go_symbol::Symbol;
use go_typed::expression::{TypedExpr, TypedExprKind};
use go_typed::package::{Typed, TypedConstant, TypedFunction, TypedInitialization};
use go_typed::statement::TypedSource;
use go_types::texts::type_text;
use go_types::types::GoType;
use std::alloc::{AllocError, Global};
use test_rows::answers::RowError;

/// The text of a type.
fn type_of(alloc: Global, of: &GoType) -> Result<String, RowError> {
    String::from_utf8(type_text(alloc, of)?).map_err(|_| RowError::NoRow)
}

/// The texts of types, each behind a space.
fn types_of(alloc: Global, types: &[GoType]) -> Result<String, RowError> {
    let mut told = String::new(alloc);
    for of in types {
        told.push(' ')?;
        told.push_str(&type_of(alloc, of)?)?;
    }
    Ok(told)
}

/// A constant: a number, a truth, or a text as Go's quotes have it, by its bytes where it is no UTF-8.
fn constant_of(alloc: Global, constant: &Const) -> Result<String, AllocError> {
    match constant {
        Const::Integer(number) => format!(in alloc; "{number}"),
        Const::Bool(truth) => format!(in alloc; "{truth}"),
        Const::Text(text) => match str::from_utf8(text.bytes()) {
            Ok(text) => format!(in alloc; "{text:?}"),
            Err(_) => format!(in alloc; "{:?}", text.bytes()),
        },
    }
}

/// A call by how many values it has.
fn call_of(alloc: Global, symbol: &Symbol, values: usize) -> Result<String, AllocError> {
    format!(in alloc; "{}.{}({values})", symbol.path(), symbol.name())
}

/// What a value is: a constant, a variable of a package or a call of a function; of others the form alone.
fn value_of(alloc: Global, value: &TypedExpr) -> Result<String, AllocError> {
    match &value.kind {
        TypedExprKind::Constant(constant) => constant_of(alloc, constant),
        TypedExprKind::Global(symbol) => {
            format!(in alloc; "{}.{}", symbol.path(), symbol.name())
        }
        TypedExprKind::Call(symbol, values) => call_of(alloc, symbol, values.len()),
        TypedExprKind::Field(_, number) => format!(in alloc; "field {number}"),
        TypedExprKind::Conversion(_) => String::from_str(alloc, "converted"),
        TypedExprKind::Literal(parts) => format!(in alloc; "of {}", parts.len()),
        _ => String::from_str(alloc, "value"),
    }
}

/// A constant's type and its value.
fn told_constant(alloc: Global, constant: &TypedConstant) -> Result<String, RowError> {
    let of = type_of(alloc, &constant.of)?;
    let value = constant_of(alloc, &constant.value)?;
    Ok(format!(in alloc; "{of} {value}")?)
}

/// The type and the form of a variable's value; or zeros, or the results of a call, by their types.
fn told_variable(alloc: Global, given: &TypedInitialization) -> Result<String, RowError> {
    let (types, value) = match &given.source {
        TypedSource::Zeros(types) => (types_of(alloc, types)?, String::from_str(alloc, "zero")?),
        TypedSource::Results(types, symbol, values) => {
            let call = call_of(alloc, symbol, values.len())?;
            (types_of(alloc, types)?, call)
        }
        TypedSource::Each(values) => {
            let value = values.last().ok_or(RowError::NoRow)?;
            (type_of(alloc, &value.of)?, value_of(alloc, value)?)
        }
    };
    Ok(format!(in alloc; "{} {value}", types.trim())?)
}

/// A function's name, and the types of its parameters and results.
fn told_function(alloc: Global, function: &TypedFunction) -> Result<String, RowError> {
    let parameters = types_of(alloc, &function.parameters)?;
    let results = types_of(alloc, &function.results)?;
    let name = function.name.as_str();
    Ok(format!(in alloc; "{name} takes{parameters} gives{results}")?)
}

/// What the last declaration of a text, which begins a line, is in the package that it ends.
pub(crate) fn last_value(alloc: Global, text: &str, typed: &Typed) -> Result<String, RowError> {
    let line = match text.rsplit_once('\n') {
        Some((_, line)) => line,
        None => text,
    };
    match line.split_once(' ') {
        Some(("const", _)) => {
            told_constant(alloc, typed.constants.last().ok_or(RowError::NoRow)?)
        }
        Some(("type", _)) => type_of(alloc, &typed.types.last().ok_or(RowError::NoRow)?.of),
        Some(("func", _)) => {
            told_function(alloc, typed.functions.last().ok_or(RowError::NoRow)?)
        }
        _ => told_variable(alloc, typed.initializations.last().ok_or(RowError::NoRow)?),
    }
}
