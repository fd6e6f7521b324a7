//! Calls. [Calls](https://go.dev/ref/spec#Calls)
ghost use Rattle.std.specs.Prelude.{◌≡◌, [], IfOk, map};
ghost use Rattle.std.specs.List.{zip};
ghost use Rattle.std.specs.Option.{option_map};
ghost use Rattle.go_types.specs.Views.{go_type};
ghost use Rattle.go_typed.specs.Views.{as_expr};
ghost use Rattle.go_expr.specs.Known as known;
ghost use Rattle.go_expr.specs.Known.{Fine};
ghost use Rattle.go_expr.specs.Rules.{assigned, printing, conversion_to, converted, fine_list, function_call, length_verdict, length_of, capacity_of, one, printable, called, valued};
ghost use Rattle.go_expr.specs.Verdicts.{asked_both};
ghost use Rattle.go_expr.specs.Views.{known_of, printed_of, declared_function, all_of, AnswersAt, Gives};

use crate::error::{ExprError, RuleError};
use crate::evaluation::holds_call;
use crate::gather::Gathered;
use crate::known::{Function, Known};
use crate::node::{call, capacity, constant, constant_in, conversion, length, type_in};
use crate::selector::value_at;
use crate::slice::{append_called, slice_element};
use crate::value::{
    assigned, defaulted, int, is_bool, is_integer, is_string, lies_in, string, take_constant,
};
use go_const::constant::Const;
use go_text::fault::FaultKind;
use go_text::place::Place;
use go_typed::expression::TypedExpr;
use go_types::relations::{convertible, underlying};
use go_types::types::GoType;
use std::alloc::{AllocError, Global};

/// A conversion of a value to a type: a constant becomes one of the type. `Mismatch` where it can't
/// be converted, `Range` where a constant lies outside.
/// [Conversions](https://go.dev/ref/spec#Conversions)
pub(crate) fn converted(alloc: Global, of: GoType, value: TypedExpr) -> Result<TypedExpr, RuleError>
    ensures { Gives as_expr result (converted (go_type of) (as_expr value)) }
{
    if !convertible(type_in(&value), &of) {
        return Err(RuleError::Broken(FaultKind::Mismatch));
    }
    if !lies_in(&of, &value) {
        return Err(RuleError::Broken(FaultKind::Range));
    }
    Ok(conversion_to(alloc, of, value)?)
}

/// A value that is converted to a type: a constant becomes one of the type.
fn conversion_to(alloc: Global, of: GoType, value: TypedExpr) -> Result<TypedExpr, AllocError>
    ensures { IfOk result (λ e. as_expr e ≡ conversion_to (go_type of) (as_expr value)) }
{
    match take_constant(value) {
        Ok(value) => Ok(constant(of, value)),
        Err(value) => conversion(alloc, of, value),
    }
}

/// A conversion at a place, where the type and the value are known.
pub(crate) fn conversion_at<'a>(
    alloc: Global,
    place: Place,
    of: Option<GoType>,
    value: Option<TypedExpr>,
) -> Result<Option<Known<'a>>, ExprError>
    ensures { AnswersAt known_of result place (valued (asked_both converted (option_map go_type of) (option_map as_expr value))) }
{
    let Some(of) = of else {
        return Ok(None);
    };
    let Some(value) = value else {
        return Ok(None);
    };
    value_at(place, converted(alloc, of, value))
}

/// The length of a value that isn't constant, or of an array or a slice.
fn length_in(alloc: Global, value: TypedExpr) -> Result<TypedExpr, RuleError>
    ensures { Gives as_expr result (length_verdict (as_expr value)) }
{
    if let GoType::Array(length, _) = underlying(type_in(&value)) {
        if holds_call(&value) {
            return Err(RuleError::Broken(FaultKind::Mismatch));
        }
        return Ok(constant(int(), Const::Integer(i128::from(*length))));
    }
    if slice_element(type_in(&value)).is_none() && !is_string(type_in(&value)) {
        return Err(RuleError::Broken(FaultKind::Mismatch));
    }
    Ok(length(alloc, int(), value)?)
}

/// The length of a value. `Mismatch` where it is no string, slice or array, or an array that has to be
/// evaluated, since a call stands in it.
/// [Length and capacity](https://go.dev/ref/spec#Length_and_capacity)
fn length_of(alloc: Global, value: TypedExpr) -> Result<TypedExpr, RuleError>
    ensures { Gives as_expr result (length_of (as_expr value)) }
{
    if let Some(Const::Text(text)) = constant_in(&value) {
        let length = text.bytes().len() as i128;
        return Ok(constant(int(), Const::Integer(length)));
    }
    length_in(alloc, value)
}

/// The capacity of a value. `Mismatch` where it is no slice and no array, or an array that has to be
/// evaluated, since a call stands in it.
fn capacity_of(alloc: Global, value: TypedExpr) -> Result<TypedExpr, RuleError>
    ensures { Gives as_expr result (capacity_of (as_expr value)) }
{
    if let GoType::Array(_, _) = underlying(type_in(&value)) {
        return length_in(alloc, value);
    }
    if slice_element(type_in(&value)).is_none() {
        return Err(RuleError::Broken(FaultKind::Mismatch));
    }
    Ok(capacity(alloc, int(), value)?)
}

/// The one of some arguments. `Count` where they aren't one.
fn one(arguments: Vec<TypedExpr>) -> Result<TypedExpr, RuleError>
    ensures { Gives as_expr result (one (map as_expr arguments.items)) }
{
    let mut arguments = arguments;
    match arguments.pop() {
        Some(last) if arguments.is_empty() => Ok(last),
        _ => Err(RuleError::Broken(FaultKind::Count)),
    }
}

/// Arguments as ones of the types of parameters, which are as many.
fn all_assigned(
    alloc: Global,
    parameters: &[GoType],
    arguments: Vec<TypedExpr>,
) -> Result<Vec<TypedExpr>, RuleError>
    ensures { Gives (all_of as_expr) result (fine_list [] (map (λ k. assigned k.0 k.1) (zip (map go_type parameters.now) (map as_expr arguments.items)))) }
{
    let mut all = Gathered::new(alloc, None);
    let mut rest = arguments.into_iter();
    for of in parameters {
        let Some(argument) = rest.next() else {
            return all.finish();
        };
        all.add(assigned(alloc, of.copy()?, argument))?;
    }
    all.finish()
}

/// Types of equal contents. An `Err` only where memory ran out.
fn copied(alloc: Global, types: &[GoType]) -> Result<Vec<GoType>, AllocError>
    ensures { IfOk result (λ copy. map go_type copy.items ≡ map go_type types.now) }
{
    let mut all = Vec::with_capacity(alloc, types.len())?;
    for of in types {
        all.push(of.copy()?)?;
    }
    Ok(all)
}

/// A call of a function with arguments that its parameters take.
fn function_call<'a>(
    alloc: Global,
    function: &Function,
    arguments: Vec<TypedExpr>,
) -> Result<Known<'a>, AllocError>
    ensures { IfOk result (λ k. known_of k ≡ function_call function.now.symbol (map go_type function.now.results.items) (map as_expr arguments.items)) }
{
    let symbol = function.symbol.copy()?;
    if let [of] = function.results.as_slice() {
        return Ok(Known::Value(call(of.copy()?, symbol, arguments)));
    }
    let types = copied(alloc, &function.results)?;
    Ok(Known::Results(types, symbol, arguments))
}

/// What a call of a function with arguments is. `Count` where they aren't as many as its
/// parameters; else what is wrong with the arguments.
fn function_called<'a>(
    alloc: Global,
    function: &Function,
    arguments: Vec<TypedExpr>,
) -> Result<Known<'a>, RuleError>
    ensures { Gives known_of result (called (known.declared (declared_function function.now)) (map as_expr arguments.items)) }
{
    if function.parameters.len() != arguments.len() {
        return Err(RuleError::Broken(FaultKind::Count));
    }
    let arguments = all_assigned(alloc, &function.parameters, arguments)?;
    Ok(function_call(alloc, function, arguments)?)
}

/// A value that Println prints, as one of the type that it takes where none is due. `Mismatch`
/// where it is no integer, string or truth value.
fn printable(alloc: Global, value: TypedExpr) -> Result<TypedExpr, RuleError>
    ensures { Gives as_expr result (printable (as_expr value)) }
{
    let of = type_in(&value);
    if !(is_integer(of) || is_string(of) || is_bool(of)) {
        return Err(RuleError::Broken(FaultKind::Mismatch));
    }
    defaulted(alloc, value)
}

/// The operands of a call of Println.
fn all_printable(alloc: Global, arguments: Vec<TypedExpr>) -> Result<Vec<TypedExpr>, RuleError>
    ensures { Gives (all_of as_expr) result (fine_list [] (map printable (map as_expr arguments.items))) }
{
    let mut all = Gathered::new(alloc, None);
    for argument in arguments {
        all.add(printable(alloc, argument))?;
    }
    all.finish()
}

/// The operands of a call of Println, or what is wrong with them. An `Err` only where memory ran out.
fn printed(
    alloc: Global,
    arguments: Vec<TypedExpr>,
) -> Result<Result<Vec<TypedExpr>, FaultKind>, AllocError>
    ensures { IfOk result (λ operands. printing (fine_list [] (map printable (map as_expr arguments.items))) ≡ Fine (known.printed (printed_of operands))) }
{
    match all_printable(alloc, arguments) {
        Ok(operands) => Ok(Ok(operands)),
        Err(RuleError::Broken(kind)) => Ok(Err(kind)),
        Err(RuleError::Memory) => Err(AllocError),
    }
}

/// A conversion of arguments to a type. `Count` where they aren't one.
fn type_called<'a>(
    alloc: Global,
    of: GoType,
    arguments: Vec<TypedExpr>,
) -> Result<Known<'a>, RuleError>
    ensures { Gives known_of result (called (known.declared (known.type' (go_type of))) (map as_expr arguments.items)) }
{
    let value = one(arguments)?;
    Ok(Known::Value(converted(alloc, of, value)?))
}

/// The length of arguments. `Count` where they aren't one.
fn length_called<'a>(alloc: Global, arguments: Vec<TypedExpr>) -> Result<Known<'a>, RuleError>
    ensures { Gives known_of result (called (known.declared known.length') (map as_expr arguments.items)) }
{
    let value = one(arguments)?;
    Ok(Known::Value(length_of(alloc, value)?))
}

/// The capacity of arguments. `Count` where they aren't one.
fn capacity_called<'a>(alloc: Global, arguments: Vec<TypedExpr>) -> Result<Known<'a>, RuleError>
    ensures { Gives known_of result (called (known.declared known.capacity') (map as_expr arguments.items)) }
{
    let value = one(arguments)?;
    Ok(Known::Value(capacity_of(alloc, value)?))
}

/// A call of panic with arguments. `Count` where they aren't one; else what is wrong with the one as
/// a string. [Handling panics](https://go.dev/ref/spec#Handling_panics)
fn panic_called<'a>(alloc: Global, arguments: Vec<TypedExpr>) -> Result<Known<'a>, RuleError>
    ensures { Gives known_of result (called (known.declared known.panic') (map as_expr arguments.items)) }
{
    let value = one(arguments)?;
    Ok(Known::Panicked(assigned(alloc, string(), value)?))
}

/// What a call of what is known with arguments is. `Mismatch` where that can't be called.
fn called<'a>(
    alloc: Global,
    callee: Known<'_>,
    arguments: Vec<TypedExpr>,
) -> Result<Known<'a>, RuleError>
    ensures { Gives known_of result (called (known_of callee.entry) (map as_expr arguments.items)) }
{
    match callee {
        Known::Type(of) => type_called(alloc, of, arguments),
        Known::Function(function) => function_called(alloc, &function, arguments),
        Known::Println => Ok(Known::Printed(printed(alloc, arguments)?)),
        Known::Length => length_called(alloc, arguments),
        Known::Capacity => capacity_called(alloc, arguments),
        Known::Append => append_called(alloc, arguments),
        Known::Panic => panic_called(alloc, arguments),
        _ => Err(RuleError::Broken(FaultKind::Mismatch)),
    }
}

/// A call at a place, where its callee and its arguments are known.
pub(crate) fn call_at<'a>(
    alloc: Global,
    place: Place,
    callee: Option<Known<'_>>,
    arguments: Option<Vec<TypedExpr>>,
) -> Result<Option<Known<'a>>, ExprError>
    ensures { AnswersAt known_of result place (asked_both called (option_map known_of callee.entry) (option_map (all_of as_expr) arguments)) }
{
    let Some(callee) = callee else {
        return Ok(None);
    };
    let Some(arguments) = arguments else {
        return Ok(None);
    };
    match called(alloc, callee, arguments) {
        Ok(known) => Ok(Some(known)),
        Err(error) => Err(error.at(place)),
    }
}
