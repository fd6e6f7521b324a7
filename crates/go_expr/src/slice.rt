//! Slices. [Slice types](https://go.dev/ref/spec#Slice_types)
ghost use Rattle.std.specs.Prelude.{◌≡◌, ◌++◌, List, [], ◌∷◌, IfOk, is_some, map, not};
ghost use Rattle.std.specs.Option.{option_map, option_copied};
ghost use Rattle.go_text.specs.declared.fault.FaultKind.{FaultKind};
ghost use Rattle.go_text.specs.declared.fault.FaultKind.TheVariants.{Mismatch};
ghost use Rattle.go_types.specs.Views.{go_type};
ghost use Rattle.go_typed.specs.Views.{as_expr};
ghost use Rattle.go_expr.specs.Known as known;
ghost use Rattle.go_expr.specs.Rules.{slice_verdict, slice_element, is_bound, as_count, bound_verdict, are_ordered, given_bounds, cut_to, cut_of, size_verdict, sizes_faults, made_of, make_verdict, unmade, assigned, append_verdict, called, when, least, fine_list, valued};
ghost use Rattle.go_expr.specs.Verdicts.{asked, asked_both, both};
ghost use Rattle.go_expr.specs.Views.{known_of, all_of, AnswersAt, Gives};

use crate::error::{ExprError, RuleError};
use crate::gather::{Gathered, lesser, when};
use crate::known::Known;
use crate::node::{append, constant, constant_in, cut, make, make_within, tail, type_in};
use crate::selector::{known_length, value_at};
use crate::type_expr::is_small;
use crate::value::{
    as_type, assigned, default_type, int, is_integer, is_string, is_untyped, settled,
};
use go_const::constant::Const;
use go_const::kind::IntKind;
use go_text::fault::FaultKind;
use go_text::place::Place;
use go_typed::expression::TypedExpr;
use go_types::relations::underlying;
use go_types::types::{Element, GoType};
use std::alloc::{AllocError, Global};
use std::sync::Arc;
use std::vec::IntoIter;

/// A slice type at a place, where its elements' type is known.
pub(crate) fn slice_type(
    alloc: Global,
    place: Place,
    of: Option<GoType>,
) -> Result<Option<GoType>, ExprError>
    ensures { AnswersAt go_type result place (asked slice_verdict (option_map go_type of)) }
{
    let Some(of) = of else {
        return Ok(None);
    };
    let slice = GoType::Slice(Arc::new(alloc, Element::new(of))?);
    if !is_small(&slice) {
        return Err(ExprError::Faulty(place, FaultKind::Size));
    }
    Ok(Some(slice))
}

/// The type of the elements of slices of a type, if they are slices.
pub fn slice_element(of: &GoType) -> Option<&GoType>
    ensures { option_map (λ t. go_type t.now) result ≡ slice_element (go_type of.now) }
{
    match underlying(of) {
        GoType::Slice(element) => Some(&element.of),
        _ => None,
    }
}

/// Whether a constant bound is an int from 0 on, and not above a length, where that is known.
fn is_bound(length: Option<usize>, bound: Option<&Const>) -> bool
    ensures { result ≡ is_bound length (option_copied bound.entry) }
{
    let Some(Const::Integer(bound)) = bound else {
        return true;
    };
    if *bound < 0 || !IntKind::Int.fits(*bound) {
        return false;
    }
    match length {
        Some(length) => *bound <= length as i128,
        None => true,
    }
}

/// What counts elements: an int, unless it has a type.
fn as_count(alloc: Global, value: TypedExpr) -> Result<TypedExpr, AllocError>
    ensures { IfOk result (λ e. as_expr e ≡ as_count (as_expr value)) }
{
    if is_untyped(type_in(&value)) {
        as_type(alloc, int(), value)
    } else {
        Ok(value)
    }
}

/// A bound of a part of a value of a length, where that is known. `Mismatch` where it is no integer,
/// `Index` where a constant is negative, no int or past the end.
fn bound_of(alloc: Global, length: Option<usize>, value: TypedExpr) -> Result<TypedExpr, RuleError>
    ensures { Gives as_expr result (bound_verdict length (as_expr value)) }
{
    if !is_integer(type_in(&value)) {
        return Err(RuleError::Broken(FaultKind::Mismatch));
    }
    if !is_bound(length, constant_in(&value)) {
        return Err(RuleError::Broken(FaultKind::Index));
    }
    Ok(as_count(alloc, value)?)
}

/// Whether of two constants the first isn't above the other.
fn are_ordered(low: Option<&Const>, high: Option<&Const>) -> bool
    ensures { result ≡ are_ordered (option_copied low.entry) (option_copied high.entry) }
{
    match (low, high) {
        (Some(Const::Integer(low)), Some(Const::Integer(high))) if *low >= 0 && *high >= 0 => {
            low <= high
        }
        _ => true,
    }
}

/// The bounds that are given.
fn given_bounds(
    alloc: Global,
    low: Option<TypedExpr>,
    high: Option<TypedExpr>,
) -> Result<Vec<TypedExpr>, AllocError>
    ensures { IfOk result (λ bounds. map as_expr bounds.items ≡ given_bounds (option_map as_expr low) (option_map as_expr high)) }
{
    let low = match low {
        Some(low) => low,
        None => constant(int(), Const::Integer(0)),
    };
    let mut bounds = Vec::new(alloc);
    bounds.push(low)?;
    if let Some(high) = high {
        bounds.push(high)?;
    }
    Ok(bounds)
}

/// Bounds of a part of a value of a length, where that is known.
fn all_bounds(
    alloc: Global,
    length: Option<usize>,
    bounds: Vec<TypedExpr>,
) -> Result<Vec<TypedExpr>, RuleError>
    ensures { Gives (all_of as_expr) result (fine_list [] (map (bound_verdict length) (map as_expr bounds.items))) }
{
    let mut all = Gathered::new(alloc, None);
    for bound in bounds {
        all.add(bound_of(alloc, length, bound))?;
    }
    all.finish()
}

/// The part of a value between bounds. `Index` where constant ones aren't in order.
fn cut_to(alloc: Global, value: TypedExpr, bounds: Vec<TypedExpr>) -> Result<TypedExpr, RuleError>
    ensures { Gives as_expr result (cut_to (as_expr value) (map as_expr bounds.items)) }
{
    let mut bounds = bounds;
    let Some(last) = bounds.pop() else {
        return Err(RuleError::Memory);
    };
    let first = bounds.pop();
    if !bounds.is_empty() {
        return Err(RuleError::Memory);
    }
    match first {
        Some(first) => cut_between(alloc, value, first, last),
        None => cut_behind(alloc, value, last),
    }
}

/// The part of a value from a bound on.
fn cut_behind(alloc: Global, value: TypedExpr, from: TypedExpr) -> Result<TypedExpr, RuleError>
    ensures { Gives as_expr result (cut_to (as_expr value) (as_expr from ∷ [])) }
{
    let of = default_type(type_in(&value))?;
    let value = settled(alloc, value)?;
    Ok(tail(alloc, of, value, from)?)
}

/// The part of a value between two bounds. `Index` where constant ones aren't in order.
fn cut_between(
    alloc: Global,
    value: TypedExpr,
    first: TypedExpr,
    last: TypedExpr,
) -> Result<TypedExpr, RuleError>
    ensures { Gives as_expr result (cut_to (as_expr value) (as_expr first ∷ as_expr last ∷ [])) }
{
    if !are_ordered(constant_in(&first), constant_in(&last)) {
        return Err(RuleError::Broken(FaultKind::Index));
    }
    let of = default_type(type_in(&value))?;
    let value = settled(alloc, value)?;
    Ok(cut(alloc, of, value, first, last)?)
}

/// A part of a value, between bounds that may be left out. `Mismatch` where it is no slice and no
/// string, or a bound no integer; `Index` where constant bounds are out of range.
/// [Simple slice expressions](https://go.dev/ref/spec#Simple_slice_expressions)
fn cut_of(
    alloc: Global,
    value: TypedExpr,
    low: Option<TypedExpr>,
    high: Option<TypedExpr>,
) -> Result<TypedExpr, RuleError>
    ensures { Gives as_expr result (cut_of (as_expr value) (option_map as_expr low) (option_map as_expr high)) }
{
    let of = type_in(&value);
    if slice_element(of).is_none() && !is_string(of) {
        return Err(RuleError::Broken(FaultKind::Mismatch));
    }
    let given = given_bounds(alloc, low, high)?;
    let bounds = all_bounds(alloc, known_length(&value), given)?;
    cut_to(alloc, value, bounds)
}

/// A part of a value at a place, where the value and the bounds are known.
pub(crate) fn cut_at<'a>(
    alloc: Global,
    place: Place,
    value: Option<TypedExpr>,
    low: Option<Option<TypedExpr>>,
    high: Option<Option<TypedExpr>>,
) -> Result<Option<Known<'a>>, ExprError>
    ensures { AnswersAt known_of result place (valued (asked_both (λ e bounds. cut_of e bounds.0 bounds.1) (option_map as_expr value) (both (option_map (option_map as_expr) low) (option_map (option_map as_expr) high)))) }
{
    let Some(value) = value else {
        return Ok(None);
    };
    let Some(low) = low else {
        return Ok(None);
    };
    let Some(high) = high else {
        return Ok(None);
    };
    value_at(place, cut_of(alloc, value, low, high))
}

/// A length or a capacity. `Mismatch` where it is no integer, `Range` where a constant is negative or
/// no int.
fn size_of(alloc: Global, value: TypedExpr) -> Result<TypedExpr, RuleError>
    ensures { Gives as_expr result (size_verdict (as_expr value)) }
{
    if !is_integer(type_in(&value)) {
        return Err(RuleError::Broken(FaultKind::Mismatch));
    }
    if !is_bound(None, constant_in(&value)) {
        return Err(RuleError::Broken(FaultKind::Range));
    }
    Ok(as_count(alloc, value)?)
}

/// What is wrong with a length and a capacity together.
fn sizes_fault(sizes: &[TypedExpr]) -> Option<FaultKind>
    ensures { result ≡ least (sizes_faults (map as_expr sizes.now)) }
{
    match sizes {
        [_] => None,
        [length, room] => when(
            !are_ordered(constant_in(length), constant_in(room)),
            FaultKind::Index,
        ),
        _ => Some(FaultKind::Count),
    }
}

/// The slice of a type that is made with sizes.
fn made_of(alloc: Global, of: GoType, sizes: Vec<TypedExpr>) -> Result<TypedExpr, RuleError>
    ensures { Gives as_expr result (made_of (go_type of) (map as_expr sizes.items)) }
{
    let mut sizes = sizes;
    let Some(last) = sizes.pop() else {
        return Err(RuleError::Memory);
    };
    let Some(first) = sizes.pop() else {
        return Ok(make(alloc, of, last)?);
    };
    if !sizes.is_empty() {
        return Err(RuleError::Memory);
    }
    Ok(make_within(alloc, of, first, last)?)
}

/// Sizes, unless there is a fault.
fn sizes_of(
    alloc: Global,
    sizes: Vec<TypedExpr>,
    fault: Option<FaultKind>,
) -> Result<Vec<TypedExpr>, RuleError>
    ensures { (ks : List FaultKind) → fault ≡ least ks → Gives (all_of as_expr) result (fine_list ks (map size_verdict (map as_expr sizes.items))) }
{
    let mut all = Gathered::new(alloc, fault);
    for size in sizes {
        all.add(size_of(alloc, size))?;
    }
    all.finish()
}

/// What is wrong with a type and sizes of a slice together.
#[tactic(auto, using(crate::proofs::Gathering::least_both))]
fn made_fault(of: &GoType, sizes: &[TypedExpr]) -> Option<FaultKind>
    ensures { result ≡ least (when (not (is_some (slice_element (go_type of.now)))) Mismatch ++ sizes_faults (map as_expr sizes.now)) }
{
    let no_slice = when(slice_element(of).is_none(), FaultKind::Mismatch);
    lesser(no_slice, sizes_fault(sizes))
}

/// The sizes of a slice of a type.
fn made_sizes(
    alloc: Global,
    of: &GoType,
    sizes: Vec<TypedExpr>,
) -> Result<Vec<TypedExpr>, RuleError>
    ensures { let xs = map as_expr sizes.items in
        Gives (all_of as_expr) result (fine_list (when (not (is_some (slice_element (go_type of.now)))) Mismatch ++ sizes_faults xs) (map size_verdict xs)) }
{
    let fault = made_fault(of, &sizes);
    sizes_of(alloc, sizes, fault)
}

/// A slice of a type that is made with operands. `Mismatch` where the type is no slice, or one is no
/// integer; `Count` where they aren't one or two; `Range` where a constant is negative or no int,
/// `Index` where the first constant is above the other.
/// [Making slices](https://go.dev/ref/spec#Making_slices_maps_and_channels)
fn made(alloc: Global, of: GoType, sizes: Vec<TypedExpr>) -> Result<TypedExpr, RuleError>
    ensures { Gives as_expr result (make_verdict (go_type of) (map as_expr sizes.items)) }
{
    let sizes = made_sizes(alloc, &of, sizes)?;
    made_of(alloc, of, sizes)
}

/// A slice that is made at a place, where its type and its sizes are known.
pub(crate) fn made_at<'a>(
    alloc: Global,
    place: Place,
    of: Option<GoType>,
    sizes: Option<Vec<TypedExpr>>,
) -> Result<Option<Known<'a>>, ExprError>
    ensures { AnswersAt known_of result place (valued (asked_both make_verdict (option_map go_type of) (option_map (all_of as_expr) sizes))) }
{
    let Some(of) = of else {
        return Ok(None);
    };
    let Some(sizes) = sizes else {
        return Ok(None);
    };
    value_at(place, made(alloc, of, sizes))
}

/// A call of make at a place whose first argument can't be a type, where the arguments are known.
pub(crate) fn no_type_at<'a>(
    place: Place,
    first: Option<Known<'_>>,
    sizes: Option<Vec<TypedExpr>>,
) -> Result<Option<Known<'a>>, ExprError>
    ensures { AnswersAt known_of result place (valued (asked_both unmade (option_map known_of first.entry) (option_map (all_of as_expr) sizes))) }
{
    let Some(_) = first else {
        return Ok(None);
    };
    let Some(_) = sizes else {
        return Ok(None);
    };
    Err(ExprError::Faulty(place, FaultKind::Mismatch))
}

/// Arguments as elements of a type.
fn all_taken(
    alloc: Global,
    of: &GoType,
    arguments: IntoIter<TypedExpr>,
) -> Result<Vec<TypedExpr>, RuleError>
    ensures { Gives (all_of as_expr) result (fine_list [] (map (assigned (go_type of.now)) (map as_expr arguments.rest.items))) }
{
    let mut all = Gathered::new(alloc, None);
    for argument in arguments {
        all.add(assigned(alloc, of.copy()?, argument))?;
    }
    all.finish()
}

/// A slice with arguments appended.
fn append_to(
    alloc: Global,
    slice: TypedExpr,
    arguments: IntoIter<TypedExpr>,
) -> Result<TypedExpr, RuleError>
    ensures { Gives as_expr result (append_verdict (as_expr slice ∷ map as_expr arguments.rest.items)) }
{
    let Some(of) = slice_element(type_in(&slice)) else {
        return Err(RuleError::Broken(FaultKind::Mismatch));
    };
    let elements = all_taken(alloc, of, arguments)?;
    let of = type_in(&slice).copy()?;
    Ok(append(alloc, of, slice, elements)?)
}

/// A call of append with arguments. `Count` where there is none, `Mismatch` where the first is no
/// slice; else what is wrong with the others as its elements.
/// [Appending](https://go.dev/ref/spec#Appending_and_copying_slices)
pub(crate) fn append_called<'a>(
    alloc: Global,
    arguments: Vec<TypedExpr>,
) -> Result<Known<'a>, RuleError>
    ensures { Gives known_of result (called (known.declared known.append') (map as_expr arguments.items)) }
{
    let mut arguments = arguments.into_iter();
    let Some(slice) = arguments.next() else {
        return Err(RuleError::Broken(FaultKind::Count));
    };
    Ok(Known::Value(append_to(alloc, slice, arguments)?))
}
