//! The order of variables.
ghost use Rattle.std.specs.Prelude.{◌≡◌, ◌<◌, ◌↔◌, ℕ, [], Some, true, length, map, slice_set, string_bytes, IfOk, IfErr, IfSome, IfNone, IsTrue, String};
ghost use Rattle.std.specs.Global.{Global};
ghost use Rattle.std.specs.List.{Contains, slice_get};
ghost use Rattle.ws_reach.specs.Worklist.{is_marked};
ghost use Rattle.go_text.specs.declared.place.Place.{Place as APlace};
ghost use Rattle.go_typed.specs.Views.{initialization_of, typed_of};
ghost use Rattle.go_init.specs.Variables.{variable_order, in_order};
ghost use Rattle.go_init.specs.Views.{IsInitError};
ghost use Rattle.go_init.specs.declared.error.InitError.TheVariants as errors;

use crate::error::InitError;
use crate::order::order_of;
use go_typed::package::{Typed, TypedInitialization};
use std::alloc::{AllocError, Global};
use ws_reach::node_at;

/// The initializations of a package in the order in which they are done, by their numbers in
/// declaration order: each time the first of those that are left that depends on none that is left.
///
/// `Cycle` where something is left over, which depends on itself or on such: the file and the place
/// of the first. `Memory` only where memory ran out.
/// [Package initialization](https://go.dev/ref/spec#Package_initialization)
pub fn variable_order(alloc: Global, typed: &Typed) -> Result<Vec<usize>, InitError>
    ensures order { IfOk result (λ order. in_order (typed_of typed.now) order.items ≡ (variable_order (typed_of typed.now)).0) }
    ensures whole { IfOk result (λ order. (variable_order (typed_of typed.now)).1 ≡ []) }
    ensures cycle { IfErr result (IsInitError (typed_of typed.now)) }
{
    let order = order_of(alloc, typed)?;
    match first_missing(alloc, order.as_slice(), typed.initializations.len())? {
        None => Ok(order),
        Some(number) => {
            let first = initialization_at(&typed.initializations, number);
            Err(cycle_at(alloc, first)?)
        }
    }
}

// The first number below a count that an order lacks.
fn first_missing(alloc: Global, order: &[usize], count: usize) -> Result<Option<usize>, AllocError>
    ensures none { IfOk result (λ found. IfNone found ((k : ℕ) → k < count → Contains order.now k)) }
    ensures within { IfOk result (λ found. IfSome found (λ number. number < count)) }
    ensures lacks { IfOk result (λ found. IfSome found (λ number. ¬ (Contains order.now number))) }
    ensures before { IfOk result (λ found. IfSome found (λ number. (k : ℕ) → k < number → Contains order.now k)) }
{
    let marks = marks_of(alloc, order, count)?;
    Ok(first_unmarked(marks.as_slice()))
}

// Which numbers below a count are among some numbers.
fn marks_of(alloc: Global, numbers: &[usize], count: usize) -> Result<Vec<bool>, AllocError>
    ensures size { IfOk result (λ marks. length marks.items ≡ count) }
    ensures marks { IfOk result (λ marks. (k : ℕ) → k < count → IsTrue (is_marked marks.items k) ↔ Contains numbers.now k) }
{
    let mut marks = vec![in alloc; false; count]?;
    for i in 0..numbers.len() {
        mark(&mut marks, node_at(numbers, i));
    }
    Ok(marks)
}

fn mark(marks: &mut Vec<bool>, number: usize)
    ensures { marks.new.items ≡ slice_set marks.old.items number true }
{
    if number < marks.len() {
        marks[number] = true;
    }
}

fn first_unmarked(marks: &[bool]) -> Option<usize>
    ensures none { IfNone result ((k : ℕ) → k < length marks.now → IsTrue (is_marked marks.now k)) }
    ensures within { IfSome result (λ number. number < length marks.now) }
    ensures lacks { IfSome result (λ number. ¬ IsTrue (is_marked marks.now number)) }
    ensures before { IfSome result (λ number. (k : ℕ) → k < number → IsTrue (is_marked marks.now k)) }
{
    for number in 0..marks.len() {
        if !marks[number] {
            return Some(number);
        }
    }
    None
}

fn initialization_at(all: &[TypedInitialization], number: usize) -> &TypedInitialization
    requires { number < length all.now }
    ensures { slice_get (map initialization_of all.now) number ≡ Some (initialization_of result.now) }
{
    &all[number]
}

fn cycle_at(alloc: Global, of: &TypedInitialization) -> Result<InitError, AllocError>
    ensures { IfOk result (λ e. (file : String Global) (place : APlace) → e ≡ errors.Cycle file place
        → (string_bytes file ≡ (initialization_of of.now).file) × (place ≡ (initialization_of of.now).place)) }
{
    let file = of.file.clone()?;
    Ok(InitError::Cycle(file, of.place))
}
