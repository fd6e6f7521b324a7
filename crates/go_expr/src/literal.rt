//! Literals. [Integer literals](https://go.dev/ref/spec#Integer_literals)
ghost use Rattle.std.specs.Prelude.{◌≡◌, ◌≤◌, ◌<◌, ◌^◌, pos, SomeIff, IfOk};
ghost use Rattle.go_const.specs.declared.constant.Const.TheVariants.{Integer as AnInteger, Text as AText};
ghost use Rattle.go_types.specs.declared.types.Basic.TheVariants as basics;
ghost use Rattle.go_types.specs.declared.types.Untyped.TheVariants as kinds;
ghost use Rattle.go_types.specs.Types.{basic};
ghost use Rattle.go_typed.specs.Trees.{constant};
ghost use Rattle.go_typed.specs.Views.{as_expr};
ghost use Rattle.go_expr.specs.Rules.{numeral, digits_number, literal};
ghost use Rattle.go_expr.specs.Views.{Gives};

use crate::error::RuleError;
use crate::node::constant;
use go_const::constant::{Const, Text};
use go_text::fault::FaultKind;
use go_typed::expression::TypedExpr;
use go_types::types::{Basic, GoType, Untyped};
use std::alloc::{AllocError, Global};

/// The base of an integer literal, and its digits with underscores among them.
fn numeral(text: &[u8]) -> (u32, &[u8])
    ensures parts { (result.0, result.1.now) ≡ numeral text.now }
    ensures least { 2 ≤ result.0 }
    ensures most { result.0 ≤ 16 }
{
    match text {
        [b'0', b'b' | b'B', digits @ ..] => (2, digits),
        [b'0', b'x' | b'X', digits @ ..] => (16, digits),
        [b'0', b'o' | b'O', digits @ ..] => (8, digits),
        [b'0', _, ..] => (8, &text[1..]),
        _ => (10, text),
    }
}

/// The number that digits of a base write, if it is below 2^127.
fn number_of(base: u32, digits: &[u8]) -> Option<i128>
    requires least { 2 ≤ base }
    requires most { base ≤ 16 }
    ensures { SomeIff result (digits_number base digits.now < 2 ^ 127) (pos (digits_number base digits.now)) }
{
    let mut number: u128 = 0;
    for byte in digits {
        if let Some(digit) = (*byte as char).to_digit(base) {
            number = number
                .checked_mul(u128::from(base))?
                .checked_add(u128::from(digit))?;
        }
    }
    i128::try_from(number).ok()
}

/// A constant that has no type, of a kind.
pub(crate) fn untyped(kind: Untyped, value: Const) -> TypedExpr
    ensures { as_expr result ≡ constant (basic (basics.Untyped kind)) value }
{
    constant(GoType::Basic(Basic::Untyped(kind)), value)
}

/// What an integer literal is. `Constant` where it is 2^127 or more.
pub(crate) fn literal(text: &str) -> Result<TypedExpr, RuleError>
    ensures { Gives as_expr result (literal text.now) }
{
    let (base, digits) = numeral(text.as_bytes());
    match number_of(base, digits) {
        Some(number) => Ok(untyped(Untyped::Int, Const::Integer(number))),
        None => Err(RuleError::Broken(FaultKind::Constant)),
    }
}

/// What a rune literal is. [Rune literals](https://go.dev/ref/spec#Rune_literals)
pub(crate) fn rune(value: u32) -> TypedExpr
    ensures { as_expr result ≡ constant (basic (basics.Untyped kinds.Rune)) (AnInteger (pos value)) }
{
    untyped(Untyped::Rune, Const::Integer(i128::from(value)))
}

/// What a string literal is. An `Err` only where memory ran out.
/// [String literals](https://go.dev/ref/spec#String_literals)
pub(crate) fn text_constant(alloc: Global, bytes: &[u8]) -> Result<TypedExpr, AllocError>
    ensures { IfOk result (λ e. as_expr e ≡ constant (basic (basics.Untyped kinds.String)) (AText bytes.now)) }
{
    let text = Text::new(alloc, bytes)?;
    Ok(untyped(Untyped::String, Const::Text(text)))
}
