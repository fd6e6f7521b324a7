//! Operators.
ghost use Rattle.std.specs.Prelude.{◌≡◌, [], ◌∷◌, ◌++◌, OnOk};
ghost use Rattle.go_types.specs.Views.{go_type};
ghost use Rattle.go_types.specs.Relations.{underlying};
ghost use Rattle.go_meaning.specs.Choices.{unary_operators, binary_operators, conversion_operators};
ghost use Rattle.go_typed.specs.declared.expression.Operator.TheVariants.{Comparison};
ghost use Rattle.go_gen.specs.Translation.{operators_code};

use crate::code::Code;
use crate::size::cells;
use go_code::instr::Instr;
use go_code::operator as on_cells;
use go_code::operator::TextOperator;
use go_const::operator::{ArithmeticOperator, ComparisonOperator, UnaryOperator};
use go_typed::expression::Operator;
use go_types::relations::underlying;
use go_types::types::{Basic, GoType};
use std::alloc::AllocError;

/// Puts an operator on cells before a code.
pub(crate) fn put_operator(code: &mut Code, operator: on_cells::Operator) -> Result<(), AllocError>
    ensures { OnOk result (code.new ≡ operators_code (operator ∷ []) ++ code.old) }
{
    code.put(Instr::Operate(operator))
}

/// Puts the operator before an operand of a type before a code.
pub(crate) fn put_unary(
    code: &mut Code,
    of: &GoType,
    operator: UnaryOperator,
) -> Result<(), AllocError>
    ensures { OnOk result (code.new ≡ operators_code (unary_operators (underlying (go_type of.now)) operator) ++ code.old) }
{
    match (underlying(of), operator) {
        (_, UnaryOperator::Negation) => put_operator(code, on_cells::Operator::Not),
        (GoType::Basic(Basic::Integer(integer)), UnaryOperator::Negative) => {
            put_operator(code, on_cells::Operator::Negate(*integer))
        }
        (GoType::Basic(Basic::Integer(integer)), UnaryOperator::Complement) => {
            put_operator(code, on_cells::Operator::Complement(*integer))
        }
        _ => Ok(()),
    }
}

/// Puts a comparison of operands of a type before a code.
fn put_comparison(
    code: &mut Code,
    of: &GoType,
    operator: ComparisonOperator,
) -> Result<(), AllocError>
    ensures { OnOk result (code.new ≡ operators_code (binary_operators (go_type of.now) (Comparison operator)) ++ code.old) }
{
    match operator {
        ComparisonOperator::Equal => put_operator(code, on_cells::Operator::Equal(cells(of)?)),
        ComparisonOperator::NotEqual => {
            put_operator(code, on_cells::Operator::Not)?;
            put_operator(code, on_cells::Operator::Equal(cells(of)?))
        }
        _ => put_operator(code, on_cells::Operator::Compare(operator)),
    }
}

/// Puts the operator between operands of a type before a code.
pub(crate) fn put_binary(code: &mut Code, of: &GoType, operator: Operator) -> Result<(), AllocError>
    ensures { OnOk result (code.new ≡ operators_code (binary_operators (underlying (go_type of.now)) operator) ++ code.old) }
{
    match (underlying(of), operator) {
        (of, Operator::Comparison(operator)) => put_comparison(code, of, operator),
        (GoType::Basic(Basic::Integer(integer)), Operator::Arithmetic(operator)) => {
            put_operator(code, on_cells::Operator::Arithmetic(operator, *integer))
        }
        (GoType::Basic(Basic::Integer(integer)), Operator::Shift(operator)) => {
            put_operator(code, on_cells::Operator::Shift(operator, *integer))
        }
        (GoType::Basic(Basic::String), Operator::Arithmetic(ArithmeticOperator::Add)) => {
            put_operator(code, on_cells::Operator::Text(TextOperator::Join))
        }
        _ => Ok(()),
    }
}

/// Puts the conversion to a type before a code.
pub(crate) fn put_conversion(code: &mut Code, of: &GoType) -> Result<(), AllocError>
    ensures { OnOk result (code.new ≡ operators_code (conversion_operators (underlying (go_type of.now))) ++ code.old) }
{
    match underlying(of) {
        GoType::Basic(Basic::Integer(integer)) => {
            put_operator(code, on_cells::Operator::Convert(*integer))
        }
        _ => Ok(()),
    }
}
