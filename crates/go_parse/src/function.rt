//! Reads functions.
ghost use Rattle.std.specs.Prelude.{◌≡◌, ◌<◌, ◌≤◌, List, map, Some, OnOk, refl};
ghost use Rattle.go_ast.specs.Expected.{another, a_result_end};
ghost use Rattle.go_ast.specs.Trees as trees;
ghost use Rattle.go_ast.specs.Machine.{Reader, parameters, results, read_results, behind_func};
ghost use Rattle.go_ast.specs.Grammar.{Lexeme};
ghost use Rattle.go_ast.specs.Views.{type_of, parameter_of, function_of};
ghost use Rattle.go_parse.specs.Files.{parameter_item};
ghost use Rattle.go_pexpr.specs.Reads.{Reads, size};

use crate::marks::{COMMA, OPENING};
use go_ast::expression::TypeExpr;
use go_ast::file::{Function, Parameter};
use go_pexpr::expected::Expected;
use go_pexpr::parser::{Parser, Refusal};
use go_pstmt::list::{Items, list};
use go_pstmt::statement::block;
use go_scan::token::TokenKind;
use go_text::place::Place;

/// Reads parameters of one type.
///
/// `ParameterDecl = IdentifierList Type .`
fn parameter(parser: &mut Parser<'_>) -> Result<Parameter, Refusal>
    ensures reads { (next : trees.Parameter → Reader) → Reads (parameter_item next) (λ p. next (parameter_of p)) parser.old result parser.new }
    ensures shorter { OnOk result (size parser.new < size parser.old) }
{
    let names = parser.names(1)?;
    let type_expr = parser.type_from(1, Expected::ParameterType)?;
    Ok(Parameter { names, type_expr })
}

/// The parameters of a function.
#[derive(Clone, Copy)]
struct Parameters;

impl Items for Parameters {
    type Node = Parameter;

    ghost kind = { λ _. parameters };

    ghost seen = { λ _. parameter_of };

    ghost due = { λ _. another };

    ghost can_read = { λ _. Unit {0} };

    ghost closes = { λ _. refl };

    fn separator(&self) -> TokenKind {
        COMMA
    }

    fn behind(&self) -> Expected {
        Expected::Another
    }

    fn item(&self, parser: &mut Parser<'_>) -> Result<Parameter, Refusal> {
        parameter(parser)
    }
}

/// The types of results in parentheses.
#[derive(Clone, Copy)]
struct ResultTypes;

impl Items for ResultTypes {
    type Node = TypeExpr;

    ghost kind = { λ _. results };

    ghost seen = { λ _. type_of };

    ghost due = { λ _. a_result_end };

    ghost can_read = { λ _. Unit {0} };

    ghost closes = { λ _. refl };

    fn separator(&self) -> TokenKind {
        COMMA
    }

    fn behind(&self) -> Expected {
        Expected::ResultEnd
    }

    fn item(&self, parser: &mut Parser<'_>) -> Result<TypeExpr, Refusal> {
        parser.type_from(1, Expected::Type)
    }
}

/// Reads the types of a function's results.
///
/// `Result = Type | "(" [ Type { "," Type } [ "," ] ] ")" .`
fn results(parser: &mut Parser<'_>) -> Result<Vec<TypeExpr>, Refusal>
    ensures reads { (next : List trees.TypeExpr → Reader) → Reads (read_results next) (λ rs. next (map type_of rs.items)) parser.old result parser.new }
    ensures no_longer { OnOk result (size parser.new ≤ size parser.old) }
{
    if let Some(_) = parser.accept(OPENING, 0)? {
        return list(parser, &ResultTypes);
    }
    let mut results = Vec::new(parser.alloc);
    let Some(type_expr) = parser.type_if(1, Expected::Type)? else {
        return Ok(results);
    };
    results.push(type_expr)?;
    results.shrink_to_fit();
    Ok(results)
}

/// Reads a function behind its keyword, which stands at this place.
///
/// `FunctionDecl = "func" FunctionName Parameters [ Result ] Block .`
pub(crate) fn function(parser: &mut Parser<'_>, place: Place) -> Result<Function, Refusal>
    ensures reads { (next : trees.FunctionDecl → Reader) (t : Lexeme) → t.place ≡ place → Reads (behind_func next t) (λ f. next (function_of f)) parser.old result parser.new }
    ensures shorter { OnOk result (size parser.new < size parser.old) }
{
    let name = parser.name(0, Expected::FunctionName)?;
    parser.expect(OPENING, 0, Expected::FunctionOpening)?;
    let parameters = list(parser, &Parameters)?;
    let results = results(parser)?;
    let body = block(parser, 1)?;
    Ok(Function {
        place,
        name,
        parameters,
        results,
        body,
    })
}
