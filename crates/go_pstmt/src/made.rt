//! Makes statements of their parts.
ghost use Rattle.std.specs.Prelude.{◌≡◌, IsTrue, ◌↔◌};
ghost use Rattle.go_ast.specs.Trees as trees;
ghost use Rattle.go_ast.specs.Views.{stmt_of, block_of};
ghost use Rattle.go_ast.specs.declared.statement.Block.{Block};
ghost use Rattle.go_text.specs.declared.place.Place.{Place};
ghost use Rattle.go_pexpr.specs.Reads.{First, left};
ghost use Rattle.go_pstmt.specs.Statements.{EndsClause};
ghost use Rattle.go_pstmt.specs.Turns.{for_of};

use crate::for_loop::Turns;
use crate::marks::{CASE, CLOSING_BRACE, DEFAULT};
use go_ast::statement::{Block, For, Range, Stmt};
use go_pexpr::parser::Parser;
use go_text::place::Place;

/// A `for` of its head and its block.
pub(crate) fn for_of(place: Place, turns: Turns, body: Block) -> Stmt
    ensures { stmt_of result ≡ for_of place turns (block_of body) }
{
    match turns {
        Turns::Steps(init, condition, post) => Stmt::For(For {
            place,
            init,
            condition,
            post,
            body,
        }),
        Turns::Range(name, operand) => Stmt::Range(Range {
            place,
            name,
            operand,
            body,
        }),
    }
}

/// Whether a clause ends here.
pub(crate) fn ends_clause(parser: &Parser<'_>) -> bool
    ensures { IsTrue result ↔ First (λ t. EndsClause t.kind) (left parser.now) }
{
    parser.is_next(CASE) || parser.is_next(DEFAULT) || parser.is_next(CLOSING_BRACE)
}
