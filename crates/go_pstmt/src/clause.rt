//! Reads what begins the clauses of a `switch`.
ghost use Rattle.std.specs.Prelude.{◌≡◌, ◌<◌, ◌≤◌, ◌+◌, OnOk};
ghost use Rattle.go_ast.specs.Grammar.{closing_brace};
ghost use Rattle.go_ast.specs.Views.{stmt_of};
ghost use Rattle.go_pstmt.specs.Due.{behind_of};
ghost use Rattle.go_pexpr.specs.Reads.{First, left, size, expected_of};
ghost use Rattle.go_pstmt.specs.Reading.{ReadsClause};

use crate::marks::{CASE, COLON, DEFAULT};
use go_ast::statement::{Clause, Stmt};
use go_pexpr::expected::Expected;
use go_pexpr::parser::{Parser, Refusal};

/// What is expected behind a statement, but a semicolon or the list's end.
pub(crate) fn expected_behind(stmt: &Stmt) -> Expected
    ensures { expected_of result ≡ behind_of (stmt_of stmt.now) }
{
    match stmt {
        Stmt::Break(_) => Expected::BehindJump,
        Stmt::Continue(_) => Expected::BehindJump,
        _ => Expected::Another,
    }
}

/// Reads what begins a clause, up to its colon.
///
/// `ExprSwitchCase ":" .` `ExprSwitchCase = "case" ExpressionList | "default" .`
pub(crate) fn clause_from(parser: &mut Parser<'_>, level: u32) -> Result<Clause, Refusal>
    requires level { level ≤ 251 }
    requires some { First (λ t. t.kind ≡ closing_brace) (left parser.old) → ⊥ }
    ensures reads { ReadsClause level parser.old result parser.new }
    ensures shorter { OnOk result (size parser.new < size parser.old) }
{
    if parser.is_next(DEFAULT) {
        let token = parser.expect(DEFAULT, 0, Expected::Another)?;
        parser.expect(COLON, 0, Expected::Another)?;
        return Ok(Clause {
            place: token.place,
            values: None,
            statements: Vec::new(parser.alloc),
        });
    }
    let token = parser.expect(CASE, level + 1, Expected::Another)?;
    let values = parser.exprs(false, level + 1, Expected::Operand)?;
    parser.expect(COLON, 0, Expected::Another)?;
    Ok(Clause {
        place: token.place,
        values: Some(values),
        statements: Vec::new(parser.alloc),
    })
}
