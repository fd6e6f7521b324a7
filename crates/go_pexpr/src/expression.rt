//! Reads types and expressions.
ghost use Rattle.std.specs.Prelude.{◌≡◌, ◌<◌, ◌≤◌, [], ◌∷◌, map, OnOk, IfOk, Some};
ghost use Rattle.go_ast.specs.Machine.{type, expr, more_exprs, optional_type, optional_expr};
ghost use Rattle.go_ast.specs.Views.{type_of, expr_of};
ghost use Rattle.go_pexpr.specs.Reads.{size, expected_of, ReadsAs, ReadsIf};

use crate::expected::Expected;
use crate::parser::{Parser, Refusal};
use go_ast::expression::{Expr, TypeExpr};
use go_scan::punctuation::Punctuation;
use go_scan::token::TokenKind;

impl<'a> Parser<'a> {
    /// Reads a type.
    ///
    /// `Type = TypeName | ArrayType | StructType .`
    pub fn type_from(&mut self, level: u32, expected: Expected) -> Result<TypeExpr, Refusal>
        requires { level ≤ 252 }
        ensures reads { ReadsAs type_of (type level (expected_of expected)) self.old result self.new }
        ensures shorter { OnOk result (size self.new < size self.old) }
    {
        let a = self.type_at(level, expected)?;
        Ok(a.type_expr)
    }

    /// Reads an expression.
    ///
    /// `Expression = UnaryExpr | Expression binary_op Expression .`
    pub fn expr_from(
        &mut self,
        header: bool,
        level: u32,
        expected: Expected,
    ) -> Result<Expr, Refusal>
        requires { level ≤ 252 }
        ensures reads { ReadsAs expr_of (expr 5 header level (expected_of expected)) self.old result self.new }
        ensures shorter { OnOk result (size self.new < size self.old) }
    {
        let e = self.binary(5, header, level, expected)?;
        Ok(e.expr)
    }

    /// Reads expressions with commas between them.
    ///
    /// `ExpressionList = Expression { "," Expression } .`
    pub fn exprs(
        &mut self,
        header: bool,
        level: u32,
        expected: Expected,
    ) -> Result<Vec<Expr>, Refusal>
        requires { level ≤ 252 }
        ensures reads { ReadsAs (λ es. map expr_of es.items) (λ next. expr 5 header level (expected_of expected) (λ e. more_exprs header level (e ∷ []) next)) self.old result self.new }
        ensures shorter { OnOk result (size self.new < size self.old) }
    {
        let mut first = Vec::with_capacity(self.alloc, 1)?;
        first.push(self.expr_from(header, level, expected)?)?;
        self.more_exprs(header, level, first)
    }

    /// Reads a type, if one begins here.
    ///
    /// `[ Type ] .`
    pub fn type_if(&mut self, level: u32, expected: Expected) -> Result<Option<TypeExpr>, Refusal>
        requires { level ≤ 252 }
        ensures reads { ReadsIf type_of (optional_type level (expected_of expected)) self.old result self.new }
        ensures no_longer { OnOk result (size self.new ≤ size self.old) }
        ensures shorter { IfOk result (λ o. (a : _) → o ≡ Some a → size self.new < size self.old) }
    {
        if self.begins_type() {
            let a = self.type_from(level, expected)?;
            return Ok(Some(a));
        }
        if self.is_left_out(expected) {
            return Err(self.wrong(expected));
        }
        Ok(None)
    }

    /// Reads an expression, if one begins here.
    ///
    /// `[ Expression ] .`
    pub fn expr_if(
        &mut self,
        header: bool,
        level: u32,
        expected: Expected,
    ) -> Result<Option<Expr>, Refusal>
        requires { level ≤ 252 }
        ensures reads { ReadsIf expr_of (optional_expr header level (expected_of expected)) self.old result self.new }
        ensures no_longer { OnOk result (size self.new ≤ size self.old) }
        ensures shorter { IfOk result (λ o. (e : _) → o ≡ Some e → size self.new < size self.old) }
    {
        if self.begins_expr() {
            let e = self.expr_from(header, level, expected)?;
            return Ok(Some(e));
        }
        if self.is_left_out(expected) {
            return Err(self.wrong(expected));
        }
        Ok(None)
    }

    /// Reads the expressions behind these, with commas in front of them.
    ///
    /// `{ "," Expression } .`
    pub fn more_exprs(
        &mut self,
        header: bool,
        level: u32,
        front: Vec<Expr>,
    ) -> Result<Vec<Expr>, Refusal>
        requires { level ≤ 252 }
        ensures reads { ReadsAs (λ es. map expr_of es.items) (more_exprs header level (map expr_of front.items)) self.old result self.new }
        ensures no_longer { OnOk result (size self.new ≤ size self.old) }
    {
        let comma = TokenKind::Punctuation(Punctuation::Comma);
        let mut exprs = front;
        'exprs: while self.is_next(comma) {
            self.expect(comma, 0, Expected::Another)?;
            exprs.push(self.expr_from(header, level, Expected::Operand)?)?;
        }
        Ok(exprs)
    }
}
