//! Reads what is in the brackets behind an operand.
ghost use Rattle.std.specs.Prelude.{◌<◌, ◌≤◌, ◌+◌, IfOk, OnOk};
ghost use Rattle.go_ast.specs.Trees as trees;
ghost use Rattle.go_ast.specs.Trees.{Expression};
ghost use Rattle.go_ast.specs.Expected.{another};
ghost use Rattle.go_ast.specs.Grammar.{opening_bracket};
ghost use Rattle.go_ast.specs.Machine.{token, behind_colon};
ghost use Rattle.go_ast.specs.Views.{expr_of, bound_of};
ghost use Rattle.go_pexpr.specs.Inside.{inside_of, inside_tall};
ghost use Rattle.go_pexpr.specs.Reading.{ReadsExpr};
ghost use Rattle.go_pexpr.specs.Reads.{size, ReadsAs};
ghost use Rattle.go_pexpr.specs.Turns.{behind_index, index_ends};

use crate::build::{Tall, TallBound, beside, bound, cut, index, unbounded};
use crate::expected::Expected;
use crate::parser::{Parser, Refusal};
use go_scan::punctuation::Punctuation;
use go_scan::token::TokenKind;

/// What stands in the brackets behind an operand.
#[derive(Drop)]
enum Inside {
    /// An index.
    At(Tall),
    /// The bounds of a part.
    Part(TallBound, TallBound),
}

impl<'a> Parser<'a> {
    /// Reads an index, or the bounds of a part.
    ///
    /// `Index = "[" Expression "]" .` `Slice = "[" [ Expression ] ":" [ Expression ] "]" .`
    #[cycle(tree)]
    pub(crate) fn indexed(&mut self, operand: Tall, level: u32) -> Result<Tall, Refusal>
        requires { level + operand.height ≤ 251 }
        ensures reads { ReadsExpr (λ next. token opening_bracket (level + operand.height) another (behind_index level (expr_of operand.expr) next)) self.old result self.new }
        ensures fits { IfOk result (λ e. level + e.height ≤ 251) }
        ensures shorter { OnOk result (size self.new < size self.old) }
    {
        let need = level + operand.height;
        let (operand, inside) = beside(operand, self.in_brackets(need, level))?;
        match inside {
            Inside::At(at) => index(self.alloc, operand, at),
            Inside::Part(low, high) => cut(self.alloc, operand, low, high),
        }
    }

    /// Reads what is in the brackets behind an operand, with both brackets.
    ///
    /// `"[" Expression "]" .` `"[" [ Expression ] ":" [ Expression ] "]" .`
    #[cycle(tree)]
    fn in_brackets(&mut self, need: u32, level: u32) -> Result<Inside, Refusal>
        requires { level ≤ need }
        ensures reads { (e : Expression) → ReadsAs (inside_of e) (λ next. token opening_bracket need another (behind_index level e next)) self.old result self.new }
        ensures need { OnOk result (need ≤ 250) }
        ensures fits { IfOk result (λ i. level + 1 + inside_tall i ≤ 251) }
        ensures shorter { OnOk result (size self.new < size self.old) }
    {
        let bracket = TokenKind::Punctuation(Punctuation::OpenBracket);
        let colon = TokenKind::Punctuation(Punctuation::Colon);
        self.expect(bracket, need, Expected::Another)?;
        if let Some(_) = self.accept_newer(colon)? {
            let high = self.high(level)?;
            return Ok(Inside::Part(unbounded(), high));
        }
        let first = self.binary(5, false, level + 1, Expected::Index)?;
        self.index_end(first, level)
    }

    /// Reads what is behind an index, or behind the first bound of a part: the bracket, or a colon and the rest.
    ///
    /// `"]" .` `":" [ Expression ] "]" .`
    #[cycle(tree)]
    fn index_end(&mut self, first: Tall, level: u32) -> Result<Inside, Refusal>
        requires level { level ≤ 250 }
        requires fits { level + 1 + first.height ≤ 251 }
        ensures reads { (e : Expression) → ReadsAs (inside_of e) (λ next. index_ends level e next (expr_of first.expr)) self.old result self.new }
        ensures fits { IfOk result (λ i. level + 1 + inside_tall i ≤ 251) }
        ensures shorter { OnOk result (size self.new < size self.old) }
    {
        let colon = TokenKind::Punctuation(Punctuation::Colon);
        let close = TokenKind::Punctuation(Punctuation::CloseBracket);
        let (one, taken) = beside(first, self.accept_newer(colon))?;
        if let Some(_) = taken {
            let bounded = bound(self.alloc, one)?;
            let (low, high) = beside(bounded, self.high(level))?;
            return Ok(Inside::Part(low, high));
        }
        let (at, _) = beside(one, self.expect(close, 0, Expected::IndexEnd))?;
        Ok(Inside::At(at))
    }

    /// Reads the second bound of a part and the bracket behind it.
    ///
    /// `[ Expression ] "]" .`
    #[cycle(tree)]
    fn high(&mut self, level: u32) -> Result<TallBound, Refusal>
        requires { level ≤ 250 }
        ensures reads { (e : Expression) (low : trees.Bound) → ReadsAs (λ b. trees.cut (trees.place_of e) e low (bound_of b.bound)) (behind_colon level e low) self.old result self.new }
        ensures fits { IfOk result (λ b. level + 1 + b.height ≤ 251) }
        ensures shorter { OnOk result (size self.new < size self.old) }
    {
        let close = TokenKind::Punctuation(Punctuation::CloseBracket);
        if let Some(_) = self.accept(close, 0)? {
            return Ok(unbounded());
        }
        let first = self.binary(5, false, level + 1, Expected::Index)?;
        let (at, _) = beside(first, self.expect(close, 0, Expected::IndexEnd))?;
        bound(self.alloc, at)
    }
}
