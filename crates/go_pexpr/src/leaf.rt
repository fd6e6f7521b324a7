//! Reads what is one token, or a name of a package's.
ghost use Rattle.std.specs.Prelude.{◌≡◌, ◌<◌, ◌≤◌, IfOk, OnOk};
ghost use Rattle.go_ast.specs.Trees as trees;
ghost use Rattle.go_scan.specs.declared.token.TokenKind.TheVariants as kinds;
ghost use Rattle.go_ast.specs.Expected.{another};
ghost use Rattle.go_ast.specs.Literals.{string_value, rune_value};
ghost use Rattle.go_ast.specs.Machine.{token, behind_name};
ghost use Rattle.go_pexpr.specs.Reading.{ReadsExpr, ReadsType};
ghost use Rattle.go_pexpr.specs.Reads.{size};

use crate::build::{Tall, TallType, beside, integer, name, named, qualified, rune, string};
use crate::expected::Expected;
use crate::literal::{rune_value, string_value};
use crate::parser::{Parser, Refusal};
use crate::taking::spelling;
use go_scan::punctuation::Punctuation;
use go_scan::token::TokenKind;

impl<'a> Parser<'a> {
    /// Reads a type that is a name, or a name of a package's.
    ///
    /// `TypeName = identifier | PackageName "." identifier .`
    pub(crate) fn named_type(&mut self, level: u32) -> Result<TallType, Refusal>
        ensures reads { ReadsType (λ next. token kinds.Name level another (behind_name next)) self.old result self.new }
        ensures height { IfOk result (λ a. a.height ≡ 1) }
        ensures fits { OnOk result (level ≤ 250) }
        ensures shorter { OnOk result (size self.new < size self.old) }
    {
        let period = TokenKind::Punctuation(Punctuation::Period);
        let name = self.name(level, Expected::Another)?;
        let place = name.place();
        if !self.is_next(period) {
            return Ok(named(place, name));
        }
        let (package, selected) = beside(name, self.selected_name(0))?;
        Ok(qualified(place, package, selected))
    }

    /// Reads a name that stands as an operand.
    ///
    /// `OperandName = identifier .`
    pub(crate) fn name_operand(&mut self, level: u32) -> Result<Tall, Refusal>
        ensures reads { ReadsExpr (λ next. token kinds.Name level another (λ t. next (trees.name t.place t.text))) self.old result self.new }
        ensures height { IfOk result (λ e. e.height ≡ 1) }
        ensures fits { OnOk result (level ≤ 250) }
        ensures shorter { OnOk result (size self.new < size self.old) }
    {
        let token = self.expect(TokenKind::Name, level, Expected::Another)?;
        let text = self.text_of(token)?;
        Ok(name(token.place, text))
    }

    /// Reads an integer literal.
    ///
    /// `BasicLit = int_lit .`
    pub(crate) fn integer_operand(&mut self, level: u32) -> Result<Tall, Refusal>
        ensures reads { ReadsExpr (λ next. token kinds.Integer level another (λ t. next (trees.integer t.place t.text))) self.old result self.new }
        ensures height { IfOk result (λ e. e.height ≡ 1) }
        ensures fits { OnOk result (level ≤ 250) }
        ensures shorter { OnOk result (size self.new < size self.old) }
    {
        let token = self.expect(TokenKind::Integer, level, Expected::Another)?;
        let text = self.text_of(token)?;
        Ok(integer(token.place, text))
    }

    /// Reads a rune literal.
    ///
    /// `BasicLit = rune_lit .`
    pub(crate) fn rune_operand(&mut self, level: u32) -> Result<Tall, Refusal>
        ensures reads { ReadsExpr (λ next. token kinds.Rune level another (λ t. next (trees.rune t.place (rune_value t.text)))) self.old result self.new }
        ensures height { IfOk result (λ e. e.height ≡ 1) }
        ensures fits { OnOk result (level ≤ 250) }
        ensures shorter { OnOk result (size self.new < size self.old) }
    {
        let token = self.expect(TokenKind::Rune, level, Expected::Another)?;
        let value = rune_value(spelling(self.text, token));
        Ok(rune(token.place, value))
    }

    /// Reads a string literal.
    ///
    /// `BasicLit = string_lit .`
    pub(crate) fn string_operand(&mut self, level: u32) -> Result<Tall, Refusal>
        ensures reads { ReadsExpr (λ next. token kinds.String level another (λ t. next (trees.string t.place (string_value t.text)))) self.old result self.new }
        ensures height { IfOk result (λ e. e.height ≡ 1) }
        ensures fits { OnOk result (level ≤ 250) }
        ensures shorter { OnOk result (size self.new < size self.old) }
    {
        let token = self.expect(TokenKind::String, level, Expected::Another)?;
        let value = string_value(self.alloc, spelling(self.text, token))?;
        Ok(string(token.place, value))
    }
}
