//! Reads types and expressions.
ghost use Rattle.std.specs.Prelude.{◌≡◌, ◌<◌, ◌≤◌, ◌+◌, [], map, Some, None, IfOk, OnOk, true, false};
ghost use Rattle.go_text.specs.Editions.{has_slices};
ghost use Rattle.go_ast.specs.Trees as trees;
ghost use Rattle.go_scan.specs.declared.keyword.Keyword.TheVariants as keywords;
ghost use Rattle.go_ast.specs.Expected.{an_operand, another};
ghost use Rattle.go_ast.specs.Grammar.{opening, closing, opening_bracket, period, comma, colon};
ghost use Rattle.go_ast.specs.Machine.{Reader, token, optional, names, type, expr, operands, suffixes, tails, list_start, fields, arguments, elements, keyword, behind_bracket, behind_struct, behind_literal_type, behind_operand, behind_operand_type, literal_type};
ghost use Rattle.go_ast.specs.Views.{type_of, expr_of, value_of, element_of, field_of};
ghost use Rattle.go_pexpr.specs.Next.{sign_at, is_slice_type};
ghost use Rattle.go_pexpr.specs.Reading.{ReadsExpr, ReadsType, ReadsExprs, ReadsPlaced, ReadsBehindNext, ReadsOperand, ReadsFirst, ReadsField, ReadsElement, ReadsBraced};
ghost use Rattle.go_pexpr.specs.Reads.{Reads, left, size, expected_of, ReadsAs};
ghost use Rattle.go_pexpr.specs.Turns.{behind_conversion, behind_paren, behind_selector, conversion_or_type, behind_call, read_value, literal_at, literal_then, between};

use crate::build::{
    Arguments, Elements, Fields, Tall, TallElement, TallType, TallValue, array, beside, binary,
    braced_value, call, composite_lit, conversion, element, expression_value, key_in,
    keyed_element, named_by, no_arguments, one_argument, parenthesized, selector, slice, structure,
    type_operand, unary,
};
use crate::expected::Expected;
use crate::operators::{Beginning, Suffix, is_slice, tighter};
use crate::parser::{Parser, Refusal};
use go_ast::expression::{Element, Expr, Field, TypeExpr};
use go_ast::name::Name;
use go_scan::keyword::Keyword;
use go_scan::punctuation::Punctuation;
use go_scan::token::TokenKind;
use go_text::place::Place;

/// The marks around an expression, and what is expected where the second is.
#[derive(Clone, Copy, Drop)]
struct Marks {
    first: TokenKind,
    last: TokenKind,
    end: Expected,
}

impl<'a> Parser<'a> {
    /// Reads a type.
    ///
    /// `Type = TypeName | ArrayType | SliceType | StructType .`
    #[cycle(tree)]
    pub(crate) fn type_at(&mut self, level: u32, expected: Expected) -> Result<TallType, Refusal>
        requires { level ≤ 253 }
        ensures reads { ReadsType (type level (expected_of expected)) self.old result self.new }
        ensures fits { IfOk result (λ a. level + a.height ≤ 251) }
        ensures shorter { OnOk result (size self.new < size self.old) }
    {
        match self.beginning() {
            Beginning::Name => self.named_type(level),
            Beginning::Bracket => self.bracket_type(level),
            Beginning::Structure => self.struct_type(level),
            _ => Err(self.wrong(expected)),
        }
    }

    /// Reads the type of arrays or slices.
    ///
    /// `ArrayType = "[" Expression "]" Type .` `SliceType = "[" "]" Type .`
    #[cycle(tree)]
    fn bracket_type(&mut self, level: u32) -> Result<TallType, Refusal>
        requires { level ≤ 253 }
        ensures reads { ReadsType (λ next. token opening_bracket (level + 1) another (behind_bracket level next)) self.old result self.new }
        ensures fits { IfOk result (λ a. level + a.height ≤ 251) }
        ensures shorter { OnOk result (size self.new < size self.old) }
    {
        let open = TokenKind::Punctuation(Punctuation::OpenBracket);
        let close = TokenKind::Punctuation(Punctuation::CloseBracket);
        let bracket = self.expect(open, level + 1, Expected::Another)?;
        if let Some(_) = self.accept_newer(close)? {
            let item = self.type_at(level + 1, Expected::Type)?;
            return slice(self.alloc, bracket.place, item);
        }
        let first = self.binary(5, false, level + 1, Expected::Length)?;
        let end = self.expect(close, 0, Expected::Another);
        let (length, _) = beside(first, end)?;
        let behind = self.type_at(level + 1, Expected::Type);
        let (sized, item) = beside(length, behind)?;
        array(self.alloc, bracket.place, sized, item)
    }

    /// Reads the type of structs.
    ///
    /// `StructType = "struct" "{" { FieldDecl ";" } "}" .`
    #[cycle(tree)]
    fn struct_type(&mut self, level: u32) -> Result<TallType, Refusal>
        requires { level ≤ 253 }
        ensures reads { ReadsType (λ next. token (keyword keywords.Struct) level another (behind_struct level next)) self.old result self.new }
        ensures fits { IfOk result (λ a. level + a.height ≤ 251) }
        ensures shorter { OnOk result (size self.new < size self.old) }
    {
        let open = TokenKind::Punctuation(Punctuation::OpenBrace);
        let word = self.expect(
            TokenKind::Keyword(Keyword::Struct),
            level,
            Expected::Another,
        )?;
        self.expect(open, 0, Expected::Another)?;
        let fields = self.fields(level + 1)?;
        Ok(structure(word.place, fields))
    }

    /// Reads the fields of a struct and the brace that closes them.
    ///
    /// `{ FieldDecl ";" } "}" .`
    #[cycle(tree)]
    fn fields(&mut self, level: u32) -> Result<Fields, Refusal>
        requires { level ≤ 251 }
        ensures reads { ReadsAs (λ fs. map field_of fs.items.items) (λ next. list_start (fields level) [] (λ fs _. next fs)) self.old result self.new }
        ensures fits { IfOk result (λ fs. level + fs.height ≤ 251) }
        ensures shorter { OnOk result (size self.new < size self.old) }
    {
        let close = TokenKind::Punctuation(Punctuation::CloseBrace);
        let semicolon = TokenKind::Punctuation(Punctuation::Semicolon);
        let mut items = Vec::new(self.alloc);
        let mut height = 0;
        'fields: while !self.is_next(close) {
            let (names, item) = self.field(level)?;
            height = item.height.max(height);
            let type_expr = item.type_expr;
            items.push(Field { names, type_expr })?;
            self.separate(semicolon, close, Expected::FieldEnd)?;
        }
        self.expect(close, 0, Expected::Another)?;
        items.shrink_to_fit();
        Ok(Fields { items, height })
    }

    /// Reads the names and the type of a field.
    ///
    /// `FieldDecl = IdentifierList Type .`
    #[cycle(tree)]
    fn field(&mut self, level: u32) -> Result<(Vec<Name>, TallType), Refusal>
        ensures reads { ReadsField level self.old result self.new }
        ensures fits { IfOk result (λ f. level + f.1.height ≤ 251) }
        ensures shorter { OnOk result (size self.new < size self.old) }
    {
        let names = self.names(level)?;
        let item = self.type_at(level, Expected::Type)?;
        Ok((names, item))
    }

    /// Reads an expression of operators of so many levels.
    ///
    /// `Expression = UnaryExpr | Expression binary_op Expression .`
    #[cycle(tree)]
    pub(crate) fn binary(
        &mut self,
        limit: u8,
        header: bool,
        level: u32,
        expected: Expected,
    ) -> Result<Tall, Refusal>
        requires limit { limit ≤ 5 }
        requires level { level ≤ 252 }
        ensures reads { ReadsExpr (expr limit header level (expected_of expected)) self.old result self.new }
        ensures fits { IfOk result (λ e. level + e.height ≤ 251) }
        ensures shorter { OnOk result (size self.new < size self.old) }
    {
        let front = self.unary(header, level, expected)?;
        self.operators(front, limit, header, level)
    }

    /// Reads the operators of so many levels behind an operand, and the operands behind them.
    ///
    /// `{ binary_op Expression } .`
    #[cycle(tree)]
    fn operators(
        &mut self,
        front: Tall,
        limit: u8,
        header: bool,
        level: u32,
    ) -> Result<Tall, Refusal>
        requires limit { limit ≤ 5 }
        requires level { level ≤ 252 }
        requires fits { level + front.height ≤ 251 }
        ensures reads { ReadsExpr (λ next. tails limit header level next (expr_of front.expr)) self.old result self.new }
        ensures fits { IfOk result (λ e. level + e.height ≤ 251) }
        ensures no_longer { OnOk result (size self.new ≤ size self.old) }
    {
        let mut left = front;
        let mut tightest = 0;
        'operators: while let Some(operator) = self.operator(tightest, limit) {
            tightest = tighter(operator);
            let need = level + left.height;
            let (front, right) = beside(left, self.right(need, tightest, header, level + 1))?;
            left = binary(self.alloc, operator, front, right)?;
        }
        Ok(left)
    }

    /// Takes the next token and reads the operand behind it, of operators of so many levels.
    ///
    /// `binary_op Expression .`
    #[cycle(tree)]
    fn right(&mut self, need: u32, limit: u8, header: bool, level: u32) -> Result<Tall, Refusal>
        requires limit { limit ≤ 5 }
        requires level { level ≤ 252 }
        ensures reads { ReadsBehindNext need (expr limit header level an_operand) self.old result self.new }
        ensures need { OnOk result (need ≤ 250) }
        ensures fits { IfOk result (λ e. level + e.height ≤ 251) }
        ensures shorter { OnOk result (size self.new < size self.old) }
    {
        self.bump(need)?;
        self.binary(limit, header, level, Expected::Operand)
    }

    /// Reads an expression without operators between operands.
    ///
    /// `UnaryExpr = PrimaryExpr | unary_op UnaryExpr .`
    #[cycle(tree)]
    fn unary(&mut self, header: bool, level: u32, expected: Expected) -> Result<Tall, Refusal>
        requires { level ≤ 252 }
        ensures reads { ReadsExpr (expr 0 header level (expected_of expected)) self.old result self.new }
        ensures fits { IfOk result (λ e. level + e.height ≤ 251) }
        ensures shorter { OnOk result (size self.new < size self.old) }
    {
        let Some(operator) = self.sign() else {
            let operand = self.operand(level, expected)?;
            return self.suffixes(operand, header, level);
        };
        let token = self.bump(level + 1)?;
        let operand = self.unary(header, level + 1, Expected::Operand)?;
        unary(self.alloc, token.place, operator, operand)
    }

    /// Reads an operand.
    ///
    /// `Operand = BasicLit | CompositeLit | OperandName | "(" Expression ")" .`
    #[cycle(tree)]
    fn operand(&mut self, level: u32, expected: Expected) -> Result<Tall, Refusal>
        requires level { level ≤ 252 }
        requires sign { sign_at (left self.old) ≡ None }
        ensures reads { ReadsOperand level (expected_of expected) self.old result self.new }
        ensures fits { IfOk result (λ e. level + e.height ≤ 251) }
        ensures shorter { OnOk result (size self.new < size self.old) }
    {
        match self.beginning() {
            Beginning::Name => self.name_operand(level),
            Beginning::Integer => self.integer_operand(level),
            Beginning::Rune => self.rune_operand(level),
            Beginning::String => self.string_operand(level),
            Beginning::Parenthesis => self.parenthesized(level),
            Beginning::Bracket => {
                let bracket = self.bracket_type(level + 1)?;
                self.typed(bracket, level)
            }
            Beginning::Structure => {
                let structure = self.struct_type(level + 1)?;
                self.typed(structure, level)
            }
            Beginning::Other => Err(self.wrong(expected)),
        }
    }

    /// Reads an expression in parentheses.
    ///
    /// `"(" Expression ")" .`
    #[cycle(tree)]
    fn parenthesized(&mut self, level: u32) -> Result<Tall, Refusal>
        requires { level ≤ 252 }
        ensures reads { ReadsExpr (λ next. token opening (level + 1) another (behind_paren level next)) self.old result self.new }
        ensures fits { IfOk result (λ e. level + e.height ≤ 251) }
        ensures shorter { OnOk result (size self.new < size self.old) }
    {
        let open = TokenKind::Punctuation(Punctuation::OpenParenthesis);
        let close = TokenKind::Punctuation(Punctuation::CloseParenthesis);
        let marks = Marks {
            first: open,
            last: close,
            end: Expected::Another,
        };
        let (place, inner) = self.enclosed(marks, level + 1, level + 1, Expected::Operand)?;
        parenthesized(self.alloc, place, inner)
    }

    /// Reads an expression between two marks, and tells where the first is.
    #[cycle(tree)]
    fn enclosed(
        &mut self,
        marks: Marks,
        need: u32,
        level: u32,
        expected: Expected,
    ) -> Result<(Place, Tall), Refusal>
        requires { level ≤ need + 2 }
        ensures reads { ReadsPlaced (between marks.first marks.last (expected_of marks.end) need level (expected_of expected)) self.old result self.new }
        ensures need { OnOk result (need ≤ 250) }
        ensures fits { IfOk result (λ r. level + r.1.height ≤ 251) }
        ensures shorter { OnOk result (size self.new < size self.old) }
    {
        let front = self.opened(marks.first, need, level, expected)?;
        let (enclosed, _) = beside(front, self.expect(marks.last, 0, marks.end))?;
        Ok(enclosed)
    }

    /// Reads an expression behind a mark, and tells where the mark is.
    #[cycle(tree)]
    fn opened(
        &mut self,
        mark: TokenKind,
        need: u32,
        level: u32,
        expected: Expected,
    ) -> Result<(Place, Tall), Refusal>
        requires { level ≤ need + 2 }
        ensures reads { ReadsPlaced (λ next. token mark need another (λ t. expr 5 false level (expected_of expected) (next t.place))) self.old result self.new }
        ensures need { OnOk result (need ≤ 250) }
        ensures fits { IfOk result (λ r. level + r.1.height ≤ 251) }
        ensures shorter { OnOk result (size self.new < size self.old) }
    {
        let token = self.expect(mark, need, Expected::Another)?;
        let inner = self.binary(5, false, level, expected)?;
        Ok((token.place, inner))
    }

    /// Reads what is behind an array, slice or struct type that begins an operand: a literal's elements, or but for a slice
    /// what is converted to it.
    ///
    /// `CompositeLit = LiteralType LiteralValue .` `Conversion = Type "(" Expression [ "," ] ")" .`
    #[cycle(tree)]
    fn typed(&mut self, a: TallType, level: u32) -> Result<Tall, Refusal>
        requires { level + 1 + a.height ≤ 251 }
        ensures reads { ReadsExpr (λ next. behind_literal_type level next (type_of a.type_expr)) self.old result self.new }
        ensures fits { IfOk result (λ e. level + e.height ≤ 251) }
        ensures shorter { OnOk result (size self.new < size self.old) }
    {
        if is_slice(&a.type_expr) {
            return self.literal(a, level);
        }
        self.literal_or_conversion(a, level)
    }

    /// Reads what is behind an array or struct type that begins an operand: a literal's elements, or what is converted to it.
    ///
    /// `CompositeLit = LiteralType LiteralValue .` `Conversion = Type "(" Expression [ "," ] ")" .`
    #[cycle(tree)]
    fn literal_or_conversion(&mut self, a: TallType, level: u32) -> Result<Tall, Refusal>
        requires { level + 1 + a.height ≤ 251 }
        ensures reads { is_slice_type (type_of a.type_expr) ≡ false → ReadsExpr (λ next. behind_literal_type level next (type_of a.type_expr)) self.old result self.new }
        ensures fits { IfOk result (λ e. level + e.height ≤ 251) }
        ensures shorter { OnOk result (size self.new < size self.old) }
    {
        let brace = TokenKind::Punctuation(Punctuation::OpenBrace);
        if self.is_next(brace) {
            return self.literal(a, level);
        }
        let (a, value) = beside(a, self.converted(level + 1, level))?;
        conversion(self.alloc, a, value)
    }

    /// Reads the elements of a literal of a type.
    ///
    /// `LiteralValue .`
    #[cycle(tree)]
    fn literal(&mut self, a: TallType, level: u32) -> Result<Tall, Refusal>
        requires level { level ≤ 252 }
        requires height { (level ≤ 249) → level + 1 + a.height ≤ 251 }
        ensures reads { ReadsExpr (literal_at level (type_of a.type_expr)) self.old result self.new }
        ensures fits { IfOk result (λ e. level + e.height ≤ 251) }
        ensures shorter { OnOk result (size self.new < size self.old) }
    {
        let (a, braced) = beside(a, self.braced(level + 1, level + 2))?;
        composite_lit(self.alloc, a, braced.0, braced.1)
    }

    /// Reads elements with their braces, and tells where the first brace is.
    ///
    /// `LiteralValue = "{" [ KeyedElement { "," KeyedElement } [ "," ] ] "}" .`
    #[cycle(tree)]
    fn braced(&mut self, need: u32, level: u32) -> Result<(Place, Elements), Refusal>
        requires { level ≤ need + 1 }
        ensures reads { ReadsBraced need level self.old result self.new }
        ensures need { OnOk result (need ≤ 250) }
        ensures fits { IfOk result (λ r. level + r.1.height ≤ 251) }
        ensures shorter { OnOk result (size self.new < size self.old) }
    {
        let open = TokenKind::Punctuation(Punctuation::OpenBrace);
        let token = self.expect(open, need, Expected::Another)?;
        let elements = self.elements(level)?;
        Ok((token.place, elements))
    }

    /// Reads what is converted to a type, with its parentheses.
    ///
    /// `"(" Expression [ "," ] ")" .`
    #[cycle(tree)]
    fn converted(&mut self, need: u32, level: u32) -> Result<Tall, Refusal>
        requires level { level ≤ 252 }
        requires need { level ≤ need }
        ensures reads { ReadsExpr (λ next. token opening need another (behind_conversion level next)) self.old result self.new }
        ensures need { OnOk result (need ≤ 250) }
        ensures fits { IfOk result (λ e. level + 1 + e.height ≤ 251) }
        ensures shorter { OnOk result (size self.new < size self.old) }
    {
        let open = TokenKind::Punctuation(Punctuation::OpenParenthesis);
        let (_, inner) = self.opened(open, need, level + 1, Expected::Operand)?;
        let (value, _) = beside(inner, self.converted_end())?;
        Ok(value)
    }

    /// Takes a comma, if it is the next, and the parenthesis behind what is converted.
    ///
    /// `[ "," ] ")" .`
    fn converted_end(&mut self) -> Result<(), Refusal>
        ensures reads { (next : Reader) → Reads (optional comma 0 (λ _. token closing 0 another (λ _. next)) (token closing 0 another (λ _. next))) (λ _. next) self.old result self.new }
        ensures shorter { OnOk result (size self.new < size self.old) }
    {
        let comma = TokenKind::Punctuation(Punctuation::Comma);
        let close = TokenKind::Punctuation(Punctuation::CloseParenthesis);
        self.accept(comma, 0)?;
        self.expect(close, 0, Expected::Another)?;
        Ok(())
    }

    /// Reads the suffixes of an operand.
    ///
    /// `PrimaryExpr = Operand | Conversion | PrimaryExpr ( Selector | Index | Arguments ) .`
    #[cycle(tree)]
    fn suffixes(&mut self, operand: Tall, header: bool, level: u32) -> Result<Tall, Refusal>
        requires { level + operand.height ≤ 251 }
        ensures reads { ReadsExpr (suffixes header level (expr_of operand.expr)) self.old result self.new }
        ensures fits { IfOk result (λ e. level + e.height ≤ 251) }
        ensures no_longer { OnOk result (size self.new ≤ size self.old) }
    {
        let mut front = operand;
        'suffixes: while let Some(suffix) = self.suffix(header, &front.expr) {
            front = match suffix {
                Suffix::Selector => self.selected(front, level)?,
                Suffix::Index => self.indexed(front, level)?,
                Suffix::Call => self.called(front, level)?,
                Suffix::CompositeLit => self.named_literal(front, level)?,
            };
        }
        Ok(front)
    }

    /// Reads a period and the name behind it.
    ///
    /// `Selector = "." identifier .`
    fn selected(&mut self, operand: Tall, level: u32) -> Result<Tall, Refusal>
        requires { level + operand.height ≤ 251 }
        ensures reads { ReadsExpr (λ next. token period (level + operand.height) another (behind_selector (expr_of operand.expr) next)) self.old result self.new }
        ensures fits { IfOk result (λ e. level + e.height ≤ 251) }
        ensures shorter { OnOk result (size self.new < size self.old) }
    {
        let need = level + operand.height;
        let (operand, name) = beside(operand, self.selected_name(need))?;
        selector(self.alloc, operand, name)
    }

    /// Reads the arguments of a call.
    ///
    /// `PrimaryExpr Arguments .`
    #[cycle(tree)]
    fn called(&mut self, operand: Tall, level: u32) -> Result<Tall, Refusal>
        requires { level + operand.height ≤ 251 }
        ensures reads { ReadsExpr (λ next. token opening (level + operand.height) another (behind_call level (expr_of operand.expr) next)) self.old result self.new }
        ensures fits { IfOk result (λ e. level + e.height ≤ 251) }
        ensures shorter { OnOk result (size self.new < size self.old) }
    {
        let need = level + operand.height;
        let (operand, arguments) = beside(operand, self.passed(need, level + 1))?;
        call(self.alloc, operand, arguments)
    }

    /// Reads the operands of a call with their parentheses.
    ///
    /// `Arguments = "(" [ ( ExpressionList | Type [ "," ExpressionList ] ) [ "," ] ] ")" .`
    #[cycle(tree)]
    fn passed(&mut self, need: u32, level: u32) -> Result<Arguments, Refusal>
        requires { level ≤ need + 1 }
        ensures reads { ReadsExprs (λ next. token opening need another (λ _. operands level (λ es _. next es))) self.old result self.new }
        ensures need { OnOk result (need ≤ 250) }
        ensures fits { IfOk result (λ es. level + es.height ≤ 251) }
        ensures shorter { OnOk result (size self.new < size self.old) }
    {
        let open = TokenKind::Punctuation(Punctuation::OpenParenthesis);
        self.expect(open, need, Expected::Another)?;
        self.operands(level)
    }

    /// Reads the operands of a call and the parenthesis that closes them.
    ///
    /// `[ ( ExpressionList | Type [ "," ExpressionList ] ) [ "," ] ] ")" .`
    #[cycle(tree)]
    fn operands(&mut self, level: u32) -> Result<Arguments, Refusal>
        requires { level ≤ 251 }
        ensures reads { ReadsExprs (λ next. operands level (λ es _. next es)) self.old result self.new }
        ensures fits { IfOk result (λ es. level + es.height ≤ 251) }
        ensures shorter { OnOk result (size self.new < size self.old) }
    {
        let close = TokenKind::Punctuation(Punctuation::CloseParenthesis);
        let comma = TokenKind::Punctuation(Punctuation::Comma);
        if self.is_next(close) {
            self.expect(close, 0, Expected::Another)?;
            return Ok(no_arguments(self.alloc));
        }
        let first = self.first_operand(level)?;
        let (operand, _) = beside(first, self.separate(comma, close, Expected::Another))?;
        let front = one_argument(self.alloc, operand)?;
        self.arguments(front, level)
    }

    /// Reads a call's first operand, which with slices may be a type.
    ///
    /// `Expression | Type .`
    #[cycle(tree)]
    fn first_operand(&mut self, level: u32) -> Result<Tall, Refusal>
        requires { level ≤ 251 }
        ensures reads { ReadsFirst level self.old result self.new }
        ensures fits { IfOk result (λ e. level + e.height ≤ 251) }
        ensures shorter { OnOk result (size self.new < size self.old) }
    {
        if !self.edition.has_slices() {
            return self.binary(5, false, level, Expected::Operand);
        }
        self.type_or_operand(level)
    }

    /// Reads a call's first operand, where it may be a type.
    ///
    /// `Expression | Type .`
    #[cycle(tree)]
    fn type_or_operand(&mut self, level: u32) -> Result<Tall, Refusal>
        requires { level ≤ 251 }
        ensures reads { has_slices self.old.edition ≡ true → ReadsFirst level self.old result self.new }
        ensures fits { IfOk result (λ e. level + e.height ≤ 251) }
        ensures shorter { OnOk result (size self.new < size self.old) }
    {
        match self.beginning() {
            Beginning::Bracket => {
                let bracket = self.bracket_type(level)?;
                self.operand_of_type(bracket, level)
            }
            Beginning::Structure => {
                let structure = self.struct_type(level)?;
                self.operand_of_type(structure, level)
            }
            _ => self.binary(5, false, level, Expected::Operand),
        }
    }

    /// Reads what is behind a type that a call's first operand begins with: a literal's elements, what is converted to it, and
    /// what follows these, or else nothing.
    ///
    /// `[ LiteralValue | "(" Expression [ "," ] ")" ] .`
    #[cycle(tree)]
    fn operand_of_type(&mut self, a: TallType, level: u32) -> Result<Tall, Refusal>
        requires level { level ≤ 251 }
        requires fits { level + a.height ≤ 251 }
        ensures reads { ReadsExpr (λ next. behind_operand_type level next (type_of a.type_expr)) self.old result self.new }
        ensures fits { IfOk result (λ e. level + e.height ≤ 251) }
        ensures no_longer { OnOk result (size self.new ≤ size self.old) }
    {
        let brace = TokenKind::Punctuation(Punctuation::OpenBrace);
        if self.is_next(brace) {
            return self.literal_operand(a, level);
        }
        if is_slice(&a.type_expr) {
            return type_operand(self.alloc, a);
        }
        self.converted_operand(a, level)
    }

    /// Reads the elements of a literal that a call's first operand begins with, and what follows it.
    ///
    /// `LiteralValue .`
    #[cycle(tree)]
    fn literal_operand(&mut self, a: TallType, level: u32) -> Result<Tall, Refusal>
        requires level { level ≤ 251 }
        requires fits { level + a.height ≤ 251 }
        ensures reads { ReadsExpr (literal_then (level + a.height) level (type_of a.type_expr)) self.old result self.new }
        ensures fits { IfOk result (λ e. level + e.height ≤ 251) }
        ensures no_longer { OnOk result (size self.new ≤ size self.old) }
    {
        let need = level + a.height;
        let (of, braced) = beside(a, self.braced(need, level + 2))?;
        let literal = composite_lit(self.alloc, of, braced.0, braced.1)?;
        self.behind(literal, level)
    }

    /// Reads what is converted to an array or struct type that a call's first operand begins with, and what follows it, or else
    /// nothing.
    ///
    /// `[ "(" Expression [ "," ] ")" ] .`
    #[cycle(tree)]
    fn converted_operand(&mut self, a: TallType, level: u32) -> Result<Tall, Refusal>
        requires level { level ≤ 251 }
        requires fits { level + a.height ≤ 251 }
        ensures reads { ReadsExpr (λ next. conversion_or_type level next a.height (type_of a.type_expr)) self.old result self.new }
        ensures fits { IfOk result (λ e. level + e.height ≤ 251) }
        ensures no_longer { OnOk result (size self.new ≤ size self.old) }
    {
        let parenthesis = TokenKind::Punctuation(Punctuation::OpenParenthesis);
        if !self.is_next(parenthesis) {
            return type_operand(self.alloc, a);
        }
        let need = level + a.height;
        let (to, value) = beside(a, self.converted(need, level))?;
        let converted = conversion(self.alloc, to, value)?;
        self.behind(converted, level)
    }

    /// Reads the suffixes and the operators behind an operand.
    ///
    /// `{ Selector | Index | Slice | Arguments } { binary_op Expression } .`
    #[cycle(tree)]
    fn behind(&mut self, front: Tall, level: u32) -> Result<Tall, Refusal>
        requires level { level ≤ 251 }
        requires fits { level + front.height ≤ 251 }
        ensures reads { ReadsExpr (λ next. behind_operand 5 false level next (expr_of front.expr)) self.old result self.new }
        ensures fits { IfOk result (λ e. level + e.height ≤ 251) }
        ensures no_longer { OnOk result (size self.new ≤ size self.old) }
    {
        let operand = self.suffixes(front, false, level)?;
        self.operators(operand, 5, false, level)
    }

    /// Reads the arguments of a call behind these, and the parenthesis that closes them.
    ///
    /// `[ ExpressionList [ "," ] ] ")" .`
    #[cycle(tree)]
    fn arguments(&mut self, front: Arguments, level: u32) -> Result<Arguments, Refusal>
        requires level { level ≤ 251 }
        requires fits { level + front.height ≤ 251 }
        ensures reads { ReadsExprs (λ next. list_start (arguments level) (map expr_of front.items.items) (λ es _. next es)) self.old result self.new }
        ensures fits { IfOk result (λ es. level + es.height ≤ 251) }
        ensures shorter { OnOk result (size self.new < size self.old) }
    {
        let close = TokenKind::Punctuation(Punctuation::CloseParenthesis);
        let comma = TokenKind::Punctuation(Punctuation::Comma);
        let Arguments {
            mut items,
            mut height,
        } = front;
        'arguments: while !self.is_next(close) {
            let item = self.binary(5, false, level, Expected::Operand)?;
            height = item.height.max(height);
            items.push(item.expr)?;
            self.separate(comma, close, Expected::Another)?;
        }
        self.expect(close, 0, Expected::Another)?;
        items.shrink_to_fit();
        Ok(Arguments { items, height })
    }

    /// Reads the elements of a literal of the type that an operand names.
    ///
    /// `CompositeLit = TypeName LiteralValue .`
    #[cycle(tree)]
    fn named_literal(&mut self, operand: Tall, level: u32) -> Result<Tall, Refusal>
        requires { level + operand.height ≤ 251 }
        ensures reads { (a : trees.TypeExpr) → literal_type (expr_of operand.expr) ≡ Some a → ReadsExpr (literal_at level a) self.old result self.new }
        ensures fits { IfOk result (λ e. level + e.height ≤ 251) }
        ensures shorter { OnOk result (size self.new < size self.old) }
    {
        match named_by(operand.expr) {
            Some(a) => self.literal(a, level),
            None => Err(self.wrong(Expected::Another)),
        }
    }

    /// Reads the elements of a literal and the brace that closes them.
    ///
    /// `[ KeyedElement { "," KeyedElement } [ "," ] ] "}" .`
    #[cycle(tree)]
    fn elements(&mut self, level: u32) -> Result<Elements, Refusal>
        requires { level ≤ 252 }
        ensures reads { ReadsAs (λ es. map element_of es.items.items) (λ next. list_start (elements level) [] (λ es _. next es)) self.old result self.new }
        ensures fits { IfOk result (λ es. (level ≤ 251) → level + es.height ≤ 251) }
        ensures shorter { OnOk result (size self.new < size self.old) }
    {
        let close = TokenKind::Punctuation(Punctuation::CloseBrace);
        let comma = TokenKind::Punctuation(Punctuation::Comma);
        let mut items = Vec::new(self.alloc);
        let mut height = 0;
        'elements: while !self.is_next(close) {
            let item = self.element(level)?;
            height = item.height.max(height);
            items.push(item.element)?;
            self.separate(comma, close, Expected::ElementEnd)?;
        }
        self.expect(close, 0, Expected::Another)?;
        items.shrink_to_fit();
        Ok(Elements { items, height })
    }

    /// Reads an element of a literal: a value, or a key, a colon and a value. Behind a key that is no name, the colon is
    /// left where it is, since it is refused there.
    ///
    /// `KeyedElement = [ identifier ":" ] Element .`
    #[cycle(tree)]
    fn element(&mut self, level: u32) -> Result<TallElement, Refusal>
        requires { level ≤ 252 }
        ensures reads { ReadsElement level self.old result self.new }
        ensures fits { IfOk result (λ e. level + e.height ≤ 251) }
        ensures shorter { OnOk result (size self.new < size self.old) }
    {
        let colon = TokenKind::Punctuation(Punctuation::Colon);
        let first = self.value(level)?;
        if !self.is_next(colon) {
            return Ok(element(first));
        }
        match key_in(first) {
            Ok(key) => {
                let (key, value) = beside(key, self.keyed(level))?;
                keyed_element(self.alloc, key, value)
            }
            Err(value) => Ok(element(value)),
        }
    }

    /// Reads a colon and the value behind it.
    ///
    /// `":" Element .`
    #[cycle(tree)]
    fn keyed(&mut self, level: u32) -> Result<TallValue, Refusal>
        requires { level ≤ 252 }
        ensures reads { ReadsAs (λ v. value_of v.value) (λ next. token colon 0 another (λ _. read_value level next)) self.old result self.new }
        ensures fits { IfOk result (λ v. level + v.height ≤ 251) }
        ensures shorter { OnOk result (size self.new < size self.old) }
    {
        let colon = TokenKind::Punctuation(Punctuation::Colon);
        self.expect(colon, 0, Expected::Another)?;
        self.value(level)
    }

    /// Reads the value of an element: an expression, or elements without the type of their literal.
    ///
    /// `Element = Expression | LiteralValue .`
    #[cycle(tree)]
    fn value(&mut self, level: u32) -> Result<TallValue, Refusal>
        requires { level ≤ 252 }
        ensures reads { ReadsAs (λ v. value_of v.value) (read_value level) self.old result self.new }
        ensures fits { IfOk result (λ v. level + v.height ≤ 251) }
        ensures shorter { OnOk result (size self.new < size self.old) }
    {
        let open = TokenKind::Punctuation(Punctuation::OpenBrace);
        if self.is_next(open) {
            let (place, elements) = self.braced(level, level + 1)?;
            return Ok(braced_value(place, elements));
        }
        let expr = self.binary(5, false, level, Expected::Operand)?;
        Ok(expression_value(expr))
    }
}
