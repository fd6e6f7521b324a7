//! Reads simple statements.
ghost use Rattle.std.specs.Prelude.{◌≡◌, ◌<◌, ◌≤◌, ◌↔◌, List, [], ◌∷◌, length, map, Option, Some, None, OnOk, IfOk, IfErr, IsTrue, true, Vec};
ghost use Rattle.std.specs.Global.{Global};
ghost use Rattle.go_ast.specs.declared.expression.Expr.{Expr};
ghost use Rattle.go_ast.specs.Trees as trees;
ghost use Rattle.go_scan.specs.declared.keyword.Keyword.TheVariants as keywords;
ghost use Rattle.go_ast.specs.Grammar.{comma, define, opening_brace, is_call, simple_place};
ghost use Rattle.go_ast.specs.Machine.{token, keyword, name_if, names_if, may_define, behind_left, is_header};
ghost use Rattle.go_ast.specs.Views.{if_some, expr_of, exprs_in, simple_of};
ghost use Rattle.go_pexpr.specs.Reads.{First, left, size, expected_of, ReadsAs, IsNext};
ghost use Rattle.go_pstmt.specs.Reading.{read_lefts, read_left, read_simple, assigned_at, defined_at, ReadsHeader, ReadsRange, ReadsLefts, ReadsAlone, ReadsBehindOne, IsStated, Defines};
ghost use Rattle.go_pstmt.specs.Statements.{position_of, is_bare, beginning, assignment_operator};

use crate::marks::{ASSIGN, COMMA, DECREMENT, DEFINE, INCREMENT, OPENING_BRACE, RANGE};
use go_ast::expression::{BinaryOperator, Expr, ExprKind};
use go_ast::name::Name;
use go_ast::spelling::Spelling;
use go_ast::statement::Simple;
use go_pexpr::expected::Expected;
use go_pexpr::parser::{Parser, Refusal};
use go_scan::punctuation::Punctuation;
use go_scan::token::TokenKind;
use go_text::place::Place;
use std::alloc::{AllocError, Global};

/// Where a simple statement stands.
#[derive(Clone, Copy)]
pub(crate) enum Position {
    /// In a list of statements.
    List,
    /// Behind `if` or `switch`.
    Header,
    /// Behind `for`.
    For,
    /// Behind the second semicolon of a `for`.
    Turns,
}

/// What stands where a simple statement may.
#[derive(Drop)]
pub(crate) enum Header {
    /// A simple statement.
    Simple(Box<Simple>),
    /// An expression in front of a block.
    Alone(Box<Expr>),
    /// The variable and the operand of a `range`.
    Range(Name, Box<Expr>),
}

/// Whether a literal of a named type needs parentheses there.
fn is_bare(position: Position) -> bool
    ensures { result ≡ is_bare position }
{
    !matches!(position, Position::List)
}

/// What is expected where a simple statement begins.
fn beginning(position: Position) -> Expected
    ensures { expected_of result ≡ beginning position }
{
    match position {
        Position::List => Expected::Statement,
        _ => Expected::Operand,
    }
}

/// Whether variables may be declared there.
fn may_define(position: Position) -> bool
    ensures { result ≡ may_define (position_of position) }
{
    !matches!(position, Position::Turns)
}

/// The operator of an assignment such as `+=`.
fn assigned(kind: Option<TokenKind>) -> Option<BinaryOperator>
    ensures { result ≡ assignment_operator kind }
{
    let Some(TokenKind::Punctuation(mark)) = kind else {
        return None;
    };
    match mark {
        Punctuation::StarAssign => Some(BinaryOperator::Multiply),
        Punctuation::SlashAssign => Some(BinaryOperator::Divide),
        Punctuation::PercentAssign => Some(BinaryOperator::Remainder),
        Punctuation::ShiftLeftAssign => Some(BinaryOperator::ShiftLeft),
        Punctuation::ShiftRightAssign => Some(BinaryOperator::ShiftRight),
        Punctuation::AmpersandAssign => Some(BinaryOperator::BitAnd),
        Punctuation::AndNotAssign => Some(BinaryOperator::AndNot),
        Punctuation::PlusAssign => Some(BinaryOperator::Add),
        Punctuation::MinusAssign => Some(BinaryOperator::Subtract),
        Punctuation::PipeAssign => Some(BinaryOperator::BitOr),
        Punctuation::CaretAssign => Some(BinaryOperator::BitXor),
        _ => None,
    }
}

/// Whether an expression is a call, parentheses dropped.
fn is_call(operand: &Expr) -> bool
    ensures { result ≡ is_call (expr_of operand.now) }
{
    match &operand.kind {
        ExprKind::Parenthesized(inner) => is_call(inner),
        ExprKind::Call(_, _) => true,
        ExprKind::Name(_) => false,
        ExprKind::Integer(_) => false,
        ExprKind::Rune(_) => false,
        ExprKind::String(_) => false,
        ExprKind::CompositeLit(_, _, _) => false,
        ExprKind::Conversion(_, _) => false,
        ExprKind::Selector(_, _) => false,
        ExprKind::Index(_, _) => false,
        ExprKind::Cut(_, _, _) => false,
        ExprKind::Type(_) => false,
        ExprKind::Unary(_, _) => false,
        ExprKind::Binary(_, _, _) => false,
    }
}

/// The text of an expression that is a name.
fn text_of(operand: &Expr) -> Option<&str>
    ensures { if_some (λ (text : _). record { text = text.now; place = operand.now.place }) result ≡ name_if (expr_of operand.now) }
{
    match &operand.kind {
        ExprKind::Name(text) => Some(text.as_str()),
        ExprKind::Integer(_) => None,
        ExprKind::Rune(_) => None,
        ExprKind::String(_) => None,
        ExprKind::Parenthesized(_) => None,
        ExprKind::CompositeLit(_, _, _) => None,
        ExprKind::Conversion(_, _) => None,
        ExprKind::Selector(_, _) => None,
        ExprKind::Index(_, _) => None,
        ExprKind::Cut(_, _, _) => None,
        ExprKind::Type(_) => None,
        ExprKind::Call(_, _) => None,
        ExprKind::Unary(_, _) => None,
        ExprKind::Binary(_, _, _) => None,
    }
}

/// What is expected behind an expression that is no statement.
fn behind_operand(position: Position, operand: &Expr) -> Expected
    ensures { expected_of result ≡ behind_left (position_of position) (expr_of operand.now) }
{
    match position {
        Position::List => match text_of(operand) {
            Some(_) => Expected::BehindName,
            None => Expected::Another,
        },
        _ => Expected::Another,
    }
}

/// The names that some expressions are, if all are names.
fn names_of(alloc: Global, sides: &[Expr]) -> Result<Option<Vec<Name>>, AllocError>
    ensures { IfOk result (λ o. if_some (λ (ns : Vec trees.Name Global). ns.items) o ≡ names_if (map expr_of sides.now)) }
{
    let mut names = Vec::with_capacity(alloc, sides.len())?;
    for side in sides {
        let Some(text) = text_of(side) else {
            return Ok(None);
        };
        let text = Spelling::new(alloc, text)?;
        names.push(Name::new(text, side.place))?;
    }
    Ok(Some(names))
}

/// Reads expressions with commas between them, which may be left sides.
///
/// `ExpressionList = Expression { "," Expression } .`
fn left_sides(parser: &mut Parser<'_>, position: Position, level: u32) -> Result<Vec<Expr>, Refusal>
    requires { level ≤ 252 }
    ensures reads { ReadsLefts position level parser.old result parser.new }
    ensures some { IfOk result (λ es. 1 ≤ length es.items) }
    ensures last { OnOk result (First (λ t. t.kind ≡ comma) (left parser.new) → ⊥) }
    ensures shorter { OnOk result (size parser.new < size parser.old) }
{
    let bare = is_bare(position);
    let mut sides = Vec::with_capacity(parser.alloc, 1)?;
    sides.push(parser.expr_from(bare, level, beginning(position))?)?;
    'sides: while parser.is_next(COMMA) {
        parser.expect(COMMA, 0, Expected::Another)?;
        sides.push(parser.expr_from(bare, level, Expected::Operand)?)?;
    }
    Ok(sides)
}

/// The one expression of a list.
fn sole(mut sides: Vec<Expr>) -> Expr
    requires { length sides.items ≡ 1 }
    ensures { sides.items ≡ result ∷ [] }
{
    match sides.pop() {
        Some(side) => side,
        None => unreachable!(),
    }
}

/// A simple statement that was read.
fn stated(alloc: Global, simple: Simple) -> Result<Header, Refusal>
    ensures ok { IsStated simple result }
    ensures err { IfErr result (λ e. e ≡ Refusal.Memory) }
{
    let simple = Box::new(alloc, simple)?;
    Ok(Header::Simple(simple))
}

/// Reads an assignment from its `=` on.
///
/// `Assignment = ExpressionList "=" ExpressionList .`
fn assignment(
    parser: &mut Parser<'_>,
    bare: bool,
    level: u32,
    sides: Vec<Expr>,
) -> Result<Header, Refusal>
    requires { level ≤ 252 }
    ensures reads { ReadsHeader (λ next alone range. assigned_at bare level (exprs_in sides.items) next) parser.old result parser.new }
    ensures shorter { OnOk result (size parser.new < size parser.old) }
{
    parser.expect(ASSIGN, 0, Expected::Another)?;
    let values = parser.exprs(bare, level, Expected::Value)?;
    stated(parser.alloc, Simple::Assignment(sides, values))
}

/// Whether a `range` stands next, behind `:=` and a name in a `for`.
fn is_range(parser: &Parser<'_>, position: Position, names: &[Name]) -> bool
    ensures { IsTrue result ↔ ((position ≡ Position.For) × (length names.now ≡ 1) × First (λ t. t.kind ≡ keyword keywords.Range) (left parser.now)) }
{
    match position {
        Position::For => names.len() == 1 && parser.is_next(RANGE),
        _ => false,
    }
}

/// The one name of a list.
fn sole_name(mut names: Vec<Name>) -> Name
    requires { length names.items ≡ 1 }
    ensures { names.items ≡ result ∷ [] }
{
    match names.pop() {
        Some(name) => name,
        None => unreachable!(),
    }
}

/// Reads a `range` behind `:=` and a name.
///
/// `RangeClause = [ identifier ":=" ] "range" Expression .`
fn range(parser: &mut Parser<'_>, level: u32, names: Vec<Name>) -> Result<Header, Refusal>
    requires level { level ≤ 252 }
    requires one { length names.items ≡ 1 }
    ensures reads { ReadsRange level names.items parser.old result parser.new }
    ensures shorter { OnOk result (size parser.new < size parser.old) }
{
    parser.expect(RANGE, 0, Expected::Another)?;
    let operand = parser.expr_from(true, level, Expected::Operand)?;
    let operand = Box::new(parser.alloc, operand)?;
    Ok(Header::Range(sole_name(names), operand))
}

/// Reads a short variable declaration from its `:=` on.
///
/// `ShortVarDecl = IdentifierList ":=" ExpressionList .`
fn short_var_decl(
    parser: &mut Parser<'_>,
    position: Position,
    level: u32,
    names: Vec<Name>,
) -> Result<Header, Refusal>
    requires { level ≤ 252 }
    ensures reads { ReadsHeader (λ next alone range. defined_at position level names.items next range) parser.old result parser.new }
    ensures shorter { OnOk result (size parser.new < size parser.old) }
{
    parser.expect(DEFINE, 0, Expected::Another)?;
    if is_range(parser, position, &names) {
        return range(parser, level, names);
    }
    let values = parser.exprs(is_bare(position), level, Expected::Operand)?;
    stated(parser.alloc, Simple::ShortVarDecl(names, values))
}

/// The names that are defined, if `:=` stands next, and may.
fn defined(
    parser: &Parser<'_>,
    position: Position,
    sides: &[Expr],
) -> Result<Option<Vec<Name>>, Refusal>
    ensures some { IfOk result (λ o. (ns : Vec trees.Name Global) → o ≡ Some ns → Defines position parser.now (map expr_of sides.now) ns.items) }
    ensures none { IfOk result (λ o. o ≡ None → IsNext define parser.now → may_define (position_of position) ≡ true → names_if (map expr_of sides.now) ≡ None) }
    ensures err { IfErr result (λ e. e ≡ Refusal.Memory) }
{
    if !may_define(position) {
        return Ok(None);
    }
    if !parser.is_next(DEFINE) {
        return Ok(None);
    }
    let names = names_of(parser.alloc, sides)?;
    Ok(names)
}

/// Reads what is behind one left side, where neither another nor `=` nor a short variable declaration follows.
///
/// `IncDecStmt = Expression ( "++" | "--" ) .` `Assignment = Expression assign_op Expression .`
fn behind_one(
    parser: &mut Parser<'_>,
    position: Position,
    level: u32,
    sides: Vec<Expr>,
) -> Result<Header, Refusal>
    requires level { level ≤ 252 }
    requires one { length sides.items ≡ 1 }
    ensures reads { ReadsBehindOne position level sides.items parser.old result parser.new }
    ensures no_longer { OnOk result (size parser.new ≤ size parser.old) }
{
    if parser.is_next(INCREMENT) {
        parser.expect(INCREMENT, 0, Expected::Another)?;
        return stated(parser.alloc, Simple::Increment(sole(sides)));
    }
    if parser.is_next(DECREMENT) {
        parser.expect(DECREMENT, 0, Expected::Another)?;
        return stated(parser.alloc, Simple::Decrement(sole(sides)));
    }
    if let Some(operator) = assigned(parser.kind()) {
        parser.bump(0)?;
        let value = parser.expr_from(is_bare(position), level, Expected::Operand)?;
        return stated(
            parser.alloc,
            Simple::OperatorAssignment(operator, sole(sides), value),
        );
    }
    alone(parser, position, sole(sides))
}

/// What an expression is behind which nothing follows that belongs to it.
///
/// `ExpressionStmt = Expression .`
fn alone(parser: &mut Parser<'_>, position: Position, side: Expr) -> Result<Header, Refusal>
    ensures reads { ReadsAlone position side parser.old result parser.new }
    ensures no_longer { OnOk result (size parser.new ≤ size parser.old) }
{
    if opens_block(parser, position) {
        let side = Box::new(parser.alloc, side)?;
        return Ok(Header::Alone(side));
    }
    if is_call(&side) {
        return stated(parser.alloc, Simple::Call(side));
    }
    Err(parser.wrong(behind_operand(position, &side)))
}

/// Whether a block may stand next, and does.
fn opens_block(parser: &Parser<'_>, position: Position) -> bool
    ensures { IsTrue result ↔ ((is_header (position_of position) ≡ true) × First (λ t. t.kind ≡ opening_brace) (left parser.now)) }
{
    match position {
        Position::Header => parser.is_next(OPENING_BRACE),
        Position::For => parser.is_next(OPENING_BRACE),
        _ => false,
    }
}

/// Reads what is behind left sides, where no other follows.
fn behind_sides(
    parser: &mut Parser<'_>,
    position: Position,
    level: u32,
    sides: Vec<Expr>,
) -> Result<Header, Refusal>
    requires level { level ≤ 252 }
    requires some { 1 ≤ length sides.items }
    requires last { First (λ t. t.kind ≡ comma) (left parser.old) → ⊥ }
    ensures reads { ReadsHeader (read_lefts position level (map expr_of sides.items)) parser.old result parser.new }
    ensures no_longer { OnOk result (size parser.new ≤ size parser.old) }
{
    if parser.is_next(ASSIGN) {
        return assignment(parser, is_bare(position), level, sides);
    }
    if let Some(names) = defined(parser, position, &sides)? {
        return short_var_decl(parser, position, level, names);
    }
    if sides.len() != 1 {
        return Err(parser.wrong(Expected::Another));
    }
    behind_one(parser, position, level, sides)
}

/// Reads what stands where a simple statement may.
///
/// `[ SimpleStmt | Expression | RangeClause ] .`
pub(crate) fn header_from(
    parser: &mut Parser<'_>,
    position: Position,
    level: u32,
) -> Result<Header, Refusal>
    requires { level ≤ 252 }
    ensures reads { ReadsHeader (read_left position level) parser.old result parser.new }
    ensures shorter { OnOk result (size parser.new < size parser.old) }
{
    let sides = left_sides(parser, position, level)?;
    behind_sides(parser, position, level, sides)
}

/// Reads a simple statement of a list, or behind the second semicolon of a `for`.
///
/// `SimpleStmt = ExpressionStmt | IncDecStmt | Assignment | ShortVarDecl .`
pub(crate) fn simple(
    parser: &mut Parser<'_>,
    position: Position,
    level: u32,
) -> Result<Simple, Refusal>
    requires { level ≤ 252 }
    ensures reads { ReadsAs simple_of (read_simple position level) parser.old result parser.new }
    ensures shorter { OnOk result (size parser.new < size parser.old) }
{
    match header_from(parser, position, level)? {
        Header::Simple(simple) => Ok(Box::into_inner(simple)),
        Header::Alone(call) => Ok(Simple::Call(Box::into_inner(call))),
        Header::Range(_name, call) => Ok(Simple::Call(Box::into_inner(call))),
    }
}

const NOWHERE: Place = Place { line: 0, column: 0 };

/// The place of the first of some expressions.
fn first_place(sides: &[Expr]) -> Place
    ensures { result ≡ trees.first_place NOWHERE (exprs_in sides.now) }
{
    match sides {
        [side, ..] => side.place,
        [] => NOWHERE,
    }
}

/// The place of the first of some names.
fn first_name_place(names: &[Name]) -> Place
    ensures { (rs : trees.ExpressionList) → result ≡ simple_place (trees.short_var_decl names.now rs) }
{
    match names {
        [name, ..] => name.place(),
        [] => NOWHERE,
    }
}

/// The place of a simple statement's first token.
pub(crate) fn place_of(simple: &Simple) -> Place
    ensures { result ≡ simple_place (simple_of simple.now) }
{
    match simple {
        Simple::Call(operand) => operand.place,
        Simple::Increment(operand) => operand.place,
        Simple::Decrement(operand) => operand.place,
        Simple::OperatorAssignment(_, operand, _) => operand.place,
        Simple::Assignment(sides, _) => first_place(sides),
        Simple::ShortVarDecl(names, _) => first_name_place(names),
    }
}
