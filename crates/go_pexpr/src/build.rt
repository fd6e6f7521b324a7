//! Makes trees from their parts, and counts their levels.
ghost use Rattle.std.specs.Prelude.{◌≡◌, ◌+◌, ◌<◌, ◌≤◌, [], ◌∷◌, max, map, IfOk, IfErr, Ok, Err, Option, Some, None};
ghost use Rattle.go_ast.specs.Trees as trees;
ghost use Rattle.go_ast.specs.Grammar.{type_place};
ghost use Rattle.go_ast.specs.Views.{type_of, expr_of, bound_of, exprs_in, element_of, field_of, value_of, if_some};
ghost use Rattle.go_ast.specs.Machine.{literal_type, name_if};
ghost use Rattle.go_pexpr.specs.Turns.{key_in};
ghost use Rattle.go_pexpr.specs.Tall.{tall, type_tall, bound_tall, exprs_tall, value_tall, element_tall, elements_tall, fields_tall};

use crate::parser::Refusal;
use go_ast::expression::{
    BinaryOperator, Bound, Element, ElementValue, Expr, ExprKind, Field, TypeExpr, TypeKind,
    UnaryOperator,
};
use go_ast::key::Key;
use go_ast::name::Name;
use go_ast::spelling::Spelling;
use go_text::place::Place;
use std::alloc::Global;

/// An expression and how many levels it has.
#[derive(Drop)]
pub(crate) struct Tall {
    pub(crate) expr: Expr,
    pub(crate) height: u32,
    ghost counted: { height ≡ tall expr },
}

/// A type and how many levels it has.
#[derive(Drop)]
pub(crate) struct TallType {
    pub(crate) type_expr: TypeExpr,
    pub(crate) height: u32,
    ghost counted: { height ≡ type_tall type_expr },
    ghost one: { 1 ≤ height },
}

/// A bound of a part and how many levels it has.
#[derive(Drop)]
pub(crate) struct TallBound {
    pub(crate) bound: Bound,
    pub(crate) height: u32,
    ghost counted: { height ≡ bound_tall bound },
}

/// Arguments and how many levels they have.
#[derive(Drop)]
pub(crate) struct Arguments {
    pub(crate) items: Vec<Expr>,
    pub(crate) height: u32,
    ghost counted: { height ≡ exprs_tall items.items },
}

/// An element and how many levels it has.
#[derive(Drop)]
pub(crate) struct TallElement {
    pub(crate) element: Element,
    pub(crate) height: u32,
    ghost counted: { height ≡ element_tall element },
}

/// The value of an element and how many levels it has.
#[derive(Drop)]
pub(crate) struct TallValue {
    pub(crate) value: ElementValue,
    pub(crate) height: u32,
    ghost counted: { height ≡ value_tall value },
}

/// Elements and how many levels they have.
#[derive(Drop)]
pub(crate) struct Elements {
    pub(crate) items: Vec<Element>,
    pub(crate) height: u32,
    ghost counted: { height ≡ elements_tall items.items },
}

/// Fields and how many levels they have.
#[derive(Drop)]
pub(crate) struct Fields {
    pub(crate) items: Vec<Field>,
    pub(crate) height: u32,
    ghost counted: { height ≡ fields_tall items.items },
}

/// What was made first, beside what was read behind it, if that was read.
///
/// A caller that returns early where nothing was read has then no tree left to drop, which would lengthen its proof.
pub(crate) fn beside<A: Drop, B: Drop>(
    first: A,
    read: Result<B, Refusal>,
) -> Result<(A, B), Refusal>
    ensures first { IfOk result (λ both. both.0 ≡ first) }
    ensures read { IfOk result (λ both. read ≡ Ok both.1) }
    ensures err { IfErr result (λ e. read ≡ Err e) }
{
    let second = read?;
    Ok((first, second))
}

/// Puts two parts of a tree into boxes.
fn boxed<A: Drop, B: Drop>(alloc: Global, a: A, b: B) -> Result<(Box<A>, Box<B>), Refusal>
    ensures first { IfOk result (λ both. both.0.value ≡ a) }
    ensures second { IfOk result (λ both. both.1.value ≡ b) }
    ensures err { IfErr result (λ e. e ≡ Refusal.Memory) }
{
    let a = Box::new(alloc, a)?;
    let b = Box::new(alloc, b)?;
    Ok((a, b))
}

/// The type of a name.
pub(crate) fn named(place: Place, name: Name) -> TallType
    ensures expr { type_of result.type_expr ≡ trees.named place name }
    ensures height { result.height ≡ 1 }
{
    TallType {
        type_expr: TypeExpr {
            place,
            kind: TypeKind::Named(name),
        },
        height: 1,
    }
}

/// The type of a name of a package's.
pub(crate) fn qualified(place: Place, package: Name, name: Name) -> TallType
    ensures expr { type_of result.type_expr ≡ trees.qualified place «package» name }
    ensures height { result.height ≡ 1 }
{
    TallType {
        type_expr: TypeExpr {
            place,
            kind: TypeKind::Qualified(package, name),
        },
        height: 1,
    }
}

/// The type of arrays.
pub(crate) fn array(
    alloc: Global,
    place: Place,
    length: Tall,
    item: TallType,
) -> Result<TallType, Refusal>
    requires { (length.height < 1000) × (item.height < 1000) }
    ensures expr { IfOk result (λ t. type_of t.type_expr ≡ trees.array place (expr_of length.expr) (type_of item.type_expr)) }
    ensures height { IfOk result (λ t. t.height ≡ max length.height item.height + 1) }
    ensures err { IfErr result (λ e. e ≡ Refusal.Memory) }
{
    let height = length.height.max(item.height) + 1;
    let (length, item) = boxed(alloc, length.expr, item.type_expr)?;
    Ok(TallType {
        type_expr: TypeExpr {
            place,
            kind: TypeKind::Array(length, item),
        },
        height,
    })
}

/// The type of slices.
pub(crate) fn slice(alloc: Global, place: Place, item: TallType) -> Result<TallType, Refusal>
    requires { item.height < 1000 }
    ensures expr { IfOk result (λ t. type_of t.type_expr ≡ trees.slice place (type_of item.type_expr)) }
    ensures height { IfOk result (λ t. t.height ≡ item.height + 1) }
    ensures err { IfErr result (λ e. e ≡ Refusal.Memory) }
{
    let height = item.height + 1;
    let item = Box::new(alloc, item.type_expr)?;
    Ok(TallType {
        type_expr: TypeExpr {
            place,
            kind: TypeKind::Slice(item),
        },
        height,
    })
}

/// The type of structs.
pub(crate) fn structure(place: Place, fields: Fields) -> TallType
    requires { fields.height < 1000 }
    ensures expr { type_of result.type_expr ≡ trees.struct place (trees.pack_fields (map field_of fields.items.items)) }
    ensures height { result.height ≡ fields.height + 1 }
{
    let height = fields.height + 1;
    TallType {
        type_expr: TypeExpr {
            place,
            kind: TypeKind::Struct(fields.items),
        },
        height,
    }
}

/// A name.
pub(crate) fn name(place: Place, text: Spelling) -> Tall
    ensures expr { expr_of result.expr ≡ trees.name place text }
    ensures height { result.height ≡ 1 }
{
    Tall {
        expr: Expr {
            place,
            kind: ExprKind::Name(text),
        },
        height: 1,
    }
}

/// An integer literal.
pub(crate) fn integer(place: Place, text: Spelling) -> Tall
    ensures expr { expr_of result.expr ≡ trees.integer place text }
    ensures height { result.height ≡ 1 }
{
    Tall {
        expr: Expr {
            place,
            kind: ExprKind::Integer(text),
        },
        height: 1,
    }
}

/// A rune literal.
pub(crate) fn rune(place: Place, value: u32) -> Tall
    ensures expr { expr_of result.expr ≡ trees.rune place value }
    ensures height { result.height ≡ 1 }
{
    Tall {
        expr: Expr {
            place,
            kind: ExprKind::Rune(value),
        },
        height: 1,
    }
}

/// A string literal.
pub(crate) fn string(place: Place, value: Vec<u8>) -> Tall
    ensures expr { expr_of result.expr ≡ trees.string place value.items }
    ensures height { result.height ≡ 1 }
{
    Tall {
        expr: Expr {
            place,
            kind: ExprKind::String(value),
        },
        height: 1,
    }
}

/// An expression in parentheses.
pub(crate) fn parenthesized(alloc: Global, place: Place, inner: Tall) -> Result<Tall, Refusal>
    requires { inner.height < 1000 }
    ensures expr { IfOk result (λ t. expr_of t.expr ≡ trees.parenthesized place (expr_of inner.expr)) }
    ensures height { IfOk result (λ t. t.height ≡ inner.height + 1) }
    ensures err { IfErr result (λ e. e ≡ Refusal.Memory) }
{
    let height = inner.height + 1;
    let inner = Box::new(alloc, inner.expr)?;
    Ok(Tall {
        expr: Expr {
            place,
            kind: ExprKind::Parenthesized(inner),
        },
        height,
    })
}

/// An array or a struct of a type.
pub(crate) fn composite_lit(
    alloc: Global,
    a: TallType,
    brace: Place,
    elements: Elements,
) -> Result<Tall, Refusal>
    requires { (a.height < 1000) × (elements.height < 1000) }
    ensures expr { IfOk result (λ t. expr_of t.expr ≡ trees.composite_lit (type_place (type_of a.type_expr)) (type_of a.type_expr) brace (trees.pack_elements (map element_of elements.items.items))) }
    ensures height { IfOk result (λ t. t.height ≡ max a.height (elements.height + 1) + 1) }
    ensures err { IfErr result (λ e. e ≡ Refusal.Memory) }
{
    let height = a.height.max(elements.height + 1) + 1;
    let place = a.type_expr.place;
    let of = Box::new(alloc, a.type_expr)?;
    Ok(Tall {
        expr: Expr {
            place,
            kind: ExprKind::CompositeLit(of, brace, elements.items),
        },
        height,
    })
}

/// A conversion of a value to a type.
pub(crate) fn conversion(alloc: Global, a: TallType, value: Tall) -> Result<Tall, Refusal>
    requires { (a.height < 1000) × (value.height < 1000) }
    ensures expr { IfOk result (λ t. expr_of t.expr ≡ trees.conversion (type_place (type_of a.type_expr)) (type_of a.type_expr) (expr_of value.expr)) }
    ensures height { IfOk result (λ t. t.height ≡ max a.height value.height + 1) }
    ensures err { IfErr result (λ e. e ≡ Refusal.Memory) }
{
    let height = a.height.max(value.height) + 1;
    let place = a.type_expr.place;
    let (to, value) = boxed(alloc, a.type_expr, value.expr)?;
    Ok(Tall {
        expr: Expr {
            place,
            kind: ExprKind::Conversion(to, value),
        },
        height,
    })
}

/// What a name selects from an operand.
pub(crate) fn selector(alloc: Global, operand: Tall, name: Name) -> Result<Tall, Refusal>
    requires { operand.height < 1000 }
    ensures expr { IfOk result (λ t. expr_of t.expr ≡ trees.selector (trees.place_of (expr_of operand.expr)) (expr_of operand.expr) name) }
    ensures height { IfOk result (λ t. t.height ≡ operand.height + 1) }
    ensures err { IfErr result (λ e. e ≡ Refusal.Memory) }
{
    let height = operand.height + 1;
    let place = operand.expr.place;
    let operand = Box::new(alloc, operand.expr)?;
    Ok(Tall {
        expr: Expr {
            place,
            kind: ExprKind::Selector(operand, name),
        },
        height,
    })
}

/// What an index selects from an operand.
pub(crate) fn index(alloc: Global, operand: Tall, at: Tall) -> Result<Tall, Refusal>
    requires { (operand.height < 1000) × (at.height < 1000) }
    ensures expr { IfOk result (λ t. expr_of t.expr ≡ trees.index (trees.place_of (expr_of operand.expr)) (expr_of operand.expr) (expr_of at.expr)) }
    ensures height { IfOk result (λ t. t.height ≡ max operand.height at.height + 1) }
    ensures err { IfErr result (λ e. e ≡ Refusal.Memory) }
{
    let height = operand.height.max(at.height) + 1;
    let place = operand.expr.place;
    let (operand, at) = boxed(alloc, operand.expr, at.expr)?;
    Ok(Tall {
        expr: Expr {
            place,
            kind: ExprKind::Index(operand, at),
        },
        height,
    })
}

/// No bound of a part.
pub(crate) fn unbounded() -> TallBound
    ensures bound { bound_of result.bound ≡ trees.no_bound }
    ensures height { result.height ≡ 0 }
{
    TallBound {
        bound: Bound::Open,
        height: 0,
    }
}

/// An expression as a bound of a part.
pub(crate) fn bound(alloc: Global, at: Tall) -> Result<TallBound, Refusal>
    ensures bound { IfOk result (λ b. bound_of b.bound ≡ trees.bound (expr_of at.expr)) }
    ensures height { IfOk result (λ b. b.height ≡ at.height) }
    ensures err { IfErr result (λ e. e ≡ Refusal.Memory) }
{
    let height = at.height;
    let at = Box::new(alloc, at.expr)?;
    Ok(TallBound {
        bound: Bound::At(at),
        height,
    })
}

/// A part of an operand, between two bounds.
pub(crate) fn cut(
    alloc: Global,
    operand: Tall,
    low: TallBound,
    high: TallBound,
) -> Result<Tall, Refusal>
    requires { (operand.height < 1000) × (low.height < 1000) × (high.height < 1000) }
    ensures expr { IfOk result (λ t. expr_of t.expr ≡ trees.cut (trees.place_of (expr_of operand.expr)) (expr_of operand.expr) (bound_of low.bound) (bound_of high.bound)) }
    ensures height { IfOk result (λ t. t.height ≡ max operand.height (max low.height high.height) + 1) }
    ensures err { IfErr result (λ e. e ≡ Refusal.Memory) }
{
    let height = operand.height.max(low.height.max(high.height)) + 1;
    let place = operand.expr.place;
    let operand = Box::new(alloc, operand.expr)?;
    Ok(Tall {
        expr: Expr {
            place,
            kind: ExprKind::Cut(operand, low.bound, high.bound),
        },
        height,
    })
}

/// A type as a call's first operand.
pub(crate) fn type_operand(alloc: Global, a: TallType) -> Result<Tall, Refusal>
    ensures expr { IfOk result (λ t. expr_of t.expr ≡ trees.type_operand (type_place (type_of a.type_expr)) (type_of a.type_expr)) }
    ensures height { IfOk result (λ t. t.height ≡ a.height) }
    ensures err { IfErr result (λ e. e ≡ Refusal.Memory) }
{
    let height = a.height;
    let place = a.type_expr.place;
    let a = Box::new(alloc, a.type_expr)?;
    Ok(Tall {
        expr: Expr {
            place,
            kind: ExprKind::Type(a),
        },
        height,
    })
}

/// No arguments of a call.
pub(crate) fn no_arguments(alloc: Global) -> Arguments
    ensures items { result.items.items ≡ [] }
    ensures height { result.height ≡ 0 }
{
    Arguments {
        items: Vec::new(alloc),
        height: 0,
    }
}

/// An operand as the first of a call's.
pub(crate) fn one_argument(alloc: Global, first: Tall) -> Result<Arguments, Refusal>
    ensures items { IfOk result (λ es. es.items.items ≡ first.expr ∷ []) }
    ensures height { IfOk result (λ es. es.height ≡ first.height) }
    ensures err { IfErr result (λ e. e ≡ Refusal.Memory) }
{
    let height = first.height;
    let mut items = Vec::with_capacity(alloc, 1)?;
    items.push(first.expr)?;
    Ok(Arguments { items, height })
}

/// A call of an operand with arguments.
pub(crate) fn call(alloc: Global, function: Tall, arguments: Arguments) -> Result<Tall, Refusal>
    requires { (function.height < 1000) × (arguments.height < 1000) }
    ensures expr { IfOk result (λ t. expr_of t.expr ≡ trees.call (trees.place_of (expr_of function.expr)) (expr_of function.expr) (exprs_in arguments.items.items)) }
    ensures height { IfOk result (λ t. t.height ≡ max function.height arguments.height + 1) }
    ensures err { IfErr result (λ e. e ≡ Refusal.Memory) }
{
    let height = function.height.max(arguments.height) + 1;
    let place = function.expr.place;
    let function = Box::new(alloc, function.expr)?;
    Ok(Tall {
        expr: Expr {
            place,
            kind: ExprKind::Call(function, arguments.items),
        },
        height,
    })
}

/// An operator in front of an operand.
pub(crate) fn unary(
    alloc: Global,
    place: Place,
    operator: UnaryOperator,
    operand: Tall,
) -> Result<Tall, Refusal>
    requires { operand.height < 1000 }
    ensures expr { IfOk result (λ t. expr_of t.expr ≡ trees.unary place operator (expr_of operand.expr)) }
    ensures height { IfOk result (λ t. t.height ≡ operand.height + 1) }
    ensures err { IfErr result (λ e. e ≡ Refusal.Memory) }
{
    let height = operand.height + 1;
    let operand = Box::new(alloc, operand.expr)?;
    Ok(Tall {
        expr: Expr {
            place,
            kind: ExprKind::Unary(operator, operand),
        },
        height,
    })
}

/// An operator between two operands.
pub(crate) fn binary(
    alloc: Global,
    operator: BinaryOperator,
    left: Tall,
    right: Tall,
) -> Result<Tall, Refusal>
    requires { (left.height < 1000) × (right.height < 1000) }
    ensures expr { IfOk result (λ t. expr_of t.expr ≡ trees.binary (trees.place_of (expr_of left.expr)) operator (expr_of left.expr) (expr_of right.expr)) }
    ensures height { IfOk result (λ t. t.height ≡ max left.height right.height + 1) }
    ensures err { IfErr result (λ e. e ≡ Refusal.Memory) }
{
    let height = left.height.max(right.height) + 1;
    let place = left.expr.place;
    let (left, right) = boxed(alloc, left.expr, right.expr)?;
    Ok(Tall {
        expr: Expr {
            place,
            kind: ExprKind::Binary(operator, left, right),
        },
        height,
    })
}

/// An expression as the value of an element.
pub(crate) fn expression_value(expr: Tall) -> TallValue
    ensures value { value_of result.value ≡ trees.expression_element (expr_of expr.expr) }
    ensures height { result.height ≡ expr.height }
{
    TallValue {
        value: ElementValue::Expression(expr.expr),
        height: expr.height,
    }
}

/// Elements without the type of their literal, as the value of an element.
pub(crate) fn braced_value(place: Place, elements: Elements) -> TallValue
    requires { elements.height < 1000 }
    ensures value { value_of result.value ≡ trees.value_element place (trees.pack_elements (map element_of elements.items.items)) }
    ensures height { result.height ≡ elements.height + 1 }
{
    let height = elements.height + 1;
    TallValue {
        value: ElementValue::Value(place, elements.items),
        height,
    }
}

/// The name that an expression is, or else the expression.
fn name_in(expr: Expr) -> Result<Name, Expr>
    ensures name { IfOk result (λ n. expr_of expr ≡ trees.name n.place n.text) }
    ensures expr { IfErr result (λ e. e ≡ expr) }
    ensures no_name { IfErr result (λ e. name_if (expr_of expr) ≡ None) }
{
    let Expr { place, kind } = expr;
    match kind {
        ExprKind::Name(text) => Ok(Name::new(text, place)),
        kind => Err(Expr { place, kind }),
    }
}

/// The key that a value may be, or else the value.
pub(crate) fn key_in(value: TallValue) -> Result<Name, TallValue>
    ensures key { IfOk result (λ n. key_in (value_of value.value) ≡ Some n) }
    ensures value { IfErr result (λ v. v ≡ value) }
    ensures no_key { IfErr result (λ v. key_in (value_of value.value) ≡ None) }
{
    let TallValue { value, height } = value;
    match value {
        ElementValue::Expression(expr) => match name_in(expr) {
            Ok(name) => Ok(name),
            Err(expr) => Err(TallValue {
                value: ElementValue::Expression(expr),
                height,
            }),
        },
        value => Err(TallValue { value, height }),
    }
}

/// An element of a literal, without a key.
pub(crate) fn element(value: TallValue) -> TallElement
    ensures element { element_of result.element ≡ (None, value_of value.value) }
    ensures height { result.height ≡ value.height }
{
    TallElement {
        element: Element {
            key: Key::none(),
            value: value.value,
        },
        height: value.height,
    }
}

/// An element of a literal, with a key.
pub(crate) fn keyed_element(
    alloc: Global,
    key: Name,
    value: TallValue,
) -> Result<TallElement, Refusal>
    ensures element { IfOk result (λ e. element_of e.element ≡ (Some key, value_of value.value)) }
    ensures height { IfOk result (λ e. e.height ≡ value.height) }
    ensures err { IfErr result (λ e. e ≡ Refusal.Memory) }
{
    let key = Key::new(alloc, key)?;
    Ok(TallElement {
        element: Element {
            key,
            value: value.value,
        },
        height: value.height,
    })
}

/// The type of a literal that an expression names, if it may.
pub(crate) fn named_by(expr: Expr) -> Option<TallType>
    ensures expr { if_some (λ (a : _). type_of a.type_expr) result ≡ literal_type (expr_of expr) }
    ensures height { (a : _) → result ≡ Some a → a.height ≡ 1 }
{
    let Expr { place, kind } = expr;
    match kind {
        ExprKind::Name(text) => Some(named(place, Name::new(text, place))),
        ExprKind::Selector(operand, name) => match name_in(Box::into_inner(operand)) {
            Ok(package) => Some(qualified(place, package, name)),
            Err(_) => None,
        },
        _ => None,
    }
}
