//! Which names types and expressions use.
ghost use Rattle.std.specs.Prelude.{◌≡◌, ◌++◌, ◌∷◌, [], map, false, OnOk};
ghost use Rattle.go_ast.specs.Trees.{pack_elements, pack_fields};
ghost use Rattle.go_ast.specs.Views.{type_of, bound_of, expr_of, exprs_in, value_of, element_of, field_of};
ghost use Rattle.go_scope.specs.Names.{in_type, in_fields, in_expr, in_bound, in_exprs, in_elements, in_element, used};

use go_ast::expression::{Bound, Element, ElementValue, Expr, ExprKind, Field, TypeExpr, TypeKind};
use std::alloc::AllocError;

/// A name that a form uses: its text, and whether a dot follows it.
#[derive(Clone, Copy)]
pub struct UsedName<'a> {
    /// Its text.
    pub text: &'a str,
    /// Whether a dot follows it, so that it may be a package.
    pub dotted: bool,
}

/// Adds the names that a type uses, in their order. An `Err` only where memory ran out; it may
/// leave some of them added. [Types](https://go.dev/ref/spec#Types)
#[cycle(names)]
#[tactic(auto, unfolding(go_ast::specs::Views::type_of))]
pub fn add_type_names<'a>(t: &'a TypeExpr, names: &mut Vec<UsedName<'a>>) -> Result<(), AllocError>
    ensures { OnOk result (map used names.new.items ≡ map used names.old.items ++ in_type (type_of t.now)) }
{
    match &t.kind {
        TypeKind::Named(name) => add_name(name.text(), false, names),
        TypeKind::Qualified(package, _) => add_name(package.text(), true, names),
        TypeKind::Array(length, item) => {
            add_operand_names(length, false, names)?;
            add_type_names(item, names)
        }
        TypeKind::Slice(item) => add_type_names(item, names),
        TypeKind::Struct(fields) => add_field_names(fields, names),
    }
}

/// Adds the names that an expression uses, in their order. An `Err` only where memory ran out; it
/// may leave some of them added. [Expressions](https://go.dev/ref/spec#Expressions)
pub fn add_names<'a>(e: &'a Expr, names: &mut Vec<UsedName<'a>>) -> Result<(), AllocError>
    ensures { OnOk result (map used names.new.items ≡ map used names.old.items ++ in_expr false (expr_of e.now)) }
{
    add_operand_names(e, false, names)
}

// The names of an expression, which a dot may follow.
#[cycle(names)]
#[tactic(auto, unfolding(go_ast::specs::Views::expr_of))]
fn add_operand_names<'a>(
    e: &'a Expr,
    dotted: bool,
    names: &mut Vec<UsedName<'a>>,
) -> Result<(), AllocError>
    ensures { OnOk result (map used names.new.items ≡ map used names.old.items ++ in_expr dotted (expr_of e.now)) }
{
    match &e.kind {
        ExprKind::Name(text) => add_name(text.as_str(), dotted, names),
        ExprKind::Integer(_) | ExprKind::Rune(_) | ExprKind::String(_) => Ok(()),
        ExprKind::Parenthesized(inner) => add_operand_names(inner, false, names),
        ExprKind::CompositeLit(of, _, elements) => {
            add_type_names(of, names)?;
            add_element_names(elements, names)
        }
        ExprKind::Conversion(to, operand) => {
            add_type_names(to, names)?;
            add_operand_names(operand, false, names)
        }
        ExprKind::Selector(operand, _) => add_operand_names(operand, true, names),
        ExprKind::Index(operand, index) => {
            add_operand_names(operand, false, names)?;
            add_operand_names(index, false, names)
        }
        ExprKind::Cut(operand, low, high) => {
            add_operand_names(operand, false, names)?;
            add_bound_names(low, names)?;
            add_bound_names(high, names)
        }
        ExprKind::Type(of) => add_type_names(of, names),
        ExprKind::Call(callee, arguments) => {
            add_operand_names(callee, false, names)?;
            add_all_names(arguments, names)
        }
        ExprKind::Unary(_, operand) => add_operand_names(operand, false, names),
        ExprKind::Binary(_, left, right) => {
            add_operand_names(left, false, names)?;
            add_operand_names(right, false, names)
        }
    }
}

#[cycle(names)]
fn add_bound_names<'a>(bound: &'a Bound, names: &mut Vec<UsedName<'a>>) -> Result<(), AllocError>
    ensures { OnOk result (map used names.new.items ≡ map used names.old.items ++ in_bound (bound_of bound.now)) }
{
    match bound {
        Bound::Open => Ok(()),
        Bound::At(e) => add_operand_names(e, false, names),
    }
}

#[cycle(names)]
fn add_all_names<'a>(
    expressions: &'a [Expr],
    names: &mut Vec<UsedName<'a>>,
) -> Result<(), AllocError>
    ensures { OnOk result (map used names.new.items ≡ map used names.old.items ++ in_exprs (exprs_in expressions.now)) }
{
    for e in expressions {
        add_operand_names(e, false, names)?;
    }
    Ok(())
}

#[cycle(names)]
fn add_field_names<'a>(fields: &'a [Field], names: &mut Vec<UsedName<'a>>) -> Result<(), AllocError>
    ensures { OnOk result (map used names.new.items ≡ map used names.old.items ++ in_fields (pack_fields (map field_of fields.now))) }
{
    for field in fields {
        add_type_names(&field.type_expr, names)?;
    }
    Ok(())
}

#[cycle(names)]
fn add_element_names<'a>(
    elements: &'a [Element],
    names: &mut Vec<UsedName<'a>>,
) -> Result<(), AllocError>
    ensures { OnOk result (map used names.new.items ≡ map used names.old.items ++ in_elements (pack_elements (map element_of elements.now))) }
{
    for element in elements {
        add_value_names(&element.value, names)?;
    }
    Ok(())
}

#[cycle(names)]
#[tactic(auto, unfolding(go_ast::specs::Views::value_of))]
fn add_value_names<'a>(
    value: &'a ElementValue,
    names: &mut Vec<UsedName<'a>>,
) -> Result<(), AllocError>
    ensures { OnOk result (map used names.new.items ≡ map used names.old.items ++ in_element (value_of value.now)) }
{
    match value {
        ElementValue::Expression(e) => add_operand_names(e, false, names),
        ElementValue::Value(_, elements) => add_element_names(elements, names),
    }
}

fn add_name<'a>(
    text: &'a str,
    dotted: bool,
    names: &mut Vec<UsedName<'a>>,
) -> Result<(), AllocError>
    ensures { OnOk result (map used names.new.items ≡ map used names.old.items ++ (text.now, dotted) ∷ []) }
{
    names.push(UsedName { text, dotted })?;
    Ok(())
}
