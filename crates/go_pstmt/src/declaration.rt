//! Reads declarations of constants, variables and types.
ghost use Rattle.std.specs.Prelude.{◌<◌, ◌≤◌, Some, None, OnOk, refl};
ghost use Rattle.go_ast.specs.Trees as trees;
ghost use Rattle.go_ast.specs.Expected.{another};
ghost use Rattle.go_ast.specs.Grammar.{assign};
ghost use Rattle.go_ast.specs.Machine.{Reader, token, optional, names, group, value_list, const_rest, var_rest, const_specs, var_specs, type_specs};
ghost use Rattle.go_ast.specs.Views.{exprs_in, const_of, var_of, type_spec_of, decl_of};
ghost use Rattle.go_pexpr.specs.Reads.{Reads, size, ReadsAs};
ghost use Rattle.go_pstmt.specs.Reading.{const_values, type_spec_at, var_values};

use crate::list::{Items, list};
use crate::marks::{ASSIGN, OPENING, SEMICOLON};
use go_ast::declaration::{ConstSpec, Decl, TypeSpec, VarSpec};
use go_ast::expression::Expr;
use go_ast::name::Name;
use go_pexpr::expected::Expected;
use go_pexpr::parser::{Parser, Refusal};
use go_scan::token::TokenKind;
use go_text::place::Place;

/// Reads `=` and the values behind it.
///
/// `"=" ExpressionList .`
fn assigned_values(parser: &mut Parser<'_>, level: u32) -> Result<Vec<Expr>, Refusal>
    requires { level ≤ 252 }
    ensures reads { ReadsAs (λ es. exprs_in es.items) (λ next. token assign 0 another (λ _. value_list level next)) parser.old result parser.new }
    ensures shorter { OnOk result (size parser.new < size parser.old) }
{
    parser.expect(ASSIGN, 0, Expected::Another)?;
    parser.exprs(false, level, Expected::Value)
}

/// Reads `=` and the values behind it, if it is the next.
///
/// `[ "=" ExpressionList ] .`
fn values_if(parser: &mut Parser<'_>, need: u32, level: u32) -> Result<Vec<Expr>, Refusal>
    requires { level ≤ 252 }
    ensures reads { ReadsAs (λ es. exprs_in es.items) (λ next. optional assign need (λ _. value_list level next) (next trees.no_exprs)) parser.old result parser.new }
    ensures no_longer { OnOk result (size parser.new ≤ size parser.old) }
{
    if let Some(_) = parser.accept(ASSIGN, need)? {
        return parser.exprs(false, level, Expected::Value);
    }
    Ok(Vec::new(parser.alloc))
}

/// Reads what is behind the names of constants, where no type is written.
///
/// `[ "=" ExpressionList ] .`
fn untyped_const(
    parser: &mut Parser<'_>,
    level: u32,
    names: Vec<Name>,
) -> Result<ConstSpec, Refusal>
    requires { level ≤ 252 }
    ensures reads { ReadsAs const_of (const_values level names.items) parser.old result parser.new }
    ensures no_longer { OnOk result (size parser.new ≤ size parser.old) }
{
    let values = values_if(parser, level, level)?;
    Ok(ConstSpec {
        names,
        type_expr: None,
        values,
    })
}

/// Reads constants of one type.
///
/// `ConstSpec = IdentifierList [ [ Type ] "=" ExpressionList ] .`
fn const_spec(parser: &mut Parser<'_>, level: u32) -> Result<ConstSpec, Refusal>
    requires { level ≤ 252 }
    ensures reads { (next : trees.ConstSpec → Reader) → Reads (names 0 (const_rest level next)) (λ s. next (const_of s)) parser.old result parser.new }
    ensures shorter { OnOk result (size parser.new < size parser.old) }
{
    let names = parser.names(0)?;
    let Some(type_expr) = parser.type_if(level, Expected::Type)? else {
        return untyped_const(parser, level, names);
    };
    let values = assigned_values(parser, level)?;
    Ok(ConstSpec {
        names,
        type_expr: Some(type_expr),
        values,
    })
}

/// Constants of a group, at a level.
#[derive(Clone, Copy)]
struct ConstSpecs {
    level: u32,
}

impl Items for ConstSpecs {
    type Node = ConstSpec;

    ghost kind = { λ s. const_specs s.level };

    ghost seen = { λ s. const_of };

    ghost due = { λ _. another };

    ghost can_read = { λ s. s.level ≤ 252 };

    ghost closes = { λ _. refl };

    fn separator(&self) -> TokenKind {
        SEMICOLON
    }

    fn behind(&self) -> Expected {
        Expected::Another
    }

    fn item(&self, parser: &mut Parser<'_>) -> Result<ConstSpec, Refusal> {
        const_spec(parser, self.level)
    }
}

/// Reads constants behind their keyword, which stands at this place.
///
/// `ConstDecl = "const" ( ConstSpec | "(" { ConstSpec ";" } ")" ) .`
pub fn constants(parser: &mut Parser<'_>, level: u32, place: Place) -> Result<Decl, Refusal>
    requires { level ≤ 252 }
    ensures reads { ReadsAs decl_of (λ next. group (const_specs level) (λ ss. next (trees.constants place ss)) (λ one. names 0 (const_rest level one))) parser.old result parser.new }
    ensures shorter { OnOk result (size parser.new < size parser.old) }
{
    if let Some(_) = parser.accept(OPENING, 0)? {
        let specs = list(parser, &ConstSpecs { level })?;
        return Ok(Decl::Constants(place, specs));
    }
    let mut specs = Vec::with_capacity(parser.alloc, 1)?;
    specs.push(const_spec(parser, level)?)?;
    Ok(Decl::Constants(place, specs))
}

/// Reads what is behind the names of variables, where no type is written.
///
/// `"=" ExpressionList .`
fn untyped_var(parser: &mut Parser<'_>, level: u32, names: Vec<Name>) -> Result<VarSpec, Refusal>
    requires { level ≤ 252 }
    ensures reads { ReadsAs var_of (var_values level names.items) parser.old result parser.new }
    ensures shorter { OnOk result (size parser.new < size parser.old) }
{
    let values = assigned_values(parser, level)?;
    Ok(VarSpec {
        names,
        type_expr: None,
        values,
    })
}

/// Reads variables of one type.
///
/// `VarSpec = IdentifierList ( Type [ "=" ExpressionList ] | "=" ExpressionList ) .`
fn var_spec(parser: &mut Parser<'_>, level: u32) -> Result<VarSpec, Refusal>
    requires { level ≤ 252 }
    ensures reads { (next : trees.VarSpec → Reader) → Reads (names level (var_rest level next)) (λ s. next (var_of s)) parser.old result parser.new }
    ensures shorter { OnOk result (size parser.new < size parser.old) }
{
    let names = parser.names(level)?;
    let Some(type_expr) = parser.type_if(level, Expected::Type)? else {
        return untyped_var(parser, level, names);
    };
    let values = values_if(parser, 0, level)?;
    Ok(VarSpec {
        names,
        type_expr: Some(type_expr),
        values,
    })
}

/// Variables of a group, at a level.
#[derive(Clone, Copy)]
struct VarSpecs {
    level: u32,
}

impl Items for VarSpecs {
    type Node = VarSpec;

    ghost kind = { λ s. var_specs s.level };

    ghost seen = { λ s. var_of };

    ghost due = { λ _. another };

    ghost can_read = { λ s. s.level ≤ 252 };

    ghost closes = { λ _. refl };

    fn separator(&self) -> TokenKind {
        SEMICOLON
    }

    fn behind(&self) -> Expected {
        Expected::Another
    }

    fn item(&self, parser: &mut Parser<'_>) -> Result<VarSpec, Refusal> {
        var_spec(parser, self.level)
    }
}

/// Reads variables behind their keyword, which stands at this place.
///
/// `VarDecl = "var" ( VarSpec | "(" { VarSpec ";" } ")" ) .`
pub fn variables(parser: &mut Parser<'_>, level: u32, place: Place) -> Result<Decl, Refusal>
    requires { level ≤ 252 }
    ensures reads { ReadsAs decl_of (λ next. group (var_specs level) (λ ss. next (trees.variables place ss)) (λ one. names level (var_rest level one))) parser.old result parser.new }
    ensures shorter { OnOk result (size parser.new < size parser.old) }
{
    if let Some(_) = parser.accept(OPENING, 0)? {
        let specs = list(parser, &VarSpecs { level })?;
        return Ok(Decl::Variables(place, specs));
    }
    let mut specs = Vec::with_capacity(parser.alloc, 1)?;
    specs.push(var_spec(parser, level)?)?;
    Ok(Decl::Variables(place, specs))
}

/// Reads a type and its name.
///
/// `TypeDef = identifier Type .`
fn type_spec(parser: &mut Parser<'_>, level: u32) -> Result<TypeSpec, Refusal>
    requires { level ≤ 252 }
    ensures reads { ReadsAs type_spec_of (type_spec_at level) parser.old result parser.new }
    ensures shorter { OnOk result (size parser.new < size parser.old) }
{
    let name = parser.name(level, Expected::Another)?;
    let type_expr = parser.type_from(level, Expected::DeclaredType)?;
    Ok(TypeSpec { name, type_expr })
}

/// Types of a group, at a level.
#[derive(Clone, Copy)]
struct TypeSpecs {
    level: u32,
}

impl Items for TypeSpecs {
    type Node = TypeSpec;

    ghost kind = { λ s. type_specs s.level };

    ghost seen = { λ s. type_spec_of };

    ghost due = { λ _. another };

    ghost can_read = { λ s. s.level ≤ 252 };

    ghost closes = { λ _. refl };

    fn separator(&self) -> TokenKind {
        SEMICOLON
    }

    fn behind(&self) -> Expected {
        Expected::Another
    }

    fn item(&self, parser: &mut Parser<'_>) -> Result<TypeSpec, Refusal> {
        type_spec(parser, self.level)
    }
}

/// Reads types behind their keyword, which stands at this place.
///
/// `TypeDecl = "type" ( TypeDef | "(" { TypeDef ";" } ")" ) .`
pub fn types(parser: &mut Parser<'_>, level: u32, place: Place) -> Result<Decl, Refusal>
    requires { level ≤ 252 }
    ensures reads { ReadsAs decl_of (λ next. group (type_specs level) (λ ss. next (trees.types place ss)) (type_spec_at level)) parser.old result parser.new }
    ensures shorter { OnOk result (size parser.new < size parser.old) }
{
    if let Some(_) = parser.accept(OPENING, 0)? {
        let specs = list(parser, &TypeSpecs { level })?;
        return Ok(Decl::Types(place, specs));
    }
    let mut specs = Vec::with_capacity(parser.alloc, 1)?;
    specs.push(type_spec(parser, level)?)?;
    Ok(Decl::Types(place, specs))
}
