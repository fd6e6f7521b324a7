//! Names in statements.
ghost use Rattle.std.specs.Prelude.{◌≡◌, ◌++◌, map, false, option_to_list, IfOk, OnOk};
ghost use Rattle.go_ast.specs.Machine.{pack_cases};
ghost use Rattle.go_ast.specs.Trees.{pack_statements};
ghost use Rattle.go_ast.specs.Views.{if_boxed, expr_of, simple_of, stmt_of, else_of, block_of, if_of, clause_of};
ghost use Rattle.go_scope.specs.Names.{in_expr, used};
ghost use Rattle.go_uses.specs.Views.{for_of, range_of};
ghost use Rattle.go_uses.specs.Uses.{if_any, texts, outside, in_simple, simple_names, optional_names, stmt_names, in_stmt, uses_in_block, in_if, in_else, in_list, in_clauses};

use crate::declarations::{hide_decl, in_decl};
use crate::expressions::{in_case, in_condition, in_expr, in_exprs};
use crate::hidden::{add_outside, hide, joined, outside};
use go_ast::expression::Expr;
use go_ast::name::Name;
use go_ast::statement::{Block, Clause, Else, For, If, Range, Simple, Stmt};
use go_scope::name_index::NameIndex;
use go_scope::names::UsedName;
use std::alloc::{AllocError, Global};

/// The names that a simple statement uses. An `Err` only where memory ran out.
fn in_simple<'a>(alloc: Global, simple: &'a Simple) -> Result<Vec<UsedName<'a>>, AllocError>
    ensures { IfOk result (λ names. map used names.items ≡ in_simple (simple_of simple.now)) }
{
    match simple {
        Simple::Call(e) | Simple::Increment(e) | Simple::Decrement(e) => in_expr(alloc, e),
        Simple::Assignment(lefts, rights) => {
            joined(in_exprs(alloc, lefts)?, in_exprs(alloc, rights)?)
        }
        Simple::OperatorAssignment(_, left, right) => {
            joined(in_expr(alloc, left)?, in_expr(alloc, right)?)
        }
        Simple::ShortVarDecl(_, values) => in_exprs(alloc, values),
    }
}

fn in_optional<'a>(
    alloc: Global,
    simple: &'a Option<Box<Simple>>,
) -> Result<Vec<UsedName<'a>>, AllocError>
    ensures { IfOk result (λ names. map used names.items ≡ if_any in_simple (if_boxed simple_of simple.now)) }
{
    match simple {
        Some(simple) => in_simple(alloc, simple),
        None => Ok(Vec::new(alloc)),
    }
}

/// Hides the names that a simple statement declares. An `Err` only where memory ran out.
fn hide_simple<'a>(hidden: &mut NameIndex<'a>, simple: &'a Simple) -> Result<(), AllocError>
    ensures { OnOk result (hidden.new ≡ hidden.old ++ simple_names (simple_of simple.now)) }
{
    match simple {
        Simple::ShortVarDecl(names, _) => hide(hidden, names),
        _ => Ok(()),
    }
}

/// Hides the names that a statement declares in the block that it stands in.
#[tactic(auto, unfolding(go_ast::specs::Views::stmt_of))]
fn hide_stmt<'a>(hidden: &mut NameIndex<'a>, statement: &'a Stmt) -> Result<(), AllocError>
    ensures { OnOk result (hidden.new ≡ hidden.old ++ stmt_names (stmt_of statement.now)) }
{
    match statement {
        Stmt::Declaration(_, decl) => hide_decl(hidden, decl),
        Stmt::Simple(_, simple) => hide_simple(hidden, simple),
        _ => Ok(()),
    }
}

/// Those of a statement before others, and of these.
#[tactic(auto, using(crate::proofs::Names::outside_none))]
fn behind<'a>(
    alloc: Global,
    before: &'a Option<Box<Simple>>,
    names: Vec<UsedName<'a>>,
) -> Result<Vec<UsedName<'a>>, AllocError>
    ensures { let o = if_boxed simple_of before.now in
        IfOk result (λ all. map used all.items ≡ if_any in_simple o ++ outside (optional_names o) (map used names.entry.items)) }
{
    let Some(simple) = before else {
        return Ok(names);
    };
    let mut hidden = NameIndex::new(alloc);
    hide_simple(&mut hidden, simple)?;
    let mut all = in_simple(alloc, simple)?;
    add_outside(&mut all, &hidden, &names)?;
    Ok(all)
}

/// The names that a statement uses.
#[cycle(uses)]
#[tactic(auto, using(go_ast::proofs::StatementRows::block_seen, go_ast::proofs::StatementRows::if_seen, go_ast::proofs::StatementRows::for_seen, go_ast::proofs::StatementRows::range_seen, go_ast::proofs::StatementRows::switch_seen, go_ast::proofs::StatementRows::declaration_seen, go_ast::proofs::StatementRows::simple_seen, go_ast::proofs::StatementRows::return_seen, go_ast::proofs::StatementRows::empty_seen, go_ast::proofs::StatementRows::break_seen, go_ast::proofs::StatementRows::continue_seen, go_ast::proofs::StatementRows::fallthrough_seen))]
fn in_stmt<'a>(alloc: Global, statement: &'a Stmt) -> Result<Vec<UsedName<'a>>, AllocError>
    ensures { IfOk result (λ names. map used names.items ≡ in_stmt (stmt_of statement.now)) }
{
    match statement {
        Stmt::Declaration(_, decl) => in_decl(alloc, decl),
        Stmt::Simple(_, simple) => in_simple(alloc, simple),
        Stmt::Return(_, values) => in_exprs(alloc, values),
        Stmt::Block(block) => in_block(alloc, block),
        Stmt::If(conditional) => in_if(alloc, conditional),
        Stmt::For(looped) => in_for(alloc, looped),
        Stmt::Range(ranged) => in_range(alloc, ranged),
        Stmt::Switch(_, before, tag, clauses) => in_switch(alloc, before, tag, clauses),
        Stmt::Empty(_) | Stmt::Break(_) | Stmt::Continue(_) | Stmt::Fallthrough(_) => {
            Ok(Vec::new(alloc))
        }
    }
}

/// The names that a block uses. An `Err` only where memory ran out.
#[cycle(uses)]
pub(crate) fn in_block<'a>(alloc: Global, block: &'a Block) -> Result<Vec<UsedName<'a>>, AllocError>
    ensures { IfOk result (λ names. map used names.items ≡ uses_in_block (block_of block.now)) }
{
    in_list(alloc, &block.statements)
}

#[cycle(uses)]
fn in_if<'a>(alloc: Global, conditional: &'a If) -> Result<Vec<UsedName<'a>>, AllocError>
    ensures { IfOk result (λ names. map used names.items ≡ in_if (if_of conditional.now)) }
{
    let condition = in_expr(alloc, &conditional.condition)?;
    let body = in_block(alloc, &conditional.body)?;
    let otherwise = in_else(alloc, &conditional.otherwise)?;
    let names = joined(condition, joined(body, otherwise)?)?;
    behind(alloc, &conditional.init, names)
}

#[cycle(uses)]
#[tactic(auto, using(go_ast::proofs::StatementRows::no_else_seen, go_ast::proofs::StatementRows::else_block_seen, go_ast::proofs::StatementRows::else_if_seen))]
fn in_else<'a>(alloc: Global, otherwise: &'a Else) -> Result<Vec<UsedName<'a>>, AllocError>
    ensures { IfOk result (λ names. map used names.items ≡ in_else (else_of otherwise.now)) }
{
    match otherwise {
        Else::Nothing => Ok(Vec::new(alloc)),
        Else::Block(block) => in_block(alloc, block),
        Else::If(conditional) => in_if(alloc, conditional),
    }
}

#[cycle(uses)]
fn in_for<'a>(alloc: Global, looped: &'a For) -> Result<Vec<UsedName<'a>>, AllocError>
    ensures { IfOk result (λ names. map used names.items ≡ in_stmt (for_of looped.now)) }
{
    let condition = in_condition(alloc, &looped.condition)?;
    let post = in_optional(alloc, &looped.post)?;
    let body = in_block(alloc, &looped.body)?;
    let names = joined(condition, joined(post, body)?)?;
    behind(alloc, &looped.init, names)
}

#[cycle(uses)]
fn in_range<'a>(alloc: Global, ranged: &'a Range) -> Result<Vec<UsedName<'a>>, AllocError>
    ensures { IfOk result (λ names. map used names.items ≡ in_stmt (range_of ranged.now)) }
{
    let operand = in_expr(alloc, &ranged.operand)?;
    joined(operand, names_outside(alloc, &ranged.name, &ranged.body)?)
}

/// The names that a block uses, but one that hides others of its text. An `Err` only where memory
/// ran out.
#[cycle(uses)]
pub fn names_outside<'a>(
    alloc: Global,
    name: &'a Option<Name>,
    block: &'a Block,
) -> Result<Vec<UsedName<'a>>, AllocError>
    ensures { IfOk result (λ names. map used names.items ≡ outside (texts (option_to_list name.now)) (uses_in_block (block_of block.now))) }
{
    let names = in_block(alloc, block)?;
    let mut hidden = NameIndex::new(alloc);
    if let Some(name) = name {
        hidden.insert(name.text())?;
    }
    outside(alloc, &hidden, &names)
}

#[cycle(uses)]
fn in_switch<'a>(
    alloc: Global,
    before: &'a Option<Box<Simple>>,
    tag: &'a Option<Box<Expr>>,
    clauses: &'a [Clause],
) -> Result<Vec<UsedName<'a>>, AllocError>
    ensures { let o = if_boxed simple_of before.now in let cs = pack_cases (map clause_of clauses.now) in
        IfOk result (λ names. map used names.items ≡
        if_any in_simple o ++ outside (optional_names o) (if_any (in_expr false) (if_boxed expr_of tag.now) ++ in_clauses cs)) }
{
    let tag = in_condition(alloc, tag)?;
    let names = joined(tag, in_clauses(alloc, clauses)?)?;
    behind(alloc, before, names)
}

/// Those of some statements.
#[cycle(uses)]
fn in_list<'a>(alloc: Global, statements: &'a [Stmt]) -> Result<Vec<UsedName<'a>>, AllocError>
    ensures { IfOk result (λ names. map used names.items ≡ in_list (pack_statements (map stmt_of statements.now))) }
{
    let mut hidden = NameIndex::new(alloc);
    let mut found = Vec::new(alloc);
    for statement in statements {
        let names = in_stmt(alloc, statement)?;
        add_outside(&mut found, &hidden, &names)?;
        hide_stmt(&mut hidden, statement)?;
    }
    Ok(found)
}

#[cycle(uses)]
fn in_clauses<'a>(alloc: Global, clauses: &'a [Clause]) -> Result<Vec<UsedName<'a>>, AllocError>
    ensures { IfOk result (λ names. map used names.items ≡ in_clauses (pack_cases (map clause_of clauses.now))) }
{
    let mut found = Vec::new(alloc);
    for clause in clauses {
        found = joined(found, in_case(alloc, &clause.values)?)?;
        found = joined(found, in_list(alloc, &clause.statements)?)?;
    }
    Ok(found)
}
