//! Constants in functions. [Constant declarations](https://go.dev/ref/spec#Constant_declarations)
ghost use Rattle.std.specs.Prelude.{◌≡◌, ◌++◌, [], Some, None, IfOk, OnOk, map};
ghost use Rattle.std.specs.List.{list_any};
ghost use Rattle.std.specs.Option.{option_map};
ghost use Rattle.go_ast.specs.Trees as trees;
ghost use Rattle.go_ast.specs.Trees.{no_exprs};
ghost use Rattle.go_ast.specs.Views.{const_of, exprs_in as exprs_trees, type_of as type_tree};
ghost use Rattle.go_types.specs.Views.{go_type};
ghost use Rattle.go_typed.specs.Views.{as_expr, as_stmt};
ghost use Rattle.go_expr.specs.Rules.{fine, assigned};
ghost use Rattle.go_expr.specs.Verdicts.{asked, both, operand, verdict, type_verdict, type_faults};
ghost use Rattle.go_expr.specs.Views.{all_of, declared_of, scope_of, AnswersAt};
ghost use Rattle.go_stmt.specs.Scopes.{nothing, paired_names};
ghost use Rattle.go_stmt.specs.Rules.{all_some, constants_verdict};
ghost use Rattle.go_scope.specs.Specifications.{meant, is_repeated};
ghost use Rattle.go_uses.specs.Uses.{in_const};
ghost use Rattle.go_stmt.specs.Statements.{is_unknown, each_of, operands_faults, written_at, repeated_faults, spec_at, declared_as, declared_constant};
ghost use Rattle.go_stmt.specs.Statements.{declare_constants, constants_at, group_at};
ghost use Rattle.go_stmt.specs.Views.{context_of, env_of, constant_spec, typed_in, Answered, Finds};

use crate::context::Context;
use crate::control::joined;
use crate::declaration::constants_of;
use crate::env::Env;
use crate::hidden::{any_unknown, names_used};
use crate::names::{check_names, place_at};
use crate::repeated::{known_type, repeated_fault};
use crate::simple::located;
use crate::values::{all_known, check_each, known_values};
use crate::variables::single;
use go_ast::declaration::ConstSpec;
use go_ast::expression::{Expr, TypeExpr};
use go_ast::name::Name;
use go_expr::error::{ExprError, RuleError};
use go_expr::expression::check_type;
use go_expr::known::Declared;
use go_expr::node::{constant, constant_in, type_in};
use go_expr::scope::Scope;
use go_expr::value::assigned;
use go_text::place::Place;
use go_typed::expression::TypedExpr;
use go_typed::statement::TypedStmt;
use go_types::types::GoType;
use std::alloc::{AllocError, Global};

/// A specification of constants, with the type and the values that it means.
#[derive(Clone, Copy)]
pub(crate) struct Spec<'a> {
    /// The names.
    pub(crate) names: &'a [Name],
    /// The type, if one is written.
    pub(crate) of: Option<&'a TypeExpr>,
    /// The values.
    pub(crate) values: &'a [Expr],
}

/// What a specification means behind another: without values the type and the values of that one.
fn meant<'a>(before: Spec<'a>, spec: &'a ConstSpec) -> Spec<'a>
    ensures { constant_spec result ≡ meant (constant_spec before.entry) (const_of spec.now) }
{
    let names = spec.names.as_slice();
    let values = spec.values.as_slice();
    if values.is_empty() {
        return Spec { names, ..before };
    }
    Spec {
        names,
        of: spec.type_expr.as_ref(),
        values,
    }
}

/// Whether a specification has no values of its own.
#[tactic(auto, using(crate::proofs::Meaning::repeated_seen))]
fn is_repeated(spec: &ConstSpec) -> bool
    ensures { result ≡ is_repeated (const_of spec.now) }
{
    spec.values.is_empty()
}

/// What a name declares by a constant; nothing is known of one by another value.
fn declared_as(value: &TypedExpr) -> Result<Option<Declared>, AllocError>
    ensures { IfOk result (λ d. option_map declared_of d ≡ declared_as (Some (as_expr value.now))) }
{
    match constant_in(value) {
        Some(constant) => {
            let of = type_in(value).copy()?;
            Ok(Some(Declared::Constant(of, constant.copy()?)))
        }
        None => Ok(None),
    }
}

/// What a name declares by a constant of a type that is written.
fn declared_by(
    alloc: Global,
    of: &GoType,
    value: &TypedExpr,
) -> Result<Option<Declared>, AllocError>
    ensures { IfOk result (λ d. option_map declared_of d ≡ declared_as (fine (assigned (go_type of.now) (as_expr value.now)))) }
{
    let Some(known) = constant_in(value) else {
        return Ok(None);
    };
    let copy = constant(type_in(value).copy()?, known.copy()?);
    match assigned(alloc, of.copy()?, copy) {
        Ok(value) => declared_as(&value),
        Err(RuleError::Broken(_)) => Ok(None),
        Err(RuleError::Memory) => Err(AllocError),
    }
}

/// What names declare, each by its own value.
fn all_declared(
    alloc: Global,
    values: &[Option<TypedExpr>],
) -> Result<Vec<Option<Declared>>, AllocError>
    ensures { IfOk result (λ all. map (option_map declared_of) all.items ≡ map declared_as (map (option_map as_expr) values.now)) }
{
    let mut all = Vec::with_capacity(alloc, values.len())?;
    for value in values {
        let declared = match value {
            Some(value) => declared_as(value)?,
            None => None,
        };
        all.push(declared)?;
    }
    Ok(all)
}

/// What names declare, each by its own value, as constants of a type that is written.
fn all_declared_by(
    alloc: Global,
    of: &Option<GoType>,
    values: &[Option<TypedExpr>],
) -> Result<Vec<Option<Declared>>, AllocError>
    ensures { IfOk result (λ all. map (option_map declared_of) all.items
        ≡ map (λ e. declared_as (fine (asked (λ k. assigned k.0 k.1) (both (option_map go_type of.now) e)))) (map (option_map as_expr) values.now)) }
{
    let mut all = Vec::with_capacity(alloc, values.len())?;
    for value in values {
        let declared = match (of, value) {
            (Some(of), Some(value)) => declared_by(alloc, of, value)?,
            _ => None,
        };
        all.push(declared)?;
    }
    Ok(all)
}

/// What is known of constants that are declared.
#[derive(Drop)]
struct Parts {
    /// The type that is written, where that is known; none where none is written.
    written: Option<Option<GoType>>,
    /// What the names declare, each where it is known.
    declared: Vec<Option<Declared>>,
    /// The values, where all are known.
    values: Option<Vec<TypedExpr>>,
}

/// The values of constants without a type, in a scope in which iota has their value.
fn check_untyped(alloc: Global, scope: &Scope<'_>, es: &[Expr]) -> Result<Parts, ExprError>
    ensures faults { Finds result (operands_faults (scope_of scope.now) (exprs_trees es.now)) }
    ensures written { IfOk result (λ p. option_map (option_map go_type) p.written ≡ Some None) }
    ensures declared { IfOk result (λ p. map (option_map declared_of) p.declared.items ≡ each_of (declared_constant (scope_of scope.now) None) (exprs_trees es.now)) }
    ensures values { let s = scope_of scope.now in
        IfOk result (λ p. option_map (all_of as_expr) p.values ≡ all_some (each_of (λ e. operand (verdict s e)) (exprs_trees es.now))) }
{
    let values = check_each(alloc, scope, es)?;
    let declared = all_declared(alloc, &values)?;
    let all = all_known(alloc, values)?;
    Ok(Parts {
        written: Some(None),
        declared,
        values: all,
    })
}

/// The values of constants of a type, in a scope in which iota has their value.
fn check_typed(
    alloc: Global,
    scope: &Scope<'_>,
    of: &TypeExpr,
    es: &[Expr],
) -> Result<Parts, ExprError>
    ensures faults { let s = scope_of scope.now in Finds result (type_faults s (type_tree of.now) ++ operands_faults s (exprs_trees es.now)) }
    ensures written { let s = scope_of scope.now in
        IfOk result (λ p. option_map (option_map go_type) p.written ≡ option_map Some (fine (type_verdict s (type_tree of.now)))) }
    ensures declared { let s = scope_of scope.now in
        IfOk result (λ p. map (option_map declared_of) p.declared.items ≡ each_of (declared_constant s (Some (type_tree of.now))) (exprs_trees es.now)) }
    ensures values { let s = scope_of scope.now in
        IfOk result (λ p. option_map (all_of as_expr) p.values ≡ all_some (each_of (λ e. operand (verdict s e)) (exprs_trees es.now))) }
{
    let known = check_type(alloc, scope, of)?;
    let values = check_each(alloc, scope, es)?;
    let declared = all_declared_by(alloc, &known, &values)?;
    let all = all_known(alloc, values)?;
    Ok(Parts {
        written: known.map(|of| Some(of)),
        declared,
        values: all,
    })
}

/// The type and the values of constants, in a scope in which iota has their value.
fn check_parts(alloc: Global, scope: &Scope<'_>, spec: Spec<'_>) -> Result<Parts, ExprError>
    ensures faults { let s = scope_of scope.now in let t = (constant_spec spec.entry).type in
        Finds result ((written_at s t nothing).faults ++ operands_faults s (constant_spec spec.entry).values) }
    ensures written { let s = scope_of scope.now in
        IfOk result (λ p. option_map (option_map go_type) p.written ≡ (written_at s (constant_spec spec.entry).type nothing).known) }
    ensures declared { let s = scope_of scope.now in
        IfOk result (λ p. map (option_map declared_of) p.declared.items ≡ each_of (declared_constant s (constant_spec spec.entry).type) (constant_spec spec.entry).values) }
    ensures values { let s = scope_of scope.now in
        IfOk result (λ p. option_map (all_of as_expr) p.values ≡ all_some (each_of (λ e. operand (verdict s e)) (constant_spec spec.entry).values)) }
{
    match spec.of {
        Some(of) => check_typed(alloc, scope, of, spec.values),
        None => check_untyped(alloc, scope, spec.values),
    }
}

/// What is known of the type and the values of constants, whatever their faults are. An `Err` only where
/// memory ran out.
#[tactic(auto, using(crate::proofs::Several::each_mapped))]
fn known_parts(alloc: Global, scope: &Scope<'_>, spec: Spec<'_>) -> Result<Parts, AllocError>
    ensures written { let s = scope_of scope.now in
        IfOk result (λ p. option_map (option_map go_type) p.written ≡ (written_at s (constant_spec spec.entry).type nothing).known) }
    ensures declared { let s = scope_of scope.now in
        IfOk result (λ p. map (option_map declared_of) p.declared.items ≡ each_of (declared_constant s (constant_spec spec.entry).type) (constant_spec spec.entry).values) }
    ensures values { let s = scope_of scope.now in
        IfOk result (λ p. option_map (all_of as_expr) p.values ≡ all_some (each_of (λ e. operand (verdict s e)) (constant_spec spec.entry).values)) }
{
    let Some(of) = spec.of else {
        let values = known_values(alloc, scope, spec.values)?;
        return Ok(Parts {
            written: Some(None),
            declared: all_declared(alloc, &values)?,
            values: all_known(alloc, values)?,
        });
    };
    let of = known_type(alloc, scope, of)?;
    let values = known_values(alloc, scope, spec.values)?;
    Ok(Parts {
        declared: all_declared_by(alloc, &of, &values)?,
        values: all_known(alloc, values)?,
        written: of.map(|of| Some(of)),
    })
}

/// The type and the values of constants that are repeated, which are one node at a place.
fn check_repeated(
    alloc: Global,
    scope: &Scope<'_>,
    place: Place,
    spec: Spec<'_>,
) -> Result<Parts, ExprError>
    ensures faults { let s = scope_of scope.now in let hidden = list_any (is_unknown s) (in_const (constant_spec spec.entry)) in
        Finds result (repeated_faults hidden place s (constant_spec spec.entry).type (constant_spec spec.entry).values) }
    ensures written { let s = scope_of scope.now in
        IfOk result (λ p. option_map (option_map go_type) p.written ≡ (written_at s (constant_spec spec.entry).type nothing).known) }
    ensures declared { let s = scope_of scope.now in
        IfOk result (λ p. map (option_map declared_of) p.declared.items ≡ each_of (declared_constant s (constant_spec spec.entry).type) (constant_spec spec.entry).values) }
    ensures values { let s = scope_of scope.now in
        IfOk result (λ p. option_map (all_of as_expr) p.values ≡ all_some (each_of (λ e. operand (verdict s e)) (constant_spec spec.entry).values)) }
{
    if let Some(kind) = repeated_fault(alloc, scope, spec.of, spec.values)? {
        if !names_unknown(alloc, scope, place, spec)? {
            return Err(ExprError::Faulty(place, kind));
        }
    }
    Ok(known_parts(alloc, scope, spec)?)
}

/// Whether a name in the type or the values of constants stands for a faulty declaration. An `Err` only
/// where memory ran out.
fn names_unknown(
    alloc: Global,
    scope: &Scope<'_>,
    place: Place,
    spec: Spec<'_>,
) -> Result<bool, AllocError>
    ensures { let s = scope_of scope.now in IfOk result (λ b. b ≡ list_any (is_unknown s) (in_const (constant_spec spec.entry))) }
{
    let names = names_used(alloc, spec.of, spec.values)?;
    any_unknown(scope, place, &names)
}

/// The type and the values of constants, which repeat what is written before, as one node at a place, or
/// don't.
fn check_spec(
    alloc: Global,
    scope: &Scope<'_>,
    place: Place,
    repeated: bool,
    spec: Spec<'_>,
) -> Result<Parts, ExprError>
    ensures faults { let s = scope_of scope.now in Finds result (spec_at s place repeated (constant_spec spec.entry) nothing).faults }
    ensures written { let s = scope_of scope.now in
        IfOk result (λ p. option_map (option_map go_type) p.written ≡ (written_at s (constant_spec spec.entry).type nothing).known) }
    ensures declared { let s = scope_of scope.now in
        IfOk result (λ p. map (option_map declared_of) p.declared.items ≡ each_of (declared_constant s (constant_spec spec.entry).type) (constant_spec spec.entry).values) }
    ensures values { let s = scope_of scope.now in
        IfOk result (λ p. option_map (all_of as_expr) p.values ≡ all_some (each_of (λ e. operand (verdict s e)) (constant_spec spec.entry).values)) }
{
    if repeated {
        check_repeated(alloc, scope, place, spec)
    } else {
        check_parts(alloc, scope, spec)
    }
}

/// Declares names by what each declares. An `Err` only where memory ran out.
fn declare_each(
    env: &mut Env,
    names: &[Name],
    declared: Vec<Option<Declared>>,
) -> Result<(), AllocError>
    ensures { OnOk result (env_of env.new ≡ declare_constants (paired_names names.now (map (option_map declared_of) declared.items)) (env_of env.old)) }
{
    let mut rest = declared.into_iter();
    for name in names {
        let one = match rest.next() {
            Some(one) => one,
            None => None,
        };
        env.declare(name, one)?;
    }
    Ok(())
}

/// A declaration of constants at a place, where the type and the values are known.
fn constants_at(
    alloc: Global,
    place: Place,
    names: &[Name],
    written: Option<Option<GoType>>,
    values: Option<Vec<TypedExpr>>,
) -> Result<Option<TypedStmt>, ExprError>
    ensures { AnswersAt as_stmt result place
        (asked (λ k. constants_verdict names.now k.0 k.1) (both (option_map (option_map go_type) written) (option_map (all_of as_expr) values))) }
{
    let Some(of) = written else {
        return Ok(None);
    };
    match values {
        Some(values) => located(place, constants_of(alloc, names, of, values)),
        None => Ok(None),
    }
}

/// What the constants of one specification are, which repeats the one before or not.
fn check_constants(
    alloc: Global,
    context: Context<'_>,
    env: &mut Env,
    place: Place,
    iota: u64,
    repeated: bool,
    spec: Spec<'_>,
) -> Result<Option<Vec<TypedStmt>>, ExprError>
    ensures answer { Answered typed_in result (constants_at (context_of context.entry) place iota repeated (constant_spec spec.entry) (env_of env.old)) }
    ensures after { OnOk result (env_of env.new ≡ (constants_at (context_of context.entry) place iota repeated (constant_spec spec.entry) (env_of env.old)).after) }
{
    check_names(alloc, env, spec.names)?;
    let first = place_at(place, spec.names);
    let parts = check_spec(
        alloc,
        &env.scope(context, Some(iota)),
        first,
        repeated,
        spec,
    )?;
    declare_each(env, spec.names, parts.declared)?;
    let statement = constants_at(alloc, first, spec.names, parts.written, parts.values)?;
    Ok(single(alloc, statement)?)
}

/// What the constants of a declaration are.
pub(crate) fn check_group(
    alloc: Global,
    context: Context<'_>,
    env: &mut Env,
    place: Place,
    specs: &[ConstSpec],
) -> Result<Option<Vec<TypedStmt>>, ExprError>
    ensures answer { let none : trees.ConstSpec = record { names = []; type = None; values = no_exprs } in
        Answered typed_in result (group_at (context_of context.entry) place 0 none (map const_of specs.now) (env_of env.old)) }
    ensures after { let none : trees.ConstSpec = record { names = []; type = None; values = no_exprs } in
        OnOk result (env_of env.new ≡ (group_at (context_of context.entry) place 0 none (map const_of specs.now) (env_of env.old)).after) }
{
    let mut before = Spec {
        names: &[],
        of: None,
        values: &[],
    };
    let mut known = Some(Vec::new(alloc));
    for (iota, spec) in specs.iter().enumerate() {
        before = meant(before, spec);
        let repeated = is_repeated(spec);
        let more = check_constants(alloc, context, env, place, iota as u64, repeated, before)?;
        known = joined(known, more)?;
    }
    Ok(known)
}
