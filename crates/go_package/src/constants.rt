//! The faults of declarations of constants.
ghost use Rattle.std.specs.Prelude.{◌≡◌, ◌≢◌, ◌++◌, ℕ, [], true, map, is_some, None, IfOk};
ghost use Rattle.std.specs.Option.{option_map};
ghost use Rattle.go_ast.specs.Trees.{no_exprs};
ghost use Rattle.go_ast.specs.Views.{const_of};
ghost use Rattle.go_types.specs.Views.{go_type};
ghost use Rattle.go_typed.specs.Views.{as_expr};
ghost use Rattle.go_expr.specs.Verdicts.{both, asked_both, broken, operand_list, operands_faults};
ghost use Rattle.go_expr.specs.Views.{scope_of, all_of, Fails};
ghost use Rattle.go_stmt.specs.Rules.{constants_verdict};
ghost use Rattle.go_stmt.specs.Statements.{written_faults};
ghost use Rattle.go_objects.specs.Objects as objects;
ghost use Rattle.go_objects.specs.Views.{spec_of};
ghost use Rattle.go_package.specs.Faults.{written_type, parts_faults, constants_by, constant_spec_faults, group_faults};
ghost use Rattle.go_package.specs.Views.{facts_of, Finds};

use crate::apart::{check_apart, hides_repeated};
use crate::declared::check_names;
use crate::facts::Facts;
use crate::variables::check_written;
use go_ast::declaration::ConstSpec;
use go_ast::name::Name;
use go_expr::error::ExprError;
use go_expr::expression::check_operands;
use go_expr::scope::Scope;
use go_objects::declarations::{Spec, constants_of as constants_in, meant};
use go_objects::evaluation::scope_in;
use go_stmt::declaration::constants_of;
use go_stmt::repeated::repeated_fault;
use go_text::place::Place;
use go_typed::expression::TypedExpr;
use go_types::types::GoType;
use std::alloc::Global;

// The type and the values of a specification, where they are known.
#[derive(Drop)]
struct Parts {
    of: Option<Option<GoType>>,
    values: Option<Vec<TypedExpr>>,
}

impl Parts {
    fn are_known(&self) -> bool
        ensures { result ≡ is_some (both (option_map (option_map go_type) self.now.of) (option_map (all_of as_expr) self.now.values)) }
    {
        self.of.is_some() && self.values.is_some()
    }
}

/// The first fault of a group of constants in a file.
/// [Constant declarations](https://go.dev/ref/spec#Constant_declarations)
pub(crate) fn check_group(
    alloc: Global,
    facts: &Facts<'_>,
    file: usize,
    specs: &[ConstSpec],
) -> Result<(), ExprError>
    ensures { Finds result (group_faults (facts_of facts.now) file 0 (record { names = []; type = None; values = no_exprs }) (map const_of specs.now)) }
{
    let mut before = Spec {
        names: &[],
        type_expr: None,
        values: &[],
    };
    for (iota, spec) in specs.iter().enumerate() {
        before = meant(before, spec);
        let repeated = spec.values.as_slice().is_empty();
        check_constants(alloc, facts, file, iota as u64, repeated, before)?;
    }
    Ok(())
}

// The first fault of a specification of constants, by what it means: one without values means what
// stands before it, whose faults are then its own.
fn check_constants(
    alloc: Global,
    facts: &Facts<'_>,
    file: usize,
    iota: u64,
    repeated: bool,
    spec: Spec<'_>,
) -> Result<(), ExprError>
    ensures { Finds result (constant_spec_faults (facts_of facts.now) file iota repeated (spec_of spec.entry)) }
{
    let Some(first) = spec.names.first() else {
        return Ok(());
    };
    check_names(facts, file, spec.names)?;
    let scope = scope_in(facts.package(), facts.known(), file, Some(iota));
    match check_parts(alloc, &scope, spec) {
        Ok(parts) => check_whole(alloc, facts, file, iota, first.place(), spec, parts),
        Err(error) => {
            check_faulty(
                alloc,
                facts,
                file,
                &scope,
                first.place(),
                repeated,
                spec,
                error,
            )
        }
    }
}

// The fault of a specification whose type and values have one, and are repeated or not.
fn check_faulty(
    alloc: Global,
    facts: &Facts<'_>,
    file: usize,
    scope: &Scope<'_>,
    place: Place,
    repeated: bool,
    spec: Spec<'_>,
    error: ExprError,
) -> Result<(), ExprError>
    ensures { (iota : ℕ) → let t = facts_of facts.now in let s = scope_of scope.now in let c = spec_of spec.entry in
        Fails error (written_faults s c.type ++ operands_faults s c.values) →
        Finds result (parts_faults t file repeated place s c ++ constants_by t file iota place c (written_type s c.type) (operand_list s c.values)) }
{
    if repeated {
        check_repeated(alloc, facts, file, scope, place, spec, error)
    } else {
        Err(error)
    }
}

// The fault of a specification whose type and values have one and are repeated, so that they are one
// node at a place, unless a name in them hides it: a faulty one of another specification.
fn check_repeated(
    alloc: Global,
    facts: &Facts<'_>,
    file: usize,
    scope: &Scope<'_>,
    place: Place,
    spec: Spec<'_>,
    error: ExprError,
) -> Result<(), ExprError>
    ensures { (iota : ℕ) → let t = facts_of facts.now in let s = scope_of scope.now in let c = spec_of spec.entry in
        Fails error (written_faults s c.type ++ operands_faults s c.values) →
        Finds result (parts_faults t file true place s c ++ constants_by t file iota place c (written_type s c.type) (operand_list s c.values)) }
{
    match error {
        ExprError::Memory => Err(ExprError::Memory),
        ExprError::Faulty(_, _) => told_repeated(alloc, facts, file, scope, place, spec),
    }
}

fn told_repeated(
    alloc: Global,
    facts: &Facts<'_>,
    file: usize,
    scope: &Scope<'_>,
    place: Place,
    spec: Spec<'_>,
) -> Result<(), ExprError>
    ensures { (iota : ℕ) → let t = facts_of facts.now in let s = scope_of scope.now in let c = spec_of spec.entry in
        written_faults s c.type ++ operands_faults s c.values ≢ [] →
        Finds result (parts_faults t file true place s c ++ constants_by t file iota place c (written_type s c.type) (operand_list s c.values)) }
{
    let hidden = hides_repeated(alloc, facts, file, scope, place, spec)?;
    if hidden {
        return Ok(());
    }
    match repeated_fault(alloc, scope, spec.type_expr, spec.values)? {
        Some(kind) => Err(ExprError::Faulty(place, kind)),
        None => Ok(()),
    }
}

// The first fault of a specification itself: as a whole where its parts are known, else that of its
// constants.
fn check_whole(
    alloc: Global,
    facts: &Facts<'_>,
    file: usize,
    iota: u64,
    place: Place,
    spec: Spec<'_>,
    parts: Parts,
) -> Result<(), ExprError>
    ensures { Finds result (constants_by (facts_of facts.now) file iota place (spec_of spec.entry)
        (option_map (option_map go_type) parts.of) (option_map (all_of as_expr) parts.values)) }
{
    if parts.are_known() {
        return check_spec(alloc, place, spec.names, parts);
    }
    let objects = constants_in(alloc, file, iota, spec)?;
    check_apart(alloc, facts, file, place, spec, &objects)
}

// The type and the values of a specification, or the first fault in them.
fn check_parts(alloc: Global, scope: &Scope<'_>, spec: Spec<'_>) -> Result<Parts, ExprError>
    ensures faults { let s = scope_of scope.now in
        Finds result (written_faults s (spec_of spec.entry).type ++ operands_faults s (spec_of spec.entry).values) }
    ensures of { IfOk result (λ parts. option_map (option_map go_type) parts.of ≡ written_type (scope_of scope.now) (spec_of spec.entry).type) }
    ensures values { IfOk result (λ parts. option_map (all_of as_expr) parts.values ≡ operand_list (scope_of scope.now) (spec_of spec.entry).values) }
{
    let of = check_written(alloc, scope, spec.type_expr)?;
    let values = check_operands(alloc, scope, spec.values)?;
    Ok(Parts { of, values })
}

// The first fault of a specification itself, where its type and its values are known: `Mismatch`
// where a value isn't constant, `Count` where they aren't as many as its names, then `Range` or
// `Assign` where one isn't assignable to the type.
#[tactic(auto, using(crate::proofs::Parts::located, crate::proofs::Parts::unbroken))]
fn check_spec(alloc: Global, place: Place, names: &[Name], parts: Parts) -> Result<(), ExprError>
    ensures { Finds result (broken place (asked_both (constants_verdict names.now) (option_map (option_map go_type) parts.of) (option_map (all_of as_expr) parts.values))) }
{
    let (Some(of), Some(values)) = (parts.of, parts.values) else {
        return Ok(());
    };
    match constants_of(alloc, names, of, values) {
        Ok(_) => Ok(()),
        Err(error) => Err(error.at(place)),
    }
}
