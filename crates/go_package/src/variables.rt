//! The faults of declarations of variables, and what gives variables their values.
ghost use Rattle.std.specs.Prelude.{◌≡◌, ◌++◌, ℕ, List, map, is_some, IfOk, OnOk};
ghost use Rattle.std.specs.List.{flat_map};
ghost use Rattle.std.specs.Option.{option_map};
ghost use Rattle.go_ast.specs.Views.{var_of, type_of as type_tree};
ghost use Rattle.go_types.specs.Views.{go_type};
ghost use Rattle.go_typed.specs.Views.{as_source, initialization_of};
ghost use Rattle.go_expr.specs.Rules.{fine};
ghost use Rattle.go_expr.specs.Verdicts.{both, asked_both, broken};
ghost use Rattle.go_expr.specs.Views.{scope_of};
ghost use Rattle.go_stmt.specs.Rules.{variables_source};
ghost use Rattle.go_stmt.specs.Statements.{values_known, written_faults};
ghost use Rattle.go_stmt.specs.Views.{values_seen};
ghost use Rattle.go_objects.specs.Objects.{variables_of};
ghost use Rattle.go_objects.specs.Views.{spec_of};
ghost use Rattle.go_package.specs.Faults.{written_type, var_parts_faults, variables_by, var_spec_faults};
ghost use Rattle.go_package.specs.Views.{facts_of, texts_in, Finds};
ghost use Rattle.go_package.specs.Typed.{initializations_by, spec_initializations};

use crate::apart::check_apart;
use crate::declared::check_names;
use crate::facts::Facts;
use crate::initializations::add_by;
use go_ast::declaration::VarSpec;
use go_ast::expression::TypeExpr;
use go_ast::name::Name;
use go_expr::error::ExprError;
use go_expr::expression::check_type;
use go_expr::scope::Scope;
use go_objects::declarations::{Spec, variables_of};
use go_objects::evaluation::scope_in;
use go_stmt::declaration::variables_source;
use go_stmt::values::{Values, check_values};
use go_text::place::Place;
use go_typed::package::TypedInitialization;
use go_typed::statement::TypedSource;
use go_types::types::GoType;
use std::alloc::Global;

/// The first fault of declarations of variables in a file. What gives those of a specification
/// without a fault their values stands behind what was found before, by the names of files.
/// [Variable declarations](https://go.dev/ref/spec#Variable_declarations)
pub(crate) fn check_variables(
    alloc: Global,
    facts: &Facts<'_>,
    names: &[&str],
    file: usize,
    specs: &[VarSpec],
    found: &mut Vec<TypedInitialization>,
) -> Result<(), ExprError>
    ensures faults { Finds result (flat_map (var_spec_faults (facts_of facts.now) file) (map var_of specs.now)) }
    ensures initializations { OnOk result (map initialization_of found.new.items ≡ map initialization_of found.old.items
        ++ flat_map (spec_initializations (facts_of facts.now) (texts_in names.now) file) (map var_of specs.now)) }
{
    for spec in specs {
        check_var_spec(alloc, facts, names, file, spec, found)?;
    }
    Ok(())
}

fn check_var_spec(
    alloc: Global,
    facts: &Facts<'_>,
    names: &[&str],
    file: usize,
    spec: &VarSpec,
    found: &mut Vec<TypedInitialization>,
) -> Result<(), ExprError>
    ensures faults { Finds result (var_spec_faults (facts_of facts.now) file (var_of spec.now)) }
    ensures initializations { OnOk result (map initialization_of found.new.items ≡ map initialization_of found.old.items
        ++ spec_initializations (facts_of facts.now) (texts_in names.now) file (var_of spec.now)) }
{
    let source = source_in(alloc, facts, file, spec)?;
    add_by(alloc, facts, names, file, spec, source, found)?;
    Ok(())
}

// What gives the variables of one specification their values, where it is known, or its first fault:
// of its names, of its type, of its values, or its own.
fn source_in(
    alloc: Global,
    facts: &Facts<'_>,
    file: usize,
    spec: &VarSpec,
) -> Result<Option<TypedSource>, ExprError>
    ensures faults { Finds result (var_spec_faults (facts_of facts.now) file (var_of spec.now)) }
    ensures initializations { (ns : List (List ℕ)) → let t = facts_of facts.now in let spec = var_of spec.now in
        IfOk result (λ source. initializations_by t ns file spec (option_map as_source source) ≡ spec_initializations t ns file spec) }
{
    let Some(first) = spec.names.first() else {
        return Ok(None);
    };
    check_names(facts, file, &spec.names)?;
    let scope = scope_in(facts.package(), facts.known(), file, None);
    let parts = check_parts(alloc, &scope, spec)?;
    check_whole(alloc, facts, file, first.place(), spec, parts)
}

// What gives the variables of a specification their values, where its parts are known, or its own
// first fault: as a whole where they are, else that of its variables.
fn check_whole(
    alloc: Global,
    facts: &Facts<'_>,
    file: usize,
    place: Place,
    spec: &VarSpec,
    parts: Parts,
) -> Result<Option<TypedSource>, ExprError>
    ensures faults { Finds result (variables_by (facts_of facts.now) file place (var_of spec.now)
        (option_map (option_map go_type) parts.of) (option_map values_seen parts.values)) }
    ensures source { IfOk result (λ source. option_map as_source source ≡ fine (asked_both (variables_source (var_of spec.now).names)
        (option_map (option_map go_type) parts.of) (option_map values_seen parts.values))) }
{
    if parts.are_known() {
        return check_source(alloc, place, &spec.names, parts);
    }
    let objects = variables_of(alloc, file, spec)?;
    check_apart(alloc, facts, file, place, by_parts(spec), &objects)?;
    Ok(None)
}

// The parts of a specification.
fn by_parts<'a>(spec: &'a VarSpec) -> Spec<'a>
    ensures of { (spec_of result).type ≡ (var_of spec.now).type }
    ensures values { (spec_of result).values ≡ (var_of spec.now).values }
{
    Spec {
        names: spec.names.as_slice(),
        type_expr: spec.type_expr.as_ref(),
        values: spec.values.as_slice(),
    }
}

// The type and the values of a specification, where they are known.
#[derive(Drop)]
struct Parts {
    of: Option<Option<GoType>>,
    values: Option<Values>,
}

impl Parts {
    fn are_known(&self) -> bool
        ensures { result ≡ is_some (both (option_map (option_map go_type) self.now.of) (option_map values_seen self.now.values)) }
    {
        self.of.is_some() && self.values.is_some()
    }
}

// The type and the values of a specification, or the first fault in them.
fn check_parts(alloc: Global, scope: &Scope<'_>, spec: &VarSpec) -> Result<Parts, ExprError>
    ensures faults { Finds result (var_parts_faults (scope_of scope.now) (var_of spec.now)) }
    ensures of { IfOk result (λ parts. option_map (option_map go_type) parts.of ≡ written_type (scope_of scope.now) (var_of spec.now).type) }
    ensures values { IfOk result (λ parts. option_map values_seen parts.values ≡ values_known (scope_of scope.now) (var_of spec.now).values) }
{
    let of = check_written(alloc, scope, spec.type_expr.as_ref())?;
    let values = check_values(alloc, scope, &spec.values)?.known;
    Ok(Parts { of, values })
}

/// The type that is written, if one is, where it is known.
pub(crate) fn check_written(
    alloc: Global,
    scope: &Scope<'_>,
    type_expr: Option<&TypeExpr>,
) -> Result<Option<Option<GoType>>, ExprError>
    ensures faults { Finds result (written_faults (scope_of scope.now) (option_map (λ t. type_tree t.now) type_expr.entry)) }
    ensures of { IfOk result (λ of. option_map (option_map go_type) of ≡ written_type (scope_of scope.now) (option_map (λ t. type_tree t.now) type_expr.entry)) }
{
    let Some(type_expr) = type_expr else {
        return Ok(Some(None));
    };
    match check_type(alloc, scope, type_expr)? {
        Some(of) => Ok(Some(Some(of))),
        None => Ok(None),
    }
}

// What gives variables their values, where a type and values are known. `Count` where these aren't as
// many as the names, then `Range` or `Assign` where one isn't assignable.
#[tactic(auto, using(crate::proofs::Parts::located, crate::proofs::Parts::unbroken))]
fn check_source(
    alloc: Global,
    place: Place,
    names: &[Name],
    parts: Parts,
) -> Result<Option<TypedSource>, ExprError>
    ensures faults { Finds result (broken place (asked_both (variables_source names.now) (option_map (option_map go_type) parts.of) (option_map values_seen parts.values))) }
    ensures source { IfOk result (λ source. option_map as_source source
        ≡ fine (asked_both (variables_source names.now) (option_map (option_map go_type) parts.of) (option_map values_seen parts.values))) }
{
    let (Some(of), Some(values)) = (parts.of, parts.values) else {
        return Ok(None);
    };
    match variables_source(alloc, names, of, values) {
        Ok(source) => Ok(Some(source)),
        Err(error) => Err(error.at(place)),
    }
}
