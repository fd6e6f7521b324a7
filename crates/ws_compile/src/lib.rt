//! The compiler: makes an entry of an action.
#![tactic(auto)]

ghost use Rattle.std.specs.Prelude.{◌≡◌, [], map, Err, IfOk, IfErr};
ghost use Rattle.std.specs.Arc.{arc_value};
ghost use Rattle.go_typed.specs.Views.{typed_of};
ghost use Rattle.go_init.specs.Variables.{variable_order, in_order};
ghost use Rattle.go_gen.specs.Translation.{object_in};
ghost use Rattle.go_check.specs.Names.{importable_by};
ghost use Rattle.go_export.specs.declared.error.SummaryError.TheVariants.{Unshown};
ghost use Rattle.go_export.specs.Summaries.{summary_of};
ghost use Rattle.ws_cache.specs.Compiles.{Good, IsResult, Compiles, compiled_of};
ghost use Rattle.ws_compile.specs.Ordered.{CompilesTo};
ghost use Rattle.ws_compile.specs.Unshown.{IsUnshown, AreUnshown, HasNoSummary};

use go_ast::parsed::Parsed;
use go_check::check::check;
use go_check::error::CheckError;
use go_export::error::SummaryError;
use go_export::summary::Summary;
use go_gen::generate::generate;
use go_init::error::InitError;
use go_init::variables::variable_order;
use go_packed::packed::Packed;
use go_text::fault::{Fault, FaultKind};
use go_typed::package::Typed;
use std::alloc::{AllocError, Global};
use std::sync::Arc;
use ws_action::Action;
use ws_cache::{Entry, Outcome};

/// The entry of an action: a faulty package has one too. An `Err` gives the action back: memory ran
/// out, or no text tells what its package exports, which is so of no package of a build
/// (`law_built_packages_are_shown` of ws_replica).
pub fn compile(action: Action) -> Result<Entry, Action>
    ensures ok { IfOk result (λ entry. entry ≡ action) }
    ensures err { IfErr result (λ back. back ≡ action) }
{
    match outcome_of(&action) {
        Ok(outcome) => Entry::new(action, outcome),
        Err(_) => Err(action),
    }
}

/// What compiling an action gives. `Unshown` only where no text tells what its package exports,
/// `Memory` only where memory ran out.
fn outcome_of(action: &Action) -> Result<Outcome, SummaryError>
    ensures ok { IfOk result (λ outcome. Compiles action.now (compiled_of outcome)) }
    ensures unshown { result ≡ Err Unshown → IsUnshown action.now }
{
    result_of(
        action.allocator(),
        action.path(),
        action.files(),
        action.imports(),
    )
}

/// What the files at a path come to, which may import packages of these summaries: the package's
/// first fault, or else a variable whose value depends on itself, or else what importers know of it
/// and its object. An `Err` as in `outcome_of`.
fn result_of(
    alloc: Global,
    path: &str,
    files: &[Parsed],
    imports: &[Arc<Summary>],
) -> Result<Outcome, SummaryError>
    ensures ok { IfOk result (λ outcome. IsResult path.now files.now (map importable_by (map arc_value imports.now)) (compiled_of outcome)) }
    ensures unshown { result ≡ Err Unshown → AreUnshown path.now files.now (map importable_by (map arc_value imports.now)) }
{
    match check(alloc, path, files, imports) {
        Ok(typed) => ordered(alloc, &typed),
        Err(CheckError::Faulty(fault)) => Ok(Outcome::Faulty(fault)),
        Err(CheckError::Memory) => Err(SummaryError::Memory),
    }
}

/// What a typed package comes to: the first variable that no order gives a value, or else what
/// importers know of it and its object. An `Err` as in `outcome_of`.
fn ordered(alloc: Global, typed: &Typed) -> Result<Outcome, SummaryError>
    ensures ok { IfOk result (λ outcome. CompilesTo (typed_of typed.now) (compiled_of outcome)) }
    ensures unshown { result ≡ Err Unshown → ((variable_order (typed_of typed.now)).1 ≡ []) × HasNoSummary (typed_of typed.now) }
{
    match variable_order(alloc, typed) {
        Ok(order) => good(alloc, typed, &order),
        Err(InitError::Cycle(file, place)) => {
            let fault = Fault::new(file, place, FaultKind::InitCycle);
            Ok(Outcome::Faulty(fault))
        }
        Err(InitError::Memory) => Err(SummaryError::Memory),
    }
}

/// What importers know of a good package, and its object, whose variables get their values in that
/// order. An `Err` as in `outcome_of`.
fn good(alloc: Global, typed: &Typed, order: &[usize]) -> Result<Outcome, SummaryError>
    ensures ok { IfOk result (λ outcome. compiled_of outcome ≡ Good (summary_of (typed_of typed.now)) (object_in (in_order (typed_of typed.now) order.now) (typed_of typed.now))) }
    ensures unshown { result ≡ Err Unshown → HasNoSummary (typed_of typed.now) }
{
    let summary = shared(alloc, Summary::of(alloc, typed)?)?;
    let object = generate(alloc, typed, order)?;
    let packed = shared(alloc, Packed::of(alloc, &object)?)?;
    Ok(Outcome::Good(summary, packed))
}

/// A value to be shared. An `Err` only where memory ran out.
fn shared<T: Drop>(alloc: Global, value: T) -> Result<Arc<T>, AllocError>
    ensures { IfOk result (λ shared. arc_value shared ≡ value) }
{
    Ok(Arc::new(alloc, value)?)
}
