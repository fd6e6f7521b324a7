//! Names that are missing.
ghost use Rattle.std.specs.Prelude.{◌≡◌, map};
ghost use Rattle.std.specs.List.{flat_map, list_any};
ghost use Rattle.std.specs.Arc.{arc_value};
ghost use Rattle.go_link.specs.Links.{is_missing_symbol, misses, code_of};

use crate::names::Names;
use crate::places::Places;
use go_code::instr::{CallInstr, Instr};
use go_code::object::Object;
use go_code::object::function::PackageFunction;
use go_code::setup::Setup;
use go_symbol::Symbol;
use std::sync::Arc;

/// Whether a call goes to none of the functions.
fn call_misses<'a>(names: &Names<'a>, instr: &'a CallInstr<Symbol>) -> bool
    ensures { result ≡ misses names.now instr.now }
{
    match instr {
        CallInstr::Call(symbol) => names.number(symbol.path(), symbol.name()).is_none(),
        CallInstr::Return(_) => false,
    }
}

/// Whether an instruction refers to none of the functions, or to none of the variables.
fn is_missing<'a>(names: &Names<'a>, places: &Places<'a>, instr: &'a Instr<Symbol>) -> bool
    ensures { result ≡ is_missing_symbol names.now places.now instr.now }
{
    match instr {
        Instr::Calls(instr) => call_misses(names, instr),
        Instr::Global(instr) => places.misses(instr),
        _ => false,
    }
}

/// Whether an instruction of a code refers to no function or variable.
fn code_misses<'a>(names: &Names<'a>, places: &Places<'a>, code: &'a [Instr<Symbol>]) -> bool
    ensures { result ≡ list_any (is_missing_symbol names.now places.now) code.now }
{
    for instr in code {
        if is_missing(names, places, instr) {
            return true;
        }
    }
    false
}

fn functions_miss<'a>(
    names: &Names<'a>,
    places: &Places<'a>,
    functions: &'a [PackageFunction],
) -> bool
    ensures { result ≡ list_any (is_missing_symbol names.now places.now) (flat_map (λ f. f.function.code) functions.now) }
{
    for function in functions {
        if code_misses(names, places, function.function().code()) {
            return true;
        }
    }
    false
}

fn setups_miss<'a>(names: &Names<'a>, places: &Places<'a>, setups: &'a [Setup<Symbol>]) -> bool
    ensures { result ≡ list_any (is_missing_symbol names.now places.now) (flat_map (λ s. s.code) setups.now) }
{
    for setup in setups {
        if code_misses(names, places, setup.code()) {
            return true;
        }
    }
    false
}

fn object_misses<'a>(names: &Names<'a>, places: &Places<'a>, object: &'a Object) -> bool
    ensures { result ≡ list_any (is_missing_symbol names.now places.now) (code_of object.now) }
{
    functions_miss(names, places, object.functions()) || setups_miss(names, places, object.setups())
}

/// Whether some instruction of the packages refers to no function or variable.
pub(crate) fn name_missing<'a>(
    names: &Names<'a>,
    places: &Places<'a>,
    packages: &'a [Arc<Object>],
) -> bool
    ensures { result ≡ list_any (is_missing_symbol names.now places.now) (flat_map code_of (map arc_value packages.now)) }
{
    for object in packages {
        if object_misses(names, places, object) {
            return true;
        }
    }
    false
}
