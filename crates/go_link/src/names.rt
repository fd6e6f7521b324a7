//! The functions of packages by name and by number.
ghost use Rattle.std.specs.Prelude.{◌≡◌, ◌++◌, ◌∷◌, [], List, length, OnOk, IfOk, map};
ghost use Rattle.std.specs.List.{position};
ghost use Rattle.std.specs.Arc.{arc_value};
ghost use Rattle.go_symbol.specs.Symbols.{Symbol as ASymbol};
ghost use Rattle.go_symbol.specs.Symbols.{same_symbol};
ghost use Rattle.go_link.specs.Links.{object_symbol, function_symbols, function_number};
ghost use Rattle.go_link.specs.Named.{Numbers, symbol_at};

use go_code::object::Object;
use std::alloc::{AllocError, Global};
use std::collections::BTreeMap;
use std::marker::Model;
use std::sync::Arc;

/// A function or a variable by its package's path and its name.
pub(crate) type Name<'a> = (&'a str, &'a str);

/// The functions of packages in the image's order, and the number of each by its name: its
/// index, or that of the first with the same path and name.
#[derive(Drop)]
pub(crate) struct Names<'a> {
    all: Vec<Name<'a>>,
    numbers: BTreeMap<Name<'a>, usize>,
}

impl<'a> Model for Names<'a> {
    ghost use Rattle.std.specs.Prelude.{List, map};
    ghost use Rattle.go_symbol.specs.Symbols.{Symbol as ASymbol};
    ghost use Rattle.go_link.specs.Named.{Numbers, symbol_at};

    ghost Value = { List ASymbol };

    ghost view = { λ a. map symbol_at a.all.items };

    ghost invariant = { λ a. Numbers a.numbers (map symbol_at a.all.items) };
}

impl<'a> Names<'a> {
    /// The number of the function of a path and a name, if there is one.
    pub(crate) fn number(&self, path: &'a str, name: &'a str) -> Option<usize>
        ensures { result ≡ position (same_symbol (record { path = path.now; name = name.now })) self.now }
    {
        self.numbers.get(&(path, name)).copied()
    }

    /// The number of the function of a path and a name, or how many functions there are if it is
    /// none of them.
    pub(crate) fn number_of(&self, path: &'a str, name: &'a str) -> usize
        ensures { result ≡ function_number self.now (record { path = path.now; name = name.now }) }
    {
        match self.number(path, name) {
            Some(number) => number,
            None => self.all.len(),
        }
    }
}

/// A name gets its number, unless there is one of the same path and name.
fn add_name<'a>(
    numbers: &mut BTreeMap<Name<'a>, usize>,
    name: Name<'a>,
    number: usize,
) -> Result<(), AllocError>
    ensures { OnOk result ((before : List ASymbol) → number ≡ length before → Numbers numbers.old before
        → Numbers numbers.new (before ++ symbol_at name.entry ∷ [])) }
{
    if !numbers.contains_key(&name) {
        numbers.insert(name, number)?;
    }
    Ok(())
}

/// The first index of each name.
fn numbers_of<'a>(
    alloc: Global,
    names: &[Name<'a>],
) -> Result<BTreeMap<Name<'a>, usize>, AllocError>
    ensures { IfOk result (λ numbers. Numbers numbers (map symbol_at names.now)) }
{
    let mut numbers = BTreeMap::new(alloc);
    for (number, name) in names.iter().enumerate() {
        add_name(&mut numbers, *name, number)?;
    }
    Ok(numbers)
}

/// A package's functions come behind the names.
fn push_names<'a>(names: &mut Vec<Name<'a>>, object: &'a Object) -> Result<(), AllocError>
    ensures { OnOk result (map symbol_at names.new.items ≡ map symbol_at names.old.items ++ map (λ f. object_symbol object.now f.name) object.now.functions) }
{
    let functions = object.functions();
    for function in functions {
        names.push((object.path(), function.name()))?;
    }
    Ok(())
}

/// The functions of packages in the image's order. An `Err` only where memory ran out.
pub(crate) fn collect_names<'a>(
    alloc: Global,
    packages: &'a [Arc<Object>],
) -> Result<Names<'a>, AllocError>
    ensures { IfOk result (λ all. all ≡ function_symbols (map arc_value packages.now)) }
{
    let mut all = Vec::new(alloc);
    for object in packages {
        push_names(&mut all, object)?;
    }
    let numbers = numbers_of(alloc, &all)?;
    Ok(Names { all, numbers })
}
