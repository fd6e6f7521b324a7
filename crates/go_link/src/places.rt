//! The variables of packages by name and by place.
ghost use Rattle.std.specs.Prelude.{◌≡◌, ◌++◌, ◌∷◌, [], ℕ, List, length, OnOk, IfOk, map, not};
ghost use Rattle.std.specs.Arc.{arc_value};
ghost use Rattle.std.specs.List.{list_any};
ghost use Rattle.go_code.specs.Referred.{reference_of};
ghost use Rattle.go_symbol.specs.Symbols.{same_symbol};
ghost use Rattle.go_link.specs.Links.{LinkedVariable, object_symbol, first_cell_of, variables};
ghost use Rattle.go_link.specs.Named.{Firsts, cell_count, held_at, place, symbol_at};

use crate::names::Name;
use go_code::instr::AccessInstr;
use go_code::object::Object;
use go_symbol::Symbol;
use std::alloc::{AllocError, Global};
use std::collections::BTreeMap;
use std::marker::Model;
use std::sync::Arc;

/// A variable's name, and how many cells it has.
type Variable<'a> = (Name<'a>, usize);

/// The variables of packages in the image's order, and the place of each by its name: how many
/// cells lie before its first, or before that of the first variable with the same path and name.
#[derive(Drop)]
pub(crate) struct Places<'a> {
    all: Vec<Variable<'a>>,
    firsts: BTreeMap<Name<'a>, usize>,
    cells: usize,
}

impl<'a> Model for Places<'a> {
    ghost use Rattle.std.specs.Prelude.{◌≡◌, List, map};
    ghost use Rattle.go_link.specs.Links.{LinkedVariable};
    ghost use Rattle.go_link.specs.Named.{Firsts, cell_count, held_at};

    ghost Value = { List LinkedVariable };

    ghost view = { λ a. map held_at a.all.items };

    ghost invariant = { λ a. Firsts a.firsts (map held_at a.all.items) × (a.cells ≡ cell_count (map held_at a.all.items)) };
}

impl<'a> Places<'a> {
    /// The place of the variable of a path and a name, if there is one.
    fn place(&self, path: &'a str, name: &'a str) -> Option<usize>
        ensures { result ≡ place (record { path = path.now; name = name.now }) self.now }
    {
        self.firsts.get(&(path, name)).copied()
    }

    /// The place of the variable of a path and a name, or how many cells there are if it is none
    /// of them.
    pub(crate) fn place_in(&self, path: &'a str, name: &'a str) -> usize
        ensures { result ≡ first_cell_of self.now (record { path = path.now; name = name.now }) }
    {
        match self.place(path, name) {
            Some(first) => first,
            None => self.cells,
        }
    }

    /// Whether an access is to none of the variables.
    pub(crate) fn misses(&self, instr: &'a AccessInstr<Symbol>) -> bool
        ensures { result ≡ not (list_any (λ v. same_symbol (reference_of instr.now) v.0) self.now) }
    {
        let symbol = place_of(instr);
        self.place(symbol.path(), symbol.name()).is_none()
    }
}

/// What an access says the place of its cells by.
pub(crate) fn place_of<P>(instr: &AccessInstr<P>) -> &P
    ensures { result.now ≡ reference_of instr.now }
{
    match instr {
        AccessInstr::Load { first, .. } => first,
        AccessInstr::Store { first, .. } => first,
        AccessInstr::LoadAt { first, .. } => first,
        AccessInstr::StoreAt { first, .. } => first,
    }
}

/// A name gets its place, unless there is one of the same path and name.
fn add_place<'a>(
    firsts: &mut BTreeMap<Name<'a>, usize>,
    name: Name<'a>,
    first: usize,
) -> Result<(), AllocError>
    ensures { OnOk result ((before : List LinkedVariable) (count : ℕ) → first ≡ cell_count before → Firsts firsts.old before
        → Firsts firsts.new (before ++ (symbol_at name.entry, count) ∷ [])) }
{
    if !firsts.contains_key(&name) {
        firsts.insert(name, first)?;
    }
    Ok(())
}

/// The first place of each name, and how many cells there are.
fn firsts_of<'a>(
    alloc: Global,
    variables: &[Variable<'a>],
) -> Result<(BTreeMap<Name<'a>, usize>, usize), AllocError>
    ensures firsts { IfOk result (λ found. Firsts found.0 (map held_at variables.now)) }
    ensures cells { IfOk result (λ found. found.1 ≡ cell_count (map held_at variables.now)) }
{
    let mut firsts = BTreeMap::new(alloc);
    let mut cells: usize = 0;
    for variable in variables {
        let (name, count) = *variable;
        add_place(&mut firsts, name, cells)?;
        // no memory has more cells than there are numbers
        cells = cells.checked_add(count).ok_or(AllocError)?;
    }
    Ok((firsts, cells))
}

/// A package's variables come behind others.
fn push_variables<'a>(found: &mut Vec<Variable<'a>>, object: &'a Object) -> Result<(), AllocError>
    ensures { OnOk result (map held_at found.new.items
        ≡ map held_at found.old.items ++ map (λ v. (object_symbol object.now v.name, length v.zero)) object.now.variables) }
{
    let variables = object.variables();
    for variable in variables {
        let count = variable.zero().len();
        found.push(((object.path(), variable.name()), count))?;
    }
    Ok(())
}

/// The variables of packages in the image's order. An `Err` where memory ran out, or where there
/// are more cells than numbers.
pub(crate) fn collect_places<'a>(
    alloc: Global,
    packages: &'a [Arc<Object>],
) -> Result<Places<'a>, AllocError>
    ensures { IfOk result (λ all. all ≡ variables (map arc_value packages.now)) }
{
    let mut all = Vec::new(alloc);
    for object in packages {
        push_variables(&mut all, object)?;
    }
    let (firsts, cells) = firsts_of(alloc, &all)?;
    Ok(Places { all, firsts, cells })
}
