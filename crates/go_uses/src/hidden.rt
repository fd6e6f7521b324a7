//! Names that declarations hide.
ghost use Rattle.std.specs.Prelude.{◌≡◌, ◌++◌, map, IfOk, OnOk};
ghost use Rattle.std.specs.List.{list_any};
ghost use Rattle.std.specs.Str.{bytes_eq};
ghost use Rattle.go_scope.specs.Names.{used};
ghost use Rattle.go_uses.specs.Uses.{texts, outside};

use go_ast::name::Name;
use go_scope::name_index::NameIndex;
use go_scope::names::UsedName;
use std::alloc::{AllocError, Global};

/// Hides names. An `Err` only where memory ran out.
pub(crate) fn hide<'a>(hidden: &mut NameIndex<'a>, names: &'a [Name]) -> Result<(), AllocError>
    ensures { OnOk result (hidden.new ≡ hidden.old ++ texts names.now) }
{
    for name in names {
        hidden.insert(name.text())?;
    }
    Ok(())
}

/// Whether a name is hidden.
#[tactic(auto, using(go_scope::proofs::Indexes::is_some_position))]
fn is_hidden(hidden: &NameIndex<'_>, name: UsedName<'_>) -> bool
    ensures { result ≡ list_any (bytes_eq (used name.entry).0) hidden.now }
{
    hidden.get(name.text).is_some()
}

/// Adds the names that aren't hidden to those that were found. An `Err` only where memory ran out.
pub(crate) fn add_outside<'a>(
    found: &mut Vec<UsedName<'a>>,
    hidden: &NameIndex<'_>,
    names: &[UsedName<'a>],
) -> Result<(), AllocError>
    ensures { OnOk result (map used found.new.items ≡ map used found.old.items ++ outside hidden.now (map used names.now)) }
{
    for name in names {
        if !is_hidden(hidden, *name) {
            found.push(*name)?;
        }
    }
    Ok(())
}

/// The names that aren't hidden. An `Err` only where memory ran out.
pub(crate) fn outside<'a>(
    alloc: Global,
    hidden: &NameIndex<'_>,
    names: &[UsedName<'a>],
) -> Result<Vec<UsedName<'a>>, AllocError>
    ensures { IfOk result (λ found. map used found.items ≡ outside hidden.now (map used names.now)) }
{
    let mut found = Vec::with_capacity(alloc, names.len())?;
    add_outside(&mut found, hidden, names)?;
    Ok(found)
}

/// Names and others behind them. An `Err` only where memory ran out.
pub(crate) fn joined<'a>(
    names: Vec<UsedName<'a>>,
    more: Vec<UsedName<'a>>,
) -> Result<Vec<UsedName<'a>>, AllocError>
    ensures { IfOk result (λ all. map used all.items ≡ map used names.entry.items ++ map used more.entry.items) }
{
    if names.is_empty() {
        return Ok(more);
    }
    let mut all = names;
    let mut more = more;
    all.append(&mut more)?;
    Ok(all)
}
