//! Names that files use: those of imports, and those of a package in the texts of its functions.
//! [Package initialization](https://go.dev/ref/spec#Package_initialization)
ghost use Rattle.std.specs.Prelude.{◌≡◌, ◌++◌, map, IfOk, OnOk};
ghost use Rattle.std.specs.List.{filter, flat_map};
ghost use Rattle.go_ast.specs.Views.{top_of};
ghost use Rattle.go_typed.specs.Views.{uses_of};
ghost use Rattle.go_scope.specs.Names.{used};
ghost use Rattle.go_uses.specs.Uses.{in_top};
ghost use Rattle.go_package.specs.Views.{facts_of};
ghost use Rattle.go_package.specs.Typed.{top_uses};

use crate::facts::Facts;
use crate::references::references;
use go_ast::file::TopLevel;
use go_scope::name_index::NameIndex;
use go_scope::names::UsedName;
use go_typed::package::TypedUses;
use go_uses::file::names_in_top;
use std::alloc::{AllocError, Global};

// Adds what a named function, which uses some names, uses of the package to what was found.
fn add_uses(
    alloc: Global,
    facts: &Facts<'_>,
    file: usize,
    top: &TopLevel,
    names: &[UsedName<'_>],
    found: &mut Vec<TypedUses>,
) -> Result<(), AllocError>
    requires { map used names.now ≡ in_top (top_of top.now) }
    ensures { OnOk result (map uses_of found.new.items ≡ map uses_of found.old.items ++ top_uses (facts_of facts.now) file (top_of top.now)) }
{
    let TopLevel::Function(function) = top else {
        return Ok(());
    };
    if function.name.text() == "_" {
        return Ok(());
    }
    found.push(TypedUses {
        function: String::from_str(alloc, function.name.text())?,
        references: references(alloc, facts, file, names)?,
    })?;
    Ok(())
}

// Adds the names that stand before a dot to others.
fn add_dotted<'a>(names: &[UsedName<'a>], dotted: &mut NameIndex<'a>) -> Result<(), AllocError>
    ensures { OnOk result (dotted.new ≡ dotted.old ++ map (λ u. u.0) (filter (λ u. u.1) (map used names.now))) }
{
    for name in names {
        if name.dotted {
            dotted.insert(name.text)?;
        }
    }
    Ok(())
}

/// The names before a dot in the declarations of a file that nothing in a function declares. What
/// named functions use of the package stands behind what was found before. An `Err` only where
/// memory ran out.
#[tactic(auto, using(crate::proofs::Dotted::dotted_tops))]
pub(crate) fn dotted_in<'a>(
    alloc: Global,
    facts: &Facts<'_>,
    file: usize,
    tops: &'a [TopLevel],
    found: &mut Vec<TypedUses>,
) -> Result<NameIndex<'a>, AllocError>
    ensures dotted { IfOk result (λ names. names ≡ map (λ u. u.0) (filter (λ u. u.1) (flat_map in_top (map top_of tops.now)))) }
    ensures uses { OnOk result (map uses_of found.new.items
        ≡ map uses_of found.old.items ++ flat_map (top_uses (facts_of facts.now) file) (map top_of tops.now)) }
{
    let mut dotted = NameIndex::new(alloc);
    for top in tops {
        let names = names_in_top(alloc, top)?;
        add_dotted(&names, &mut dotted)?;
        add_uses(alloc, facts, file, top, &names, found)?;
    }
    Ok(dotted)
}
