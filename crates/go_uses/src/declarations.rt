//! Names in declarations.
ghost use Rattle.std.specs.Prelude.{◌≡◌, ◌++◌, map, IfOk, OnOk};
ghost use Rattle.std.specs.List.{flat_map};
ghost use Rattle.go_ast.specs.Trees as trees;
ghost use Rattle.go_ast.specs.Views.{const_of, var_of, decl_of};
ghost use Rattle.go_scope.specs.Names.{used};
ghost use Rattle.go_uses.specs.Uses.{texts, in_const, in_var, in_consts, in_vars, in_decl, decl_names};

use crate::expressions::{in_exprs, in_written};
use crate::hidden::{add_outside, hide, joined};
use go_ast::declaration::{ConstSpec, Decl, VarSpec};
use go_scope::name_index::NameIndex;
use go_scope::names::UsedName;
use std::alloc::{AllocError, Global};

/// The names that a specification of constants uses. An `Err` only where memory ran out.
pub(crate) fn in_const<'a>(
    alloc: Global,
    spec: &'a ConstSpec,
) -> Result<Vec<UsedName<'a>>, AllocError>
    ensures { IfOk result (λ names. map used names.items ≡ in_const (const_of spec.now)) }
{
    let names = in_written(alloc, spec.type_expr.as_ref())?;
    joined(names, in_exprs(alloc, &spec.values)?)
}

/// Those of a specification of variables.
pub(crate) fn in_var<'a>(alloc: Global, spec: &'a VarSpec) -> Result<Vec<UsedName<'a>>, AllocError>
    ensures { IfOk result (λ names. map used names.items ≡ in_var (var_of spec.now)) }
{
    let names = in_written(alloc, spec.type_expr.as_ref())?;
    joined(names, in_exprs(alloc, &spec.values)?)
}

/// Those of constants in a function, each of which holds behind its specification.
fn in_consts<'a>(alloc: Global, specs: &'a [ConstSpec]) -> Result<Vec<UsedName<'a>>, AllocError>
    ensures { IfOk result (λ names. map used names.items ≡ in_consts (map const_of specs.now)) }
{
    let mut hidden = NameIndex::new(alloc);
    let mut found = Vec::new(alloc);
    for spec in specs {
        let names = in_const(alloc, spec)?;
        add_outside(&mut found, &hidden, &names)?;
        hide(&mut hidden, &spec.names)?;
    }
    Ok(found)
}

/// Those of variables.
fn in_vars<'a>(alloc: Global, specs: &'a [VarSpec]) -> Result<Vec<UsedName<'a>>, AllocError>
    ensures { IfOk result (λ names. map used names.items ≡ in_vars (map var_of specs.now)) }
{
    let mut hidden = NameIndex::new(alloc);
    let mut found = Vec::new(alloc);
    for spec in specs {
        let names = in_var(alloc, spec)?;
        add_outside(&mut found, &hidden, &names)?;
        hide(&mut hidden, &spec.names)?;
    }
    Ok(found)
}

/// Those of a declaration in a function.
pub(crate) fn in_decl<'a>(alloc: Global, decl: &'a Decl) -> Result<Vec<UsedName<'a>>, AllocError>
    ensures { IfOk result (λ names. map used names.items ≡ in_decl (decl_of decl.now)) }
{
    match decl {
        Decl::Constants(_, specs) => in_consts(alloc, specs),
        Decl::Variables(_, specs) => in_vars(alloc, specs),
        Decl::Types(_, _) => Ok(Vec::new(alloc)),
    }
}

/// Hides the names of constants. An `Err` only where memory ran out.
fn hide_consts<'a>(hidden: &mut NameIndex<'a>, specs: &'a [ConstSpec]) -> Result<(), AllocError>
    ensures { OnOk result (hidden.new ≡ hidden.old ++ flat_map (λ (s : trees.ConstSpec). texts s.names) (map const_of specs.now)) }
{
    for spec in specs {
        hide(hidden, &spec.names)?;
    }
    Ok(())
}

fn hide_vars<'a>(hidden: &mut NameIndex<'a>, specs: &'a [VarSpec]) -> Result<(), AllocError>
    ensures { OnOk result (hidden.new ≡ hidden.old ++ flat_map (λ (s : trees.VarSpec). texts s.names) (map var_of specs.now)) }
{
    for spec in specs {
        hide(hidden, &spec.names)?;
    }
    Ok(())
}

/// Hides the names that a declaration in a function declares.
pub(crate) fn hide_decl<'a>(hidden: &mut NameIndex<'a>, decl: &'a Decl) -> Result<(), AllocError>
    ensures { OnOk result (hidden.new ≡ hidden.old ++ decl_names (decl_of decl.now)) }
{
    match decl {
        Decl::Constants(_, specs) => hide_consts(hidden, specs),
        Decl::Variables(_, specs) => hide_vars(hidden, specs),
        Decl::Types(_, _) => Ok(()),
    }
}
