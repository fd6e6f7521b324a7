//! The faults of what files declare.
ghost use Rattle.std.specs.Prelude.{◌≡◌, ◌++◌, map, OnOk};
ghost use Rattle.std.specs.List.{flat_map};
ghost use Rattle.go_ast.specs.Views.{top_of};
ghost use Rattle.go_package.specs.Faults.{top_faults};
ghost use Rattle.go_package.specs.Views.{facts_of, texts_in, initial_in, uses_in, functions_in, Finds};
ghost use Rattle.go_package.specs.Typed.{top_initializations, top_functions};

use crate::bodies::Bodies;
use crate::constants::check_group;
use crate::facts::Facts;
use crate::functions::check_function;
use crate::types::check_types;
use crate::variables::check_variables;
use go_ast::declaration::Decl;
use go_ast::file::TopLevel;
use go_expr::error::ExprError;
use std::alloc::Global;

// The first fault of one declaration of a file. What one without a fault comes to is kept.
fn check_top(
    alloc: Global,
    facts: &Facts<'_>,
    names: &[&str],
    file: usize,
    top: &TopLevel,
    bodies: &mut Bodies,
) -> Result<(), ExprError>
    ensures faults { Finds result (top_faults (facts_of facts.now) file (top_of top.now)) }
    ensures initializations { OnOk result (initial_in bodies.new ≡ initial_in bodies.old
        ++ top_initializations (facts_of facts.now) (texts_in names.now) file (top_of top.now)) }
    ensures uses { OnOk result (uses_in bodies.new ≡ uses_in bodies.old) }
    ensures functions { OnOk result (functions_in bodies.new ≡ functions_in bodies.old ++ top_functions (facts_of facts.now) file (top_of top.now)) }
{
    match top {
        TopLevel::Declared(Decl::Constants(_, specs)) => check_group(alloc, facts, file, specs),
        TopLevel::Declared(Decl::Types(_, specs)) => check_types(alloc, facts, file, specs),
        TopLevel::Declared(Decl::Variables(_, specs)) => {
            check_variables(
                alloc,
                facts,
                names,
                file,
                specs,
                &mut bodies.initializations,
            )
        }
        TopLevel::Function(function) => {
            check_function(alloc, facts, file, function, &mut bodies.functions)
        }
    }
}

/// The first fault of the declarations of a file. What those without a fault come to is kept.
pub(crate) fn check_tops(
    alloc: Global,
    facts: &Facts<'_>,
    names: &[&str],
    file: usize,
    tops: &[TopLevel],
    bodies: &mut Bodies,
) -> Result<(), ExprError>
    ensures faults { Finds result (flat_map (top_faults (facts_of facts.now) file) (map top_of tops.now)) }
    ensures initializations { OnOk result (initial_in bodies.new ≡ initial_in bodies.old
        ++ flat_map (top_initializations (facts_of facts.now) (texts_in names.now) file) (map top_of tops.now)) }
    ensures uses { OnOk result (uses_in bodies.new ≡ uses_in bodies.old) }
    ensures functions { OnOk result (functions_in bodies.new ≡ functions_in bodies.old ++ flat_map (top_functions (facts_of facts.now) file) (map top_of tops.now)) }
{
    for top in tops {
        check_top(alloc, facts, names, file, top, bodies)?;
    }
    Ok(())
}
