//! The order of variables by what they and functions refer to.
ghost use Rattle.std.specs.Prelude.{◌≡◌, ◌≤◌, ℕ, Bool, length, IfOk};
ghost use Rattle.std.specs.List.{range_with_len};
ghost use Rattle.ws_reach.specs.Reach.{EdgesStayWithin, rows_of};
ghost use Rattle.go_typed.specs.Views.{typed_of};
ghost use Rattle.go_init.specs.Condensation.{AreDue, variables_among};
ghost use Rattle.go_init.specs.Turns.{in_turn};
ghost use Rattle.go_init.specs.Variables.{is_due};

use crate::components::{edges_behind, roots_of};
use crate::condensation::condensed;
use crate::edges::edges;
use crate::nodes::nodes_of;
use crate::packages::package_order;
use go_typed::package::Typed;
use std::alloc::{AllocError, Global};
use ws_reach::{closing_edges, node_at};

/// The numbers of a package's initializations, each time the first of those that are left that
/// depends on none that is left. An `Err` only where memory ran out.
pub(crate) fn order_of(alloc: Global, typed: &Typed) -> Result<Vec<usize>, AllocError>
    ensures { IfOk result (λ order. order.items
        ≡ (in_turn (is_due (typed_of typed.now)) (range_with_len 0 (length (typed_of typed.now).initializations))).0) }
{
    let nodes = nodes_of(alloc, typed)?;
    let rows = edges(alloc, nodes.as_slice())?;
    first_in_turn(alloc, rows.as_slice(), typed.initializations.len())
}

// Of the first nodes, as many as the count, each time the first of those that are left from which
// edges lead to none that is left.
fn first_in_turn(alloc: Global, rows: &[Vec<usize>], count: usize) -> Result<Vec<usize>, AllocError>
    requires few { count ≤ length rows.now }
    requires within { EdgesStayWithin (rows_of rows.now) }
    ensures { IfOk result (λ order. (depends : ℕ → ℕ → Bool) → AreDue (rows_of rows.now) count depends
        → order.items ≡ (in_turn depends (range_with_len 0 count)).0) }
{
    let functions = edges_behind(alloc, rows, count)?;
    let closing = closing_edges(alloc, functions.as_slice())?;
    let roots = roots_of(alloc, closing.as_slice(), functions.len())?;
    let waits = condensed(alloc, rows, count, roots.as_slice())?;
    let order = package_order(alloc, waits.as_slice())?;
    variables_among(alloc, order.as_slice(), functions.len())
}

// The variables among numbers of the condensation.
fn variables_among(
    alloc: Global,
    numbers: &[usize],
    functions: usize,
) -> Result<Vec<usize>, AllocError>
    ensures { IfOk result (λ variables. variables.items ≡ variables_among functions numbers.now) }
{
    let mut variables = Vec::new(alloc);
    for i in 0..numbers.len() {
        let number = node_at(numbers, i);
        if number >= functions {
            variables.push(number - functions)?;
        }
    }
    Ok(variables)
}
