//! The order of packages.
ghost use Rattle.std.specs.Prelude.{◌≡◌, IfOk};
ghost use Rattle.ws_reach.specs.Reach.{rows_of};
ghost use Rattle.go_init.specs.Packages.{package_order};

use crate::queue::Queue;
use std::alloc::{AllocError, Global};

/// Packages in the order in which they are initialized: each time the first by path of those that
/// are left whose imports all stand before. Those whose imports lead into a circle are left out. An
/// `Err` only where memory ran out.
pub fn package_order(alloc: Global, rows: &[Vec<usize>]) -> Result<Vec<usize>, AllocError>
    ensures { IfOk result (λ order. order.items ≡ package_order (rows_of rows.now)) }
{
    let mut order = Vec::new(alloc);
    let mut queue = Queue::new(alloc, rows)?;
    for _ in 0..rows.len() {
        let Some(number) = queue.first_ready() else {
            return Ok(order);
        };
        order.push(number)?;
        queue.list(alloc, rows, number)?;
    }
    Ok(order)
}
