//! The actions of a build, which replicas keep for their next one.
ghost use Rattle.std.specs.Prelude.{◌≡◌, ◌<◌, length};

use crate::Replica;
use crate::reached::Place;
use crate::reporting::number_after;
use std::alloc::{AllocError, Global};
use std::sync::Arc;
use ws_action::Action;
use ws_board::Built;

/// The actions of the `count` jobs behind the first `before`, of those that have one, in their order.
fn actions_of_plan(
    alloc: Global,
    built: &Built,
    before: usize,
    count: usize,
) -> Result<Arc<Vec<Arc<Action>>>, AllocError> {
    let mut actions = Vec::new(alloc);
    for k in 0..count {
        let job = number_after(before, k)?;
        if let Some(action) = built.action(job)? {
            actions.push(action)?;
        }
    }
    let actions = Arc::new(alloc, actions)?;
    Ok(actions)
}

/// The actions of the jobs of each plan.
pub(crate) fn actions_of_plans(
    alloc: Global,
    built: &Built,
    all: &[Vec<Place>],
) -> Result<Vec<Arc<Vec<Arc<Action>>>>, AllocError> {
    let mut actions = Vec::new(alloc);
    let mut before = 0;
    for places in all {
        let its = actions_of_plan(alloc, built, before, places.len())?;
        actions.push(its)?;
        before = number_after(before, places.len())?;
    }
    Ok(actions)
}

fn remember_at(replicas: &mut [Replica], number: usize, actions: Arc<Vec<Arc<Action>>>)
    requires { number < length replicas.old }
    ensures { replicas.new ≡ replicas.old }
{
    replicas[number].remember(actions);
}

/// Each replica keeps the actions of its plan.
pub(crate) fn remember_all(
    replicas: &mut [Replica],
    acted: &[Arc<Vec<Arc<Action>>>],
) -> Result<(), AllocError>
    ensures { replicas.new ≡ replicas.old }
{
    for number in 0..replicas.len() {
        let Some(actions) = acted.get(number) else {
            return Ok(());
        };
        let actions = Arc::try_clone(actions)?;
        remember_at(replicas, number, actions);
    }
    Ok(())
}
