//! The workers that compile a board's jobs.
#![tactic(auto)]

ghost use Rattle.std.specs.Prelude.{◌≡◌, IfOk, IfErr};
ghost use Rattle.ws_pool.specs.declared.Step.TheVariants.{Go};

pub use workers::build_jobs;
use ws_action::Action;
use ws_shared::Entry;

mod workers;

/// Where a worker passes a gate.
#[derive(Clone, Copy, PartialEq, Eq, Debug)]
pub enum Point {
    Taken,
    Compiled,
    Finished,
}

/// What a gate tells a worker: to go on, or to give its job back.
#[derive(Clone, Copy, PartialEq, Eq, Debug)]
pub enum Step {
    Go,
    Back,
}

/// What workers pass, and compile by.
pub trait Gate: Sync {
    /// What to do at the point of the job with that number.
    fn at(&self, point: Point, job: usize) -> Step;

    /// The entry of an action. An `Err`, for want of memory, gives the action back.
    fn compile(&self, action: Action) -> Result<Entry, Action>
        ensures ok { IfOk result (λ entry. entry ≡ action) }
        ensures err { IfErr result (λ back. back ≡ action) }
    {
        ws_compile::compile(action)
    }
}

/// The gate that holds nobody up.
#[derive(Clone, Copy, Debug)]
pub struct Plain;

impl Gate for Plain {
    fn at(&self, _point: Point, _job: usize) -> Step
        ensures { result ≡ Go }
    {
        Step::Go
    }
}
