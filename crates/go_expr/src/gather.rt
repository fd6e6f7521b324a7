//! The faults of a node: of several the one of the least number is told.
ghost use Rattle.std.specs.Prelude.{◌≡◌, ◌≢◌, ◌++◌, [], OnOk};
ghost use Rattle.go_expr.specs.Rules.{lesser_fault, least, when};
ghost use Rattle.go_expr.specs.Views.{given_values, given_fault, IsFinished};
ghost use Rattle.go_expr.specs.declared.error.RuleError.TheVariants as rule_errors;

use crate::error::RuleError;
use go_text::fault::FaultKind;
use std::alloc::{AllocError, Global};

/// Of two faults the one of the lesser number.
pub fn lesser(one: Option<FaultKind>, other: Option<FaultKind>) -> Option<FaultKind>
    ensures { result ≡ lesser_fault one other }
{
    match (one, other) {
        (None, _) => other,
        (_, None) => one,
        (Some(first), Some(second)) => {
            if first.number() <= second.number() {
                one
            } else {
                other
            }
        }
    }
}

/// A fault, where it holds.
pub fn when(holds: bool, kind: FaultKind) -> Option<FaultKind>
    ensures { result ≡ least (when holds kind) }
{
    if holds { Some(kind) } else { None }
}

/// What rules give of the parts of a node so far, and the least of its faults.
#[derive(Drop)]
pub struct Gathered<T: Drop> {
    /// What is given so far.
    pub values: Vec<T>,
    /// The least fault so far, if there is one.
    pub fault: Option<FaultKind>,
}

impl<T: Drop> Gathered<T> {
    /// Nothing so far but perhaps a fault.
    pub fn new(alloc: Global, fault: Option<FaultKind>) -> Gathered<T>
        ensures values { result.values.items ≡ [] }
        ensures fault { result.fault ≡ fault }
    {
        Gathered {
            values: Vec::new(alloc),
            fault,
        }
    }

    /// Adds what a rule gives of the next part. An `Err` only where memory ran out.
    pub fn add(&mut self, given: Result<T, RuleError>) -> Result<(), AllocError>
        ensures given { OnOk result (given ≢ Err rule_errors.Memory) }
        ensures values { OnOk result (self.new.values.items ≡ self.old.values.items ++ given_values given) }
        ensures fault { OnOk result (self.new.fault ≡ lesser_fault self.old.fault (given_fault given)) }
    {
        match given {
            Ok(value) => {
                self.values.push(value)?;
            }
            Err(RuleError::Broken(kind)) => self.fault = lesser(self.fault, Some(kind)),
            Err(RuleError::Memory) => return Err(AllocError),
        }
        Ok(())
    }

    /// The parts, unless there is a fault.
    pub fn finish(self) -> Result<Vec<T>, RuleError>
        ensures { IsFinished self.fault self.values.items result }
    {
        match self.fault {
            None => Ok(self.values),
            Some(kind) => Err(RuleError::Broken(kind)),
        }
    }
}
