//! Why files aren't run.
ghost use Rattle.std.specs.Prelude.{◌≡◌, IfOk, string_bytes};
ghost use Rattle.goset_cli.specs.Refusals.{failure_of, line_of};
ghost use Rattle.goset_cli.specs.declared.failure.Failure.TheVariants.{Memory};

use std::alloc::{AllocError, AllocFailed, Global};
use ws_module::unread::{FilesError, Unread};

/// Why files aren't run, or their report isn't printed.
#[derive(Drop)]
pub enum Failure {
    /// A file isn't taken.
    Unread(String, Unread),
    /// Memory ran out.
    Memory,
    /// Standard output failed.
    Write,
}

impl From<AllocError> for Failure {
    ghost from_gives = { λ _ e. e ≡ Memory };

    fn from(_e: AllocError) -> Failure {
        Failure::Memory
    }
}

impl<T: Drop> From<AllocFailed<T>> for Failure {
    ghost from_gives = { λ _ e. e ≡ Memory };

    fn from(_e: AllocFailed<T>) -> Failure {
        Failure::Memory
    }
}

impl From<FilesError> for Failure {
    ghost from_gives = { λ error e. e ≡ failure_of error };

    fn from(error: FilesError) -> Failure {
        match error {
            FilesError::Unread(file, why) => Failure::Unread(file, why),
            FilesError::Memory => Failure::Memory,
        }
    }
}

impl Failure {
    /// The line of standard error. An `Err` is want of memory.
    pub fn line(&self, alloc: Global) -> Result<String, AllocError>
        ensures { IfOk result (λ line. string_bytes line ≡ line_of self.now) }
    {
        let mut line = String::from_str(alloc, "goset: ")?;
        match self {
            Failure::Unread(file, why) => {
                line.push_str(file.as_str())?;
                line.push_str(": ")?;
                line.push_str(why.reason())?;
            }
            Failure::Memory => line.push_str("memory")?,
            Failure::Write => line.push_str("write")?,
        }
        line.push_str("\n")?;
        Ok(line)
    }
}
