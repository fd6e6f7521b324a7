//! Reading a script to its end.
ghost use Rattle.std.specs.Prelude.{◌≡◌, ℕ, ◌+◌, ◌<◌, ◌≤◌, ◌^◌, List, [], ◌∷◌, length, Option, IfOk, MatchResult};
ghost use Rattle.goset_cli.specs.Streams.{ReadResult, read_result_of, read_failures, GrowsBy};
ghost use Rattle.goset_cli.specs.Reading.{limit, GaveAll, NotRead, failures_of};
ghost use Rattle.goset_cli.specs.declared.reading.ReadError.TheVariants.{Memory, Read};

use std::alloc::{AllocError, Global};
use thiserror::Error;

/// A read or a write that didn't work.
#[derive(Clone, Copy, Debug, PartialEq, Eq, Drop, Error)]
#[error("a read or a write failed")]
pub struct EndFault;

/// Where a script comes from.
pub trait ScriptIn {
    /// What its reads gave so far, if that is known.
    ghost told: { Self → Option (List ReadResult) };

    /// How many of its reads failed.
    ghost failed: { Self → ℕ };

    /// How many of its reads failed so far.
    fn failures(&self) -> u64
        ensures { result ≡ failed self.now };

    /// Reads some bytes to the front of the buffer, and answers how many. None, where the buffer
    /// has room, are the script's end. An `Err` is a failure, and the only one.
    fn read(&mut self, buffer: &mut [u8]) -> Result<usize, EndFault>
        requires { failed self.old + 1 < 2 ^ 64 }
        ensures within { IfOk result (λ n. n ≤ length buffer.new) }
        ensures tells { GrowsBy (told self.old) (told self.new) (read_result_of result buffer.new ∷ []) }
        ensures counts { failed self.new ≡ failed self.old + read_failures result };
}

/// The most bytes that a script may have.
pub const LIMIT: usize = 16_777_216;

/// Why a script wasn't read: no memory for it, a read that failed, or more bytes than `LIMIT`.
#[derive(Clone, Copy, Debug, PartialEq, Eq, Drop, Error)]
pub enum ReadError {
    #[error("out of memory")]
    Memory,
    #[error("a read failed")]
    Read,
    #[error("the script is too long")]
    TooLong,
}

impl From<AllocError> for ReadError {
    ghost from_gives = { λ _ e. e ≡ Memory };

    fn from(_e: AllocError) -> ReadError {
        ReadError::Memory
    }
}

impl From<EndFault> for ReadError {
    ghost from_gives = { λ _ e. e ≡ Read };

    fn from(_e: EndFault) -> ReadError {
        ReadError::Read
    }
}

/// Reads all that a reader has, and its end.
///
/// - `Memory`: there was none for the bytes.
/// - `Read`: a read failed, and it was the last.
/// - `TooLong`: the reader gave more than `LIMIT` bytes. What it has left stays in it.
pub fn read_whole<R: ScriptIn>(alloc: Global, reader: &mut R) -> Result<Vec<u8>, ReadError>
    requires { R.failed reader.old + 1 < 2 ^ 64 }
    ensures was_read { MatchResult result
        (λ script. GaveAll (R.told reader.old) (R.told reader.new) script.items)
        (λ e. NotRead e (R.told reader.old) (R.told reader.new)) }
    ensures fits { IfOk result (λ script. length script.items ≤ limit) }
    ensures failed { R.failed reader.new ≡ R.failed reader.old + failures_of result }
{
    let mut script = Vec::new(alloc);
    let mut buffer = [0u8; 16384];
    'pieces: loop {
        let n = reader.read(&mut buffer)?;
        if n == 0 {
            return Ok(script);
        }
        let (piece, _) = buffer.split_at(n);
        script.extend_from_slice(piece)?;
        if script.len() > LIMIT {
            return Err(ReadError::TooLong);
        }
    }
}
