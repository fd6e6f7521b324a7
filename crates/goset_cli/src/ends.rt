//! Any reader and writer as the ends of a session.
ghost use Rattle.std.specs.Prelude.{◌≡◌, ◌+◌, ◌<◌, ◌≤◌, ◌^◌, None, length, IfOk};
ghost use Rattle.std.specs.Io.KnownBytes.{ReadConsumes};
ghost use Rattle.goset_cli.specs.Streams.{read_failures};

use crate::reading::{EndFault, ScriptIn};
use crate::writing::ScriptOut;
use std::io::{Read, Write};

/// A reader that counts its failures: every error is one.
#[derive(Drop)]
pub struct FromReader<R: Read + Drop> {
    /// Where the bytes come from.
    pub reader: R,
    /// How many of its reads failed.
    pub failed_reads: u64,
}

impl<R: Read + Drop> FromReader<R> {
    /// The reader, no read of which failed so far.
    pub fn new(reader: R) -> Self
        ensures inner { result.reader ≡ reader }
        ensures none_failed { result.failed_reads ≡ 0 }
    {
        FromReader {
            reader,
            failed_reads: 0,
        }
    }
}

impl<R: Read + Drop> ScriptIn for FromReader<R> {
    ghost told = { λ _. None };

    ghost failed = { λ reader. reader.failed_reads };

    fn failures(&self) -> u64 {
        self.failed_reads
    }

    /// Reads once from the reader, and gives what that gave.
    fn read(&mut self, buffer: &mut [u8]) -> Result<usize, EndFault>
        requires { self.old.failed_reads + 1 < 2 ^ 64 }
        ensures within { IfOk result (λ n. n ≤ length buffer.new) }
        ensures counts { self.new.failed_reads ≡ self.old.failed_reads + read_failures result }
        ensures bytes { ReadConsumes (R.remaining self.old.reader) (R.remaining self.new.reader)
            result buffer.new }
    {
        match self.reader.read(buffer) {
            Ok(n) => Ok(n),
            Err(_) => {
                self.failed_reads += 1;
                Err(EndFault)
            }
        }
    }
}

/// A writer that counts its failures: every error is one, and so is taking nothing of some bytes.
#[derive(Drop)]
pub struct ToWriter<W: Write + Drop> {
    /// Where the bytes go.
    pub writer: W,
    /// How many of its writes failed.
    pub failed_writes: u64,
}

impl<W: Write + Drop> ToWriter<W> {
    /// The writer, no write of which failed so far.
    pub fn new(writer: W) -> Self
        ensures inner { result.writer ≡ writer }
        ensures none_failed { result.failed_writes ≡ 0 }
    {
        ToWriter {
            writer,
            failed_writes: 0,
        }
    }
}

impl<W: Write + Drop> ScriptOut for ToWriter<W> {
    ghost written = { λ writer. W.contents writer.writer };

    ghost failed = { λ writer. writer.failed_writes };

    fn failures(&self) -> u64 {
        self.failed_writes
    }

    fn write(&mut self, bytes: &[u8]) -> Result<usize, EndFault> {
        match self.writer.write(bytes) {
            Ok(n) => {
                if n == 0 && !bytes.is_empty() {
                    self.failed_writes += 1;
                }
                Ok(n)
            }
            Err(_) => {
                self.failed_writes += 1;
                Err(EndFault)
            }
        }
    }
}
