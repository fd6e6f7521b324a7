//! A reader that remembers what it told, and a session over it.
ghost use Rattle.std.specs.Prelude.{◌≡◌, ◌+◌, ◌<◌, ◌^◌, [], ◌∷◌, ◌++◌, Some, OnOk, OnErr};
ghost use Rattle.std.specs.Option.{option_map};
ghost use Rattle.go_text.specs.declared.edition.Edition.TheVariants.{One};
ghost use Rattle.goset_cli.specs.Ends.{Wrote};
ghost use Rattle.workspace_tests.specs.Remembered.{all_shown, bytes_read, events, read_event};

use go_text::edition::Edition;
use goset_cli::ends::ToWriter;
use goset_cli::reading::{EndFault, ScriptIn};
use goset_cli::running::SessionError;
use goset_cli::script::run_script;
use goset_cli::writing::ScriptOut;
use std::alloc::{AllocError, Global};
use std::str::from_utf8;
use std::sync::Wait;
use std::test::Fail;
use std::thread::Threads;
use ws_pool::Plain;

/// A reader of some bytes that remembers what it told: the bytes that a read gave, or none for the
/// end. Once memory ran out each read fails.
#[derive(Drop)]
struct Remembering<'a> {
    alloc: Global,
    rest: &'a [u8],
    step: usize,
    told: Vec<Option<Vec<u8>>>,
    failed: u64,
}

impl<'a> Remembering<'a> {
    /// A reader that told nothing so far, of which a call gives at most `step` bytes.
    fn new(alloc: Global, script: &'a [u8], step: usize) -> Self
        ensures { (result.told.items ≡ []) × (result.failed ≡ 0) }
    {
        Remembering {
            alloc,
            rest: script,
            step,
            told: Vec::new(alloc),
            failed: 0,
        }
    }

    /// Remembers some bytes, or the end. An `Err`, for want of memory, changes nothing.
    fn remember(&mut self, bytes: Option<&[u8]>) -> Result<(), AllocError>
        ensures ok { OnOk result (all_shown self.new.told.items ≡ all_shown self.old.told.items ++ read_event (option_map (λ b. b.now) bytes.entry) ∷ []) }
        ensures err { OnErr result (all_shown self.new.told.items ≡ all_shown self.old.told.items) }
        ensures failed { self.new.failed ≡ self.old.failed }
    {
        let event = match bytes {
            None => None,
            Some(bytes) => {
                let mut kept = Vec::new(self.alloc);
                kept.extend_from_slice(bytes)?;
                Some(kept)
            }
        };
        self.told.push(event)?;
        Ok(())
    }
}

impl ScriptIn for Remembering<'_> {
    ghost told = { λ reader. Some (events reader.told.items reader.failed) };

    ghost failed = { λ reader. reader.failed };

    fn failures(&self) -> u64 {
        self.failed
    }

    fn read(&mut self, buffer: &mut [u8]) -> Result<usize, EndFault> {
        if self.failed > 0 {
            self.failed += 1;
            return Err(EndFault);
        }
        let n = self.step.min(self.rest.len()).min(buffer.len());
        let (now, rest) = self.rest.split_at(n);
        let event = if n == 0 && !buffer.is_empty() {
            None
        } else {
            Some(now)
        };
        if self.remember(event).is_err() {
            self.failed += 1;
            return Err(EndFault);
        }
        buffer.split_at_mut(n).0.copy_from_slice(now);
        self.rest = rest;
        Ok(n)
    }
}

/// A session of edition 1 over a reader that told nothing so far. On Ok what was written is the
/// session's text of the bytes that were told.
fn retell<R: Threads + Wait + Sync, O: ScriptOut>(
    rt: &R,
    alloc: Global,
    reader: &mut Remembering<'_>,
    writer: &mut O,
) -> Result<(), SessionError>
    requires fresh { (reader.old.told.items ≡ []) × (reader.old.failed ≡ 0) }
    requires writable { O.failed writer.old + 1 < 2 ^ 64 }
    ensures { OnOk result (Wrote One (bytes_read (events reader.new.told.items reader.new.failed))
        (O.written writer.old) (O.written writer.new)) }
{
    run_script(rt, alloc, reader, writer, 2, Edition::One, &Plain)
}

/// The bytes that a reader remembers.
fn given_bytes(alloc: Global, told: &[Option<Vec<u8>>]) -> Result<Vec<u8>, AllocError> {
    let mut bytes = Vec::new(alloc);
    for event in told {
        if let Some(given) = event {
            bytes.extend_from_slice(given)?;
        }
    }
    Ok(bytes)
}

/// What a script prints that is read by so many bytes, how many reads that took, how many failed, and
/// whether they told it all.
pub(crate) fn remembered<R: Threads + Wait + Sync>(
    rt: &R,
    alloc: Global,
    script: &str,
    step: usize,
) -> Result<String, Fail> {
    let script = script.as_bytes();
    let mut reader = Remembering::new(alloc, script, step);
    let mut writer = ToWriter::new(Vec::new(alloc));
    retell(rt, alloc, &mut reader, &mut writer)?;
    let is_all = given_bytes(alloc, &reader.told)?.as_slice() == script;
    let (reads, failed) = (reader.told.len(), reader.failed);
    let printed = from_utf8(writer.writer.as_slice())?;
    Ok(format!(in alloc; "{printed}reads {reads} failed {failed} all {is_all}")?)
}
