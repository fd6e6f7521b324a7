//! Sessions that the program's words ask for, from these words to how the program ends.
ghost use Rattle.std.specs.Prelude.{◌≡◌, ◌≢◌, ◌+◌, ◌<◌, ◌≤◌, ◌^◌, [], IfErr, IfOk, MatchResult, OnErr, OnOk, false, length, map, string_bytes, true};
ghost use Rattle.clap.specs.Words.{kind_of};
ghost use Rattle.clap.specs.declared.error.kind.ErrorKind.TheVariants.{OutOfMemory};
ghost use Rattle.goset_cli.specs.CommandLine.{option_faults};
ghost use Rattle.goset_cli.specs.Ends.{Session, SessionBy};
ghost use Rattle.goset_cli.specs.Failures.{failed_reads, failed_writes};
ghost use Rattle.goset_cli.specs.Statuses.{Complains, FailsByKind, FailsUnasked, Shows, WritesOut, asks_text, error_line, is_asked, is_wrong, not_utf8};
ghost use Rattle.goset_cli.specs.declared.running.SessionError.TheVariants.{Memory};
ghost use Rattle.goset_cli.specs.declared.status.Status.TheVariants.{Done, Misused};

use crate::Plain;
use crate::reading::ScriptIn;
use crate::running::SessionError;
use crate::script::run_script;
use crate::status::Status;
use crate::words::{Options, read_options};
use crate::writing::{ScriptOut, tell, write_whole};
use clap::Error;
use clap::error::ErrorKind;
use std::alloc::{AllocError, Global};
use std::convert::AsStr;
use std::io;
use std::sync::Wait;
use std::thread::Threads;

// The line of standard error for a failure.
pub(crate) fn line_of(failure: SessionError) -> &'static str
    ensures { result.now ≡ error_line failure }
{
    match failure {
        SessionError::Memory => "goset: memory\n",
        SessionError::Read => "goset: read\n",
        SessionError::Write => "goset: write\n",
        SessionError::TooLong => "goset: script over 16777216 bytes\n",
    }
}

// Tells of a failure, as far as standard error takes it.
fn complain<E: ScriptOut>(failure: SessionError, errors: &mut E)
    requires tellable { E.failed errors.old + 1 < 2 ^ 64 }
    ensures { WritesOut (error_line failure) (E.failed errors.old) (E.failed errors.new)
        (E.written errors.old) (E.written errors.new) }
{
    tell(errors, line_of(failure).as_bytes());
}

// Runs the script that the reader has.
fn run<T: Threads + Wait + Sync, I: ScriptIn, O: ScriptOut, E: ScriptOut>(
    rt: &T,
    alloc: Global,
    options: Options,
    reader: &mut I,
    writer: &mut O,
    errors: &mut E,
) -> Result<Status, SessionError>
    requires some { 1 ≤ options.workers }
    requires few { options.workers ≤ 64 }
    requires readable { I.failed reader.old + 1 < 2 ^ 64 }
    requires writable { O.failed writer.old + 1 < 2 ^ 64 }
    requires tellable { E.failed errors.old + 1 < 2 ^ 64 }
    ensures session { Session options.edition result (I.told reader.old) (I.told reader.new)
        (O.written writer.old) (O.written writer.new) }
    ensures done { IfOk result (λ status. status ≡ Done) }
    ensures silent { OnOk result (errors.new ≡ errors.old) }
    ensures tells { IfErr result (λ failure. WritesOut (error_line failure) (E.failed errors.old)
        (E.failed errors.new) (E.written errors.old) (E.written errors.new)) }
    ensures reads { I.failed reader.new ≡ I.failed reader.old + failed_reads result }
    ensures writes { O.failed writer.new ≡ O.failed writer.old + failed_writes result }
{
    let Options { workers, edition } = options;
    match run_script(rt, alloc, reader, writer, workers, edition, &Plain) {
        Ok(()) => Ok(Status::Done),
        Err(failure) => {
            complain(failure, errors);
            Err(failure)
        }
    }
}

// What clap says of words; it isn't empty. An `Err` is want of memory.
fn text_of(alloc: Global, error: &Error) -> Result<String, AllocError>
    ensures some { IfOk result (λ text. 0 < length (string_bytes text)) }
{
    let mut text = error.to_string(alloc)?;
    if text.is_empty() {
        text.push_str("\n")?;
    }
    Ok(text)
}

// Writes what clap says of words that ask for no session and for no run.
pub(crate) fn explain<O: ScriptOut, E: ScriptOut>(
    alloc: Global,
    error: &Error,
    writer: &mut O,
    errors: &mut E,
) -> Result<Status, SessionError>
    requires writable { O.failed writer.old + 1 < 2 ^ 64 }
    requires tellable { E.failed errors.old + 1 < 2 ^ 64 }
    ensures asked { IfOk result (λ status. status ≡ Done → is_asked (kind_of error.now) ≡ true) }
    ensures shown { IfOk result (λ status. status ≡ Done
        → Shows (O.written writer.old) (O.written writer.new)) }
    ensures silent { IfOk result (λ status. status ≡ Done → errors.new ≡ errors.old) }
    ensures misused { IfOk result (λ status. status ≡ Misused
        → (is_asked (kind_of error.now) ≡ false) × (kind_of error.now ≢ OutOfMemory)) }
    ensures explained { IfOk result (λ status. status ≡ Misused → Complains (E.failed errors.old)
        (E.failed errors.new) (E.written errors.old) (E.written errors.new)) }
    ensures fails { IfErr result (FailsByKind (kind_of error.now)) }
    ensures tells { IfErr result (λ failure. WritesOut (error_line failure) (E.failed errors.old)
        (E.failed errors.new) (E.written errors.old) (E.written errors.new)) }
    ensures writes { O.failed writer.new ≡ O.failed writer.old + failed_writes result }
    ensures unwritten { is_asked (kind_of error.now) ≡ false → writer.new ≡ writer.old }
{
    if error.kind() == ErrorKind::OutOfMemory {
        complain(SessionError::Memory, errors);
        return Err(SessionError::Memory);
    }
    let Ok(text) = text_of(alloc, error) else {
        complain(SessionError::Memory, errors);
        return Err(SessionError::Memory);
    };
    if error.use_stderr() {
        tell(errors, text.as_bytes());
        return Ok(Status::Misused);
    }
    match write_whole(writer, text.as_bytes()) {
        Ok(()) => Ok(Status::Done),
        Err(_) => {
            complain(SessionError::Write, errors);
            Err(SessionError::Write)
        }
    }
}

/// Tells why the program's words weren't had: a word isn't UTF-8, or memory ran out.
pub fn refuse_words<E: ScriptOut>(error: &io::Error, errors: &mut E) -> Result<Status, SessionError>
    requires tellable { E.failed errors.old + 1 < 2 ^ 64 }
    ensures known { MatchResult result (λ status. status ≡ Misused) (λ failure. failure ≡ Memory) }
    ensures misused { OnOk result (WritesOut not_utf8 (E.failed errors.old) (E.failed errors.new)
        (E.written errors.old) (E.written errors.new)) }
    ensures memory { OnErr result (WritesOut (error_line Memory) (E.failed errors.old)
        (E.failed errors.new) (E.written errors.old) (E.written errors.new)) }
{
    if error.kind() == io::ErrorKind::OutOfMemory {
        complain(SessionError::Memory, errors);
        return Err(SessionError::Memory);
    }
    tell(errors, b"error: a word isn't UTF-8\n");
    Ok(Status::Misused)
}

/// Runs the session that these words ask for, of which the first is the program's name. Words of a
/// run are wrong here.
///
/// - `Done`: the script was run, refusals or not; or help or the version was written.
/// - `Misused`: the words are wrong. The errors have the reason.
/// - An `Err`: memory ran out, the script has more than 16,777,216 bytes, or a read or a write of
///   it failed. The errors have a line that says which. Where no session is asked for it is memory,
///   or a write of the text that is asked for.
///
/// Nothing is read before the words are found to ask for a session. That the errors fail changes
/// no answer.
pub fn run_words<T: Threads + Wait + Sync, S: AsStr, I: ScriptIn, O: ScriptOut, E: ScriptOut>(
    rt: &T,
    alloc: Global,
    words: &[S],
    reader: &mut I,
    writer: &mut O,
    errors: &mut E,
) -> Result<Status, SessionError>
    requires readable { I.failed reader.old + 1 < 2 ^ 64 }
    requires writable { O.failed writer.old + 1 < 2 ^ 64 }
    requires tellable { E.failed errors.old + 1 < 2 ^ 64 }
    ensures session { SessionBy (map S.text words.now) result (I.told reader.old) (I.told reader.new)
        (O.written writer.old) (O.written writer.new) }
    ensures asked { option_faults (map S.text words.now) ≢ [] → IfOk result (λ status. status ≡ Done
        → asks_text (option_faults (map S.text words.now)) ≡ true) }
    ensures shown { option_faults (map S.text words.now) ≢ [] → IfOk result (λ status. status ≡ Done
        → Shows (O.written writer.old) (O.written writer.new)) }
    ensures silent { IfOk result (λ status. status ≡ Done → errors.new ≡ errors.old) }
    ensures misused { IfOk result (λ status. status ≡ Misused
        → is_wrong (option_faults (map S.text words.now)) ≡ true) }
    ensures explained { IfOk result (λ status. status ≡ Misused → Complains (E.failed errors.old)
        (E.failed errors.new) (E.written errors.old) (E.written errors.new)) }
    ensures fails { option_faults (map S.text words.now) ≢ []
        → IfErr result (FailsUnasked (option_faults (map S.text words.now))) }
    ensures tells { IfErr result (λ failure. WritesOut (error_line failure) (E.failed errors.old)
        (E.failed errors.new) (E.written errors.old) (E.written errors.new)) }
    ensures reads { I.failed reader.new ≡ I.failed reader.old + failed_reads result }
    ensures writes { O.failed writer.new ≡ O.failed writer.old + failed_writes result }
    ensures unread { option_faults (map S.text words.now) ≢ [] → reader.new ≡ reader.old }
    ensures unwritten { option_faults (map S.text words.now) ≢ []
        → asks_text (option_faults (map S.text words.now)) ≡ false
        → writer.new ≡ writer.old }
{
    match read_options(alloc, words) {
        Ok(options) => run(rt, alloc, options, reader, writer, errors),
        Err(error) => explain(alloc, &error, writer, errors),
    }
}
