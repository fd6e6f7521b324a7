//! Runs that go on from a kept workspace, from the program's words to how it ends.
ghost use Rattle.std.specs.Prelude.{◌≡◌, ◌≢◌, ℕ, List, ◌+◌, ◌<◌, ◌≤◌, ◌^◌, [], IfErr, IfOk, OnOk, false, map, true};
ghost use Rattle.goset_cli.specs.CommandLine.{keep_faults, keep_name_of};
ghost use Rattle.goset_cli.specs.KeptRuns.{KeptBy, KeptWith};
ghost use Rattle.goset_cli.specs.KeptStatuses.{FailsUnkept, keep_complaint, kept_reads, kept_writes, store_complaint};
ghost use Rattle.goset_cli.specs.Statuses.{Complains, Shows, WritesOut, asks_text, is_wrong};
ghost use Rattle.goset_cli.specs.declared.status.Status.TheVariants.{Done, Misused};

use crate::Plain;
use crate::keeping::{KeepError, KeepOptions, run_kept};
use crate::program::{explain, line_of};
use crate::reading::ScriptIn;
use crate::status::Status;
use crate::words::read_keep_options;
use crate::writing::{ScriptOut, tell};
use std::alloc::Global;
use std::convert::AsStr;
use std::sync::Wait;
use std::thread::Threads;
use ws_keep::store::{Store, StoreError};

// The line of standard error for a failure of a store.
fn store_line(error: StoreError) -> &'static str
    ensures { result.now ≡ store_complaint error }
{
    match error {
        StoreError::Memory => "goset: memory\n",
        StoreError::InUse => "goset: keep: in use\n",
        StoreError::Folder => "goset: keep: a folder, not a file\n",
        StoreError::NoFolder => "goset: keep: no such folder\n",
        StoreError::Denied => "goset: keep: not permitted\n",
        StoreError::TooLong => "goset: keep: over 16777216 bytes\n",
        StoreError::Unread => "goset: keep: can't be read\n",
        StoreError::Unwritten => "goset: keep: can't be written\n",
    }
}

// The line of standard error for a run that kept nothing.
fn keep_line(error: KeepError) -> &'static str
    ensures { result.now ≡ keep_complaint error }
{
    match error {
        KeepError::Session(failure) => line_of(failure),
        KeepError::Store(error) => store_line(error),
        KeepError::Full => "goset: keep: over 16777216 bytes with the script\n",
        KeepError::Another => "goset: keep: another\n",
    }
}

// Runs the script that the reader has, behind what is kept.
fn run<T: Threads + Wait + Sync, K: Store, I: ScriptIn, O: ScriptOut, E: ScriptOut>(
    rt: &T,
    alloc: Global,
    options: &KeepOptions<'_>,
    store: &mut K,
    reader: &mut I,
    writer: &mut O,
    errors: &mut E,
) -> Result<Status, KeepError>
    requires some { 1 ≤ options.now.workers }
    requires few { options.now.workers ≤ 64 }
    requires readable { I.failed reader.old + 1 < 2 ^ 64 }
    requires writable { O.failed writer.old + 1 < 2 ^ 64 }
    requires tellable { E.failed errors.old + 1 < 2 ^ 64 }
    ensures kept { KeptWith options.now result (K.kept store.old) (K.kept store.new)
        (I.told reader.old) (I.told reader.new) (O.written writer.old) (O.written writer.new) }
    ensures others { (other : List ℕ) → other ≢ options.now.name.now → K.kept store.new other ≡ K.kept store.old other }
    ensures done { IfOk result (λ status. status ≡ Done) }
    ensures silent { OnOk result (errors.new ≡ errors.old) }
    ensures tells { IfErr result (λ error. WritesOut (keep_complaint error) (E.failed errors.old)
        (E.failed errors.new) (E.written errors.old) (E.written errors.new)) }
    ensures reads { I.failed reader.new ≡ I.failed reader.old + kept_reads result }
    ensures writes { O.failed writer.new ≡ O.failed writer.old + kept_writes result }
{
    match run_kept(rt, alloc, store, reader, writer, options, &Plain) {
        Ok(()) => Ok(Status::Done),
        Err(error) => {
            tell(errors, keep_line(error).as_bytes());
            Err(error)
        }
    }
}

/// Runs the session that these words ask for behind what a store has under the name that they give,
/// and keeps what it leaves there. The first word is the program's name.
///
/// - `Done`: the script was run, refusals or not, and what it leaves is kept; or help or the
///   version was written.
/// - `Misused`: the words are wrong. The errors have the reason.
/// - An `Err`: memory ran out, a read or a write failed, the store failed or is in use, what it has
///   isn't what is expected, or is too long with the script. The errors have a line that says
///   which, and the store has what it had. Where no session is asked for it is memory, or a write
///   of the text that is asked for.
///
/// Nothing is read before the words are found to ask for a session, and nothing is loaded before
/// the script is read. That the errors fail changes no answer.
pub fn run_keep_words<
    T: Threads + Wait + Sync,
    S: AsStr,
    K: Store,
    I: ScriptIn,
    O: ScriptOut,
    E: ScriptOut,
>(
    rt: &T,
    alloc: Global,
    words: &[S],
    store: &mut K,
    reader: &mut I,
    writer: &mut O,
    errors: &mut E,
) -> Result<Status, KeepError>
    requires readable { I.failed reader.old + 1 < 2 ^ 64 }
    requires writable { O.failed writer.old + 1 < 2 ^ 64 }
    requires tellable { E.failed errors.old + 1 < 2 ^ 64 }
    ensures kept { KeptBy (map S.text words.now) result (K.kept store.old) (K.kept store.new)
        (I.told reader.old) (I.told reader.new) (O.written writer.old) (O.written writer.new) }
    ensures others { (other : List ℕ) → other ≢ keep_name_of (map S.text words.now)
        → K.kept store.new other ≡ K.kept store.old other }
    ensures asked { keep_faults (map S.text words.now) ≢ [] → IfOk result (λ status. status ≡ Done
        → asks_text (keep_faults (map S.text words.now)) ≡ true) }
    ensures shown { keep_faults (map S.text words.now) ≢ [] → IfOk result (λ status. status ≡ Done
        → Shows (O.written writer.old) (O.written writer.new)) }
    ensures silent { IfOk result (λ status. status ≡ Done → errors.new ≡ errors.old) }
    ensures misused { IfOk result (λ status. status ≡ Misused
        → is_wrong (keep_faults (map S.text words.now)) ≡ true) }
    ensures explained { IfOk result (λ status. status ≡ Misused → Complains (E.failed errors.old)
        (E.failed errors.new) (E.written errors.old) (E.written errors.new)) }
    ensures fails { keep_faults (map S.text words.now) ≢ []
        → IfErr result (FailsUnkept (keep_faults (map S.text words.now))) }
    ensures tells { IfErr result (λ error. WritesOut (keep_complaint error) (E.failed errors.old)
        (E.failed errors.new) (E.written errors.old) (E.written errors.new)) }
    ensures reads { I.failed reader.new ≡ I.failed reader.old + kept_reads result }
    ensures writes { O.failed writer.new ≡ O.failed writer.old + kept_writes result }
    ensures unread { keep_faults (map S.text words.now) ≢ [] → reader.new ≡ reader.old }
    ensures unkept { keep_faults (map S.text words.now) ≢ [] → store.new ≡ store.old }
    ensures unwritten { keep_faults (map S.text words.now) ≢ []
        → asks_text (keep_faults (map S.text words.now)) ≡ false
        → writer.new ≡ writer.old }
{
    match read_keep_options(alloc, words) {
        Ok(options) => run(rt, alloc, &options, store, reader, writer, errors),
        Err(error) => Ok(explain(alloc, &error, writer, errors)?),
    }
}
