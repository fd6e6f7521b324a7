//! A run that goes on from what is kept, and keeps what it leaves.
ghost use Rattle.std.specs.Prelude.{◌≡◌, ◌≢◌, ℕ, ◌+◌, ◌<◌, ◌≤◌, ◌^◌, List, length, IfErr, IfOk, None, OnErr, OnOk, Option, false, option_map, true};
ghost use Rattle.std.specs.Str.{bytes_eq};
ghost use Rattle.hex.specs.Hex.{encode_lower};
ghost use Rattle.sha2.specs.Sha256.{sha256};
ghost use Rattle.ws_keep.specs.Keeping.{IsClearBehind};
ghost use Rattle.ws_keep.specs.Stored.{StoreBecomes, StoreHolds};
ghost use Rattle.goset_cli.specs.Answers.{unanswered, unread};
ghost use Rattle.goset_cli.specs.Failures.{unwritten_count};
ghost use Rattle.goset_cli.specs.KeptRuns.{BegunWith, IsExpected, KeptWith, NotLoaded, NothingWith, Resumed, ResumedSome, edition_line, with_edition_line};
ghost use Rattle.goset_cli.specs.KeptStatuses.{kept_reads, kept_writes};
ghost use Rattle.goset_cli.specs.Reading.{limit};
ghost use Rattle.goset_cli.specs.declared.keeping.KeepError.TheVariants as errors;
ghost use Rattle.goset_cli.specs.declared.running.SessionError.TheVariants.{Memory};

use crate::journal::{Journal, Kept};
use crate::reading::{EndFault, LIMIT, ReadError, ScriptIn, read_whole};
use crate::running::{AnswerError, SessionError, answer};
use crate::writing::ScriptOut;
use go_text::edition::Edition;
use sha2::{Digest, Sha256};
use std::alloc::{AllocError, Global};
use std::sync::Wait;
use std::thread::Threads;
use ws_keep::store::{Store, StoreError};
use ws_session::Gate;
use ws_session::replicas::Replicas;

/// Why a run kept nothing.
#[derive(Clone, Copy, Debug, PartialEq, Eq, Drop)]
pub enum KeepError {
    /// The session ended early.
    Session(SessionError),
    /// The store failed, or another run has it.
    Store(StoreError),
    /// What would be kept is too long.
    Full,
    /// What is kept isn't what is expected.
    Another,
}

impl From<SessionError> for KeepError {
    ghost from_gives = { λ failure e. e ≡ errors.Session failure };

    fn from(error: SessionError) -> KeepError {
        KeepError::Session(error)
    }
}

impl From<ReadError> for KeepError {
    ghost from_gives = { λ refusal e. e ≡ errors.Session (unread refusal) };

    fn from(error: ReadError) -> KeepError {
        KeepError::Session(SessionError::from(error))
    }
}

impl From<AnswerError> for KeepError {
    ghost from_gives = { λ refusal e. e ≡ errors.Session (unanswered refusal) };

    fn from(error: AnswerError) -> KeepError {
        KeepError::Session(SessionError::from(error))
    }
}

impl From<AllocError> for KeepError {
    ghost from_gives = { λ _ e. e ≡ errors.Session Memory };

    fn from(_e: AllocError) -> KeepError {
        KeepError::Session(SessionError::Memory)
    }
}

impl From<StoreError> for KeepError {
    ghost from_gives = { λ error e. e ≡ errors.Store error };

    fn from(error: StoreError) -> KeepError {
        KeepError::Store(error)
    }
}

/// A writer that takes all, and keeps nothing.
#[derive(Clone, Copy, Debug)]
struct Unwritten;

impl ScriptOut for Unwritten {
    ghost written = { λ _. None };

    ghost failed = { λ _. 0 };

    fn failures(&self) -> u64 {
        0
    }

    fn write(&mut self, bytes: &[u8]) -> Result<usize, EndFault> {
        Ok(bytes.len())
    }
}

/// The line of a script from which on an edition is used.
fn edition_line(edition: Edition) -> &'static str
    ensures { result.now ≡ edition_line edition }
{
    match edition {
        Edition::One => "edition 1\n",
        Edition::Two => "edition 2\n",
    }
}

/// A script behind the line of the edition that is named, if one is.
fn opened(alloc: Global, edition: Option<Edition>, script: Vec<u8>) -> Result<Vec<u8>, AllocError>
    ensures { IfOk result (λ lines. lines.items ≡ with_edition_line edition script.items) }
{
    let Some(edition) = edition else {
        return Ok(script);
    };
    let mut lines = Vec::from_slice(alloc, edition_line(edition).as_bytes())?;
    lines.extend_from_slice(&script)?;
    Ok(lines)
}

/// Whether bytes have this digest, in hexadecimal digits.
fn has_digest(alloc: Global, bytes: &[u8], digest: &str) -> Result<bool, AllocError>
    ensures { IfOk result (λ same. same ≡ bytes_eq (encode_lower (sha256 bytes.now)) digest.now) }
{
    let found = hex::encode(alloc, Sha256::digest(bytes))?;
    Ok(found.as_str() == digest)
}

/// Whether what is kept is what is expected, where a digest says so.
fn is_expected(alloc: Global, expected: Option<&str>, kept: &[u8]) -> Result<bool, AllocError>
    ensures is { IfOk result (λ same. same ≡ true → IsExpected (option_map (λ digest. digest.now) expected.entry) kept.now) }
    ensures another { IfOk result (λ same. same ≡ false → IsExpected (option_map (λ digest. digest.now) expected.entry) kept.now → ⊥) }
{
    match expected {
        None => Ok(true),
        Some(digest) => has_digest(alloc, kept, digest),
    }
}

/// Writes what a session writes for a script behind a kept one, and answers what is to be kept
/// behind it.
fn resume<R: Threads + Wait + Sync, O: ScriptOut, G: Gate>(
    rt: &R,
    alloc: Global,
    kept: &[u8],
    script: &[u8],
    writer: &mut O,
    workers: u64,
    gate: &G,
) -> Result<Vec<u8>, AnswerError>
    requires some { 0 < workers }
    requires writable { O.failed writer.old + 1 < 2 ^ 64 }
    ensures ok { IsClearBehind kept.now script.now → IfOk result (λ new.
        Resumed kept.now script.now (O.written writer.old) (O.written writer.new) new.items) }
    ensures err { IsClearBehind kept.now script.now → OnErr result
        (ResumedSome kept.now script.now (O.written writer.old) (O.written writer.new)) }
    ensures fits { IsClearBehind kept.now script.now → IfOk result (λ new.
        length new.items ≤ length kept.now + length script.now + 2) }
    ensures failed { O.failed writer.new ≡ O.failed writer.old + unwritten_count result }
{
    let mut replicas = Replicas::new(alloc, Edition::One);
    let mut journal = Kept::new(alloc);
    answer(
        rt,
        alloc,
        &mut replicas,
        kept,
        &mut Unwritten,
        &mut journal,
        workers,
        gate,
    )?;
    answer(
        rt,
        alloc,
        &mut replicas,
        script,
        writer,
        &mut journal,
        workers,
        gate,
    )?;
    Ok(journal.script)
}

/// Where a run goes on from, and by what.
#[derive(Clone, Copy, Debug)]
pub struct KeepOptions<'a> {
    /// The name under which the workspace is kept.
    pub name: &'a str,
    /// The edition that is named before the script.
    pub edition: Option<Edition>,
    /// The digest of what is kept, in hexadecimal digits, where the run is to be of that alone.
    pub expected: Option<&'a str>,
    /// How many workers build.
    pub workers: usize,
}

/// What is kept under a name, where it is what is expected.
fn load<S: Store>(
    alloc: Global,
    store: &mut S,
    options: &KeepOptions<'_>,
) -> Result<Vec<u8>, KeepError>
    ensures loaded { IfOk result (λ kept. StoreHolds (S.kept store.old options.now.name.now) kept.items) }
    ensures expected { IfOk result (λ kept.
        IsExpected (option_map (λ digest. digest.now) options.now.expected) kept.items) }
    ensures still { S.kept store.new ≡ S.kept store.old }
    ensures refused { IfErr result (λ e. NotLoaded
        (option_map (λ digest. digest.now) options.now.expected) e (S.kept store.old options.now.name.now)) }
{
    let kept = store.load(alloc, options.name)?;
    let same = is_expected(alloc, options.expected, &kept)?;
    if same {
        return Ok(kept);
    }
    Err(KeepError::Another)
}

/// The same, for this run alone.
fn load_locked<S: Store>(
    alloc: Global,
    store: &mut S,
    options: &KeepOptions<'_>,
) -> Result<Vec<u8>, KeepError>
    ensures loaded { IfOk result (λ kept. StoreHolds (S.kept store.old options.now.name.now) kept.items) }
    ensures expected { IfOk result (λ kept.
        IsExpected (option_map (λ digest. digest.now) options.now.expected) kept.items) }
    ensures still { S.kept store.new ≡ S.kept store.old }
    ensures refused { IfErr result (λ e. NotLoaded
        (option_map (λ digest. digest.now) options.now.expected) e (S.kept store.old options.now.name.now)) }
{
    store.lock(alloc, options.name)?;
    load(alloc, store, options)
}

/// The script of a run, behind the line of the edition that is named, and what it goes on from.
#[derive(Drop)]
struct Begun {
    script: Vec<u8>,
    kept: Vec<u8>,
}

/// Reads a script to its end, and then what is kept. An `Err` says why nothing was run.
fn begin<S: Store, I: ScriptIn>(
    alloc: Global,
    store: &mut S,
    reader: &mut I,
    options: &KeepOptions<'_>,
) -> Result<Begun, KeepError>
    requires readable { I.failed reader.old + 1 < 2 ^ 64 }
    ensures begins { IfOk result (λ begun. BegunWith options.now (S.kept store.old)
        (I.told reader.old) (I.told reader.new) begun.kept.items begun.script.items) }
    ensures fits { IfOk result (λ begun. length begun.kept.items + length begun.script.items + 2 ≤ limit) }
    ensures refused { (written : Option (List ℕ)) → IfErr result (λ e.
        NothingWith options.now e (S.kept store.old) (I.told reader.old) (I.told reader.new) written) }
    ensures still { S.kept store.new ≡ S.kept store.old }
    ensures reads { I.failed reader.new ≡ I.failed reader.old + kept_reads result }
    ensures writes { kept_writes result ≡ 0 }
{
    let bytes = read_whole(alloc, reader)?;
    let script = opened(alloc, options.edition, bytes)?;
    let kept = load_locked(alloc, store, options)?;
    // Each of both may end without a newline.
    let is_full = kept.len() + script.len() + 2 > LIMIT;
    if is_full {
        return Err(KeepError::Full);
    }
    Ok(Begun { script, kept })
}

/// Puts what is to be kept in the place of what a store holds, unless it is the same.
fn keep<S: Store>(
    alloc: Global,
    store: &mut S,
    name: &str,
    kept: &[u8],
    new: &[u8],
) -> Result<(), StoreError>
    ensures ok { StoreHolds (S.kept store.old name.now) kept.now → OnOk result
        (StoreBecomes (S.kept store.old name.now) (S.kept store.new name.now) new.now) }
    ensures err { OnErr result (S.kept store.new ≡ S.kept store.old) }
    ensures others { (other : List ℕ) → other ≢ name.now → S.kept store.new other ≡ S.kept store.old other }
{
    if new == kept {
        return Ok(());
    }
    store.replace(alloc, name, new)
}

/// Reads a script to its end, writes what a session writes for it that goes on from what is kept,
/// and keeps what restores the world that it leaves.
///
/// On any `Err` the store holds what it held, and nothing or a beginning of the text is written:
/// all of it, where the store failed to replace what it held.
pub fn run_kept<R: Threads + Wait + Sync, S: Store, I: ScriptIn, O: ScriptOut, G: Gate>(
    rt: &R,
    alloc: Global,
    store: &mut S,
    reader: &mut I,
    writer: &mut O,
    options: &KeepOptions<'_>,
    gate: &G,
) -> Result<(), KeepError>
    requires some { 1 ≤ options.now.workers }
    requires few { options.now.workers ≤ 64 }
    requires readable { I.failed reader.old + 1 < 2 ^ 64 }
    requires writable { O.failed writer.old + 1 < 2 ^ 64 }
    ensures run { KeptWith options.now result (S.kept store.old) (S.kept store.new)
        (I.told reader.old) (I.told reader.new) (O.written writer.old) (O.written writer.new) }
    ensures others { (other : List ℕ) → other ≢ options.now.name.now → S.kept store.new other ≡ S.kept store.old other }
    ensures reads { I.failed reader.new ≡ I.failed reader.old + kept_reads result }
    ensures writes { O.failed writer.new ≡ O.failed writer.old + kept_writes result }
{
    let Begun { script, kept } = begin(alloc, store, reader, options)?;
    let workers = options.workers as u64;
    let new = resume(rt, alloc, &kept, &script, writer, workers, gate)?;
    keep(alloc, store, options.name, &kept, &new)?;
    Ok(())
}
