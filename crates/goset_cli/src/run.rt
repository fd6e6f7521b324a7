//! Go programs that are run at once: from the words behind `run` to the status.
ghost use Rattle.std.specs.Prelude.{◌≡◌, ◌≢◌, ◌⊎◌, ◌+◌, ◌<◌, ◌≤◌, ◌^◌, [], IfOk, false, map, string_bytes, true};
ghost use Rattle.ws_run.specs.Steps.{IsReportOfRun};
ghost use Rattle.ws_run.specs.Printing.{complaint_of, folders_of, output_of, status_of};
ghost use Rattle.goset_cli.specs.CommandLine.{run_faults};
ghost use Rattle.goset_cli.specs.Diagnostics.{Explains};
ghost use Rattle.goset_cli.specs.Runs.{IsAccount, IsRunStatus, FilesRun, FilesRunBy, WritesName, WritesFailure, run_code_of};
ghost use Rattle.goset_cli.specs.Statuses.{Complains, Shows, WritesOut, asks_text, is_wrong};
ghost use Rattle.goset_cli.specs.Streams.{GrowsBy};
ghost use Rattle.goset_cli.specs.declared.failure.Failure.{Failure};
ghost use Rattle.goset_cli.specs.declared.failure.Failure.TheVariants as failures;

use crate::diagnostics::{diagnostics, package_files};
use crate::failure::Failure;
use crate::program::explain;
use crate::running::SessionError;
use crate::status::Status;
use crate::words::{RunOptions, read_run_options};
use crate::writing::{ScriptOut, tell, write_whole};
use go_text::edition::Edition;
use std::alloc::Global;
use std::convert::AsStr;
use std::io;
use std::sync::Wait;
use std::thread::Threads;
use ws_module::files::{Workspace, read_workspace};
use ws_run::answer::RunReport;
use ws_run::run::run_files;

/// How many workers build.
const WORKERS: u64 = 4;

/// The status where a file isn't taken, memory ran out, or standard output fails.
const FAILED: u8 = 70;

/// What came of files, and what standard error gets of it.
#[derive(Drop)]
pub struct Account {
    pub answer: RunReport,
    pub text: Vec<u8>,
}

/// Tells why files aren't run, as far as standard error takes it.
fn fail<E: ScriptOut>(alloc: Global, failure: &Failure, errors: &mut E) -> u8
    requires tellable { E.failed errors.old + 1 < 2 ^ 64 }
    ensures status { result ≡ 70 }
    ensures tells { WritesFailure failure.now (E.failed errors.old) (E.failed errors.new)
        (E.written errors.old) (E.written errors.new) }
{
    match failure.line(alloc) {
        Ok(line) => tell(errors, line.as_bytes()),
        Err(_) => tell(errors, b"goset: memory\n"),
    }
    FAILED
}

/// What comes of a workspace.
fn run_workspace<R: Threads + Wait + Sync>(
    rt: &R,
    alloc: Global,
    edition: Edition,
    ticks: u64,
    is_plain: bool,
    workspace: Workspace,
) -> Result<Account, Failure>
    ensures comes { IfOk result (λ account.
        IsReportOfRun edition workspace.files.items (string_bytes workspace.directory) ticks account.answer) }
    ensures says { is_plain ≡ true → IfOk result (λ account.
        account.text.items ≡ complaint_of (folders_of workspace.folders.items) account.answer) }
    ensures explains { is_plain ≡ false → IfOk result (λ account.
        Explains edition (folders_of workspace.folders.items) workspace.files.items account.answer account.text.items) }
{
    let Workspace {
        files,
        directory,
        folders,
    } = workspace;
    let sources = package_files(alloc, &files)?;
    let answer = run_files(
        rt,
        alloc,
        edition,
        files,
        directory.as_str(),
        ticks,
        WORKERS,
    )?;
    let text = diagnostics(alloc, edition, is_plain, &folders, &sources, &answer)?;
    Ok(Account { answer, text })
}

/// What comes of the files that options name.
fn run_options<R: Threads + Wait + Sync>(
    rt: &R,
    host: &HostRuntime,
    options: &RunOptions<'_>,
) -> Result<Account, Failure>
    ensures { IfOk result (IsAccount options.now.edition options.now.ticks options.now.is_plain) }
{
    let workspace = read_workspace(host, options.edition, &options.files)?;
    run_workspace(
        rt,
        host.alloc(),
        options.edition,
        options.ticks,
        options.is_plain,
        workspace,
    )
}

/// Writes what a program printed, and what is said of it, as far as standard error takes that, and
/// answers the status.
fn write_account<O: ScriptOut, E: ScriptOut>(
    alloc: Global,
    account: &Account,
    writer: &mut O,
    errors: &mut E,
) -> u8
    requires writable { O.failed writer.old + 1 < 2 ^ 64 }
    requires tellable { E.failed errors.old + 1 < 2 ^ 64 }
    ensures known { (result ≡ 70) ⊎ (result ≡ status_of account.now.answer) }
    ensures prints { result ≢ 70 →
        GrowsBy (O.written writer.old) (O.written writer.new) (output_of account.now.answer) }
    ensures says { result ≢ 70 → WritesOut account.now.text.items (E.failed errors.old) (E.failed errors.new)
        (E.written errors.old) (E.written errors.new) }
    ensures fails { result ≡ 70 → WritesFailure failures.Write (E.failed errors.old) (E.failed errors.new)
        (E.written errors.old) (E.written errors.new) }
{
    match write_whole(writer, account.answer.output()) {
        Ok(()) => {
            tell(errors, &account.text);
            account.answer.status()
        }
        Err(_) => fail(alloc, &Failure::Write, errors),
    }
}

/// Runs files with options, and answers the status.
fn run_with<R: Threads + Wait + Sync, O: ScriptOut, E: ScriptOut>(
    rt: &R,
    host: &HostRuntime,
    options: &RunOptions<'_>,
    writer: &mut O,
    errors: &mut E,
) -> u8
    requires writable { O.failed writer.old + 1 < 2 ^ 64 }
    requires tellable { E.failed errors.old + 1 < 2 ^ 64 }
    ensures known { (result ≤ 3) ⊎ (result ≡ 70) }
    ensures ran { result ≢ 70 → FilesRun options.now.edition options.now.ticks options.now.is_plain
        (O.written writer.old) (O.written writer.new) result }
    ensures fails { result ≡ 70 → (failure : Failure) × WritesFailure failure (E.failed errors.old)
        (E.failed errors.new) (E.written errors.old) (E.written errors.new) }
{
    match run_options(rt, host, options) {
        Ok(account) => write_account(host.alloc(), &account, writer, errors),
        Err(failure) => fail(host.alloc(), &failure, errors),
    }
}

/// The status of words that ask for a text, or are wrong.
fn run_code_of(ended: Result<Status, SessionError>) -> u8
    ensures { result ≡ run_code_of ended }
{
    match ended {
        Ok(Status::Done) => 0,
        Err(_) => FAILED,
        Ok(Status::Misused) => 64,
    }
}

/// Tells why the program's words weren't had, where they ask for a run, and answers the status 70:
/// memory ran out, or a word isn't UTF-8.
pub fn refuse_run_words<E: ScriptOut>(error: &io::Error, errors: &mut E) -> u8
    requires tellable { E.failed errors.old + 1 < 2 ^ 64 }
    ensures status { result ≡ 70 }
    ensures tells { WritesName (E.failed errors.old) (E.failed errors.new)
        (E.written errors.old) (E.written errors.new) }
{
    if error.kind() == io::ErrorKind::OutOfMemory {
        tell(errors, b"goset: memory\n");
    } else {
        tell(errors, b"goset: a file's name isn't UTF-8\n");
    }
    FAILED
}

/// Runs the Go program that the files of these words are, of which the first is `run`, and answers
/// the status.
///
/// - 0: the program ended; or help or the version was written.
/// - 1: the files have faults, or are no program.
/// - 2: the program panicked.
/// - 3: it wanted a tick, and none was left.
/// - 64: the words are wrong. The errors have the reason.
/// - 70: a file isn't taken, memory ran out, or standard output fails. The errors have a line that
///   says which.
///
/// The one runtime starts threads, and the other reads files. Nothing is read before the words are
/// found to ask for files. That the errors fail changes no status.
pub fn run_program<'a, R: Threads + Wait + Sync, S: AsStr, O: ScriptOut, E: ScriptOut>(
    rt: &R,
    host: &HostRuntime,
    words: &'a [S],
    writer: &mut O,
    errors: &mut E,
) -> u8
    requires writable { O.failed writer.old + 1 < 2 ^ 64 }
    requires tellable { E.failed errors.old + 1 < 2 ^ 64 }
    ensures known { IsRunStatus result }
    ensures ran { run_faults (map S.text words.entry.now) ≡ [] → result ≢ 70
        → FilesRunBy (map S.text words.entry.now) (O.written writer.old) (O.written writer.new) result }
    ensures asked { run_faults (map S.text words.entry.now) ≢ [] → result ≢ 70 → result ≢ 64
        → asks_text (run_faults (map S.text words.entry.now)) ≡ true }
    ensures shown { run_faults (map S.text words.entry.now) ≢ [] → result ≢ 70 → result ≢ 64
        → (result ≡ 0) × Shows (O.written writer.old) (O.written writer.new) }
    ensures misused { result ≡ 64 → is_wrong (run_faults (map S.text words.entry.now)) ≡ true }
    ensures explained { result ≡ 64 → Complains (E.failed errors.old) (E.failed errors.new)
        (E.written errors.old) (E.written errors.new) }
    ensures unwritten { result ≡ 64 → writer.new ≡ writer.old }
    ensures failed { result ≡ 70 → (failure : Failure) × WritesFailure failure (E.failed errors.old)
        (E.failed errors.new) (E.written errors.old) (E.written errors.new) }
{
    match read_run_options(host.alloc(), words) {
        Ok(options) => run_with(rt, host, &options, writer, errors),
        Err(error) => run_code_of(explain(host.alloc(), &error, writer, errors)),
    }
}
