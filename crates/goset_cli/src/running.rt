//! Running a script, each command's answer written before the next is read.
ghost use Rattle.std.specs.Prelude.{◌≡◌, ℕ, ◌+◌, ◌<◌, ◌^◌, ◌&&◌, not, List, length, drop, IfOk, OnOk, OnErr, Option};
ghost use Rattle.std.specs.Option.{option_map};
ghost use Rattle.ws_command.specs.Lines.{lines_of};
ghost use Rattle.ws_command.specs.Commands.{text_of};
ghost use Rattle.ws_command.specs.Pieces.{without_newline};
ghost use Rattle.ws_command.specs.Views.{command_view};
ghost use Rattle.ws_keep.specs.Keeping.{is_change, is_refusal, kept_lines};
ghost use Rattle.goset_cli.specs.KeptRuns.{AnsweredFrom, AnsweredSomeFrom};
ghost use Rattle.goset_cli.specs.Requests.{AreLines, IsFirst};
ghost use Rattle.goset_cli.specs.Streams.{GrowsBy};
ghost use Rattle.goset_cli.specs.Ends.{SessionFrom};
ghost use Rattle.goset_cli.specs.Failures.{failed_writes, failed_reads, unwritten_count};
ghost use Rattle.goset_cli.specs.Answers.{unread, unanswered};
ghost use Rattle.goset_cli.specs.declared.running.AnswerError.TheVariants.{Memory, Write};

use crate::journal::{Journal, NoJournal};
use crate::reading::{EndFault, ReadError, ScriptIn, read_whole};
use crate::writing::{ScriptOut, write_whole};
use std::alloc::{AllocError, Global};
use std::sync::Wait;
use std::thread::Threads;
use thiserror::Error;
use ws_command::commands::{Asked, ask};
use ws_command::lines::{closed, cut_line};
use ws_keep::changes::is_change;
use ws_replica::law::law_held_program_means_its_sources;
use ws_session::Gate;
use ws_session::replicas::Replicas;

/// Why a session ended early: no memory, a failed read, a failed write, or a script that is too
/// long. The texts are those that the program prints.
#[derive(Clone, Copy, Debug, PartialEq, Eq, Drop, Error)]
pub enum SessionError {
    #[error("memory")]
    Memory,
    #[error("read")]
    Read,
    #[error("write")]
    Write,
    #[error("script over 16777216 bytes")]
    TooLong,
}

impl From<ReadError> for SessionError {
    ghost from_gives = { λ refusal e. e ≡ unread refusal };

    fn from(refusal: ReadError) -> SessionError {
        match refusal {
            ReadError::Memory => SessionError::Memory,
            ReadError::Read => SessionError::Read,
            ReadError::TooLong => SessionError::TooLong,
        }
    }
}

impl From<AnswerError> for SessionError {
    ghost from_gives = { λ refusal e. e ≡ unanswered refusal };

    fn from(refusal: AnswerError) -> SessionError {
        match refusal {
            AnswerError::Memory => SessionError::Memory,
            AnswerError::Write => SessionError::Write,
        }
    }
}

/// Why answers weren't written: no memory for a command, or a failed write.
#[derive(Clone, Copy, Debug, PartialEq, Eq, Drop, Error)]
pub enum AnswerError {
    #[error("out of memory")]
    Memory,
    #[error("a write failed")]
    Write,
}

impl From<AllocError> for AnswerError {
    ghost from_gives = { λ _ e. e ≡ Memory };

    fn from(_e: AllocError) -> AnswerError {
        AnswerError::Memory
    }
}

impl From<EndFault> for AnswerError {
    ghost from_gives = { λ _ e. e ≡ Write };

    fn from(_e: EndFault) -> AnswerError {
        AnswerError::Write
    }
}

/// A command with its text, and what is left of the script behind it.
#[derive(Drop)]
pub struct Request<'a> {
    pub asked: Asked<'a>,
    pub text: Option<Vec<u8>>,
    /// Its line, and the lines of its text.
    pub lines: &'a [u8],
    pub behind: &'a [u8],
}

/// Splits a text of so many lines off a script, and gives it with the rest. If there are fewer lines,
/// there is no text, and the rest is empty. An `Err` is want of memory.
pub fn split_text(
    alloc: Global,
    script: &[u8],
    lines: u64,
) -> Result<(Option<Vec<u8>>, &[u8]), AllocError>
    ensures text { IfOk result (λ taken.
        option_map (λ v. v.items) taken.0 ≡ text_of lines (lines_of script.now)) }
    ensures behind { IfOk result (λ taken.
        lines_of taken.1.now ≡ drop lines (lines_of script.now)) }
    ensures lines { IfOk result (λ taken. (front : List ℕ) × AreLines script.now front taken.1.now) }
{
    let mut rest = script;
    let mut left = lines;
    'lines: while left > 0 && !rest.is_empty() {
        rest = cut_line(rest).1;
        left -= 1;
    }
    if left > 0 {
        return Ok((None, rest));
    }
    let (text, _) = script.split_at(script.len() - rest.len());
    Ok((Some(closed(alloc, text)?), rest))
}

/// A line without its newline.
fn without_newline(line: &[u8]) -> &[u8]
    ensures { result.now ≡ without_newline line.now }
{
    match line {
        [front @ .., b'\n'] => front,
        _ => line,
    }
}

/// The first command of a script. An `Err` is want of memory.
pub fn first_request(alloc: Global, script: &[u8]) -> Result<Request<'_>, AllocError>
    requires { 0 < length script.now }
    ensures first { IfOk result (λ request.
        IsFirst script.now (command_view request.asked)
        (option_map (λ v. v.items) request.text) request.lines.now request.behind.now) }
    ensures some { IfOk result (λ request. 0 < length request.lines.now) }
{
    let (line, behind) = cut_line(script);
    let asked = ask(alloc, without_newline(line))?;
    let (text, behind) = split_text(alloc, behind, asked.text_lines())?;
    let (lines, _) = script.split_at(script.len() - behind.len());
    Ok(Request {
        asked,
        text,
        lines,
        behind,
    })
}

/// Whether a command that prints this is kept: it changes something, and isn't refused.
fn is_kept(asked: &Asked<'_>, told: &[u8]) -> bool
    ensures { result ≡ (is_change (command_view asked.now) && not (is_refusal told.now)) }
{
    is_change(asked) && !told.starts_with(b"refused ")
}

/// Lets the journal take a command that is on these lines and prints this, unless it is refused or
/// changes nothing. An `Err` is want of memory.
fn enter<J: Journal>(
    journal: &mut J,
    asked: &Asked<'_>,
    told: &[u8],
    lines: &[u8],
) -> Result<(), AllocError>
    ensures { OnOk result (GrowsBy (J.taken journal.old) (J.taken journal.new)
        (kept_lines (command_view asked.now) told.now lines.now)) }
{
    if is_kept(asked, told) {
        return journal.push(lines);
    }
    Ok(())
}

/// Writes what a session writes for a script, from a world on that a script leaves, for which the
/// replicas stand: whatever the number of workers, and the gate that they pass. The journal takes
/// the commands that do the same.
///
/// On an `Err` a beginning of it is written: on `Memory` all that the commands before print, on
/// `Write` all that the writer took.
pub fn answer<R: Threads + Wait + Sync, O: ScriptOut, J: Journal, G: Gate>(
    rt: &R,
    alloc: Global,
    replicas: &mut Replicas,
    script: &[u8],
    writer: &mut O,
    journal: &mut J,
    workers: u64,
    gate: &G,
) -> Result<(), AnswerError>
    requires some { 0 < workers }
    requires writable { O.failed writer.old + 1 < 2 ^ 64 }
    ensures ok { OnOk result (AnsweredFrom replicas.old script.now (O.written writer.old)
        (O.written writer.new) (J.taken journal.old) (J.taken journal.new) replicas.new) }
    ensures err { OnErr result (AnsweredSomeFrom replicas.old script.now
        (O.written writer.old) (O.written writer.new)) }
    ensures failed { O.failed writer.new ≡ O.failed writer.old + unwritten_count result }
{
    let mut rest = script;
    'commands: while !rest.is_empty() {
        // What is left of the script has a text, since a held program ends or goes on.
        law_held_program_means_its_sources();
        let Request {
            asked,
            text,
            lines,
            behind,
        } = first_request(alloc, rest)?;
        let told = replicas.step(rt, workers, gate, &asked, text)?;
        enter(journal, &asked, &told, lines)?;
        write_whole(writer, told.as_slice())?;
        rest = behind;
    }
    Ok(())
}

/// Reads a script to its end, and writes what a session writes for it, where the replicas stand for
/// an edition's first world: whatever the number of workers, and the gate that they pass.
///
/// - `Memory`: there was none for the script, or for a command. A beginning of the text is written.
/// - `Read`: a read failed. Nothing is written.
/// - `TooLong`: the script has more than 16,777,216 bytes. Nothing is written.
/// - `Write`: a write failed, or took nothing. A beginning of the text is written.
pub fn play<R: Threads + Wait + Sync, I: ScriptIn, O: ScriptOut, G: Gate>(
    rt: &R,
    alloc: Global,
    replicas: &mut Replicas,
    reader: &mut I,
    writer: &mut O,
    workers: u64,
    gate: &G,
) -> Result<(), SessionError>
    requires some { 0 < workers }
    requires readable { I.failed reader.old + 1 < 2 ^ 64 }
    requires writable { O.failed writer.old + 1 < 2 ^ 64 }
    ensures session { SessionFrom replicas.old result (I.told reader.old) (I.told reader.new)
        (O.written writer.old) (O.written writer.new) }
    ensures reads { I.failed reader.new ≡ I.failed reader.old + failed_reads result }
    ensures writes { O.failed writer.new ≡ O.failed writer.old + failed_writes result }
{
    let bytes = read_whole(alloc, reader)?;
    let script = bytes.as_slice();
    answer(
        rt,
        alloc,
        replicas,
        script,
        writer,
        &mut NoJournal,
        workers,
        gate,
    )?;
    Ok(())
}
