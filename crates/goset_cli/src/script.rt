//! A whole session: from the bytes that are read to the bytes that are written.
ghost use Rattle.std.specs.Prelude.{◌≡◌, ◌+◌, ◌<◌, ◌≤◌, ◌^◌};
ghost use Rattle.goset_cli.specs.Ends.{Session};
ghost use Rattle.goset_cli.specs.Failures.{failed_reads, failed_writes};

use crate::reading::ScriptIn;
use crate::running::{SessionError, play};
use crate::writing::ScriptOut;
use go_text::edition::Edition;
use std::alloc::Global;
use std::sync::Wait;
use std::thread::Threads;
use ws_session::Gate;
use ws_session::replicas::Replicas;

/// Reads a script to its end and writes its session's text, from no replica on: the same for 1 to
/// 64 workers, whatever the gate that they pass. It starts threads to settle and to build, and
/// joins them.
///
/// - `Memory`: there was none for the script, or for a command. A beginning of the text is written.
/// - `Read`: a read failed. Nothing is written.
/// - `TooLong`: the script has more than 16,777,216 bytes. Nothing is written.
/// - `Write`: a write failed, or took nothing. A beginning of the text is written.
pub fn run_script<R: Threads + Wait + Sync, I: ScriptIn, O: ScriptOut, G: Gate>(
    rt: &R,
    alloc: Global,
    reader: &mut I,
    writer: &mut O,
    workers: usize,
    edition: Edition,
    gate: &G,
) -> Result<(), SessionError>
    requires some { 1 ≤ workers }
    requires few { workers ≤ 64 }
    requires readable { I.failed reader.old + 1 < 2 ^ 64 }
    requires writable { O.failed writer.old + 1 < 2 ^ 64 }
    ensures session { Session edition result (I.told reader.old) (I.told reader.new)
        (O.written writer.old) (O.written writer.new) }
    ensures reads { I.failed reader.new ≡ I.failed reader.old + failed_reads result }
    ensures writes { O.failed writer.new ≡ O.failed writer.old + failed_writes result }
{
    let mut replicas = Replicas::new(alloc, edition);
    play(
        rt,
        alloc,
        &mut replicas,
        reader,
        writer,
        workers as u64,
        gate,
    )
}
