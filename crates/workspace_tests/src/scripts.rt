//! Sessions whose builds pass a gate.
ghost use Rattle.std.specs.Prelude.{◌≤◌};

use go_text::edition::Edition;
use goset_cli::ends::{FromReader, ToWriter};
use goset_cli::running::SessionError;
use goset_cli::script::run_script;
use std::alloc::Global;
use std::sync::Wait;
use std::thread::Threads;
use ws_pool::Gate;

/// What a session prints whose builds are made by so many workers at a gate, or why it ended.
pub(crate) fn printed<R: Threads + Wait + Sync>(
    rt: &R,
    alloc: Global,
    script: &str,
    workers: usize,
    gate: &impl Gate,
) -> Result<Vec<u8>, SessionError>
    requires some { 1 ≤ workers }
    requires few { workers ≤ 64 }
{
    let mut reader = FromReader::new(script.as_bytes());
    let mut writer = ToWriter::new(Vec::new(alloc));
    run_script(
        rt,
        alloc,
        &mut reader,
        &mut writer,
        workers,
        Edition::One,
        gate,
    )?;
    Ok(writer.writer)
}
