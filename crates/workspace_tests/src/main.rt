//! Answers to rows about what no script shows: workers at gates, the workers of a board, builds by snapshots, and a
//! reader that remembers what it gave.
#![tactic(auto)]

mod asking;
mod gates;
mod hands;
mod remembering;
mod scripts;
mod snapshots;
mod turns;
mod workers;

use asking::tell_table;
use std::io;
use std::io::Write;
use std::test::Fail;

fn main(rt: HostRuntime) -> Result<(), Fail> {
    let table = io::read_to_string(rt.alloc(), rt.stdin())?;
    let told = tell_table(&rt, rt.alloc(), table.as_str())?;
    rt.stdout().write_all(told.as_bytes())?;
    Ok(())
}
