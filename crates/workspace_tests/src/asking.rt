//! What rows ask.
use crate::hands::{hands_alone, spare_hands};
use crate::remembering::remembered;
use crate::snapshots::{built_beside_edit, results_taken};
use crate::workers::{by_gate, drawn, in_turn};
use std::alloc::Global;
use std::sync::Wait;
use std::test::Fail;
use std::thread::Threads;

/// The answer to a row about a script: what it asks, and behind a space what more that takes.
fn answer<R: Threads + Wait + Sync>(
    rt: &R,
    alloc: Global,
    script: &str,
    row: &str,
) -> Result<String, Fail> {
    let (kind, asked) = row.split_once(' ').unwrap_or((row, ""));
    match kind {
        "turns" => in_turn(rt, alloc, script, asked),
        "drawn" => drawn(rt, alloc, script, asked.parse::<u64>()?),
        "counting" | "holding" | "refusing" => by_gate(rt, alloc, script, kind, asked),
        "remembered" => remembered(rt, alloc, script, asked.parse::<usize>()?),
        "hands" => hands_alone(rt, alloc),
        "edited" => built_beside_edit(rt, alloc),
        "results" => results_taken(rt, alloc, script),
        "spare" => spare_hands(rt, alloc),
        _ => Err(Fail::new("no row")),
    }
}

/// Each row of a table, with its answer below it. Four equal signs part a script with its rows from the next, and four
/// hyphens stand between the script and its rows.
pub(crate) fn tell_table<R: Threads + Wait + Sync>(
    rt: &R,
    alloc: Global,
    table: &str,
) -> Result<String, Fail> {
    let mut told = String::new(alloc);
    for part in table.split("====\n") {
        let (script, rows) = part.split_once("----\n").unwrap_or(("", part));
        for row in rows.lines() {
            let answer = answer(rt, alloc, script, row)?;
            told.push_str(format!(in alloc; "{row}\n{answer}\n")?.as_str())?;
        }
    }
    Ok(told)
}
