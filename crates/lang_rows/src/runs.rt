//! Runs of images.
use crate::images::image;
use go_code::ending::Ending;
use go_code::image::Image;
use go_vm::run::{Outcome, RunError, run};
use std::alloc::Global;
use test_rows::answers::RowError;

/// How a program ended.
fn ending(outcome: &Outcome) -> &'static str {
    match outcome.ending() {
        Ending::Ended => "ended",
        Ending::Cut => "cut",
        Ending::Panicked(kind) => kind.word(),
    }
}

/// A byte that was printed: a newline as a slash, other controls as their numbers, and any byte
/// above them as the character of its number.
fn push_byte(alloc: Global, told: &mut String, byte: u8) -> Result<(), RowError> {
    if byte == b'\n' {
        told.push('/')?;
    } else if byte < b' ' {
        told.push_str(&format!(in alloc; "\\{byte}")?)?;
    } else {
        told.push(char::from(byte))?;
    }
    Ok(())
}

/// How a run ended in words, and behind a space what it printed, if it did.
fn told(alloc: Global, outcome: &Outcome) -> Result<String, RowError> {
    let mut told = String::from_str(alloc, ending(outcome))?;
    if !outcome.output().is_empty() {
        told.push(' ')?;
    }
    for byte in outcome.output() {
        push_byte(alloc, &mut told, *byte)?;
    }
    Ok(told)
}

/// What is told of a run of an image for some ticks.
pub(crate) fn outcome(alloc: Global, image: &Image, ticks: u64) -> Result<String, RowError> {
    match run(alloc, image, ticks) {
        Ok(outcome) => told(alloc, &outcome),
        Err(RunError::BadCode) => Ok(String::from_str(alloc, "bad code")?),
        Err(RunError::Memory) => Err(RowError::Memory),
    }
}

/// What is told of a run of a row's image for the row's ticks.
pub(crate) fn ran(alloc: Global, asked: &str) -> Result<String, RowError> {
    let (ticks, text) = asked.split_once(": ").ok_or(RowError::NoRow)?;
    let Ok(ticks) = ticks.parse::<u64>() else {
        return Err(RowError::NoRow);
    };
    outcome(alloc, &image(alloc, text)?, ticks)
}
