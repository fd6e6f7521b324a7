//! Runs of images that are written by hand.
use crate::notation::{cell, global, number, numbers, parts, plain};
use go_code::cell::Cell;
use go_code::function::Function;
use go_code::image::{Image, Start};
use go_code::instr::{CallInstr, Instr};
use go_code::setup::Setup;
use go_text::edition::Edition;
use std::alloc::Global;
use test_rows::answers::RowError;

/// An instruction, with `c:7` for a call of function 7.
fn instr(alloc: Global, word: &str) -> Result<Instr<usize>, RowError> {
    let (kind, text) = parts(word)?;
    if kind == "c" {
        return Ok(Instr::Calls(CallInstr::Call(number(text)?)));
    }
    if matches!(kind, "g" | "k" | "G" | "K") {
        let (first, count, _) = numbers(text)?;
        return global(kind, first, count);
    }
    plain(alloc, kind, text)
}

fn code(alloc: Global, words: &str) -> Result<Vec<Instr<usize>>, RowError> {
    let mut code = Vec::new(alloc);
    for word in words.split(' ') {
        if !word.is_empty() {
            code.push(instr(alloc, word)?)?;
        }
    }
    Ok(code)
}

/// The edition, the zero cells, the functions and the start steps of an image that is being read.
#[derive(Drop)]
struct Parts {
    edition: Edition,
    globals: Vec<Cell>,
    functions: Vec<Function<usize>>,
    starts: Vec<Start>,
}

/// The edition of a number.
pub(crate) fn edition_of(text: &str) -> Result<Edition, RowError> {
    match text {
        "1" => Ok(Edition::One),
        "2" => Ok(Edition::Two),
        _ => Err(RowError::NoRow),
    }
}

/// One part more: `f:2.5` and a code is a function of 2 parameters and 5 cells, `s:3` and a code
/// a start step by a setup of 3 cells, `@:0` a start step that calls function 0, `v:i5` a zero cell
/// of a package variable, and `e:2` the second edition.
fn read_part(alloc: Global, read: &mut Parts, part: &str) -> Result<(), RowError> {
    let (head, words) = part.split_once(' ').unwrap_or((part, ""));
    let (kind, size) = parts(head)?;
    if kind == "v" {
        let (kind, text) = size.split_at_checked(1).unwrap_or(("", ""));
        read.globals.push(cell(alloc, kind, text)?)?;
        return Ok(());
    }
    if kind == "e" {
        read.edition = edition_of(size)?;
        return Ok(());
    }
    if kind == "@" {
        read.starts.push(Start::Function(number(size)?))?;
        return Ok(());
    }
    if kind == "s" {
        let setup = Setup::new(number(size)?, code(alloc, words)?);
        read.starts.push(Start::Setup(setup))?;
        return Ok(());
    }
    if kind != "f" {
        return Err(RowError::NoRow);
    }
    let (parameters, cells) = size.split_once('.').ok_or(RowError::NoRow)?;
    let function = Function::new(number(parameters)?, number(cells)?, code(alloc, words)?);
    read.functions.push(function)?;
    Ok(())
}

/// The image of parts with semicolons between them, of edition 1 where none of them says another.
pub(crate) fn image(alloc: Global, text: &str) -> Result<Image, RowError> {
    let mut read = Parts {
        edition: Edition::One,
        globals: Vec::new(alloc),
        functions: Vec::new(alloc),
        starts: Vec::new(alloc),
    };
    for part in text.split(';') {
        let part = part.trim();
        if !part.is_empty() {
            read_part(alloc, &mut read, part)?;
        }
    }
    let Parts {
        edition,
        globals,
        functions,
        starts,
    } = read;
    Ok(Image::new(edition, globals, functions, starts))
}
