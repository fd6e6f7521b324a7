//! Images of packages that are written by hand.
use crate::images::edition_of;
use crate::notation::{global, number, parts, plain};
use crate::runs::outcome;
use go_code::cell::Cell;
use go_code::function::Function;
use go_code::image::Image;
use go_code::instr::{CallInstr, FrameInstr, Instr};
use go_code::object::Object;
use go_code::object::function::PackageFunction;
use go_code::object::variable::PackageVariable;
use go_code::setup::Setup;
use go_const::constant::Text;
use go_link::link::{LinkError, link};
use go_packed::packed::Packed;
use go_symbol::Symbol;
use std::alloc::Global;
use std::sync::Arc;
use test_rows::answers::RowError;

/// The symbol of a package's path, a slash and a name.
fn symbol(alloc: Global, text: &str) -> Result<Symbol, RowError> {
    let (path, name) = text.rsplit_once('/').unwrap_or((text, ""));
    let path = String::from_str(alloc, path)?;
    let name = String::from_str(alloc, name)?;
    Ok(Symbol::new(path, name))
}

/// An instruction, with `c:lib/F` for a call of the function F of the package lib, and `g:lib/v.2`
/// for two cells of its variable v.
fn instr(alloc: Global, word: &str) -> Result<Instr<Symbol>, RowError> {
    let (kind, text) = parts(word)?;
    if kind == "c" {
        return Ok(Instr::Calls(CallInstr::Call(symbol(alloc, text)?)));
    }
    if matches!(kind, "g" | "k" | "G" | "K") {
        let (name, count) = text.split_once('.').unwrap_or((text, "0"));
        return global(kind, symbol(alloc, name)?, number(count)?);
    }
    plain(alloc, kind, text)
}

/// The parameters and the cells of a function with so many instructions, if its name is followed by
/// them, as in `f:2.5`; else none, and as many cells as instructions.
fn frame(name: &str, count: usize) -> Result<(&str, usize, usize), RowError> {
    let Some((name, size)) = name.split_once(':') else {
        return Ok((name, 0, count));
    };
    let (parameters, cells) = size.split_once('.').ok_or(RowError::NoRow)?;
    Ok((name, number(parameters)?, number(cells)?))
}

/// A function: its name and its frame, and its code.
fn function(alloc: Global, text: &str) -> Result<PackageFunction, RowError> {
    let (name, words) = text.split_once(' ').unwrap_or((text, ""));
    let mut code = Vec::new(alloc);
    for word in words.split(' ') {
        if !word.is_empty() {
            code.push(instr(alloc, word)?)?;
        }
    }
    let (name, parameters, cells) = frame(name, code.len())?;
    let name = String::from_str(alloc, name)?;
    let function = Function::new(parameters, cells, code);
    Ok(PackageFunction::new(name, function))
}

fn functions(alloc: Global, text: &str) -> Result<Vec<PackageFunction>, RowError> {
    let mut functions = Vec::new(alloc);
    for part in text.split(';') {
        let part = part.trim();
        if !part.is_empty() {
            functions.push(function(alloc, part)?)?;
        }
    }
    Ok(functions)
}

/// A package: its path, its name and its edition, if it isn't edition 1, and functions with semicolons
/// between them. It has a variable of two cells and a setup of two cells.
fn object(alloc: Global, text: &str) -> Result<Object, RowError> {
    let (head, rest) = text.split_once(';').unwrap_or((text, ""));
    let (path, name) = head.trim().split_once(' ').unwrap_or((head, ""));
    let (name, written) = name.trim().split_once(' ').unwrap_or((name, "1"));
    let edition = edition_of(written)?;
    let zero = vec![in alloc;
        Cell::Int(0),
        Cell::Text(Text::new(alloc, path.as_bytes())?),
    ]?;
    let variables = vec![in alloc; PackageVariable::new(String::from_str(alloc, "v")?, zero)]?;
    let code = vec![in alloc;
        Instr::Frame(FrameInstr::Push(Cell::Bool(true))),
        Instr::Calls(CallInstr::Return(0)),
    ]?;
    let setups = vec![in alloc; Setup::new(2, code)]?;
    let path = String::from_str(alloc, path)?;
    let name = String::from_str(alloc, name.trim())?;
    let functions = functions(alloc, rest)?;
    Ok(Object::new(path, name, edition, variables, functions, setups))
}

/// Objects that were packed.
fn objects(alloc: Global, text: &str) -> Result<Vec<Arc<Object>>, RowError> {
    let mut objects = Vec::new(alloc);
    for part in text.split('#') {
        let part = part.trim();
        if !part.is_empty() {
            let packed = Packed::of(alloc, &object(alloc, part)?)?;
            objects.push(Arc::new(alloc, packed.unpack(alloc)?)?)?;
        }
    }
    Ok(objects)
}

/// The image of no object, of one, or of two in an order.
fn link_in(
    alloc: Global,
    objects: &[Arc<Object>],
    order: &str,
) -> Option<Result<Image, LinkError>> {
    match (objects.len(), order) {
        (0, "") => Some(link(alloc, &[], &[])),
        (1, "0") => Some(link(alloc, objects, &[0])),
        (2, "0 1") => Some(link(alloc, objects, &[0, 1])),
        (2, "1 0") => Some(link(alloc, objects, &[1, 0])),
        _ => None,
    }
}

/// What comes of a run of a row's packages, linked in the row's order, for a hundred ticks.
pub(crate) fn linked(alloc: Global, asked: &str) -> Result<String, RowError> {
    let (order, text) = asked.split_once(':').ok_or(RowError::NoRow)?;
    let objects = objects(alloc, text)?;
    match link_in(alloc, &objects, order).ok_or(RowError::NoRow)? {
        Ok(image) => outcome(alloc, &image, 100),
        Err(LinkError::NoMain) => Ok(String::from_str(alloc, "no main")?),
        Err(LinkError::NameMissing) => Ok(String::from_str(alloc, "a name is missing")?),
        Err(LinkError::EditionsDiffer) => Ok(String::from_str(alloc, "the editions differ")?),
        Err(LinkError::Memory) => Err(RowError::Memory),
    }
}
