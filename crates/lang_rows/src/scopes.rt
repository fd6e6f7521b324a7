//! Names in blocks.
use go_scope::scopes::{DeclareError, Scopes};
use std::alloc::Global;
use test_rows::answers::RowError;

/// What comes of a name: `+x` declares x, which stands for the place of the word, and tells `!` where it is refused; `x`
/// tells what x stands for, or `-`.
fn name(
    alloc: Global,
    scopes: &mut Scopes<usize>,
    place: usize,
    word: &str,
) -> Result<String, RowError> {
    let Some(name) = word.strip_prefix('+') else {
        return Ok(match scopes.look_up(word) {
            Some(value) => format!(in alloc; " {value}")?,
            None => String::from_str(alloc, " -")?,
        });
    };
    match scopes.declare(name, place) {
        Ok(()) => Ok(String::new(alloc)),
        Err(DeclareError::Redeclared) => Ok(String::from_str(alloc, " !")?),
        Err(DeclareError::Memory) => Err(RowError::Memory),
    }
}

/// What comes of a word: `{` and `}` go into a block and out of it; others are names.
fn step(
    alloc: Global,
    scopes: &mut Scopes<usize>,
    place: usize,
    word: &str,
) -> Result<String, RowError> {
    match word {
        "{" => scopes.enter()?,
        "}" => scopes.leave(),
        _ => return name(alloc, scopes, place, word),
    }
    Ok(String::new(alloc))
}

/// What is found by the words of a row, in their order.
pub(crate) fn found(alloc: Global, words: &str) -> Result<String, RowError> {
    let mut scopes = Scopes::new(alloc);
    let mut told = String::from_str(alloc, "found")?;
    for (place, word) in words.split(' ').enumerate() {
        told.push_str(&step(alloc, &mut scopes, place, word)?)?;
    }
    Ok(told)
}
