//! Directories that are to be read.
ghost use Rattle.std.specs.Prelude.{◌≡◌, IfOk};
ghost use Rattle.ws_register.specs.Sources.{is_in};
ghost use Rattle.ws_graph.specs.Discovery.{held_sources, WaitsIfFilled, IsTextOf};

use crate::packages::package_files;
use go_text::source::Source;
use std::alloc::{AllocError, Global};
use std::str::from_utf8;
use ws_path::directory;
use ws_register::Registers;

/// A directory that is to be read.
#[derive(Drop)]
pub struct Waiting {
    /// Its path.
    pub path: String,
    /// The files of its package.
    pub files: Vec<Source>,
}

/// The directory of a path with the files of its package, if it has some.
pub fn waiting_at(
    alloc: Global,
    registers: &Registers,
    path: &str,
) -> Result<Option<Waiting>, AllocError>
    ensures { IfOk result (WaitsIfFilled (held_sources registers.now) path.now) }
{
    let files = package_files(registers, path)?;
    if files.is_empty() {
        return Ok(None);
    }
    let path = String::from_str(alloc, path)?;
    Ok(Some(Waiting { path, files }))
}

/// The text of a path. Where it has none, no directory of that path has files.
pub fn text_of(
    alloc: Global,
    registers: &Registers,
    path: &[u8],
) -> Result<Option<String>, AllocError>
    ensures { IfOk result (IsTextOf (held_sources registers.now) path.now) }
{
    match from_utf8(path) {
        Ok(text) => Ok(Some(String::from_str(alloc, text)?)),
        Err(_) => directory_among(alloc, registers, path),
    }
}

// The directory of that path among those of all sources. Paths are texts, so that none has one
// that isn't UTF-8; but only looking at them shows it.
fn directory_among(
    alloc: Global,
    registers: &Registers,
    path: &[u8],
) -> Result<Option<String>, AllocError>
    ensures { IfOk result (IsTextOf (held_sources registers.now) path.now) }
{
    for source in registers.sources()? {
        if is_in(path, source.0.as_str()) {
            return Ok(Some(String::from_str(alloc, directory(source.0.as_str()))?));
        }
    }
    Ok(None)
}

fn is_in(path: &[u8], source: &str) -> bool
    ensures { result ≡ is_in path.now source.now }
{
    directory(source).as_bytes() == path
}
