//! Which files of a directory are its package's.
ghost use Rattle.std.specs.Prelude.{◌≡◌, List, IfOk, map};
ghost use Rattle.std.specs.List.{filter};
ghost use Rattle.std.specs.FinMap.{entries};
ghost use Rattle.ws_map.specs.Kept.{StandsFor};
ghost use Rattle.ws_version.specs.Writes.{Write, held_cmp};
ghost use Rattle.ws_register.specs.Sources.{pair_of, texts_of};
ghost use Rattle.ws_graph.specs.Packages.{is_built, package_files};
ghost use Rattle.ws_graph.specs.Discovery.{AreFilesOf};

use go_text::source::Source;
use std::alloc::AllocError;
use ws_register::Registers;

/// Copies of the files of a directory's package, in the order of their names: no name that begins
/// with `.` or `_`, and none that ends in `_test.go`. An `Err` is for want of memory.
pub fn package_files(registers: &Registers, directory: &str) -> Result<Vec<Source>, AllocError>
    ensures exact { IfOk result (λ files. map pair_of files.items ≡ package_files directory.now (texts_of (entries registers.now))) }
    ensures stands { IfOk result (λ files. (W : List Write) → StandsFor held_cmp registers.now W → AreFilesOf W directory.now (map pair_of files.items)) }
{
    let mut files = registers.files(directory)?;
    keep_built(&mut files);
    Ok(files)
}

fn keep_built(files: &mut Vec<Source>)
    ensures { map pair_of files.new.items ≡ filter (λ file. is_built file.0) (map pair_of files.old.items) }
{
    files.retain(|file| is_built(file.name()));
}

pub fn is_built(name: &str) -> bool
    ensures { result ≡ is_built name.now }
{
    let name = name.as_bytes();
    !name.starts_with(b".") && !name.starts_with(b"_") && !name.ends_with(b"_test.go")
}
