//! Where the files that words name stand in a workspace.
ghost use Rattle.std.specs.Prelude.{◌≡◌, IfOk, map, string_bytes};
ghost use Rattle.std.specs.List.{list_all};
ghost use Rattle.ws_module.specs.Places.{AreSorted, IsPathIn, are_alone, beneath, directory_in, folder_directory, is_go, is_here, is_hidden_folder, is_in_folder};
ghost use Rattle.ws_module.specs.Places.{is_looked_into, is_read, is_test, top_directory};

use std::alloc::{AllocError, Global};
use ws_path::{FilePath, directory, file_name};

/// The directory of files that all lie in one folder, whatever that is called.
const ALONE: &str = "main";

/// The directory of a folder as words name it: `./` before it says nothing, and a file without a
/// folder is in main.
fn directory_of(folder: &str) -> &str
    ensures { result.now ≡ folder_directory folder.now }
{
    let directory = folder.strip_prefix("./").unwrap_or(folder);
    if directory.is_empty() || directory == "." {
        ALONE
    } else {
        directory
    }
}

/// Whether all files are of this folder.
fn are_in(files: &[&str], folder: &str) -> bool
    ensures { result ≡ list_all (is_in_folder folder.now) (map (λ file. file.now) files.now) }
{
    for file in files {
        if directory(file) != folder {
            return false;
        }
    }
    true
}

/// Whether all files are of one folder.
pub fn are_alone(files: &[&str]) -> bool
    ensures { result ≡ are_alone (map (λ file. file.now) files.now) }
{
    match files {
        [first, others @ ..] => are_in(others, directory(first)),
        [] => true,
    }
}

/// The directory of a file: main where all files are of one folder, else where its name says.
pub fn directory_in(is_alone: bool, file: &str) -> &str
    ensures { result.now ≡ directory_in is_alone file.now }
{
    if is_alone {
        ALONE
    } else {
        directory_of(directory(file))
    }
}

/// The files in byte order.
pub fn sorted<'a>(alloc: Global, files: &[&'a str]) -> Result<Vec<&'a str>, AllocError>
    ensures { IfOk result (λ sorted. AreSorted files.now sorted.items) }
{
    let mut sorted = Vec::from_slice(alloc, files)?;
    sorted.sort()?;
    Ok(sorted)
}

/// The name of what a folder holds. An `Err` is want of memory.
pub fn beneath(alloc: Global, folder: &str, name: &str) -> Result<String, AllocError>
    ensures { IfOk result (λ path. string_bytes path ≡ beneath folder.now name.now) }
{
    let mut path = String::from_str(alloc, folder)?;
    path.push_str("/")?;
    path.push_str(name)?;
    Ok(path)
}

/// The path of a file in a directory; none where that is no path. An `Err` is want of memory.
pub fn path_in(alloc: Global, directory: &str, file: &str) -> Result<Option<FilePath>, AllocError>
    ensures { IfOk result (λ path. IsPathIn directory.now file.now path) }
{
    Ok(FilePath::new(beneath(alloc, directory, file_name(file))?))
}

/// Whether a folder of this name has another one, too.
fn is_here(name: &str) -> bool
    ensures { result ≡ is_here name.now }
{
    name.is_empty() || name == "." || name == ".."
}

/// The directory of a folder that is run, by its name; main where that is no name.
pub fn top_of(folder: &str) -> &str
    ensures { result.now ≡ top_directory folder.now }
{
    let name = file_name(folder);
    if is_here(name) { ALONE } else { name }
}

fn is_hidden(name: &str) -> bool
    ensures { result ≡ is_hidden_folder name.now }
{
    name.starts_with(".") || name.starts_with("_")
}

/// Whether a folder of this name belongs to the folder, or the module, that it is in.
pub fn is_looked_into(is_module: bool, name: &str) -> bool
    ensures { result ≡ is_looked_into is_module name.now }
{
    !is_hidden(name) && !(is_module && (name == "testdata" || name == "vendor"))
}

fn is_go(name: &str) -> bool
    ensures { result ≡ is_go name.now }
{
    name.as_bytes().ends_with(b".go")
}

fn is_test(name: &str) -> bool
    ensures { result ≡ is_test name.now }
{
    name.as_bytes().ends_with(b"_test.go")
}

/// Whether a file of this name is a source of the folder, or the module, that it is in.
pub fn is_read(is_module: bool, name: &str) -> bool
    ensures { result ≡ is_read is_module name.now }
{
    is_go(name) && !is_hidden(name) && !(is_module && is_test(name))
}
