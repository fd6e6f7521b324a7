//! The files that are run, read from the folders in which they lie.
ghost use Rattle.std.specs.Prelude.{◌+◌, ◌<◌, ◌^◌};

use crate::bytes::{bytes_of, text_in};
use crate::module::module_of;
use crate::places::{
    are_alone, beneath, directory_in, is_looked_into, is_read, path_in, sorted, top_of,
};
use crate::unread::{FilesError, Unread};
use go_text::edition::Edition;
use go_text::text::Text;
use std::alloc::Global;
use std::fs::File;
use std::{fs, io};
use ws_path::{FilePath, directory};

/// Why a file that gives this error isn't run.
fn error_of(alloc: Global, file: &str, error: &io::Error) -> Result<FilesError, FilesError> {
    let why = match error.kind() {
        io::ErrorKind::OutOfMemory => return Ok(FilesError::Memory),
        io::ErrorKind::NotFound => Unread::Missing,
        io::ErrorKind::IsADirectory => Unread::Folder,
        _ => Unread::Other,
    };
    Ok(FilesError::of(alloc, file, why)?)
}

/// The bytes of a file, up to a byte more than the limit.
fn read_bytes(rt: &HostRuntime, limit: usize, file: &str) -> Result<Vec<u8>, FilesError>
    requires fits { limit + 1 < 2 ^ 64 }
{
    let read = match File::open(rt, file) {
        Ok(opened) => bytes_of(rt.alloc(), limit, opened),
        Err(error) => Err(error),
    };
    match read {
        Ok(bytes) => Ok(bytes),
        Err(error) => Err(error_of(rt.alloc(), file, &error)?),
    }
}

/// The text of a file, in an edition.
fn read_text(rt: &HostRuntime, edition: Edition, file: &str) -> Result<Text, FilesError> {
    let bytes = read_bytes(rt, edition.text_limit(), file)?;
    match text_in(rt.alloc(), edition, bytes) {
        Ok(text) => Ok(text),
        Err(Some(why)) => Err(FilesError::of(rt.alloc(), file, why)?),
        Err(None) => Err(FilesError::Memory),
    }
}

/// A directory, and its folder as it is told, which is empty where its files' names stand alone.
pub type Folder = (String, String);

/// What is to be run: files by path, the program's directory, and how folders are told.
#[derive(Drop)]
pub struct Workspace {
    pub files: Vec<(FilePath, Text)>,
    pub directory: String,
    pub folders: Vec<Folder>,
}

impl Workspace {
    /// A workspace without files, of the program in a directory.
    fn new(alloc: Global, directory: String) -> Workspace {
        Workspace {
            files: Vec::new(alloc),
            directory,
            folders: Vec::new(alloc),
        }
    }

    /// Takes a file, in a directory.
    fn add(
        &mut self,
        rt: &HostRuntime,
        edition: Edition,
        its: &str,
        file: &str,
    ) -> Result<(), FilesError> {
        let text = read_text(rt, edition, file)?;
        let Some(path) = path_in(rt.alloc(), its, file)? else {
            return Err(FilesError::of(rt.alloc(), file, Unread::NoPath)?);
        };
        self.files.push((path, text))?;
        let its = String::from_str(rt.alloc(), its)?;
        let folder = String::from_str(rt.alloc(), directory(file))?;
        self.folders.push((its, folder))?;
        Ok(())
    }
}

/// The files that words name, in byte order. Where all are of one folder they are the directory
/// main; else each stands where its word says, and the first word's directory has the program.
fn read_files(rt: &HostRuntime, edition: Edition, files: &[&str]) -> Result<Workspace, FilesError> {
    let is_alone = are_alone(files);
    let first = files.first().copied().unwrap_or("");
    let directory = String::from_str(rt.alloc(), directory_in(is_alone, first))?;
    let mut workspace = Workspace::new(rt.alloc(), directory);
    for file in &sorted(rt.alloc(), files)? {
        workspace.add(rt, edition, directory_in(is_alone, file), file)?;
    }
    Ok(workspace)
}

/// A file or a folder, and the directory that it is of.
type Place = (String, String);

/// What is found at and below a folder.
#[derive(Drop)]
struct Tree {
    is_module: bool,
    files: Vec<Place>,
    left: Vec<Place>,
}

impl Tree {
    /// Takes what a folder holds.
    fn look_into(&mut self, rt: &HostRuntime, place: &Place) -> io::Result<()> {
        for entry in fs::read_dir(rt, place.0.as_str())? {
            let entry = entry?;
            let name = entry.file_name();
            let found = beneath(rt.alloc(), place.0.as_str(), name)?;
            if entry.file_type()?.is_dir() {
                if is_looked_into(self.is_module, name) {
                    let its = beneath(rt.alloc(), place.1.as_str(), name)?;
                    self.left.push((found, its))?;
                }
            } else if is_read(self.is_module, name) {
                self.files.push((found, place.1.clone()?))?;
            }
        }
        Ok(())
    }
}

/// The path of the module whose go.mod lies in a folder; none where there is none.
fn module_at(
    rt: &HostRuntime,
    edition: Edition,
    folder: &str,
) -> Result<Option<String>, FilesError> {
    let file = beneath(rt.alloc(), folder, "go.mod")?;
    if fs::metadata(rt, file.as_str()).is_err() {
        return Ok(None);
    }
    let text = read_text(rt, edition, file.as_str())?;
    if let Some(named) = module_of(rt.alloc(), text.as_str().as_bytes())?
        && let Ok(path) = String::from_utf8(named)
    {
        return Ok(Some(path));
    }
    Err(FilesError::of(rt.alloc(), file.as_str(), Unread::NoModule)?)
}

/// How many folders at and below one are looked into.
const MOST_FOLDERS: usize = 65536;

/// The Go files at and below a folder, in byte order, each with its directory. A module inside a
/// module has its own path.
fn files_below(
    rt: &HostRuntime,
    edition: Edition,
    is_module: bool,
    top: Place,
) -> Result<Vec<Place>, FilesError> {
    let mut tree = Tree {
        is_module,
        files: Vec::new(rt.alloc()),
        left: Vec::new(rt.alloc()),
    };
    tree.left.push(top)?;
    for _ in 0..MOST_FOLDERS {
        let Some(mut place) = tree.left.pop() else {
            break;
        };
        if is_module && let Some(path) = module_at(rt, edition, place.0.as_str())? {
            place.1 = path;
        }
        if let Err(error) = tree.look_into(rt, &place) {
            return Err(error_of(rt.alloc(), place.0.as_str(), &error)?);
        }
    }
    if let Some(place) = tree.left.pop() {
        return Err(FilesError::of(rt.alloc(), place.0.as_str(), Unread::Other)?);
    }
    tree.files.sort()?;
    Ok(tree.files)
}

/// The files at and below a folder, whose paths begin with the path of the module that it is, or
/// with the folder's own name; the folder has the program.
fn read_folder(rt: &HostRuntime, edition: Edition, folder: &str) -> Result<Workspace, FilesError> {
    let module = module_at(rt, edition, folder)?;
    let is_module = module.is_some();
    let directory = match module {
        Some(path) => path,
        None => String::from_str(rt.alloc(), top_of(folder))?,
    };
    let top = (String::from_str(rt.alloc(), folder)?, directory.clone()?);
    let mut workspace = Workspace::new(rt.alloc(), directory);
    for (file, its) in &files_below(rt, edition, is_module, top)? {
        workspace.add(rt, edition, its.as_str(), file.as_str())?;
    }
    Ok(workspace)
}

/// What words name: a folder that stands alone, or files; their texts are those of an edition.
pub fn read_workspace(
    rt: &HostRuntime,
    edition: Edition,
    files: &[&str],
) -> Result<Workspace, FilesError> {
    if let [word] = files {
        let folder = word.trim_end_matches('/');
        let is_folder = match fs::metadata(rt, folder) {
            Ok(metadata) => metadata.is_dir(),
            Err(_) => false,
        };
        if is_folder {
            return read_folder(rt, edition, folder);
        }
    }
    read_files(rt, edition, files)
}
