//! Files in which workspaces are kept.
ghost use Rattle.std.specs.Prelude.{None};

use crate::reading::LIMIT;
use std::alloc::Global;
use std::fs::{File, OpenOptions, TryLockError};
use std::io::Write;
use std::{fs, io};
use ws_keep::store::{Store, StoreError};
use ws_module::bytes::bytes_of;

/// Files as a store: what is kept under a name is what the file at that path has.
#[derive(Drop)]
pub struct KeptFiles<'a> {
    files: &'a HostRuntime,
    locked: Option<File>,
}

impl<'a> KeptFiles<'a> {
    /// The files of a system, none of them locked yet.
    pub fn new(files: &'a HostRuntime) -> KeptFiles<'a> {
        KeptFiles {
            files,
            locked: None,
        }
    }
}

/// Why a file isn't had, by what the system says; this where that says nothing else.
fn refusal_of(error: &io::Error, otherwise: StoreError) -> StoreError {
    match error.kind() {
        io::ErrorKind::OutOfMemory => StoreError::Memory,
        io::ErrorKind::WouldBlock => StoreError::InUse,
        io::ErrorKind::NotFound => StoreError::NoFolder,
        io::ErrorKind::IsADirectory => StoreError::Folder,
        io::ErrorKind::PermissionDenied => StoreError::Denied,
        _ => otherwise,
    }
}

/// The path of the file that a name leads to, where it is a link.
fn followed(files: &HostRuntime, name: &str) -> io::Result<String> {
    if fs::read_link(files, name).is_err() {
        return Ok(String::from_str(files.alloc(), name)?);
    }
    let found = fs::canonicalize(files, name)?;
    match found.as_path().to_str() {
        Some(path) => Ok(String::from_str(files.alloc(), path)?),
        None => Err(io::Error::from(io::ErrorKind::InvalidInput)),
    }
}

/// A path with an ending.
fn beside(files: &HostRuntime, path: &str, ending: &str) -> io::Result<String> {
    let mut both = String::from_str(files.alloc(), path)?;
    both.push_str(ending)?;
    Ok(both)
}

/// Whether a path is that of a folder.
fn is_folder(files: &HostRuntime, path: &str) -> bool {
    match fs::metadata(files, path) {
        Ok(metadata) => metadata.is_dir(),
        Err(_) => path.ends_with('/'),
    }
}

/// The lock of the file that a name leads to: a file beside it, which stays.
fn lock_of(files: &HostRuntime, name: &str) -> io::Result<File> {
    let path = followed(files, name)?;
    if is_folder(files, path.as_str()) {
        return Err(io::Error::from(io::ErrorKind::IsADirectory));
    }
    let lock = beside(files, path.as_str(), ".lock")?;
    let file = OpenOptions::new()
        .write(true)
        .create(true)
        .open(files, lock.as_str())?;
    match file.try_lock() {
        Ok(()) => Ok(file),
        Err(TryLockError::WouldBlock) => Err(io::Error::from(io::ErrorKind::WouldBlock)),
        Err(TryLockError::Error(error)) => Err(error),
    }
}

/// What the file has that a name leads to, up to a byte more than a script may have; nothing, where
/// there is no such file.
fn bytes_at(files: &HostRuntime, name: &str) -> io::Result<Vec<u8>> {
    match File::open(files, name) {
        Ok(file) => bytes_of(files.alloc(), LIMIT, file),
        Err(error) if error.kind() == io::ErrorKind::NotFound => Ok(Vec::new(files.alloc())),
        Err(error) => Err(error),
    }
}

/// The folder that a path is in.
fn folder_of(path: &str) -> &str {
    match path.rsplit_once('/') {
        Some(("", _)) => "/",
        Some((folder, _)) => folder,
        None => ".",
    }
}

/// Makes a file of these bytes, with the permissions of the file at a path, if there is one. What a
/// run left there that was ended before goes.
fn make(files: &HostRuntime, new: &str, path: &str, bytes: &[u8]) -> io::Result<()> {
    let _ = fs::remove_file(files, new);
    let mut file = OpenOptions::new()
        .write(true)
        .create_new(true)
        .open(files, new)?;
    if let Ok(old) = fs::metadata(files, path) {
        file.set_permissions(old.permissions())?;
    }
    file.write_all(bytes)?;
    file.sync_all()
}

/// Puts these bytes in the place of what the file has that a name leads to. On an `Err` it has what
/// it had. That the folder isn't synced is none, since the file is the new one by then.
fn put(files: &HostRuntime, name: &str, bytes: &[u8]) -> io::Result<()> {
    let path = followed(files, name)?;
    let new = beside(files, path.as_str(), ".new")?;
    let moved = match make(files, new.as_str(), path.as_str(), bytes) {
        Ok(()) => fs::rename(files, new.as_str(), path.as_str()),
        Err(error) => Err(error),
    };
    if moved.is_err() {
        let _ = fs::remove_file(files, new.as_str());
        return moved;
    }
    if let Ok(folder) = File::open(files, folder_of(path.as_str())) {
        let _ = folder.sync_all();
    }
    Ok(())
}

impl<'a> Store for KeptFiles<'a> {
    ghost kept = { λ _ _. None };

    fn lock(&mut self, _alloc: Global, name: &str) -> Result<(), StoreError> {
        match lock_of(self.files, name) {
            Ok(file) => {
                self.locked = Some(file);
                Ok(())
            }
            Err(error) => Err(refusal_of(&error, StoreError::Unread)),
        }
    }

    fn load(&mut self, _alloc: Global, name: &str) -> Result<Vec<u8>, StoreError> {
        match bytes_at(self.files, name) {
            Ok(bytes) if bytes.len() > LIMIT => Err(StoreError::TooLong),
            Ok(bytes) => Ok(bytes),
            Err(error) => Err(refusal_of(&error, StoreError::Unread)),
        }
    }

    fn replace(&mut self, _alloc: Global, name: &str, bytes: &[u8]) -> Result<(), StoreError> {
        match put(self.files, name, bytes) {
            Ok(()) => Ok(()),
            Err(error) => Err(refusal_of(&error, StoreError::Unwritten)),
        }
    }
}
