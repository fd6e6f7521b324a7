//! Why files aren't taken.
ghost use Rattle.std.specs.Prelude.{◌≡◌, IfOk, Some};
ghost use Rattle.ws_module.specs.Reasons.{reason_of, unread_of};
ghost use Rattle.ws_module.specs.declared.unread.FilesError.TheVariants.{Memory};

use go_text::edition::Edition;
use std::alloc::{AllocError, AllocFailed, Global};

/// Why a file isn't taken.
#[derive(Clone, Copy, Debug, PartialEq, Eq, Drop)]
pub enum Unread {
    /// It isn't there.
    Missing,
    /// It is a folder.
    Folder,
    /// It has more bytes than a text of the edition may have.
    Long(Edition),
    /// Its bytes are no text.
    NoText,
    /// It has no path in a workspace.
    NoPath,
    /// It is a go.mod that names no module.
    NoModule,
    /// It can't be read for another reason.
    Other,
}

impl Unread {
    /// What is said of the file.
    pub fn reason(self) -> &'static str
        ensures { result.now ≡ reason_of self }
    {
        match self {
            Unread::Missing => "no such file",
            Unread::Folder => "a folder, not a file",
            Unread::Long(Edition::One) => "longer than 1048576 bytes",
            Unread::Long(Edition::Two) => "longer than 4194304 bytes",
            Unread::NoText => {
                "not a text: it is UTF-8 without NUL, with a byte order mark at its start alone"
            }
            Unread::NoPath => "not a path of a Go file, as docs/SCRIPT.md has them",
            Unread::NoModule => "it names no module: a line of it is module PATH",
            Unread::Other => "can't be read",
        }
    }
}

/// Why files aren't had.
#[derive(Drop)]
pub enum FilesError {
    /// A file isn't taken.
    Unread(String, Unread),
    /// Memory ran out.
    Memory,
}

impl From<AllocError> for FilesError {
    ghost from_gives = { λ _ e. e ≡ Memory };

    fn from(_e: AllocError) -> FilesError {
        FilesError::Memory
    }
}

impl<T: Drop> From<AllocFailed<T>> for FilesError {
    ghost from_gives = { λ _ e. e ≡ Memory };

    fn from(_e: AllocFailed<T>) -> FilesError {
        FilesError::Memory
    }
}

impl FilesError {
    /// The error of a file. An `Err` is want of memory.
    pub fn of(alloc: Global, file: &str, why: Unread) -> Result<FilesError, AllocError>
        ensures { IfOk result (λ error. unread_of error ≡ Some (file.now, why)) }
    {
        Ok(FilesError::Unread(String::from_str(alloc, file)?, why))
    }
}
