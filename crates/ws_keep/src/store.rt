//! Where workspaces are kept between runs.
ghost use Rattle.std.specs.Prelude.{◌≡◌, ◌≢◌, ℕ, List, Option, IfOk, OnOk, OnErr};
ghost use Rattle.ws_keep.specs.Stored.{StoreBecomes, StoreHolds};

use std::alloc::Global;
use thiserror::Error;

/// Why a store wasn't locked, read or written.
#[derive(Clone, Copy, Debug, PartialEq, Eq, Drop, Error)]
pub enum StoreError {
    #[error("out of memory")]
    Memory,
    #[error("in use")]
    InUse,
    #[error("a folder, not a file")]
    Folder,
    #[error("no such folder")]
    NoFolder,
    #[error("not permitted")]
    Denied,
    #[error("over 16777216 bytes")]
    TooLong,
    #[error("can't be read")]
    Unread,
    #[error("can't be written")]
    Unwritten,
}

/// What keeps scripts, each under a name.
pub trait Store {
    /// What it holds under a name, where that is known.
    ghost kept: { Self → List ℕ → Option (List ℕ) };

    /// Keeps other runs from what it holds under a name, as long as it lives. An `Err` is a
    /// failure, or another run keeps this one from it.
    fn lock(&mut self, alloc: Global, name: &str) -> Result<(), StoreError>
        ensures still { kept self.new ≡ kept self.old };

    /// All that it holds under a name; nothing, where nothing was kept. An `Err` is a failure.
    fn load(&mut self, alloc: Global, name: &str) -> Result<Vec<u8>, StoreError>
        ensures holds { IfOk result (λ bytes. StoreHolds (kept self.old name.now) bytes.items) }
        ensures still { kept self.new ≡ kept self.old };

    /// Puts these bytes in the place of what it holds under a name, all or none. An `Err` is a
    /// failure, and it holds what it held.
    fn replace(&mut self, alloc: Global, name: &str, bytes: &[u8]) -> Result<(), StoreError>
        ensures ok { OnOk result (StoreBecomes (kept self.old name.now) (kept self.new name.now) bytes.now) }
        ensures others { (other : List ℕ) → other ≢ name.now → kept self.new other ≡ kept self.old other }
        ensures err { OnErr result (kept self.new ≡ kept self.old) };
}
