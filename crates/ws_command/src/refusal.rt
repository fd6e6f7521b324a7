//! Why a command isn't run, as a session prints it.
ghost use Rattle.std.specs.Prelude.{◌≡◌, IfOk};
ghost use Rattle.ws_command.specs.Refusals.{refused};

use std::alloc::{AllocError, Global};

/// Why a command isn't run. Of several reasons the one with the least number is printed.
#[derive(Clone, Copy, Debug, PartialEq, Eq, Drop)]
pub enum Refusal {
    /// 1: an unknown word, a wrong count of words, a bad name or number, or one replica too many.
    BadCommand,
    /// 2: no replica has the name.
    Unknown,
    /// 3: a replica has the name already.
    Exists,
    /// 4: not a path of a file.
    BadPath,
    /// 5: the replica holds nothing at the path, or a removal.
    NoFile,
    /// 6: the replica holds the greatest counter that there is.
    CounterFull,
    /// 7: not UTF-8, truncated, or no text of a source.
    BadText,
    /// 8: the directory has no files of a package.
    NoPackage,
    /// 9: no program, or its packages aren't all compiled and good.
    NotBuilt,
}

/// The line that is printed for a refused command.
pub fn refused(alloc: Global, refusal: Refusal) -> Result<Vec<u8>, AllocError>
    ensures { IfOk result (λ line. line.items ≡ refused refusal) }
{
    let line: &[u8] = match refusal {
        Refusal::BadCommand => b"refused 1 command\n",
        Refusal::Unknown => b"refused 2 replica\n",
        Refusal::Exists => b"refused 3 exists\n",
        Refusal::BadPath => b"refused 4 path\n",
        Refusal::NoFile => b"refused 5 nofile\n",
        Refusal::CounterFull => b"refused 6 counter\n",
        Refusal::BadText => b"refused 7 text\n",
        Refusal::NoPackage => b"refused 8 nopackage\n",
        Refusal::NotBuilt => b"refused 9 notbuilt\n",
    };
    Vec::from_slice(alloc, line)
}
