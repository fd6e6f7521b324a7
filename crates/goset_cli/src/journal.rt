//! Where the commands go that are kept.
ghost use Rattle.std.specs.Prelude.{◌≡◌, ℕ, List, [], None, Option, Some, OnOk};
ghost use Rattle.ws_command.specs.Pieces.{closed};
ghost use Rattle.goset_cli.specs.Streams.{GrowsBy};

use std::alloc::{AllocError, Global};

/// What takes the lines of the commands that are kept.
pub trait Journal {
    /// The bytes that it took so far, where they are known.
    ghost taken: { Self → Option (List ℕ) };

    /// Takes a command's line with the lines of its text, and a newline where the last has none. An
    /// `Err` is want of memory.
    fn push(&mut self, lines: &[u8]) -> Result<(), AllocError>
        ensures { OnOk result (GrowsBy (taken self.old) (taken self.new) (closed lines.now)) };
}

/// A journal that keeps nothing.
#[derive(Clone, Copy, Debug)]
pub struct NoJournal;

impl Journal for NoJournal {
    ghost taken = { λ _. None };

    fn push(&mut self, _lines: &[u8]) -> Result<(), AllocError> {
        Ok(())
    }
}

/// A journal that is a script: each command that it took, in order.
#[derive(Drop)]
pub struct Kept {
    /// The script.
    pub script: Vec<u8>,
}

impl Kept {
    /// A journal that took nothing yet.
    pub fn new(alloc: Global) -> Kept
        ensures { result.script.items ≡ [] }
    {
        Kept {
            script: Vec::new(alloc),
        }
    }
}

impl Journal for Kept {
    ghost taken = { λ kept. Some kept.script.items };

    fn push(&mut self, lines: &[u8]) -> Result<(), AllocError> {
        self.script.extend_from_slice(lines)?;
        if !matches!(lines, [] | [.., b'\n']) {
            self.script.push(b'\n')?;
        }
        Ok(())
    }
}
