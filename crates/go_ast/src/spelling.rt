//! Spellings of names and numbers.
ghost use Rattle.std.specs.Prelude.{◌≡◌, IfOk};
ghost use Rattle.go_ast.specs.Spellings.{kept_bytes};

use arrayvec::ArrayString;
use std::alloc::{AllocError, Global};
use std::marker::Model;

/// How a text is kept. Most are short, and a block for each would take more time and room than the text.
#[derive(Drop)]
enum Kept {
    Short(ArrayString<8>),
    Long(Box<String>),
}

/// The text of a name or of an integer literal. One of at most 8 bytes has no block of its own.
#[derive(Drop)]
pub struct Spelling {
    kept: Kept,
}

impl Model for Spelling {
    ghost use Rattle.std.specs.Prelude.{List, ℕ};
    ghost use Rattle.go_ast.specs.Spellings.{kept_bytes};

    ghost Value = { List ℕ };

    ghost view = { λ a. kept_bytes a.kept };
}

impl Spelling {
    /// A text's spelling. An `Err` only where memory ran out.
    pub fn new(alloc: Global, text: &str) -> Result<Spelling, AllocError>
        ensures { IfOk result (λ s. s ≡ text.now) }
    {
        let kept = match ArrayString::from(text) {
            Ok(short) => Kept::Short(short),
            Err(_) => {
                let long = String::from_str(alloc, text)?;
                Kept::Long(Box::new(alloc, long)?)
            }
        };
        Ok(Spelling { kept })
    }

    /// The text.
    pub fn as_str(&self) -> &str
        ensures { result.now ≡ self.now }
    {
        match &self.kept {
            Kept::Short(short) => short.as_str(),
            Kept::Long(long) => long.as_str(),
        }
    }
}
