//! Places in a text.
ghost use Rattle.std.specs.Prelude.{◌≡◌, ◌++◌, ◌∷◌, [], ◌+◌, ◌≤◌, ◌<◌, ◌^◌, ℕ, List, length};
ghost use Rattle.go_text.specs.Places.{place_after, mark_size, place_at};

use crate::text::starts_with_mark;

/// A place in a text: a line and a column, both counted from 1, the column in bytes.
#[derive(Clone, Copy, PartialEq, Eq, Debug)]
pub struct Place {
    /// The line, from 1.
    pub line: u32,
    /// The column in bytes, from 1.
    pub column: u32,
}

impl Place {
    /// The place of a text's first byte.
    pub fn first() -> Place
        ensures { result ≡ place_after [] }
    {
        Place { line: 1, column: 1 }
    }

    /// The place behind one more byte.
    fn behind(self, byte: u8) -> Place
        requires line { self.line + 1 < 2 ^ 32 }
        requires column { self.column + 1 < 2 ^ 32 }
        ensures value { (before : List ℕ) → self ≡ place_after before → result ≡ place_after (before ++ byte ∷ []) }
        ensures line { result.line ≤ self.line + 1 }
        ensures column { result.column ≤ self.column + 1 }
    {
        if byte == b'\n' {
            Place {
                line: self.line + 1,
                column: 1,
            }
        } else {
            Place {
                line: self.line,
                column: self.column + 1,
            }
        }
    }

    /// The place behind some more bytes: where `self` is the place behind the bytes before them,
    /// that behind all of these.
    pub fn after(self, bytes: &[u8]) -> Place
        requires line { self.line + length bytes.now < 2 ^ 32 }
        requires column { self.column + length bytes.now < 2 ^ 32 }
        ensures { (before : List ℕ) → self ≡ place_after before → result ≡ place_after (before ++ bytes.now) }
    {
        let mut now = self;
        for b in bytes {
            now = now.behind(*b);
        }
        now
    }
}

/// How many bytes of a text are a byte order mark at its start.
pub fn mark_size(text: &[u8]) -> usize
    ensures value { result ≡ mark_size text.now }
    ensures within { result ≤ length text.now }
{
    if starts_with_mark(text) { 3 } else { 0 }
}

/// The place of the byte at an offset of a text, or that behind its last byte. A byte order mark
/// at the start takes no column.
pub fn place_at(text: &[u8], offset: usize) -> Place
    requires within { offset ≤ length text.now }
    requires short { length text.now < 2 ^ 31 }
    ensures { result ≡ place_at text.now offset }
{
    let start = mark_size(text);
    if offset < start {
        return Place::first();
    }
    Place::first().after(&text[start..offset])
}
