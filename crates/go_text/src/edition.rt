//! Editions: which rules of the language hold.
ghost use Rattle.std.specs.Prelude.{◌≡◌};
ghost use Rattle.go_text.specs.Editions.{edition_number, has_slices, text_limit, most_open};

/// An edition of the language.
#[derive(Clone, Copy, PartialEq, Eq, Debug)]
pub enum Edition {
    /// The first.
    One,
    /// The second, which has slices.
    Two,
}

impl Edition {
    /// The edition's number, which counts from 1.
    pub fn number(self) -> u32
        ensures { result ≡ edition_number self }
    {
        match self {
            Edition::One => 1,
            Edition::Two => 2,
        }
    }

    /// Whether the edition has slices.
    pub fn has_slices(self) -> bool
        ensures { result ≡ has_slices self }
    {
        match self {
            Edition::One => false,
            Edition::Two => true,
        }
    }

    /// How many bytes a source text of the edition may have at most.
    pub fn text_limit(self) -> usize
        ensures { result ≡ text_limit self }
    {
        match self {
            Edition::One => 1_048_576,
            Edition::Two => 4_194_304,
        }
    }

    /// How many calls of a program of the edition may be open at once.
    #[tactic(auto, unfolding(crate::specs::Editions::most_open))]
    pub fn most_open(self) -> usize
        ensures { result ≡ most_open self }
    {
        match self {
            Edition::One => 1_000,
            Edition::Two => 4_000,
        }
    }
}
