//! Names in one text.
ghost use Rattle.std.specs.Prelude.{◌≡◌, ◌++◌, ◌∷◌, [], map, IfOk, OnOk};

use std::alloc::{AllocError, Global};
use std::marker::Model;

/// Names, one behind another in one text, with the length of each: a `String` of its own takes more
/// room than most names.
#[derive(Drop)]
pub(crate) struct Joined {
    text: String,
    lengths: Vec<usize>,
}

impl Model for Joined {
    ghost use Rattle.std.specs.Prelude.{ℕ, List, string_bytes};
    ghost use Rattle.go_packed.specs.Cuts.{cut, AreCuts};

    ghost Value = { List (List ℕ) };

    ghost view = { λ a. cut a.lengths.items (string_bytes a.text) };

    ghost invariant = { λ a. AreCuts a.lengths.items (string_bytes a.text) };
}

impl Joined {
    /// No names.
    fn new(alloc: Global) -> Joined
        ensures { result ≡ [] }
    {
        Joined {
            text: String::new(alloc),
            lengths: Vec::new(alloc),
        }
    }

    /// Puts a name behind the others. An `Err` only where memory ran out.
    fn push(&mut self, name: &str) -> Result<(), AllocError>
        ensures { OnOk result (self.new ≡ self.old ++ name.now ∷ []) }
    {
        self.lengths.reserve(1)?;
        self.text.push_str(name)?;
        self.lengths.push_reserved(name.len());
        Ok(())
    }

    /// Gives back the room that no name takes.
    fn fit(&mut self)
        ensures { self.new ≡ self.old }
    {
        self.text.shrink_to_fit();
        self.lengths.shrink_to_fit();
    }

    /// Names, joined. An `Err` only where memory ran out.
    pub(crate) fn of(alloc: Global, names: &[&str]) -> Result<Joined, AllocError>
        ensures { IfOk result (λ joined. joined ≡ map (λ n. n.now) names.now) }
    {
        let mut joined = Joined::new(alloc);
        for name in names {
            joined.push(*name)?;
        }
        joined.fit();
        Ok(joined)
    }

    /// The names, by number. An `Err` only where memory ran out.
    pub(crate) fn names(&self, alloc: Global) -> Result<Vec<&str>, AllocError>
        ensures { IfOk result (λ names. map (λ n. n.now) names.items ≡ self.now) }
    {
        let mut names = Vec::with_capacity(alloc, self.lengths.len())?;
        let mut rest = self.text.as_str();
        for length in &self.lengths {
            let (name, behind) = rest.split_at(*length);
            names.push(name)?;
            rest = behind;
        }
        Ok(names)
    }
}
