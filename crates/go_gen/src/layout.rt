//! Where variables lie.
ghost use Rattle.std.specs.Prelude.{◌≡◌};
ghost use Rattle.go_gen.specs.Views.{places_of};

/// Where local variables lie, by the number of their first cell.
#[derive(Clone, Copy)]
pub struct Layout<'a> {
    /// Those of the local variables.
    pub slots: &'a [usize],
}

impl Layout<'_> {
    /// The first cell of a local variable; 0 where there is no such variable.
    pub fn local(&self, number: usize) -> usize
        ensures { result ≡ (places_of self.now).locals number }
    {
        match self.slots.get(number) {
            Some(slot) => *slot,
            None => 0,
        }
    }
}
