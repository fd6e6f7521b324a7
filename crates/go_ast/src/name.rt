//! Names.
ghost use Rattle.std.specs.Prelude.{◌≡◌};

use crate::spelling::Spelling;
use go_text::place::Place;
use std::marker::Model;

/// A name where it is written.
#[derive(Drop)]
pub struct Name {
    text: Spelling,
    place: Place,
}

impl Model for Name {
    ghost use Rattle.go_ast.specs.Trees as trees;

    ghost Value = { trees.Name };

    ghost view = { λ a. record { text = a.text; place = a.place } };
}

impl Name {
    /// A name at a place.
    pub fn new(text: Spelling, place: Place) -> Name
        ensures { result ≡ record { text = text; place = place } }
    {
        Name { text, place }
    }

    /// The name's text.
    pub fn text(&self) -> &str
        ensures { result.now ≡ self.now.text }
    {
        self.text.as_str()
    }

    /// The place of the name's first byte.
    pub fn place(&self) -> Place
        ensures { result ≡ self.now.place }
    {
        self.place
    }
}
