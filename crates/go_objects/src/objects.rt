//! What a package declares: an object for each name.
ghost use Rattle.std.specs.Prelude.{map};
ghost use Rattle.go_objects.specs.Numbers.{Numbered};
ghost use Rattle.go_objects.specs.Views.{object_view};

use crate::object::Object;
use indexmap::IndexSet;

/// What a package declares, one object for each name, in the order of the source.
#[derive(Drop)]
pub struct Objects<'a> {
    pub(crate) list: Vec<Object<'a>>,
    pub(crate) names: IndexSet<&'a str>,
    ghost numbered: { Numbered (map (λ n. n.now) names.keys) (map object_view list.items) },
}
