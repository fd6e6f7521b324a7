//! Editions of packages.
ghost use Rattle.std.specs.Prelude.{◌≡◌, map};
ghost use Rattle.std.specs.Arc.{arc_value};
ghost use Rattle.std.specs.List.{list_any};
ghost use Rattle.go_link.specs.Links.{object_edition, editions_differ, is_of_other, last_object};

use go_code::object::Object;
use go_text::edition::Edition;
use std::sync::Arc;

/// The edition that the last package is of; the first where there is none.
pub(crate) fn edition_of(packages: &[Arc<Object>]) -> Edition
    ensures { result ≡ object_edition (last_object (map arc_value packages.now)) }
{
    match packages.last() {
        None => Edition::One,
        Some(object) => object.edition(),
    }
}

/// Whether a package is of another edition than this one.
fn is_of_other(edition: Edition, object: &Object) -> bool
    ensures { result ≡ is_of_other edition object.now }
{
    object.edition().number() != edition.number()
}

/// Whether some package is of another edition than this one.
fn has_other(edition: Edition, packages: &[Arc<Object>]) -> bool
    ensures { result ≡ list_any (is_of_other edition) (map arc_value packages.now) }
{
    for object in packages {
        if is_of_other(edition, object) {
            return true;
        }
    }
    false
}

/// Whether some package is of another edition than the last.
pub(crate) fn editions_differ(packages: &[Arc<Object>]) -> bool
    ensures { result ≡ editions_differ (map arc_value packages.now) }
{
    has_other(edition_of(packages), packages)
}
