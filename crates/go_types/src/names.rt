//! Which names other packages see.
ghost use Rattle.std.specs.Prelude.{◌≡◌};
ghost use Rattle.go_types.specs.Names.{is_exported};

use ucd_category::GeneralCategory;

/// Whether a name is exported: its first character is an upper-case letter.
/// [Exported identifiers](https://go.dev/ref/spec#Exported_identifiers)
pub fn is_exported(name: &str) -> bool
    ensures { result ≡ is_exported name.now }
{
    match name.chars().next() {
        Some(first) => GeneralCategory::for_char(first) == GeneralCategory::UppercaseLetter,
        None => false,
    }
}
