//! Laws of types.
ghost use Rattle.std.specs.Prelude.{◌≡◌};
ghost use Rattle.go_types.specs.Types.{Type'};
ghost use Rattle.go_types.specs.Texts.{type_text, IsWritable};

/// Writable types of one text are equal.
pub fn law_one_type()
    ensures { (a b : Type') → IsWritable a → IsWritable b → type_text a ≡ type_text b → a ≡ b }
{}
