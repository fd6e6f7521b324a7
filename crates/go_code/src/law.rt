//! What holds of each image's run.
ghost use Rattle.std.specs.Prelude.{◌≡◌, ℕ};
ghost use Rattle.go_code.specs.Finals.{Final};
ghost use Rattle.go_code.specs.Images.{Image};
ghost use Rattle.go_code.specs.Machine.{MachineMeaning};

/// An image that is given some ticks comes to an end, whether its code makes sense or not.
pub fn law_some_end()
    ensures { (image : Image) (ticks : ℕ) → (final : Final) × MachineMeaning image ticks final }
{}

/// An image that is given some ticks comes to one end alone.
pub fn law_one_end()
    ensures { (image : Image) (ticks : ℕ) (a b : Final) → MachineMeaning image ticks a → MachineMeaning image ticks b → a ≡ b }
{}
