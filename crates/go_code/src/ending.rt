//! How programs end.
ghost use Rattle.std.specs.Prelude.{◌≡◌};
ghost use Rattle.go_code.specs.Kinds.{panic_word};

use go_const::constant::Text;

/// Why a program panics.
#[derive(Drop)]
pub enum PanicKind {
    /// A division by zero.
    Divide,
    /// An index out of range.
    Index,
    /// Bounds of a slice expression out of range.
    Slice,
    /// A length or a capacity out of range where a slice is made.
    Make,
    /// A negative shift count.
    Shift,
    /// More open calls than there may be.
    Depth,
    /// A text or a row longer than they may be.
    Long,
    /// The program's own, with its text.
    User(Text),
}

impl PanicKind {
    /// The kind's word, as a run is told.
    pub fn word(&self) -> &'static str
        ensures { result.now ≡ panic_word self.now }
    {
        match self {
            PanicKind::Divide => "divide",
            PanicKind::Index => "index",
            PanicKind::Slice => "slice",
            PanicKind::Make => "make",
            PanicKind::Shift => "shift",
            PanicKind::Depth => "depth",
            PanicKind::Long => "long",
            PanicKind::User(_) => "user",
        }
    }
}

/// How a program ends that is given some ticks.
#[derive(Drop)]
pub enum Ending {
    /// Each start step has returned.
    Ended,
    /// A tick was wanted and none was left.
    Cut,
    /// The program panicked.
    Panicked(PanicKind),
}
