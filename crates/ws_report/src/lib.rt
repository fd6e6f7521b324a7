//! What a build says: of each directory that it reaches, and how many actions it compiled; and the ids of
//! directories.
#![tactic(auto)]

ghost use Rattle.std.specs.Prelude.{◌≡◌};
ghost use Rattle.ws_report.specs.Reports.{is_good};

use go_text::fault::Fault;

/// What a build says of a directory.
#[derive(Drop)]
pub enum Verdict {
    Good,
    /// It imports one that is faulty or blocked.
    Blocked,
    Faulty(Fault),
}

impl Verdict {
    /// Whether the directory is good.
    pub fn is_good(&self) -> bool
        ensures { result ≡ is_good self.now }
    {
        match self {
            Verdict::Good => true,
            Verdict::Blocked | Verdict::Faulty(_) => false,
        }
    }
}

/// What a build says of each directory that it reaches, in order, and how many actions it compiled.
#[derive(Drop)]
pub struct Report {
    pub directories: Vec<(String, Verdict)>,
    pub compiled: u64,
}

/// How a directory's action stands among those whose results a replica holds.
#[derive(Clone, Copy, Debug, PartialEq, Eq, Drop)]
pub enum IdStatus {
    /// It has no action, or one of its imports isn't held and good.
    NoId,
    /// No result is held of the action with that id.
    Absent([u8; 32]),
    /// One is held, good or faulty.
    Held([u8; 32]),
}

/// A directory that is reached, with how its action stands.
#[derive(Drop)]
pub struct IdLine {
    pub directory: String,
    pub standing: IdStatus,
}
