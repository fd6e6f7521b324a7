//! How the program ends.
ghost use Rattle.std.specs.Prelude.{◌≡◌};
ghost use Rattle.goset_cli.specs.Statuses.{exit_code};

/// How the program ends, where it doesn't fail.
#[derive(Clone, Copy, Debug, PartialEq, Eq)]
pub enum Status {
    /// The script was run, or help or the version was written.
    Done,
    /// The words are wrong.
    Misused,
}

/// The exit status: 0 if all is done, 1 if the program failed, and 2 if its words are wrong.
pub fn code_of<E: Copy>(ended: Result<Status, E>) -> u8
    ensures { result ≡ exit_code ended }
{
    match ended {
        Ok(Status::Done) => 0,
        Err(_) => 1,
        Ok(Status::Misused) => 2,
    }
}
