//! Which commands change a workspace.
ghost use Rattle.std.specs.Prelude.{◌≡◌};
ghost use Rattle.ws_command.specs.Views.{command_view};
ghost use Rattle.ws_keep.specs.Keeping.{is_change};

use ws_command::commands::Asked;

/// Whether a command may change the edition or what replicas hold.
pub fn is_change(asked: &Asked<'_>) -> bool
    ensures { result ≡ is_change (command_view asked.now) }
{
    !matches!(
        asked,
        Asked::Nothing | Asked::Bad | Asked::Run(_, _, _) | Asked::Ids(_, _) | Asked::Show(_)
    )
}
