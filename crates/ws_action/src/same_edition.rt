//! Whether files and summaries are of an edition.
ghost use Rattle.std.specs.Prelude.{◌≡◌, map};
ghost use Rattle.std.specs.Arc.{arc_value};
ghost use Rattle.std.specs.Bool.{OnTrue, OnFalse};
ghost use Rattle.std.specs.List.{All};
ghost use Rattle.ws_action.specs.Actions.{HaveEdition};

use go_ast::parsed::Parsed;
use go_export::summary::Summary;
use go_text::edition::Edition;
use std::sync::Arc;

/// Whether each file is of that edition.
fn are_written_in(edition: Edition, files: &[Parsed]) -> bool
    ensures are { OnTrue result (All (λ file. file.edition ≡ edition) files.now) }
    ensures other { OnFalse result (All (λ file. file.edition ≡ edition) files.now → ⊥) }
{
    for file in files {
        if file.edition() != edition {
            return false;
        }
    }
    true
}

/// Whether each summary is of a package of that edition.
fn are_told_in(edition: Edition, summaries: &[Arc<Summary>]) -> bool
    ensures are { OnTrue result (All (λ summary. summary.edition ≡ edition) (map arc_value summaries.now)) }
    ensures other { OnFalse result (All (λ summary. summary.edition ≡ edition) (map arc_value summaries.now) → ⊥) }
{
    for summary in summaries {
        if summary.edition() != edition {
            return false;
        }
    }
    true
}

/// Whether all of them are of that edition.
pub(crate) fn have_edition(edition: Edition, files: &[Parsed], summaries: &[Arc<Summary>]) -> bool
    ensures have { OnTrue result (HaveEdition edition files.now (map arc_value summaries.now)) }
    ensures other { OnFalse result (HaveEdition edition files.now (map arc_value summaries.now) → ⊥) }
{
    are_written_in(edition, files) && are_told_in(edition, summaries)
}
