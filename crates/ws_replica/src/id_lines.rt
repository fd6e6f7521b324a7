//! Ids: how the actions of what a target reaches stand among those that a replica holds.
ghost use Rattle.std.specs.Prelude.{◌≡◌, map, IfOk, Err, List, None};
ghost use Rattle.ws_version.specs.Writes.{Write as AWrite};
ghost use Rattle.ws_action.specs.Actions.{Action as AnAction};
ghost use Rattle.ws_action.specs.Clash.{AllSized};
ghost use Rattle.ws_report.specs.Reports.{id_row};
ghost use Rattle.ws_replica.specs.Holdings.{ReplicaStandsFor};
ghost use Rattle.ws_replica.specs.Ids.{AreIds};
ghost use Rattle.ws_replica.specs.Jobs.{place_seen};
ghost use Rattle.ws_replica.specs.Stopped.{id_status_in, rows_from};
ghost use Rattle.ws_replica.specs.Reports.{IsTargetBuild};

use crate::plan::reach_one;
use crate::reached::Place;
use crate::stopped::stopped_board;
use crate::{BuildError, Replica};
use go_text::edition::Edition;
use std::alloc::{AllocError, Global};
use std::thread::Threads;
use ws_board::{JobStatus, Stopped};
use ws_report::{IdLine, IdStatus};
use ws_version::Join;

/// The id of a job on a board that runs nothing, and whether its result is held: that of a job that
/// is ready isn't.
fn id_status_of(board: &Stopped, job: usize) -> IdStatus
    ensures { result ≡ id_status_in board.now.state job }
{
    match (board.status(job), board.id(job)) {
        (JobStatus::Ready, Some(id)) => IdStatus::Absent(id),
        (JobStatus::Done(_), Some(id)) => IdStatus::Held(id),
        _ => IdStatus::NoId,
    }
}

fn lines(alloc: Global, board: &Stopped, places: Vec<Place>) -> Result<Vec<IdLine>, AllocError>
    ensures { IfOk result (λ lines. map id_row lines.items ≡ rows_from board.now.state 0 (map place_seen places.items)) }
{
    let mut lines = Vec::new(alloc);
    for place in places {
        let Place { path, fault: _ } = place;
        let standing = id_status_of(board, lines.len());
        lines.push(IdLine {
            directory: path,
            standing,
        })?;
    }
    Ok(lines)
}

/// The directories that a directory reaches, in order, each with its id and whether a result of
/// its action is held, good or faulty. A directory has no id where it has a fault of its plan, or
/// one of its imports isn't held and good. `NoPackage` comes where the directory has no files that
/// belong to a build.
pub fn ids<R: Threads + Sync>(
    rt: &R,
    alloc: Global,
    replica: &Replica,
    directory: &str,
    edition: Edition,
) -> Result<Vec<IdLine>, BuildError>
    ensures ok { IfOk result (λ lines. (W : List AWrite) (E : List AnAction) → ReplicaStandsFor replica.now W E → AllSized E
        → AreIds edition W E directory.now (map id_row lines.items)) }
    ensures none { result ≡ Err BuildError.NoPackage → (W : List AWrite) (E : List AnAction) → ReplicaStandsFor replica.now W E → IsTargetBuild edition W directory.now None }
{
    let reached = reach_one(rt, alloc, replica, directory, edition)?;
    let cache = replica.cache.copy()?;
    let (places, board) = stopped_board(alloc, reached, cache)?;
    let lines = lines(alloc, &board, places)?;
    Ok(lines)
}
