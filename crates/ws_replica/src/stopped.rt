//! Boards that are opened and never run: what a cache knows of a plan.
ghost use Rattle.std.specs.Prelude.{◌≡◌, map, IfOk};
ghost use Rattle.ws_replica.specs.Jobs.{place_seen, reached_of};
ghost use Rattle.ws_replica.specs.Stopped.{IsOpened};

use crate::building::add_jobs;
use crate::reached::{Place, Reached};
use std::alloc::{AllocError, Global};
use ws_board::{Board, Stopped};
use ws_cache::Cache;

/// A board that runs nothing, of the directories that were reached, over a cache; with their places.
pub(crate) fn stopped_board(
    alloc: Global,
    reached: Vec<Reached>,
    cache: Cache,
) -> Result<(Vec<Place>, Stopped), AllocError>
    ensures places { IfOk result (λ opened. map place_seen opened.0.items ≡ map (λ r. r.place) (map reached_of reached.items)) }
    ensures board { IfOk result (λ opened. IsOpened (map reached_of reached.items) cache opened.1) }
{
    let mut jobs = Vec::new(alloc);
    let places = add_jobs(alloc, reached, &mut jobs)?;
    let board = Board::open(alloc, jobs, cache)?;
    Ok((places, board.stopped()))
}
