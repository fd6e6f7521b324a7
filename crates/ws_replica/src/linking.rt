//! Images of programs, linked from what a replica holds compiled.
ghost use Rattle.std.specs.Prelude.{◌≡◌, List, length, map, IfOk, IfSome, IfNone, MatchOption, Err, None};
ghost use Rattle.std.specs.Arc.{arc_value};
ghost use Rattle.go_init.specs.Packages.{package_order as order_of};
ghost use Rattle.ws_version.specs.Writes.{Write as AWrite};
ghost use Rattle.ws_action.specs.Actions.{Action as AnAction};
ghost use Rattle.ws_action.specs.Clash.{AllSized};
ghost use Rattle.ws_reach.specs.Reach.{rows_of};
ghost use Rattle.ws_replica.specs.Holdings.{ReplicaStandsFor};
ghost use Rattle.ws_replica.specs.Stopped.{IsObjectAt, LacksObjectAt, AreObjects, SomeLacks, IsLinkedTo};
ghost use Rattle.ws_replica.specs.Programs.{IsImage};
ghost use Rattle.ws_replica.specs.Reports.{IsTargetBuild};

use crate::plan::reach_one;
use crate::reached::import_rows;
use crate::stopped::stopped_board;
use crate::{BuildError, Replica};
use go_code::image::Image;
use go_code::object::Object;
use go_init::packages::package_order;
use go_link::link::{LinkError, link};
use go_text::edition::Edition;
use std::alloc::{AllocError, Global};
use std::sync::Arc;
use std::thread::Threads;
use ws_board::Stopped;
use ws_cache::Outcome;
use ws_version::Join;

/// The object of a job, where it is done and good.
fn object_of_job(
    alloc: Global,
    board: &Stopped,
    job: usize,
) -> Result<Option<Arc<Object>>, AllocError>
    ensures { IfOk result (λ object. MatchOption object (LacksObjectAt board.now job) (λ object. IsObjectAt board.now job (arc_value object))) }
{
    match board.result(job) {
        Some(Outcome::Good(_, packed)) => {
            let object = packed.unpack(alloc)?;
            Ok(Some(Arc::new(alloc, object)?))
        }
        Some(Outcome::Faulty(_)) => Ok(None),
        None => Ok(None),
    }
}

/// The objects of so many jobs, where all are done and good.
fn objects_held(
    alloc: Global,
    board: &Stopped,
    count: usize,
) -> Result<Option<Vec<Arc<Object>>>, AllocError>
    ensures some { IfOk result (λ objects. IfSome objects (λ objects. AreObjects board.now count (map arc_value objects.items))) }
    ensures none { IfOk result (λ objects. IfNone objects (SomeLacks board.now count)) }
{
    let mut objects = Vec::new(alloc);
    for job in 0..count {
        let Some(object) = object_of_job(alloc, board, job)? else {
            return Ok(None);
        };
        objects.push(object)?;
    }
    Ok(Some(objects))
}

/// The image of the objects of packages that import these, in package order. None where they are
/// no program.
fn linked(
    alloc: Global,
    objects: &[Arc<Object>],
    rows: &[Vec<usize>],
) -> Result<Option<Image>, AllocError>
    requires { length objects.now ≡ length rows.now }
    ensures { IfOk result (λ image. IsLinkedTo (map arc_value objects.now) (order_of (rows_of rows.now)) image) }
{
    let order = package_order(alloc, rows)?;
    match link(alloc, objects, &order) {
        Ok(image) => Ok(Some(image)),
        Err(LinkError::NoMain) => Ok(None),
        Err(LinkError::NameMissing) => Ok(None),
        Err(LinkError::EditionsDiffer) => Ok(None),
        Err(LinkError::Memory) => Err(AllocError),
    }
}

/// The image of the program in a directory, linked from what the replica holds compiled. None
/// where it or a directory that it reaches isn't compiled as it stands, or has a fault, or where it
/// is no program. `NoPackage` comes where the directory has no files that belong to a build.
pub fn image<R: Threads + Sync>(
    rt: &R,
    alloc: Global,
    replica: &Replica,
    directory: &str,
    edition: Edition,
) -> Result<Option<Image>, BuildError>
    ensures ok { IfOk result (λ image. (W : List AWrite) (E : List AnAction) → ReplicaStandsFor replica.now W E → AllSized E
        → IsImage edition W E directory.now image) }
    ensures none { result ≡ Err BuildError.NoPackage → (W : List AWrite) (E : List AnAction) → ReplicaStandsFor replica.now W E → IsTargetBuild edition W directory.now None }
{
    let reached = reach_one(rt, alloc, replica, directory, edition)?;
    let rows = import_rows(alloc, &reached)?;
    let cache = replica.cache.copy()?;
    let (_, board) = stopped_board(alloc, reached, cache)?;
    let Some(objects) = objects_held(alloc, &board, rows.len())? else {
        return Ok(None);
    };
    let image = linked(alloc, &objects, &rows)?;
    Ok(image)
}
