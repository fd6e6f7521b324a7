//! The directories of a plan, each with what is to be compiled of it.
ghost use Rattle.std.specs.Prelude.{◌≡◌, map, IfOk};
ghost use Rattle.ws_graph.specs.Node.{directory_of};
ghost use Rattle.ws_reach.specs.Reach.{rows_of};
ghost use Rattle.ws_replica.specs.Jobs.{shared_of, reached_by, reached_of};

use crate::previous::{PreviousBuild, action_at, shared_files};
use go_text::edition::Edition;
use go_text::fault::Fault;
use std::alloc::{AllocError, Global};
use std::sync::Arc;
use ws_action::Files;
use ws_board::Work;
use ws_graph::Node;
use ws_graph::planning::Directory;

/// A directory of a plan, of which the files are shared: many boards take jobs of one plan.
#[derive(Drop)]
pub(crate) struct Shared {
    pub(crate) path: String,
    pub(crate) node: SharedNode,
    pub(crate) imports: Vec<usize>,
}

/// The files of a directory, or the fault that stands in the way.
#[derive(Drop)]
pub(crate) enum SharedNode {
    Faulty(Fault),
    Sound(Arc<Files>),
}

/// A directory, and the fault of its plan, if it has one.
#[derive(Drop)]
pub(crate) struct Place {
    pub(crate) path: String,
    pub(crate) fault: Option<Fault>,
}

/// A directory with what is to be compiled of it, if it has no fault of its plan, and the numbers
/// of its imports.
#[derive(Drop)]
pub(crate) struct Reached {
    pub(crate) place: Place,
    pub(crate) work: Option<Work>,
    pub(crate) imports: Vec<usize>,
}

/// A directory whose files are shared. They are hashed here, where no lock is held, unless the past
/// has them.
fn share(
    alloc: Global,
    past: Option<&PreviousBuild>,
    directory: Directory,
) -> Result<Shared, AllocError>
    ensures { IfOk result (λ shared. shared_of shared ≡ directory_of directory) }
{
    let Directory {
        path,
        node,
        imports,
    } = directory;
    let node = match node {
        Node::Faulty(fault) => SharedNode::Faulty(fault),
        Node::Sound(files) => {
            SharedNode::Sound(shared_files(alloc, past, path.as_str(), files)?)
        }
    };
    Ok(Shared {
        path,
        node,
        imports,
    })
}

/// The directories of a plan, of which the files are shared.
pub(crate) fn all_shared(
    alloc: Global,
    past: Option<&PreviousBuild>,
    directories: Vec<Directory>,
) -> Result<Vec<Shared>, AllocError>
    ensures { IfOk result (λ all. map shared_of all.items ≡ map directory_of directories.items) }
{
    let mut all = Vec::new(alloc);
    for directory in directories {
        let one = share(alloc, past, directory)?;
        all.push(one)?;
    }
    Ok(all)
}

/// A directory with its work.
fn reached_as(
    alloc: Global,
    edition: Edition,
    past: Option<&PreviousBuild>,
    directory: &Shared,
) -> Result<Reached, AllocError>
    ensures { IfOk result (λ reached. reached_of reached ≡ reached_by edition (shared_of directory.now)) }
{
    let path = directory.path.clone()?;
    let imports = Vec::from_slice(alloc, &directory.imports)?;
    match &directory.node {
        SharedNode::Faulty(fault) => {
            let fault = Some(fault.copy()?);
            Ok(Reached {
                place: Place { path, fault },
                work: None,
                imports,
            })
        }
        SharedNode::Sound(files) => {
            let last = action_at(past, directory.path.as_str())?;
            let work = Work::after(edition, path.clone()?, Arc::try_clone(files)?, last);
            Ok(Reached {
                place: Place { path, fault: None },
                work: Some(work),
                imports,
            })
        }
    }
}

/// The directories of a plan with their work, and with the actions that the past has of them.
pub(crate) fn all_reached(
    alloc: Global,
    edition: Edition,
    past: Option<&PreviousBuild>,
    directories: &[Shared],
) -> Result<Vec<Reached>, AllocError>
    ensures { IfOk result (λ reached. map reached_of reached.items ≡ map (reached_by edition) (map shared_of directories.now)) }
{
    let mut reached = Vec::new(alloc);
    for directory in directories {
        let one = reached_as(alloc, edition, past, directory)?;
        reached.push(one)?;
    }
    Ok(reached)
}

/// The numbers that each imports.
pub(crate) fn import_rows(alloc: Global, reached: &[Reached]) -> Result<Vec<Vec<usize>>, AllocError>
    ensures { IfOk result (λ rows. rows_of rows.items ≡ map (λ r. r.imports) (map reached_of reached.now)) }
{
    let mut rows = Vec::new(alloc);
    for one in reached {
        let row = Vec::from_slice(alloc, &one.imports)?;
        rows.push(row)?;
    }
    Ok(rows)
}
