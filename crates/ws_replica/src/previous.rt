//! What a new plan takes of the last one: files that are the same are neither parsed nor hashed again, nor
//! are actions whose texts are the same.
ghost use Rattle.std.specs.Prelude.{◌≡◌, IfOk, IfSome};
ghost use Rattle.std.specs.Arc.{arc_value};
ghost use Rattle.std.specs.Bool.{OnTrue};

use crate::reached::{Shared, SharedNode};
use go_ast::parsed::Parsed;
use std::alloc::{AllocError, Global};
use std::sync::Arc;
use ws_action::{Action, Files};
use ws_graph::PreviousFiles;

/// A directory of the previous plan, which had no fault: its path and its files.
#[derive(Drop)]
pub(crate) struct PreviousDirectory {
    pub(crate) path: String,
    pub(crate) files: Arc<Files>,
}

/// The files of the last plan that a replica made, and the actions that directories had in its last
/// build, both by the paths of their directories, which ascend. Nothing is promised of them: what
/// isn't found is parsed and hashed. Copies share them.
#[derive(Drop)]
pub(crate) struct PreviousBuild {
    pub(crate) directories: Arc<Vec<PreviousDirectory>>,
    pub(crate) actions: Arc<Vec<Arc<Action>>>,
}

fn actions_of(
    alloc: Global,
    past: Option<&PreviousBuild>,
) -> Result<Arc<Vec<Arc<Action>>>, AllocError> {
    let Some(past) = past else {
        let none = Arc::new(alloc, Vec::new(alloc))?;
        return Ok(none);
    };
    let actions = Arc::try_clone(&past.actions)?;
    Ok(actions)
}

/// What the next build may use of a plan: the files of its directories, which it shares, and the
/// actions of the previous build.
pub(crate) fn build_of_plan(
    alloc: Global,
    plan: &[Shared],
    before: Option<&PreviousBuild>,
) -> Result<PreviousBuild, AllocError> {
    let mut directories = Vec::new(alloc);
    for directory in plan {
        if let SharedNode::Sound(files) = &directory.node {
            directories.push(PreviousDirectory {
                path: directory.path.clone()?,
                files: Arc::try_clone(files)?,
            })?;
        }
    }
    let directories = Arc::new(alloc, directories)?;
    let actions = actions_of(alloc, before)?;
    Ok(PreviousBuild {
        directories,
        actions,
    })
}

/// A past with the actions of a new build.
pub(crate) fn with_actions(
    past: Option<PreviousBuild>,
    actions: Arc<Vec<Arc<Action>>>,
) -> Option<PreviousBuild> {
    let past = past?;
    let PreviousBuild {
        directories,
        actions: _,
    } = past;
    Some(PreviousBuild {
        directories,
        actions,
    })
}

/// Another owner of the same.
pub(crate) fn copied(past: Option<&PreviousBuild>) -> Result<Option<PreviousBuild>, AllocError> {
    let Some(past) = past else {
        return Ok(None);
    };
    let directories = Arc::try_clone(&past.directories)?;
    let actions = Arc::try_clone(&past.actions)?;
    Ok(Some(PreviousBuild {
        directories,
        actions,
    }))
}

/// The action that a directory had in the last build, if it had one.
pub(crate) fn action_at(
    past: Option<&PreviousBuild>,
    path: &str,
) -> Result<Option<Arc<Action>>, AllocError> {
    let Some(past) = past else {
        return Ok(None);
    };
    let actions = past.actions.as_slice();
    let found = actions.binary_search_by(|one| one.path().cmp(path));
    let Ok(number) = found else {
        return Ok(None);
    };
    let Some(action) = actions.get(number) else {
        return Ok(None);
    };
    let action = Arc::try_clone(action)?;
    Ok(Some(action))
}

/// What a plan may take of the past.
pub(crate) fn known_of<'a>(
    alloc: Global,
    past: Option<&'a PreviousBuild>,
) -> Result<Vec<PreviousFiles<'a>>, AllocError> {
    let mut known = Vec::new(alloc);
    let Some(past) = past else {
        return Ok(known);
    };
    for directory in past.directories.as_slice() {
        known.push(PreviousFiles {
            path: directory.path.as_str(),
            files: directory.files.parsed(),
        })?;
    }
    Ok(known)
}

fn files_at<'a>(past: &'a PreviousBuild, path: &str) -> Option<&'a Arc<Files>> {
    let directories = past.directories.as_slice();
    let found = directories.binary_search_by(|one| one.path.as_str().cmp(path));
    let Ok(number) = found else {
        return None;
    };
    let one = directories.get(number)?;
    Some(&one.files)
}

fn are_of_one_edition(one: &Parsed, other: &Parsed) -> bool
    ensures { OnTrue result (one.now.edition ≡ other.now.edition) }
{
    one.edition() == other.edition()
}

fn have_one_name(one: &Parsed, other: &Parsed) -> bool
    ensures { OnTrue result (one.now.name ≡ other.now.name) }
{
    one.name() == other.name()
}

fn have_one_text(one: &Parsed, other: &Parsed) -> bool
    ensures { OnTrue result (one.now.text ≡ other.now.text) }
{
    one.text().as_str() == other.text().as_str()
}

fn is_same(one: &Parsed, other: &Parsed) -> bool
    ensures { OnTrue result (one.now ≡ other.now) }
{
    if !are_of_one_edition(one, other) {
        return false;
    }
    if !have_one_name(one, other) {
        return false;
    }
    have_one_text(one, other)
}

fn are_same(files: &[Parsed], others: &[Parsed]) -> bool
    ensures { OnTrue result (files.now ≡ others.now) }
{
    let mut left = others;
    for file in files {
        let Some((other, rest)) = left.split_first() else {
            return false;
        };
        if !is_same(file, other) {
            return false;
        }
        left = rest;
    }
    left.is_empty()
}

/// The files that the past has at a path, if they are these.
fn same_files<'a>(
    past: Option<&'a PreviousBuild>,
    path: &str,
    files: &[Parsed],
) -> Option<&'a Arc<Files>>
    ensures { IfSome result (λ kept. arc_value kept.now ≡ files.now) }
{
    let kept = files_at(past?, path)?;
    if are_same(kept.parsed(), files) {
        Some(kept)
    } else {
        None
    }
}

fn files_before<'a>(past: Option<&'a PreviousBuild>, path: &str) -> Option<&'a Files> {
    let files: &Files = files_at(past?, path)?;
    Some(files)
}

/// The files of a directory as actions take them: those of the past, if they are the same; else no
/// text is hashed again that the past has.
pub(crate) fn shared_files(
    alloc: Global,
    past: Option<&PreviousBuild>,
    path: &str,
    files: Vec<Parsed>,
) -> Result<Arc<Files>, AllocError>
    ensures { IfOk result (λ shared. arc_value shared ≡ files.items) }
{
    if let Some(kept) = same_files(past, path, files.as_slice()) {
        let shared = Arc::try_clone(kept)?;
        return Ok(shared);
    }
    let files = Files::after(alloc, files, files_before(past, path))?;
    let shared = Arc::new(alloc, files)?;
    Ok(shared)
}
