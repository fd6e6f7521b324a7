//! Two lists of nodes, joined.

ghost use Rattle.std.specs.Prelude.{◌≡◌, ◌<◌, ◌+◌, ℕ, List, [], ◌∷◌, ◌++◌, ◌⊎◌, length, true, false, IfOk, OnOk};
ghost use Rattle.ws_version.specs.Writes.{Write as AWrite, Held as AHeld, greater_held};
ghost use Rattle.ws_register.specs.Pages.{Ascends, AllPathsBelow, BeginAlike, joined_writes};
ghost use Rattle.ws_register.specs.Listed.{all_writes};
ghost use Rattle.ws_register.specs.Nodes.{all_nodes};

use crate::draft::Draft;
use crate::node::{FULL, Node};
use crate::page::Page;
use crate::rest::Rest;
use std::alloc::{AllocError, Global};
use std::cmp::Ordering;
use std::sync::Arc;
use ws_map::Ranked;
use ws_version::Write;

/// The nodes of what two lists hold together. An `Err` only where memory ran out.
pub fn joined(
    alloc: Global,
    mine: &[Arc<Node>],
    theirs: &[Arc<Node>],
) -> Result<Vec<Arc<Node>>, AllocError>
    requires mine { Ascends (all_nodes mine.now) }
    requires theirs { Ascends (all_nodes theirs.now) }
    ensures { IfOk result (λ nodes. all_nodes nodes.items ≡ joined_writes (all_nodes mine.now) (all_nodes theirs.now)) }
{
    let mut draft = Draft::new(alloc);
    merge_rests(&mut Rest::of(mine), &mut Rest::of(theirs), &mut draft)?;
    let pages = draft.into_pages()?;
    let nodes = nodes_of(alloc, &pages)?;
    Ok(nodes)
}

// Nodes of these pages, in their order, each half full. An `Err` only where memory ran out.
fn nodes_of(alloc: Global, pages: &[Arc<Page>]) -> Result<Vec<Arc<Node>>, AllocError>
    ensures { IfOk result (λ nodes. all_nodes nodes.items ≡ all_writes pages.now) }
{
    let mut nodes = Vec::new(alloc);
    let mut rest = pages;
    'cut: while !rest.is_empty() {
        let (front, back) = rest.split_at(rest.len().min(FULL / 2));
        nodes.push(Node::of(alloc, front)?)?;
        rest = back;
    }
    Ok(nodes)
}

// Adds what two walks have together.
fn merge_rests(
    mine: &mut Rest<'_>,
    theirs: &mut Rest<'_>,
    draft: &mut Draft,
) -> Result<(), AllocError>
    requires mine { Ascends mine.old }
    requires theirs { Ascends theirs.old }
    ensures { OnOk result (draft.new ≡ draft.old ++ joined_writes mine.old theirs.old) }
{
    'steps: while take_step(mine, theirs, draft)? {}
    take_all(mine, draft)?;
    take_all(theirs, draft)
}

// Adds what comes first of two walks, and answers whether both had writes.
fn take_step(
    mine: &mut Rest<'_>,
    theirs: &mut Rest<'_>,
    draft: &mut Draft,
) -> Result<bool, AllocError>
    requires mine { Ascends mine.old }
    requires theirs { Ascends theirs.old }
    ensures joined { OnOk result (draft.new ++ joined_writes mine.new theirs.new ≡ draft.old ++ joined_writes mine.old theirs.old) }
    ensures mine { OnOk result (Ascends mine.new) }
    ensures theirs { OnOk result (Ascends theirs.new) }
    ensures more { IfOk result (λ more. more ≡ true → length mine.new + length theirs.new < length mine.old + length theirs.old) }
    ensures done { IfOk result (λ more. more ≡ false → (mine.new ≡ []) ⊎ (theirs.new ≡ [])) }
{
    let Some(first) = mine.first() else {
        return Ok(false);
    };
    let Some(other) = theirs.first() else {
        return Ok(false);
    };
    match first.path().cmp(other.path()) {
        Ordering::Less => {
            take_below(mine, other.path(), draft)?;
            Ok(true)
        }
        Ordering::Greater => {
            take_below(theirs, first.path(), draft)?;
            Ok(true)
        }
        Ordering::Equal => {
            take_both(mine, theirs, draft)?;
            Ok(true)
        }
    }
}

// Adds the first write of a walk, which is below a path, or the first page where all of it is.
fn take_below(rest: &mut Rest<'_>, path: &str, draft: &mut Draft) -> Result<(), AllocError>
    requires ascends { Ascends rest.old }
    requires below { (w : AWrite) × (ws : List AWrite) × (rest.old ≡ w ∷ ws) × AllPathsBelow (w ∷ []) path.now }
    ensures taken { OnOk result ((front : List AWrite) × (rest.old ≡ front ++ rest.new) × AllPathsBelow front path.now × (draft.new ≡ draft.old ++ front)) }
    ensures fewer { OnOk result (length rest.new < length rest.old) }
{
    if let Some(page) = rest.next_page_below(path) {
        return draft.push_page(page);
    }
    let Some(write) = rest.next_shared() else {
        return Ok(());
    };
    draft.push(write)
}

// Adds the greater of the first writes of two walks, which are to one path. Where a whole page of
// one brings no news to a page of the other, it is passed, and nothing is added.
fn take_both(
    mine: &mut Rest<'_>,
    theirs: &mut Rest<'_>,
    draft: &mut Draft,
) -> Result<(), AllocError>
    requires mine { Ascends mine.old }
    requires theirs { Ascends theirs.old }
    requires both { BeginAlike mine.old theirs.old }
    ensures joined { OnOk result (draft.new ++ joined_writes mine.new theirs.new ≡ draft.old ++ joined_writes mine.old theirs.old) }
    ensures mine { OnOk result (Ascends mine.new) }
    ensures theirs { OnOk result (Ascends theirs.new) }
    ensures fewer { OnOk result (length mine.new + length theirs.new < length mine.old + length theirs.old) }
{
    if theirs.skip_known(mine) {
        return Ok(());
    }
    if mine.skip_known(theirs) {
        return Ok(());
    }
    take_greater(mine, theirs, draft)
}

// Adds the greater of the first writes of two walks, which are to one path.
fn take_greater(
    mine: &mut Rest<'_>,
    theirs: &mut Rest<'_>,
    draft: &mut Draft,
) -> Result<(), AllocError>
    requires mine { Ascends mine.old }
    requires theirs { Ascends theirs.old }
    requires both { BeginAlike mine.old theirs.old }
    ensures joined { OnOk result (draft.new ++ joined_writes mine.new theirs.new ≡ draft.old ++ joined_writes mine.old theirs.old) }
    ensures mine { OnOk result (Ascends mine.new) }
    ensures theirs { OnOk result (Ascends theirs.new) }
    ensures fewer { OnOk result (length mine.new + length theirs.new < length mine.old + length theirs.old) }
{
    let Some(first) = mine.next_shared() else {
        return Ok(());
    };
    let Some(other) = theirs.next_shared() else {
        return Ok(());
    };
    draft.push(greater_of(first, other))
}

fn greater_of<'a>(first: &'a Arc<Write>, other: &'a Arc<Write>) -> &'a Arc<Write>
    ensures { (path : List ℕ) (a b : AHeld) → first.now.value ≡ (path, a) → other.now.value ≡ (path, b) → result.now.value ≡ (path, greater_held a b) }
{
    if first.held().is_below(other.held()) {
        other
    } else {
        first
    }
}

// Adds all of a walk.
fn take_all(rest: &mut Rest<'_>, draft: &mut Draft) -> Result<(), AllocError>
    ensures { OnOk result (draft.new ≡ draft.old ++ rest.old) }
{
    'rest: while take_any(rest, draft)? {}
    Ok(())
}

// Adds the page or the write that comes first of a walk, if one is left.
fn take_any(rest: &mut Rest<'_>, draft: &mut Draft) -> Result<bool, AllocError>
    ensures taken { OnOk result (draft.new ++ rest.new ≡ draft.old ++ rest.old) }
    ensures more { IfOk result (λ more. more ≡ true → length rest.new < length rest.old) }
    ensures done { IfOk result (λ more. more ≡ false → rest.new ≡ []) }
{
    if let Some(page) = rest.next_page() {
        draft.push_page(page)?;
        return Ok(true);
    }
    let Some(write) = rest.next_shared() else {
        return Ok(false);
    };
    draft.push(write)?;
    Ok(true)
}
