//! Whether writes bring news to others.

ghost use Rattle.std.specs.Prelude.{◌≡◌, Some, true, false, option_copied};
ghost use Rattle.std.specs.Ordering.{is_lt};
ghost use Rattle.ws_version.specs.Writes.{Held as AHeld, held_cmp};
ghost use Rattle.ws_register.specs.Pages.{Ascends, joined_writes};
ghost use Rattle.ws_register.specs.Listed.{writes_of};
ghost use Rattle.ws_register.specs.Nodes.{all_nodes};

use crate::node::Node;
use crate::page::Page;
use crate::rest::Rest;
use std::sync::Arc;
use ws_map::Ranked;
use ws_version::Write;

/// Whether what is left of one walk brings no news to what is left of another: each of its writes
/// is there, or a greater one to its path.
pub fn bring_no_news(theirs: &mut Rest<'_>, mine: &mut Rest<'_>) -> bool
    requires theirs { Ascends theirs.old }
    requires mine { Ascends mine.old }
    ensures { result ≡ true → joined_writes mine.old theirs.old ≡ mine.old }
{
    'theirs: while let Some(write) = theirs.next() {
        mine.pass_below(write.path());
        if is_news(mine.first(), write) {
            return false;
        }
    }
    true
}

// Whether a write is news where this one is the first that isn't below its path.
fn is_news(first: Option<&Write>, write: &Write) -> bool
    ensures { result ≡ false → (held : AHeld) × (option_copied first.entry ≡ Some (write.now.0, held)) × (is_lt (held_cmp held write.now.1) ≡ false) }
{
    let Some(first) = first else {
        return true;
    };
    first.path() != write.path() || first.held().is_below(write.held())
}

/// Whether a page brings no news to another.
pub fn is_known(page: &Page, other: &Page) -> bool
    requires page { Ascends (writes_of page.now) }
    requires other { Ascends (writes_of other.now) }
    ensures { result ≡ true → joined_writes (writes_of other.now) (writes_of page.now) ≡ writes_of other.now }
{
    // A counter above all others is of news.
    if other.greatest() < page.greatest() {
        return false;
    }
    bring_no_news(&mut Rest::of_page(page), &mut Rest::of_page(other))
}

/// Whether some nodes bring no news to others.
pub fn are_known(nodes: &[Arc<Node>], others: &[Arc<Node>]) -> bool
    requires nodes { Ascends (all_nodes nodes.now) }
    requires others { Ascends (all_nodes others.now) }
    ensures { result ≡ true → joined_writes (all_nodes others.now) (all_nodes nodes.now) ≡ all_nodes others.now }
{
    if greatest_in(others) < greatest_in(nodes) {
        return false;
    }
    bring_no_news(&mut Rest::of(nodes), &mut Rest::of(others))
}

fn greatest_in(nodes: &[Arc<Node>]) -> u64 {
    let mut greatest = 0;
    for node in nodes {
        greatest = greatest_of(node.pages()).max(greatest);
    }
    greatest
}

fn greatest_of(pages: &[Arc<Page>]) -> u64 {
    let mut greatest = 0;
    for page in pages {
        greatest = page.greatest().max(greatest);
    }
    greatest
}
