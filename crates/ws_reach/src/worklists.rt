//! Numbers that wait to be looked at, each once.
ghost use Rattle.std.specs.Prelude.{◌≡◌, ℕ, ◌<◌, ◌≤◌, ◌⊎◌, List, [], ◌∷◌, true, false, length, slice_set, vec_len, IfOk, OnOk, IsTrue};
ghost use Rattle.std.specs.List.{Contains};
ghost use Rattle.ws_reach.specs.Worklist.{AreMarks, AreAdded, AllBelow, Grows, is_marked};

use crate::walks::node_at;
use std::alloc::{AllocError, Global};
use std::marker::Model;

/// Numbers below a size, in the order in which they were added, each once. The list is its own
/// queue: who goes along it meets the numbers that are added on the way.
#[derive(Drop)]
pub struct Worklist {
    marks: Vec<bool>,
    found: Vec<usize>,
}

impl Model for Worklist {
    ghost use Rattle.std.specs.Prelude.{length};
    ghost use Rattle.ws_reach.specs.Worklist as worklist;

    ghost Value = { worklist.Noted };

    ghost view = { λ a. record { size = length a.marks.items; found = a.found.items } };

    ghost invariant = { λ a. worklist.AreMarks a.marks.items a.found.items };
}

impl Worklist {
    /// An empty one for the numbers below a size.
    pub fn new(alloc: Global, size: usize) -> Result<Worklist, AllocError>
        ensures { IfOk result (λ list. list ≡ record { size = size; found = [] }) }
    {
        let marks = unmarked(alloc, size)?;
        Ok(Worklist {
            marks,
            found: Vec::new(alloc),
        })
    }

    /// The numbers so far, in the order in which they were added.
    pub fn found(&self) -> &[usize]
        ensures value { result.now ≡ self.now.found }
        ensures few { length result.now ≤ self.now.size }
        ensures below { AllBelow self.now.size result.now }
    {
        self.found.as_slice()
    }

    /// The numbers, in the order in which they were added.
    pub fn into_found(self) -> Vec<usize>
        ensures { result.items ≡ self.found }
    {
        self.found
    }

    /// Whether all numbers below the size were added.
    pub(crate) fn is_full(&self) -> bool
        ensures { IsTrue result → (q : ℕ) → q < self.now.size → Contains self.now.found q }
    {
        are_all(self.marks.as_slice())
    }

    /// Adds those of some numbers that it lacks.
    pub fn add_all(&mut self, nodes: &[usize]) -> Result<(), AllocError>
        requires { AllBelow self.old.size nodes.now }
        ensures { OnOk result (AreAdded self.old nodes.now self.new) }
    {
        note_all(&mut self.marks, &mut self.found, nodes)?;
        Ok(())
    }
}

fn are_all(marks: &[bool]) -> bool
    ensures { IsTrue result → (q : ℕ) → q < length marks.now → is_marked marks.now q ≡ true }
{
    for i in 0..marks.len() {
        if !marks[i] {
            return false;
        }
    }
    true
}

fn note_all(
    marks: &mut Vec<bool>,
    found: &mut Vec<usize>,
    nodes: &[usize],
) -> Result<(), AllocError>
    requires below { AllBelow (length marks.old.items) nodes.now }
    requires marks { AreMarks marks.old.items found.old.items }
    ensures size { length marks.new.items ≡ length marks.old.items }
    ensures kept { AreMarks marks.new.items found.new.items }
    ensures grows { Grows found.old.items found.new.items }
    ensures taken { OnOk result ((x : ℕ) → Contains nodes.now x → Contains found.new.items x) }
    ensures from { (x : ℕ) → Contains found.new.items x → Contains found.old.items x ⊎ Contains nodes.now x }
{
    for i in 0..nodes.len() {
        note(marks, found, node_at(nodes, i))?;
    }
    Ok(())
}

fn unmarked(alloc: Global, size: usize) -> Result<Vec<bool>, AllocError>
    ensures size { IfOk result (λ marks. vec_len marks ≡ size) }
    ensures none { IfOk result (λ marks. (q : ℕ) → is_marked marks.items q ≡ false) }
{
    let marks = vec![in alloc; false; size]?;
    Ok(marks)
}

fn mark(marks: &mut Vec<bool>, node: usize)
    requires { node < length marks.old.items }
    ensures { marks.new.items ≡ slice_set marks.old.items node true }
{
    marks[node] = true;
}

// A number that was not met yet is noted.
fn note(marks: &mut Vec<bool>, found: &mut Vec<usize>, node: usize) -> Result<(), AllocError>
    requires below { node < length marks.old.items }
    requires marks { AreMarks marks.old.items found.old.items }
    ensures size { length marks.new.items ≡ length marks.old.items }
    ensures kept { AreMarks marks.new.items found.new.items }
    ensures grows { Grows found.old.items found.new.items }
    ensures taken { OnOk result (Contains found.new.items node) }
    ensures from { (x : ℕ) → Contains found.new.items x → Contains found.old.items x ⊎ (x ≡ node) }
{
    if marks[node] {
        return Ok(());
    }
    found.push(node)?;
    mark(marks, node);
    Ok(())
}
