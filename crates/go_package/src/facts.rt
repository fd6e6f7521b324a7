//! What is known of a package whose declarations are checked.
ghost use Rattle.std.specs.Prelude.{◌≡◌, ◌↔◌, ℕ, IsTrue, IfOk};
ghost use Rattle.std.specs.List.{Contains};
ghost use Rattle.ws_reach.specs.Reach.{Edge, EdgesStayWithin, rows_of};
ghost use Rattle.ws_reach.specs.Worklist.{is_marked};
ghost use Rattle.go_expr.specs.Views.{names_of};
ghost use Rattle.go_objects.specs.Table.{rows as rows_in};
ghost use Rattle.go_objects.specs.Packages.{package_of};
ghost use Rattle.go_package.specs.Faults.{AreRecursive};
ghost use Rattle.go_package.specs.Views.{facts_of};

use go_expr::known::Names;
use go_objects::package::{Package, rows};
use std::alloc::{AllocError, Global};
use ws_reach::closing_edges;

/// A package, what is known of its objects, and which of them depend on themselves.
#[derive(Drop)]
pub(crate) struct Facts<'a> {
    package: &'a Package<'a>,
    known: &'a Names,
    recursive: Vec<bool>,
}

impl<'a> Facts<'a> {
    /// A package with what is known of its objects, of which those that depend on themselves are
    /// marked. An `Err` only where memory ran out.
    /// [Declarations and scope](https://go.dev/ref/spec#Declarations_and_scope)
    #[tactic(auto, unfolding(crate::specs::Views::facts_of))]
    pub(crate) fn new(
        alloc: Global,
        package: &'a Package<'a>,
        known: &'a Names,
    ) -> Result<Facts<'a>, AllocError>
        ensures package_is { IfOk result (λ facts. (facts_of facts).package ≡ package_of «package».now) }
        ensures known { IfOk result (λ facts. (facts_of facts).known ≡ names_of known.now) }
        ensures recursive { IfOk result (λ facts. AreRecursive (rows_in (package_of «package».now)) (facts_of facts).recursive) }
    {
        let rows = rows(alloc, package)?;
        let recursive = recursive_in(alloc, &rows)?;
        Ok(Facts {
            package,
            known,
            recursive,
        })
    }

    /// The package.
    #[tactic(auto, unfolding(crate::specs::Views::facts_of))]
    pub(crate) fn package(&self) -> &'a Package<'a>
        ensures { package_of result.now ≡ (facts_of self.now).package }
    {
        self.package
    }

    /// What is known of its objects.
    #[tactic(auto, unfolding(crate::specs::Views::facts_of))]
    pub(crate) fn known(&self) -> &'a Names
        ensures { names_of result.now ≡ (facts_of self.now).known }
    {
        self.known
    }

    /// Whether an object depends on itself.
    #[tactic(auto, unfolding(crate::specs::Views::facts_of))]
    pub(crate) fn is_recursive(&self, number: usize) -> bool
        ensures { result ≡ is_marked (facts_of self.now).recursive number }
    {
        match self.recursive.get(number) {
            Some(mark) => *mark,
            None => false,
        }
    }
}

// Of each declaration whether it depends on itself: an edge to it closes a cycle.
fn recursive_in(alloc: Global, rows: &[Vec<usize>]) -> Result<Vec<bool>, AllocError>
    requires { EdgesStayWithin (rows_of rows.now) }
    ensures { IfOk result (λ marks. AreRecursive (rows_of rows.now) marks.items) }
{
    let closing = closing_edges(alloc, rows)?;
    let mut recursive = Vec::new(alloc);
    for number in 0..rows.len() {
        recursive.push(has_edges(closing.as_slice(), number))?;
    }
    Ok(recursive)
}

// Whether edges lead from a node.
fn has_edges(rows: &[Vec<usize>], node: usize) -> bool
    ensures { IsTrue result ↔ ((q : ℕ) × Edge (rows_of rows.now) node q) }
{
    match rows.get(node) {
        Some(row) => has_some(row.as_slice()),
        None => false,
    }
}

fn has_some(row: &[usize]) -> bool
    ensures { IsTrue result ↔ ((q : ℕ) × Contains row.now q) }
{
    !row.is_empty()
}
