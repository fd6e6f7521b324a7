//! A search for the components of a graph: the sets of nodes that reach one another.
ghost use Rattle.std.specs.Prelude.{◌≡◌, slice_index};

use std::alloc::{AllocError, Global};

/// For each node the root of its component, and a rank, which falls along edges that lead out of
/// the component. No clause says so: who takes them looks at each edge again.
#[derive(Drop)]
pub(crate) struct Components {
    pub(crate) roots: Vec<usize>,
    pub(crate) ranks: Vec<usize>,
}

/// The components, in one pass along the edges (Tarjan, 1972). An `Err` only where memory ran out.
pub(crate) fn components_of(alloc: Global, rows: &[Vec<usize>]) -> Result<Components, AllocError> {
    let mut search = Search::new(alloc, rows)?;
    for start in 0..rows.len() {
        search.meet(start)?;
        search.follow()?;
    }
    Ok(search.found)
}

/// The number of a node, 0 where it has none.
pub(crate) fn value_at(values: &[usize], node: usize) -> usize
    ensures { result ≡ slice_index values.now node }
{
    match values.get(node) {
        Some(value) => *value,
        None => 0,
    }
}

// A node on the path, and the place in its row of the edge that comes next.
#[derive(Clone, Copy)]
struct Step {
    node: usize,
    place: usize,
}

#[derive(Drop)]
struct Search<'a> {
    rows: &'a [Vec<usize>],
    // As many steps as there are nodes, twice, and edges.
    steps: usize,
    // How many nodes were met, and each node's number among them, from 1 on.
    met: usize,
    numbers: Vec<usize>,
    // The lowest number of a node without a component that a node was seen to reach.
    lows: Vec<usize>,
    path: Vec<Step>,
    // The nodes that were met and have no component yet.
    open: Vec<usize>,
    closed: usize,
    found: Components,
}

impl<'a> Search<'a> {
    fn new(alloc: Global, rows: &'a [Vec<usize>]) -> Result<Search<'a>, AllocError> {
        Ok(Search {
            rows,
            steps: steps_of(rows),
            met: 0,
            numbers: vec![in alloc; 0; rows.len()]?,
            lows: vec![in alloc; 0; rows.len()]?,
            path: Vec::new(alloc),
            open: Vec::new(alloc),
            closed: 0,
            found: Components {
                roots: vec![in alloc; 0; rows.len()]?,
                ranks: vec![in alloc; 0; rows.len()]?,
            },
        })
    }

    // A node that was not met joins the path.
    fn meet(&mut self, node: usize) -> Result<(), AllocError> {
        if value_at(self.numbers.as_slice(), node) > 0 {
            return Ok(());
        }
        self.met = self.met.saturating_add(1);
        put(self.numbers.as_mut_slice(), node, self.met);
        put(self.lows.as_mut_slice(), node, self.met);
        self.open.push(node)?;
        self.path.push(Step { node, place: 0 })?;
        Ok(())
    }

    // Goes along the path until it is empty.
    fn follow(&mut self) -> Result<(), AllocError> {
        for _ in 0..self.steps {
            let Some(step) = self.path.pop() else {
                return Ok(());
            };
            match edge_at(self.rows, step) {
                Some(next) => self.go_on(step, next)?,
                None => self.go_back(step.node),
            }
        }
        Ok(())
    }

    // Along an edge from the end of the path.
    fn go_on(&mut self, step: Step, next: usize) -> Result<(), AllocError> {
        self.path.push(Step {
            node: step.node,
            place: step.place.saturating_add(1),
        })?;
        if value_at(self.found.ranks.as_slice(), next) == 0 {
            let number = value_at(self.numbers.as_slice(), next);
            if number > 0 {
                lower(self.lows.as_mut_slice(), step.node, number);
            }
        }
        self.meet(next)
    }

    // From a node whose edges were all seen to the one before it on the path.
    fn go_back(&mut self, node: usize) {
        let low = value_at(self.lows.as_slice(), node);
        if low == value_at(self.numbers.as_slice(), node) {
            self.close(node);
        }
        if let Some(before) = self.path.last() {
            lower(self.lows.as_mut_slice(), before.node, low);
        }
    }

    // The open nodes from this one on are a component.
    fn close(&mut self, root: usize) {
        self.closed = self.closed.saturating_add(1);
        for _ in 0..self.open.len() {
            let Some(node) = self.open.pop() else {
                return;
            };
            put(self.found.roots.as_mut_slice(), node, root);
            put(self.found.ranks.as_mut_slice(), node, self.closed);
            if node == root {
                return;
            }
        }
    }
}

fn steps_of(rows: &[Vec<usize>]) -> usize {
    let mut steps = 1_usize;
    for row in rows {
        steps = steps.saturating_add(row.len().saturating_add(2));
    }
    steps
}

fn edge_at(rows: &[Vec<usize>], step: Step) -> Option<usize> {
    let row = rows.get(step.node)?;
    row.get(step.place).copied()
}

fn put(values: &mut [usize], node: usize, value: usize) {
    if let Some(old) = values.get_mut(node) {
        *old = value;
    }
}

fn lower(values: &mut [usize], node: usize, value: usize) {
    if let Some(old) = values.get_mut(node) {
        *old = (*old).min(value);
    }
}
