//! The order of declarations. A declaration is a number; its row has those that its form names.
ghost use Rattle.std.specs.Prelude.{◌≡◌, ◌<◌, ◌≤◌, ◌↔◌, ℕ, List, true, false, length, IfOk, OnOk, IsTrue};
ghost use Rattle.std.specs.List.{Contains};
ghost use Rattle.ws_reach.specs.Reach.{Edge, EdgesStayWithin, rows_of};
ghost use Rattle.ws_reach.specs.Worklist.{is_marked};
ghost use Rattle.go_scope.specs.Order.{DependsOnItself, Grounded, Once, Ordered};
ghost use Rattle.go_scope.specs.Placing.{Placing, Settled, unplaced_count};

use std::alloc::{AllocError, Global};
use ws_reach::{has_edge, walk};

/// Whether a declaration depends on itself. An `Err` only where memory ran out.
/// [Declarations and scope](https://go.dev/ref/spec#Declarations_and_scope)
pub fn depends_on_itself(
    alloc: Global,
    rows: &[Vec<usize>],
    declaration: usize,
) -> Result<bool, AllocError>
    requires inside { declaration < length rows.now }
    requires within { EdgesStayWithin (rows_of rows.now) }
    ensures { IfOk result (λ b. IsTrue b ↔ DependsOnItself (rows_of rows.now) declaration) }
{
    let reached = walk(alloc, rows, declaration)?;
    for user in &reached {
        if has_edge(rows, *user, declaration) {
            return Ok(true);
        }
    }
    Ok(false)
}

/// The declarations that lead to none that depends on itself, each once and behind all that it
/// needs. An `Err` only where memory ran out.
/// [Package initialization](https://go.dev/ref/spec#Package_initialization)
pub fn order_of(alloc: Global, rows: &[Vec<usize>]) -> Result<Vec<usize>, AllocError>
    requires { EdgesStayWithin (rows_of rows.now) }
    ensures ordered { IfOk result (λ order. Ordered (rows_of rows.now) order.items) }
    ensures only { IfOk result (λ order. (i : ℕ) → Contains order.items i → Grounded (rows_of rows.now) i) }
    ensures all { IfOk result (λ order. (i : ℕ) → i < length rows.now → Grounded (rows_of rows.now) i → Contains order.items i) }
    ensures once { IfOk result (λ order. Once order.items) }
{
    let mut placed = Placed {
        order: Vec::new(alloc),
        marks: vec![in alloc; false; rows.len()]?,
    };
    while sweep(rows, &mut placed)? {
        follow(alloc, rows, &mut placed)?;
    }
    Ok(placed.order)
}

// What is placed so far: in its order, and each with a mark.
#[derive(Drop)]
struct Placed {
    order: Vec<usize>,
    marks: Vec<bool>,
}

fn has_mark(marks: &[bool], declaration: usize) -> bool
    ensures { result ≡ is_marked marks.now declaration }
{
    match marks.get(declaration) {
        Some(mark) => *mark,
        None => false,
    }
}

fn have_marks(marks: &[bool], needs: &[usize]) -> bool
    ensures all { IsTrue result → (j : ℕ) → Contains needs.now j → is_marked marks.now j ≡ true }
    ensures some { ¬ IsTrue result → (j : ℕ) × Contains needs.now j × (is_marked marks.now j ≡ false) }
{
    for need in needs {
        if !has_mark(marks, *need) {
            return false;
        }
    }
    true
}

// Places a declaration if all that it needs is placed and it isn't. Answers whether it did.
fn place(rows: &[Vec<usize>], declaration: usize, placed: &mut Placed) -> Result<bool, AllocError>
    requires { Placing (rows_of rows.now) placed.old }
    ensures placing { OnOk result (Placing (rows_of rows.now) placed.new) }
    ensures less { IfOk result (λ b. IsTrue b → unplaced_count placed.new < unplaced_count placed.old) }
    ensures same { IfOk result (λ b. ¬ IsTrue b → placed.new ≡ placed.old) }
    ensures settled { IfOk result (λ b. ¬ IsTrue b → declaration < length rows.now → Settled (rows_of rows.now) placed.new declaration) }
{
    let Some(needs) = rows.get(declaration) else {
        return Ok(false);
    };
    if has_mark(&placed.marks, declaration) || !have_marks(&placed.marks, needs) {
        return Ok(false);
    }
    placed.order.push(declaration)?;
    placed.marks[declaration] = true;
    Ok(true)
}

// Goes over all declarations once. Answers whether any was placed.
fn sweep(rows: &[Vec<usize>], placed: &mut Placed) -> Result<bool, AllocError>
    requires { Placing (rows_of rows.now) placed.old }
    ensures placing { OnOk result (Placing (rows_of rows.now) placed.new) }
    ensures less { IfOk result (λ b. IsTrue b → unplaced_count placed.new < unplaced_count placed.old) }
    ensures settled { IfOk result (λ b. ¬ IsTrue b → (i : ℕ) → i < length rows.now → Settled (rows_of rows.now) placed.new i) }
{
    let mut grew = false;
    for declaration in 0..rows.len() {
        if place(rows, declaration, placed)? {
            grew = true;
        }
    }
    Ok(grew)
}

// Goes along the order as it grows, to those that need what is placed: each is placed behind the
// last of its needs, so that a sweep is left with nothing, and all takes linear time.
fn follow(alloc: Global, rows: &[Vec<usize>], placed: &mut Placed) -> Result<(), AllocError>
    requires { Placing (rows_of rows.now) placed.old }
    ensures placing { OnOk result (Placing (rows_of rows.now) placed.new) }
    ensures less { OnOk result (unplaced_count placed.new ≤ unplaced_count placed.old) }
{
    let users = users_of(alloc, rows)?;
    let mut waits = waits_of(alloc, rows)?;
    for next in 0..rows.len() {
        let Some(need) = placed.order.get(next) else {
            return Ok(());
        };
        let Some(users) = users.get(*need) else {
            return Ok(());
        };
        place_users(rows, users, &mut waits, placed)?;
    }
    Ok(())
}

// Places those that need what is placed now, where they wait for nothing else.
fn place_users(
    rows: &[Vec<usize>],
    users: &[usize],
    waits: &mut [usize],
    placed: &mut Placed,
) -> Result<(), AllocError>
    requires { Placing (rows_of rows.now) placed.old }
    ensures placing { OnOk result (Placing (rows_of rows.now) placed.new) }
    ensures less { OnOk result (unplaced_count placed.new ≤ unplaced_count placed.old) }
{
    for user in users {
        if is_last_wait(waits, *user) {
            place(rows, *user, placed)?;
        }
    }
    Ok(())
}

// Takes one from what a declaration waits for. Answers whether nothing is left.
fn is_last_wait(waits: &mut [usize], declaration: usize) -> bool {
    let Some(wait) = waits.get_mut(declaration) else {
        return false;
    };
    *wait = wait.saturating_sub(1);
    *wait == 0
}

// How many needs each declaration waits for.
fn waits_of(alloc: Global, rows: &[Vec<usize>]) -> Result<Vec<usize>, AllocError> {
    let mut waits = Vec::with_capacity(alloc, rows.len())?;
    for needs in rows {
        waits.push(needs.len())?;
    }
    Ok(waits)
}

// The edges turned round: each row has those that need the declaration.
fn users_of(alloc: Global, rows: &[Vec<usize>]) -> Result<Vec<Vec<usize>>, AllocError> {
    let mut users = Vec::new(alloc);
    for _ in 0..rows.len() {
        users.push(Vec::new(alloc))?;
    }
    for declaration in 0..rows.len() {
        add_user(&mut users, &rows[declaration], declaration)?;
    }
    Ok(users)
}

fn add_user(
    users: &mut [Vec<usize>],
    needs: &[usize],
    declaration: usize,
) -> Result<(), AllocError> {
    for need in needs {
        if let Some(row) = users.get_mut(*need) {
            row.push(declaration)?;
        }
    }
    Ok(())
}

/// No declaration depends on itself and also leads to none that does.
pub fn law_not_both()
    ensures { (rows : List (List ℕ)) (i : ℕ) → DependsOnItself rows i → ¬ Grounded rows i }
{}

/// Where no declaration depends on itself, none leads to one that does.
pub fn law_all_grounded()
    ensures { (rows : List (List ℕ)) → EdgesStayWithin rows → ((i : ℕ) → ¬ DependsOnItself rows i) → (i : ℕ) → Grounded rows i }
{}
