//! What instructions do that stay in the newest frame.
ghost use Rattle.std.specs.Prelude.{◌≡◌, ℕ, ◌+◌, ◌*◌, ◌∷◌, [], length, take, drop, ◌≤◌, IfOk, IfSome};
ghost use Rattle.go_cells.specs.Results.{operated_index, operated_offset};
ghost use Rattle.go_code.specs.Accesses.{access, loaded, stored, split_top};
ghost use Rattle.go_code.specs.declared.instr.AccessInstr.TheVariants.{LoadAt, StoreAt};
ghost use Rattle.go_code.specs.declared.instr.FrameInstr.TheVariants.{Push, Pop, Repeat};
ghost use Rattle.go_code.specs.declared.instr.JumpInstr.TheVariants.{Jump, JumpIf, JumpIfNot, LoopIf};
ghost use Rattle.go_code.specs.declared.instr.PartInstr.TheVariants.{Move, Index, Pick, Part};
ghost use Rattle.go_code.specs.Machine.{frame_step, jump_step};
ghost use Rattle.go_code.specs.Operators.{Gives, operands, operate};
ghost use Rattle.go_code.specs.Parts.{part, bind_index};
ghost use Rattle.go_vm.specs.Open.{topmost};
ghost use Rattle.go_vm.specs.Flows.{Does, framed, on_locals, on_globals, on_top, parted, in_place};

use crate::arithmetic::between;
use crate::frames::Frames;
use crate::machine::{Exit, Flow, World};
use crate::on_rows::reach_offset;
use go_cells::operate::{Operated, operand_count, operate};
use go_cells::part::{Indexed, element_offset, index_below, moved, picked_cells};
use go_cells::slot::Slot;
use go_code::cell::Cell;
use go_code::ending::{Ending, PanicKind};
use go_code::instr::{AccessInstr, FrameInstr, JumpInstr, PartInstr};
use go_code::operator::Operator;
use std::alloc::{AllocError, Global};

#[inline(always)]
fn push_cell(frames: &mut Frames<'_>, world: &World, cell: &Cell) -> Result<Flow, AllocError>
    ensures { IfOk result (λ flow. Does (framed (frame_step (Push cell.now))) frames.old world.now flow frames.new world.now) }
{
    let Some(slot) = Slot::of_cell(cell)? else {
        return Ok(Flow::Leaves(Exit::BadCode));
    };
    frames.push(slot)?;
    Ok(Flow::GoesOn)
}

fn pop_cells(frames: &mut Frames<'_>, world: &World, count: usize) -> Flow
    ensures { Does (framed (frame_step (Pop count))) frames.old world.now result frames.new world.now }
{
    if count > frames.height() {
        return Flow::Leaves(Exit::BadCode);
    }
    frames.drop_top(count);
    Flow::GoesOn
}

fn repeat_cells(
    frames: &mut Frames<'_>,
    world: &World,
    count: usize,
    times: usize,
) -> Result<Flow, AllocError>
    ensures { IfOk result (λ flow. Does (framed (frame_step (Repeat count times))) frames.old world.now flow frames.new world.now) }
{
    if count > frames.height() {
        return Ok(Flow::Leaves(Exit::BadCode));
    }
    frames.repeat(count, times)?;
    Ok(Flow::GoesOn)
}

/// What an instruction about the newest frame's stack does.
#[inline(always)]
pub(crate) fn obey_frame(
    frames: &mut Frames<'_>,
    world: &World,
    instr: &FrameInstr,
) -> Result<Flow, AllocError>
    ensures { IfOk result (λ flow. Does (framed (frame_step instr.now)) frames.old world.now flow frames.new world.now) }
{
    match instr {
        FrameInstr::Push(cell) => push_cell(frames, world, cell),
        FrameInstr::Pop(count) => Ok(pop_cells(frames, world, *count)),
        FrameInstr::Repeat { count, times } => repeat_cells(frames, world, *count, *times),
    }
}

fn load_local(
    frames: &mut Frames<'_>,
    world: &World,
    first: usize,
    count: usize,
) -> Result<Flow, AllocError>
    ensures { IfOk result (λ flow. Does (on_locals (λ cells stack. loaded cells stack first count)) frames.old world.now flow frames.new world.now) }
{
    if first > frames.cells() || count > frames.cells() - first {
        return Ok(Flow::Leaves(Exit::BadCode));
    }
    frames.load(first, count)?;
    Ok(Flow::GoesOn)
}

fn store_local(frames: &mut Frames<'_>, world: &World, first: usize, count: usize) -> Flow
    ensures { Does (on_locals (λ cells stack. stored cells first (split_top count stack))) frames.old world.now result frames.new world.now }
{
    if count > frames.height() || first > frames.cells() || count > frames.cells() - first {
        return Flow::Leaves(Exit::BadCode);
    }
    frames.store(first, count);
    Flow::GoesOn
}

fn load_local_at(
    frames: &mut Frames<'_>,
    world: &World,
    first: usize,
    count: usize,
) -> Result<Flow, AllocError>
    ensures { IfOk result (λ flow. Does (on_locals (access (LoadAt first count))) frames.old world.now flow frames.new world.now) }
{
    let Some(offset) = frames.pop_offset() else {
        return Ok(Flow::Leaves(Exit::BadCode));
    };
    if first > frames.cells() || offset > frames.cells() - first {
        return Ok(Flow::Leaves(Exit::BadCode));
    }
    load_local(frames, world, first + offset, count)
}

fn store_local_at(frames: &mut Frames<'_>, world: &World, first: usize, count: usize) -> Flow
    ensures { Does (on_locals (access (StoreAt first count))) frames.old world.now result frames.new world.now }
{
    let Some(offset) = frames.pop_offset() else {
        return Flow::Leaves(Exit::BadCode);
    };
    if first > frames.cells() || offset > frames.cells() - first {
        return Flow::Leaves(Exit::BadCode);
    }
    store_local(frames, world, first + offset, count)
}

/// What an instruction about the newest frame's cells does.
#[inline(always)]
pub(crate) fn obey_local(
    frames: &mut Frames<'_>,
    world: &World,
    instr: &AccessInstr<usize>,
) -> Result<Flow, AllocError>
    ensures { IfOk result (λ flow. Does (on_locals (access instr.now)) frames.old world.now flow frames.new world.now) }
{
    match instr {
        AccessInstr::Load { first, count } => load_local(frames, world, *first, *count),
        AccessInstr::Store { first, count } => Ok(store_local(frames, world, *first, *count)),
        AccessInstr::LoadAt { first, count } => load_local_at(frames, world, *first, *count),
        AccessInstr::StoreAt { first, count } => Ok(store_local_at(frames, world, *first, *count)),
    }
}

fn load_global(
    frames: &mut Frames<'_>,
    world: &World,
    first: usize,
    count: usize,
) -> Result<Flow, AllocError>
    ensures { IfOk result (λ flow. Does (on_globals (λ cells stack. loaded cells stack first count)) frames.old world.now flow frames.new world.now) }
{
    if first > world.globals.len() || count > world.globals.len() - first {
        return Ok(Flow::Leaves(Exit::BadCode));
    }
    frames.push_all(&world.globals[first..first + count])?;
    Ok(Flow::GoesOn)
}

fn store_global(frames: &mut Frames<'_>, world: &mut World, first: usize, count: usize) -> Flow
    ensures { Does (on_globals (λ cells stack. stored cells first (split_top count stack))) frames.old world.old result frames.new world.new }
{
    let cells = world.globals.len();
    if count > frames.height() || first > cells || count > cells - first {
        return Flow::Leaves(Exit::BadCode);
    }
    frames.store_into(&mut world.globals, first, count);
    Flow::GoesOn
}

fn load_global_at(
    frames: &mut Frames<'_>,
    world: &World,
    first: usize,
    count: usize,
) -> Result<Flow, AllocError>
    ensures { IfOk result (λ flow. Does (on_globals (access (LoadAt first count))) frames.old world.now flow frames.new world.now) }
{
    let Some(offset) = frames.pop_offset() else {
        return Ok(Flow::Leaves(Exit::BadCode));
    };
    let cells = world.globals.len();
    if first > cells || offset > cells - first {
        return Ok(Flow::Leaves(Exit::BadCode));
    }
    load_global(frames, world, first + offset, count)
}

fn store_global_at(frames: &mut Frames<'_>, world: &mut World, first: usize, count: usize) -> Flow
    ensures { Does (on_globals (access (StoreAt first count))) frames.old world.old result frames.new world.new }
{
    let Some(offset) = frames.pop_offset() else {
        return Flow::Leaves(Exit::BadCode);
    };
    let cells = world.globals.len();
    if first > cells || offset > cells - first {
        return Flow::Leaves(Exit::BadCode);
    }
    store_global(frames, world, first + offset, count)
}

/// What an instruction about the package variables' cells does.
#[inline(always)]
pub(crate) fn obey_global(
    frames: &mut Frames<'_>,
    world: &mut World,
    instr: &AccessInstr<usize>,
) -> Result<Flow, AllocError>
    ensures { IfOk result (λ flow. Does (on_globals (access instr.now)) frames.old world.old flow frames.new world.new) }
{
    match instr {
        AccessInstr::Load { first, count } => load_global(frames, world, *first, *count),
        AccessInstr::Store { first, count } => Ok(store_global(frames, world, *first, *count)),
        AccessInstr::LoadAt { first, count } => load_global_at(frames, world, *first, *count),
        AccessInstr::StoreAt { first, count } => Ok(store_global_at(frames, world, *first, *count)),
    }
}

/// What an operator gives of two small numbers on top, where that is quickly known.
#[inline(always)]
fn between_top(frames: &Frames<'_>, operator: Operator) -> Option<Slot>
    ensures { let stack = frames.now.newest.stack in
        IfSome result (λ slot. (operands operator ≡ 2) × (2 ≤ length stack) × (operate operator (topmost 2 stack) ≡ Gives slot)) }
{
    let Some([x, y]) = frames.top(2) else {
        return None;
    };
    between(operator, x.as_small()?, y.as_small()?)
}

/// What an operator does.
#[inline(always)]
pub(crate) fn obey_operator(
    alloc: Global,
    frames: &mut Frames<'_>,
    world: &World,
    operator: Operator,
) -> Result<Flow, AllocError>
    ensures { IfOk result (λ flow. Does (on_top (operands operator) (λ c. c ∷ []) (operate operator)) frames.old world.now flow frames.new world.now) }
{
    if let Some(slot) = between_top(frames, operator) {
        frames.replace(2, slot)?;
        return Ok(Flow::GoesOn);
    }
    let Some(count) = operand_count(operator, frames.height()) else {
        return Ok(Flow::Leaves(Exit::BadCode));
    };
    match operate(alloc, operator, frames.top_cells(count))? {
        Operated::Gives(slot) => {
            frames.replace(count, slot)?;
            Ok(Flow::GoesOn)
        }
        Operated::Panics(kind) => Ok(Flow::Leaves(Exit::Ends(Ending::Panicked(kind)))),
        Operated::Senseless => Ok(Flow::Leaves(Exit::BadCode)),
    }
}

fn move_offset(frames: &mut Frames<'_>, world: &World, by: usize) -> Result<Flow, AllocError>
    ensures { IfOk result (λ flow. Does (parted (Move by)) frames.old world.now flow frames.new world.now) }
{
    let Some([offset]) = frames.top(1) else {
        return Ok(Flow::Leaves(Exit::BadCode));
    };
    let answer = moved(offset, by);
    replace_by(frames, world, 1, answer)
}

/// What an operator gave in place of so many cells.
fn replace_by(
    frames: &mut Frames<'_>,
    world: &World,
    count: usize,
    answer: Operated,
) -> Result<Flow, AllocError>
    requires { count ≤ length frames.old.newest.stack }
    ensures { IfOk result (λ flow. Does (in_place count (operated_offset answer)) frames.old world.now flow frames.new world.now) }
{
    match answer {
        Operated::Gives(slot) => {
            frames.replace(count, slot)?;
            Ok(Flow::GoesOn)
        }
        Operated::Panics(kind) => Ok(Flow::Leaves(Exit::Ends(Ending::Panicked(kind)))),
        Operated::Senseless => Ok(Flow::Leaves(Exit::BadCode)),
    }
}

fn index_offset(
    frames: &mut Frames<'_>,
    world: &World,
    count: usize,
    size: usize,
) -> Result<Flow, AllocError>
    ensures { IfOk result (λ flow. Does (parted (Index count size)) frames.old world.now flow frames.new world.now) }
{
    let Some([offset, index]) = frames.top(2) else {
        return Ok(Flow::Leaves(Exit::BadCode));
    };
    let answer = element_offset(count, size, offset, index);
    replace_by(frames, world, 2, answer)
}

/// What the index on top of so many elements of a size leads to.
fn picked_index(count: usize, size: usize, cells: &[Slot]) -> Indexed
    requires { length cells.now ≡ count * size + 1 }
    ensures told { part (Pick count size) cells.now ≡ bind_index (operated_index result) (λ index. Gives (take size (drop (index * size) cells.now))) }
    ensures within { (index : ℕ) → operated_index result ≡ Gives index → index * size + size ≤ count * size }
{
    index_below(count, &cells[count * size])
}

fn pick_element(frames: &mut Frames<'_>, world: &World, count: usize, size: usize) -> Flow
    ensures { Does (parted (Pick count size)) frames.old world.now result frames.new world.now }
{
    let Some(whole) = picked_cells(count, size, frames.height()) else {
        return Flow::Leaves(Exit::BadCode);
    };
    match picked_index(count, size, frames.top_cells(whole)) {
        Indexed::At(index) => {
            frames.keep(whole, index * size, size);
            Flow::GoesOn
        }
        Indexed::Outside => Flow::Leaves(Exit::Ends(Ending::Panicked(PanicKind::Index))),
        Indexed::Senseless => Flow::Leaves(Exit::BadCode),
    }
}

fn keep_part(
    frames: &mut Frames<'_>,
    world: &World,
    whole: usize,
    first: usize,
    count: usize,
) -> Flow
    ensures { Does (parted (Part whole first count)) frames.old world.now result frames.new world.now }
{
    if whole > frames.height() || first > whole || count > whole - first {
        return Flow::Leaves(Exit::BadCode);
    }
    frames.keep(whole, first, count);
    Flow::GoesOn
}

/// What an instruction about parts of values does.
#[inline(always)]
pub(crate) fn obey_part(
    frames: &mut Frames<'_>,
    world: &World,
    instr: PartInstr,
) -> Result<Flow, AllocError>
    ensures { IfOk result (λ flow. Does (parted instr) frames.old world.now flow frames.new world.now) }
{
    match instr {
        PartInstr::Move(by) => move_offset(frames, world, by),
        PartInstr::Index { count, size } => index_offset(frames, world, count, size),
        PartInstr::Reach(size) => reach_offset(frames, world, size),
        PartInstr::Pick { count, size } => Ok(pick_element(frames, world, count, size)),
        PartInstr::Part {
            whole,
            first,
            count,
        } => Ok(keep_part(frames, world, whole, first, count)),
    }
}

fn jump_if(frames: &mut Frames<'_>, world: &World, count: usize) -> Flow
    ensures { Does (jump_step (JumpIf count)) frames.old world.now result frames.new world.now }
{
    match frames.pop_truth() {
        Some(true) => jump(frames, world, count),
        Some(false) => Flow::GoesOn,
        None => Flow::Leaves(Exit::BadCode),
    }
}

fn jump_if_not(frames: &mut Frames<'_>, world: &World, count: usize) -> Flow
    ensures { Does (jump_step (JumpIfNot count)) frames.old world.now result frames.new world.now }
{
    match frames.pop_truth() {
        Some(false) => jump(frames, world, count),
        Some(true) => Flow::GoesOn,
        None => Flow::Leaves(Exit::BadCode),
    }
}

#[inline(always)]
fn jump(frames: &mut Frames<'_>, world: &World, count: usize) -> Flow
    ensures { Does (jump_step (Jump count)) frames.old world.now result frames.new world.now }
{
    if frames.jump_ahead(count) {
        Flow::GoesOn
    } else {
        Flow::Leaves(Exit::BadCode)
    }
}

fn loop_if(frames: &mut Frames<'_>, world: &mut World, count: usize) -> Flow
    ensures { Does (jump_step (LoopIf count)) frames.old world.old result frames.new world.new }
{
    match frames.pop_truth() {
        Some(false) => return Flow::GoesOn,
        Some(true) => {}
        None => return Flow::Leaves(Exit::BadCode),
    }
    if !frames.jump_back(count) {
        return Flow::Leaves(Exit::BadCode);
    }
    if world.ticks == 0 {
        return Flow::Leaves(Exit::Ends(Ending::Cut));
    }
    world.ticks -= 1;
    Flow::GoesOn
}

/// What a jump does.
#[inline(always)]
pub(crate) fn obey_jump(frames: &mut Frames<'_>, world: &mut World, instr: JumpInstr) -> Flow
    ensures { Does (jump_step instr) frames.old world.old result frames.new world.new }
{
    match instr {
        JumpInstr::Jump(count) => jump(frames, world, count),
        JumpInstr::JumpIf(count) => jump_if(frames, world, count),
        JumpInstr::JumpIfNot(count) => jump_if_not(frames, world, count),
        JumpInstr::LoopIf(count) => loop_if(frames, world, count),
    }
}
