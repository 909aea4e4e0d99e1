//! The buffers of all workers in one list.

ghost use Rattle.std.specs.Prelude.{◌≡◌, ◌≢◌, ℕ, ◌<◌, ◌-◌, length, true, false, slice_get, Some};
ghost use Rattle.std.specs.List.{All};
ghost use Rattle.system_api.specs.Emissions.{Emissions};
ghost use Rattle.ready_board.specs.Seats.{preds_in, view_of};
ghost use Rattle.ready_board.specs.Sets.{IsWithin, first_systems};
ghost use Rattle.tick_runner.specs.Versions.{IsRightAt};
ghost use Rattle.tick_runner.specs.Working.{IsAtWork, IsLater};

use crate::versions::TickFact;
use crate::worker::Worker;
use ready_board::Board;
use std::mem;
use system_api::{Buffer, System};

// Takes in the buffer of one system, where the other worker has run it.
fn take_in_one(
    buffers: &mut Vec<Buffer>,
    has_run: &mut Vec<bool>,
    others: &mut Vec<Buffer>,
    theirs: &Vec<bool>,
    i: usize,
)
    requires within { i < length theirs.now.items }
    requires flags { length has_run.old.items ≡ length theirs.now.items }
    requires mine { length buffers.old.items ≡ length theirs.now.items }
    requires others { length others.old.items ≡ length theirs.now.items }
    ensures flags { length has_run.new.items ≡ length has_run.old.items }
    ensures places { length buffers.new.items ≡ length buffers.old.items }
    ensures others { length others.new.items ≡ length others.old.items }
    ensures taken { slice_get theirs.now.items i ≡ Some true →
        (slice_get has_run.new.items i ≡ Some true) × (slice_get buffers.new.items i ≡ slice_get others.old.items i) }
    ensures unchanged { slice_get theirs.now.items i ≡ Some false →
        (slice_get has_run.new.items i ≡ slice_get has_run.old.items i) × (slice_get buffers.new.items i ≡ slice_get buffers.old.items i) }
    ensures rest { (j : ℕ) → j ≢ i → (slice_get has_run.new.items j ≡ slice_get has_run.old.items j)
        × (slice_get buffers.new.items j ≡ slice_get buffers.old.items j) × (slice_get others.new.items j ≡ slice_get others.old.items j) }
{
    if theirs[i] {
        mem::swap(&mut buffers[i], &mut others[i]);
        has_run[i] = true;
    }
}

// Takes in the buffers of the systems that another worker has run.
fn take_in(
    buffers: &mut Vec<Buffer>,
    has_run: &mut Vec<bool>,
    others: &mut Vec<Buffer>,
    theirs: &Vec<bool>,
)
    requires flags { length has_run.old.items ≡ length theirs.now.items }
    requires mine { length buffers.old.items ≡ length theirs.now.items }
    requires others { length others.old.items ≡ length theirs.now.items }
    ensures flags { length has_run.new.items ≡ length has_run.old.items }
    ensures places { length buffers.new.items ≡ length buffers.old.items }
    ensures taken { (i : ℕ) → slice_get theirs.now.items i ≡ Some true →
        (slice_get has_run.new.items i ≡ Some true) × (slice_get buffers.new.items i ≡ slice_get others.old.items i) }
    ensures unchanged { (i : ℕ) → slice_get theirs.now.items i ≡ Some false →
        (slice_get has_run.new.items i ≡ slice_get has_run.old.items i) × (slice_get buffers.new.items i ≡ slice_get buffers.old.items i) }
{
    for i in 0..theirs.len() {
        take_in_one(buffers, has_run, others, theirs, i);
    }
}

// Takes in another worker.
fn gather<'b, S: System>(
    board: &Board,
    systems: &[S],
    fact: &TickFact<'b, S>,
    first: &mut Worker,
    other: Worker,
)
    requires ready { IsAtWork (IsRightAt S.effect fact.now) (length systems.now) board.now first.old }
    requires leads { (view_of first.old.seat).is_first ≡ true }
    requires other { IsAtWork (IsRightAt S.effect fact.now) (length systems.now) board.now other }
    requires later { IsLater other }
    ensures ready { IsAtWork (IsRightAt S.effect fact.now) (length systems.now) board.now first.new }
    ensures leads { (view_of first.new.seat).is_first ≡ true }
    ensures out { (view_of first.new.seat).out ≡ (view_of first.old.seat).out - 1 }
    ensures seen { IsWithin (view_of first.old.seat).seen_claimed (view_of first.new.seat).seen_claimed }
{
    let _ = systems;
    let _ = fact;
    let Worker {
        seat,
        mut buffers,
        has_run,
        room: _,
    } = other;
    board.join(&mut first.seat, seat);
    take_in(
        &mut first.buffers,
        &mut first.has_run,
        &mut buffers,
        &has_run,
    );
}

// The buffer of every system, from workers of which the first saw all systems claimed.
pub fn all_buffers<'b, S: System>(
    board: Board,
    systems: &[S],
    fact: &TickFact<'b, S>,
    mut first: Worker,
    mut others: Vec<Worker>,
) -> Vec<Buffer>
    requires ready { IsAtWork (IsRightAt S.effect fact.now) (length systems.now) board first }
    requires leads { (view_of first.seat).is_first ≡ true }
    requires all { IsWithin (first_systems (length systems.now)) (view_of first.seat).seen_claimed }
    requires others { All (IsAtWork (IsRightAt S.effect fact.now) (length systems.now) board) others.items }
    requires later { All IsLater others.items }
    requires out { (view_of first.seat).out ≡ length others.items }
    requires systems { length (preds_in board) ≡ length systems.now }
    ensures count { length result.items ≡ length systems.now }
    ensures orders { (place : ℕ) (buffer : Emissions) → slice_get result.items place ≡ Some buffer →
        IsRightAt S.effect fact.now place buffer }
{
    while let Some(other) = others.pop() {
        gather(&board, systems, fact, &mut first, other);
    }
    let Worker {
        seat,
        buffers,
        has_run: _,
        room: _,
    } = first;
    board.close(seat);
    buffers
}
