//! How a board begins with its first seat, how others are cut off it and taken in again, and how it ends.

ghost use Rattle.std.specs.Prelude.{◌≡◌, ◌≤◌, ◌↔◌, false, true, length, IfOk, IsTrue};
ghost use Rattle.ready_board.specs.Seats.{IsSeatOf, preds_in, view_of};
ghost use Rattle.ready_board.specs.Sets.{AreLower, IsWithin, first_systems, system_limit};
ghost use Rattle.ready_board.specs.Views.{after_join, after_split, blank, newcomer};

use super::plays::{CutOff, TakeIn};
use super::sets::{first_of, is_within};
use super::{Board, BoardSeat};
use atomic_table::Table;
use std::alloc::{AllocError, Global};

impl Board {
    /// A board of as many systems as there are numbers, at most 64, none of them claimed, and its first
    /// seat. The bits of each number are the predecessors of its system, which are smaller than the system.
    /// `AllocError` where there is no memory. (This project's own.)
    pub fn new(alloc: Global, preds: &[u64]) -> Result<(Board, BoardSeat), AllocError>
        requires few { length preds.now ≤ system_limit }
        requires lower { AreLower preds.now }
        ensures preds { IfOk result (λ made. preds_in made.0 ≡ preds.now) }
        ensures seat { IfOk result (λ made. IsSeatOf made.0 made.1) }
        ensures view { IfOk result (λ made. view_of made.1 ≡ blank) }
    {
        let preds = preds.to_vec(alloc)?;
        let (table, seat) = Table::of_words(alloc, &[0, 0], &preds)?;
        Ok((Board { table, preds }, seat))
    }

    /// Cuts another seat off the first one, for another worker. It has seen what the first one saw, and has
    /// no system. No memory. It doesn't wait. (This project's own.)
    pub fn split(&self, seat: &mut BoardSeat) -> BoardSeat
        requires seat { IsSeatOf self.now seat.old }
        requires first { (view_of seat.old).is_first ≡ true }
        ensures seat { IsSeatOf self.now seat.new }
        ensures same { seat.new.id ≡ seat.old.id }
        ensures view { view_of seat.new ≡ after_split (view_of seat.old) }
        ensures new_seat { IsSeatOf self.now result }
        ensures new_view { view_of result ≡ newcomer (view_of seat.old) }
    {
        self.table.shared.split_seat::<CutOff>(seat)
    }

    /// The first seat takes another one in, with all that it has seen, claimed and finished. No memory. It
    /// doesn't wait. (This project's own.)
    pub fn join(&self, seat: &mut BoardSeat, other: BoardSeat)
        requires seat { IsSeatOf self.now seat.old }
        requires first { (view_of seat.old).is_first ≡ true }
        requires other { IsSeatOf self.now other }
        requires not_first { (view_of other).is_first ≡ false }
        requires awake { (view_of other).is_spent ≡ false }
        ensures seat { IsSeatOf self.now seat.new }
        ensures same { seat.new.id ≡ seat.old.id }
        ensures view { view_of seat.new ≡ after_join (view_of seat.old) (view_of other) }
    {
        self.table.shared.join_seat::<TakeIn>(seat, other);
    }

    /// Whether every system is done, once the first seat has taken all others in. All that was seen claimed
    /// is then its own. No memory. It doesn't wait. (This project's own.)
    pub fn close(self, mut seat: BoardSeat) -> bool
        requires seat { IsSeatOf self seat }
        requires first { (view_of seat).is_first ≡ true }
        requires last { (view_of seat).out ≡ 0 }
        ensures answer { IsTrue result ↔
            IsWithin (first_systems (length (preds_in self))) (view_of seat).finished }
        ensures mine { IsWithin (view_of seat).seen_claimed (view_of seat).mine }
    {
        // This load is taken for what it tells: what was seen claimed is this seat's own.
        self.load_last_claimed(&mut seat);
        let done = self.load_last_done(&mut seat);
        is_within(first_of(self.preds.len()), done)
    }
}
