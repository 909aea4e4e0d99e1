//! The single steps on the two words of a board.

ghost use Rattle.std.specs.Prelude.{◌≡◌, ◌<◌, false, true, length};
ghost use Rattle.ready_board.specs.Seats.{IsSeatOf, preds_in, view_of};
ghost use Rattle.ready_board.specs.Sets.{Has, IsWithin, only, preds_of};
ghost use Rattle.ready_board.specs.Views.{after_claim, after_claimed_load, after_done, after_done_load};

use super::plays::{ClaimSystem, FinishSystem, LoadClaimed, LoadDone, LoadLast, LoadLastDone};
use super::sets::bit_of;
use super::{Board, BoardSeat};

// Where the words stand in the table.
const CLAIMED: usize = 0;

const DONE: usize = 1;

impl Board {
    // The claimed systems.
    pub(crate) fn load_claimed(&self, seat: &mut BoardSeat) -> u64
        requires seat { IsSeatOf self.now seat.old }
        requires awake { (view_of seat.old).is_spent ≡ false }
        ensures seat { IsSeatOf self.now seat.new }
        ensures same { seat.new.id ≡ seat.old.id }
        ensures view { view_of seat.new ≡ after_claimed_load (view_of seat.old) result }
    {
        self.table.shared.load::<LoadClaimed>(seat, CLAIMED)
    }

    // The done systems.
    pub(crate) fn load_done(&self, seat: &mut BoardSeat) -> u64
        requires seat { IsSeatOf self.now seat.old }
        requires awake { (view_of seat.old).is_spent ≡ false }
        ensures seat { IsSeatOf self.now seat.new }
        ensures same { seat.new.id ≡ seat.old.id }
        ensures view { view_of seat.new ≡ after_done_load (view_of seat.old) result }
    {
        self.table.shared.load::<LoadDone>(seat, DONE)
    }

    // Puts a system among the claimed ones, and gives those that were claimed before.
    pub(crate) fn claim_one(&self, seat: &mut BoardSeat, system: u32) -> u64
        requires seat { IsSeatOf self.now seat.old }
        requires awake { (view_of seat.old).is_spent ≡ false }
        requires system { system < length (preds_in self.now) }
        requires ready { IsWithin (preds_of (preds_in self.now) system) (view_of seat.old).seen_done }
        ensures seat { IsSeatOf self.now seat.new }
        ensures same { seat.new.id ≡ seat.old.id }
        ensures view { view_of seat.new ≡ after_claim (view_of seat.old) (only system) result }
        ensures mine { IsWithin (view_of seat.old).mine result }
        ensures seen { IsWithin (view_of seat.old).seen_claimed result }
        ensures ready { IsWithin (preds_of (preds_in self.now) system) (view_of seat.old).seen_done }
    {
        let bit = bit_of(system);
        self.table
            .shared
            .fetch_or::<ClaimSystem>(seat, CLAIMED, bit)
    }

    // Puts a system among the done ones.
    pub(crate) fn finish_one(&self, seat: &mut BoardSeat, system: u32)
        requires seat { IsSeatOf self.now seat.old }
        requires awake { (view_of seat.old).is_spent ≡ false }
        requires system { system < length (preds_in self.now) }
        requires mine { Has (view_of seat.old).mine system }
        ensures seat { IsSeatOf self.now seat.new }
        ensures same { seat.new.id ≡ seat.old.id }
        ensures view { view_of seat.new ≡ after_done (view_of seat.old) (only system) }
    {
        let bit = bit_of(system);
        self.table.shared.fetch_or::<FinishSystem>(seat, DONE, bit);
    }

    // The claimed systems, loaded by the first seat while no other is out: all are its own.
    pub(crate) fn load_last_claimed(&self, seat: &mut BoardSeat) -> u64
        requires seat { IsSeatOf self.now seat.old }
        requires first { (view_of seat.old).is_first ≡ true }
        requires last { (view_of seat.old).out ≡ 0 }
        ensures seat { IsSeatOf self.now seat.new }
        ensures view { view_of seat.new ≡ after_claimed_load (view_of seat.old) result }
        ensures mine { IsWithin (view_of seat.old).seen_claimed (view_of seat.old).mine }
    {
        self.table.shared.load::<LoadLast>(seat, CLAIMED)
    }

    // The done systems, loaded by the first seat while no other is out: it has finished just these.
    pub(crate) fn load_last_done(&self, seat: &mut BoardSeat) -> u64
        requires seat { IsSeatOf self.now seat.old }
        requires first { (view_of seat.old).is_first ≡ true }
        requires last { (view_of seat.old).out ≡ 0 }
        ensures only_finished { IsWithin result (view_of seat.old).finished }
        ensures all_finished { IsWithin (view_of seat.old).finished result }
    {
        self.table.shared.load::<LoadLastDone>(seat, DONE)
    }
}
