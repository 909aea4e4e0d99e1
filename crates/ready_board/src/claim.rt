//! How a worker claims a system, and how it says that the system is done.

ghost use Rattle.std.specs.Prelude.{◌≡◌, ◌<◌, false, length, IfNone, IfSome};
ghost use Rattle.ready_board.specs.Answering.{Answers, IsCounted};
ghost use Rattle.ready_board.specs.Claiming.{Gets, KeepsRest, Passes};
ghost use Rattle.ready_board.specs.Seats.{IsSeatOf, preds_in, view_of};
ghost use Rattle.ready_board.specs.Sets.{Has, Lacks, only};
ghost use Rattle.ready_board.specs.Views.{after_done};

use super::sets::{bit_of, first_of, has, is_within};
use super::{Board, BoardSeat};

/// What a claim answers.
#[derive(Clone, Copy, Debug)]
pub enum Claim {
    /// This system is the seat's own now, and all its predecessors are done.
    Got(u32),
    /// Some systems weren't claimed, and each of these waits for one that wasn't done.
    NotYet,
    /// All systems are claimed.
    AllClaimed,
}

impl Board {
    /// Claims a system that nobody has claimed and whose predecessors are all done; it tries the smaller ones
    /// first. It loads each word once and takes at most 66 steps on them. `NotYet` and `AllClaimed` are told
    /// of what it saw in this call. No memory. It doesn't wait. (This project's own.)
    pub fn claim(&self, seat: &mut BoardSeat) -> Claim
        requires seat { IsSeatOf self.now seat.old }
        requires awake { (view_of seat.old).is_spent ≡ false }
        ensures seat { IsSeatOf self.now seat.new }
        ensures same { seat.new.id ≡ seat.old.id }
        ensures counted { IsCounted (view_of seat.old) (view_of seat.new) }
        ensures answer { Answers (preds_in self.now) (view_of seat.old) (view_of seat.new) result }
    {
        let done = self.load_done(seat);
        let mut claimed = self.load_claimed(seat);
        for system in 0..self.preds.len() as u32 {
            let Some(seen) = self.try_one(seat, system, claimed, done) else {
                return Claim::Got(system);
            };
            claimed = seen;
        }
        if is_within(first_of(self.preds.len()), claimed) {
            Claim::AllClaimed
        } else {
            Claim::NotYet
        }
    }

    // Claims a system, or gives the claimed systems as they are seen then.
    fn try_one(&self, seat: &mut BoardSeat, system: u32, claimed: u64, done: u64) -> Option<u64>
        requires seat { IsSeatOf self.now seat.old }
        requires awake { (view_of seat.old).is_spent ≡ false }
        requires system { system < length (preds_in self.now) }
        requires claimed { claimed ≡ (view_of seat.old).seen_claimed }
        requires done { done ≡ (view_of seat.old).seen_done }
        ensures seat { IsSeatOf self.now seat.new }
        ensures same { seat.new.id ≡ seat.old.id }
        ensures rest { KeepsRest (view_of seat.old) (view_of seat.new) }
        ensures got { IfNone result
            (Gets (preds_in self.now) system (view_of seat.old) (view_of seat.new)) }
        ensures seen { IfSome result (λ seen. seen ≡ (view_of seat.new).seen_claimed) }
        ensures passed { IfSome result (λ _.
            Passes (preds_in self.now) system (view_of seat.old) (view_of seat.new)) }
    {
        if has(claimed, system) || !is_within(self.preds[system as usize], done) {
            return Some(claimed);
        }
        let found = self.claim_one(seat, system);
        if has(found, system) {
            Some(found | bit_of(system))
        } else {
            None
        }
    }

    /// Says that a system is done, which this seat claimed and hasn't said to be done before. The systems
    /// that wait for no other may be claimed from now on. No memory. It doesn't wait. (This project's own.)
    pub fn done(&self, seat: &mut BoardSeat, system: u32)
        requires seat { IsSeatOf self.now seat.old }
        requires awake { (view_of seat.old).is_spent ≡ false }
        requires system { system < length (preds_in self.now) }
        requires mine { Has (view_of seat.old).mine system }
        requires unfinished { Lacks (view_of seat.old).finished system }
        ensures seat { IsSeatOf self.now seat.new }
        ensures same { seat.new.id ≡ seat.old.id }
        ensures view { view_of seat.new ≡ after_done (view_of seat.old) (only system) }
    {
        self.finish_one(seat, system);
    }
}
