//! Boards of a few systems, and one of the most that there are.

ghost use Rattle.std.specs.Prelude.{◌≡◌};
ghost use Rattle.ready_board.specs.Seats.{IsSeatOf, view_of};
ghost use Rattle.ready_board.specs.Testing.{IsIdle};
ghost use Rattle.ready_board.specs.Views.{blank};
ghost use Rattle.std.specs.Thread.{IsSync};

use super::*;
use std::alloc::Global;
use std::process::Abort;
use std::sync::Wait;
use std::thread::{Threads, join};

// A board of these predecessors, and its first seat.
fn board_of(rt: &impl Abort, alloc: Global, preds: &[u64]) -> (Board, BoardSeat)
    ensures seat { IsSeatOf result.0 result.1 }
    ensures view { view_of result.1 ≡ blank }
{
    assert!(rt; preds.len() <= SYSTEM_LIMIT, "too many systems");
    assert!(rt; are_lower(preds), "a predecessor that isn't smaller");
    Board::new(alloc, preds).expect(rt, "memory")
}

#[test]
fn a_system_waits_for_its_predecessor(rt: HostRuntime) {
    let (board, mut first) = board_of(&rt, rt.alloc(), &[0b0, 0b1]);
    let mut second = board.split(&mut first);
    let Claim::Got(early) = board.claim(&mut first) else {
        panic!(&rt; "the first system is ready")
    };
    assert_eq!(rt; early, 0);
    assert!(rt; matches!(board.claim(&mut second), Claim::NotYet));
    board.done(&mut first, early);
    let Claim::Got(late) = board.claim(&mut second) else {
        panic!(&rt; "the second system is ready")
    };
    assert_eq!(rt; late, 1);
    assert!(rt; matches!(board.claim(&mut first), Claim::AllClaimed));
    board.done(&mut second, late);
    board.join(&mut first, second);
    assert!(rt; board.close(first));
}

#[test]
fn a_board_closes_early_where_a_system_is_not_done(rt: HostRuntime) {
    let (board, mut seat) = board_of(&rt, rt.alloc(), &[0b0, 0b0]);
    let Claim::Got(system) = board.claim(&mut seat) else {
        panic!(&rt; "a system is ready")
    };
    board.done(&mut seat, system);
    assert!(rt; matches!(board.claim(&mut seat), Claim::Got(1)));
    assert!(rt; matches!(board.claim(&mut seat), Claim::AllClaimed));
    assert!(rt; !board.close(seat));
}

#[test]
fn a_board_without_systems_is_done_at_once(rt: HostRuntime) {
    let (board, mut seat) = board_of(&rt, rt.alloc(), &[]);
    assert!(rt; matches!(board.claim(&mut seat), Claim::AllClaimed));
    assert!(rt; board.close(seat));
}

#[test]
fn predecessors_are_smaller_than_their_system(rt: HostRuntime) {
    for (preds, lower) in [
        ([0b0, 0b1, 0b11], true),
        ([0b0, 0b0, 0b10], true),
        ([0b1, 0b0, 0b0], false),
        ([0b0, 0b10, 0b0], false),
        ([0b0, 0b0, 0b1000], false),
    ] {
        assert_eq!(rt; are_lower(&preds), lower);
    }
}

// Which systems a worker claimed, and how often it claimed one.
#[derive(Clone, Copy)]
struct Claims {
    systems: u64,
    count: u32,
}

// Claims systems and says each to be done, until all are claimed.
fn work(rt: &impl Wait, board: &Board, mut seat: BoardSeat) -> Claims
    requires { IsIdle board.now seat }
{
    let mut claims = Claims {
        systems: 0,
        count: 0,
    };
    'working: for _ in rt.forever() {
        match board.claim(&mut seat) {
            Claim::Got(system) => {
                board.done(&mut seat, system);
                claims.systems |= 1u64.wrapping_shl(system);
                claims.count = claims.count.saturating_add(1);
            }
            Claim::NotYet => {}
            Claim::AllClaimed => break,
        }
    }
    claims
}

// Two workers, each in a thread of its own, and what either claimed.
fn work_by_two<R: Threads + Wait + Sync>(
    rt: &R,
    board: &Board,
    one: BoardSeat,
    other: BoardSeat,
) -> Claims
    requires one { IsIdle board.now one }
    requires other { IsIdle board.now other }
{
    let (mine, theirs) = join(
        rt,
        || -> Claims
            requires { IsSync R.row × IsIdle board.now one }
        { work(rt, board, one) },
        || -> Claims
            requires { IsSync R.row × IsIdle board.now other }
        { work(rt, board, other) },
    );
    both(mine, theirs)
}

// Three workers, each in a thread of its own.
fn work_by_three<R: Threads + Wait + Sync>(
    rt: &R,
    board: &Board,
    one: BoardSeat,
    second: BoardSeat,
    third: BoardSeat,
) -> Claims
    requires one { IsIdle board.now one }
    requires second { IsIdle board.now second }
    requires third { IsIdle board.now third }
{
    let (mine, theirs) = join(
        rt,
        || -> Claims
            requires { IsSync R.row × IsIdle board.now one }
        { work(rt, board, one) },
        || -> Claims
            requires { IsSync R.row × IsIdle board.now second × IsIdle board.now third }
        { work_by_two(rt, board, second, third) },
    );
    both(mine, theirs)
}

fn both(mine: Claims, theirs: Claims) -> Claims {
    Claims {
        systems: mine.systems | theirs.systems,
        count: mine.count.saturating_add(theirs.count),
    }
}

#[test]
fn threads_claim_each_system_once(rt: HostRuntime) {
    let mut preds = [0u64; SYSTEM_LIMIT];
    for (system, set) in preds.iter_mut().enumerate() {
        // The system that is eight places before it, if there is one.
        *set = 1u64.wrapping_shl(system as u32) >> 8;
    }
    let (board, mut first) = board_of(&rt, rt.alloc(), &preds);
    let second = board.split(&mut first);
    let third = board.split(&mut first);
    let claims = work_by_three(&rt, &board, first, second, third);
    assert_eq!(rt; claims.systems, u64::MAX);
    assert_eq!(rt; claims.count, 64);
}
