//! The turns of one system at its pools.

ghost use Rattle.std.specs.Prelude.{◌≡◌, ◌==◌, ◌&&◌, ◌<◌, ◌++◌, length, map, slice_index_or, IsTrue, OnOk};
ghost use Rattle.std.specs.FinSet as set;
ghost use Rattle.std.specs.List.{list_any};
ghost use Rattle.world_model.specs.Groups.{has_pool};
ghost use Rattle.tick_core.specs.Layout.{fresh, given_in, pools_in, taken_in};

use entity_id::OutOfMemory;

// A pool that a system names, and whether the system has taken it and given it back. Where a pool is
// named twice the first turn counts.
#[derive(Clone, Copy, Debug)]
pub(crate) struct Turn {
    pub pool: u32,
    pub taken: bool,
    pub given: bool,
}

// Appends a turn for each of these pools, which is neither taken nor given back.
pub(crate) fn push_turns(turns: &mut Vec<Turn>, pools: &[u32]) -> Result<(), OutOfMemory>
    ensures { OnOk result (turns.new.items ≡ turns.old.items ++ map fresh pools.now) }
{
    for pool in pools {
        turns.push(Turn {
            pool: *pool,
            taken: false,
            given: false,
        })?;
    }
    Ok(())
}

// Whether there is a turn at a pool.
pub(crate) fn has_turn(turns: &[Turn], pool: u32) -> bool
    ensures { result ≡ list_any (λ turn. turn.pool == pool) turns.now }
{
    turns.iter().any(|turn| turn.pool == pool)
}

// Whether a pool was taken.
pub(crate) fn has_taken(turns: &[Turn], pool: u32) -> bool
    ensures { result ≡ list_any (λ turn. (turn.pool == pool) && turn.taken) turns.now }
{
    turns.iter().any(|turn| turn.pool == pool && turn.taken)
}

// Whether a pool was given back.
pub(crate) fn has_given(turns: &[Turn], pool: u32) -> bool
    ensures { result ≡ list_any (λ turn. (turn.pool == pool) && turn.given) turns.now }
{
    turns.iter().any(|turn| turn.pool == pool && turn.given)
}

// Where the first turn at a pool stands.
fn place_of(turns: &[Turn], pool: u32) -> usize
    requires { IsTrue (has_pool (pools_in turns.now) pool) }
    ensures within { result < length turns.now }
    ensures pool { (turn : Turn) → (slice_index_or turns.now result turn).pool ≡ pool }
{
    for at in 0..turns.len() {
        if turns[at].pool == pool {
            return at;
        }
    }
    unreachable!()
}

// Takes a pool.
pub(crate) fn mark_taken(turns: &mut [Turn], pool: u32)
    requires { IsTrue (has_pool (pools_in turns.old) pool) }
    ensures pools { pools_in turns.new ≡ pools_in turns.old }
    ensures taken { taken_in turns.new ≡ set.insert (taken_in turns.old) pool }
    ensures given { given_in turns.new ≡ given_in turns.old }
{
    let at = place_of(turns, pool);
    turns[at].taken = true;
}

// Gives a pool back.
pub(crate) fn mark_given(turns: &mut [Turn], pool: u32)
    requires { IsTrue (has_pool (pools_in turns.old) pool) }
    ensures pools { pools_in turns.new ≡ pools_in turns.old }
    ensures taken { taken_in turns.new ≡ taken_in turns.old }
    ensures given { given_in turns.new ≡ set.insert (given_in turns.old) pool }
{
    let at = place_of(turns, pool);
    turns[at].given = true;
}
