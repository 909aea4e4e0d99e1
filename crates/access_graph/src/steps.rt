//! What is found of one system, from what is known of those before it.

ghost use Rattle.std.specs.Prelude.{◌≡◌, ◌<◌, ◌≤◌, ◌↔◌, ◌++◌, ℕ, length, slice_index, IsTrue};
ghost use Rattle.std.specs.Prelude.{IfOk, OnOk};
ghost use Rattle.std.specs.FinSet as set;
ghost use Rattle.access_graph.specs.Building.{IsImplied, IsWaveAfter, edges_from};
ghost use Rattle.access_graph.specs.Conflicts.{ComesBefore};
ghost use Rattle.access_graph.specs.Systems.{system_limit};

use super::{Edge, Systems, conflicts};
use entity_id::OutOfMemory;
use world_model::Access;

// The systems before one: those that conflict with it, and those that reach one of these.
#[derive(Drop)]
pub(crate) struct Earlier {
    pub preds: Systems,
    pub implied: Systems,
}

// The systems before one, from the sets of those that reach each.
pub(crate) fn earlier_than(accesses: &[Access], reached: &[Systems], system: usize) -> Earlier
    requires in_range { system < length accesses.now }
    requires few { length accesses.now ≤ system_limit }
    requires counted { length reached.now ≡ system }
    ensures preds { (i : ℕ) →
        IsTrue (set.contains result.preds i) ↔ ComesBefore accesses.now i system }
    ensures implied { (i : ℕ) → IsTrue (set.contains result.implied i)
        ↔ IsImplied accesses.now reached.now system system i }
{
    let mut preds = Systems::empty();
    let mut implied = Systems::empty();
    for i in 0..system {
        if conflicts(&accesses[i], &accesses[system]) {
            preds = preds.with(i as u32);
            implied = implied.union(&reached[i]);
        }
    }
    Earlier { preds, implied }
}

// Appends the edges to a system from those of a set, in ascending order, and answers its wave: one more
// than the greatest of theirs, 0 where the set is empty.
pub(crate) fn add_edges(
    edges: &mut Vec<Edge>,
    sources: &Systems,
    waves: &[u32],
    to: u32,
) -> Result<u32, OutOfMemory>
    requires few { to ≤ system_limit }
    requires counted { length waves.now ≡ to }
    requires below { (i : ℕ) → IsTrue (set.contains sources.now i) → i < to }
    requires low { (i : ℕ) → i < to → slice_index waves.now i ≤ i }
    ensures edges { OnOk result
        (edges.new.items ≡ edges.old.items ++ edges_from sources.now to to) }
    ensures wave { IfOk result (λ wave. IsWaveAfter sources.now waves.now to wave) }
    ensures low { IfOk result (λ wave. wave ≤ to) }
{
    let mut wave: u32 = 0;
    let mut next: u32 = 0;
    while let Some(from) = sources.next_from(next) {
        edges.push(Edge { from, to })?;
        wave = wave.max(waves[from as usize] + 1);
        next = from + 1;
    }
    Ok(wave)
}
