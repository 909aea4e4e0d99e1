//! What a batch leaves in the pools that a system writes.

ghost use Rattle.std.specs.Prelude.{◌≡◌, ◌≢◌, ℕ, ◌+◌, ◌<◌, ◌≤◌, Some, length, IsTrue};
ghost use Rattle.entity_id.specs.FiniteMap as entries;
ghost use Rattle.entity_id.specs.PackedLists.{place_of};
ghost use Rattle.system_api.specs.Batches.{lanes, row_at, entity_at, place_at, is_marked};
ghost use Rattle.system_api.specs.Registers.{pool_at, ChangesRowsAt};
ghost use Rattle.system_eval.specs.Finding.{AreLocatedIn, AreOneEach, AreStored};
ghost use Rattle.system_eval.specs.Walks.{rows_in};

use entity_id::Entity;
use system_api::{LANES, Lent};
use world_model::Row;

// The rows of a batch's marked identifiers, set in one written pool.
fn store_in(
    lent: &mut Lent<'_>,
    at: usize,
    entities: &[Entity; LANES],
    marks: &[bool; LANES],
    places: &[u32; LANES],
    column: &[Row; LANES],
)
    requires within { at < length lent.old.writes }
    requires one_each { AreOneEach marks.now entities.now }
    requires located { (lane : ℕ) → lane < lanes → IsTrue (is_marked marks.now lane) →
        place_of (entries.keys (pool_at lent.old.writes at).storage.pairs)
        (entity_at entities.now lane)
        ≡ Some (place_at places.now lane) }
    ensures pools { ChangesRowsAt at lent.old lent.new }
    ensures here { (lane : ℕ) → lane < lanes → IsTrue (is_marked marks.now lane) →
        entries.get (rows_in (pool_at lent.new.writes at)) (entity_at entities.now lane)
        ≡ Some (row_at column.now lane) }
    ensures others { (entity : Entity) → ((lane : ℕ) → lane < lanes →
        IsTrue (is_marked marks.now lane) → entity_at entities.now lane ≢ entity) →
        entries.get (rows_in (pool_at lent.new.writes at)) entity
        ≡ entries.get (rows_in (pool_at lent.old.writes at)) entity }
{
    // That no index comes twice is told by the index.
    let _index = lent.written(at).index();
    lent.scatter_at(at, places, marks, column);
}

/// The rows of a batch's marked identifiers, set in all written pools. The places and the columns
/// of these stand behind those of the own pools that are read. No memory.
pub fn store_all(
    lent: &mut Lent<'_>,
    reads: usize,
    entities: &[Entity; LANES],
    marks: &[bool; LANES],
    places: &[[u32; LANES]],
    columns: &[[Row; LANES]],
)
    requires one_each { AreOneEach marks.now entities.now }
    requires located { AreLocatedIn entities.now marks.now places.now reads lent.old }
    requires places { reads + length lent.old.writes ≤ length places.now }
    requires columns { reads + length lent.old.writes ≤ length columns.now }
    ensures { AreStored entities.now marks.now columns.now reads (length lent.old.writes)
        lent.old lent.new }
{
    for at in 0..lent.writes() {
        store_in(
            lent,
            at,
            entities,
            marks,
            &places[reads + at],
            &columns[reads + at],
        );
    }
}
