//! A body, carried out for a batch.

ghost use Rattle.std.specs.Prelude.{◌≡◌, ℕ, ◌<◌, ◌≤◌, ◌+◌, ◌*◌, ◌^◌, ◌++◌, length, IsTrue};
ghost use Rattle.world_model.specs.Frames.{own_pools};
ghost use Rattle.row_lang.specs.Systems.{command_count};
ghost use Rattle.system_api.specs.Batches.{lanes, entity_at, is_marked};
ghost use Rattle.system_eval.specs.Lanes.{own_at, done_at, emissions_at, given_to, marked_count, AreReady, AreDistinctMarked, IsOfNoLane};

mod arithmetic;
mod columns;
mod deeds;
mod looking;
mod operators;
mod ordering;
mod owning;
mod scene;
mod stack;
mod statements;
mod values;

use crate::body::statements::do_statements;
use row_lang::Statement;
pub use scene::Scene;
pub use stack::Stack;
use system_api::{Buffer, LANES};
use world_model::Row;

/// Carries a body out for a batch: for each lane, what the body does for that lane's entity. The
/// own rows change in all lanes, of which those without a mark hold nothing that counts; orders are
/// given for the marked lanes alone. The stack is room for values. No memory. (This project's own;
/// in EnTT a system's body is any function.)
pub fn run_body(
    scene: &Scene<'_>,
    statements: &[Statement],
    columns: &mut [[Row; LANES]],
    stack: &mut Stack,
    out: &mut Buffer,
)
    requires ready { ∥ AreReady scene.now.access statements.now ∥₁ }
    requires tick { scene.now.tick < 2 ^ 63 }
    requires distinct { AreDistinctMarked scene.now.marks scene.now.entities }
    requires room { command_count statements.now * marked_count scene.now.marks ≤ out.old.spare }
    ensures columns { length columns.new ≡ length columns.old }
    ensures rows { (lane : ℕ) → lane < lanes →
        own_at (own_pools scene.now.access) columns.new lane
        ≡ (done_at scene.now statements.now columns.old lane).rows }
    ensures orders { (lane : ℕ) → lane < lanes → IsTrue (is_marked scene.now.marks lane) →
        given_to (entity_at scene.now.entities lane).index out.new.list
        ≡ given_to (entity_at scene.now.entities lane).index out.old.list
        ++ emissions_at scene.now statements.now columns.old lane }
    ensures others { (index : ℕ) → IsOfNoLane scene.now.marks scene.now.entities index →
        given_to index out.new.list ≡ given_to index out.old.list }
    ensures spare { out.new.spare + length out.new.list ≡ out.old.spare + length out.old.list }
    ensures few { length out.new.list
        ≤ length out.old.list + command_count statements.now * marked_count scene.now.marks }
{
    let mut spawned = [false; LANES];
    do_statements(scene, statements, stack, columns, &mut spawned, out);
}
