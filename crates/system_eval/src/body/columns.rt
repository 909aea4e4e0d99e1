//! Columns of numbers, one for each lane of a batch, and the loops over them.

ghost use Rattle.std.specs.Prelude.{◌≡◌, ℕ, ◌<◌};
ghost use Rattle.entity_id.specs.Fields.{field_of};
ghost use Rattle.world_model.specs.Components.{value_at};
ghost use Rattle.row_lang.specs.Arithmetic.{choice as choice_of};
ghost use Rattle.system_api.specs.Batches.{lanes, row_at, entity_at};
ghost use Rattle.system_eval.specs.Stacks.{int_at};

use crate::body::arithmetic::{choice, field_value};
use entity_id::{Entity, Profile};
use system_api::LANES;
use world_model::Row;

// An operator on two columns, put into the first.
pub fn each<F: Fn(i64, i64) -> i64>(left: &mut [i64; LANES], right: &[i64; LANES], f: F)
    requires { F.IsAlwaysCallable f }
    ensures { (lane : ℕ) → lane < lanes →
        F.post f (int_at left.old lane) (int_at right.now lane) (int_at left.new lane) }
{
    for lane in 0..LANES {
        left[lane] = f(left[lane], right[lane]);
    }
}

// The second column where the first isn't 0, else the third, put into the first.
pub fn choose(test: &mut [i64; LANES], chosen: &[i64; LANES], otherwise: &[i64; LANES])
    ensures { (lane : ℕ) → lane < lanes → int_at test.new lane
        ≡ choice_of (int_at test.old lane) (int_at chosen.now lane) (int_at otherwise.now lane) }
{
    for lane in 0..LANES {
        test[lane] = choice(test[lane], chosen[lane], otherwise[lane]);
    }
}

// One number in all lanes.
pub fn fill(column: &mut [i64; LANES], value: i64)
    ensures { (lane : ℕ) → lane < lanes → int_at column.new lane ≡ value }
{
    for lane in 0..LANES {
        column[lane] = value;
    }
}

// A field of the rows.
pub fn load_field(rows: &[Row; LANES], field: usize, column: &mut [i64; LANES])
    ensures { (lane : ℕ) → lane < lanes →
        int_at column.new lane ≡ value_at (row_at rows.now lane) field }
{
    for lane in 0..LANES {
        column[lane] = field_value(&rows[lane], field);
    }
}

// The identifiers, as fields hold them.
pub fn load_fields_of(profile: Profile, entities: &[Entity; LANES], column: &mut [i64; LANES])
    ensures { (lane : ℕ) → lane < lanes →
        int_at column.new lane ≡ field_of profile (entity_at entities.now lane) }
{
    for lane in 0..LANES {
        column[lane] = entities[lane].to_field(profile);
    }
}
