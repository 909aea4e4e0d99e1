//! How wide the values of rows are.

ghost use Rattle.world_model.specs.Components.{IsRow};

use world_model::Row;

// A row has 4 fields of 64 bits: its type says so.
pub fn is_wide(row: &Row)
    ensures { IsRow row.now }
{
    let [_first, _second, _third, _fourth] = row.f;
}
