//! Rows of two numbers.

ghost use Rattle.std.specs.Prelude.{◌≡◌};
ghost use Rattle.world_model.specs.Components.{IsRow};
ghost use Rattle.world_model.specs.Integers.{IsI64};
ghost use Rattle.registry_uses.specs.Moving.{lifted_height, moved};
ghost use Rattle.registry_uses.specs.Scenes.{pair};

use world_model::Row;

// The row of two numbers.
pub fn pair_of(x: i64, y: i64) -> Row
    ensures row { result ≡ pair x y }
    ensures wide { IsRow result }
{
    Row { f: [x, y, 0, 0] }
}

// Where a velocity leads from a place.
pub fn moved_by(place: &Row, velocity: &Row) -> Row
    ensures row { result ≡ moved place.now velocity.now }
    ensures wide { IsRow result }
{
    let x = place.f[0].saturating_add(velocity.f[0]);
    let y = place.f[1].saturating_add(velocity.f[1]);
    pair_of(x, y)
}

// How high a place is once it is lifted.
pub fn lifted(place: &Row, by: i64) -> i64
    ensures value { result ≡ lifted_height place.now by }
    ensures wide { IsI64 result }
{
    place.f[1].saturating_add(by)
}
