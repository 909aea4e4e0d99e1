//! Pools lent and taken back.

ghost use Rattle.std.specs.Prelude.{◌≡◌};
ghost use Rattle.registry.specs.Emptying.{emptied_of, IsShell};
ghost use Rattle.registry.specs.Layout.{held_of, IsKept};
ghost use Rattle.registry.specs.Lending.{refilled, IsLent, MayComeBack};

use super::Parts;
use signal_sink::Listener;
use std::mem;
use storage::Storage;
use world_model::Row;

// Takes the pools out.
pub fn take_pools<L: Listener>(parts: &mut Parts<L>) -> Vec<Storage<Row>>
    requires { IsKept parts.old }
    ensures shell { IsShell parts.new }
    ensures lent { IsLent (emptied_of parts.new) result.items }
    ensures same { refilled (emptied_of parts.new) result.items ≡ held_of parts.old }
{
    let none = Vec::new(*parts.pools.allocator());
    mem::replace(&mut parts.pools, none)
}

// Puts pools in their places.
pub fn put_pools<L: Listener>(parts: &mut Parts<L>, pools: Vec<Storage<Row>>)
    requires shell { IsShell parts.old }
    requires back { MayComeBack (emptied_of parts.old) pools.items }
    ensures consistent { IsKept parts.new }
    ensures held { held_of parts.new ≡ refilled (emptied_of parts.old) pools.items }
{
    let _none = mem::replace(&mut parts.pools, pools);
}
