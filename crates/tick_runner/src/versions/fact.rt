//! What is so of each pool in its slot, at each version.

ghost use Rattle.tick_runner.specs.Versions.{tick_admits};

use pool_slots::PoolFact;
use std::snapshot::Snapshot;
use storage::Storage;
use system_api::System;
use world_model::Row;

/// The systems of a tick, its number, and the pools before it. No bytes but the tick number's.
#[derive(Drop)]
pub struct TickFact<'a, S> {
    pub systems: Snapshot<&'a [S]>,
    pub tick: u64,
    pub pools: Snapshot<Vec<Storage<Row>>>,
}

impl<'a, S: System> PoolFact for TickFact<'a, S> {
    ghost admits = { tick_admits S.lists S.effect };
}
