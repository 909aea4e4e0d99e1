//! A system that runs.

use entity_id::Profile;
use row_lang::SystemDef;
use std::marker::Model;

/// A system that runs, in which profile, and at which tick number.
#[derive(Drop)]
pub struct Task<'a> {
    /// The profile, by which fields hold identifiers.
    pub profile: Profile,
    /// The system.
    pub system: &'a SystemDef,
    /// The number of the tick.
    pub tick: u64,
}

impl<'a> Model for Task<'a> {
    ghost use Rattle.system_eval.specs.Walks.{Task as AnyTask};

    ghost Value = { AnyTask };

    ghost view = { λ t. record { profile = t.profile; system = t.system.now; tick = t.tick } };
}
