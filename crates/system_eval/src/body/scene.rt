//! What a body finds in a batch.

use entity_id::{Entity, Profile};
use std::marker::Model;
use system_api::{LANES, Lent};
use world_model::Access;

/// What a body finds in a batch and never changes.
#[derive(Drop)]
pub struct Scene<'a> {
    /// The profile, by which fields hold identifiers.
    pub profile: Profile,
    /// The number of the tick.
    pub tick: u64,
    /// The system's lists.
    pub access: &'a Access,
    /// The lent pools, in the order of the lists.
    pub lent: &'a Lent<'a>,
    /// The entities of the lanes.
    pub entities: &'a [Entity; LANES],
    /// Which lanes count.
    pub marks: &'a [bool; LANES],
}

impl<'a> Model for Scene<'a> {
    ghost use Rattle.system_eval.specs.Lanes.{Scenery};

    ghost Value = { Scenery };

    ghost view = { λ s. record {
      profile = s.profile;
      tick = s.tick;
      access = s.access.now;
      reads = s.lent.now.reads;
      entities = s.entities.now;
      marks = s.marks.now;
    } };
}
