//! Each call that changes a registry, and what it answers.

ghost use Rattle.std.specs.Prelude.{◌≡◌, ◌<◌};

use super::samples::{Sample, number};
use entity_id::Entity;
use sparse_set::Steps;
use std::marker::Brand;
use std::process::Abort;
use std::sync::ledger::{Blank, Ledger};
use world_model::Refusal;

impl Sample {
    pub fn creates(&mut self, rt: &impl Abort, wanted: Result<Entity, Refusal>) {
        assert_eq!(rt; self.registry.create(), wanted);
    }

    pub fn creates_by_hint(&mut self, rt: &impl Abort, hint: Entity, wanted: Entity) {
        assert_eq!(rt; self.registry.create_hint(hint), Ok(wanted));
    }

    pub fn replaces(
        &mut self,
        rt: &impl Abort,
        entity: Entity,
        value: i64,
        wanted: Result<(), Refusal>,
    ) {
        assert_eq!(rt; self.registry.replace(entity, 0, number(value)), wanted);
    }

    pub fn patches(
        &mut self,
        rt: &impl Abort,
        entity: Entity,
        value: i64,
        wanted: Result<(), Refusal>,
    ) {
        assert_eq!(rt; self.registry.patch(entity, 0, 0, value), wanted);
    }
}

// Those that count steps.
impl Sample {
    pub fn adds(
        &mut self,
        rt: &impl Abort,
        entity: Entity,
        pool: u32,
        value: i64,
        wanted: Result<(), Refusal>,
    ) {
        assert_eq!(rt;
            self.emplace::<Brand>(Blank::new(1), entity, pool, value),
            wanted
        );
    }

    fn emplace<G: Ledger>(
        &mut self,
        blank: Blank,
        entity: Entity,
        pool: u32,
        value: i64,
    ) -> Result<(), Refusal>
        requires name { blank.name ≡ G.name }
        requires parts { blank.parts ≡ G.parts }
        requires some { 0 < blank.parts }
    {
        let mut steps = Steps::<G>::new(blank);
        self.registry
            .emplace(entity, pool, number(value), &mut steps)
    }

    pub fn puts(
        &mut self,
        rt: &impl Abort,
        entity: Entity,
        pool: u32,
        value: i64,
        wanted: Result<(), Refusal>,
    ) {
        assert_eq!(rt;
            self.put::<Brand>(Blank::new(1), entity, pool, value),
            wanted
        );
    }

    fn put<G: Ledger>(
        &mut self,
        blank: Blank,
        entity: Entity,
        pool: u32,
        value: i64,
    ) -> Result<(), Refusal>
        requires name { blank.name ≡ G.name }
        requires parts { blank.parts ≡ G.parts }
        requires some { 0 < blank.parts }
    {
        let mut steps = Steps::<G>::new(blank);
        self.registry
            .emplace_or_replace(entity, pool, number(value), &mut steps)
    }

    pub fn removes(
        &mut self,
        rt: &impl Abort,
        entity: Entity,
        pool: u32,
        wanted: Result<u32, Refusal>,
    ) {
        assert_eq!(rt; self.remove::<Brand>(Blank::new(1), entity, pool), wanted);
    }

    fn remove<G: Ledger>(&mut self, blank: Blank, entity: Entity, pool: u32) -> Result<u32, Refusal>
        requires name { blank.name ≡ G.name }
        requires parts { blank.parts ≡ G.parts }
        requires some { 0 < blank.parts }
    {
        let mut steps = Steps::<G>::new(blank);
        self.registry.remove(entity, pool, &mut steps)
    }

    pub fn erases(
        &mut self,
        rt: &impl Abort,
        entity: Entity,
        pool: u32,
        wanted: Result<(), Refusal>,
    ) {
        assert_eq!(rt; self.erase::<Brand>(Blank::new(1), entity, pool), wanted);
    }

    fn erase<G: Ledger>(&mut self, blank: Blank, entity: Entity, pool: u32) -> Result<(), Refusal>
        requires name { blank.name ≡ G.name }
        requires parts { blank.parts ≡ G.parts }
        requires some { 0 < blank.parts }
    {
        let mut steps = Steps::<G>::new(blank);
        self.registry.erase(entity, pool, &mut steps)
    }

    pub fn clears(&mut self, rt: &impl Abort, pool: u32, wanted: Result<u32, Refusal>) {
        assert_eq!(rt; self.clear::<Brand>(Blank::new(1), pool), wanted);
    }

    fn clear<G: Ledger>(&mut self, blank: Blank, pool: u32) -> Result<u32, Refusal>
        requires name { blank.name ≡ G.name }
        requires parts { blank.parts ≡ G.parts }
        requires some { 0 < blank.parts }
    {
        let mut steps = Steps::<G>::new(blank);
        self.registry.clear_pool(pool, &mut steps)
    }

    pub fn destroys(&mut self, rt: &impl Abort, entity: Entity, wanted: Result<(), Refusal>) {
        assert_eq!(rt; self.destroy::<Brand>(Blank::new(1), entity), wanted);
    }

    fn destroy<G: Ledger>(&mut self, blank: Blank, entity: Entity) -> Result<(), Refusal>
        requires name { blank.name ≡ G.name }
        requires parts { blank.parts ≡ G.parts }
        requires some { 0 < blank.parts }
    {
        let mut steps = Steps::<G>::new(blank);
        self.registry.destroy(entity, &mut steps)
    }
}
