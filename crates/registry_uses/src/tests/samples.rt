//! A small world, and a registry of it with recorders.

ghost use Rattle.std.specs.Prelude.{◌≡◌, [], pos, IfOk};
ghost use Rattle.world_model.specs.Worlds.{IsLawful};
ghost use Rattle.registry_uses.specs.Samples.{sample_components};
ghost use Rattle.registry_uses.specs.Scenes.{numbers, pair};

use entity_id::{Entity, Name, P20_12};
use registry::Registry;
use signal_sink::Recorder;
use std::alloc::Global;
use std::process::Abort;
use std::test::Fail;
use world_model::{
    Decl, DeclList, Event, EventKind, FreeList, GroupList, Kind, PoolList, Row, Rows, Slot,
    SlotList, World,
};

// Alone in the first pool, and in the second one.
pub const FIRST: Entity = Entity {
    index: 0,
    version: 0,
};

// In the second pool.
pub const SECOND: Entity = Entity {
    index: 2,
    version: 3,
};

pub fn entity(index: u32, version: u32) -> Entity {
    Entity { index, version }
}

// A row of one number.
pub fn number(value: i64) -> Row
    ensures { result ≡ pair value (pos 0) }
{
    Row {
        f: [value, 0, 0, 0],
    }
}

pub fn slot(version: u32, live: bool) -> Slot
    ensures { result ≡ record { version = version; live = live } }
{
    Slot { version, live }
}

// Two components of one number.
pub fn two_numbers(alloc: Global) -> Result<Vec<Decl>, Fail>
    ensures { IfOk result (λ decls. decls.items ≡ sample_components) }
{
    Ok(vec![in alloc; one_number(alloc), one_number(alloc)]?)
}

fn one_number(alloc: Global) -> Decl
    ensures { result ≡ numbers [] 1 }
{
    Decl {
        name: Name::from_vec(Vec::new(alloc)),
        count: 1,
        kinds: [Kind::Int; 4],
    }
}

// A world of two entities: both are in the second pool, and FIRST alone is in the first one. One index
// is free.
pub fn sample_world(alloc: Global) -> Result<World, Fail>
    ensures lawful { IfOk result (λ world. IsLawful 4 world) }
    ensures decls { IfOk result (λ world. world.decls ≡ sample_components) }
{
    let slots = [slot(0, true), slot(5, false), slot(3, true)];
    let first = vec![in alloc; (FIRST, number(4))]?;
    let second = vec![in alloc; (FIRST, number(7)), (SECOND, number(8))]?;
    let pools = vec![in alloc; Rows::from_vec(first), Rows::from_vec(second)]?;
    Ok(World {
        profile: P20_12,
        decls: DeclList::from_vec(two_numbers(alloc)?),
        groups: GroupList::from_vec(Vec::new(alloc)),
        tick: 3,
        slots: SlotList::from_vec(Vec::from_slice(alloc, &slots)?),
        free: FreeList::from_vec(vec![in alloc; 1]?),
        pools: PoolList::from_vec(pools),
    })
}

// A registry of two components of one number.
#[derive(Drop)]
pub struct Sample {
    pub registry: Registry<Recorder>,
    ghost decls: { registry.world.decls ≡ sample_components },
}

impl Sample {
    // The sample world, where a recorder listens to each kind of event in the first pool.
    pub fn load(alloc: Global) -> Result<Sample, Fail> {
        let registry = Registry::load(alloc, &sample_world(alloc)?, 4)?;
        let mut sample = Sample { registry };
        sample.listen(alloc, EventKind::Construct)?;
        sample.listen(alloc, EventKind::Update)?;
        sample.listen(alloc, EventKind::Destroy)?;
        Ok(sample)
    }

    fn listen(&mut self, alloc: Global, kind: EventKind) -> Result<(), Fail> {
        self.registry.connect(kind, 0, Recorder::new(alloc))?;
        Ok(())
    }

    // Which entities the recorders of the first pool were told of, in order. It disconnects them.
    pub fn has_told(
        mut self,
        rt: &impl Abort,
        construct: &[Entity],
        update: &[Entity],
        destroy: &[Entity],
    ) -> Result<(), Fail> {
        told_of(rt, &mut self.registry, EventKind::Construct, construct)?;
        told_of(rt, &mut self.registry, EventKind::Update, update)?;
        told_of(rt, &mut self.registry, EventKind::Destroy, destroy)
    }
}

fn told_of(
    rt: &impl Abort,
    registry: &mut Registry<Recorder>,
    kind: EventKind,
    entities: &[Entity],
) -> Result<(), Fail>
    ensures { registry.new.world ≡ registry.old.world }
{
    let recorder = registry.disconnect(kind, 0, 0)?;
    assert_eq!(rt; recorder.heard().len(), entities.len());
    for (event, entity) in recorder.heard().iter().zip(entities) {
        let told = Event {
            kind,
            pool: 0,
            entity: *entity,
        };
        assert_eq!(rt; *event, told);
    }
    Ok(())
}
