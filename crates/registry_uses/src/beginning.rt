//! A scene begun.

ghost use Rattle.std.specs.Prelude.{◌≡◌, IfOk};
ghost use Rattle.entity_id.specs.Identifiers.{p20_12};
ghost use Rattle.world_model.specs.Contents.{keys_of};
ghost use Rattle.world_model.specs.Worlds.{empty_world};
ghost use Rattle.registry.specs.Held.{unheard};
ghost use Rattle.registry_uses.specs.Scenes.{numbers, scene_components, IsScene};

use entity_id::{Name, OutOfMemory, P20_12};
use registry::Registry;
use signal_sink::Listener;
use std::alloc::Global;
use world_model::{Decl, Kind};

/// The number of the component of places.
pub const POSITION: u32 = 0;

/// The number of the component of velocities.
pub const VELOCITY: u32 = 1;

/// The number of the mark of what stands still.
pub const FROZEN: u32 = 2;

/// How many slots a scene has at most.
pub const SLOT_LIMIT: u32 = 1_000_000;

/// A scene without entities, of which nobody hears. `OutOfMemory` where there is no memory for it.
/// (EnTT: the constructor, and `registry.storage<T>()` for each component.)
pub fn begin<L: Listener>(alloc: Global) -> Result<Registry<L>, OutOfMemory>
    ensures scene { IfOk result (λ registry. IsScene registry) }
    ensures empty { IfOk result (λ registry.
        registry ≡ unheard SLOT_LIMIT (empty_world p20_12 scene_components)
        (keys_of (empty_world p20_12 scene_components))) }
{
    let decls = declare(alloc)?;
    Registry::new(alloc, P20_12, SLOT_LIMIT, decls)
}

// The components of a scene: `position` and `velocity`, of two numbers each, and `frozen`, of none.
fn declare(alloc: Global) -> Result<Vec<Decl>, OutOfMemory>
    ensures { IfOk result (λ decls. decls.items ≡ scene_components) }
{
    let mut decls = Vec::new(alloc);
    decls.push(component(alloc, b"position", 2)?)?;
    decls.push(component(alloc, b"velocity", 2)?)?;
    decls.push(component(alloc, b"frozen", 0)?)?;
    Ok(decls)
}

fn component(alloc: Global, name: &[u8], count: u32) -> Result<Decl, OutOfMemory>
    ensures { IfOk result (λ decl. decl ≡ numbers name.now count) }
{
    let name = Name::from_vec(Vec::from_slice(alloc, name)?);
    Ok(Decl {
        name,
        count,
        kinds: [Kind::Int; 4],
    })
}
