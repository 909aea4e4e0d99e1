//! A scene of entities that all move, and the group of them.

ghost use Rattle.std.specs.Prelude.{◌≡◌, ◌<◌, IfOk};
ghost use Rattle.registry_uses.specs.Scenes.{IsScene, IsGroupedScene};

use anyhow::{Result, bail};
use registry::Registry;
use registry_uses::{begin, group_moving, spawn, steer};
use signal_sink::Recorder;
use sparse_set::Steps;
use std::alloc::Global;
use std::marker::Brand;
use std::sync::ledger::{Blank, Ledger};
use world_model::Refusal;

/// So many entities, each with a place and a velocity, and their group.
pub fn moving_scene(alloc: Global, count: u32) -> Result<Registry<Recorder>>
    ensures { IfOk result IsGroupedScene }
{
    moving_scene_counted::<Brand>(alloc, count, Blank::new(1))
}

// The same, with a blank for the steps, which nobody counts here.
fn moving_scene_counted<G: Ledger>(
    alloc: Global,
    count: u32,
    blank: Blank,
) -> Result<Registry<Recorder>>
    requires name { blank.name ≡ G.name }
    requires parts { blank.parts ≡ G.parts }
    requires some { 0 < blank.parts }
    ensures { IfOk result IsGroupedScene }
{
    let mut steps = Steps::<G>::new(blank);
    let Ok(mut registry) = begin(alloc) else {
        bail!("no memory for a scene");
    };
    for number in 0..count {
        if add_moving(&mut registry, i64::from(number), &mut steps).is_err() {
            bail!("no memory for entity {number}");
        }
    }
    if group_moving(alloc, &mut registry, &mut steps).is_err() {
        bail!("no memory for the group");
    }
    Ok(registry)
}

// One more entity, with a place and a velocity that differ from those of others.
fn add_moving<G: Ledger>(
    registry: &mut Registry<Recorder>,
    number: i64,
    steps: &mut Steps<G>,
) -> Result<(), Refusal>
    requires { IsScene registry.old }
    ensures { IsScene registry.new }
{
    let entity = spawn(registry, number, number / 2, steps)?;
    steer(registry, entity, number % 7, 1, steps)
}
