//! Two walks of the members of a group.

use anyhow::{Result, bail};
use entity_id::Pools;
use registry::Registry;
use registry_uses::{FROZEN, MOVING, POSITION, VELOCITY};
use signal_sink::Recorder;
use std::alloc::Global;
use world_model::Row;

/// The sum of the first numbers of all places and velocities: a loop over two slices.
pub fn sum_of_rows(registry: &Registry<Recorder>) -> Result<i64> {
    let (Ok(places), Ok(velocities)) = (
        registry.rows(MOVING, POSITION),
        registry.rows(MOVING, VELOCITY),
    ) else {
        bail!("the group doesn't stand");
    };
    let mut sum = 0i64;
    for (place, velocity) in places.iter().zip(velocities) {
        sum = sum.wrapping_add(first_numbers(place, velocity));
    }
    Ok(sum)
}

// The first number of a place and that of a velocity, added.
fn first_numbers(place: &Row, velocity: &Row) -> i64 {
    place.f[0].wrapping_add(velocity.f[0])
}

/// The same sum, by the list of a view and a look-up of each row.
pub fn sum_of_view(alloc: Global, registry: &Registry<Recorder>) -> Result<i64> {
    let Ok(moving) = Vec::from_slice(alloc, &[POSITION, VELOCITY]) else {
        bail!("no memory for the names of pools");
    };
    let Ok(frozen) = Vec::from_slice(alloc, &[FROZEN]) else {
        bail!("no memory for the names of pools");
    };
    let Ok(entities) = registry.view(&Pools::from_vec(moving), &Pools::from_vec(frozen)) else {
        bail!("no memory for a view");
    };
    let mut sum = 0i64;
    for entity in entities.as_slice() {
        let (Some(place), Some(velocity)) = (
            registry.try_get(*entity, POSITION),
            registry.try_get(*entity, VELOCITY),
        ) else {
            bail!("a row of the view isn't there");
        };
        sum = sum.wrapping_add(first_numbers(&place, &velocity));
    }
    Ok(sum)
}
