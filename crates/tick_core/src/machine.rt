//! The machine of a tick.

ghost use Rattle.std.specs.Prelude.{◌≡◌, ◌<◌, ◌≤◌, List, map, length, IfOk};
ghost use Rattle.world_model.specs.Frames.{system_pools};
ghost use Rattle.access_graph.specs.Conflicts.{access_at};
ghost use Rattle.access_graph.specs.Systems.{system_limit};
ghost use Rattle.tick_core.specs.Facts.{HasFacts};
ghost use Rattle.tick_core.specs.Layout.{pools_of, state_of};
ghost use Rattle.tick_core.specs.States.{idle, start, system_at, version_at};

use super::progress::Progress;
use super::versions::{PoolVersion, first_versions, version_of};
use access_graph::Accesses;
use entity_id::OutOfMemory;
use std::alloc::Global;
use std::marker::Model;
use world_model::Access;

/// What the systems of a tick have done so far: which of them were claimed and which are done, the pools
/// that each has taken and given back, and the version of each pool. A contract sees it as `CoreState`
/// (`specs/States.antt`). It always has the facts of `specs/Facts.antt`. (This project's own.)
#[derive(Debug, Drop)]
pub struct Core {
    pub(crate) accesses: Accesses,
    pub(crate) systems: Vec<Progress>,
    pub(crate) versions: Vec<PoolVersion>,
}

impl Model for Core {
    ghost use Rattle.tick_core.specs.States.{CoreState, state_code};

    ghost Value = { CoreState };

    ghost coded = { state_code };

    ghost use Rattle.tick_core.specs.Keeping.{IsKept, state_in};

    ghost view = { λ a. state_in a.accesses a.systems.items a.versions.items };

    ghost invariant = { λ a. IsKept a.accesses a.systems.items a.versions.items };
}

impl Core {
    /// The machine of these systems, of which there are at most 64, before the first step. `OutOfMemory`
    /// where there is no memory for it.
    pub fn new(alloc: Global, accesses: &[Access]) -> Result<Core, OutOfMemory>
        requires { length accesses.now ≤ system_limit }
        ensures { IfOk result (λ core. core ≡ start accesses.now) }
    {
        Ok(Core {
            accesses: copy_all(alloc, accesses)?,
            systems: idle_systems(alloc, accesses)?,
            versions: first_versions(alloc, accesses)?,
        })
    }

    /// What is true of every machine between two calls: its facts (`specs/Facts.antt`). A caller whose
    /// proof wants them calls it: it does nothing. No memory.
    pub fn law(&self)
        ensures { HasFacts self.now }
    {
        let _count = self.systems.len();
    }

    /// How many systems there are, at most 64. No memory.
    pub fn len(&self) -> u32
        ensures count { result ≡ length self.now.systems }
        ensures few { result ≤ system_limit }
    {
        self.systems.len() as u32
    }

    /// The version of a pool: how many of the systems that write it have given it back; 0 where none
    /// writes it. No memory.
    pub fn version(&self, pool: u32) -> u32
        ensures { result ≡ version_at self.now pool }
    {
        version_of(&self.versions, pool)
    }

    // What a system uses.
    pub(crate) fn access(&self, system: u32) -> &Access
        requires { system < length self.now.systems }
        ensures { result.now ≡ access_at self.now.accesses system }
    {
        &self.accesses.as_slice()[system as usize]
    }

    // How far a system is.
    pub(crate) fn system(&self, system: u32) -> &Progress
        requires { system < length self.now.systems }
        ensures state { state_of result.now ≡ system_at self.now system }
        ensures pools { pools_of result.now ≡ system_pools (access_at self.now.accesses system) }
    {
        &self.systems[system as usize]
    }
}

// A copy of what each system uses.
fn copy_all(alloc: Global, accesses: &[Access]) -> Result<Accesses, OutOfMemory>
    ensures { IfOk result (λ copies. copies ≡ accesses.now) }
{
    let mut copies = Accesses::new(alloc);
    for access in accesses {
        copies.push_copy(access)?;
    }
    Ok(copies)
}

// As many systems that have done nothing.
fn idle_systems(alloc: Global, accesses: &[Access]) -> Result<Vec<Progress>, OutOfMemory>
    ensures states { IfOk result (λ systems. map state_of systems.items ≡
        map (λ _. idle) accesses.now) }
    ensures pools { IfOk result (λ systems. map pools_of systems.items ≡
        map system_pools accesses.now) }
{
    let mut systems = Vec::new(alloc);
    for access in accesses {
        systems.push(Progress::new(alloc, access)?)?;
    }
    Ok(systems)
}
