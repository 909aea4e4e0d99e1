//! Lists of accesses.

ghost use Rattle.std.specs.Prelude.{◌≡◌, ◌∷◌, ◌++◌, [], OnErr, OnOk, IfOk};

use entity_id::{OutOfMemory, Pools};
use std::alloc::Global;
use std::marker::Model;
use world_model::Access;

/// What each of several systems uses, and how, by the systems' numbers. It holds copies, so that those
/// who have systems that lend their accesses can ask for a graph of them. A contract sees the list. (This
/// project's own.)
#[derive(Debug, Drop)]
pub struct Accesses {
    accesses: Vec<Access>,
}

impl Model for Accesses {
    ghost use Rattle.std.specs.Prelude.{List};
    ghost use Rattle.world_model.specs.declared.access.Access.{Access};

    ghost Value = { List Access };

    ghost view = { λ a. a.accesses.items };
}

impl Accesses {
    /// The list of no access. No memory.
    pub fn new(alloc: Global) -> Accesses
        ensures { result ≡ [] }
    {
        Accesses {
            accesses: Vec::new(alloc),
        }
    }

    /// The list of these accesses. No memory.
    pub fn from_vec(accesses: Vec<Access>) -> Accesses
        ensures { result ≡ accesses.items }
    {
        Accesses { accesses }
    }

    /// Its accesses. No memory.
    pub fn as_slice(&self) -> &[Access]
        ensures { result.now ≡ self.now }
    {
        &self.accesses
    }

    /// Appends a copy of an access. `OutOfMemory` where there is no memory for it; the list is then as it
    /// was.
    pub fn push_copy(&mut self, access: &Access) -> Result<(), OutOfMemory>
        ensures ok { OnOk result (self.new ≡ self.old ++ access.now ∷ []) }
        ensures err { OnErr result (self.new ≡ self.old) }
    {
        let copy = copy_access(*self.accesses.allocator(), access)?;
        self.accesses.push(copy)?;
        Ok(())
    }
}

/// A copy of what a system uses. `OutOfMemory` where there is no memory for it. (This project's own.)
pub fn copy_access(alloc: Global, access: &Access) -> Result<Access, OutOfMemory>
    ensures { IfOk result (λ copy. copy ≡ access.now) }
{
    Ok(Access {
        read: copy_pools(alloc, &access.read)?,
        write: copy_pools(alloc, &access.write)?,
        look: copy_pools(alloc, &access.look)?,
        without: copy_pools(alloc, &access.without)?,
    })
}

// A copy of a list of pools.
fn copy_pools(alloc: Global, pools: &Pools) -> Result<Pools, OutOfMemory>
    ensures { IfOk result (λ copy. copy ≡ pools.now) }
{
    Ok(Pools::from_vec(pools.as_slice().to_vec(alloc)?))
}
