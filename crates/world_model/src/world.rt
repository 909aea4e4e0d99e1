use super::{DeclList, FreeList, GroupList, PoolList, SlotList};
use entity_id::Profile;

/// A world of entities as plain data.
#[derive(Debug, Drop)]
pub struct World {
    /// How large the parts of its identifiers are.
    pub profile: Profile,
    /// The components, by number in order of declaration. A component's rows are its pool.
    pub decls: DeclList,
    /// The owning groups, by number in order of declaration.
    pub groups: GroupList,
    /// How many ticks have passed.
    pub tick: u64,
    /// The slots, by index.
    pub slots: SlotList,
    /// The indices of the free slots, the next one to be reused first.
    pub free: FreeList,
    /// The rows of each component.
    pub pools: PoolList,
}
