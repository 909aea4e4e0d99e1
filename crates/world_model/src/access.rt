use entity_id::Pools;

/// Which pools a system uses, and how. (EnTT: what `entt::organizer::emplace` is told of a system, its
/// read-only and its read-write needs.)
#[derive(Debug, Drop)]
pub struct Access {
    /// The pools whose rows of its own entities it reads.
    pub read: Pools,
    /// The pools whose rows of its own entities it writes.
    pub write: Pools,
    /// The pools in which it looks up rows of any entity.
    pub look: Pools,
    /// The pools that its entities are not in.
    pub without: Pools,
}
