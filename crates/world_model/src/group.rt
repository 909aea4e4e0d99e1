use entity_id::Pools;

/// An owning group: the pools that it owns, observes and excludes. (EnTT:
/// `registry.group<Owned...>(entt::get<Observed...>, entt::exclude<Excluded...>)`.)
#[derive(Debug, Drop)]
pub struct GroupDecl {
    /// The pools whose packed lists begin with the group's entities.
    pub own: Pools,
    /// The pools that its entities are in beside those.
    pub get: Pools,
    /// The pools that its entities are not in.
    pub without: Pools,
}
