use entity_id::Entity;

/// What happened to a row.
#[derive(Clone, Copy, Debug, PartialEq, Eq)]
pub enum EventKind {
    /// It was added. (EnTT: `registry.on_construct`.)
    Construct,
    /// It was replaced, or one of its fields was set. (EnTT: `registry.on_update`.)
    Update,
    /// It is removed. (EnTT: `registry.on_destroy`.)
    Destroy,
}

/// What a listener hears of.
#[derive(Clone, Copy, Debug, PartialEq, Eq)]
pub struct Event {
    /// What happened.
    pub kind: EventKind,
    /// The pool of the row.
    pub pool: u32,
    /// The row's entity.
    pub entity: Entity,
}
