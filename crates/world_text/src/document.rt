use super::SystemList;
use world_model::World;

/// What a document stands for.
#[derive(Debug, Drop)]
pub struct Document {
    /// The world that it describes.
    pub world: World,
    /// The systems, by number.
    pub systems: SystemList,
}
