//! The made world without entities, as text.

ghost use Rattle.std.specs.Prelude.{◌≡◌, IfOk};
ghost use Rattle.world_text.specs.Documents.{IsDocument};

use entity_id::OutOfMemory;
use std::alloc::Global;
use world_text::{Document, TextRefused, read_world};

/// The document of every made world, without slots and rows.
pub const FRAME: &[u8] = b"world 1\n\
component position int int\n\
component velocity int int\n\
component health int\n\
component team int\n\
component target entity\n\
component damage int\n\
component timer int\n\
component frozen\n\
component marked int\n\
group own position velocity not frozen\n\
group own position velocity get health not frozen\n\
group own damage get target\n\
system move\n\
read velocity\n\
write position\n\
not frozen\n\
do set position.0 + position.0 velocity.0\n\
do set position.1 + position.1 velocity.1\n\
end\n\
system wrap\n\
write position\n\
do set position.0 % position.0 1000\n\
do set position.1 % position.1 1000\n\
end\n\
system turn\n\
write velocity\n\
do when = % tick 10 9 set velocity.0 - 0 velocity.0\n\
end\n\
system attack\n\
read target damage\n\
look health\n\
do when has target.0 health add target.0 health.0 - 0 damage.0\n\
end\n\
system regen\n\
write health\n\
do set health.0 min 100 + health.0 1\n\
end\n\
system death\n\
read health\n\
do when < health.0 1 kill self\n\
end\n\
system age\n\
write timer\n\
do set timer.0 + timer.0 1\n\
end\n\
system breed\n\
read position timer\n\
do when = % timer.0 50 0 spawn\n\
do bear position position.0 position.1\n\
do bear velocity 1 1\n\
do bear health 50\n\
do bear timer 1\n\
end\n\
system thaw\n\
read timer frozen\n\
do when = % timer.0 7 0 take self frozen\n\
end\n\
system mark\n\
read health\n\
write marked\n\
do set marked.0 - 100 health.0\n\
end\n\
system scout\n\
read target\n\
write marked\n\
look position\n\
do set marked.0 + marked.0 at target.0 position.0 0\n\
end\n\
system freeze\n\
read timer\n\
do when = % timer.0 13 0 give self frozen\n\
end\n\
tick 0\n\
pool position\n\
pool velocity\n\
pool health\n\
pool team\n\
pool target\n\
pool damage\n\
pool timer\n\
pool frozen\n\
pool marked\n\
end\n";

/// Reads [`FRAME`], which is a document.
pub fn read_frame(alloc: Global) -> Result<Document, OutOfMemory>
    ensures { IfOk result (λ document. IsDocument FRAME.now document) }
{
    match read_world(alloc, FRAME) {
        Ok(document) => Ok(document),
        Err(TextRefused::OutOfMemory) => Err(OutOfMemory),
        Err(TextRefused::BadLine { .. }) => unreachable!(),
    }
}
