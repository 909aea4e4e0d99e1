//! Walks along the free identifiers, from the top to the null index.

ghost use Rattle.std.specs.Prelude.{◌≡◌, ℕ, ◌==◌, ◌<◌, count_by, slice_get, IfOk, IfSome, IfNone};
ghost use Rattle.entity_slots.specs.Threads.{IsTop, IsRightBefore};

use super::Identifiers;
use entity_id::OutOfMemory;

impl Identifiers {
    // The free index at a place, counted from 0 at the top: as many steps.
    pub fn free_at(&self, place: u32) -> Option<u32>
        ensures { result ≡ slice_get self.now.free place }
    {
        let mut index = self.top;
        for _step in 0..place {
            index = self.list.get(index as usize)?.index;
        }
        if index == self.null {
            None
        } else {
            Some(index)
        }
    }

    // All free indices, from the top on, in one walk.
    pub fn free_list(&self) -> Result<Vec<u32>, OutOfMemory>
        ensures { IfOk result (λ free. free.items ≡ self.now.free) }
    {
        let mut free = Vec::new(*self.list.allocator());
        let mut index = self.top;
        while index != self.null {
            free.push(index)?;
            index = self.list[index as usize].index;
        }
        Ok(free)
    }

    // The free index right before one of them, or none before the top.
    pub(super) fn index_before(&self, index: u32) -> Option<u32>
        requires { 0 < count_by (λ other. other == index) self.now.free }
        ensures top { IfNone result (IsTop self.now.free index) }
        ensures before { IfSome result (λ first. IsRightBefore self.now.free first index) }
    {
        let mut before = None;
        let mut at = self.top;
        while at != index {
            before = Some(at);
            at = self.list[at as usize].index;
        }
        before
    }
}
