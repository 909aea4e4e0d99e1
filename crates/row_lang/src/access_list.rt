ghost use Rattle.std.specs.Prelude.{◌≡◌, ◌≢◌, ◌≤◌, ◌++◌, ℕ, List, IfSome, IfNone};
ghost use Rattle.std.specs.List.{list_any};
ghost use Rattle.world_model.specs.Frames.{pool_limit};
ghost use Rattle.world_model.specs.Groups.{has_pool as is_listed};
ghost use Rattle.row_lang.specs.declared.access_list.AccessList.{AccessList as AnyList};
ghost use Rattle.row_lang.specs.Spelling.{list_word};
ghost use Rattle.row_lang.specs.Systems.{barred, has_room, listed};

use super::kinds::has_pool;
use super::words::after;
use world_model::Access;

/// One of the four lists of components in a system.
#[derive(Clone, Copy, Debug, PartialEq, Eq)]
pub enum AccessList {
    /// `read`: components of its own entities that it reads.
    Read,
    /// `write`: components of its own entities that it reads and writes.
    Write,
    /// `look`: components in which it looks up rows of any entity.
    Look,
    /// `not`: components that its own entities don't have.
    Without,
}

// How many components the lists name at most, all together.
const POOL_LIMIT: usize = 16;

impl AccessList {
    // The list whose word a line begins with, and what stands behind the word.
    pub(super) fn of_line(line: &[u8]) -> Option<(AccessList, &[u8])>
        ensures some { IfSome result (λ x. line.now ≡ list_word x.0 ++ x.1.now) }
        ensures none { IfNone result ((list : AnyList) (rest : List ℕ) →
            line.now ≢ list_word list ++ rest) }
    {
        if let Some(rest) = after(line, b"read") {
            return Some((AccessList::Read, rest));
        }
        if let Some(rest) = after(line, b"write") {
            return Some((AccessList::Write, rest));
        }
        if let Some(rest) = after(line, b"look") {
            return Some((AccessList::Look, rest));
        }
        if let Some(rest) = after(line, b"not") {
            return Some((AccessList::Without, rest));
        }
        None
    }

    // Whether the list may name these components beside the lists before it: none is barred, and they are
    // not too many in all.
    pub(super) fn has_room(self, access: &Access, pools: &[u32]) -> bool
        requires { listed access.now ≤ pool_limit }
        ensures { result ≡ has_room access.now self pools.now }
    {
        !self.bars_one(access, pools) && pools.len() <= POOL_LIMIT - count(access)
    }

    fn bars_one(self, access: &Access, pools: &[u32]) -> bool
        ensures { result ≡ list_any (is_listed (barred access.now self)) pools.now }
    {
        pools.iter().any(|pool| self.bars(access, *pool))
    }

    // Whether the list may not name a component, since one before it does.
    fn bars(self, access: &Access, pool: u32) -> bool
        ensures { result ≡ is_listed (barred access.now self) pool }
    {
        let read = access.read.as_slice();
        let write = access.write.as_slice();
        match self {
            AccessList::Read => false,
            AccessList::Write => has_pool(read, pool),
            AccessList::Look => has_pool(write, pool),
            AccessList::Without => has_pool(read, pool) || has_pool(write, pool),
        }
    }
}

// How many components the lists name.
fn count(access: &Access) -> usize
    requires { listed access.now ≤ pool_limit }
    ensures { result ≡ listed access.now }
{
    access.read.as_slice().len()
        + access.write.as_slice().len()
        + access.look.as_slice().len()
        + access.without.as_slice().len()
}
