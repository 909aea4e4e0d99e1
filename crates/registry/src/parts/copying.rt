//! Components and groups copied.

ghost use Rattle.std.specs.Prelude.{◌≡◌, IfOk};

use entity_id::{Name, OutOfMemory, Pools};
use std::alloc::Global;
use world_model::{Decl, DeclList, GroupDecl, GroupList};

// A copy of these components.
pub fn copy_decls(alloc: Global, decls: &DeclList) -> Result<DeclList, OutOfMemory>
    ensures { IfOk result (λ copied. copied ≡ decls.now) }
{
    let mut copied = Vec::with_capacity(alloc, decls.as_slice().len())?;
    for decl in decls.as_slice() {
        copied.push(copy_decl(alloc, decl)?)?;
    }
    Ok(DeclList::from_vec(copied))
}

fn copy_decl(alloc: Global, decl: &Decl) -> Result<Decl, OutOfMemory>
    ensures { IfOk result (λ copied. copied ≡ decl.now) }
{
    let name = Vec::from_slice(alloc, decl.name.as_slice())?;
    Ok(Decl {
        name: Name::from_vec(name),
        count: decl.count,
        kinds: decl.kinds,
    })
}

// A copy of these groups.
pub fn copy_groups(alloc: Global, groups: &[GroupDecl]) -> Result<GroupList, OutOfMemory>
    ensures { IfOk result (λ copied. copied ≡ groups.now) }
{
    let mut copied = Vec::with_capacity(alloc, groups.len())?;
    for decl in groups {
        copied.push(copy_group(alloc, decl)?)?;
    }
    Ok(GroupList::from_vec(copied))
}

// A copy of a group's declaration.
pub fn copy_group(alloc: Global, decl: &GroupDecl) -> Result<GroupDecl, OutOfMemory>
    ensures { IfOk result (λ copied. copied ≡ decl.now) }
{
    Ok(GroupDecl {
        own: copy_pools(alloc, &decl.own)?,
        get: copy_pools(alloc, &decl.get)?,
        without: copy_pools(alloc, &decl.without)?,
    })
}

fn copy_pools(alloc: Global, pools: &Pools) -> Result<Pools, OutOfMemory>
    ensures { IfOk result (λ copied. copied ≡ pools.now) }
{
    let list = Vec::from_slice(alloc, pools.as_slice())?;
    Ok(Pools::from_vec(list))
}
