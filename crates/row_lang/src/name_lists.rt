//! Lists of names of components in a line.

ghost use Rattle.std.specs.Prelude.{◌≡◌, ◌≤◌, ℕ, List, length, IfOk, IfSome, IfNone, IsErrOf};
ghost use Rattle.world_model.specs.Worlds.{component_limit};
ghost use Rattle.row_lang.specs.NameLists.{AreNamedOnce};
ghost use Rattle.row_lang.specs.Reading.{AreNamesNext, AreSomeNext, IsPartNext, IsPoolNext, IsKeptAs};
ghost use Rattle.row_lang.specs.Reading.{is_named as is_named_by};

use super::LineFault;
use super::words::{after, split_name};
use entity_id::Pools;
use std::alloc::Global;
use world_model::{Decl, read_name};

/// A component by its name, and what stands behind that. None exactly where the text begins with none. No
/// memory.
pub fn take_next_pool<'a>(decls: &[Decl], text: &'a [u8]) -> Option<(u32, &'a [u8])>
    requires { length decls.now ≤ component_limit }
    ensures some { IfSome result (λ x. IsPoolNext decls.now text.now x.0 x.1.now) }
    ensures none { IfNone result ((pool : ℕ) (rest : List ℕ) →
        IsPoolNext decls.now text.now pool rest → ⊥) }
{
    let text = after(text, b" ")?;
    let (name, rest) = split_name(text);
    let pool = read_name(name, decls)?;
    Some((pool, rest))
}

/// The components that names at the front of a text name, one or more, in their order, as many as stand
/// there, and what stands behind them. Bad where none stands there, or where one of them is named twice,
/// or is one of the others.
pub fn take_some_names<'a>(
    alloc: Global,
    decls: &[Decl],
    others: &[u32],
    text: &'a [u8],
) -> Result<(Vec<u32>, &'a [u8]), LineFault>
    requires decls { length decls.now ≤ component_limit }
    requires once { AreNamedOnce others.now }
    ensures ok { IfOk result (λ x.
        AreSomeNext decls.now others.now text.now x.0.items x.1.now) }
    ensures bad { IsErrOf result LineFault.Bad → (pools rest : List ℕ) →
        AreSomeNext decls.now others.now text.now pools rest → ⊥ }
{
    let (pools, rest) = take_names(alloc, decls, others, text)?;
    if pools.is_empty() {
        return Err(LineFault::Bad);
    }
    Ok((pools, rest))
}

/// The components that a part of a line names which may be left out, in their order, and what stands
/// behind it: where the text begins with the word, those of the names behind it, one or more; where it
/// doesn't, none. Bad where no such names stand behind the word.
pub fn take_part<'a>(
    alloc: Global,
    decls: &[Decl],
    others: &[u32],
    word: &[u8],
    text: &'a [u8],
) -> Result<(Vec<u32>, &'a [u8]), LineFault>
    requires decls { length decls.now ≤ component_limit }
    requires once { AreNamedOnce others.now }
    ensures ok { IfOk result (λ x.
        IsPartNext decls.now others.now word.now text.now x.0.items x.1.now) }
    ensures bad { IsErrOf result LineFault.Bad → (pools rest : List ℕ) →
        IsPartNext decls.now others.now word.now text.now pools rest → ⊥ }
{
    match after(text, word) {
        Some(behind) => take_some_names(alloc, decls, others, behind),
        None => Ok((Vec::new(alloc), text)),
    }
}

/// The list of components in ascending number. No memory.
pub fn kept(mut pools: Vec<u32>) -> Pools
    ensures { IsKeptAs pools.items result }
{
    pools.sort_unstable();
    Pools::from_vec(pools)
}

// The components that names at the front of a text name, in their order, as many as stand there, and
// what stands behind them.
fn take_names<'a>(
    alloc: Global,
    decls: &[Decl],
    others: &[u32],
    text: &'a [u8],
) -> Result<(Vec<u32>, &'a [u8]), LineFault>
    requires decls { length decls.now ≤ component_limit }
    requires once { AreNamedOnce others.now }
    ensures ok { IfOk result (λ x.
        AreNamesNext decls.now others.now text.now x.0.items x.1.now) }
    ensures bad { IsErrOf result LineFault.Bad → (pools rest : List ℕ) →
        AreNamesNext decls.now others.now text.now pools rest → ⊥ }
{
    let mut pools = Vec::new(alloc);
    let mut rest = text;
    while let Some((pool, behind)) = take_next_pool(decls, rest) {
        if is_named(others, &pools, pool) {
            return Err(LineFault::Bad);
        }
        pools.push(pool)?;
        rest = behind;
    }
    Ok((pools, rest))
}

// Whether a component is one of those that were named, or of the others.
fn is_named(others: &[u32], pools: &[u32], pool: u32) -> bool
    ensures { result ≡ is_named_by others.now pools.now pool }
{
    others.contains(&pool) || pools.contains(&pool)
}
