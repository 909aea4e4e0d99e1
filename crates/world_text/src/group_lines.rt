//! What stands behind the word `group` in a line, read from the front of the bytes that begin with it.

ghost use Rattle.std.specs.Prelude.{◌≤◌, ℕ, List, IfOk, IsErrOf, length};
ghost use Rattle.world_model.specs.declared.group.GroupDecl.{GroupDecl};
ghost use Rattle.world_model.specs.Worlds.{component_limit};
ghost use Rattle.world_text.specs.GroupLines.{IsGroupFirst};
ghost use Rattle.world_text.specs.ScriptReading.{IsGroupNext};

use super::format::LINE_LIMIT;
use row_lang::LineFault;
use row_lang::name_lists::{kept, take_part, take_some_names};
use row_lang::words::after;
use std::alloc::Global;
use world_model::{Decl, GroupDecl};

// How many bytes of the line's limit are left behind the word `group`.
const GROUP_LIMIT: usize = LINE_LIMIT - 5;

/// The group that stands behind the word `group` at the front of a text, each of its lists in ascending
/// number, and what stands behind the line's end. `Bad` comes exactly where the text begins with none:
/// where it isn't ` own` and names of components, then perhaps ` get` and names, then perhaps ` not` and
/// names, up to a line's end; where a name is none of a component, or stands twice in one list; or where
/// the line is longer than a line may be. `OutOfMemory` comes where memory for the lists runs out.
pub fn take_group<'a>(
    alloc: Global,
    decls: &[Decl],
    text: &'a [u8],
) -> Result<(GroupDecl, &'a [u8]), LineFault>
    requires { length decls.now ≤ component_limit }
    ensures ok { IfOk result (λ x. IsGroupFirst decls.now text.now x.0 x.1.now) }
    ensures bad { IsErrOf result LineFault.Bad → (group : GroupDecl) (rest : List ℕ) →
        IsGroupFirst decls.now text.now group rest → ⊥ }
{
    let (group, behind) = take_lists(alloc, decls, text)?;
    if text.len() - behind.len() > GROUP_LIMIT {
        return Err(LineFault::Bad);
    }
    let Some(rest) = after(behind, b"\n") else {
        return Err(LineFault::Bad);
    };
    Ok((group, rest))
}

// The group whose lists stand at the front of a text, and what stands behind them.
fn take_lists<'a>(
    alloc: Global,
    decls: &[Decl],
    text: &'a [u8],
) -> Result<(GroupDecl, &'a [u8]), LineFault>
    requires { length decls.now ≤ component_limit }
    ensures ok { IfOk result (λ x. IsGroupNext decls.now text.now x.0 x.1.now) }
    ensures bad { IsErrOf result LineFault.Bad → (group : GroupDecl) (rest : List ℕ) →
        IsGroupNext decls.now text.now group rest → ⊥ }
{
    let Some(of_own) = after(text, b" own") else {
        return Err(LineFault::Bad);
    };
    let (own, behind_own) = take_some_names(alloc, decls, &[], of_own)?;
    let (get, behind_get) = take_part(alloc, decls, &[], b" get", behind_own)?;
    let (without, rest) = take_part(alloc, decls, &[], b" not", behind_get)?;
    let group = GroupDecl {
        own: kept(own),
        get: kept(get),
        without: kept(without),
    };
    Ok((group, rest))
}
