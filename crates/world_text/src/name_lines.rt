//! Lines that hold a name, read from the front of the bytes behind their word.

ghost use Rattle.std.specs.Prelude.{◌≡◌, ◌≢◌, ◌≤◌, ℕ, List, ◌++◌, length, replicate, codes, IfOk, IfSome, IfNone, IsErrOf, MatchOption, OnErr};
ghost use Rattle.std.specs.List.{flat_map};
ghost use Rattle.world_model.specs.declared.component.Kind.{Kind};
ghost use Rattle.row_lang.specs.Naming.{IsNamedDecl};
ghost use Rattle.world_text.specs.Lines.{kind_text, decl_text};
ghost use Rattle.world_text.specs.Reading.{AreKinds};
ghost use Rattle.world_model.specs.declared.component.Decl.{Decl};
ghost use Rattle.world_text.specs.Formats.{IsFormat};
ghost use Rattle.world_text.specs.Headers.{KeepsOthers, header_in};
ghost use Rattle.world_text.specs.Drafts.{TakesLine, RefusesOthers};

use super::adding::{add_component, add_group};
use super::draft::Draft;
use super::filling::add_pool;
use super::group_lines::take_group;
use super::words::split_word;
use entity_id::{Name, split_once};
use row_lang::LineFault;
use row_lang::words::after;
use std::alloc::Global;
use world_model::{Decl, Kind, is_name};

/// Reads a line `component NAME KIND ..`.
pub fn read_component<'a>(
    alloc: Global,
    draft: &mut Draft,
    text: &'a [u8],
) -> Result<&'a [u8], LineFault>
    requires { IsFormat draft.old.format }
    ensures ok { IfOk result (λ after.
        TakesLine draft.old (codes "component " ++ text.now) after.now draft.new) }
    ensures bad { IsErrOf result LineFault.Bad →
        RefusesOthers draft.old (codes "component " ++ text.now) }
    ensures others { KeepsOthers draft.old draft.new }
    ensures err { OnErr result (header_in draft.new ≡ header_in draft.old) }
{
    let Some((text, after)) = split_once(text, b'\n') else {
        return Err(LineFault::Bad);
    };
    let decl = component_of(alloc, text)?;
    add_component(draft, decl)?;
    Ok(after)
}

/// Reads a line `group own NAMES`, and behind it a list of names behind `get` and one behind `not`, or not.
pub fn read_group<'a>(
    alloc: Global,
    draft: &mut Draft,
    text: &'a [u8],
) -> Result<&'a [u8], LineFault>
    ensures ok { IfOk result (λ after.
        TakesLine draft.old (codes "group" ++ text.now) after.now draft.new) }
    ensures bad { IsErrOf result LineFault.Bad → RefusesOthers draft.old (codes "group" ++ text.now) }
    ensures others { KeepsOthers draft.old draft.new }
    ensures err { OnErr result (header_in draft.new ≡ header_in draft.old) }
{
    let (decl, after) = take_group(alloc, &draft.decls, text)?;
    add_group(draft, decl)?;
    Ok(after)
}

/// Reads a line `pool NAME`.
pub fn read_pool<'a>(
    alloc: Global,
    draft: &mut Draft,
    text: &'a [u8],
) -> Result<&'a [u8], LineFault>
    requires { IsFormat draft.old.format }
    ensures ok { IfOk result (λ after.
        TakesLine draft.old (codes "pool " ++ text.now) after.now draft.new) }
    ensures bad { IsErrOf result LineFault.Bad → RefusesOthers draft.old (codes "pool " ++ text.now) }
{
    let Some((name, after)) = split_once(text, b'\n') else {
        return Err(LineFault::Bad);
    };
    if !is_name(name) {
        return Err(LineFault::Bad);
    }
    let name = Name::from_vec(Vec::from_slice(alloc, name)?);
    add_pool(alloc, draft, name)?;
    Ok(after)
}

// The component that a text declares by its name and kinds.
fn component_of(alloc: Global, text: &[u8]) -> Result<Decl, LineFault>
    ensures ok { IfOk result (λ decl. IsNamedDecl decl × (text.now ≡ decl_text decl)) }
    ensures bad { IsErrOf result LineFault.Bad →
        (decl : Decl) → IsNamedDecl decl → text.now ≢ decl_text decl }
{
    let (name, kinds_text) = split_word(text);
    if !is_name(name) {
        return Err(LineFault::Bad);
    }
    let mut kinds = [Kind::Int; 4];
    let Some(count) = read_kinds(kinds_text, &mut kinds) else {
        return Err(LineFault::Bad);
    };
    let name = Name::from_vec(Vec::from_slice(alloc, name)?);
    Ok(Decl { name, count, kinds })
}

fn read_kind(text: &[u8]) -> Option<(Kind, &[u8])>
    ensures { MatchOption result
        ((kind : Kind) (rest : List ℕ) → text.now ≢ kind_text kind ++ rest)
        (λ x. text.now ≡ kind_text x.0 ++ x.1.now) }
{
    if let Some(rest) = after(text, b" int") {
        return Some((Kind::Int, rest));
    }
    if let Some(rest) = after(text, b" entity") {
        return Some((Kind::Ref, rest));
    }
    None
}

// Reads kinds to the end of a text, into `kinds`, and says how many.
fn read_kinds(text: &[u8], kinds: &mut [Kind; 4]) -> Option<u32>
    requires { kinds.old ≡ replicate 4 Kind.Int }
    ensures some { IfSome result (λ count. AreKinds text.now count kinds.new) }
    ensures none { IfNone result ((all : List Kind) →
        length all ≤ 4 → text.now ≢ flat_map kind_text all) }
{
    let mut rest = text;
    for count in 0..4 {
        if rest.is_empty() {
            return Some(count as u32);
        }
        let (kind, after) = read_kind(rest)?;
        kinds[count] = kind;
        rest = after;
    }
    if rest.is_empty() { Some(4) } else { None }
}
