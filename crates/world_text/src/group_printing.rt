//! Groups of documents as text.

ghost use Rattle.std.specs.Prelude.{◌≡◌, ◌++◌, ◌∷◌, [], length, take, map, OnOk};
ghost use Rattle.world_text.specs.Formats.{version_1};
ghost use Rattle.world_text.specs.Lines.{line_text, text_of};
ghost use Rattle.row_lang.specs.NameLists.{name_at, names_text, part_text};
ghost use Rattle.world_text.specs.Documents.{group_line};

use entity_id::OutOfMemory;
use world_model::{Decl, GroupDecl};

// Appends the lines of groups. After a refusal, which comes where memory for the text runs out, a front of
// them may have been appended. So it is with the parts below.
pub(super) fn push_groups(
    out: &mut Vec<u8>,
    decls: &[Decl],
    groups: &[GroupDecl],
) -> Result<(), OutOfMemory>
    ensures ok { OnOk result (out.new.items ≡
        out.old.items ++ text_of version_1 (map (group_line decls.now) groups.now)) }
    ensures front { take (length out.old.items) out.new.items ≡ out.old.items }
{
    for group in groups {
        push_group(out, decls, group)?;
    }
    Ok(())
}

fn push_group(out: &mut Vec<u8>, decls: &[Decl], group: &GroupDecl) -> Result<(), OutOfMemory>
    ensures ok { OnOk result (out.new.items ≡
        out.old.items ++ (line_text version_1 (group_line decls.now group.now) ++ 10 ∷ [])) }
    ensures front { take (length out.old.items) out.new.items ≡ out.old.items }
{
    out.extend_from_slice(b"group own")?;
    push_names(out, decls, group.own.as_slice())?;
    push_part(out, b" get", decls, group.get.as_slice())?;
    push_part(out, b" not", decls, group.without.as_slice())?;
    out.push(b'\n')?;
    Ok(())
}

// Appends a word and the names of components, or nothing where there are none.
fn push_part(
    out: &mut Vec<u8>,
    word: &[u8],
    decls: &[Decl],
    pools: &[u32],
) -> Result<(), OutOfMemory>
    ensures ok { OnOk result (out.new.items ≡
        out.old.items ++ part_text word.now decls.now pools.now) }
    ensures front { take (length out.old.items) out.new.items ≡ out.old.items }
{
    if pools.is_empty() {
        return Ok(());
    }
    out.extend_from_slice(word)?;
    push_names(out, decls, pools)
}

// Appends the names of components, each behind a space.
fn push_names(out: &mut Vec<u8>, decls: &[Decl], pools: &[u32]) -> Result<(), OutOfMemory>
    ensures ok { OnOk result (out.new.items ≡ out.old.items ++ names_text decls.now pools.now) }
    ensures front { take (length out.old.items) out.new.items ≡ out.old.items }
{
    for pool in pools {
        push_name(out, decls, *pool)?;
    }
    Ok(())
}

// Appends a space and the name of a component; one that isn't there has none.
fn push_name(out: &mut Vec<u8>, decls: &[Decl], pool: u32) -> Result<(), OutOfMemory>
    ensures ok { OnOk result (out.new.items ≡ out.old.items ++ 32 ∷ name_at decls.now pool) }
    ensures front { take (length out.old.items) out.new.items ≡ out.old.items }
{
    out.push(b' ')?;
    if let Some(decl) = decls.get(pool as usize) {
        out.extend_from_slice(decl.name.as_slice())?;
    }
    Ok(())
}
