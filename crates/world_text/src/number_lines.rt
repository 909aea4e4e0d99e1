//! Lines of a word and a number, read from the front of the bytes behind the word.

ghost use Rattle.std.specs.Prelude.{◌++◌, ℕ, List, codes, if◌then◌else◌, IfOk, IfSome, IfNone, IsErrOf};
ghost use Rattle.world_text.specs.Formats.{IsFormat};
ghost use Rattle.world_text.specs.Reading.{IsNumberLine};
ghost use Rattle.world_text.specs.Drafts.{TakesLine, RefusesOthers};

use super::adding::{add_next, add_slot, add_tick, add_version};
use super::draft::Draft;
use super::format::TICK_LIMIT;
use entity_id::take_nat;
use row_lang::LineFault;
use row_lang::words::after;
use world_model::Slot;

/// Reads the line `world V`.
pub fn read_version<'a>(draft: &mut Draft, text: &'a [u8]) -> Result<&'a [u8], LineFault>
    requires { IsFormat draft.old.format }
    ensures ok { IfOk result (λ after.
        TakesLine draft.old (codes "world " ++ text.now) after.now draft.new) }
    ensures bad { IsErrOf result LineFault.Bad →
        RefusesOthers draft.old (codes "world " ++ text.now) }
{
    let Some((version, after)) = number_line(text, u64::MAX) else {
        return Err(LineFault::Bad);
    };
    if version != draft.format.version {
        return Err(LineFault::Bad);
    }
    add_version(draft)?;
    Ok(after)
}

/// Reads the line `tick T`.
pub fn read_tick<'a>(draft: &mut Draft, text: &'a [u8]) -> Result<&'a [u8], LineFault>
    ensures ok { IfOk result (λ after.
        TakesLine draft.old (codes "tick " ++ text.now) after.now draft.new) }
    ensures bad { IsErrOf result LineFault.Bad → RefusesOthers draft.old (codes "tick " ++ text.now) }
{
    let Some((tick, after)) = number_line(text, TICK_LIMIT) else {
        return Err(LineFault::Bad);
    };
    add_tick(draft, tick)?;
    Ok(after)
}

/// Reads a line `live V` or `free V`.
pub fn read_slot<'a>(draft: &mut Draft, text: &'a [u8], live: bool) -> Result<&'a [u8], LineFault>
    requires { IsFormat draft.old.format }
    ensures ok { IfOk result (λ after.
        TakesLine draft.old ((if live then codes "live " else codes "free ") ++ text.now)
        after.now draft.new) }
    ensures bad { IsErrOf result LineFault.Bad →
        RefusesOthers draft.old ((if live then codes "live " else codes "free ") ++ text.now) }
{
    let Some((version, after)) = number_line(text, u64::from(draft.format.profile.version_limit))
    else {
        return Err(LineFault::Bad);
    };
    let version = version as u32;
    if version == draft.format.profile.version_limit {
        return Err(LineFault::Bad);
    }
    add_slot(draft, Slot { version, live })?;
    Ok(after)
}

/// Reads a line `next I`.
pub fn read_next<'a>(draft: &mut Draft, text: &'a [u8]) -> Result<&'a [u8], LineFault>
    requires { IsFormat draft.old.format }
    ensures ok { IfOk result (λ after.
        TakesLine draft.old (codes "next " ++ text.now) after.now draft.new) }
    ensures bad { IsErrOf result LineFault.Bad → RefusesOthers draft.old (codes "next " ++ text.now) }
{
    let Some((index, after)) = number_line(text, u64::from(draft.format.slot_limit)) else {
        return Err(LineFault::Bad);
    };
    let index = index as u32;
    if index == draft.format.slot_limit {
        return Err(LineFault::Bad);
    }
    add_next(draft, index)?;
    Ok(after)
}

// A number of at most `limit` up to the end of its line, and what stands behind that.
fn number_line(text: &[u8], limit: u64) -> Option<(u64, &[u8])>
    ensures some { IfSome result (λ x. IsNumberLine limit text.now x.0 x.1.now) }
    ensures none { IfNone result ((number : ℕ) (more : List ℕ) →
        IsNumberLine limit text.now number more → ⊥) }
{
    let (number, rest) = take_nat(text, limit)?;
    let after = after(rest, b"\n")?;
    Some((number, after))
}
