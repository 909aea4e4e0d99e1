//! The lines of systems, each read whole, without its end.

ghost use Rattle.std.specs.Prelude.{◌≡◌, ◌++◌, ℕ, List, true, codes, IfOk, IsErrOf, OnErr};
ghost use Rattle.world_text.specs.Headers.{KeepsOthers, header_in};
ghost use Rattle.world_text.specs.Drafts.{TakesLine, RefusesLine, RefusesOthers, goes_on};

use super::draft::Draft;
use super::section::Section;
use super::system_adding::{add_body, add_system};
use entity_id::split_once;
use row_lang::words::after;
use row_lang::{LineFault, SystemDraft};
use std::alloc::Global;

/// Whether the next line is one of a system: one stands unfinished.
pub fn has_unfinished(draft: &Draft) -> bool
    ensures { result ≡ goes_on draft.now }
{
    draft.section.is_between(Section::Systems, Section::Systems) && draft.unfinished.is_some()
}

/// Reads a line `system NAME`, whose first word stands at the front.
pub fn read_system<'a>(
    alloc: Global,
    draft: &mut Draft,
    bytes: &'a [u8],
) -> Result<&'a [u8], LineFault>
    requires { (rest : List ℕ) × (bytes.now ≡ codes "system " ++ rest) }
    ensures ok { IfOk result (λ after. TakesLine draft.old bytes.now after.now draft.new) }
    ensures bad { IsErrOf result LineFault.Bad → RefusesOthers draft.old bytes.now }
    ensures others { KeepsOthers draft.old draft.new }
    ensures err { OnErr result (header_in draft.new ≡ header_in draft.old) }
{
    let Some((line, rest)) = split_once(bytes, b'\n') else {
        return Err(LineFault::Bad);
    };
    let Some(name) = after(line, b"system ") else {
        return Err(LineFault::Bad);
    };
    let system = SystemDraft::begin(alloc, line, &draft.decls)?;
    add_system(draft, name, system)?;
    Ok(rest)
}

/// Reads a line of the unfinished system.
pub fn read_body<'a>(draft: &mut Draft, bytes: &'a [u8]) -> Result<&'a [u8], LineFault>
    requires { goes_on draft.old ≡ true }
    ensures ok { IfOk result (λ after. TakesLine draft.old bytes.now after.now draft.new) }
    ensures bad { IsErrOf result LineFault.Bad → RefusesLine draft.old bytes.now }
    ensures others { KeepsOthers draft.old draft.new }
    ensures err { OnErr result (header_in draft.new ≡ header_in draft.old) }
{
    let Some((line, rest)) = split_once(bytes, b'\n') else {
        return Err(LineFault::Bad);
    };
    add_body(draft, line)?;
    Ok(rest)
}
