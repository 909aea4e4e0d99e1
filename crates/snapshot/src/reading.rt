//! Snapshots read, field by field, in one pass.

ghost use Rattle.std.specs.Prelude.{◌≡◌, length, IfOk, IfErr};
ghost use Rattle.world_text.specs.Documents.{IsLawfulDocument};
ghost use Rattle.snapshot.specs.Snapshots.{IsSnapshot};
ghost use Rattle.snapshot.specs.Reading.{IsCause, IsAtRest};

use super::beginning::{read_header, read_start};
use super::body::{read_free, read_slots, read_tick};
use super::pools::read_pools;
use super::refusal::{PackRefused, refused};
use std::alloc::Global;
use world_text::{Document, Draft, add_end, finished};

/// The document that a snapshot stands for. `BadAt` comes exactly where the first field that is not
/// admissible, or that is missing, starts at this offset, and `OutOfMemory` for want of memory.
/// (EnTT: `snapshot_loader`.)
pub fn unpack(alloc: Global, bytes: &[u8]) -> Result<Document, PackRefused>
    ensures document { IfOk result (λ document. IsSnapshot bytes.now document) }
    ensures lawful { IfOk result (λ document. IsLawfulDocument document) }
    ensures cause { IfErr result (IsCause bytes.now) }
{
    let count = read_start(bytes)?;
    let (header, at) = read_header(alloc, bytes, count)?;
    let mut draft = header.into_draft();
    let tick_end = read_tick(&mut draft, bytes, at)?;
    let (slots_end, free) = read_slots(&mut draft, bytes, tick_end)?;
    let free_end = read_free(&mut draft, bytes, slots_end, free)?;
    let end = read_pools(alloc, &mut draft, bytes, free_end)?;
    read_end(draft, bytes, end)
}

// The document of a draft, where nothing stands behind its last field.
fn read_end(draft: Draft, bytes: &[u8], at: usize) -> Result<Document, PackRefused>
    requires rest { IsAtRest bytes.now at draft }
    requires all { length draft.pools.items ≡ length draft.decls.items }
    ensures document { IfOk result (λ document. IsSnapshot bytes.now document) }
    ensures lawful { IfOk result (λ document. IsLawfulDocument document) }
    ensures cause { IfErr result (IsCause bytes.now) }
{
    if at < bytes.len() {
        return Err(PackRefused::BadAt { offset: at as u64 });
    }
    let mut draft = draft;
    match add_end(&mut draft) {
        Ok(()) => Ok(finished(draft)),
        Err(fault) => Err(refused(fault, at)),
    }
}
