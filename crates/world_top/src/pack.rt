//! Documents printed as binary snapshots, and snapshots as text.

ghost use Rattle.std.specs.Prelude.{IfOk, IfErr};
ghost use Rattle.snapshot.specs.Reading.{IsCause};
ghost use Rattle.snapshot.specs.Snapshots.{IsSnapshot};
ghost use Rattle.world_text.specs.Documents.{IsLawfulDocument};
ghost use Rattle.world_top.specs.Output.{IsOutput, IsInputCause};

use super::Verb;
use super::canonical::read_document;
use snapshot::PackRefused;
use std::alloc::Global;
use world_text::{Document, TextRefused, write_world};

/// What `pack` prints for an input: the binary snapshot of the document that it is.
pub fn pack(alloc: Global, input: Vec<u8>) -> Result<Vec<u8>, TextRefused>
    ensures ok { IfOk result (λ out. IsOutput Verb.Pack input.items out.items) }
    ensures cause { IfErr result (IsInputCause Verb.Pack input.items) }
{
    let document = read_document(alloc, input)?;
    match snapshot::pack(alloc, &document) {
        Ok(out) => Ok(out),
        Err(_) => Err(TextRefused::OutOfMemory),
    }
}

/// What `unpack` prints for an input: the canonical text of the document that it is a snapshot of.
pub fn unpack(alloc: Global, input: Vec<u8>) -> Result<Vec<u8>, PackRefused>
    ensures ok { IfOk result (λ out. IsOutput Verb.Unpack input.items out.items) }
    ensures cause { IfErr result (IsCause input.items) }
{
    let document = read_snapshot(alloc, input)?;
    match write_world(alloc, &document) {
        Ok(out) => Ok(out),
        Err(_) => Err(PackRefused::OutOfMemory),
    }
}

// The document that the input is a snapshot of. The input's memory is given back before any text is
// made.
fn read_snapshot(alloc: Global, input: Vec<u8>) -> Result<Document, PackRefused>
    ensures document { IfOk result (λ document. IsSnapshot input.items document) }
    ensures lawful { IfOk result (λ document. IsLawfulDocument document) }
    ensures cause { IfErr result (IsCause input.items) }
{
    snapshot::unpack(alloc, &input)
}
