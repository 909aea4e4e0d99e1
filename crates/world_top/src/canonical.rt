ghost use Rattle.std.specs.Prelude.{IfOk, IfErr};
ghost use Rattle.world_text.specs.Documents.{IsDocument, IsLawfulDocument};
ghost use Rattle.world_text.specs.Refusals.{IsCause};
ghost use Rattle.world_top.specs.Output.{IsOutput, IsInputCause};

use super::Verb;
use std::alloc::Global;
use world_text::{Document, TextRefused, read_world, write_world};

/// What `snapshot` prints for an input: the canonical text of the document that it is.
pub fn canonical_text(alloc: Global, input: Vec<u8>) -> Result<Vec<u8>, TextRefused>
    ensures ok { IfOk result (λ out. IsOutput Verb.Snapshot input.items out.items) }
    ensures cause { IfErr result (IsInputCause Verb.Snapshot input.items) }
{
    let document = read_document(alloc, input)?;
    match write_world(alloc, &document) {
        Ok(out) => Ok(out),
        Err(_) => Err(TextRefused::OutOfMemory),
    }
}

/// The document that the input is. The input's memory is given back before any text is made.
pub fn read_document(alloc: Global, input: Vec<u8>) -> Result<Document, TextRefused>
    ensures document { IfOk result (λ document. IsDocument input.items document) }
    ensures lawful { IfOk result (λ document. IsLawfulDocument document) }
    ensures cause { IfErr result (IsCause input.items) }
{
    read_world(alloc, &input)
}
