//! The header lines of a document as texts of their own.

ghost use Rattle.std.specs.Prelude.{◌≡◌, map, IfOk};
ghost use Rattle.world_text.specs.Documents.{IsLawfulDocument, header_of};
ghost use Rattle.world_text.specs.Formats.{version_1};
ghost use Rattle.world_text.specs.Headers.{AreLinesOf};
ghost use Rattle.world_text.specs.Lines.{line_text};

use super::Document;
use super::printing::push_header;
use entity_id::{Name, OutOfMemory, split_once};
use std::alloc::Global;

/// The header lines of a lawful document, as its canonical text has them behind line 1, each without its
/// end: those of its components, its groups and its systems. Refused where memory for them runs out.
pub fn header_lines(alloc: Global, document: &Document) -> Result<Vec<Name>, OutOfMemory>
    requires { IsLawfulDocument document.now }
    ensures { IfOk result (λ lines.
        lines.items ≡ map (line_text version_1) (header_of document.now)) }
{
    let mut text = Vec::new(alloc);
    push_header(&mut text, document)?;
    split_lines(alloc, &text)
}

// The lines of a text, each without its end, a line feed; what stands behind the last one is left out.
fn split_lines(alloc: Global, text: &[u8]) -> Result<Vec<Name>, OutOfMemory>
    ensures { IfOk result (λ lines. AreLinesOf text.now lines.items) }
{
    let mut lines = Vec::new(alloc);
    let mut rest = text;
    while let Some((line, behind)) = split_once(rest, b'\n') {
        lines.push(Name::from_vec(Vec::from_slice(alloc, line)?))?;
        rest = behind;
    }
    Ok(lines)
}
