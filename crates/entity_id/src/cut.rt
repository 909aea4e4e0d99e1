ghost use Rattle.std.specs.Prelude.{MatchOption};
ghost use Rattle.entity_id.specs.Cuts.{Lacks, IsCut, IsLastCut};

use memchr::{memchr, memrchr};

/// What stands before the first such byte of a text, and what behind it. None exactly where the text
/// has no such byte. No memory.
pub fn split_once(text: &[u8], byte: u8) -> Option<(&[u8], &[u8])>
    ensures { MatchOption result (Lacks byte text.now)
        (λ parts. IsCut text.now byte parts.0.now parts.1.now) }
{
    let at = memchr(byte, text)?;
    Some((&text[..at], &text[at + 1..]))
}

/// What stands before the last such byte of a text, and what behind it. None exactly where the text
/// has no such byte. No memory.
pub fn rsplit_once(text: &[u8], byte: u8) -> Option<(&[u8], &[u8])>
    ensures { MatchOption result (Lacks byte text.now)
        (λ parts. IsLastCut text.now byte parts.0.now parts.1.now) }
{
    let at = memrchr(byte, text)?;
    Some((&text[..at], &text[at + 1..]))
}
