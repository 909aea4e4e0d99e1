//! Words of a line.

ghost use Rattle.world_text.specs.Reading.{IsWordSplit};

/// The front of a text up to its first space, and the rest, which begins with that space.
pub fn split_word(text: &[u8]) -> (&[u8], &[u8])
    ensures { IsWordSplit text.now result.0.now result.1.now }
{
    match text.iter().position(|byte| *byte == b' ') {
        Some(at) => text.split_at(at),
        None => text.split_at(text.len()),
    }
}
