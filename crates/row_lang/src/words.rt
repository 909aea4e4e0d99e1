//! Words of a line.

ghost use Rattle.std.specs.Prelude.{◌≡◌};
ghost use Rattle.std.specs.List.{position_from};
ghost use Rattle.row_lang.specs.Reading.{IsAfter, ends_name, IsNameSplit};

/// What stands behind a word at the front of a text. None where the word isn't there. No memory.
pub fn after<'a>(text: &'a [u8], word: &[u8]) -> Option<&'a [u8]>
    ensures { IsAfter text.now word.now result }
{
    text.strip_prefix(word)
}

/// The front of a text up to its first space or line end, and the rest, which begins with that. No memory.
pub fn split_name(text: &[u8]) -> (&[u8], &[u8])
    ensures { IsNameSplit text.now result.0.now result.1.now }
{
    match name_end(text) {
        Some(at) => text.split_at(at),
        None => text.split_at(text.len()),
    }
}

fn name_end(text: &[u8]) -> Option<usize>
    ensures { result ≡ position_from ends_name 0 text.now }
{
    text.iter().position(|byte| *byte == b' ' || *byte == b'\n')
}
