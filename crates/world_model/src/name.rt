ghost use Rattle.std.specs.Prelude.{◌≡◌};
ghost use Rattle.std.specs.List.{list_all};
ghost use Rattle.world_model.specs.Names.{is_letter as letter, is_name_byte as name_byte, is_name as name, begins_with_letter as begins, is_reserved as reserved};

fn is_letter(byte: u8) -> bool
    ensures { result ≡ letter byte }
{
    b'a' <= byte && byte <= b'z'
}

fn is_name_byte(byte: u8) -> bool
    ensures { result ≡ name_byte byte }
{
    is_letter(byte) || (b'0' <= byte && byte <= b'9') || byte == b'_'
}

fn begins_with_letter(token: &[u8]) -> bool
    ensures { result ≡ begins token.now }
{
    match token {
        [] => false,
        [first, ..] => is_letter(*first),
    }
}

fn all_name_bytes(token: &[u8]) -> bool
    ensures { result ≡ list_all name_byte token.now }
{
    token.iter().all(|byte| is_name_byte(*byte))
}

fn is_reserved(token: &[u8]) -> bool
    ensures { result ≡ reserved token.now }
{
    token == b"own".as_slice() || token == b"get".as_slice() || token == b"not".as_slice()
}

/// Whether a text has the form of a name: 1 to 32 bytes of `a` to `z`, `0` to `9` and `_`, the first a
/// letter, and none of the words `own`, `get` and `not`. No memory.
pub fn is_name(token: &[u8]) -> bool
    ensures { result ≡ name token.now }
{
    begins_with_letter(token) && token.len() <= 32 && all_name_bytes(token) && !is_reserved(token)
}
