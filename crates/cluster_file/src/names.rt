ghost use Rattle.std.specs.Prelude.{◌≡◌};
ghost use Rattle.unix_calls.specs.Lawful.{is_letter, is_name_byte, is_name};

/// How many bytes a name may have behind its first.
const MORE_BYTES: usize = 15;

/// Whether a byte is one of `a` to `z`.
fn is_letter(byte: u8) -> bool
    ensures { result ≡ is_letter byte }
{
    b'a' <= byte && byte <= b'z'
}

/// Whether a byte may stand in a name.
fn is_name_byte(byte: u8) -> bool
    ensures { result ≡ is_name_byte byte }
{
    is_letter(byte) || (b'0' <= byte && byte <= b'9')
}

/// Whether a text is a name: 1 to 16 bytes of `a` to `z` and `0` to `9`, the first a letter.
pub fn is_name(text: &[u8]) -> bool
    ensures { result ≡ is_name text.now }
{
    let Some((first, rest)) = text.split_first() else {
        return false;
    };
    if !is_letter(*first) || rest.len() > MORE_BYTES {
        return false;
    }
    for byte in rest {
        if !is_name_byte(*byte) {
            return false;
        }
    }
    true
}
