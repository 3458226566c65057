ghost use Rattle.std.specs.Prelude.{◌≡◌, ◌≤◌, ◌↔◌, ◌∷◌, ◌==◌, [], IsTrue, IfNone, IfSome, not, length};
ghost use Rattle.std.specs.List.{position_or_len};
ghost use Rattle.program_text.specs.Words.{words_of, skip_spaces, past_word};

use text_lines::place_of;

/// The place of the first byte that is no space, or the length where there is none.
fn place_past_spaces(bytes: &[u8]) -> usize
    ensures place { result ≡ position_or_len (λ b. not (b == 32)) bytes.now }
    ensures within { result ≤ length bytes.now }
{
    for (place, byte) in bytes.iter().enumerate() {
        if *byte != b' ' {
            return place;
        }
    }
    bytes.len()
}

/// The bytes from the first one on that is no space.
pub fn skip_spaces(bytes: &[u8]) -> &[u8]
    ensures { result.now ≡ skip_spaces bytes.now }
{
    &bytes[place_past_spaces(bytes)..]
}

/// The first word, which ends before a space, and what stands behind it; None exactly where there is no word.
pub fn next_word(bytes: &[u8]) -> Option<(&[u8], &[u8])>
    ensures words { IfSome result (λ r. words_of bytes.now ≡ r.0.now ∷ words_of r.1.now) }
    ensures rest { IfSome result (λ r. r.1.now ≡ past_word bytes.now) }
    ensures none { IfNone result (words_of bytes.now ≡ []) }
{
    let trimmed = skip_spaces(bytes);
    let end = place_of(trimmed, b' ');
    if end == 0 {
        return None;
    }
    Some((&trimmed[..end], &trimmed[end..]))
}

/// Whether no word stands there.
pub fn is_blank(bytes: &[u8]) -> bool
    ensures { IsTrue result ↔ (words_of bytes.now ≡ []) }
{
    next_word(bytes).is_none()
}
