ghost use Rattle.std.specs.Prelude.{◌≡◌, ◌∷◌, []};
ghost use Rattle.sprite_words.specs.Words.{IsCountOf, IsNext, IsNumberOf, value_from};

/// The number that 1 to 20 digits spell; None exactly where these bytes are no such digits, or spell 2^64 or more.
pub(crate) fn number_of(digits: &[u8]) -> Option<u64>
    ensures { IsNumberOf digits.now result }
{
    if digits.is_empty() || digits.len() > 20 {
        return None;
    }
    value_of(digits)
}

/// The number from 1 to 64 that 1 to 20 digits spell; None exactly where these bytes spell none.
#[tactic(auto, using(crate::proofs::WordLaws::no_count, crate::proofs::WordLaws::far_count))]
pub(crate) fn count_of(digits: &[u8]) -> Option<u8>
    ensures { IsCountOf digits.now result }
{
    let Some(number) = number_of(digits) else {
        return None;
    };
    if number < 1 || number > 64 {
        return None;
    }
    Some(number as u8)
}

// The number that the digits spell.
#[tactic(auto, using(crate::proofs::WordLaws::no_next, crate::proofs::WordLaws::digits_stay, crate::proofs::WordLaws::value_stays))]
fn value_of(digits: &[u8]) -> Option<u64>
    ensures { IsNext 0 digits.now result }
{
    let mut value: u64 = 0;
    for digit in digits {
        match next(value, *digit) {
            Some(more) => value = more,
            None => return None,
        }
    }
    Some(value)
}

// The number with one digit more.
fn next(value: u64, digit: u8) -> Option<u64>
    ensures { IsNext value (digit ∷ []) result }
{
    if !digit.is_ascii_digit() {
        return None;
    }
    value.checked_mul(10)?.checked_add(u64::from(digit - b'0'))
}
