ghost use Rattle.std.specs.Prelude.{◌≡◌, ◌≤◌, ◌<◌, None, IfOk, IfSome, length};
ghost use Rattle.frames_text.specs.Digits.{IsPut, bytes_from, digit_of};

use sprite_ids::{Bytes, NoMemory};
use std::alloc::Global;

/// The bytes that the line spells in lower-case hexadecimal, two digits each, the higher one first; None exactly where it spells none.
/// The one error is want of memory.
pub(crate) fn bytes_of(alloc: Global, line: &[u8]) -> Result<Option<Bytes>, NoMemory>
    ensures bytes { IfOk result (λ bytes. bytes ≡ bytes_from None line.now) }
    ensures short { IfOk result (λ bytes. IfSome bytes (λ bytes. length bytes ≤ length line.now)) }
{
    let mut bytes = Vec::with_capacity(alloc, line.len() / 2)?;
    let mut high = None;
    for byte in line {
        let Some(digit) = digit_of(*byte) else {
            return Ok(None);
        };
        high = put_digit(&mut bytes, high, digit)?;
    }
    if high.is_some() {
        return Ok(None);
    }
    Ok(Some(Bytes::of_vec(bytes)))
}

// Puts the byte of two digits, where the higher one was read before, or keeps this one as the higher one.
fn put_digit(bytes: &mut Vec<u8>, high: Option<u8>, digit: u8) -> Result<Option<u8>, NoMemory>
    requires high { IfSome high (λ high. high < 16) }
    requires small { digit < 16 }
    ensures { IfOk result (λ next. IsPut high digit bytes.old.items bytes.new.items next) }
{
    match high {
        None => Ok(Some(digit)),
        Some(high) => {
            bytes.push(16 * high + digit)?;
            Ok(None)
        }
    }
}

// The value of a digit, `0` to `9` and `a` to `f`.
fn digit_of(byte: u8) -> Option<u8>
    ensures value { result ≡ digit_of byte }
    ensures small { IfSome result (λ digit. digit < 16) }
{
    match byte {
        b'0'..=b'9' => Some(byte - b'0'),
        b'a'..=b'f' => Some(byte - b'a' + 10),
        _ => None,
    }
}
