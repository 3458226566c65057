ghost use Rattle.std.specs.Prelude.{◌≡◌, ◌≤◌, IfSome};
ghost use Rattle.text_rows.specs.Words.{number_in, rest_of, word_of};

use sprite_ids::Kernel;
use text_lines::{number, place_of};

/// The bytes before the first space, or all where there is none (this project).
pub fn word_of(bytes: &[u8]) -> &[u8]
    ensures { result.now ≡ word_of bytes.now }
{
    &bytes[..place_of(bytes, b' ')]
}

/// The bytes behind the first space; empty where there is none (this project).
pub fn rest_of(bytes: &[u8]) -> &[u8]
    ensures { result.now ≡ rest_of bytes.now }
{
    let end = place_of(bytes, b' ');
    if end < bytes.len() {
        &bytes[end + 1..]
    } else {
        &bytes[bytes.len()..]
    }
}

/// The kernel whose number, from 1 to `kernels`, the word writes in decimal; None exactly where it writes none (this project).
pub fn kernel_in(kernels: u8, word: &[u8]) -> Option<Kernel>
    requires { kernels ≤ 16 }
    ensures value { result ≡ number_in 1 kernels word.now }
    ensures within { IfSome result (λ kernel. (1 ≤ kernel) × (kernel ≤ kernels)) }
{
    let number = number(word)?;
    if number < 1 || number > u64::from(kernels) {
        return None;
    }
    Kernel::new(u8::try_from(number).ok()?)
}
