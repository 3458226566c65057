ghost use Rattle.std.specs.Prelude.{◌≡◌, ◌≤◌, IfOk, IfSome};
ghost use Rattle.text_rows.specs.Words.{number_in};
ghost use Rattle.restart_text.specs.FileLines.{behind_two, quoted, stream_by, stream_of, stream_in, process};

use field_reader::{FieldEnd, Reader};
use history_text::Field;
use sprite_ids::{Bytes, Kernel, NoMemory, Pid, StreamNo};
use std::alloc::Global;
use text_lines::number;
use text_rows::{kernel_in, rest_of, word_of};

const MOST_NUMBER: u32 = 2_000_000_000;

/// The bytes behind the second space.
pub(crate) fn behind_two(bytes: &[u8]) -> &[u8]
    ensures { result.now ≡ behind_two bytes.now }
{
    rest_of(rest_of(bytes))
}

/// The number that the word writes, where it is from the one to the other.
pub(crate) fn number_in(low: u32, high: u32, word: &[u8]) -> Option<u32>
    ensures value { result ≡ number_in low high word.now }
    ensures within { IfSome result (λ number. (low ≤ number) × (number ≤ high)) }
{
    let number = number(word)?;
    if number < u64::from(low) || number > u64::from(high) {
        return None;
    }
    u32::try_from(number).ok()
}

/// The number of a stream or a call that the word writes.
pub(crate) fn number_of(word: &[u8]) -> Option<u32>
    ensures { result ≡ number_in 1 2000000000 word.now }
{
    number_in(1, MOST_NUMBER, word)
}

/// The stream that the kernel of the one word opened as that of the other.
pub(crate) fn stream_of(kernels: u8, kernel: &[u8], number: &[u8]) -> Option<StreamNo>
    requires { kernels ≤ 15 }
    ensures { result ≡ stream_of kernels kernel.now number.now }
{
    let kernel = kernel_in(kernels, kernel)?;
    let number = number_of(number)?;
    Some(StreamNo { kernel, number })
}

/// The stream of the first two words.
pub(crate) fn stream_in(kernels: u8, values: &[u8]) -> Option<StreamNo>
    requires { kernels ≤ 15 }
    ensures { result ≡ stream_in kernels values.now }
{
    stream_of(kernels, word_of(values), word_of(rest_of(values)))
}

/// The first process of a kernel.
pub(crate) fn process(kernel: Kernel) -> Pid
    ensures { result ≡ process kernel }
{
    match Pid::new(kernel, 1) {
        Some(pid) => pid,
        None => unreachable!(),
    }
}

/// The bytes in quotes, with nothing behind them; None exactly where the line isn't of that form.
pub(crate) fn quoted(alloc: Global, line: &[u8]) -> Result<Option<Bytes>, NoMemory>
    ensures { IfOk result (λ bytes. bytes ≡ quoted line.now) }
{
    let mut from = Reader::new(line);
    match Bytes::read_from(alloc, &mut from) {
        Ok(bytes) => {
            if from.is_empty() {
                Ok(Some(bytes))
            } else {
                Ok(None)
            }
        }
        Err(FieldEnd::NotSpelled) => Ok(None),
        Err(FieldEnd::NoMemory) => Err(NoMemory),
    }
}
