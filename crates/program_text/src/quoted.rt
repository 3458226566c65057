ghost use Rattle.std.specs.Prelude.{◌≡◌, IfOk, false};
ghost use Rattle.std.specs.Option.{option_map};
ghost use Rattle.program_text.specs.Quoted.{literal, escaped_byte};

use sprite_ids::{Bytes, NoMemory};
use std::alloc::Global;

/// What a byte stands for behind a backslash.
fn escaped(byte: u8) -> Option<u8>
    ensures { result ≡ escaped_byte byte }
{
    match byte {
        b'n' => Some(b'\n'),
        b'\\' => Some(b'\\'),
        b'"' => Some(b'"'),
        _ => None,
    }
}

/// The bytes that the inside of a quoted text writes, and what stands behind its closing quote; None exactly where
/// these bytes are no such inside. The one error is want of memory.
pub fn quoted(alloc: Global, bytes: &[u8]) -> Result<Option<(Bytes, &[u8])>, NoMemory>
    ensures { IfOk result (λ read. option_map (λ r. (r.0, r.1.now)) read ≡ literal false bytes.now) }
{
    let mut text = Bytes::new(alloc);
    let mut behind_backslash = false;
    for (at, byte) in bytes.iter().enumerate() {
        if behind_backslash {
            match escaped(*byte) {
                Some(meant) => text.push(meant)?,
                None => return Ok(None),
            }
            behind_backslash = false;
        } else if *byte == b'"' {
            return Ok(Some((text, &bytes[at + 1..])));
        } else if *byte == b'\\' {
            behind_backslash = true;
        } else if 32 <= *byte && *byte <= 126 {
            text.push(*byte)?;
        } else {
            return Ok(None);
        }
    }
    Ok(None)
}
