ghost use Rattle.std.specs.Prelude.{◌≡◌, ◌++◌, ◌<◌, IfOk, OnOk};
ghost use Rattle.std.specs.Option.{option_map};
ghost use Rattle.std.specs.List.{flat_map, AllByRecursion};
ghost use Rattle.unix_calls.specs.Output.{hexadecimal};
ghost use Rattle.history_text.specs.Texts.{is_plain, quoted_byte, digit_of, byte_of, inside, text};
ghost use Rattle.history_text.specs.declared.quoted.Escape.TheVariants.{Outside};

use crate::field::Field;
use field_reader::{FieldEnd, Reader};
use sprite_ids::{Bytes, NoMemory};
use std::alloc::Global;

/// What of an escape was read.
#[derive(Clone, Copy, Debug, PartialEq, Eq)]
pub enum Escape {
    /// Nothing.
    Outside,
    /// Its backslash.
    Begun,
    /// Its backslash and its first digit.
    High(u8),
}

/// Whether a byte stands in quotes as it is.
fn is_plain(byte: u8) -> bool
    ensures { result ≡ is_plain byte }
{
    32 <= byte && byte <= 126 && byte != b'"' && byte != b'\\'
}

/// The digit of that value, 0 to 15, in lower case.
fn hexadecimal(digit: u8) -> u8
    requires { digit < 16 }
    ensures { result ≡ hexadecimal digit }
{
    if digit < 10 {
        b'0' + digit
    } else {
        b'a' + (digit - 10)
    }
}

/// Puts a byte as it stands in quotes.
fn put_byte(out: &mut Vec<u8>, byte: u8) -> Result<(), NoMemory>
    ensures { OnOk result (out.new.items ≡ out.old.items ++ quoted_byte byte) }
{
    if is_plain(byte) {
        out.push(byte)?;
        return Ok(());
    }
    out.push(b'\\')?;
    out.push(hexadecimal(byte / 16))?;
    out.push(hexadecimal(byte % 16))?;
    Ok(())
}

/// Puts bytes as they stand in quotes.
fn put_bytes(out: &mut Vec<u8>, bytes: &[u8]) -> Result<(), NoMemory>
    ensures print { OnOk result (out.new.items ≡ out.old.items ++ flat_map quoted_byte bytes.now) }
    ensures small { OnOk result (AllByRecursion (λ b. b < 256) bytes.now) }
{
    for byte in bytes {
        put_byte(out, *byte)?;
    }
    Ok(())
}

/// The value of a hexadecimal digit in lower case; None of any other byte.
fn digit_of(digit: u8) -> Option<u8>
    ensures { result ≡ digit_of digit }
{
    if b'0' <= digit && digit <= b'9' {
        Some(digit - b'0')
    } else if b'a' <= digit && digit <= b'f' {
        Some(digit - b'a' + 10)
    } else {
        None
    }
}

/// The byte that an escape with these digits means; None exactly where they aren't digits or the byte is plain.
fn escaped(high: u8, low: u8) -> Option<u8>
    ensures { result ≡ byte_of (digit_of high) (digit_of low) }
{
    let high = digit_of(high)?;
    let low = digit_of(low)?;
    let byte = 16 * high + low;
    if is_plain(byte) { None } else { Some(byte) }
}

/// The bytes from inside the quotes on up to the closing one, and what stands behind it; None exactly where these bytes
/// are no such inside. The one error is want of memory.
fn inside(alloc: Global, bytes: &[u8]) -> Result<Option<(Bytes, &[u8])>, NoMemory>
    ensures { IfOk result (λ read. option_map (λ r. (r.0, r.1.now)) read ≡ inside Outside bytes.now) }
{
    let mut text = Bytes::new(alloc);
    let mut escape = Escape::Outside;
    for (at, byte) in bytes.iter().enumerate() {
        match escape {
            Escape::Begun => escape = Escape::High(*byte),
            Escape::High(high) => {
                match escaped(high, *byte) {
                    Some(meant) => text.push(meant)?,
                    None => return Ok(None),
                }
                escape = Escape::Outside;
            }
            Escape::Outside => {
                if *byte == b'"' {
                    return Ok(Some((text, &bytes[at + 1..])));
                } else if *byte == b'\\' {
                    escape = Escape::Begun;
                } else if is_plain(*byte) {
                    text.push(*byte)?;
                } else {
                    return Ok(None);
                }
            }
        }
    }
    Ok(None)
}

impl Field for Bytes {
    ghost format = { text };

    fn put(&self, _alloc: Global, out: &mut Vec<u8>) -> Result<(), NoMemory> {
        out.push(b'"')?;
        put_bytes(out, self.as_slice())?;
        out.push(b'"')?;
        Ok(())
    }

    fn read_from(alloc: Global, from: &mut Reader) -> Result<Bytes, FieldEnd> {
        from.sign(b"\"")?;
        match inside(alloc, from.rest())? {
            None => Err(FieldEnd::NotSpelled),
            Some((text, rest)) => {
                from.go_on(rest);
                Ok(text)
            }
        }
    }
}
