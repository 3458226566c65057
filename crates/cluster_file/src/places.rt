ghost use Rattle.std.specs.Prelude.{◌≡◌, ◌<◌, ◌++◌, IfOk, OnOk};
ghost use Rattle.std.specs.List.{flat_map};
ghost use Rattle.unix_calls.specs.Output.{hexadecimal, escape};
ghost use Rattle.cluster_file.specs.Refusals.{refusal, element_place, key_place, IsAt};
ghost use Rattle.cluster_file.specs.Keys.{spelled};

use crate::keys::{KeyName, Section};
use crate::refusal::{FileEnd, Refusal};
use sprite_ids::{Bytes, NoMemory};
use std::alloc::Global;

/// How the place of an element is printed. Elements are counted from 1.
pub fn element_place(alloc: Global, section: Section, element: usize) -> Result<Bytes, NoMemory>
    ensures { IfOk result (λ at. at ≡ element_place section element) }
{
    let digits = format!(in alloc; "{element}")?;
    let mut at = Bytes::of_slice(alloc, section.key().text().as_bytes())?;
    at.append(b" ")?;
    at.append(digits.as_bytes())?;
    Ok(at)
}

/// How the place of a key of an element is printed.
pub fn key_place(
    alloc: Global,
    section: Section,
    element: usize,
    key: &[u8],
) -> Result<Bytes, NoMemory>
    ensures { IfOk result (λ at. at ≡ key_place section element key.now) }
{
    let mut at = element_place(alloc, section, element)?;
    at.append(b" ")?;
    at.append(key)?;
    Ok(at)
}

/// The refusal of that number at a key of an element.
pub fn refusal_at(
    alloc: Global,
    number: u8,
    section: Section,
    element: usize,
    key: KeyName,
) -> Result<Refusal, NoMemory>
    ensures { IfOk result (λ r. r ≡ refusal number (key_place section element (spelled key))) }
{
    let at = key_place(alloc, section, element, key.text().as_bytes())?;
    Ok(Refusal { number, at })
}

/// The refusal of that number at a key of an element, or want of memory.
pub fn refused_at(
    alloc: Global,
    number: u8,
    section: Section,
    element: usize,
    key: KeyName,
) -> FileEnd
    ensures { IsAt number section element key result }
{
    match refusal_at(alloc, number, section, element, key) {
        Ok(refusal) => FileEnd::Refused(refusal),
        Err(NoMemory) => FileEnd::NoMemory,
    }
}

/// The refusal of that number at a key at the top.
pub fn refusal_at_top(alloc: Global, number: u8, key: KeyName) -> Result<Refusal, NoMemory>
    ensures { IfOk result (λ r. r ≡ refusal number (spelled key)) }
{
    let at = Bytes::of_slice(alloc, key.text().as_bytes())?;
    Ok(Refusal { number, at })
}

/// A key as it is printed: bytes 32 to 126 but the backslash as they are, others as a backslash and two digits.
pub fn escaped(alloc: Global, key: &[u8]) -> Result<Bytes, NoMemory>
    ensures { IfOk result (λ text. text ≡ flat_map escape key.now) }
{
    let mut text = Bytes::new(alloc);
    for byte in key {
        push_escaped(&mut text, *byte)?;
    }
    Ok(text)
}

fn push_escaped(out: &mut Bytes, byte: u8) -> Result<(), NoMemory>
    ensures { OnOk result (out.new ≡ out.old ++ escape byte) }
{
    if 32 <= byte && byte <= 126 && byte != b'\\' {
        return out.push(byte);
    }
    out.push(b'\\')?;
    out.push(hexadecimal(byte / 16))?;
    out.push(hexadecimal(byte % 16))
}

/// The digit of that value, 0 to 15, in lower case.
fn hexadecimal(digit: u8) -> u8
    requires { digit < 16 }
    ensures { result ≡ hexadecimal digit }
{
    if digit < 10 {
        b'0' + digit
    } else {
        b'a' + (digit - 10)
    }
}
