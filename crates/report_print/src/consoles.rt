ghost use Rattle.std.specs.Prelude.{◌≡◌, ◌<◌, ◌++◌, OnOk};
ghost use Rattle.std.specs.List.{flat_map};
ghost use Rattle.std.specs.Fmt.{decimal};
ghost use Rattle.unix_calls.specs.Output.{lines_of, hexadecimal, escape, console_line};

use crate::lines::first_line;
use sprite_ids::NoMemory;
use std::alloc::Global;

// The digit of that value, 0 to 15, in lower case.
fn hexadecimal(digit: u8) -> u8
    requires { digit < 16 }
    ensures { result ≡ hexadecimal digit }
{
    if digit < 10 {
        b'0' + digit
    } else {
        b'a' + (digit - 10)
    }
}

// Puts a byte as it prints: bytes 32 to 126 but the backslash as they are, others as a backslash and two digits.
fn push_escaped(out: &mut Vec<u8>, byte: u8) -> Result<(), NoMemory>
    ensures { OnOk result (out.new.items ≡ out.old.items ++ escape byte) }
{
    if 32 <= byte && byte <= 126 && byte != b'\\' {
        out.push(byte)?;
        return Ok(());
    }
    out.push(b'\\')?;
    out.push(hexadecimal(byte / 16))?;
    out.push(hexadecimal(byte % 16))?;
    Ok(())
}

// Puts a line of a console.
fn push_console_line(out: &mut Vec<u8>, line: &[u8]) -> Result<(), NoMemory>
    ensures { OnOk result (out.new.items ≡ out.old.items ++ console_line line.now) }
{
    out.extend_from_slice(b"| ")?;
    for byte in line {
        push_escaped(out, *byte)?;
    }
    out.push(b'\n')?;
    Ok(())
}

/// Puts a console, line by line.
pub(crate) fn push_console(out: &mut Vec<u8>, console: &[u8]) -> Result<(), NoMemory>
    ensures { OnOk result (out.new.items ≡ out.old.items ++ flat_map console_line (lines_of console.now)) }
{
    let mut rest = console;
    while !rest.is_empty() {
        let (line, behind) = first_line(rest);
        push_console_line(out, line)?;
        rest = behind;
    }
    Ok(())
}

/// Puts a number in decimal.
pub(crate) fn push_decimal(alloc: Global, out: &mut Vec<u8>, number: u64) -> Result<(), NoMemory>
    ensures { OnOk result (out.new.items ≡ out.old.items ++ decimal number) }
{
    let digits = format!(in alloc; "{number}")?;
    out.extend_from_slice(digits.as_bytes())?;
    Ok(())
}
