ghost use Rattle.std.specs.Prelude.{◌≡◌};
ghost use Rattle.unix_calls.specs.Opening.{flags_by, flags_of, mode_of, writes};
ghost use Rattle.client_names.specs.OpenFlags.{lawful};

use sprite_ids::Mode;
use unix_calls::Flags;

// The flags as they go to a server; None where they are no lawful ones.
pub(crate) fn lawful(flags: u64) -> Option<u8>
    ensures { result ≡ lawful flags }
{
    if flags >= 32 {
        return None;
    }
    match flags_of(flags) {
        Some(_) => Some(flags as u8),
        None => None,
    }
}

// What the flags of an open ask for: 1 is for reading, 2 for writing, 3 for both; and 4 to create, 8 to truncate, 16 to
// append. No mode or another bit is none.
pub(crate) fn flags_of(flags: u64) -> Option<Flags>
    ensures { result ≡ flags_of flags }
{
    if flags >= 32 {
        return None;
    }
    match mode_of(flags % 4) {
        Some(mode) => flags_by(flags, mode),
        None => None,
    }
}

// The flags of that mode; a truncation or an append without write is none.
fn flags_by(flags: u64, mode: Mode) -> Option<Flags>
    ensures { result ≡ flags_by flags mode }
{
    let creates = (flags / 4) % 2 == 1;
    let truncates = (flags / 8) % 2 == 1;
    let appends = (flags / 16) % 2 == 1;
    if (truncates || appends) && !writes(mode) {
        return None;
    }
    Some(Flags {
        mode,
        creates,
        truncates,
        appends,
    })
}

// The mode of two bits.
fn mode_of(bits: u64) -> Option<Mode>
    ensures { result ≡ mode_of bits }
{
    match bits {
        1 => Some(Mode::Read),
        2 => Some(Mode::Write),
        3 => Some(Mode::Both),
        _ => None,
    }
}

// Whether a stream of the mode may be written.
fn writes(mode: Mode) -> bool
    ensures { result ≡ writes mode }
{
    match mode {
        Mode::Read => false,
        Mode::Write => true,
        Mode::Both => true,
    }
}
