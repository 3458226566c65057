ghost use Rattle.std.specs.Prelude.{◌≡◌, ◌<◌};
ghost use Rattle.server_kernel.specs.Flags.{opening_mode, mode_in, has_bit};

use sprite_ids::Mode;

/// The flag by which an open makes a file that isn't there (this project).
pub(crate) const CREATE: u8 = 4;

/// The flag by which it empties the file (this project).
pub(crate) const TRUNCATE: u8 = 8;

/// The flag by which the stream's writes go to the file's end (this project).
const APPEND: u8 = 16;

// What the flags open a file for; None where they are no lawful ones.
pub(crate) fn opening_mode(flags: u8) -> Option<Mode>
    ensures { result ≡ opening_mode flags }
{
    if flags >= 32 {
        return None;
    }
    let reads = flags % 4 == 1;
    if reads && (has(flags, TRUNCATE) || has(flags, APPEND)) {
        return None;
    }
    mode_in(flags % 4)
}

// Whether the flag is set.
pub(crate) fn has(flags: u8, flag: u8) -> bool
    requires { 0 < flag }
    ensures { result ≡ has_bit flag flags }
{
    (flags / flag) % 2 == 1
}

// The mode of two bits: 1 is for reading, 2 for writing, 3 for both.
fn mode_in(bits: u8) -> Option<Mode>
    ensures { result ≡ mode_in bits }
{
    if bits == 1 {
        return Some(Mode::Read);
    }
    if bits == 2 {
        return Some(Mode::Write);
    }
    if bits == 3 {
        return Some(Mode::Both);
    }
    None
}
