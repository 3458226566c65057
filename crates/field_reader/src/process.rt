ghost use Rattle.std.specs.Prelude.{◌≡◌};
ghost use Rattle.field_reader.specs.Names.{is_pid};
ghost use Rattle.field_reader.specs.Reads.{passed};

use sprite_ids::{Kernel, Pid};

/// The process of that number, which is 1000 times its home and its birth there; None exactly where there is none: homes go from 1
/// to 16, births from 1 to 200.
pub fn pid_of(number: u32) -> Option<Pid>
    ensures { result ≡ passed is_pid number }
{
    let home = u8::try_from(number / 1000).ok()?;
    Pid::new(Kernel::new(home)?, number % 1000)
}
