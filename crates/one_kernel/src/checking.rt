ghost use Rattle.std.specs.Prelude.{◌≡◌, ◌≤◌, IfOk};
ghost use Rattle.unix_calls.specs.Lawful.{Lawful};
ghost use Rattle.one_kernel.specs.Verdicts.{verdict_of};

use crate::replaying::{Replayed, replay};
use crate::verdict::Verdict;
use sprite_ids::NoMemory;
use std::alloc::Global;
use unix_calls::{Description, Entry};

/// What a history comes to, whose processes may do at most `most` instructions in all (this project).
///
/// `Steps` comes exactly where one Unix kernel gives the entries before one, and the way of its process to its call makes the sum of
/// all ways pass the bound; else `NotLegal` exactly at the first entry that one Unix kernel doesn't make; else `Legal`. The one error
/// is want of memory, which is also the answer where the entries would be more than 2^32.
pub fn check(
    alloc: Global,
    c: &Description,
    entries: &[Entry],
    most: u64,
) -> Result<Verdict, NoMemory>
    requires lawful { Lawful c.now }
    requires bound { most ≤ 40000000000 }
    ensures { IfOk result (λ verdict. verdict ≡ verdict_of c.now most entries.now) }
{
    match replay(alloc, c, entries, most)? {
        Replayed::Legal(..) => Ok(Verdict::Legal),
        Replayed::NotLegal(place) => Ok(Verdict::NotLegal(place)),
        Replayed::Steps(place) => Ok(Verdict::Steps(place)),
    }
}
