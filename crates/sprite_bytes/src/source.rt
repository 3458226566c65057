ghost use Rattle.std.specs.Prelude.{◌≡◌, ◌≤◌, ℕ, List, Option, OnErr};
ghost use Rattle.std.specs.Io.{ReadsAtMost};
ghost use Rattle.std.specs.Io.KnownBytes.{ReadConsumes};
ghost use Rattle.sprite_bytes.specs.Counts.{Rose};

use crate::failed::Failed;

/// Where bytes come from (this project).
///
/// Contracts know what is `left` in a source, where it tells that, and its count of `faults`, which never falls. A
/// source that doesn't tell what is left, as standard input, claims nothing of the bytes that it gives.
pub trait Source {
    ghost left: { Self → Option (List ℕ) };

    ghost faults: { Self → ℕ };

    /// Takes the first bytes of what is left into the front of the buffer, and says how many. None at all, for a
    /// buffer that isn't empty, means the end. `Failed` comes only where the count of faults rose in this call or
    /// stands at `u64::MAX`, and then nothing was taken.
    fn read(&mut self, buf: &mut [u8]) -> Result<usize, Failed>
        ensures bound { ReadsAtMost result buf.new }
        ensures takes { ReadConsumes (left self.old) (left self.new) result buf.new }
        ensures later { faults self.old ≤ faults self.new }
        ensures failed { OnErr result (Rose (faults self.old) (faults self.new)) };

    /// How many calls failed; it stops at `u64::MAX`.
    fn faults(&self) -> u64
        ensures { result ≡ faults self.now };
}
