ghost use Rattle.std.specs.Prelude.{◌≡◌, ◌<◌, ◌≤◌, ℕ, List, Option, IfOk, OnErr, length};
ghost use Rattle.std.specs.Io.{WritesAtMost};
ghost use Rattle.std.specs.Io.KnownBytes.{WriteAppends};
ghost use Rattle.sprite_bytes.specs.Counts.{Rose};

use crate::failed::Failed;

/// Where bytes go (this project).
///
/// Contracts know what a sink has `held` since it was made, where it tells that, and its count of `faults`, which
/// never falls.
pub trait Sink {
    ghost held: { Self → Option (List ℕ) };

    ghost faults: { Self → ℕ };

    /// Takes the first bytes of the piece behind what it holds, and says how many: at least one of a piece that isn't
    /// empty. Where it would take none of such a piece it says `Failed`. `Failed` comes only where the count of
    /// faults rose in this call or stands at `u64::MAX`, and leaves what the sink holds.
    fn write(&mut self, piece: &[u8]) -> Result<usize, Failed>
        ensures bound { WritesAtMost result piece.now }
        ensures appends { WriteAppends (held self.old) (held self.new) result piece.now }
        ensures takes { 0 < length piece.now → IfOk result (λ count. 0 < count) }
        ensures later { faults self.old ≤ faults self.new }
        ensures failed { OnErr result (Rose (faults self.old) (faults self.new)) };

    /// How many calls failed; it stops at `u64::MAX`.
    fn faults(&self) -> u64
        ensures { result ≡ faults self.now };
}
