ghost use Rattle.std.specs.Prelude.{◌≡◌, ◌<◌, slice_index};
ghost use Rattle.link_plan.specs.PlanCounts.{way, pair, raised_at};

use sprite_ids::Kernel;

/// A count for each two kernels.
pub(crate) type Counts = [u64; 256];

// Where the count of the packets from one kernel to another stands.
pub(crate) fn way(from: Kernel, to: Kernel) -> usize
    ensures value { result ≡ way from to }
    ensures range { result < 256 }
{
    usize::from(from.number() - 1) * 16 + usize::from(to.number() - 1)
}

// Where the count of a pair stands, in either order of the two.
pub(crate) fn pair(a: Kernel, b: Kernel) -> usize
    ensures value { result ≡ pair a b }
    ensures range { result < 256 }
{
    if a.number() <= b.number() {
        way(a, b)
    } else {
        way(b, a)
    }
}

// One more at that place; at `u64::MAX` it stays.
pub(crate) fn raise(counts: &mut Counts, place: usize)
    requires { place < 256 }
    ensures { counts.new ≡ raised_at counts.old place }
{
    counts[place] = counts[place].saturating_add(1);
}
