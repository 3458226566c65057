ghost use Rattle.std.specs.Prelude.{◌≡◌};
ghost use Rattle.move_rules.specs.Whereabouts.{is_placed_at};
ghost use Rattle.trace_places.specs.Places.{place_kept};

use indexmap::IndexMap;
use sprite_ids::Kernel;
use trace_places::Place;

/// Whether the process of that number is at the kernel, and not on its way.
pub(crate) fn is_placed_at(places: &IndexMap<u64, Place>, pid: u64, kernel: Kernel) -> bool
    ensures { result ≡ is_placed_at (place_kept places.now.entries pid) kernel }
{
    match places.get(&pid) {
        Some(place) => !place.moving && place.kernel == kernel,
        None => false,
    }
}
