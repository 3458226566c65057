ghost use Rattle.std.specs.Prelude.{◌≡◌, ◌<◌, None, IfSome};
ghost use Rattle.std.specs.List.{position};
ghost use Rattle.migrate_freeze.specs.Moves.{better, is_before, is_free, is_moved, lower, names, next_from, noted};

use sprite_ids::{Grant, StreamNo};
use stream_table::{Carried, Stream};

/// A stream that has moved with its process (Douglis and Ousterhout 1991).
#[derive(Clone, Copy, Debug, PartialEq, Eq)]
pub struct MovedStream {
    /// The stream.
    pub number: StreamNo,
    /// The stream as it is from now on.
    pub stream: Stream,
    /// The grant for the kernel that it moves to.
    pub grant: Option<Grant>,
}

// Whether that stream's move stands there.
fn names(place: &Option<MovedStream>, number: &StreamNo) -> bool
    ensures { result ≡ names number.now place.now }
{
    match place {
        Some(moved) => moved.number == *number,
        None => false,
    }
}

// Whether the stream has moved.
fn is_moved(moved: &[Option<MovedStream>; 16], number: &StreamNo) -> bool
    ensures { result ≡ is_moved number.now moved.now }
{
    moved.iter().any(|place| names(place, number))
}

// Whether the first number is the lower one: streams go by the kernel that opened them, then by its count.
fn is_before(number: &StreamNo, other: &StreamNo) -> bool
    ensures { result ≡ is_before number.now other.now }
{
    number.kernel.number() < other.kernel.number()
        || (number.kernel == other.kernel && number.number < other.number)
}

// The one of the lower number; one that has moved doesn't count.
fn lower(least: Option<Carried>, item: &Carried, moved: bool) -> Option<Carried>
    ensures { result ≡ lower moved least item.now }
{
    if moved {
        return least;
    }
    match least {
        Some(other) => {
            if is_before(&item.number, &other.number) {
                Some(*item)
            } else {
                Some(other)
            }
        }
        None => Some(*item),
    }
}

// The one of the lower number, where the second has not moved.
fn better(
    moved: &[Option<MovedStream>; 16],
    least: Option<Carried>,
    item: &Carried,
) -> Option<Carried>
    ensures { result ≡ better moved.now least item.now }
{
    lower(least, item, is_moved(moved, &item.number))
}

// The descriptor, the first of several, of the least stream that has not moved; None exactly where all have.
pub(crate) fn next_stream(streams: &[Carried], moved: &[Option<MovedStream>; 16]) -> Option<Carried>
    ensures { result ≡ next_from moved.now None streams.now }
{
    let mut least = None;
    for item in streams {
        least = better(moved, least, item);
    }
    least
}

// Keeps the move at the first of the places that is free. One always is: the streams that move are those of at most 16
// descriptors, and each moves once.
pub(crate) fn note(moved: &mut [Option<MovedStream>; 16], stream: &MovedStream)
    ensures { moved.new ≡ noted stream.now moved.old }
{
    match free_place(moved) {
        Some(place) => moved[place] = Some(*stream),
        None => {}
    }
}

// The first place that is free.
fn free_place(moved: &[Option<MovedStream>; 16]) -> Option<usize>
    ensures first { result ≡ position is_free moved.now }
    ensures few { IfSome result (λ place. place < 16) }
{
    moved.iter().position(|place| place.is_none())
}
