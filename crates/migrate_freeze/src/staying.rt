ghost use Rattle.std.specs.Prelude.{◌≡◌};
ghost use Rattle.std.specs.List.{list_all, list_any};
ghost use Rattle.stream_table.specs.Entries.{is_placed, is_start};
ghost use Rattle.stream_table.specs.Streams.{same_fd};
ghost use Rattle.migrate_freeze.specs.Staying.{can_stand, differ};

use sprite_ids::Object;
use stream_table::{Carried, Place, Stream};

/// The most grants of a stream that a stream table takes at once (this project).
const ROOM: u32 = 2_000_000_000;

// Whether it is the offset 0, kept here.
fn is_start(place: Place) -> bool
    ensures { result ≡ is_start place }
{
    match place {
        Place::Local(offset) => offset == 0,
        Place::Shared => false,
    }
}

// Whether the stream has its offset where it may.
fn is_placed(stream: &Stream) -> bool
    ensures { result ≡ is_placed stream.now }
{
    match stream.object {
        Object::File(_) => true,
        Object::Device(_) => is_start(stream.place),
        Object::Master(_) => is_start(stream.place),
    }
}

// Whether the descriptor can stand in a stream table.
fn can_stand(item: &Carried) -> bool
    ensures { result ≡ can_stand item.now }
{
    item.fd < 16 && is_placed(&item.stream) && item.stream.grants <= ROOM
}

// Whether all of them can.
pub(crate) fn all_stand(streams: &[Carried]) -> bool
    ensures { result ≡ list_all can_stand streams.now }
{
    streams.iter().all(|item| can_stand(item))
}

// Whether one of them has the descriptor's number.
fn has_fd(streams: &[Carried], item: &Carried) -> bool
    ensures { result ≡ list_any (same_fd item.now) streams.now }
{
    streams.iter().any(|other| item.fd == other.fd)
}

// Whether no two of them have one number.
pub(crate) fn differ(streams: &[Carried]) -> bool
    ensures { result ≡ differ streams.now }
{
    for place in 0..streams.len() {
        if has_fd(&streams[place + 1..], &streams[place]) {
            return false;
        }
    }
    true
}
