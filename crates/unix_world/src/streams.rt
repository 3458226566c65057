ghost use Rattle.std.specs.Prelude.{◌≡◌, ◌==◌, ◌∷◌, ◌++◌, [], OnOk};
ghost use Rattle.std.specs.List.{position};
ghost use Rattle.unix_calls.specs.declared.state.Stream.{Stream};
ghost use Rattle.unix_calls.specs.State.{stream_at, with_stream};
ghost use Rattle.unix_world.specs.Places.{IsOlder, Ordered, OrderedIf};

use sprite_ids::{Items, NoMemory};
use std::alloc::Global;
use std::marker::Model;
use unix_calls::Stream;

/// The streams of the one-kernel Unix, in the order in which they were made. Contracts see their list.
///
/// A stream is found by halves, in time proportional to the logarithm of how many there are, as long as each that was put there has
/// a higher place than all before it, as the streams of one run have; else one after another.
#[derive(Debug, Drop)]
pub struct Streams {
    streams: Items<Stream>,
    ascend: bool,
}

impl Model for Streams {
    ghost use Rattle.std.specs.Prelude.{List};
    ghost use Rattle.unix_calls.specs.declared.Stream.{Stream};
    ghost use Rattle.unix_world.specs.Places.{IsOlder, OrderedIf};

    ghost Value = { List Stream };

    ghost view = { λ all. all.streams };

    ghost invariant = { λ all. OrderedIf all.ascend IsOlder all.streams };
}

impl Streams {
    /// No streams. It takes no memory, and keeps the allocator.
    pub fn new(alloc: Global) -> Streams
        ensures { result ≡ [] }
    {
        Streams {
            streams: Items::new(alloc),
            ascend: true,
        }
    }

    /// Puts a stream behind the others. The one error is want of memory.
    pub fn push(&mut self, stream: Stream) -> Result<(), NoMemory>
        ensures { OnOk result (self.new ≡ self.old ++ stream ∷ []) }
    {
        let ascend = ascend_with(self.ascend, self.streams.as_slice(), stream.place);
        self.streams.push(stream)?;
        self.ascend = ascend;
        Ok(())
    }

    /// The stream that the entry at that place made.
    pub fn at_place(&self, place: u32) -> Option<Stream>
        ensures { result ≡ stream_at self.now place }
    {
        match self.place_of(place) {
            Some(at) => Some(*self.streams.at(at)),
            None => None,
        }
    }

    /// Puts the stream's offset there.
    pub fn put_offset(&mut self, stream: &Stream, offset: u64)
        ensures { self.new ≡ with_stream (record stream.now { offset = offset }) self.old }
    {
        let place = stream.place;
        if let Some(at) = self.place_of(place) {
            let _before = self.streams.replace(at, Stream { offset, ..*stream });
        }
    }

    // Where the stream stands that the entry at that place made.
    fn place_of(&self, place: u32) -> Option<usize>
        ensures { result ≡ position (λ (s : Stream). s.place == place) self.now }
    {
        if self.ascend {
            bisect(self.streams.as_slice(), place)
        } else {
            scan(self.streams.as_slice(), place)
        }
    }
}

// Whether all ascend with a stream of that place behind them, where they do before.
fn ascend_with(ascend: bool, streams: &[Stream], place: u32) -> bool
    ensures { (t : Stream) → t.place ≡ place → OrderedIf ascend IsOlder streams.now → OrderedIf result IsOlder (streams.now ++ t ∷ []) }
{
    if !ascend {
        return false;
    }
    if streams.is_empty() {
        return true;
    }
    streams[streams.len() - 1].place < place
}

// Where the stream of the place stands, among streams that ascend.
fn bisect(streams: &[Stream], place: u32) -> Option<usize>
    requires { Ordered IsOlder streams.now }
    ensures { result ≡ position (λ (s : Stream). s.place == place) streams.now }
{
    let mut low = 0;
    let mut high = streams.len();
    while low < high {
        let middle = low + (high - low) / 2;
        let found = streams[middle].place;
        if found == place {
            return Some(middle);
        }
        if found < place {
            low = middle + 1;
        } else {
            high = middle;
        }
    }
    None
}

// Where the first stream of the place stands.
fn scan(streams: &[Stream], place: u32) -> Option<usize>
    ensures { result ≡ position (λ (s : Stream). s.place == place) streams.now }
{
    streams.iter().position(|stream| stream.place == place)
}
