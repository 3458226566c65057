ghost use Rattle.std.specs.Prelude.{◌≡◌, ◌≤◌, ◌<◌, ◌+◌, IsTrue, IsOk, OnOk, OnErr};
ghost use Rattle.std.specs.List.{list_all};
ghost use Rattle.indexmap.specs.IndexMap.{spare, values};
ghost use Rattle.sprite_ids.specs.Lists.{put, without, EachOnce};
ghost use Rattle.stream_table.specs.Entries.{entries_in, is_of, is_listed, same_entry, stream_of, holder_of, grants_of, has_room, is_low, left};

use crate::stream::Stream;
use indexmap::IndexMap;
use sprite_ids::{NoMemory, Object, Pid, StreamNo};

/// The most grants of a stream at which more may be added (this project).
const ROOM: u32 = 2_000_000_000;

/// What is known of a stream. It stays while a descriptor leads to it or a process holds its lock.
#[derive(Clone, Copy, Debug, PartialEq, Eq)]
pub struct Known {
    /// None where no descriptor leads to it any more.
    pub stream: Option<Stream>,
    /// The process that holds its lock.
    pub holder: Option<Pid>,
}

impl Known {
    // Whether more grants of it may be added.
    fn is_low(&self) -> bool
        ensures { result ≡ is_low self.now }
    {
        match self.stream {
            Some(stream) => stream.grants <= ROOM,
            None => true,
        }
    }
}

// The open stream of that number.
pub(crate) fn stream_of(entries: &IndexMap<StreamNo, Known>, number: &StreamNo) -> Option<Stream>
    ensures { result ≡ stream_of (entries_in entries.now.entries) number.now }
{
    match entries.get(number) {
        Some(known) => known.stream,
        None => None,
    }
}

// The process that holds the stream's lock.
pub(crate) fn holder_of(entries: &IndexMap<StreamNo, Known>, number: &StreamNo) -> Option<Pid>
    ensures { result ≡ holder_of (entries_in entries.now.entries) number.now }
{
    match entries.get(number) {
        Some(known) => known.holder,
        None => None,
    }
}

// How many grants of the stream this kernel received.
pub(crate) fn grants_of(entries: &IndexMap<StreamNo, Known>, number: &StreamNo) -> u32
    ensures { result ≡ grants_of (entries_in entries.now.entries) number.now }
{
    match stream_of(entries, number) {
        Some(stream) => stream.grants,
        None => 0,
    }
}

// Whether more grants may be added to each stream.
pub(crate) fn have_room(entries: &IndexMap<StreamNo, Known>) -> bool
    ensures { result ≡ has_room (entries_in entries.now.entries) }
{
    are_roomy(entries)
}

// The same of what is known of each.
fn are_roomy(entries: &IndexMap<StreamNo, Known>) -> bool
    ensures { result ≡ list_all is_low (values entries.now) }
{
    entries.values().all(|known| known.is_low())
}

// What is known of the stream in the place of what was known, or at the end.
pub(crate) fn put(
    entries: &mut IndexMap<StreamNo, Known>,
    number: &StreamNo,
    known: Known,
) -> Result<(), NoMemory>
    ensures ok { OnOk result (entries_in entries.new.entries ≡ put (is_of number.now) (record { number = number.now; stream = known.stream; holder = known.holder }) (entries_in entries.old.entries)) }
    ensures err { OnErr result (entries.new.entries ≡ entries.old.entries) }
    ensures listed { IsTrue (is_listed (entries_in entries.old.entries) number.now) → IsOk result }
    ensures room { 0 < spare entries.old → IsOk result }
    ensures left { spare entries.old ≤ spare entries.new + 1 }
{
    // The tool must be told of the types inside: it doesn't find these by itself.
    let hint: (Option<Object>, Option<Stream>, Option<Pid>) = (None, None, None);
    entries.insert(*number, known)?;
    let _used = hint;
    Ok(())
}

// What is known of the stream in the place of what was known; something was.
pub(crate) fn change(entries: &mut IndexMap<StreamNo, Known>, number: &StreamNo, known: Known)
    requires { IsTrue (is_listed (entries_in entries.old.entries) number.now) }
    ensures { entries_in entries.new.entries ≡ put (is_of number.now) (record { number = number.now; stream = known.stream; holder = known.holder }) (entries_in entries.old.entries) }
{
    match put(entries, number, known) {
        Ok(()) => {}
        Err(_) => unreachable!(),
    }
}

// Takes the stream away, where it is there.
pub(crate) fn take_off(entries: &mut IndexMap<StreamNo, Known>, number: &StreamNo)
    requires { EachOnce same_entry (entries_in entries.old.entries) }
    ensures { entries_in entries.new.entries ≡ without (is_of number.now) (entries_in entries.old.entries) }
{
    entries.shift_remove(number);
}

// No descriptor leads to the stream any more.
pub(crate) fn leave(entries: &mut IndexMap<StreamNo, Known>, number: &StreamNo)
    requires { EachOnce same_entry (entries_in entries.old.entries) }
    ensures { entries_in entries.new.entries ≡ left (entries_in entries.old.entries) number.now }
{
    match holder_of(entries, number) {
        Some(holder) => change(
            entries,
            number,
            Known {
                stream: None,
                holder: Some(holder),
            },
        ),
        None => take_off(entries, number),
    }
}
