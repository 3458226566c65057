ghost use Rattle.std.specs.Prelude.{◌≡◌, ◌++◌, [], Some};
ghost use Rattle.unix_world.specs.Worlds.{unix_of};
ghost use Rattle.call_journal.specs.Past.{file_stream};
ghost use Rattle.trace_forms.specs.Openings.{HeedsMade, SeesMade, openings_from, openings_of};
ghost use Rattle.trace_forms.specs.OpeningLaws.{openings_enter, openings_pass};

use sprite_ids::NoMemory;
use std::alloc::Global;
use trace_walk::Watches;
use unix_calls::{Description, Entry, Event, Object, Process, Rec, Stream};
use unix_world::World;

/// Of each record of a trace so far, the stream of a file that its entry makes in the one-kernel Unix (this project).
#[derive(Drop)]
pub struct MadeStreams {
    pub made: Vec<Option<Stream>>,
}

impl MadeStreams {
    /// Of no records.
    pub fn new(alloc: Global) -> MadeStreams
        ensures { result.made.items ≡ [] }
    {
        MadeStreams {
            made: Vec::new(alloc),
        }
    }
}

impl Watches for MadeStreams {
    ghost tells = { λ c trace watch world ps past rest. watch.made.items ++ openings_from c (Some (unix_of c world ps)) rest ≡ openings_of c trace };

    ghost sees = { λ c world ps rec old new. SeesMade rec.event old.made.items new.made.items };

    ghost heeds = { λ world place way entry old new. HeedsMade world.streams place old.made.items new.made.items };

    fn see(
        &mut self,
        _alloc: Global,
        _c: &Description,
        _world: &World,
        _ps: &[Process],
        rec: &Rec,
    ) -> Result<(), NoMemory> {
        match &rec.event {
            Event::Enter { .. } => Ok(()),
            _ => {
                self.made.push(None)?;
                Ok(())
            }
        }
    }

    fn heed(
        &mut self,
        world: &World,
        place: u32,
        _way: u64,
        _entry: &Entry,
    ) -> Result<(), NoMemory> {
        self.made.push(file_stream(world.streams.at_place(place)))?;
        Ok(())
    }

    ghost passes = { openings_pass };

    ghost goes_in = { openings_enter };
}

// A stream of a file.
fn file_stream(stream: Option<Stream>) -> Option<Stream>
    ensures { result ≡ file_stream stream }
{
    match stream {
        Some(stream) => match stream.object {
            Object::OfFile(_) => Some(stream),
            _ => None,
        },
        None => None,
    }
}
