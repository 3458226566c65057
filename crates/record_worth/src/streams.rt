ghost use Rattle.std.specs.Prelude.{◌≡◌, [], IfOk, OnOk};
ghost use Rattle.record_worth.specs.Parts.{streams_are_opened, streams_well};
ghost use Rattle.record_worth.specs.Streams.{KeepsStreams, TellsStreams, may_stream};
ghost use Rattle.record_worth.specs.StreamLaws.{streams_told, streams_told_on};

use crate::keys::StreamOf;
use indexmap::IndexSet;
use sprite_ids::{FileId, NoMemory, StreamNo};
use std::alloc::Global;
use trace_forms::{OpenAt, open_at};
use trace_rules::{LooksBack, each_keeps};
use unix_calls::{Description, Event, Rec};

/// Whether streams of the trace become shared once, after they were opened, and close where they are open (this project). The one
/// error is want of memory.
pub fn streams_are_opened(alloc: Global, c: &Description, trace: &[Rec]) -> Result<bool, NoMemory>
    ensures { IfOk result (λ kept. kept ≡ streams_are_opened c.now trace.now) }
{
    let mut judge = no_streams(alloc);
    each_keeps(alloc, c, &mut judge, trace)
}

/// The streams that were opened, those that are shared, and where they are open so far (this project).
#[derive(Drop)]
pub(crate) struct Streams {
    pub(crate) opened: IndexSet<StreamOf>,
    pub(crate) shared: IndexSet<StreamNo>,
    pub(crate) opens: IndexSet<OpenAt>,
}

fn no_streams(alloc: Global) -> Streams
    ensures opened { result.opened.keys ≡ [] }
    ensures shared { result.shared.keys ≡ [] }
    ensures opens { result.opens.keys ≡ [] }
{
    Streams {
        opened: IndexSet::new(alloc),
        shared: IndexSet::new(alloc),
        opens: IndexSet::new(alloc),
    }
}

impl LooksBack for Streams {
    ghost test = { λ c past rec. streams_well past rec.event };

    ghost tells = { λ judge past. TellsStreams judge past.records };

    ghost fits = { λ c judge rec. may_stream judge rec.event };

    ghost goes_on = { λ rec old new. KeepsStreams rec.event old new };

    fn fits(&self, _alloc: Global, _c: &Description, rec: &Rec) -> Result<bool, NoMemory> {
        match &rec.event {
            Event::Shared { file, stream } => {
                Ok(self.opened.contains(&stream_of(file, stream)) && !self.shared.contains(stream))
            }
            Event::Closed {
                file,
                stream,
                kernel,
                mode,
            } => Ok(self.opens.contains(&open_at(file, stream, *kernel, *mode))),
            _ => Ok(true),
        }
    }

    fn go_on(&mut self, _alloc: Global, rec: &Rec) -> Result<(), NoMemory> {
        match &rec.event {
            Event::Opened {
                file,
                stream,
                kernel,
                mode,
            } => {
                self.opened.insert(stream_of(file, stream))?;
                self.opens.insert(open_at(file, stream, *kernel, *mode))?;
            }
            Event::Closed {
                file,
                stream,
                kernel,
                mode,
            } => {
                self.opens
                    .swap_remove(&open_at(file, stream, *kernel, *mode));
            }
            Event::Shared { stream, .. } => {
                self.shared.insert(*stream)?;
            }
            _ => {}
        }
        Ok(())
    }

    ghost is_told = { streams_told };

    ghost tells_on = { streams_told_on };
}

fn stream_of(file: &FileId, stream: &StreamNo) -> StreamOf
    ensures { result ≡ record { file = file.now; stream = stream.now } }
{
    StreamOf {
        file: *file,
        stream: *stream,
    }
}
