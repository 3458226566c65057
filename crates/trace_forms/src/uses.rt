ghost use Rattle.std.specs.Prelude.{◌≡◌, ◌==◌, ◌&&◌, [], None, IfOk, OnOk};
ghost use Rattle.call_journal.specs.Formed.{is_closed_for, is_closed_of, is_grant_of, is_opened_for, next_is};
ghost use Rattle.call_journal.specs.Matching.{has_event, is_at, same_mode};
ghost use Rattle.trace_forms.specs.Openings.{openings_of};
ghost use Rattle.trace_forms.specs.Parts.{uses_are_formed};
ghost use Rattle.trace_forms.specs.Uses.{KeepsOpened, KeepsStreams, first_opening, granted_by, is_granted_in, is_left_in, is_new_in, is_opened_in, is_source_in, is_that, last_behind, shared_by, use_fits};
ghost use Rattle.trace_forms.specs.Opens.{mode_number};

use crate::places::{FileFor, OpenAt, OpenedAs, mode_number};
use indexmap::IndexSet;
use sprite_ids::{FileId, Kernel, NoMemory, StreamNo};
use std::alloc::Global;
use unix_calls::{Description, Event, Rec, Stream};

/// Whether the records of files' servers stand as they should, at the server and together: behind a grant its open, behind that the
/// entry that makes its stream, or, where a stream moves, the close at its source; before the grant of a move that leaves references
/// behind, that the stream is shared (Welch 1986; this project). `openings` tells of each record which stream of a file its entry
/// makes. The one error is want of memory.
pub fn uses_are_formed(
    alloc: Global,
    c: &Description,
    trace: &[Rec],
    openings: &[Option<Stream>],
) -> Result<bool, NoMemory>
    requires { openings.now ≡ openings_of c.now trace.now }
    ensures { IfOk result (λ kept. kept ≡ uses_are_formed c.now trace.now) }
{
    let mut last = Last::none();
    let mut streams = Streams::new(alloc);
    for (place, rec) in trace.iter().enumerate() {
        let made = first_opening(&openings[place + 1..]);
        if !fits(&last, &streams, rec, &made, &trace[place + 1..]) {
            return Ok(false);
        }
        keep_streams(&mut streams, &rec.event)?;
        last = last_behind(&rec.event, &last);
    }
    Ok(true)
}

/// What the last records tell: whom the last one granted a file, and which stream the last one, and the one before it, made shared
/// (this project).
#[derive(Clone, Copy, Debug)]
pub(crate) struct Last {
    pub(crate) granted: Option<FileFor>,
    pub(crate) shared: Option<StreamNo>,
    pub(crate) shared_before: Option<StreamNo>,
}

impl Last {
    fn none() -> Last
        ensures granted { result.granted ≡ None }
        ensures shared { result.shared ≡ None }
        ensures shared_before { result.shared_before ≡ None }
    {
        Last {
            granted: None,
            shared: None,
            shared_before: None,
        }
    }
}

/// What the records so far tell of streams: those that were opened, with the file and the mode; those that are shared; and where
/// they are open (this project).
#[derive(Drop)]
pub(crate) struct Streams {
    pub(crate) opened: IndexSet<StreamNo>,
    pub(crate) modes: IndexSet<OpenedAs>,
    pub(crate) shared: IndexSet<StreamNo>,
    pub(crate) opens: IndexSet<OpenAt>,
}

impl Streams {
    fn new(alloc: Global) -> Streams
        ensures opened { result.opened.keys ≡ [] }
        ensures modes { result.modes.keys ≡ [] }
        ensures shared { result.shared.keys ≡ [] }
        ensures opens { result.opens.keys ≡ [] }
    {
        Streams {
            opened: IndexSet::new(alloc),
            modes: IndexSet::new(alloc),
            shared: IndexSet::new(alloc),
            opens: IndexSet::new(alloc),
        }
    }
}

/// The stream of a file that the first of some records makes.
pub(crate) fn first_opening(openings: &[Option<Stream>]) -> Option<Stream>
    ensures { result ≡ first_opening openings.now }
{
    match openings {
        [first, ..] => *first,
        [] => None,
    }
}

// Whether a record of a file's server stands as it should, before these.
fn fits(last: &Last, streams: &Streams, rec: &Rec, made: &Option<Stream>, rest: &[Rec]) -> bool
    ensures { result ≡ use_fits last.now streams.now rec.now.kernel rec.now.event made.now rest.now }
{
    let kernel = rec.kernel;
    match &rec.event {
        Event::Grant { file, to, .. } => {
            kernel == file.server && is_opened_next(kernel, *file, *to, rest)
        }
        Event::Opened {
            file,
            stream,
            kernel: to,
            mode,
        } => {
            let at = OpenAt {
                file: *file,
                stream: *stream,
                kernel: *to,
                mode: mode_number(*mode),
            };
            kernel == file.server
                && is_granted(&last.granted, *file, *to)
                && is_opened_well(last, streams, at, made, rest)
        }
        Event::Closed { file, .. } => kernel == file.server,
        Event::Callback { file, .. } => kernel == file.server,
        Event::Shared { file, .. } => kernel == file.server && is_granted_next(kernel, *file, rest),
        _ => true,
    }
}

// Whether the first of some records is an open of the file for that kernel, at its server.
fn is_opened_next(server: Kernel, file: FileId, to: Kernel, rest: &[Rec]) -> bool
    ensures { result ≡ next_is (is_at server (is_opened_for file to)) rest.now }
{
    match rest {
        [next, ..] => match &next.event {
            Event::Opened {
                file: opened,
                kernel,
                ..
            } => next.kernel == server && *opened == file && *kernel == to,
            _ => false,
        },
        [] => false,
    }
}

// Whether the first of some records is a grant of the file, at its server.
fn is_granted_next(server: Kernel, file: FileId, rest: &[Rec]) -> bool
    ensures { result ≡ next_is (is_at server (is_grant_of file)) rest.now }
{
    match rest {
        [next, ..] => match &next.event {
            Event::Grant { file: granted, .. } => next.kernel == server && *granted == file,
            _ => false,
        },
        [] => false,
    }
}

// Whether the last record granted the file to the kernel.
fn is_granted(granted: &Option<FileFor>, file: FileId, to: Kernel) -> bool
    ensures { result ≡ is_granted_in granted.now file to }
{
    match granted {
        Some(granted) => granted.file == file && granted.to == to,
        None => false,
    }
}

// Whether an open of a stream is that of the entry behind it, or a move's.
fn is_opened_well(
    last: &Last,
    streams: &Streams,
    at: OpenAt,
    made: &Option<Stream>,
    rest: &[Rec],
) -> bool
    ensures { result ≡ is_opened_in last.now streams.now at made.now rest.now }
{
    match made {
        Some(made) => {
            at.mode == mode_number(made.mode) && is_new(last, streams, at.stream, at.kernel)
        }
        None => {
            let opened = OpenedAs {
                file: at.file,
                stream: at.stream,
                mode: at.mode,
            };
            streams.modes.contains(&opened) && is_left_well(last, streams, at, rest)
        }
    }
}

// Whether a stream has a new number of the opening kernel, and none became shared for it.
fn is_new(last: &Last, streams: &Streams, stream: StreamNo, to: Kernel) -> bool
    ensures { result ≡ is_new_in last.now streams.now stream to }
{
    stream.kernel == to && !streams.opened.contains(&stream) && last.shared_before.is_none()
}

// Whether behind a move's open stands a close at its source exactly where it must.
fn is_left_well(last: &Last, streams: &Streams, at: OpenAt, rest: &[Rec]) -> bool
    ensures { result ≡ is_left_in last.now streams.now at rest.now }
{
    match &last.shared_before {
        Some(shared) => *shared == at.stream && !is_closed_next(at.file, at.stream, rest),
        None => {
            if streams.shared.contains(&at.stream) {
                !is_closed_there_next(at, rest)
            } else {
                is_source_next(&streams.opens, at, rest)
            }
        }
    }
}

// Whether the first of some records is a close of the stream.
fn is_closed_next(file: FileId, stream: StreamNo, rest: &[Rec]) -> bool
    ensures { result ≡ next_is (has_event (is_closed_of file stream)) rest.now }
{
    match rest {
        [next, ..] => match &next.event {
            Event::Closed {
                file: closed,
                stream: number,
                ..
            } => *closed == file && *number == stream,
            _ => false,
        },
        [] => false,
    }
}

// Whether it is one at the kernel itself.
fn is_closed_there_next(at: OpenAt, rest: &[Rec]) -> bool
    ensures { result ≡ next_is (has_event (is_closed_for at.file at.stream at.kernel)) rest.now }
{
    match rest {
        [next, ..] => match &next.event {
            Event::Closed {
                file,
                stream,
                kernel,
                ..
            } => *file == at.file && *stream == at.stream && *kernel == at.kernel,
            _ => false,
        },
        [] => false,
    }
}

// Whether it is one at another kernel, which has the stream open with that mode.
fn is_source_next(opens: &IndexSet<OpenAt>, at: OpenAt, rest: &[Rec]) -> bool
    ensures { result ≡ next_is (is_at at.file.server (is_source_in opens.now.keys at)) rest.now }
{
    match rest {
        [next, ..] => match &next.event {
            Event::Closed {
                file,
                stream,
                kernel,
                mode,
            } => {
                let source = OpenAt {
                    file: at.file,
                    stream: at.stream,
                    kernel: *kernel,
                    mode: at.mode,
                };
                next.kernel == at.file.server
                    && *file == at.file
                    && *stream == at.stream
                    && *kernel != at.kernel
                    && mode_number(*mode) == at.mode
                    && opens.contains(&source)
            }
            _ => false,
        },
        [] => false,
    }
}

// Keeps what an event tells of streams. The one error is want of memory; a part may be kept then.
fn keep_streams(streams: &mut Streams, event: &Event) -> Result<(), NoMemory>
    ensures { OnOk result (KeepsStreams event.now streams.old streams.new) }
{
    match event {
        Event::Opened {
            file,
            stream,
            kernel,
            mode,
        } => {
            let at = OpenAt {
                file: *file,
                stream: *stream,
                kernel: *kernel,
                mode: mode_number(*mode),
            };
            keep_opened(streams, at)
        }
        Event::Closed {
            file,
            stream,
            kernel,
            mode,
        } => {
            streams.opens.swap_remove(&OpenAt {
                file: *file,
                stream: *stream,
                kernel: *kernel,
                mode: mode_number(*mode),
            });
            Ok(())
        }
        Event::Shared { stream, .. } => {
            streams.shared.insert(*stream)?;
            Ok(())
        }
        _ => Ok(()),
    }
}

// Keeps an open.
fn keep_opened(streams: &mut Streams, at: OpenAt) -> Result<(), NoMemory>
    ensures { OnOk result (KeepsOpened at streams.old streams.new) }
{
    streams.opened.insert(at.stream)?;
    streams.modes.insert(OpenedAs {
        file: at.file,
        stream: at.stream,
        mode: at.mode,
    })?;
    streams.opens.insert(at)?;
    Ok(())
}

// What the last records tell behind an event.
fn last_behind(event: &Event, last: &Last) -> Last
    ensures { result ≡ last_behind event.now last.now }
{
    Last {
        granted: granted_by(event),
        shared: shared_by(event),
        shared_before: last.shared,
    }
}

fn granted_by(event: &Event) -> Option<FileFor>
    ensures { result ≡ granted_by event.now }
{
    match event {
        Event::Grant { file, to, .. } => Some(FileFor {
            file: *file,
            to: *to,
        }),
        _ => None,
    }
}

fn shared_by(event: &Event) -> Option<StreamNo>
    ensures { result ≡ shared_by event.now }
{
    match event {
        Event::Shared { stream, .. } => Some(*stream),
        _ => None,
    }
}
