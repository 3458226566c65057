ghost use Rattle.std.specs.Prelude.{◌≡◌, IsTrue, OnOk, OnErr, IfOk};
ghost use Rattle.std.specs.List.{list_any, find, position};
ghost use Rattle.version_table.specs.Modes.{writes};
ghost use Rattle.sprite_ids.specs.Lists.{less, put};
ghost use Rattle.version_table.specs.Opens.{is_stream, is_of_stream, is_at, open_at, count_in, stream_mode, mode_of, taken_off, added, left_by, opened, sharing, has_open, is_elsewhere, is_spread, is_written, is_write_shared, are_roomy};

use crate::action::Action;
use sprite_ids::{Copying, Items, Kernel, Mode, NoMemory, StreamNo};
use std::alloc::Global;

/// The most grants of a stream at a kernel at which more may be added (this project).
const ROOM: u32 = 2_000_000_000;

/// A stream that a kernel has open.
#[derive(Clone, Copy, Debug, PartialEq, Eq)]
pub struct Open {
    pub stream: StreamNo,
    pub kernel: Kernel,
    /// What the stream was opened for.
    pub mode: Mode,
    /// How many grants of the stream the kernel received.
    pub count: u32,
}

impl Copying for Open {
    fn copy(&self, _alloc: Global) -> Result<Open, NoMemory> {
        Ok(*self)
    }
}

// Whether a stream of that mode may write.
fn writes(mode: Mode) -> bool
    ensures { result ≡ writes mode }
{
    !matches!(mode, Mode::Read)
}

// Where that stream's open at that kernel stands.
fn place_of(opens: &Items<Open>, stream: &StreamNo, kernel: Kernel) -> Option<usize>
    ensures { result ≡ position (is_at stream.now kernel) opens.now }
{
    opens
        .as_slice()
        .iter()
        .position(|open| open.stream == *stream && open.kernel == kernel)
}

// That stream's open at that kernel.
fn open_at(opens: &Items<Open>, stream: &StreamNo, kernel: Kernel) -> Option<Open>
    ensures { result ≡ open_at opens.now stream.now kernel }
{
    match place_of(opens, stream, kernel) {
        Some(at) => Some(*opens.at(at)),
        None => None,
    }
}

// How many grants of the stream the kernel has.
pub(crate) fn count_of(opens: &Items<Open>, stream: &StreamNo, kernel: Kernel) -> u32
    ensures { result ≡ count_in (open_at opens.now stream.now kernel) }
{
    match open_at(opens, stream, kernel) {
        Some(open) => open.count,
        None => 0,
    }
}

// What the stream was opened for.
pub(crate) fn stream_mode(opens: &[Open], stream: &StreamNo) -> Option<Mode>
    ensures { result ≡ stream_mode opens.now stream.now }
{
    match opens.iter().find(|open| open.stream == *stream) {
        Some(open) => Some(open.mode),
        None => None,
    }
}

// What the receiving kernel has the stream for.
fn mode_of(opens: &[Open], action: &Action) -> Mode
    ensures { result ≡ mode_of opens.now action.now }
{
    match action {
        Action::Opening { mode, .. } => *mode,
        Action::Moving { stream, .. } => match stream_mode(opens, stream) {
            Some(mode) => mode,
            None => Mode::Read,
        },
    }
}

// Whether the receiving kernel has the stream for writing.
pub(crate) fn is_writing(opens: &[Open], action: &Action) -> bool
    ensures { result ≡ writes (mode_of opens.now action.now) }
{
    writes(mode_of(opens, action))
}

// Takes that many grants of the stream off the kernel, or all where it has fewer.
pub(crate) fn take_off(opens: &mut Items<Open>, stream: &StreamNo, kernel: Kernel, grants: u32)
    ensures { opens.new ≡ taken_off opens.old stream.now kernel grants }
{
    if let Some(at) = place_of(opens, stream, kernel) {
        let open = *opens.at(at);
        if open.count <= grants {
            opens.remove(at);
        } else {
            let count = open.count - grants;
            opens.replace(at, Open { count, ..open });
        }
    }
}

// Gives the kernel one more grant of the stream.
fn add(
    opens: &mut Items<Open>,
    stream: &StreamNo,
    kernel: Kernel,
    mode: Mode,
) -> Result<(), NoMemory>
    requires { IsTrue (are_roomy opens.old) }
    ensures ok { OnOk result (opens.new ≡ added opens.old stream.now kernel mode) }
    ensures err { OnErr result (opens.new ≡ opens.old) }
{
    let count = count_of(opens, stream, kernel) + 1;
    let open = Open {
        stream: *stream,
        kernel,
        mode,
        count,
    };
    match place_of(opens, stream, kernel) {
        Some(at) => {
            opens.replace(at, open);
        }
        None => opens.append(&[open])?,
    }
    Ok(())
}

// Takes the source's grants off in a move that leaves no references.
fn leave(opens: &mut Items<Open>, action: &Action)
    ensures { opens.new ≡ left_by opens.old action.now }
{
    if let Action::Moving {
        stream,
        from,
        kept,
        grants,
        ..
    } = action
    {
        if !*kept {
            take_off(opens, stream, *from, *grants);
        }
    }
}

// The opens that the open or move leads to.
pub(crate) fn opened(
    alloc: Global,
    opens: &Items<Open>,
    action: &Action,
) -> Result<Items<Open>, NoMemory>
    requires { IsTrue (are_roomy opens.now) }
    ensures { IfOk result (λ after. after ≡ opened opens.now action.now) }
{
    let mode = mode_of(opens.as_slice(), action);
    let mut after = opens.copy(alloc)?;
    leave(&mut after, action);
    let stream = action.stream();
    add(&mut after, &stream, action.receiver(), mode)?;
    Ok(after)
}

// The shared streams that the open or move leads to.
pub(crate) fn sharing(
    alloc: Global,
    shared: &Items<StreamNo>,
    action: &Action,
) -> Result<Items<StreamNo>, NoMemory>
    ensures { IfOk result (λ after. after ≡ sharing shared.now action.now) }
{
    let mut after = shared.copy(alloc)?;
    if action.shares() {
        share(&mut after, &action.stream())?;
    }
    Ok(after)
}

// Puts the stream in, where it isn't there.
fn share(streams: &mut Items<StreamNo>, stream: &StreamNo) -> Result<(), NoMemory>
    ensures { OnOk result (streams.new ≡ put (is_stream stream.now) stream.now streams.old) }
{
    match place_in(streams, stream) {
        Some(at) => {
            streams.replace(at, *stream);
        }
        None => streams.append(&[*stream])?,
    }
    Ok(())
}

// Where the stream stands.
fn place_in(streams: &Items<StreamNo>, stream: &StreamNo) -> Option<usize>
    ensures { result ≡ position (is_stream stream.now) streams.now }
{
    streams
        .as_slice()
        .iter()
        .position(|known| *known == *stream)
}

// Takes the stream out.
pub(crate) fn take_out(streams: &mut Items<StreamNo>, stream: &StreamNo)
    ensures { streams.new ≡ less (is_stream stream.now) streams.old }
{
    if let Some(at) = place_in(streams, stream) {
        streams.remove(at);
    }
}

// Whether any kernel has the stream open.
pub(crate) fn is_stream_open(opens: &[Open], stream: &StreamNo) -> bool
    ensures { result ≡ list_any (is_of_stream stream.now) opens.now }
{
    opens.iter().any(|open| open.stream == *stream)
}

// Whether the kernel has the file open.
pub(crate) fn has_open(opens: &[Open], kernel: Kernel) -> bool
    ensures { result ≡ has_open opens.now kernel }
{
    opens.iter().any(|open| open.kernel == kernel)
}

// Whether another kernel has the file open.
fn is_elsewhere(opens: &[Open], kernel: Kernel) -> bool
    ensures { result ≡ is_elsewhere opens.now kernel }
{
    opens.iter().any(|open| open.kernel != kernel)
}

// Whether two or more kernels have the file open.
fn is_spread(opens: &[Open]) -> bool
    ensures { result ≡ is_spread opens.now }
{
    match opens.first() {
        Some(first) => is_elsewhere(opens, first.kernel),
        None => false,
    }
}

// Whether any kernel has the file open for writing.
fn is_written(opens: &[Open]) -> bool
    ensures { result ≡ is_written opens.now }
{
    opens.iter().any(|open| writes(open.mode))
}

// Whether two or more kernels have the file open, one of them for writing.
pub(crate) fn is_write_shared(opens: &[Open]) -> bool
    ensures { result ≡ is_write_shared opens.now }
{
    is_spread(opens) && is_written(opens)
}

// Whether a grant may be added to each open.
pub(crate) fn are_roomy(opens: &[Open]) -> bool
    ensures { result ≡ are_roomy opens.now }
{
    opens.iter().all(|open| open.count <= ROOM)
}
