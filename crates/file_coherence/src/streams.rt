ghost use Rattle.std.specs.Prelude.{◌≡◌, ◌∷◌, ◌++◌, ◌==◌, List, IfOk, OnOk, filter, not};
ghost use Rattle.std.specs.List.{list_any};
ghost use Rattle.file_views.specs.declared.Open.{Open};
ghost use Rattle.file_views.specs.Streams.{same_stream, has_stream, copies, reads, writes, is_open, open_count, add_open, take_off, stream_mode, mode_of_stream, has_open, is_spread, is_write_shared, is_any};

use crate::limits::next;
use file_views::Open;
use sprite_ids::{Items, Kernel, Mode, NoMemory, StreamNo};
use std::alloc::Global;

pub(crate) fn same_stream(stream: &StreamNo, other: &StreamNo) -> bool
    ensures { result ≡ same_stream stream.now other.now }
{
    stream.kernel == other.kernel && stream.number == other.number
}

// Whether the stream is among them.
pub(crate) fn has_stream(stream: &StreamNo, streams: &[StreamNo]) -> bool
    ensures { result ≡ has_stream stream.now streams.now }
{
    streams.iter().any(|other| same_stream(stream, other))
}

// How often the stream is among them.
pub(crate) fn copies(stream: &StreamNo, streams: &[StreamNo]) -> Result<u32, NoMemory>
    ensures { IfOk result (λ count. count ≡ copies stream.now streams.now) }
{
    let mut count = 0;
    for other in streams {
        if same_stream(stream, other) {
            count = next(count)?;
        }
    }
    Ok(count)
}

// Whether a stream of that mode may read.
pub(crate) fn reads(mode: Mode) -> bool
    ensures { result ≡ reads mode }
{
    match mode {
        Mode::Read | Mode::Both => true,
        Mode::Write => false,
    }
}

// Whether a stream of that mode may write.
pub(crate) fn writes(mode: Mode) -> bool
    ensures { result ≡ writes mode }
{
    match mode {
        Mode::Write | Mode::Both => true,
        Mode::Read => false,
    }
}

// Whether it is that stream's open at that kernel.
fn is_open(stream: &StreamNo, kernel: Kernel, one: &Open) -> bool
    ensures { result ≡ is_open stream.now kernel one.now }
{
    same_stream(stream, &one.stream) && one.kernel == kernel
}

// How many grants of the stream the kernel has.
fn open_count(opens: &[Open], stream: &StreamNo, kernel: Kernel) -> Result<u32, NoMemory>
    ensures { IfOk result (λ count. count ≡ open_count opens.now stream.now kernel) }
{
    let mut count: u32 = 0;
    for one in opens {
        if is_open(stream, kernel, one) {
            count = count.checked_add(one.count).ok_or(NoMemory)?;
        }
    }
    Ok(count)
}

// One more grant of the stream to the kernel.
pub(crate) fn add_open(
    alloc: Global,
    opens: &mut Items<Open>,
    stream: &StreamNo,
    kernel: Kernel,
    mode: Mode,
) -> Result<(), NoMemory>
    ensures { OnOk result (opens.new ≡ add_open opens.old stream.now kernel mode) }
{
    let count = next(open_count(opens.as_slice(), stream, kernel)?)?;
    let mut list = std::mem::replace(opens, Items::new(alloc)).into_vec();
    drop_open(&mut list, stream, kernel);
    *opens = Items::of_vec(list);
    opens.append(&[Open {
        stream: *stream,
        kernel,
        mode,
        count,
    }])
}

fn drop_open(opens: &mut Vec<Open>, stream: &StreamNo, kernel: Kernel)
    ensures { opens.new.items ≡ filter (λ (one : Open). not (is_open stream.now kernel one)) opens.old.items }
{
    opens.retain(|one| !is_open(stream, kernel, one));
}

// The opens without so many grants of the stream at the kernel, or without any of them where it has fewer.
pub(crate) fn take_off(
    alloc: Global,
    opens: &[Open],
    stream: &StreamNo,
    kernel: Kernel,
    grants: u32,
) -> Result<Items<Open>, NoMemory>
    ensures { IfOk result (λ left. left ≡ take_off opens.now stream.now kernel grants) }
{
    let mut left = Items::new(alloc);
    for one in opens {
        keep_open(&mut left, one, stream, kernel, grants)?;
    }
    Ok(left)
}

fn keep_open(
    left: &mut Items<Open>,
    one: &Open,
    stream: &StreamNo,
    kernel: Kernel,
    grants: u32,
) -> Result<(), NoMemory>
    ensures { (rest : List Open) → OnOk result (left.new ++ take_off rest stream.now kernel grants ≡ left.old ++ take_off (one.now ∷ rest) stream.now kernel grants) }
{
    if !is_open(stream, kernel, one) {
        return left.append(&[*one]);
    }
    if one.count <= grants {
        return Ok(());
    }
    left.append(&[Open {
        stream: one.stream,
        kernel: one.kernel,
        mode: one.mode,
        count: one.count - grants,
    }])
}

// What the stream was opened for.
pub(crate) fn stream_mode(opens: &[Open], stream: &StreamNo) -> Option<Mode>
    ensures { result ≡ stream_mode opens.now stream.now }
{
    for one in opens {
        if same_stream(stream, &one.stream) {
            return Some(one.mode);
        }
    }
    None
}

// The same, where a stream that nobody has open counts as one for reading.
pub(crate) fn mode_of_stream(opens: &[Open], stream: &StreamNo) -> Mode
    ensures { result ≡ mode_of_stream opens.now stream.now }
{
    match stream_mode(opens, stream) {
        Some(mode) => mode,
        None => Mode::Read,
    }
}

// Whether the kernel has the file open.
pub(crate) fn has_open(opens: &[Open], kernel: Kernel) -> bool
    ensures { result ≡ has_open opens.now kernel }
{
    opens.iter().any(|one| one.kernel == kernel)
}

// Whether another kernel has the file open.
fn has_other(opens: &[Open], kernel: Kernel) -> bool
    ensures { result ≡ list_any (λ (other : Open). not (other.kernel == kernel)) opens.now }
{
    opens.iter().any(|other| other.kernel != kernel)
}

// Whether two or more kernels have the file open.
fn is_spread(opens: &[Open]) -> bool
    ensures { result ≡ is_spread opens.now }
{
    opens.iter().any(|one| has_other(opens, one.kernel))
}

// Write sharing: two or more kernels have the file open, one of them for writing.
pub(crate) fn is_write_shared(opens: &[Open]) -> bool
    ensures { result ≡ is_write_shared opens.now }
{
    let written = has_writer(opens);
    is_spread(opens) && written
}

// Whether some kernel has the file open for writing.
fn has_writer(opens: &[Open]) -> bool
    ensures { result ≡ list_any (λ (one : Open). writes one.mode) opens.now }
{
    opens.iter().any(|one| writes(one.mode))
}

// Whether there is any.
pub(crate) fn is_any<T>(items: &[T]) -> bool
    ensures { result ≡ is_any items.now }
{
    !items.is_empty()
}
