ghost use Rattle.std.specs.Prelude.{◌≡◌, ◌++◌, ◌∷◌, IfOk, OnOk, length, nat_lt};
ghost use Rattle.call_journal.specs.Matching.{same_mode, writes};
ghost use Rattle.write_sharing.specs.Kept.{OpensOn, is_beside, is_shared_in, opens_at, same_open, shared_last, without_one};

use crate::kept::{OpenedAt, Opening};
use indexmap::IndexMap;
use sprite_ids::{FileId, Items, Kernel, Mode, NoMemory};
use std::alloc::Global;
use unix_calls::Event;

/// The streams of a file that are open.
pub(crate) fn opens_of<'a>(
    opens: &'a IndexMap<FileId, Items<OpenedAt>>,
    file: &FileId,
) -> &'a [OpenedAt]
    ensures { result.now ≡ opens_at opens.now.entries file.now }
{
    match opens.get(file) {
        Some(streams) => streams.as_slice(),
        None => &[],
    }
}

/// Whether a file is open.
pub(crate) fn is_open(opens: &IndexMap<FileId, Items<OpenedAt>>, file: &FileId) -> bool
    ensures { result ≡ nat_lt 0 (length (opens_at opens.now.entries file.now)) }
{
    let streams = opens_of(opens, file);
    0 < streams.len()
}

/// Whether the file that the last record opened, if it opened one, is shared for writing.
pub(crate) fn is_last_shared(
    opens: &IndexMap<FileId, Items<OpenedAt>>,
    last: &Option<Opening>,
) -> bool
    ensures { result ≡ shared_last opens.now.entries last.now }
{
    match last {
        Some(opening) => is_write_shared(opens_of(opens, &opening.file)),
        None => false,
    }
}

// Whether two kernels have a file open, and one of them for writing: beside the first writer, if there is one, another kernel has it
// open, since else there is no other.
fn is_write_shared(streams: &[OpenedAt]) -> bool
    ensures { result ≡ is_shared_in streams.now }
{
    for opened in streams {
        if may_write(opened.mode) {
            return is_beside(streams, opened.kernel);
        }
    }
    false
}

// Whether another kernel than that one has it open.
fn is_beside(streams: &[OpenedAt], kernel: Kernel) -> bool
    ensures { result ≡ is_beside streams.now kernel }
{
    for opened in streams {
        if kernel != opened.kernel {
            return true;
        }
    }
    false
}

fn may_write(mode: Mode) -> bool
    ensures { result ≡ writes mode }
{
    match mode {
        Mode::Read => false,
        Mode::Write => true,
        Mode::Both => true,
    }
}

/// Keeps what an event opens or closes. The one error is want of memory.
pub(crate) fn keep_opens(
    alloc: Global,
    opens: &mut IndexMap<FileId, Items<OpenedAt>>,
    event: &Event,
) -> Result<(), NoMemory>
    ensures { OnOk result (OpensOn event.now opens.old.entries opens.new.entries) }
{
    match event {
        Event::Opened {
            file,
            stream,
            kernel,
            mode,
        } => {
            let one = OpenedAt {
                stream: *stream,
                kernel: *kernel,
                mode: *mode,
            };
            let streams = with_one(alloc, opens_of(opens, file), &one)?;
            opens.insert(*file, streams)?;
            Ok(())
        }
        Event::Closed {
            file,
            stream,
            kernel,
            mode,
        } => {
            let one = OpenedAt {
                stream: *stream,
                kernel: *kernel,
                mode: *mode,
            };
            let streams = without_one(alloc, opens_of(opens, file), &one)?;
            opens.insert(*file, streams)?;
            Ok(())
        }
        _ => Ok(()),
    }
}

// These streams with that one, which is there once.
fn with_one(
    alloc: Global,
    streams: &[OpenedAt],
    one: &OpenedAt,
) -> Result<Items<OpenedAt>, NoMemory>
    ensures { IfOk result (λ kept. kept ≡ one.now ∷ without_one one.now streams.now) }
{
    let mut kept = Vec::new(alloc);
    kept.push(*one)?;
    keep_others(&mut kept, streams, one)?;
    Ok(Items::of_vec(kept))
}

// These streams without that one.
fn without_one(
    alloc: Global,
    streams: &[OpenedAt],
    one: &OpenedAt,
) -> Result<Items<OpenedAt>, NoMemory>
    ensures { IfOk result (λ kept. kept ≡ without_one one.now streams.now) }
{
    let mut kept = Vec::new(alloc);
    keep_others(&mut kept, streams, one)?;
    Ok(Items::of_vec(kept))
}

// Puts those of the streams that are another one behind these.
fn keep_others(
    kept: &mut Vec<OpenedAt>,
    streams: &[OpenedAt],
    one: &OpenedAt,
) -> Result<(), NoMemory>
    ensures { OnOk result (kept.new.items ≡ kept.old.items ++ without_one one.now streams.now) }
{
    for opened in streams {
        if !is_same(opened, one) {
            kept.push(*opened)?;
        }
    }
    Ok(())
}

// Whether it is that stream at that kernel, with that mode.
fn is_same(opened: &OpenedAt, one: &OpenedAt) -> bool
    ensures { result ≡ same_open one.now opened.now }
{
    opened.stream == one.stream
        && opened.kernel == one.kernel
        && is_same_mode(opened.mode, one.mode)
}

fn is_same_mode(a: Mode, b: Mode) -> bool
    ensures { result ≡ same_mode a b }
{
    match (a, b) {
        (Mode::Read, Mode::Read) => true,
        (Mode::Write, Mode::Write) => true,
        (Mode::Both, Mode::Both) => true,
        _ => false,
    }
}
