ghost use Rattle.std.specs.Prelude.{◌≡◌, ◌<◌, ◌+◌, ◌++◌, IfOk, OnOk, filter, option_map, slice_index_or, length};
ghost use Rattle.file_views.specs.Setting.{sprite_setting};
ghost use Rattle.file_views.specs.Streams.{has_stream, same_stream};
ghost use Rattle.restart_views.specs.Restarts.{flushes, answer_of, is_installed, kept_of, or_kept, keep_to};
ghost use Rattle.server_restart.specs.Parts.{kept_data};

use file_coherence::dirty_pieces;
use file_views::{Client, FileBody, FileCall, Open, View};
use restart_views::Kept;
use sprite_ids::{BlockNo, Bytes, Copying, Items, NoMemory, StreamNo};
use std::alloc::Global;

// Whether the two are one stream.
pub(crate) fn same_stream(stream: &StreamNo, other: &StreamNo) -> bool
    ensures { result ≡ same_stream stream.now other.now }
{
    stream.kernel == other.kernel && stream.number == other.number
}

fn has_stream(stream: &StreamNo, streams: &[StreamNo]) -> bool
    ensures { result ≡ has_stream stream.now streams.now }
{
    streams.iter().any(|other| same_stream(stream, other))
}

// Whether the reply is an answer to a callback that has blocks.
fn flushes(reply: &Option<FileBody>) -> bool
    ensures { result ≡ flushes reply.now }
{
    match reply {
        Some(FileBody::Flushed { blocks, .. }) => !blocks.is_empty(),
        _ => false,
    }
}

// The answer with blocks to a callback that the kernel gave and that hasn't come.
fn answer_of(kernel: usize, calls: &[FileCall]) -> Option<&FileBody>
    ensures { option_map (λ body. body.now) result ≡ answer_of kernel calls.now }
{
    for one in calls {
        if usize::from(one.to.number()) == kernel && flushes(&one.reply) {
            return one.reply.as_ref();
        }
    }
    None
}

// The size and the blocks that the client keeps: its own, or those of its answer to a callback.
fn kept_data(
    alloc: Global,
    view: &View,
    place: usize,
    client: &Client,
) -> Result<(u32, Items<(BlockNo, Bytes)>), NoMemory>
    requires { place < length view.now.clients }
    ensures { IfOk result (λ found. found ≡ kept_data sprite_setting view.now place client.now) }
{
    let kernel = place.checked_add(1).ok_or(NoMemory)?;
    match answer_of(kernel, view.calls.as_slice()) {
        Some(FileBody::Flushed { size, blocks }) => Ok((*size, blocks.copy(alloc)?)),
        _ => {
            let blocks = dirty_pieces(alloc, client.size as usize, client.blocks.as_slice())?;
            Ok((client.size, blocks))
        }
    }
}

// The streams that are installed at the kernel.
fn installed(
    alloc: Global,
    opens: &[Open],
    kernel: usize,
    client: &Client,
) -> Result<Items<Open>, NoMemory>
    ensures { IfOk result (λ streams. streams ≡ filter (is_installed kernel client.now) opens.now) }
{
    let mut streams = Items::new(alloc);
    for one in opens {
        let here = usize::from(one.kernel.number()) == kernel;
        if here && has_stream(&one.stream, client.streams.as_slice()) {
            streams.push(*one)?;
        }
    }
    Ok(streams)
}

fn kept_of(alloc: Global, view: &View, place: usize) -> Result<Kept, NoMemory>
    requires { place < length view.now.clients }
    ensures { IfOk result (λ one. one ≡ kept_of sprite_setting view.now place) }
{
    let client = view.clients.at(place);
    let kernel = place.checked_add(1).ok_or(NoMemory)?;
    let streams = installed(alloc, view.opens.as_slice(), kernel, client)?;
    let (size, blocks) = kept_data(alloc, view, place, client)?;
    Ok(Kept {
        streams,
        blocks,
        size,
        version: client.version,
    })
}

// What the client at that place keeps: what it kept before, or what it has now.
fn keep_one(
    alloc: Global,
    view: &View,
    kept: &[Option<Kept>],
    place: usize,
) -> Result<Kept, NoMemory>
    requires { place < length view.now.clients }
    ensures { IfOk result (λ one. one ≡ or_kept (slice_index_or kept.now place None) (kept_of sprite_setting view.now place)) }
{
    if place < kept.len()
        && let Some(one) = &kept[place]
    {
        return one.copy(alloc);
    }
    kept_of(alloc, view, place)
}

// What each client keeps when the server stops.
pub(crate) fn keep_all(
    alloc: Global,
    view: &View,
    kept: &[Option<Kept>],
) -> Result<Items<Option<Kept>>, NoMemory>
    ensures { IfOk result (λ all. all ≡ keep_to sprite_setting view.now kept.now (length view.now.clients)) }
{
    let mut all = Items::new(alloc);
    for place in 0..view.clients.len() {
        let one = keep_one(alloc, view, kept, place)?;
        all.push(Some(one))?;
    }
    Ok(all)
}
