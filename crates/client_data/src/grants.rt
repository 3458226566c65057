ghost use Rattle.std.specs.Prelude.{◌≡◌, OnOk};
ghost use Rattle.block_cache.specs.Files.{keeps};
ghost use Rattle.client_data.specs.Grants.{takes_grant, takes_usable, usable, drops_one, drops_all, cleans_one, cleans_all, mode_of_grant, cause_of_grant, settles_called, called_back};

use block_cache::FileState;
use client_file_tables::ClientFiles;
use packet_bodies::{CallbackRequest, ReplyBody};
use sprite_ids::{BlockNo, CacheMode, CallKind, FileId, Grant, NoMemory, TxNo};
use unix_calls::{DropCause, Event};

/// Takes a grant of a file's server, where it is newer than what is known of the file: the file has its mode, and the blocks
/// that aren't of its version, or all where the file isn't cached any more, are dropped and wait no more to be written back
/// (Nelson, Welch and Ousterhout 1988). A kernel whose cache has room for no block caches no file, whatever it is granted (this
/// project). The one error is want of memory.
pub fn take_grant(files: &mut ClientFiles, grant: &Grant) -> Result<(), NoMemory>
    ensures { OnOk result (files.new ≡ takes_grant grant.now files.old) }
{
    let taken = usable(files, grant);
    take_usable(files, &taken)
}

// What the kernel may use of a grant.
#[tactic(auto, unfolding(crate::specs::Grants::usable))]
fn usable(files: &ClientFiles, grant: &Grant) -> Grant
    ensures { result ≡ usable files.now.cache grant.now }
{
    if files.cache.size() == 0 {
        Grant {
            on: false,
            ..*grant
        }
    } else {
        *grant
    }
}

// Takes what it may use.
fn take_usable(files: &mut ClientFiles, grant: &Grant) -> Result<(), NoMemory>
    ensures { OnOk result (files.new ≡ takes_usable grant.now files.old) }
{
    let held = files.cache.held(grant.file)?;
    let keeps = keeps_blocks(&files.known(&grant.file), grant);
    if !files.cache.take_grant(grant)? {
        return Ok(());
    }
    files.note(Event::Mode {
        file: grant.file,
        stamp: grant.stamp,
        mode: mode_of_grant(grant.on),
    })?;
    if keeps {
        return Ok(());
    }
    drop_all(
        files,
        &grant.file,
        held.as_slice(),
        cause_of_grant(grant.on),
    )
}

// Whether the file's blocks stay at that grant.
fn keeps_blocks(state: &FileState, grant: &Grant) -> bool
    ensures { result ≡ keeps state.now grant.now }
{
    grant.on && state.version == grant.old
}

// The mode that a grant gives.
fn mode_of_grant(on: bool) -> CacheMode
    ensures { result ≡ mode_of_grant on }
{
    if on { CacheMode::On } else { CacheMode::Off }
}

// Why blocks are dropped at a grant.
fn cause_of_grant(on: bool) -> DropCause
    ensures { result ≡ cause_of_grant on }
{
    if on {
        DropCause::Version
    } else {
        DropCause::Stop
    }
}

// Notes that the blocks were dropped; they wait no more to be written back.
fn drop_all(
    files: &mut ClientFiles,
    file: &FileId,
    blocks: &[BlockNo],
    cause: DropCause,
) -> Result<(), NoMemory>
    ensures { OnOk result (files.new ≡ drops_all file.now blocks.now cause files.old) }
{
    for block in blocks {
        drop_one(files, file, *block, cause)?;
    }
    Ok(())
}

fn drop_one(
    files: &mut ClientFiles,
    file: &FileId,
    block: BlockNo,
    cause: DropCause,
) -> Result<(), NoMemory>
    ensures { OnOk result (files.new ≡ drops_one file.now block cause files.old) }
{
    clean_one(files, file, block);
    files.note(Event::Dropped {
        file: *file,
        block,
        cause,
    })
}

// The blocks are clean: they wait no more to be written back.
fn clean_all(files: &mut ClientFiles, file: &FileId, blocks: &[BlockNo])
    ensures { files.new ≡ cleans_all file.now blocks.now files.old }
{
    for block in blocks {
        clean_one(files, file, *block);
    }
}

fn clean_one(files: &mut ClientFiles, file: &FileId, block: BlockNo)
    ensures { files.new ≡ cleans_one file.now block files.old }
{
    files.delay.cleaned(*file, block);
}

/// Takes a callback of a file's server and answers it in this step, with the file's size here and its dirty blocks. After a
/// recall these are clean; after a stop all blocks are dropped, and the file isn't cached any more (Nelson, Welch and
/// Ousterhout 1988). No operation is touched: one that waits for a block or a write-back looks again when that is answered.
/// The one error is want of memory.
pub fn callback(
    files: &mut ClientFiles,
    tx: TxNo,
    request: &CallbackRequest,
) -> Result<(), NoMemory>
    ensures { OnOk result (files.new ≡ called_back tx request.now files.old) }
{
    let held = files.cache.held(request.file)?;
    let dirty = files.cache.dirty_blocks(request.file)?;
    let flushed = files
        .cache
        .take_callback(request.file, request.stamp, request.kind)?;
    let mode = mode_of_grant(files.cache.cached(request.file));
    files.note(Event::Mode {
        file: request.file,
        stamp: request.stamp,
        mode,
    })?;
    settle_called(files, request, dirty.as_slice(), held.as_slice())?;
    files.answer(tx, ReplyBody::Flushed(flushed))
}

// After a recall these blocks are clean; after a stop those were dropped.
fn settle_called(
    files: &mut ClientFiles,
    request: &CallbackRequest,
    dirty: &[BlockNo],
    held: &[BlockNo],
) -> Result<(), NoMemory>
    ensures { OnOk result (files.new ≡ settles_called request.now.kind request.now.file dirty.now held.now files.old) }
{
    match request.kind {
        CallKind::Recall => {
            clean_all(files, &request.file, dirty);
            Ok(())
        }
        CallKind::Stop => drop_all(files, &request.file, held, DropCause::Stop),
    }
}
