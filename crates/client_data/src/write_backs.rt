ghost use Rattle.std.specs.Prelude.{◌≡◌, IfOk, OnOk};
ghost use Rattle.client_data.specs.WriteBacks.{sends_back, due_goes, written_back, done_back, settles_back, cleans_back, lists_again, lists_dirty};

use crate::grants::take_grant;
use crate::sync::answer_sync;
use client_file_tables::{ClientFiles, WriteBackOut, to_one};
use packet_bodies::{ReplyBody, Request, WriteBackRequest};
use sprite_ids::{BlockNo, Bytes, FileId, NoMemory, Tries, TxNo};
use std::alloc::Global;
use unix_calls::{About, Event, SendKind};

// Sends the block, which has that dirty number, to the file's server, and gives the number of the remote call. From then on
// it waits no more to be written back: a write-back.
pub(crate) fn send_write_back(
    files: &mut ClientFiles,
    alloc: Global,
    file: &FileId,
    block: BlockNo,
    number: u64,
    about: Option<About>,
) -> Result<TxNo, NoMemory>
    ensures tx { IfOk result (λ tx. tx ≡ files.old.out.next) }
    ensures files { OnOk result (files.new ≡ sends_back file.now block number about files.old) }
{
    let state = files.known(file);
    let bytes = Bytes::of_vec(files.cache.bytes_of(*file, block)?);
    let body = Request::WriteBack(WriteBackRequest {
        file: *file,
        stamp: state.stamp,
        block,
        size: state.size,
        bytes,
    });
    let sending = to_one(alloc, file.server, Tries::Always, about, body)?;
    let tx = files.send(alloc, sending, SendKind::WriteBack { file: *file, block })?;
    let sent = WriteBackOut {
        file: *file,
        block,
        stamp: state.stamp,
        number,
    };
    files.write_backs.push(tx, sent)?;
    files.delay.cleaned(*file, block);
    Ok(tx)
}

/// The block has been dirty for long enough: it goes to the server (Nelson, Welch and Ousterhout 1988). One that isn't dirty
/// stays where it is. The one error is want of memory.
pub fn write_back_due(
    files: &mut ClientFiles,
    alloc: Global,
    file: &FileId,
    block: BlockNo,
) -> Result<(), NoMemory>
    ensures { OnOk result (files.new ≡ due_goes file.now block files.old) }
{
    match files.cache.dirty(*file, block) {
        Some(number) => {
            let _tx = send_write_back(files, alloc, file, block, number, None)?;
            Ok(())
        }
        None => Ok(()),
    }
}

/// Takes the answer to a write-back. The block is clean, where it wasn't written since and its file's stamp is still the
/// one under which it went; a newer grant is taken. A block that is dirty all the same waits to be written back from this
/// step on. What waited for the answer looks at everything anew (Nelson, Welch and Ousterhout 1988). An answer to no
/// write-back that is out does nothing. The one error is want of memory.
pub fn write_back_answered(
    files: &mut ClientFiles,
    alloc: Global,
    tx: TxNo,
    body: &ReplyBody,
) -> Result<(), NoMemory>
    ensures { OnOk result (files.new ≡ written_back tx body.now files.old) }
{
    match files.write_backs.take(&tx) {
        Some(sent) => write_back_done(files, alloc, tx, &sent, body),
        None => Ok(()),
    }
}

fn write_back_done(
    files: &mut ClientFiles,
    alloc: Global,
    tx: TxNo,
    sent: &WriteBackOut,
    body: &ReplyBody,
) -> Result<(), NoMemory>
    ensures { OnOk result (files.new ≡ done_back tx body.now sent.now files.old) }
{
    settle_write_back(files, sent, body)?;
    list_again(files, &sent.file, sent.block)?;
    files.wake_all(alloc, tx)?;
    answer_sync(files, tx, body)
}

fn settle_write_back(
    files: &mut ClientFiles,
    sent: &WriteBackOut,
    body: &ReplyBody,
) -> Result<(), NoMemory>
    ensures { OnOk result (files.new ≡ settles_back body.now sent.now files.old) }
{
    match body {
        ReplyBody::Again { grant } => take_grant(files, grant),
        _ => clean_written(files, sent),
    }
}

// The block is clean, where it is still dirty with the number that went.
fn clean_written(files: &mut ClientFiles, sent: &WriteBackOut) -> Result<(), NoMemory>
    ensures { OnOk result (files.new ≡ cleans_back sent.now files.old) }
{
    if !files
        .cache
        .wrote_back(sent.file, sent.stamp, sent.block, sent.number)
    {
        return Ok(());
    }
    files.note(Event::WroteBack {
        file: sent.file,
        block: sent.block,
    })
}

// A block that is dirty waits to be written back, unless it does already or has a current write-back.
fn list_again(files: &mut ClientFiles, file: &FileId, block: BlockNo) -> Result<(), NoMemory>
    ensures { OnOk result (files.new ≡ lists_again file.now block files.old) }
{
    match files.cache.dirty(*file, block) {
        Some(_) => list_dirty(files, file, block),
        None => Ok(()),
    }
}

fn list_dirty(files: &mut ClientFiles, file: &FileId, block: BlockNo) -> Result<(), NoMemory>
    ensures { OnOk result (files.new ≡ lists_dirty file.now block files.old) }
{
    if files.delay.listed(*file, block) {
        return Ok(());
    }
    files.list_free(file, block)
}
