ghost use Rattle.std.specs.Prelude.{◌≡◌, ◌++◌, ◌∷◌, [], OnOk, Some, None, ◌==◌, IfOk, option_map};
ghost use Rattle.file_views.specs.Views.{client, set_client, server, find_carried, find_call, begin};
ghost use Rattle.file_views.specs.Steps.{grant_comes, arrive, called_back, request_at_client, opening_answered, move_answered, fetch_answered, write_back_answered, op_answered, flush_comes, reply_comes, carried_comes_with, carried_comes, call_comes, delivered, deliver, closing, moving, writing_back_at, writing_back, after};
ghost use Rattle.file_views.specs.Entries.{enters_flush, enters_fetched, enters_op_answered, enters_reply, enters_call, enters_delivered, enters_after};
ghost use Rattle.file_coherence.specs.Parts.{sent_back, write_back_of, found_of};
ghost use Rattle.file_views.specs.Clients.{held, fill, wrote_back, uninstall, pieces, without_block};
ghost use Rattle.file_views.specs.Streams.{copies};
ghost use Rattle.file_views.specs.declared.FileBody.TheVariants.{Flushed};

use crate::blocks::{drop_block, held, pieces};
use crate::clients::{fill, install, take_callback, take_grant, uninstall, wrote_back};
use crate::contents::cut;
use crate::data::{look, start_data, step_of};
use crate::limits::Limits;
use crate::serving::{callback_answered, request_comes};
use crate::streams::copies;
use crate::views::{
    answer, begin, client_of, drop_carried, find_call, find_carried, put_client, remove_call,
    server, size_at, stamp_at, take_client,
};
use file_views::{Carry, Entered, FileBody, FileCall, FileGrant, FileStep, View};
use sprite_ids::{BlockNo, CallKind, Copying, Items, Kernel, NoMemory, StreamNo};
use std::alloc::Global;

// A client takes a grant.
fn grant_comes(alloc: Global, view: &mut View, kernel: Kernel, grant: &FileGrant)
    ensures { view.new ≡ grant_comes view.old kernel grant.now }
{
    let mut client = take_client(alloc, view, kernel);
    take_grant(alloc, &mut client, grant);
    put_client(view, kernel, client);
}

// An open's or a move's grant comes to its kernel, and the stream with it.
fn arrive(
    alloc: Global,
    view: &mut View,
    kernel: Kernel,
    stream: &StreamNo,
    grant: &FileGrant,
) -> Result<(), NoMemory>
    ensures { OnOk result (view.new ≡ arrive view.old kernel stream.now grant.now) }
{
    let mut client = take_client(alloc, view, kernel);
    take_grant(alloc, &mut client, grant);
    install(&mut client, stream)?;
    put_client(view, kernel, client);
    Ok(())
}

// What a client answers to a callback: its size, and its dirty blocks.
fn flush_of(
    alloc: Global,
    limits: &Limits,
    view: &View,
    kernel: Kernel,
) -> Result<FileBody, NoMemory>
    ensures { IfOk result (λ reply. reply ≡ Flushed (client view.now kernel).size (pieces limits.now (client view.now kernel).size (client view.now kernel).blocks)) }
{
    match client_of(view, kernel) {
        Some(client) => {
            let blocks = pieces(
                alloc,
                limits,
                client.size as usize,
                client.blocks.as_slice(),
            )?;
            Ok(FileBody::Flushed {
                size: client.size,
                blocks,
            })
        }
        None => Ok(FileBody::Flushed {
            size: 0,
            blocks: Items::new(alloc),
        }),
    }
}

// A callback comes to its client, which answers at once.
fn called_back(
    alloc: Global,
    limits: &Limits,
    view: &mut View,
    one: &FileCall,
    stamp: u32,
    kind: CallKind,
) -> Result<(), NoMemory>
    ensures { OnOk result (view.new ≡ called_back limits.now view.old one.now stamp kind) }
{
    let reply = flush_of(alloc, limits, view, one.to)?;
    let mut client = take_client(alloc, view, one.to);
    take_callback(alloc, &mut client, stamp, kind);
    put_client(view, one.to, client);
    answer(alloc, view, one, reply)
}

fn request_at_client(
    alloc: Global,
    limits: &Limits,
    view: &mut View,
    one: &FileCall,
) -> Result<(), NoMemory>
    ensures { OnOk result (view.new ≡ request_at_client limits.now view.old one.now one.now.body) }
{
    match &one.body {
        FileBody::Callback { stamp, kind } => {
            called_back(alloc, limits, view, one, *stamp, *kind)
        }
        _ => Ok(()),
    }
}

// An open's reply comes.
fn opening_answered(
    alloc: Global,
    view: &mut View,
    kernel: Kernel,
    stream: &StreamNo,
    reply: &Option<FileBody>,
) -> Result<(), NoMemory>
    ensures { OnOk result (view.new ≡ opening_answered view.old kernel stream.now reply.now) }
{
    match reply {
        Some(FileBody::Opened { grant }) => arrive(alloc, view, kernel, stream, grant),
        _ => Ok(()),
    }
}

// A move's reply comes to its source: the stream and its grant are carried to the target (Douglis and Ousterhout 1991).
fn move_answered(
    view: &mut View,
    number: u32,
    to: Kernel,
    stream: &StreamNo,
    reply: &Option<FileBody>,
) -> Result<(), NoMemory>
    ensures { OnOk result (view.new ≡ move_answered view.old number to stream.now reply.now) }
{
    match reply {
        Some(FileBody::Moved { grant, .. }) => view.carried.append(&[Carry {
            call: number,
            to,
            stream: *stream,
            grant: *grant,
        }]),
        _ => Ok(()),
    }
}

// A block comes to its client.
fn fill_at(
    alloc: Global,
    limits: &Limits,
    view: &mut View,
    kernel: Kernel,
    stamp: u32,
    block: BlockNo,
    piece: &[u8],
) -> Result<(), NoMemory>
    ensures { OnOk result (view.new ≡ set_client view.old kernel (fill limits.now (client view.old kernel) stamp block piece.now)) }
{
    let mut client = take_client(alloc, view, kernel);
    fill(alloc, limits, &mut client, stamp, block, piece)?;
    put_client(view, kernel, client);
    Ok(())
}

// A fetch's reply comes, and what waits looks again.
fn fetch_answered(
    alloc: Global,
    limits: &Limits,
    view: &mut View,
    kernel: Kernel,
    block: BlockNo,
    reply: &Option<FileBody>,
    entered: &mut Items<Entered>,
) -> Result<(), NoMemory>
    ensures view { OnOk result (view.new ≡ fetch_answered limits.now view.old kernel block reply.now) }
    ensures entered { OnOk result (entered.new ≡ entered.old ++ enters_fetched limits.now view.old kernel block reply.now) }
{
    match reply {
        Some(FileBody::Block { stamp, bytes }) => {
            fill_at(alloc, limits, view, kernel, *stamp, block, bytes.as_slice())?;
            look(alloc, limits, view, kernel, entered)
        }
        Some(FileBody::Again { grant }) => {
            grant_comes(alloc, view, kernel, grant);
            look(alloc, limits, view, kernel, entered)
        }
        _ => Ok(()),
    }
}

// A write-back is done.
fn wrote_back_at(
    alloc: Global,
    view: &mut View,
    kernel: Kernel,
    stamp: u32,
    block: BlockNo,
    dirty: Option<u64>,
) -> Result<(), NoMemory>
    ensures { OnOk result (view.new ≡ set_client view.old kernel (wrote_back (client view.old kernel) stamp block.0 dirty)) }
{
    let mut client = take_client(alloc, view, kernel);
    wrote_back(alloc, &mut client, stamp, usize::from(block.0), dirty)?;
    put_client(view, kernel, client);
    Ok(())
}

// A write-back's reply comes.
fn write_back_answered(
    alloc: Global,
    view: &mut View,
    one: &FileCall,
    stamp: u32,
    block: BlockNo,
) -> Result<(), NoMemory>
    ensures { OnOk result (view.new ≡ write_back_answered view.old one.now.from stamp block one.now.dirty one.now.reply) }
{
    match &one.reply {
        Some(FileBody::Done) => wrote_back_at(alloc, view, one.from, stamp, block, one.dirty),
        Some(FileBody::Again { grant }) => {
            grant_comes(alloc, view, one.from, grant);
            Ok(())
        }
        _ => Ok(()),
    }
}

// An operation's reply comes; where its stamp was old, it begins again.
fn op_answered(
    alloc: Global,
    limits: &Limits,
    view: &mut View,
    kernel: Kernel,
    step: &FileStep,
    reply: &Option<FileBody>,
    entered: &mut Items<Entered>,
) -> Result<(), NoMemory>
    ensures view { OnOk result (view.new ≡ op_answered limits.now view.old kernel step.now reply.now) }
    ensures entered { OnOk result (entered.new ≡ entered.old ++ enters_op_answered limits.now view.old kernel step.now reply.now) }
{
    match reply {
        Some(FileBody::Again { grant }) => {
            grant_comes(alloc, view, kernel, grant);
            start_data(alloc, limits, view, kernel, step, entered)
        }
        _ => Ok(()),
    }
}

// The answer to a callback comes to the server.
fn flush_comes(
    alloc: Global,
    limits: &Limits,
    view: &mut View,
    one: &FileCall,
    entered: &mut Items<Entered>,
) -> Result<(), NoMemory>
    ensures view { OnOk result (view.new ≡ flush_comes limits.now view.old one.now one.now.reply) }
    ensures entered { OnOk result (entered.new ≡ entered.old ++ enters_flush limits.now view.old one.now one.now.reply) }
{
    match &one.reply {
        Some(FileBody::Flushed { size, blocks }) => {
            callback_answered(alloc, limits, view, one, *size, blocks.as_slice(), entered)
        }
        _ => Ok(()),
    }
}

// A reply comes to whom it is for, and the call is finished.
fn reply_comes(
    alloc: Global,
    limits: &Limits,
    view: &mut View,
    one: &FileCall,
    entered: &mut Items<Entered>,
) -> Result<(), NoMemory>
    ensures view { OnOk result (view.new ≡ reply_comes limits.now view.old one.now one.now.body) }
    ensures entered { OnOk result (entered.new ≡ entered.old ++ enters_reply limits.now view.old one.now one.now.body) }
{
    if let FileBody::Callback { .. } = &one.body {
        return flush_comes(alloc, limits, view, one, entered);
    }
    remove_call(alloc, view, one.number);
    match &one.body {
        FileBody::Opening { stream, .. } => {
            opening_answered(alloc, view, one.from, stream, &one.reply)
        }
        FileBody::Move { stream, to, .. } => {
            move_answered(view, one.number, *to, stream, &one.reply)
        }
        FileBody::WriteBack { stamp, block, .. } => {
            write_back_answered(alloc, view, one, *stamp, *block)
        }
        FileBody::Fetch { block, .. } => {
            fetch_answered(alloc, limits, view, one.from, *block, &one.reply, entered)
        }
        FileBody::Op {
            pid,
            number,
            stream,
            access,
            ..
        } => {
            let step = step_of(alloc, *pid, *number, one.from, *stream, access)?;
            op_answered(alloc, limits, view, one.from, &step, &one.reply, entered)
        }
        _ => Ok(()),
    }
}

// A carried stream comes to its target.
fn carried_comes(alloc: Global, view: &mut View, one: &Carry) -> Result<(), NoMemory>
    ensures { OnOk result (view.new ≡ carried_comes view.old one.now) }
{
    drop_carried(alloc, &mut view.carried, one.call);
    match &one.grant {
        Some(grant) => arrive(alloc, view, one.to, &one.stream, grant),
        None => Ok(()),
    }
}

// The call's request or reply comes, whichever is next.
fn call_comes(
    alloc: Global,
    limits: &Limits,
    view: &mut View,
    one: &FileCall,
    entered: &mut Items<Entered>,
) -> Result<(), NoMemory>
    ensures view { OnOk result (view.new ≡ call_comes limits.now view.old one.now one.now.taken (one.now.to == server)) }
    ensures entered { OnOk result (entered.new ≡ entered.old ++ enters_call limits.now view.old one.now one.now.taken (one.now.to == server)) }
{
    if one.taken {
        return reply_comes(alloc, limits, view, one, entered);
    }
    if one.to == server() {
        return request_comes(alloc, limits, view, one, entered);
    }
    request_at_client(alloc, limits, view, one)
}

// A copy of the call with that number.
fn call_copy(alloc: Global, view: &View, number: u32) -> Result<Option<FileCall>, NoMemory>
    ensures { IfOk result (λ one. one ≡ find_call view.now.calls number) }
{
    match find_call(view.calls.as_slice(), number) {
        Some(one) => Ok(Some(one.copy(alloc)?)),
        None => Ok(None),
    }
}

// What is next of the call comes to whom it is for.
fn deliver(
    alloc: Global,
    limits: &Limits,
    view: &mut View,
    number: u32,
    entered: &mut Items<Entered>,
) -> Result<(), NoMemory>
    ensures view { OnOk result (view.new ≡ deliver limits.now view.old number) }
    ensures entered { OnOk result (entered.new ≡ entered.old ++ enters_delivered limits.now view.old (find_carried view.old.carried number) (find_call view.old.calls number)) }
{
    if let Some(one) = find_carried(view.carried.as_slice(), number) {
        return carried_comes(alloc, view, &one);
    }
    match call_copy(alloc, view, number)? {
        Some(one) => call_comes(alloc, limits, view, &one, entered),
        None => Ok(()),
    }
}

// The stream is installed at the kernel no more; the answer is how many of its grants came there.
fn take_stream(
    alloc: Global,
    view: &mut View,
    kernel: Kernel,
    stream: &StreamNo,
) -> Result<u32, NoMemory>
    ensures grants { IfOk result (λ grants. grants ≡ copies stream.now (client view.old kernel).streams) }
    ensures view { OnOk result (view.new ≡ set_client view.old kernel (uninstall (client view.old kernel) stream.now)) }
{
    let mut client = take_client(alloc, view, kernel);
    let grants = copies(stream, client.streams.as_slice())?;
    uninstall(alloc, &mut client, stream);
    put_client(view, kernel, client);
    Ok(grants)
}

// A stream is closed.
fn close_stream(
    alloc: Global,
    view: &mut View,
    kernel: Kernel,
    stream: &StreamNo,
) -> Result<(), NoMemory>
    ensures { OnOk result (view.new ≡ closing view.old kernel stream.now) }
{
    let grants = take_stream(alloc, view, kernel, stream)?;
    let body = FileBody::Close {
        stream: *stream,
        grants,
    };
    begin(view, kernel, server(), body, None)
}

// A stream moves away: where no references stay it is installed no more, and its grants are told.
fn move_stream(
    alloc: Global,
    view: &mut View,
    stream: &StreamNo,
    from: Kernel,
    to: Kernel,
    kept: bool,
) -> Result<(), NoMemory>
    ensures { OnOk result (view.new ≡ moving view.old stream.now from to kept) }
{
    let grants = if kept {
        0
    } else {
        take_stream(alloc, view, from, stream)?
    };
    let body = FileBody::Move {
        stream: *stream,
        to,
        kept,
        grants,
    };
    begin(view, from, server(), body, None)
}

// A clean block is dropped.
fn drop_clean(alloc: Global, view: &mut View, kernel: Kernel, number: usize)
    ensures { view.new ≡ set_client view.old kernel (record (client view.old kernel) { blocks = without_block number (client view.old kernel).blocks }) }
{
    let mut client = take_client(alloc, view, kernel);
    drop_block(alloc, &mut client.blocks, number);
    put_client(view, kernel, client);
}

// A block that a kernel holds: which it is, and its dirty number.
#[derive(Clone, Copy)]
struct Found {
    block: BlockNo,
    dirty: Option<u64>,
}

// The block with that number that the kernel holds.
fn found_at(view: &View, kernel: Kernel, number: usize) -> Option<Found>
    ensures { result ≡ option_map found_of (held (client view.now kernel).blocks number) }
{
    match held(client_of(view, kernel)?.blocks.as_slice(), number) {
        Some(one) => Some(Found {
            block: one.block,
            dirty: one.dirty,
        }),
        None => None,
    }
}

// What sends the block with that number to the server.
fn write_back_of(
    alloc: Global,
    limits: &Limits,
    view: &View,
    kernel: Kernel,
    number: usize,
) -> Result<Option<FileBody>, NoMemory>
    ensures { IfOk result (λ body. body ≡ write_back_of limits.now (client view.now kernel) (held (client view.now kernel).blocks number)) }
{
    let Some(client) = client_of(view, kernel) else {
        return Ok(None);
    };
    let Some(one) = held(client.blocks.as_slice(), number) else {
        return Ok(None);
    };
    let bytes = cut(
        alloc,
        limits,
        one.bytes.as_slice(),
        usize::from(one.block.0),
        client.size as usize,
    )?;
    Ok(Some(FileBody::WriteBack {
        stamp: client.stamp,
        block: one.block,
        size: client.size,
        bytes,
    }))
}

// A dirty block is sent.
fn send_back(
    alloc: Global,
    limits: &Limits,
    view: &mut View,
    kernel: Kernel,
    number: usize,
    dirty: u64,
) -> Result<(), NoMemory>
    ensures { OnOk result (view.new ≡ sent_back view.old kernel dirty (write_back_of limits.now (client view.old kernel) (held (client view.old kernel).blocks number))) }
{
    match write_back_of(alloc, limits, view, kernel, number)? {
        Some(body) => begin(view, kernel, server(), body, Some(dirty)),
        None => Ok(()),
    }
}

// A clean block is dropped, and a dirty one is sent.
fn write_back(
    alloc: Global,
    limits: &Limits,
    view: &mut View,
    kernel: Kernel,
    number: usize,
) -> Result<(), NoMemory>
    ensures { OnOk result (view.new ≡ writing_back limits.now view.old kernel (held (client view.old kernel).blocks number)) }
{
    let Some(found) = found_at(view, kernel, number) else {
        return Ok(());
    };
    match found.dirty {
        Some(dirty) => send_back(alloc, limits, view, kernel, number, dirty),
        None => {
            drop_clean(alloc, view, kernel, usize::from(found.block.0));
            Ok(())
        }
    }
}

// A process opens a new stream.
fn open(view: &mut View, kernel: Kernel, body: FileBody) -> Result<(), NoMemory>
    ensures { OnOk result (view.new ≡ begin view.old kernel server body None) }
{
    begin(view, kernel, server(), body, None)
}

// Does a step that is possible.
pub(crate) fn do_step(
    alloc: Global,
    limits: &Limits,
    view: &mut View,
    step: &FileStep,
    entered: &mut Items<Entered>,
) -> Result<(), NoMemory>
    ensures view { OnOk result (view.new ≡ after limits.now view.old step.now) }
    ensures entered { OnOk result (entered.new ≡ entered.old ++ enters_after limits.now view.old step.now) }
{
    match step {
        FileStep::Opening {
            pid,
            number,
            kernel,
            stream,
            mode,
            truncate,
        } => {
            let body = FileBody::Opening {
                pid: *pid,
                number: *number,
                stream: *stream,
                mode: *mode,
                truncate: *truncate,
            };
            open(view, *kernel, body)
        }
        FileStep::Closing { kernel, stream } => close_stream(alloc, view, *kernel, stream),
        FileStep::Moving {
            stream,
            from,
            to,
            kept,
        } => move_stream(alloc, view, stream, *from, *to, *kept),
        FileStep::Reading { kernel, .. } => {
            start_data(alloc, limits, view, *kernel, step, entered)
        }
        FileStep::Writing { kernel, .. } => {
            start_data(alloc, limits, view, *kernel, step, entered)
        }
        FileStep::Append { kernel, .. } => {
            start_data(alloc, limits, view, *kernel, step, entered)
        }
        FileStep::WritingBack { kernel, block } => {
            write_back(alloc, limits, view, *kernel, usize::from(block.0))
        }
        FileStep::Delivering { call } => deliver(alloc, limits, view, *call, entered),
        FileStep::Expiring { .. } => Ok(()),
    }
}
