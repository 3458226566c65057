ghost use Rattle.std.specs.Prelude.{◌≡◌, ◌∷◌, ◌++◌, [], IfOk, OnOk, ℕ, length};
ghost use Rattle.file_views.specs.Clients.{is_on, missing, high_of, cached_bytes};
ghost use Rattle.file_views.specs.Views.{client};
ghost use Rattle.file_views.specs.Data.{op_of, step_of, send_op, send_fetch, enter_cached, queue, wait_for, started, start_data, unqueue, advance, look};
ghost use Rattle.file_views.specs.Entries.{cached_reply, enters_started, enters_data, enters_advance, enters_look};
ghost use Rattle.file_coherence.specs.Parts.{is_idle, appended};
ghost use Rattle.file_views.specs.declared.FileBody.TheVariants.{Value};

use crate::clients::{cached_bytes, do_cached, high_of, missing, new_client};
use crate::limits::{Limits, block_no, passes};
use crate::views::{
    begin, client_of, is_on_at, put_client, server, size_at, stamp_at, take_client,
};
use file_views::{Access, Entered, FileBody, FileStep, View};
use sprite_ids::{Bytes, Copying, Errno, Items, Kernel, NoMemory, Pid, StreamNo};
use std::alloc::Global;

// The operation by which a reading, writing or append goes to the server.
fn op_of(alloc: Global, stamp: u32, step: &FileStep) -> Result<FileBody, NoMemory>
    ensures { IfOk result (λ body. body ≡ op_of stamp step.now) }
{
    match step {
        FileStep::Reading {
            pid,
            number,
            stream,
            from,
            length,
            ..
        } => Ok(FileBody::Op {
            pid: *pid,
            number: *number,
            stamp,
            stream: *stream,
            access: Access::Read {
                from: *from,
                length: *length,
            },
        }),
        FileStep::Writing {
            pid,
            number,
            stream,
            from,
            bytes,
            ..
        } => Ok(FileBody::Op {
            pid: *pid,
            number: *number,
            stamp,
            stream: *stream,
            access: Access::Write {
                from: *from,
                bytes: bytes.copy(alloc)?,
            },
        }),
        FileStep::Append {
            pid,
            number,
            stream,
            bytes,
            ..
        } => Ok(FileBody::Op {
            pid: *pid,
            number: *number,
            stamp,
            stream: *stream,
            access: Access::Append {
                bytes: bytes.copy(alloc)?,
            },
        }),
        _ => Ok(FileBody::Done),
    }
}

// The reading, writing or append of an operation.
pub(crate) fn step_of(
    alloc: Global,
    pid: Pid,
    number: u32,
    kernel: Kernel,
    stream: StreamNo,
    access: &Access,
) -> Result<FileStep, NoMemory>
    ensures { IfOk result (λ step. step ≡ step_of pid number kernel stream access.now) }
{
    match access {
        Access::Read { from, length } => Ok(FileStep::Reading {
            pid,
            number,
            kernel,
            stream,
            from: *from,
            length: *length,
        }),
        Access::Write { from, bytes } => Ok(FileStep::Writing {
            pid,
            number,
            kernel,
            stream,
            from: *from,
            bytes: bytes.copy(alloc)?,
        }),
        Access::Append { bytes } => Ok(FileStep::Append {
            pid,
            number,
            kernel,
            stream,
            bytes: bytes.copy(alloc)?,
        }),
    }
}

// Sends the reading, writing or append to the server.
fn send_op(alloc: Global, view: &mut View, kernel: Kernel, step: &FileStep) -> Result<(), NoMemory>
    ensures { OnOk result (view.new ≡ send_op view.old kernel step.now) }
{
    let body = op_of(alloc, stamp_at(view, kernel), step)?;
    begin(view, kernel, server(), body, None)
}

// Asks for a block.
fn send_fetch(view: &mut View, kernel: Kernel, number: usize) -> Result<(), NoMemory>
    ensures { OnOk result (view.new ≡ send_fetch view.old kernel number) }
{
    let body = FileBody::Fetch {
        stamp: stamp_at(view, kernel),
        block: block_no(number)?,
    };
    begin(view, kernel, server(), body, None)
}

// Does the reading, writing or append in the cache.
fn enter_cached(
    alloc: Global,
    limits: &Limits,
    view: &mut View,
    kernel: Kernel,
    step: &FileStep,
) -> Result<(), NoMemory>
    ensures { OnOk result (view.new ≡ enter_cached limits.now view.old kernel step.now) }
{
    let mut client = take_client(alloc, view, kernel);
    do_cached(alloc, limits, &mut client, step)?;
    put_client(view, kernel, client);
    Ok(())
}

// It waits at its kernel, behind others.
fn queue(alloc: Global, view: &mut View, kernel: Kernel, step: &FileStep) -> Result<(), NoMemory>
    ensures { OnOk result (view.new ≡ queue view.old kernel step.now) }
{
    let mut client = take_client(alloc, view, kernel);
    client.waiting.push(step.copy(alloc)?)?;
    put_client(view, kernel, client);
    Ok(())
}

// Copies of the readings, writings and appends that wait at the kernel.
fn waiting_at(alloc: Global, view: &View, kernel: Kernel) -> Result<Items<FileStep>, NoMemory>
    ensures { IfOk result (λ waiting. waiting ≡ (client view.now kernel).waiting) }
{
    match client_of(view, kernel) {
        Some(client) => client.waiting.copy(alloc),
        None => Ok(Items::new(alloc)),
    }
}

// Whether nothing waits at the kernel.
fn is_idle(view: &View, kernel: Kernel) -> bool
    ensures { result ≡ is_idle (client view.now kernel).waiting }
{
    match client_of(view, kernel) {
        Some(client) => client.waiting.is_empty(),
        None => true,
    }
}

// It waits for a block; the first that waits asks for its own.
fn wait_for(
    alloc: Global,
    view: &mut View,
    kernel: Kernel,
    step: &FileStep,
    number: usize,
) -> Result<(), NoMemory>
    ensures { OnOk result (view.new ≡ wait_for view.old kernel step.now number (client view.old kernel).waiting) }
{
    let idle = is_idle(view, kernel);
    queue(alloc, view, kernel, step)?;
    if !idle {
        return Ok(());
    }
    send_fetch(view, kernel, number)
}

// The first block that must come in before it is done in the kernel's cache.
fn missing_at(
    alloc: Global,
    limits: &Limits,
    view: &View,
    kernel: Kernel,
    step: &FileStep,
) -> Result<Option<usize>, NoMemory>
    ensures { IfOk result (λ number. number ≡ missing limits.now (client view.now kernel) step.now) }
{
    match client_of(view, kernel) {
        Some(client) => missing(alloc, limits, client, step),
        None => missing(alloc, limits, &new_client(alloc), step),
    }
}

// The bytes that the kernel reads in its cache.
fn bytes_at(
    alloc: Global,
    limits: &Limits,
    view: &View,
    kernel: Kernel,
    low: usize,
    high: usize,
) -> Result<Bytes, NoMemory>
    ensures { IfOk result (λ bytes. bytes ≡ cached_bytes limits.now (client view.now kernel) low high) }
{
    match client_of(view, kernel) {
        Some(client) => cached_bytes(alloc, limits, client, low, high),
        None => cached_bytes(alloc, limits, &new_client(alloc), low, high),
    }
}

// What answers so many bytes alone.
pub(crate) fn counted(alloc: Global, count: usize) -> FileBody
    ensures { result ≡ Value count 0 [] }
{
    FileBody::Value {
        first: count as u64,
        second: 0,
        bytes: Bytes::new(alloc),
    }
}

// What answers a reading.
pub(crate) fn read_reply(bytes: Bytes) -> FileBody
    ensures { result ≡ Value (length bytes) 0 bytes }
{
    FileBody::Value {
        first: bytes.len() as u64,
        second: 0,
        bytes,
    }
}

// What a reading, writing or append in the cache is answered.
fn cached_reply(
    alloc: Global,
    limits: &Limits,
    view: &View,
    kernel: Kernel,
    step: &FileStep,
) -> Result<FileBody, NoMemory>
    ensures { IfOk result (λ reply. reply ≡ cached_reply limits.now view.now kernel step.now) }
{
    let size = size_at(view, kernel) as usize;
    match step {
        FileStep::Reading { from, .. } => {
            let high = high_of(size, step)?;
            let bytes = bytes_at(alloc, limits, view, kernel, *from as usize, high)?;
            Ok(read_reply(bytes))
        }
        FileStep::Writing { bytes, .. } => Ok(counted(alloc, bytes.len())),
        FileStep::Append { bytes, .. } => Ok(appended(alloc, limits, size, bytes.len())),
        _ => Ok(FileBody::Done),
    }
}

// What an append of so many bytes in the cache is answered.
fn appended(alloc: Global, limits: &Limits, size: usize, count: usize) -> FileBody
    ensures { result ≡ appended limits.now size count }
{
    if passes(size, count, limits.most()) {
        return FileBody::Refused {
            errno: Errno::TooBig,
        };
    }
    counted(alloc, count)
}

// Notes what takes effect, and is answered so.
pub(crate) fn note(
    entered: &mut Items<Entered>,
    kernel: Kernel,
    step: FileStep,
    reply: FileBody,
) -> Result<(), NoMemory>
    ensures { OnOk result (entered.new ≡ entered.old ++ record { kernel = kernel; step = step; reply = reply } ∷ []) }
{
    entered.push(Entered {
        kernel,
        step,
        reply,
    })
}

// It takes effect in the cache.
fn enter(
    alloc: Global,
    limits: &Limits,
    view: &mut View,
    kernel: Kernel,
    step: &FileStep,
    entered: &mut Items<Entered>,
) -> Result<(), NoMemory>
    ensures view { OnOk result (view.new ≡ enter_cached limits.now view.old kernel step.now) }
    ensures entered { OnOk result (entered.new ≡ entered.old ++ record { kernel = kernel; step = step.now; reply = cached_reply limits.now view.old kernel step.now } ∷ []) }
{
    let reply = cached_reply(alloc, limits, view, kernel, step)?;
    note(entered, kernel, step.copy(alloc)?, reply)?;
    enter_cached(alloc, limits, view, kernel, step)
}

// A reading, writing or append begins, or begins again: in the cache, where the kernel uses it and no block is missing.
pub(crate) fn start_data(
    alloc: Global,
    limits: &Limits,
    view: &mut View,
    kernel: Kernel,
    step: &FileStep,
    entered: &mut Items<Entered>,
) -> Result<(), NoMemory>
    ensures view { OnOk result (view.new ≡ start_data limits.now view.old kernel step.now) }
    ensures entered { OnOk result (entered.new ≡ entered.old ++ enters_data limits.now view.old kernel step.now) }
{
    let on = is_on_at(view, kernel);
    let gap = missing_at(alloc, limits, view, kernel, step)?;
    start(alloc, limits, view, kernel, step, on, gap, entered)
}

fn start(
    alloc: Global,
    limits: &Limits,
    view: &mut View,
    kernel: Kernel,
    step: &FileStep,
    on: bool,
    gap: Option<usize>,
    entered: &mut Items<Entered>,
) -> Result<(), NoMemory>
    ensures view { OnOk result (view.new ≡ started limits.now view.old kernel step.now on gap) }
    ensures entered { OnOk result (entered.new ≡ entered.old ++ enters_started limits.now view.old kernel step.now on gap) }
{
    if !on {
        return send_op(alloc, view, kernel, step);
    }
    match gap {
        Some(number) => wait_for(alloc, view, kernel, step, number),
        None => enter(alloc, limits, view, kernel, step, entered),
    }
}

// These are left to wait.
fn unqueue(
    alloc: Global,
    view: &mut View,
    kernel: Kernel,
    rest: &[FileStep],
) -> Result<(), NoMemory>
    ensures { OnOk result (view.new ≡ unqueue view.old kernel rest.now) }
{
    let mut client = take_client(alloc, view, kernel);
    client.waiting = copies_of(alloc, rest)?;
    put_client(view, kernel, client);
    Ok(())
}

fn copies_of(alloc: Global, steps: &[FileStep]) -> Result<Items<FileStep>, NoMemory>
    ensures { IfOk result (λ copies. copies ≡ steps.now) }
{
    let mut copies = Items::new(alloc);
    for step in steps {
        copies.push(step.copy(alloc)?)?;
    }
    Ok(copies)
}

// The first that waits takes effect in the cache, and these are left to wait.
fn enter_first(
    alloc: Global,
    limits: &Limits,
    view: &mut View,
    kernel: Kernel,
    step: &FileStep,
    rest: &[FileStep],
    entered: &mut Items<Entered>,
) -> Result<(), NoMemory>
    ensures view { OnOk result (view.new ≡ enter_cached limits.now (unqueue view.old kernel rest.now) kernel step.now) }
    ensures entered { OnOk result (entered.new ≡ entered.old ++ record { kernel = kernel; step = step.now; reply = cached_reply limits.now view.old kernel step.now } ∷ []) }
{
    let reply = cached_reply(alloc, limits, view, kernel, step)?;
    note(entered, kernel, step.copy(alloc)?, reply)?;
    unqueue(alloc, view, kernel, rest)?;
    enter_cached(alloc, limits, view, kernel, step)
}

// What waits looks again, one after another, until one asks for a block.
fn advance(
    alloc: Global,
    limits: &Limits,
    waiting: &[FileStep],
    view: &mut View,
    kernel: Kernel,
    entered: &mut Items<Entered>,
) -> Result<(), NoMemory>
    ensures view { OnOk result (view.new ≡ advance limits.now waiting.now view.old kernel) }
    ensures entered { OnOk result (entered.new ≡ entered.old ++ enters_advance limits.now waiting.now view.old kernel) }
{
    let [step, rest @ ..] = waiting else {
        return Ok(());
    };
    let on = is_on_at(view, kernel);
    let gap = missing_at(alloc, limits, view, kernel, step)?;
    if !on {
        unqueue(alloc, view, kernel, rest)?;
        send_op(alloc, view, kernel, step)?;
        return advance(alloc, limits, rest, view, kernel, entered);
    }
    if let Some(number) = gap {
        return send_fetch(view, kernel, number);
    }
    enter_first(alloc, limits, view, kernel, step, rest, entered)?;
    advance(alloc, limits, rest, view, kernel, entered)
}

// What waits at the kernel looks again.
pub(crate) fn look(
    alloc: Global,
    limits: &Limits,
    view: &mut View,
    kernel: Kernel,
    entered: &mut Items<Entered>,
) -> Result<(), NoMemory>
    ensures view { OnOk result (view.new ≡ look limits.now view.old kernel) }
    ensures entered { OnOk result (entered.new ≡ entered.old ++ enters_look limits.now view.old kernel) }
{
    let waiting = waiting_at(alloc, view, kernel)?;
    advance(alloc, limits, waiting.as_slice(), view, kernel, entered)
}
