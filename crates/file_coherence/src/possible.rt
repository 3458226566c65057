ghost use Rattle.std.specs.Prelude.{◌≡◌, ◌==◌, ◌&&◌, ◌||◌, nat_le, not, IfOk, option_map, is_some, ◌+◌};
ghost use Rattle.std.specs.List.{list_any, list_all};
ghost use Rattle.file_views.specs.Streams.{reads, writes, same_stream, has_stream, stream_mode};
ghost use Rattle.file_views.specs.Clients.{held};
ghost use Rattle.file_views.specs.Views.{client, find_call, find_carried};
ghost use Rattle.file_views.specs.Possible.{top, has_room, is_client, is_about, works_on, is_in_use, is_named, is_free, is_opened_to, is_free_to, is_write_back, has_write_back, is_filling, may_write_back, is_due, is_unfinished, may_do, possible};
ghost use Rattle.file_views.specs.declared.Open.{Open};
ghost use Rattle.file_views.specs.declared.Client.{Client};
ghost use Rattle.file_views.specs.declared.FileCall.{FileCall};
ghost use Rattle.file_views.specs.declared.Carry.{Carry};

use crate::blocks::held;
use crate::clients::range_of;
use crate::limits::{Limits, passes};
use crate::streams::{has_stream, reads, same_stream, stream_mode, writes};
use crate::views::{client_of, find_call, find_carried, last_given, stamp_at};
use file_views::{Carry, Client, FileBody, FileCall, FileStep, Open, View};
use sprite_ids::{Kernel, Mode, NoMemory, StreamNo};
use std::alloc::Global;

// The most that a stamp, a version, an open's count, or the number of a call or a dirty block may be for a step to be possible.
const TOP: u32 = 2_000_000_000;

fn counts_fit(opens: &[Open]) -> bool
    ensures { result ≡ list_all (λ (one : Open). nat_le one.count top) opens.now }
{
    opens.iter().all(|one| one.count <= TOP)
}

fn dirty_counts_fit(clients: &[Client]) -> bool
    ensures { result ≡ list_all (λ (c : Client). nat_le c.count top) clients.now }
{
    clients.iter().all(|client| client.count <= u64::from(TOP))
}

/// Whether no number of the view is over 2,000,000,000, the most with which a step is possible.
pub fn has_room(view: &View) -> bool
    ensures { result ≡ has_room view.now }
{
    let counts = counts_fit(view.opens.as_slice());
    let dirty = dirty_counts_fit(view.clients.as_slice());
    last_given(view) <= TOP && (view.version <= TOP && (view.next <= TOP && (counts && dirty)))
}

// Whether the kernel is a client.
fn is_client(view: &View, kernel: Kernel) -> bool
    ensures { result ≡ is_client view.now kernel }
{
    usize::from(kernel.number()) <= view.clients.len()
}

// Whether a request is about the stream.
fn is_about(stream: &StreamNo, body: &FileBody) -> bool
    ensures { result ≡ is_about stream.now body.now }
{
    match body {
        FileBody::Opening { stream: other, .. } => same_stream(stream, other),
        FileBody::Close { stream: other, .. } => same_stream(stream, other),
        FileBody::Op { stream: other, .. } => same_stream(stream, other),
        FileBody::Move { stream: other, .. } => same_stream(stream, other),
        _ => false,
    }
}

// Whether a reading, writing or append is about the stream.
fn works_on(stream: &StreamNo, step: &FileStep) -> bool
    ensures { result ≡ works_on stream.now step.now }
{
    match step {
        FileStep::Reading { stream: other, .. } => same_stream(stream, other),
        FileStep::Writing { stream: other, .. } => same_stream(stream, other),
        FileStep::Append { stream: other, .. } => same_stream(stream, other),
        _ => false,
    }
}

fn any_work(stream: &StreamNo, waiting: &[FileStep]) -> bool
    ensures { result ≡ list_any (works_on stream.now) waiting.now }
{
    waiting.iter().any(|step| works_on(stream, step))
}

fn is_kernels_about(kernel: Kernel, stream: &StreamNo, one: &FileCall) -> bool
    ensures { result ≡ ((one.now.from == kernel) && is_about stream.now one.now.body) }
{
    one.from == kernel && is_about(stream, &one.body)
}

fn any_kernels_about(kernel: Kernel, stream: &StreamNo, calls: &[FileCall]) -> bool
    ensures { result ≡ list_any (λ (one : FileCall). (one.from == kernel) && is_about stream.now one.body) calls.now }
{
    calls
        .iter()
        .any(|one| is_kernels_about(kernel, stream, one))
}

fn any_work_at(view: &View, kernel: Kernel, stream: &StreamNo) -> bool
    ensures { result ≡ list_any (works_on stream.now) (client view.now kernel).waiting }
{
    match client_of(view, kernel) {
        Some(client) => any_work(stream, client.waiting.as_slice()),
        None => false,
    }
}

// Whether an unfinished call of the kernel, or what waits there, is about the stream.
fn is_in_use(view: &View, kernel: Kernel, stream: &StreamNo) -> bool
    ensures { result ≡ is_in_use view.now kernel stream.now }
{
    let called = any_kernels_about(kernel, stream, view.calls.as_slice());
    let waited = any_work_at(view, kernel, stream);
    called || waited
}

fn any_open(stream: &StreamNo, opens: &[Open]) -> bool
    ensures { result ≡ list_any (λ (one : Open). same_stream stream.now one.stream) opens.now }
{
    opens.iter().any(|one| same_stream(stream, &one.stream))
}

fn any_about(stream: &StreamNo, calls: &[FileCall]) -> bool
    ensures { result ≡ list_any (λ (one : FileCall). is_about stream.now one.body) calls.now }
{
    calls.iter().any(|one| is_about(stream, &one.body))
}

fn any_carried(stream: &StreamNo, carried: &[Carry]) -> bool
    ensures { result ≡ list_any (λ (one : Carry). same_stream stream.now one.stream) carried.now }
{
    carried.iter().any(|one| same_stream(stream, &one.stream))
}

fn names(stream: &StreamNo, client: &Client) -> bool
    ensures { result ≡ (has_stream stream.now client.now.streams || list_any (works_on stream.now) client.now.waiting) }
{
    let installed = has_stream(stream, client.streams.as_slice());
    let waited = any_work(stream, client.waiting.as_slice());
    installed || waited
}

fn any_names(stream: &StreamNo, clients: &[Client]) -> bool
    ensures { result ≡ list_any (λ (c : Client). has_stream stream.now c.streams || list_any (works_on stream.now) c.waiting) clients.now }
{
    clients.iter().any(|client| names(stream, client))
}

/// Whether anything in the view names the stream.
pub fn is_named(view: &View, stream: &StreamNo) -> bool
    ensures { result ≡ is_named view.now stream.now }
{
    let shared = has_stream(stream, view.shared.as_slice());
    let opened = any_open(stream, view.opens.as_slice());
    let called = any_about(stream, view.calls.as_slice());
    let carried = any_carried(stream, view.carried.as_slice());
    let known = any_names(stream, view.clients.as_slice());
    shared || (opened || (called || (carried || known)))
}

fn is_installed(view: &View, kernel: Kernel, stream: &StreamNo) -> bool
    ensures { result ≡ has_stream stream.now (client view.now kernel).streams }
{
    match client_of(view, kernel) {
        Some(client) => has_stream(stream, client.streams.as_slice()),
        None => false,
    }
}

// Whether the stream is installed at the kernel, and nothing there is about it.
fn is_free(view: &View, kernel: Kernel, stream: &StreamNo) -> bool
    ensures { result ≡ is_free view.now kernel stream.now }
{
    let installed = is_installed(view, kernel, stream);
    let used = is_in_use(view, kernel, stream);
    is_client(view, kernel) && (installed && !used)
}

// Whether it is free, and open for reading.
fn is_free_to_read(view: &View, kernel: Kernel, stream: &StreamNo) -> bool
    ensures { result ≡ is_free_to reads view.now kernel stream.now }
{
    let may = may_read(stream_mode(view.opens.as_slice(), stream));
    is_free(view, kernel, stream) && may
}

fn may_read(mode: Option<Mode>) -> bool
    ensures { result ≡ is_opened_to reads mode }
{
    match mode {
        Some(mode) => reads(mode),
        None => false,
    }
}

// Whether it is free, and open for writing.
fn is_free_to_write(view: &View, kernel: Kernel, stream: &StreamNo) -> bool
    ensures { result ≡ is_free_to writes view.now kernel stream.now }
{
    let may = may_write(stream_mode(view.opens.as_slice(), stream));
    is_free(view, kernel, stream) && may
}

fn may_write(mode: Option<Mode>) -> bool
    ensures { result ≡ is_opened_to writes mode }
{
    match mode {
        Some(mode) => writes(mode),
        None => false,
    }
}

// Whether a request is a write-back of that block with that stamp.
fn is_write_back(stamp: u32, number: usize, body: &FileBody) -> bool
    ensures { result ≡ is_write_back stamp number body.now }
{
    match body {
        FileBody::WriteBack {
            stamp: other,
            block,
            ..
        } => *other == stamp && usize::from(block.0) == number,
        _ => false,
    }
}

fn is_kernels_write_back(kernel: Kernel, stamp: u32, number: usize, one: &FileCall) -> bool
    ensures { result ≡ ((one.now.from == kernel) && is_write_back stamp number one.now.body) }
{
    one.from == kernel && is_write_back(stamp, number, &one.body)
}

fn any_write_back(kernel: Kernel, stamp: u32, number: usize, calls: &[FileCall]) -> bool
    ensures { result ≡ list_any (λ (one : FileCall). (one.from == kernel) && is_write_back stamp number one.body) calls.now }
{
    calls
        .iter()
        .any(|one| is_kernels_write_back(kernel, stamp, number, one))
}

// Whether the block has an unfinished write-back with its kernel's stamp.
fn has_write_back(view: &View, kernel: Kernel, number: usize) -> bool
    ensures { result ≡ has_write_back view.now kernel number }
{
    any_write_back(
        kernel,
        stamp_at(view, kernel),
        number,
        view.calls.as_slice(),
    )
}

fn has_number(numbers: &[usize], number: usize) -> bool
    ensures { result ≡ list_any (λ other. other == number) numbers.now }
{
    numbers.iter().any(|other| *other == number)
}

// Whether the block is one of those that the first that waits touches.
fn is_filling(
    alloc: Global,
    limits: &Limits,
    client: &Client,
    number: usize,
) -> Result<bool, NoMemory>
    ensures { IfOk result (λ filling. filling ≡ is_filling limits.now client.now.size client.now.waiting number) }
{
    match client.waiting.as_slice().first() {
        Some(first) => {
            let numbers = range_of(alloc, limits, client.size as usize, first)?;
            Ok(has_number(numbers.as_slice(), number))
        }
        None => Ok(false),
    }
}

// A dirty block may be sent that isn't on its way, and a clean one dropped that nothing waits for.
fn may_send_back(
    alloc: Global,
    limits: &Limits,
    view: &View,
    kernel: Kernel,
    number: usize,
) -> Result<bool, NoMemory>
    ensures { IfOk result (λ may. may ≡ may_write_back limits.now view.now kernel (held (client view.now kernel).blocks number)) }
{
    let Some(client) = client_of(view, kernel) else {
        return Ok(false);
    };
    let Some(one) = held(client.blocks.as_slice(), number) else {
        return Ok(false);
    };
    let block = usize::from(one.block.0);
    if one.dirty.is_some() {
        return Ok(!has_write_back(view, kernel, block));
    }
    Ok(!is_filling(alloc, limits, client, block)?)
}

fn may_come(one: &FileCall) -> bool
    ensures { result ≡ (not one.now.taken || is_some one.now.reply) }
{
    !one.taken || one.reply.is_some()
}

// Whether the call's request isn't taken yet, or its reply is made.
fn is_due(view: &View, number: u32) -> bool
    ensures { result ≡ is_due (find_carried view.now.carried number) (find_call view.now.calls number) }
{
    if find_carried(view.carried.as_slice(), number).is_some() {
        return true;
    }
    match find_call(view.calls.as_slice(), number) {
        Some(one) => may_come(one),
        None => false,
    }
}

// Whether the call isn't finished.
fn is_unfinished(view: &View, number: u32) -> bool
    ensures { result ≡ is_unfinished (find_carried view.now.carried number) (find_call view.now.calls number) }
{
    if find_carried(view.carried.as_slice(), number).is_some() {
        return true;
    }
    find_call(view.calls.as_slice(), number).is_some()
}

fn may_open(view: &View, kernel: Kernel, stream: &StreamNo, mode: Mode, truncate: bool) -> bool
    ensures { result ≡ (is_client view.now kernel && (not (is_named view.now stream.now) && (not truncate || writes mode))) }
{
    let named = is_named(view, stream);
    let fits = !truncate || writes(mode);
    is_client(view, kernel) && (!named && fits)
}

fn may_move(view: &View, stream: &StreamNo, from: Kernel, to: Kernel) -> bool
    ensures { result ≡ (is_free view.now from stream.now && (is_client view.now to && not (from == to))) }
{
    let target = is_client(view, to) && from != to;
    is_free(view, from, stream) && target
}

fn may_read_at(
    limits: &Limits,
    view: &View,
    kernel: Kernel,
    stream: &StreamNo,
    from: u32,
    length: u32,
) -> bool
    ensures { result ≡ (is_free_to reads view.now kernel stream.now && (nat_le length limits.now.moved && nat_le from limits.now.most)) }
{
    let within = length as usize <= limits.moved() && from as usize <= limits.most();
    is_free_to_read(view, kernel, stream) && within
}

fn may_write_at(
    limits: &Limits,
    view: &View,
    kernel: Kernel,
    stream: &StreamNo,
    from: u32,
    bytes: usize,
) -> bool
    ensures { result ≡ (is_free_to writes view.now kernel stream.now && (nat_le bytes limits.now.moved && nat_le (from + bytes) limits.now.most)) }
{
    let within = bytes <= limits.moved() && !passes(from as usize, bytes, limits.most());
    is_free_to_write(view, kernel, stream) && within
}

fn may_append(limits: &Limits, view: &View, kernel: Kernel, stream: &StreamNo, bytes: usize) -> bool
    ensures { result ≡ (is_free_to writes view.now kernel stream.now && nat_le bytes limits.now.moved) }
{
    let within = bytes <= limits.moved();
    is_free_to_write(view, kernel, stream) && within
}

// Whether the step may be done, by its kind, where the numbers have room.
fn may_do(alloc: Global, limits: &Limits, view: &View, step: &FileStep) -> Result<bool, NoMemory>
    ensures { IfOk result (λ may. may ≡ may_do limits.now view.now step.now) }
{
    match step {
        FileStep::Opening {
            kernel,
            stream,
            mode,
            truncate,
            ..
        } => Ok(may_open(view, *kernel, stream, *mode, *truncate)),
        FileStep::Closing { kernel, stream } => Ok(is_free(view, *kernel, stream)),
        FileStep::Moving {
            stream,
            from,
            to,
            ..
        } => Ok(may_move(view, stream, *from, *to)),
        FileStep::Reading {
            kernel,
            stream,
            from,
            length,
            ..
        } => Ok(may_read_at(limits, view, *kernel, stream, *from, *length)),
        FileStep::Writing {
            kernel,
            stream,
            from,
            bytes,
            ..
        } => Ok(may_write_at(limits, view, *kernel, stream, *from, bytes.len())),
        FileStep::Append {
            kernel,
            stream,
            bytes,
            ..
        } => Ok(may_append(limits, view, *kernel, stream, bytes.len())),
        FileStep::WritingBack { kernel, block } => {
            let may = may_send_back(alloc, limits, view, *kernel, usize::from(block.0))?;
            Ok(is_client(view, *kernel) && may)
        }
        FileStep::Delivering { call } => Ok(is_due(view, *call)),
        FileStep::Expiring { call } => Ok(is_unfinished(view, *call)),
    }
}

// Whether the step is possible.
pub(crate) fn is_possible(
    alloc: Global,
    limits: &Limits,
    view: &View,
    step: &FileStep,
) -> Result<bool, NoMemory>
    ensures { IfOk result (λ may. may ≡ possible limits.now view.now step.now) }
{
    if !has_room(view) {
        return Ok(false);
    }
    may_do(alloc, limits, view, step)
}
