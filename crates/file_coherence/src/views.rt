ghost use Rattle.std.specs.Prelude.{◌≡◌, ◌-◌, ◌<◌, ◌==◌, IfOk, IfSome, IfNone, OnOk, option_map, slice_index_or, slice_set, filter, true, length, List};
ghost use Rattle.std.specs.List.{list_any};
ghost use Rattle.file_views.specs.Clients.{is_on, new_client};
ghost use Rattle.file_views.specs.Views.{server, client, set_client, current_stamp, mode_given, grant_given, is_holder, is_kernel, last_stamp, greatest, find_call, without_call, with_call, find_carried, without_carried, begin, replied, answer, remove_call, to_the_end, is_callback, busy, waits, waiting_calls};
ghost use Rattle.file_coherence.specs.Parts.{in_place};
ghost use Rattle.file_views.specs.declared.FileCall.{FileCall};
ghost use Rattle.file_views.specs.declared.Client.{Client};

use crate::clients::{is_on, new_client};
use crate::limits::next;
use crate::lists::{item_or, place, put_at};
use file_views::{Carry, Client, FileBody, FileCall, FileGrant, View};
use sprite_ids::{CacheMode, Copying, Items, Kernel, NoMemory};
use std::alloc::Global;

// The server's kernel.
pub(crate) fn server() -> Kernel
    ensures { result ≡ server }
{
    match Kernel::new(16) {
        Some(kernel) => kernel,
        None => unreachable!(),
    }
}

// Takes out what the kernel keeps, with a new client in its place until it is put back.
pub(crate) fn take_client(alloc: Global, view: &mut View, kernel: Kernel) -> Client
    ensures client { result ≡ client view.old kernel }
    ensures view { (c : Client) → set_client view.new kernel c ≡ set_client view.old kernel c }
{
    let at = place(kernel);
    if view.clients.len() <= at {
        return new_client(alloc);
    }
    view.clients.replace(at, new_client(alloc))
}

pub(crate) fn put_client(view: &mut View, kernel: Kernel, client: Client)
    ensures { view.new ≡ set_client view.old kernel client }
{
    put_at(&mut view.clients, place(kernel), client);
}

// What the kernel keeps; None where it isn't a client.
pub(crate) fn client_of(view: &View, kernel: Kernel) -> Option<&Client>
    ensures some { IfSome result (λ c. c.now ≡ client view.now kernel) }
    ensures none { IfNone result (client view.now kernel ≡ new_client) }
{
    let at = place(kernel);
    if view.clients.len() <= at {
        return None;
    }
    Some(view.clients.at(at))
}

// The client's stamp.
pub(crate) fn stamp_at(view: &View, kernel: Kernel) -> u32
    ensures { result ≡ (client view.now kernel).stamp }
{
    match client_of(view, kernel) {
        Some(client) => client.stamp,
        None => 0,
    }
}

// The client's size of the file.
pub(crate) fn size_at(view: &View, kernel: Kernel) -> u32
    ensures { result ≡ (client view.now kernel).size }
{
    match client_of(view, kernel) {
        Some(client) => client.size,
        None => 0,
    }
}

// Whether the client uses its cache.
pub(crate) fn is_on_at(view: &View, kernel: Kernel) -> bool
    ensures { result ≡ is_on (client view.now kernel).mode }
{
    match client_of(view, kernel) {
        Some(client) => is_on(client.mode),
        None => false,
    }
}

// The kernel's current stamp.
pub(crate) fn current_stamp(view: &View, kernel: Kernel) -> u32
    ensures { result ≡ current_stamp view.now kernel }
{
    item_or(view.stamps.as_slice(), place(kernel), 0)
}

// The mode given last to the kernel.
pub(crate) fn mode_given(view: &View, kernel: Kernel) -> CacheMode
    ensures { result ≡ mode_given view.now kernel }
{
    item_or(view.modes.as_slice(), place(kernel), CacheMode::None)
}

// The grant given last to the kernel.
pub(crate) fn grant_given(view: &View, kernel: Kernel) -> Option<FileGrant>
    ensures { result ≡ grant_given view.now kernel }
{
    item_or(view.given.as_slice(), place(kernel), None)
}

// Whether a looked-up kernel is that one.
fn is_kernel(kernel: Kernel, other: Option<Kernel>) -> bool
    ensures { result ≡ is_kernel kernel other }
{
    match other {
        Some(other) => other == kernel,
        None => false,
    }
}

// Whether the kernel is the holder.
pub(crate) fn is_holder(view: &View, kernel: Kernel) -> bool
    ensures { result ≡ is_holder view.now kernel }
{
    is_kernel(kernel, view.holder)
}

// The greatest of the stamps, 0 where there is none.
fn last_stamp(stamps: &[u32]) -> u32
    ensures { result ≡ greatest stamps.now }
{
    let mut last = 0;
    for stamp in stamps {
        last = last.max(*stamp);
    }
    last
}

/// The stamp given last: it is the current one of the kernel that got it.
pub fn last_given(view: &View) -> u32
    ensures { result ≡ last_stamp view.now }
{
    last_stamp(view.stamps.as_slice())
}

// The call with that number.
pub(crate) fn find_call(calls: &[FileCall], number: u32) -> Option<&FileCall>
    ensures { option_map (λ one. one.now) result ≡ find_call calls.now number }
{
    for one in calls {
        if one.number == number {
            return Some(one);
        }
    }
    None
}

// The carried stream of the move with that number.
pub(crate) fn find_carried(carried: &[Carry], number: u32) -> Option<Carry>
    ensures { result ≡ find_carried carried.now number }
{
    for one in carried {
        if one.call == number {
            return Some(*one);
        }
    }
    None
}

// The other carried streams are left.
pub(crate) fn drop_carried(alloc: Global, carried: &mut Items<Carry>, number: u32)
    ensures { carried.new ≡ without_carried number carried.old }
{
    let mut list = std::mem::replace(carried, Items::new(alloc)).into_vec();
    keep_carried(&mut list, number);
    *carried = Items::of_vec(list);
}

fn keep_carried(carried: &mut Vec<Carry>, number: u32)
    ensures { carried.new.items ≡ without_carried number carried.old.items }
{
    carried.retain(|one| one.call != number);
}

// The other calls are left.
fn drop_call(alloc: Global, calls: &mut Items<FileCall>, number: u32)
    ensures { calls.new ≡ without_call number calls.old }
{
    let mut list = std::mem::replace(calls, Items::new(alloc)).into_vec();
    keep_calls(&mut list, number);
    *calls = Items::of_vec(list);
}

fn keep_calls(calls: &mut Vec<FileCall>, number: u32)
    ensures { calls.new.items ≡ without_call number calls.old.items }
{
    calls.retain(|one| one.number != number);
}

// The call is finished.
pub(crate) fn remove_call(alloc: Global, view: &mut View, number: u32)
    ensures { view.new ≡ remove_call view.old number }
{
    drop_call(alloc, &mut view.calls, number);
}

// A call begins, with the next number.
pub(crate) fn begin(
    view: &mut View,
    from: Kernel,
    to: Kernel,
    body: FileBody,
    dirty: Option<u64>,
) -> Result<(), NoMemory>
    ensures { OnOk result (view.new ≡ begin view.old from to body dirty) }
{
    let number = view.next;
    view.next = next(number)?;
    view.calls.push(FileCall {
        number,
        from,
        to,
        body,
        dirty,
        taken: false,
        reply: None,
    })
}

// A copy of the call, taken, and with that reply.
fn copy_taken(alloc: Global, one: &FileCall, reply: &Option<FileBody>) -> Result<FileCall, NoMemory>
    ensures { IfOk result (λ call. call ≡ record one.now { taken = true; reply = reply.now }) }
{
    Ok(FileCall {
        number: one.number,
        from: one.from,
        to: one.to,
        body: one.body.copy(alloc)?,
        dirty: one.dirty,
        taken: true,
        reply: reply.copy(alloc)?,
    })
}

// The call is taken, and answered.
pub(crate) fn answer(
    alloc: Global,
    view: &mut View,
    one: &FileCall,
    reply: FileBody,
) -> Result<(), NoMemory>
    ensures { OnOk result (view.new ≡ answer view.old one.now reply) }
{
    let new = copy_taken(alloc, one, &Some(reply))?;
    put_call(alloc, &mut view.calls, &new)
}

// Puts a copy of the call in the place of the one with its number.
fn put_call(alloc: Global, calls: &mut Items<FileCall>, new: &FileCall) -> Result<(), NoMemory>
    ensures { OnOk result (calls.new ≡ with_call new.now calls.old) }
{
    for at in 0..calls.len() {
        put_call_at(alloc, calls, at, new)?;
    }
    Ok(())
}

fn put_call_at(
    alloc: Global,
    calls: &mut Items<FileCall>,
    at: usize,
    new: &FileCall,
) -> Result<(), NoMemory>
    requires { at < length calls.old }
    ensures { (d : FileCall) → OnOk result (calls.new ≡ slice_set calls.old at (in_place new.now (slice_index_or calls.old at d))) }
{
    if calls.at(at).number == new.number {
        put_at(calls, at, new.copy(alloc)?);
    }
    Ok(())
}

// A call that its receiver takes stands behind those that were taken before.
pub(crate) fn to_the_end(alloc: Global, view: &mut View, one: &FileCall) -> Result<(), NoMemory>
    ensures { OnOk result (view.new ≡ to_the_end view.old one.now) }
{
    drop_call(alloc, &mut view.calls, one.number);
    view.calls.push(taken_copy(alloc, one)?)
}

// A copy of the call, taken.
pub(crate) fn taken_copy(alloc: Global, one: &FileCall) -> Result<FileCall, NoMemory>
    ensures { IfOk result (λ call. call ≡ record one.now { taken = true }) }
{
    copy_taken(alloc, one, &one.reply)
}

fn is_callback(body: &FileBody) -> bool
    ensures { result ≡ is_callback body.now }
{
    match body {
        FileBody::Callback { .. } => true,
        _ => false,
    }
}

// A file is busy while a callback is out.
pub(crate) fn is_busy(view: &View) -> bool
    ensures { result ≡ busy view.now }
{
    any_callback(view.calls.as_slice())
}

fn any_callback(calls: &[FileCall]) -> bool
    ensures { result ≡ list_any (λ (one : FileCall). is_callback one.body) calls.now }
{
    calls.iter().any(|one| is_callback(&one.body))
}

// A request that waits at the server is taken and has no reply.
fn waits(one: &FileCall) -> bool
    ensures { result ≡ waits one.now }
{
    one.taken && one.reply.is_none()
}

// Copies of what waits at the server, in order of arrival.
pub(crate) fn waiting_calls(alloc: Global, calls: &[FileCall]) -> Result<Items<FileCall>, NoMemory>
    ensures { IfOk result (λ waiting. waiting ≡ filter waits calls.now) }
{
    let mut waiting = Items::new(alloc);
    for one in calls {
        if waits(one) {
            waiting.push(one.copy(alloc)?)?;
        }
    }
    Ok(waiting)
}
