ghost use Rattle.std.specs.Prelude.{◌≡◌, ◌-◌, ◌&&◌, ◌||◌, None, option_map, not, false, slice_index_or, slice_set, IfOk, OnOk};
ghost use Rattle.std.specs.List.{list_any};
ghost use Rattle.file_views.specs.Setting.{sprite_setting};
ghost use Rattle.file_views.specs.Views.{is_callback, busy};
ghost use Rattle.file_views.specs.Here.{target, about};
ghost use Rattle.file_views.specs.Clients.{granted, install, new_client};
ghost use Rattle.file_views.specs.Serving.{store_blocks};
ghost use Rattle.restart_views.specs.ServerMoves.{off_grant, greeted, reopened, is_quiet};
ghost use Rattle.restart_views.specs.Restarts.{claims_at, is_unclaimed, is_refused, greet, reopen, reopen_all, claimed, tried, stays_uncached};
ghost use Rattle.file_views.specs.declared.FileCall.{FileCall};

use crate::lists::{is_any, put_at};
use file_coherence::{is_named, last_given, store_pieces};
use file_views::{Client, FileBody, FileCall, FileGrant, Open, View};
use restart_views::Kept;
use sprite_ids::{CacheMode, Copying, Items, Kernel, NoMemory, StreamNo};
use std::alloc::Global;

// Whether some kernel keeps something by itself.
pub(crate) fn is_unclaimed(kept: &[Option<Kept>]) -> bool
    ensures { result ≡ is_unclaimed kept.now }
{
    kept.iter().any(|one| one.is_some())
}

// The place of the client's kernel in the lists of clients: kernels count from 1.
pub(crate) fn place(kernel: Kernel) -> usize
    ensures { result ≡ kernel - 1 }
{
    usize::from(kernel.number()) - 1
}

// What is kept at that place.
fn kept_at(kept: &[Option<Kept>], at: usize) -> Option<&Kept>
    ensures { option_map (λ one. one.now) result ≡ slice_index_or kept.now at None }
{
    if at < kept.len() {
        kept[at].as_ref()
    } else {
        None
    }
}

/// What the kernel has to tell.
pub(crate) fn claims_at(kept: &[Option<Kept>], kernel: Kernel) -> Option<&Kept>
    ensures { option_map (λ one. one.now) result ≡ claims_at kept.now kernel }
{
    kept_at(kept, place(kernel))
}

// Whether the kernel has dirty blocks of another version than the server's.
pub(crate) fn is_refused(view: &View, kept: &Kept) -> bool
    ensures { result ≡ is_refused view.now kept.now }
{
    is_any(kept.blocks.as_slice()) && kept.version != view.version
}

// The number of the target of a move, 0 of another request.
fn target(body: &FileBody) -> u8
    ensures { result ≡ target body.now }
{
    match body {
        FileBody::Move { to, .. } => to.number(),
        _ => 0,
    }
}

// Whether the call is of the kernel, to it, or a move to it.
fn is_about(kernel: u8, one: &FileCall) -> bool
    ensures { result ≡ about kernel one.now }
{
    one.from.number() == kernel || (one.to.number() == kernel || target(&one.body) == kernel)
}

fn any_about(kernel: u8, calls: &[FileCall]) -> bool
    ensures { result ≡ list_any (about kernel) calls.now }
{
    calls.iter().any(|one| is_about(kernel, one))
}

fn is_quiet(view: &View, kernel: Kernel) -> bool
    ensures { result ≡ is_quiet view.now kernel }
{
    !is_any(view.carried.as_slice()) && !any_about(kernel.number(), view.calls.as_slice())
}

fn is_callback(body: &FileBody) -> bool
    ensures { result ≡ is_callback body.now }
{
    matches!(body, FileBody::Callback { .. })
}

fn is_busy(view: &View) -> bool
    ensures { result ≡ busy view.now }
{
    view.calls
        .as_slice()
        .iter()
        .any(|one| is_callback(&one.body))
}

// The grant of a kernel that tells again what it has open.
fn off_grant(view: &View) -> Result<FileGrant, NoMemory>
    ensures { IfOk result (λ grant. grant ≡ off_grant view.now) }
{
    let stamp = last_given(view).checked_add(1).ok_or(NoMemory)?;
    let size = u32::try_from(view.bytes.len()).or(Err(NoMemory))?;
    Ok(FileGrant {
        stamp,
        old: view.version,
        new: view.version,
        size,
        on: false,
        holder: false,
    })
}

// The client after a grant without its cache.
fn take_off_grant(alloc: Global, client: &mut Client, grant: &FileGrant)
    requires on { grant.now.on ≡ false }
    requires holder { grant.now.holder ≡ false }
    ensures { client.new ≡ granted client.old grant.now }
{
    client.stamp = grant.stamp;
    client.version = grant.new;
    client.size = grant.size;
    client.mode = CacheMode::Off;
    client.blocks = Items::new(alloc);
}

fn greet_client(alloc: Global, clients: &mut Items<Client>, at: usize, grant: &FileGrant)
    requires on { grant.now.on ≡ false }
    requires holder { grant.now.holder ≡ false }
    ensures { clients.new ≡ slice_set clients.old at (granted (slice_index_or clients.old at new_client) grant.now) }
{
    if at < clients.len() {
        take_off_grant(alloc, clients.at_mut(at), grant);
    }
}

// The kernel is granted the file without its cache.
fn greet(alloc: Global, view: &mut View, kernel: Kernel) -> Result<(), NoMemory>
    ensures { OnOk result (view.new ≡ greet view.old kernel) }
{
    if !is_quiet(view, kernel) {
        return Ok(());
    }
    let grant = off_grant(view)?;
    let at = place(kernel);
    put_at(&mut view.stamps, at, grant.stamp);
    put_at(&mut view.modes, at, CacheMode::Off);
    put_at(&mut view.given, at, Some(FileGrant { size: 0, ..grant }));
    greet_client(alloc, &mut view.clients, at, &grant);
    Ok(())
}

fn install_at(clients: &mut Items<Client>, at: usize, stream: StreamNo) -> Result<(), NoMemory>
    ensures { OnOk result (clients.new ≡ slice_set clients.old at (install (slice_index_or clients.old at new_client) stream)) }
{
    if at < clients.len() {
        let client = clients.at_mut(at);
        client.streams.push(stream)?;
    }
    Ok(())
}

// The stream is open at the kernel again.
fn reopen(view: &mut View, kernel: Kernel, one: &Open) -> Result<(), NoMemory>
    ensures { OnOk result (view.new ≡ reopen view.old kernel one.now) }
{
    if is_named(view, &one.stream) {
        return Ok(());
    }
    view.opens.push(Open {
        stream: one.stream,
        kernel,
        mode: one.mode,
        count: 1,
    })?;
    install_at(&mut view.clients, place(kernel), one.stream)
}

fn reopen_all(view: &mut View, kernel: Kernel, streams: &[Open]) -> Result<(), NoMemory>
    ensures { OnOk result (view.new ≡ reopen_all view.old kernel streams.now) }
{
    let [one, rest @ ..] = streams else {
        return Ok(());
    };
    reopen(view, kernel, one)?;
    reopen_all(view, kernel, rest)
}

// The server stores the kernel's blocks, and opens its streams again.
fn claim(alloc: Global, view: &mut View, kernel: Kernel, kept: &Kept) -> Result<(), NoMemory>
    ensures { OnOk result (view.new ≡ claimed sprite_setting view.old kernel kept.now) }
{
    store_pieces(
        alloc,
        &mut view.bytes,
        kept.size as usize,
        kept.blocks.as_slice(),
    )?;
    greet(alloc, view, kernel)?;
    reopen_all(view, kernel, kept.streams.as_slice())
}

// The view after a claim, which is done on a copy.
pub(crate) fn tried(
    alloc: Global,
    view: &View,
    kernel: Kernel,
    kept: &Kept,
) -> Result<View, NoMemory>
    ensures { IfOk result (λ next. next ≡ tried sprite_setting view.now kernel kept.now) }
{
    let mut next = view.copy(alloc)?;
    if !is_refused(view, kept) {
        claim(alloc, &mut next, kernel, kept)?;
    }
    Ok(next)
}

// Whether the file stays uncached: some kernel keeps something by itself, or the file is open or a callback out.
pub(crate) fn stays_uncached(view: &View, kept: &[Option<Kept>]) -> bool
    ensures { result ≡ stays_uncached view.now kept.now }
{
    is_unclaimed(kept) || (is_any(view.opens.as_slice()) || is_busy(view))
}
