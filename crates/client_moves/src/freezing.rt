ghost use Rattle.std.specs.Prelude.{◌≡◌, IfOk, OnOk, IsTrue, length};
ghost use Rattle.client_homes.specs.Says.{value};
ghost use Rattle.client_moves.specs.Freezing.{begins_to_leave, cwd_or_root, drops_cwd, enters_move, freezes, freezes_with, image_without, pages_for, pages_upto, process_of, puts_out, puts_page, puts_pages, sends_off, taken_upto, takes_out, with_page};
ghost use Rattle.client_file_tables.specs.Rows.{first_of};
ghost use Rattle.migrate_freeze.specs.Moves.{frozen_for, step_of};
ghost use Rattle.migrate_freeze.specs.Packing.{can_move};

use crate::carried::{can_move, carried};
use crate::leaving::{keep_leaving, leave_on};
use crate::route::Route;
use client_homes::{ClientProcs, Proc, Unfinished};
use migrate_freeze::{Frozen, MoveStep, Process};
use packet_bodies::{PageOutRequest, Request};
use process_machine::{Image, Reply};
use sprite_ids::{Bytes, Copying, Items, NoMemory, Pid};
use sprite_paths::Path;
use std::alloc::Global;
use stream_table::Carried;
use unix_calls::{About, Event};

/// Freezes a process that is here (Douglis and Ousterhout 1991). The call that it moves by takes effect; its pages that are here
/// go to the server that keeps them, in ascending order (unless it starts its next program there), and its streams begin to
/// move. Where they can't move, as one is the master's end of a pseudo-device, nothing is done. The one error is want of memory,
/// which is also the answer where no number is left for a remote call.
///
/// Of places: the process is on its way from here, and its pages are in the requests that put them.
pub fn freeze(
    client: &mut ClientProcs,
    alloc: Global,
    pid: Pid,
    route: &Route,
) -> Result<(), NoMemory>
    ensures { OnOk result (client.new ≡ freezes pid route.now client.old) }
{
    let streams = carried(client, alloc, pid)?;
    if !can_move(streams.as_slice()) {
        return Ok(());
    }
    freeze_with(client, alloc, pid, route, streams)
}

fn freeze_with(
    client: &mut ClientProcs,
    alloc: Global,
    pid: Pid,
    route: &Route,
    streams: Items<Carried>,
) -> Result<(), NoMemory>
    requires { IsTrue (can_move streams) }
    ensures { OnOk result (client.new ≡ freezes_with pid route.now streams client.old) }
{
    client.note(Event::Freeze { pid })?;
    enter_move(client, alloc, pid, &route.about)?;
    take_out(client, alloc, pid, route, streams)
}

// The process isn't here any more.
fn take_out(
    client: &mut ClientProcs,
    alloc: Global,
    pid: Pid,
    route: &Route,
    streams: Items<Carried>,
) -> Result<(), NoMemory>
    requires { IsTrue (can_move streams) }
    ensures { OnOk result (client.new ≡ takes_out pid route.now streams client.old) }
{
    match client.procs.take(&pid) {
        Some(proc) => put_out(client, alloc, pid, proc, route, streams),
        None => Ok(()),
    }
}

// The process's own call takes effect.
fn enter_move(
    client: &mut ClientProcs,
    alloc: Global,
    pid: Pid,
    about: &Option<About>,
) -> Result<(), NoMemory>
    ensures { OnOk result (client.new ≡ enters_move pid about.now client.old) }
{
    match about {
        Some(_) => client.enter_own(alloc, pid, &nothing(alloc)),
        None => Ok(()),
    }
}

/// A reply without values.
pub fn nothing(alloc: Global) -> Reply
    ensures { result ≡ value 0 0 }
{
    Reply::Value {
        first: 0,
        second: 0,
        bytes: Bytes::new(alloc),
    }
}

// The pages go, and then the streams.
fn put_out(
    client: &mut ClientProcs,
    alloc: Global,
    pid: Pid,
    proc: Proc,
    route: &Route,
    streams: Items<Carried>,
) -> Result<(), NoMemory>
    requires { IsTrue (can_move streams) }
    ensures { OnOk result (client.new ≡ puts_out pid proc route.now streams client.old) }
{
    let mut proc = proc;
    let pages = pages_of(alloc, &mut proc.image, route.program)?;
    put_pages(client, alloc, pid, pages.as_slice())?;
    send_off(client, alloc, pid, proc, route, streams)
}

// The pages that go, with their numbers, which the image has no more: none where the process starts its next program.
fn pages_of(
    alloc: Global,
    image: &mut Image,
    program: Option<u8>,
) -> Result<Items<(u8, Bytes)>, NoMemory>
    ensures pages { IfOk result (λ pages. pages ≡ pages_for program image.old) }
    ensures image { OnOk result (image.new ≡ image_without program image.old) }
{
    match program {
        Some(_) => Ok(Items::new(alloc)),
        None => take_pages(alloc, image),
    }
}

fn take_pages(alloc: Global, image: &mut Image) -> Result<Items<(u8, Bytes)>, NoMemory>
    ensures pages { IfOk result (λ pages. pages ≡ pages_upto (length image.old.pages) image.old) }
    ensures image { OnOk result (image.new ≡ taken_upto (length image.old.pages) image.old) }
{
    let mut pages = Items::new(alloc);
    for page in 0..image.page_count() {
        let bytes = image.set_page(page, None);
        add_page(&mut pages, page, bytes)?;
    }
    Ok(pages)
}

fn add_page(pages: &mut Items<(u8, Bytes)>, page: u8, bytes: Option<Bytes>) -> Result<(), NoMemory>
    ensures { OnOk result (pages.new ≡ with_page page bytes pages.old) }
{
    match bytes {
        Some(bytes) => pages.push((page, bytes)),
        None => Ok(()),
    }
}

// These pages go to the server that keeps them.
fn put_pages(
    client: &mut ClientProcs,
    alloc: Global,
    pid: Pid,
    pages: &[(u8, Bytes)],
) -> Result<(), NoMemory>
    ensures { OnOk result (client.new ≡ puts_pages pid pages.now client.old) }
{
    for page in pages {
        put_page(client, alloc, pid, page.0, &page.1)?;
    }
    Ok(())
}

fn put_page(
    client: &mut ClientProcs,
    alloc: Global,
    pid: Pid,
    page: u8,
    bytes: &Bytes,
) -> Result<(), NoMemory>
    ensures { OnOk result (client.new ≡ puts_page pid page bytes.now client.old) }
{
    let bytes = bytes.copy(alloc)?;
    let body = Request::PageOut(PageOutRequest { pid, page, bytes });
    let tx = client.send(alloc, client.swap_server, &None, body)?;
    client.keep_tx(tx, Unfinished::PageOut(pid))
}

// The process with all that belongs to it begins to leave.
fn send_off(
    client: &mut ClientProcs,
    alloc: Global,
    pid: Pid,
    proc: Proc,
    route: &Route,
    streams: Items<Carried>,
) -> Result<(), NoMemory>
    requires { IsTrue (can_move streams) }
    ensures { OnOk result (client.new ≡ sends_off pid proc route.now streams client.old) }
{
    let process = gather(client, alloc, pid, proc, route, streams);
    leave(client, alloc, pid, process, route)
}

// All that belongs to the process, with those streams.
fn gather(
    client: &mut ClientProcs,
    alloc: Global,
    pid: Pid,
    proc: Proc,
    route: &Route,
    streams: Items<Carried>,
) -> Process
    ensures process { result ≡ process_of pid proc route.now streams client.old }
    ensures state { client.new ≡ drops_cwd pid client.old }
{
    let cwd = take_cwd(client, alloc, pid);
    Process {
        pid,
        number: proc.number,
        image: proc.image,
        cwd,
        streams,
        killed: proc.killed,
        moving: route.about.is_some(),
    }
}

fn leave(
    client: &mut ClientProcs,
    alloc: Global,
    pid: Pid,
    process: Process,
    route: &Route,
) -> Result<(), NoMemory>
    requires { IsTrue (can_move process.streams) }
    ensures { OnOk result (client.new ≡ begins_to_leave pid process route.now client.old) }
{
    keep_leaving(client, pid, first_step(process, route), &route.about)?;
    leave_on(client, alloc, pid)
}

// The process has no working directory here any more.
fn take_cwd(client: &mut ClientProcs, alloc: Global, pid: Pid) -> Path
    ensures cwd { result ≡ cwd_or_root (first_of pid client.old.files.cwds) }
    ensures state { client.new ≡ drops_cwd pid client.old }
{
    match client.files.cwds.take(&pid) {
        Some(cwd) => cwd,
        None => Path::root(alloc),
    }
}

fn first_step(process: Process, route: &Route) -> MoveStep
    requires { IsTrue (can_move process.streams) }
    ensures { result ≡ step_of (frozen_for process route.now.to route.now.program) }
{
    match route.program {
        Some(program) => Frozen::launch(process, route.to, program).next(),
        None => Frozen::new(process, route.to).next(),
    }
}
