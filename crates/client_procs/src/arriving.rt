ghost use Rattle.std.specs.Prelude.{◌≡◌, IfOk, OnOk, Some};
ghost use Rattle.client_procs.specs.Arriving.{arrived_proc, arrives, arrives_as, arriving, brought, comes_home, coming, has_streams, hears_place, installs, is_fresh, is_new, is_settled, knows_kill, launched, moving_in, puts_in, takes_arrived, takes_in, tells_home, thaws};
ghost use Rattle.client_homes.specs.Births.{puts_proc};
ghost use Rattle.migrate_freeze.specs.Arriving.{launched_of};

use crate::launching::fresh_image;
use client_homes::{ClientProcs, Proc, ProcState, Unfinished};
use client_moves::{answer_with_pages, between_calls, nothing};
use migrate_freeze::{Arrived, Process};
use packet_bodies::{CarriedStream, ReplyBody, Request};
use process_machine::Image;
use sprite_ids::{Copying, Items, NoMemory, Pid, TxNo};
use std::alloc::Global;
use unix_calls::Event;

/// A process that arrives, and how it goes on.
#[derive(Debug, Drop)]
pub(crate) struct Coming {
    /// The process.
    pub process: Process,
    /// Whether its image was made anew for it.
    pub fresh: bool,
}

// Another kernel sends a process (Douglis and Ousterhout 1991). Where it is here, or on its way from here, nothing is done. Of
// places: the process is here from now on, with all that came with it, and was in the request.
pub(crate) fn arrive(
    client: &mut ClientProcs,
    alloc: Global,
    tx: TxNo,
    body: &Request,
) -> Result<(), NoMemory>
    ensures { OnOk result (client.new ≡ arrives tx body.now client.old) }
{
    match brought(body) {
        Some(pid) => arrive_as(client, alloc, tx, pid, body),
        None => Ok(()),
    }
}

// The process that the request brings.
pub(crate) fn brought(body: &Request) -> Option<Pid>
    ensures { result ≡ brought body.now }
{
    match body {
        Request::Transfer(request) => Some(request.pid),
        Request::Launch(request) => Some(request.pid),
        _ => None,
    }
}

// Whether the process is neither here nor on its way from here.
pub(crate) fn is_new(client: &ClientProcs, pid: Pid) -> bool
    ensures { result ≡ is_new pid client.now }
{
    !client.procs.has(&pid) && !client.leaving.has(&pid)
}

fn arrive_as(
    client: &mut ClientProcs,
    alloc: Global,
    tx: TxNo,
    pid: Pid,
    body: &Request,
) -> Result<(), NoMemory>
    ensures { OnOk result (client.new ≡ arrives_as tx pid body.now client.old) }
{
    if !is_new(client, pid) {
        return Ok(());
    }
    match Arrived::read(alloc, body.copy(alloc)?)? {
        Some(arrived) => take_in(client, alloc, tx, arrived),
        None => Ok(()),
    }
}

fn take_in(
    client: &mut ClientProcs,
    alloc: Global,
    tx: TxNo,
    arrived: Arrived,
) -> Result<(), NoMemory>
    ensures { OnOk result (client.new ≡ takes_in tx arrived client.old) }
{
    client.answer(tx, ReplyBody::Done)?;
    take_arrived(client, alloc, arrived)
}

// The process that was sent, unless it is to start a program that there isn't.
fn take_arrived(client: &mut ClientProcs, alloc: Global, arrived: Arrived) -> Result<(), NoMemory>
    ensures { OnOk result (client.new ≡ takes_arrived arrived client.old) }
{
    let streams = copied(alloc, arrived.streams())?;
    match unpack(client, alloc, arrived)? {
        Some(coming) => install(client, alloc, coming, streams.as_slice()),
        None => Ok(()),
    }
}

fn copied(alloc: Global, streams: &[CarriedStream]) -> Result<Items<CarriedStream>, NoMemory>
    ensures { IfOk result (λ copies. copies ≡ streams.now) }
{
    let mut copies = Items::new(alloc);
    copies.append(streams)?;
    Ok(copies)
}

// The process, with its image or a fresh one.
fn unpack(client: &ClientProcs, alloc: Global, arrived: Arrived) -> Result<Option<Coming>, NoMemory>
    ensures { IfOk result (λ made. made ≡ coming client.now.programs arrived) }
{
    match arrived.launched() {
        None => Ok(Some(Coming {
            process: arrived.thaw(),
            fresh: false,
        })),
        Some(program) => {
            match fresh_image(alloc, client.programs.as_slice(), program, 0)? {
                Some(image) => Ok(launched(arrived, program, image)),
                None => Ok(None),
            }
        }
    }
}

// A program's image has the program's number.
fn launched(arrived: Arrived, program: u8, image: Image) -> Option<Coming>
    requires { launched_of arrived.load ≡ Some program }
    ensures { result ≡ launched arrived program image }
{
    if image.program_number() != program {
        return None;
    }
    Some(Coming {
        process: arrived.thaw_fresh(image),
        fresh: true,
    })
}

// The process has its streams and its working directory here; then its home is told where it is.
fn install(
    client: &mut ClientProcs,
    alloc: Global,
    coming: Coming,
    streams: &[CarriedStream],
) -> Result<(), NoMemory>
    ensures { OnOk result (client.new ≡ installs coming streams.now client.old) }
{
    bring_streams(client, alloc, &coming.process, streams)?;
    put_in(client, alloc, coming)
}

// The process is here from now on, between two calls or inside its own.
fn put_in(client: &mut ClientProcs, alloc: Global, coming: Coming) -> Result<(), NoMemory>
    ensures { OnOk result (client.new ≡ puts_in coming client.old) }
{
    let pid = pid_of(&coming);
    let moving = is_moving(&coming);
    put_as(client, alloc, pid, moving, arrived_proc(coming))
}

fn put_as(
    client: &mut ClientProcs,
    alloc: Global,
    pid: Pid,
    moving: bool,
    proc: Proc,
) -> Result<(), NoMemory>
    ensures { OnOk result (client.new ≡ is_settled pid moving (puts_proc pid proc client.old)) }
{
    client.procs.put(pid, proc)?;
    settle(client, alloc, pid, moving)
}

fn pid_of(coming: &Coming) -> Pid
    ensures { result ≡ coming.now.process.pid }
{
    coming.process.pid
}

fn is_moving(coming: &Coming) -> bool
    ensures { result ≡ coming.now.process.moving }
{
    coming.process.moving
}

fn bring_streams(
    client: &mut ClientProcs,
    alloc: Global,
    process: &Process,
    streams: &[CarriedStream],
) -> Result<(), NoMemory>
    ensures { OnOk result (client.new ≡ has_streams process.now streams.now client.old) }
{
    let cwd = process.cwd.copy(alloc)?;
    client_files::install(
        &mut client.files,
        process.pid,
        cwd,
        streams,
        process.streams.as_slice(),
    )
}

fn arrived_proc(coming: Coming) -> Proc
    ensures { result ≡ arrived_proc coming.process coming.fresh }
{
    let Coming { process, fresh } = coming;
    Proc {
        number: process.number,
        image: process.image,
        fresh,
        killed: process.killed,
        evict: false,
        call: None,
        state: ProcState::Ready,
    }
}

#[tactic(auto, unfolding(crate::specs::Arriving::is_settled))]
fn settle(client: &mut ClientProcs, alloc: Global, pid: Pid, moving: bool) -> Result<(), NoMemory>
    ensures { OnOk result (client.new ≡ is_settled pid moving client.old) }
{
    if client.is_native(pid) {
        come_home(client, alloc, pid, moving)
    } else {
        tell_home(client, alloc, pid, moving)
    }
}

// The process is back at its home.
fn come_home(
    client: &mut ClientProcs,
    alloc: Global,
    pid: Pid,
    moving: bool,
) -> Result<(), NoMemory>
    ensures { OnOk result (client.new ≡ comes_home pid moving client.old) }
{
    let kernel = client.kernel;
    client.move_to(pid, kernel);
    client.forget_waiting(pid);
    know_kill(client, pid);
    thaw(client, alloc, pid, moving)
}

fn know_kill(client: &mut ClientProcs, pid: Pid)
    ensures { client.new ≡ knows_kill pid client.old }
{
    if client.is_killed(pid) {
        client.set_killed(pid);
    }
}

fn tell_home(
    client: &mut ClientProcs,
    alloc: Global,
    pid: Pid,
    moving: bool,
) -> Result<(), NoMemory>
    ensures { OnOk result (client.new ≡ tells_home pid moving client.old) }
{
    let kernel = client.kernel;
    let tx = client.send(alloc, pid.home(), &None, Request::Place { pid, kernel })?;
    client.keep_tx(tx, Unfinished::Place(pid))?;
    client.set_state(pid, ProcState::Arriving { tx, moving });
    Ok(())
}

// The home of a process that arrived has answered: the process is thawed.
pub(crate) fn hear_place(client: &mut ClientProcs, alloc: Global, pid: Pid) -> Result<(), NoMemory>
    ensures { OnOk result (client.new ≡ hears_place pid client.old) }
{
    match arriving(client, pid) {
        Some(moving) => thaw(client, alloc, pid, moving),
        None => Ok(()),
    }
}

fn arriving(client: &ClientProcs, pid: Pid) -> Option<bool>
    ensures { result ≡ arriving pid client.now }
{
    match client.procs.get(&pid) {
        Some(proc) => moving_in(&proc.state),
        None => None,
    }
}

fn moving_in(state: &ProcState) -> Option<bool>
    ensures { result ≡ moving_in state.now }
{
    match state {
        ProcState::Arriving { moving, .. } => Some(*moving),
        _ => None,
    }
}

// The process goes on: its own `migrate` or `rexec` returns, or it is between two calls.
fn thaw(client: &mut ClientProcs, alloc: Global, pid: Pid, moving: bool) -> Result<(), NoMemory>
    ensures { OnOk result (client.new ≡ thaws pid moving client.old) }
{
    client.note(Event::Thaw { pid })?;
    client.set_state(pid, ProcState::Ready);
    if !moving {
        return between_calls(client, alloc, pid);
    }
    if is_fresh(client, pid) {
        return client.reply(pid, nothing(alloc));
    }
    answer_with_pages(client, alloc, pid, nothing(alloc))
}

fn is_fresh(client: &ClientProcs, pid: Pid) -> bool
    ensures { result ≡ is_fresh pid client.now }
{
    match client.procs.get(&pid) {
        Some(proc) => proc.fresh,
        None => false,
    }
}
