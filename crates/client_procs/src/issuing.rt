ghost use Rattle.std.specs.Prelude.{◌≡◌, OnOk};
ghost use Rattle.client_homes.specs.Says.{value};
ghost use Rattle.client_procs.specs.Issues.{begins, begins_other, comes_to, inside, is_behind, is_next, is_of_home, issues, issues_next, makes, notes_issue, uses_files, uses_stream};

use crate::moving::{exec, migrate, rexec};
use crate::readers::number_of;
use client_devices::{make_device, pd_get, pd_put, use_device};
use client_homes::{ClientProcs, Proc, ProcState};
use client_moves::{count_issue, is_ready};
use process_machine::{Call, Reply};
use sprite_ids::{Bytes, Copying, DeviceId, NoMemory};
use std::alloc::Global;
use unix_calls::{About, Event};

// The process comes to that call, where it is between two calls and that one is its next; else nothing is done.
pub(crate) fn issue(
    client: &mut ClientProcs,
    alloc: Global,
    about: &About,
    call: &Call,
) -> Result<(), NoMemory>
    ensures { OnOk result (client.new ≡ issues about.now call.now client.old) }
{
    if !is_next(client, about) {
        return Ok(());
    }
    issue_next(client, alloc, about, call)
}

// Whether the process is between two calls, and that one is its next.
fn is_next(client: &ClientProcs, about: &About) -> bool
    ensures { result ≡ is_next about.now client.now }
{
    is_ready(client, about.pid) && is_behind(about.number, number_of(client, about.pid))
}

// Whether the number is the next one behind the last.
fn is_behind(number: u32, last: Option<u32>) -> bool
    ensures { result ≡ is_behind number last }
{
    match last {
        Some(last) => u64::from(number) == u64::from(last) + 1,
        None => false,
    }
}

// The processes that are due to leave do so, and then the call takes its first step.
fn issue_next(
    client: &mut ClientProcs,
    alloc: Global,
    about: &About,
    call: &Call,
) -> Result<(), NoMemory>
    ensures { OnOk result (client.new ≡ issues_next about.now call.now client.old) }
{
    come_to(client, alloc, about, call)?;
    note_issue(client, alloc, about, call)?;
    count_issue(client, alloc)?;
    begin(client, alloc, about, call)
}

// The process is inside the call.
fn come_to(
    client: &mut ClientProcs,
    alloc: Global,
    about: &About,
    call: &Call,
) -> Result<(), NoMemory>
    ensures { OnOk result (client.new ≡ comes_to about.now call.now client.old) }
{
    let own = call.copy(alloc)?;
    match client.procs.get_mut(&about.pid) {
        Some(proc) => enter_call(proc, about.number, own),
        None => {}
    }
    Ok(())
}

fn enter_call(proc: &mut Proc, number: u32, call: Call)
    ensures { proc.new ≡ inside number call proc.old }
{
    proc.number = number;
    proc.call = Some(call);
    proc.state = ProcState::Returning;
}

fn note_issue(
    client: &mut ClientProcs,
    alloc: Global,
    about: &About,
    call: &Call,
) -> Result<(), NoMemory>
    ensures { OnOk result (client.new ≡ notes_issue about.now call.now client.old) }
{
    let call = call.copy(alloc)?;
    client.note(Event::Issue {
        pid: about.pid,
        number: about.number,
        call,
    })
}

// The call's first step.
fn begin(
    client: &mut ClientProcs,
    alloc: Global,
    about: &About,
    call: &Call,
) -> Result<(), NoMemory>
    ensures { OnOk result (client.new ≡ begins about.now call.now client.old) }
{
    match call {
        Call::Read { .. } => use_stream(client, alloc, about, call),
        Call::Write { .. } => use_stream(client, alloc, about, call),
        Call::Ioctl { .. } => use_stream(client, alloc, about, call),
        Call::PdMake { .. } => make(client, alloc, about, call),
        Call::PdGet { fd, max } => pd_get(client, alloc, about.pid, *fd, *max),
        Call::PdPut { fd, bytes, errno } => pd_put(client, alloc, about.pid, *fd, bytes, *errno),
        Call::Exec { name, arg } => exec(client, alloc, about, name, *arg),
        Call::Migrate { name } => migrate(client, alloc, about, name),
        Call::Rexec { name, host } => rexec(client, alloc, about, name, host),
        Call::Getpid => client.answer_here(alloc, about.pid, number_reply(alloc, about)),
        Call::Refused { errno } => client.answer_here(alloc, about.pid, Reply::Error(*errno)),
        _ => begin_other(client, alloc, about, call),
    }
}

// Calls that are done at a home, and calls on files.
fn begin_other(
    client: &mut ClientProcs,
    alloc: Global,
    about: &About,
    call: &Call,
) -> Result<(), NoMemory>
    ensures { OnOk result (client.new ≡ begins_other about.now call.now client.old) }
{
    if is_of_home(call) {
        client.issue_home(alloc, about.pid)
    } else {
        use_files(client, alloc, about, call, &None)
    }
}

// A read, write or ioctl: of a pseudo-device, else of a file.
fn use_stream(
    client: &mut ClientProcs,
    alloc: Global,
    about: &About,
    call: &Call,
) -> Result<(), NoMemory>
    ensures { OnOk result (client.new ≡ uses_stream about.now call.now client.old) }
{
    if use_device(client, alloc, about.pid, call)? {
        return Ok(());
    }
    use_files(client, alloc, about, call, &None)
}

// `pd_make`: the device is there from now on, and its name is made by its server.
fn make(client: &mut ClientProcs, alloc: Global, about: &About, call: &Call) -> Result<(), NoMemory>
    ensures { OnOk result (client.new ≡ makes about.now call.now client.old) }
{
    let device = make_device(client, alloc, about.pid)?;
    use_files(client, alloc, about, call, &Some(device))
}

// The call is one on files.
fn use_files(
    client: &mut ClientProcs,
    alloc: Global,
    about: &About,
    call: &Call,
    device: &Option<DeviceId>,
) -> Result<(), NoMemory>
    ensures { OnOk result (client.new ≡ uses_files about.now call.now device.now client.old) }
{
    client.set_state(about.pid, ProcState::InFiles);
    client_files::issue(&mut client.files, alloc, about, call, device)
}

// The number of the process.
fn number_reply(alloc: Global, about: &About) -> Reply
    ensures { result ≡ value about.now.pid 0 }
{
    Reply::Value {
        first: u64::from(about.pid.number()),
        second: 0,
        bytes: Bytes::new(alloc),
    }
}

// Whether the call is done at a home.
fn is_of_home(call: &Call) -> bool
    ensures { result ≡ is_of_home call.now }
{
    matches!(
        call,
        Call::Print { .. }
            | Call::Exit { .. }
            | Call::BadStep
            | Call::Getppid
            | Call::Host { .. }
            | Call::Tick
            | Call::Fork
            | Call::Wait
            | Call::Kill { .. }
    )
}
