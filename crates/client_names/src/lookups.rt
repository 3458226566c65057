ghost use Rattle.std.specs.Prelude.{◌≡◌, OnOk};
ghost use Rattle.client_names.specs.Lookups.{server_for, waits, echoes, broadcasts, looks_up, learns, redirects, asks};

use crate::requests::{broadcast_of, request_of};
use client_file_tables::{ClientFiles, NameCall, NameState, NameWork, Pending, about, to_one};
use packet_bodies::Request;
use sprite_ids::{Copying, Kernel, NoMemory, Pid, Tries};
use sprite_paths::Path;
use std::alloc::Global;
use unix_calls::{Event, SendKind};

/// Looks the call's path up among the prefixes that this kernel has learned: where one fits, the server of the longest is
/// asked for a sign of life; where none does, all servers are asked who serves `/` (Welch and Ousterhout 1986; the sign of
/// life is this project's). The one error is want of memory, also where no number of a remote call is left.
pub fn look_up(
    files: &mut ClientFiles,
    alloc: Global,
    pid: Pid,
    work: NameWork,
) -> Result<(), NoMemory>
    ensures { OnOk result (files.new ≡ looks_up pid work files.old) }
{
    match server_for(files, &work.path) {
        Some(server) => echo(files, alloc, pid, work, server),
        None => broadcast(files, alloc, pid, work, Path::root(alloc)),
    }
}

/// The walk of the call's path met another domain: its server is asked for, unless this kernel has learned its prefix
/// meanwhile (Welch and Ousterhout 1986). The one error is want of memory, also where no number of a remote call is left.
pub fn redirect(
    files: &mut ClientFiles,
    alloc: Global,
    pid: Pid,
    work: NameWork,
    prefix: Path,
) -> Result<(), NoMemory>
    ensures { OnOk result (files.new ≡ redirects pid work prefix files.old) }
{
    if files.prefixes.knows(&prefix) {
        return look_up(files, alloc, pid, work);
    }
    broadcast(files, alloc, pid, work, prefix)
}

/// A server answered a broadcast: its prefix is learned, where it isn't known yet (Welch and Ousterhout 1986). The one error
/// is want of memory.
pub fn learn(
    files: &mut ClientFiles,
    alloc: Global,
    prefix: Path,
    server: Kernel,
) -> Result<(), NoMemory>
    ensures { OnOk result (files.new ≡ learns prefix server files.old) }
{
    if files.prefixes.knows(&prefix) {
        return Ok(());
    }
    let learned = prefix.copy(alloc)?;
    files.prefixes.learn(learned, server)?;
    files.note(Event::Learned { prefix, server })
}

/// The server gave its sign of life: the request itself goes to it. The one error is want of memory, also where no number of
/// a remote call is left.
pub fn ask(
    files: &mut ClientFiles,
    alloc: Global,
    pid: Pid,
    work: NameWork,
    server: Kernel,
) -> Result<(), NoMemory>
    ensures { OnOk result (files.new ≡ asks pid work server files.old) }
{
    let about = about(pid, work.number);
    let body = request_of(alloc, pid, &work)?;
    let sending = to_one(alloc, server, Tries::Always, Some(about), body)?;
    let tx = files.send_for(alloc, pid, sending, SendKind::Other)?;
    wait(files, pid, work, NameState::Asking { tx })
}

// Asks the server for a sign of life.
fn echo(
    files: &mut ClientFiles,
    alloc: Global,
    pid: Pid,
    work: NameWork,
    server: Kernel,
) -> Result<(), NoMemory>
    ensures { OnOk result (files.new ≡ echoes pid work server files.old) }
{
    let about = about(pid, work.number);
    let sending = to_one(alloc, server, Tries::Eight, Some(about), Request::Echo)?;
    let tx = files.send_for(alloc, pid, sending, SendKind::Other)?;
    wait(files, pid, work, NameState::Echoing { tx, server })
}

// Asks all servers who serves the prefix.
fn broadcast(
    files: &mut ClientFiles,
    alloc: Global,
    pid: Pid,
    work: NameWork,
    prefix: Path,
) -> Result<(), NoMemory>
    ensures { OnOk result (files.new ≡ broadcasts pid work prefix files.old) }
{
    let sending = broadcast_of(files, alloc, pid, &work, &prefix)?;
    let kind = SendKind::Broadcast {
        prefix: prefix.copy(alloc)?,
    };
    let tx = files.send_for(alloc, pid, sending, kind)?;
    wait(files, pid, work, NameState::Broadcasting { tx, prefix })
}

// The call waits so.
fn wait(files: &mut ClientFiles, pid: Pid, work: NameWork, state: NameState) -> Result<(), NoMemory>
    ensures { OnOk result (files.new ≡ waits pid work state files.old) }
{
    files.keep(pid, Pending::Name(NameCall { work, state }))
}

// The server of the longest learned prefix that fits the path.
fn server_for(files: &ClientFiles, path: &Path) -> Option<Kernel>
    ensures { result ≡ server_for path.now files.now }
{
    match files.prefixes.server_of(path) {
        Some(found) => Some(found.1),
        None => None,
    }
}
