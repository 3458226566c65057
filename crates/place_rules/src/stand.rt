ghost use Rattle.std.specs.Prelude.{◌≡◌, ◌||◌, slice_get};
ghost use Rattle.call_journal.specs.Calls.{error_in, is_value};
ghost use Rattle.call_journal.specs.EntryPlaces.{is_client_line, is_client_pid, is_too_big};
ghost use Rattle.place_rules.specs.Stands.{at_file, at_file_if, at_home, at_home_of, at_shared, called_stand, device_stand, is_at, other_stand, stand_by};

use indexmap::{IndexMap, IndexSet};
use process_machine::{Call, Reply};
use sprite_ids::{Errno, Kernel, Pid, StreamNo};
use trace_tables::{Caller, Tied};
use unix_calls::{Description, Entry, KernelLine, Part};

/// Where an entry is to stand, by the number of a kernel (this project).
#[derive(Clone, Copy, Debug, PartialEq, Eq)]
pub(crate) enum Stand {
    /// At the kernel of its process.
    AtProcess,
    /// At that kernel.
    AtKernel(u64),
    /// At that kernel or its process's.
    AtEither(u64),
}

/// Whether the kernel is where an entry is to stand whose process is at that kernel.
pub(crate) fn is_at(stand: Stand, at: Kernel, kernel: Kernel) -> bool
    ensures { result ≡ is_at stand at kernel }
{
    match stand {
        Stand::AtProcess => kernel == at,
        Stand::AtKernel(due) => u64::from(kernel.number()) == due,
        Stand::AtEither(server) => u64::from(kernel.number()) == server || kernel == at,
    }
}

/// Where an entry is to stand, by the streams that are shared, the kernels of the devices and what is told of its call.
pub(crate) fn stand_by(
    c: &Description,
    shared: &IndexSet<StreamNo>,
    devices: &IndexMap<u32, Kernel>,
    caller: &Caller,
    entry: &Entry,
) -> Stand
    ensures { result ≡ stand_by c.now shared.now.keys devices.now.entries caller.now entry.now.pid entry.now.part entry.now.call entry.now.reply }
{
    match entry.part {
        Part::Death => at_home(entry.pid),
        Part::Whole => match &entry.call {
            Some(call) => called_stand(c, shared, caller, entry.pid, call, &entry.reply),
            None => Stand::AtProcess,
        },
        Part::Ask | Part::Done => match &entry.call {
            Some(_) => device_stand(devices, caller.device),
            None => Stand::AtProcess,
        },
    }
}

fn at_home(pid: Pid) -> Stand
    ensures { result ≡ at_home pid }
{
    Stand::AtKernel(u64::from(pid.home().number()))
}

// At the kernel of a device.
fn device_stand(devices: &IndexMap<u32, Kernel>, device: Option<u32>) -> Stand
    ensures { result ≡ device_stand devices.now.entries device }
{
    let Some(place) = device else {
        return Stand::AtProcess;
    };
    match devices.get(&place) {
        Some(kernel) => Stand::AtKernel(u64::from(kernel.number())),
        None => Stand::AtProcess,
    }
}

// Of a whole call: at the server of its names, if it went there.
fn called_stand(
    c: &Description,
    shared: &IndexSet<StreamNo>,
    caller: &Caller,
    pid: Pid,
    call: &Call,
    reply: &Option<Reply>,
) -> Stand
    ensures { result ≡ called_stand c.now shared.now.keys caller.now pid call.now reply.now }
{
    match caller.server {
        Some(server) => Stand::AtKernel(u64::from(server.number())),
        None => other_stand(c, shared, &caller.tied, pid, call, reply),
    }
}

// Of one that goes by no names.
fn other_stand(
    c: &Description,
    shared: &IndexSet<StreamNo>,
    tied: &Option<Tied>,
    pid: Pid,
    call: &Call,
    reply: &Option<Reply>,
) -> Stand
    ensures { result ≡ other_stand c.now shared.now.keys tied.now pid call.now reply.now }
{
    match call {
        Call::Print { .. }
        | Call::Exit { .. }
        | Call::BadStep
        | Call::Host { .. }
        | Call::Tick
        | Call::Getppid
        | Call::Fork
        | Call::Wait => at_home(pid),
        Call::Kill { pid: killed } => at_home_of(c, *killed),
        Call::Read { .. } | Call::Size { .. } => at_file_if(is_value(reply), tied),
        Call::Write { .. } => at_file_if(writes_out(reply), tied),
        Call::Seek { .. } => at_shared(shared, tied),
        _ => Stand::AtProcess,
    }
}

// At the home of the process of that number, if it may be one of the cluster.
fn at_home_of(c: &Description, pid: u64) -> Stand
    ensures { result ≡ at_home_of c.now pid }
{
    if is_client_pid(c, pid) {
        Stand::AtKernel(pid / 1000)
    } else {
        Stand::AtProcess
    }
}

fn is_client_pid(c: &Description, pid: u64) -> bool
    ensures { result ≡ is_client_pid c.now pid }
{
    let home = pid / 1000;
    let birth = pid % 1000;
    1 <= home && is_client(c.kernels.as_slice(), home - 1) && 1 <= birth && birth <= 200
}

// Whether the kernel whose line stands at that place is a client.
fn is_client(lines: &[KernelLine], place: u64) -> bool
    ensures { result ≡ is_client_line (slice_get lines.now place) }
{
    match lines.get(place as usize) {
        Some(line) => line.serves.len() == 0,
        None => false,
    }
}

fn is_value(reply: &Option<Reply>) -> bool
    ensures { result ≡ is_value reply.now }
{
    match reply {
        Some(Reply::Value { .. }) => true,
        _ => false,
    }
}

// Whether a write was done, or refused for the size of its file.
fn writes_out(reply: &Option<Reply>) -> bool
    ensures { result ≡ (is_value reply.now || is_too_big (error_in reply.now)) }
{
    match reply {
        Some(Reply::Value { .. } | Reply::Error(Errno::TooBig)) => true,
        _ => false,
    }
}

// At the file's server or the process's kernel, where that holds and there is a file.
fn at_file_if(does: bool, tied: &Option<Tied>) -> Stand
    ensures { result ≡ at_file_if does tied.now }
{
    if does {
        at_file(tied)
    } else {
        Stand::AtProcess
    }
}

fn at_file(tied: &Option<Tied>) -> Stand
    ensures { result ≡ at_file tied.now }
{
    match tied {
        Some(tied) => Stand::AtEither(u64::from(tied.file.server.number())),
        None => Stand::AtProcess,
    }
}

// The same, where the stream is shared.
fn at_shared(shared: &IndexSet<StreamNo>, tied: &Option<Tied>) -> Stand
    ensures { result ≡ at_shared shared.now.keys tied.now }
{
    match tied {
        Some(tied) => {
            let server = u64::from(tied.file.server.number());
            if shared.contains(&tied.stream) {
                Stand::AtEither(server)
            } else {
                Stand::AtProcess
            }
        }
        None => Stand::AtProcess,
    }
}
