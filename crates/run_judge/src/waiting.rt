ghost use Rattle.std.specs.Prelude.{◌≡◌};
ghost use Rattle.std.specs.List.{list_any};
ghost use Rattle.unix_calls.specs.ProcessCalls.{is_unwaited};
ghost use Rattle.unix_calls.specs.State.{lives};
ghost use Rattle.unix_world.specs.Worlds.{stream_of_fd};
ghost use Rattle.run_judge.specs.Waiting.{is_ended_child, waits_at_stream, waits_by, waits_for_child};

use crate::asking::is_idle_at;
use process_machine::Call;
use sprite_ids::Pid;
use unix_calls::{Device, Object, Process, Stream};
use unix_world::{World, stream_of};

/// Whether a call of the process, at which its image stands, waits: a `wait` none of whose children has ended, or a `pd_get` on a master
/// stream whose device has no operation.
pub(crate) fn waits_by(world: &World, ps: &[Process], p: &Process, call: &Call) -> bool
    ensures { result ≡ waits_by world.now ps.now p.now call.now }
{
    match call {
        Call::Wait => waits_for_child(ps, p.pid),
        Call::PdGet { fd, .. } => {
            waits_at_stream(world.devices.as_slice(), &stream_of(world, p, *fd))
        }
        _ => false,
    }
}

// Whether the process has a child for which it hasn't waited, and none of these has ended.
fn waits_for_child(ps: &[Process], parent: Pid) -> bool
    ensures { result ≡ waits_for_child parent ps.now }
{
    has_unwaited(ps, parent) && !has_ended_child(ps, parent)
}

// Whether the process has a child for which it hasn't waited.
fn has_unwaited(ps: &[Process], parent: Pid) -> bool
    ensures { result ≡ list_any (is_unwaited parent) ps.now }
{
    for child in ps {
        if is_unwaited(parent, child) {
            return true;
        }
    }
    false
}

// Whether one of these has ended.
fn has_ended_child(ps: &[Process], parent: Pid) -> bool
    ensures { result ≡ list_any (is_ended_child parent) ps.now }
{
    for child in ps {
        if is_ended_child(parent, child) {
            return true;
        }
    }
    false
}

// Whether a process is a child of that one for which it hasn't waited.
fn is_unwaited(parent: Pid, child: &Process) -> bool
    ensures { result ≡ is_unwaited parent child.now }
{
    match child.parent {
        Some(pid) => pid == parent && !child.waited,
        None => false,
    }
}

// Whether it has ended besides.
fn is_ended_child(parent: Pid, child: &Process) -> bool
    ensures { result ≡ is_ended_child parent child.now }
{
    is_unwaited(parent, child) && child.ending.is_some()
}

// Whether a stream is a master's, whose device has no operation.
fn waits_at_stream(devices: &[Device], stream: &Option<Stream>) -> bool
    ensures { result ≡ waits_at_stream devices.now stream.now }
{
    let Some(stream) = stream else {
        return false;
    };
    match stream.object {
        Object::OfMaster(place) => is_idle_at(devices, place),
        _ => false,
    }
}

/// Whether one of the processes lives.
pub(crate) fn some_lives(ps: &[Process]) -> bool
    ensures { result ≡ list_any lives ps.now }
{
    for process in ps {
        if process.ending.is_none() {
            return true;
        }
    }
    false
}
