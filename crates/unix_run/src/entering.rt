ghost use Rattle.std.specs.Prelude.{◌≡◌, ◌<◌, ◌+◌, IfOk};
ghost use Rattle.std.specs.Option.{option_map};
ghost use Rattle.unix_calls.specs.DeviceCalls.{answer_for};
ghost use Rattle.unix_run.specs.Entering.{Dies, Makes, asks_at, ends_ask, is_due};

use crate::answers::reply_to;
use crate::same::same_reply;
use process_machine::{Call, Reply};
use sprite_ids::{Copying, Ending, Errno, NoMemory, Pid};
use std::alloc::Global;
use unix_calls::{Answer, Ask, Description, Device, Process};
use unix_world::World;

/// A death: the process ends where a kill of it is pending and it is in no ask.
pub fn die(p: &mut Process) -> bool
    ensures { Dies p.old result p.new }
{
    if !p.killed || p.asking.is_some() {
        return false;
    }
    p.descriptors = [None; 16];
    p.ending = Some(Ending::Killed);
    true
}

/// An ask: the call stands behind the others of the device that the entry at that place made, where there is one.
pub(crate) fn ask(
    alloc: Global,
    c: &Description,
    world: &mut World,
    p: &mut Process,
    call: &Call,
    place: u32,
) -> Result<bool, NoMemory>
    requires { p.old.calls < 4294967295 }
    ensures { IfOk result (λ made. Makes c.now (asks_at place call.now) world.old p.old made world.new p.new) }
{
    match world.devices.place_of(place) {
        None => Ok(false),
        Some(at) => {
            let ask = ask_of(alloc, p, call)?;
            world.devices.add_ask(at, ask)?;
            p.asking = Some(place);
            Ok(true)
        }
    }
}

// What stands in a device's list for the process's next call.
fn ask_of(alloc: Global, p: &Process, call: &Call) -> Result<Ask, NoMemory>
    requires { p.now.calls < 4294967295 }
    ensures { IfOk result (λ ask. ask ≡ record { pid = p.now.pid; number = p.now.calls + 1; call = call.now }) }
{
    Ok(Ask {
        pid: p.pid,
        number: p.calls + 1,
        call: call.copy(alloc)?,
    })
}

/// The end of an ask: the answer is the one that was left for the process, or NoServer where the device isn't alive and none was.
pub(crate) fn end_ask(
    c: &Description,
    world: &mut World,
    p: &mut Process,
    place: u32,
    alive: bool,
    reply: &Reply,
) -> bool
    requires { p.old.calls < 4294967295 }
    ensures { Makes c.now (ends_ask c.now place alive reply.now) world.old p.old result world.new p.new }
{
    let Some(at) = world.devices.place_of(place) else {
        return false;
    };
    if !is_due(world.devices.at(at), p.pid, alive, reply) {
        return false;
    }
    world.devices.drop_answers(at, p.pid);
    reply_to(c, p, reply);
    true
}

// Whether the reply is the answer that is due.
fn is_due(device: &Device, pid: Pid, alive: bool, reply: &Reply) -> bool
    ensures { result ≡ is_due alive reply.now (answer_for pid device.now.answers) }
{
    match answer_for(device.answers.as_slice(), pid) {
        Some(due) => same_reply(due, reply),
        None => !alive && same_reply(&Reply::Error(Errno::NoServer), reply),
    }
}

// The answer that was left for a process.
fn answer_for(answers: &[Answer], pid: Pid) -> Option<&Reply>
    ensures { option_map (λ reply. reply.now) result ≡ answer_for pid answers.now }
{
    for answer in answers {
        if answer.pid == pid {
            return Some(&answer.reply);
        }
    }
    None
}
