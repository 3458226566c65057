ghost use Rattle.std.specs.Prelude.{◌≡◌, ◌<◌, IfOk, length};
ghost use Rattle.std.specs.List.{list_any};
ghost use Rattle.unix_calls.specs.Lawful.{Lawful};
ghost use Rattle.unix_calls.specs.State.{holds_master_of};
ghost use Rattle.unix_calls.specs.After.{after_done, after_whole};
ghost use Rattle.unix_world.specs.Among.{Ascending};
ghost use Rattle.unix_run.specs.Among.{IsBounded, IsCaller};
ghost use Rattle.unix_run.specs.Entering.{MakesAmong, asks_free, is_answer, stands};

use crate::answers::reply_to;
use crate::came::Came;
use crate::entering::{ask, end_ask};
use crate::faults::may_fail;
use crate::outcomes::outcome;
use crate::same::same_reply;
use process_machine::{Call, Reply};
use sprite_ids::{Items, NoMemory};
use std::alloc::Global;
use unix_calls::{Description, Process};
use unix_world::{Streams, World, holds_master_of};

// Whether the reply may stand in the place of the one that is due.
fn stands(alloc: Global, p: &Process, call: &Call, reply: &Reply) -> Result<bool, NoMemory>
    ensures { IfOk result (λ may. may ≡ stands p.now call.now reply.now) }
{
    match reply {
        Reply::Error(errno) => may_fail(alloc, p, call, *errno),
        Reply::Value { .. } => Ok(false),
    }
}

// Whether a call came to that reply.
fn is_answer(came: &Came, reply: &Reply) -> bool
    ensures { result ≡ is_answer came.now reply.now }
{
    match came {
        Came::Answered(due) => same_reply(due, reply),
        _ => false,
    }
}

/// A whole call with its reply, of the process that stands there: whether one kernel makes it.
pub fn enter_whole(
    alloc: Global,
    c: &Description,
    world: &mut World,
    ps: &mut Items<Process>,
    at: usize,
    call: &Call,
    reply: &Reply,
) -> Result<bool, NoMemory>
    requires ascending { Ascending ps.old }
    requires caller { IsCaller ps.old at }
    requires bounded { IsBounded call.now }
    requires lawful { Lawful c.now }
    ensures { IfOk result (λ made. MakesAmong c.now (λ u q. after_whole c.now u q call.now reply.now) world.old ps.old at made world.new ps.new) }
{
    if ps.at(at).asking.is_some() {
        return Ok(false);
    }
    if stands(alloc, ps.at(at), call, reply)? {
        reply_to(c, ps.at_mut(at), reply);
        return Ok(true);
    }
    let came = outcome(alloc, c, world, ps, at, call)?;
    Ok(is_answer(&came, reply))
}

/// An ask, of the process that stands there: whether one kernel makes it.
pub fn enter_ask(
    alloc: Global,
    c: &Description,
    world: &mut World,
    ps: &mut Items<Process>,
    at: usize,
    call: &Call,
) -> Result<bool, NoMemory>
    requires ascending { Ascending ps.old }
    requires caller { IsCaller ps.old at }
    requires bounded { IsBounded call.now }
    requires lawful { Lawful c.now }
    ensures { IfOk result (λ made. MakesAmong c.now (λ u q. asks_free c.now call.now u q) world.old ps.old at made world.new ps.new) }
{
    if ps.at(at).asking.is_some() {
        return Ok(false);
    }
    match outcome(alloc, c, world, ps, at, call)? {
        Came::GoesTo(place) => ask(alloc, c, world, ps.at_mut(at), call, place),
        _ => Ok(false),
    }
}

// Whether a device is alive: a process holds its master stream.
fn is_alive(streams: &Streams, ps: &[Process], device: u32) -> bool
    ensures { result ≡ list_any (holds_master_of streams.now device) ps.now }
{
    for process in ps {
        if holds_master_of(streams, device, process) {
            return true;
        }
    }
    false
}

/// The end of an ask with its answer, of the process that stands there: whether one kernel makes it.
pub fn enter_done(
    c: &Description,
    world: &mut World,
    ps: &mut Items<Process>,
    at: usize,
    reply: &Reply,
) -> bool
    requires ascending { Ascending ps.old }
    requires caller { IsCaller ps.old at }
    ensures { MakesAmong c.now (λ u q. after_done c.now u q reply.now) world.old ps.old at result world.new ps.new }
{
    let Some(place) = ps.at(at).asking else {
        return false;
    };
    let alive = is_alive(&world.streams, ps.as_slice(), place);
    end_ask(c, world, ps.at_mut(at), place, alive, reply)
}
