ghost use Rattle.std.specs.Prelude.{◌≡◌, ◌≤◌, ◌<◌, IfOk, OnOk, length};
ghost use Rattle.unix_calls.specs.Lawful.{Lawful};
ghost use Rattle.unix_calls.specs.After.{after, after_part};
ghost use Rattle.unix_world.specs.Among.{Ascending};
ghost use Rattle.unix_run.specs.Among.{IsBounded, IsCaller};
ghost use Rattle.unix_run.specs.Entering.{MakesAmong};
ghost use Rattle.unix_world.specs.Worlds.{unix_of};
ghost use Rattle.one_kernel.specs.Verdicts.{way_of};
ghost use Rattle.one_kernel.specs.Applied.{Applies, CallApplies, DiesAmong, LivingApplies, MakesCalled, StandsAtCall, applied_by, counted_world, enters};

use crate::reach::{Reach, go_to_call};
use process_machine::{Call, Program, Reply, call_of};
use sprite_ids::{Items, NoMemory};
use std::alloc::Global;
use unix_calls::{Description, Entry, Part, Process};
use unix_run::{die, enter_ask, enter_done, enter_whole, same_call};
use unix_world::{World, find, program_at};

/// What became of one entry (this project).
#[derive(Clone, Copy, Debug, PartialEq, Eq)]
pub enum Applied {
    /// One kernel makes it; its process did so many instructions up to its call.
    Made(u64),
    /// One kernel doesn't make it.
    NotMade,
    /// Its process's way to its call is longer than it may be.
    Far,
}

// An entry by its part, of the process that stands there at this call.
fn enter_part(
    alloc: Global,
    c: &Description,
    world: &mut World,
    ps: &mut Items<Process>,
    at: usize,
    part: Part,
    call: &Call,
    reply: &Option<Reply>,
) -> Result<bool, NoMemory>
    requires ascending { Ascending ps.old }
    requires caller { IsCaller ps.old at }
    requires bounded { IsBounded call.now }
    requires lawful { Lawful c.now }
    ensures { IfOk result (λ made. MakesAmong c.now (λ u q. after_part c.now u q part call.now reply.now) world.old ps.old at made world.new ps.new) }
{
    match part {
        Part::Whole => match reply {
            Some(reply) => enter_whole(alloc, c, world, ps, at, call, reply),
            None => Ok(false),
        },
        Part::Done => match reply {
            Some(reply) => Ok(enter_done(c, world, ps, at, reply)),
            None => Ok(false),
        },
        Part::Ask => match reply {
            Some(_) => Ok(false),
            None => enter_ask(alloc, c, world, ps, at, call),
        },
        Part::Death => Ok(false),
    }
}

// An entry that claims a call, of the process that stands there at its next call.
fn enter_next(
    alloc: Global,
    c: &Description,
    world: &mut World,
    ps: &mut Items<Process>,
    at: usize,
    entry: &Entry,
    claimed: &Call,
    next: &Call,
) -> Result<bool, NoMemory>
    requires ascending { Ascending ps.old }
    requires there { at < length ps.old }
    requires bounded { IsBounded next.now }
    requires lawful { Lawful c.now }
    ensures { IfOk result (λ made. MakesAmong c.now (enters c.now entry.now claimed.now next.now) world.old ps.old at made world.new ps.new) }
{
    if entry.number == 0 || ps.at(at).calls != entry.number - 1 {
        return Ok(false);
    }
    if !same_call(claimed, next) {
        return Ok(false);
    }
    enter_part(alloc, c, world, ps, at, entry.part, next, &entry.reply)
}

// A death, of the process that stands there.
fn enter_death(ps: &mut Items<Process>, at: usize, entry: &Entry) -> bool
    requires ascending { Ascending ps.old }
    requires there { at < length ps.old }
    ensures { DiesAmong entry.now ps.old at result ps.new }
{
    match entry.part {
        Part::Death => entry.reply.is_none() && die(ps.at_mut(at)),
        _ => false,
    }
}

// What became of an entry whose process stood at its call after that way.
fn applied_by(made: bool, way: u64) -> Applied
    ensures { result ≡ applied_by made way }
{
    if made {
        Applied::Made(way)
    } else {
        Applied::NotMade
    }
}

// An entry that claims a call, of the process that stands there at a system call.
fn enter_called(
    alloc: Global,
    c: &Description,
    world: &mut World,
    ps: &mut Items<Process>,
    at: usize,
    program: &Program,
    entry: &Entry,
    claimed: &Call,
) -> Result<bool, NoMemory>
    requires ascending { Ascending ps.old }
    requires stands { StandsAtCall program.now ps.old at }
    requires lawful { Lawful c.now }
    ensures { IfOk result (λ made. MakesCalled c.now entry.now claimed.now program.now world.old ps.old at made world.new ps.new) }
{
    let next = call_of(alloc, program, &ps.at(at).image)?;
    enter_next(alloc, c, world, ps, at, entry, claimed, &next)
}

// An entry that claims a call, of the process that stands there: its image goes on to its next call.
fn apply_call(
    alloc: Global,
    c: &Description,
    world: &mut World,
    ps: &mut Items<Process>,
    at: usize,
    left: u64,
    entry: &Entry,
    claimed: &Call,
) -> Result<Applied, NoMemory>
    requires ascending { Ascending ps.old }
    requires there { at < length ps.old }
    requires bound { left ≤ 40000000000 }
    requires lawful { Lawful c.now }
    ensures { IfOk result (λ applied. CallApplies c.now left entry.now claimed.now world.old ps.old at applied world.new ps.new) }
{
    let number = ps.at(at).image.program_number();
    let Some(program) = program_at(c.programs.as_slice(), number) else {
        return Ok(Applied::NotMade);
    };
    match go_to_call(program, &mut ps.at_mut(at).image, left) {
        Reach::TooFar => Ok(Applied::Far),
        Reach::NoCall => Ok(Applied::NotMade),
        Reach::BadStep(way) => {
            let made = enter_next(alloc, c, world, ps, at, entry, claimed, &Call::BadStep)?;
            Ok(applied_by(made, way))
        }
        Reach::Call(way) => {
            let made = enter_called(alloc, c, world, ps, at, program, entry, claimed)?;
            Ok(applied_by(made, way))
        }
    }
}

// An entry of the process that stands there, which lives.
fn apply_living(
    alloc: Global,
    c: &Description,
    world: &mut World,
    ps: &mut Items<Process>,
    at: usize,
    left: u64,
    entry: &Entry,
) -> Result<Applied, NoMemory>
    requires ascending { Ascending ps.old }
    requires there { at < length ps.old }
    requires bound { left ≤ 40000000000 }
    requires lawful { Lawful c.now }
    ensures { IfOk result (λ applied. LivingApplies c.now left entry.now world.old ps.old at applied world.new ps.new) }
{
    match &entry.call {
        Some(claimed) => apply_call(alloc, c, world, ps, at, left, entry, claimed),
        None => Ok(applied_by(enter_death(ps, at, entry), 0)),
    }
}

// Counts the entry, where it was made.
fn count_entry(world: &mut World, applied: Applied) -> Result<(), NoMemory>
    ensures { OnOk result (world.new ≡ counted_world applied world.old) }
{
    if let Applied::Made(_) = applied {
        world.entries = world.entries.checked_add(1).ok_or(NoMemory)?;
    }
    Ok(())
}

/// What becomes of an entry whose process may do that many instructions up to its call (this project). Want of memory is also the answer where the
/// count of entries would pass 32 bits.
pub fn apply(
    alloc: Global,
    c: &Description,
    world: &mut World,
    ps: &mut Items<Process>,
    left: u64,
    entry: &Entry,
) -> Result<Applied, NoMemory>
    requires ascending { Ascending ps.old }
    requires bound { left ≤ 40000000000 }
    requires lawful { Lawful c.now }
    ensures { IfOk result (λ applied. Applies c.now left (way_of c.now (unix_of c.now world.old ps.old) entry.now) (after c.now (unix_of c.now world.old ps.old) entry.now) applied world.new ps.new) }
{
    let Some(at) = find(ps.as_slice(), entry.pid) else {
        return Ok(Applied::NotMade);
    };
    if ps.at(at).ending.is_some() {
        return Ok(Applied::NotMade);
    }
    let applied = apply_living(alloc, c, world, ps, at, left, entry)?;
    count_entry(world, applied)?;
    Ok(applied)
}
