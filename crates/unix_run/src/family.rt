ghost use Rattle.std.specs.Prelude.{◌≡◌, ◌<◌, ◌==◌, ◌&&◌, IfOk, OnOk, length, if◌then◌else◌};
ghost use Rattle.std.specs.List.{position};
ghost use Rattle.std.specs.Option.{option_and_then};
ghost use Rattle.unix_calls.specs.declared.state.Process.{Process};
ghost use Rattle.unix_calls.specs.Answers.{given_by, nothing, program_at};
ghost use Rattle.unix_calls.specs.ProcessCalls.{child_of, fork, getppid, is_unwaited, kill, living_number, status_of, wait};
ghost use Rattle.unix_calls.specs.State.{process_at, put_process};
ghost use Rattle.unix_world.specs.Among.{Ascending};
ghost use Rattle.unix_run.specs.Among.{ComesAmong, IsCaller};
ghost use Rattle.unix_run.specs.Family.{IsMarked, is_ended_child};

use crate::answers::{give_two, give_value, nothing, refuse};
use crate::came::Came;
use process_machine::{Image, give};
use sprite_ids::{Bytes, Copying, Ending, Errno, Items, NoMemory, Pid};
use std::alloc::Global;
use unix_calls::{Description, Process};
use unix_world::{World, find, find_number, next_pid, program_at, put};

/// `getppid`: the parent's number; 0 for a process that runs from the start or whose parent has ended.
pub(crate) fn getppid(
    alloc: Global,
    c: &Description,
    world: &mut World,
    ps: &mut Items<Process>,
    at: usize,
) -> Result<Came, NoMemory>
    requires ascending { Ascending ps.old }
    requires caller { IsCaller ps.old at }
    ensures { IfOk result (λ came. ComesAmong c.now (λ u q. getppid c.now u q) world.old ps.old at came world.new ps.new) }
{
    let parent = ps.at(at).parent;
    let number = living_number(ps.as_slice(), parent);
    Ok(give_value(alloc, c, ps.at_mut(at), number))
}

// The number of a living process; 0 where there is none.
fn living_number(ps: &[Process], pid: Option<Pid>) -> u64
    requires { Ascending ps.now }
    ensures { result ≡ living_number (option_and_then (process_at ps.now) pid) }
{
    let Some(pid) = pid else {
        return 0;
    };
    let Some(at) = find(ps, pid) else {
        return 0;
    };
    if ps[at].ending.is_some() {
        return 0;
    }
    u64::from(ps[at].pid.number())
}

/// `fork`: the child's number; the child's own call gives 0. TooMany: the home made 200.
pub(crate) fn fork(
    alloc: Global,
    c: &Description,
    world: &mut World,
    ps: &mut Items<Process>,
    at: usize,
) -> Result<Came, NoMemory>
    requires ascending { Ascending ps.old }
    requires caller { IsCaller ps.old at }
    ensures { IfOk result (λ came. ComesAmong c.now (λ u q. fork c.now u q) world.old ps.old at came world.new ps.new) }
{
    let parent = ps.at(at).pid;
    let Some(pid) = next_pid(ps.as_slice(), parent.home()) else {
        return Ok(refuse(c, ps.at_mut(at), Errno::TooMany));
    };
    let child = child_of(alloc, c, ps.at(at), pid)?;
    let came = give_value(alloc, c, ps.at_mut(at), u64::from(pid.number()));
    add_child(alloc, ps, child, parent)?;
    Ok(came)
}

// The child of a process: with the same image, descriptors and cwd; its call gives 0.
fn child_of(alloc: Global, c: &Description, p: &Process, pid: Pid) -> Result<Process, NoMemory>
    ensures { IfOk result (λ child. child ≡ child_of c.now p.now pid) }
{
    let image = image_of_child(alloc, c, &p.image)?;
    let cwd = p.cwd.copy(alloc)?;
    Ok(Process {
        pid,
        image,
        descriptors: p.descriptors,
        cwd,
        parent: Some(p.pid),
        calls: 0,
        asking: None,
        killed: false,
        ending: None,
        waited: false,
        console: Bytes::new(alloc),
    })
}

// A copy of the image, in which its call has given 0.
fn image_of_child(alloc: Global, c: &Description, image: &Image) -> Result<Image, NoMemory>
    ensures { IfOk result (λ copy. copy ≡ given_by (program_at c.now.programs image.now.number) image.now nothing) }
{
    let mut copy = image.copy(alloc)?;
    if let Some(program) = program_at(c.programs.as_slice(), image.program_number()) {
        give(program, &mut copy, &nothing(alloc));
    }
    Ok(copy)
}

// Puts the child among the processes. A parent stays, should the child have its number, as never happens.
fn add_child(
    alloc: Global,
    ps: &mut Items<Process>,
    child: Process,
    parent: Pid,
) -> Result<(), NoMemory>
    ensures { OnOk result (ps.new ≡ (if child.pid == parent then ps.old else put_process child ps.old)) }
{
    if child.pid == parent {
        return Ok(());
    }
    put(alloc, ps, child)
}

/// `wait`: number and status of the ended child of least number that wasn't waited for. NoChild: all children were waited for, or there
/// are none. It waits where none of them has ended.
pub(crate) fn wait(
    alloc: Global,
    c: &Description,
    world: &mut World,
    ps: &mut Items<Process>,
    at: usize,
) -> Result<Came, NoMemory>
    requires ascending { Ascending ps.old }
    requires caller { IsCaller ps.old at }
    ensures { IfOk result (λ came. ComesAmong c.now (λ u q. wait c.now u q) world.old ps.old at came world.new ps.new) }
{
    let parent = ps.at(at).pid;
    if first_unwaited(ps.as_slice(), parent).is_none() {
        return Ok(refuse(c, ps.at_mut(at), Errno::NoChild));
    }
    let Some(child) = first_ended(ps.as_slice(), parent) else {
        return Ok(Came::Waits);
    };
    let number = u64::from(ps.at(child).pid.number());
    let status = status_of(ps.at(child).ending);
    mark_waited(ps, child, at);
    Ok(give_two(alloc, c, ps.at_mut(at), number, status))
}

// Whether a process is a child of that one for which it hasn't waited.
fn is_unwaited(parent: Pid, child: &Process) -> bool
    ensures { result ≡ is_unwaited parent child.now }
{
    match child.parent {
        Some(pid) => pid == parent && !child.waited,
        None => false,
    }
}

// Whether it has ended besides.
fn is_ended_child(parent: Pid, child: &Process) -> bool
    ensures { result ≡ is_ended_child parent child.now }
{
    is_unwaited(parent, child) && child.ending.is_some()
}

// Where the first child stands for which that process hasn't waited.
fn first_unwaited(ps: &[Process], parent: Pid) -> Option<usize>
    ensures { result ≡ position (is_unwaited parent) ps.now }
{
    ps.iter().position(|child| is_unwaited(parent, child))
}

// Where the first of these stands that has ended.
fn first_ended(ps: &[Process], parent: Pid) -> Option<usize>
    ensures { result ≡ position (is_ended_child parent) ps.now }
{
    ps.iter().position(|child| is_ended_child(parent, child))
}

// What a parent is told: the exit code, 256 for a bad step, 257 for a death.
fn status_of(ending: Option<Ending>) -> u64
    ensures { result ≡ status_of ending }
{
    match ending {
        None => 0,
        Some(Ending::Exit(code)) => u64::from(code),
        Some(Ending::Bad) => 256,
        Some(Ending::Killed) => 257,
    }
}

// The child was waited for. The caller itself stays as it is, should it be its own child, as never happens.
fn mark_waited(ps: &mut Items<Process>, child: usize, at: usize)
    requires { child < length ps.old }
    ensures { IsMarked child at ps.old ps.new }
{
    if child != at {
        ps.at_mut(child).waited = true;
    }
}

/// `kill pid`: a kill of that process is pending; it may be the caller. NoProcess: it was never born, or has ended.
pub(crate) fn kill(
    alloc: Global,
    c: &Description,
    world: &mut World,
    ps: &mut Items<Process>,
    at: usize,
    pid: u64,
) -> Result<Came, NoMemory>
    requires ascending { Ascending ps.old }
    requires caller { IsCaller ps.old at }
    ensures { IfOk result (λ came. ComesAmong c.now (λ u q. kill c.now u q pid) world.old ps.old at came world.new ps.new) }
{
    let Some(target) = find_number(ps.as_slice(), pid) else {
        return Ok(refuse(c, ps.at_mut(at), Errno::NoProcess));
    };
    if ps.at(target).ending.is_some() {
        return Ok(refuse(c, ps.at_mut(at), Errno::NoProcess));
    }
    ps.at_mut(target).killed = true;
    Ok(give_value(alloc, c, ps.at_mut(at), 0))
}
