ghost use Rattle.std.specs.Prelude.{◌≡◌, ◌<◌, ◌≤◌, ◌+◌, [], IfOk, OnOk, slice_index};
ghost use Rattle.std.specs.Option.{option_map};
ghost use Rattle.process_machine.specs.Fresh.{fresh_machine};
ghost use Rattle.unix_calls.specs.Answers.{gives, nothing};
ghost use Rattle.unix_calls.specs.ProcessCalls.{ends, exec, host, is_host, kernel_name, migrate, move_refusal, print, program_named, rexec, tick};
ghost use Rattle.unix_run.specs.declared.came.Came.TheVariants as came;
ghost use Rattle.unix_world.specs.Worlds.{unix_of};
ghost use Rattle.unix_run.specs.Coming.{Comes};

use crate::answers::{answer, give_value, nothing, refuse};
use crate::came::Came;
use process_machine::{Image, Program, Reply};
use sprite_ids::{Bytes, Copying, Ending, Errno, NoMemory};
use std::alloc::Global;
use unix_calls::{Description, KernelLine, Process, ProgramLine};
use unix_world::{World, holds_a_master};

/// `print addr len`: the bytes join the console.
pub(crate) fn print(
    alloc: Global,
    c: &Description,
    world: &mut World,
    p: &mut Process,
    bytes: &[u8],
) -> Result<Came, NoMemory>
    requires { p.old.calls < 4294967295 }
    ensures { IfOk result (λ came. Comes c.now (λ u q. print c.now u q bytes.now) world.old p.old came world.new p.new) }
{
    p.console.append(bytes)?;
    Ok(give_value(alloc, c, p, 0))
}

/// `exit code`, and a bad step: the process ends.
pub(crate) fn end(
    alloc: Global,
    c: &Description,
    world: &mut World,
    p: &mut Process,
    ending: Ending,
) -> Result<Came, NoMemory>
    requires { p.old.calls < 4294967295 }
    ensures { IfOk result (λ came. Comes c.now (λ u q. ends u q ending) world.old p.old came world.new p.new) }
{
    p.descriptors = [None; 16];
    p.calls += 1;
    p.ending = Some(ending);
    Ok(Came::Answered(nothing(alloc)))
}

/// `getpid`: the process's number.
pub(crate) fn getpid(
    alloc: Global,
    c: &Description,
    world: &mut World,
    p: &mut Process,
) -> Result<Came, NoMemory>
    requires { p.old.calls < 4294967295 }
    ensures { IfOk result (λ came. Comes c.now (λ u q. gives c.now u q q.pid) world.old p.old came world.new p.new) }
{
    let number = u64::from(p.pid.number());
    Ok(give_value(alloc, c, p, number))
}

/// `host addr max`: length and bytes of the home's name. Invalid: `max` under the length.
pub(crate) fn host(
    alloc: Global,
    c: &Description,
    world: &mut World,
    p: &mut Process,
    max: u64,
) -> Result<Came, NoMemory>
    requires { p.old.calls < 4294967295 }
    ensures { IfOk result (λ came. Comes c.now (λ u q. host c.now u q max) world.old p.old came world.new p.new) }
{
    let bytes = kernel_name(alloc, c.kernels.as_slice(), p.pid.home().number())?;
    let first = bytes.len() as u64;
    if max < first {
        return Ok(refuse(c, p, Errno::Invalid));
    }
    let second = 0;
    Ok(answer(
        c,
        p,
        Reply::Value {
            first,
            second,
            bytes,
        },
    ))
}

// The name of the kernel of that number, from 1; no bytes where there is none.
fn kernel_name(alloc: Global, lines: &[KernelLine], number: u8) -> Result<Bytes, NoMemory>
    requires { 1 ≤ number }
    ensures { IfOk result (λ name. name ≡ kernel_name lines.now number) }
{
    let place = usize::from(number - 1);
    if place < lines.len() {
        return lines[place].name.copy(alloc);
    }
    Ok(Bytes::new(alloc))
}

/// `tick`: the home's count, after adding one. A count of 2^64 - 1 can't grow: that is answered as want of memory.
pub(crate) fn tick(
    alloc: Global,
    c: &Description,
    world: &mut World,
    p: &mut Process,
) -> Result<Came, NoMemory>
    requires { p.old.calls < 4294967295 }
    ensures { IfOk result (λ came. Comes c.now (λ u q. tick c.now u q) world.old p.old came world.new p.new) }
{
    let home = usize::from(p.pid.home().number() - 1);
    let count = count_at(world.ticks.as_slice(), home)
        .checked_add(1)
        .ok_or(NoMemory)?;
    if home < world.ticks.len() {
        let _before = world.ticks.replace(home, count);
    }
    Ok(give_value(alloc, c, p, count))
}

// The count at that place; 0 behind the last.
fn count_at(ticks: &[u64], place: usize) -> u64
    ensures { result ≡ slice_index ticks.now place }
{
    if place < ticks.len() { ticks[place] } else { 0 }
}

// The program of that name.
fn program_named<'a>(lines: &'a [ProgramLine], name: &[u8]) -> Option<&'a Program>
    ensures { option_map (λ program. program.now) result ≡ program_named lines.now name.now }
{
    for line in lines {
        if line.name.as_slice() == name {
            return Some(&line.program);
        }
    }
    None
}

// The process has a fresh image of the program: nothing is put into it, and descriptors and cwd stay.
fn restart(alloc: Global, p: &mut Process, program: &Program, arg: u64) -> Result<Came, NoMemory>
    requires { p.old.calls < 4294967295 }
    ensures process { OnOk result (p.new ≡ record p.old { image = fresh_machine program.now arg; calls = p.old.calls + 1 }) }
    ensures came { IfOk result (λ told. told ≡ came.Answered nothing) }
{
    p.image = Image::fresh(alloc, program, arg)?;
    p.calls += 1;
    Ok(Came::Answered(nothing(alloc)))
}

/// `exec name len arg`: a fresh image. NoEntry: no such program.
pub(crate) fn exec(
    alloc: Global,
    c: &Description,
    world: &mut World,
    p: &mut Process,
    name: &[u8],
    arg: u64,
) -> Result<Came, NoMemory>
    requires { p.old.calls < 4294967295 }
    ensures { IfOk result (λ came. Comes c.now (λ u q. exec c.now u q name.now arg) world.old p.old came world.new p.new) }
{
    match program_named(c.programs.as_slice(), name) {
        None => Ok(refuse(c, p, Errno::NoEntry)),
        Some(program) => restart(alloc, p, program, arg),
    }
}

// Whether a client kernel has the name.
fn is_host(lines: &[KernelLine], name: &[u8]) -> bool
    ensures { result ≡ is_host lines.now name.now }
{
    for line in lines {
        if line.name.as_slice() == name && line.serves.is_empty() {
            return true;
        }
    }
    false
}

// Why a process can't move to the host of that name. BadHost: no client kernel; Busy: it holds a master stream.
fn move_refusal(c: &Description, world: &World, p: &Process, name: &[u8]) -> Option<Errno>
    ensures { result ≡ move_refusal c.now (unix_of c.now world.now []) p.now name.now }
{
    if !is_host(c.kernels.as_slice(), name) {
        return Some(Errno::BadHost);
    }
    if holds_a_master(world, p) {
        return Some(Errno::Busy);
    }
    None
}

/// `migrate name len`: nothing changes here. BadHost; Busy (Douglis and Ousterhout 1991).
pub(crate) fn migrate(
    alloc: Global,
    c: &Description,
    world: &mut World,
    p: &mut Process,
    name: &[u8],
) -> Result<Came, NoMemory>
    requires { p.old.calls < 4294967295 }
    ensures { IfOk result (λ came. Comes c.now (λ u q. migrate c.now u q name.now) world.old p.old came world.new p.new) }
{
    if let Some(errno) = move_refusal(c, world, p, name) {
        return Ok(refuse(c, p, errno));
    }
    Ok(give_value(alloc, c, p, 0))
}

/// `rexec name len host hlen`: a fresh image with argument 0. NoEntry: no such program; BadHost; Busy (Douglis and Ousterhout 1991).
pub(crate) fn rexec(
    alloc: Global,
    c: &Description,
    world: &mut World,
    p: &mut Process,
    name: &[u8],
    host: &[u8],
) -> Result<Came, NoMemory>
    requires { p.old.calls < 4294967295 }
    ensures { IfOk result (λ came. Comes c.now (λ u q. rexec c.now u q name.now host.now) world.old p.old came world.new p.new) }
{
    let Some(program) = program_named(c.programs.as_slice(), name) else {
        return Ok(refuse(c, p, Errno::NoEntry));
    };
    if let Some(errno) = move_refusal(c, world, p, host) {
        return Ok(refuse(c, p, errno));
    }
    restart(alloc, p, program, 0)
}
