ghost use Rattle.std.specs.Prelude.{◌<◌, IfOk};
ghost use Rattle.unix_calls.specs.After.{outcome};
ghost use Rattle.unix_calls.specs.Lawful.{Lawful};
ghost use Rattle.unix_world.specs.Among.{Ascending};
ghost use Rattle.unix_run.specs.Among.{ComesAmong, IsBounded, IsCaller};
ghost use Rattle.unix_run.specs.Outcomes.{Alone, ByName, OnStream};
ghost use Rattle.unix_run.specs.Coming.{Comes};

use crate::answers::refuse;
use crate::came::Came;
use crate::devices::{ioctl, pd_get, pd_put};
use crate::family::{fork, getppid, kill, wait};
use crate::names::{chdir, list, mkdir, rename, rmdir, stat, unlink};
use crate::opening::{open_file, pd_make};
use crate::running::{end, exec, getpid, host, migrate, print, rexec, tick};
use crate::streams::{close, dup, read, seek, size, sync, write};
use process_machine::Call;
use sprite_ids::{Ending, Items, NoMemory};
use std::alloc::Global;
use unix_calls::{Description, Process};
use unix_world::World;

/// What a call comes to of the process that stands at `at` among these, whose image stands at it.
pub fn outcome(
    alloc: Global,
    c: &Description,
    world: &mut World,
    ps: &mut Items<Process>,
    at: usize,
    call: &Call,
) -> Result<Came, NoMemory>
    requires ascending { Ascending ps.old }
    requires caller { IsCaller ps.old at }
    requires bounded { IsBounded call.now }
    requires lawful { Lawful c.now }
    ensures { IfOk result (λ came. ComesAmong c.now (λ u q. outcome c.now u q call.now) world.old ps.old at came world.new ps.new) }
{
    match call {
        Call::Getppid => getppid(alloc, c, world, ps, at),
        Call::Fork => fork(alloc, c, world, ps, at),
        Call::Wait => wait(alloc, c, world, ps, at),
        Call::Kill { pid } => kill(alloc, c, world, ps, at, *pid),
        _ => outcome_alone(alloc, c, world, ps.at_mut(at), call),
    }
}

// A call that looks at no other process: one on the process itself, or the next kind.
fn outcome_alone(
    alloc: Global,
    c: &Description,
    world: &mut World,
    p: &mut Process,
    call: &Call,
) -> Result<Came, NoMemory>
    requires calls { p.old.calls < 4294967295 }
    requires bounded { IsBounded call.now }
    requires lawful { Lawful c.now }
    ensures { IfOk result (λ came. Alone call.now (Comes c.now (λ u q. outcome c.now u q call.now) world.old p.old came world.new p.new)) }
{
    match call {
        Call::Print { bytes } => print(alloc, c, world, p, bytes.as_slice()),
        Call::Exit { code } => end(alloc, c, world, p, Ending::Exit(*code as u8)),
        Call::BadStep => end(alloc, c, world, p, Ending::Bad),
        Call::Getpid => getpid(alloc, c, world, p),
        Call::Host { max } => host(alloc, c, world, p, *max),
        Call::Tick => tick(alloc, c, world, p),
        Call::Exec { name, arg } => exec(alloc, c, world, p, name.as_slice(), *arg),
        Call::Migrate { name } => migrate(alloc, c, world, p, name.as_slice()),
        Call::Rexec { name, host } => {
            rexec(alloc, c, world, p, name.as_slice(), host.as_slice())
        }
        Call::Refused { errno } => Ok(refuse(c, p, *errno)),
        _ => outcome_on_stream(alloc, c, world, p, call),
    }
}

// A call on a stream, or the next kind.
fn outcome_on_stream(
    alloc: Global,
    c: &Description,
    world: &mut World,
    p: &mut Process,
    call: &Call,
) -> Result<Came, NoMemory>
    requires calls { p.old.calls < 4294967295 }
    requires lawful { Lawful c.now }
    ensures { IfOk result (λ came. OnStream call.now (Comes c.now (λ u q. outcome c.now u q call.now) world.old p.old came world.new p.new)) }
{
    match call {
        Call::Close { fd } => close(alloc, c, world, p, *fd),
        Call::Dup { fd } => dup(alloc, c, world, p, *fd),
        Call::Read { fd, length } => read(alloc, c, world, p, *fd, *length),
        Call::Write { fd, bytes } => write(alloc, c, world, p, *fd, bytes.as_slice()),
        Call::Seek { fd, offset } => seek(alloc, c, world, p, *fd, *offset),
        Call::Size { fd } => size(alloc, c, world, p, *fd),
        Call::Sync { fd } => sync(alloc, c, world, p, *fd),
        Call::PdGet { fd, max } => pd_get(alloc, c, world, p, *fd, *max),
        Call::PdPut { fd, bytes, errno } => {
            pd_put(alloc, c, world, p, *fd, bytes.as_slice(), *errno)
        }
        Call::Ioctl { fd, .. } => ioctl(c, world, p, *fd),
        _ => outcome_by_name(alloc, c, world, p, call),
    }
}

// A call on names.
fn outcome_by_name(
    alloc: Global,
    c: &Description,
    world: &mut World,
    p: &mut Process,
    call: &Call,
) -> Result<Came, NoMemory>
    requires calls { p.old.calls < 4294967295 }
    requires lawful { Lawful c.now }
    ensures { IfOk result (λ came. ByName call.now (Comes c.now (λ u q. outcome c.now u q call.now) world.old p.old came world.new p.new)) }
{
    match call {
        Call::OpenFile { path, flags } => open_file(alloc, c, world, p, path.as_slice(), *flags),
        Call::PdMake { path } => pd_make(alloc, c, world, p, path.as_slice()),
        Call::Stat { path } => stat(alloc, c, world, p, path.as_slice()),
        Call::Mkdir { path } => mkdir(alloc, c, world, p, path.as_slice()),
        Call::Rmdir { path } => rmdir(alloc, c, world, p, path.as_slice()),
        Call::Unlink { path } => unlink(alloc, c, world, p, path.as_slice()),
        Call::Rename { old, new } => rename(alloc, c, world, p, old.as_slice(), new.as_slice()),
        Call::List { path, max } => list(alloc, c, world, p, path.as_slice(), *max),
        Call::Chdir { path } => chdir(alloc, c, world, p, path.as_slice()),
        _ => Ok(Came::Waits),
    }
}
