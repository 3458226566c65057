ghost use Rattle.std.specs.Prelude.{◌≡◌, OnOk};
ghost use Rattle.client_procs.specs.Moving.{begins_here, client_named, execs, goes_to, is_kernel, kernel_at, kernel_named, migrates, moves_to_host, rexecs, stays};
ghost use Rattle.std.specs.List.{position};

use crate::launching::{begin_program, program_named};
use client_homes::{ClientProcs, is_client};
use client_moves::{Route, freeze, holds_master, nothing};
use process_machine::Reply;
use sprite_ids::{Bytes, Errno, Kernel, NoMemory};
use std::alloc::Global;
use unix_calls::{About, KernelLine};

// `exec`: the process begins the program of that name. NoEntry: there is none.
pub(crate) fn exec(
    client: &mut ClientProcs,
    alloc: Global,
    about: &About,
    name: &Bytes,
    arg: u64,
) -> Result<(), NoMemory>
    ensures { OnOk result (client.new ≡ execs about.now name.now arg client.old) }
{
    match program_named(client.programs.as_slice(), name) {
        Some(program) => begin_here(client, alloc, about, program, arg),
        None => client.answer_here(alloc, about.pid, Reply::Error(Errno::NoEntry)),
    }
}

fn begin_here(
    client: &mut ClientProcs,
    alloc: Global,
    about: &About,
    program: u8,
    arg: u64,
) -> Result<(), NoMemory>
    ensures { OnOk result (client.new ≡ begins_here about.now program arg client.old) }
{
    client.enter_own(alloc, about.pid, &nothing(alloc))?;
    begin_program(client, alloc, about.pid, program, arg)?;
    client.reply(about.pid, nothing(alloc))
}

// `migrate`: the process goes to the kernel of that name (Douglis and Ousterhout 1991).
pub(crate) fn migrate(
    client: &mut ClientProcs,
    alloc: Global,
    about: &About,
    name: &Bytes,
) -> Result<(), NoMemory>
    ensures { OnOk result (client.new ≡ migrates about.now name.now client.old) }
{
    move_to(client, alloc, about, name, None)
}

// `rexec`: the process begins the program of that name at that kernel (Douglis and Ousterhout 1991). NoEntry: there is no such
// program.
pub(crate) fn rexec(
    client: &mut ClientProcs,
    alloc: Global,
    about: &About,
    name: &Bytes,
    host: &Bytes,
) -> Result<(), NoMemory>
    ensures { OnOk result (client.new ≡ rexecs about.now name.now host.now client.old) }
{
    match program_named(client.programs.as_slice(), name) {
        Some(program) => move_to(client, alloc, about, host, Some(program)),
        None => client.answer_here(alloc, about.pid, Reply::Error(Errno::NoEntry)),
    }
}

// BadHost: no client has that name; Busy: the process holds the master's end of a pseudo-device. Where it is there already, the
// call is answered at once.
fn move_to(
    client: &mut ClientProcs,
    alloc: Global,
    about: &About,
    host: &Bytes,
    program: Option<u8>,
) -> Result<(), NoMemory>
    ensures { OnOk result (client.new ≡ moves_to_host about.now host.now program client.old) }
{
    match client_named(client.kernels.as_slice(), host) {
        Some(to) => go_to(client, alloc, about, to, program),
        None => client.answer_here(alloc, about.pid, Reply::Error(Errno::BadHost)),
    }
}

fn go_to(
    client: &mut ClientProcs,
    alloc: Global,
    about: &About,
    to: Kernel,
    program: Option<u8>,
) -> Result<(), NoMemory>
    ensures { OnOk result (client.new ≡ goes_to about.now to program client.old) }
{
    if holds_master(client, alloc, about.pid)? {
        return client.answer_here(alloc, about.pid, Reply::Error(Errno::Busy));
    }
    if to == client.kernel {
        return stay(client, alloc, about, program);
    }
    let route = Route {
        to,
        about: Some(*about),
        program,
    };
    freeze(client, alloc, about.pid, &route)
}

fn stay(
    client: &mut ClientProcs,
    alloc: Global,
    about: &About,
    program: Option<u8>,
) -> Result<(), NoMemory>
    ensures { OnOk result (client.new ≡ stays about.now program client.old) }
{
    match program {
        Some(program) => begin_here(client, alloc, about, program, 0),
        None => client.answer_here(alloc, about.pid, nothing(alloc)),
    }
}

// The client of that name.
fn client_named(kernels: &[KernelLine], name: &Bytes) -> Option<Kernel>
    ensures { result ≡ client_named kernels.now name.now }
{
    match kernel_named(kernels, name) {
        Some(kernel) => {
            if is_client(kernels, kernel) {
                Some(kernel)
            } else {
                None
            }
        }
        None => None,
    }
}

fn kernel_named(kernels: &[KernelLine], name: &Bytes) -> Option<Kernel>
    ensures { result ≡ kernel_named kernels.now name.now }
{
    match place_of(kernels, name) {
        Some(place) => kernel_at(place),
        None => None,
    }
}

fn place_of(kernels: &[KernelLine], name: &Bytes) -> Option<usize>
    ensures { result ≡ position (is_kernel name.now) kernels.now }
{
    kernels.iter().position(|line| line.name == *name)
}

// The kernel whose line stands at that place.
pub(crate) fn kernel_at(place: usize) -> Option<Kernel>
    ensures { result ≡ kernel_at place }
{
    if place >= 16 {
        return None;
    }
    match Kernel::new(place as u8 + 1) {
        Some(kernel) => Some(kernel),
        None => unreachable!(),
    }
}
