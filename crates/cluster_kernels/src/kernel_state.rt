ghost use Rattle.std.specs.Prelude.{◌≡◌, IfOk};
ghost use Rattle.cluster_kernels.specs.Kernels.{can_take, has_ended, has_wanted_page, image_put, kernel_step};

use client_procs::ClientProcs;
use kernel_steps::{Input, Out};
use packet_bodies::Request;
use process_machine::Image;
use server_kernel::Server;
use sprite_ids::{NoMemory, Pid, TxNo};
use std::alloc::Global;

/// A kernel of the cluster between two of its steps.
#[derive(Debug, Drop)]
pub enum KernelState {
    /// A kernel without domains, on which processes run.
    Client(ClientProcs),
    /// A kernel that serves domains.
    Server(Server),
}

/// One step of the kernel; what it says comes back. The one error is want of memory.
pub(crate) fn step_kernel(
    alloc: Global,
    kernel: &mut KernelState,
    input: &Input,
    next: TxNo,
    step: u64,
) -> Result<Out, NoMemory>
    ensures { IfOk result (λ out. kernel_step kernel.old input.now next step ≡ (kernel.new, out)) }
{
    match kernel {
        KernelState::Client(client) => client_procs::take(client, alloc, input, next, step),
        KernelState::Server(server) => server.take(alloc, input, next),
    }
}

/// Whether the kernel can take what comes. The one error is want of memory.
pub(crate) fn can_take(alloc: Global, kernel: &KernelState, input: &Input) -> Result<bool, NoMemory>
    ensures { IfOk result (λ can. can ≡ can_take input.now kernel.now) }
{
    match kernel {
        KernelState::Client(client) => client_procs::can_take(client, alloc, input),
        KernelState::Server(server) => Ok(has_wanted_page(server, input)),
    }
}

// Whether the server keeps the page for which it is asked, where it is asked for one.
fn has_wanted_page(server: &Server, input: &Input) -> bool
    ensures { result ≡ has_wanted_page input.now server.now }
{
    match input {
        Input::Request { body, .. } => match body {
            Request::PageIn { pid, page } => server.swap.has(*pid, *page),
            _ => true,
        },
        _ => true,
    }
}

/// The process has that image from now on, where it is kept at the kernel.
pub(crate) fn put_image(kernel: &mut KernelState, pid: Pid, image: Image)
    ensures { kernel.new ≡ image_put pid image kernel.old }
{
    match kernel {
        KernelState::Client(client) => client_procs::set_image(client, pid, image),
        KernelState::Server(_) => {}
    }
}

/// Whether all processes whose home is the kernel have ended.
pub fn has_ended(kernel: &KernelState) -> bool
    ensures { result ≡ has_ended kernel.now }
{
    match kernel {
        KernelState::Client(client) => client_procs::all_ended(client),
        KernelState::Server(_) => true,
    }
}
