ghost use Rattle.std.specs.Prelude.{◌≡◌, IfOk};
ghost use Rattle.client_homes.specs.Clusters.{given_by, is_client, name_of};

use packet_bodies::{ReplyBody, Request};
use process_machine::{Image, Reply, give};
use sprite_ids::{Bytes, Copying, Kernel, NoMemory};
use std::alloc::Global;
use unix_calls::{KernelLine, ProgramLine};

/// Whether the kernel is a client: one of the cluster that serves no domain.
pub fn is_client(kernels: &[KernelLine], kernel: Kernel) -> bool
    ensures { result ≡ is_client kernels.now kernel }
{
    match kernels.get(usize::from(kernel.number() - 1)) {
        Some(line) => line.serves.len() == 0,
        None => false,
    }
}

// The kernel's name; no bytes where it isn't one of the cluster.
pub(crate) fn name_of(
    alloc: Global,
    kernels: &[KernelLine],
    kernel: Kernel,
) -> Result<Bytes, NoMemory>
    ensures { IfOk result (λ name. name ≡ name_of kernels.now kernel) }
{
    match kernels.get(usize::from(kernel.number() - 1)) {
        Some(line) => line.name.copy(alloc),
        None => Ok(Bytes::new(alloc)),
    }
}

/// Puts the reply of the call at which the image stands into it. An image of no program of the cluster stays as it is.
pub fn give_in(programs: &[ProgramLine], image: &mut Image, reply: &Reply)
    ensures { image.new ≡ given_by programs.now image.old reply.now }
{
    let number = image.program_number();
    if number == 0 {
        return;
    }
    match programs.get(usize::from(number - 1)) {
        Some(line) => give(&line.program, image, reply),
        None => {}
    }
}
