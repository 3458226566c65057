ghost use Rattle.std.specs.Prelude.{◌≡◌, ◌∷◌, [], IfOk, OnOk, replicate};
ghost use Rattle.cluster_kernels.specs.Booted.{AreKernels, IsBooted, IsKernel, MoreKernels};

use crate::kernel_state::KernelState;
use crate::state::State;
use kernel_steps::Queue;
use server_kernel::Server;
use sprite_ids::{Items, Kernel, NoMemory};
use std::alloc::Global;
use unix_calls::{Description, KernelLine};

/// The kernels at the start, which have done nothing. The one error is want of memory.
pub fn boot(alloc: Global, c: &Description) -> Result<State, NoMemory>
    ensures { IfOk result (IsBooted c.now) }
{
    let count = c.kernels.len();
    let steps = Items::of_vec(no_steps(alloc, count)?);
    let last = Items::of_vec(nobody(alloc, count)?);
    let kernels = boot_all(alloc, c)?;
    Ok(State {
        kernels,
        steps,
        last,
        out: Queue::new(alloc),
        told: Items::new(alloc),
    })
}

// All kernels, by their numbers.
#[tactic(auto, using(crate::proofs::BootLaws::all_booted))]
fn boot_all(alloc: Global, c: &Description) -> Result<Items<KernelState>, NoMemory>
    ensures { IfOk result (AreKernels c.now 1 c.now.kernels) }
{
    let mut kernels = Items::new(alloc);
    match boot_from(alloc, c, 1, c.kernels.as_slice(), &mut kernels) {
        Ok(()) => Ok(kernels),
        Err(NoMemory) => Err(NoMemory),
    }
}

// Puts the kernels of these lines, the first of which has that number. There are at most 16.
#[tactic(auto, using(crate::proofs::BootLaws::none_booted, crate::proofs::BootLaws::one_booted))]
fn boot_from(
    alloc: Global,
    c: &Description,
    number: u8,
    lines: &[KernelLine],
    kernels: &mut Items<KernelState>,
) -> Result<(), NoMemory>
    ensures { OnOk result (MoreKernels c.now number lines.now kernels.old kernels.new) }
{
    let [line, lines @ ..] = lines else {
        return Ok(());
    };
    let kernel = Kernel::new(number).ok_or(NoMemory)?;
    put_one(alloc, c, kernel, line, kernels)?;
    boot_from(alloc, c, number + 1, lines, kernels)
}

// Puts one kernel.
fn put_one(
    alloc: Global,
    c: &Description,
    kernel: Kernel,
    line: &KernelLine,
    kernels: &mut Items<KernelState>,
) -> Result<(), NoMemory>
    ensures { OnOk result (MoreKernels c.now kernel (line.now ∷ []) kernels.old kernels.new) }
{
    kernels.push(boot_one(alloc, c, kernel, line)?)
}

// One kernel: it is a server exactly where it serves a domain.
fn boot_one(
    alloc: Global,
    c: &Description,
    kernel: Kernel,
    line: &KernelLine,
) -> Result<KernelState, NoMemory>
    ensures { IfOk result (IsKernel c.now kernel line.now.serves) }
{
    match line.serves.as_slice() {
        [] => {
            let client = client_procs::boot(alloc, c, kernel)?;
            Ok(KernelState::Client(client))
        }
        _ => match Server::boot(alloc, c, kernel)? {
            Some(server) => Ok(KernelState::Server(server)),
            // It never comes, since the paths of a lawful description fit together.
            None => Err(NoMemory),
        },
    }
}

// That so many kernels have recorded no step.
fn no_steps(alloc: Global, count: usize) -> Result<Vec<u64>, NoMemory>
    ensures { IfOk result (λ zeros. zeros.items ≡ replicate count 0) }
{
    let mut zeros = Vec::new(alloc);
    zeros.resize(count, 0)?;
    Ok(zeros)
}

// That so many kernels have run no process.
fn nobody(alloc: Global, count: usize) -> Result<Vec<u32>, NoMemory>
    ensures { IfOk result (λ zeros. zeros.items ≡ replicate count 0) }
{
    let mut zeros = Vec::new(alloc);
    zeros.resize(count, 0)?;
    Ok(zeros)
}
