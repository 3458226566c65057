ghost use Rattle.std.specs.Prelude.{◌≡◌, ◌<◌, ◌≤◌, ◌+◌, ◌==◌, IfOk, length, not};
ghost use Rattle.std.specs.List.{list_all};
ghost use Rattle.cluster_kernels.specs.Kernels.{has_ended};
ghost use Rattle.cluster_choices.specs.Choosing.{choices_at};
ghost use Rattle.sprite_cluster.specs.Finishing.{are_busy, finish_of, is_busy, may_go_on};

use call_journal::Trace;
use cluster_bursts::has_job;
use cluster_choices::choice_at;
use cluster_kernels::{KernelState, State, has_ended};
use kernel_rpc::Wire;
use link_plan::Link;
use sprite_ids::{Finish, Kernel, NoMemory};
use unix_calls::Description;
use wire_format::Packet;

/// How the run stands: the first that holds of `AllEnded`, `Budget`, `Running` and `Stalled`. It takes no memory; want of memory is the
/// answer where the kernels are more than 16, which never comes.
pub(crate) fn finish<L: Link>(
    c: &Description,
    trace: &Trace,
    wire: &Wire<Packet, L>,
    state: &State,
) -> Result<Finish, NoMemory>
    ensures { IfOk result (λ finish. finish ≡ finish_of c.now trace.now wire.now.machine state.now) }
{
    if have_ended(state.kernels.as_slice()) {
        return Ok(Finish::AllEnded);
    }
    if u64::from(c.budget) <= trace.units() {
        return Ok(Finish::Budget);
    }
    if may_go_on(c.kernels.len(), wire, state)? {
        return Ok(Finish::Running);
    }
    Ok(Finish::Stalled)
}

// Whether all processes have ended.
fn have_ended(kernels: &[KernelState]) -> bool
    ensures { result ≡ list_all has_ended kernels.now }
{
    kernels.iter().all(|kernel| has_ended(kernel))
}

// Whether something can happen in a cluster of so many kernels. Want of memory is the answer where they are more than 16, which never
// comes.
fn may_go_on<L: Link>(
    kernels: usize,
    wire: &Wire<Packet, L>,
    state: &State,
) -> Result<bool, NoMemory>
    ensures { IfOk result (λ may. may ≡ may_go_on kernels wire.now.machine state.now) }
{
    if state.out.len() != 0 {
        return Ok(true);
    }
    let count = u8::try_from(kernels).or(Err(NoMemory))?;
    if count > 16 {
        return Err(NoMemory);
    }
    Ok(are_busy(count, wire, state))
}

// Whether something can happen at one of the first kernels.
fn are_busy<L: Link>(count: u8, wire: &Wire<Packet, L>, state: &State) -> bool
    requires { count ≤ 16 }
    ensures { result ≡ are_busy count wire.now.machine state.now }
{
    let mut busy = false;
    for before in 0..count {
        if !busy {
            busy = is_busy_after(before, wire, state);
        }
    }
    busy
}

// Whether something can happen at the kernel behind so many.
fn is_busy_after<L: Link>(before: u8, wire: &Wire<Packet, L>, state: &State) -> bool
    requires { before < 16 }
    ensures { result ≡ is_busy wire.now.machine state.now (before + 1) }
{
    let Some(kernel) = Kernel::new(before + 1) else {
        unreachable!()
    };
    is_busy(kernel, wire, state)
}

// Whether something can happen at the kernel: a process can run, or it has a choice.
fn is_busy<L: Link>(kernel: Kernel, wire: &Wire<Packet, L>, state: &State) -> bool
    ensures { result ≡ is_busy wire.now.machine state.now kernel }
{
    choice_at(state, wire, kernel, 0).is_some() || has_job(state, kernel)
}
