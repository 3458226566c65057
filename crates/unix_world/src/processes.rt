ghost use Rattle.std.specs.Prelude.{◌≡◌, ◌==◌, OnOk, nat_le, slice_get};
ghost use Rattle.std.specs.List.{position_or_len};
ghost use Rattle.unix_calls.specs.declared.state.Process.{Process};
ghost use Rattle.unix_calls.specs.Lawful.{holds};
ghost use Rattle.unix_calls.specs.State.{births, put_process};
ghost use Rattle.unix_world.specs.Among.{Ascending, IsNext, StandsAt};

use sprite_ids::{Items, Kernel, NoMemory, Pid};
use std::alloc::Global;
use unix_calls::Process;

/// Where the process of that number stands among these, which ascend by number; None exactly where there is none.
pub fn find(ps: &[Process], pid: Pid) -> Option<usize>
    requires { Ascending ps.now }
    ensures { StandsAt ps.now pid result }
{
    find_number(ps, u64::from(pid.number()))
}

/// Where the process of that number stands, which may be any number.
pub fn find_number(ps: &[Process], number: u64) -> Option<usize>
    requires { Ascending ps.now }
    ensures { StandsAt ps.now number result }
{
    let mut low = 0;
    let mut high = ps.len();
    while low < high {
        let middle = low + (high - low) / 2;
        let found = u64::from(ps[middle].pid.number());
        if found == number {
            return Some(middle);
        }
        if found < number {
            low = middle + 1;
        } else {
            high = middle;
        }
    }
    None
}

/// The number that the home's next process gets; None exactly where the home has made 200.
pub fn next_pid(ps: &[Process], home: Kernel) -> Option<Pid>
    ensures { IsNext ps.now home result }
{
    let births = births(ps, home);
    if births >= 200 {
        return None;
    }
    Pid::new(home, 1 + births as u32)
}

// How many processes the home has made.
fn births(ps: &[Process], home: Kernel) -> usize
    ensures { result ≡ births ps.now home }
{
    ps.iter()
        .filter(|process| process.pid.home() == home)
        .count()
}

/// Puts the process in its place, by ascending number; it replaces one that has its number. The one error is want of memory.
pub fn put(alloc: Global, processes: &mut Items<Process>, process: Process) -> Result<(), NoMemory>
    ensures { OnOk result (processes.new ≡ put_process process processes.old) }
{
    let at = place_for(processes.as_slice(), process.pid);
    if is_at(processes.as_slice(), at, process.pid) {
        let _before = processes.replace(at, process);
        return Ok(());
    }
    let mut list = std::mem::replace(processes, Items::new(alloc)).into_vec();
    list.insert(at, process)?;
    *processes = Items::of_vec(list);
    Ok(())
}

// How many processes have a lower number.
fn place_for(processes: &[Process], pid: Pid) -> usize
    ensures { result ≡ position_or_len (λ (p : Process). nat_le pid p.pid) processes.now }
{
    for (at, process) in processes.iter().enumerate() {
        if pid <= process.pid {
            return at;
        }
    }
    processes.len()
}

// Whether the process at that place has the number.
fn is_at(processes: &[Process], at: usize, pid: Pid) -> bool
    ensures { result ≡ holds (λ (p : Process). p.pid == pid) (slice_get processes.now at) }
{
    at < processes.len() && processes[at].pid == pid
}
