ghost use Rattle.std.specs.Prelude.{◌≡◌, IfOk, OnOk, Some, option_map};
ghost use Rattle.std.specs.List.{find, list_any};
ghost use Rattle.std.specs.Map.{keys_of};
ghost use Rattle.std.specs.Option.{is_some, option_or};
ghost use Rattle.unix_calls.specs.Answers.{program_at};
ghost use Rattle.unix_calls.specs.Lawful.{Lawful};
ghost use Rattle.cluster_bursts.specs.Bursts.{begun_by, came_to, has_counted, has_job_at, is_as_it_was, is_image, is_next, is_runnable, issued, next_at, job_at, job_by, job_with, Did, EndsAs, EndsSo, GoesOn, same_image};
ghost use Rattle.cluster_bursts.specs.Ends.{EndsBurst};
ghost use Rattle.cluster_kernels.specs.States.{count_at, image_at, put_image};
ghost use Rattle.unix_calls.specs.declared.Event.TheVariants.{Burst as Ran};

use crate::job::{Burst, Job};
use crate::outcome::BurstOutcome;
use client_homes::Proc;
use cluster_kernels::State;
use cluster_steps::take;
use kernel_rpc::Wire;
use kernel_steps::Input;
use link_plan::Link;
use process_machine::{BurstEnd, Call, Image, Program, call_of};
use sprite_ids::{Copying, Items, Kernel, NoMemory, Pid};
use std::alloc::Global;
use std::collections::BTreeMap;
use unix_calls::{Description, Event, ProgramLine};
use wire_format::Packet;

// Whether the process can run at the kernel and doesn't run now.
fn is_runnable(state: &State, kernel: Kernel, pid: Pid) -> bool
    ensures { result ≡ is_runnable kernel state.now pid }
{
    state.is_ready(kernel, pid) && !state.out.has_row(&kernel, &pid)
}

/// Whether a process of the kernel can run and doesn't run now: it looks at them up to the first, and takes no memory.
pub fn has_job(state: &State, kernel: Kernel) -> bool
    ensures { result ≡ has_job_at kernel state.now }
{
    match state.client(kernel) {
        Some(client) => is_any_runnable(state, kernel, client.procs.entries()),
        None => false,
    }
}

// Whether one of the processes can run at the kernel and doesn't run now.
fn is_any_runnable(state: &State, kernel: Kernel, procs: &BTreeMap<Pid, Proc>) -> bool
    ensures { result ≡ list_any (is_runnable kernel state.now) (keys_of procs.now.entries) }
{
    for pid in procs.keys() {
        if is_runnable(state, kernel, *pid) {
            return true;
        }
    }
    false
}

/// The next job of the kernel, whose burst is out from now on; None exactly where no process of it can run. The one error is want of
/// memory; it is also the answer where the next process has no image or no program here, which never comes.
pub fn begin_burst(
    alloc: Global,
    c: &Description,
    state: &mut State,
    kernel: Kernel,
) -> Result<Option<Job>, NoMemory>
    ensures job { IfOk result (λ job. job ≡ job_at c.now kernel state.old) }
    ensures has { IfOk result (λ job. is_some job ≡ has_job_at kernel state.old) }
    ensures state { IfOk result (λ job. state.new ≡ begun_by kernel job state.old) }
{
    match next_at(state, kernel) {
        Some(pid) => {
            let job = begin(alloc, c, state, kernel, pid)?;
            Ok(Some(job))
        }
        None => Ok(None),
    }
}

// The process of the kernel that is next.
fn next_at(state: &State, kernel: Kernel) -> Option<Pid>
    ensures { result ≡ next_at kernel state.now }
{
    match state.client(kernel) {
        Some(client) => next_of(state, kernel, client.procs.entries()),
        None => None,
    }
}

// The process that is next, among those.
fn next_of(state: &State, kernel: Kernel, procs: &BTreeMap<Pid, Proc>) -> Option<Pid>
    ensures { result ≡ option_or (find (is_next kernel state.now (count_at state.now.last kernel)) (keys_of procs.now.entries)) (find (is_runnable kernel state.now) (keys_of procs.now.entries)) }
{
    match first_after(state, kernel, procs, state.last_of(kernel)) {
        Some(pid) => Some(pid),
        None => first_of(state, kernel, procs),
    }
}

// The first of the processes that can run and has a greater number than that.
fn first_after(state: &State, kernel: Kernel, procs: &BTreeMap<Pid, Proc>, last: u32) -> Option<Pid>
    ensures { result ≡ find (is_next kernel state.now last) (keys_of procs.now.entries) }
{
    for pid in procs.keys() {
        if last < pid.number() && is_runnable(state, kernel, *pid) {
            return Some(*pid);
        }
    }
    None
}

// The first of the processes that can run.
fn first_of(state: &State, kernel: Kernel, procs: &BTreeMap<Pid, Proc>) -> Option<Pid>
    ensures { result ≡ find (is_runnable kernel state.now) (keys_of procs.now.entries) }
{
    for pid in procs.keys() {
        if is_runnable(state, kernel, *pid) {
            return Some(*pid);
        }
    }
    None
}

// The job of the process.
fn begin(
    alloc: Global,
    c: &Description,
    state: &mut State,
    kernel: Kernel,
    pid: Pid,
) -> Result<Job, NoMemory>
    ensures job { IfOk result (λ job. Some job ≡ job_by c.now kernel (Some pid) state.old) }
    ensures state { IfOk result (λ job. state.new ≡ begun_by kernel (Some job) state.old) }
{
    let Some(job) = job_of(alloc, c, state, kernel, pid)? else {
        return Err(NoMemory);
    };
    state.put_out(kernel, job.pid)?;
    state.set_last(kernel, job.pid);
    Ok(job)
}

// What the process is to run at the kernel.
fn job_of(
    alloc: Global,
    c: &Description,
    state: &State,
    kernel: Kernel,
    pid: Pid,
) -> Result<Option<Job>, NoMemory>
    ensures { IfOk result (λ job. job ≡ job_by c.now kernel (Some pid) state.now) }
{
    match state.image(kernel, pid) {
        Some(image) => job_with(alloc, c, pid, image),
        None => Ok(None),
    }
}

// What a process of that image is to run.
fn job_with(
    alloc: Global,
    c: &Description,
    pid: Pid,
    image: &Image,
) -> Result<Option<Job>, NoMemory>
    ensures { IfOk result (λ job. job ≡ job_with c.now pid (Some image.now)) }
{
    match program_at(c.programs.as_slice(), image.program_number()) {
        Some(program) => {
            let program = program.copy(alloc)?;
            let from = image.copy(alloc)?;
            let to = image.copy(alloc)?;
            Ok(Some(Job {
                pid,
                program,
                from,
                to,
            }))
        }
        None => Ok(None),
    }
}

// The program of that number, from 1.
fn program_at(lines: &[ProgramLine], number: u8) -> Option<&Program>
    ensures { option_map (λ program. program.now) result ≡ program_at lines.now number }
{
    if number == 0 || number as usize > lines.len() {
        return None;
    }
    Some(&lines[number as usize - 1].program)
}

/// A burst of a process at the kernel ends. It is lost exactly where the process has none out there, can't run there, or isn't what
/// it was when the burst began; else the process has done it, and the kernel takes what the process came to. It tells whether the
/// burst counted. The one error is want of memory.
pub fn end_burst<L: Link>(
    alloc: Global,
    c: &Description,
    state: &mut State,
    wire: &mut Wire<Packet, L>,
    kernel: Kernel,
    burst: Burst,
) -> Result<bool, NoMemory>
    requires lawful { Lawful c.now }
    requires did { Did c.now burst }
    ensures { IfOk result (λ counted. EndsBurst L.faults L.asked c.now kernel burst counted wire.old wire.new state.old state.new) }
{
    let ended = end_as(alloc, c, state, wire, kernel, burst)?;
    Ok(has_counted(&ended))
}

// Whether the burst counted.
fn has_counted(ended: &BurstOutcome) -> bool
    ensures { result ≡ has_counted ended.now }
{
    match ended {
        BurstOutcome::Stale => false,
        BurstOutcome::Done | BurstOutcome::Took(_) => true,
    }
}

// The burst ends, and what became of it comes back. The one error is want of memory.
fn end_as<L: Link>(
    alloc: Global,
    c: &Description,
    state: &mut State,
    wire: &mut Wire<Packet, L>,
    kernel: Kernel,
    burst: Burst,
) -> Result<BurstOutcome, NoMemory>
    requires lawful { Lawful c.now }
    requires ends { EndsSo burst }
    ensures { IfOk result (λ ended. EndsAs L.faults L.asked c.now kernel burst ended wire.old wire.new state.old state.new) }
{
    let was_out = state.out.take_row(&kernel, &burst.pid);
    let stays = is_as_it_was(state, kernel, burst.pid, &burst.from);
    if !was_out || !stays {
        return Ok(BurstOutcome::Stale);
    }
    state.note_step(kernel, event_of(&burst))?;
    let input = came_to(alloc, state, kernel, &burst)?;
    put(state, kernel, burst);
    go_on(alloc, c, state, wire, kernel, input)
}

// The record of a burst.
fn event_of(burst: &Burst) -> Event
    ensures { result ≡ Ran burst.now.pid burst.now.count }
{
    Event::Burst {
        pid: burst.pid,
        count: burst.count,
    }
}

// The kernel takes what the process came to, where it came to something.
fn go_on<L: Link>(
    alloc: Global,
    c: &Description,
    state: &mut State,
    wire: &mut Wire<Packet, L>,
    kernel: Kernel,
    input: Option<Input>,
) -> Result<BurstOutcome, NoMemory>
    requires lawful { Lawful c.now }
    ensures { IfOk result (λ ended. GoesOn L.faults L.asked c.now kernel input ended wire.old wire.new state.old state.new) }
{
    match input {
        Some(input) => {
            let said = take(alloc, c, state, wire, kernel, input)?;
            Ok(BurstOutcome::Took(said))
        }
        None => Ok(BurstOutcome::Done),
    }
}

// Whether the process can run at the kernel and has that image.
fn is_as_it_was(state: &State, kernel: Kernel, pid: Pid, from: &Image) -> bool
    ensures { result ≡ is_as_it_was kernel pid from.now state.now }
{
    has_image(state, kernel, pid, from) && state.is_ready(kernel, pid)
}

// Whether the process has that image at the kernel.
fn has_image(state: &State, kernel: Kernel, pid: Pid, from: &Image) -> bool
    ensures { result ≡ is_image (image_at kernel pid state.now) from.now }
{
    match state.image(kernel, pid) {
        Some(image) => is_same(image, from),
        None => false,
    }
}

// Whether the images are the same.
fn is_same(one: &Image, other: &Image) -> bool
    ensures { result ≡ same_image one.now other.now }
{
    one == other
}

// The process has done its burst: the kernel keeps its image.
fn put(state: &mut State, kernel: Kernel, burst: Burst)
    ensures { state.new ≡ put_image kernel burst.pid burst.to state.old }
{
    let Burst { pid, to, .. } = burst;
    state.put_image(kernel, pid, to);
}

// What the process came to by the end of its burst. The one error is want of memory.
fn came_to(
    alloc: Global,
    state: &State,
    kernel: Kernel,
    burst: &Burst,
) -> Result<Option<Input>, NoMemory>
    requires { EndsSo burst.now }
    ensures { IfOk result (λ input. input ≡ came_to kernel burst.now burst.now.end state.now) }
{
    let pid = burst.pid;
    match burst.end {
        BurstEnd::Call => {
            let call = call_of(alloc, &burst.program, &burst.to)?;
            issue(pid, call, state.number(kernel, pid))
        }
        BurstEnd::BadStep => issue(pid, Call::BadStep, state.number(kernel, pid)),
        BurstEnd::PageNeeded(page) => Ok(Some(Input::PageNeeded { pid, page })),
        BurstEnd::Limit => Ok(None),
    }
}

// The next call of a process whose last one has that number. Want of memory is the answer where the next would pass 32 bits.
fn issue(pid: Pid, call: Call, last: Option<u32>) -> Result<Option<Input>, NoMemory>
    ensures { IfOk result (λ input. input ≡ issued pid call last) }
{
    let Some(last) = last else {
        return Ok(None);
    };
    let number = last.checked_add(1).ok_or(NoMemory)?;
    Ok(Some(Input::Issued { pid, number, call }))
}
