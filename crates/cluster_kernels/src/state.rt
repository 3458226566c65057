ghost use Rattle.std.specs.Prelude.{◌≡◌, ◌<◌, ◌-◌, [], IfOk, OnOk, option_map};
ghost use Rattle.cluster_kernels.specs.States.{as_client, can_take_at, client_at, count_at, counted, due_at, image_at, is_ready_at, kernel_at, noted_step, numbered_at, put_image, put_out, stepped, with_last};

use crate::kernel_state;
use crate::kernel_state::{KernelState, step_kernel};
use client_procs::ClientProcs;
use kernel_steps::{Input, Out, Queue};
use process_machine::Image;
use sprite_ids::{BlockNo, FileId, Items, Kernel, NoMemory, Pid, TxNo};
use std::alloc::Global;
use unix_calls::Event;

/// The kernels of a cluster and what they did so far.
#[derive(Debug, Drop)]
pub struct State {
    /// The kernels, by their numbers from 1.
    pub kernels: Items<KernelState>,
    /// How many steps of each kernel are recorded.
    pub steps: Items<u64>,
    /// The number of the process that each kernel ran last, 0 where it ran none.
    pub last: Items<u32>,
    /// The processes that do instructions now, each under the kernel on which it does.
    pub out: Queue<Kernel, Pid>,
    /// What the kernel whose turn it is did since its turn began, in its order.
    pub told: Items<Event>,
}

impl State {
    // The kernel of that number; None exactly where there is none.
    fn kernel(&self, kernel: Kernel) -> Option<&KernelState>
        ensures { option_map (λ found. found.now) result ≡ kernel_at kernel self.now }
    {
        let place = kernel.number() as usize - 1;
        if place < self.kernels.len() {
            return Some(self.kernels.at(place));
        }
        None
    }

    /// The client of that number; None exactly where there is none.
    pub fn client(&self, kernel: Kernel) -> Option<&ClientProcs>
        ensures { option_map (λ client. client.now) result ≡ client_at kernel self.now }
    {
        match self.kernel(kernel) {
            Some(found) => as_client(found),
            None => None,
        }
    }

    /// How many steps of the kernel are recorded.
    pub fn steps_of(&self, kernel: Kernel) -> u64
        ensures { result ≡ count_at self.now.steps kernel }
    {
        let steps = self.steps.as_slice();
        let place = kernel.number() as usize - 1;
        if place < steps.len() { steps[place] } else { 0 }
    }

    /// The number of the process that the kernel ran last, 0 where it ran none.
    pub fn last_of(&self, kernel: Kernel) -> u32
        ensures { result ≡ count_at self.now.last kernel }
    {
        let last = self.last.as_slice();
        let place = kernel.number() as usize - 1;
        if place < last.len() { last[place] } else { 0 }
    }

    /// The kernel ran that process last.
    pub fn set_last(&mut self, kernel: Kernel, pid: Pid)
        ensures { self.new ≡ with_last kernel pid self.old }
    {
        let place = kernel.number() as usize - 1;
        if place < self.last.len() {
            let _before = self.last.replace(place, pid.number());
        }
    }

    // Counts one recorded step of the kernel. Want of memory is the answer where the count would pass 64 bits.
    fn count_step(&mut self, kernel: Kernel) -> Result<(), NoMemory>
        ensures { OnOk result (self.new ≡ counted kernel self.old) }
    {
        let count = self.steps_of(kernel).checked_add(1).ok_or(NoMemory)?;
        let place = kernel.number() as usize - 1;
        if place < self.steps.len() {
            let _before = self.steps.replace(place, count);
        }
        Ok(())
    }

    /// Tells a step of the kernel, and counts it. The one error is want of memory, also where the count would pass 64 bits.
    pub fn note_step(&mut self, kernel: Kernel, event: Event) -> Result<(), NoMemory>
        ensures { OnOk result (self.new ≡ noted_step kernel event self.old) }
    {
        self.count_step(kernel)?;
        self.told.push(event)
    }

    /// A turn begins: nothing is told yet.
    pub fn begin_turn(&mut self, alloc: Global)
        ensures { self.new ≡ record self.old { told = [] } }
    {
        self.told = Items::new(alloc);
    }

    /// The kernel does one step; what it says comes back. The one error is want of memory.
    pub fn step(
        &mut self,
        alloc: Global,
        kernel: Kernel,
        input: &Input,
        next: TxNo,
    ) -> Result<Out, NoMemory>
        ensures { IfOk result (λ out. stepped kernel input.now next self.old ≡ (self.new, out)) }
    {
        let step = self.steps_of(kernel);
        let place = kernel.number() as usize - 1;
        if place < self.kernels.len() {
            return step_kernel(alloc, self.kernels.at_mut(place), input, next, step);
        }
        Ok(Out::new(alloc, next))
    }

    /// Whether the kernel can take what comes: a process that it brings to a client is neither there nor on its way from there, and was
    /// born, where that is its home; the stream that a name call makes, which it answers, isn't open; and a server that is asked for a
    /// page keeps it (Douglis and Ousterhout 1991; this project). The one error is want of memory.
    pub fn can_take(&self, alloc: Global, kernel: Kernel, input: &Input) -> Result<bool, NoMemory>
        ensures { IfOk result (λ can. can ≡ can_take_at kernel input.now self.now) }
    {
        match self.kernel(kernel) {
            Some(found) => kernel_state::can_take(alloc, found, input),
            None => Ok(true),
        }
    }

    /// The process has that image from now on, where it is kept at the kernel.
    pub fn put_image(&mut self, kernel: Kernel, pid: Pid, image: Image)
        ensures { self.new ≡ put_image kernel pid image self.old }
    {
        let place = kernel.number() as usize - 1;
        if place < self.kernels.len() {
            kernel_state::put_image(self.kernels.at_mut(place), pid, image);
        }
    }

    /// The block of the kernel that is due to be written back (Nelson, Welch and Ousterhout 1988).
    pub fn due(&self, kernel: Kernel) -> Option<(FileId, BlockNo)>
        ensures { result ≡ due_at kernel self.now }
    {
        let step = self.steps_of(kernel);
        match self.client(kernel) {
            Some(client) => client_procs::due(client, step),
            None => None,
        }
    }

    /// Whether the process is kept at the kernel, has no unreturned call and waits for no page.
    pub fn is_ready(&self, kernel: Kernel, pid: Pid) -> bool
        ensures { result ≡ is_ready_at kernel pid self.now }
    {
        match self.client(kernel) {
            Some(client) => client_procs::ready(client, pid),
            None => false,
        }
    }

    /// The image that the kernel keeps of the process; None exactly where it isn't kept there.
    pub fn image(&self, kernel: Kernel, pid: Pid) -> Option<&Image>
        ensures { option_map (λ image. image.now) result ≡ image_at kernel pid self.now }
    {
        match self.client(kernel) {
            Some(client) => client_procs::image(client, pid),
            None => None,
        }
    }

    /// The number of the last call of the process; None exactly where it isn't kept at the kernel.
    pub fn number(&self, kernel: Kernel, pid: Pid) -> Option<u32>
        ensures { result ≡ numbered_at kernel pid self.now }
    {
        match self.client(kernel) {
            Some(client) => client_procs::number(client, pid),
            None => None,
        }
    }

    /// The burst of the process is out at the kernel. After want of memory, the one error, all is as before.
    pub fn put_out(&mut self, kernel: Kernel, pid: Pid) -> Result<(), NoMemory>
        ensures { OnOk result (self.new ≡ put_out kernel pid self.old) }
    {
        self.out.push(kernel, pid)
    }
}

// The kernel, where it is a client.
fn as_client(kernel: &KernelState) -> Option<&ClientProcs>
    ensures { option_map (λ client. client.now) result ≡ as_client kernel.now }
{
    match kernel {
        KernelState::Client(client) => Some(client),
        KernelState::Server(_) => None,
    }
}
