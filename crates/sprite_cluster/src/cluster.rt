ghost use Rattle.std.specs.Prelude.{◌≡◌, ◌≢◌, ◌++◌, ◌<◌, false, true, [], IfErr, IfOk, OnErr, OnOk, length};
ghost use Rattle.std.specs.Option.{is_some};
ghost use Rattle.unix_calls.specs.Lawful.{Lawful};
ghost use Rattle.kernel_rpc.specs.Machine.{idle};
ghost use Rattle.link_plan.specs.Counts.{Stay};
ghost use Rattle.cluster_kernels.specs.Booted.{IsBooted};
ghost use Rattle.cluster_choices.specs.Choosing.{choices_at};
ghost use Rattle.cluster_bursts.specs.Bursts.{begun_by, has_job_at, job_at, Did};
ghost use Rattle.sprite_cluster.specs.Finishing.{stands_so};
ghost use Rattle.sprite_cluster.specs.Logs.{Holds, TellsFaults};
ghost use Rattle.call_journal.specs.Journal.{records_by};
ghost use Rattle.kernel_threads.specs.Steps.{IsAmong};
ghost use Rattle.sprite_cluster.specs.Reached.{Reached};
ghost use Rattle.sprite_cluster.specs.Steps.{begun_turn, EndedSo, MadeChoice};
ghost use Rattle.sprite_cluster.specs.Wires.{TellsWire};

use crate::finishing::finish;
use crate::writing::write;
use call_journal::{Closed, Trace};
use cluster_bursts::{Burst, Job};
use cluster_choices::Choice;
use cluster_kernels::State;
use kernel_rpc::Wire;
use kernel_threads::EndBurst;
use link_plan::Link;
use sprite_ids::{Finish, Kernel, NoMemory};
use std::alloc::Global;
use std::snapshot::Snapshot;
use unix_calls::Description;
use wire_format::Packet;

/// A cluster of kernels with the packets between them, which goes on one kernel's step at a time (this project).
///
/// After want of memory in a call the cluster is closed: its trace is the one before the call, and its finish is `OutOfMemory`.
#[derive(Drop)]
pub struct Cluster<L: Link> {
    /// What is run.
    pub description: Description,
    /// The kernels.
    pub state: State,
    /// The remote calls that aren't finished and the copies of packets in flight, over the link.
    pub wire: Wire<Packet, L>,
    /// What the kernels did, in its order.
    pub trace: Trace,
    /// The link as it was before the boot.
    pub begun: Snapshot<L>,
    /// Whether memory was wanting.
    pub closed: bool,
}

impl<L: Link> Cluster<L> {
    /// The described cluster at its start, over that link, which makes the description's faults from now on. The one error is want
    /// of memory, and hands the link back.
    pub fn boot(alloc: Global, description: Description, link: L) -> Result<Cluster<L>, L>
        ensures described { IfOk result (λ cluster. cluster.description ≡ description) }
        ensures open { IfOk result (λ cluster. cluster.closed ≡ false) }
        ensures booted { IfOk result (λ cluster. IsBooted description cluster.state) }
        ensures idle { IfOk result (λ cluster. cluster.wire.machine ≡ idle) }
        ensures nothing_written { IfOk result (λ cluster. cluster.trace ≡ []) }
        ensures begun { IfOk result (λ cluster. cluster.begun.value ≡ link) }
        ensures counts { IfOk result (λ cluster. Stay (L.faults link) (L.asked link) (L.faults cluster.wire.link) (L.asked cluster.wire.link)) }
        ensures given_back { IfErr result (λ back. Stay (L.faults link) (L.asked link) (L.faults back) (L.asked back)) }
    {
        let begun = Snapshot::of(&link);
        let mut link = link;
        let Ok(()) = link.load(alloc, &description.plan) else {
            return Err(link);
        };
        let wire = Wire::new(alloc, link)?;
        match cluster_kernels::boot(alloc, &description) {
            Ok(state) => Ok(Cluster {
                description,
                state,
                wire,
                trace: Trace::new(alloc),
                begun,
                closed: false,
            }),
            Err(NoMemory) => Err(wire.into_link()),
        }
    }

    /// The choice, one of the kernel's, happens. The one error is want of memory.
    pub fn step(&mut self, alloc: Global, kernel: Kernel, choice: Choice) -> Result<(), NoMemory>
        requires lawful { Lawful self.old.description }
        requires among { IsAmong choice (choices_at kernel self.old.state self.old.wire.machine) }
        ensures ok { OnOk result (MadeChoice L.faults L.asked self.old.description kernel choice self.old.wire self.new.wire self.old.state self.new.state self.old.trace self.new.trace) }
        ensures open { OnOk result (self.new.closed ≡ self.old.closed) }
        ensures err { OnErr result (self.new.closed ≡ true) }
        ensures err_trace { OnErr result (self.new.trace ≡ self.old.trace) }
        ensures description { self.new.description ≡ self.old.description }
        ensures begun { self.new.begun ≡ self.old.begun }
    {
        self.state.begin_turn(alloc);
        let happened = cluster_choices::happen(
            alloc,
            &self.description,
            &mut self.state,
            &mut self.wire,
            kernel,
            choice,
        );
        match happened {
            Ok(()) => self.write(alloc, kernel),
            Err(NoMemory) => {
                self.closed = true;
                Err(NoMemory)
            }
        }
    }

    // What the kernel told since its turn began stands in the trace. The one error is want of memory, and then the cluster is closed.
    fn write(&mut self, alloc: Global, kernel: Kernel) -> Result<(), NoMemory>
        ensures written { OnOk result (self.new.trace ≡ self.old.trace ++ records_by kernel self.old.state.told) }
        ensures some { OnOk result (0 < length self.old.state.told) }
        ensures state { OnOk result (self.new.state ≡ begun_turn self.old.state) }
        ensures open { OnOk result (self.new.closed ≡ self.old.closed) }
        ensures err { OnErr result (self.new.closed ≡ true) }
        ensures err_trace { OnErr result (self.new.trace ≡ self.old.trace) }
        ensures description { self.new.description ≡ self.old.description }
        ensures begun { self.new.begun ≡ self.old.begun }
        ensures wire { self.new.wire ≡ self.old.wire }
    {
        match write(alloc, &mut self.trace, kernel, &mut self.state.told) {
            Ok(()) => Ok(()),
            Err(NoMemory) => {
                self.closed = true;
                Err(NoMemory)
            }
        }
    }

    /// Whether a process at the kernel can run and has no burst out.
    pub fn has_job(&self, kernel: Kernel) -> bool
        ensures { result ≡ has_job_at kernel self.now.state }
    {
        cluster_bursts::has_job(&self.state, kernel)
    }

    /// The process of the kernel whose turn it is, with its program and two copies of its image; None exactly where none can run.
    /// From now on its burst is out. The one error is want of memory.
    pub fn begin_burst(&mut self, alloc: Global, kernel: Kernel) -> Result<Option<Job>, NoMemory>
        ensures job { IfOk result (λ job. job ≡ job_at self.old.description kernel self.old.state) }
        ensures has { IfOk result (λ job. is_some job ≡ has_job_at kernel self.old.state) }
        ensures state { IfOk result (λ job. self.new.state ≡ begun_by kernel job self.old.state) }
        ensures open { OnOk result (self.new.closed ≡ self.old.closed) }
        ensures err { OnErr result (self.new.closed ≡ true) }
        ensures description { self.new.description ≡ self.old.description }
        ensures begun { self.new.begun ≡ self.old.begun }
        ensures trace { self.new.trace ≡ self.old.trace }
        ensures wire { self.new.wire ≡ self.old.wire }
    {
        match cluster_bursts::begin_burst(alloc, &self.description, &mut self.state, kernel) {
            Ok(job) => Ok(job),
            Err(NoMemory) => {
                self.closed = true;
                Err(NoMemory)
            }
        }
    }

    /// A burst of a process at the kernel ends, and the kernel takes what the process came to. The one error is want of memory.
    pub fn end_burst(
        &mut self,
        alloc: Global,
        kernel: Kernel,
        burst: Burst,
    ) -> Result<EndBurst, NoMemory>
        requires lawful { Lawful self.old.description }
        requires did { Did self.old.description burst }
        ensures ok { IfOk result (λ end. EndedSo L.faults L.asked self.old.description kernel burst end self.old.wire self.new.wire self.old.state self.new.state self.old.trace self.new.trace) }
        ensures open { OnOk result (self.new.closed ≡ self.old.closed) }
        ensures err { OnErr result (self.new.closed ≡ true) }
        ensures err_trace { OnErr result (self.new.trace ≡ self.old.trace) }
        ensures description { self.new.description ≡ self.old.description }
        ensures begun { self.new.begun ≡ self.old.begun }
    {
        self.state.begin_turn(alloc);
        let ended = cluster_bursts::end_burst(
            alloc,
            &self.description,
            &mut self.state,
            &mut self.wire,
            kernel,
            burst,
        );
        match ended {
            Ok(true) => {
                self.write(alloc, kernel)?;
                Ok(EndBurst::Taken)
            }
            Ok(false) => Ok(EndBurst::Stale),
            Err(NoMemory) => {
                self.closed = true;
                Err(NoMemory)
            }
        }
    }

    /// How the run stands: the first that holds of `OutOfMemory`, `AllEnded`, `Budget`, `Running` and `Stalled`. Where memory is
    /// wanting to find that out, the cluster is closed.
    pub fn finish(&mut self) -> Finish
        ensures stands { result ≡ stands_so self.new.closed self.new.description self.new.trace self.new.wire.machine self.new.state }
        ensures ok { result ≢ Finish.OutOfMemory → self.new ≡ self.old }
        ensures description { self.new.description ≡ self.old.description }
        ensures begun { self.new.begun ≡ self.old.begun }
        ensures trace { self.new.trace ≡ self.old.trace }
        ensures closed { self.old.closed ≡ true → self.new.closed ≡ true }
        ensures open { self.new.closed ≡ false → self.new ≡ self.old }
    {
        if self.closed {
            return Finish::OutOfMemory;
        }
        match finish(&self.description, &self.trace, &self.wire, &self.state) {
            Ok(finish) => finish,
            Err(NoMemory) => {
                self.closed = true;
                Finish::OutOfMemory
            }
        }
    }

    /// The run as it stands, with that finish, and the link. Where memory wasn't wanting, its trace tells of no more faults than the
    /// link counted since before the boot, and of packets what the wire did, and the cluster is one that a run of its description reaches.
    pub fn close(self, finish: Finish) -> (Closed, L)
        requires { Holds L.faults L.asked self.description self.closed self.begun.value self.wire self.state self.trace }
        ensures closed { result.0 ≡ record { description = self.description; trace = self.trace; finish = finish } }
        ensures link { result.1 ≡ self.wire.link }
        ensures faults { self.closed ≡ false → TellsFaults L.faults self.begun.value result.1 result.0.trace }
        ensures wire { self.closed ≡ false → TellsWire L.faults L.asked self.begun.value result.1 result.0.trace }
        ensures reached { self.closed ≡ false → Reached L.faults L.asked result.0.description self.begun.value (record { wire = self.wire; state = self.state; trace = result.0.trace }) }
    {
        let Cluster {
            description,
            state: _state,
            wire,
            trace,
            begun: _begun,
            closed: _closed,
        } = self;
        let closed = Closed {
            description,
            trace,
            finish,
        };
        (closed, wire.into_link())
    }

    /// The link of a cluster whose run is given up.
    pub fn into_link(self) -> L
        ensures { result ≡ self.wire.link }
    {
        let Cluster {
            description: _description,
            state: _state,
            wire,
            trace: _trace,
            begun: _begun,
            closed: _closed,
        } = self;
        wire.into_link()
    }
}
