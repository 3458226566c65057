ghost use Rattle.std.specs.Prelude.{◌≡◌, IfOk, OnOk};
ghost use Rattle.client_file_tables.specs.Steps.{begins, said, keeps, wakes, starts, reports, owns, wakes_all, woken, waits_for, is_room, is_other};

use crate::client_files::ClientFiles;
use crate::moves::Report;
use crate::pending::Pending;
use crate::states::{DataState, SyncState};
use kernel_steps::Out;
use sprite_ids::{Items, NoMemory, Pid, TxNo};
use std::alloc::Global;

impl ClientFiles {
    /// A step begins: nothing is said so far, the first remote call has that number, and the step is that one.
    pub fn begin(&mut self, alloc: Global, next: TxNo, step: u64)
        ensures { self.new ≡ begins next step self.old }
    {
        self.out = Out::new(alloc, next);
        self.step = step;
    }

    /// A step ends: what it said is handed on.
    pub fn end(&mut self, alloc: Global) -> Out
        ensures files { self.new ≡ said self.old }
        ensures out { result ≡ self.old.out }
    {
        std::mem::replace(&mut self.out, Out::new(alloc, TxNo(0)))
    }

    /// Keeps the process's operation until what it waits for comes. The one error is want of memory.
    pub fn keep(&mut self, pid: Pid, operation: Pending) -> Result<(), NoMemory>
        ensures { OnOk result (self.new ≡ keeps pid operation self.old) }
    {
        self.pending.push(pid, operation)
    }

    /// The process's operation looks at everything anew, in this step. The one error is want of memory.
    pub fn wake(&mut self, pid: Pid) -> Result<(), NoMemory>
        ensures { OnOk result (self.new ≡ wakes pid self.old) }
    {
        self.ready.push(pid)
    }

    /// Begins an operation of the process, which looks at everything in this step. The one error is want of memory.
    pub fn start(&mut self, pid: Pid, operation: Pending) -> Result<(), NoMemory>
        ensures { OnOk result (self.new ≡ starts pid operation self.old) }
    {
        self.keep(pid, operation)?;
        self.wake(pid)
    }

    /// Tells the processes' side of the kernel. The one error is want of memory.
    pub fn report(&mut self, report: Report) -> Result<(), NoMemory>
        ensures { OnOk result (self.new ≡ reports report self.old) }
    {
        self.results.append(&[report])
    }

    /// Whether the remote call is one of this side of the kernel that has no answer yet.
    pub fn owns(&self, tx: TxNo) -> bool
        ensures { result ≡ owns tx self.now }
    {
        self.txs.has(&tx) || self.write_backs.has(&tx)
    }

    /// All operations that wait for the answer to that write-back of another's look at everything anew, in the order in
    /// which they began to wait. The one error is want of memory.
    pub fn wake_all(&mut self, alloc: Global, tx: TxNo) -> Result<(), NoMemory>
        ensures { OnOk result (self.new ≡ wakes_all tx self.old) }
    {
        let woken = woken(alloc, tx, self.pending.rows())?;
        self.ready.append(woken.as_slice())
    }
}

// The processes whose operations wait for the answer to that write-back.
fn woken(alloc: Global, tx: TxNo, rows: &[(Pid, Pending)]) -> Result<Items<Pid>, NoMemory>
    ensures { IfOk result (λ pids. pids ≡ woken tx rows.now) }
{
    let mut pids = Items::new(alloc);
    for row in rows {
        if waits_for(tx, &row.1) {
            pids.push(row.0)?;
        }
    }
    Ok(pids)
}

// Whether the operation waits for the answer to a write-back that isn't its own.
fn waits_for(tx: TxNo, operation: &Pending) -> bool
    ensures { result ≡ waits_for tx operation.now }
{
    match operation {
        Pending::Data(call) => is_room(tx, &call.state),
        Pending::Sync(call) => is_other(tx, &call.state),
        _ => false,
    }
}

fn is_room(tx: TxNo, state: &DataState) -> bool
    ensures { result ≡ is_room tx state.now }
{
    match state {
        DataState::Room { tx: other } => *other == tx,
        _ => false,
    }
}

fn is_other(tx: TxNo, state: &SyncState) -> bool
    ensures { result ≡ is_other tx state.now }
{
    match state {
        SyncState::WaitOther { tx: other } => *other == tx,
        _ => false,
    }
}
