ghost use Rattle.std.specs.Prelude.{◌≡◌, IfOk, OnOk};
ghost use Rattle.client_file_tables.specs.Locks.{gets_lock, locks};
ghost use Rattle.client_file_tables.specs.Streams.{stream_at};
ghost use Rattle.client_data.specs.Looks.{looks, looks_locked, looks_at, does, seeks_here};

use crate::cached::use_cached;
use crate::finish::{end_here, keep_data};
use crate::plan::{Plan, plan_of};
use crate::server_ops::ask_server;
use client_file_tables::{ClientFiles, DataCall, DataState, plain};
use process_machine::Reply;
use sprite_ids::{Errno, NoMemory, Pid};
use std::alloc::Global;
use stream_table::Stream;

/// A reading, writing, seek or size looks at everything anew: whether it has the stream's lock, where the offset is kept,
/// whether the file is cached, which blocks are missing, and whether there is room for them (Nelson, Welch and Ousterhout
/// 1988; Welch 1986). It takes effect, asks the server, or waits. The one error is want of memory.
pub fn look(
    files: &mut ClientFiles,
    alloc: Global,
    pid: Pid,
    call: DataCall,
) -> Result<(), NoMemory>
    ensures { OnOk result (files.new ≡ looks pid call files.old) }
{
    if lock_for(files, pid, &call)? {
        return look_locked(files, alloc, pid, call);
    }
    keep_data(files, pid, call, DataState::WaitLock)
}

// Whether the operation has the stream's lock; else it waits for it.
fn lock_for(files: &mut ClientFiles, pid: Pid, call: &DataCall) -> Result<bool, NoMemory>
    ensures has { IfOk result (λ has. has ≡ gets_lock pid call.now.stream files.old) }
    ensures files { OnOk result (files.new ≡ locks pid call.now.stream files.old) }
{
    files.lock(pid, &call.stream)
}

// The stream is open here: its process is inside the call.
fn look_locked(
    files: &mut ClientFiles,
    alloc: Global,
    pid: Pid,
    call: DataCall,
) -> Result<(), NoMemory>
    ensures { OnOk result (files.new ≡ looks_locked pid call files.old) }
{
    match stream_of(files, &call) {
        Some(stream) => look_at(files, alloc, pid, call, &stream),
        None => keep_data(files, pid, call, DataState::WaitLock),
    }
}

// The operation's stream.
fn stream_of(files: &ClientFiles, call: &DataCall) -> Option<Stream>
    ensures { result ≡ stream_at call.now.stream files.now }
{
    files.streams.stream(call.stream)
}

fn look_at(
    files: &mut ClientFiles,
    alloc: Global,
    pid: Pid,
    call: DataCall,
    stream: &Stream,
) -> Result<(), NoMemory>
    ensures { OnOk result (files.new ≡ looks_at pid call stream.now files.old) }
{
    let plan = plan_of(files, &call, stream);
    carry_out(files, alloc, pid, call, plan, stream.append)
}

fn carry_out(
    files: &mut ClientFiles,
    alloc: Global,
    pid: Pid,
    call: DataCall,
    plan: Plan,
    append: bool,
) -> Result<(), NoMemory>
    ensures { OnOk result (files.new ≡ does plan pid call append files.old) }
{
    match plan {
        Plan::Seek { to } => seek_here(files, alloc, pid, call, to),
        Plan::Refuse => end_here(files, alloc, pid, call, Reply::Error(Errno::TooBig)),
        Plan::Ask { offset } => ask_server(files, alloc, pid, call, offset, append),
        Plan::Tell { size } => { end_here(files, alloc, pid, call, plain(alloc, u64::from(size))) }
        Plan::Use { extent } => use_cached(files, alloc, pid, call, &extent),
    }
}

fn seek_here(
    files: &mut ClientFiles,
    alloc: Global,
    pid: Pid,
    call: DataCall,
    to: u32,
) -> Result<(), NoMemory>
    ensures { OnOk result (files.new ≡ seeks_here pid call to files.old) }
{
    files.move_offset(&call.stream, u64::from(to))?;
    end_here(files, alloc, pid, call, plain(alloc, u64::from(to)))
}
