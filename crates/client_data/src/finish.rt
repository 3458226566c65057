ghost use Rattle.std.specs.Prelude.{◌≡◌, OnOk};
ghost use Rattle.client_data.specs.Finishes.{keeps_data, finishes, ends_here, ends_there};

use client_file_tables::{ClientFiles, DataCall, DataState, Pending, about};
use process_machine::Reply;
use sprite_ids::{NoMemory, Pid, StreamNo};
use std::alloc::Global;

// The operation waits for that.
pub(crate) fn keep_data(
    files: &mut ClientFiles,
    pid: Pid,
    call: DataCall,
    state: DataState,
) -> Result<(), NoMemory>
    ensures { OnOk result (files.new ≡ keeps_data pid call state files.old) }
{
    files.keep(pid, Pending::Data(DataCall { state, ..call }))
}

// The operation is over: it needs no blocks and no lock any more.
fn finish(files: &mut ClientFiles, pid: Pid, stream: &StreamNo) -> Result<(), NoMemory>
    ensures { OnOk result (files.new ≡ finishes pid stream.now files.old) }
{
    files.leave_filling(pid)?;
    files.unlock(stream)
}

// The call takes effect here and has its reply in this step.
pub(crate) fn end_here(
    files: &mut ClientFiles,
    alloc: Global,
    pid: Pid,
    call: DataCall,
    reply: Reply,
) -> Result<(), NoMemory>
    ensures { OnOk result (files.new ≡ ends_here pid call reply files.old) }
{
    let about = about(pid, call.number);
    let stream = call.stream;
    files.answer_here(alloc, &about, call.into_call(), reply)?;
    finish(files, pid, &stream)
}

// The call took effect at the server and has its reply in this step.
pub(crate) fn end_there(
    files: &mut ClientFiles,
    pid: Pid,
    call: &DataCall,
    reply: Reply,
) -> Result<(), NoMemory>
    ensures { OnOk result (files.new ≡ ends_there pid call.now reply files.old) }
{
    files.reply(pid, reply)?;
    finish(files, pid, &call.stream)
}
