ghost use Rattle.std.specs.Prelude.{◌≡◌, IfOk, OnOk};
ghost use Rattle.write_delay.specs.Delays.{due};
ghost use Rattle.client_files.specs.FileSteps.{files_step, takes, takes_request};

use crate::answered::replied;
use crate::calls::issue;
use crate::turns::go_on;
use client_data::{callback, write_back_due};
use client_file_tables::{ClientFiles, about};
use client_names::give_up_name;
use kernel_steps::{Input, Out};
use packet_bodies::Request;
use sprite_ids::{BlockNo, FileId, NoMemory, TxNo};
use std::alloc::Global;

/// Does one step of the files' side of a client kernel: with a call of a process, a callback of a server, an answer, the end of
/// the tries of a broadcast or echo, or a block whose write-back is due. `step` is the kernel's count of recorded steps, this
/// one among them, and the first remote call of the step has the number `next`. What comes back is all that the step says, in
/// its order (Nelson, Welch and Ousterhout 1988; Welch and Ousterhout 1986; the order of records is this project's).
///
/// It is for this side alone: in a whole kernel the processes' side decides which calls and answers come here. The one error is
/// want of memory, which is also the answer where a counter of 32 bits, of a stream's grants or of the cache has come to its
/// limit. The kernel is then of no use any more.
pub fn take(
    files: &mut ClientFiles,
    alloc: Global,
    input: &Input,
    next: TxNo,
    step: u64,
) -> Result<Out, NoMemory>
    ensures { IfOk result (λ out. files_step files.old input.now next step ≡ (files.new, out)) }
{
    files.begin(alloc, next, step);
    take_input(files, alloc, input)?;
    go_on(files, alloc)?;
    Ok(files.end(alloc))
}

/// The block of which a write-back is due in that step: of those that have waited to be written back long enough, the one that
/// was made dirty first; None exactly where there is none (Nelson, Welch and Ousterhout 1988). `take` is given it as `Due`.
pub fn due(files: &ClientFiles, step: u64) -> Option<(FileId, BlockNo)>
    ensures { result ≡ due files.now.delay step }
{
    files.delay.due(step)
}

// What comes changes the state, and may end operations or wake some.
fn take_input(files: &mut ClientFiles, alloc: Global, input: &Input) -> Result<(), NoMemory>
    ensures { OnOk result (files.new ≡ takes input.now files.old) }
{
    match input {
        Input::Issued { pid, number, call } => {
            let about = about(*pid, *number);
            issue(files, alloc, &about, call, &None)
        }
        Input::Request { tx, body, .. } => take_request(files, *tx, body),
        Input::Replied { tx, from, body } => replied(files, alloc, *tx, *from, body),
        Input::GaveUp { tx } => give_up_name(files, alloc, *tx),
        Input::Due { file, block } => write_back_due(files, alloc, file, *block),
        Input::PageNeeded { .. } => Ok(()),
    }
}

// Servers ask nothing of this side but callbacks.
fn take_request(files: &mut ClientFiles, tx: TxNo, body: &Request) -> Result<(), NoMemory>
    ensures { OnOk result (files.new ≡ takes_request tx body.now files.old) }
{
    match body {
        Request::Callback(request) => callback(files, tx, request),
        _ => Ok(()),
    }
}
